//! Passes, for every kind of plan, and who works on them.
ghost use Rattle.std.specs.Prelude.{◌≤◌};

use crate::examples::{ALL, ONE_PASS, OVER_ITEMS, is_right};
use chunk_seats::OpenGate;
use std::alloc::Global;
use std::process::Abort;
use std::test::*;
use std::thread::Threads;
use test_gates::{Meeting, PLANS, Roll, at};

fn examples<R: Threads + Abort + Sync>(
    rt: &R,
    alloc: Global,
    plan: (u32, u32),
    n: usize,
) -> Result<(), Fail>
    requires { n ≤ 3 }
{
    let crew = at(rt, alloc, plan, &OpenGate)?;
    for example in 0..ALL {
        assert!(rt;
            is_right(&crew, example, n)?,
            "example {example} of {n} items"
        );
    }
    Ok(())
}

#[test]
fn the_same_for_every_plan(rt: HostRuntime) -> Result<(), Fail> {
    for &plan in PLANS {
        for n in 0..4 {
            examples(&rt, rt.alloc(), plan, n)?;
        }
    }
    Ok(())
}

// How a gate is told of an example.
fn rolls<R: Threads + Abort + Sync>(
    rt: &R,
    alloc: Global,
    plan: (u32, u32),
    example: u32,
    n: usize,
) -> Result<(u64, u64), Fail>
    requires { n ≤ 3 }
{
    let roll = Roll::new();
    let crew = at(rt, alloc, plan, &roll)?;
    assert!(rt; is_right(&crew, example, n)?);
    Ok(roll.told())
}

// Plans and numbers of items, and how a gate is told: no more workers than chunks, two for so few items, and one where there is no chunk.
const ROLLS: &[((u32, u32), usize, (u64, u64))] = &[
    ((2, 1), 3, (0x0101, 0b111)),
    ((64, 1), 3, (0x0101, 0b111)),
    ((64, 2), 3, (0x0101, 0b11)),
    ((64, 2), 2, (1, 0b1)),
    ((64, 2), 0, (1, 0)),
    ((1, 2), 3, (1, 0b11)),
    ((1, 2), 2, (1, 0b1)),
    ((1, 2), 0, (1, 0)),
];

#[test]
fn each_worker_tells_its_number(rt: HostRuntime) -> Result<(), Fail> {
    for &(plan, n, roll) in ROLLS {
        for example in 0..OVER_ITEMS {
            let found = rolls(&rt, rt.alloc(), plan, example, n.min(3))?;
            assert_eq!(rt; found, roll, "example {example} of {n} items");
        }
    }
    Ok(())
}

// In how many passes of an example two workers meet, and in how many one draws alone.
fn met<R: Threads + Abort + Sync>(rt: &R, alloc: Global, example: u32) -> Result<(u64, u64), Fail> {
    let gate = Meeting::new();
    let crew = at(rt, alloc, (2, 1), &gate)?;
    assert!(rt; is_right(&crew, example, 3)?);
    Ok(gate.counts())
}

#[test]
fn two_workers_meet(rt: HostRuntime) -> Result<(), Fail> {
    for example in 0..ONE_PASS {
        assert_eq!(rt; met(&rt, rt.alloc(), example)?, (1, 0), "example {example}");
    }
    Ok(())
}

#[test]
fn two_workers_scatter_parts(rt: HostRuntime) -> Result<(), Fail> {
    // The starts are a pass of their own.
    assert_eq!(rt; met(&rt, rt.alloc(), ALL - 1)?, (2, 0));
    Ok(())
}
