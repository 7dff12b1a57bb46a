//! Scans and scatters, for every kind of plan, and who works on them.
use crate::scans::{five_items, no_item};
use crate::scatters::{five_values, no_value};
use chunk_seats::{Crew, OpenGate};
use std::alloc::{AllocError, Global};
use std::process::Abort;
use std::test::*;
use std::thread::Threads;
use test_gates::{Meeting, PLANS, Roll, at};

// Whether an example is right: the first two have five items, and the others none.
fn is_right(crew: &impl Crew, example: u32) -> Result<bool, AllocError> {
    match example {
        0 => five_items(crew),
        1 => five_values(crew),
        2 => no_item(crew),
        _ => no_value(crew),
    }
}

#[test]
fn the_same_for_every_plan(rt: HostRuntime) -> Result<(), Fail> {
    for &plan in PLANS {
        let crew = at(&rt, rt.alloc(), plan, &OpenGate)?;
        for example in 0..4 {
            assert!(rt; is_right(&crew, example)?, "example {example}");
        }
    }
    Ok(())
}

// How a gate is told of an example.
fn rolls<R: Threads + Abort + Sync>(
    rt: &R,
    alloc: Global,
    plan: (u32, u32),
    example: u32,
) -> Result<(u64, u64), Fail> {
    let roll = Roll::new();
    let crew = at(rt, alloc, plan, &roll)?;
    assert!(rt; is_right(&crew, example)?);
    Ok(roll.told())
}

// Plans, and how a gate is told of five items: no more workers than chunks.
const ROLLS: &[((u32, u32), (u64, u64))] = &[
    ((4, 1), (0x0101_0101, 0b11111)),
    ((64, 2), (0x0001_0101, 0b111)),
    ((64, 5), (1, 0b1)),
    ((1, 1), (1, 0b11111)),
];

#[test]
fn each_worker_tells_its_number(rt: HostRuntime) -> Result<(), Fail> {
    for &(plan, roll) in ROLLS {
        for example in 0..2 {
            assert_eq!(rt;
                rolls(&rt, rt.alloc(), plan, example)?,
                roll,
                "example {example}"
            );
        }
    }
    // one worker where there is no chunk
    assert_eq!(rt; rolls(&rt, rt.alloc(), (64, 2), 2)?, (1, 0));
    Ok(())
}

// In how many passes of an example two workers meet, and in how many one draws alone.
fn met<R: Threads + Abort + Sync>(rt: &R, alloc: Global, example: u32) -> Result<(u64, u64), Fail> {
    let gate = Meeting::new();
    let crew = at(rt, alloc, (2, 1), &gate)?;
    assert!(rt; is_right(&crew, example)?);
    Ok(gate.counts())
}

#[test]
fn two_workers_meet(rt: HostRuntime) -> Result<(), Fail> {
    for example in 0..2 {
        assert_eq!(rt; met(&rt, rt.alloc(), example)?, (1, 0), "example {example}");
    }
    Ok(())
}
