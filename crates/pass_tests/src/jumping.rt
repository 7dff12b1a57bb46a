//! Nearest marked ancestors, for every kind of plan, and how many rounds they take.
ghost use Rattle.std.specs.Prelude.{◌≡◌, ◌<◌, true};
ghost use Rattle.pointer_jumping.specs.Climbs.{AreUpward};

use chunk_seats::OpenGate;
use par_passes::Passes;
use pointer_jumping::nearest;
use scan_lookback::Steps;
use std::alloc::{AllocError, Global};
use std::marker::Brand;
use std::process::Abort;
use std::sync::ledger::{Blank, Ledger};
use std::test::*;
use std::thread::Threads;
use test_gates::{Meeting, PLANS, Roll, at};

// Whether each parent's number is greater than its child's, and one of a node.
fn are_upward(parents: &[Option<u32>]) -> bool
    ensures { result ≡ true → AreUpward parents.now }
{
    for (node, parent) in parents.iter().enumerate() {
        if let Some(parent) = parent {
            let parent = *parent as usize;
            if parent <= node || parent >= parents.len() {
                return false;
            }
        }
    }
    true
}

// The nearest marked ancestors, where the lists are those of a forest.
fn found<L: Ledger>(
    crew: &impl Passes,
    parents: &[Option<u32>],
    marks: &[bool],
    blank: Blank,
) -> Result<Vec<Option<u32>>, Fail>
    requires ledger { (blank.name ≡ L.name) × (blank.parts ≡ L.parts) × (0 < L.parts) }
{
    if parents.len() >= 1 << 32 || marks.len() != parents.len() || !are_upward(parents) {
        return Err("no forest".into());
    }
    let mut steps = Steps::<L>::new(blank);
    Ok(nearest(crew, parents, marks, &mut steps)?)
}

// Sees that the nodes have these nearest marked ancestors.
fn expect(
    rt: &impl Abort,
    crew: &impl Passes,
    parents: &[Option<u32>],
    marks: &[bool],
    expected: &[Option<u32>],
) -> Result<(), Fail> {
    let all = found::<Brand>(crew, parents, marks, Blank::new(1))?;
    assert!(rt; all.as_slice() == expected);
    Ok(())
}

const NONE: Option<u32> = None;

const CHAIN: [Option<u32>; 3] = [Some(1), Some(2), NONE];

const LAST: [bool; 3] = [false, false, true];

// Two trees: the roots are 4, which is marked, and 7, which is not.
const TREES: [Option<u32>; 8] = [
    Some(2),
    Some(3),
    Some(3),
    Some(4),
    NONE,
    Some(6),
    Some(7),
    NONE,
];

const MARKS: [bool; 8] = [true, true, false, true, true, true, false, false];

const THREE: [Option<u32>; 8] = [Some(3), Some(3), Some(3), Some(4), NONE, NONE, NONE, NONE];

// Parents, marks, and nearest marked ancestors.
type Forest = (
    &'static [Option<u32>],
    &'static [bool],
    &'static [Option<u32>],
);

const FORESTS: [Forest; 4] = [
    (&CHAIN, &LAST, &[Some(2), Some(2), NONE]),
    (&TREES, &MARKS, &THREE),
    (&TREES, &[false; 8], &[NONE; 8]),
    (&[], &[], &[]),
];

#[test]
fn the_same_for_every_plan(rt: HostRuntime) -> Result<(), Fail> {
    for &plan in PLANS {
        let crew = at(&rt, rt.alloc(), plan, &OpenGate)?;
        for (parents, marks, expected) in FORESTS {
            expect(&rt, &crew, parents, marks, expected)?;
        }
    }
    Ok(())
}

// How many rounds are made: two passes are made before them, one behind them, and two in each. One worker tells of the end of each pass.
fn rounds<R: Threads + Abort + Sync>(
    rt: &R,
    alloc: Global,
    parents: &[Option<u32>],
    marks: &[bool],
) -> Result<u64, Fail> {
    let roll = Roll::new();
    let crew = at(rt, alloc, (1, 65536), &roll)?;
    let _all = found::<Brand>(&crew, parents, marks, Blank::new(1))?;
    let (passes, _) = roll.told();
    assert!(rt; passes >= 3 && passes % 2 == 1);
    Ok((passes - 3) / 2)
}

// A chain of this many nodes and a root.
fn chain(alloc: Global, nodes: u32) -> Result<Vec<Option<u32>>, AllocError> {
    let mut parents = Vec::new(alloc);
    for node in 0..nodes {
        parents.push(Some(node.saturating_add(1)))?;
    }
    parents.push(None)?;
    Ok(parents)
}

#[test]
fn rounds_are_few(rt: HostRuntime) -> Result<(), Fail> {
    assert_eq!(rt; rounds(&rt, rt.alloc(), &[], &[])?, 0);
    assert!(rt; rounds(&rt, rt.alloc(), &CHAIN, &LAST)? <= 2);
    let parents = chain(rt.alloc(), 999)?;
    let mut marks = [false; 1000];
    marks[999] = true;
    assert!(rt; rounds(&rt, rt.alloc(), &parents, &marks)? <= 10);
    Ok(())
}

#[test]
fn two_workers_meet(rt: HostRuntime) -> Result<(), Fail> {
    let gate = Meeting::new();
    let crew = at(&rt, rt.alloc(), (2, 1), &gate)?;
    expect(&rt, &crew, &CHAIN, &LAST, FORESTS[0].2)?;
    // the first jumps, two looks for open ones with a round between them, and the answers
    assert_eq!(rt; gate.counts(), (5, 0));
    Ok(())
}
