//! Worked examples of the passes, for every kind of plan.
use crate::callers::{ascending, starts};
use chunk_seats::OpenGate;
use par_passes::Passes;
use std::alloc::AllocError;
use std::test::*;
use test_gates::{PLANS, at};

fn maps(crew: &impl Passes) -> Result<bool, AllocError> {
    let more = crew.map(&[1u64, 2], &|x: u64| x.wrapping_add(1))?;
    Ok(more.as_slice() == [2, 3].as_slice())
}

fn compacts(crew: &impl Passes) -> Result<bool, AllocError> {
    let kept = crew.compact(&[5u64, 6, 7], &[true, false, true])?;
    Ok(kept.as_slice() == [5, 7].as_slice())
}

fn finds_least(crew: &impl Passes) -> Result<bool, AllocError> {
    Ok(crew.least(&[4, 2, 9])? == 2 && crew.least(&[])? == u64::MAX)
}

fn sorts(crew: &impl Passes) -> Result<bool, AllocError> {
    let up = ascending(crew, &[3, 1, 2])?;
    Ok(up.as_slice() == [1, 2, 3].as_slice())
}

fn scatters(crew: &impl Passes) -> Result<bool, AllocError> {
    let cells = crew.scatter(&[2, 0], &[7, 9], 4)?;
    Ok(cells.as_slice() == [9, 0, 7, 0].as_slice())
}

fn scatters_nothing(crew: &impl Passes) -> Result<bool, AllocError> {
    let cells = crew.scatter(&[], &[], 2)?;
    Ok(cells.as_slice() == [0, 0].as_slice())
}

fn scans(crew: &impl Passes) -> Result<bool, AllocError> {
    let sums = starts(crew, &[3, 1, 4, 1, 5])?;
    Ok(sums.as_slice() == [0, 3, 4, 8, 9, 14].as_slice())
}

fn is_right(crew: &impl Passes, example: u32) -> Result<bool, AllocError> {
    match example {
        0 => maps(crew),
        1 => compacts(crew),
        2 => finds_least(crew),
        3 => sorts(crew),
        4 => scatters(crew),
        5 => scatters_nothing(crew),
        _ => scans(crew),
    }
}

#[test]
fn worked_examples(rt: HostRuntime) -> Result<(), Fail> {
    for &plan in PLANS {
        let crew = at(&rt, rt.alloc(), plan, &OpenGate)?;
        for example in 0..7 {
            assert!(rt; is_right(&crew, example)?, "example {example}");
        }
    }
    Ok(())
}
