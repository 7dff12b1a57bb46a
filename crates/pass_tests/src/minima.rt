//! Nearest values, for every kind of plan.
use chunk_seats::OpenGate;
use near_smaller::Minima;
use par_passes::Passes;
use std::process::Abort;
use std::test::*;
use test_gates::{Meeting, PLANS, at};

// A place, a value, and the nearest places before and behind with no greater value.
type Question = (usize, i64, Option<usize>, Option<usize>);

const VALUES: [i64; 5] = [3, 1, 4, 1, 5];

const QUESTIONS: [Question; 8] = [
    (4, 3, Some(3), None),
    (3, 0, None, None),
    (1, 1, None, Some(3)),
    (3, 1, Some(1), None),
    (5, 5, Some(4), None),
    (0, 5, None, Some(1)),
    (3, 5, Some(2), Some(4)),
    (4, 5, Some(3), None),
];

fn ask(
    rt: &impl Abort,
    crew: &impl Passes,
    values: &[i64],
    questions: &[Question],
) -> Result<(), Fail> {
    let minima = Minima::build(crew, values)?;
    for (i, x, before, behind) in questions {
        if *i > values.len() {
            return Err("no place".into());
        }
        assert_eq!(rt; minima.prev_le(*i, *x), *before);
        assert_eq!(rt; minima.next_le(*i, *x), *behind);
    }
    Ok(())
}

#[test]
fn the_same_for_every_plan(rt: HostRuntime) -> Result<(), Fail> {
    for &plan in PLANS {
        let crew = at(&rt, rt.alloc(), plan, &OpenGate)?;
        ask(&rt, &crew, &VALUES, &QUESTIONS)?;
        ask(&rt, &crew, &[], &[(0, 5, None, None)])?;
    }
    Ok(())
}

#[test]
fn two_workers_meet(rt: HostRuntime) -> Result<(), Fail> {
    let gate = Meeting::new();
    let crew = at(&rt, rt.alloc(), (2, 1), &gate)?;
    ask(&rt, &crew, &VALUES, &QUESTIONS)?;
    // two pairs of values, and then twice a single pair
    assert_eq!(rt; gate.counts(), (1, 2));
    Ok(())
}
