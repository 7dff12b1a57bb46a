//! Scans, each of which says whether its sums are right.
ghost use Rattle.std.specs.Prelude.{◌<◌, ◌%◌, ◌^◌, length};

use chunk_seats::{Crew, OpenGate};
use scan_lookback::{Count, Lift, scan, scan_lifted};
use std::alloc::AllocError;
use std::marker::Brand;
use std::test::*;
use test_gates::at;

struct Low;

impl Lift<u64, u64> for Low {
    ghost use Rattle.std.specs.Prelude.{◌%◌};

    ghost lifted = { λ _ x. x % 1024 };

    fn lift(&self, x: u64) -> u64 {
        x % 1024
    }
}

fn sums(crew: &impl Crew, items: &[u64]) -> Result<Vec<u64>, AllocError>
    requires { length items.now < 2 ^ 62 }
{
    scan_lifted(crew, &Count, items, &Low)
}

// The sums before each of some items.
pub(crate) fn five_items(crew: &impl Crew) -> Result<bool, AllocError> {
    let all = sums(crew, &[3, 1, 1028, 1, 5])?;
    Ok(all.as_slice() == [0, 3, 4, 8, 9, 14].as_slice())
}

pub(crate) fn no_item(crew: &impl Crew) -> Result<bool, AllocError> {
    let all = sums(crew, &[])?;
    Ok(all.as_slice() == [0].as_slice())
}

#[test]
fn a_thousand_ones(rt: HostRuntime) -> Result<(), Fail> {
    let crew = at(&rt, rt.alloc(), (64, 1), &OpenGate)?;
    let all = sums(&crew, &[1; 1000])?;
    assert_eq!(rt; all.len(), 1001);
    for (i, sum) in all.iter().enumerate() {
        assert_eq!(rt; *sum, i as u64);
    }
    Ok(())
}

#[test]
fn by_a_closure(rt: HostRuntime) -> Result<(), Fail> {
    let crew = at(&rt, rt.alloc(), (2, 2), &OpenGate)?;
    let all = scan::<_, u64, Count, _, Brand>(&crew, &Count, &[3, 1], &|x: u64| x)?;
    assert!(rt; all.as_slice() == [0, 3, 4].as_slice());
    Ok(())
}
