//! Each pass at a worked example, most of them of as many items as are asked for, which says whether the answer is right. Each stands in a function of its own, since the proof of
//! a long body takes far longer.
ghost use Rattle.std.specs.Prelude.{◌≡◌, ◌≤◌, ◌/◌, Ok};

use crate::callers::*;
use par_passes::Passes;
use std::alloc::AllocError;

// The examples of one pass over this many items, then those of one pass, then those of one pass that tells no gate, and then of more.
pub(crate) const OVER_ITEMS: u32 = 5;

pub(crate) const ONE_PASS: u32 = 13;

pub(crate) const ALL: u32 = 19;

fn maps(crew: &impl Passes, n: usize) -> Result<bool, AllocError>
    requires { n ≤ 3 }
{
    let half = halves(crew, &[2, 4, 7][..n])?;
    Ok(half.as_slice() == &[1, 2, 3][..n])
}

fn maps_by_name(crew: &impl Passes, n: usize) -> Result<bool, AllocError>
    requires { n ≤ 3 }
{
    let low = crew.map_lifted(&[1026, 5, 2047][..n], &Low)?;
    Ok(low.as_slice() == &[2, 5, 1023][..n])
}

fn compacts(crew: &impl Passes, n: usize) -> Result<bool, AllocError>
    requires { n ≤ 3 }
{
    let kept = crew.compact(&[5, 6, 7][..n], &[false, true, true][..n])?;
    Ok(kept.as_slice() == &[6, 7][..n.saturating_sub(1)])
}

fn finds_places(crew: &impl Passes, n: usize) -> Result<bool, AllocError>
    requires { n ≤ 3 }
{
    let places = places_from(crew, &[1, 5, 7][..n], 4)?;
    Ok(places.as_slice() == &[1, 2][..n.saturating_sub(1)])
}

fn tabulates(crew: &impl Passes, n: usize) -> Result<bool, AllocError>
    requires { n ≤ 3 }
{
    let up = rises(crew, &[1, 2, 4, 7][..n + 1])?;
    Ok(up.as_slice() == &[1, 2, 3][..n])
}

fn finds_numbers(crew: &impl Passes, n: usize) -> Result<bool, AllocError>
    requires { n ≤ 3 }
{
    let threes = multiples(crew, 3 * n as u32, 3)?;
    Ok(threes.as_slice() == &[0, 3, 6][..n])
}

fn gathers(crew: &impl Passes) -> Result<bool, AllocError> {
    let moved = in_order(crew, &[5, 6, 7], &[2, 0, 2])?;
    Ok(moved.as_slice() == [7, 5, 7].as_slice())
}

fn scatters(crew: &impl Passes) -> Result<bool, AllocError> {
    let cells = placed(crew, &[2, 0, 1], &[5, 6, 7])?;
    Ok(cells.as_slice() == [6, 7, 5].as_slice())
}

fn finds_least(crew: &impl Passes, n: usize) -> Result<bool, AllocError>
    requires { n ≤ 3 }
{
    let least = crew.least(&[7, 5, 4][..n])?;
    Ok(least == [u64::MAX, 7, 5, 4][n])
}

fn finds_least_of(crew: &impl Passes, n: usize) -> Result<bool, AllocError>
    requires { n ≤ 3 }
{
    let least = lowest_of(crew, &[7, 5, 1028][..n])?;
    Ok(least == [u64::MAX, 7, 5, 4][n])
}

fn scans(crew: &impl Passes, n: usize) -> Result<bool, AllocError>
    requires { n ≤ 3 }
{
    let begins = starts(crew, &[3, 1024, 5][..n])?;
    Ok(begins.as_slice() == &[0, 3, 3, 8][..n + 1])
}

fn lays_lists(crew: &impl Passes, n: usize) -> Result<bool, AllocError>
    requires { n ≤ 3 }
{
    let pairs = doubled(crew, &[5, 6, 7][..n])?;
    Ok(pairs.as_slice() == &[5, 5, 6, 6, 7, 7][..2 * n])
}

// What is made of a number where no memory is needed.
fn half_of(k: u64) -> Result<u64, AllocError>
    ensures { result ≡ Ok (k / 2) }
{
    Ok(k / 2)
}

fn bundles(crew: &impl Passes, n: usize) -> Result<bool, AllocError>
    requires { n ≤ 3 }
{
    let bundles = crew.bundles(n, &half_of)?;
    Ok(bundles.as_slice() == &[0, 0, 1][..n])
}

fn sorts(crew: &impl Passes, n: usize) -> Result<bool, AllocError>
    requires { n ≤ 3 }
{
    let up = ascending(crew, &[9, 6, 5][3 - n..])?;
    Ok(up.as_slice() == &[5, 6, 9][..n])
}

fn keeps_large(crew: &impl Passes, n: usize) -> Result<bool, AllocError>
    requires { n ≤ 3 }
{
    let high = at_least(crew, &[1, 5, 7][..n], 4)?;
    Ok(high.as_slice() == &[5, 7][..n.saturating_sub(1)])
}

fn finds_lowest(crew: &impl Passes, n: usize) -> Result<bool, AllocError>
    requires { n ≤ 3 }
{
    let least = lowest(crew, &[7, 5, 1028][..n])?;
    Ok(least == [u64::MAX, 7, 5, 4][n])
}

fn lowers(crew: &impl Passes, n: usize) -> Result<bool, AllocError>
    requires { n ≤ 3 }
{
    let lower = lowered(crew, &[2, 4, 7][..n])?;
    Ok(lower.as_slice() == &[1, 2, 3][..n])
}

fn classifies(crew: &impl Passes, n: usize) -> Result<bool, AllocError>
    requires { n ≤ 3 }
{
    let table = copies(crew.alloc(), 3u32, 1024)?;
    let class = classes(crew, table.as_slice(), &[9, 1025, 7][..n])?;
    Ok(class.as_slice() == &[3; 3][..n])
}

fn scatters_parts(crew: &impl Passes, n: usize) -> Result<bool, AllocError>
    requires { n ≤ 3 }
{
    let odd = at_odd(crew, &[5, 6, 7][..n])?;
    Ok(odd.as_slice() == &[6][..n / 2])
}

// Whether an example has its answer.
pub(crate) fn is_right(crew: &impl Passes, example: u32, n: usize) -> Result<bool, AllocError>
    requires { n ≤ 3 }
{
    match example {
        0 => maps(crew, n),
        1 => maps_by_name(crew, n),
        2 => compacts(crew, n),
        3 => finds_places(crew, n),
        4 => tabulates(crew, n),
        5 => finds_numbers(crew, n),
        6 => gathers(crew),
        7 => scatters(crew),
        8 => finds_least(crew, n),
        9 => finds_least_of(crew, n),
        10 => scans(crew, n),
        11 => lays_lists(crew, n),
        12 => bundles(crew, n),
        13 => sorts(crew, n),
        14 => keeps_large(crew, n),
        15 => finds_lowest(crew, n),
        16 => lowers(crew, n),
        17 => classifies(crew, n),
        _ => scatters_parts(crew, n),
    }
}
