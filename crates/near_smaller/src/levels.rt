//! Minima of blocks, level by level.
ghost use Rattle.std.specs.Prelude.{◌≡◌, ◌<◌, ◌^◌, length, IfOk};
ghost use Rattle.near_smaller.specs.Levels.{HalvedTo, AreLevels, lists_of, level_at};

use par_passes::{Lift, Passes};
use std::alloc::AllocError;

// This many levels are enough for a list in memory.
const MOST_LEVELS: usize = 61;

// The lesser of two numbers.
struct Lesser;

impl Lift<[i64; 2], i64> for Lesser {
    ghost use Rattle.std.specs.Prelude.{pos, slice_index_or};
    ghost use Rattle.std.specs.Int.{int_min};

    ghost lifted = { λ _ p. int_min (slice_index_or p 0 (pos 0)) (slice_index_or p 1 (pos 0)) };

    fn lift(&self, x: [i64; 2]) -> i64 {
        x[0].min(x[1])
    }
}

// The lesser of each two neighbours, and a last value that has no neighbour as it is.
fn halve(crew: &impl Passes, level: &[i64]) -> Result<Vec<i64>, AllocError>
    ensures { IfOk result (λ v. HalvedTo level.now v.items) }
{
    let (pairs, last) = level.as_chunks::<2>();
    let mut upper = crew.map_lifted(pairs, &Lesser)?;
    upper.reserve_exact(last.len())?;
    upper.extend_from_slice(last)?;
    Ok(upper)
}

/// The values and the minima of their blocks, from two places on up to all.
pub(crate) fn all_levels(crew: &impl Passes, values: &[i64]) -> Result<Vec<Vec<i64>>, AllocError>
    ensures levels { IfOk result (λ v. AreLevels (lists_of v.items)) }
    ensures lowest { IfOk result (λ v. level_at (lists_of v.items) 0 ≡ values.now) }
{
    let mut levels = Vec::with_capacity(crew.alloc(), MOST_LEVELS)?;
    let mut level = Vec::from_slice(crew.alloc(), values)?;
    while level.len() > 1 {
        let upper = halve(crew, &level)?;
        levels.push(level)?;
        level = upper;
    }
    levels.push(level)?;
    Ok(levels)
}
