//! The levels of rows.

ghost use Rattle.std.specs.Prelude.{◌≡◌, ◌≤◌, ◌<◌, ◌+◌, ◌-◌, drop, length, slice_index_or, IfOk};
ghost use Rattle.pass_page.specs.Page.{deepest, level, levels};

use ast_rows::Rows;
use ast_rows::reading::number;
use std::alloc::{AllocError, Global};

// The level of row k, from those of the rows behind it.
fn level_of(found: &[u32], k: u32, parent: u32) -> u32
    requires behind { k ≤ parent }
    requires room { k < parent → slice_index_or found.now parent 0 < 4294967295 }
    ensures { result ≡ level (parent - k) (drop (k + 1) found.now) }
{
    if parent == k {
        0
    } else {
        number(found, parent) + 1
    }
}

// Finds the level of each row, from the last row to the first.
fn find_levels(found: &mut [u32], rows: &Rows)
    requires many { length found.old ≡ length rows.now }
    requires few { length rows.now ≤ 4294967295 }
    ensures { found.new ≡ levels rows.now }
{
    for k in (0..found.len()).rev() {
        found[k] = level_of(found, k as u32, number(rows.parents(), k as u32));
    }
}

/// The level of each row: how many rows a path from it to the root meets behind it.
pub(crate) fn levels(alloc: Global, rows: &Rows) -> Result<Vec<u32>, AllocError>
    requires few { length rows.now ≤ 4294967295 }
    ensures { IfOk result (λ v. v.items ≡ levels rows.now) }
{
    let mut found = vec![in alloc; 0; rows.len()]?;
    find_levels(found.as_mut_slice(), rows);
    Ok(found)
}

/// The greatest level.
pub(crate) fn deepest(levels: &[u32]) -> u32
    ensures { result ≡ deepest levels.now }
{
    let mut most = 0;
    for level in levels {
        most = most.max(*level);
    }
    most
}
