//! The pieces of the code.

ghost use Rattle.std.specs.Prelude.{◌≡◌, IfOk};
ghost use Rattle.pass_tables.specs.Tables.{place_columns};

use crate::columns::{numbers, places};
use crate::rows::kinds;
use ast_rows::Rows;
use std::alloc::{AllocError, Global};
use text_columns::Column;

/// The pieces of the code, one for each row: how many operands wait while the row is computed, how many words the piece has, and the number of the first
/// of them.
pub fn place_columns(
    alloc: Global,
    rows: &Rows,
    depths: &[u32],
    sizes: &[u32],
    firsts: &[u32],
) -> Result<Vec<Column>, AllocError>
    ensures { IfOk result (λ columns. columns.items ≡ place_columns rows.now depths.now sizes.now firsts.now) }
{
    let numbers_of_rows = places(alloc, b"row", rows.len())?;
    let kinds = kinds(alloc, rows.kinds())?;
    let depths = numbers(alloc, b"depth", depths)?;
    let sizes = numbers(alloc, b"words", sizes)?;
    let firsts = numbers(alloc, b"first word", firsts)?;
    Ok(vec![in alloc; numbers_of_rows, kinds, depths, sizes, firsts]?)
}
