//! The table of joins.
ghost use Rattle.std.specs.Prelude.{◌≡◌, ◌+◌, ◌*◌, ◌<◌, ◌≤◌, ◌++◌, length, take, drop, map, All, slice_index, slice_index_or, [], OnOk, IfOk};
ghost use Rattle.std.specs.List.{range_with_len};
ghost use Rattle.state_monoid.specs.Letters.{AreLetters};
ghost use Rattle.state_monoid.specs.Explored.{AreExplored, AreRows, AreColumns, AreJoined};

use crate::explore::{Explored, Origin};
use crate::letters::Letters;
use std::alloc::{AllocError, Global};

// What the rows have at one letter.
fn column(alloc: Global, rows: &[Vec<u16>], letter: usize) -> Result<Vec<u16>, AllocError>
    requires { All (λ row. letter < length row.items) rows.now }
    ensures { IfOk result (λ v. v.items ≡ map (λ row. slice_index row.items letter) rows.now) }
{
    let mut column = Vec::with_capacity(alloc, rows.len())?;
    for row in rows {
        column.push(row[letter])?;
    }
    Ok(column)
}

// The columns of all letters.
fn columns(alloc: Global, rows: &[Vec<u16>], letters: usize) -> Result<Vec<Vec<u16>>, AllocError>
    requires { All (λ row. length row.items ≡ letters) rows.now }
    ensures { IfOk result (λ v. AreColumns (map (λ row. row.items) rows.now) letters (map (λ column. column.items) v.items)) }
{
    let mut columns = Vec::with_capacity(alloc, letters)?;
    for letter in 0..letters {
        columns.push(column(alloc, rows, letter)?)?;
    }
    Ok(columns)
}

// All codes below a bound.
fn all_codes(alloc: Global, count: u16) -> Result<Vec<u16>, AllocError>
    ensures { IfOk result (λ v. v.items ≡ range_with_len 0 count) }
{
    let mut codes = Vec::with_capacity(alloc, count as usize)?;
    for code in 0..count {
        codes.push(code)?;
    }
    Ok(codes)
}

/// What a column has at each code.
pub(crate) fn followed(alloc: Global, codes: &[u16], column: &[u16]) -> Result<Vec<u16>, AllocError>
    requires { All (λ code. code < length column.now) codes.now }
    ensures { IfOk result (λ v. v.items ≡ map (slice_index column.now) codes.now) }
{
    codes
        .iter()
        .map(|code| column[*code as usize])
        .collect(alloc)
}

// The joins with a function are those with an earlier one, and then a letter.
fn append(
    alloc: Global,
    joins: &mut Vec<u16>,
    start: usize,
    count: usize,
    column: &[u16],
) -> Result<(), AllocError>
    requires codes { All (λ code. code < length column.now) joins.old.items }
    requires within { start + count ≤ length joins.old.items }
    ensures { OnOk result (joins.new.items ≡ joins.old.items ++ map (slice_index column.now) (take count (drop start joins.old.items))) }
{
    let next = followed(alloc, &joins[start..start + count], column)?;
    joins.extend_from_slice(&next)?;
    Ok(())
}

// The joins with the function that comes next.
fn join_next(
    alloc: Global,
    joins: &mut Vec<u16>,
    count: usize,
    origin: Origin,
    columns: &[Vec<u16>],
) -> Result<(), AllocError>
    requires letter { origin.letter < length columns.now }
    requires codes { All (λ code. code < length (slice_index_or (map (λ column. column.items) columns.now) origin.letter [])) joins.old.items }
    requires within { origin.before * count + count ≤ length joins.old.items }
    ensures { OnOk result (joins.new.items ≡ joins.old.items ++ map (slice_index (slice_index_or (map (λ column. column.items) columns.now) origin.letter []))
        (take count (drop (origin.before * count) joins.old.items))) }
{
    let column = &columns[origin.letter as usize];
    append(alloc, joins, origin.before as usize * count, count, column)
}

/// For each function, one behind the other, the numbers of all functions joined with it from the right.
pub(crate) fn join_all(
    alloc: Global,
    letters: &Letters,
    explored: &Explored,
) -> Result<Vec<u16>, AllocError>
    requires letters { AreLetters letters.now.dfa 256 letters.now.functions.keys letters.now.of_byte.items }
    requires explored { AreExplored letters.now.dfa letters.now.functions.keys explored.now.functions.keys explored.now.origins.items }
    requires rows { AreRows letters.now.functions.keys explored.now.functions.keys (map (λ row. row.items) explored.now.rows.items) }
    requires all { length explored.now.rows.items ≡ length explored.now.functions.keys }
    ensures { IfOk result (λ v. AreJoined explored.now.functions.keys (length explored.now.functions.keys) v.items) }
{
    let count = explored.functions.len();
    let columns = columns(alloc, &explored.rows, letters.functions.len())?;
    let mut joins = all_codes(alloc, count as u16)?;
    joins.reserve_exact(count * count)?;
    for code in 1..count {
        join_next(alloc, &mut joins, count, explored.origins[code], &columns)?;
    }
    Ok(joins)
}
