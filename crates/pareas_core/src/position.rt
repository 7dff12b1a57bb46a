//! Lines and columns of places in a source.
ghost use Rattle.std.specs.Prelude.{◌≡◌, ◌+◌, ◌-◌, ◌<◌, ◌^◌, ◌++◌, ◌==◌, codes, decimal, length, IfOk, take, fold, count_by, if◌then◌else◌};
ghost use Rattle.pareas_core.specs.Output.{at_place, column as column_of, line_number as line_number_of};
ghost use Rattle.table_text.specs.Lines.{line as line_of};

use std::alloc::{AllocError, Global};

// The bytes before a place.
fn front(text: &[u8], place: usize) -> &[u8]
    ensures { result.now ≡ take place text.now }
{
    &text[..place.min(text.len())]
}

// How many line feeds there are.
fn line_feeds(front: &[u8]) -> u64
    ensures { result ≡ count_by (λ b. b == 10) front.now }
{
    let mut count: u64 = 0;
    for byte in front {
        count += u64::from(*byte == b'\n');
    }
    count
}

// The column behind a byte, from the byte's own.
fn next_column(column: u64, byte: u8) -> u64
    requires { column < 2 ^ 64 - 1 }
    ensures { result ≡ (if byte == 10 then 1 else column + 1) }
{
    if byte == b'\n' { 1 } else { column + 1 }
}

// The column behind all bytes.
fn column_behind(front: &[u8]) -> u64
    ensures { result ≡ fold (λ c b. if b == 10 then 1 else c + 1) 1 front.now }
{
    let mut column = 1;
    for byte in front {
        column = next_column(column, *byte);
    }
    column
}

/// The line of a place, from 1 on.
pub(crate) fn line_number(text: &[u8], place: usize) -> u64
    ensures { result ≡ line_number_of text.now place }
{
    line_feeds(front(text, place)).saturating_add(1)
}

/// The column of a place in its line, in bytes, from 1 on.
pub(crate) fn column(text: &[u8], place: usize) -> u64
    ensures { result ≡ column_of text.now place }
{
    column_behind(front(text, place))
}

// The line of a diagnostic, by its code and its place in lines and columns.
fn error_text(alloc: Global, code: u16, row: u64, column: u64) -> Result<Vec<u8>, AllocError>
    ensures { IfOk result (λ v. v.items ≡ line_of (codes "error " ++ (decimal code ++ codes " at " ++ decimal row ++ codes ":" ++ decimal column))) }
{
    Ok(format!(in alloc; "error {code} at {row}:{column}\n")?.into_bytes())
}

// The line of a limit, by its code and its place in lines and columns.
fn limit_text(alloc: Global, code: u16, row: u64, column: u64) -> Result<Vec<u8>, AllocError>
    ensures { IfOk result (λ v. v.items ≡ line_of (codes "limit " ++ (decimal code ++ codes " at " ++ decimal row ++ codes ":" ++ decimal column))) }
{
    Ok(format!(in alloc; "limit {code} at {row}:{column}\n")?.into_bytes())
}

/// The line of a diagnostic, by its code and its place.
pub(crate) fn error_line(
    alloc: Global,
    text: &[u8],
    code: u16,
    place: u32,
) -> Result<Vec<u8>, AllocError>
    ensures line { IfOk result (λ v. v.items ≡ line_of (codes "error " ++ at_place text.now code place)) }
    ensures short { IfOk result (λ v. length v.items < 2 ^ 32) }
{
    let row = line_number(text, place as usize);
    let column = column(text, place as usize);
    error_text(alloc, code, row, column)
}

/// The line of a limit, by its code and its place.
pub(crate) fn limit_line(
    alloc: Global,
    text: &[u8],
    code: u16,
    place: u32,
) -> Result<Vec<u8>, AllocError>
    ensures line { IfOk result (λ v. v.items ≡ line_of (codes "limit " ++ at_place text.now code place)) }
    ensures short { IfOk result (λ v. length v.items < 2 ^ 32) }
{
    let row = line_number(text, place as usize);
    let column = column(text, place as usize);
    limit_text(alloc, code, row, column)
}
