//! Columns of numbers, and the table of columns.

ghost use Rattle.std.specs.Prelude.{◌≡◌, ◌++◌, ◌∷◌, [], decimal, IfOk, OnOk};
ghost use Rattle.text_columns.specs.Columns.{table_text};
ghost use Rattle.pass_tables.specs.Tables.{number_or_dash, numbers, places};

use itoa::Buffer;
use std::alloc::{AllocError, Global};
use text_columns::{Align, Column, push_table};

/// Writes a number in decimal behind a text.
pub(crate) fn push_decimal(out: &mut Vec<u8>, number: u32) -> Result<(), AllocError>
    ensures { OnOk result (out.new.items ≡ out.old.items ++ decimal number) }
{
    let mut buffer = Buffer::new();
    out.extend_from_slice(buffer.format(number).as_bytes())
}

/// Puts a number below the other cells of a column, or a dash where there is none.
pub(crate) fn push_or_dash(column: &mut Column, number: Option<u32>) -> Result<(), AllocError>
    ensures { OnOk result (column.new ≡ record column.old { cells = column.old.cells ++ number_or_dash number ∷ [] }) }
{
    match number {
        Some(number) => column.push_number(u64::from(number)),
        None => column.push(b"-"),
    }
}

/// The first `count` numbers, from 0 on.
pub(crate) fn places(alloc: Global, title: &[u8], count: usize) -> Result<Column, AllocError>
    ensures { IfOk result (λ column. column ≡ places title.now count) }
{
    let mut column = Column::new(alloc, title, Align::Right)?;
    for k in 0..count {
        column.push_number(k as u64)?;
    }
    Ok(column)
}

/// These numbers.
pub(crate) fn numbers(alloc: Global, title: &[u8], values: &[u32]) -> Result<Column, AllocError>
    ensures { IfOk result (λ column. column ≡ numbers title.now values.now) }
{
    let mut column = Column::new(alloc, title, Align::Right)?;
    for value in values {
        column.push_number(u64::from(*value))?;
    }
    Ok(column)
}

/// The table of columns, as a text.
pub fn table(alloc: Global, columns: &[Column]) -> Result<Vec<u8>, AllocError>
    ensures { IfOk result (λ text. text.items ≡ table_text columns.now) }
{
    let mut text = Vec::new(alloc);
    push_table(&mut text, columns)?;
    Ok(text)
}
