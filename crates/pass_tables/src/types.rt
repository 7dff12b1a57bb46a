//! The types of expressions.

ghost use Rattle.std.specs.Prelude.{◌≡◌, codes, map, IfOk};
ghost use Rattle.pass_tables.specs.Tables.{texts, type_columns, type_or_dash};

use crate::columns::places;
use crate::rows::{kinds, type_text};
use ast_rows::{Rows, Types};
use source_meaning::ValueType;
use std::alloc::{AllocError, Global};
use text_columns::{Align, Column};

// The word for a type, or a dash where there is none.
fn type_or_dash(value_type: Option<ValueType>) -> &'static [u8]
    ensures { result.now ≡ type_or_dash value_type }
{
    match value_type {
        Some(value_type) => type_text(value_type),
        None => b"-",
    }
}

// The type of each row.
fn types_of(alloc: Global, types: &[Option<ValueType>]) -> Result<Column, AllocError>
    ensures { IfOk result (λ column. column ≡ texts (codes "type") (map type_or_dash types.now)) }
{
    let mut column = Column::new(alloc, b"type", Align::Left)?;
    for value_type in types {
        column.push(type_or_dash(*value_type))?;
    }
    Ok(column)
}

/// The types of the expressions among rows.
pub fn type_columns(alloc: Global, rows: &Rows, types: &Types) -> Result<Vec<Column>, AllocError>
    ensures { IfOk result (λ columns. columns.items ≡ type_columns rows.now types.now) }
{
    let places = places(alloc, b"row", rows.len())?;
    let kinds = kinds(alloc, rows.kinds())?;
    let types = types_of(alloc, types.as_slice())?;
    Ok(vec![in alloc; places, kinds, types]?)
}
