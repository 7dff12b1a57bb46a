//! What the names of a program mean.

ghost use Rattle.std.specs.Prelude.{◌≡◌, ◌≤◌, None, codes, length, map, slice_index_or, IfOk};
ghost use Rattle.ast_rows.specs.NameRows.{row_word};
ghost use Rattle.pass_tables.specs.Tables.{bound_at, bound_tokens, declared_at, declared_numbers, is_declaration, is_use, name_columns, numbers_or_dashes, token_meant};

use crate::columns::{places, push_or_dash};
use crate::rows::{kind_of, kinds, token_of};
use ast_rows::{Names, Rows};
use source_meaning::Kind;
use std::alloc::{AllocError, Global};
use text_columns::{Align, Column};

// Whether a row of this kind uses what another one declares.
fn is_use(kind: Kind) -> bool
    ensures { result ≡ is_use kind }
{
    match kind {
        Kind::Name => true,
        Kind::Call => true,
        _ => false,
    }
}

// Whether a row of this kind declares a variable.
fn is_declaration(kind: Kind) -> bool
    ensures { result ≡ is_declaration kind }
{
    match kind {
        Kind::Param(_) => true,
        Kind::Var(_) => true,
        _ => false,
    }
}

// The row that a row means as it is kept; behind the last row, the number that stands for none.
fn kept_row(names: &Names, k: usize) -> u32
    ensures { result ≡ slice_index_or (map row_word names.now.meant) k 4294967295 }
{
    names.meant().get(k).copied().unwrap_or(u32::MAX)
}

// The own token of the row that a row means.
fn token_meant(rows: &Rows, names: &Names, k: usize) -> Option<u32>
    requires few { length rows.now ≤ 4294967295 }
    ensures { result ≡ token_meant rows.now (slice_index_or names.now.meant k None) }
{
    token_of(rows, kept_row(names, k) as usize)
}

// The token of the declaration that a row means, where it means one.
fn bound_token(rows: &Rows, names: &Names, k: usize) -> Option<u32>
    requires few { length rows.now ≤ 4294967295 }
    ensures { result ≡ bound_at rows.now names.now.meant k }
{
    if is_use(kind_of(rows, k)) {
        token_meant(rows, names, k)
    } else {
        None
    }
}

// The number of the variable that a row declares, where it declares one.
fn declared_number(rows: &Rows, names: &Names, k: usize) -> Option<u32>
    ensures { result ≡ declared_at rows.now names.now.numbers k }
{
    if is_declaration(kind_of(rows, k)) {
        Some(names.numbers().get(k).copied().unwrap_or(0))
    } else {
        None
    }
}

// The token of the declaration that each row means.
fn bound_tokens(alloc: Global, rows: &Rows, names: &Names) -> Result<Column, AllocError>
    requires few { length rows.now ≤ 4294967295 }
    ensures { IfOk result (λ column. column ≡ numbers_or_dashes (codes "declared at token") (bound_tokens rows.now names.now.meant)) }
{
    let mut column = Column::new(alloc, b"declared at token", Align::Right)?;
    for k in 0..rows.len() {
        push_or_dash(&mut column, bound_token(rows, names, k))?;
    }
    Ok(column)
}

// The number of the variable that each row declares.
fn declared_numbers(alloc: Global, rows: &Rows, names: &Names) -> Result<Column, AllocError>
    ensures { IfOk result (λ column. column ≡ numbers_or_dashes (codes "variable") (declared_numbers rows.now names.now.numbers)) }
{
    let mut column = Column::new(alloc, b"variable", Align::Right)?;
    for k in 0..rows.len() {
        push_or_dash(&mut column, declared_number(rows, names, k))?;
    }
    Ok(column)
}

/// What the names of a program mean: the token of the declaration that each row means, and the number of the variable that it declares.
pub fn name_columns(alloc: Global, rows: &Rows, names: &Names) -> Result<Vec<Column>, AllocError>
    requires few { length rows.now ≤ 4294967295 }
    ensures { IfOk result (λ columns. columns.items ≡ name_columns rows.now (bound_tokens rows.now names.now.meant) (declared_numbers rows.now names.now.numbers)) }
{
    let places = places(alloc, b"row", rows.len())?;
    let kinds = kinds(alloc, rows.kinds())?;
    let bound = bound_tokens(alloc, rows, names)?;
    let declared = declared_numbers(alloc, rows, names)?;
    Ok(vec![in alloc; places, kinds, bound, declared]?)
}
