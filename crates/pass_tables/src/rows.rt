//! The rows of a syntax tree.

ghost use Rattle.std.specs.Prelude.{◌≡◌, ◌++◌, ◌∷◌, [], codes, map, slice_index_or, IfOk, OnOk};
ghost use Rattle.source_meaning.specs.Rows.{parents};
ghost use Rattle.ast_rows.specs.NodeRows.{token_of, token_word};
ghost use Rattle.pass_tables.specs.Tables.{binary_text, kind_in, kind_text, numbers_or_dashes, own_text, row_columns, texts, token_in, token_text_or_nothing, truth_text, type_text, unary_text};
ghost use Rattle.pass_tables.specs.ByRow.{parent_in};

use crate::columns::{numbers, places, push_decimal, push_or_dash};
use crate::tokens::lexeme;
use ast_rows::{Rows, Tokens};
use source_meaning::{BinaryOp, Kind, UnaryOp, ValueType};
use std::alloc::{AllocError, Global};
use text_columns::{Align, Column};

/// The word for a type.
pub(crate) fn type_text(value_type: ValueType) -> &'static [u8]
    ensures { result.now ≡ type_text value_type }
{
    match value_type {
        ValueType::Int => b"int",
        ValueType::Bool => b"bool",
    }
}

// The word for a truth value.
fn truth_text(truth: bool) -> &'static [u8]
    ensures { result.now ≡ truth_text truth }
{
    match truth {
        true => b"true",
        false => b"false",
    }
}

// A unary operator as it is written.
fn unary_text(op: UnaryOp) -> &'static [u8]
    ensures { result.now ≡ unary_text op }
{
    match op {
        UnaryOp::Negate => b"-",
        UnaryOp::LogicalNot => b"!",
        UnaryOp::BitwiseNot => b"~",
    }
}

// A binary operator as it is written.
fn binary_text(op: BinaryOp) -> &'static [u8]
    ensures { result.now ≡ binary_text op }
{
    match op {
        BinaryOp::Plus => b"+",
        BinaryOp::Minus => b"-",
        BinaryOp::Times => b"*",
        BinaryOp::Divide => b"/",
        BinaryOp::Remainder => b"%",
        BinaryOp::BitwiseAnd => b"&",
        BinaryOp::BitwiseOr => b"|",
        BinaryOp::BitwiseXor => b"^",
        BinaryOp::ShiftLeft => b"<<",
        BinaryOp::ShiftRight => b">>",
        BinaryOp::Less => b"<",
        BinaryOp::LessOrEqual => b"<=",
        BinaryOp::Greater => b">",
        BinaryOp::GreaterOrEqual => b">=",
        BinaryOp::Equal => b"==",
        BinaryOp::NotEqual => b"!=",
    }
}

// Writes two texts behind a text.
fn push_two(out: &mut Vec<u8>, first: &[u8], second: &[u8]) -> Result<(), AllocError>
    ensures { OnOk result (out.new.items ≡ out.old.items ++ (first.now ++ second.now)) }
{
    out.extend_from_slice(first)?;
    out.extend_from_slice(second)
}

/// Writes what a node is behind a text.
pub fn push_kind(out: &mut Vec<u8>, kind: Kind) -> Result<(), AllocError>
    ensures { OnOk result (out.new.items ≡ out.old.items ++ kind_text kind) }
{
    match kind {
        Kind::Program => out.extend_from_slice(b"program"),
        Kind::Function(value_type) => push_two(out, b"function ", type_text(value_type)),
        Kind::Param(value_type) => push_two(out, b"parameter ", type_text(value_type)),
        Kind::Var(value_type) => push_two(out, b"variable ", type_text(value_type)),
        Kind::Block => out.extend_from_slice(b"block"),
        Kind::If => out.extend_from_slice(b"if"),
        Kind::IfElse => out.extend_from_slice(b"if else"),
        Kind::While => out.extend_from_slice(b"while"),
        Kind::Return => out.extend_from_slice(b"return"),
        Kind::Eval => out.extend_from_slice(b"value"),
        Kind::Print => out.extend_from_slice(b"print"),
        Kind::Assign => out.extend_from_slice(b"assign"),
        Kind::And => out.extend_from_slice(b"and"),
        Kind::Or => out.extend_from_slice(b"or"),
        Kind::Binary(op) => push_two(out, b"binary ", binary_text(op)),
        Kind::Unary(op) => push_two(out, b"unary ", unary_text(op)),
        Kind::Call => out.extend_from_slice(b"call"),
        Kind::Name => out.extend_from_slice(b"name"),
        Kind::Num(number) => {
            out.extend_from_slice(b"number ")?;
            push_decimal(out, number)
        }
        Kind::Truth(truth) => out.extend_from_slice(truth_text(truth)),
    }
}

// Puts what a node is below the other cells of a column. The text of the cell is written into these bytes.
fn put_kind(column: &mut Column, cell: &mut Vec<u8>, kind: Kind) -> Result<(), AllocError>
    ensures { OnOk result (column.new ≡ record column.old { cells = column.old.cells ++ kind_text kind ∷ [] }) }
{
    cell.clear();
    push_kind(cell, kind)?;
    column.push(cell)
}

/// What nodes are.
pub(crate) fn kinds(alloc: Global, kinds: &[Kind]) -> Result<Column, AllocError>
    ensures { IfOk result (λ column. column ≡ texts (codes "kind") (map kind_text kinds.now)) }
{
    let mut column = Column::new(alloc, b"kind", Align::Left)?;
    let mut cell = Vec::new(alloc);
    for kind in kinds {
        put_kind(&mut column, &mut cell, *kind)?;
    }
    Ok(column)
}

/// The kind of a row; behind the last one, that of the root.
pub(crate) fn kind_of(rows: &Rows, k: usize) -> Kind
    ensures { result ≡ kind_in rows.now k }
{
    rows.kinds().get(k).copied().unwrap_or(Kind::Program)
}

// The own token of a row as it is kept; behind the last row, the number that stands for none.
fn kept_token(rows: &Rows, k: usize) -> u32
    ensures { result ≡ slice_index_or (map (λ r. token_word r.token) rows.now) k 4294967295 }
{
    rows.tokens().get(k).copied().unwrap_or(u32::MAX)
}

// A token that is kept, where there is one.
fn told(token: u32) -> Option<u32>
    ensures { result ≡ token_of token }
{
    if token == u32::MAX { None } else { Some(token) }
}

/// The own token of a row, where it has one.
pub(crate) fn token_of(rows: &Rows, k: usize) -> Option<u32>
    ensures { result ≡ token_in rows.now k }
{
    rows.tokens_are_told();
    told(kept_token(rows, k))
}

/// The bytes of a row's own token, where it has one.
pub(crate) fn text_of<'a>(text: &'a [u8], tokens: &Tokens, rows: &Rows, k: usize) -> &'a [u8]
    ensures { result.now ≡ token_text_or_nothing text.now tokens.now (token_in rows.now k) }
{
    match token_of(rows, k) {
        Some(token) => lexeme(text, tokens, token as usize),
        None => &text[..0],
    }
}

// The parent of a row, where it has one.
fn parent_of(rows: &Rows, k: usize) -> Option<u32>
    ensures { result ≡ parent_in rows.now k }
{
    let parent = rows.parents().get(k).copied().unwrap_or(0);
    if parent as usize == k {
        None
    } else {
        Some(parent)
    }
}

// The parent of each row.
fn parents(alloc: Global, rows: &Rows) -> Result<Column, AllocError>
    ensures { IfOk result (λ column. column ≡ numbers_or_dashes (codes "parent") (parents 0 rows.now)) }
{
    let mut column = Column::new(alloc, b"parent", Align::Right)?;
    for k in 0..rows.len() {
        push_or_dash(&mut column, parent_of(rows, k))?;
    }
    Ok(column)
}

// The own token of each row.
fn own_tokens(alloc: Global, rows: &Rows) -> Result<Column, AllocError>
    ensures { IfOk result (λ column. column ≡ numbers_or_dashes (codes "token") (map (λ r. r.token) rows.now)) }
{
    let mut column = Column::new(alloc, b"token", Align::Right)?;
    for k in 0..rows.len() {
        push_or_dash(&mut column, token_of(rows, k))?;
    }
    Ok(column)
}

// The bytes of each row's own token.
fn own_texts(alloc: Global, text: &[u8], tokens: &Tokens, rows: &Rows) -> Result<Column, AllocError>
    ensures { IfOk result (λ column. column ≡ texts (codes "text") (map (own_text text.now tokens.now) rows.now)) }
{
    let mut column = Column::new(alloc, b"text", Align::Left)?;
    for k in 0..rows.len() {
        column.push(text_of(text, tokens, rows, k))?;
    }
    Ok(column)
}

/// The rows of a syntax tree: what each is, the numbers of its parent and of its own token, its place among its siblings, the number of the first row of
/// its subtree, and the token's bytes.
pub fn row_columns(
    alloc: Global,
    text: &[u8],
    tokens: &Tokens,
    rows: &Rows,
) -> Result<Vec<Column>, AllocError>
    ensures { IfOk result (λ columns. columns.items ≡ row_columns text.now tokens.now rows.now) }
{
    let numbers_of_rows = places(alloc, b"row", rows.len())?;
    let kinds = kinds(alloc, rows.kinds())?;
    let parents = parents(alloc, rows)?;
    let own_tokens = own_tokens(alloc, rows)?;
    let own_texts = own_texts(alloc, text, tokens, rows)?;
    let places = numbers(alloc, b"place", rows.places())?;
    let firsts = numbers(alloc, b"first", rows.lows())?;
    Ok(vec![in alloc;
        numbers_of_rows,
        kinds,
        parents,
        own_tokens,
        places,
        firsts,
        own_texts,
    ]?)
}
