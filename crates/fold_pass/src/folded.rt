//! The columns of the rows that stay.
ghost use Rattle.std.specs.Prelude.{◌≡◌, ◌≤◌, length, map, IfOk, slice_index_or};
ghost use Rattle.std.specs.List.{range_with_len};
ghost use Rattle.source_meaning.specs.Typing.{binary_type, group_of, unary_operand};
ghost use Rattle.folded_rows.specs.Columns.{constant_kind, kind_by, kind_in, number_in, value_in};
ghost use Rattle.fold_pass.specs.Folded.{rank_in, settled_by, word_by};

use crate::columns::{RowColumns, value};
use ast_rows::reading::number;
use par_passes::Passes;
use source_meaning::{BinaryOp, Kind, UnaryOp, ValueType};
use std::alloc::AllocError;

// The type of a unary operator's operand, which is that of its value.
fn unary_type(op: UnaryOp) -> ValueType
    ensures { result ≡ unary_operand op }
{
    match op {
        UnaryOp::LogicalNot => ValueType::Bool,
        UnaryOp::Negate | UnaryOp::BitwiseNot => ValueType::Int,
    }
}

// The type of a binary operator's value.
fn type_of_binary(op: BinaryOp) -> ValueType
    ensures { result ≡ binary_type (group_of op) }
{
    match op {
        BinaryOp::Less
        | BinaryOp::LessOrEqual
        | BinaryOp::Greater
        | BinaryOp::GreaterOrEqual
        | BinaryOp::Equal
        | BinaryOp::NotEqual => ValueType::Bool,
        _ => ValueType::Int,
    }
}

// The kind of a constant of this type.
fn kind_of_constant(ty: ValueType, value: u32) -> Kind
    ensures { result ≡ constant_kind ty value }
{
    match ty {
        ValueType::Int => Kind::Num(value),
        ValueType::Bool => {
            if value > 1 {
                Kind::Num(value)
            } else {
                Kind::Truth(value == 1)
            }
        }
    }
}

// The kind that a row gets that is this constant, if it is one.
fn new_kind(kind: Kind, constant: Option<u32>) -> Kind
    ensures { result ≡ kind_by kind constant }
{
    match constant {
        None => kind,
        Some(value) => match kind {
            Kind::Unary(op) => kind_of_constant(unary_type(op), value),
            Kind::Binary(op) => kind_of_constant(type_of_binary(op), value),
            Kind::And | Kind::Or => kind_of_constant(ValueType::Bool, value),
            _ => kind,
        },
    }
}

/// The new kinds.
pub(crate) fn kinds(
    crew: &impl Passes,
    columns: &RowColumns<'_>,
    values: &[Option<u32>],
    kept: &[u32],
) -> Result<Vec<Kind>, AllocError>
    requires few { length kept.now ≤ 4294967295 }
    ensures { IfOk result (λ v. v.items ≡ map (λ k. kind_by (kind_in columns.now k) (value_in values.now k)) kept.now) }
{
    let of = |k: u32| -> Kind
        ensures { result ≡ kind_by (kind_in columns.entry.now k) (value_in values.entry.now k) }
    { new_kind(columns.kind(k), value(values, k)) };
    crew.map(kept, &of)
}

// How many rows before row k stay; where there is no such row, 0.
pub(crate) fn rank(ranks: &[u64], k: u32) -> u32
    ensures { result ≡ rank_in ranks.now k }
{
    ranks
        .get(k as usize)
        .copied()
        .unwrap_or(0)
        .min(u32::MAX as u64) as u32
}

/// The new first rows of subtrees.
pub(crate) fn lows(
    crew: &impl Passes,
    column: &[u32],
    ranks: &[u64],
    kept: &[u32],
) -> Result<Vec<u32>, AllocError>
    requires few { length kept.now ≤ 4294967295 }
    ensures { IfOk result (λ v. v.items ≡ map (λ k. rank_in ranks.now (number_in column.now k)) kept.now) }
{
    let of = |k: u32| -> u32
        ensures { result ≡ rank_in ranks.entry.now (number_in column.entry.now k) }
    { rank(ranks, number(column, k)) };
    crew.map(kept, &of)
}

/// The numbers of the kept rows in a column.
pub(crate) fn numbers(
    crew: &impl Passes,
    column: &[u32],
    kept: &[u32],
) -> Result<Vec<u32>, AllocError>
    requires few { length kept.now ≤ 4294967295 }
    ensures { IfOk result (λ v. v.items ≡ map (λ k. number_in column.now k) kept.now) }
{
    let of = |k: u32| -> u32
        ensures { result ≡ number_in column.entry.now k }
    { number(column, k) };
    crew.map(kept, &of)
}

// The own token of the new row m: a statement that is a value has that of the row before it.
fn settled(kinds: &[Kind], words: &[u32], m: u32) -> u32
    ensures { result ≡ settled_by kinds.now words.now m }
{
    match kinds.get(m as usize).copied().unwrap_or(Kind::Program) {
        Kind::Eval => number(words, m.saturating_sub(1)),
        _ => number(words, m),
    }
}

/// The new own tokens, from those of the kept rows.
pub(crate) fn tokens(
    crew: &impl Passes,
    kinds: &[Kind],
    words: &[u32],
) -> Result<Vec<u32>, AllocError>
    requires few { length kinds.now ≤ 4294967295 }
    ensures { IfOk result (λ v. v.items ≡ map (settled_by kinds.now words.now) (range_with_len 0 (length kinds.now))) }
{
    let at = |m: u32| -> u32
        ensures { result ≡ settled_by kinds.entry.now words.entry.now m }
    { settled(kinds, words, m) };
    crew.tabulate(kinds.len() as u32, &at)
}

// The new number of the row that a word names, if it names one that stays; else the greatest number.
fn new_word(marks: &[bool], ranks: &[u64], word: u32) -> u32
    ensures { result ≡ word_by marks.now ranks.now word }
{
    if marks.get(word as usize).copied().unwrap_or(false) {
        rank(ranks, word)
    } else {
        u32::MAX
    }
}

/// What the kept rows mean, by new numbers.
pub(crate) fn meant(
    crew: &impl Passes,
    words: &[u32],
    marks: &[bool],
    ranks: &[u64],
    kept: &[u32],
) -> Result<Vec<u32>, AllocError>
    requires few { length kept.now ≤ 4294967295 }
    ensures { IfOk result (λ v. v.items ≡ map (λ k. word_by marks.now ranks.now (slice_index_or words.now k 4294967295)) kept.now) }
{
    let of = |k: u32| -> u32
        ensures { result ≡ word_by marks.entry.now ranks.entry.now (slice_index_or words.entry.now k 4294967295) }
    {
        new_word(
            marks,
            ranks,
            words.get(k as usize).copied().unwrap_or(u32::MAX),
        )
    };
    crew.map(kept, &of)
}
