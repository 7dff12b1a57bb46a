//! The constant that a row is, by its children.
ghost use Rattle.std.specs.Prelude.{◌≡◌, None};
ghost use Rattle.folded_rows.specs.Columns.{and_of, constant_by, is_literal as is_literal_kind, or_of};
ghost use Rattle.fold_pass.specs.Rounds.{constant_at};

use crate::columns::{RowColumns, value};
use source_meaning::{Kind, apply_binary, apply_unary};

// An And, by its sides: 0 decides it.
fn constant_and(left: Option<u32>, right: Option<u32>) -> Option<u32>
    ensures { result ≡ and_of left right }
{
    let side = left?;
    if side == 0 { Some(side) } else { right }
}

// An Or, by its sides: any other value decides it.
fn constant_or(left: Option<u32>, right: Option<u32>) -> Option<u32>
    ensures { result ≡ or_of left right }
{
    let side = left?;
    if side == 0 { right } else { Some(side) }
}

/// The constant that a row of this kind is, where its last two children are these.
pub(crate) fn constant(kind: Kind, left: Option<u32>, right: Option<u32>) -> Option<u32>
    ensures { result ≡ constant_by kind left right }
{
    match kind {
        Kind::Num(value) => Some(value),
        Kind::Truth(value) => Some(u32::from(value)),
        Kind::Unary(op) => Some(apply_unary(op, right?)),
        Kind::Binary(op) => Some(apply_binary(op, left?, right?)),
        Kind::And => constant_and(left, right),
        Kind::Or => constant_or(left, right),
        _ => None,
    }
}

/// Whether a row of this kind is a constant in itself.
pub(crate) fn is_literal(kind: Kind) -> bool
    ensures { result ≡ is_literal_kind kind }
{
    matches!(kind, Kind::Num(_) | Kind::Truth(_))
}

/// The constant that a row without children is.
pub(crate) fn leaf_constant(kind: Kind) -> Option<u32>
    ensures { result ≡ constant_by kind None None }
{
    match kind {
        Kind::Num(value) => Some(value),
        Kind::Truth(value) => Some(u32::from(value)),
        _ => None,
    }
}

/// The constant that row k is, where its children are those that are known.
pub(crate) fn constant_here(columns: &RowColumns<'_>, values: &[Option<u32>], k: u32) -> Option<u32>
    ensures { result ≡ constant_at columns.now values.now k }
{
    constant(
        columns.kind(k),
        value(values, columns.left(k)),
        value(values, columns.right(k)),
    )
}
