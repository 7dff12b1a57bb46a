//! Whether anything is left to fold.
ghost use Rattle.std.specs.Prelude.{◌≡◌, ◌≤◌, length, IfOk};
ghost use Rattle.folded_rows.specs.Columns.{folding, folds};

use crate::columns::RowColumns;
use crate::constant::is_literal;
use par_passes::Passes;
use source_meaning::Kind;
use std::alloc::AllocError;

// Whether row k is an operator that folds as it stands: all of its operands are literals, or the left side of an And or an Or is.
fn row_folds(columns: &RowColumns<'_>, k: u32) -> bool
    ensures { result ≡ folds columns.now k }
{
    match columns.kind(k) {
        Kind::Unary(_) => is_literal(columns.kind(columns.right(k))),
        Kind::Binary(_) => {
            is_literal(columns.kind(columns.right(k))) && is_literal(columns.kind(columns.left(k)))
        }
        Kind::And | Kind::Or => is_literal(columns.kind(columns.left(k))),
        _ => false,
    }
}

/// The operators that fold as they stand, in order. Where there is none, nothing folds.
pub(crate) fn folding_rows(
    crew: &impl Passes,
    columns: &RowColumns<'_>,
) -> Result<Vec<u32>, AllocError>
    requires few { length columns.now.kinds ≤ 4294967295 }
    ensures { IfOk result (λ v. v.items ≡ folding columns.now) }
{
    let at = |k: u32| -> bool
        ensures { result ≡ folds columns.entry.now k }
    { row_folds(columns, k) };
    crew.numbers_where(columns.kinds.len() as u32, &at)
}
