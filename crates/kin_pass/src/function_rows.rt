//! Which rows are functions, and in which one each row stands.
ghost use Rattle.std.specs.Prelude.{◌≡◌, ◌≤◌, length, IfOk};
ghost use Rattle.ast_rows.specs.FunctionRows.{functions_before, functions_by};

use crate::sums::Sum;
use ast_rows::FunctionColumns;
use par_passes::{Lift, Passes};
use source_meaning::Kind;
use std::alloc::AllocError;

// The rows of functions.
fn rows(crew: &impl Passes, kinds: &[Kind]) -> Result<Vec<u32>, AllocError>
    requires few { length kinds.now ≤ 4294967295 }
    ensures { IfOk result (λ v. v.items ≡ functions_by kinds.now) }
{
    crew.positions(kinds, &|kind: Kind| kind.is_function())
}

// How many functions a row is.
struct Marked;

impl Lift<Kind, u32> for Marked {
    ghost use Rattle.ast_rows.specs.FunctionRows.{function_mark};

    ghost lifted = { λ _ k. function_mark k };

    fn lift(&self, kind: Kind) -> u32 {
        if kind.is_function() { 1 } else { 0 }
    }
}

// How many functions stand before each row, and how many there are.
fn owners(crew: &impl Passes, kinds: &[Kind]) -> Result<Vec<u32>, AllocError>
    requires few { length kinds.now ≤ 4294967295 }
    ensures { IfOk result (λ v. v.items ≡ functions_before kinds.now) }
{
    crew.scan_lifted(&Sum, kinds, &Marked)
}

/// The rows of functions among rows of these kinds, and how many of them stand before each row. They are the same for every crew, and the only
/// refusal is that memory is out.
pub fn functions(crew: &impl Passes, kinds: &[Kind]) -> Result<FunctionColumns, AllocError>
    requires few { length kinds.now ≤ 4294967295 }
    ensures rows { IfOk result (λ v. v.rows.items ≡ functions_by kinds.now) }
    ensures owners { IfOk result (λ v. v.owners.items ≡ functions_before kinds.now) }
{
    let rows = rows(crew, kinds)?;
    let owners = owners(crew, kinds)?;
    Ok(FunctionColumns { rows, owners })
}
