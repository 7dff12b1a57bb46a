//! Where the subtrees of rows begin, and which rows are functions, looked for one by one.
ghost use Rattle.std.specs.Prelude.{◌≡◌, ℕ, ◌<◌, ◌≤◌, ◌&&◌, ◌^◌, [], ◌∷◌, ◌++◌, true, false, cond, length, nat_lt, nat_le, slice_index_or, IfOk};
ghost use Rattle.source_meaning.specs.declared.kinds.Kind.TheVariants.{Program};
ghost use Rattle.source_meaning.specs.Rows.{is_function};
ghost use Rattle.ast_rows.specs.NodeRows.{GoUp, low_at, lows_of};
ghost use Rattle.ast_rows.specs.FunctionRows.{function_mark, functions_before, functions_by};

use source_meaning::Kind;
use std::alloc::{AllocError, Global};

/// Whether no parent stands before its row.
pub(crate) fn goes_up(parents: &[u32]) -> bool
    ensures all { result ≡ true → GoUp parents.now }
    ensures some { result ≡ false → ¬ GoUp parents.now }
{
    for k in 0..parents.len() {
        if (parents[k] as usize) < k {
            return false;
        }
    }
    true
}

// Whether row k has a parent, and that stands at row i or before it.
fn is_below(parents: &[u32], i: usize, k: usize) -> bool
    ensures { result ≡ (nat_lt k (slice_index_or parents.now k 0) && nat_le (slice_index_or parents.now k 0) i) }
{
    let parent = parents.get(k).copied().unwrap_or(0) as usize;
    k < parent && parent <= i
}

// The first row of the subtree of row i.
fn first_row(parents: &[u32], i: usize) -> usize
    ensures low { result ≡ low_at parents.now i }
    ensures within { result ≤ i }
{
    let mut low = i;
    while low > 0 && is_below(parents, i, low - 1) {
        low -= 1;
    }
    low
}

/// The first rows of all subtrees.
pub(crate) fn all_lows(alloc: Global, parents: &[u32]) -> Result<Vec<u32>, AllocError>
    requires few { length parents.now ≤ 4294967295 }
    ensures { IfOk result (λ v. v.items ≡ lows_of parents.now) }
{
    let mut lows = Vec::new(alloc);
    for i in 0..parents.len() {
        lows.push(first_row(parents, i) as u32)?;
    }
    Ok(lows)
}

// Whether row k is a function.
fn is_function_row(kinds: &[Kind], k: usize) -> bool
    ensures { result ≡ is_function (slice_index_or kinds.now k Program) }
{
    let kind = kinds.get(k).copied().unwrap_or(Kind::Program);
    kind.is_function()
}

// How many functions row k is.
fn mark(kinds: &[Kind], k: usize) -> u32
    ensures value { result ≡ function_mark (slice_index_or kinds.now k Program) }
    ensures low { result ≤ 1 }
{
    if is_function_row(kinds, k) { 1 } else { 0 }
}

// A row behind those before it, if it is kept.
fn push_if(keep: bool, k: u32, rows: &mut Vec<u32>) -> Result<(), AllocError>
    ensures { IfOk result (λ _. rows.new.items ≡ rows.old.items ++ cond keep (k ∷ []) []) }
{
    if keep {
        rows.push(k)?;
    }
    Ok(())
}

/// The rows of functions.
pub(crate) fn all_functions(alloc: Global, kinds: &[Kind]) -> Result<Vec<u32>, AllocError>
    requires few { length kinds.now ≤ 4294967295 }
    ensures { IfOk result (λ v. v.items ≡ functions_by kinds.now) }
{
    let mut rows = Vec::new(alloc);
    for k in 0..kinds.len() {
        push_if(is_function_row(kinds, k), k as u32, &mut rows)?;
    }
    Ok(rows)
}

/// How many functions stand before each row, and how many there are.
pub(crate) fn all_owners(alloc: Global, kinds: &[Kind]) -> Result<Vec<u32>, AllocError>
    requires few { length kinds.now ≤ 4294967295 }
    ensures { IfOk result (λ v. v.items ≡ functions_before kinds.now) }
{
    let mut owners = Vec::new(alloc);
    let mut count: u32 = 0;
    for k in 0..kinds.len() {
        owners.push(count)?;
        count += mark(kinds, k);
    }
    owners.push(count)?;
    Ok(owners)
}
