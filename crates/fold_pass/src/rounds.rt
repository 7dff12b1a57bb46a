//! The rounds in which constants are found.
ghost use Rattle.std.specs.Prelude.{◌≡◌, ◌+◌, ◌<◌, ◌≤◌, ◌∷◌, ◌++◌, ◌&&◌, ℕ, [], true, None, is_some, length, map, not, filter, slice_set, IfOk, OnOk, if◌then◌else◌};
ghost use Rattle.std.specs.List.{range_with_len};
ghost use Rattle.folded_rows.specs.Columns.{AreConstants, constant_by, is_literal as is_literal_kind, kind_in, number_in, value_in};
ghost use Rattle.folded_rows.specs.Levels.{AreLinked};
ghost use Rattle.fold_pass.specs.Rounds.{AreTold, IsBounded, constant_at, known_after, told_by};

use crate::columns::{RowColumns, value};
use crate::constant::{constant_here, is_literal, leaf_constant};
use ast_rows::reading::number;
use par_passes::Passes;
use scan_lookback::Steps;
use source_meaning::Kind;
use std::alloc::{AllocError, Global};
use std::sync::ledger::Ledger;

// What is known without a round: the literals.
fn first_values(
    crew: &impl Passes,
    columns: &RowColumns<'_>,
) -> Result<Vec<Option<u32>>, AllocError>
    requires few { length columns.now.kinds ≤ 4294967295 }
    ensures { IfOk result (λ v. v.items ≡ map (λ k. constant_by k None None) columns.now.kinds) }
{
    crew.map(columns.kinds, &|kind: Kind| leaf_constant(kind))
}

// The rows that are literals.
fn literals(crew: &impl Passes, columns: &RowColumns<'_>) -> Result<Vec<u32>, AllocError>
    requires few { length columns.now.kinds ≤ 4294967295 }
    ensures { IfOk result (λ v. v.items ≡ filter (λ k. is_literal_kind (kind_in columns.now k)) (range_with_len 0 (length columns.now.kinds))) }
{
    crew.positions(columns.kinds, &|kind: Kind| is_literal(kind))
}

// What the parents of the fresh rows become.
fn tell(
    crew: &impl Passes,
    columns: &RowColumns<'_>,
    values: &[Option<u32>],
    fresh: &[u32],
) -> Result<Vec<Option<u32>>, AllocError>
    requires few { length fresh.now ≤ 4294967295 }
    ensures { IfOk result (λ v. v.items ≡ told_by columns.now values.now fresh.now) }
{
    let parent_becomes = |k: u32| -> Option<u32>
        ensures { result ≡ constant_at columns.entry.now values.entry.now (number_in columns.entry.now.parents k) }
    { constant_here(columns, values, number(columns.parents, k)) };
    crew.map(fresh, &parent_becomes)
}

// Notes what a row becomes, where it is a constant and nothing was known of the row. Whether this was so.
fn note(values: &mut [Option<u32>], k: u32, told: Option<u32>) -> bool
    requires within { is_some told ≡ true → k < length values.old }
    ensures is_new { result ≡ (is_some told && not (is_some (value_in values.old k))) }
    ensures values { values.new ≡ (if result then slice_set values.old k told else values.old) }
{
    let is_new = told.is_some() && value(values, k).is_none();
    if is_new {
        values[k as usize] = told;
    }
    is_new
}

// Puts a row behind the others, where this is so.
fn push_if(is_new: bool, k: u32, next: &mut Vec<u32>) -> Result<(), AllocError>
    ensures { OnOk result (next.new.items ≡ (if is_new then next.old.items ++ k ∷ [] else next.old.items)) }
{
    if is_new {
        next.push(k)?;
    }
    Ok(())
}

// Puts what the fresh rows tell of their parents, and gives those of which nothing was known: the next fresh rows.
fn put(
    alloc: Global,
    columns: &RowColumns<'_>,
    fresh: &[u32],
    told: &[Option<u32>],
    values: &mut [Option<u32>],
) -> Result<Vec<u32>, AllocError>
    requires many { length told.now ≡ length fresh.now }
    requires within { (i : ℕ) → i < length fresh.now → is_some (value_in told.now i) ≡ true → number_in columns.now.parents (number_in fresh.now i) < length values.old }
    ensures { IfOk result (λ v. AreTold columns.now fresh.now told.now (length fresh.now) values.old values.new v.items) }
{
    let mut next = Vec::new(alloc);
    for i in 0..fresh.len() {
        let parent = number(columns.parents, fresh[i]);
        let is_new = note(values, parent, told[i]);
        push_if(is_new, parent, &mut next)?;
    }
    Ok(next)
}

/// The constants that rows are: each by its children, in rounds. The first rows are the literals, and each round, a step, looks at the parents of
/// those that the round before has found. There are as many rounds as the highest row that may be a constant is high, at most.
pub(crate) fn constants<L: Ledger>(
    crew: &impl Passes,
    columns: &RowColumns<'_>,
    steps: &mut Steps<L>,
) -> Result<Vec<Option<u32>>, AllocError>
    requires few { length columns.now.kinds ≤ 4294967295 }
    ensures found { IfOk result (λ v. AreLinked columns.now → AreConstants columns.now v.items) }
    ensures enough { IfOk result (λ v. (r : ℕ) × (steps.new ≡ steps.old + r) × (AreLinked columns.now → v.items ≡ known_after columns.now (r + 1))) }
    ensures rounds { (r : ℕ) × (steps.new ≡ steps.old + r) × IsBounded columns.now r }
{
    let mut values = first_values(crew, columns)?;
    let mut fresh = literals(crew, columns)?;
    while !fresh.is_empty() {
        steps.tick();
        let told = tell(crew, columns, values.as_slice(), fresh.as_slice())?;
        fresh = put(
            crew.alloc(),
            columns,
            fresh.as_slice(),
            told.as_slice(),
            values.as_mut_slice(),
        )?;
    }
    Ok(values)
}
