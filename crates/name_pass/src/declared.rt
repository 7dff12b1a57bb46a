//! What rows declare: their keys, and how many variables are counted before stretches of rows.
ghost use Rattle.std.specs.Prelude.{◌≡◌, ℕ, ◌+◌, ◌<◌, ◌≤◌, ◌^◌, ◌++◌, Some, length, slice_get, IfOk, OnOk};
ghost use Rattle.list_cuts.specs.Cuts.{AreCuts, number_at, start_of};
ghost use Rattle.name_pass.specs.Keys.{AreDeclarations};
ghost use Rattle.name_pass.specs.RowKeys.{keys_from};
ghost use Rattle.name_pass.specs.RowNames.{count_step, row as row_at};
ghost use Rattle.name_pass.specs.Stretches.{AreDeclared, count_behind, counts_of_stretches};
ghost use Rattle.name_pass.specs.declared.declared.Declared.{Declared as AnyDeclared};

use crate::columns::kind;
use crate::input::Input;
use crate::key::NameKey;
use crate::row_keys::{declares, key_of};
use crate::sorted::sorted_keys;
use crate::tally::Tally;
use list_cuts::stretch_start;
use par_passes::Passes;
use std::alloc::{AllocError, Global};

/// What a stretch of rows declares.
#[derive(Drop)]
pub(crate) struct Declared<'a> {
    /// The keys of the rows that declare a variable or are functions.
    pub(crate) keys: Vec<NameKey<'a>>,
    /// What the rows do to the count of variables.
    pub(crate) tally: Tally,
}

impl<'a> Declared<'a> {
    // Adds what a row declares.
    fn add(&mut self, input: &Input<'a>, row: u32) -> Result<(), AllocError>
        requires row { row < length input.now.rows.now }
        requires few { self.old.tally.variables < 4294967295 }
        ensures keys { OnOk result (self.new.keys.items ≡ self.old.keys.items ++ keys_from input.now.text input.now.tokens.now input.now.rows.now row 1) }
        ensures counts { OnOk result ((before : ℕ) → count_behind self.new.tally before ≡ count_step (row_at input.now.rows.now row).kind (count_behind self.old.tally before)) }
        ensures few { OnOk result (self.new.tally.variables ≤ self.old.tally.variables + 1) }
    {
        let kind = kind(input.rows, row);
        if declares(kind) {
            self.keys
                .push(key_of(input.text, input.tokens, input.rows, row))?;
            self.tally = self.tally.with(kind);
            Ok(())
        } else {
            Ok(())
        }
    }
}

// What the rows from one up to another declare.
fn declared_between<'a>(
    alloc: Global,
    input: &Input<'a>,
    from: u32,
    to: u32,
) -> Result<Declared<'a>, AllocError>
    requires few { length input.now.rows.now < 2 ^ 30 }
    requires order { (from ≤ to) × (to ≤ length input.now.rows.now) }
    ensures { IfOk result (λ d. AreDeclared input.now.text input.now.tokens.now input.now.rows.now from to d.keys.items d.tally) }
{
    let mut declared = Declared {
        keys: Vec::new(alloc),
        tally: Tally::new(),
    };
    for row in from..to {
        declared.add(input, row)?;
    }
    Ok(declared)
}

// What stretch number c of the rows declares.
fn declared_by_number<'a>(
    alloc: Global,
    input: &Input<'a>,
    ends: &[usize],
    c: usize,
) -> Result<Declared<'a>, AllocError>
    requires few { length input.now.rows.now < 2 ^ 30 }
    requires cuts { AreCuts ends.now (length input.now.rows.now) }
    requires inside { c < length ends.now }
    ensures { IfOk result (λ d. AreDeclared input.now.text input.now.tokens.now input.now.rows.now (start_of ends.now c) (number_at ends.now c) d.keys.items d.tally) }
{
    let from = stretch_start(ends, c);
    let to = ends[c];
    declared_between(alloc, input, from as u32, to as u32)
}

// What each stretch of the rows declares.
fn declared_all<'a>(
    crew: &impl Passes,
    input: &Input<'a>,
    ends: &[usize],
) -> Result<Vec<Declared<'a>>, AllocError>
    requires few { length input.now.rows.now < 2 ^ 30 }
    requires cuts { AreCuts ends.now (length input.now.rows.now) }
    requires count { length ends.now < 2 ^ 62 }
    ensures many { IfOk result (λ v. length v.items ≡ length ends.now) }
    ensures each { IfOk result (λ v. (c : ℕ) (x : AnyDeclared) → slice_get v.items c ≡ Some x
        → AreDeclared input.now.text input.now.tokens.now input.now.rows.now (start_of ends.now c) (number_at ends.now c) x.keys.items x.tally) }
{
    let alloc = crew.alloc();
    let make = |c: u64| -> Result<Declared, AllocError>
        requires { (length input.now.rows.now < 2 ^ 30) × AreCuts ends.now (length input.now.rows.now) × (c < length ends.now) }
        ensures { IfOk result (λ d. AreDeclared input.entry.now.text input.entry.now.tokens.now input.entry.now.rows.now (start_of ends.entry.now c) (number_at ends.entry.now c)
            d.keys.items d.tally) }
    { declared_by_number(alloc, input, ends, c as usize) };
    crew.bundles(ends.len(), &make)
}

// How many variables of its function are declared before each stretch.
fn counts_before(
    alloc: Global,
    input: &Input<'_>,
    ends: &[usize],
    parts: &[Declared<'_>],
) -> Result<Vec<u32>, AllocError>
    requires few { length input.now.rows.now < 2 ^ 30 }
    requires cuts { AreCuts ends.now (length input.now.rows.now) }
    requires many { length parts.now ≡ length ends.now }
    requires each { (c : ℕ) (x : AnyDeclared) → slice_get parts.now c ≡ Some x
        → AreDeclared input.now.text input.now.tokens.now input.now.rows.now (start_of ends.now c) (number_at ends.now c) x.keys.items x.tally }
    ensures { IfOk result (λ v. v.items ≡ counts_of_stretches input.now.rows.now ends.now (length ends.now)) }
{
    // The contract alone speaks of these.
    let _ = input;
    let _ = ends;
    let mut counts = Vec::with_capacity(alloc, parts.len())?;
    let mut before = 0;
    for c in 0..parts.len() {
        counts.push(before)?;
        before = parts[c].tally.behind(before);
    }
    Ok(counts)
}

// How many keys there are.
fn count_keys(parts: &[Declared<'_>]) -> usize {
    let mut keys = 0_usize;
    for part in parts {
        keys = keys.saturating_add(part.keys.len());
    }
    keys
}

// The keys of all rows that declare a variable or are functions. Those of a single stretch stay where they are, and those of others end
// once they are copied.
fn join_keys<'a>(
    alloc: Global,
    input: &Input<'a>,
    ends: &[usize],
    mut parts: Vec<Declared<'a>>,
) -> Result<Vec<NameKey<'a>>, AllocError>
    requires cuts { AreCuts ends.now (length input.now.rows.now) }
    requires many { length parts.items ≡ length ends.now }
    requires each { (c : ℕ) (x : AnyDeclared) → slice_get parts.items c ≡ Some x
        → AreDeclared input.now.text input.now.tokens.now input.now.rows.now (start_of ends.now c) (number_at ends.now c) x.keys.items x.tally }
    ensures { IfOk result (λ v. v.items ≡ keys_from input.now.text input.now.tokens.now input.now.rows.now 0 (length input.now.rows.now)) }
{
    // The contract alone speaks of these.
    let _ = input;
    let _ = ends;
    if parts.len() == 1 {
        let part = parts.swap_remove(0);
        return Ok(part.keys);
    }
    let mut keys = Vec::with_capacity(alloc, count_keys(&parts))?;
    for part in parts {
        keys.extend_from_slice(part.keys.as_slice())?;
    }
    Ok(keys)
}

/// What the rows declare, by the stretches that end at these places: the sorted keys of all rows, and how many variables of its function are
/// declared before each stretch.
pub(crate) fn declarations<'a>(
    crew: &impl Passes,
    input: &Input<'a>,
    ends: &[usize],
) -> Result<(Vec<NameKey<'a>>, Vec<u32>), AllocError>
    requires few { length input.now.rows.now < 2 ^ 30 }
    requires cuts { AreCuts ends.now (length input.now.rows.now) }
    requires count { length ends.now < 2 ^ 62 }
    ensures keys { IfOk result (λ r. AreDeclarations input.now.text.now input.now.tokens.now input.now.rows.now r.0.items) }
    ensures counts { IfOk result (λ r. r.1.items ≡ counts_of_stretches input.now.rows.now ends.now (length ends.now)) }
{
    let parts = declared_all(crew, input, ends)?;
    let counts = counts_before(crew.alloc(), input, ends, parts.as_slice())?;
    let keys = join_keys(crew.alloc(), input, ends, parts)?;
    let sorted = sorted_keys(crew, input, keys.as_slice())?;
    Ok((sorted, counts))
}
