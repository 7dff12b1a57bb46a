//! The columns of the rows that stretches close, and of all rows.
ghost use Rattle.std.specs.Prelude.{◌≡◌, ℕ, ◌+◌, ◌<◌, ◌≤◌, ◌++◌, Some, length, slice_get, IfOk, OnOk};
ghost use Rattle.source_meaning.specs.Grammar.{Prog, Tree, leaves, left_parse};
ghost use Rattle.row_walk.specs.Walk.{made_by};
ghost use Rattle.row_pieces.specs.Pieces.{no_row};
ghost use Rattle.row_columns.specs.Numbers.{IsParseOf};
ghost use Rattle.row_columns.specs.TokensOf.{AreTokensOf};
ghost use Rattle.row_columns.specs.Stretches.{AreStretch};
ghost use Rattle.row_columns.specs.declared.stretch.Columns.{Columns as AnyColumns};
ghost use Rattle.tree_passes.specs.Stretches.{AreColumnsOf, AreStretches, IsCut, rows_of_stretch};

use crate::starts::Start;
use list_cuts::stretch_start;
use par_passes::Passes;
use row_columns::{Columns, Source, stretch_columns};
use row_pieces::{Made, Point, Standing, walk_stretch};
use std::alloc::{AllocError, Global};

/// The stretches of a left parse, and what each is walked over from.
#[derive(Clone, Copy)]
pub(crate) struct Stretches<'a> {
    /// Where each one ends.
    pub(crate) ends: &'a [usize],
    /// What holds before each.
    pub(crate) starts: &'a [Start],
    /// The rows that are open before each and that it may meet.
    pub(crate) handed: &'a [Standing],
}

// The rows that stretch number c closes.
fn walk_by_number(
    alloc: Global,
    numbers: &[u16],
    stretches: &Stretches<'_>,
    c: usize,
) -> Result<Vec<Made>, AllocError>
    requires stretches { AreStretches numbers.now stretches.now }
    requires inside { c < length stretches.now.ends.now }
    ensures { IfOk result (λ v. v.items ≡ rows_of_stretch numbers.now stretches.now.ends.now c) }
{
    let ends = stretches.ends;
    let place = stretch_start(ends, c);
    let start = stretches.starts[c];
    let from = Point {
        place,
        level: start.level,
        read: start.read,
    };
    let mut standing = stretches.handed[c].copy(alloc)?;
    let mut made = Vec::new(alloc);
    walk_stretch(numbers, from, ends[c], &mut standing, &mut made)?;
    if c + 1 == ends.len() {
        standing.close_all(&mut made)?;
    }
    Ok(made)
}

// The columns of these rows.
fn columns_by_number(
    alloc: Global,
    source: &Source<'_>,
    stretches: &Stretches<'_>,
    c: usize,
) -> Result<Columns, AllocError>
    requires tokens { AreTokensOf source.now.text.now source.now.starts.now source.now.lengths.now source.now.owned.now }
    requires stretches { AreStretches source.now.numbers.now stretches.now }
    requires inside { c < length stretches.now.ends.now }
    ensures { IfOk result (λ v. AreColumnsOf source.now.text.now source.now.numbers.now stretches.now.ends.now c v.kinds.items v.lows.items v.tokens.items) }
{
    let made = walk_by_number(alloc, source.numbers, stretches, c)?;
    let standing = &stretches.handed[c];
    let (last, count) = (standing.last(), standing.count());
    stretch_columns(alloc, source, made.as_slice(), last, count)
}

/// The columns of the rows that each stretch closes.
pub(crate) fn columns_all(
    crew: &impl Passes,
    source: &Source<'_>,
    stretches: &Stretches<'_>,
) -> Result<Vec<Columns>, AllocError>
    requires tokens { AreTokensOf source.now.text.now source.now.starts.now source.now.lengths.now source.now.owned.now }
    requires stretches { AreStretches source.now.numbers.now stretches.now }
    ensures many { IfOk result (λ v. length v.items ≡ length stretches.now.ends.now) }
    ensures each { IfOk result (λ v. (c : ℕ) (x : AnyColumns) → slice_get v.items c ≡ Some x
        → AreColumnsOf source.now.text.now source.now.numbers.now stretches.now.ends.now c x.kinds.items x.lows.items x.tokens.items) }
{
    let alloc = crew.alloc();
    let make = |c: u64| -> Result<Columns, AllocError>
        requires { AreTokensOf source.now.text.now source.now.starts.now source.now.lengths.now source.now.owned.now
            × AreStretches source.now.numbers.now stretches.now × (c < length stretches.now.ends.now) }
        ensures { IfOk result (λ v. AreColumnsOf source.entry.now.text.now source.entry.now.numbers.now stretches.entry.now.ends.now c v.kinds.items v.lows.items v.tokens.items) }
    { columns_by_number(alloc, source, stretches, c as usize) };
    crew.bundles(stretches.ends.len(), &make)
}

// How many rows the columns have.
fn count_rows(parts: &[Columns]) -> usize {
    let mut rows = 0_usize;
    for part in parts {
        rows = rows.saturating_add(part.kinds.len());
    }
    rows
}

// Puts columns behind others.
fn append(all: &mut Columns, more: &Columns) -> Result<(), AllocError>
    ensures kinds { OnOk result (all.new.kinds.items ≡ all.old.kinds.items ++ more.now.kinds.items) }
    ensures lows { OnOk result (all.new.lows.items ≡ all.old.lows.items ++ more.now.lows.items) }
    ensures tokens { OnOk result (all.new.tokens.items ≡ all.old.tokens.items ++ more.now.tokens.items) }
{
    all.kinds.extend_from_slice(more.kinds.as_slice())?;
    all.lows.extend_from_slice(more.lows.as_slice())?;
    all.tokens.extend_from_slice(more.tokens.as_slice())?;
    Ok(())
}

/// The columns of the rows of all stretches. Those of a single stretch stay where they are, and those of others end once they are copied.
pub(crate) fn join_columns(
    alloc: Global,
    source: &Source<'_>,
    ends: &[usize],
    mut parts: Vec<Columns>,
) -> Result<Columns, AllocError>
    requires cut { IsCut source.now.numbers.now ends.now }
    requires many { length parts.items ≡ length ends.now }
    requires each { (c : ℕ) (x : AnyColumns) → slice_get parts.items c ≡ Some x → AreColumnsOf source.now.text.now source.now.numbers.now ends.now c x.kinds.items x.lows.items x.tokens.items }
    ensures { IfOk result (λ v. (r : Tree Prog) → IsParseOf source.now.text.now source.now.numbers.now r
        → AreStretch (left_parse r) (leaves r) 0 no_row (made_by (left_parse r)) v.kinds.items v.lows.items v.tokens.items) }
{
    // The contract alone speaks of these.
    let _ = source;
    let _ = ends;
    if parts.len() == 1 {
        return Ok(parts.swap_remove(0));
    }
    // one more for the program's own row
    let rows = count_rows(&parts).saturating_add(1);
    let mut all = Columns {
        kinds: Vec::with_capacity(alloc, rows)?,
        lows: Vec::with_capacity(alloc, rows)?,
        tokens: Vec::with_capacity(alloc, rows)?,
    };
    for part in parts {
        append(&mut all, &part)?;
    }
    Ok(all)
}
