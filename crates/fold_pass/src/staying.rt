//! Which rows stay, and their new numbers.
ghost use Rattle.std.specs.Prelude.{◌≡◌, ◌≤◌, false, length, map, filter, slice_index_or, IfOk};
ghost use Rattle.std.specs.List.{range_with_len};
ghost use Rattle.word_monoid.specs.Folds.{prefixes};
ghost use Rattle.word_monoid.specs.Instances.{count};
ghost use Rattle.folded_rows.specs.Columns.{gives_way, gives_way_by, is_bare, is_dropped, span};
ghost use Rattle.fold_pass.specs.Staying.{AreStaying, bit, reaches_of, spans_of, stays_by};

use crate::columns::{RowColumns, value};
use ast_rows::reading::number;
use par_passes::{Lift, Passes};
use source_meaning::Kind;
use std::alloc::AllocError;
use word_monoid::{Count, Greatest};

// Whether a row of this kind, whose left side is this constant, gives way to its right side.
fn gives_way_to(kind: Kind, left: Option<u32>) -> bool
    ensures { result ≡ gives_way_by kind left }
{
    match (kind, left) {
        (Kind::And, Some(side)) => side != 0,
        (Kind::Or, Some(side)) => side == 0,
        _ => false,
    }
}

// Whether the right side of row k stands for it.
fn row_gives_way(columns: &RowColumns<'_>, values: &[Option<u32>], k: u32) -> bool
    ensures { result ≡ gives_way columns.now values.now k }
{
    match columns.kind(k) {
        kind @ (Kind::And | Kind::Or) => gives_way_to(kind, value(values, columns.left(k))),
        _ => false,
    }
}

// Whether row k is the left side of such a row. A row that is no constant isn't.
fn row_is_dropped(columns: &RowColumns<'_>, values: &[Option<u32>], k: u32) -> bool
    ensures { result ≡ is_dropped columns.now values.now k }
{
    match value(values, k) {
        None => false,
        side => {
            number(columns.places, k) == 0
                && gives_way_to(columns.kind(number(columns.parents, k)), side)
        }
    }
}

// Whether no row below row k stays.
fn row_is_bare(columns: &RowColumns<'_>, values: &[Option<u32>], k: u32) -> bool
    ensures { result ≡ is_bare columns.now values.now k }
{
    value(values, k).is_some()
        && (!row_gives_way(columns, values, k) || row_is_dropped(columns, values, k))
}

// How far the row of this number, counted from the last one on, has the rows before it in its hold.
fn span_at(columns: &RowColumns<'_>, values: &[Option<u32>], m: u32) -> u64
    requires few { length columns.now.kinds ≤ 4294967295 }
    ensures { result ≡ span columns.now values.now m }
{
    let many = columns.kinds.len() as u32;
    let k = many.saturating_sub(1).saturating_sub(m);
    if row_is_bare(columns, values, k) {
        many.saturating_sub(number(columns.lows, k)) as u64
    } else {
        0
    }
}

// The spans of all rows, from the last one on.
fn spans(
    crew: &impl Passes,
    columns: &RowColumns<'_>,
    values: &[Option<u32>],
) -> Result<Vec<u64>, AllocError>
    requires few { length columns.now.kinds ≤ 4294967295 }
    ensures { IfOk result (λ v. v.items ≡ spans_of columns.now values.now) }
{
    let at = |m: u32| -> u64
        requires { length columns.now.kinds ≤ 4294967295 }
        ensures { result ≡ span columns.entry.now values.entry.now m }
    { span_at(columns, values, m) };
    crew.tabulate(columns.kinds.len() as u32, &at)
}

// Spans as the items of a scan.
struct Same;

impl Lift<u64, u64> for Same {
    ghost lifted = { λ _ x. x };

    fn lift(&self, x: u64) -> u64 {
        x
    }
}

// The greatest span before each row, and of all, from the last row on.
fn reaches(
    crew: &impl Passes,
    columns: &RowColumns<'_>,
    values: &[Option<u32>],
) -> Result<Vec<u64>, AllocError>
    requires few { length columns.now.kinds ≤ 4294967295 }
    ensures { IfOk result (λ v. v.items ≡ reaches_of columns.now values.now) }
{
    let spans = spans(crew, columns, values)?;
    crew.scan_lifted(&Greatest, spans.as_slice(), &Same)
}

// Whether row k stays, by the greatest spans before rows.
fn row_stays(columns: &RowColumns<'_>, values: &[Option<u32>], reaches: &[u64], k: u32) -> bool
    requires few { length columns.now.kinds ≤ 4294967295 }
    ensures { result ≡ stays_by columns.now values.now reaches.now k }
{
    let m = (columns.kinds.len() as u32)
        .saturating_sub(1)
        .saturating_sub(k);
    let reach = reaches.get(m as usize).copied().unwrap_or(0);
    let is_below = (m as u64) < reach;
    !is_below && (!row_gives_way(columns, values, k) && !row_is_dropped(columns, values, k))
}

// Which rows stay.
fn marks(
    crew: &impl Passes,
    columns: &RowColumns<'_>,
    values: &[Option<u32>],
    reaches: &[u64],
) -> Result<Vec<bool>, AllocError>
    requires few { length columns.now.kinds ≤ 4294967295 }
    ensures { IfOk result (λ v. v.items ≡ map (stays_by columns.now values.now reaches.now) (range_with_len 0 (length columns.now.kinds))) }
{
    let at = |k: u32| -> bool
        requires { length columns.now.kinds ≤ 4294967295 }
        ensures { result ≡ stays_by columns.entry.now values.entry.now reaches.entry.now k }
    { row_stays(columns, values, reaches, k) };
    crew.tabulate(columns.kinds.len() as u32, &at)
}

// The places of the marks.
fn marked(crew: &impl Passes, marks: &[bool]) -> Result<Vec<u32>, AllocError>
    requires few { length marks.now ≤ 4294967295 }
    ensures { IfOk result (λ v. v.items ≡ filter (λ k. slice_index_or marks.now k false) (range_with_len 0 (length marks.now))) }
{
    crew.positions(marks, &|mark: bool| mark)
}

// A mark as a number.
struct Bit;

impl Lift<bool, u64> for Bit {
    ghost use Rattle.fold_pass.specs.Staying.{bit};

    ghost lifted = { λ _ mark. bit mark };

    fn lift(&self, mark: bool) -> u64 {
        u64::from(mark)
    }
}

// How many marks stand before each place, and in all.
fn ranks(crew: &impl Passes, marks: &[bool]) -> Result<Vec<u64>, AllocError>
    requires few { length marks.now ≤ 4294967295 }
    ensures { IfOk result (λ v. v.items ≡ prefixes count (map bit marks.now)) }
{
    crew.scan_lifted(&Count, marks, &Bit)
}

/// The rows that stay, in order; for each row whether it stays; and how many rows before it do, and of all.
#[derive(Drop)]
pub(crate) struct Staying {
    pub(crate) kept: Vec<u32>,
    pub(crate) marks: Vec<bool>,
    pub(crate) ranks: Vec<u64>,
}

// Which rows stay, by marks.
fn staying_by(crew: &impl Passes, marks: Vec<bool>) -> Result<Staying, AllocError>
    requires few { length marks.items ≤ 4294967295 }
    ensures { IfOk result (λ v. (v.marks.items ≡ marks.items) × (v.kept.items ≡ filter (λ k. slice_index_or marks.items k false) (range_with_len 0 (length marks.items)))
        × (v.ranks.items ≡ prefixes count (map bit marks.items))) }
{
    let kept = marked(crew, marks.as_slice())?;
    let ranks = ranks(crew, marks.as_slice())?;
    Ok(Staying { kept, marks, ranks })
}

/// Which rows stay, where these are the constants that rows are.
pub(crate) fn rows_that_stay(
    crew: &impl Passes,
    columns: &RowColumns<'_>,
    values: &[Option<u32>],
) -> Result<Staying, AllocError>
    requires few { length columns.now.kinds ≤ 4294967295 }
    ensures { IfOk result (λ v. AreStaying columns.now values.now v.kept.items v.marks.items v.ranks.items) }
{
    let reaches = reaches(crew, columns, values)?;
    let marks = marks(crew, columns, values, reaches.as_slice())?;
    staying_by(crew, marks)
}
