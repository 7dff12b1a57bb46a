//! The rows and the names of the folded program.
ghost use Rattle.std.specs.Prelude.{◌≡◌, ℕ, ◌+◌, ◌≤◌, [], length, map, IfOk, List, Option};
ghost use Rattle.std.specs.List.{range_with_len};
ghost use Rattle.source_meaning.specs.Ast.{Program as Source};
ghost use Rattle.source_meaning.specs.Rows.{post};
ghost use Rattle.source_meaning.specs.Scope.{scope_faults};
ghost use Rattle.source_meaning.specs.Shape.{shape_faults};
ghost use Rattle.ast_rows.specs.NodeRows.{rows_from};
ghost use Rattle.ast_rows.specs.FunctionRows.{functions_before, functions_by};
ghost use Rattle.row_laws.specs.Climbed.{parents_by, place_at};
ghost use Rattle.folding.specs.Folding.{folded_program};
ghost use Rattle.folded_rows.specs.Columns.{AreConstants, columns_of, new_rows as rows_of, number_in};
ghost use Rattle.folded_rows.specs.Levels.{AreLinked, program_levels};
ghost use Rattle.kin_pass.specs.Kin.{AreKin};
ghost use Rattle.fold_pass.specs.Folded.{AreNamesOf, AreNewColumns, AreNewNames, IsFolding};
ghost use Rattle.fold_pass.specs.Rounds.{IsBounded, known_after};
ghost use Rattle.fold_pass.specs.Staying.{AreStaying};

use crate::columns::RowColumns;
use crate::complete::folding_rows;
use crate::folded::{kinds, lows, meant, numbers, rank, tokens};
use crate::rounds::constants;
use crate::staying::{Staying, rows_that_stay};
use ast_rows::{FunctionColumns, Links, Names, Rows};
use folded_rows::{folded_names_are, folded_rows_are, nothing_folds, rows_have_levels};
use kin_pass::{functions, kin};
use par_passes::Passes;
use row_kin::Kin;
use row_rules::{shaped_is_named, sites_are_rows};
use scan_lookback::Steps;
use source_meaning::Kind;
use std::alloc::AllocError;
use std::sync::ledger::Ledger;

// This many stretches of the rows that stay for each worker, since some take longer than others.
const SHARES: u32 = 2;

// The columns of the rows that stay: kinds, own tokens and the first rows of subtrees.
#[derive(Drop)]
struct NewColumns {
    kinds: Vec<Kind>,
    tokens: Vec<u32>,
    lows: Vec<u32>,
}

// These columns.
fn new_columns(
    crew: &impl Passes,
    columns: &RowColumns<'_>,
    values: &[Option<u32>],
    staying: &Staying,
) -> Result<NewColumns, AllocError>
    requires few { length columns.now.kinds ≤ 4294967295 }
    requires staying { AreStaying columns.now values.now staying.now.kept.items staying.now.marks.items staying.now.ranks.items }
    requires lows { (k : ℕ) → number_in columns.now.lows k ≤ k }
    ensures { IfOk result (λ v. AreNewColumns columns.now values.now v.kinds.items v.tokens.items v.lows.items) }
{
    let kept = staying.kept.as_slice();
    let kinds = kinds(crew, columns, values, kept)?;
    let words = numbers(crew, columns.tokens, kept)?;
    let tokens = tokens(crew, kinds.as_slice(), words.as_slice())?;
    let lows = lows(crew, columns.lows, staying.ranks.as_slice(), kept)?;
    Ok(NewColumns {
        kinds,
        tokens,
        lows,
    })
}

// Columns as rows: parents and places follow from the first rows of subtrees, and the functions from the kinds.
fn lay(columns: NewColumns, kin: Kin, functions: FunctionColumns) -> Rows
    requires tokens { length columns.tokens.items ≡ length columns.kinds.items }
    requires lows { length columns.lows.items ≡ length columns.kinds.items }
    requires kin { AreKin columns.lows.items kin }
    requires functions { functions.rows.items ≡ functions_by columns.kinds.items }
    requires owners { functions.owners.items ≡ functions_before columns.kinds.items }
    ensures { result ≡ rows_from 0 columns.kinds.items (parents_by columns.lows.items) columns.tokens.items
        (map (place_at (parents_by columns.lows.items)) (range_with_len 0 (length columns.lows.items))) }
{
    let links = Links {
        parents: kin.parents,
        places: kin.places,
        lows: kin.lows,
    };
    Rows::new(columns.kinds, columns.tokens, links, functions)
}

// The rows that stay.
fn new_rows(
    crew: &impl Passes,
    columns: &RowColumns<'_>,
    values: &[Option<u32>],
    staying: &Staying,
) -> Result<Rows, AllocError>
    requires few { length columns.now.kinds ≤ 4294967295 }
    requires staying { AreStaying columns.now values.now staying.now.kept.items staying.now.marks.items staying.now.ranks.items }
    requires lows { (k : ℕ) → number_in columns.now.lows k ≤ k }
    ensures { IfOk result (λ v. v ≡ rows_of columns.now values.now) }
{
    let columns = new_columns(crew, columns, values, staying)?;
    let kin = kin(crew, columns.lows.as_slice(), SHARES)?;
    let functions = functions(crew, columns.kinds.as_slice())?;
    Ok(lay(columns, kin, functions))
}

// What the rows that stay mean, and the variables that they declare.
fn new_names(
    crew: &impl Passes,
    names: &Names,
    columns: &RowColumns<'_>,
    values: &[Option<u32>],
    staying: &Staying,
) -> Result<Names, AllocError>
    requires few { length columns.now.kinds ≤ 4294967295 }
    requires staying { AreStaying columns.now values.now staying.now.kept.items staying.now.marks.items staying.now.ranks.items }
    ensures { IfOk result (λ v. AreNewNames columns.now values.now names.now v) }
{
    // The contract alone speaks of these.
    let _ = columns;
    let _ = values;
    let kept = staying.kept.as_slice();
    let ranks = staying.ranks.as_slice();
    let meant = meant(crew, names.meant(), staying.marks.as_slice(), ranks, kept)?;
    let numbers = numbers(crew, names.numbers(), kept)?;
    Ok(Names::new(meant, numbers, rank(ranks, names.main())))
}

// The rows that stay and what they mean, from the columns of rows.
fn fold_columns<L: Ledger>(
    crew: &impl Passes,
    columns: &RowColumns<'_>,
    names: &Names,
    steps: &mut Steps<L>,
) -> Result<(Rows, Names), AllocError>
    requires few { length columns.now.kinds ≤ 4294967295 }
    requires lows { (k : ℕ) → number_in columns.now.lows k ≤ k }
    ensures folded { IfOk result (λ v. (values : List (Option ℕ)) × IsFolding columns.now values names.now v.1 v.0) }
    ensures enough { IfOk result (λ _. (r : ℕ) × (steps.new ≡ steps.old + r) × (AreLinked columns.now → AreConstants columns.now (known_after columns.now (r + 1)))) }
    ensures rounds { (r : ℕ) × (steps.new ≡ steps.old + r) × IsBounded columns.now r }
{
    let values = constants(crew, columns, steps)?;
    let staying = rows_that_stay(crew, columns, values.as_slice())?;
    let folded = new_rows(crew, columns, values.as_slice(), &staying)?;
    let named = new_names(crew, names, columns, values.as_slice(), &staying)?;
    Ok((folded, named))
}

// The columns of rows.
fn columns_of_rows(rows: &Rows) -> RowColumns<'_>
    ensures { result ≡ columns_of rows.now }
{
    RowColumns {
        kinds: rows.kinds(),
        parents: rows.parents(),
        tokens: rows.tokens(),
        places: rows.places(),
        lows: rows.lows(),
    }
}

/// The rows and the names of the folded program, where these are the rows of a program without a fault of shape, and what its names mean. Constants
/// are found in rounds, each of which is a step: at most as many as the highest expression has levels, where a leaf has one, and enough to find all, level by level. The answer is the
/// same for every plan and gate, and the only refusal is that memory is out.
///
/// A name or a call that is left means what it did, by that row's new number; each variable keeps its number. Where nothing folds, the rows and
/// the names are given back as they are.
pub fn fold<L: Ledger>(
    crew: &impl Passes,
    rows: Rows,
    names: Names,
    steps: &mut Steps<L>,
) -> Result<(Rows, Names), AllocError>
    requires few { length rows ≤ 4294967295 }
    ensures rows { IfOk result (λ v. (p : Source) → shape_faults p ≡ [] → rows ≡ post p → v.0 ≡ post (folded_program p)) }
    ensures names { IfOk result (λ v. (p : Source) (end : ℕ) → shape_faults p ≡ [] → scope_faults end p ≡ [] → rows ≡ post p
        → AreNamesOf names p → AreNamesOf v.1 (folded_program p)) }
    ensures many { IfOk result (λ v. length names.meant ≡ length rows → length names.numbers ≡ length rows
        → (length v.1.meant ≡ length v.0) × (length v.1.numbers ≡ length v.0)) }
    ensures few { IfOk result (λ v. length v.0 ≤ length rows) }
    ensures enough { IfOk result (λ _. (r : ℕ) × (steps.new ≡ steps.old + r) × ((p : Source) → rows ≡ post p → AreConstants (columns_of (post p)) (known_after (columns_of (post p)) (r + 1)))) }
    ensures rounds { (r : ℕ) × (steps.new ≡ steps.old + r) × ((p : Source) → rows ≡ post p → r ≤ program_levels p) }
{
    folded_rows_are();
    folded_names_are();
    rows_have_levels();
    nothing_folds();
    shaped_is_named();
    sites_are_rows();
    rows.tokens_are_told();
    let columns = columns_of_rows(&rows);
    if folding_rows(crew, &columns)?.is_empty() {
        return Ok((rows, names));
    }
    fold_columns(crew, &columns, &names, steps)
}
