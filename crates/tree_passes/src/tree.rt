//! The rows of a syntax tree.
ghost use Rattle.std.specs.Prelude.{◌≡◌, ℕ, ◌<◌, ◌≤◌, ◌^◌, [], None, Some, Err, List, length, map, IfOk};
ghost use Rattle.source_meaning.specs.Lexemes.{lexical_fault, tokens as tokens_of};
ghost use Rattle.source_meaning.specs.Grammar.{Prog, Tree, ast, leaves, left_parse};
ghost use Rattle.source_meaning.specs.Rows.{post};
ghost use Rattle.source_meaning.specs.Scope.{earliest};
ghost use Rattle.source_meaning.specs.Shape.{shape_faults};
ghost use Rattle.phase_faults.specs.Keys.{IsLeastKey};
ghost use Rattle.phase_faults.specs.declared.fault.PhaseFault.TheVariants.{Diagnostic as Told};
ghost use Rattle.ast_rows.specs.TokenRows.{row_of};
ghost use Rattle.row_laws.specs.Marks.{Mark};
ghost use Rattle.row_laws.specs.Climbed.{row_by_lists};
ghost use Rattle.row_walk.specs.Walk.{made_by};
ghost use Rattle.row_pieces.specs.Pieces.{no_row};
ghost use Rattle.row_columns.specs.TokensOf.{AreTokensOf};
ghost use Rattle.row_columns.specs.Stretches.{AreRowColumns, AreSmall, AreStretch, tree_marks};
ghost use Rattle.tree_passes.specs.Columns.{numbers_of};
ghost use Rattle.tree_passes.specs.Stretches.{IsCut};
ghost use Rattle.tree_passes.specs.TreeColumns.{IsParseOf};

use crate::SHARES;
use crate::faults::least_key;
use crate::laid::lay;
use crate::owned::owned_all;
use crate::standings::{hand_out, reduce_all};
use crate::starts::{Parse, add_up, tally_all};
use crate::walked::{Stretches, columns_all, join_columns};
use ast_rows::{Links, Rows, Tokens};
use kin_pass::{functions, kin};
use list_cuts::stretch_ends;
use par_passes::Passes;
use phase_faults::{FaultKey, PhaseFault};
use row_columns::{Columns, Source, add_program, stretches_are_rows, stretches_tell_faults};
use row_walk::walks_give_rows;
use std::alloc::AllocError;

// The columns of the rows that a walk closes, by stretches.
fn walk_columns(
    crew: &impl Passes,
    source: &Source<'_>,
    ends: &[usize],
) -> Result<Columns, AllocError>
    requires cut { IsCut source.now.numbers.now ends.now }
    requires tokens { AreTokensOf source.now.text.now source.now.starts.now source.now.lengths.now source.now.owned.now }
    ensures { IfOk result (λ v. (r : Tree Prog) → IsParseOf source.now.text.now source.now.numbers.now r
        → AreStretch (left_parse r) (leaves r) 0 no_row (made_by (left_parse r)) v.kinds.items v.lows.items v.tokens.items) }
{
    let parse = Parse {
        numbers: source.numbers,
        ends,
    };
    let before_last = ends.len().saturating_sub(1);
    let tallies = tally_all(crew, parse, before_last)?;
    let starts = add_up(crew.alloc(), parse, tallies.as_slice())?;
    let lists = reduce_all(crew, parse, starts.as_slice(), before_last)?;
    let handed = hand_out(crew.alloc(), parse, lists.as_slice())?;
    let stretches = Stretches {
        ends,
        starts: starts.as_slice(),
        handed: handed.as_slice(),
    };
    let parts = columns_all(crew, source, &stretches)?;
    join_columns(crew.alloc(), source, ends, parts)
}

// The columns of the rows of the text's tree.
fn tree_columns(
    crew: &impl Passes,
    text: &[u8],
    tokens: &Tokens,
    numbers: &[u16],
) -> Result<Columns, AllocError>
    requires small { length text.now ≤ 2 ^ 24 }
    requires lexical { lexical_fault text.now ≡ None }
    requires tokens { tokens.now ≡ map row_of (tokens_of text.now) }
    requires parsed { (r : Tree Prog) × IsParseOf text.now numbers.now r }
    ensures { IfOk result (λ v. (r : Tree Prog) → IsParseOf text.now numbers.now r → AreRowColumns (tree_marks r) v.kinds.items v.lows.items v.tokens.items) }
{
    walks_give_rows();
    let owned = owned_all(crew, tokens.kinds())?;
    let source = Source {
        text,
        starts: tokens.starts(),
        lengths: tokens.lengths(),
        owned: owned.as_slice(),
        numbers,
    };
    let ends = stretch_ends(crew, numbers.len(), SHARES)?;
    let columns = walk_columns(crew, &source, ends.as_slice())?;
    add_program(columns)
}

// The rows of these columns.
fn lay_rows(crew: &impl Passes, columns: Columns) -> Result<Rows, AllocError>
    requires few { length columns.kinds.items ≤ 4294967295 }
    requires lows { length columns.lows.items ≡ length columns.kinds.items }
    requires tokens { length columns.tokens.items ≡ length columns.kinds.items }
    ensures { IfOk result (λ v. (ms : List Mark) → AreRowColumns ms columns.kinds.items columns.lows.items columns.tokens.items → AreSmall ms
        → v ≡ map (row_by_lists ms) (numbers_of ms)) }
{
    let kin = kin(crew, columns.lows.as_slice(), SHARES)?;
    let functions = functions(crew, columns.kinds.as_slice())?;
    let links = Links {
        parents: kin.parents,
        places: kin.places,
        lows: kin.lows,
    };
    Ok(lay(columns.kinds, columns.tokens, links, functions))
}

// The rows, or the fault that the least key tells.
fn answer(crew: &impl Passes, columns: Columns, least: FaultKey) -> Result<Rows, PhaseFault>
    requires few { length columns.kinds.items ≤ 4294967295 }
    requires lows { length columns.lows.items ≡ length columns.kinds.items }
    requires tokens { length columns.tokens.items ≡ length columns.kinds.items }
    ensures ok { IfOk result (λ v. (r : Tree Prog) → AreRowColumns (tree_marks r) columns.kinds.items columns.lows.items columns.tokens.items
        → AreSmall (tree_marks r) → IsLeastKey (shape_faults (ast r)) least → (shape_faults (ast r) ≡ [])
        × (v ≡ map (row_by_lists (tree_marks r)) (numbers_of (tree_marks r)))) }
    ensures fault { (code at : ℕ) → result ≡ Err (Told code at) → (r : Tree Prog) → IsLeastKey (shape_faults (ast r)) least
        → earliest (shape_faults (ast r)) ≡ Some (record { at = at; code = code }) }
{
    match least.fault() {
        None => Ok(lay_rows(crew, columns)?),
        Some(fault) => Err(fault),
    }
}

/// The rows of the syntax tree of a text, from its tokens and its left parse: `post` of the tree where it has no fault of shape, else
/// its earliest fault: 301 an else or else if that no if or else if stands right before, 302 an assignment whose left side is no name, 303 a ninth
/// parameter, each at a token. The same for every plan, and the only other refusal is that memory is out.
pub fn rows(
    crew: &impl Passes,
    text: &[u8],
    tokens: &Tokens,
    parse: &[u16],
) -> Result<Rows, PhaseFault>
    requires small { length text.now ≤ 2 ^ 24 }
    requires lexical { lexical_fault text.now ≡ None }
    requires tokens { tokens.now ≡ map row_of (tokens_of text.now) }
    requires parsed { (r : Tree Prog) × IsParseOf text.now parse.now r }
    ensures ok { IfOk result (λ v. (r : Tree Prog) → IsParseOf text.now parse.now r → (shape_faults (ast r) ≡ []) × (v ≡ post (ast r))) }
    ensures fault { (code at : ℕ) → result ≡ Err (Told code at) → (r : Tree Prog) → IsParseOf text.now parse.now r → earliest (shape_faults (ast r)) ≡ Some (record { at = at; code = code }) }
{
    walks_give_rows();
    stretches_are_rows();
    stretches_tell_faults();
    let crew = &crew.for_items(parse.len());
    let columns = tree_columns(crew, text, tokens, parse)?;
    let least = least_key(crew, &columns)?;
    answer(crew, columns, least)
}
