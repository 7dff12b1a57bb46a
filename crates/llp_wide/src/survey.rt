// All places of a grammar's symbols: right sides are walked from the start on, by what is matched last before them.

ghost use Rattle.std.specs.Prelude.{◌≡◌, ◌<◌, ◌+◌, ◌*◌, ℕ, ◌∷◌, ◌++◌, [], length, set, Some, slice_index_or, IfOk, MatchOption};
ghost use Rattle.grammar_file.specs.declared.symbols.Symbol.TheVariants.{Nonterminal as AnyNonterminal};
ghost use Rattle.grammar_file.specs.Grammar.{IsWellFormed};
ghost use Rattle.grammar_file.specs.Marks.{AreMarksOf};
ghost use Rattle.grammar_file.specs.Spelling.{IsReduced};
ghost use Rattle.ll1_sets.specs.Predict.{IsNullable};
ghost use Rattle.llp_wide.specs.Endings.{AreEndings};
ghost use Rattle.llp_wide.specs.Places.{AreSpots};
ghost use Rattle.llp_wide.specs.Surveys.{Finds, Opens, OpensIn, HaveRoom, place_of};
ghost use Rattle.llp_wide.specs.declared.places.Entrance.{Entrance as AnyEntrance};

use crate::endings::LastMarks;
use crate::places::{Collector, Entrance, Group, Place};
use grammar_file::{Grammar, Symbol};
use llp_tables::no_marks;
use std::alloc::{AllocError, Global};

// Finds an entrance, which is still to be walked where it is new.
fn enter(
    entrance: Entrance,
    count: u16,
    marks: &mut Vec<bool>,
    waiting: &mut Vec<Entrance>,
) -> Result<(), AllocError>
    requires nonterminal { entrance.nonterminal < count }
    requires within { place_of count entrance < length marks.old.items }
    ensures { IfOk result (λ u. Finds count (λ e. e ≡ entrance) marks.old.items waiting.old.items marks.new.items waiting.new.items) }
{
    let at = place_of(entrance, count);
    if marks[at] {
        return Ok(());
    }
    marks[at] = true;
    waiting.push(entrance)?;
    Ok(())
}

// Finds the entrance of a place's symbol, if it is a nonterminal.
fn enter_place(
    place: &Place,
    count: u16,
    marks: &mut Vec<bool>,
    waiting: &mut Vec<Entrance>,
) -> Result<(), AllocError>
    requires { (e : AnyEntrance) → Opens place.now e → (e.nonterminal < count) × (place_of count e < length marks.old.items) }
    ensures { IfOk result (λ u. Finds count (Opens place.now) marks.old.items waiting.old.items marks.new.items waiting.new.items) }
{
    match place.symbol {
        Symbol::Terminal(_) => Ok(()),
        Symbol::Nonterminal(nonterminal) => {
            let before = place.before;
            let entrance = Entrance {
                before,
                nonterminal,
            };
            enter(entrance, count, marks, waiting)
        }
    }
}

// Finds the entrances of the symbols of all places.
fn enter_places(
    places: &[Place],
    count: u16,
    marks: &mut Vec<bool>,
    waiting: &mut Vec<Entrance>,
) -> Result<(), AllocError>
    requires { HaveRoom count places.now (length marks.old.items) }
    ensures { IfOk result (λ u. Finds count (OpensIn places.now (length places.now)) marks.old.items waiting.old.items marks.new.items waiting.new.items) }
{
    for k in 0..places.len() {
        enter_place(&places[k], count, marks, waiting)?;
    }
    Ok(())
}

// Takes an entrance that is still to be walked.
fn next_entrance(waiting: &mut Vec<Entrance>) -> Option<Entrance>
    ensures { MatchOption result (waiting.old.items ≡ []) (λ e. waiting.old.items ≡ waiting.new.items ++ e ∷ []) }
{
    waiting.pop()
}

// This many owners with no places.
fn empty_groups(alloc: Global, count: usize) -> Result<Vec<Group>, AllocError>
    ensures len { IfOk result (λ v. length v.items ≡ count) }
    ensures none { IfOk result (λ v. (n : ℕ) → slice_index_or v.items n [] ≡ []) }
{
    let mut groups = Vec::new(alloc);
    for _ in 0..count {
        groups.push(Group {
            places: Vec::new(alloc),
        })?;
    }
    Ok(groups)
}

// Keeps the places of an owner.
fn keep(groups: &mut Vec<Group>, at: usize, places: Vec<Place>)
    requires { at < length groups.old.items }
    ensures { groups.new.items ≡ set groups.old.items at places.items }
{
    groups[at] = Group { places };
}

// The number of an entrance, among this many nonterminals.
fn place_of(entrance: Entrance, count: u16) -> usize
    ensures { result ≡ place_of count entrance }
{
    entrance.before as usize * count as usize + entrance.nonterminal as usize
}

/// The places of the grammar's symbols in right sides, by what is matched last before the symbol and before the right side. They stand
/// by their owners' numbers.
pub(crate) fn places(
    alloc: Global,
    grammar: &Grammar,
    nullable: &[bool],
    all: &[LastMarks],
) -> Result<Vec<Group>, AllocError>
    requires well_formed { IsWellFormed grammar.now }
    requires reduced { IsReduced grammar.now }
    requires nullable { AreMarksOf grammar.now (λ a. IsNullable grammar.now (AnyNonterminal a ∷ [])) nullable.now }
    requires endings { AreEndings grammar.now all.now }
    ensures { IfOk result (λ v. AreSpots grammar.now v.items) }
{
    let count = grammar.nonterminal_count();
    let owners = (grammar.terminals().len() + 3) * count as usize;
    let mut marks = no_marks(alloc, owners)?;
    let mut groups = empty_groups(alloc, owners)?;
    let mut waiting = Vec::new(alloc);
    waiting.push(Entrance {
        before: 0,
        nonterminal: 0,
    })?;
    while let Some(entrance) = next_entrance(&mut waiting) {
        let mut own = Vec::new(alloc);
        let collector = Collector {
            nullable,
            all,
            owner: entrance,
        };
        collector.add_places(alloc, grammar.productions(), &mut own)?;
        enter_places(own.as_slice(), count, &mut marks, &mut waiting)?;
        keep(&mut groups, place_of(entrance, count), own);
    }
    Ok(groups)
}
