// PSLS with two terminals of look-back, for one terminal that comes next.

ghost use Rattle.std.specs.Prelude.{ℕ, ◌∷◌, [], IfOk};
ghost use Rattle.grammar_file.specs.declared.symbols.Symbol.TheVariants.{Terminal as AnyTerminal, Nonterminal as AnyNonterminal};
ghost use Rattle.grammar_file.specs.Grammar.{IsWellFormed};
ghost use Rattle.grammar_file.specs.Marks.{AreMarksOf};
ghost use Rattle.llp_tables.specs.LeastMembers.{KeepsLeast};
ghost use Rattle.llp_tables.specs.Lookbacks.{cells_at};
ghost use Rattle.ll1_sets.specs.Predict.{IsFirst, IsNullable};
ghost use Rattle.llp_wide.specs.Places.{AreSpots};
ghost use Rattle.llp_wide.specs.Wide.{IsWideLookback};
ghost use Rattle.llp_wide.specs.WideConflicts.{TellWide};

use crate::claims::Ground;
use crate::endings::endings;
use crate::search::least_wide_members;
use crate::survey::places;
use grammar_file::Grammar;
use llp_tables::{Members, first, nullable};
use std::alloc::{AllocError, Global};

/// The members of PSLS(z,a,b) for each z and a, from the places of the grammar's symbols.
pub(crate) fn members_on(alloc: Global, ground: &Ground<'_>) -> Result<Vec<Members>, AllocError>
    requires well_formed { IsWellFormed ground.now.grammar.now }
    requires nullable { AreMarksOf ground.now.grammar.now (λ a. IsNullable ground.now.grammar.now (AnyNonterminal a ∷ [])) ground.now.nullable.now }
    requires first { AreMarksOf ground.now.grammar.now (λ a. IsFirst ground.now.grammar.now (AnyNonterminal a ∷ []) ground.now.b) ground.now.first.now }
    requires places { AreSpots ground.now.grammar.now ground.now.groups.now }
    ensures { IfOk result (λ v. TellWide ground.now.grammar.now ground.now.b v.items) }
{
    least_wide_members(alloc, ground)
}

/// The members of PSLS(z,a,b) for each z and a, where the terminal b comes next: a class of cells for each z, and in it a cell for each
/// a, unless all its sets are empty. A cell keeps the only member of its set, or the two least ones, and nothing where the set is empty. The begin mark is terminal 0,
/// the end mark the one behind the grammar's last terminal.
pub fn wide_members(alloc: Global, grammar: &Grammar, b: u16) -> Result<Vec<Members>, AllocError>
    ensures { IfOk result (λ v. (z a : ℕ) → KeepsLeast (IsWideLookback grammar.now z a b) (cells_at v.items z (AnyTerminal a))) }
{
    let nullable = nullable(alloc, grammar)?;
    let endings = endings(alloc, grammar, nullable.as_slice())?;
    let places = places(alloc, grammar, nullable.as_slice(), endings.as_slice())?;
    let first = first(alloc, grammar, nullable.as_slice(), b)?;
    let ground = Ground {
        grammar,
        nullable: nullable.as_slice(),
        first: first.as_slice(),
        groups: places.as_slice(),
        b,
    };
    members_on(alloc, &ground)
}
