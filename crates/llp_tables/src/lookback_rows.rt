// The members of PSLS for all pairs, a row for each terminal that comes next.

ghost use Rattle.std.specs.Prelude.{◌≡◌, ◌+◌, ◌*◌, ℕ, List, length, IfOk, OnOk, MatchOption};
ghost use Rattle.grammar_file.specs.declared.symbols.Symbol.{Symbol as AnySymbol};
ghost use Rattle.grammar_file.specs.declared.symbols.Symbol.TheVariants.{Terminal as AnyTerminal};
ghost use Rattle.grammar_file.specs.Grammar.{Grammar as AnyGrammar, IsWellFormed};
ghost use Rattle.ll1_sets.specs.Predict.{IsLl1};
ghost use Rattle.ll1_sets.specs.Width.{width_of};
ghost use Rattle.llp_tables.specs.CellSlots.{cell_of};
ghost use Rattle.llp_tables.specs.Lookback.{IsLlp};
ghost use Rattle.llp_tables.specs.Lookbacks.{TellLookbacks, TellsLookback};
ghost use Rattle.llp_tables.specs.LookbackTable.{AreLookbacksOf, AreMembers, HasLookback};
ghost use Rattle.llp_tables.specs.Slots.{One as OneSlot};

use crate::cells::{Cell, Members};
use crate::fault::Stack;
use crate::lookback_table::Lookbacks;
use grammar_file::{Grammar, Symbol};
use ll1_sets::width_of;
use std::alloc::{AllocError, Global};

/// What the cell of a terminal keeps where that is one string.
fn only_member(members: &Members, a: u16) -> Option<&[Symbol]>
    ensures { MatchOption result ((x : List AnySymbol) → cell_of members.now (AnyTerminal a) ≡ OneSlot x → ⊥) (λ x. cell_of members.now (AnyTerminal a) ≡ OneSlot x.now) }
{
    match members.terminals.get(a as usize) {
        Some(Cell::Least(x)) => Some(x),
        _ => None,
    }
}

/// The member of PSLS(a,b), from the cells where b comes next.
fn member_of(alloc: Global, members: &Members, a: u16) -> Result<Option<Stack>, AllocError>
    ensures { IfOk result (λ member. (g : AnyGrammar) (b : ℕ) → TellsLookback g a b (cell_of members.now (AnyTerminal a)) → HasLookback g a b member) }
{
    match only_member(members, a) {
        Some(closes) => {
            let symbols = Vec::from_slice(alloc, closes)?;
            Ok(Some(Stack::new(symbols)))
        }
        None => Ok(None),
    }
}

/// Adds the members where b comes next.
fn add_row(
    alloc: Global,
    grammar: &Grammar,
    cells: &Members,
    b: u16,
    members: &mut Vec<Option<Stack>>,
) -> Result<(), AllocError>
    requires cells { (a : ℕ) → TellsLookback grammar.now a b (cell_of cells.now (AnyTerminal a)) }
    requires members { AreMembers grammar.now members.old.items }
    requires place { length members.old.items ≡ b * width_of grammar.now }
    ensures members { OnOk result (AreMembers grammar.now members.new.items) }
    ensures len { OnOk result (length members.new.items ≡ b * width_of grammar.now + width_of grammar.now) }
{
    for a in 0..width_of(grammar) {
        let member = member_of(alloc, cells, a)?;
        members.push(member)?;
    }
    Ok(())
}

/// The sets of a grammar that is LL(1) and LLP(1,1), from the cells for each terminal that comes next.
pub(crate) fn lookbacks_by(
    alloc: Global,
    grammar: &Grammar,
    cells: &[Members],
) -> Result<Lookbacks, AllocError>
    requires well_formed { IsWellFormed grammar.now }
    requires ll1 { IsLl1 grammar.now }
    requires llp { IsLlp grammar.now }
    requires count { length cells.now ≡ width_of grammar.now }
    requires cells { TellLookbacks grammar.now cells.now }
    ensures { IfOk result (AreLookbacksOf grammar.now) }
{
    let width = width_of(grammar);
    let mut members = Vec::with_capacity(alloc, width as usize * width as usize)?;
    for b in 0..width {
        add_row(alloc, grammar, &cells[b as usize], b, &mut members)?;
    }
    Ok(Lookbacks::new(width, members))
}
