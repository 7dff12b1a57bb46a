// PSLS of each pair of terminals: its members, or its least conflict.

ghost use Rattle.std.specs.Prelude.{◌≡◌, ◌<◌, ◌+◌, ℕ, length, IfOk, MatchOption};
ghost use Rattle.grammar_file.specs.declared.symbols.Symbol.TheVariants.{Terminal as AnyTerminal};
ghost use Rattle.grammar_file.specs.Grammar.{IsWellFormed};
ghost use Rattle.grammar_file.specs.Spelling.{IsReduced};
ghost use Rattle.ll1_sets.specs.Width.{width_of};
ghost use Rattle.ll1_sets.specs.GrammarSets.{AreLl1Sets};
ghost use Rattle.llp_tables.specs.Lookback.{IsLlp};
ghost use Rattle.llp_tables.specs.CellSlots.{cell_of, slots_of};
ghost use Rattle.llp_tables.specs.Slots.{Two};
ghost use Rattle.llp_tables.specs.LeastMembers.{AreLeastMembers};
ghost use Rattle.llp_tables.specs.Lookbacks.{AreLookbacks, HasNoTwo, IsLeastTwoBehind, TellLookbacks, cells_at};
ghost use Rattle.llp_tables.specs.Tables.{IsLeastLookbackConflict};

use crate::cells::{Cell, Members};
use crate::fault::Stack;
use crate::least::least_members;
use crate::pending::Search;
use grammar_file::{Grammar, Symbol};
use ll1_sets::{Ll1Sets, width_of};
use std::alloc::{AllocError, Global};

/// What is closed behind each symbol where the terminal b comes next.
fn cells_on(alloc: Global, grammar: &Grammar, sets: &Ll1Sets, b: u16) -> Result<Members, AllocError>
    requires sets { AreLl1Sets grammar.now sets.now }
    requires within { b < width_of grammar.now }
    ensures { IfOk result (λ m. AreLeastMembers grammar.now b (cell_of m)) }
{
    let search = Search {
        grammar,
        nullable: sets.nullable.as_slice(),
        first: sets.table.column(b).first(),
        b,
    };
    least_members(alloc, &search)
}

/// What is closed behind each symbol, for each terminal that comes next, the two marks among them.
pub(crate) fn all_cells(
    alloc: Global,
    grammar: &Grammar,
    sets: &Ll1Sets,
) -> Result<Vec<Members>, AllocError>
    requires { AreLl1Sets grammar.now sets.now }
    ensures count { IfOk result (λ all. length all.items ≡ width_of grammar.now) }
    ensures least { IfOk result (λ all. (b : ℕ) → b < width_of grammar.now → AreLeastMembers grammar.now b (cells_at all.items b)) }
{
    let width = width_of(grammar);
    let mut all = Vec::with_capacity(alloc, width as usize)?;
    for b in 0..width {
        let members = cells_on(alloc, grammar, sets, b)?;
        all.push(members)?;
    }
    Ok(all)
}

/// The two least members of PSLS(a,b).
#[derive(Drop)]
pub(crate) struct LookbackConflict {
    pub a: u16,
    pub b: u16,
    pub first: Stack,
    pub second: Stack,
}

/// The strings of a cell that has two.
pub fn two_of(alloc: Global, cell: &Cell) -> Result<Option<(Vec<Symbol>, Vec<Symbol>)>, AllocError>
    ensures { IfOk result (λ o. MatchOption o (HasNoTwo (slots_of cell.now)) (λ two. slots_of cell.now ≡ Two two.0.items two.1.items)) }
{
    match cell {
        Cell::Nothing => Ok(None),
        Cell::Least(_) => Ok(None),
        Cell::TwoLeast(first, second) => {
            let first = Vec::from_slice(alloc, first)?;
            let second = Vec::from_slice(alloc, second)?;
            Ok(Some((first, second)))
        }
    }
}

/// The strings behind the terminal a where b comes next, if there are two.
fn two_at(
    alloc: Global,
    lookbacks: &[Members],
    a: u16,
    b: u16,
) -> Result<Option<(Vec<Symbol>, Vec<Symbol>)>, AllocError>
    requires { b < length lookbacks.now }
    ensures { IfOk result (λ o. MatchOption o (HasNoTwo (cells_at lookbacks.now b (AnyTerminal a))) (λ two. cells_at lookbacks.now b (AnyTerminal a) ≡ Two two.0.items two.1.items)) }
{
    let members = &lookbacks[b as usize];
    match members.terminals.get(a as usize) {
        Some(cell) => two_of(alloc, cell),
        None => Ok(None),
    }
}

/// The least conflict behind the terminal a: the least b for which there are two strings.
fn conflict_behind(
    alloc: Global,
    lookbacks: &[Members],
    count: u16,
    a: u16,
) -> Result<Option<LookbackConflict>, AllocError>
    requires { length lookbacks.now ≡ count }
    ensures { IfOk result (λ o. MatchOption o ((b : ℕ) → b < count → HasNoTwo (cells_at lookbacks.now b (AnyTerminal a)))
        (λ k. (k.a ≡ a) × IsLeastTwoBehind lookbacks.now a k.b k.first k.second)) }
{
    for b in 0..count {
        if let Some((first, second)) = two_at(alloc, lookbacks, a, b)? {
            return Ok(Some(LookbackConflict {
                a,
                b,
                first: Stack::new(first),
                second: Stack::new(second),
            }));
        }
    }
    Ok(None)
}

/// The least conflict: the least a, then the least b, and the two least members of PSLS(a,b). There is none exactly where
/// the grammar is LLP(1,1), and then the cells of the terminals tell PSLS.
pub(crate) fn least_lookback_conflict(
    alloc: Global,
    grammar: &Grammar,
    lookbacks: &[Members],
) -> Result<Option<LookbackConflict>, AllocError>
    requires well_formed { IsWellFormed grammar.now }
    requires reduced { IsReduced grammar.now }
    requires lookbacks { AreLookbacks grammar.now lookbacks.now }
    ensures { IfOk result (λ o. MatchOption o (IsLlp grammar.now × TellLookbacks grammar.now lookbacks.now) (λ k. IsLeastLookbackConflict grammar.now k.a k.b k.first k.second)) }
{
    let count = width_of(grammar);
    for a in 0..count {
        if let Some(conflict) = conflict_behind(alloc, lookbacks, count, a)? {
            return Ok(Some(conflict));
        }
    }
    Ok(None)
}
