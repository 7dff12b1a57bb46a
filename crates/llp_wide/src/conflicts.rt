// The least conflict where two terminals are looked back at.

ghost use Rattle.std.specs.Prelude.{◌≡◌, ◌<◌, ◌≤◌, ◌+◌, ◌⊎◌, ℕ, ◌∷◌, [], true, false, IfOk, MatchOption};
ghost use Rattle.grammar_file.specs.declared.symbols.Symbol.TheVariants.{Terminal as AnyTerminal, Nonterminal as AnyNonterminal};
ghost use Rattle.grammar_file.specs.Grammar.{Grammar as AnyGrammar, IsWellFormed};
ghost use Rattle.grammar_file.specs.Marks.{AreMarksOf};
ghost use Rattle.llp_tables.specs.Lookbacks.{HasNoTwo, cells_at};
ghost use Rattle.ll1_sets.specs.Predict.{IsNullable};
ghost use Rattle.llp_tables.specs.Slots.{Empty as EmptySlots, Two};
ghost use Rattle.llp_wide.specs.Places.{AreSpots};
ghost use Rattle.llp_wide.specs.Wide.{IsLeastWideConflict, IsWideLlp};
ghost use Rattle.llp_wide.specs.WideConflicts.{IsLeastTwoIn, IsLesserPair, LeastWideBelow, LeastWideOn, TellWide};

use grammar_file::{Grammar, Symbol};
use llp_tables::{Members, Stack, two_of};
use std::alloc::{AllocError, Global};

/// The two least members of PSLS(z,a,b).
#[derive(Drop)]
pub(crate) struct WideConflict {
    pub z: u16,
    pub a: u16,
    pub b: u16,
    pub first: Stack,
    pub second: Stack,
}

/// The strings behind the terminals z and a, if there are two.
fn two_at(
    alloc: Global,
    classes: &[Members],
    z: u16,
    a: u16,
) -> Result<Option<(Vec<Symbol>, Vec<Symbol>)>, AllocError>
    ensures { IfOk result (λ o. MatchOption o (HasNoTwo (cells_at classes.now z (AnyTerminal a))) (λ two. cells_at classes.now z (AnyTerminal a) ≡ Two two.0.items two.1.items)) }
{
    match classes.get(z as usize) {
        Some(members) => match members.terminals.get(a as usize) {
            Some(cell) => two_of(alloc, cell),
            None => Ok(None),
        },
        None => Ok(None),
    }
}

// Whether there are no cells behind z.
fn is_closed(classes: &[Members], z: u16) -> bool
    ensures { result ≡ true → (a : ℕ) → cells_at classes.now z (AnyTerminal a) ≡ EmptySlots }
{
    match classes.get(z as usize) {
        Some(members) => members.terminals.is_empty(),
        None => true,
    }
}

/// The least conflict behind z where b comes next: the least a for which there are two strings.
fn conflict_behind(
    alloc: Global,
    classes: &[Members],
    count: u16,
    z: u16,
    b: u16,
) -> Result<Option<WideConflict>, AllocError>
    ensures { IfOk result (λ o. MatchOption o ((a : ℕ) → a < count → HasNoTwo (cells_at classes.now z (AnyTerminal a)))
        (λ k. (k.z ≡ z) × (k.b ≡ b) × IsLeastTwoIn classes.now z k.a k.first k.second)) }
{
    if is_closed(classes, z) {
        return Ok(None);
    }
    for a in 0..count {
        if let Some((first, second)) = two_at(alloc, classes, z, a)? {
            return Ok(Some(WideConflict {
                z,
                a,
                b,
                first: Stack::new(first),
                second: Stack::new(second),
            }));
        }
    }
    Ok(None)
}

/// The least conflict where b comes next: the least z, then the least a.
pub(crate) fn conflict_on(
    alloc: Global,
    grammar: &Grammar,
    classes: &[Members],
    b: u16,
) -> Result<Option<WideConflict>, AllocError>
    requires well_formed { IsWellFormed grammar.now }
    requires classes { TellWide grammar.now b classes.now }
    ensures { IfOk result (λ o. LeastWideOn grammar.now b o) }
{
    let count = grammar.terminals().len() as u16 + 2;
    for z in 0..count {
        if let Some(conflict) = conflict_behind(alloc, classes, count, z, b)? {
            return Ok(Some(conflict));
        }
    }
    Ok(None)
}

// Whether the one conflict has lesser terminals that are matched last than the other.
fn is_lesser(y: &WideConflict, x: &WideConflict) -> bool
    ensures yes { result ≡ true → IsLesserPair y.now.z y.now.a x.now.z x.now.a }
    ensures other { result ≡ false → (x.now.z < y.now.z) ⊎ ((x.now.z ≡ y.now.z) × (x.now.a ≤ y.now.a)) }
{
    if y.z == x.z { y.a < x.a } else { y.z < x.z }
}

/// The lesser of the least conflict so far and that of the terminal that comes next in turn.
pub(crate) fn lesser(best: Option<WideConflict>, next: Option<WideConflict>) -> Option<WideConflict>
    ensures { (g : AnyGrammar) (n : ℕ) → LeastWideBelow g n best → LeastWideOn g n next → LeastWideBelow g (n + 1) result }
{
    match (best, next) {
        (None, y) => y,
        (Some(x), None) => Some(x),
        (Some(x), Some(y)) => { if is_lesser(&y, &x) { Some(y) } else { Some(x) } }
    }
}
