// Left recursion: the least nonterminal that derives a form that begins with itself.

ghost use Rattle.std.specs.Prelude.{◌≡◌, ◌<◌, ◌||◌, ◌==◌, ℕ, [], ◌∷◌, length, true, false, IfOk, MatchOption, slice_index_or};
ghost use Rattle.grammar_file.specs.declared.symbols.Symbol.TheVariants.{Nonterminal as AnyNonterminal};
ghost use Rattle.grammar_file.specs.Grammar.{IsWellFormed};
ghost use Rattle.grammar_file.specs.Marks.{AreMarksOf};
ghost use Rattle.ll1_sets.specs.Predict.{IsNullable, IsLeftRecursive, IsLeastLeftRecursive, IsNotLeftRecursive};
ghost use Rattle.ll1_sets.specs.LeftReached.{AreFrontsMarked, IsLeftClosed, IsLeftReached, IsNextFront, IsNextLeft};

use crate::sets::{mark_of, no_marks};
use grammar_file::{Grammar, Production, Symbol};
use std::alloc::{AllocError, Global};

/// A nonterminal that isn't marked, with nothing before it in the form but what may derive nothing.
fn next_front(nullable: &[bool], marks: &[bool], form: &[Symbol]) -> Option<u16>
    ensures { MatchOption result (AreFrontsMarked nullable.now marks.now form.now) (λ x. IsNextFront nullable.now marks.now form.now x) }
{
    for i in 0..form.len() {
        match form[i] {
            Symbol::Terminal(_) => return None,
            Symbol::Nonterminal(x) => {
                if !mark_of(marks, x) {
                    return Some(x);
                }
                if !mark_of(nullable, x) {
                    return None;
                }
            }
        }
    }
    None
}

/// Whether the nonterminal is a, or is marked.
fn is_start_or_marked(marks: &[bool], a: u16, left: u16) -> bool
    ensures { result ≡ (left == a || slice_index_or marks.now left false) }
{
    left == a || mark_of(marks, left)
}

/// A nonterminal that isn't marked, and may stand first in what a, or one that is marked, derives.
fn next_left(productions: &[Production], nullable: &[bool], marks: &[bool], a: u16) -> Option<u16>
    ensures { MatchOption result (IsLeftClosed nullable.now marks.now a productions.now) (λ x. IsNextLeft nullable.now marks.now a productions.now x) }
{
    for production in productions {
        if is_start_or_marked(marks, a, production.left()) {
            if let Some(x) = next_front(nullable, marks, production.right()) {
                return Some(x);
            }
        }
    }
    None
}

/// Marks the nonterminals that may stand first in what a derives in one or more steps.
fn left_reached(
    alloc: Global,
    grammar: &Grammar,
    nullable: &[bool],
    a: u16,
) -> Result<Vec<bool>, AllocError>
    requires { AreMarksOf grammar.now (λ x. IsNullable grammar.now (AnyNonterminal x ∷ [])) nullable.now }
    ensures { IfOk result (λ v. AreMarksOf grammar.now (IsLeftReached grammar.now a) v.items) }
{
    let mut marks = no_marks(alloc, grammar.nonterminals().len())?;
    while let Some(x) = next_left(grammar.productions(), nullable, marks.as_slice(), a) {
        marks[x as usize] = true;
    }
    Ok(marks)
}

/// Whether a derives, in one or more steps, a form that begins with a.
fn is_left_recursive(
    alloc: Global,
    grammar: &Grammar,
    nullable: &[bool],
    a: u16,
) -> Result<bool, AllocError>
    requires { AreMarksOf grammar.now (λ x. IsNullable grammar.now (AnyNonterminal x ∷ [])) nullable.now }
    ensures yes { IfOk result (λ r. r ≡ true → IsLeftRecursive grammar.now a) }
    ensures other { IfOk result (λ r. r ≡ false → ¬ IsLeftRecursive grammar.now a) }
{
    let marks = left_reached(alloc, grammar, nullable, a)?;
    Ok(mark_of(marks.as_slice(), a))
}

/// The least nonterminal that is left-recursive.
pub fn least_left_recursive(
    alloc: Global,
    grammar: &Grammar,
    nullable: &[bool],
) -> Result<Option<u16>, AllocError>
    requires well_formed { IsWellFormed grammar.now }
    requires marks { AreMarksOf grammar.now (λ x. IsNullable grammar.now (AnyNonterminal x ∷ [])) nullable.now }
    ensures { IfOk result (λ o. MatchOption o (IsNotLeftRecursive grammar.now) (IsLeastLeftRecursive grammar.now)) }
{
    for a in 0..grammar.nonterminal_count() {
        if is_left_recursive(alloc, grammar, nullable, a)? {
            return Ok(Some(a));
        }
    }
    Ok(None)
}
