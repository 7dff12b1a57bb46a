// What forms may end with, and what is matched last behind them: LAST.

ghost use Rattle.std.specs.Prelude.{◌≡◌, ◌<◌, ◌+◌, ℕ, ◌∷◌, [], length, IfOk, MatchOption};
ghost use Rattle.grammar_file.specs.declared.symbols.Symbol.TheVariants.{Nonterminal as AnyNonterminal};
ghost use Rattle.grammar_file.specs.Grammar.{IsWellFormed};
ghost use Rattle.grammar_file.specs.Marks.{AreMarksOf};
ghost use Rattle.grammar_file.specs.Spelling.{IsReduced};
ghost use Rattle.ll1_sets.specs.Marking.{IsNextBy, IsClosedBy};
ghost use Rattle.ll1_sets.specs.Predict.{IsNullable};
ghost use Rattle.llp_wide.specs.Endings.{IsLast, finishes, is_reached, marks_at, AreEndings};

use grammar_file::{Grammar, Production, Symbol};
use llp_tables::{all_vanish, mark_of, no_marks, starts};
use std::alloc::{AllocError, Global};

/// The nonterminals that derive a word with one terminal at its end.
#[derive(Drop)]
pub(crate) struct LastMarks {
    pub marks: Vec<bool>,
}

/// Whether what the form derives may end with the terminal y, by the marks on the nonterminals of which that is known.
fn finishes(nullable: &[bool], last: &[bool], y: u16, form: &[Symbol]) -> bool
    ensures { result ≡ finishes nullable.now last.now y form.now }
{
    for i in 0..form.len() {
        if starts(last, y, form[i]) && all_vanish(nullable, &form[i + 1..]) {
            return true;
        }
    }
    false
}

/// A nonterminal that isn't marked, with a right side that may end with the terminal y.
fn next_last(productions: &[Production], nullable: &[bool], marks: &[bool], y: u16) -> Option<u16>
    ensures { MatchOption result (IsClosedBy (finishes nullable.now marks.now y) productions.now marks.now) (λ a. IsNextBy (finishes nullable.now marks.now y) productions.now marks.now a) }
{
    for production in productions {
        let left = production.left();
        if !mark_of(marks, left) && finishes(nullable, marks, y, production.right()) {
            return Some(left);
        }
    }
    None
}

/// Marks the nonterminals that have the terminal y in LAST.
fn last(
    alloc: Global,
    grammar: &Grammar,
    nullable: &[bool],
    y: u16,
) -> Result<Vec<bool>, AllocError>
    requires reduced { IsReduced grammar.now }
    requires nullable { AreMarksOf grammar.now (λ a. IsNullable grammar.now (AnyNonterminal a ∷ [])) nullable.now }
    ensures { IfOk result (λ v. AreMarksOf grammar.now (λ a. IsLast grammar.now (AnyNonterminal a ∷ []) y) v.items) }
{
    let mut marks = no_marks(alloc, grammar.nonterminals().len())?;
    while let Some(a) = next_last(grammar.productions(), nullable, marks.as_slice(), y) {
        marks[a as usize] = true;
    }
    Ok(marks)
}

/// LAST of all nonterminals: for each terminal, the two marks among them, the nonterminals that have it.
pub(crate) fn endings(
    alloc: Global,
    grammar: &Grammar,
    nullable: &[bool],
) -> Result<Vec<LastMarks>, AllocError>
    requires reduced { IsReduced grammar.now }
    requires nullable { AreMarksOf grammar.now (λ a. IsNullable grammar.now (AnyNonterminal a ∷ [])) nullable.now }
    ensures { IfOk result (λ all. AreEndings grammar.now all.items) }
{
    let mut all = Vec::new(alloc);
    for y in 0..grammar.terminals().len() as u16 + 2 {
        let marks = last(alloc, grammar, nullable, y)?;
        all.push(LastMarks { marks })?;
    }
    Ok(all)
}

/// Whether y is matched last behind a form: in it, where z stands for any terminal, as the number behind all does; and else before it.
pub(crate) fn is_reached(
    nullable: &[bool],
    all: &[LastMarks],
    z: u16,
    y: u16,
    form: &[Symbol],
) -> bool
    ensures { y < length all.now → result ≡ is_reached nullable.now all.now z y form.now }
{
    if z as usize != all.len() {
        return z == y && all_vanish(nullable, form);
    }
    match all.get(y as usize) {
        Some(last) => finishes(nullable, last.marks.as_slice(), y, form),
        None => false,
    }
}
