// What is known where a terminal comes next: which production of a nonterminal is taken, and what the nonterminal leaves on the stack
// once it has read the terminal.

ghost use Rattle.std.specs.Prelude.{◌≡◌, ◌⊎◌, ℕ, ◌<◌, ◌-◌, ◌∷◌, ◌++◌, [], length, Some, None, IfOk, OnOk, MatchOption, slice_get, slice_index_or};
ghost use Rattle.grammar_file.specs.declared.symbols.Symbol.TheVariants.{Terminal as AnyTerminal, Nonterminal as AnyNonterminal};
ghost use Rattle.grammar_file.specs.Grammar.{production};
ghost use Rattle.ll1_sets.specs.Predict.{IsLl1};
ghost use Rattle.ll1_sets.specs.Table.{IsColumn, IsLl1Table};
ghost use Rattle.table_text.specs.Ahead.{AreAheads, IsAhead, IsLeftBy, behind_unmarked, opens_at};

use grammar_file::{Grammar, Production, Symbol};
use ll1_sets::{Ll1Column, Ll1Table, mark_of, prediction_of, width_of};
use std::alloc::{AllocError, Global};
use std::marker::Model;

/// Symbols that are left on the stack, the uppermost one first.
#[derive(Drop)]
pub(crate) struct Opened {
    pub symbols: Vec<Symbol>,
}

impl Model for Opened {
    ghost use Rattle.std.specs.Prelude.{List};
    ghost use Rattle.grammar_file.specs.declared.symbols.Symbol.{Symbol as AnySymbol};

    ghost Value = { List AnySymbol };

    ghost view = { λ o. o.symbols.items };
}

/// What is known where a terminal comes next.
#[derive(Drop)]
pub(crate) struct Ahead {
    /// What each nonterminal leaves once it has read it.
    pub opens: Vec<Opened>,
}

/// The symbols of a stack that are still to be read, the uppermost one last.
#[derive(Drop)]
struct Unread {
    symbols: Vec<Symbol>,
}

impl Model for Unread {
    ghost use Rattle.std.specs.Prelude.{List, reverse};
    ghost use Rattle.grammar_file.specs.declared.symbols.Symbol.{Symbol as AnySymbol};

    ghost Value = { List AnySymbol };

    ghost view = { λ u. reverse u.symbols.items };
}

impl Unread {
    /// A stack with nothing on it.
    fn new(alloc: Global) -> Unread
        ensures { result ≡ [] }
    {
        Unread {
            symbols: Vec::new(alloc),
        }
    }

    /// Puts symbols upon all others.
    fn put(&mut self, symbols: &[Symbol]) -> Result<(), AllocError>
        ensures { OnOk result (self.new ≡ symbols.now ++ self.old) }
    {
        for i in (0..symbols.len()).rev() {
            self.symbols.push(symbols[i])?;
        }
        Ok(())
    }

    /// Takes the uppermost symbol.
    fn pop(&mut self) -> Option<Symbol>
        ensures { MatchOption result ((self.old ≡ []) × (self.new ≡ [])) (λ top. self.old ≡ top ∷ self.new) }
    {
        self.symbols.pop()
    }

    /// Takes the nonterminals off that aren't marked, and then the next symbol. Tells which nonterminal that is, if it is one.
    fn take_marked(&mut self, marks: &[bool]) -> Option<u16>
        ensures { MatchOption result
            (((behind_unmarked marks.now self.old ≡ []) × (self.new ≡ [])) ⊎ ((c : ℕ) × (behind_unmarked marks.now self.old ≡ AnyTerminal c ∷ self.new)))
            (λ a. behind_unmarked marks.now self.old ≡ AnyNonterminal a ∷ self.new) }
    {
        while let Some(Symbol::Nonterminal(a)) = self.pop() {
            if mark_of(marks, a) {
                return Some(a);
            }
        }
        None
    }

    /// The symbols that are left.
    fn left(self) -> Opened
        ensures { result ≡ self }
    {
        let mut symbols = self.symbols;
        symbols.reverse();
        Opened { symbols }
    }
}

// The production of a nonterminal that is predicted.
fn predicted<'a>(
    grammar: &'a Grammar,
    predictions: &[Option<u16>],
    nonterminal: u16,
) -> Option<&'a Production>
    ensures { MatchOption result ((p : ℕ) → slice_index_or predictions.now nonterminal None ≡ Some p → production grammar.now p ≡ None)
        (λ rule. (p : ℕ) × (slice_index_or predictions.now nonterminal None ≡ Some p) × (production grammar.now p ≡ Some rule.now)) }
{
    match prediction_of(predictions, nonterminal) {
        Some(p) => grammar.production(p),
        None => None,
    }
}

// What the nonterminal leaves once it has read a terminal, by the terminal's sets. What derives nothing is passed over, so only productions
// are taken whose nonterminals the terminal may begin: each nonterminal once at most, since none is left recursive.
fn opens_of(
    alloc: Global,
    grammar: &Grammar,
    first: &[bool],
    predictions: &[Option<u16>],
    nonterminal: u16,
) -> Result<Opened, AllocError>
    ensures { IfOk result (λ o. IsLeftBy grammar.now first.now predictions.now nonterminal o) }
{
    // Each turn takes one nonterminal more, so the loop ends.
    let mut taken = Vec::new(alloc);
    let mut unread = Unread::new(alloc);
    unread.put(&[Symbol::Nonterminal(nonterminal)])?;
    while let Some(a) = unread.take_marked(first) {
        let Some(rule) = predicted(grammar, predictions, a) else {
            return Ok(unread.left());
        };
        taken.push(a)?;
        unread.put(rule.right())?;
    }
    Ok(unread.left())
}

// The same of each nonterminal.
fn all_opens(
    alloc: Global,
    grammar: &Grammar,
    first: &[bool],
    predictions: &[Option<u16>],
) -> Result<Vec<Opened>, AllocError>
    ensures { IfOk result (λ v. (a : ℕ) → a < length grammar.now.nonterminals → IsLeftBy grammar.now first.now predictions.now a (slice_index_or v.items a [])) }
{
    let mut opens = Vec::new(alloc);
    for a in 0..grammar.nonterminal_count() {
        opens.push(opens_of(alloc, grammar, first, predictions, a)?)?;
    }
    Ok(opens)
}

// What is known where a terminal comes next, by its column of the parse table.
fn ahead_of(alloc: Global, grammar: &Grammar, column: &Ll1Column) -> Result<Ahead, AllocError>
    requires { IsLl1 grammar.now }
    ensures { IfOk result (λ ahead. (b : ℕ) → IsColumn grammar.now b column.now → IsAhead grammar.now b ahead) }
{
    let opens = all_opens(alloc, grammar, column.first(), column.predictions())?;
    Ok(Ahead { opens })
}

/// What is known of each terminal that comes next, the two marks among them.
pub(crate) fn aheads_of(
    alloc: Global,
    grammar: &Grammar,
    table: &Ll1Table,
) -> Result<Vec<Ahead>, AllocError>
    requires ll1 { IsLl1 grammar.now }
    requires table { IsLl1Table grammar.now table.now }
    ensures { IfOk result (λ v. AreAheads grammar.now v.items) }
{
    let mut aheads = Vec::new(alloc);
    for b in 0..width_of(grammar) {
        aheads.push(ahead_of(alloc, grammar, table.column(b))?)?;
    }
    Ok(aheads)
}

/// What is known where b comes next.
pub(crate) fn ahead_at(aheads: &[Ahead], b: u16) -> Option<&Ahead>
    ensures { MatchOption result (slice_get aheads.now b ≡ None) (λ ahead. slice_get aheads.now b ≡ Some ahead.now) }
{
    aheads.get(b as usize)
}

// The last of some symbols.
fn last_of(symbols: &[Symbol]) -> Option<&Symbol>
    ensures { MatchOption result (slice_get symbols.now (length symbols.now - 1) ≡ None) (λ s. slice_get symbols.now (length symbols.now - 1) ≡ Some s.now) }
{
    symbols.get(symbols.len().saturating_sub(1))
}

// What a nonterminal leaves.
fn left_by(ahead: &Ahead, nonterminal: u16) -> &[Symbol]
    ensures { result.now ≡ slice_index_or ahead.now.opens.items nonterminal [] }
{
    match ahead.opens.get(nonterminal as usize) {
        Some(opened) => opened.symbols.as_slice(),
        None => &[],
    }
}

/// What these symbols leave on the stack once b has been read of the last one.
pub(crate) fn opens_at<'a>(aheads: &'a [Ahead], b: u16, closes: &[Symbol]) -> &'a [Symbol]
    ensures { result.now ≡ opens_at aheads.now b closes.now }
{
    match ahead_at(aheads, b) {
        Some(ahead) => match last_of(closes) {
            Some(Symbol::Nonterminal(a)) => left_by(ahead, *a),
            Some(Symbol::Terminal(_)) => &[],
            None => &[],
        },
        None => &[],
    }
}
