// Which nonterminals derive nothing, what their forms may begin with, and what may come behind them: NULL, FIRST and FOLLOW.

ghost use Rattle.std.specs.Prelude.{◌≡◌, ℕ, ◌∷◌, [], length, true, false, IfOk, MatchOption, slice_index_or};
ghost use Rattle.grammar_file.specs.declared.symbols.Symbol.TheVariants.{Nonterminal as AnyNonterminal};
ghost use Rattle.grammar_file.specs.Marks.{AreMarksOf};
ghost use Rattle.ll1_sets.specs.Width.{width_of};
ghost use Rattle.ll1_sets.specs.Marking.{vanishes, all_vanish, starts, begins, comes_behind, IsNextBy, IsClosedBy, IsNextFollowIn, IsFollowClosedIn, IsNextFollow, IsFollowClosed};
ghost use Rattle.ll1_sets.specs.Predict.{IsNullable, IsFirst, IsFollow};
ghost use Rattle.grammar_file.specs.Grammar.{end_mark, IsWellFormed};
ghost use Rattle.grammar_file.specs.Spelling.{IsReduced};

use grammar_file::{Grammar, Production, Symbol};
use std::alloc::{AllocError, Global};

/// How many terminals there are, with the two marks.
pub fn width_of(grammar: &Grammar) -> u16
    ensures { result ≡ width_of grammar.now }
{
    grammar.terminals().len() as u16 + 2
}

/// Whether a nonterminal is marked.
pub fn mark_of(marks: &[bool], nonterminal: u16) -> bool
    ensures { result ≡ slice_index_or marks.now nonterminal false }
{
    match marks.get(nonterminal as usize) {
        Some(mark) => *mark,
        None => false,
    }
}

/// Whether the symbol may derive nothing, by the marks on the nonterminals that do.
fn vanishes(nullable: &[bool], symbol: Symbol) -> bool
    ensures { result ≡ vanishes nullable.now symbol }
{
    match symbol {
        Symbol::Terminal(_) => false,
        Symbol::Nonterminal(a) => mark_of(nullable, a),
    }
}

/// Whether the form may derive nothing.
pub fn all_vanish(nullable: &[bool], form: &[Symbol]) -> bool
    ensures { result ≡ all_vanish nullable.now form.now }
{
    form.iter().all(|symbol| vanishes(nullable, *symbol))
}

/// Whether what the symbol derives may begin with the terminal b, by the marks on the nonterminals that do.
pub fn starts(first: &[bool], b: u16, symbol: Symbol) -> bool
    ensures { result ≡ starts first.now b symbol }
{
    match symbol {
        Symbol::Terminal(a) => a == b,
        Symbol::Nonterminal(a) => mark_of(first, a),
    }
}

/// Whether what the form derives may begin with the terminal b.
pub fn begins(nullable: &[bool], first: &[bool], b: u16, form: &[Symbol]) -> bool
    ensures { result ≡ begins nullable.now first.now b form.now }
{
    for i in 0..form.len() {
        if starts(first, b, form[i]) {
            return true;
        }
        if !vanishes(nullable, form[i]) {
            return false;
        }
    }
    false
}

/// A nonterminal that isn't marked, with a right side that may derive nothing.
fn next_nullable(productions: &[Production], marks: &[bool]) -> Option<u16>
    ensures { MatchOption result (IsClosedBy (all_vanish marks.now) productions.now marks.now) (λ a. IsNextBy (all_vanish marks.now) productions.now marks.now a) }
{
    for production in productions {
        let left = production.left();
        if !mark_of(marks, left) && all_vanish(marks, production.right()) {
            return Some(left);
        }
    }
    None
}

/// A nonterminal that isn't marked, with a right side whose forms may begin with the terminal b.
fn next_first(productions: &[Production], nullable: &[bool], marks: &[bool], b: u16) -> Option<u16>
    ensures { MatchOption result (IsClosedBy (begins nullable.now marks.now b) productions.now marks.now) (λ a. IsNextBy (begins nullable.now marks.now b) productions.now marks.now a) }
{
    for production in productions {
        let left = production.left();
        if !mark_of(marks, left) && begins(nullable, marks, b, production.right()) {
            return Some(left);
        }
    }
    None
}

/// No marks on this many nonterminals.
pub fn no_marks(alloc: Global, count: usize) -> Result<Vec<bool>, AllocError>
    ensures len { IfOk result (λ v. length v.items ≡ count) }
    ensures none { IfOk result (λ v. (a : ℕ) → slice_index_or v.items a false ≡ false) }
{
    vec![in alloc; false; count]
}

/// Marks the nonterminals that derive the empty word.
pub fn nullable(alloc: Global, grammar: &Grammar) -> Result<Vec<bool>, AllocError>
    ensures well_formed { IfOk result (λ v. IsWellFormed grammar.now) }
    ensures reduced { IfOk result (λ v. IsReduced grammar.now) }
    ensures marks { IfOk result (λ v. AreMarksOf grammar.now (λ a. IsNullable grammar.now (AnyNonterminal a ∷ [])) v.items) }
{
    let mut marks = no_marks(alloc, grammar.nonterminals().len())?;
    while let Some(a) = next_nullable(grammar.productions(), marks.as_slice()) {
        marks[a as usize] = true;
    }
    Ok(marks)
}

/// Marks the nonterminals that have the terminal b in FIRST.
pub fn first(
    alloc: Global,
    grammar: &Grammar,
    nullable: &[bool],
    b: u16,
) -> Result<Vec<bool>, AllocError>
    requires { AreMarksOf grammar.now (λ a. IsNullable grammar.now (AnyNonterminal a ∷ [])) nullable.now }
    ensures { IfOk result (λ v. AreMarksOf grammar.now (λ a. IsFirst grammar.now (AnyNonterminal a ∷ []) b) v.items) }
{
    let mut marks = no_marks(alloc, grammar.nonterminals().len())?;
    while let Some(a) = next_first(grammar.productions(), nullable, marks.as_slice(), b) {
        marks[a as usize] = true;
    }
    Ok(marks)
}

/// A grammar's sets NULL, FIRST and FOLLOW, as far as they tell of one terminal, by marks on the nonterminals.
#[derive(Clone, Copy)]
pub(crate) struct Sets<'a> {
    /// The grammar.
    pub grammar: &'a Grammar,
    /// The nonterminals that derive nothing.
    pub nullable: &'a [bool],
    /// Those that have b in FIRST.
    pub first: &'a [bool],
    /// Those that have b in FOLLOW: all of them, or those that are found so far.
    pub follow: &'a [bool],
    /// The terminal.
    pub b: u16,
}

impl Sets<'_> {
    /// Whether b may come behind what stands before `after` in a right side of `left`.
    pub(crate) fn comes_behind(&self, left: u16, after: &[Symbol]) -> bool
        ensures { result ≡ comes_behind self.now.nullable.now self.now.first.now self.now.follow.now self.now.b left after.now }
    {
        begins(self.nullable, self.first, self.b, after)
            || (all_vanish(self.nullable, after) && mark_of(self.follow, left))
    }

    /// A nonterminal in a right side of `left` that isn't in FOLLOW so far, and behind which b may come.
    fn next_follow_in(&self, left: u16, right: &[Symbol]) -> Option<u16>
        ensures { MatchOption result
            (IsFollowClosedIn self.now.nullable.now self.now.first.now self.now.follow.now self.now.b left right.now)
            (λ a. IsNextFollowIn self.now.nullable.now self.now.first.now self.now.follow.now self.now.b left right.now a) }
    {
        for i in 0..right.len() {
            if let Symbol::Nonterminal(a) = right[i] {
                if !mark_of(self.follow, a) && self.comes_behind(left, &right[i + 1..]) {
                    return Some(a);
                }
            }
        }
        None
    }

    /// A nonterminal in a right side that isn't in FOLLOW so far, and behind which b may come.
    fn next_follow(&self, productions: &[Production]) -> Option<u16>
        ensures { MatchOption result
            (IsFollowClosed self.now.nullable.now self.now.first.now self.now.follow.now self.now.b productions.now)
            (λ a. IsNextFollow self.now.nullable.now self.now.first.now self.now.follow.now self.now.b productions.now a) }
    {
        for production in productions {
            let next = self.next_follow_in(production.left(), production.right());
            if let Some(a) = next {
                return Some(a);
            }
        }
        None
    }
}

/// A mark on the start where b is the mark behind a text, and no other mark.
fn behind_text(alloc: Global, grammar: &Grammar, b: u16) -> Result<Vec<bool>, AllocError>
    ensures len { IfOk result (λ v. length v.items ≡ length grammar.now.nonterminals) }
    ensures start { IfOk result (λ v. end_mark grammar.now ≡ b → slice_index_or v.items 0 false ≡ true) }
    ensures only { IfOk result (λ v. (a : ℕ) → slice_index_or v.items a false ≡ true → (a ≡ 0) × (end_mark grammar.now ≡ b)) }
{
    let mut marks = no_marks(alloc, grammar.nonterminals().len())?;
    if grammar.terminals().len() + 1 == b as usize {
        marks[0] = true;
    }
    Ok(marks)
}

/// Marks the nonterminals that have the terminal b in FOLLOW.
pub(crate) fn follow(
    alloc: Global,
    grammar: &Grammar,
    nullable: &[bool],
    first: &[bool],
    b: u16,
) -> Result<Vec<bool>, AllocError>
    requires nullable { AreMarksOf grammar.now (λ a. IsNullable grammar.now (AnyNonterminal a ∷ [])) nullable.now }
    requires first { AreMarksOf grammar.now (λ a. IsFirst grammar.now (AnyNonterminal a ∷ []) b) first.now }
    ensures { IfOk result (λ v. AreMarksOf grammar.now (λ a. IsFollow grammar.now a b) v.items) }
{
    let mut marks = behind_text(alloc, grammar, b)?;
    loop {
        let sets = Sets {
            grammar,
            nullable,
            first,
            follow: marks.as_slice(),
            b,
        };
        let Some(a) = sets.next_follow(grammar.productions()) else {
            return Ok(marks);
        };
        marks[a as usize] = true;
    }
}
