// A certificate as a value.

ghost use Rattle.std.specs.Prelude.{◌≡◌, [], slice_index_or};
ghost use Rattle.grammar_file.specs.declared.symbols.Symbol.TheVariants.{Nonterminal as AnyNonterminal};
ghost use Rattle.llp_tables.specs.Certificate.{has, may_be_empty, first_of, follow_of, rank_of, end_of, row_at};

use grammar_file::Symbol;
use std::marker::Model;

/// A set FIRST or FOLLOW. Terminals are told by their numbers: the begin mark is 0, the end mark the one behind the last terminal.
#[derive(Drop)]
pub struct TerminalSet {
    pub terminals: Vec<u16>,
}

impl Model for TerminalSet {
    ghost use Rattle.std.specs.Prelude.{List, ℕ};

    ghost Value = { List ℕ };

    ghost view = { λ s. s.terminals.items };
}

/// What is closed where a terminal comes next.
#[derive(Drop)]
pub struct Member {
    /// The terminal that comes next.
    pub ahead: u16,
    /// The symbols that are closed, the uppermost first.
    pub closes: Vec<Symbol>,
}

impl Model for Member {
    ghost use Rattle.std.specs.Prelude.{List, ℕ};
    ghost use Rattle.grammar_file.specs.declared.symbols.Symbol.{Symbol as AnySymbol};

    ghost Value = { ℕ × List AnySymbol };

    ghost view = { λ m. (m.ahead, m.closes.items) };
}

/// The members at a place of a right side, or at a nonterminal's end: at most one for each terminal.
#[derive(Drop)]
pub struct Row {
    pub members: Vec<Member>,
}

impl Model for Row {
    ghost use Rattle.llp_tables.specs.Certificate.{Row as AnyRow};

    ghost Value = { AnyRow };

    ghost view = { λ r. r.members.items };
}

/// The members at the places of a right side, from before its first symbol to behind its last one.
#[derive(Drop)]
pub struct PlaceRows {
    pub rows: Vec<Row>,
}

impl Model for PlaceRows {
    ghost use Rattle.std.specs.Prelude.{List};
    ghost use Rattle.llp_tables.specs.Certificate.{Row as AnyRow};

    ghost Value = { List AnyRow };

    ghost view = { λ p. p.rows.items };
}

/// A certificate that a grammar is LL(1) and LLP(1,1). What it doesn't have is as if it were rank 0, false or empty.
#[derive(Drop)]
pub struct Certificate {
    /// The rank of each nonterminal, which falls to each nonterminal that can stand first in a right side.
    pub ranks: Vec<u32>,
    /// Whether each nonterminal may be empty.
    pub empty: Vec<bool>,
    /// FIRST of each nonterminal.
    pub first: Vec<TerminalSet>,
    /// FOLLOW of each nonterminal.
    pub follow: Vec<TerminalSet>,
    /// The members at the places of each right side: first that of the augmented start, BEGIN Start END, then those of the productions.
    pub places: Vec<PlaceRows>,
    /// The members at each nonterminal's end.
    pub ends: Vec<Row>,
}

impl Model for Certificate {
    ghost use Rattle.llp_tables.specs.Certificate.{Certificate as AnyCertificate};

    ghost Value = { AnyCertificate };

    ghost view = { λ c. record {
      ranks = c.ranks.items;
      empty = c.empty.items;
      first = c.first.items;
      follow = c.follow.items;
      places = c.places.items;
      ends = c.ends.items;
    } };
}

impl Member {
    /// The terminal that comes next.
    pub(crate) fn ahead(&self) -> u16
        ensures { result ≡ self.now.0 }
    {
        self.ahead
    }

    /// What is closed.
    pub(crate) fn closes(&self) -> &[Symbol]
        ensures { result.now ≡ self.now.1 }
    {
        self.closes.as_slice()
    }
}

/// A nonterminal's set.
fn set_of(sets: &[TerminalSet], a: u16) -> &[u16]
    ensures { result.now ≡ slice_index_or sets.now a [] }
{
    match sets.get(a as usize) {
        Some(set) => set.terminals.as_slice(),
        None => &[],
    }
}

/// The members of the row with a number.
fn members_of(rows: &[Row], number: usize) -> &[Member]
    ensures { result.now ≡ slice_index_or rows.now number [] }
{
    match rows.get(number) {
        Some(row) => row.members.as_slice(),
        None => &[],
    }
}

/// The rows of right side i.
fn rows_of(places: &[PlaceRows], i: usize) -> &[Row]
    ensures { result.now ≡ slice_index_or places.now i [] }
{
    match places.get(i) {
        Some(place) => place.rows.as_slice(),
        None => &[],
    }
}

impl Certificate {
    /// Whether the symbol may be empty.
    pub(crate) fn may_be_empty(&self, symbol: Symbol) -> bool
        ensures { result ≡ may_be_empty self.now symbol }
    {
        match symbol {
            Symbol::Terminal(_) => false,
            Symbol::Nonterminal(a) => self.is_empty(a),
        }
    }

    /// Whether the nonterminal may be empty.
    pub(crate) fn is_empty(&self, a: u16) -> bool
        ensures { result ≡ may_be_empty self.now (AnyNonterminal a) }
    {
        match self.empty.get(a as usize) {
            Some(mark) => *mark,
            None => false,
        }
    }

    /// FIRST of a nonterminal.
    pub(crate) fn first(&self, a: u16) -> &[u16]
        ensures { result.now ≡ first_of self.now (AnyNonterminal a) }
    {
        set_of(self.first.as_slice(), a)
    }

    /// FOLLOW of a nonterminal.
    pub(crate) fn follow(&self, a: u16) -> &[u16]
        ensures { result.now ≡ follow_of self.now a }
    {
        set_of(self.follow.as_slice(), a)
    }

    /// The rank of a nonterminal.
    pub(crate) fn rank(&self, a: u16) -> u32
        ensures { result ≡ rank_of self.now a }
    {
        match self.ranks.get(a as usize) {
            Some(rank) => *rank,
            None => 0,
        }
    }

    /// The members at a nonterminal's end.
    pub(crate) fn end(&self, a: u16) -> &[Member]
        ensures { result.now ≡ end_of self.now a }
    {
        members_of(self.ends.as_slice(), a as usize)
    }

    /// The members at place k of right side i.
    pub(crate) fn row(&self, i: usize, k: usize) -> &[Member]
        ensures { result.now ≡ row_at self.now i k }
    {
        members_of(rows_of(self.places.as_slice(), i), k)
    }
}
