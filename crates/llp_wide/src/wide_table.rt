// The tables of a grammar, as a value.

ghost use Rattle.std.specs.Prelude.{◌≡◌, length, map, count_by, is_some, None, Some, MatchOption};
ghost use Rattle.std.specs.List.{AllByRecursion};
ghost use Rattle.grammar_file.specs.Grammar.{Grammar as AnyGrammar};
ghost use Rattle.llp_wide.specs.WideLookbacks.{IsNumberOf, item_at};
ghost use Rattle.llp_wide.specs.WideEntries.{AreWideTablesOf, CountsTriples, wide_entry_of};

use crate::lookback_table::{count_numbers, item_at};
use crate::pieces::WidePiece;
use llp_tables::Entry;
use std::marker::Model;

/// The tables of a grammar that is LL(1) and LLP(2,1): an entry for each triple of terminals z, a and b where b may come next and z
/// and then a be matched last. Triples with the same entry share it.
#[derive(Drop)]
pub struct WideTables {
    width: u16,
    numbers: Vec<Option<u32>>,
    pieces: Vec<WidePiece>,
}

impl Model for WideTables {
    ghost use Rattle.std.specs.Prelude.{length, map};
    ghost use Rattle.std.specs.List.{AllByRecursion};
    ghost use Rattle.llp_wide.specs.WideLookbacks.{IsNumberOf, item_at};
    ghost use Rattle.llp_wide.specs.WideEntries.{WideTable};

    ghost Value = { WideTable };

    ghost view = { λ t. record {
      width = t.width;
      entries = map (item_at t.pieces.items) t.numbers.items;
    } };

    ghost invariant = { λ t. AllByRecursion (IsNumberOf (length t.pieces.items)) t.numbers.items };
}

/// The entry that a piece stands for.
fn told(piece: &WidePiece) -> Entry<'_>
    ensures closes { result.closes.now ≡ piece.now.closes }
    ensures opens { result.opens.now ≡ piece.now.opens }
    ensures productions { result.productions.now ≡ piece.now.productions }
{
    Entry {
        closes: piece.closes.as_slice(),
        opens: piece.opens.as_slice(),
        productions: piece.productions.as_slice(),
    }
}

impl WideTables {
    /// The tables with these pieces, a layer for each of this many terminals.
    pub(crate) fn new(width: u16, numbers: Vec<Option<u32>>, pieces: Vec<WidePiece>) -> WideTables
        requires { AllByRecursion (IsNumberOf (length pieces.items)) numbers.items }
        ensures { result ≡ record { width = width; entries = map (item_at pieces.items) numbers.items } }
    {
        WideTables {
            width,
            numbers,
            pieces,
        }
    }

    /// What the terminals tell where z and then a are matched last and b comes next. The begin mark is terminal 0, and stands twice
    /// before a text; the end mark is the last one. There is no entry where b never comes next behind z and a.
    pub fn entry(&self, z: u16, a: u16, b: u16) -> Option<Entry<'_>>
        ensures { MatchOption result (wide_entry_of self.now z a b ≡ None)
            (λ e. wide_entry_of self.now z a b ≡ Some (record { closes = e.closes.now; opens = e.opens.now; productions = e.productions.now })) }
    {
        if self.width <= z || self.width <= a || self.width <= b {
            return None;
        }
        let width = self.width as usize;
        let place = (b as usize * width + z as usize) * width + a as usize;
        match item_at(self.numbers.as_slice(), self.pieces.as_slice(), place) {
            Some(piece) => Some(told(piece)),
            None => None,
        }
    }

    fn number_count(&self) -> u64
        ensures { result ≡ count_by is_some self.now.entries }
    {
        count_numbers(self.numbers.as_slice())
    }

    /// How many triples have an entry.
    pub fn entries(&self) -> u64
        ensures count { result ≡ count_by is_some self.now.entries }
        ensures triples { (g : AnyGrammar) → AreWideTablesOf g self.now → CountsTriples g result }
    {
        self.number_count()
    }

    /// How many terminals there are, with the two marks.
    pub fn width(&self) -> u16
        ensures { result ≡ self.now.width }
    {
        self.width
    }
}
