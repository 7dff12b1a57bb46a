// The sets PSLS where two terminals are looked back at, as a value.

ghost use Rattle.std.specs.Prelude.{◌≡◌, Some, None, MatchOption, count_by, is_some, map, slice_index_or};
ghost use Rattle.grammar_file.specs.Grammar.{Grammar as AnyGrammar};
ghost use Rattle.llp_wide.specs.WideEntries.{CountsTriples};
ghost use Rattle.llp_wide.specs.WideLookbacks.{AreWideLookbacksOf, ClosedStack, item_at, wide_lookback_of};

use crate::closings::Closing;
use crate::triples::Triples;
use grammar_file::Symbol;
use std::marker::Model;

/// The sets PSLS of a grammar that is LL(1) and LLP(2,1): for each triple of terminals z, a and b the one stack that is closed where z
/// and then a are matched last and b comes next, or none. No piece is made, so these are small also where pieces are too long for any
/// memory. Triples that close the same before the same terminal share it.
#[derive(Drop)]
pub struct WideLookbacks {
    width: u16,
    numbers: Vec<Option<u32>>,
    stacks: Vec<Closing>,
}

impl Model for WideLookbacks {
    ghost use Rattle.llp_wide.specs.WideLookbacks.{WideLookbackTable};

    ghost Value = { WideLookbackTable };

    ghost view = { λ t. record {
      width = t.width;
      numbers = t.numbers.items;
      stacks = t.stacks.items;
    } };
}

/// How many places have a number.
pub(crate) fn count_numbers(numbers: &[Option<u32>]) -> u64
    ensures { result ≡ count_by is_some numbers.now }
{
    numbers.iter().filter(|number| number.is_some()).count() as u64
}

/// The item whose number stands at a place, where there is one.
pub(crate) fn item_at<'a, T>(numbers: &[Option<u32>], items: &'a [T], place: usize) -> Option<&'a T>
    ensures { MatchOption result (slice_index_or (map (item_at items.now) numbers.now) place None ≡ None) (λ x. slice_index_or (map (item_at items.now) numbers.now) place None ≡ Some x.now) }
{
    match numbers.get(place) {
        Some(Some(number)) => items.get(*number as usize),
        _ => None,
    }
}

/// The symbols that are closed.
fn symbols_of(stack: &Closing) -> &[Symbol]
    ensures { result.now ≡ stack.now.closes }
{
    stack.closes.as_slice()
}

impl WideLookbacks {
    /// The sets with these stacks and numbers, a layer for each of this many terminals.
    pub(crate) fn new(width: u16, triples: Triples) -> WideLookbacks
        ensures { result ≡ record { width = width; numbers = triples.numbers.items; stacks = triples.stacks.items } }
    {
        WideLookbacks {
            width,
            numbers: triples.numbers,
            stacks: triples.stacks,
        }
    }

    /// The stacks that are closed.
    pub(crate) fn stacks(&self) -> &[Closing]
        ensures { result.now ≡ self.now.stacks }
    {
        self.stacks.as_slice()
    }

    /// The number of a stack for each triple.
    pub(crate) fn into_numbers(self) -> Vec<Option<u32>>
        ensures { result.items ≡ self.numbers }
    {
        self.numbers
    }

    /// The stack that is closed where z and then a are matched last and b comes next, the uppermost symbol first. The begin mark is
    /// terminal 0, and stands twice before a text; the end mark is the last one. There is none where b never comes next behind z and a.
    pub fn member(&self, z: u16, a: u16, b: u16) -> Option<&[Symbol]>
        ensures { MatchOption result (wide_lookback_of self.now z a b ≡ None) (λ x. (c : ClosedStack) × (wide_lookback_of self.now z a b ≡ Some c) × (x.now ≡ c.closes)) }
    {
        if self.width <= z || self.width <= a || self.width <= b {
            return None;
        }
        let width = self.width as usize;
        let place = (b as usize * width + z as usize) * width + a as usize;
        match item_at(self.numbers.as_slice(), self.stacks.as_slice(), place) {
            Some(stack) => Some(symbols_of(stack)),
            None => None,
        }
    }

    fn number_count(&self) -> u64
        ensures { result ≡ count_by is_some self.now.numbers }
    {
        count_numbers(self.numbers.as_slice())
    }

    /// How many triples have a member, and so an entry in the grammar's tables.
    pub fn entries(&self) -> u64
        ensures { (g : AnyGrammar) → AreWideLookbacksOf g self.now → CountsTriples g result }
    {
        self.number_count()
    }
}
