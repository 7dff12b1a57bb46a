// The sets PSLS of a grammar, as a value.

ghost use Rattle.std.specs.Prelude.{◌≡◌, Some, None, MatchOption, slice_index_or, is_some, count_by};
ghost use Rattle.grammar_file.specs.Grammar.{Grammar as AnyGrammar};
ghost use Rattle.llp_tables.specs.LookbackTable.{AreLookbacksOf, lookback_of};
ghost use Rattle.llp_tables.specs.Pairs.{CountsPairs};

use crate::fault::Stack;
use grammar_file::Symbol;
use std::marker::Model;

/// The sets PSLS of a grammar that is LL(1) and LLP(1,1): for each pair of terminals the one stack that is closed between them, or
/// none. No piece is made, so these are small also where pieces are too long for any memory.
#[derive(Drop)]
pub struct Lookbacks {
    width: u16,
    members: Vec<Option<Stack>>,
}

impl Model for Lookbacks {
    ghost use Rattle.llp_tables.specs.LookbackTable.{LookbackTable};

    ghost Value = { LookbackTable };

    ghost view = { λ t. record {
      width = t.width;
      members = t.members.items;
    } };
}

/// The symbols of the stack at a place, where there is one.
fn stack_at(members: &[Option<Stack>], place: usize) -> Option<&[Symbol]>
    ensures { MatchOption result (slice_index_or members.now place None ≡ None) (λ x. slice_index_or members.now place None ≡ Some x.now) }
{
    match members.get(place) {
        Some(Some(stack)) => Some(stack.symbols()),
        _ => None,
    }
}

impl Lookbacks {
    /// The sets with these members, a row for each of this many terminals.
    pub(crate) fn new(width: u16, members: Vec<Option<Stack>>) -> Lookbacks
        ensures { result ≡ record { width = width; members = members.items } }
    {
        Lookbacks { width, members }
    }

    /// The stack that is closed where b comes next behind a, the uppermost symbol first. The begin mark is terminal 0, the end mark
    /// the last one. There is none where b never comes next behind a.
    pub fn member(&self, a: u16, b: u16) -> Option<&[Symbol]>
        ensures { MatchOption result (lookback_of self.now a b ≡ None) (λ x. lookback_of self.now a b ≡ Some x.now) }
    {
        if self.width <= a || self.width <= b {
            return None;
        }
        let place = b as usize * self.width as usize + a as usize;
        stack_at(self.members.as_slice(), place)
    }

    fn member_count(&self) -> u64
        ensures { result ≡ count_by is_some self.now.members }
    {
        self.members
            .iter()
            .filter(|member| member.is_some())
            .count() as u64
    }

    /// How many pairs have a member, and so an entry in the grammar's tables.
    pub fn entries(&self) -> u64
        ensures { (g : AnyGrammar) → AreLookbacksOf g self.now → CountsPairs g result }
    {
        self.member_count()
    }
}
