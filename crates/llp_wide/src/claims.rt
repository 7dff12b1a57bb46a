// The strings that wait to come into the cells of symbols: what the places of a grammar force there.

ghost use Rattle.std.specs.Prelude.{◌≡◌, ◌<◌, ◌++◌, [], true, false, ◌+◌, length, take, get_or, IfOk};
ghost use Rattle.grammar_file.specs.declared.symbols.Symbol.TheVariants.{Terminal as AnyTerminal, Nonterminal as AnyNonterminal};
ghost use Rattle.llp_tables.specs.Forced.{is_stop};
ghost use Rattle.llp_tables.specs.Lookbacks.{cells_at};
ghost use Rattle.llp_tables.specs.Slots.{covers};
ghost use Rattle.llp_wide.specs.Added.{Adds, SomeBelow};
ghost use Rattle.llp_wide.specs.Claims.{IsStopAt, IsStopIn, IsStopBy, IsStopOf, IsFirstClaim, IsPassAt, IsPassOf};
ghost use Rattle.llp_wide.specs.Queueing.{stack_cmp};

use crate::places::{Context, Group, Place};
use grammar_file::{Grammar, Symbol};
use llp_tables::{Members, all_vanish, is_before, starts};
use std::alloc::{AllocError, Global};
use std::cmp::Ordering;
use std::marker::Model;

/// A string that waits to come into the cell of a symbol before which a terminal is matched last.
#[derive(Drop)]
pub(crate) struct Waiting {
    pub before: u16,
    pub symbol: Symbol,
    pub stack: Vec<Symbol>,
}

impl Model for Waiting {
    ghost use Rattle.llp_wide.specs.Claims.{Claim};

    ghost Value = { Claim };

    ghost view = { λ w. record {
      before = w.before;
      symbol = w.symbol;
      stack = w.stack.items;
    } };
}

// Which of two strings comes first.
fn order_of(a: &[Symbol], b: &[Symbol]) -> Ordering
    ensures { result ≡ stack_cmp a.now b.now }
{
    if is_before(a, b) {
        Ordering::Less
    } else if is_before(b, a) {
        Ordering::Greater
    } else {
        Ordering::Equal
    }
}

impl PartialEq for Waiting {
    ghost use Rattle.std.specs.Ordering.{eq_by_cmp};
    ghost use Rattle.std.specs.Cmp.{partial_equiv_from_equiv};
    ghost use Rattle.llp_wide.specs.Queueing.{claim_cmp};
    ghost use Rattle.llp_wide.specs.Laws.QueueOrder.{claim_equivalence};

    ghost eq = { eq_by_cmp claim_cmp };

    ghost laws = { partial_equiv_from_equiv claim_equivalence };

    fn eq(&self, other: &Waiting) -> bool {
        self.cmp(other) == Ordering::Equal
    }
}

impl Eq for Waiting {
    ghost use Rattle.llp_wide.specs.Laws.QueueOrder.{claim_equivalence};

    ghost laws = { claim_equivalence };
}

impl PartialOrd for Waiting {
    ghost use Rattle.std.specs.Prelude.{Some};
    ghost use Rattle.llp_wide.specs.Queueing.{claim_cmp};
    ghost use Rattle.llp_wide.specs.Laws.QueueOrder.{claim_order};

    ghost partial_cmp = { λ a b. Some (claim_cmp a b) };

    ghost laws = { claim_order };

    fn partial_cmp(&self, other: &Waiting) -> Option<Ordering> {
        Some(self.cmp(other))
    }
}

// In a queue the greatest item comes out first: lesser strings are greater.
impl Ord for Waiting {
    ghost use Rattle.std.proofs.Common.{refl};
    ghost use Rattle.llp_wide.specs.Queueing.{claim_cmp};
    ghost use Rattle.llp_wide.specs.Laws.QueueOrder.{claim_total};

    ghost cmp = { claim_cmp };

    ghost total = { claim_total };

    ghost matches_partial_cmp = { λ a b. refl };

    ghost matches_eq = { λ a b. refl };

    fn cmp(&self, other: &Waiting) -> Ordering {
        order_of(other.stack.as_slice(), self.stack.as_slice())
    }
}

/// By what the cells are filled where the terminal b comes next: the nonterminals that vanish and those that b may begin, and the places
/// of all owners.
#[derive(Clone, Copy)]
pub(crate) struct Ground<'a> {
    pub grammar: &'a Grammar,
    pub nullable: &'a [bool],
    pub first: &'a [bool],
    pub groups: &'a [Group],
    pub b: u16,
}

impl Ground<'_> {
    // Whether b may begin at symbol j of what stands behind a symbol.
    fn is_stop(&self, after: &[Symbol], j: usize) -> bool
        requires { j < length after.now }
        ensures { result ≡ is_stop self.now.nullable.now self.now.first.now self.now.b (take j after.now) (get_or after.now j (AnyTerminal 0)) }
    {
        all_vanish(self.nullable, &after[..j]) && starts(self.first, self.b, after[j])
    }

    // Adds the front of what stands behind a symbol that ends with symbol j there, where b may begin at that.
    fn add_stop(
        &self,
        alloc: Global,
        context: Context<'_>,
        j: usize,
        waiting: &mut Vec<Waiting>,
    ) -> Result<(), AllocError>
        requires { j < length context.after.now }
        ensures { IfOk result (λ u. Adds (IsStopAt self.now.nullable.now self.now.first.now self.now.b context.entry.after.now context.entry.before context.entry.symbol j)
            waiting.old.items waiting.new.items) }
    {
        if !self.is_stop(context.after, j) {
            return Ok(());
        }
        let stack = Vec::from_slice(alloc, &context.after[..j + 1])?;
        waiting.push(Waiting {
            before: context.before,
            symbol: context.symbol,
            stack,
        })?;
        Ok(())
    }

    // Adds each front of what stands behind a symbol at whose end b may begin: up to the first symbol that can't vanish.
    fn add_stops(
        &self,
        alloc: Global,
        context: Context<'_>,
        waiting: &mut Vec<Waiting>,
    ) -> Result<(), AllocError>
        ensures { IfOk result (λ u. Adds (IsStopIn self.now.nullable.now self.now.first.now self.now.b context.entry.after.now context.entry.before context.entry.symbol)
            waiting.old.items waiting.new.items) }
    {
        for j in 0..context.after.len() {
            self.add_stop(alloc, context, j, waiting)?;
            if !all_vanish(self.nullable, &context.after[..j + 1]) {
                return Ok(());
            }
        }
        Ok(())
    }

    // Adds the stops behind all places.
    fn add_stops_of(
        &self,
        alloc: Global,
        places: &[Place],
        waiting: &mut Vec<Waiting>,
    ) -> Result<(), AllocError>
        ensures { IfOk result (λ u. Adds (SomeBelow (length places.now) (IsStopBy self.now.nullable.now self.now.first.now self.now.b places.now)) waiting.old.items waiting.new.items) }
    {
        for i in 0..places.len() {
            self.add_stops(alloc, places[i].context(), waiting)?;
        }
        Ok(())
    }

    // Adds the stops behind the places of all owners.
    fn add_all_stops(&self, alloc: Global, waiting: &mut Vec<Waiting>) -> Result<(), AllocError>
        ensures { IfOk result (λ u. Adds (SomeBelow (length self.now.groups.now) (IsStopOf self.now.nullable.now self.now.first.now self.now.b self.now.groups.now))
            waiting.old.items waiting.new.items) }
    {
        let groups = self.groups;
        for n in 0..groups.len() {
            let group = &groups[n];
            self.add_stops_of(alloc, group.places.as_slice(), waiting)?;
        }
        Ok(())
    }

    /// The strings that are forced into the cells while there is nothing in any.
    pub(crate) fn first_waiting(&self, alloc: Global) -> Result<Vec<Waiting>, AllocError>
        ensures { IfOk result (λ v. Adds (IsFirstClaim self.now.nullable.now self.now.first.now self.now.b self.now.grammar.now self.now.groups.now) [] v.items) }
    {
        let text = [Symbol::Nonterminal(0), self.grammar.end_mark()];
        let end = [self.grammar.end_mark()];
        let mut waiting = Vec::new(alloc);
        let begin = Context {
            before: 0,
            symbol: Symbol::Terminal(0),
            after: &text,
        };
        self.add_stops(alloc, begin, &mut waiting)?;
        let start = Context {
            before: 0,
            symbol: Symbol::Nonterminal(0),
            after: &end,
        };
        self.add_stops(alloc, start, &mut waiting)?;
        self.add_all_stops(alloc, &mut waiting)?;
        Ok(waiting)
    }
}

// Whether the place stands in a right side of the symbol, entered with that terminal matched last.
fn is_owner(place: &Place, before: u16, symbol: Symbol) -> bool
    ensures yes { result ≡ true → (symbol ≡ AnyNonterminal place.now.owner.nonterminal) × (before ≡ place.now.owner.before) }
    ensures other { result ≡ false → (symbol ≡ AnyNonterminal place.now.owner.nonterminal) → (before ≡ place.now.owner.before) → ⊥ }
{
    match symbol {
        Symbol::Terminal(_) => false,
        Symbol::Nonterminal(a) => a == place.owner.nonterminal && before == place.owner.before,
    }
}

// One string behind another.
fn joined(alloc: Global, above: &[Symbol], below: &[Symbol]) -> Result<Vec<Symbol>, AllocError>
    ensures { IfOk result (λ w. w.items ≡ above.now ++ below.now) }
{
    let mut w = Vec::from_slice(alloc, above)?;
    w.extend_from_slice(below)?;
    Ok(w)
}

// Adds what the place passes on of the owner's string, if the owner is that of the place.
fn add_pass(
    alloc: Global,
    nullable: &[bool],
    place: &Place,
    owner: &Waiting,
    waiting: &mut Vec<Waiting>,
) -> Result<(), AllocError>
    ensures { IfOk result (λ u. Adds (IsPassAt nullable.now owner.now place.now) waiting.old.items waiting.new.items) }
{
    if !is_owner(place, owner.before, owner.symbol) {
        return Ok(());
    }
    if !all_vanish(nullable, place.after.as_slice()) {
        return Ok(());
    }
    let stack = joined(alloc, place.after.as_slice(), owner.stack.as_slice())?;
    waiting.push(Waiting {
        before: place.before,
        symbol: place.symbol,
        stack,
    })?;
    Ok(())
}

/// Adds what these places pass on of the string in their owner's cell.
pub(crate) fn add_passes(
    alloc: Global,
    nullable: &[bool],
    places: &[Place],
    owner: &Waiting,
    waiting: &mut Vec<Waiting>,
) -> Result<(), AllocError>
    ensures { IfOk result (λ u. Adds (IsPassOf nullable.now owner.now places.now) waiting.old.items waiting.new.items) }
{
    for i in 0..places.len() {
        add_pass(alloc, nullable, &places[i], owner, waiting)?;
    }
    Ok(())
}

/// Whether the string is covered by its symbol's cell: the cell has it, or two strings of which none is greater.
pub(crate) fn is_covered(classes: &[Members], waiting: &Waiting) -> bool
    ensures { result ≡ covers (cells_at classes.now waiting.now.before waiting.now.symbol) waiting.now.stack }
{
    match classes.get(waiting.before as usize) {
        Some(members) => members.covers(waiting.symbol, waiting.stack.as_slice()),
        None => false,
    }
}
