// The places of symbols in right sides, by the terminals that are matched last before them. Where what stands before a symbol has a
// terminal, it doesn't matter what is matched last before the right side: such a place is there once for all, with an owner of any terminal.

ghost use Rattle.std.specs.Prelude.{◌≡◌, ◌<◌, ◌+◌, length, IfOk};
ghost use Rattle.llp_wide.specs.Added.{Adds};
ghost use Rattle.llp_wide.specs.Places.{IsSpotAt, IsSpotOf, IsSpotIn, IsSpotBy, IsSpotUnder, IsGathering, IsSpotOn};

use crate::endings::{LastMarks, is_reached};
use grammar_file::{Production, Symbol};
use std::alloc::{AllocError, Global};
use std::marker::Model;

/// A nonterminal that is replaced, and the terminal that is matched last then, or the number behind all for any terminal.
#[derive(Clone, Copy)]
pub(crate) struct Entrance {
    pub before: u16,
    pub nonterminal: u16,
}

/// A symbol in a right side of `owner`, the terminal that is matched last before it, and the symbols behind it there.
#[derive(Drop)]
pub(crate) struct Place {
    pub before: u16,
    pub symbol: Symbol,
    pub owner: Entrance,
    pub after: Vec<Symbol>,
}

impl Model for Place {
    ghost use Rattle.llp_wide.specs.Places.{Spot};

    ghost Value = { Spot };

    ghost view = { λ p. record {
      before = p.before;
      symbol = p.symbol;
      owner = p.owner;
      after = p.after.items;
    } };
}

/// A symbol in its context: the terminal that is matched last before it, and the symbols behind it.
#[derive(Clone, Copy)]
pub(crate) struct Context<'a> {
    pub before: u16,
    pub symbol: Symbol,
    pub after: &'a [Symbol],
}

impl Place {
    /// The symbol of the place, in its context.
    pub(crate) fn context(&self) -> Context<'_>
        ensures before { result.before ≡ self.now.before }
        ensures symbol { result.symbol ≡ self.now.symbol }
        ensures after { result.after.now ≡ self.now.after }
    {
        Context {
            before: self.before,
            symbol: self.symbol,
            after: self.after.as_slice(),
        }
    }
}

/// The places of one owner.
#[derive(Drop)]
pub(crate) struct Group {
    pub places: Vec<Place>,
}

impl Model for Group {
    ghost use Rattle.std.specs.Prelude.{List};
    ghost use Rattle.llp_wide.specs.Places.{Spot};

    ghost Value = { List Spot };

    ghost view = { λ g. g.places.items };
}

/// A right side with a dot before its symbol number `dot`.
#[derive(Clone, Copy)]
struct Item<'a> {
    right: &'a [Symbol],
    dot: usize,
}

/// Collects the places of one owner, by the nonterminals that vanish and by LAST of all nonterminals.
#[derive(Clone, Copy)]
pub(crate) struct Collector<'a> {
    pub nullable: &'a [bool],
    pub all: &'a [LastMarks],
    pub owner: Entrance,
}

impl Collector<'_> {
    // Adds the place of the symbol behind the dot, with y matched last, where that can be.
    fn add_place(
        &self,
        alloc: Global,
        item: Item<'_>,
        y: u16,
        places: &mut Vec<Place>,
    ) -> Result<(), AllocError>
        requires symbol { item.dot < length item.right.now }
        requires terminal { y < length self.now.all.now }
        ensures { IfOk result (λ u. Adds (IsSpotAt self.now.nullable.now self.now.all.now self.now.owner item.entry.right.now item.entry.dot y) places.old.items places.new.items) }
    {
        if !is_reached(
            self.nullable,
            self.all,
            self.owner.before,
            y,
            &item.right[..item.dot],
        ) {
            return Ok(());
        }
        let after = Vec::from_slice(alloc, &item.right[item.dot + 1..])?;
        places.push(Place {
            before: y,
            symbol: item.right[item.dot],
            owner: self.owner,
            after,
        })?;
        Ok(())
    }

    // Adds the places of the symbol behind the dot.
    fn add_places_at(
        &self,
        alloc: Global,
        item: Item<'_>,
        places: &mut Vec<Place>,
    ) -> Result<(), AllocError>
        requires symbol { item.dot < length item.right.now }
        requires few { length self.now.all.now < 65536 }
        ensures { IfOk result (λ u. Adds (IsSpotOf self.now.nullable.now self.now.all.now self.now.owner item.entry.right.now item.entry.dot) places.old.items places.new.items) }
    {
        for y in 0..self.all.len() as u16 {
            self.add_place(alloc, item, y, places)?;
        }
        Ok(())
    }

    // Adds the places of a right side.
    fn add_places_in(
        &self,
        alloc: Global,
        right: &[Symbol],
        places: &mut Vec<Place>,
    ) -> Result<(), AllocError>
        requires few { length self.now.all.now < 65536 }
        ensures { IfOk result (λ u. Adds (IsSpotIn self.now.nullable.now self.now.all.now self.now.owner right.now) places.old.items places.new.items) }
    {
        for dot in 0..right.len() {
            self.add_places_at(alloc, Item { right, dot }, places)?;
        }
        Ok(())
    }

    // Adds the places of a production's right side, if it is one of the owner.
    fn add_places_by(
        &self,
        alloc: Global,
        productions: &[Production],
        i: usize,
        places: &mut Vec<Place>,
    ) -> Result<(), AllocError>
        requires within { i < length productions.now }
        requires few { length self.now.all.now < 65536 }
        ensures { IfOk result (λ u. Adds (IsSpotBy self.now.nullable.now self.now.all.now self.now.owner productions.now i) places.old.items places.new.items) }
    {
        let rule = &productions[i];
        if rule.left() != self.owner.nonterminal {
            return Ok(());
        }
        self.add_places_in(alloc, rule.right(), places)
    }

    // Adds the places of all right sides of the owner.
    fn add_places_under(
        &self,
        alloc: Global,
        productions: &[Production],
        places: &mut Vec<Place>,
    ) -> Result<(), AllocError>
        requires few { length self.now.all.now < 65536 }
        ensures { IfOk result (λ u. Adds (IsSpotUnder self.now.nullable.now self.now.all.now productions.now self.now.owner) places.old.items places.new.items) }
    {
        for i in 0..productions.len() {
            self.add_places_by(alloc, productions, i, places)?;
        }
        Ok(())
    }

    // Adds the owner itself where any terminal is matched last, unless it is that.
    fn add_gathering(&self, alloc: Global, places: &mut Vec<Place>) -> Result<(), AllocError>
        requires few { length self.now.all.now < 65536 }
        ensures { IfOk result (λ u. Adds (IsGathering self.now.all.now self.now.owner) places.old.items places.new.items) }
    {
        let owner = self.owner;
        if owner.before as usize == self.all.len() {
            return Ok(());
        }
        places.push(Place {
            before: self.all.len() as u16,
            symbol: Symbol::Nonterminal(owner.nonterminal),
            owner,
            after: Vec::new(alloc),
        })?;
        Ok(())
    }

    /// Adds the places of the owner: those of its right sides, and itself where any terminal is matched last.
    pub(crate) fn add_places(
        &self,
        alloc: Global,
        productions: &[Production],
        places: &mut Vec<Place>,
    ) -> Result<(), AllocError>
        requires few { length self.now.all.now < 65536 }
        ensures { IfOk result (λ u. Adds (IsSpotOn self.now.nullable.now self.now.all.now productions.now self.now.owner) places.old.items places.new.items) }
    {
        self.add_places_under(alloc, productions, places)?;
        self.add_gathering(alloc, places)
    }
}
