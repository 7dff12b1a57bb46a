// The stacks that are closed for triples, one for each terminal that comes next and each string that is closed before it.

ghost use Rattle.std.specs.Prelude.{◌≡◌, ◌<◌, ◌≤◌, ◌^◌, ℕ, List, length, true, Some, IfOk, IfSome, MatchOption, slice_get};
ghost use Rattle.grammar_file.specs.declared.symbols.Symbol.{Symbol as AnySymbol};
ghost use Rattle.grammar_file.specs.declared.symbols.Symbol.TheVariants.{Terminal as AnyTerminal};
ghost use Rattle.grammar_file.specs.Grammar.{Grammar as AnyGrammar};
ghost use Rattle.llp_tables.specs.Lookback.{IsLookback};
ghost use Rattle.llp_tables.specs.Lookbacks.{cells_at};
ghost use Rattle.llp_tables.specs.Slots.{One as OneSlot};
ghost use Rattle.llp_wide.specs.Triples.{AreClosedFor, HasNumber, TellsTriple};
ghost use Rattle.llp_wide.specs.WideConflicts.{IsWideLlpOn, TellWide};
ghost use Rattle.llp_wide.specs.WideLookbacks.{ClosedStack};

use grammar_file::Symbol;
use llp_tables::{Cell, Members};
use std::alloc::{AllocError, Global};
use std::marker::Model;

/// A stack that is closed where the terminal `ahead` comes next.
#[derive(Drop)]
pub(crate) struct Closing {
    pub ahead: u16,
    pub closes: Vec<Symbol>,
}

impl Model for Closing {
    ghost use Rattle.llp_wide.specs.WideLookbacks.{ClosedStack};

    ghost Value = { ClosedStack };

    ghost view = { λ c. record {
      ahead = c.ahead;
      closes = c.closes.items;
    } };
}

// Whether these symbols are closed.
fn is_closing(stack: &Closing, closes: &[Symbol]) -> bool
    ensures { result ≡ true → stack.now.closes ≡ closes.now }
{
    stack.closes.as_slice() == closes
}

/// The number of a stack with these symbols, of those from `start` on.
fn find_stack(stacks: &[Closing], start: usize, closes: &[Symbol]) -> Option<usize>
    ensures within { IfSome result (λ n. n < length stacks.now) }
    ensures found { IfSome result (λ n. (start ≤ n) × (c : ClosedStack) × (slice_get stacks.now n ≡ Some c) × (c.closes ≡ closes.now)) }
{
    for n in start..stacks.len() {
        if is_closing(&stacks[n], closes) {
            return Some(n);
        }
    }
    None
}

/// What the cell of z and a keeps where that is one string.
fn only_member(classes: &[Members], z: u16, a: u16) -> Option<&[Symbol]>
    ensures { MatchOption result ((x : List AnySymbol) → cells_at classes.now z (AnyTerminal a) ≡ OneSlot x → ⊥) (λ x. cells_at classes.now z (AnyTerminal a) ≡ OneSlot x.now) }
{
    match classes.get(z as usize) {
        Some(members) => match members.terminals.get(a as usize) {
            Some(Cell::Least(x)) => Some(x),
            _ => None,
        },
        None => None,
    }
}

/// A layer of triples: the members of PSLS(z,a,b) for each z and a, where the terminal b comes next, and the number of the first stack
/// that is closed before b.
#[derive(Clone, Copy)]
pub(crate) struct Layer<'a> {
    pub classes: &'a [Members],
    pub b: u16,
    pub start: usize,
}

impl Layer<'_> {
    /// The number of the stack with these symbols, which is added where there is none yet.
    fn number_of(
        &self,
        alloc: Global,
        closes: &[Symbol],
        stacks: &mut Vec<Closing>,
    ) -> Result<u32, AllocError>
        requires { length stacks.old.items < 2 ^ 32 }
        ensures { IfOk result (λ n. (g : AnyGrammar) → (a : ℕ) × IsLookback g a self.now.b closes.now → AreClosedFor g self.now.b self.now.start stacks.old.items
            → HasNumber g self.now.b self.now.start closes.now stacks.old.items stacks.new.items n) }
    {
        if let Some(n) = find_stack(stacks.as_slice(), self.start, closes) {
            return Ok(n as u32);
        }
        let n = stacks.len() as u32;
        let closes = Vec::from_slice(alloc, closes)?;
        stacks.push(Closing {
            ahead: self.b,
            closes,
        })?;
        Ok(n)
    }

    /// The number of the stack of a triple, or nothing where the triple has none.
    pub(crate) fn triple_number(
        &self,
        alloc: Global,
        z: u16,
        a: u16,
        stacks: &mut Vec<Closing>,
    ) -> Result<Option<u32>, AllocError>
        requires { length stacks.old.items < 2 ^ 32 }
        ensures { IfOk result (λ number. (g : AnyGrammar) → IsWideLlpOn g self.now.b → TellWide g self.now.b self.now.classes.now → AreClosedFor g self.now.b self.now.start stacks.old.items
            → TellsTriple g z a self.now.b self.now.start stacks.old.items stacks.new.items number) }
    {
        match only_member(self.classes, z, a) {
            Some(closes) => {
                let number = self.number_of(alloc, closes, stacks)?;
                Ok(Some(number))
            }
            None => Ok(None),
        }
    }
}
