//! The functions of an automaton, numbered.
ghost use Rattle.std.specs.Prelude.{◌≡◌, ℕ, ◌<◌, ◌≤◌, [], ◌∷◌, length, Some, Err, slice_get, slice_index, IfOk};
ghost use Rattle.state_monoid.specs.Automaton.{IsAutomaton};
ghost use Rattle.state_monoid.specs.Image.{compose, image, IsNumbering, HasMoreThan};
ghost use Rattle.state_monoid.specs.Numbering.{function_of, number_of, byte_number};
ghost use Rattle.state_monoid.specs.declared.fault.BuildFault.TheVariants.{TooMany};

use crate::dfa::Dfa;
use crate::explore::{Explored, explore};
use crate::fault::BuildFault;
use crate::joins::{followed, join_all};
use crate::letters::Letters;
use crate::states::States;
use indexmap::IndexSet;
use std::alloc::Global;
use std::marker::Model;
use word_monoid::WordMonoid;

/// All functions that the words of an automaton make, by numbers: its transition monoid. Contracts see the automaton and the functions,
/// of which the one with number c stands at place c. Number 0 is the identity. What is seen holds the proof that these are all, since
/// the laws of a monoid are owed for every value.
#[derive(Drop)]
pub struct Compositions {
    dfa: Dfa,
    functions: IndexSet<States>,
    bytes: Vec<u16>,
    joins: Vec<u16>,
    ghost is_automaton: { IsAutomaton dfa },
    ghost few: { length functions.keys ≤ 4096 },
    ghost numbers_all: { ∥ IsNumbering dfa functions.keys ∥₁ },
}

impl Model for Compositions {
    ghost use Rattle.state_monoid.specs.Numbering.{Numbering};
    ghost use Rattle.state_monoid.specs.Explored.{AreTables};

    ghost Value = { Numbering };

    ghost view = { λ c. record { automaton = c.dfa; functions = c.functions.keys; is_automaton = c.is_automaton; few = c.few; numbers_all = c.numbers_all } };

    ghost invariant = { λ c. AreTables c.dfa c.functions.keys c.bytes.items c.joins.items };
}

impl Compositions {
    /// Numbers all functions that words make. `TooMany` comes exactly where there are more than 4,096 of them.
    pub fn build(alloc: Global, dfa: &Dfa) -> Result<Compositions, BuildFault>
        ensures automaton { IfOk result (λ c. c.automaton ≡ dfa.now) }
        ensures numbering { IfOk result (λ c. IsNumbering dfa.now c.functions) }
        ensures few { IfOk result (λ c. length c.functions ≤ 4096) }
        ensures identity { IfOk result (λ c. slice_get c.functions 0 ≡ Some (image dfa.now [])) }
        ensures too_many { (reached : ℕ) → result ≡ Err (TooMany reached) → HasMoreThan dfa.now 4096 × (reached ≡ 4097) }
    {
        let letters = Letters::new(alloc, dfa)?;
        let explored = explore(alloc, &letters)?;
        let joins = join_all(alloc, &letters, &explored)?;
        let bytes = followed(alloc, &letters.of_byte, &explored.rows[0])?;
        let Letters {
            dfa,
            functions: _,
            of_byte: _,
        } = letters;
        let Explored {
            functions,
            origins: _,
            rows: _,
        } = explored;
        Ok(Compositions {
            dfa,
            functions,
            bytes,
            joins,
        })
    }

    /// The automaton.
    pub fn dfa(&self) -> &Dfa
        ensures { result.now ≡ self.now.automaton }
    {
        &self.dfa
    }

    /// The number of functions, at most 4,096.
    pub fn count(&self) -> u32
        ensures value { result ≡ length self.now.functions }
        ensures few { result ≤ 4096 }
    {
        self.functions.len() as u32
    }

    /// The number of the function that a byte makes.
    pub fn of_byte(&self, byte: u8) -> u16
        ensures function { slice_get self.now.functions result ≡ Some (image self.now.automaton (byte ∷ [])) }
        ensures value { result ≡ byte_number self.now byte }
        ensures within { result < length self.now.functions }
    {
        self.bytes[byte as usize]
    }

    /// The number of the first function followed by the second, from a table.
    pub fn join(&self, a: u16, b: u16) -> u16
        requires first { a < length self.now.functions }
        requires second { b < length self.now.functions }
        ensures function { slice_get self.now.functions result ≡ Some (compose (function_of self.now a) (function_of self.now b)) }
        ensures value { result ≡ number_of self.now (compose (function_of self.now a) (function_of self.now b)) }
        ensures within { result < length self.now.functions }
    {
        self.joins[b as usize * self.functions.len() + a as usize]
    }

    /// The state to which the function with a number leads from a state.
    pub fn apply(&self, code: u16, state: u32) -> u32
        requires code { code < length self.now.functions }
        requires state { state < self.now.automaton.states }
        ensures value { result ≡ slice_index (function_of self.now code) state }
        ensures within { result < self.now.automaton.states }
    {
        self.functions.as_slice()[code as usize].apply(state)
    }
}

impl WordMonoid for Compositions {
    type Item = u16;

    ghost use Rattle.std.specs.Prelude.{◌≡◌};
    ghost use Rattle.state_monoid.specs.Numbering.{composition};
    ghost use Rattle.state_monoid.specs.Lawful.{composition_is_monoid};

    ghost ops = { composition };

    fn unit(&self) -> u16 {
        // Whoever reads the functions has their invariant.
        let _ = &self.functions;
        0
    }

    fn join(&self, a: u16, b: u16) -> u16 {
        Compositions::join(self, a, b)
    }

    fn word(&self, x: u16) -> u64 {
        x as u64
    }

    fn of_word(&self, word: u64) -> u16 {
        word as u16
    }

    fn is_item(&self, x: u16) -> bool {
        (x as usize) < self.functions.len()
    }

    ghost lawful = { composition_is_monoid };
}
