//! Automata.
ghost use Rattle.std.specs.Prelude.{◌≡◌, ◌<◌, ◌↔◌, IsTrue, IfOk};
ghost use Rattle.state_monoid.specs.Automaton.{IsAutomaton, step};
ghost use Rattle.state_monoid.specs.Image.{image};

use crate::states::States;
use std::alloc::{AllocError, Global};
use std::marker::Model;

/// A deterministic automaton over the bytes, of 1 to 64 states. Contracts see its transition function.
#[derive(Drop)]
pub struct Dfa {
    states: u32,
    table: Vec<u8>,
}

impl Model for Dfa {
    ghost use Rattle.state_monoid.specs.Automaton.{Automaton, IsAutomaton};

    ghost Value = { Automaton };

    ghost view = { λ d. record { states = d.states; table = d.table.items } };

    ghost invariant = { λ d. IsAutomaton (record { states = d.states; table = d.table.items }) };
}

impl Dfa {
    /// Whether a table is that of an automaton with this many states.
    pub fn is_table(states: u32, table: &[u8]) -> bool
        ensures { IsTrue result ↔ IsAutomaton (record { states = states; table = table.now }) }
    {
        (1..=64).contains(&states)
            && table.len() == 256 * states as usize
            && table.iter().all(|next| (*next as u32) < states)
    }

    /// The automaton with this many states, whose table has at `256 * state + byte` the state that follows.
    pub fn new(states: u32, table: Vec<u8>) -> Dfa
        requires { IsAutomaton (record { states = states; table = table.items }) }
        ensures { result ≡ record { states = states; table = table.items } }
    {
        Dfa { states, table }
    }

    /// The number of states, from 1 to 64.
    pub fn states(&self) -> u32
        ensures value { result ≡ self.now.states }
        ensures automaton { IsAutomaton self.now }
    {
        self.states
    }

    /// The state that follows a state at a byte.
    pub fn next(&self, state: u32, byte: u8) -> u32
        requires { state < self.now.states }
        ensures value { result ≡ step self.now state byte }
        ensures within { result < self.now.states }
    {
        self.table[256 * state as usize + byte as usize] as u32
    }

    // The same for a state that a byte holds.
    pub(crate) fn after(&self, state: u8, byte: u8) -> u8
        requires { state < self.now.states }
        ensures value { result ≡ step self.now state byte }
        ensures within { result < self.now.states }
    {
        self.table[256 * state as usize + byte as usize]
    }

    // The same automaton once more.
    pub(crate) fn copy(&self, alloc: Global) -> Result<Dfa, AllocError>
        ensures same { IfOk result (λ d. d ≡ self.now) }
        ensures automaton { IsAutomaton self.now }
    {
        let table = Vec::from_slice(alloc, &self.table)?;
        Ok(Dfa {
            states: self.states,
            table,
        })
    }

    /// For each state the one in which a word ends. It takes no memory.
    pub fn of_bytes(&self, bytes: &[u8]) -> States
        ensures { result ≡ image self.now bytes.now }
    {
        let mut image = States::identity(self);
        for byte in bytes {
            image.follow(self, *byte);
        }
        image
    }
}
