//! Functions from states to states.
ghost use Rattle.std.specs.Prelude.{◌≡◌, ◌<◌, [], ◌∷◌, length, map, All, nat_eq, slice_index};
ghost use Rattle.std.specs.Cmp.{partial_equiv_from_equiv};
ghost use Rattle.std.specs.Cmp.Lexicographic.{pointwise, nat_list_eq_equiv};
ghost use Rattle.std.specs.Cmp.Rules.{hashing};
ghost use Rattle.std.proofs.Common.{rules};
ghost use Rattle.std.specs.List.{range_with_len};
ghost use Rattle.state_monoid.specs.Automaton.{step};
ghost use Rattle.state_monoid.specs.Image.{IsFunction, compose, image};

use crate::dfa::Dfa;
use std::hash::{Hash, Hasher};
use std::marker::Model;

/// The most states that an automaton may have.
pub const MOST_STATES: usize = 64;

/// For each state of an automaton the state in which a word ends that begins there. Contracts see the list of these. It lies in
/// one array of 64 bytes, and no call takes memory.
#[derive(Drop)]
pub struct States {
    ends: [u8; MOST_STATES],
    states: usize,
}

impl Model for States {
    ghost use Rattle.std.specs.Prelude.{List, ℕ, ◌≤◌, ◌<◌, take, length};
    ghost use Rattle.state_monoid.specs.Image.{IsFunction};

    ghost Value = { List ℕ };

    ghost view = { λ f. take f.states f.ends };

    ghost invariant = { λ f. (f.states ≤ 64) × IsFunction (take f.states f.ends) };
}

impl States {
    /// Where the empty word ends: each state leads to itself.
    pub fn identity(dfa: &Dfa) -> States
        ensures word { result ≡ image dfa.now [] }
        ensures value { result ≡ range_with_len 0 dfa.now.states }
    {
        let states = dfa.states() as usize;
        let mut ends = [0; MOST_STATES];
        for state in 0..states {
            ends[state] = state as u8;
        }
        States { ends, states }
    }

    /// The number of states.
    pub fn count(&self) -> u32
        ensures value { result ≡ length self.now }
        ensures function { IsFunction self.now }
    {
        self.states as u32
    }

    /// This function, and then another of the same automaton.
    pub fn then(&self, next: &States) -> States
        requires { length self.now ≡ length next.now }
        ensures { result ≡ compose self.now next.now }
    {
        let mut ends = [0; MOST_STATES];
        for state in 0..self.states {
            ends[state] = next.ends[self.ends[state] as usize];
        }
        States {
            ends,
            states: self.states,
        }
    }

    // The same word with one byte more.
    pub(crate) fn follow(&mut self, dfa: &Dfa, byte: u8)
        requires { length self.old ≡ dfa.now.states }
        ensures { self.new ≡ map (λ s. step dfa.now s byte) self.old }
    {
        advance(&mut self.ends[..self.states], dfa, byte);
    }

    /// The state in which the word ends from a state.
    pub fn apply(&self, state: u32) -> u32
        requires { state < length self.now }
        ensures value { result ≡ slice_index self.now state }
        ensures within { result < length self.now }
    {
        self.ends[state as usize] as u32
    }
}

// Each state is replaced by the one that follows it.
fn advance(ends: &mut [u8], dfa: &Dfa, byte: u8)
    requires { All (λ s. s < dfa.now.states) ends.old }
    ensures value { ends.new ≡ map (λ s. step dfa.now s byte) ends.old }
    ensures below { All (λ s. s < dfa.now.states) ends.new }
{
    for end in ends.iter_mut() {
        *end = dfa.after(*end, byte);
    }
}

impl PartialEq for States {
    ghost eq = { pointwise nat_eq };

    ghost laws = { partial_equiv_from_equiv nat_list_eq_equiv };

    fn eq(&self, other: &Self) -> bool {
        self.ends[..self.states] == other.ends[..other.states]
    }
}

impl Eq for States {
    ghost laws = { nat_list_eq_equiv };
}

impl Hash for States {
    ghost hash_input = { λ f. f ∷ [] };

    ghost respects_eq = { Prim.search (hashing, rules) };

    fn hash<H: Hasher>(&self, state: &mut H) {
        state.write(&self.ends[..self.states]);
    }
}
