//! The functions of the automaton, by their numbers, and which of them are constant.
ghost use Rattle.std.specs.Prelude.{◌≡◌, ◌<◌, ◌≤◌, true, false, length, take, slice_index_or, IfOk};
ghost use Rattle.par_lexer.specs.Known.{AreConstants, AreFunctions, IsConstant, number_of_bytes};
ghost use Rattle.par_lexer.specs.Table.{lexer};

use crate::states::STATES;
use state_monoid::{BuildFault, Compositions, Dfa};
use std::alloc::{AllocError, Global};
use word_monoid::WordMonoid;

// The functions, and for each number whether its function is constant: whether it leads to the same state from each.
#[derive(Drop)]
pub(crate) struct Functions {
    pub(crate) compositions: Compositions,
    pub(crate) constant: Vec<bool>,
}

// Whether a function leads to the same state from each.
fn is_constant(compositions: &Compositions, number: u16) -> bool
    requires automaton { compositions.now.automaton ≡ lexer }
    requires number { number < length compositions.now.functions }
    ensures { result ≡ true → IsConstant compositions.now number }
{
    let first = compositions.apply(number, 0);
    for state in 1..STATES {
        if compositions.apply(number, state) != first {
            return false;
        }
    }
    true
}

// The same of each.
fn constants(alloc: Global, compositions: &Compositions) -> Result<Vec<bool>, AllocError>
    requires automaton { compositions.now.automaton ≡ lexer }
    ensures { IfOk result (λ v. AreConstants compositions.now v.items) }
{
    let count = compositions.count();
    let mut constant = Vec::with_capacity(alloc, count as usize)?;
    for number in 0..count {
        constant.push(is_constant(compositions, number as u16))?;
    }
    Ok(constant)
}

impl Functions {
    // The functions of the lexer's automaton.
    pub(crate) fn new(alloc: Global, dfa: &Dfa) -> Result<Functions, BuildFault>
        requires automaton { dfa.now ≡ lexer }
        ensures { IfOk result AreFunctions }
    {
        let compositions = Compositions::build(alloc, dfa)?;
        let constant = constants(alloc, &compositions)?;
        Ok(Functions {
            compositions,
            constant,
        })
    }

    // Whether the function with a number is known to be constant.
    pub(crate) fn is_marked(&self, number: u16) -> bool
        requires number { number < length self.now.constant.items }
        ensures { result ≡ slice_index_or self.now.constant.items number false }
    {
        self.constant[number as usize]
    }

    // How many of the bytes make a constant function, and its number: as few as do, or all where none do.
    pub(crate) fn until_constant(&self, bytes: &[u8]) -> (usize, u16)
        requires functions { AreFunctions self.now }
        ensures count { result.0 ≤ length bytes.now }
        ensures number { result.1 ≡ number_of_bytes self.now.compositions (take result.0 bytes.now) }
        ensures below { result.1 < length self.now.constant.items }
        ensures all { slice_index_or self.now.constant.items result.1 false ≡ false → result.0 ≡ length bytes.now }
    {
        let mut number = self.compositions.unit();
        for place in 0..bytes.len() {
            let next = self.compositions.of_byte(bytes[place]);
            number = self.compositions.join(number, next);
            if self.is_marked(number) {
                return (place + 1, number);
            }
        }
        (bytes.len(), number)
    }
}
