//! Classes of bytes.
ghost use Rattle.std.specs.Prelude.{◌≡◌, IfOk};
ghost use Rattle.state_monoid.specs.Letters.{AreLetters};

use crate::dfa::Dfa;
use crate::states::States;
use indexmap::IndexSet;
use std::alloc::{AllocError, Global};

/// The functions that single bytes make, each once, and for each byte which one it makes: bytes with equal columns of the table are
/// one letter.
#[derive(Drop)]
pub(crate) struct Letters {
    pub(crate) dfa: Dfa,
    pub(crate) functions: IndexSet<States>,
    pub(crate) of_byte: Vec<u16>,
}

impl Letters {
    /// The letters of an automaton.
    pub(crate) fn new(alloc: Global, dfa: &Dfa) -> Result<Letters, AllocError>
        ensures automaton { IfOk result (λ l. l.dfa ≡ dfa.now) }
        ensures letters { IfOk result (λ l. AreLetters l.dfa 256 l.functions.keys l.of_byte.items) }
    {
        let dfa = dfa.copy(alloc)?;
        let mut functions = IndexSet::new(alloc);
        let mut of_byte = Vec::with_capacity(alloc, 256)?;
        for byte in 0..256usize {
            let (letter, _) = functions.insert_full(dfa.of_bytes(&[byte as u8]))?;
            of_byte.push(letter as u16)?;
        }
        Ok(Letters {
            dfa,
            functions,
            of_byte,
        })
    }
}
