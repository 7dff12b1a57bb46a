//! Why a phase has no result.
ghost use Rattle.std.specs.Prelude.{◌≡◌};
ghost use Rattle.phase_faults.specs.declared.fault.PhaseFault.TheVariants.{NoMemory};

use std::alloc::{AllocError, AllocFailed};

/// Why a phase has no result. Which codes a phase has, and what its places count, is said at its own function.
#[derive(Clone, Copy, PartialEq, Eq, Debug)]
pub enum PhaseFault {
    /// The first fault that the phase finds in the source.
    Diagnostic {
        /// What is wrong: a code of the phase.
        code: u16,
        /// Where: the place of a byte, for the lexer, or the number of a token.
        at: u32,
    },
    /// Out of memory.
    NoMemory,
}

impl From<AllocError> for PhaseFault {
    ghost from_gives = { λ _ fault. fault ≡ NoMemory };

    fn from(_: AllocError) -> PhaseFault {
        PhaseFault::NoMemory
    }
}

impl<T: Drop> From<AllocFailed<T>> for PhaseFault {
    ghost from_gives = { λ _ fault. fault ≡ NoMemory };

    fn from(_: AllocFailed<T>) -> PhaseFault {
        PhaseFault::NoMemory
    }
}
