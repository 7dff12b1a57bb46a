//! Why a source isn't compiled.

use std::alloc::{AllocError, AllocFailed};
use thiserror::Error;

/// Why a source isn't compiled.
#[derive(Clone, Copy, PartialEq, Eq, Debug, Error)]
pub enum Refusal {
    /// The source's first diagnostic.
    #[error("error {code} at byte {at}")]
    Diagnostic {
        /// The diagnostic's number: 101 to 507.
        code: u16,
        /// The place of a byte of the source, from 0 on; its length stands for the end.
        at: u32,
    },
    /// The source passes a limit of the language.
    #[error("limit {code} at byte {at}")]
    Limit {
        /// The limit's number: 601, the source's bytes; 602, a frame's; 603, those of the code.
        code: u16,
        /// The place of a byte of the source.
        at: u32,
        /// The bytes that were counted.
        bytes: u64,
    },
    /// Out of memory.
    #[error("out of memory")]
    NoMemory,
}

impl From<AllocError> for Refusal {
    ghost use Rattle.std.specs.Prelude.{◌≡◌};
    ghost use Rattle.front_end.specs.declared.refusal.Refusal.TheVariants.{NoMemory};

    ghost from_gives = { λ _ e. e ≡ NoMemory };

    fn from(_: AllocError) -> Self {
        Refusal::NoMemory
    }
}

impl<T: Drop> From<AllocFailed<T>> for Refusal {
    ghost use Rattle.std.specs.Prelude.{◌≡◌};
    ghost use Rattle.front_end.specs.declared.refusal.Refusal.TheVariants.{NoMemory};

    ghost from_gives = { λ _ e. e ≡ NoMemory };

    fn from(_: AllocFailed<T>) -> Self {
        Refusal::NoMemory
    }
}
