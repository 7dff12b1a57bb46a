//! Why the functions of an automaton have no numbers.
ghost use Rattle.std.specs.Prelude.{◌≡◌};
ghost use Rattle.state_monoid.specs.declared.fault.BuildFault.TheVariants.{NoMemory};

use std::alloc::{AllocError, AllocFailed};

/// Why the functions of an automaton have no numbers.
#[derive(Debug, Clone, Copy, PartialEq, Eq)]
pub enum BuildFault {
    /// There are more than 4,096 functions. This many had been reached: 4,097.
    TooMany { reached: u32 },
    /// Out of memory.
    NoMemory,
}

impl From<AllocError> for BuildFault {
    ghost from_gives = { λ _ fault. fault ≡ NoMemory };

    fn from(_: AllocError) -> BuildFault {
        BuildFault::NoMemory
    }
}

impl<T: Drop> From<AllocFailed<T>> for BuildFault {
    ghost from_gives = { λ _ fault. fault ≡ NoMemory };

    fn from(_: AllocFailed<T>) -> BuildFault {
        BuildFault::NoMemory
    }
}
