// Why a text isn't assembled.

use std::alloc::{AllocError, AllocFailed};
use std::error::Error;
use std::fmt;

/// The first fault of an assembly text, or that memory ran out.
#[derive(Clone, Copy, PartialEq, Eq, Debug)]
pub enum AsmFault {
    /// The text has more than 134,217,728 bytes.
    TooLarge,
    /// The line with this number, from 1 on, is neither blank nor an instruction nor a `.word`.
    Line(u32),
    /// All lines are blank.
    Empty,
    /// There are more than 4,194,304 words.
    TooMany,
    /// Memory ran out.
    NoMemory,
}

/// The line that is printed of the fault, without its line feed.
impl fmt::Display for AsmFault {
    ghost use Rattle.std.specs.Prelude.{Some};
    ghost use Rattle.rv_text.specs.FaultLines.{line_of_fault};

    ghost output = { λ fault. Some (line_of_fault fault) };

    fn fmt<W: fmt::Write>(&self, f: &mut fmt::Formatter<W>) -> fmt::Result {
        match self {
            AsmFault::TooLarge => write!(f, "asm too large"),
            AsmFault::Line(number) => write!(f, "asm line {number}"),
            AsmFault::Empty => write!(f, "asm empty"),
            AsmFault::TooMany => write!(f, "asm too long"),
            AsmFault::NoMemory => write!(f, "out of memory"),
        }
    }
}

impl Error for AsmFault {}

impl From<AllocError> for AsmFault {
    ghost use Rattle.std.specs.Prelude.{◌≡◌};
    ghost use Rattle.rv_text.specs.declared.fault.AsmFault.TheVariants.{NoMemory};

    ghost from_gives = { λ _ e. e ≡ NoMemory };

    fn from(_: AllocError) -> Self {
        AsmFault::NoMemory
    }
}

impl<T: Drop> From<AllocFailed<T>> for AsmFault {
    ghost use Rattle.std.specs.Prelude.{◌≡◌};
    ghost use Rattle.rv_text.specs.declared.fault.AsmFault.TheVariants.{NoMemory};

    ghost from_gives = { λ _ e. e ≡ NoMemory };

    fn from(_: AllocFailed<T>) -> Self {
        AsmFault::NoMemory
    }
}
