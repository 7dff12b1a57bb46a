// Why a batch isn't taken.

ghost use Rattle.std.specs.Prelude.{◌≡◌, Some};

use std::alloc::{AllocError, AllocFailed};
use std::error::Error;
use std::fmt;

/// The first fault of a batch.
#[derive(Clone, Copy, PartialEq, Eq, Debug)]
pub enum BatchFault {
    /// It has more than 67,108,864 bytes.
    TooLarge,
    /// The record with this number, from 0 on, isn't whole.
    Record(u32),
    /// It has more than 65,536 records.
    Count,
}

/// The line that is printed of the fault, without its line feed.
impl fmt::Display for BatchFault {
    ghost use Rattle.batch_records.specs.Batch.{fault_text};

    ghost output = { λ fault. Some (fault_text fault) };

    fn fmt<W: fmt::Write>(&self, f: &mut fmt::Formatter<W>) -> fmt::Result {
        match self {
            BatchFault::TooLarge => write!(f, "batch too large"),
            BatchFault::Record(number) => write!(f, "batch record {number}"),
            BatchFault::Count => write!(f, "batch count"),
        }
    }
}

impl Error for BatchFault {}

/// Why a batch was not read: its first fault, or out of memory.
#[derive(Clone, Copy, PartialEq, Eq, Debug)]
pub enum BatchError {
    Fault(BatchFault),
    NoMemory,
}

impl fmt::Display for BatchError {
    ghost use Rattle.batch_records.specs.Answering.{error_text};

    ghost output = { λ error. Some (error_text error) };

    fn fmt<W: fmt::Write>(&self, f: &mut fmt::Formatter<W>) -> fmt::Result {
        match self {
            BatchError::Fault(fault) => write!(f, "{fault}"),
            BatchError::NoMemory => write!(f, "out of memory"),
        }
    }
}

impl Error for BatchError {}

impl From<BatchFault> for BatchError {
    ghost use Rattle.batch_records.specs.declared.fault.BatchError.TheVariants.{Fault};

    ghost from_gives = { λ fault error. error ≡ Fault fault };

    fn from(fault: BatchFault) -> BatchError {
        BatchError::Fault(fault)
    }
}

impl From<AllocError> for BatchError {
    ghost use Rattle.batch_records.specs.declared.fault.BatchError.TheVariants.{NoMemory};

    ghost from_gives = { λ _ error. error ≡ NoMemory };

    fn from(_: AllocError) -> BatchError {
        BatchError::NoMemory
    }
}

impl<T: Drop> From<AllocFailed<T>> for BatchError {
    ghost use Rattle.batch_records.specs.declared.fault.BatchError.TheVariants.{NoMemory};

    ghost from_gives = { λ _ error. error ≡ NoMemory };

    fn from(_: AllocFailed<T>) -> BatchError {
        BatchError::NoMemory
    }
}
