// Reads the input to its end, or to one byte past a limit.

ghost use Rattle.std.specs.Prelude.{◌≡◌, ◌+◌, ◌<◌, ◌≤◌, ◌^◌, Err, IfOk};
ghost use Rattle.pareas_core.specs.Causes.{Rose};
ghost use Rattle.pareas_core.specs.Reading.{ReadsPiece, ReadsUpTo};

use crate::ends::{ByteIn, Failed};
use std::alloc::{AllocError, Global};

/// The most bytes of one read.
const PIECE: usize = 4096;

/// Why the input wasn't read.
#[derive(Clone, Copy, PartialEq, Eq, Debug)]
pub(crate) enum ReadError {
    Failed,
    NoMemory,
}

impl From<Failed> for ReadError {
    ghost use Rattle.pareas_core.specs.declared.reading.ReadError.TheVariants as errors;

    ghost from_gives = { λ _ e. e ≡ errors.Failed };

    fn from(_: Failed) -> Self {
        ReadError::Failed
    }
}

impl From<AllocError> for ReadError {
    ghost use Rattle.pareas_core.specs.declared.reading.ReadError.TheVariants as errors;

    ghost from_gives = { λ _ e. e ≡ errors.NoMemory };

    fn from(_: AllocError) -> Self {
        ReadError::NoMemory
    }
}

// Reads a piece behind the bytes, and says how long it is.
fn read_piece<I: ByteIn>(
    input: &mut I,
    bytes: &mut Vec<u8>,
    most: usize,
) -> Result<usize, ReadError>
    requires { 0 < most }
    ensures ok { IfOk result (λ count. ReadsPiece (I.left input.old) (I.left input.new) bytes.old.items bytes.new.items most count) }
    ensures worked { IfOk result (λ _. I.faults input.new ≡ I.faults input.old) }
    ensures failed { result ≡ Err ReadError.Failed → Rose (I.faults input.old) (I.faults input.new) }
    ensures no_memory { result ≡ Err ReadError.NoMemory → I.faults input.new ≡ I.faults input.old }
{
    let mut buffer = [0; PIECE];
    let room = most.min(PIECE);
    let count = input.read(&mut buffer[..room])?;
    bytes.extend_from_slice(&buffer[..count])?;
    Ok(count)
}

/// The bytes of the input, up to one past the limit.
pub(crate) fn read_up_to<I: ByteIn>(
    alloc: Global,
    input: &mut I,
    limit: usize,
) -> Result<Vec<u8>, ReadError>
    requires { limit < 2 ^ 32 }
    ensures ok { IfOk result (λ bytes. ReadsUpTo (limit + 1) (I.left input.old) (I.left input.new) bytes.items) }
    ensures worked { IfOk result (λ _. I.faults input.new ≡ I.faults input.old) }
    ensures failed { result ≡ Err ReadError.Failed → Rose (I.faults input.old) (I.faults input.new) }
    ensures no_memory { result ≡ Err ReadError.NoMemory → I.faults input.new ≡ I.faults input.old }
{
    let mut bytes = Vec::new(alloc);
    while bytes.len() <= limit {
        let room = limit + 1 - bytes.len();
        if read_piece(input, &mut bytes, room)? == 0 {
            break;
        }
    }
    Ok(bytes)
}
