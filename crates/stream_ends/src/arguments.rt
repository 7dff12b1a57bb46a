// The words of the command line, from the system.

ghost use Rattle.std.specs.Prelude.{◌≡◌, ◌≢◌};
ghost use Rattle.std.specs.IoError.{error_kind};
ghost use Rattle.stream_ends.specs.declared.arguments.WordsFault.TheVariants.{NotUtf8, NoMemory};

use std::alloc::Global;
use std::env::{self, Env, FillError};
use std::io::{self, ErrorKind};

/// What stands for the program's own name.
const NAME: &[u8] = b"pareas";

/// Why the words of a command line aren't told.
#[derive(Clone, Copy, PartialEq, Eq, Debug)]
pub enum WordsFault {
    /// A word behind the program's name isn't UTF-8, and no command has such a word.
    NotUtf8,
    /// Memory ran out.
    NoMemory,
}

// The arguments with a fixed name for the program, whose own may be any bytes and is never read.
#[derive(Drop)]
struct Named<'a, E: Env> {
    given: &'a E,
}

impl<E: Env> Env for Named<'_, E> {
    fn arg(&self, i: usize, buf: &mut [u8]) -> Result<usize, FillError> {
        if i > 0 {
            return self.given.arg(i, buf);
        }
        if buf.len() < NAME.len() {
            return Err(FillError::TooLong);
        }
        buf[..NAME.len()].copy_from_slice(NAME);
        Ok(NAME.len())
    }

    fn var(&self, name: &str, buf: &mut [u8]) -> Result<usize, FillError> {
        self.given.var(name, buf)
    }

    fn var_at(&self, i: usize, buf: &mut [u8]) -> Result<usize, FillError> {
        self.given.var_at(i, buf)
    }
}

// What std's error says of the words: it has a kind of its own for a word that isn't UTF-8.
fn fault_of(error: &io::Error) -> WordsFault
    ensures not_utf8 { error_kind error.now ≡ ErrorKind.InvalidData → result ≡ NotUtf8 }
    ensures no_memory { error_kind error.now ≢ ErrorKind.InvalidData → result ≡ NoMemory }
{
    if error.kind() == ErrorKind::InvalidData {
        WordsFault::NotUtf8
    } else {
        WordsFault::NoMemory
    }
}

/// The words of the command line. The first one stands for the program's name, whatever that is.
pub fn words(given: &impl Env, alloc: Global) -> Result<Vec<String>, WordsFault> {
    match env::args(&(Named { given }, alloc)) {
        Ok(words) => words.collect(alloc).map_err(|_| WordsFault::NoMemory),
        Err(error) => Err(fault_of(&error)),
    }
}
