//! The system as the program sees it: its streams as the ends of the program, and the words of the command line. What an end says of its bytes is
//! what the stream says of them; its faults are counted.
#![tactic(auto)]

ghost use Rattle.std.specs.Prelude.{◌≡◌, ◌≢◌, IfErr};
ghost use Rattle.std.specs.Io.{ReadsAtMost, WritesAtMost};
ghost use Rattle.std.specs.Io.KnownBytes.{ReadConsumes, WriteAppends};
ghost use Rattle.std.specs.IoError.{error_kind};

mod arguments;

pub use arguments::{WordsFault, words};
use pareas_core::{ByteIn, ByteOut, Failed};
use std::io::{self, Error, ErrorKind, Read, Write};

// One read, made again as long as a signal interrupts it. An interruption is no fault.
fn read_uninterrupted<R: Read>(stream: &mut R, buf: &mut [u8]) -> io::Result<usize>
    ensures bound { ReadsAtMost result buf.new }
    ensures bytes { ReadConsumes (R.remaining stream.old) (R.remaining stream.new) result buf.new }
    ensures retried { IfErr result (λ e. error_kind e ≢ ErrorKind.Interrupted) }
{
    for _ in 0..u64::MAX {
        match stream.read(buf) {
            Err(error) if error.kind() == ErrorKind::Interrupted => {}
            answer => return answer,
        }
    }
    Err(Error::from(ErrorKind::TimedOut))
}

// One write, made again as long as a signal interrupts it. An interruption is no fault.
fn write_uninterrupted<W: Write>(stream: &mut W, buf: &[u8]) -> io::Result<usize>
    ensures bound { WritesAtMost result buf.now }
    ensures bytes { WriteAppends (W.contents stream.old) (W.contents stream.new) result buf.now }
    ensures retried { IfErr result (λ e. error_kind e ≢ ErrorKind.Interrupted) }
{
    for _ in 0..u64::MAX {
        match stream.write(buf) {
            Err(error) if error.kind() == ErrorKind::Interrupted => {}
            answer => return answer,
        }
    }
    Err(Error::from(ErrorKind::TimedOut))
}

/// A stream of the system as an input.
#[derive(Drop)]
pub struct Reader<R: Read> {
    stream: R,
    faults: u64,
}

impl<R: Read> Reader<R> {
    /// An input from the stream, without a fault so far.
    pub fn new(stream: R) -> Self
        ensures { result.faults ≡ 0 }
    {
        Reader { stream, faults: 0 }
    }
}

/// What is left is what the stream says is left. A read that a signal interrupts is made again, and is no fault.
impl<R: Read> ByteIn for Reader<R> {
    ghost left = { λ r. R.remaining r.stream };

    ghost faults = { λ r. r.faults };

    fn read(&mut self, buf: &mut [u8]) -> Result<usize, Failed> {
        match read_uninterrupted(&mut self.stream, buf) {
            Ok(count) => Ok(count),
            Err(_) => {
                self.faults = self.faults.saturating_add(1);
                Err(Failed)
            }
        }
    }
}

/// A stream of the system as an output. A write that takes nothing is a fault too.
#[derive(Drop)]
pub struct Writer<W: Write> {
    stream: W,
    faults: u64,
}

impl<W: Write> Writer<W> {
    /// An output to the stream, without a fault so far.
    pub fn new(stream: W) -> Self
        ensures { result.faults ≡ 0 }
    {
        Writer { stream, faults: 0 }
    }
}

/// What was written is what the stream says was written. A write that a signal interrupts is made again, and is no fault.
impl<W: Write> ByteOut for Writer<W> {
    ghost written = { λ w. W.contents w.stream };

    ghost faults = { λ w. w.faults };

    fn write(&mut self, buf: &[u8]) -> Result<usize, Failed> {
        match write_uninterrupted(&mut self.stream, buf) {
            Ok(count) if count > 0 || buf.is_empty() => Ok(count),
            _ => {
                self.faults = self.faults.saturating_add(1);
                Err(Failed)
            }
        }
    }
}
