//! The program `pareas`: the real words, input and outputs round the compiler.
#![tactic(auto)]

ghost use Rattle.std.specs.Prelude.{◌≡◌, ◌⊎◌};
ghost use Rattle.std.specs.Io.KnownBytes.{Appends};
ghost use Rattle.pareas_core.specs.declared.status.Status.TheVariants.{Usage, WriteFault};

use chunk_seats::OpenGate;
use pareas_core::{Status, pareas};
use std::io::Write;
use std::process::ExitCode;
use stream_ends::{Reader, WordsFault, Writer, words};

/// What is written to the notes where a word isn't UTF-8.
const NOT_UTF8: &[u8] =
    b"error: a word of the command line isn't UTF-8\n\nFor more information, try '--help'.\n";

/// Refuses words of which one isn't UTF-8.
fn refuse_not_utf8<W: Write>(notes: &mut W) -> Status
    ensures status { (result ≡ Usage) ⊎ (result ≡ WriteFault) }
    ensures written { result ≡ Usage → Appends (W.contents notes.old) (W.contents notes.new) NOT_UTF8.now }
{
    match notes.write_all(NOT_UTF8) {
        Ok(()) => Status::Usage,
        Err(_) => Status::WriteFault,
    }
}

fn main(rt: HostRuntime) -> ExitCode {
    let words = match words(&rt, rt.alloc()) {
        Ok(words) => words,
        Err(WordsFault::NotUtf8) => {
            return ExitCode::from(refuse_not_utf8(&mut rt.stderr()).number());
        }
        Err(WordsFault::NoMemory) => return ExitCode::from(Status::NoMemory.number()),
    };
    let mut input = Reader::new(rt.stdin());
    let mut out = Writer::new(rt.stdout());
    let mut notes = Writer::new(rt.stderr());
    let status = pareas(
        &rt,
        rt.alloc(),
        &words,
        &mut input,
        &mut out,
        &mut notes,
        &OpenGate,
    );
    ExitCode::from(status.number())
}
