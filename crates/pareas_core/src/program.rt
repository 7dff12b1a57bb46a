// The program: from its words and its input to its outputs and its status.

ghost use Rattle.std.specs.Prelude.{◌≡◌, true, false, Err, IfOk, map, string_bytes};
ghost use Rattle.command_line.specs.Words.{command_of};
ghost use Rattle.pareas_core.specs.Headline.{MeetsWords, most_bytes, reads};
ghost use Rattle.pareas_core.specs.Responses.{HasRead};
ghost use Rattle.pareas_core.specs.Causes.{Rose};

use crate::ends::{ByteIn, ByteOut};
use crate::reading::{ReadError, read_up_to};
use crate::response::{deliver, respond};
use crate::sharing::plan_for;
use crate::status::Status;
use crate::writing::write_all;
use batch_records::MOST_BYTES as MOST_BATCH;
use chunk_seats::Gate;
use command_line::{Command, Refusal, Request, read};
use limits::MOST_SOURCE;
use par_passes::Workers;
use simulation::source_behaves;
use std::alloc::Global;
use std::thread::Threads;

/// The most bytes of an image.
const MOST_IMAGE: usize = 67_108_864;

/// The most bytes of a listing.
const MOST_LISTING: usize = 134_217_728;

/// The most bytes of a grammar file.
const MOST_GRAMMAR: usize = 65_536;

// The most bytes that a command takes.
fn limit_of(command: &Command) -> usize
    ensures { result ≡ most_bytes command.now }
{
    match command {
        Command::Build { .. } | Command::Run { .. } | Command::Show { .. } | Command::Page => {
            MOST_SOURCE
        }
        Command::Batch => MOST_BATCH,
        Command::Emu { .. } | Command::Dump => MOST_IMAGE,
        Command::Asm => MOST_LISTING,
        Command::Table { .. } => MOST_GRAMMAR,
        Command::Drill { .. } | Command::Explain { .. } => 0,
    }
}

// Whether a command reads the input.
fn reads(command: &Command) -> bool
    ensures { result ≡ reads command.now }
{
    !matches!(command, Command::Drill { .. } | Command::Explain { .. })
}

// What the command reads of the input.
fn read_for<I: ByteIn>(
    alloc: Global,
    input: &mut I,
    command: &Command,
) -> Result<Vec<u8>, ReadError>
    ensures ok { IfOk result (λ bytes. HasRead command.now (I.left input.old) (I.left input.new) bytes.items) }
    ensures worked { IfOk result (λ _. I.faults input.new ≡ I.faults input.old) }
    ensures failed { result ≡ Err ReadError.Failed → Rose (I.faults input.old) (I.faults input.new) × (reads command.now ≡ true) }
    ensures no_memory { result ≡ Err ReadError.NoMemory → I.faults input.new ≡ I.faults input.old }
    ensures undisturbed { reads command.now ≡ false → (I.left input.new ≡ I.left input.old) × (I.faults input.new ≡ I.faults input.old) }
{
    if reads(command) {
        read_up_to(alloc, input, limit_of(command))
    } else {
        Ok(Vec::new(alloc))
    }
}

/// Does what the words ask for: reads the input, works, and writes to the output, or a line to the notes.
/// The answer doesn't depend on workers, chunks, the gate or the order in which threads run.
pub fn pareas<R: Threads + Sync, I: ByteIn, O: ByteOut, E: ByteOut, G: Gate>(
    rt: &R,
    alloc: Global,
    words: &[String],
    input: &mut I,
    out: &mut O,
    notes: &mut E,
    gate: &G,
) -> Status
    ensures { MeetsWords (command_of (map string_bytes words.now))
        (record { before = I.left input.old; after = I.left input.new; faults_before = I.faults input.old; faults_after = I.faults input.new })
        (record { before = O.written out.old; after = O.written out.new; faults_before = O.faults out.old; faults_after = O.faults out.new })
        (record { before = E.written notes.old; after = E.written notes.new; faults_before = E.faults notes.old; faults_after = E.faults notes.new })
        result }
{
    source_behaves();
    let Request { command, plan } = match read(alloc, words) {
        Ok(request) => request,
        Err(Refusal::Usage(text)) => {
            return match write_all(notes, text.as_bytes()) {
                Ok(()) => Status::Usage,
                Err(_) => Status::WriteFault,
            };
        }
        Err(Refusal::NoMemory) => return Status::NoMemory,
    };
    let bytes = match read_for(alloc, input, &command) {
        Ok(bytes) => bytes,
        Err(ReadError::Failed) => return Status::ReadFault,
        Err(ReadError::NoMemory) => return Status::NoMemory,
    };
    let crew = Workers {
        runtime: rt,
        alloc,
        plan: plan_for(plan, &command, bytes.len()),
        gate,
    };
    let Ok(response) = respond(&crew, &command, &bytes) else {
        return Status::NoMemory;
    };
    deliver(&response, out, notes)
}
