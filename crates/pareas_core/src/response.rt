// What the program answers to a command and the bytes that it read.

ghost use Rattle.std.specs.Prelude.{◌≡◌, ◌++◌, IfOk, OnErr, OnOk, codes};
ghost use Rattle.std.specs.Io.KnownBytes.{Appends};
ghost use Rattle.command_line.specs.declared.command.Command.TheVariants.{Build, Run};
ghost use Rattle.pareas_core.specs.declared.status.Status.TheVariants.{Limit, Refused};
ghost use Rattle.pareas_core.specs.Causes.{Rose};
ghost use Rattle.pareas_core.specs.Output.{at_place, noted};
ghost use Rattle.pareas_core.specs.Reading.{WritesPrefix};
ghost use Rattle.pareas_core.specs.Responses.{IsDelivered, IsResponse, IsToldOf, output_bytes};

use crate::batch::batch;
use crate::compiler::compile;
use crate::drill::drill;
use crate::ends::{ByteOut, Failed};
use crate::explain::explain;
use crate::listing::{asm, dump};
use crate::machine::emulate;
use crate::position::{error_line, limit_line};
use crate::show::{page, show};
use crate::status::Status;
use crate::table::table;
use crate::writing::{write_all, write_answers};
use batch_records::Answer;
use chunk_seats::Gate;
use command_line::Command;
use front_end::Refusal;
use par_passes::{Passes, Workers};
use std::alloc::{AllocError, Global};
use std::marker::{Model, Sync};
use std::thread::Threads;
use verdict::one_verdict;

/// The bytes for the output.
#[derive(Drop)]
pub(crate) enum Output {
    Bytes(Vec<u8>),
    /// The answers to the sources of a batch, in order. They are written one by one, so no list has the bytes of all.
    Answers(Vec<Answer>),
}

/// The status, and the bytes for the output and for the notes.
#[derive(Drop)]
pub(crate) struct Response {
    pub(crate) status: Status,
    pub(crate) out: Output,
    pub(crate) notes: Vec<u8>,
}

impl Model for Response {
    ghost use Rattle.pareas_core.specs.Output.{Due};
    ghost use Rattle.pareas_core.specs.Responses.{output_bytes};

    ghost Value = { Due };

    ghost view = { λ r. record { status = r.status; out = output_bytes r.out; notes = r.notes.items } };
}

// The line of a source's diagnostic.
fn diagnostic(alloc: Global, source: &[u8], code: u16, at: u32) -> Result<Response, AllocError>
    ensures { IfOk result (λ response. response ≡ noted Refused (codes "error " ++ at_place source.now code at)) }
{
    Ok(Response {
        status: Status::Refused,
        out: Output::Bytes(Vec::new(alloc)),
        notes: error_line(alloc, source, code, at)?,
    })
}

// The line of a limit that a source passes.
fn limit(alloc: Global, source: &[u8], code: u16, at: u32) -> Result<Response, AllocError>
    ensures { IfOk result (λ response. response ≡ noted Limit (codes "limit " ++ at_place source.now code at)) }
{
    Ok(Response {
        status: Status::Limit,
        out: Output::Bytes(Vec::new(alloc)),
        notes: limit_line(alloc, source, code, at)?,
    })
}

/// The line of a source that has no image.
pub(crate) fn refused(
    alloc: Global,
    source: &[u8],
    refusal: Refusal,
) -> Result<Response, AllocError>
    ensures { IfOk result (λ response. IsToldOf source.now refusal response) }
{
    match refusal {
        Refusal::Diagnostic { code, at } => diagnostic(alloc, source, code, at),
        Refusal::Limit { code, at, .. } => limit(alloc, source, code, at),
        Refusal::NoMemory => Err(AllocError),
    }
}

// The image of the source.
fn build(crew: &impl Passes, source: &[u8], fold: bool) -> Result<Response, AllocError>
    ensures { IfOk result (λ response. IsResponse (Build fold) source.now response) }
{
    one_verdict();
    match compile(crew, source, fold) {
        Ok(file) => Ok(Response {
            status: Status::Done,
            out: Output::Bytes(file),
            notes: Vec::new(crew.alloc()),
        }),
        Err(refusal) => refused(crew.alloc(), source, refusal),
    }
}

// How the image of the source runs.
fn run(crew: &impl Passes, source: &[u8], steps: u32, fold: bool) -> Result<Response, AllocError>
    ensures { IfOk result (λ response. IsResponse (Run steps fold) source.now response) }
{
    one_verdict();
    match compile(crew, source, fold) {
        Ok(file) => emulate(crew.alloc(), Vec::new(crew.alloc()), &file, steps),
        Err(refusal) => refused(crew.alloc(), source, refusal),
    }
}

/// The answer to a command for the bytes that it read.
#[inline(never)]
pub(crate) fn respond<R: Threads + Sync, G: Gate>(
    crew: &Workers<'_, R, G>,
    command: &Command,
    bytes: &[u8],
) -> Result<Response, AllocError>
    ensures { IfOk result (λ response. IsResponse command.now bytes.now response) }
{
    match command {
        Command::Build { fold } => build(crew, bytes, *fold),
        Command::Run { steps, fold } => run(crew, bytes, *steps, *fold),
        Command::Show { pass } => show(crew, bytes, *pass),
        Command::Page => page(crew, bytes),
        Command::Batch => batch(crew, bytes),
        Command::Emu { steps } => emulate(crew.alloc, Vec::new(crew.alloc), bytes, *steps),
        Command::Dump => dump(crew.alloc, bytes),
        Command::Asm => asm(crew.alloc, bytes),
        Command::Table { word, entries } => table(crew, bytes, word, *entries),
        Command::Drill { seed, functions } => drill(crew, *seed, *functions),
        Command::Explain { code } => explain(crew.alloc, *code),
    }
}

// Writes all bytes of an output.
fn write_output<O: ByteOut>(out: &mut O, output: &Output) -> Result<(), Failed>
    ensures written { OnOk result (Appends (O.written out.old) (O.written out.new) (output_bytes output.now)) }
    ensures worked { OnOk result (O.faults out.new ≡ O.faults out.old) }
    ensures prefix { OnErr result (WritesPrefix (O.written out.old) (O.written out.new) (output_bytes output.now)) }
    ensures failed { OnErr result (Rose (O.faults out.old) (O.faults out.new)) }
{
    match output {
        Output::Bytes(bytes) => write_all(out, bytes),
        Output::Answers(answers) => write_answers(out, answers),
    }
}

/// Writes the response: first the output, then the notes.
pub(crate) fn deliver<O: ByteOut, E: ByteOut>(
    response: &Response,
    out: &mut O,
    notes: &mut E,
) -> Status
    ensures { IsDelivered response.now
        (record { before = O.written out.old; after = O.written out.new; faults_before = O.faults out.old; faults_after = O.faults out.new })
        (record { before = E.written notes.old; after = E.written notes.new; faults_before = E.faults notes.old; faults_after = E.faults notes.new })
        result }
{
    let Ok(()) = write_output(out, &response.out) else {
        return Status::WriteFault;
    };
    let Ok(()) = write_all(notes, &response.notes) else {
        return Status::WriteFault;
    };
    response.status
}
