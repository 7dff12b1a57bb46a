// A run of an image on the machine: the lines of the numbers that it prints, and the line that tells how it ended.

ghost use Rattle.std.specs.Prelude.{◌≡◌, ◌++◌, ℕ, List, IfOk, Err};
ghost use Rattle.pareas_core.specs.Output.{due_of_machine, exit_line, fault_line, kind_name, machine_line, number_line, number_lines, status_of};
ghost use Rattle.pareas_core.specs.Printing.{answer_lines};
ghost use Rattle.rv_isa.specs.Word.{word_of};
ghost use Rattle.rv32_emul.specs.Machine.{machine, numbers, outcome_of, run as runs};
ghost use Rattle.rv32_emul.specs.Told.{told};

use crate::response::{Output, Response};
use crate::status::Status;
use elf_file::{ElfFault, ReadError};
use rv_isa::FaultKind;
use rv32_emul::{Machine, Outcome, loaded_runs};
use std::alloc::{AllocError, Global};

fn name_of(kind: FaultKind) -> &'static str
    ensures { result.now ≡ kind_name kind }
{
    match kind {
        FaultKind::Fetch => "fetch",
        FaultKind::Load => "load",
        FaultKind::Store => "store",
        FaultKind::Misaligned => "misaligned",
        FaultKind::Unknown => "unknown",
        FaultKind::Call => "call",
    }
}

fn status(outcome: &Outcome) -> Status
    ensures { result ≡ status_of (told outcome.now) }
{
    match outcome {
        Outcome::Exit(_) => Status::Done,
        Outcome::Fault { .. } => Status::Machine,
        Outcome::Print { .. } | Outcome::More => Status::Running,
    }
}

fn exit_text(alloc: Global, value: i32) -> Result<String, AllocError>
    ensures { IfOk result (λ text. text.bytes.items ≡ exit_line (word_of value)) }
{
    format!(in alloc; "exit {value}\n")
}

fn fault_text(alloc: Global, kind: FaultKind, at: u32) -> Result<String, AllocError>
    ensures { IfOk result (λ text. text.bytes.items ≡ fault_line kind at) }
{
    let name = name_of(kind);
    format!(in alloc; "fault {name} at 0x{at:08x}\n")
}

// `exit V` with a signed number, `fault KIND at 0xPPPPPPPP` with the pc, or `running`.
fn line(alloc: Global, outcome: &Outcome) -> Result<Vec<u8>, AllocError>
    ensures { IfOk result (λ bytes. bytes.items ≡ machine_line (told outcome.now)) }
{
    match *outcome {
        Outcome::Exit(value) => Ok(exit_text(alloc, value)?.into_bytes()),
        Outcome::Fault { kind, at, .. } => Ok(fault_text(alloc, kind, at)?.into_bytes()),
        Outcome::Print { .. } | Outcome::More => b"running\n".to_vec(alloc),
    }
}

fn number_text(alloc: Global, value: i32) -> Result<String, AllocError>
    ensures { IfOk result (λ text. text.bytes.items ≡ number_line (word_of value)) }
{
    format!(in alloc; "{value}\n")
}

// The line of the number that a run answers with, if it has printed one.
fn answer_line(alloc: Global, outcome: &Outcome) -> Result<Vec<u8>, AllocError>
    ensures { IfOk result (λ bytes. bytes.items ≡ answer_lines outcome.now) }
{
    match *outcome {
        Outcome::Print { value, .. } => Ok(number_text(alloc, value)?.into_bytes()),
        _ => Ok(Vec::new(alloc)),
    }
}

// Runs a machine for at most this many steps, and puts a line behind `out` for each number that it prints. The answer is what it has come to then.
fn run_printing(
    alloc: Global,
    machine: &mut Machine,
    steps: u64,
    out: &mut Vec<u8>,
) -> Result<Outcome, AllocError>
    ensures outcome { IfOk result (λ outcome. told outcome ≡ outcome_of (runs steps machine.old)) }
    ensures lines { IfOk result (λ _. out.new.items ≡ out.old.items ++ number_lines (numbers steps machine.old)) }
{
    let mut outcome = machine.run(steps);
    while let Outcome::Print { left, .. } = outcome {
        out.extend_from_slice(&answer_line(alloc, &outcome)?)?;
        outcome = machine.run(left);
    }
    Ok(outcome)
}

/// The refusal of a file that isn't loaded.
pub(crate) fn not_loaded(alloc: Global, fault: ElfFault) -> Result<Response, AllocError>
    ensures { (before : List ℕ) → IfOk result (λ response. response ≡ due_of_machine before (Err fault)) }
{
    Ok(Response {
        status: Status::BadImage,
        out: Output::Bytes(Vec::new(alloc)),
        notes: format!(in alloc; "image {fault}\n")?.into_bytes(),
    })
}

/// Loads the file and runs it for at most `steps` steps. The lines `before` come first, then those of the numbers that the run prints, and then the
/// machine's line.
pub(crate) fn emulate(
    alloc: Global,
    before: Vec<u8>,
    file: &[u8],
    steps: u32,
) -> Result<Response, AllocError>
    ensures { IfOk result (λ response. response ≡ due_of_machine before.items (machine file.now steps)) }
{
    loaded_runs();
    let mut machine = match Machine::load(alloc, file) {
        Ok(machine) => machine,
        Err(ReadError::Fault(fault)) => return not_loaded(alloc, fault),
        Err(ReadError::NoMemory) => return Err(AllocError),
    };
    let mut out = before;
    let outcome = run_printing(alloc, &mut machine, u64::from(steps), &mut out)?;
    out.extend_from_slice(&line(alloc, &outcome)?)?;
    Ok(Response {
        status: status(&outcome),
        out: Output::Bytes(out),
        notes: Vec::new(alloc),
    })
}
