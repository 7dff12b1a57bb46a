// The listing of an image, and the image of a listing.

ghost use Rattle.std.specs.Prelude.{◌≡◌, ◌≢◌, true, false, IfOk};
ghost use Rattle.command_line.specs.declared.command.Command.TheVariants.{Asm, Dump};
ghost use Rattle.rv_text.specs.FaultLines.{line_of_fault};
ghost use Rattle.rv_text.specs.declared.fault.AsmFault.TheVariants.{NoMemory};
ghost use Rattle.pareas_core.specs.declared.status.Status.TheVariants.{BadAsm};
ghost use Rattle.pareas_core.specs.Responses.{IsResponse};
ghost use Rattle.pareas_core.specs.Output.{done, noted};

use crate::machine::not_loaded;
use crate::response::{Output, Response};
use crate::status::Status;
use elf_file::ReadError;
use rv_text::AsmFault;
use std::alloc::{AllocError, Global};

/// A result that is written whole.
pub(crate) fn written(alloc: Global, out: Vec<u8>) -> Response
    ensures { result ≡ done out.items }
{
    Response {
        status: Status::Done,
        out: Output::Bytes(out),
        notes: Vec::new(alloc),
    }
}

/// The listing of the code of the file, or why the file isn't loaded.
pub(crate) fn dump(alloc: Global, file: &[u8]) -> Result<Response, AllocError>
    ensures { IfOk result (λ response. IsResponse Dump file.now response) }
{
    match elf_text::dump(alloc, file) {
        Ok(text) => Ok(written(alloc, text)),
        Err(ReadError::Fault(fault)) => not_loaded(alloc, fault),
        Err(ReadError::NoMemory) => Err(AllocError),
    }
}

fn ran_out(fault: &AsmFault) -> bool
    ensures yes { result ≡ true → fault.now ≡ NoMemory }
    ensures no_other { result ≡ false → fault.now ≢ NoMemory }
{
    matches!(fault, AsmFault::NoMemory)
}

// The refusal of a text that isn't assembled.
fn bad_asm(alloc: Global, fault: &AsmFault) -> Result<Response, AllocError>
    ensures { IfOk result (λ response. response ≡ noted BadAsm (line_of_fault fault.now)) }
{
    Ok(Response {
        status: Status::BadAsm,
        out: Output::Bytes(Vec::new(alloc)),
        notes: format!(in alloc; "{fault}\n")?.into_bytes(),
    })
}

/// The file of the words that the text's lines spell, or the text's first fault.
pub(crate) fn asm(alloc: Global, text: &[u8]) -> Result<Response, AllocError>
    ensures { IfOk result (λ response. IsResponse Asm text.now response) }
{
    match elf_text::asm(alloc, text) {
        Ok(file) => Ok(written(alloc, file)),
        Err(fault) if ran_out(&fault) => Err(AllocError),
        Err(fault) => bad_asm(alloc, &fault),
    }
}
