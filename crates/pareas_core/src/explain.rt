// What there is to say of a code.

ghost use Rattle.std.specs.Prelude.{List, ℕ, IfOk};
ghost use Rattle.command_line.specs.declared.command.Command.TheVariants.{Explain};
ghost use Rattle.pareas_core.specs.Responses.{IsResponse};

use crate::listing::written;
use crate::response::Response;
use diagnostic_texts::explanation_text;
use std::alloc::{AllocError, Global};

/// What the diagnostic of the code means, a source that has it, and how to fix it.
pub(crate) fn explain(alloc: Global, code: u32) -> Result<Response, AllocError>
    ensures { (bytes : List ℕ) → IfOk result (λ response. IsResponse (Explain code) bytes response) }
{
    let text = explanation_text(alloc, code)?;
    Ok(written(alloc, text))
}
