// A run of the program whose text is made from a seed.

ghost use Rattle.std.specs.Prelude.{◌≡◌, List, ℕ, length, IfOk};
ghost use Rattle.command_line.specs.declared.command.Command.TheVariants.{Drill};
ghost use Rattle.source_meaning.specs.Lexemes.{tokens};
ghost use Rattle.pareas_core.specs.Responses.{IsResponse};
ghost use Rattle.pareas_core.specs.Output.{drill_lines, drill_steps};

use crate::compiler::{Compiled, compile_counting};
use crate::machine::emulate;
use crate::response::{Response, refused};
use drill_source::source;
use par_passes::Passes;
use std::alloc::{AllocError, Global};
use table_text::push_count;
use verdict::one_verdict;

// The steps that the machine is given.
fn steps() -> u32
    ensures { result ≡ drill_steps }
{
    1_000_000
}

// The lines of the sizes.
fn lines(alloc: Global, text: &[u8], made: &Compiled) -> Result<Vec<u8>, AllocError>
    requires { made.now.tokens ≡ length (tokens text.now) }
    ensures { IfOk result (λ lines. lines.items ≡ drill_lines text.now made.now.file.items) }
{
    let mut lines = Vec::new(alloc);
    push_count(alloc, &mut lines, b"source", text.len() as u64)?;
    push_count(alloc, &mut lines, b"tokens", made.tokens as u64)?;
    push_count(alloc, &mut lines, b"image", made.file.len() as u64)?;
    Ok(lines)
}

/// Makes the text of the seed, compiles it, and runs its image: the sizes, and how the run ends.
pub(crate) fn drill(crew: &impl Passes, seed: u32, functions: u32) -> Result<Response, AllocError>
    ensures { (bytes : List ℕ) → IfOk result (λ response. IsResponse (Drill seed functions) bytes response) }
{
    one_verdict();
    let text = source(crew.alloc(), seed, functions)?;
    match compile_counting(crew, &text, false) {
        Ok(made) => {
            let lines = lines(crew.alloc(), &text, &made)?;
            emulate(crew.alloc(), lines, &made.file, steps())
        }
        Err(refusal) => refused(crew.alloc(), &text, refusal),
    }
}
