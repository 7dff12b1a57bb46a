// What the program answers to `show` and to `show --html`: what the passes make of a source, or the line of a source that they don't come to.

ghost use Rattle.std.specs.Prelude.{IfOk};
ghost use Rattle.command_line.specs.declared.command.Command.TheVariants.{Page, Show};
ghost use Rattle.pareas_core.specs.Responses.{IsResponse};

use crate::listing::written;
use crate::response::{Response, refused};
use command_line::Pass;
use par_passes::Passes;
use pass_views::{tables, views_are_one};
use std::alloc::AllocError;
use verdict::one_verdict;

/// The tables of a pass for the source, or the line of a source that doesn't reach it.
pub(crate) fn show(crew: &impl Passes, source: &[u8], pass: Pass) -> Result<Response, AllocError>
    ensures { IfOk result (λ response. IsResponse (Show pass) source.now response) }
{
    one_verdict();
    views_are_one();
    match tables(crew, source, pass) {
        Ok(text) => Ok(written(crew.alloc(), text)),
        Err(refusal) => refused(crew.alloc(), source, refusal),
    }
}

/// The page of the source, or the line of a source that has none.
pub(crate) fn page(crew: &impl Passes, source: &[u8]) -> Result<Response, AllocError>
    ensures { IfOk result (λ response. IsResponse Page source.now response) }
{
    one_verdict();
    views_are_one();
    match pass_views::page(crew, source) {
        Ok(text) => Ok(written(crew.alloc(), text)),
        Err(stop) => refused(crew.alloc(), source, stop),
    }
}
