// The whole text.

ghost use Rattle.std.specs.Prelude.{◌≡◌, ◌++◌, IfOk};
ghost use Rattle.drill_source.specs.Drill.{drawn, drill_text, function_line, main_line, next_state};

use crate::generator::Generator;
use crate::lines::{function_line, main_line};
use std::alloc::{AllocError, Global};

// Draws the three numbers of a function, and writes its line behind the text.
fn push_function(
    alloc: Global,
    text: &mut Vec<u8>,
    generator: &mut Generator,
    number: u32,
) -> Result<(), AllocError>
    ensures state { generator.new.state ≡ next_state (next_state (next_state generator.old.state)) }
    ensures line { IfOk result (λ _. text.new.items ≡ text.old.items ++ function_line number (drawn (next_state generator.old.state))
        (drawn (next_state (next_state generator.old.state))) (drawn (next_state (next_state (next_state generator.old.state))))) }
{
    let first = generator.draw();
    let second = generator.draw();
    let third = generator.draw();
    let line = function_line(alloc, number, first, second, third)?;
    text.extend_from_slice(line.as_bytes())
}

// Writes the line of `main` behind the text.
fn push_main(alloc: Global, text: &mut Vec<u8>, last: u32) -> Result<(), AllocError>
    ensures { IfOk result (λ _. text.new.items ≡ text.old.items ++ main_line last) }
{
    let line = main_line(alloc, last)?;
    text.extend_from_slice(line.as_bytes())
}

/// The text of a seed, with `functions` functions beside `main`: a line each, and each calls the one before it.
/// With none, `main` is left alone and calls a function that isn't there.
pub fn source(alloc: Global, seed: u32, functions: u32) -> Result<Vec<u8>, AllocError>
    ensures { IfOk result (λ text. text.items ≡ drill_text seed functions) }
{
    let mut generator = Generator::new(seed);
    let mut text = Vec::new(alloc);
    for number in 0..functions {
        push_function(alloc, &mut text, &mut generator, number)?;
    }
    push_main(alloc, &mut text, functions.saturating_sub(1))?;
    Ok(text)
}
