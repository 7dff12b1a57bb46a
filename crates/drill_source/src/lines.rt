// The lines of a text.

ghost use Rattle.std.specs.Prelude.{◌≡◌, IfOk};
ghost use Rattle.drill_source.specs.Drill.{first_value, function_line, main_line};

use std::alloc::{AllocError, Global};

// What a function's variable begins with.
fn first_value(alloc: Global, number: u32, first: u32, second: u32) -> Result<String, AllocError>
    ensures { IfOk result (λ text. text.bytes.items ≡ first_value number first second) }
{
    match number.checked_sub(1) {
        Some(before) => format!(in alloc; "f{before}[a + {first}] * {second}"),
        None => format!(in alloc; "a * {first} + {second}"),
    }
}

/// The line of a function, by its number from 0 on and its three numbers.
pub(crate) fn function_line(
    alloc: Global,
    number: u32,
    first: u32,
    second: u32,
    third: u32,
) -> Result<String, AllocError>
    ensures { IfOk result (λ text. text.bytes.items ≡ function_line number first second third) }
{
    let value = first_value(alloc, number, first, second)?;
    format!(in alloc;
        "fn f{number}(var a: int): int {{ var b: int = {value}; if b > a {{ b = b - {third}; }} else {{ b = b ^ {third}; }} return b; }}\n"
    )
}

/// The line of `main`, which calls the last function.
pub(crate) fn main_line(alloc: Global, last: u32) -> Result<String, AllocError>
    ensures { IfOk result (λ text. text.bytes.items ≡ main_line last) }
{
    format!(in alloc; "fn main(): int {{ return f{last}[1]; }}\n")
}
