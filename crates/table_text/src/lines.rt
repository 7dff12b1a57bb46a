// The lines that are printed of a grammar, its tables and a parse.

ghost use Rattle.std.specs.Prelude.{◌≡◌, ◌++◌, codes, decimal, IfOk};
ghost use Rattle.table_text.specs.Entries.{spaced_names};
ghost use Rattle.table_text.specs.Lines.{counted, parse_line, sizes, spaced};

use grammar_file::{Grammar, Symbol};
use llp_tables::push_name;
use std::alloc::{AllocError, Global};

/// Writes a line with a name and a number behind the text.
pub fn push_count(
    alloc: Global,
    text: &mut Vec<u8>,
    name: &[u8],
    number: u64,
) -> Result<(), AllocError>
    ensures { IfOk result (λ _. text.new.items ≡ text.old.items ++ counted name.now number) }
{
    let number = format!(in alloc; " {number}\n")?;
    text.extend_from_slice(name)?;
    text.extend_from_slice(number.as_bytes())?;
    Ok(())
}

/// Writes a space and a number behind the text.
fn push_number(alloc: Global, text: &mut Vec<u8>, number: u16) -> Result<(), AllocError>
    ensures { IfOk result (λ _. text.new.items ≡ text.old.items ++ (codes " " ++ decimal number)) }
{
    let number = format!(in alloc; " {number}")?;
    text.extend_from_slice(number.as_bytes())?;
    Ok(())
}

/// Writes the numbers behind the text, each behind a space.
pub(crate) fn push_spaced(
    alloc: Global,
    text: &mut Vec<u8>,
    numbers: &[u16],
) -> Result<(), AllocError>
    ensures { IfOk result (λ _. text.new.items ≡ text.old.items ++ spaced numbers.now) }
{
    for number in numbers {
        push_number(alloc, text, *number)?;
    }
    Ok(())
}

/// Writes the symbols' names behind the text, each behind a space.
pub(crate) fn push_names(
    text: &mut Vec<u8>,
    grammar: &Grammar,
    symbols: &[Symbol],
) -> Result<(), AllocError>
    ensures { IfOk result (λ _. text.new.items ≡ text.old.items ++ spaced_names grammar.now symbols.now) }
{
    for symbol in symbols {
        text.push(b' ')?;
        push_name(text, grammar, *symbol)?;
    }
    Ok(())
}

/// Writes the line of a left parse behind the text.
pub(crate) fn push_parse(
    alloc: Global,
    text: &mut Vec<u8>,
    productions: &[u16],
) -> Result<(), AllocError>
    ensures { IfOk result (λ _. text.new.items ≡ text.old.items ++ parse_line productions.now) }
{
    text.extend_from_slice(b"parse")?;
    push_spaced(alloc, text, productions)?;
    text.push(b'\n')?;
    Ok(())
}

/// The lines of the sizes of a grammar and of its tables.
pub(crate) fn sizes(alloc: Global, grammar: &Grammar, entries: u64) -> Result<Vec<u8>, AllocError>
    ensures { IfOk result (λ text. text.items ≡ sizes grammar.now entries) }
{
    let mut text = Vec::new(alloc);
    push_count(
        alloc,
        &mut text,
        b"terminals",
        u64::from(grammar.terminal_count()),
    )?;
    push_count(
        alloc,
        &mut text,
        b"nonterminals",
        u64::from(grammar.nonterminal_count()),
    )?;
    push_count(
        alloc,
        &mut text,
        b"productions",
        u64::from(grammar.production_count()),
    )?;
    push_count(alloc, &mut text, b"entries", entries)?;
    Ok(text)
}
