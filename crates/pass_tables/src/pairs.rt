//! Pairs of neighbouring terminals, and what a parse table has for them.

ghost use Rattle.std.specs.Prelude.{◌≡◌, ◌++◌, ◌∷◌, [], IfOk, OnOk};
ghost use Rattle.llp_tables.specs.EntryTable.{entry_of};
ghost use Rattle.pass_tables.specs.Tables.{closes_text, names_text, numbers_text, opens_text, pair_columns, productions_text, spaced_text, texts};
ghost use Rattle.pass_tables.specs.PairTexts.{part_text, part_texts};

use crate::columns::{places, push_decimal};
use crate::parse::{push_symbol, push_symbols};
use grammar_file::{Grammar, Symbol};
use llp_tables::Tables;
use std::alloc::{AllocError, Global};
use text_columns::{Align, Column};

/// The number of the mark before a text.
const BEGIN_MARK: u16 = 0;

// Writes symbols behind a text, with one space between two.
fn push_names(out: &mut Vec<u8>, grammar: &Grammar, symbols: &[Symbol]) -> Result<(), AllocError>
    ensures { OnOk result (out.new.items ≡ out.old.items ++ names_text grammar.now symbols.now) }
{
    match symbols.split_first() {
        Some((first, others)) => {
            push_symbol(out, grammar, *first)?;
            push_symbols(out, grammar, others)
        }
        None => Ok(()),
    }
}

// Writes numbers behind a text, each behind a space.
fn push_spaced(out: &mut Vec<u8>, numbers: &[u16]) -> Result<(), AllocError>
    ensures { OnOk result (out.new.items ≡ out.old.items ++ spaced_text numbers.now) }
{
    for number in numbers {
        out.push(b' ')?;
        push_decimal(out, u32::from(*number))?;
    }
    Ok(())
}

// Writes numbers behind a text, with one space between two.
fn push_numbers(out: &mut Vec<u8>, numbers: &[u16]) -> Result<(), AllocError>
    ensures { OnOk result (out.new.items ≡ out.old.items ++ numbers_text numbers.now) }
{
    match numbers.split_first() {
        Some((first, others)) => {
            push_decimal(out, u32::from(*first))?;
            push_spaced(out, others)
        }
        None => Ok(()),
    }
}

// A grammar, and its parse table.
#[derive(Clone, Copy)]
struct Reading<'a> {
    grammar: &'a Grammar,
    tables: &'a Tables,
}

// Two terminals, by their numbers.
#[derive(Clone, Copy)]
struct Pair {
    before: u16,
    next: u16,
}

// Writes what a pair closes behind a text.
fn push_closes(out: &mut Vec<u8>, reading: &Reading<'_>, pair: Pair) -> Result<(), AllocError>
    ensures { OnOk result (out.new.items ≡ out.old.items ++ closes_text reading.now.grammar.now (entry_of reading.now.tables.now pair.before pair.next)) }
{
    match reading.tables.entry(pair.before, pair.next) {
        Some(entry) => push_names(out, reading.grammar, entry.closes),
        None => Ok(()),
    }
}

// Writes what a pair opens behind a text.
fn push_opens(out: &mut Vec<u8>, reading: &Reading<'_>, pair: Pair) -> Result<(), AllocError>
    ensures { OnOk result (out.new.items ≡ out.old.items ++ opens_text reading.now.grammar.now (entry_of reading.now.tables.now pair.before pair.next)) }
{
    match reading.tables.entry(pair.before, pair.next) {
        Some(entry) => push_names(out, reading.grammar, entry.opens),
        None => Ok(()),
    }
}

// Writes the productions of a pair behind a text.
fn push_productions(out: &mut Vec<u8>, tables: &Tables, pair: Pair) -> Result<(), AllocError>
    ensures { OnOk result (out.new.items ≡ out.old.items ++ productions_text (entry_of tables.now pair.before pair.next)) }
{
    match tables.entry(pair.before, pair.next) {
        Some(entry) => push_numbers(out, entry.productions),
        None => Ok(()),
    }
}

// What a column has of a pair.
#[derive(Clone, Copy)]
enum Part {
    Before,
    Next,
    Closes,
    Opens,
    Productions,
}

// Writes this part of a pair behind a text.
fn push_part(
    out: &mut Vec<u8>,
    reading: &Reading<'_>,
    pair: Pair,
    part: Part,
) -> Result<(), AllocError>
    ensures { OnOk result (out.new.items ≡ out.old.items ++ part_text part reading.now.grammar.now (entry_of reading.now.tables.now) (pair.before, pair.next)) }
{
    match part {
        Part::Before => push_symbol(out, reading.grammar, Symbol::Terminal(pair.before)),
        Part::Next => push_symbol(out, reading.grammar, Symbol::Terminal(pair.next)),
        Part::Closes => push_closes(out, reading, pair),
        Part::Opens => push_opens(out, reading, pair),
        Part::Productions => push_productions(out, reading.tables, pair),
    }
}

// Puts this part of a pair below the other cells of a column. The text of the cell is written into these bytes.
fn put_part(
    column: &mut Column,
    cell: &mut Vec<u8>,
    reading: &Reading<'_>,
    pair: Pair,
    part: Part,
) -> Result<(), AllocError>
    ensures { OnOk result (column.new
        ≡ record column.old { cells = column.old.cells ++ part_text part reading.now.grammar.now (entry_of reading.now.tables.now) (pair.before, pair.next) ∷ [] }) }
{
    cell.clear();
    push_part(cell, reading, pair, part)?;
    column.push(cell)
}

// This part of each pair of a word.
fn parts(
    alloc: Global,
    title: &[u8],
    reading: &Reading<'_>,
    word: &[u16],
    part: Part,
) -> Result<Column, AllocError>
    ensures { IfOk result (λ column. column ≡ texts title.now (part_texts part reading.now.grammar.now (entry_of reading.now.tables.now) word.now)) }
{
    let mut column = Column::new(alloc, title, Align::Left)?;
    let mut cell = Vec::new(alloc);
    let mut before = BEGIN_MARK;
    for terminal in word {
        let next = *terminal;
        put_part(&mut column, &mut cell, reading, Pair { before, next }, part)?;
        before = next;
    }
    Ok(column)
}

/// The terminals of a word, by their numbers in a grammar, each behind the one before it, and the first one behind the mark before a text: the names of
/// both, and what the grammar's parse table has for the pair: what is closed and opened, the uppermost symbol of the stack first, and by which productions.
pub fn pair_columns(
    alloc: Global,
    grammar: &Grammar,
    tables: &Tables,
    word: &[u16],
) -> Result<Vec<Column>, AllocError>
    ensures { IfOk result (λ columns. columns.items ≡ pair_columns grammar.now (entry_of tables.now) word.now) }
{
    let reading = Reading { grammar, tables };
    let places = places(alloc, b"pair", word.len())?;
    let before = parts(alloc, b"before", &reading, word, Part::Before)?;
    let next = parts(alloc, b"next", &reading, word, Part::Next)?;
    let closes = parts(alloc, b"closes", &reading, word, Part::Closes)?;
    let opens = parts(alloc, b"opens", &reading, word, Part::Opens)?;
    let productions = parts(alloc, b"productions", &reading, word, Part::Productions)?;
    Ok(vec![in alloc; places, before, next, closes, opens, productions]?)
}
