//! The left parse of a text.

ghost use Rattle.std.specs.Prelude.{◌≡◌, ◌++◌, ◌∷◌, [], codes, map, IfOk, OnOk};
ghost use Rattle.pass_tables.specs.Tables.{numbers, parse_columns, production_text, rule_text, symbol_text, symbols_text, texts};

use crate::columns::places;
use grammar_file::{Grammar, Production, Symbol};
use std::alloc::{AllocError, Global};
use text_columns::{Align, Column};

/// Writes a symbol's name behind a text.
pub(crate) fn push_symbol(
    out: &mut Vec<u8>,
    grammar: &Grammar,
    symbol: Symbol,
) -> Result<(), AllocError>
    ensures { OnOk result (out.new.items ≡ out.old.items ++ symbol_text grammar.now symbol) }
{
    match grammar.name_of(symbol) {
        Some(name) => out.extend_from_slice(name),
        None => Ok(()),
    }
}

/// Writes symbols behind a text, each behind a space.
pub(crate) fn push_symbols(
    out: &mut Vec<u8>,
    grammar: &Grammar,
    symbols: &[Symbol],
) -> Result<(), AllocError>
    ensures { OnOk result (out.new.items ≡ out.old.items ++ symbols_text grammar.now symbols.now) }
{
    for symbol in symbols {
        out.push(b' ')?;
        push_symbol(out, grammar, *symbol)?;
    }
    Ok(())
}

// Writes a production behind a text.
fn push_production(
    out: &mut Vec<u8>,
    grammar: &Grammar,
    production: &Production,
) -> Result<(), AllocError>
    ensures { OnOk result (out.new.items ≡ out.old.items ++ production_text grammar.now production.now) }
{
    push_symbol(out, grammar, Symbol::Nonterminal(production.left()))?;
    out.extend_from_slice(b" ->")?;
    push_symbols(out, grammar, production.right())
}

// Writes the production with a number behind a text.
fn push_rule(out: &mut Vec<u8>, grammar: &Grammar, number: u16) -> Result<(), AllocError>
    ensures { OnOk result (out.new.items ≡ out.old.items ++ rule_text grammar.now number) }
{
    match grammar.production(number) {
        Some(production) => push_production(out, grammar, production),
        None => Ok(()),
    }
}

// Puts the production with a number below the other cells of a column. The text of the cell is written into these bytes.
fn put_rule(
    column: &mut Column,
    cell: &mut Vec<u8>,
    grammar: &Grammar,
    number: u16,
) -> Result<(), AllocError>
    ensures { OnOk result (column.new ≡ record column.old { cells = column.old.cells ++ rule_text grammar.now number ∷ [] }) }
{
    cell.clear();
    push_rule(cell, grammar, number)?;
    column.push(cell)
}

// The numbers of productions.
fn numbers(alloc: Global, productions: &[u16]) -> Result<Column, AllocError>
    ensures { IfOk result (λ column. column ≡ numbers (codes "production") productions.now) }
{
    let mut column = Column::new(alloc, b"production", Align::Right)?;
    for number in productions {
        column.push_number(u64::from(*number))?;
    }
    Ok(column)
}

// The productions with these numbers.
fn rules(alloc: Global, grammar: &Grammar, productions: &[u16]) -> Result<Column, AllocError>
    ensures { IfOk result (λ column. column ≡ texts (codes "rule") (map (rule_text grammar.now) productions.now)) }
{
    let mut column = Column::new(alloc, b"rule", Align::Left)?;
    let mut cell = Vec::new(alloc);
    for number in productions {
        put_rule(&mut column, &mut cell, grammar, *number)?;
    }
    Ok(column)
}

/// The steps of a left parse: the number of each step's production, and the production.
pub fn parse_columns(
    alloc: Global,
    grammar: &Grammar,
    productions: &[u16],
) -> Result<Vec<Column>, AllocError>
    ensures { IfOk result (λ columns. columns.items ≡ parse_columns grammar.now productions.now) }
{
    let places = places(alloc, b"step", productions.len())?;
    let numbers = numbers(alloc, productions)?;
    let rules = rules(alloc, grammar, productions)?;
    Ok(vec![in alloc; places, numbers, rules]?)
}
