//! The tokens of a text.

ghost use Rattle.std.specs.Prelude.{◌≡◌, codes, map, slice_index_or, IfOk};
ghost use Rattle.source_meaning.specs.Grammar.{terminal_name};
ghost use Rattle.pass_tables.specs.Tables.{lexeme_of, texts, token_columns, token_text};

use crate::columns::{numbers, places};
use ast_rows::Tokens;
use list_cuts::stretch_at;
use source_meaning::Terminal;
use std::alloc::{AllocError, Global};
use text_columns::{Align, Column};

/// The number at a place of a column, or 0 behind the last one.
pub fn number_at(column: &[u32], place: usize) -> u32
    ensures { result ≡ slice_index_or column.now place 0 }
{
    column.get(place).copied().unwrap_or(0)
}

/// The bytes of the token with a number, or nothing where there is none.
pub(crate) fn lexeme<'a>(text: &'a [u8], tokens: &Tokens, number: usize) -> &'a [u8]
    ensures { result.now ≡ token_text text.now tokens.now number }
{
    let start = number_at(tokens.starts(), number);
    let length = number_at(tokens.lengths(), number);
    stretch_at(text, start as usize, length as usize)
}

// The bytes of each token.
fn lexemes(alloc: Global, text: &[u8], tokens: &Tokens) -> Result<Column, AllocError>
    ensures { IfOk result (λ column. column ≡ texts (codes "text") (map (lexeme_of text.now) tokens.now)) }
{
    let mut column = Column::new(alloc, b"text", Align::Left)?;
    for k in 0..tokens.len() {
        column.push(lexeme(text, tokens, k))?;
    }
    Ok(column)
}

// A terminal as the grammar's text names it.
fn terminal_name(terminal: Terminal) -> &'static [u8]
    ensures { result.now ≡ terminal_name terminal }
{
    match terminal {
        Terminal::FnWord => b"fn",
        Terminal::Ident => b"ident",
        Terminal::LeftParen => b"(",
        Terminal::RightParen => b")",
        Terminal::Colon => b":",
        Terminal::Comma => b",",
        Terminal::VarWord => b"var",
        Terminal::IntWord => b"int",
        Terminal::BoolWord => b"bool",
        Terminal::LeftBrace => b"{",
        Terminal::RightBrace => b"}",
        Terminal::Equals => b"=",
        Terminal::Semicolon => b";",
        Terminal::IfWord => b"if",
        Terminal::ElseWord => b"else",
        Terminal::WhileWord => b"while",
        Terminal::ReturnWord => b"return",
        Terminal::BarBar => b"||",
        Terminal::AmpAmp => b"&&",
        Terminal::Cmp => b"cmp",
        Terminal::Add => b"add",
        Terminal::MinusSign => b"minus",
        Terminal::Mul => b"mul",
        Terminal::Unop => b"unop",
        Terminal::Digits => b"num",
        Terminal::TrueWord => b"true",
        Terminal::FalseWord => b"false",
        Terminal::LeftBracket => b"[",
        Terminal::RightBracket => b"]",
        Terminal::PrintWord => b"print",
    }
}

// The names of terminals.
fn terminals(alloc: Global, terminals: &[Terminal]) -> Result<Column, AllocError>
    ensures { IfOk result (λ column. column ≡ texts (codes "terminal") (map terminal_name terminals.now)) }
{
    let mut column = Column::new(alloc, b"terminal", Align::Left)?;
    for terminal in terminals {
        column.push(terminal_name(*terminal))?;
    }
    Ok(column)
}

/// The tokens of a text: the terminal of each, the place of its first byte, how many bytes it has, and these bytes.
pub fn token_columns(alloc: Global, text: &[u8], tokens: &Tokens) -> Result<Vec<Column>, AllocError>
    ensures { IfOk result (λ columns. columns.items ≡ token_columns text.now tokens.now) }
{
    let places = places(alloc, b"token", tokens.len())?;
    let lexemes = lexemes(alloc, text, tokens)?;
    let terminals = terminals(alloc, tokens.kinds())?;
    let starts = numbers(alloc, b"start", tokens.starts())?;
    let lengths = numbers(alloc, b"length", tokens.lengths())?;
    Ok(vec![in alloc; places, terminals, starts, lengths, lexemes]?)
}
