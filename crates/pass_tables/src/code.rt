//! The code.

ghost use Rattle.std.specs.Prelude.{◌≡◌, ◌++◌, ◌∷◌, ◌≤◌, [], codes, length, map, IfOk, OnOk};
ghost use Rattle.std.specs.List.{range_with_len};
ghost use Rattle.rv_text.specs.Written.{line_of};
ghost use Rattle.pass_tables.specs.Tables.{address, address_text, code_columns, hexadecimal_text, texts};

use crate::columns::places;
use rv_text::{push_hexadecimal, push_line};
use std::alloc::{AllocError, Global};
use text_columns::{Align, Column};

/// Where the first word stands in memory.
const CODE_START: u32 = 0x10054;

// Writes a word in hexadecimal behind a text.
fn push_word(out: &mut Vec<u8>, word: u32) -> Result<(), AllocError>
    ensures { OnOk result (out.new.items ≡ out.old.items ++ hexadecimal_text word) }
{
    out.extend_from_slice(b"0x")?;
    push_hexadecimal(out, word)
}

// Puts a word in hexadecimal below the other cells of a column. The text of the cell is written into these bytes.
fn put_word(column: &mut Column, cell: &mut Vec<u8>, word: u32) -> Result<(), AllocError>
    ensures { OnOk result (column.new ≡ record column.old { cells = column.old.cells ++ hexadecimal_text word ∷ [] }) }
{
    cell.clear();
    push_word(cell, word)?;
    column.push(cell)
}

// Writes the instruction of a word behind a text.
fn push_instruction(out: &mut Vec<u8>, word: u32) -> Result<(), AllocError>
    ensures { OnOk result (out.new.items ≡ out.old.items ++ line_of word) }
{
    push_line(out, word)?;
    let _ = out.pop();
    Ok(())
}

// Puts the instruction of a word below the other cells of a column. The text of the cell is written into these bytes.
fn put_instruction(column: &mut Column, cell: &mut Vec<u8>, word: u32) -> Result<(), AllocError>
    ensures { OnOk result (column.new ≡ record column.old { cells = column.old.cells ++ line_of word ∷ [] }) }
{
    cell.clear();
    push_instruction(cell, word)?;
    column.push(cell)
}

// The address of a word in memory.
fn address(k: usize) -> u32
    requires few { k ≤ 4194304 }
    ensures { result ≡ address k }
{
    CODE_START + 4 * k as u32
}

// The addresses of this many words.
fn addresses(alloc: Global, count: usize) -> Result<Column, AllocError>
    requires few { count ≤ 4194304 }
    ensures { IfOk result (λ column. column ≡ texts (codes "address") (map address_text (range_with_len 0 count))) }
{
    let mut column = Column::new(alloc, b"address", Align::Left)?;
    let mut cell = Vec::new(alloc);
    for k in 0..count {
        put_word(&mut column, &mut cell, address(k))?;
    }
    Ok(column)
}

// The words themselves.
fn codes_of(alloc: Global, words: &[u32]) -> Result<Column, AllocError>
    ensures { IfOk result (λ column. column ≡ texts (codes "code") (map hexadecimal_text words.now)) }
{
    let mut column = Column::new(alloc, b"code", Align::Left)?;
    let mut cell = Vec::new(alloc);
    for word in words {
        put_word(&mut column, &mut cell, *word)?;
    }
    Ok(column)
}

// Their instructions.
fn instructions(alloc: Global, words: &[u32]) -> Result<Column, AllocError>
    ensures { IfOk result (λ column. column ≡ texts (codes "instruction") (map line_of words.now)) }
{
    let mut column = Column::new(alloc, b"instruction", Align::Left)?;
    let mut cell = Vec::new(alloc);
    for word in words {
        put_instruction(&mut column, &mut cell, *word)?;
    }
    Ok(column)
}

/// The words of the code: the address of each, itself, and its instruction.
pub fn code_columns(alloc: Global, words: &[u32]) -> Result<Vec<Column>, AllocError>
    requires few { length words.now ≤ 4194304 }
    ensures { IfOk result (λ columns. columns.items ≡ code_columns words.now) }
{
    let places = places(alloc, b"word", words.len())?;
    let addresses = addresses(alloc, words.len())?;
    let codes = codes_of(alloc, words)?;
    let instructions = instructions(alloc, words)?;
    Ok(vec![in alloc; places, addresses, codes, instructions]?)
}
