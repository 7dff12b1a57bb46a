//! The frames of functions.

ghost use Rattle.std.specs.Prelude.{◌≡◌, ◌++◌, ◌∷◌, [], codes, map, if◌then◌else◌, IfOk, OnOk};
ghost use Rattle.pass_tables.specs.Tables.{frame_columns, function_names, numbers, texts};
ghost use Rattle.pass_tables.specs.FrameNumbers.{number_in};

use crate::columns::places;
use crate::rows::{kind_of, text_of};
use ast_rows::{Rows, Tokens};
use rv_regs::{Frame, Frames};
use std::alloc::{AllocError, Global};
use text_columns::{Align, Column};

// Puts a text below the other cells of a column, if it is to be kept.
fn push_if(column: &mut Column, kept: bool, cell: &[u8]) -> Result<(), AllocError>
    ensures { OnOk result (column.new ≡ record column.old { cells = column.old.cells ++ (if kept then cell.now ∷ [] else []) }) }
{
    if kept { column.push(cell) } else { Ok(()) }
}

// The names of functions.
fn function_names(
    alloc: Global,
    text: &[u8],
    tokens: &Tokens,
    rows: &Rows,
) -> Result<Column, AllocError>
    ensures { IfOk result (λ column. column ≡ texts (codes "name") (function_names text.now tokens.now rows.now)) }
{
    let mut column = Column::new(alloc, b"name", Align::Left)?;
    for k in 0..rows.len() {
        push_if(
            &mut column,
            kind_of(rows, k).is_function(),
            text_of(text, tokens, rows, k),
        )?;
    }
    Ok(column)
}

// A number of a frame.
#[derive(Clone, Copy)]
enum Part {
    Registers,
    Spills,
    Variables,
    Bytes,
}

// This number of a frame.
fn number_of(frame: Frame, part: Part) -> u64
    ensures { result ≡ number_in part frame }
{
    match part {
        Part::Registers => u64::from(frame.registers),
        Part::Spills => u64::from(frame.spills),
        Part::Variables => u64::from(frame.locals),
        Part::Bytes => frame.bytes,
    }
}

// This number of each frame.
fn numbers(alloc: Global, title: &[u8], frames: &[Frame], part: Part) -> Result<Column, AllocError>
    ensures { IfOk result (λ column. column ≡ numbers title.now (map (number_in part) frames.now)) }
{
    let mut column = Column::new(alloc, title, Align::Right)?;
    for frame in frames {
        column.push_number(number_of(*frame, part))?;
    }
    Ok(column)
}

/// The frames of functions, each with the function's name: how many slots are registers and how many are words of the frame, how many variables there
/// are, and the bytes.
pub fn frame_columns(
    alloc: Global,
    text: &[u8],
    tokens: &Tokens,
    rows: &Rows,
    frames: &Frames,
) -> Result<Vec<Column>, AllocError>
    ensures { IfOk result (λ columns. columns.items ≡ frame_columns (function_names text.now tokens.now rows.now) frames.now) }
{
    let frames = frames.as_slice();
    let places = places(alloc, b"function", frames.len())?;
    let names = function_names(alloc, text, tokens, rows)?;
    let registers = numbers(alloc, b"registers", frames, Part::Registers)?;
    let spills = numbers(alloc, b"spills", frames, Part::Spills)?;
    let variables = numbers(alloc, b"variables", frames, Part::Variables)?;
    let bytes = numbers(alloc, b"bytes", frames, Part::Bytes)?;
    Ok(vec![in alloc; places, registers, spills, variables, bytes, names]?)
}
