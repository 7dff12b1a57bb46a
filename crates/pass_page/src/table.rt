//! A table.

ghost use Rattle.std.specs.Prelude.{◌≡◌, ◌++◌, flat_map, OnOk};
ghost use Rattle.std.specs.List.{range_with_len};
ghost use Rattle.text_columns.specs.Columns.{rows_of};
ghost use Rattle.pass_page.specs.Page.{cell, heading, line, table_box, tag, title_cell};

use crate::escaped::{push_box_end, push_box_start, push_escaped};
use std::alloc::AllocError;
use text_columns::{Align, Column, rows_of};

// Writes the tag before a cell behind a text.
fn push_tag(out: &mut Vec<u8>, name: &[u8], align: Align) -> Result<(), AllocError>
    ensures { OnOk result (out.new.items ≡ out.old.items ++ tag name.now align) }
{
    out.push(b'<')?;
    out.extend_from_slice(name)?;
    match align {
        Align::Left => out.extend_from_slice(b">"),
        Align::Right => out.extend_from_slice(b" class=r>"),
    }
}

// Writes the title of a column behind a text.
fn push_title(out: &mut Vec<u8>, column: &Column) -> Result<(), AllocError>
    ensures { OnOk result (out.new.items ≡ out.old.items ++ title_cell column.now) }
{
    push_tag(out, b"th", column.align())?;
    push_escaped(out, column.title())
}

// Writes the titles of columns behind a text.
fn push_titles(out: &mut Vec<u8>, columns: &[Column]) -> Result<(), AllocError>
    ensures { OnOk result (out.new.items ≡ out.old.items ++ flat_map title_cell columns.now) }
{
    for column in columns {
        push_title(out, column)?;
    }
    Ok(())
}

// Writes a cell of a column behind a text.
fn push_cell(out: &mut Vec<u8>, k: usize, column: &Column) -> Result<(), AllocError>
    ensures { OnOk result (out.new.items ≡ out.old.items ++ cell k column.now) }
{
    push_tag(out, b"td", column.align())?;
    push_escaped(out, column.cell(k))
}

// Writes a cell of each column behind a text.
fn push_cells(out: &mut Vec<u8>, k: usize, columns: &[Column]) -> Result<(), AllocError>
    ensures { OnOk result (out.new.items ≡ out.old.items ++ flat_map (cell k) columns.now) }
{
    for column in columns {
        push_cell(out, k, column)?;
    }
    Ok(())
}

// Writes a line of a table behind a text.
fn push_line(out: &mut Vec<u8>, columns: &[Column], k: usize) -> Result<(), AllocError>
    ensures { OnOk result (out.new.items ≡ out.old.items ++ line columns.now k) }
{
    out.extend_from_slice(b"<tr>")?;
    push_cells(out, k, columns)?;
    out.push(b'\n')?;
    Ok(())
}

// Writes all lines of a table behind a text.
fn push_lines(out: &mut Vec<u8>, columns: &[Column]) -> Result<(), AllocError>
    ensures { OnOk result (out.new.items ≡ out.old.items ++ flat_map (line columns.now) (range_with_len 0 (rows_of columns.now))) }
{
    let lines = rows_of(columns);
    for k in 0..lines {
        push_line(out, columns, k)?;
    }
    Ok(())
}

// Writes what a table begins with behind a text: its name and the titles of its columns.
fn push_heading(out: &mut Vec<u8>, name: &[u8], columns: &[Column]) -> Result<(), AllocError>
    ensures { OnOk result (out.new.items ≡ out.old.items ++ heading name.now columns.now) }
{
    out.extend_from_slice(b"<table id=")?;
    out.extend_from_slice(name)?;
    out.extend_from_slice(b"><thead><tr>")?;
    push_titles(out, columns)?;
    out.extend_from_slice(b"</thead><tbody>\n")
}

/// Writes the box of a table behind a text: the titles of its columns, and a line for each row. A column with fewer cells than others has empty ones below them.
/// The name is one word of letters.
pub fn push_table_box(out: &mut Vec<u8>, name: &[u8], columns: &[Column]) -> Result<(), AllocError>
    ensures { OnOk result (out.new.items ≡ out.old.items ++ table_box name.now columns.now) }
{
    push_box_start(out, name)?;
    push_heading(out, name, columns)?;
    push_lines(out, columns)?;
    out.extend_from_slice(b"</tbody></table>")?;
    push_box_end(out)
}
