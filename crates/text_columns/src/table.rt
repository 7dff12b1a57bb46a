// A table, line by line.

ghost use Rattle.std.specs.Prelude.{◌≡◌, ◌≤◌, ◌++◌, true, length, map, take, drop, vec_len, OnOk};
ghost use Rattle.std.specs.List.{suffix_len};
ghost use Rattle.text_columns.specs.Columns.{is_space, rows_of, spaced, table_text, trimmed};
ghost use Rattle.text_columns.specs.Lines.{HasWritten, line_text, padded_in};

use crate::column::{Column, Line, push_spaces};
use std::alloc::AllocError;

// Writes what columns have in a line, with two spaces between each two, but for the spaces that the last one lacks behind its text: a long text may stand in
// another line of it.
fn push_parts(out: &mut Vec<u8>, columns: &[Column], line: Line) -> Result<(), AllocError>
    ensures { OnOk result (HasWritten out.old.items out.new.items (spaced true (map (padded_in line) columns.now))) }
{
    let mut lacking = 0;
    let mut begins = true;
    for column in columns {
        push_spaces(out, lacking)?;
        if !begins {
            out.extend_from_slice(b"  ")?;
        }
        lacking = column.push_text(out, line)?;
        begins = false;
    }
    Ok(())
}

// How many spaces are at the end of a line.
fn spaces_at_end(line: &[u8]) -> usize
    ensures count { result ≡ suffix_len is_space line.now }
    ensures within { result ≤ length line.now }
{
    line.iter().rev().take_while(|byte| **byte == b' ').count()
}

// Removes the spaces at the end of the line that begins at a place.
fn trim(out: &mut Vec<u8>, start: usize)
    requires { start ≤ vec_len out.old }
    ensures { out.new.items ≡ take start out.old.items ++ trimmed (drop start out.old.items) }
{
    let spaces = spaces_at_end(&out[start..]);
    out.truncate(out.len() - spaces);
}

// Writes a line behind a text.
fn push_line(out: &mut Vec<u8>, columns: &[Column], line: Line) -> Result<(), AllocError>
    ensures { OnOk result (out.new.items ≡ out.old.items ++ line_text line columns.now) }
{
    let start = out.len();
    push_parts(out, columns, line)?;
    trim(out, start);
    out.push(b'\n')?;
    Ok(())
}

/// The greatest number of cells that a column has.
pub fn rows_of(columns: &[Column]) -> usize
    ensures { result ≡ rows_of columns.now }
{
    let mut rows = 0;
    for column in columns {
        rows = rows.max(column.len());
    }
    rows
}

/// Writes a table behind a text: a line of the titles, and one for each row. The columns are padded to their widths, with two spaces between each two, and
/// spaces at the end of a line are left out. A column with fewer cells than others has empty ones below them.
pub fn push_table(out: &mut Vec<u8>, columns: &[Column]) -> Result<(), AllocError>
    ensures { OnOk result (out.new.items ≡ out.old.items ++ table_text columns.now) }
{
    push_line(out, columns, Line::Heading)?;
    let rows = rows_of(columns);
    for row in 0..rows {
        push_line(out, columns, Line::Row(row))?;
    }
    Ok(())
}
