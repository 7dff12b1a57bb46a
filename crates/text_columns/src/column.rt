// A column of a table.

ghost use Rattle.std.specs.Prelude.{◌≡◌, ◌≤◌, ◌<◌, ◌-◌, ◌++◌, ◌∷◌, [], length, decimal, slice_index, slice_index_or, IfOk, OnErr, OnOk};
ghost use Rattle.text_columns.specs.Columns.{cell_at, spaces};
ghost use Rattle.text_columns.specs.Kept.{AreEnds, cells_from};
ghost use Rattle.text_columns.specs.Lines.{before, behind, lacking_in, text_in, written_in};

use itoa::Buffer;
use std::alloc::{AllocError, Global};
use std::marker::Model;

/// Where the texts of a column stand in it.
#[derive(Clone, Copy, PartialEq, Eq, Debug)]
pub enum Align {
    /// At its left, with spaces behind them.
    Left,
    /// At its right, with spaces before them.
    Right,
}

/// A line of a table: the titles, or the cells with a number, from 0 on.
#[derive(Clone, Copy)]
pub(crate) enum Line {
    Heading,
    Row(usize),
}

/// Writes spaces behind a text.
pub(crate) fn push_spaces(out: &mut Vec<u8>, count: usize) -> Result<(), AllocError>
    ensures { OnOk result (out.new.items ≡ out.old.items ++ spaces count) }
{
    for _ in 0..count {
        out.push(b' ')?;
    }
    Ok(())
}

// Writes a text behind the spaces that it lacks, or tells how many it lacks behind it.
fn push_aligned(
    out: &mut Vec<u8>,
    align: Align,
    width: usize,
    text: &[u8],
) -> Result<usize, AllocError>
    ensures { IfOk result (λ lacking. (out.new.items ≡ out.old.items ++ before align (width - length text.now) ++ text.now) × (lacking ≡ behind align (width - length text.now))) }
{
    let lacking = width.saturating_sub(text.len());
    match align {
        Align::Left => {
            out.extend_from_slice(text)?;
            Ok(lacking)
        }
        Align::Right => {
            push_spaces(out, lacking)?;
            out.extend_from_slice(text)?;
            Ok(0)
        }
    }
}

// Where the cell of a row begins.
fn start_of(ends: &[usize], row: usize) -> usize
    requires { row < length ends.now }
    ensures { result ≡ slice_index (0 ∷ ends.now) row }
{
    if row == 0 { 0 } else { ends[row - 1] }
}

// The cell of a row, or nothing where there are fewer.
fn cell_of<'a>(bytes: &'a [u8], ends: &[usize], row: usize) -> &'a [u8]
    requires { AreEnds 0 ends.now (length bytes.now) }
    ensures { result.now ≡ slice_index_or (cells_from 0 ends.now bytes.now) row [] }
{
    if row < ends.len() {
        &bytes[start_of(ends, row)..ends[row]]
    } else {
        &bytes[..0]
    }
}

/// A column of a table: a title, and cells below it. Each byte of a text is one character wide.
#[derive(Drop)]
pub struct Column {
    title: Vec<u8>,
    align: Align,
    /// The cells, one behind the other.
    bytes: Vec<u8>,
    /// Where each of them ends.
    ends: Vec<usize>,
    /// The greatest length of the title and the cells.
    width: usize,
}

impl Model for Column {
    ghost use Rattle.text_columns.specs.Columns.{Column as TextColumn};

    ghost Value = { TextColumn };

    ghost use Rattle.text_columns.specs.Kept.{IsKept, cells_from};

    ghost view = { λ c. record { title = c.title.items; align = c.align; cells = cells_from 0 c.ends.items c.bytes.items } };

    ghost invariant = { λ c. IsKept (record { title = c.title.items; align = c.align; cells = cells_from 0 c.ends.items c.bytes.items }) c.ends.items c.bytes.items c.width };
}

impl Column {
    /// A column without cells.
    pub fn new(alloc: Global, title: &[u8], align: Align) -> Result<Column, AllocError>
        ensures { IfOk result (λ column. column ≡ record { title = title.now; align = align; cells = [] }) }
    {
        let width = title.len();
        Ok(Column {
            title: Vec::from_slice(alloc, title)?,
            align,
            bytes: Vec::new(alloc),
            ends: Vec::new(alloc),
            width,
        })
    }

    /// Puts a cell below the others. Where memory runs out, the column stays as it is.
    pub fn push(&mut self, cell: &[u8]) -> Result<(), AllocError>
        ensures ok { OnOk result (self.new ≡ record self.old { cells = self.old.cells ++ cell.now ∷ [] }) }
        ensures err { OnErr result (self.new ≡ self.old) }
    {
        let start = self.bytes.len();
        self.bytes.extend_from_slice(cell)?;
        if self.ends.push(self.bytes.len()).is_err() {
            self.bytes.truncate(start);
            return Err(AllocError);
        }
        self.width = self.width.max(cell.len());
        Ok(())
    }

    /// Puts a number in decimal below the other cells. Where memory runs out, the column stays as it is.
    pub fn push_number(&mut self, number: u64) -> Result<(), AllocError>
        ensures ok { OnOk result (self.new ≡ record self.old { cells = self.old.cells ++ decimal number ∷ [] }) }
        ensures err { OnErr result (self.new ≡ self.old) }
    {
        let mut buffer = Buffer::new();
        self.push(buffer.format(number).as_bytes())
    }

    /// How many cells there are.
    pub fn len(&self) -> usize
        ensures { result ≡ length self.now.cells }
    {
        self.ends.len()
    }

    /// The title.
    pub fn title(&self) -> &[u8]
        ensures { result.now ≡ self.now.title }
    {
        &self.title
    }

    /// Where texts stand in the column.
    pub fn align(&self) -> Align
        ensures { result ≡ self.now.align }
    {
        self.align
    }

    /// The cell with a number, from 0 on; nothing where there are fewer.
    pub fn cell(&self, number: usize) -> &[u8]
        ensures { result.now ≡ cell_at self.now number }
    {
        cell_of(&self.bytes, &self.ends, number)
    }

    // What the column has in a line.
    fn text(&self, line: Line) -> &[u8]
        ensures { result.now ≡ text_in line self.now }
    {
        match line {
            Line::Heading => self.title(),
            Line::Row(row) => self.cell(row),
        }
    }

    /// Writes what the column has in a line, but for the spaces behind it that make it as wide as the column: how many these are.
    pub(crate) fn push_text(&self, out: &mut Vec<u8>, line: Line) -> Result<usize, AllocError>
        ensures { IfOk result (λ lacking. (out.new.items ≡ out.old.items ++ written_in line self.now) × (lacking ≡ lacking_in line self.now)) }
    {
        push_aligned(out, self.align, self.width, self.text(line))
    }
}
