// Columns of text, and tables of them.

use std::alloc::{AllocError, Global};
use std::test::Fail;
use text_columns::{Align, Column, push_table};

/// A column of cells.
fn column_of(
    alloc: Global,
    title: &[u8],
    align: Align,
    cells: &[&[u8]],
) -> Result<Column, AllocError> {
    let mut column = Column::new(alloc, title, align)?;
    for cell in cells {
        column.push(*cell)?;
    }
    Ok(column)
}

/// A column of numbers.
fn numbers_of(alloc: Global, title: &[u8], numbers: &[u64]) -> Result<Column, AllocError> {
    let mut column = Column::new(alloc, title, Align::Right)?;
    for number in numbers {
        column.push_number(*number)?;
    }
    Ok(column)
}

/// The table of columns, behind a line that ends in spaces.
fn table_of(alloc: Global, columns: &[Column]) -> Result<Vec<u8>, AllocError> {
    let mut text = Vec::from_slice(alloc, b"above  ")?;
    push_table(&mut text, columns)?;
    Ok(text)
}

#[test]
fn writes_no_column(rt: HostRuntime) -> Result<(), Fail> {
    let text = table_of(rt.alloc(), &[])?;
    assert_eq!(rt; text.as_slice(), b"above  \n".as_slice());
    Ok(())
}

#[test]
fn writes_columns_of_both_kinds(rt: HostRuntime) -> Result<(), Fail> {
    let places = numbers_of(rt.alloc(), b"row", &[0, 1, 2])?;
    let kinds = column_of(
        rt.alloc(),
        b"kind",
        Align::Left,
        &[b"Name", b"Multiply", b"If"],
    )?;
    let bytes = numbers_of(rt.alloc(), b"bytes", &[u64::MAX, 0])?;
    let notes = column_of(rt.alloc(), b"note", Align::Left, &[b"", b"a b ", b""])?;
    assert_eq!(rt; bytes.len(), 2);
    let text = table_of(rt.alloc(), &[places, kinds, bytes, notes])?;
    assert_eq!(rt;
        text.as_slice(),
        b"\
above  row  kind                     bytes  note
  0  Name      18446744073709551615
  1  Multiply                     0  a b
  2  If
"
            .as_slice()
    );
    Ok(())
}

#[test]
fn writes_short_columns(rt: HostRuntime) -> Result<(), Fail> {
    let short = column_of(rt.alloc(), b"", Align::Right, &[b"*"])?;
    let long = column_of(rt.alloc(), b"", Align::Left, &[b"one", b"", b"three"])?;
    let text = table_of(rt.alloc(), &[short, long])?;
    assert_eq!(rt;
        text.as_slice(),
        b"above  \n*  one\n\n   three\n".as_slice()
    );
    Ok(())
}
