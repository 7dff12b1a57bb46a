//! The picture of the syntax tree.

ghost use Rattle.std.specs.Prelude.{◌≡◌, ◌≤◌, ◌<◌, ◌++◌, flat_map, length, map, slice_index_or, OnOk};
ghost use Rattle.std.specs.List.{range_with_len};
ghost use Rattle.pass_page.specs.Page.{canvas, node, node_at, tree_box};

use crate::escaped::{push_box_end, push_box_start, push_decimal, push_escaped};
use crate::levels::{deepest, levels};
use ast_rows::Rows;
use ast_rows::reading::{kind, number};
use pass_tables::push_kind;
use std::alloc::{AllocError, Global};

// Where a row stands in the picture: its number, its level, and how many rows on its parent stands.
#[derive(Clone, Copy)]
struct Spot {
    line: u32,
    level: u32,
    up: u32,
}

// Writes a row of the picture behind a text.
fn push_node(out: &mut Vec<u8>, spot: Spot, kind: &[u8]) -> Result<(), AllocError>
    ensures { OnOk result (out.new.items ≡ out.old.items ++ node spot.line spot.level spot.up kind.now) }
{
    out.extend_from_slice(b"<g transform='translate(")?;
    push_decimal(out, 16 * u64::from(spot.level) + 20)?;
    out.push(b',')?;
    push_decimal(out, 20 * u64::from(spot.line) + 14)?;
    out.extend_from_slice(b")'><path d='M-4-4h-16v")?;
    push_decimal(out, 20 * u64::from(spot.up))?;
    out.extend_from_slice(b"'/><text>")?;
    push_escaped(out, kind)?;
    out.extend_from_slice(b"</text></g>\n")
}

// Where row k stands.
fn spot_of(rows: &Rows, levels: &[u32], k: u32) -> Spot
    requires within { k < length rows.now }
    ensures line { result.line ≡ k }
    ensures level { result.level ≡ slice_index_or levels.now k 0 }
    ensures up { result.up ≡ slice_index_or (map (λ r. r.up) rows.now) k 0 }
{
    Spot {
        line: k,
        level: number(levels, k),
        up: number(rows.parents(), k).saturating_sub(k),
    }
}

// Writes row k of the picture behind a text. The text of its kind is written into these bytes.
fn push_row(
    out: &mut Vec<u8>,
    text: &mut Vec<u8>,
    rows: &Rows,
    levels: &[u32],
    k: u32,
) -> Result<(), AllocError>
    requires within { k < length rows.now }
    ensures { OnOk result (out.new.items ≡ out.old.items ++ node_at rows.now levels.now k) }
{
    text.clear();
    push_kind(text, kind(rows.kinds(), k))?;
    push_node(out, spot_of(rows, levels, k), text)
}

// Writes all rows of the picture behind a text.
fn push_rows(
    alloc: Global,
    out: &mut Vec<u8>,
    rows: &Rows,
    levels: &[u32],
) -> Result<(), AllocError>
    requires few { length rows.now ≤ 4294967295 }
    ensures { OnOk result (out.new.items ≡ out.old.items ++ flat_map (node_at rows.now levels.now) (range_with_len 0 (length rows.now))) }
{
    let mut text = Vec::new(alloc);
    for k in 0..rows.len() {
        push_row(out, &mut text, rows, levels, k as u32)?;
    }
    Ok(())
}

// Writes what stands before the rows of a picture behind a text: how large it is.
fn push_canvas(out: &mut Vec<u8>, levels: &[u32]) -> Result<(), AllocError>
    requires few { length levels.now ≤ 4294967295 }
    ensures { OnOk result (out.new.items ≡ out.old.items ++ canvas levels.now) }
{
    out.extend_from_slice(b"<svg id=tree width=")?;
    push_decimal(out, 16 * u64::from(deepest(levels)) + 180)?;
    out.extend_from_slice(b" height=")?;
    push_decimal(out, 20 * levels.len() as u64)?;
    out.extend_from_slice(b">\n")
}

/// Writes the box of a syntax tree behind a text: its picture, with a line for each row and a path from it to its parent.
pub fn push_tree_box(alloc: Global, out: &mut Vec<u8>, rows: &Rows) -> Result<(), AllocError>
    requires few { length rows.now ≤ 4294967295 }
    ensures { OnOk result (out.new.items ≡ out.old.items ++ tree_box rows.now) }
{
    let levels = levels(alloc, rows)?;
    push_box_start(out, b"tree")?;
    push_canvas(out, &levels)?;
    push_rows(alloc, out, rows, &levels)?;
    out.extend_from_slice(b"</svg>")?;
    push_box_end(out)
}
