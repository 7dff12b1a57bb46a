//! Where the walk stands before each stretch.
ghost use Rattle.std.specs.Prelude.{◌≡◌, ◌-◌, ◌<◌, ◌≤◌, length, map, IfOk};
ghost use Rattle.row_pieces.specs.Reduced.{reduced};
ghost use Rattle.tree_passes.specs.Stretches.{AreHanded, AreReduced, AreStarts, IsCut, pieces_of_stretch};

use crate::starts::{Parse, Start};
use list_cuts::stretch_start;
use par_passes::Passes;
use row_pieces::{Piece, Point, Standing, reduce_stretch};
use std::alloc::{AllocError, Global};

// What is left of the pieces of stretch number c.
fn reduce_by_number(
    alloc: Global,
    parse: Parse<'_>,
    starts: &[Start],
    c: usize,
) -> Result<Vec<Piece>, AllocError>
    requires cut { IsCut parse.numbers.now parse.ends.now }
    requires starts { AreStarts parse.numbers.now parse.ends.now starts.now }
    requires begun { c < length starts.now }
    requires inside { c < length parse.ends.now }
    ensures { IfOk result (λ v. v.items ≡ reduced (pieces_of_stretch parse.entry.numbers.now parse.entry.ends.now c)) }
{
    let place = stretch_start(parse.ends, c);
    let start = starts[c];
    let from = Point {
        place,
        level: start.level,
        read: start.read,
    };
    reduce_stretch(alloc, parse.numbers, from, parse.ends[c])
}

/// What is left of the pieces of this many stretches.
pub(crate) fn reduce_all(
    crew: &impl Passes,
    parse: Parse<'_>,
    starts: &[Start],
    count: usize,
) -> Result<Vec<Vec<Piece>>, AllocError>
    requires cut { IsCut parse.numbers.now parse.ends.now }
    requires starts { AreStarts parse.numbers.now parse.ends.now starts.now }
    requires begun { count ≤ length starts.now }
    requires count { count ≤ length parse.ends.now }
    ensures many { IfOk result (λ v. length v.items ≡ count) }
    ensures lists { IfOk result (λ v. AreReduced parse.entry.numbers.now parse.entry.ends.now (map (λ l. l.items) v.items)) }
{
    let alloc = crew.alloc();
    let make = |c: u64| -> Result<Vec<Piece>, AllocError>
        requires { IsCut parse.numbers.now parse.ends.now × AreStarts parse.numbers.now parse.ends.now starts.now × (c < length starts.now) × (c < length parse.ends.now) }
        ensures { IfOk result (λ v. v.items ≡ reduced (pieces_of_stretch parse.entry.numbers.now parse.entry.ends.now c)) }
    { reduce_by_number(alloc, parse, starts, c as usize) };
    crew.bundles(count, &make)
}

/// What each stretch is walked over from: the rows that are open before it and that it may meet. The lists have the pieces of all stretches but the last
/// one, which meets all that is open.
pub(crate) fn hand_out(
    alloc: Global,
    parse: Parse<'_>,
    lists: &[Vec<Piece>],
) -> Result<Vec<Standing>, AllocError>
    requires cut { IsCut parse.numbers.now parse.ends.now }
    requires all_but_last { length lists.now ≡ length parse.ends.now - 1 }
    requires lists { AreReduced parse.numbers.now parse.ends.now (map (λ l. l.items) lists.now) }
    ensures { IfOk result (λ v. AreHanded parse.entry.numbers.now parse.entry.ends.now v.items) }
{
    // The contract alone speaks of it.
    let _ = parse.numbers;
    let mut handed = Vec::with_capacity(alloc, lists.len() + 1)?;
    let mut standing = Standing::new(alloc);
    for pieces in lists {
        handed.push(standing.cut_off(alloc, pieces.as_slice())?)?;
        standing.act_all(pieces.as_slice())?;
    }
    handed.push(standing)?;
    Ok(handed)
}
