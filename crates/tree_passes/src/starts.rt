//! What holds before each stretch of a parse: how many nonterminals are open, and how many owned tokens are read.
ghost use Rattle.std.specs.Prelude.{◌≡◌, ◌<◌, ◌≤◌, suc, length, IfOk};
ghost use Rattle.tree_passes.specs.Stretches.{AreStarts, AreTallies, IsCut, tally_of};

use list_cuts::stretch_start;
use par_passes::Passes;
use row_pieces::{Tally, level_at, tally_stretch};
use std::alloc::{AllocError, Global};

/// The numbers of a left parse's productions, and where its stretches end.
#[derive(Clone, Copy)]
pub(crate) struct Parse<'a> {
    pub(crate) numbers: &'a [u16],
    pub(crate) ends: &'a [usize],
}

/// What holds before a production.
#[derive(Clone, Copy)]
pub(crate) struct Start {
    /// How many nonterminals are open.
    pub(crate) level: u32,
    /// How many owned tokens are read.
    pub(crate) read: u32,
}

// What stretch number c opens and reads.
fn tally_by_number(parse: Parse<'_>, c: usize) -> Tally
    requires cut { IsCut parse.numbers.now parse.ends.now }
    requires inside { c < length parse.ends.now }
    ensures { result ≡ tally_of parse.entry.numbers.now parse.entry.ends.now c }
{
    let from = stretch_start(parse.ends, c);
    tally_stretch(parse.numbers, from, parse.ends[c])
}

/// What each of this many stretches opens and reads.
pub(crate) fn tally_all(
    crew: &impl Passes,
    parse: Parse<'_>,
    count: usize,
) -> Result<Vec<Tally>, AllocError>
    requires cut { IsCut parse.numbers.now parse.ends.now }
    requires count { count ≤ length parse.ends.now }
    ensures many { IfOk result (λ v. length v.items ≡ count) }
    ensures tallies { IfOk result (λ v. AreTallies parse.entry.numbers.now parse.entry.ends.now v.items) }
{
    let make = |c: u64| -> Result<Tally, AllocError>
        requires { IsCut parse.numbers.now parse.ends.now × (c < length parse.ends.now) }
        ensures { IfOk result (λ v. v ≡ tally_of parse.entry.numbers.now parse.entry.ends.now c) }
    { Ok(tally_by_number(parse, c as usize)) };
    crew.bundles(count, &make)
}

/// What holds before the stretches of these tallies, and behind them.
pub(crate) fn add_up(
    alloc: Global,
    parse: Parse<'_>,
    tallies: &[Tally],
) -> Result<Vec<Start>, AllocError>
    requires cut { IsCut parse.numbers.now parse.ends.now }
    requires few { length tallies.now ≤ length parse.ends.now }
    requires tallies { AreTallies parse.numbers.now parse.ends.now tallies.now }
    ensures many { IfOk result (λ v. length v.items ≡ suc (length tallies.now)) }
    ensures starts { IfOk result (λ v. AreStarts parse.entry.numbers.now parse.entry.ends.now v.items) }
{
    let mut starts = Vec::with_capacity(alloc, tallies.len() + 1)?;
    let mut kids = 0;
    let mut read = 0;
    starts.push(Start { level: 1, read: 0 })?;
    for c in 0..tallies.len() {
        kids += tallies[c].kids;
        read += tallies[c].reads;
        let level = level_at(kids, parse.ends[c] as u32);
        starts.push(Start { level, read })?;
    }
    Ok(starts)
}
