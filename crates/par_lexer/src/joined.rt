//! What is told of a text, put together from its stretches.
ghost use Rattle.std.specs.Prelude.{◌≡◌, ◌<◌, ◌≤◌, ◌^◌, length, IfOk};
ghost use Rattle.list_cuts.specs.Cuts.{AreCuts};
ghost use Rattle.par_lexer.specs.Known.{AreFunctions};
ghost use Rattle.state_monoid.specs.Numbering.{Numbering};
ghost use Rattle.par_lexer.specs.Stretches.{AreFrontsOf, ArePartsOf, AreTokens, IsAdded, Tells};

use crate::columns::Columns;
use crate::faults::Diagnostic;
use crate::fronts::fronts;
use crate::functions::Functions;
use crate::parts::{Part, parts};
use crate::stretch::Told;
use chunk_seats::{Crew, Plan};
use list_cuts::{even_cuts, stretch_start};
use par_passes::Passes;
use std::alloc::{AllocError, Global};

// This many stretches for each worker, since some take longer than others.
const SHARES: usize = 8;

// How many bytes a stretch has: so that each worker has its share, and never fewer than a chunk.
fn stretch_size(len: usize, plan: &Plan) -> usize
    ensures { 0 < result }
{
    (len / plan.workers as usize / SHARES).max(plan.chunk as usize)
}

// Puts what is told of the next stretch behind the columns, unless it is a fault.
fn add(
    columns: &mut Columns,
    text: &[u8],
    from: usize,
    to: usize,
    told: &Told,
) -> Result<Option<Diagnostic>, AllocError>
    requires columns { AreTokens text.now 0 from columns.old }
    requires told { Tells text.now from to told.now }
    ensures { IfOk result (IsAdded text.now to columns.new) }
{
    // The contract alone speaks of these.
    let _ = text;
    let _ = (from, to);
    match told {
        Told::Tokens(more) => {
            columns.append(more)?;
            Ok(None)
        }
        Told::Fault(diagnostic) => Ok(Some(*diagnostic)),
    }
}

// How many tokens are told.
fn count_tokens(told: &Told) -> usize {
    match told {
        Told::Tokens(columns) => columns.kinds.len(),
        Told::Fault(_) => 0,
    }
}

// How many tokens all have.
fn count_all(fronts: &[Told], parts: &[Part]) -> usize {
    let mut count = 0_usize;
    for front in fronts {
        count = count.saturating_add(count_tokens(front));
    }
    for part in parts {
        count = count.saturating_add(count_tokens(&part.told));
    }
    count
}

// What is told of the whole text: front and part of each stretch, one behind the other, up to the first fault.
fn join(
    alloc: Global,
    text: &[u8],
    ends: &[usize],
    fronts: &[Told],
    parts: &[Part],
) -> Result<Told, AllocError>
    requires cuts { AreCuts ends.now (length text.now) }
    requires fronts { AreFrontsOf text.now ends.now parts.now fronts.now }
    requires parts { (m : Numbering) × ArePartsOf m text.now ends.now parts.now }
    ensures { IfOk result (Tells text.now 0 (length text.now)) }
{
    let mut columns = Columns::with_capacity(alloc, count_all(fronts, parts))?;
    for c in 0..parts.len() {
        let part = &parts[c];
        let from = stretch_start(ends, c);
        if let Some(diagnostic) = add(&mut columns, text, from, part.known, &fronts[c])? {
            return Ok(Told::Fault(diagnostic));
        }
        if let Some(diagnostic) = add(&mut columns, text, part.known, ends[c], &part.told)? {
            return Ok(Told::Fault(diagnostic));
        }
    }
    Ok(Told::Tokens(columns))
}

// By the whole crew: what stretches tell by themselves, and then their fronts.
pub(crate) fn tell_by_stretches(
    crew: &impl Passes,
    functions: &Functions,
    text: &[u8],
) -> Result<Told, AllocError>
    requires len { length text.now ≤ 2 ^ 24 }
    requires functions { AreFunctions functions.now }
    ensures { IfOk result (Tells text.now 0 (length text.now)) }
{
    let alloc = crew.alloc();
    let ends = even_cuts(alloc, text.len(), stretch_size(text.len(), &crew.plan()))?;
    let ends = ends.as_slice();
    let parts = parts(crew, functions, text, ends)?;
    let fronts = fronts(crew, functions, text, ends, parts.as_slice())?;
    join(alloc, text, ends, fronts.as_slice(), parts.as_slice())
}
