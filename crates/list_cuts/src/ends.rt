//! Where the stretches end that the workers of a crew draw.
ghost use Rattle.std.specs.Prelude.{◌<◌, IfOk};
ghost use Rattle.list_cuts.specs.Cuts.{AreCuts};

use crate::cuts::even_cuts;
use chunk_seats::{Crew, Plan};
use std::alloc::AllocError;

// How long a stretch is: so that each worker has that many shares, and never shorter than a chunk. One worker takes all.
fn stretch_size(places: usize, plan: &Plan, shares: u32) -> usize
    requires { 0 < shares }
    ensures { 0 < result }
{
    if plan.workers == 1 {
        places.max(1)
    } else {
        (places / plan.workers as usize / shares as usize).max(plan.chunk as usize)
    }
}

/// Where the stretches end in which a crew takes this many places. Each worker has `shares` of them, since some take longer than others, where they are no
/// shorter than a chunk. The only refusal is that memory is out.
pub fn stretch_ends(crew: &impl Crew, places: usize, shares: u32) -> Result<Vec<usize>, AllocError>
    requires { 0 < shares }
    ensures { IfOk result (λ v. AreCuts v.items places) }
{
    even_cuts(
        crew.alloc(),
        places,
        stretch_size(places, &crew.plan(), shares),
    )
}
