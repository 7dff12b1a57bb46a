//! What is made of each number, as a list of its own for each: bundles, in the order of the numbers.
ghost use Rattle.std.specs.Prelude.{◌≡◌, ℕ, ◌<◌, ◌^◌, All, Some, Ok, length, map, slice_get, IfOk};
ghost use Rattle.std.specs.List.{range_with_len};
ghost use Rattle.chunk_seats.specs.Tallies.{times, OnceBelow};
ghost use Rattle.par_passes.specs.Passes.{Gives};

use crate::crew::{Made, run};
use chunk_seats::{ClaimBoard, Crew};
use scan_lookback::by_number;
use std::alloc::{AllocError, Global};

/// What stands beside the numbers, in their order: each number below the count stands once among the pairs. The only refusal is that memory
/// is out.
pub fn in_order<B: Drop>(
    alloc: Global,
    count: usize,
    pairs: Vec<(u64, B)>,
) -> Result<Vec<B>, AllocError>
    requires once { OnceBelow count (λ n. times n (map (λ p. p.0) pairs.items)) }
    ensures len { IfOk result (λ v. length v.items ≡ count) }
    ensures each { IfOk result (λ v. (c : ℕ) (x : B) → slice_get v.items c ≡ Some x → (i : ℕ) × (slice_get pairs.items i ≡ Some (c, x))) }
{
    let slots = by_number(alloc, count, pairs)?;
    let mut bundles = Vec::with_capacity(alloc, count)?;
    for slot in slots {
        let Some(bundle) = slot else { unreachable!() };
        bundles.push(bundle)?;
    }
    Ok(bundles)
}

/// What is made of each number below `count`, in the order of the numbers, for every crew.
pub(crate) fn bundles<C: Crew, B: Drop + Send, F: Fn(u64) -> Result<B, AllocError> + Sync>(
    crew: &C,
    count: usize,
    make: &F,
) -> Result<Vec<B>, AllocError>
    requires count { count < 2 ^ 62 }
    requires callable { All (F.pre make.now) (range_with_len 0 count) }
    ensures { IfOk result (λ v. Gives (λ c b. F.post make.now c (Ok b)) (range_with_len 0 count) v.items) }
{
    let workers = (crew.plan().workers as usize).min(count.max(1)) as u32;
    let (claims, mine) = ClaimBoard::new(crew.alloc(), count as u64, workers)?;
    let Made { mine, all } = run(crew, &claims, mine, workers, make)?;
    claims.close(mine);
    in_order(crew.alloc(), count, all)
}
