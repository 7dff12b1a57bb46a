//! Keys in order.
ghost use Rattle.std.specs.Prelude.{IfOk, IsPermutation, IsSorted};

use chunk_seats::Crew;
use rayon::prelude::par_sort_unstable;
use std::alloc::AllocError;

/// The keys in ascending order. It is the same for every crew where no two keys are equal; equal keys may change places. One worker,
/// and keys of one chunk, are sorted in the caller's thread. The only refusal is that memory is out.
pub(crate) fn sorted<C: Crew, K: Copy + Ord + Send>(
    crew: &C,
    keys: &[K],
) -> Result<Vec<K>, AllocError>
    ensures same_keys { IfOk result (λ v. IsPermutation keys.now v.items) }
    ensures ascending { IfOk result (λ v. IsSorted K.cmp v.items) }
{
    let plan = crew.plan();
    let mut all = Vec::from_slice(crew.alloc(), keys)?;
    if plan.workers == 1 || keys.len() <= plan.chunk as usize {
        all.sort_unstable();
    } else {
        par_sort_unstable(crew.runtime(), &mut all);
    }
    Ok(all)
}
