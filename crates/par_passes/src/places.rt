//! Items at places.
ghost use Rattle.std.specs.Prelude.{◌≡◌, ◌<◌, ◌^◌, length, slice_index_or, All, map, IfOk};

use crate::each::map;
use chunk_seats::Crew;
use std::alloc::AllocError;

/// The item at each of the places, in the places' order. It is the same for every crew. The only refusal is that memory is
/// out.
pub(crate) fn gather<C: Crew, T: Copy + Send + Sync>(
    crew: &C,
    items: &[T],
    places: &[u64],
) -> Result<Vec<T>, AllocError>
    requires len { length places.now < 2 ^ 62 }
    requires in_range { All (λ p. p < length items.now) places.now }
    ensures { IfOk result (λ v. (d : T) → v.items ≡ map (λ p. slice_index_or items.now p d) places.now) }
{
    map(crew, places, &|p: u64| items[p as usize])
}
