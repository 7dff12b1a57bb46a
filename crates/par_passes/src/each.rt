//! A function of each item.
ghost use Rattle.std.specs.Prelude.{◌≡◌, ◌<◌, ◌^◌, length, All, map, IfOk};
ghost use Rattle.par_passes.specs.Passes.{GaveAt, Gives};

use crate::dealt::fill_by_number;
use chunk_seats::Crew;
use scan_lookback::Lift;
use std::alloc::AllocError;

// What the function gives for each item, which is asked of the items by its number.
fn map_by_number<C: Crew, T: Copy + Sync, U: Copy + Send + Sync, F: Fn(T) -> U + Sync>(
    crew: &C,
    items: &[T],
    f: &F,
) -> Result<Vec<U>, AllocError>
    requires len { length items.now < 2 ^ 62 }
    requires callable { All (F.pre f.now) items.now }
    ensures { IfOk result (λ v. Gives (F.post f.now) items.now v.items) }
{
    let at = |k: usize| -> U
        requires { (k < length items.now) × All (F.pre f.now) items.now }
        ensures { GaveAt (F.post f.entry.now) items.entry.now k result }
    { f(items[k]) };
    fill_by_number(crew, items.len(), &at)
}

/// What the function gives for each item, in the items' order. It is called once for each item. Where it computes, the list is the same for
/// every crew. The only refusal is that memory is out.
pub(crate) fn map<C: Crew, T: Copy + Sync, U: Copy + Send + Sync, F: Fn(T) -> U + Sync>(
    crew: &C,
    items: &[T],
    f: &F,
) -> Result<Vec<U>, AllocError>
    requires len { length items.now < 2 ^ 62 }
    requires callable { All (F.pre f.now) items.now }
    ensures len { IfOk result (λ v. length v.items ≡ length items.now) }
    ensures each { IfOk result (λ v. Gives (F.post f.now) items.now v.items) }
    ensures values { IfOk result (λ v. (g : T → U) → All (λ x. (r : U) → F.post f.now x r → r ≡ g x) items.now → v.items ≡ map g items.now) }
{
    map_by_number(crew, items, f)
}

/// The same for a function that contracts can name.
pub(crate) fn map_lifted<C: Crew, T: Copy + Sync, U: Copy + Send + Sync, L: Lift<T, U> + Sync>(
    crew: &C,
    items: &[T],
    lift: &L,
) -> Result<Vec<U>, AllocError>
    requires len { length items.now < 2 ^ 62 }
    ensures { IfOk result (λ v. v.items ≡ map (L.lifted lift.now) items.now) }
{
    map(crew, items, &|x: T| lift.lift(x))
}
