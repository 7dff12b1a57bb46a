//! Items that are marked.
ghost use Rattle.std.specs.Prelude.{◌≡◌, ◌<◌, ◌^◌, [], ◌∷◌, ◌++◌, cond, length, map, filter, IfOk};
ghost use Rattle.std.specs.List.{zip};
ghost use Rattle.chunk_seats.specs.Chunks.{chunk_of};
ghost use Rattle.par_passes.specs.Passes.{marked};

use crate::crew::by_chunks;
use chunk_seats::Crew;
use std::alloc::{AllocError, Global};
use worker_teams::{chunk_slice, count_chunks};

// The value where it is to be kept, right behind what is in the list.
pub(crate) fn push_if<T: Copy>(keep: bool, x: T, out: &mut Vec<T>) -> Result<(), AllocError>
    ensures { IfOk result (λ _. out.new.items ≡ out.old.items ++ cond keep (x ∷ []) []) }
{
    if keep {
        out.push(x)?;
    }
    Ok(())
}

// The marked items, in their order.
fn keep_marked<T: Copy>(alloc: Global, items: &[T], marks: &[bool]) -> Result<Vec<T>, AllocError>
    requires marks { length marks.now ≡ length items.now }
    ensures { IfOk result (λ v. v.items ≡ marked items.now marks.now) }
{
    let mut out = Vec::with_capacity(alloc, items.len())?;
    for (k, x) in items.iter().enumerate() {
        push_if(marks[k], *x, &mut out)?;
    }
    Ok(out)
}

// The marked items of one chunk.
fn keep_chunk<T: Copy>(
    alloc: Global,
    items: &[T],
    marks: &[bool],
    size: u32,
    c: u64,
) -> Result<Vec<T>, AllocError>
    requires marks { length marks.now ≡ length items.now }
    ensures { IfOk result (λ v. v.items ≡ marked (chunk_of size items.now c) (chunk_of size marks.now c)) }
{
    keep_marked(
        alloc,
        chunk_slice(items, size, c),
        chunk_slice(marks, size, c),
    )
}

/// The items that are marked, in the items' order. It is the same for every crew. The only refusal is that memory is out.
pub(crate) fn compact<C: Crew, T: Copy + Send + Sync>(
    crew: &C,
    items: &[T],
    marks: &[bool],
) -> Result<Vec<T>, AllocError>
    requires len { length items.now < 2 ^ 62 }
    requires marks { length marks.now ≡ length items.now }
    ensures { IfOk result (λ v. v.items ≡ map (λ p. p.0) (filter (λ p. p.1) (zip items.now marks.now))) }
{
    let size = crew.plan().chunk;
    let alloc = crew.alloc();
    let make = |c: u64| -> Result<Vec<T>, AllocError>
        requires { length marks.now ≡ length items.now }
        ensures { IfOk result (λ v. v.items ≡ marked (chunk_of size items.entry.now c) (chunk_of size marks.entry.now c)) }
    { keep_chunk(alloc, items, marks, size, c) };
    let count = count_chunks(items.len(), size);
    by_chunks(crew, count, items.len(), &make)
}
