//! Passes over the numbers of items: their places, and values made from numbers.
ghost use Rattle.std.specs.Prelude.{◌≡◌, ℕ, ◌+◌, ◌-◌, ◌<◌, ◌≤◌, ◌^◌, min, Bool, List, length, All, map, filter, IfOk};
ghost use Rattle.std.specs.List.{range_with_len};
ghost use Rattle.chunk_seats.specs.Chunks.{chunk_of};
ghost use Rattle.par_passes.specs.Passes.{GaveAt, Gives, marked};

use crate::crew::by_chunks;
use crate::dealt::fill_by_number;
use crate::marked::push_if;
use chunk_seats::Crew;
use std::alloc::{AllocError, Global};
use worker_teams::{chunk_start, count_chunks};

// Those of this many numbers, from one on, for which the function says true.
fn choose_between<F: Fn(usize) -> bool>(
    alloc: Global,
    from: usize,
    count: usize,
    f: &F,
) -> Result<Vec<u32>, AllocError>
    requires room { from + count ≤ 2 ^ 32 }
    requires callable { All (F.pre f.now) (range_with_len from count) }
    ensures { IfOk result (λ v. (g : ℕ → Bool) → All (λ k. (r : Bool) → F.post f.now k r → r ≡ g k) (range_with_len from count) → v.items ≡ filter g (range_with_len from count)) }
{
    let mut out = Vec::with_capacity(alloc, count)?;
    for i in 0..count {
        push_if(f(from + i), (from + i) as u32, &mut out)?;
    }
    Ok(out)
}

// The numbers of one chunk.
fn choose_chunk<F: Fn(usize) -> bool>(
    alloc: Global,
    len: usize,
    size: u32,
    c: u64,
    f: &F,
) -> Result<Vec<u32>, AllocError>
    requires len { len ≤ 2 ^ 32 }
    requires callable { All (F.pre f.now) (range_with_len 0 len) }
    ensures { IfOk result (λ v. (g : ℕ → Bool) → All (λ k. (r : Bool) → F.post f.now k r → r ≡ g k) (range_with_len 0 len) → v.items ≡ filter g (chunk_of size (range_with_len 0 len) c)) }
{
    let from = chunk_start(len, size, c);
    choose_between(alloc, from, (len - from).min(size as usize), f)
}

// The numbers below a length for which the function says true, in order.
fn choose<C: Crew, F: Fn(usize) -> bool + Sync>(
    crew: &C,
    len: usize,
    f: &F,
) -> Result<Vec<u32>, AllocError>
    requires len { len ≤ 2 ^ 32 }
    requires callable { All (F.pre f.now) (range_with_len 0 len) }
    ensures { IfOk result (λ v. (g : ℕ → Bool) → All (λ k. (r : Bool) → F.post f.now k r → r ≡ g k) (range_with_len 0 len) → v.items ≡ filter g (range_with_len 0 len)) }
{
    let size = crew.plan().chunk;
    let alloc = crew.alloc();
    let make = |c: u64| -> Result<Vec<u32>, AllocError>
        requires { (len ≤ 2 ^ 32) × All (F.pre f.now) (range_with_len 0 len) }
        ensures { IfOk result (λ v. (g : ℕ → Bool) → All (λ k. (r : Bool) → F.post f.entry.now k r → r ≡ g k) (range_with_len 0 len) → v.items ≡ filter g (chunk_of size (range_with_len 0 len) c)) }
    { choose_chunk(alloc, len, size, c, f) };
    by_chunks(crew, count_chunks(len, size), len, &make)
}

/// The places of the items for which the function says true, in order. They are the same for every crew. The only refusal is that
/// memory is out.
pub(crate) fn positions<C: Crew, T: Copy + Sync, F: Fn(T) -> bool + Sync>(
    crew: &C,
    items: &[T],
    f: &F,
) -> Result<Vec<u32>, AllocError>
    requires len { length items.now ≤ 2 ^ 32 }
    requires callable { All (F.pre f.now) items.now }
    ensures { IfOk result (λ v. (g : T → Bool) → All (λ x. (r : Bool) → F.post f.now x r → r ≡ g x) items.now → v.items ≡ marked (range_with_len 0 (length items.now)) (map g items.now)) }
{
    let at = |k: usize| -> bool
        requires { (k < length items.now) × All (F.pre f.now) items.now }
        ensures { GaveAt (F.post f.entry.now) items.entry.now k result }
    { f(items[k]) };
    choose(crew, items.len(), &at)
}

/// The numbers below `count` for which the function says true, in order. They are the same for every crew. The only refusal is that memory
/// is out.
pub(crate) fn numbers_where<C: Crew, F: Fn(u32) -> bool + Sync>(
    crew: &C,
    count: u32,
    f: &F,
) -> Result<Vec<u32>, AllocError>
    requires callable { All (F.pre f.now) (range_with_len 0 count) }
    ensures { IfOk result (λ v. (g : ℕ → Bool) → All (λ k. (r : Bool) → F.post f.now k r → r ≡ g k) (range_with_len 0 count) → v.items ≡ filter g (range_with_len 0 count)) }
{
    let at = |k: usize| -> bool
        requires { (k < 2 ^ 32) × F.pre f.now k }
        ensures { F.post f.entry.now k result }
    { f(k as u32) };
    choose(crew, count as usize, &at)
}

/// What the function gives for each number below `count`, in order. It is called once for each number. Where it computes, the list is the
/// same for every crew. The only refusal is that memory is out.
pub(crate) fn tabulate<C: Crew, U: Copy + Send + Sync, F: Fn(u32) -> U + Sync>(
    crew: &C,
    count: u32,
    f: &F,
) -> Result<Vec<U>, AllocError>
    requires callable { All (F.pre f.now) (range_with_len 0 count) }
    ensures len { IfOk result (λ v. length v.items ≡ count) }
    ensures each { IfOk result (λ v. Gives (F.post f.now) (range_with_len 0 count) v.items) }
    ensures values { IfOk result (λ v. (g : ℕ → U) → All (λ k. (r : U) → F.post f.now k r → r ≡ g k) (range_with_len 0 count) → v.items ≡ map g (range_with_len 0 count)) }
{
    let at = |k: usize| -> U
        requires { (k < 2 ^ 32) × F.pre f.now k }
        ensures { F.post f.entry.now k result }
    { f(k as u32) };
    fill_by_number(crew, count as usize, &at)
}
