//! How each pass is called, and how little is then left to prove.
ghost use Rattle.std.specs.Prelude.{◌≡◌, ◌==◌, ◌+◌, ◌-◌, ◌%◌, ◌/◌, ◌<◌, ◌≤◌, ◌^◌, length, leb, map, filter, flat_map, replicate, fold, min, slice_index, slice_index_or, All, IfOk, IsPermutation, IsSorted};
ghost use Rattle.std.specs.List.{range_with_len};
ghost use Rattle.std.specs.Ordering.{nat_cmp};
ghost use Rattle.word_monoid.specs.Folds.{prefixes};
ghost use Rattle.word_monoid.specs.Instances.{count};
ghost use Rattle.par_passes.specs.Passes.{Gives};
ghost use Rattle.scatter_rows.specs.Scattered.{AreDistinct, IsScattered};

use par_passes::{Lift, Passes};
use std::alloc::{AllocError, Global};
use std::marker::Brand;
use word_monoid::Count;

// A function that contracts can name.
pub(crate) struct Low;

impl Lift<u64, u64> for Low {
    ghost use Rattle.std.specs.Prelude.{◌%◌};

    ghost lifted = { λ _ x. x % 1024 };

    fn lift(&self, x: u64) -> u64 {
        x % 1024
    }
}

// A list of that many copies.
pub(crate) fn copies<U: Copy>(alloc: Global, item: U, len: usize) -> Result<Vec<U>, AllocError>
    ensures { IfOk result (λ v. v.items ≡ replicate len item) }
{
    let mut list = Vec::with_capacity(alloc, len)?;
    list.resize(len, item)?;
    Ok(list)
}

// A map by a closure.
pub(crate) fn halves(crew: &impl Passes, xs: &[u64]) -> Result<Vec<u64>, AllocError>
    requires len { length xs.now < 2 ^ 62 }
    ensures { IfOk result (λ v. v.items ≡ map (λ x. x / 2) xs.now) }
{
    crew.map(xs, &|x: u64| x / 2)
}

// A map by a closure over a list that it borrows.
pub(crate) fn classes(
    crew: &impl Passes,
    table: &[u32],
    bytes: &[u64],
) -> Result<Vec<u32>, AllocError>
    requires len { length bytes.now < 2 ^ 62 }
    requires table { 1024 ≤ length table.now }
    ensures { IfOk result (λ v. v.items ≡ map (λ b. slice_index_or table.now (b % 1024) 0) bytes.now) }
{
    let class_of = |b: u64| -> u32
        requires { 1024 ≤ length table.now }
        ensures { result ≡ slice_index_or table.entry.now (b % 1024) 0 }
    { table[(b % 1024) as usize] };
    crew.map(bytes, &class_of)
}

// A map by a closure of which only a bound is known.
pub(crate) fn lowered(crew: &impl Passes, xs: &[u64]) -> Result<Vec<u64>, AllocError>
    requires len { length xs.now < 2 ^ 62 }
    ensures { IfOk result (λ v. Gives (λ x r. r ≤ x) xs.now v.items) }
{
    let lower = |x: u64| -> u64
        ensures { result ≤ x }
    { x / 2 };
    crew.map(xs, &lower)
}

// Marks by a map.
pub(crate) fn mark_from(crew: &impl Passes, xs: &[u64], low: u64) -> Result<Vec<bool>, AllocError>
    requires len { length xs.now < 2 ^ 62 }
    ensures { IfOk result (λ v. v.items ≡ map (λ x. leb low x) xs.now) }
{
    crew.map(xs, &|x: u64| low <= x)
}

// Two passes: marks, and then what is marked.
pub(crate) fn at_least(crew: &impl Passes, xs: &[u64], low: u64) -> Result<Vec<u64>, AllocError>
    requires len { length xs.now < 2 ^ 62 }
    ensures { IfOk result (λ v. v.items ≡ filter (λ x. leb low x) xs.now) }
{
    let marks = mark_from(crew, xs, low)?;
    crew.compact(xs, marks.as_slice())
}

// The places of the items that a function says yes to.
pub(crate) fn places_from(crew: &impl Passes, xs: &[u64], low: u64) -> Result<Vec<u32>, AllocError>
    requires len { length xs.now ≤ 2 ^ 32 }
    ensures { IfOk result (λ v. v.items ≡ filter (λ k. leb low (slice_index xs.now k)) (range_with_len 0 (length xs.now))) }
{
    crew.positions(xs, &|x: u64| low <= x)
}

// The numbers of which a function says yes.
pub(crate) fn multiples(crew: &impl Passes, count: u32, of: u32) -> Result<Vec<u32>, AllocError>
    requires { 0 < of }
    ensures { IfOk result (λ v. v.items ≡ filter (λ k. k % of == 0) (range_with_len 0 count)) }
{
    let is_multiple = |k: u32| -> bool
        requires { 0 < of }
        ensures { result ≡ (k % of == 0) }
    { k % of == 0 };
    crew.numbers_where(count, &is_multiple)
}

// By how much each item but the first is greater than the one before it: a table by a closure over a list that it borrows.
pub(crate) fn rises(crew: &impl Passes, xs: &[u64]) -> Result<Vec<u64>, AllocError>
    requires len { length xs.now ≤ 2 ^ 32 }
    ensures { IfOk result (λ v. v.items ≡ map (λ k. slice_index xs.now (k + 1) - slice_index xs.now k) (range_with_len 0 (length xs.now - 1))) }
{
    let rise = |k: u32| -> u64
        requires { k + 1 < length xs.now }
        ensures { result ≡ slice_index xs.entry.now (k + 1) - slice_index xs.entry.now k }
    { xs[k as usize + 1].saturating_sub(xs[k as usize]) };
    let count = xs.len().saturating_sub(1) as u32;
    crew.tabulate(count, &rise)
}

// The least of what a function gives.
pub(crate) fn lowest(crew: &impl Passes, xs: &[u64]) -> Result<u64, AllocError>
    requires len { length xs.now < 2 ^ 62 }
    ensures { IfOk result (λ m. m ≡ fold min (2 ^ 64 - 1) (map (λ x. x % 1024) xs.now)) }
{
    let keys = crew.map_lifted(xs, &Low)?;
    crew.least(keys.as_slice())
}

// The least of what a function of places gives.
pub(crate) fn lowest_of(crew: &impl Passes, xs: &[u64]) -> Result<u64, AllocError>
    requires len { length xs.now < 2 ^ 32 }
    ensures { IfOk result (λ m. m ≡ fold min (2 ^ 64 - 1) (map (λ k. slice_index xs.now k % 1024) (range_with_len 0 (length xs.now)))) }
{
    let low = |k: u32| -> u64
        requires { k < length xs.now }
        ensures { result ≡ slice_index xs.entry.now k % 1024 }
    { xs[k as usize] % 1024 };
    crew.least_of::<_, Brand>(xs.len() as u32, &low)
}

// Where each piece begins, from the pieces' lengths.
pub(crate) fn starts(crew: &impl Passes, xs: &[u64]) -> Result<Vec<u64>, AllocError>
    requires len { length xs.now < 2 ^ 62 }
    ensures { IfOk result (λ v. v.items ≡ prefixes count (map (λ x. x % 1024) xs.now)) }
{
    crew.scan_lifted(&Count, xs, &Low)
}

// Each item twice: a list for each number below the count, one behind the other.
pub(crate) fn doubled(crew: &impl Passes, xs: &[u64]) -> Result<Vec<u64>, AllocError>
    requires len { length xs.now < 2 ^ 62 }
    ensures { IfOk result (λ v. v.items ≡ flat_map (λ k. replicate 2 (slice_index xs.now k)) (range_with_len 0 (length xs.now))) }
{
    let alloc = crew.alloc();
    let pair = |k: u64| -> Result<Vec<u64>, AllocError>
        requires { k < length xs.now }
        ensures { IfOk result (λ v. v.items ≡ replicate 2 (slice_index xs.entry.now k)) }
    { copies(alloc, xs[k as usize], 2) };
    crew.by_chunks(xs.len(), xs.len().saturating_mul(2), &pair)
}

// The half of each number.
fn half_numbers(crew: &impl Passes, count: u32) -> Result<Vec<u32>, AllocError>
    ensures { IfOk result (λ v. v.items ≡ map (λ k. k / 2) (range_with_len 0 count)) }
{
    crew.tabulate(count, &|k: u32| k / 2)
}

// The items at odd places: a list of one or none for each number, each written from a place on that is known before.
pub(crate) fn at_odd(crew: &impl Passes, xs: &[u32]) -> Result<Vec<u32>, AllocError>
    requires len { length xs.now < 2 ^ 32 - 1 }
    ensures { IfOk result (λ v. v.items ≡ flat_map (λ k. replicate (k % 2) (slice_index xs.now k)) (range_with_len 0 (length xs.now))) }
{
    let starts = half_numbers(crew, xs.len() as u32 + 1)?;
    let alloc = crew.alloc();
    let part = |k: u64| -> Result<Vec<u32>, AllocError>
        requires { k < length xs.now }
        ensures { IfOk result (λ v. v.items ≡ replicate (k % 2) (slice_index xs.entry.now k)) }
    { copies(alloc, xs[k as usize], (k % 2) as usize) };
    crew.scatter_parts::<_, Brand>(starts.as_slice(), &part)
}

// Items in an order of their own.
pub(crate) fn in_order(
    crew: &impl Passes,
    items: &[u32],
    order: &[u64],
) -> Result<Vec<u32>, AllocError>
    requires len { length order.now < 2 ^ 62 }
    requires inside { All (λ p. p < length items.now) order.now }
    ensures { IfOk result (λ v. v.items ≡ map (λ p. slice_index_or items.now p 0) order.now) }
{
    crew.gather(items, order)
}

// Numbers in ascending order.
pub(crate) fn ascending(crew: &impl Passes, xs: &[u32]) -> Result<Vec<u32>, AllocError>
    ensures { IfOk result (λ v. IsPermutation xs.now v.items × IsSorted nat_cmp v.items) }
{
    crew.sorted(xs)
}

// Values at their places.
pub(crate) fn placed(
    crew: &impl Passes,
    places: &[u64],
    values: &[u64],
) -> Result<Vec<u64>, AllocError>
    requires lists { (length values.now ≡ length places.now) × (length places.now < 2 ^ 62) }
    requires inside { All (λ p. p < length places.now) places.now }
    requires distinct { AreDistinct places.now }
    requires small { All (λ v. v < 2 ^ 64 - 1) values.now }
    ensures { IfOk result (λ v. IsScattered places.now values.now (length places.now) v.items) }
{
    crew.scatter(places, values, places.len() as u64)
}
