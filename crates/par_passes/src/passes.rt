//! The passes, and who does them.
ghost use Rattle.std.specs.Prelude.{◌≡◌, ◌-◌, ◌<◌, ◌≤◌, ◌^◌, ℕ, Bool, List, Ok, length, slice_index_or, All, map, filter, flat_map, fold, min, IfOk, IsPermutation, IsSorted};
ghost use Rattle.std.specs.Global.{Vec};
ghost use Rattle.std.specs.List.{range_with_len, zip};
ghost use Rattle.word_monoid.specs.Folds.{prefixes};
ghost use Rattle.word_monoid.specs.Monoid.{IsItem};
ghost use Rattle.scatter_rows.specs.Scattered.{AreDistinct, IsScattered};
ghost use Rattle.scatter_rows.specs.Starts.{AreStarts};
ghost use Rattle.par_passes.specs.Passes.{Gives, marked};

use crate::bundles::bundles;
use crate::crew::by_chunks;
use crate::each::{map, map_lifted};
use crate::fewest::{least, least_of};
use crate::marked::compact;
use crate::numbered::{numbers_where, positions, tabulate};
use crate::order::sorted;
use crate::places::gather;
use chunk_seats::{Crew, Gate, Workers};
use scan_lookback::{Lift, Lifted, scan, scan_lifted};
use scatter_rows::{Parts, scatter, scatter_parts};
use std::alloc::AllocError;
use std::thread::Threads;
use word_monoid::WordMonoid;

/// A crew of workers that does passes over arrays. Each answer is the same for every plan and gate, and the only refusal is that
/// memory is out. A function that does passes takes one value, `crew: &impl Passes`.
///
/// A pass over items is done by the crew that [`Crew::for_items`] gives for them. `by_chunks` and `bundles` don't know how many items their numbers
/// stand for: their callers take that crew themselves, and cut by its plan.
pub trait Passes: Crew {
    /// What the function gives for each item, in the items' order. It is called once for each.
    final fn map<T: Copy + Sync, U: Copy + Send + Sync, F: Fn(T) -> U + Sync>(
        &self,
        items: &[T],
        f: &F,
    ) -> Result<Vec<U>, AllocError>
        requires len { length items.now < 2 ^ 62 }
        requires callable { All (F.pre f.now) items.now }
        ensures len { IfOk result (λ v. length v.items ≡ length items.now) }
        ensures each { IfOk result (λ v. Gives (F.post f.now) items.now v.items) }
        ensures values { IfOk result (λ v. (g : T → U) → All (λ x. (r : U) → F.post f.now x r → r ≡ g x) items.now → v.items ≡ map g items.now) }
    {
        map(&self.for_items(items.len()), items, f)
    }

    /// The same for a function that contracts can name.
    final fn map_lifted<T: Copy + Sync, U: Copy + Send + Sync, L: Lift<T, U> + Sync>(
        &self,
        items: &[T],
        lift: &L,
    ) -> Result<Vec<U>, AllocError>
        requires len { length items.now < 2 ^ 62 }
        ensures { IfOk result (λ v. v.items ≡ map (L.lifted lift.now) items.now) }
    {
        map_lifted(&self.for_items(items.len()), items, lift)
    }

    /// The items that are marked, in the items' order.
    final fn compact<T: Copy + Send + Sync>(
        &self,
        items: &[T],
        marks: &[bool],
    ) -> Result<Vec<T>, AllocError>
        requires len { length items.now < 2 ^ 62 }
        requires marks { length marks.now ≡ length items.now }
        ensures { IfOk result (λ v. v.items ≡ map (λ p. p.0) (filter (λ p. p.1) (zip items.now marks.now))) }
    {
        compact(&self.for_items(items.len()), items, marks)
    }

    /// The places of the items for which the function says true, in order.
    final fn positions<T: Copy + Sync, F: Fn(T) -> bool + Sync>(
        &self,
        items: &[T],
        f: &F,
    ) -> Result<Vec<u32>, AllocError>
        requires len { length items.now ≤ 2 ^ 32 }
        requires callable { All (F.pre f.now) items.now }
        ensures { IfOk result (λ v. (g : T → Bool) → All (λ x. (r : Bool) → F.post f.now x r → r ≡ g x) items.now → v.items ≡ marked (range_with_len 0 (length items.now)) (map g items.now)) }
    {
        positions(&self.for_items(items.len()), items, f)
    }

    /// The numbers below `count` for which the function says true, in order.
    final fn numbers_where<F: Fn(u32) -> bool + Sync>(
        &self,
        count: u32,
        f: &F,
    ) -> Result<Vec<u32>, AllocError>
        requires callable { All (F.pre f.now) (range_with_len 0 count) }
        ensures { IfOk result (λ v. (g : ℕ → Bool) → All (λ k. (r : Bool) → F.post f.now k r → r ≡ g k) (range_with_len 0 count) → v.items ≡ filter g (range_with_len 0 count)) }
    {
        numbers_where(&self.for_items(count as usize), count, f)
    }

    /// What the function gives for each number below `count`, in order. It is called once for each.
    final fn tabulate<U: Copy + Send + Sync, F: Fn(u32) -> U + Sync>(
        &self,
        count: u32,
        f: &F,
    ) -> Result<Vec<U>, AllocError>
        requires callable { All (F.pre f.now) (range_with_len 0 count) }
        ensures len { IfOk result (λ v. length v.items ≡ count) }
        ensures each { IfOk result (λ v. Gives (F.post f.now) (range_with_len 0 count) v.items) }
        ensures values { IfOk result (λ v. (g : ℕ → U) → All (λ k. (r : U) → F.post f.now k r → r ≡ g k) (range_with_len 0 count) → v.items ≡ map g (range_with_len 0 count)) }
    {
        tabulate(&self.for_items(count as usize), count, f)
    }

    /// The item at each of the places, in the places' order.
    final fn gather<T: Copy + Send + Sync>(
        &self,
        items: &[T],
        places: &[u64],
    ) -> Result<Vec<T>, AllocError>
        requires len { length places.now < 2 ^ 62 }
        requires in_range { All (λ p. p < length items.now) places.now }
        ensures { IfOk result (λ v. (d : T) → v.items ≡ map (λ p. slice_index_or items.now p d) places.now) }
    {
        gather(&self.for_items(places.len()), items, places)
    }

    /// The least of the keys, and `u64::MAX` where there is none.
    final fn least(&self, keys: &[u64]) -> Result<u64, AllocError>
        requires len { length keys.now < 2 ^ 62 }
        ensures { IfOk result (λ m. m ≡ fold min (2 ^ 64 - 1) keys.now) }
    {
        least(&self.for_items(keys.len()), keys)
    }

    /// The least of what the function gives for the numbers below `count`, and `u64::MAX` where there is none. K names what it gives for a
    /// number; the call passes `Brand` and picks it. No list of keys is made.
    final fn least_of<F: Fn(u32) -> u64 + Sync, K: Lifted<u32>>(
        &self,
        count: u32,
        f: &F,
    ) -> Result<u64, AllocError>
        requires callable { All (F.pre f.now) (range_with_len 0 count) }
        requires lifts { All (λ k. (r : ℕ) → F.post f.now k r → r ≡ K.code_of k) (range_with_len 0 count) }
        ensures { IfOk result (λ m. m ≡ fold min (2 ^ 64 - 1) (map K.code_of (range_with_len 0 count))) }
    {
        least_of::<_, F, K>(&self.for_items(count as usize), count, f)
    }

    /// The keys in ascending order. Keys that are equal may stand in another order under another plan. One worker, and keys of one chunk, are
    /// sorted in the caller's thread.
    final fn sorted<K: Copy + Ord + Send>(&self, keys: &[K]) -> Result<Vec<K>, AllocError>
        ensures same_keys { IfOk result (λ v. IsPermutation keys.now v.items) }
        ensures ascending { IfOk result (λ v. IsSorted K.cmp v.items) }
    {
        sorted(self, keys)
    }

    /// The join of what is made of the items before each item, and then the join of all: one more than there are items.
    final fn scan_lifted<
        T: Copy + Sync,
        M: WordMonoid<Item: Send + Sync> + Sync,
        L: Lift<T, M::Item> + Sync,
    >(&self, monoid: &M, items: &[T], lift: &L) -> Result<Vec<M::Item>, AllocError>
        requires len { length items.now < 2 ^ 62 }
        requires accepted { All (λ x. IsItem (M.ops monoid.now) (L.lifted lift.now x)) items.now }
        ensures { IfOk result (λ v. v.items ≡ prefixes (M.ops monoid.now) (map (L.lifted lift.now) items.now)) }
    {
        scan_lifted(&self.for_items(items.len()), monoid, items, lift)
    }

    /// The same for a closure. K names the code of what it gives for an item; the call passes `Brand` and picks it.
    final fn scan<
        T: Copy + Sync,
        M: WordMonoid<Item: Send + Sync> + Sync,
        F: Fn(T) -> M::Item + Sync,
        K: Lifted<T>,
    >(&self, monoid: &M, items: &[T], lift: &F) -> Result<Vec<M::Item>, AllocError>
        requires len { length items.now < 2 ^ 62 }
        requires callable { All (F.pre lift.now) items.now }
        requires lifts { All (λ x. (r : M.Item) → F.post lift.now x r → r ≡ (M.ops monoid.now).decode (K.code_of x)) items.now }
        requires accepted { All (λ x. IsItem (M.ops monoid.now) ((M.ops monoid.now).decode (K.code_of x))) items.now }
        ensures { IfOk result (λ v. v.items ≡ prefixes (M.ops monoid.now) (map (λ x. (M.ops monoid.now).decode (K.code_of x)) items.now)) }
    {
        scan::<_, T, M, F, K>(&self.for_items(items.len()), monoid, items, lift)
    }

    /// What is made of each number below `count`, one list behind the other, in the order of the numbers. `capacity` says how many values
    /// there will be.
    final fn by_chunks<U: Copy + Send + Sync, F: Fn(u64) -> Result<Vec<U>, AllocError> + Sync>(
        &self,
        count: usize,
        capacity: usize,
        make: &F,
    ) -> Result<Vec<U>, AllocError>
        requires count { count < 2 ^ 62 }
        requires callable { All (F.pre make.now) (range_with_len 0 count) }
        ensures { IfOk result (λ v. (part : ℕ → List U) → ((c : ℕ) (x : Vec U) → c < count → F.post make.now c (Ok x) → x.items ≡ part c) → v.items ≡ flat_map part (range_with_len 0 count)) }
    {
        by_chunks(self, count, capacity, make)
    }

    /// What is made of each number below `count`, in the order of the numbers: for what isn't a list of values, or is taken apart afterwards.
    final fn bundles<B: Drop + Send, F: Fn(u64) -> Result<B, AllocError> + Sync>(
        &self,
        count: usize,
        make: &F,
    ) -> Result<Vec<B>, AllocError>
        requires count { count < 2 ^ 62 }
        requires callable { All (F.pre make.now) (range_with_len 0 count) }
        ensures { IfOk result (λ v. Gives (λ c b. F.post make.now c (Ok b)) (range_with_len 0 count) v.items) }
    {
        bundles(self, count, make)
    }

    /// What is made of each number, one list behind the other, written at places that are known before: what is made of the number c begins at
    /// place `starts[c]`, and the last of the starts says how many values there are. Workers draw the numbers, and put what they make into the words
    /// of one shared table. K names the parts; the call passes `Brand` and picks it.
    final fn scatter_parts<F: Fn(u64) -> Result<Vec<u32>, AllocError> + Sync, K: Parts>(
        &self,
        starts: &[u32],
        make: &F,
    ) -> Result<Vec<u32>, AllocError>
        requires count { length starts.now < 2 ^ 62 }
        requires starts { AreStarts K.part starts.now }
        requires callable { All (F.pre make.now) (range_with_len 0 (length starts.now - 1)) }
        requires parts { (c : ℕ) (x : Vec ℕ) → c < length starts.now - 1 → F.post make.now c (Ok x) → x.items ≡ K.part c }
        ensures { IfOk result (λ v. v.items ≡ flat_map K.part (range_with_len 0 (length starts.now - 1))) }
    {
        scatter_parts::<Self, F, K>(self, starts, make)
    }

    /// The list of `len` cells in which each place holds its value, and every other cell 0.
    final fn scatter(
        &self,
        places: &[u64],
        values: &[u64],
        len: u64,
    ) -> Result<Vec<u64>, AllocError>
        requires lists { (length values.now ≡ length places.now) × (length places.now < 2 ^ 62) }
        requires inside { All (λ p. p < len) places.now }
        requires distinct { AreDistinct places.now }
        requires small { All (λ v. v < 2 ^ 64 - 1) values.now }
        ensures { IfOk result (λ v. IsScattered places.now values.now len v.items) }
    {
        scatter(&self.for_items(places.len()), places, values, len)
    }
}

impl<R: Threads + Sync, G: Gate> Passes for Workers<'_, R, G> {}
