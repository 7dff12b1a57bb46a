//! The scan.
ghost use Rattle.std.specs.Prelude.{◌≡◌, ◌*◌, ◌<◌, ◌≤◌, ◌^◌, max, map, length, IfOk, All};
ghost use Rattle.chunk_seats.specs.Chunks.{chunk_count};
ghost use Rattle.word_monoid.specs.Monoid.{IsItem, IsMonoid};
ghost use Rattle.word_monoid.specs.Folds.{prefixes, prefixes_from};
ghost use Rattle.scan_lookback.specs.Named.{Names};
ghost use Rattle.scan_lookback.specs.Cuts.{IsScan};

use crate::board::ScanBoard;
use crate::boards::{Boards, Team};
use crate::place::in_order;
use crate::run::{Begun, Scanning};
use crate::scanned::Scanned;
use crate::views::{Chunks, Lift, Lifted};
use chunk_seats::{ClaimBoard, Crew};
use std::alloc::AllocError;
use std::marker::Brand;
use word_monoid::WordMonoid;

// The laws, for a caller that starts threads.
fn know_laws<M: WordMonoid>(monoid: &M)
    ensures { IsMonoid (M.ops monoid.now) }
{
    // The contract alone speaks of it.
    let _ = monoid;
}

// How many chunks of the list each worker fills.
fn chunks_each(count: usize, workers: u32) -> usize
    requires { 0 < workers }
    ensures some { 0 < result }
    ensures small { result ≤ max count 1 }
{
    count.div_ceil(workers as usize).max(1)
}

// The joins before the chunks, and a list for those before the items.
#[derive(Drop)]
struct Started<I: Copy> {
    starts: Vec<I>,
    list: Vec<I>,
}

impl<
    'a,
    T: Copy + Sync,
    M: WordMonoid<Item: Send + Sync> + Sync,
    F: Fn(T) -> M::Item + Sync,
> Scanned<'a, T, M, F> {
    // The joins before the chunks, by two workers or more.
    fn find_starts<C: Crew, N: Chunks<M::Item> + Send + Sync>(
        &self,
        crew: &C,
        count: usize,
        workers: u32,
    ) -> Result<Started<M::Item>, AllocError>
        requires scan { IsScan M.ops F.pre F.post N.items N.sums self.now }
        requires names { Names (M.ops self.now.monoid.now) N.sums N.sum_codes N.prefix_codes }
        requires count { (count ≡ length N.sums) × (count < 2 ^ 62) }
        requires workers { (2 ≤ workers) × (workers ≤ 64) }
        ensures starts { IfOk result (λ r. r.starts.items ≡ prefixes_from (M.ops self.now.monoid.now) N.sums 0 (length N.sums)) }
        ensures list { IfOk result (λ r. length r.list.items ≡ length self.now.items.now) }
    {
        let alloc = crew.alloc();
        let (claims, mine) = ClaimBoard::new(alloc, count as u64, workers)?;
        let (status, seat) = ScanBoard::<M, N>::new(alloc, self.monoid, count as u64, workers)?;
        let boards = Boards { claims, status };
        let scanning = Scanning {
            crew,
            boards: &boards,
            scanned: self,
        };
        let Begun { made, list } = scanning.begin(Team { mine, seat }, workers)?;
        let starts = in_order(alloc, count, boards.close(made))?;
        Ok(Started { starts, list })
    }

    // The joins before each item, and the join of all, where the joins before the chunks are known. Each worker fills pieces of this many chunks.
    fn finish<C: Crew, N: Chunks<M::Item> + Send + Sync>(
        &self,
        crew: &C,
        started: Started<M::Item>,
        per: usize,
    ) -> Result<Vec<M::Item>, AllocError>
        requires scan { IsScan M.ops F.pre F.post N.items N.sums self.now }
        requires per { (0 < per) × (per * self.now.size < 2 ^ 64) }
        requires starts { started.starts.items ≡ prefixes_from (M.ops self.now.monoid.now) N.sums 0 (length N.sums) }
        requires list { length started.list.items ≡ length self.now.items.now }
        ensures { IfOk result (λ v. v.items ≡ prefixes (M.ops self.now.monoid.now) N.items) }
    {
        know_laws(self.monoid);
        let Started {
            starts,
            list: mut out,
        } = started;
        self.fill::<N, C::Runtime>(crew.runtime(), starts.as_slice(), per, out.as_mut_slice());
        let last = self.total::<N>(out.as_slice());
        out.push(last)?;
        Ok(out)
    }

    // The scan by two workers or more.
    fn scan_together<C: Crew, N: Chunks<M::Item> + Send + Sync>(
        &self,
        crew: &C,
        count: usize,
        workers: u32,
    ) -> Result<Vec<M::Item>, AllocError>
        requires scan { IsScan M.ops F.pre F.post N.items N.sums self.now }
        requires names { Names (M.ops self.now.monoid.now) N.sums N.sum_codes N.prefix_codes }
        requires count { (count ≡ chunk_count self.now.size (length self.now.items.now)) × (count < 2 ^ 62) }
        requires workers { (2 ≤ workers) × (workers ≤ 64) }
        ensures { IfOk result (λ v. v.items ≡ prefixes (M.ops self.now.monoid.now) N.items) }
    {
        let started = self.find_starts::<C, N>(crew, count, workers)?;
        self.finish::<C, N>(crew, started, chunks_each(count, workers))
    }

    // The scan, where the run's lists have names.
    fn scan_named<C: Crew, N: Chunks<M::Item> + Send + Sync>(
        &self,
        crew: &C,
        most: u32,
    ) -> Result<Vec<M::Item>, AllocError>
        requires scan { IsScan M.ops F.pre F.post N.items N.sums self.now }
        requires names { Names (M.ops self.now.monoid.now) N.sums N.sum_codes N.prefix_codes }
        requires workers { (1 ≤ most) × (most ≤ 64) }
        ensures { IfOk result (λ v. v.items ≡ prefixes (M.ops self.now.monoid.now) N.items) }
    {
        let count = self.count::<N>();
        let workers = (most as usize).min(count.max(1)) as u32;
        if workers == 1 {
            self.scan_alone::<C, N>(crew, count)
        } else {
            self.scan_together::<C, N>(crew, count, workers)
        }
    }
}

/// The join of what is made of the items before each item, and then the join of all: one more than there are items. It is the same
/// for every plan and gate. The only refusal is that memory is out.
///
/// One worker goes through the items once. More workers draw chunks and find the join before each; then each fills a part of the list, in
/// place.
pub fn scan_lifted<
    C: Crew,
    T: Copy + Sync,
    M: WordMonoid<Item: Send + Sync> + Sync,
    L: Lift<T, M::Item> + Sync,
>(crew: &C, monoid: &M, items: &[T], lift: &L) -> Result<Vec<M::Item>, AllocError>
    requires len { length items.now < 2 ^ 62 }
    requires accepted { All (λ x. IsItem (M.ops monoid.now) (L.lifted lift.now x)) items.now }
    ensures { IfOk result (λ v. v.items ≡ prefixes (M.ops monoid.now) (map (L.lifted lift.now) items.now)) }
{
    know_laws(monoid);
    let plan = crew.plan();
    let lifted = |x: T| lift.lift(x);
    let scanned = Scanned {
        monoid,
        items,
        lift: &lifted,
        size: plan.chunk,
    };
    scanned.scan_named::<C, Brand>(crew, plan.workers)
}

/// The same for a closure. K names the code of what it gives for an item; the call passes `Brand` and picks it.
pub fn scan<
    C: Crew,
    T: Copy + Sync,
    M: WordMonoid<Item: Send + Sync> + Sync,
    F: Fn(T) -> M::Item + Sync,
    K: Lifted<T>,
>(crew: &C, monoid: &M, items: &[T], lift: &F) -> Result<Vec<M::Item>, AllocError>
    requires len { length items.now < 2 ^ 62 }
    requires callable { All (F.pre lift.now) items.now }
    requires lifts { All (λ x. (r : M.Item) → F.post lift.now x r → r ≡ (M.ops monoid.now).decode (K.code_of x)) items.now }
    requires accepted { All (λ x. IsItem (M.ops monoid.now) ((M.ops monoid.now).decode (K.code_of x))) items.now }
    ensures { IfOk result (λ v. v.items ≡ prefixes (M.ops monoid.now) (map (λ x. (M.ops monoid.now).decode (K.code_of x)) items.now)) }
{
    know_laws(monoid);
    let plan = crew.plan();
    let scanned = Scanned {
        monoid,
        items,
        lift,
        size: plan.chunk,
    };
    scanned.scan_named::<C, Brand>(crew, plan.workers)
}
