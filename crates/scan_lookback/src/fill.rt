//! The list of a scan, filled from the joins before the chunks.
ghost use Rattle.std.specs.Prelude.{◌≡◌, ℕ, ◌+◌, ◌*◌, ◌%◌, ◌<◌, ◌≤◌, ◌^◌, length, take, drop, IfOk};
ghost use Rattle.std.specs.Thread.{IsSync};
ghost use Rattle.word_monoid.specs.Folds.{prefixes_from};
ghost use Rattle.scan_lookback.specs.Cuts.{IsScan};

use crate::scanned::Scanned;
use crate::span::run_into;
use crate::views::Chunks;
use std::alloc::{AllocError, Global};
use std::thread::{Threads, for_each_chunk_mut};
use word_monoid::WordMonoid;

// What a list is made of, before its items are known: this many times one item.
#[derive(Clone, Copy)]
pub(crate) struct BlankList<I: Copy> {
    pub alloc: Global,
    pub item: I,
    pub len: usize,
}

impl<I: Copy> BlankList<I> {
    // The list, with room for one item more.
    pub(crate) fn make(self) -> Result<Vec<I>, AllocError>
        requires { self.len < 2 ^ 62 }
        ensures { IfOk result (λ v. length v.items ≡ self.len) }
    {
        let mut list = Vec::with_capacity(self.alloc, self.len + 1)?;
        list.resize(self.len, self.item)?;
        Ok(list)
    }
}

// The chunk with which a piece of this many chunks begins.
fn first_chunk(from: usize, per: usize, size: u32) -> usize
    requires size { (0 < size) × (0 < per) × (per * size < 2 ^ 64) }
    requires place { from % (per * size) ≡ 0 }
    ensures { result * size ≡ from }
{
    from / (per * size as usize) * per
}

// This many items from a place on.
fn stretch<T>(items: &[T], from: usize, len: usize) -> &[T]
    requires { from + len ≤ length items.now }
    ensures { result.now ≡ take len (drop from items.now) }
{
    &items[from..from + len]
}

impl<T: Copy, M: WordMonoid, F: Fn(T) -> M::Item> Scanned<'_, T, M, F> {
    // The joins before each item of a piece of this many chunks, which begins where a chunk does.
    fn fill_piece<N: Chunks<M::Item>>(
        &self,
        starts: &[M::Item],
        per: usize,
        from: usize,
        piece: &mut [M::Item],
    )
        requires scan { IsScan M.ops F.pre F.post N.items N.sums self.now }
        requires starts { starts.now ≡ prefixes_from (M.ops self.now.monoid.now) N.sums 0 (length N.sums) }
        requires per { (0 < per) × (per * self.now.size < 2 ^ 64) }
        requires place { (from % (per * self.now.size) ≡ 0) × (0 < length piece.old) × (from + length piece.old ≤ length self.now.items.now) }
        ensures { piece.new ≡ prefixes_from (M.ops self.now.monoid.now) N.items from (length piece.old) }
    {
        let c = first_chunk(from, per, self.size);
        let part = stretch(self.items, from, piece.len());
        run_into(self.monoid, part, self.lift, starts[c], piece);
    }
}

impl<
    'a,
    T: Copy + Sync,
    M: WordMonoid<Item: Send + Sync> + Sync,
    F: Fn(T) -> M::Item + Sync,
> Scanned<'a, T, M, F> {
    // The joins before each item. Each worker fills a piece of this many chunks.
    pub(crate) fn fill<N: Chunks<M::Item> + Send + Sync, R: Threads + Sync>(
        &self,
        rt: &R,
        starts: &[M::Item],
        per: usize,
        out: &mut [M::Item],
    )
        requires scan { IsScan M.ops F.pre F.post N.items N.sums self.now }
        requires starts { starts.now ≡ prefixes_from (M.ops self.now.monoid.now) N.sums 0 (length N.sums) }
        requires per { (0 < per) × (per * self.now.size < 2 ^ 64) }
        requires wide { length out.old ≡ length self.now.items.now }
        ensures { out.new ≡ prefixes_from (M.ops self.now.monoid.now) N.items 0 (length N.items) }
    {
        let piece = move |from: usize, piece: &mut [M::Item]|
            requires { IsScan M.ops F.pre F.post N.items N.sums self.now
                × (starts.now ≡ prefixes_from (M.ops self.now.monoid.now) N.sums 0 (length N.sums))
                × (0 < per) × (per * self.now.size < 2 ^ 64)
                × (from % (per * self.now.size) ≡ 0) × (0 < length piece.now) × (from + length piece.now ≤ length self.now.items.now) }
            ensures { piece.exit.now ≡ prefixes_from (M.ops self.entry.now.monoid.now) N.items from (length piece.entry.now) }
        { self.fill_piece::<N>(starts, per, from, piece) };
        for_each_chunk_mut(rt, out, per * self.size as usize, &piece);
    }
}
