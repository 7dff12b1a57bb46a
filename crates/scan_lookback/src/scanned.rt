//! What is scanned.
ghost use Rattle.std.specs.Prelude.{◌≡◌, ◌<◌, length, slice_get, Some};
ghost use Rattle.chunk_seats.specs.Chunks.{chunk_count};
ghost use Rattle.word_monoid.specs.Folds.{fold_of, prefixes_from};
ghost use Rattle.scan_lookback.specs.Cuts.{IsScan};

use crate::span::fold_slice;
use crate::views::Chunks;
use word_monoid::WordMonoid;
use worker_teams::{chunk_slice, count_chunks};

/// What is scanned: items, what each of them is in a monoid, and how they are cut into chunks.
#[derive_where(Clone, Copy)]
pub struct Scanned<'a, T, M, F> {
    /// The monoid.
    pub monoid: &'a M,
    /// The items.
    pub items: &'a [T],
    /// What an item is in the monoid.
    pub lift: &'a F,
    /// How many items a chunk has. The last one may have fewer.
    pub size: u32,
}

impl<T: Copy, M: WordMonoid, F: Fn(T) -> M::Item> Scanned<'_, T, M, F> {
    // How many chunks there are.
    pub(crate) fn count<N: Chunks<M::Item>>(&self) -> usize
        requires scan { IsScan M.ops F.pre F.post N.items N.sums self.now }
        ensures { result ≡ chunk_count self.now.size (length self.now.items.now) }
    {
        count_chunks(self.items.len(), self.size)
    }

    // The sum of a chunk.
    pub(crate) fn chunk_sum<N: Chunks<M::Item>>(&self, c: u64) -> M::Item
        requires scan { IsScan M.ops F.pre F.post N.items N.sums self.now }
        requires chunk { c < length N.sums }
        ensures { slice_get N.sums c ≡ Some result }
    {
        fold_slice(
            self.monoid,
            chunk_slice(self.items, self.size, c),
            self.lift,
        )
    }

    // The join of all items, where the joins before each are known.
    pub(crate) fn total<N: Chunks<M::Item>>(&self, out: &[M::Item]) -> M::Item
        requires scan { IsScan M.ops F.pre F.post N.items N.sums self.now }
        requires out { out.now ≡ prefixes_from (M.ops self.now.monoid.now) N.items 0 (length N.items) }
        ensures { result ≡ fold_of (M.ops self.now.monoid.now) N.items }
    {
        let len = self.items.len();
        if len == 0 {
            return self.monoid.unit();
        }
        let last = self.items[len - 1];
        self.monoid.join(out[len - 1], (self.lift)(last))
    }
}
