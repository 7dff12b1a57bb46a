//! What a worker does with one chunk.
ghost use Rattle.std.specs.Prelude.{◌≡◌, ℕ, ◌+◌, ◌-◌, ◌*◌, ◌<◌, ◌≤◌, ◌^◌, length, ◌++◌, ◌∷◌, [], slice_get, Some, List};
ghost use Rattle.word_monoid.specs.Monoid.{IsItem};
ghost use Rattle.word_monoid.specs.Folds.{prefix_of};
ghost use Rattle.scan_lookback.specs.Cuts.{IsScan};
ghost use Rattle.scan_lookback.specs.Views.{looks};
ghost use Rattle.scan_lookback.specs.LookBacks.{IsLookBack};
ghost use Rattle.scan_lookback.specs.Held.{held};

use crate::board::{ScanBoard, Seat};
use crate::scanned::Scanned;
use crate::unseen::Unseen;
use crate::views::Chunks;
use std::marker::Brand;
use std::sync::ledger::Blank;
use word_monoid::WordMonoid;

impl<'a, M: WordMonoid, N: Chunks<M::Item>> ScanBoard<'a, M, N> {
    // Shows a chunk's sum, looks back and seals the chunk. The answer is the join of the sums before it.
    pub(crate) fn publish<T: Copy, F: Fn(T) -> M::Item>(
        &self,
        seat: &mut Seat,
        scanned: &Scanned<'_, T, M, F>,
        c: u64,
    ) -> M::Item
        requires board { seat.old.board ≡ self.now.board }
        requires scan { IsScan M.ops F.pre F.post N.items N.sums scanned.now }
        requires chunk { c < self.now.chunks }
        ensures start { result ≡ prefix_of (M.ops self.now.monoid) N.sums c }
        ensures item { IsItem (M.ops self.now.monoid) result }
        ensures sealed { (loads : List (ℕ × ℕ))
            × (seat.new ≡ held seat.old.board (looks (seat.old.view.shown ++ c ∷ []) (seat.old.view.sealed ++ c ∷ []) (seat.old.view.looked ++ loads) seat.old.view.share))
            × IsLookBack c loads }
    {
        let monoid = self.monoid();
        let sum = scanned.chunk_sum::<N>(c);
        self.show(seat, c, sum);
        let fold = |unseen: Unseen<'_>| -> M::Item
            requires { IsScan M.ops F.pre F.post N.items N.sums scanned.now × (unseen.chunk < length N.sums) }
            ensures { slice_get N.sums unseen.entry.chunk ≡ Some result }
        { scanned.chunk_sum::<N>(unseen.chunk()) };
        let start = self.joined_before::<_, Brand>(seat, c, &fold, Blank::new(1));
        self.seal(seat, c, monoid.join(start, sum));
        start
    }
}
