//! The look-back: the join of the sums before a chunk, from what others have published (Merrill and Garland, "Single-pass Parallel
//! Prefix Scan with Decoupled Look-back"). A chunk that isn't published is folded and not waited for.
ghost use Rattle.std.specs.Prelude.{◌≡◌, ℕ, ◌+◌, ◌<◌, ◌≤◌, List, length};
ghost use Rattle.chunk_seats.specs.Tallies.{times};
ghost use Rattle.word_monoid.specs.Monoid.{IsItem};
ghost use Rattle.word_monoid.specs.Folds.{prefix_of};
ghost use Rattle.scan_lookback.specs.Views.{looking, loading};
ghost use Rattle.scan_lookback.specs.LookBacks.{IsLookBack};
ghost use Rattle.scan_lookback.specs.LookSteps.{LastLoaded};
ghost use Rattle.scan_lookback.specs.Held.{held};
ghost use Rattle.scan_lookback.specs.Found.{Found, KnownAt, IsSum, IsUnseen};

use crate::board::{ScanBoard, Seat};
use crate::look::{Known, Look};
use crate::steps::Steps;
use crate::unseen::Unseen;
use crate::views::Chunks;
use std::sync::ledger::{Blank, Ledger};
use word_monoid::WordMonoid;

impl<'a, M: WordMonoid, N: Chunks<M::Item>> ScanBoard<'a, M, N> {
    // What is known of a chunk after a look. Where it found nothing, the chunk is folded.
    fn known<F: Fn(Unseen<'_>) -> M::Item>(
        &self,
        seat: &Seat,
        j: u64,
        found: Look<M::Item>,
        fold: &F,
    ) -> Known<M::Item>
        requires chunk { j < self.now.chunks }
        requires callable { (u : _) → IsUnseen self.now.board j u → F.pre fold.now u }
        requires folds { (u : _) (x : _) → IsUnseen self.now.board j u → F.post fold.now u x → IsSum (M.ops self.now.monoid) N.sums j x }
        requires board { seat.now.board ≡ self.now.board }
        requires found { (word : ℕ) × LastLoaded seat.now.view j word × Found (M.ops self.now.monoid) N.sums j word found }
        ensures { (word : ℕ) → Found (M.ops self.now.monoid) N.sums j word found → KnownAt (M.ops self.now.monoid) N.sums j word result }
    {
        let _named = self.monoid();
        match found {
            Look::Prefix(prefix) => Known::Whole(prefix),
            Look::Sum(sum) => Known::Part(sum),
            Look::Nothing => Known::Part(fold(Unseen::of(seat, j))),
        }
    }

    // One load, which is one step, and a fold where it finds nothing.
    fn step<F: Fn(Unseen<'_>) -> M::Item, L: Ledger>(
        &self,
        seat: &mut Seat,
        j: u64,
        fold: &F,
        steps: &mut Steps<L>,
    ) -> Known<M::Item>
        requires board { seat.old.board ≡ self.now.board }
        requires chunk { j < self.now.chunks }
        requires callable { (u : _) → IsUnseen self.now.board j u → F.pre fold.now u }
        requires folds { (u : _) (x : _) → IsUnseen self.now.board j u → F.post fold.now u x → IsSum (M.ops self.now.monoid) N.sums j x }
        ensures load { (word : ℕ) × (seat.new ≡ held seat.old.board (looking seat.old.view j word)) × KnownAt (M.ops self.now.monoid) N.sums j word result }
        ensures counted { steps.new ≡ steps.old + 1 }
    {
        steps.tick();
        let found = self.look(seat, j);
        self.known(seat, j, found, fold)
    }

    /// The join of the sums before a chunk. It looks at the chunks before it, from the nearest on, until one tells its prefix, with
    /// one load, which is one step, for each. A chunk of which nothing is published is folded.
    pub fn before<F: Fn(Unseen<'_>) -> M::Item, L: Ledger>(
        &self,
        seat: &mut Seat,
        c: u64,
        fold: &F,
        steps: &mut Steps<L>,
    ) -> M::Item
        requires board { seat.old.board ≡ self.now.board }
        requires chunk { c < self.now.chunks }
        requires callable { (u : _) → u.chunk < c → IsUnseen self.now.board u.chunk u → F.pre fold.now u }
        requires folds { (u : _) (x : _) → u.chunk < c → IsUnseen self.now.board u.chunk u → F.post fold.now u x → IsSum (M.ops self.now.monoid) N.sums u.chunk x }
        ensures joined { result ≡ prefix_of (M.ops self.now.monoid) N.sums c }
        ensures item { IsItem (M.ops self.now.monoid) result }
        ensures loads { (loads : List (ℕ × ℕ)) × (seat.new ≡ held seat.old.board (loading seat.old.view loads)) × IsLookBack c loads × (steps.new ≡ steps.old + length loads) }
        ensures bound { steps.new ≤ steps.old + c }
    {
        let monoid = self.monoid();
        let mut sum = monoid.unit();
        let mut j = c;
        while j > 0 {
            j -= 1;
            match self.step(seat, j, fold, steps) {
                Known::Whole(prefix) => return monoid.join(prefix, sum),
                Known::Part(part) => sum = monoid.join(part, sum),
            }
        }
        sum
    }

    // The same, for a worker that has shown the sum of its own chunk before it looks back, and that counts nothing.
    pub(crate) fn joined_before<F: Fn(Unseen<'_>) -> M::Item, L: Ledger>(
        &self,
        seat: &mut Seat,
        c: u64,
        fold: &F,
        blank: Blank,
    ) -> M::Item
        requires ledger { (blank.name ≡ L.name) × (blank.parts ≡ L.parts) × (0 < L.parts) }
        requires board { seat.old.board ≡ self.now.board }
        requires chunk { c < self.now.chunks }
        requires shown { 0 < times c seat.old.view.shown }
        requires callable { (u : _) → u.chunk < c → IsUnseen self.now.board u.chunk u → F.pre fold.now u }
        requires folds { (u : _) (x : _) → u.chunk < c → IsUnseen self.now.board u.chunk u → F.post fold.now u x → IsSum (M.ops self.now.monoid) N.sums u.chunk x }
        ensures joined { result ≡ prefix_of (M.ops self.now.monoid) N.sums c }
        ensures item { IsItem (M.ops self.now.monoid) result }
        ensures loads { (loads : List (ℕ × ℕ)) × (seat.new ≡ held seat.old.board (loading seat.old.view loads)) × IsLookBack c loads }
    {
        let mut steps = Steps::<L>::new(blank);
        self.before(seat, c, fold, &mut steps)
    }
}
