//! What a worker of a scan does.
ghost use Rattle.std.specs.Prelude.{◌≡◌, ℕ, ◌<◌, All, map, IfOk, ◌++◌};
ghost use Rattle.std.specs.Result.{OnOk, OnErr};
ghost use Rattle.word_monoid.specs.Folds.{prefix_of};
ghost use Rattle.scan_lookback.specs.Cuts.{IsScan};
ghost use Rattle.scan_lookback.specs.LookBacks.{LooksBack};
ghost use Rattle.scan_lookback.specs.Worked.{Even, Tidy};

use crate::boards::{Boards, Team};
use crate::scanned::Scanned;
use crate::views::Chunks;
use std::alloc::{AllocError, Global};
use word_monoid::WordMonoid;

impl<'a, M: WordMonoid, N: Chunks<M::Item>> Boards<'a, M, N> {
    /// All that one worker of a scan does: it draws chunks until none is left, publishes the sum of each and looks back. The answer has each
    /// chunk that was drawn, with the join of the sums before it. `tell` is told of each claim, and once that none was left. Of the two seats
    /// it keeps that the chunks claimed, done, shown and sealed are the same.
    pub fn work<T: Copy, F: Fn(T) -> M::Item, G: Fn(Option<u64>)>(
        &self,
        alloc: Global,
        team: &mut Team,
        scanned: &Scanned<'_, T, M, F>,
        tell: &G,
    ) -> Result<Vec<(u64, M::Item)>, AllocError>
        requires boards { (team.old.seat.board ≡ self.now.status.board) × (team.old.mine.board ≡ self.now.claims.board) × (self.now.claims.chunks ≡ self.now.status.chunks) }
        requires told { G.IsAlwaysCallable tell.now }
        requires unspent { 0 < team.old.mine.view.share }
        requires even { Even team.old.mine.view team.old.seat.view }
        requires scan { IsScan M.ops F.pre F.post N.items N.sums scanned.now }
        ensures boards { (team.new.seat.board ≡ team.old.seat.board) × (team.new.mine.board ≡ team.old.mine.board) }
        ensures shares { (team.new.seat.view.share ≡ team.old.seat.view.share) × (team.new.mine.view.weight ≡ team.old.mine.view.weight) }
        ensures looked { LooksBack team.old.seat.view team.new.seat.view }
        ensures spent { OnOk result (team.new.mine.view.share ≡ 0) }
        ensures even { OnOk result (Even team.new.mine.view team.new.seat.view) }
        ensures drawn { IfOk result (λ v. team.new.mine.view.claimed ≡ team.old.mine.view.claimed ++ map (λ p. p.0) v.items) }
        ensures starts { IfOk result (λ v. All (λ p. p.1 ≡ prefix_of (M.ops self.now.status.monoid) N.sums p.0) v.items) }
        ensures tidy { OnErr result (Tidy team.new.mine.view team.new.seat.view) }
    {
        let mut all = Vec::new(alloc);
        while let Some(c) = self.claims.claim(&mut team.mine) {
            tell(Some(c));
            let start = self.status.publish(&mut team.seat, scanned, c);
            all.push((c, start))?;
            self.claims.done(&mut team.mine, c);
        }
        tell(None);
        Ok(all)
    }
}
