//! The boards of a scan, and what workers have and leave on them.
ghost use Rattle.std.specs.Prelude.{◌≡◌, ◌+◌, All, IfOk, map};
ghost use Rattle.chunk_seats.specs.Tallies.{times, OnceBelow};
ghost use Rattle.word_monoid.specs.Folds.{prefix_of};
ghost use Rattle.scan_lookback.specs.Made.{Makes};

use crate::board::{ScanBoard, Seat};
use crate::views::Chunks;
use chunk_seats::ClaimBoard;
use std::alloc::AllocError;
use word_monoid::WordMonoid;

/// The two boards of a scan: the one from which its workers draw chunks, and the one on which they publish what they find of them.
#[derive(Drop)]
pub struct Boards<'a, M: WordMonoid, N: Chunks<M::Item>> {
    /// From which chunks are drawn.
    pub claims: ClaimBoard,
    /// On which sums and prefixes are published.
    pub status: ScanBoard<'a, M, N>,
}

/// The two seats of one or more workers.
#[derive(Drop)]
pub struct Team {
    /// What they draw with.
    pub mine: chunk_seats::Seat,
    /// What they publish and look with.
    pub seat: Seat,
}

// What a team leaves: its seats, and the chunks that it drew, each with the join of the sums before it.
#[derive(Drop)]
pub(crate) struct Made<I: Copy> {
    pub team: Team,
    pub starts: Vec<(u64, I)>,
}

impl<'a, M: WordMonoid, N: Chunks<M::Item>> Boards<'a, M, N> {
    // Two teams are one.
    pub(crate) fn merge(
        &self,
        rest: u32,
        half: u32,
        one: Made<M::Item>,
        two: Made<M::Item>,
    ) -> Result<Made<M::Item>, AllocError>
        requires one { Makes (M.ops self.now.status.monoid) N.sums self.now.status.board self.now.claims.board rest one }
        requires two { Makes (M.ops self.now.status.monoid) N.sums self.now.status.board self.now.claims.board half two }
        ensures { IfOk result (λ r. Makes (M.ops self.now.status.monoid) N.sums self.now.status.board self.now.claims.board (rest + half) r) }
    {
        // The contract alone speaks of these.
        let _ = (rest, half);
        let Made {
            mut team,
            mut starts,
        } = one;
        let Made {
            team: other,
            starts: mut more,
        } = two;
        let Team { mine, seat } = other;
        self.claims.join(&mut team.mine, mine);
        self.status.join(&mut team.seat, seat);
        starts.append(&mut more)?;
        Ok(Made { team, starts })
    }

    // Takes the boards apart, where all workers are one team. It has drawn each chunk once.
    pub(crate) fn close(self, made: Made<M::Item>) -> Vec<(u64, M::Item)>
        requires made { Makes (M.ops self.status.monoid) N.sums self.status.board self.claims.board self.claims.seats made }
        ensures once { OnceBelow self.entry.claims.chunks (λ n. times n (map (λ p. p.0) result.items)) }
        ensures starts { All (λ p. p.1 ≡ prefix_of (M.ops self.entry.status.monoid) N.sums p.0) result.items }
    {
        let Boards { claims, status } = self;
        let Made { team, starts } = made;
        let Team { mine, seat } = team;
        status.close(seat);
        claims.close(mine);
        starts
    }
}
