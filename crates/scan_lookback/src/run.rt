//! The workers of a scan.
ghost use Rattle.std.specs.Prelude.{◌≡◌, ◌+◌, ◌<◌, ◌≤◌, ◌^◌, length, IfOk};
ghost use Rattle.chunk_seats.specs.Claims.{fresh};
ghost use Rattle.scan_lookback.specs.Views.{blank};
ghost use Rattle.scan_lookback.specs.Cuts.{IsScan};
ghost use Rattle.scan_lookback.specs.Made.{Makes};

use crate::boards::{Boards, Made, Team};
use crate::fill::BlankList;
use crate::scanned::Scanned;
use crate::views::Chunks;
use chunk_seats::{Crew, Gate};
use std::alloc::AllocError;
use std::thread::{Threads, join};
use word_monoid::WordMonoid;
use worker_teams::Task;

// The workers of a scan: each draws chunks, publishes their sums and looks back.
#[derive(Drop)]
pub(crate) struct Scanning<'a, 'b, C, T, M: WordMonoid, N: Chunks<M::Item>, F> {
    pub crew: &'a C,
    pub boards: &'a Boards<'b, M, N>,
    pub scanned: &'a Scanned<'b, T, M, F>,
}

impl<
    'a,
    'b,
    C: Crew,
    T: Copy + Sync,
    M: WordMonoid<Item: Send + Sync> + Sync,
    N: Chunks<M::Item> + Send + Sync,
    F: Fn(T) -> M::Item + Sync,
> Task for Scanning<'a, 'b, C, T, M, N, F> {
    type Seats = Team;

    type Made = Result<Made<M::Item>, AllocError>;

    ghost use Rattle.std.specs.Prelude.{◌≡◌, IfOk};
    ghost use Rattle.chunk_seats.specs.Claims.{fresh};
    ghost use Rattle.scan_lookback.specs.Views.{blank};
    ghost use Rattle.scan_lookback.specs.Cuts.{IsScan};
    ghost use Rattle.scan_lookback.specs.Made.{Makes};

    ghost begins = { λ task workers team.
        ((team.seat.board ≡ task.boards.now.status.board) × (team.mine.board ≡ task.boards.now.claims.board) × (task.boards.now.claims.chunks ≡ task.boards.now.status.chunks))
        × ((team.seat.view ≡ blank workers) × (team.mine.view ≡ fresh workers))
        × IsScan M.ops F.pre F.post N.items N.sums task.scanned.now };

    ghost ends = { λ task workers made. IfOk made (Makes (M.ops task.boards.now.status.monoid) N.sums task.boards.now.status.board task.boards.now.claims.board workers) };

    fn split(&self, team: &mut Team, rest: u32, half: u32) -> Team {
        // The contract alone speaks of it.
        let _ = rest;
        Team {
            mine: self.boards.claims.split(&mut team.mine, half),
            seat: self.boards.status.split(&mut team.seat, half),
        }
    }

    fn work(&self, mut team: Team, worker: u32) -> Result<Made<M::Item>, AllocError> {
        let tell = |chunk: Option<u64>| self.crew.gate().after_claim(worker, chunk);
        let starts = self
            .boards
            .work(self.crew.alloc(), &mut team, self.scanned, &tell)?;
        Ok(Made { team, starts })
    }

    fn merge(
        &self,
        rest: u32,
        half: u32,
        one: Result<Made<M::Item>, AllocError>,
        two: Result<Made<M::Item>, AllocError>,
    ) -> Result<Made<M::Item>, AllocError> {
        self.boards.merge(rest, half, one?, two?)
    }
}

// All workers of a team, two or more, of which the first makes a list, before it works, while the others work.
fn begin_team<R: Threads + Sync, J: Task + Send + Sync, I: Copy + Send>(
    rt: &R,
    task: &J,
    mut seats: J::Seats,
    workers: u32,
    answer: BlankList<I>,
) -> (J::Made, Result<Vec<I>, AllocError>)
    requires workers { (2 ≤ workers) × (workers ≤ 64) }
    requires begins { J.begins task.now workers seats }
    requires len { answer.len < 2 ^ 62 }
    ensures made { J.ends task.now workers result.0 }
    ensures list { IfOk result.1 (λ v. length v.items ≡ answer.len) }
{
    let rest = workers - 1;
    let others = task.split(&mut seats, 1, rest);
    let ((one, list), two) = join(
        rt,
        move || -> (J::Made, Result<Vec<I>, AllocError>)
            requires { (answer.len < 2 ^ 62) × J.begins task.now 1 seats }
            ensures made { J.ends task.entry.now 1 result.0 }
            ensures list { IfOk result.1 (λ v. length v.items ≡ answer.len) }
        {
            let list = answer.make();
            (task.work(seats, 0), list)
        },
        move || -> J::Made
            requires { (1 ≤ rest) × (1 + rest ≤ 64) × J.begins task.now rest others }
            ensures { J.ends task.entry.now rest result }
        { worker_teams::run(rt, task, others, 1, rest) },
    );
    (task.merge(1, rest, one, two), list)
}

// What all workers leave, and a list for the answer.
#[derive(Drop)]
pub(crate) struct Begun<I: Copy> {
    pub made: Made<I>,
    pub list: Vec<I>,
}

impl<
    'a,
    'b,
    C: Crew,
    T: Copy + Sync,
    M: WordMonoid<Item: Send + Sync> + Sync,
    N: Chunks<M::Item> + Send + Sync,
    F: Fn(T) -> M::Item + Sync,
> Scanning<'a, 'b, C, T, M, N, F> {
    // All workers, two or more, and a list for the answer.
    pub(crate) fn begin(&self, team: Team, workers: u32) -> Result<Begun<M::Item>, AllocError>
        requires boards { (team.seat.board ≡ self.now.boards.now.status.board) × (team.mine.board ≡ self.now.boards.now.claims.board)
            × (self.now.boards.now.claims.chunks ≡ self.now.boards.now.status.chunks) }
        requires new { (team.seat.view ≡ blank workers) × (team.mine.view ≡ fresh workers) }
        requires workers { (2 ≤ workers) × (workers ≤ 64) }
        requires scan { IsScan M.ops F.pre F.post N.items N.sums self.now.scanned.now }
        ensures made { IfOk result (λ r. Makes (M.ops self.now.boards.now.status.monoid) N.sums self.now.boards.now.status.board self.now.boards.now.claims.board workers r.made) }
        ensures list { IfOk result (λ r. length r.list.items ≡ length self.now.scanned.now.items.now) }
    {
        let answer = BlankList {
            alloc: self.crew.alloc(),
            item: self.scanned.monoid.unit(),
            len: self.scanned.items.len(),
        };
        let (made, list) = begin_team(self.crew.runtime(), self, team, workers, answer);
        Ok(Begun {
            made: made?,
            list: list?,
        })
    }
}
