//! The workers of a scatter.
ghost use Rattle.std.specs.Prelude.{◌≡◌, ℕ, ◌+◌, ◌<◌, ◌^◌, length, slice_index, replicate, IfOk};
ghost use Rattle.chunk_seats.specs.Claims.{fresh};
ghost use Rattle.chunk_seats.specs.Tallies.{times};
ghost use Rattle.scatter_rows.specs.Rule.{idle};
ghost use Rattle.scatter_rows.specs.Teams.{IsDone};

use crate::cells::{Cells, Seat};
use crate::chunked::Chunks;
use crate::views::Pairs;
use chunk_seats::{ClaimBoard, Crew, Gate};
use std::alloc::AllocError;
use worker_teams::{Task, run};

/// The two seats of one or more workers.
#[derive(Drop)]
pub(crate) struct Team {
    pub seat: Seat,
    pub mine: chunk_seats::Seat,
}

// What the workers have in common: all but their seats.
#[derive(Drop)]
struct Job<'a, N: Pairs, S> {
    cells: &'a Cells<N>,
    claims: &'a ClaimBoard,
    chunks: &'a S,
}

impl<N: Pairs, S: Chunks<N>> Job<'_, N, S> {
    // All that one worker does: it claims chunks until none is left, and puts their pairs. `tell` is told of each claim.
    fn put_claimed<G: Fn(Option<u64>)>(&self, team: Team, tell: &G) -> Result<Team, AllocError>
        requires words { 0 < self.now.cells.now.board.words }
        requires boards { (team.seat.board ≡ self.now.cells.now.board) × (team.mine.board ≡ self.now.claims.now.board) }
        requires new { (team.seat.view ≡ idle 1) × (team.mine.view ≡ fresh 1) }
        requires told { G.IsAlwaysCallable tell.now }
        requires fit { S.fit self.now.chunks.now self.now.cells.now.board.words }
        requires count { self.now.claims.now.chunks ≡ S.count self.now.chunks.now }
        ensures { IfOk result (λ t. (t.mine.view.weight ≡ 1) × IsDone (S.has self.now.chunks.now) self.now.cells.now.board self.now.claims.now.board t) }
    {
        let Team { mut seat, mut mine } = team;
        while let Some(c) = self.claims.claim(&mut mine) {
            tell(Some(c));
            self.chunks.put(self.cells, &mut seat, c)?;
        }
        tell(None);
        Ok(Team { seat, mine })
    }

    // Two teams are one.
    fn merge(&self, one: Team, two: Team) -> Team
        requires one { IsDone (S.has self.now.chunks.now) self.now.cells.now.board self.now.claims.now.board one }
        requires two { IsDone (S.has self.now.chunks.now) self.now.cells.now.board self.now.claims.now.board two }
        ensures weight { result.mine.view.weight ≡ one.mine.view.weight + two.mine.view.weight }
        ensures done { IsDone (S.has self.now.chunks.now) self.now.cells.now.board self.now.claims.now.board result }
    {
        let Team { mut seat, mut mine } = one;
        let Team {
            seat: other,
            mine: theirs,
        } = two;
        self.cells.join(&mut seat, other);
        self.claims.join(&mut mine, theirs);
        Team { seat, mine }
    }
}

// The workers of a scatter: each claims chunks of pairs, and puts their values.
#[derive(Drop)]
struct Putting<'a, N: Pairs, S, G> {
    job: Job<'a, N, S>,
    gate: &'a G,
}

impl<N: Pairs + Send + Sync, S: Chunks<N> + Send + Sync, G: Gate> Task for Putting<'_, N, S, G> {
    type Seats = Team;

    type Made = Result<Team, AllocError>;

    ghost use Rattle.std.specs.Prelude.{◌≡◌, ◌<◌, IfOk};
    ghost use Rattle.chunk_seats.specs.Claims.{fresh};
    ghost use Rattle.scatter_rows.specs.Rule.{idle};
    ghost use Rattle.scatter_rows.specs.Teams.{IsDone};

    ghost begins = { λ task workers team.
        (0 < task.job.cells.now.board.words)
        × ((team.seat.board ≡ task.job.cells.now.board) × (team.mine.board ≡ task.job.claims.now.board))
        × ((team.seat.view ≡ idle workers) × (team.mine.view ≡ fresh workers))
        × S.fit task.job.chunks.now task.job.cells.now.board.words
        × (task.job.claims.now.chunks ≡ S.count task.job.chunks.now) };

    ghost ends = { λ task workers made.
        IfOk made (λ t. (t.mine.view.weight ≡ workers) × IsDone (S.has task.job.chunks.now) task.job.cells.now.board task.job.claims.now.board t) };

    fn split(&self, team: &mut Team, rest: u32, half: u32) -> Team {
        // The contract alone speaks of it.
        let _ = rest;
        Team {
            seat: self.job.cells.split(&mut team.seat, half),
            mine: self.job.claims.split(&mut team.mine, half),
        }
    }

    fn work(&self, team: Team, worker: u32) -> Result<Team, AllocError> {
        let tell = |chunk: Option<u64>| self.gate.after_claim(worker, chunk);
        self.job.put_claimed(team, &tell)
    }

    fn merge(
        &self,
        rest: u32,
        half: u32,
        one: Result<Team, AllocError>,
        two: Result<Team, AllocError>,
    ) -> Result<Team, AllocError> {
        // The contract alone speaks of these.
        let _ = (rest, half);
        Ok(self.job.merge(one?, two?))
    }
}

/// A table of as many words as there are zeros, in which the pairs of all chunks were put, and the seat that put them. There are at most as many
/// workers as chunks.
pub(crate) fn put_all<'a, C: Crew, N: Pairs + Send + Sync, S: Chunks<N> + Send + Sync>(
    crew: &'a C,
    zeros: &[u64],
    count: usize,
    chunks: &'a S,
) -> Result<(Cells<N>, Seat), AllocError>
    requires zeros { (zeros.now ≡ replicate (length zeros.now) 0) × (0 < length zeros.now) }
    requires inside { (i : ℕ) → i < length N.places → slice_index N.places i < length zeros.now }
    requires limit { N.limit < 2 ^ 64 }
    requires count { (count ≡ S.count chunks.now) × (count < 2 ^ 62) }
    requires fit { S.fit chunks.now (length zeros.now) }
    ensures words { IfOk result (λ r. r.0.board.words ≡ length zeros.now) }
    ensures board { IfOk result (λ r. r.1.board ≡ r.0.board) }
    ensures put { IfOk result (λ r. (c i : ℕ) → c < count → S.has chunks.now c i → 0 < times i r.1.view.put) }
{
    let workers = (crew.plan().workers as usize).min(count.max(1)) as u32;
    let (claims, mine) = ClaimBoard::new(crew.alloc(), count as u64, workers)?;
    let (cells, seat) = Cells::<N>::new(crew.alloc(), zeros, workers)?;
    let putting = Putting {
        job: Job {
            cells: &cells,
            claims: &claims,
            chunks,
        },
        gate: crew.gate(),
    };
    let Team { seat, mine } = run(crew.runtime(), &putting, Team { seat, mine }, 0, workers)?;
    claims.close(mine);
    Ok((cells, seat))
}
