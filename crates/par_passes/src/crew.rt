//! The workers of a pass.
ghost use Rattle.std.specs.Prelude.{◌≡◌, ℕ, ◌+◌, ◌<◌, ◌≤◌, ◌^◌, ◌++◌, List, All, map, flat_map, IfOk, Ok};
ghost use Rattle.std.specs.Global.{Vec};
ghost use Rattle.std.specs.List.{range_with_len};
ghost use Rattle.std.specs.Result.{OnOk};
ghost use Rattle.chunk_seats.specs.Claims.{fresh};
ghost use Rattle.par_passes.specs.Crews.{Callable, Gave, Makes};

use chunk_seats::{ClaimBoard, Crew, Gate, Seat};
use scan_lookback::assemble;
use std::alloc::{AllocError, Global};
use worker_teams::Task;

// What a group of workers leaves: its seat, and the chunks that it drew with what was made of each.
#[derive(Drop)]
pub(crate) struct Made<B: Drop> {
    pub mine: Seat,
    pub all: Vec<(u64, B)>,
}

// All that one worker does: it draws chunks until none is left. `tell` is told of each claim.
fn work<B: Drop, F: Fn(u64) -> Result<B, AllocError>, G: Fn(Option<u64>)>(
    alloc: Global,
    claims: &ClaimBoard,
    mine: &mut Seat,
    tell: &G,
    make: &F,
) -> Result<Vec<(u64, B)>, AllocError>
    requires told { G.IsAlwaysCallable tell.now }
    requires board { mine.old.board ≡ claims.now.board }
    requires unspent { 0 < mine.old.view.share }
    requires callable { Callable claims.now.chunks (F.pre make.now) }
    ensures board { mine.new.board ≡ mine.old.board }
    ensures weight { mine.new.view.weight ≡ mine.old.view.weight }
    ensures spent { OnOk result (mine.new.view.share ≡ 0) }
    ensures drawn { IfOk result (λ v. mine.new.view.claimed ≡ mine.old.view.claimed ++ map (λ p. p.0) v.items) }
    ensures made { IfOk result (λ v. All (Gave claims.now.chunks (F.post make.now)) v.items) }
{
    let mut all = Vec::new(alloc);
    while let Some(c) = claims.claim(mine) {
        tell(Some(c));
        let bundle = make(c)?;
        all.push((c, bundle))?;
    }
    tell(None);
    Ok(all)
}

// The workers of a pass: each draws chunks, and makes a bundle of each.
#[derive(Drop)]
struct Making<'a, C, F> {
    crew: &'a C,
    claims: &'a ClaimBoard,
    make: &'a F,
}

// Two groups of workers are one.
fn merge<C, B: Drop, F: Fn(u64) -> Result<B, AllocError>>(
    making: &Making<'_, C, F>,
    rest: u32,
    half: u32,
    one: Made<B>,
    two: Made<B>,
) -> Result<Made<B>, AllocError>
    requires one { Makes making.now.claims.now.chunks (F.post making.now.make.now) making.now.claims.now.board rest one }
    requires two { Makes making.now.claims.now.chunks (F.post making.now.make.now) making.now.claims.now.board half two }
    ensures { IfOk result (λ r. Makes making.now.claims.now.chunks (F.post making.now.make.now) making.now.claims.now.board (rest + half) r) }
{
    // The contract alone speaks of these.
    let _ = (rest, half);
    let Made { mut mine, mut all } = one;
    let Made {
        mine: theirs,
        all: mut more,
    } = two;
    making.claims.join(&mut mine, theirs);
    all.append(&mut more)?;
    Ok(Made { mine, all })
}

impl<C: Crew, B: Drop + Send, F: Fn(u64) -> Result<B, AllocError> + Sync> Task
    for Making<'_, C, F> {
    type Seats = Seat;

    type Made = Result<Made<B>, AllocError>;

    ghost use Rattle.std.specs.Prelude.{◌≡◌, IfOk};
    ghost use Rattle.chunk_seats.specs.Claims.{fresh};
    ghost use Rattle.par_passes.specs.Crews.{Callable, Makes};

    ghost begins = { λ task workers mine.
        (mine.board ≡ task.claims.now.board)
        × (mine.view ≡ fresh workers)
        × Callable task.claims.now.chunks (F.pre task.make.now) };

    ghost ends = { λ task workers made.
        IfOk made (Makes task.claims.now.chunks (F.post task.make.now) task.claims.now.board workers) };

    fn split(&self, mine: &mut Seat, rest: u32, half: u32) -> Seat {
        // The contract alone speaks of it.
        let _ = rest;
        self.claims.split(mine, half)
    }

    fn work(&self, mine: Seat, worker: u32) -> Result<Made<B>, AllocError> {
        let mut mine = mine;
        let tell = |chunk: Option<u64>| self.crew.gate().after_claim(worker, chunk);
        let all = work(self.crew.alloc(), self.claims, &mut mine, &tell, self.make)?;
        Ok(Made { mine, all })
    }

    fn merge(
        &self,
        rest: u32,
        half: u32,
        one: Result<Made<B>, AllocError>,
        two: Result<Made<B>, AllocError>,
    ) -> Result<Made<B>, AllocError> {
        merge(self, rest, half, one?, two?)
    }
}

// What this many workers make.
pub(crate) fn run<C: Crew, B: Drop + Send, F: Fn(u64) -> Result<B, AllocError> + Sync>(
    crew: &C,
    claims: &ClaimBoard,
    mine: Seat,
    workers: u32,
    make: &F,
) -> Result<Made<B>, AllocError>
    requires board { mine.board ≡ claims.now.board }
    requires new { mine.view ≡ fresh workers }
    requires workers { (1 ≤ workers) × (workers ≤ 64) }
    requires callable { Callable claims.now.chunks (F.pre make.now) }
    ensures { IfOk result (λ r. Makes claims.now.chunks (F.post make.now) claims.now.board workers r) }
{
    let making = Making { crew, claims, make };
    worker_teams::run(crew.runtime(), &making, mine, 0, workers)
}

/// What is made of each chunk, one behind the other by number, for every crew. `capacity` says how many values there will be.
pub(crate) fn by_chunks<
    C: Crew,
    U: Copy + Send + Sync,
    F: Fn(u64) -> Result<Vec<U>, AllocError> + Sync,
>(crew: &C, count: usize, capacity: usize, make: &F) -> Result<Vec<U>, AllocError>
    requires count { count < 2 ^ 62 }
    requires callable { All (F.pre make.now) (range_with_len 0 count) }
    ensures { IfOk result (λ v. (part : ℕ → List U) → ((c : ℕ) (x : Vec U) → c < count → F.post make.now c (Ok x) → x.items ≡ part c) → v.items ≡ flat_map part (range_with_len 0 count)) }
{
    let workers = (crew.plan().workers as usize).min(count.max(1)) as u32;
    let (claims, mine) = ClaimBoard::new(crew.alloc(), count as u64, workers)?;
    let Made { mine, all } = run(crew, &claims, mine, workers, make)?;
    claims.close(mine);
    assemble(crew.alloc(), count, capacity, all)
}
