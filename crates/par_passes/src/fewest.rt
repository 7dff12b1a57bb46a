//! The least key.
ghost use Rattle.std.specs.Prelude.{◌≡◌, ℕ, ◌+◌, ◌-◌, ◌<◌, ◌≤◌, ◌^◌, All, length, map, fold, min, slice_index_or, IfOk};
ghost use Rattle.std.specs.List.{range_with_len};
ghost use Rattle.chunk_seats.specs.Chunks.{chunk_of};
ghost use Rattle.par_passes.specs.Least.{least_key, Offers, IsDone};

use chunk_seats::{ClaimBoard, Crew, Gate, LeastSeat, LeastWord, Seat};
use scan_lookback::Lifted;
use std::alloc::AllocError;
use std::marker::{Brand, PhantomData};
use worker_teams::{Task, chunk_start, count_chunks, run};

// The two seats of one or more workers.
#[derive(Drop)]
pub(crate) struct Team {
    pub seat: LeastSeat,
    pub mine: Seat,
}

// The least key of this many numbers, from one on.
fn least_between<F: Fn(usize) -> u64, K: Lifted<usize>>(f: &F, from: usize, count: usize) -> u64
    requires room { from + count < 2 ^ 64 }
    requires callable { All (F.pre f.now) (range_with_len from count) }
    requires lifts { All (λ k. (r : ℕ) → F.post f.now k r → r ≡ K.code_of k) (range_with_len from count) }
    ensures { result ≡ least_key (map K.code_of (range_with_len from count)) }
{
    let mut least = u64::MAX;
    for i in 0..count {
        least = least.min(f(from + i));
    }
    least
}

// The least key of the numbers of one chunk.
fn least_of_chunk<F: Fn(usize) -> u64, K: Lifted<usize>>(
    f: &F,
    len: usize,
    size: u32,
    c: u64,
) -> u64
    requires len { len < 2 ^ 62 }
    requires callable { All (F.pre f.now) (range_with_len 0 len) }
    requires lifts { All (λ k. (r : ℕ) → F.post f.now k r → r ≡ K.code_of k) (range_with_len 0 len) }
    ensures { result ≡ least_key (chunk_of size (map K.code_of (range_with_len 0 len)) c) }
{
    let from = chunk_start(len, size, c);
    least_between::<F, K>(f, from, (len - from).min(size as usize))
}

// The workers of a search for the least key: each offers the least key of each chunk that it draws. K names the keys.
#[derive(Drop)]
struct Offering<'a, C, F, K> {
    crew: &'a C,
    word: &'a LeastWord,
    claims: &'a ClaimBoard,
    size: u32,
    len: usize,
    f: &'a F,
    keys: PhantomData<K>,
}

// All that one worker does: it offers the least key of each chunk that it draws. `tell` is told of each claim.
fn offer_chunks<C, F: Fn(usize) -> u64, K: Lifted<usize>, G: Fn(Option<u64>)>(
    offering: &Offering<'_, C, F, K>,
    team: Team,
    tell: &G,
) -> Team
    requires told { G.IsAlwaysCallable tell.now }
    requires boards { (team.seat.board ≡ offering.now.word.now.board) × (team.mine.board ≡ offering.now.claims.now.board) }
    requires unspent { 0 < team.mine.view.share }
    requires len { offering.now.len < 2 ^ 62 }
    requires callable { All (F.pre offering.now.f.now) (range_with_len 0 offering.now.len) }
    requires lifts { All (λ k. (r : ℕ) → F.post offering.now.f.now k r → r ≡ K.code_of k) (range_with_len 0 offering.now.len) }
    requires offers { Offers offering.now.size (map K.code_of (range_with_len 0 offering.now.len)) team.mine.view.claimed team.seat.view.offered }
    ensures boards { (result.seat.board ≡ team.seat.board) × (result.mine.board ≡ team.mine.board) }
    ensures shares { (result.seat.view.share ≡ team.seat.view.share) × (result.mine.view.weight ≡ team.mine.view.weight) }
    ensures spent { result.mine.view.share ≡ 0 }
    ensures offers { Offers offering.now.size (map K.code_of (range_with_len 0 offering.now.len)) result.mine.view.claimed result.seat.view.offered }
{
    let Team { mut seat, mut mine } = team;
    while let Some(c) = offering.claims.claim(&mut mine) {
        tell(Some(c));
        let least = least_of_chunk::<F, K>(offering.f, offering.len, offering.size, c);
        offering.word.offer(&mut seat, least);
    }
    tell(None);
    Team { seat, mine }
}

// Two teams are one.
fn merge<C, F, K: Lifted<usize>>(
    offering: &Offering<'_, C, F, K>,
    rest: u32,
    half: u32,
    one: Team,
    two: Team,
) -> Team
    requires one { IsDone offering.now.size (map K.code_of (range_with_len 0 offering.now.len)) offering.now.word.now.board offering.now.claims.now.board rest one }
    requires two { IsDone offering.now.size (map K.code_of (range_with_len 0 offering.now.len)) offering.now.word.now.board offering.now.claims.now.board half two }
    ensures { IsDone offering.now.size (map K.code_of (range_with_len 0 offering.now.len)) offering.now.word.now.board offering.now.claims.now.board (rest + half) result }
{
    // The contract alone speaks of these.
    let _ = (rest, half);
    let Team { mut seat, mut mine } = one;
    let Team {
        seat: other,
        mine: theirs,
    } = two;
    offering.word.join(&mut seat, other);
    offering.claims.join(&mut mine, theirs);
    Team { seat, mine }
}

impl<C: Crew, F: Fn(usize) -> u64 + Sync, K: Lifted<usize> + Send + Sync> Task
    for Offering<'_, C, F, K> {
    type Seats = Team;

    type Made = Team;

    ghost use Rattle.std.specs.Prelude.{◌≡◌, ℕ, ◌<◌, ◌^◌, All, map};
    ghost use Rattle.std.specs.List.{range_with_len};
    ghost use Rattle.chunk_seats.specs.Claims.{fresh};
    ghost use Rattle.chunk_seats.specs.Offers.{silent};
    ghost use Rattle.par_passes.specs.Least.{IsDone};

    ghost begins = { λ task workers team.
        ((team.seat.board ≡ task.word.now.board) × (team.mine.board ≡ task.claims.now.board))
        × ((team.seat.view ≡ silent workers) × (team.mine.view ≡ fresh workers))
        × (task.len < 2 ^ 62)
        × All (F.pre task.f.now) (range_with_len 0 task.len)
        × All (λ k. (r : ℕ) → F.post task.f.now k r → r ≡ K.code_of k) (range_with_len 0 task.len) };

    ghost ends = { λ task workers team.
        IsDone task.size (map K.code_of (range_with_len 0 task.len)) task.word.now.board task.claims.now.board workers team };

    fn split(&self, team: &mut Team, rest: u32, half: u32) -> Team {
        // The contract alone speaks of it.
        let _ = rest;
        Team {
            seat: self.word.split(&mut team.seat, half),
            mine: self.claims.split(&mut team.mine, half),
        }
    }

    fn work(&self, team: Team, worker: u32) -> Team {
        let tell = |chunk: Option<u64>| self.crew.gate().after_claim(worker, chunk);
        offer_chunks(self, team, &tell)
    }

    fn merge(&self, rest: u32, half: u32, one: Team, two: Team) -> Team {
        merge(self, rest, half, one, two)
    }
}

// The least key of the numbers below a length.
fn least_by_number<C: Crew, F: Fn(usize) -> u64 + Sync, K: Lifted<usize> + Send + Sync>(
    crew: &C,
    len: usize,
    f: &F,
) -> Result<u64, AllocError>
    requires len { len < 2 ^ 62 }
    requires callable { All (F.pre f.now) (range_with_len 0 len) }
    requires lifts { All (λ k. (r : ℕ) → F.post f.now k r → r ≡ K.code_of k) (range_with_len 0 len) }
    ensures { IfOk result (λ m. m ≡ least_key (map K.code_of (range_with_len 0 len))) }
{
    let plan = crew.plan();
    let count = count_chunks(len, plan.chunk);
    let workers = (plan.workers as usize).min(count.max(1)) as u32;
    let (claims, mine) = ClaimBoard::new(crew.alloc(), count as u64, workers)?;
    let (word, seat) = LeastWord::new(crew.alloc(), workers)?;
    let offering = Offering::<C, F, K> {
        crew,
        word: &word,
        claims: &claims,
        size: plan.chunk,
        len,
        f,
        keys: PhantomData,
    };
    let team = Team { seat, mine };
    let done = run(crew.runtime(), &offering, team, 0, workers);
    let Team { seat, mine } = done;
    claims.close(mine);
    Ok(word.close(seat))
}

/// The least of the keys, and `u64::MAX` where there is none. It is the same for every crew. The only refusal is that memory is out.
pub(crate) fn least<C: Crew>(crew: &C, keys: &[u64]) -> Result<u64, AllocError>
    requires len { length keys.now < 2 ^ 62 }
    ensures { IfOk result (λ m. m ≡ fold min (2 ^ 64 - 1) keys.now) }
{
    let at = |k: usize| -> u64
        requires { k < length keys.now }
        ensures { result ≡ slice_index_or keys.entry.now k 0 }
    { keys[k] };
    least_by_number::<C, _, Brand>(crew, keys.len(), &at)
}

/// The least of what the function gives for the numbers below `count`, and `u64::MAX` where there is none. K names what it gives; the call
/// passes `Brand` and picks it. It is the same for every crew. The only refusal is that memory is out.
pub(crate) fn least_of<C: Crew, F: Fn(u32) -> u64 + Sync, K: Lifted<u32>>(
    crew: &C,
    count: u32,
    f: &F,
) -> Result<u64, AllocError>
    requires callable { All (F.pre f.now) (range_with_len 0 count) }
    requires lifts { All (λ k. (r : ℕ) → F.post f.now k r → r ≡ K.code_of k) (range_with_len 0 count) }
    ensures { IfOk result (λ m. m ≡ fold min (2 ^ 64 - 1) (map K.code_of (range_with_len 0 count))) }
{
    let at = |k: usize| -> u64
        requires { (k < 2 ^ 32) × F.pre f.now k }
        ensures { F.post f.entry.now k result }
    { f(k as u32) };
    least_by_number::<C, _, Brand>(crew, count as usize, &at)
}
