//! A team over a lent board.
ghost use Rattle.std.specs.Prelude.{◌≡◌, ℕ, ◌+◌, ◌<◌, ◌≤◌, ◌++◌, ◌∷◌, [], List, All, map, None, IfOk, IfSome, IsOkAnd};
ghost use Rattle.std.specs.Thread.{IsSync, IsSend};
ghost use Rattle.chunk_seats.specs.Claims.{fresh};
ghost use Rattle.chunk_seats.specs.Held.{held};
ghost use Rattle.chunk_seats.specs.Tallies.{times, OnceBelow};
ghost use Rattle.par_passes.specs.Crews.{Callable, Gave};
ghost use Rattle.claim_teams.specs.Teams.{AreMade, Works, as_list, beginning};

use crate::job::Job;
use chunk_seats::{ClaimBoard, Crew, Gate, Seat};
use std::alloc::AllocError;
use std::marker::{Send, Sync};
use std::thread::{Threads, join_mut};

/// The chunks that workers have drawn, with what was made of each. Where memory ran out they have drawn on, and made no more.
pub(crate) type Made<B> = Result<Vec<(u64, B)>, AllocError>;

// Workers of a team.
#[derive(Clone, Copy)]
struct Group {
    // The chunk that the first of them has begun with, if there is one.
    begun: Option<u64>,
    // The number of the first of them.
    first: u32,
    // How many they are.
    workers: u32,
}

// What was made so far, and what is made of one chunk more.
fn one_more<B: Drop, F: Fn(u64) -> Result<B, AllocError>>(
    so_far: Made<B>,
    c: u64,
    make: &F,
) -> Made<B>
    requires callable { F.pre make.now c }
    ensures { (chunks : ℕ) (claimed : List ℕ) → c < chunks → AreMade chunks (F.post make.now) claimed so_far → AreMade chunks (F.post make.now) (claimed ++ c ∷ []) result }
{
    let mut all = so_far?;
    let bundle = make(c)?;
    all.push((c, bundle))?;
    Ok(all)
}

// What one worker makes of the chunk that it begins with, if it has one.
fn begin<R, G: Gate, B: Drop, F: Fn(u64) -> Result<B, AllocError>>(
    job: &Job<'_, R, G, F>,
    begun: Option<u64>,
    worker: u32,
) -> Made<B>
    requires callable { Callable job.now.claims.now.chunks (F.pre job.now.make.now) }
    requires inside { IfSome begun (λ c. c < job.now.claims.now.chunks) }
    ensures { AreMade job.now.claims.now.chunks (F.post job.now.make.now) (as_list begun) result }
{
    let none = Ok(Vec::new(job.alloc));
    let Some(c) = begun else { return none };
    job.gate.after_claim(worker, Some(c));
    one_more(none, c, job.make)
}

// All that one worker does: it draws chunks until none is left.
fn work<R, G: Gate, B: Drop, F: Fn(u64) -> Result<B, AllocError>>(
    job: &Job<'_, R, G, F>,
    mine: &mut Seat,
    begun: Option<u64>,
    worker: u32,
) -> Made<B>
    requires board { mine.old.board ≡ job.now.claims.now.board }
    requires begun { (mine.old.view ≡ beginning begun 1) × IfSome begun (λ c. c < job.now.claims.now.chunks) }
    requires callable { Callable job.now.claims.now.chunks (F.pre job.now.make.now) }
    ensures { Works job.now.claims.now.chunks (F.post job.now.make.now) job.now.claims.now.board begun 1 mine.new result }
{
    let mut all = begin(job, begun, worker);
    while let Some(c) = job.claims.claim(mine) {
        job.gate.after_claim(worker, Some(c));
        all = one_more(all, c, job.make);
    }
    job.gate.after_claim(worker, None);
    all
}

// What was made by two groups, one behind the other.
fn appended<B: Drop>(one: Made<B>, two: Made<B>) -> Made<B>
    ensures { IfOk result (λ v. IsOkAnd one (λ x. IsOkAnd two (λ y. v.items ≡ x.items ++ y.items))) }
{
    let mut all = one?;
    let mut more = two?;
    all.append(&mut more)?;
    Ok(all)
}

// Two groups of workers side by side.
#[cycle(teams)]
fn both<R: Threads + Sync, G: Gate, B: Drop + Send, F: Fn(u64) -> Result<B, AllocError> + Sync>(
    job: &Job<'_, R, G, F>,
    mine: &mut Seat,
    theirs: &mut Seat,
    here: Group,
    there: Group,
) -> (Made<B>, Made<B>)
    requires here { (1 ≤ here.workers) × (here.first + here.workers ≤ 64) }
    requires there { (1 ≤ there.workers) × (there.first + there.workers ≤ 64) }
    requires mine { (mine.old.board ≡ job.now.claims.now.board) × (mine.old.view ≡ beginning here.begun here.workers) × IfSome here.begun (λ c. c < job.now.claims.now.chunks) }
    requires theirs { (theirs.old.board ≡ job.now.claims.now.board) × (theirs.old.view ≡ beginning there.begun there.workers) × IfSome there.begun (λ c. c < job.now.claims.now.chunks) }
    requires callable { Callable job.now.claims.now.chunks (F.pre job.now.make.now) }
    ensures mine { Works job.now.claims.now.chunks (F.post job.now.make.now) job.now.claims.now.board here.begun here.workers mine.new result.0 }
    ensures theirs { Works job.now.claims.now.chunks (F.post job.now.make.now) job.now.claims.now.board there.begun there.workers theirs.new result.1 }
{
    let mut one = || -> Made<B>
        requires { IsSync R.row × IsSync G.row × IsSync F.row × IsSend B.row × (1 ≤ here.workers) × (here.first + here.workers ≤ 64)
            × (mine.now.board ≡ job.now.claims.now.board) × (mine.now.view ≡ beginning here.begun here.workers) × IfSome here.begun (λ c. c < job.now.claims.now.chunks)
            × Callable job.now.claims.now.chunks (F.pre job.now.make.now) }
        ensures { Works job.entry.now.claims.now.chunks (F.post job.entry.now.make.now) job.entry.now.claims.now.board here.begun here.workers mine.exit.now result }
    { team(job, mine, here) };
    let mut two = || -> Made<B>
        requires { IsSync R.row × IsSync G.row × IsSync F.row × IsSend B.row × (1 ≤ there.workers) × (there.first + there.workers ≤ 64)
            × (theirs.now.board ≡ job.now.claims.now.board) × (theirs.now.view ≡ beginning there.begun there.workers) × IfSome there.begun (λ c. c < job.now.claims.now.chunks)
            × Callable job.now.claims.now.chunks (F.pre job.now.make.now) }
        ensures { Works job.entry.now.claims.now.chunks (F.post job.entry.now.make.now) job.entry.now.claims.now.board there.begun there.workers theirs.exit.now result }
    { team(job, theirs, there) };
    join_mut(job.runtime, &mut one, &mut two)
}

// What a group of workers makes. The seat is theirs, and takes in all others in the end.
#[cycle(teams)]
fn team<R: Threads + Sync, G: Gate, B: Drop + Send, F: Fn(u64) -> Result<B, AllocError> + Sync>(
    job: &Job<'_, R, G, F>,
    mine: &mut Seat,
    group: Group,
) -> Made<B>
    requires workers { (1 ≤ group.workers) × (group.first + group.workers ≤ 64) }
    requires board { mine.old.board ≡ job.now.claims.now.board }
    requires begun { (mine.old.view ≡ beginning group.begun group.workers) × IfSome group.begun (λ c. c < job.now.claims.now.chunks) }
    requires callable { Callable job.now.claims.now.chunks (F.pre job.now.make.now) }
    ensures { Works job.now.claims.now.chunks (F.post job.now.make.now) job.now.claims.now.board group.begun group.workers mine.new result }
{
    let Group {
        begun,
        first,
        workers,
    } = group;
    if workers == 1 {
        return work(job, mine, begun, first);
    }
    let half = workers / 2;
    let rest = workers - half;
    let mut theirs = job.claims.split(mine, half);
    let here = Group {
        begun,
        first,
        workers: rest,
    };
    let there = Group {
        begun: None,
        first: first + rest,
        workers: half,
    };
    let (one, two) = both(job, mine, &mut theirs, here, there);
    job.claims.join(mine, theirs);
    appended(one, two)
}

// Counts all chunks as done, of which the first one is known to be claimed: so the others are.
fn count_done(claims: &ClaimBoard, mine: &mut Seat, first: u64, count: u64)
    requires board { mine.old.board ≡ claims.now.board }
    requires whole { mine.old.view.weight ≡ claims.now.seats }
    requires spent { mine.old.view.share ≡ 0 }
    requires undone { mine.old.view.done ≡ [] }
    requires claimed { 0 < times first mine.old.view.claimed }
    requires count { count ≡ claims.now.chunks }
    ensures board { mine.new.board ≡ mine.old.board }
    ensures weight { mine.new.view.weight ≡ mine.old.view.weight }
    ensures kept { mine.new.view.claimed ≡ mine.old.view.claimed }
    ensures claimed { OnceBelow claims.now.chunks (λ n. times n mine.new.view.claimed) }
    ensures done { OnceBelow claims.now.chunks (λ n. times n mine.new.view.done) }
{
    claims.done(mine, first);
    for c in 0..count {
        if c != first {
            claims.done(mine, c);
        }
    }
}

/// What is made of each chunk of a board, beside the chunk's number, by a team of this many workers, for every crew. The board and its first seat are
/// lent; in the end the seat stands for all others again. Where memory runs out the rest is drawn all the same, and nothing is made of it. The first
/// claim is made before the seat is split, which tells whether there is any chunk; the first worker begins with that one.
pub fn make_each<C: Crew, B: Drop + Send, F: Fn(u64) -> Result<B, AllocError> + Sync>(
    crew: &C,
    claims: &ClaimBoard,
    mine: &mut Seat,
    workers: u32,
    make: &F,
) -> Result<Vec<(u64, B)>, AllocError>
    requires workers { (1 ≤ workers) × (workers ≤ 64) × (workers ≡ claims.now.seats) }
    requires first { mine.old ≡ held claims.now.board (fresh claims.now.seats) }
    requires callable { Callable claims.now.chunks (F.pre make.now) }
    // Each number is claimed once, and what is made stands beside each.
    ensures claimed { IfOk result (λ _. OnceBelow claims.now.chunks (λ n. times n mine.new.view.claimed)) }
    ensures numbers { IfOk result (λ v. mine.new.view.claimed ≡ map (λ p. p.0) v.items) }
    ensures made { IfOk result (λ v. All (Gave claims.now.chunks (F.post make.now)) v.items) }
    // Also where memory ran out, the seat is the board's whole one, and what it has done it has claimed, each chunk once.
    ensures seat { (mine.new.board ≡ claims.now.board) × (mine.new.view.weight ≡ claims.now.seats) }
    ensures within { (n : ℕ) → (times n mine.new.view.done ≤ times n mine.new.view.claimed) × (times n mine.new.view.claimed ≤ 1) }
{
    let job = Job {
        runtime: crew.runtime(),
        alloc: crew.alloc(),
        gate: crew.gate(),
        claims,
        make,
    };
    let Some(first) = claims.claim(mine) else {
        return Ok(Vec::new(crew.alloc()));
    };
    let group = Group {
        begun: Some(first),
        first: 0,
        workers,
    };
    let all = team(&job, mine, group);
    count_done(claims, mine, first, claims.chunks());
    all
}
