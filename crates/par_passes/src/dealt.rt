//! A list that is filled in place with what a function gives for the number of each place. Workers fill the parts that they draw.
ghost use Rattle.std.specs.Prelude.{◌≡◌, ℕ, ◌+◌, ◌-◌, ◌<◌, ◌≤◌, ◌^◌, [], min, All, Some, None, length, take, replicate, flat_map, slice_get, vec_capacity, IfOk, IfErr};
ghost use Rattle.std.specs.List.{range_with_len};
ghost use denote.RawPtr.{Ptr};
ghost use Rattle.std.specs.Mem.{type_size};
ghost use Rattle.chunk_seats.specs.Chunks.{chunk_of, chunk_count};
ghost use Rattle.deal_board.specs.Returned.{returned};
ghost use Rattle.list_parts.specs.Parts.{part_items, part_start, Chain, Fits, SamePlaces};
ghost use Rattle.list_parts.specs.declared.part.Part.{Part as Piece};
ghost use Rattle.par_passes.specs.Dealt.{Serves, InPlace, IsWhole};
ghost use Rattle.par_passes.specs.Passes.{Gives};

use chunk_seats::{Crew, Gate, Plan};
use deal_board::{DealBoard, Goods, Returned, Seat};
use list_parts::{Part, with_part};
use std::alloc::{AllocError, Global};
use std::marker::Brand;
use worker_teams::{Task, chunk_start, count_chunks, run};

// What a list is filled with: what a function gives for each number below a length, in chunks.
#[derive_where(Clone, Copy)]
struct Filling<'a, F> {
    plan: Plan,
    len: usize,
    f: &'a F,
}

// What the function gives for each number from `from` on, at its place. This many of the first values are there already.
fn fill_behind<U: Copy, F: Fn(usize) -> U>(out: &mut [U], from: usize, known: usize, f: &F)
    requires room { from + length out.old < 2 ^ 64 }
    requires callable { All (F.pre f.now) (range_with_len from (length out.old)) }
    requires known { Gives (F.post f.now) (take known (range_with_len from (length out.old))) (take known out.old) }
    ensures len { length out.new ≡ length out.old }
    ensures values { Gives (F.post f.now) (range_with_len from (length out.old)) out.new }
{
    for i in known..out.len() {
        out[i] = f(from + i);
    }
}

// The part of chunk `c` of this many places, filled. The first value of chunk 0 is there already.
fn fill_part<U: Copy, F: Fn(usize) -> U>(part: &mut Part<U>, len: usize, size: u32, c: u64, f: &F)
    requires few { len < 2 ^ 62 }
    requires wide { length (chunk_of size (range_with_len 0 len) c) ≡ length (part_items part.old) }
    requires callable { All (F.pre f.now) (range_with_len 0 len) }
    requires known { Gives (F.post f.now) (take (1 - c) (chunk_of size (range_with_len 0 len) c)) (take (1 - c) (part_items part.old)) }
    ensures place { SamePlaces part.old part.new }
    ensures values { Gives (F.post f.now) (chunk_of size (range_with_len 0 len) c) (part_items part.new) }
{
    let known = 1_u64.saturating_sub(c) as usize;
    fill_behind(part.as_mut_slice(), chunk_start(len, size, c), known, f);
}

// All that one worker does: it fills the parts that it draws, until none is left. `tell` is told of each draw.
fn fill_drawn<U: Copy, F: Fn(usize) -> U, N: Goods<Part<U>>, G: Fn(Option<u64>)>(
    board: &DealBoard<Part<U>, N>,
    mine: &mut Seat<Part<U>>,
    tell: &G,
    filling: &Filling<'_, F>,
)
    requires told { G.IsAlwaysCallable tell.now }
    requires board { mine.old.board ≡ board.now.board }
    requires unspent { 0 < mine.old.view.share }
    requires empty { mine.old.hand ≡ None }
    requires callable { All (F.pre filling.now.f.now) (range_with_len 0 filling.now.len) }
    requires len { filling.now.len < 2 ^ 62 }
    requires serves { Serves (F.post filling.now.f.now) filling.now.plan.chunk (range_with_len 0 filling.now.len) N.items N.good }
    ensures board { mine.new.board ≡ mine.old.board }
    ensures weight { mine.new.view.weight ≡ mine.old.view.weight }
    ensures spent { (mine.new.view.share ≡ 0) × (mine.new.hand ≡ None) }
{
    let len = filling.len;
    let size = filling.plan.chunk;
    while let Some(c) = board.deal(mine) {
        tell(Some(c));
        fill_part(mine.item_mut(board, c), len, size, c, filling.f);
    }
    tell(None);
}

// The workers that fill a list: each fills the parts that it draws.
#[derive(Drop)]
struct Drawing<'a, U, F, N: Goods<Part<U>>, G> {
    board: &'a DealBoard<Part<U>, N>,
    gate: &'a G,
    filling: Filling<'a, F>,
}

impl<U: Copy + Send + Sync, F: Fn(usize) -> U + Sync, N: Goods<Part<U>> + Send + Sync, G: Gate> Task
    for Drawing<'_, U, F, N, G> {
    type Seats = Seat<Part<U>>;

    type Made = Seat<Part<U>>;

    ghost use Rattle.std.specs.Prelude.{◌≡◌, ◌<◌, ◌^◌, All, None};
    ghost use Rattle.std.specs.List.{range_with_len};
    ghost use Rattle.chunk_seats.specs.Claims.{fresh};
    ghost use Rattle.par_passes.specs.Dealt.{Serves};

    ghost begins = { λ task workers mine.
        (mine.board ≡ task.board.now.board)
        × ((mine.view ≡ fresh workers) × (mine.hand ≡ None))
        × (task.filling.len < 2 ^ 62)
        × All (F.pre task.filling.f.now) (range_with_len 0 task.filling.len)
        × Serves (F.post task.filling.f.now) task.filling.plan.chunk (range_with_len 0 task.filling.len) N.items N.good };

    ghost ends = { λ task workers mine.
        (mine.board ≡ task.board.now.board)
        × (mine.view.weight ≡ workers)
        × ((mine.view.share ≡ 0) × (mine.hand ≡ None)) };

    fn split(&self, mine: &mut Seat<Part<U>>, rest: u32, half: u32) -> Seat<Part<U>> {
        // The contract alone speaks of it.
        let _ = rest;
        self.board.split(mine, half)
    }

    fn work(&self, mine: Seat<Part<U>>, worker: u32) -> Seat<Part<U>> {
        let mut mine = mine;
        let tell = |chunk: Option<u64>| self.gate.after_claim(worker, chunk);
        fill_drawn(self.board, &mut mine, &tell, &self.filling);
        mine
    }

    fn merge(&self, rest: u32, half: u32, one: Seat<Part<U>>, two: Seat<Part<U>>) -> Seat<Part<U>> {
        // The contract alone speaks of these.
        let _ = (rest, half);
        let mut one = one;
        self.board.join(&mut one, two);
        one
    }
}

// The parts that came back, as one.
fn glue_back<U: Copy, N: Goods<Part<U>>>(parts: Returned<Part<U>, N>) -> Part<U>
    requires all { (parts ≡ returned 0 (length N.items)) × (0 < length N.items) }
    requires place { (start : Ptr) × Chain (type_size U.row) start N.items }
    requires size { Fits (type_size U.row) (length (flat_map part_items N.items)) }
    requires in_place { InPlace N.items N.good }
    ensures { IsWhole (type_size U.row) N.items N.good result }
{
    let mut left = parts;
    let Some(mut whole) = left.take_next() else {
        unreachable!();
    };
    while let Some(part) = left.take_next() {
        whole = whole.glue(part);
    }
    whole
}

// The parts, dealt to this many workers, filled and glued. Where there is no memory for the board, they come back.
fn fill_parts<
    C: Crew,
    U: Copy + Send + Sync,
    F: Fn(usize) -> U + Sync,
    N: Goods<Part<U>> + Send + Sync,
>(
    crew: &C,
    workers: u32,
    filling: &Filling<'_, F>,
    parts: Vec<Part<U>>,
) -> Result<Part<U>, Vec<Part<U>>>
    requires named { parts.items ≡ N.items }
    requires few { (0 < length N.items) × (length N.items < 2 ^ 62) }
    requires workers { (1 ≤ workers) × (workers ≤ 64) }
    requires callable { All (F.pre filling.now.f.now) (range_with_len 0 filling.now.len) }
    requires len { filling.now.len < 2 ^ 62 }
    requires serves { Serves (F.post filling.now.f.now) filling.now.plan.chunk (range_with_len 0 filling.now.len) N.items N.good }
    requires in_place { InPlace N.items N.good }
    requires place { (start : Ptr) × Chain (type_size U.row) start N.items }
    requires size { Fits (type_size U.row) (length (flat_map part_items N.items)) }
    ensures whole { IfOk result (λ p. IsWhole (type_size U.row) N.items N.good p) }
    ensures back { IfErr result (λ v. v.items ≡ parts.items) }
{
    match DealBoard::<Part<U>, N>::new(crew.alloc(), parts, workers) {
        Ok((board, mine)) => {
            let drawing = Drawing {
                board: &board,
                gate: crew.gate(),
                filling: *filling,
            };
            let mine = run(crew.runtime(), &drawing, mine, 0, workers);
            Ok(glue_back(board.close(mine)))
        }
        Err(parts) => Err(parts),
    }
}

// The same, where each part has a place for each item of its chunk.
fn deal_parts<C: Crew, U: Copy + Send + Sync, F: Fn(usize) -> U + Sync>(
    crew: &C,
    workers: u32,
    filling: &Filling<'_, F>,
    parts: Vec<Part<U>>,
) -> Result<Part<U>, Vec<Part<U>>>
    requires few { (0 < length parts.items) × (length parts.items < 2 ^ 62) }
    requires workers { (1 ≤ workers) × (workers ≤ 64) }
    requires callable { All (F.pre filling.now.f.now) (range_with_len 0 filling.now.len) }
    requires len { filling.now.len < 2 ^ 62 }
    requires chunks { length parts.items ≡ chunk_count filling.now.plan.chunk filling.now.len }
    requires wide { (c : ℕ) (part : Piece U) → slice_get parts.items c ≡ Some part → length (chunk_of filling.now.plan.chunk (range_with_len 0 filling.now.len) c) ≡ length (part_items part) }
    requires known { (c : ℕ) (part : Piece U) → slice_get parts.items c ≡ Some part
        → Gives (F.post filling.now.f.now) (take (1 - c) (chunk_of filling.now.plan.chunk (range_with_len 0 filling.now.len) c)) (take (1 - c) (part_items part)) }
    requires place { (start : Ptr) × Chain (type_size U.row) start parts.items }
    requires size { Fits (type_size U.row) (length (flat_map part_items parts.items)) }
    ensures place { IfOk result (λ p. (start : Ptr) → Chain (type_size U.row) start parts.items → part_start p ≡ start) }
    ensures wide { IfOk result (λ p. length (part_items p) ≡ length (flat_map part_items parts.items)) }
    ensures values { IfOk result (λ p. Gives (F.post filling.now.f.now) (range_with_len 0 filling.now.len) (part_items p)) }
    ensures back { IfErr result (λ v. v.items ≡ parts.items) }
{
    fill_parts::<C, U, F, Brand>(crew, workers, filling, parts)
}

// The part filled with what the function gives for each item, of which the first is there already. Where there is no memory for the board, its
// values are unknown.
fn fill_whole<C: Crew, U: Copy + Send + Sync, F: Fn(usize) -> U + Sync>(
    crew: &C,
    filling: &Filling<'_, F>,
    whole: Part<U>,
    room: Vec<Part<U>>,
) -> (Part<U>, Result<(), AllocError>)
    requires some { (0 < filling.now.len) × (filling.now.len < 2 ^ 62) }
    requires callable { All (F.pre filling.now.f.now) (range_with_len 0 filling.now.len) }
    requires wide { (length (part_items whole) ≡ filling.now.len) × Fits (type_size U.row) filling.now.len }
    requires known { Gives (F.post filling.now.f.now) (take 1 (range_with_len 0 filling.now.len)) (take 1 (part_items whole)) }
    requires room { (room.items ≡ []) × (chunk_count filling.now.plan.chunk filling.now.len ≤ vec_capacity room) }
    ensures place { SamePlaces whole result.0 }
    ensures values { IfOk result.1 (λ _. Gives (F.post filling.now.f.now) (range_with_len 0 filling.now.len) (part_items result.0)) }
{
    let plan = filling.plan;
    let count = count_chunks(filling.len, plan.chunk);
    let workers = (plan.workers as usize).min(count) as u32;
    let parts = whole.cut_all(plan.chunk as usize, count, room);
    match deal_parts(crew, workers, filling, parts) {
        Ok(filled) => (filled, Ok(())),
        Err(parts) => (Part::glue_all(parts), Err(AllocError)),
    }
}

// A list of that many copies.
pub(crate) fn copies<U: Copy>(alloc: Global, item: U, len: usize) -> Result<Vec<U>, AllocError>
    ensures len { IfOk result (λ v. length v.items ≡ len) }
    ensures items { IfOk result (λ v. v.items ≡ replicate len item) }
{
    let mut list = Vec::with_capacity(alloc, len)?;
    list.resize(len, item)?;
    Ok(list)
}

// A list with this many places, with the first value in it.
fn begin_list<U: Copy, F: Fn(usize) -> U>(
    alloc: Global,
    len: usize,
    f: &F,
) -> Result<Vec<U>, AllocError>
    requires some { 0 < len }
    requires callable { All (F.pre f.now) (range_with_len 0 len) }
    ensures len { IfOk result (λ v. length v.items ≡ len) }
    ensures known { IfOk result (λ v. Gives (F.post f.now) (take 1 (range_with_len 0 len)) (take 1 v.items)) }
{
    copies(alloc, f(0), len)
}

// The list made of copies of the first value, and filled in place behind it, each chunk by the worker that draws it.
fn fill_by_parts<C: Crew, U: Copy + Send + Sync, F: Fn(usize) -> U + Sync>(
    crew: &C,
    filling: &Filling<'_, F>,
) -> Result<Vec<U>, AllocError>
    requires some { (0 < filling.now.len) × (filling.now.len < 2 ^ 62) }
    requires callable { All (F.pre filling.now.f.now) (range_with_len 0 filling.now.len) }
    ensures { IfOk result (λ v. Gives (F.post filling.now.f.now) (range_with_len 0 filling.now.len) v.items) }
{
    let room = Vec::with_capacity(crew.alloc(), count_chunks(filling.len, filling.plan.chunk))?;
    let mut out = begin_list(crew.alloc(), filling.len, filling.f)?;
    let fill = |whole: Part<U>, room: Vec<Part<U>>| -> (Part<U>, Result<(), AllocError>)
        requires { ((0 < filling.now.len) × (filling.now.len < 2 ^ 62))
            × All (F.pre filling.now.f.now) (range_with_len 0 filling.now.len)
            × ((length (part_items whole) ≡ filling.now.len) × Fits (type_size U.row) filling.now.len)
            × Gives (F.post filling.now.f.now) (take 1 (range_with_len 0 filling.now.len)) (take 1 (part_items whole))
            × ((room.items ≡ []) × (chunk_count filling.now.plan.chunk filling.now.len ≤ vec_capacity room)) }
        ensures place { SamePlaces whole result.0 }
        ensures values { IfOk result.1 (λ _. Gives (F.post filling.entry.now.f.now) (range_with_len 0 filling.entry.now.len) (part_items result.0)) }
    { fill_whole(crew, filling, whole, room) };
    with_part(out.as_mut_slice(), room, fill)?;
    Ok(out)
}

/// What the function gives for the number of each place, by one call each.
pub(crate) fn fill_by_number<C: Crew, U: Copy + Send + Sync, F: Fn(usize) -> U + Sync>(
    crew: &C,
    len: usize,
    f: &F,
) -> Result<Vec<U>, AllocError>
    requires len { len < 2 ^ 62 }
    requires callable { All (F.pre f.now) (range_with_len 0 len) }
    ensures { IfOk result (λ v. Gives (F.post f.now) (range_with_len 0 len) v.items) }
{
    if len == 0 {
        crew.gate().after_claim(0, None);
        return Ok(Vec::new(crew.alloc()));
    }
    let plan = crew.plan();
    fill_by_parts(crew, &Filling { plan, len, f })
}
