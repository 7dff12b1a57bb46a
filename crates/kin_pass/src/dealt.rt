//! Items that are dealt to the workers of a crew. Each is worked on in place, by one call with its number.
ghost use Rattle.std.specs.Prelude.{◌≡◌, ℕ, ◌-◌, ◌<◌, ◌≤◌, ◌^◌, [], None, Some, length, slice_get, vec_capacity, IfOk, IfErr};
ghost use Rattle.std.specs.Fork.{AcceptsAt, ChangesAt};
ghost use Rattle.std.specs.List.{range_with_len};
ghost use Rattle.deal_board.specs.Returned.{returned};
ghost use Rattle.kin_pass.specs.Dealt.{Serves};
ghost use Rattle.par_passes.specs.Passes.{Gives};

use chunk_seats::{Crew, Gate};
use deal_board::{DealBoard, Goods, Returned, Seat};
use std::marker::Brand;
use worker_teams::{Task, run};

// One call.
fn work_on<T, F: Fn(u64, &mut T)>(item: &mut T, c: u64, f: &F)
    requires { AcceptsAt F.Fn f.now c item.old }
    ensures { ChangesAt F.Fn f.now c item.old item.new }
{
    f(c, item);
}

// All that one worker does: it works on the items that it draws, until none is left. `tell` is told of each draw.
fn work_drawn<T, F: Fn(u64, &mut T), N: Goods<T>, G: Fn(Option<u64>)>(
    board: &DealBoard<T, N>,
    mine: &mut Seat<T>,
    tell: &G,
    f: &F,
)
    requires told { G.IsAlwaysCallable tell.now }
    requires board { mine.old.board ≡ board.now.board }
    requires unspent { 0 < mine.old.view.share }
    requires empty { mine.old.hand ≡ None }
    requires serves { Serves F.Fn f.now N.items N.good }
    ensures board { mine.new.board ≡ mine.old.board }
    ensures weight { mine.new.view.weight ≡ mine.old.view.weight }
    ensures spent { (mine.new.view.share ≡ 0) × (mine.new.hand ≡ None) }
{
    while let Some(c) = board.deal(mine) {
        tell(Some(c));
        work_on(mine.item_mut(board, c), c, f);
    }
    tell(None);
}

// The workers, each of whom works on the items that it draws.
#[derive(Drop)]
struct Working<'a, T, F, N: Goods<T>, G> {
    board: &'a DealBoard<T, N>,
    gate: &'a G,
    f: &'a F,
}

impl<T: Drop + Send, F: Fn(u64, &mut T) + Sync, N: Goods<T> + Send + Sync, G: Gate> Task
    for Working<'_, T, F, N, G> {
    type Seats = Seat<T>;

    type Made = Seat<T>;

    ghost use Rattle.std.specs.Prelude.{◌≡◌, None};
    ghost use Rattle.chunk_seats.specs.Claims.{fresh};
    ghost use Rattle.kin_pass.specs.Dealt.{Serves};

    ghost begins = { λ task workers mine.
        (mine.board ≡ task.board.now.board)
        × ((mine.view ≡ fresh workers) × (mine.hand ≡ None))
        × Serves F.Fn task.f.now N.items N.good };

    ghost ends = { λ task workers mine.
        (mine.board ≡ task.board.now.board)
        × (mine.view.weight ≡ workers)
        × ((mine.view.share ≡ 0) × (mine.hand ≡ None)) };

    fn split(&self, mine: &mut Seat<T>, rest: u32, half: u32) -> Seat<T> {
        // The contract alone speaks of it.
        let _ = rest;
        self.board.split(mine, half)
    }

    fn work(&self, mine: Seat<T>, worker: u32) -> Seat<T> {
        let mut mine = mine;
        let tell = |chunk: Option<u64>| self.gate.after_claim(worker, chunk);
        work_drawn(self.board, &mut mine, &tell, self.f);
        mine
    }

    fn merge(&self, rest: u32, half: u32, one: Seat<T>, two: Seat<T>) -> Seat<T> {
        // The contract alone speaks of these.
        let _ = (rest, half);
        let mut one = one;
        self.board.join(&mut one, two);
        one
    }
}

// The items that came back, in order.
fn in_order<T: Drop, N: Goods<T>>(items: Returned<T, N>, room: Vec<T>) -> Vec<T>
    requires all { items ≡ returned 0 (length N.items) }
    requires room { (room.items ≡ []) × (length N.items ≤ vec_capacity room) }
    ensures { Gives N.good (range_with_len 0 (length N.items)) result.items }
{
    let mut left = items;
    let mut out = room;
    while let Some(item) = left.take_next() {
        out.push_reserved(item);
    }
    out
}

// The items, dealt to this many workers. Where there is no memory for the board, they come back as they were.
fn deal_items<C: Crew, T: Drop + Send, F: Fn(u64, &mut T) + Sync, N: Goods<T> + Send + Sync>(
    crew: &C,
    workers: u32,
    items: Vec<T>,
    room: Vec<T>,
    f: &F,
) -> Result<Vec<T>, Vec<T>>
    requires named { items.items ≡ N.items }
    requires few { length N.items < 2 ^ 62 }
    requires workers { (1 ≤ workers) × (workers ≤ 64) }
    requires serves { Serves F.Fn f.now N.items N.good }
    requires room { (room.items ≡ []) × (length N.items ≤ vec_capacity room) }
    ensures good { IfOk result (λ v. Gives N.good (range_with_len 0 (length N.items)) v.items) }
    ensures back { IfErr result (λ v. v.items ≡ items.items) }
{
    match DealBoard::<T, N>::new(crew.alloc(), items, workers) {
        Ok((board, mine)) => {
            let working = Working {
                board: &board,
                gate: crew.gate(),
                f,
            };
            let mine = run(crew.runtime(), &working, mine, 0, workers);
            Ok(in_order(board.close(mine), room))
        }
        Err(items) => Err(items),
    }
}

/// The items in their order, each worked on by one call with its number, whoever draws it. Where memory is out, they come back as they were.
pub(crate) fn work_in_place<C: Crew, T: Drop + Send, F: Fn(u64, &mut T) + Sync>(
    crew: &C,
    items: Vec<T>,
    f: &F,
) -> Result<Vec<T>, Vec<T>>
    requires few { length items.items < 2 ^ 62 }
    requires callable { (c : ℕ) (x : T) → slice_get items.items c ≡ Some x → AcceptsAt F.Fn f.now c x }
    ensures many { IfOk result (λ v. length v.items ≡ length items.items) }
    ensures each { IfOk result (λ v. (c : ℕ) (x y : T) → slice_get items.items c ≡ Some x → slice_get v.items c ≡ Some y → ChangesAt F.Fn f.now c x y) }
    ensures back { IfErr result (λ v. v.items ≡ items.items) }
{
    let workers = (crew.plan().workers as usize).min(items.len().max(1)) as u32;
    match Vec::with_capacity(crew.alloc(), items.len()) {
        Ok(room) => deal_items::<C, T, F, Brand>(crew, workers, items, room, f),
        Err(_) => Err(items),
    }
}
