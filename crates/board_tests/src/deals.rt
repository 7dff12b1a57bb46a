ghost use Rattle.std.specs.Prelude.{◌≡◌, ℕ, ◌*◌, ◌<◌, [], ◌∷◌, Some, None, replicate};
ghost use Rattle.chunk_seats.specs.Claims.{fresh};
ghost use Rattle.deal_board.specs.Held.{holding};

use deal_board::{DealBoard, Goods, Seat};
use std::alloc::Global;
use std::marker::Brand;
use std::process::Abort;
use std::test::*;
use std::thread::{Threads, join};

// Writes ten times its number over each item that it draws.
fn work<N: Goods<u64>>(board: &DealBoard<u64, N>, mut seat: Seat<u64>) -> Seat<u64>
    requires board { seat.board ≡ board.now.board }
    requires fresh { (0 < seat.view.share) × (seat.hand ≡ None) }
    requires few { board.now.count < 100 }
    requires good { (k : ℕ) → N.good k (k * 10) }
    ensures same { (result.board ≡ seat.board) × (result.view.weight ≡ seat.view.weight) }
    ensures spent { (result.view.share ≡ 0) × (result.hand ≡ None) }
{
    while let Some(c) = board.deal(&mut seat) {
        *seat.item_mut(board, c) = c * 10;
    }
    seat
}

// Two workers, each in a thread of its own.
fn both<N: Goods<u64> + Send + Sync, R: Threads>(
    rt: &R,
    board: &DealBoard<u64, N>,
    mut one: Seat<u64>,
) -> Seat<u64>
    requires board { one.board ≡ board.now.board }
    requires fresh { one.view ≡ fresh 2 }
    requires empty { one.hand ≡ None }
    requires few { board.now.count < 100 }
    requires good { (k : ℕ) → N.good k (k * 10) }
    ensures all { (result.board ≡ one.board) × (result.view.weight ≡ 2) }
    ensures spent { (result.view.share ≡ 0) × (result.hand ≡ None) }
{
    let two = board.split(&mut one, 1);
    let (mut one, two) = join(
        rt,
        move || -> Seat<u64>
            requires { (one.board ≡ board.now.board) × (one.view.weight ≡ 1) × (0 < one.view.share) × (one.hand ≡ None) × (board.now.count < 100) × ((k : ℕ) → N.good k (k * 10)) }
            ensures { (result.board ≡ board.entry.now.board) × (result.view.weight ≡ 1) × (result.view.share ≡ 0) × (result.hand ≡ None) }
        { work(board, one) },
        move || -> Seat<u64>
            requires { (two.board ≡ board.now.board) × (two.view.weight ≡ 1) × (0 < two.view.share) × (two.hand ≡ None) × (board.now.count < 100) × ((k : ℕ) → N.good k (k * 10)) }
            ensures { (result.board ≡ board.entry.now.board) × (result.view.weight ≡ 1) × (result.view.share ≡ 0) × (result.hand ≡ None) }
        { work(board, two) },
    );
    board.join(&mut one, two);
    one
}

fn deals<N: Goods<u64> + Send + Sync, R: Threads + Abort>(rt: &R, alloc: Global) -> Result<(), Fail>
    requires items { N.items ≡ replicate 10 7 }
    requires good { (k : ℕ) → N.good k (k * 10) }
{
    let items = Vec::from_elem(alloc, 7u64, 10)?;
    let Ok((board, seat)) = DealBoard::<u64, N>::new(alloc, items, 2) else {
        return Err("no memory".into());
    };
    let seat = both(rt, &board, seat);
    let mut back = board.close(seat);
    for due in 0..10 {
        assert_eq!(rt; back.take_next(), Some(due * 10));
    }
    assert_eq!(rt; back.take_next(), None);
    Ok(())
}

#[test]
fn ten_items_and_two_workers(rt: HostRuntime) -> Result<(), Fail> {
    deals::<Brand, _>(&rt, rt.alloc())
}

// One seat, whose item is read, and another put in its place.
fn changes<N: Goods<u64>>(board: &DealBoard<u64, N>, seat: &mut Seat<u64>, c: u64) -> u64
    requires board { seat.old.board ≡ board.now.board }
    requires hand { (x : ℕ) × (seat.old.hand ≡ Some (c, x)) }
    ensures item { seat.old.hand ≡ Some (c, result) }
    ensures left { seat.new ≡ holding seat.old c 10 }
{
    let place = seat.item_mut(board, c);
    let item = *place;
    *place = 10;
    item
}

fn swaps<N: Goods<u64>>(rt: &impl Abort, alloc: Global) -> Result<(), Fail>
    requires items { N.items ≡ 5 ∷ [] }
    requires good { (k x : ℕ) → N.good k x }
{
    let items = Vec::from_array(alloc, [5])?;
    let Ok((board, mut seat)) = DealBoard::<u64, N>::new(alloc, items, 1) else {
        return Err("no memory".into());
    };
    if let Some(c) = board.deal(&mut seat) {
        assert_eq!(rt; changes(&board, &mut seat, c), 5);
        assert_eq!(rt; board.deal(&mut seat), None);
        let mut back = board.close(seat);
        assert_eq!(rt; back.take_next(), Some(10));
        assert_eq!(rt; back.take_next(), None);
    }
    Ok(())
}

#[test]
fn one_item_is_replaced(rt: HostRuntime) -> Result<(), Fail> {
    swaps::<Brand>(&rt, rt.alloc())
}
