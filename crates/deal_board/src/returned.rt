//! The items of a board that was taken apart.
ghost use Rattle.std.specs.Prelude.{◌≡◌, ◌+◌, ◌<◌, IfSome, IfNone, None};
ghost use Rattle.deal_board.specs.Returned.{returned};

use crate::board::{DealBoard, Seat};
use crate::goods::Goods;
use atomic_table::Closed;
use std::alloc::Global;
use std::marker::{Model, PhantomData};

/// The items of a board that was taken apart, which are taken in order. That needs no memory.
pub struct Returned<T, N: Goods<T>> {
    closed: Closed<T, Global>,
    next: usize,
    of: PhantomData<N>,
}

impl<T, N: Goods<T>> Model for Returned<T, N> {
    ghost use Rattle.std.specs.Mem.Slots.{slots_items, slots_filled, slots_len};
    ghost use Rattle.deal_board.specs.Returned.{Returned, returned, AreLeft};

    ghost Value = { Returned };

    ghost view = { λ r. returned r.next (slots_len r.closed.slots) };

    ghost invariant = { λ r. AreLeft N.good r.next (slots_len r.closed.slots) (slots_items r.closed.slots) (slots_filled r.closed.slots) };
}

impl<T, N: Goods<T>> DealBoard<T, N> {
    /// Takes the board apart. The seat is one into which all others were joined, and each item is at home again.
    pub fn close(self, seat: Seat<T>) -> Returned<T, N>
        requires board { seat.board ≡ self.board }
        requires all { seat.view.weight ≡ self.seats }
        requires spent { seat.view.share ≡ 0 }
        requires empty { seat.hand ≡ None }
        ensures { result ≡ returned 0 self.count }
    {
        let Seat { token } = seat;
        let DealBoard { table, count: _ } = self;
        Returned {
            closed: table.close_with(token),
            next: 0,
            of: PhantomData,
        }
    }
}

impl<T, N: Goods<T>> Returned<T, N> {
    /// The next item, which is good for its number, or `None` where all were taken.
    pub fn take_next(&mut self) -> Option<T>
        ensures some { IfSome result (λ x. N.good self.old.taken x × (self.old.taken < self.old.count) × (self.new ≡ returned (self.old.taken + 1) self.old.count)) }
        ensures none { IfNone result ((self.old.taken ≡ self.old.count) × (self.new ≡ self.old)) }
    {
        if self.next == self.closed.slot_count() {
            return None;
        }
        let item = self.closed.take(self.next);
        self.next += 1;
        Some(item)
    }

    /// Frees the board's memory, once all items were taken.
    pub fn free(self)
        requires { self.taken ≡ self.count }
    {
        let Returned {
            closed,
            next: _,
            of: _,
        } = self;
        closed.free();
    }
}

impl<T: Drop, N: Goods<T>> Drop for Returned<T, N> {
    fn drop(mut self) {
        while let Some(item) = self.take_next() {
            drop(item);
        }
        self.free();
    }
}
