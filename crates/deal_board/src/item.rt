//! The item in a seat's hand.
ghost use Rattle.std.specs.Prelude.{◌≡◌, Some};
ghost use Rattle.std.specs.Borrow.{Lends, sem};
ghost use Rattle.deal_board.specs.Held.{holding};
ghost use Rattle.deal_board.specs.contracts.board.Seat.{the_row};

use crate::board::{DealBoard, Seat};
use crate::goods::Goods;

impl<T> Seat<T> {
    /// The item in the seat's hand, which was drawn as number `c`. When the borrow ends, the seat has what was written through it.
    pub fn item_mut<'a, N: Goods<T>>(&'a mut self, board: &'a DealBoard<T, N>, c: u64) -> &'a mut T
        requires board { self.old.board ≡ board.now.board }
        requires hand { (x : T) × (self.old.hand ≡ Some (c, x)) }
        ensures* writes_back { sem 𝓛 (Lends (the_row T.row) T.row self.entry result (holding self.old c)) }
        ensures value { self.old.hand ≡ Some (c, result.now) }
    {
        let token = &mut self.token;
        token.slot_mut(&board.table.shared, c as usize)
    }
}
