//! Pairs that are put chunk by chunk.
ghost use Rattle.std.specs.Prelude.{◌≡◌, ℕ, ◌<◌, IfOk};
ghost use Rattle.chunk_seats.specs.Tallies.{times};

use crate::cells::{Cells, Seat};
use crate::views::Pairs;
use std::alloc::AllocError;

/// What workers put, of which each claims some chunks.
pub(crate) trait Chunks<N: Pairs> {
    ghost use Rattle.std.specs.Prelude.{◌≡◌, ℕ, ◌<◌, IfOk};
    ghost use Rattle.chunk_seats.specs.Tallies.{times};

    /// How many chunks there are.
    ghost count: { Self → ℕ };

    /// The pairs are those of the call, and a table of this many words has their places.
    ghost fit: { Self → ℕ → Type 0 };

    /// The chunk has the pair of that index.
    ghost has: { Self → ℕ → ℕ → Type 0 };

    /// Puts the pairs of chunk `c`.
    fn put(&self, cells: &Cells<N>, seat: &mut Seat, c: u64) -> Result<(), AllocError>
        requires board { seat.old.board ≡ cells.now.board }
        requires fit { fit self.now cells.now.board.words }
        requires chunk { c < count self.now }
        ensures board { seat.new.board ≡ seat.old.board }
        ensures kept { (i : ℕ) → 0 < times i seat.old.view.put → 0 < times i seat.new.view.put }
        ensures put { IfOk result (λ _. (i : ℕ) → has self.now c i → 0 < times i seat.new.view.put) };
}
