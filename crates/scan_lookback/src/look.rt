//! Looks at status words.
ghost use Rattle.std.specs.Prelude.{◌≡◌, ℕ, ◌<◌, length};
ghost use Rattle.scan_lookback.specs.Views.{looking};
ghost use Rattle.scan_lookback.specs.Posting.{Status};
ghost use Rattle.scan_lookback.specs.LookSteps.{FoundNothing};
ghost use Rattle.scan_lookback.specs.Named.{Names};
ghost use Rattle.scan_lookback.specs.Held.{held};
ghost use Rattle.scan_lookback.specs.Found.{Found};

use crate::board::{ScanBoard, Seat};
use crate::views::Chunks;
use word_monoid::WordMonoid;

/// What a look finds.
#[derive(Drop)]
pub enum Look<T> {
    /// Nothing was published of the chunk.
    Nothing,
    /// The join of the chunk's items.
    Sum(T),
    /// The join of the sums of all chunks up to it and with it.
    Prefix(T),
}

/// What is known of a chunk after a look: its sum, or the join of the sums of all chunks up to it and with it.
#[derive(Drop)]
pub(crate) enum Known<T> {
    Part(T),
    Whole(T),
}

// What a word of a chunk says.
fn read<M: WordMonoid, N: Chunks<M::Item>>(monoid: &M, j: u64, word: u64) -> Look<M::Item>
    requires names { Names (M.ops monoid.now) N.sums N.sum_codes N.prefix_codes }
    requires chunk { j < length N.sums }
    requires status { Status N.sum_codes N.prefix_codes j word }
    ensures { Found (M.ops monoid.now) N.sums j word result }
{
    match word % 4 {
        0 => Look::Nothing,
        1 => Look::Sum(monoid.of_word(word / 4)),
        _ => Look::Prefix(monoid.of_word(word / 4)),
    }
}

impl<'a, M: WordMonoid, N: Chunks<M::Item>> ScanBoard<'a, M, N> {
    /// Loads the word of a chunk, once, and notes it. `Nothing` comes exactly where the word is 0, which it never is for a chunk
    /// that the seat has shown, or of which it has loaded something before.
    pub fn look(&self, seat: &mut Seat, j: u64) -> Look<M::Item>
        requires board { seat.old.board ≡ self.now.board }
        requires chunk { j < self.now.chunks }
        ensures { (word : ℕ) × (seat.new ≡ held seat.old.board (looking seat.old.view j word)) × Found (M.ops self.now.monoid) N.sums j word result × (word ≡ 0 → FoundNothing seat.old.view j) }
    {
        let word = self.load_word(seat, j);
        read::<M, N>(self.monoid(), j, word)
    }
}
