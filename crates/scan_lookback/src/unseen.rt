//! The leave to fold a chunk, which a look that found nothing gives.
ghost use Rattle.std.specs.Prelude.{◌≡◌};
ghost use Rattle.scan_lookback.specs.LookSteps.{LastLoaded};

use crate::board::Seat;

/// A chunk of which a look found nothing, with the seat that looked: its last load was of this chunk, and the word was 0. So none can be
/// made without that load. It can't be copied, and the seat takes no step while it is there.
#[derive(Drop)]
pub struct Unseen<'a> {
    chunk: u64,
    seat: &'a Seat,
    ghost looked: { ∥ LastLoaded seat.now.view chunk 0 ∥₁ },
}

impl<'a> Unseen<'a> {
    // The chunk that the seat has just loaded, where the word was 0.
    pub(crate) fn of(seat: &'a Seat, chunk: u64) -> Unseen<'a>
        requires { LastLoaded seat.now.view chunk 0 }
        ensures chunk { result.chunk ≡ chunk }
        ensures seat { result.seat.now ≡ seat.now }
    {
        Unseen { chunk, seat }
    }

    /// The chunk's number.
    pub fn chunk(&self) -> u64
        ensures { result ≡ self.now.chunk }
    {
        self.chunk
    }
}
