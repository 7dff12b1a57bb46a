//! A gate at which the two workers of each pass meet.
ghost use Rattle.std.specs.Prelude.{◌<◌};

use chunk_seats::Gate;
use std::sync::atomic::{AtomicU64, Ordering};

/// The worker that draws chunk 0 of a pass waits until the other one has drawn a chunk of that pass too, for at most this many turns. What was
/// drawn in earlier passes doesn't count: a worker's passes are numbered by how often it has found no chunk left behind those that it drew. A
/// pass in which one worker draws alone, as where there is only one chunk, is counted apart.
#[derive(Drop)]
pub struct Meeting {
    ended: [AtomicU64; 2],
    drawn: [AtomicU64; 2],
    met: AtomicU64,
    alone: AtomicU64,
}

const TURNS: u64 = 1 << 28;

impl Meeting {
    /// Nobody has come yet.
    pub fn new() -> Meeting {
        Meeting {
            ended: [AtomicU64::new(0), AtomicU64::new(0)],
            drawn: [AtomicU64::new(0), AtomicU64::new(0)],
            met: AtomicU64::new(0),
            alone: AtomicU64::new(0),
        }
    }

    /// In how many passes both workers drew a chunk, and in how many the one that drew chunk 0 waited in vain.
    pub fn counts(&self) -> (u64, u64) {
        (
            self.met.load(Ordering::SeqCst),
            self.alone.load(Ordering::SeqCst),
        )
    }

    // Waits until the other worker has drawn in that pass, and counts whether it has. A pass in which it hasn't is ended for it, too.
    fn wait(&self, other: usize, pass: u64)
        requires { other < 2 }
    {
        for _ in 0..TURNS {
            if self.drawn[other].load(Ordering::SeqCst) >= pass {
                self.met.fetch_add(1, Ordering::SeqCst);
                return;
            }
        }
        self.ended[other].store(pass, Ordering::SeqCst);
        self.alone.fetch_add(1, Ordering::SeqCst);
    }

    // A worker draws a chunk of its next pass.
    fn draw(&self, mine: usize, other: usize, chunk: u64)
        requires mine { mine < 2 }
        requires other { other < 2 }
    {
        let pass = self.ended[mine].load(Ordering::SeqCst).saturating_add(1);
        self.drawn[mine].store(pass, Ordering::SeqCst);
        if chunk == 0 {
            self.wait(other, pass);
        }
    }
}

impl Gate for Meeting {
    fn after_claim(&self, worker: u32, chunk: Option<u64>) {
        let (mine, other) = if worker == 0 { (0, 1) } else { (1, 0) };
        match chunk {
            Some(chunk) => self.draw(mine, other, chunk),
            // a worker that drew nothing was in no pass
            None => {
                let drawn = self.drawn[mine].load(Ordering::SeqCst);
                self.ended[mine].fetch_max(drawn, Ordering::SeqCst);
            }
        }
    }
}
