//! A gate that takes down which workers found no chunk left, and which chunks were drawn.
use chunk_seats::Gate;
use std::sync::atomic::{AtomicU64, Ordering};

/// Eight bits for each of the first eight workers, which count how often it found no chunk left, and a bit for each of the first 64 chunks that was drawn.
#[derive(Drop)]
pub struct Roll {
    ended: AtomicU64,
    drawn: AtomicU64,
}

impl Roll {
    /// Nobody was at work.
    pub fn new() -> Roll {
        Roll {
            ended: AtomicU64::new(0),
            drawn: AtomicU64::new(0),
        }
    }

    /// The bits of the workers, and those of the chunks.
    pub fn told(&self) -> (u64, u64) {
        (
            self.ended.load(Ordering::SeqCst),
            self.drawn.load(Ordering::SeqCst),
        )
    }
}

impl Gate for Roll {
    fn after_claim(&self, worker: u32, chunk: Option<u64>) {
        let bits = match worker {
            0..8 => 1 << (8 * worker),
            _ => 2,
        };
        match chunk {
            Some(c @ 0..64) => self.drawn.fetch_or(1 << c, Ordering::SeqCst),
            Some(_) => 0,
            None => self.ended.fetch_add(bits, Ordering::SeqCst),
        };
    }
}
