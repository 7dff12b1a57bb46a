//! A gate that counts the chunks that are drawn.
use chunk_seats::Gate;
use std::sync::atomic::{AtomicU64, Ordering};

/// How many chunks are drawn.
#[derive(Drop)]
pub struct Draws {
    count: AtomicU64,
}

impl Draws {
    /// None is drawn yet.
    pub fn new() -> Draws {
        Draws {
            count: AtomicU64::new(0),
        }
    }

    /// How many were drawn.
    pub fn count(&self) -> u64 {
        self.count.load(Ordering::SeqCst)
    }
}

impl Gate for Draws {
    fn after_claim(&self, _worker: u32, chunk: Option<u64>) {
        if chunk.is_some() {
            self.count.fetch_add(1, Ordering::SeqCst);
        }
    }
}
