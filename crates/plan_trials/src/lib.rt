//! Calls of `pareas` over memory, and whether its answer is one under every plan: for the programs that run sources for the gate.
#![tactic(auto)]

use chunk_seats::OpenGate;
use pareas_core::{MemoryIn, MemoryOut, Status, pareas};
use std::alloc::{AllocError, Global};
use std::thread::Threads;

/// Bytes that a read or a write moves at a time.
const STEP: usize = 1 << 20;

/// Room for the image of any source, and more than the lines of any run here need.
const ROOM: usize = 1 << 25;

/// The numbers of workers, each of which makes a plan with each size of chunks.
const WORKERS: [&str; 3] = ["1", "4", "64"];

const CHUNKS: [&str; 3] = ["1", "7", "65536"];

/// What a call of the program has written, and its status.
#[derive(Drop)]
pub struct Written {
    status: Status,
    out: MemoryOut,
    notes: MemoryOut,
}

impl Written {
    /// What was written to the output.
    pub fn out(&self) -> &[u8] {
        self.out.written()
    }

    /// What was written to the notes.
    pub fn notes(&self) -> &[u8] {
        self.notes.written()
    }

    /// Whether a program ran to its end, or a source was refused: no limit, of steps, of the stack or of the code, broke off what it asked for.
    pub fn is_settled(&self) -> bool {
        matches!(self.status, Status::Done | Status::Refused)
    }

    /// Whether the same bytes were written.
    pub fn is_same(&self, other: &Written) -> bool {
        self.out() == other.out() && self.notes() == other.notes()
    }
}

/// What the program writes for these words, its name first, and this input.
pub fn call<R: Threads + Sync>(
    rt: &R,
    alloc: Global,
    words: &[&str],
    source: &[u8],
) -> Result<Written, AllocError> {
    let mut all = Vec::with_capacity(alloc, words.len())?;
    for word in words {
        all.push(String::from_str(alloc, word)?)?;
    }
    let mut input = MemoryIn::new(source.to_vec(alloc)?, STEP, Vec::new(alloc));
    let mut out = MemoryOut::new(alloc, ROOM, STEP, Vec::new(alloc))?;
    let mut notes = MemoryOut::new(alloc, ROOM, STEP, Vec::new(alloc))?;
    let status = pareas(rt, alloc, &all, &mut input, &mut out, &mut notes, &OpenGate);
    Ok(Written { status, out, notes })
}

/// Whether a build of the source comes to one answer under all plans, and where the words name none.
pub fn is_one_answer<R: Threads + Sync>(
    rt: &R,
    alloc: Global,
    source: &[u8],
) -> Result<bool, AllocError> {
    let by_default = call(rt, alloc, &["pareas", "build"], source)?;
    for workers in WORKERS {
        for chunk in CHUNKS {
            let words = ["pareas", "build", "--workers", workers, "--chunk", chunk];
            if !call(rt, alloc, &words, source)?.is_same(&by_default) {
                return Ok(false);
            }
        }
    }
    Ok(true)
}
