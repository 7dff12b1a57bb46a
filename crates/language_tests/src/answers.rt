// What is told of the grammar that a file spells, and a grammar whose pieces no memory holds.

use chunk_seats::{OpenGate, Plan};
use par_passes::Workers;
use std::alloc::{AllocError, Global};
use std::test::Fail;
use std::thread::Threads;
use table_text::{TableAnswer, table_answer};

/// The look-backs that a grammar can ask for.
pub const LOOKBACKS: &[u32] = &[1, 2];

/// How often the piece before `a` is doubled.
const LEVELS: u32 = 60;

/// A sentence `b` of one production, and a sentence `a` of more than 2^60.
pub fn long_beside_short(alloc: Global, lookback: u32) -> Result<String, AllocError> {
    let mut text = format!(in alloc; "lookback {lookback}\nS -> b\nS -> A0 a\n")?;
    for i in 0..LEVELS {
        let next = i + 1;
        text.push_str(format!(in alloc; "A{i} -> A{next} A{next}\n")?.as_str())?;
    }
    text.push_str(format!(in alloc; "A{LEVELS} ->\n")?.as_str())?;
    Ok(text)
}

/// What is asked of a grammar.
#[derive(Clone, Copy)]
pub enum Question<'a> {
    /// The entries of its tables.
    Entries,
    /// The left parse of a word.
    Word(&'a [u8]),
}

/// What is told of the grammar, or that memory ran out, by this many workers who draw chunks of one pair.
pub fn told<R: Threads + Sync>(
    rt: &R,
    alloc: Global,
    workers: u32,
    file: &[u8],
    question: Question<'_>,
) -> Result<Result<TableAnswer, AllocError>, Fail> {
    let crew = Workers {
        runtime: rt,
        alloc,
        plan: Plan::new(workers, 1).ok_or("in range")?,
        gate: &OpenGate,
    };
    let (word, entries) = match question {
        Question::Entries => (None, true),
        Question::Word(word) => (Some(word), false),
    };
    Ok(table_answer(&crew, file, word, entries))
}

/// Whether this text was told.
pub fn is_text(told: TableAnswer, due: &[u8]) -> bool {
    match told {
        TableAnswer::Tabled(text) => text.into_bytes().as_slice() == due,
        _ => false,
    }
}
