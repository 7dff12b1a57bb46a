// Calls of the program over memory: reads give at most ten bytes, and a write takes one.

use crate::seven::{SEVEN, SEVEN_FILE, SEVEN_LISTING};
use chunk_seats::OpenGate;
use pareas_core::{MemoryIn, MemoryOut, Status, pareas};
use std::alloc::{AllocError, Global};
use std::process::Abort;
use std::thread::Threads;

/// Room for more bytes than any of these calls writes.
pub const ROOM: usize = 1 << 16;

pub const GRAMMAR: &[u8] = b"S -> a S b\nS ->\n";

/// Calls that have a result: the words, the input, how many reads are made of it, and the result.
pub const RESULTS: &[(&[&str], &[u8], u64, &[u8])] = &[
    (&["build"], SEVEN, 4, &SEVEN_FILE),
    (&["run"], SEVEN, 4, b"exit 7\n"),
    (&["emu"], &SEVEN_FILE, 16, b"exit 7\n"),
    (&["dump"], &SEVEN_FILE, 16, SEVEN_LISTING),
    (&["asm"], SEVEN_LISTING, 23, &SEVEN_FILE),
    (
        &["table"],
        GRAMMAR,
        3,
        b"terminals 2\nnonterminals 1\nproductions 2\nentries 6\n",
    ),
    (
        &["table", "--word", "a b"],
        GRAMMAR,
        3,
        b"terminals 2\nnonterminals 1\nproductions 2\nentries 6\nparse 1 2\n",
    ),
    (
        &["batch"],
        b"\0\0\0\0",
        2,
        b"\x01\x11\0\0\0error 405 at 1:1\n",
    ),
    (
        &["drill", "--seed", "1", "--functions", "1"],
        SEVEN,
        0,
        b"source 144\ntokens 61\nimage 296\nexit 650\n",
    ),
    (
        &["explain", "405"],
        SEVEN,
        0,
        b"\
error 405: there is no function `main`
place: the end

    fn start(): int { return 0; }

The answer to this source is \"error 405 at 2:1\".

Execution starts at main, so a program has to have it: fn main(): int { .. }.
",
    ),
];

/// The words behind the program's name, and the bytes of the input.
#[derive(Clone, Copy)]
pub struct Call<'a> {
    pub words: &'a [&'a str],
    pub input: &'a [u8],
}

/// The one call of an end that fails, by its number from 1 on.
#[derive(Clone, Copy, Debug)]
pub enum Fault {
    Nowhere,
    Read(u64),
    Output(u64),
    Notes(u64),
}

impl Fault {
    // The number of the read that fails.
    fn of_reads(self) -> Option<u64> {
        match self {
            Fault::Read(number) => Some(number),
            _ => None,
        }
    }

    // The number of the write to the output that fails.
    fn of_output(self) -> Option<u64> {
        match self {
            Fault::Output(number) => Some(number),
            _ => None,
        }
    }

    // The number of the write to the notes that fails.
    fn of_notes(self) -> Option<u64> {
        match self {
            Fault::Notes(number) => Some(number),
            _ => None,
        }
    }
}

/// The status of a call, and what it has written.
#[derive(Clone, Copy)]
pub struct Answer<'a> {
    pub status: Status,
    pub out: &'a [u8],
    pub notes: &'a [u8],
}

/// The answer with a result.
pub fn done(out: &[u8]) -> Answer<'_> {
    Answer {
        status: Status::Done,
        out,
        notes: b"",
    }
}

/// The answer with a line of notes.
pub fn refused(status: Status, notes: &[u8]) -> Answer<'_> {
    Answer {
        status,
        out: b"",
        notes,
    }
}

/// The program's name and these words, each a copy.
pub fn all_words(alloc: Global, words: &[&str]) -> Result<Vec<String>, AllocError> {
    let mut all = Vec::new(alloc);
    all.push(String::from_str(alloc, "pareas")?)?;
    for word in words {
        all.push(String::from_str(alloc, word)?)?;
    }
    Ok(all)
}

// The list of the number, if there is one.
fn numbers(alloc: Global, number: Option<u64>) -> Result<Vec<u64>, AllocError> {
    let mut numbers = Vec::new(alloc);
    if let Some(number) = number {
        numbers.push(number)?;
    }
    Ok(numbers)
}

// The input, the output and the notes of a call of which one fails so.
fn ends_of(
    alloc: Global,
    input: &[u8],
    fault: Fault,
) -> Result<(MemoryIn, MemoryOut, MemoryOut), AllocError> {
    let bytes = input.to_vec(alloc)?;
    let input = MemoryIn::new(bytes, 10, numbers(alloc, fault.of_reads())?);
    let out = MemoryOut::new(alloc, ROOM, 1, numbers(alloc, fault.of_output())?)?;
    let notes = MemoryOut::new(alloc, ROOM, 1, numbers(alloc, fault.of_notes())?)?;
    Ok((input, out, notes))
}

/// Calls the program over ends of which one fails so, and sees that it answers this.
pub fn expect<R: Threads + Abort + Sync>(
    rt: &R,
    alloc: Global,
    call: Call,
    fault: Fault,
    answer: Answer,
) -> Result<(), AllocError> {
    let words = all_words(alloc, call.words)?;
    let (mut input, mut out, mut notes) = ends_of(alloc, call.input, fault)?;
    let status = pareas(
        rt, alloc, &words, &mut input, &mut out, &mut notes, &OpenGate,
    );
    assert_eq!(rt; status, answer.status, "{fault:?}");
    assert_eq!(rt; out.written(), answer.out, "{fault:?}");
    assert_eq!(rt; notes.written(), answer.notes, "{fault:?}");
    Ok(())
}
