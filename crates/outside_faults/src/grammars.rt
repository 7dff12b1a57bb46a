// Grammar files past a limit, and at it.

use crate::calls::{Answer, Call, Fault, expect};
use pareas_core::Status;
use std::alloc::{AllocError, Global};
use std::process::Abort;
use std::test::Fail;
use std::thread::Threads;

/// Makes the tables of the file, and sees that it is answered so.
fn expect_of<R: Threads + Abort + Sync>(
    rt: &R,
    alloc: Global,
    file: &[u8],
    answer: Answer,
) -> Result<(), AllocError> {
    let call = Call {
        words: &["table"],
        input: file,
    };
    expect(rt, alloc, call, Fault::Nowhere, answer)
}

/// The text, this many times.
fn repeated(alloc: Global, text: &[u8], count: usize) -> Result<Vec<u8>, AllocError> {
    let mut all = Vec::new(alloc);
    for _ in 0..count {
        all.extend_from_slice(text)?;
    }
    Ok(all)
}

/// A production of one nonterminal, with the terminal this many times.
fn of_one_terminal(alloc: Global, count: usize) -> Result<Vec<u8>, AllocError> {
    let mut file = b"S ->".to_vec(alloc)?;
    file.extend_from_slice(&repeated(alloc, b" a", count)?)?;
    Ok(file)
}

/// Productions of one nonterminal with this many terminals, all different, at most sixteen in each.
fn of_terminals(alloc: Global, count: usize) -> Result<Vec<u8>, AllocError> {
    let mut file = Vec::new(alloc);
    for number in 0..count {
        if number % 16 == 0 {
            file.extend_from_slice(b"\nS ->")?;
        }
        file.extend_from_slice(format!(in alloc; " t{number}")?.as_bytes())?;
    }
    Ok(file)
}

/// What a file has, this many times.
#[derive(Clone, Copy)]
enum Content {
    Spaces,
    /// The same terminal, in one production.
    Terminal,
    /// Terminals that all differ.
    Terminals,
    Productions,
}

/// The file that has this content `count` times.
fn file_of(alloc: Global, what: Content, count: usize) -> Result<Vec<u8>, AllocError> {
    match what {
        Content::Spaces => repeated(alloc, b" ", count),
        Content::Terminal => of_one_terminal(alloc, count),
        Content::Terminals => of_terminals(alloc, count),
        Content::Productions => repeated(alloc, b"S -> a\n", count),
    }
}

/// Files past a limit, and files at it: what they have, how often, the status, the result and the notes.
const FILES: &[(Content, usize, Status, &[u8], &[u8])] = &[
    (
        Content::Spaces,
        65_537,
        Status::BadGrammar,
        b"",
        b"grammar too large\n",
    ),
    (
        Content::Terminal,
        17,
        Status::BadGrammar,
        b"",
        b"grammar long 1\n",
    ),
    (
        Content::Terminals,
        256,
        Status::BadGrammar,
        b"",
        b"grammar symbols\n",
    ),
    (
        Content::Productions,
        513,
        Status::BadGrammar,
        b"",
        b"grammar productions\n",
    ),
    (
        Content::Terminal,
        16,
        Status::Done,
        b"terminals 1\nnonterminals 1\nproductions 1\nentries 3\n",
        b"",
    ),
    (
        Content::Terminals,
        255,
        Status::Done,
        b"terminals 255\nnonterminals 1\nproductions 16\nentries 271\n",
        b"",
    ),
    (
        Content::Productions,
        512,
        Status::Conflict,
        b"",
        b"conflict S on a: productions 1 2\n",
    ),
];

#[test]
fn files_past_a_limit_and_at_it(rt: HostRuntime) -> Result<(), Fail> {
    for &(what, count, status, out, notes) in FILES {
        let file = file_of(rt.alloc(), what, count)?;
        expect_of(&rt, rt.alloc(), &file, Answer { status, out, notes })?;
    }
    Ok(())
}
