// How many bytes a read asks for, and a write hands over.

use crate::calls::{Call, ROOM, all_words};
use crate::seven::{SEVEN, SEVEN_FILE};
use chunk_seats::OpenGate;
use pareas_core::{ByteIn, ByteOut, Failed, MemoryIn, MemoryOut, pareas};
use std::alloc::{AllocError, Global};
use std::process::Abort;
use std::test::Fail;
use std::thread::Threads;

/// An input that counts its reads, and those that ask for anything but 4,096 bytes, or what is left up to one past a limit.
#[derive(Drop)]
struct WatchedIn<I: ByteIn> {
    inner: I,
    room: usize,
    reads: u64,
    odd: u64,
}

impl<I: ByteIn> ByteIn for WatchedIn<I> {
    ghost left = { λ w. I.left w.inner };

    ghost faults = { λ w. I.faults w.inner };

    fn read(&mut self, buf: &mut [u8]) -> Result<usize, Failed> {
        self.reads = self.reads.saturating_add(1);
        if buf.len() != self.room.min(4096) {
            self.odd = self.odd.saturating_add(1);
        }
        let count = self.inner.read(buf)?;
        self.room = self.room.saturating_sub(count);
        Ok(count)
    }
}

/// An output that counts its writes, and those that hand over anything but all that is left.
#[derive(Drop)]
struct WatchedOut<O: ByteOut> {
    inner: O,
    left: usize,
    writes: u64,
    odd: u64,
}

impl<O: ByteOut> ByteOut for WatchedOut<O> {
    ghost written = { λ w. O.written w.inner };

    ghost faults = { λ w. O.faults w.inner };

    fn write(&mut self, buf: &[u8]) -> Result<usize, Failed> {
        self.writes = self.writes.saturating_add(1);
        if buf.len() != self.left {
            self.odd = self.odd.saturating_add(1);
        }
        let count = self.inner.write(buf)?;
        self.left = self.left.saturating_sub(count);
        Ok(count)
    }
}

/// A command over an input of spaces.
#[derive(Clone, Copy)]
struct Spaces<'a> {
    command: &'a str,
    count: usize,
    /// The most bytes that the command takes.
    limit: usize,
    /// The most bytes that a read gives.
    step: usize,
    /// How many reads it takes.
    reads: u64,
    notes: &'a [u8],
}

/// Calls the program, and sees that it makes this many reads, each as it should be, and is answered so.
fn expect_reads<R: Threads + Abort + Sync>(
    rt: &R,
    alloc: Global,
    row: Spaces,
) -> Result<(), AllocError> {
    assert!(rt; row.step > 0);
    let words = all_words(alloc, &[row.command])?;
    let bytes = vec![in alloc; b' '; row.count]?;
    let mut input = WatchedIn {
        inner: MemoryIn::new(bytes, row.step, Vec::new(alloc)),
        room: row.limit.saturating_add(1),
        reads: 0,
        odd: 0,
    };
    let mut out = MemoryOut::new(alloc, ROOM, 4096, Vec::new(alloc))?;
    let mut notes = MemoryOut::new(alloc, ROOM, 4096, Vec::new(alloc))?;
    pareas(
        rt, alloc, &words, &mut input, &mut out, &mut notes, &OpenGate,
    );
    assert_eq!(rt;
        (input.reads, input.odd),
        (row.reads, 0),
        "{} {}",
        row.command,
        row.count
    );
    assert_eq!(rt; notes.written(), row.notes);
    Ok(())
}

const MOST_SOURCE: usize = 16_777_216;

const MOST_IMAGE: usize = 67_108_864;

const MOST_GRAMMAR: usize = 65_536;

/// Inputs below a limit, and past it.
const INPUTS: &[Spaces] = &[
    Spaces {
        command: "build",
        count: 28,
        limit: MOST_SOURCE,
        step: 10,
        reads: 4,
        notes: b"error 405 at 1:29\n",
    },
    Spaces {
        command: "build",
        count: 16_777_217,
        limit: MOST_SOURCE,
        step: 4096,
        reads: 4097,
        notes: b"limit 601 at 1:16777217\n",
    },
    Spaces {
        command: "run",
        count: 16_777_240,
        limit: MOST_SOURCE,
        step: 1000,
        reads: 16_778,
        notes: b"limit 601 at 1:16777217\n",
    },
    Spaces {
        command: "emu",
        count: 144,
        limit: MOST_IMAGE,
        step: 10,
        reads: 16,
        notes: b"image Magic\n",
    },
    Spaces {
        command: "table",
        count: 65_536,
        limit: MOST_GRAMMAR,
        step: 4096,
        reads: 17,
        notes: b"grammar empty\n",
    },
    Spaces {
        command: "table",
        count: 65_537,
        limit: MOST_GRAMMAR,
        step: 4096,
        reads: 17,
        notes: b"grammar too large\n",
    },
    Spaces {
        command: "table",
        count: 70_000,
        limit: MOST_GRAMMAR,
        step: 1000,
        reads: 66,
        notes: b"grammar too large\n",
    },
];

#[test]
fn reads_up_to_one_byte_past_the_limit(rt: HostRuntime) -> Result<(), Fail> {
    for &row in INPUTS {
        expect_reads(&rt, rt.alloc(), row)?;
    }
    Ok(())
}

/// More bytes than an image has.
const PAST_IMAGES: Spaces = Spaces {
    command: "emu",
    count: 67_108_865,
    limit: MOST_IMAGE,
    step: 4096,
    reads: 16_385,
    notes: b"image TooLarge\n",
};

#[test]
fn reads_up_to_one_byte_past_the_limit_of_images(rt: HostRuntime) -> Result<(), Fail> {
    expect_reads(&rt, rt.alloc(), PAST_IMAGES)?;
    Ok(())
}

/// An output of ten bytes a write, which is to get this many bytes.
fn watched(alloc: Global, due: usize) -> Result<WatchedOut<MemoryOut>, AllocError> {
    Ok(WatchedOut {
        inner: MemoryOut::new(alloc, due, 10, Vec::new(alloc))?,
        left: due,
        writes: 0,
        odd: 0,
    })
}

/// Calls the program, and sees that both outputs get this many bytes in this many writes, each as it should be.
fn expect_writes<R: Threads + Abort + Sync>(
    rt: &R,
    alloc: Global,
    call: Call,
    (due, writes): (usize, u64),
    (due_notes, notes_writes): (usize, u64),
) -> Result<(), AllocError> {
    let words = all_words(alloc, call.words)?;
    let mut input = MemoryIn::new(call.input.to_vec(alloc)?, 4096, Vec::new(alloc));
    let mut out = watched(alloc, due)?;
    let mut notes = watched(alloc, due_notes)?;
    pareas(
        rt, alloc, &words, &mut input, &mut out, &mut notes, &OpenGate,
    );
    assert_eq!(rt; (out.left, out.writes, out.odd), (0, writes, 0));
    assert_eq!(rt; (notes.left, notes.writes, notes.odd), (0, notes_writes, 0));
    Ok(())
}

/// The words of a call, its input, and how many bytes and writes the result has, and the notes.
const OUTPUTS: &[(&[&str], &[u8], (usize, u64), (usize, u64))] = &[
    (&["build"], SEVEN, (144, 15), (0, 0)),
    (&["run"], SEVEN, (7, 1), (0, 0)),
    (&["emu"], &SEVEN_FILE, (7, 1), (0, 0)),
    (&["table"], b"S -> a", (51, 6), (0, 0)),
    (
        &["drill", "--seed", "1", "--functions", "1"],
        b"",
        (40, 4),
        (0, 0),
    ),
    (&["build"], b"", (0, 0), (17, 2)),
    (&["--version"], b"", (0, 0), (13, 2)),
];

#[test]
fn writes_hand_over_all_that_is_left(rt: HostRuntime) -> Result<(), Fail> {
    for &(words, input, out, notes) in OUTPUTS {
        expect_writes(&rt, rt.alloc(), Call { words, input }, out, notes)?;
    }
    Ok(())
}
