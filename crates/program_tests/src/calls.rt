// A call of the whole program over memory.

use chunk_seats::OpenGate;
use pareas_core::{MemoryIn, MemoryOut, Status, pareas};
use std::alloc::{AllocError, Global};
use std::process::Abort;
use std::thread::Threads;

pub(crate) const SEVEN: &[u8] = b"fn main(): int { return 7; }";

/// The file of `SEVEN`: header, program header and fifteen words.
pub(crate) const SEVEN_FILE: [u8; 144] = [
    0x7f, 0x45, 0x4c, 0x46, 0x01, 0x01, 0x01, 0x00, 0x00, 0x00, 0x00, 0x00, 0x00, 0x00, 0x00, 0x00, //
    0x02, 0x00, 0xf3, 0x00, 0x01, 0x00, 0x00, 0x00, 0x54, 0x00, 0x01, 0x00, 0x34, 0x00, 0x00, 0x00, //
    0x00, 0x00, 0x00, 0x00, 0x00, 0x00, 0x00, 0x00, 0x34, 0x00, 0x20, 0x00, 0x01, 0x00, 0x00, 0x00, //
    0x00, 0x00, 0x00, 0x00, 0x01, 0x00, 0x00, 0x00, 0x54, 0x00, 0x00, 0x00, 0x54, 0x00, 0x01, 0x00, //
    0x54, 0x00, 0x01, 0x00, 0x3c, 0x00, 0x00, 0x00, 0x3c, 0x00, 0x00, 0x00, 0x05, 0x00, 0x00, 0x00, //
    0x00, 0x10, 0x00, 0x00, 0xef, 0x00, 0xc0, 0x00, 0x93, 0x08, 0xd0, 0x05, 0x73, 0x00, 0x00, 0x00, //
    0x13, 0x01, 0x01, 0xff, 0x23, 0x20, 0x01, 0x00, 0x23, 0x26, 0x11, 0x00, 0x23, 0x24, 0x91, 0x00, //
    0x93, 0x04, 0x70, 0x00, 0x13, 0x85, 0x04, 0x00, 0x6f, 0x00, 0x80, 0x00, 0x13, 0x05, 0x00, 0x00, //
    0x83, 0x20, 0xc1, 0x00, 0x83, 0x24, 0x81, 0x00, 0x13, 0x01, 0x01, 0x01, 0x67, 0x80, 0x00, 0x00, //
];

/// The words behind the program's name, the options of a plan behind them, and the bytes of the input.
#[derive(Clone, Copy)]
pub(crate) struct Call<'a> {
    pub(crate) words: &'a [&'a str],
    pub(crate) plan: &'a [&'a str],
    pub(crate) source: &'a [u8],
}

/// How the ends behave: the bytes of one read or write, and the reads and writes that fail.
#[derive(Clone, Copy)]
pub(crate) struct Ends<'a> {
    pub(crate) step: usize,
    pub(crate) failing_reads: &'a [u64],
    pub(crate) failing_writes: &'a [u64],
}

/// Ends that never fail.
pub(crate) const SOUND: Ends = Ends {
    step: 4096,
    failing_reads: &[],
    failing_writes: &[],
};

/// Room for more bytes than any of these calls writes.
const ROOM: usize = 1 << 16;

/// The program's name and the words of a call, each a copy.
pub(crate) fn words_of(alloc: Global, call: Call) -> Result<Vec<String>, AllocError> {
    let mut all = Vec::new(alloc);
    all.push(String::from_str(alloc, "pareas")?)?;
    for word in call.words {
        all.push(String::from_str(alloc, word)?)?;
    }
    for word in call.plan {
        all.push(String::from_str(alloc, word)?)?;
    }
    Ok(all)
}

/// The input, the output and the notes of a call.
pub(crate) fn memory_of<R: Abort>(
    rt: &R,
    alloc: Global,
    source: &[u8],
    ends: Ends,
) -> Result<(MemoryIn, MemoryOut, MemoryOut), AllocError> {
    assert!(rt; ends.step > 0);
    let failing_reads = ends.failing_reads.to_vec(alloc)?;
    let input = MemoryIn::new(source.to_vec(alloc)?, ends.step, failing_reads);
    let failing = ends.failing_writes;
    let out = MemoryOut::new(alloc, ROOM, ends.step, failing.to_vec(alloc)?)?;
    let notes = MemoryOut::new(alloc, ROOM, ends.step, failing.to_vec(alloc)?)?;
    Ok((input, out, notes))
}

/// The status of a call, and its ends as they are left.
#[derive(Drop)]
pub(crate) struct Ended {
    pub(crate) status: Status,
    pub(crate) input: MemoryIn,
    pub(crate) out: MemoryOut,
    pub(crate) notes: MemoryOut,
}

/// Calls the program over memory.
pub(crate) fn called<R: Threads + Abort + Sync>(
    rt: &R,
    alloc: Global,
    call: Call,
    ends: Ends,
) -> Result<Ended, AllocError> {
    let words = words_of(alloc, call)?;
    let (mut input, mut out, mut notes) = memory_of(rt, alloc, call.source, ends)?;
    let status = pareas(
        rt, alloc, &words, &mut input, &mut out, &mut notes, &OpenGate,
    );
    Ok(Ended {
        status,
        input,
        out,
        notes,
    })
}

/// Calls the program over memory, and sees that it ends so and has written this.
pub(crate) fn expect<R: Threads + Abort + Sync>(
    rt: &R,
    alloc: Global,
    call: Call,
    ends: Ends,
    (status, out, notes): (Status, &[u8], &[u8]),
) -> Result<(), AllocError> {
    let ended = called(rt, alloc, call, ends)?;
    assert_eq!(rt; ended.status, status);
    assert_eq!(rt; ended.out.written(), out);
    assert_eq!(rt; ended.notes.written(), notes);
    Ok(())
}

/// The words of a call, its input, its status, the result and the notes.
pub(crate) type Row = (
    &'static [&'static str],
    &'static [u8],
    Status,
    &'static [u8],
    &'static [u8],
);

/// Sees that the calls of these rows are answered so by this plan.
pub(crate) fn expect_rows<R: Threads + Abort + Sync>(
    rt: &R,
    alloc: Global,
    plan: &'static [&'static str],
    rows: &[Row],
) -> Result<(), AllocError> {
    for &(words, source, status, out, notes) in rows {
        let call = Call {
            words,
            plan,
            source,
        };
        expect(rt, alloc, call, SOUND, (status, out, notes))?;
    }
    Ok(())
}
