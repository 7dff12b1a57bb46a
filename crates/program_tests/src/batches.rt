// Many sources at once.

use crate::calls::{Call, Row, SEVEN, SEVEN_FILE, SOUND, expect, memory_of, words_of};
use crate::plans::{PLANS, expect_for_every_plan};
use pareas_core::{Status, pareas};
use std::alloc::{AllocError, Global};
use std::process::Abort;
use std::test::Fail;
use std::thread::Threads;
use test_gates::Meeting;

/// The records of `SEVEN` and of an empty source.
fn two_records(alloc: Global) -> Result<Vec<u8>, AllocError> {
    let mut input = Vec::new(alloc);
    input.extend_from_slice(b"\x1C\0\0\0")?;
    input.extend_from_slice(SEVEN)?;
    input.extend_from_slice(b"\0\0\0\0")?;
    Ok(input)
}

/// The answers to them: an image of 144 bytes, and a line of 17.
fn two_answers(alloc: Global) -> Result<Vec<u8>, AllocError> {
    let mut out = Vec::new(alloc);
    out.extend_from_slice(b"\0\x90\0\0\0")?;
    out.extend_from_slice(&SEVEN_FILE)?;
    out.extend_from_slice(b"\x01\x11\0\0\0error 405 at 1:1\n")?;
    Ok(out)
}

#[test]
fn answers_two_sources_for_every_plan(rt: HostRuntime) -> Result<(), Fail> {
    let input = two_records(rt.alloc())?;
    let out = two_answers(rt.alloc())?;
    assert_eq!(rt; out.len(), 171);
    for &plan in PLANS {
        let call = Call {
            words: &["batch"],
            plan,
            source: &input,
        };
        expect(&rt, rt.alloc(), call, SOUND, (Status::Done, &out, b""))?;
    }
    Ok(())
}

/// No source, a source that is no program, and bytes that are no batch.
const BATCHES: &[Row] = &[
    (&["batch"], b"", Status::Done, b"", b""),
    (
        &["batch"],
        b"\x01\0\0\0$",
        Status::Done,
        b"\x01\x11\0\0\0error 101 at 1:1\n",
        b"",
    ),
    (
        &["batch"],
        b"\x01\x02\x03",
        Status::BadBatch,
        b"",
        b"batch record 0\n",
    ),
    (
        &["batch"],
        b"\0\0\0\0\0\0\0\0\x02\0\0\0a",
        Status::BadBatch,
        b"",
        b"batch record 2\n",
    ),
];

#[test]
fn answers_the_same_for_every_plan(rt: HostRuntime) -> Result<(), Fail> {
    expect_for_every_plan(&rt, rt.alloc(), BATCHES)?;
    Ok(())
}

/// In how many passes two workers of a batch of two records met, and in how many one drew alone.
fn passes_of_batch<R: Threads + Abort + Sync>(rt: &R, alloc: Global) -> Result<(u64, u64), Fail> {
    let source = two_records(alloc)?;
    let call = Call {
        words: &["batch"],
        plan: &["--workers", "2", "--chunk", "1"],
        source: &source,
    };
    let words = words_of(alloc, call)?;
    let (mut input, mut out, mut notes) = memory_of(rt, alloc, call.source, SOUND)?;
    let gate = Meeting::new();
    let status = pareas(rt, alloc, &words, &mut input, &mut out, &mut notes, &gate);
    assert_eq!(rt; status, Status::Done);
    assert_eq!(rt; out.written().len(), 171);
    Ok(gate.counts())
}

/// Each worker has a record, and a record is compiled by one worker with an open gate.
#[test]
fn two_workers_have_a_record_each(rt: HostRuntime) -> Result<(), Fail> {
    assert_eq!(rt; passes_of_batch(&rt, rt.alloc())?, (1, 0));
    Ok(())
}
