// A write that fails: what was written before stays, and nothing comes behind it.

use crate::calls::{Answer, Call, Fault, GRAMMAR, RESULTS, done, expect, refused};
use pareas_core::Status;
use std::alloc::{AllocError, Global};
use std::process::Abort;
use std::test::Fail;
use std::thread::Threads;

/// Fails the write of each byte of the output in turn.
fn fail_each<R: Threads + Abort + Sync>(
    rt: &R,
    alloc: Global,
    call: Call,
    out: &[u8],
) -> Result<(), AllocError> {
    for count in 0..out.len() {
        let answer = Answer {
            status: Status::WriteFault,
            out: &out[..count],
            notes: b"",
        };
        expect(rt, alloc, call, Fault::Output(count as u64 + 1), answer)?;
    }
    Ok(())
}

/// Each write of a result fails in turn, and a result needs no notes.
#[test]
fn results_whose_write_fails(rt: HostRuntime) -> Result<(), Fail> {
    for &(words, input, _, out) in RESULTS {
        let call = Call { words, input };
        fail_each(&rt, rt.alloc(), call, out)?;
        expect(&rt, rt.alloc(), call, Fault::Notes(1), done(out))?;
    }
    Ok(())
}

/// Fails the write of each byte of the notes in turn.
fn fail_each_of_notes<R: Threads + Abort + Sync>(
    rt: &R,
    alloc: Global,
    call: Call,
    notes: &[u8],
) -> Result<(), AllocError> {
    for count in 0..notes.len() {
        let answer = refused(Status::WriteFault, &notes[..count]);
        expect(rt, alloc, call, Fault::Notes(count as u64 + 1), answer)?;
    }
    Ok(())
}

/// Calls that are refused: the words, the input, the status and the line.
const REFUSALS: &[(&[&str], &[u8], Status, &[u8])] = &[
    (&["build"], b"", Status::Refused, b"error 405 at 1:1\n"),
    (&["run"], b"", Status::Refused, b"error 405 at 1:1\n"),
    (&["emu"], b"", Status::BadImage, b"image Short\n"),
    (&["dump"], b"", Status::BadImage, b"image Short\n"),
    (&["asm"], b"", Status::BadAsm, b"asm empty\n"),
    (&["table"], b"", Status::BadGrammar, b"grammar empty\n"),
    (
        &["table"],
        b"S -> S a\nS -> b\n",
        Status::Conflict,
        b"left recursive S\n",
    ),
    (
        &["table", "--word", "a a b"],
        GRAMMAR,
        Status::Refused,
        b"syntax 3\n",
    ),
    (&["--version"], b"", Status::Usage, b"pareas 0.1.0\n"),
];

/// Each write of the notes fails in turn, and a refusal needs no output.
#[test]
fn notes_whose_write_fails(rt: HostRuntime) -> Result<(), Fail> {
    for &(words, input, status, notes) in REFUSALS {
        let call = Call { words, input };
        fail_each_of_notes(&rt, rt.alloc(), call, notes)?;
        expect(
            &rt,
            rt.alloc(),
            call,
            Fault::Output(1),
            refused(status, notes),
        )?;
    }
    Ok(())
}
