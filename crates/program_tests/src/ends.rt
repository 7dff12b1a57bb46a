// Reads and writes that are cut, that fail, or that a call leaves out.

use crate::calls::{Call, Ends, SEVEN, SEVEN_FILE, SOUND, called, expect};
use pareas_core::{ByteIn, MemoryIn, Status};
use std::alloc::{AllocError, Global};
use std::process::Abort;
use std::test::Fail;
use std::thread::Threads;

/// The bytes of one read or write.
const CUTS: &[usize] = &[1, 7, 4096];

#[test]
fn builds_however_bytes_are_cut(rt: HostRuntime) -> Result<(), Fail> {
    let call = Call {
        words: &["build"],
        plan: &[],
        source: SEVEN,
    };
    for &step in CUTS {
        let ends = Ends {
            step,
            failing_reads: &[],
            failing_writes: &[],
        };
        expect(
            &rt,
            rt.alloc(),
            call,
            ends,
            (Status::Done, &SEVEN_FILE, b""),
        )?;
    }
    Ok(())
}

const FIRST_READ_FAILS: Ends = Ends {
    step: 4096,
    failing_reads: &[1],
    failing_writes: &[],
};

const FIRST_WRITE_FAILS: Ends = Ends {
    step: 4096,
    failing_reads: &[],
    failing_writes: &[1],
};

const SECOND_WRITE_FAILS: Ends = Ends {
    step: 100,
    failing_reads: &[],
    failing_writes: &[2],
};

/// What is said of a program without `main`.
const NO_MAIN: &[u8] = b"\
error 405: there is no function `main`
place: the end

    fn start(): int { return 0; }

The answer to this source is \"error 405 at 2:1\".

Execution starts at main, so a program has to have it: fn main(): int { .. }.
";

/// Calls of which a read or a write fails: the words, the input, the ends, the status and the result. A drill and an explanation read nothing.
const ENDS_THAT_FAIL: &[(&[&str], &[u8], Ends, Status, &[u8])] = &[
    (&["build"], SEVEN, FIRST_READ_FAILS, Status::ReadFault, b""),
    (&["build"], b"", FIRST_WRITE_FAILS, Status::WriteFault, b""),
    (
        &["drill", "--seed", "1", "--functions", "1"],
        SEVEN,
        FIRST_READ_FAILS,
        Status::Done,
        b"source 144\ntokens 61\nimage 296\nexit 650\n",
    ),
    (
        &["explain", "405"],
        SEVEN,
        FIRST_READ_FAILS,
        Status::Done,
        NO_MAIN,
    ),
];

#[test]
fn faults_of_the_ends(rt: HostRuntime) -> Result<(), Fail> {
    for &(words, source, ends, status, out) in ENDS_THAT_FAIL {
        let call = Call {
            words,
            plan: &[],
            source,
        };
        expect(&rt, rt.alloc(), call, ends, (status, out, b""))?;
    }
    Ok(())
}

#[test]
fn keeps_what_was_written_before_a_fault(rt: HostRuntime) -> Result<(), Fail> {
    let call = Call {
        words: &["build"],
        plan: &[],
        source: SEVEN,
    };
    let fault: (Status, &[u8], &[u8]) = (Status::WriteFault, &SEVEN_FILE[..100], b"");
    expect(&rt, rt.alloc(), call, SECOND_WRITE_FAILS, fault)?;
    Ok(())
}

/// Sees that all these bytes are left on the input.
fn expect_unread<R: Abort>(rt: &R, input: &mut MemoryIn, bytes: &[u8]) {
    let mut buffer = [0; 64];
    let count = input.read(&mut buffer).unwrap_or(0);
    assert_eq!(rt; &buffer[..count.min(64)], bytes);
}

/// Calls that read nothing: the words, the status, the result, and how the notes begin. Words are refused so, and a drill and an explanation have no input.
const WITHOUT_INPUT: &[(&[&str], Status, &[u8], &[u8])] = &[
    (
        &[],
        Status::Usage,
        b"",
        b"error: 'pareas' requires a subcommand",
    ),
    (
        &["drill", "--seed", "1", "--functions", "0"],
        Status::Usage,
        b"",
        b"error: invalid value '0'",
    ),
    (
        &["drill", "--functions", "1"],
        Status::Usage,
        b"",
        b"error: ",
    ),
    (
        &["bild"],
        Status::Usage,
        b"",
        b"error: unrecognized subcommand 'bild'",
    ),
    (
        &["build", "--workers", "65"],
        Status::Usage,
        b"",
        b"error: invalid value '65'",
    ),
    (
        &["build", "--chunk", "0"],
        Status::Usage,
        b"",
        b"error: invalid value '0'",
    ),
    (
        &["run", "--steps"],
        Status::Usage,
        b"",
        b"error: a value is required",
    ),
    (&["--help"], Status::Usage, b"", b"A parallel compiler"),
    (
        &["help", "drill"],
        Status::Usage,
        b"",
        b"Compiles and runs a program made from a seed, as in `pareas drill --seed 1 --functions 2`",
    ),
    (&["--version"], Status::Usage, b"", b"pareas 0.1.0\n"),
    (
        &["drill", "--seed", "1", "--functions", "1"],
        Status::Done,
        b"source 144\ntokens 61\nimage 296\nexit 650\n",
        b"",
    ),
    (&["explain", "405"], Status::Done, NO_MAIN, b""),
    (
        &["explain", "304"],
        Status::Usage,
        b"",
        b"error: no diagnostic has the code 304\n",
    ),
];

/// Sees that a call ends so, has written this and begun its notes so, and leaves its input.
fn expect_without_input<R: Threads + Abort + Sync>(
    rt: &R,
    alloc: Global,
    words: &[&str],
    (status, out, beginning): (Status, &[u8], &[u8]),
) -> Result<(), AllocError> {
    let call = Call {
        words,
        plan: &[],
        source: SEVEN,
    };
    let mut ended = called(rt, alloc, call, SOUND)?;
    assert_eq!(rt; ended.status, status);
    assert_eq!(rt; ended.out.written(), out);
    assert!(rt; ended.notes.written().starts_with(beginning));
    expect_unread(rt, &mut ended.input, SEVEN);
    Ok(())
}

#[test]
fn leaves_the_input(rt: HostRuntime) -> Result<(), Fail> {
    for &(words, status, out, beginning) in WITHOUT_INPUT {
        expect_without_input(&rt, rt.alloc(), words, (status, out, beginning))?;
    }
    Ok(())
}
