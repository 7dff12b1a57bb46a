// Programs whose constants are folded.

use crate::calls::{Call, Row, SEVEN, SEVEN_FILE, SOUND, called, expect};
use crate::plans::{PLANS, expect_for_every_plan};
use elf_file::write;
use pareas_core::Status;
use std::alloc::{AllocError, Global};
use std::process::Abort;
use std::test::Fail;
use std::thread::Threads;

/// The words of a `main` that returns a constant, before those of the constant and behind them: a frame of four words, one register.
const BEFORE: &[u32] = &[
    0x00C000EF, 0x05D00893, 0x00000073, 0xFF010113, 0x00012023, 0x00112623, 0x00912423,
];

const BEHIND: &[u32] = &[
    0x00048513, 0x0080006F, 0x00000513, 0x00C12083, 0x00812483, 0x01010113, 0x00008067,
];

/// More words than any of these programs has with its constants folded.
const MOST_WORDS: usize = 64;

/// The file of a `main` that returns the constant with these words.
fn file_of<R: Abort>(rt: &R, alloc: Global, constant: &[u32]) -> Result<Vec<u8>, AllocError> {
    let mut words = BEFORE.to_vec(alloc)?;
    words.extend_from_slice(constant)?;
    words.extend_from_slice(BEHIND)?;
    assert!(rt; words.len() <= MOST_WORDS);
    write(alloc, words.as_slice())
}

/// Programs that return an expression of constants alone: the source, the words of its constant, how many bytes the file has where nothing is folded,
/// and how it runs.
const CONSTANTS: &[(&[u8], &[u32], usize, &[u8])] = &[
    (
        b"fn main(): int { return 2*3+4; }",
        &[0x00A00493],
        168,
        b"exit 10\n",
    ),
    (
        b"fn main(): int { return 1/0; }",
        &[0xFFF00493],
        160,
        b"exit -1\n",
    ),
    (
        b"fn main(): int { return -2147483647-1; }",
        &[0x800004B7, 0x00048493],
        168,
        b"exit -2147483648\n",
    ),
    (
        b"fn main(): int { return 2047+1; }",
        &[0x000014B7, 0x80048493],
        160,
        b"exit 2048\n",
    ),
    (
        b"fn main(): int { return -2048; }",
        &[0x80000493],
        152,
        b"exit -2048\n",
    ),
    // a frame of 64 bytes without folding, for eleven registers and three spills
    (
        b"fn main(): int { return 1+(2+(3+(4+(5+(6+(7+(8+(9+(10+(11+(12+(13+14)))))))))))); }",
        &[0x06900493],
        368,
        b"exit 105\n",
    ),
];

/// How many bytes the file of a source has.
fn bytes_of<R: Threads + Abort + Sync>(
    rt: &R,
    alloc: Global,
    source: &'static [u8],
) -> Result<usize, AllocError> {
    let call = Call {
        words: &["build"],
        plan: &[],
        source,
    };
    Ok(called(rt, alloc, call, SOUND)?.out.written().len())
}

/// Sees that a source has this file and runs so, with its constants folded, by each plan.
fn expect_folded<R: Threads + Abort + Sync>(
    rt: &R,
    alloc: Global,
    source: &'static [u8],
    file: &[u8],
    run: &[u8],
) -> Result<(), AllocError> {
    for &plan in PLANS {
        for (words, out) in [(&["build", "--fold"], file), (&["run", "--fold"], run)] {
            let call = Call {
                words,
                plan,
                source,
            };
            expect(rt, alloc, call, SOUND, (Status::Done, out, b""))?;
        }
    }
    Ok(())
}

#[test]
fn constants_are_folded_for_every_plan(rt: HostRuntime) -> Result<(), Fail> {
    for &(source, constant, _, run) in CONSTANTS {
        let file = file_of(&rt, rt.alloc(), constant)?;
        expect_folded(&rt, rt.alloc(), source, &file, run)?;
    }
    Ok(())
}

#[test]
fn nothing_is_folded_without_the_flag(rt: HostRuntime) -> Result<(), Fail> {
    for &(source, _, wanted, _) in CONSTANTS {
        let found = bytes_of(&rt, rt.alloc(), source)?;
        assert_eq!(rt; found, wanted);
    }
    Ok(())
}

/// Programs with nothing to fold, with constants beside what isn't one, and sources that are refused with the flag as without.
const ROWS: &[Row] = &[
    (&["build", "--fold"], SEVEN, Status::Done, &SEVEN_FILE, b""),
    (
        &["run", "--fold"],
        b"fn f(): bool { print 1; return true; } fn main(): int { if 1 < 2 && f[] { print 2; } if 1 < 2 || f[] { print 3; } return 4; }",
        Status::Done,
        b"1\n2\n3\nexit 4\n",
        b"",
    ),
    (
        &["run", "--fold"],
        b"fn main(): int { var x: int = 6*7; while 2 > 3 { x = 0; } return x - (x = 2-1) + 0; }",
        Status::Done,
        b"exit 41\n",
        b"",
    ),
    (
        &["build"],
        b"fn main(): int { return 1+true; }",
        Status::Refused,
        b"",
        b"error 501 at 1:26\n",
    ),
    (
        &["build", "--fold"],
        b"fn main(): int { return 1+true; }",
        Status::Refused,
        b"",
        b"error 501 at 1:26\n",
    ),
    (
        &["run", "--fold"],
        b"fn main(): int { return 1+x; }",
        Status::Refused,
        b"",
        b"error 403 at 1:27\n",
    ),
];

#[test]
fn folds_and_refuses_for_every_plan(rt: HostRuntime) -> Result<(), Fail> {
    expect_for_every_plan(&rt, rt.alloc(), ROWS)?;
    Ok(())
}
