// Calls whose results are the same for every plan.

use crate::calls::{Call, Row, SEVEN, SEVEN_FILE, SOUND, expect, expect_rows};
use elf_file::write;
use pareas_core::Status;
use std::alloc::{AllocError, Global};
use std::process::Abort;
use std::test::Fail;
use std::thread::Threads;

/// Options of plans: each number of workers with each number of items that a worker draws at a time.
pub(crate) const PLANS: &[&[&str]] = &[
    &["--workers", "1", "--chunk", "1"],
    &["--workers", "1", "--chunk", "7"],
    &["--workers", "1", "--chunk", "65536"],
    &["--workers", "4", "--chunk", "1"],
    &["--workers", "4", "--chunk", "7"],
    &["--workers", "4", "--chunk", "65536"],
    &["--workers", "64", "--chunk", "1"],
    &["--workers", "64", "--chunk", "7"],
    &["--workers", "64", "--chunk", "65536"],
];

/// Sees that the calls of these rows are answered so by each plan.
pub(crate) fn expect_for_every_plan<R: Threads + Abort + Sync>(
    rt: &R,
    alloc: Global,
    rows: &[Row],
) -> Result<(), AllocError> {
    for &plan in PLANS {
        expect_rows(rt, alloc, plan, rows)?;
    }
    Ok(())
}

const BUILDS: &[Row] = &[(&["build"], SEVEN, Status::Done, &SEVEN_FILE, b"")];

#[test]
fn builds_the_same_for_every_plan(rt: HostRuntime) -> Result<(), Fail> {
    expect_for_every_plan(&rt, rt.alloc(), BUILDS)?;
    Ok(())
}

/// A loop, a call and a choice.
const COUNTING: &[u8] =
    b"fn f(var a: int): int { while a < 2 { a = a + 1; } return a; } fn main(): int { if f[1] == 2 { return 1; } else { return 0; } }";

/// The words of `COUNTING`: three of the stub, 25 of `f` and 27 of `main`.
const COUNTING_WORDS: &[u32] = &[
    0x070000EF, 0x05D00893, 0x00000073, 0xFF010113, 0x00012023, 0x00112623, 0x00912423, 0x01212223,
    0x00A12023, 0x00012483, 0x00200913, 0x0124A4B3, 0x00049463, 0x0180006F, 0x00012483, 0x00100913,
    0x012484B3, 0x00912023, 0xFDDFF06F, 0x00012483, 0x00048513, 0x0080006F, 0x00000513, 0x00C12083,
    0x00812483, 0x00412903, 0x01010113, 0x00008067, 0xFF010113, 0x00012023, 0x00112623, 0x00912423,
    0x01212223, 0x00100493, 0x00048513, 0xF81FF0EF, 0x00050493, 0x00200913, 0x412484B3, 0x0014B493,
    0x00049463, 0x0140006F, 0x00100493, 0x00048513, 0x0180006F, 0x0100006F, 0x00000493, 0x00048513,
    0x0080006F, 0x00000513, 0x00C12083, 0x00812483, 0x00412903, 0x01010113, 0x00008067,
];

/// `fn main(): int { print 5; print -6; return 7; }`, and a chain whose second if is taken.
pub(crate) const PRINTING: &[u8] = b"fn main(): int { print 5; print -6; return 7; }";

pub(crate) const CHOOSING: &[u8] =
    b"fn main(): int { var x: int = 2; if x == 1 { return 1; } else if x == 2 { return 5; } else { return 9; } }";

/// The words of `PRINTING`: three of the stub and 21 of `main`, four for the first print and five for the second.
const PRINTING_WORDS: &[u32] = &[
    0x00C000EF, 0x05D00893, 0x00000073, 0xFF010113, 0x00012023, 0x00112623, 0x00912423, 0x00500493,
    0x00048513, 0x7FF00893, 0x00000073, 0x00600493, 0x409004B3, 0x00048513, 0x7FF00893, 0x00000073,
    0x00700493, 0x00048513, 0x0080006F, 0x00000513, 0x00C12083, 0x00812483, 0x01010113, 0x00008067,
];

/// The words of `CHOOSING`: three of the stub, seven up to the chain, twice ten for an if with its block and the jump behind it, three for the
/// last block, and six at the end.
const CHOOSING_WORDS: &[u32] = &[
    0x00C000EF, 0x05D00893, 0x00000073, 0xFF010113, 0x00012023, 0x00112623, 0x00912423, 0x01212223,
    0x00200493, 0x00912023, 0x00012483, 0x00100913, 0x412484B3, 0x0014B493, 0x00049463, 0x0140006F,
    0x00100493, 0x00048513, 0x0400006F, 0x0380006F, 0x00012483, 0x00200913, 0x412484B3, 0x0014B493,
    0x00049463, 0x0140006F, 0x00500493, 0x00048513, 0x0180006F, 0x0100006F, 0x00900493, 0x00048513,
    0x0080006F, 0x00000513, 0x00C12083, 0x00812483, 0x00412903, 0x01010113, 0x00008067,
];

/// Programs and their words.
const WORDS: &[(&[u8], &[u32])] = &[
    (COUNTING, COUNTING_WORDS),
    (PRINTING, PRINTING_WORDS),
    (CHOOSING, CHOOSING_WORDS),
];

/// Sees that a program has these words by each plan.
fn expect_words<R: Threads + Abort + Sync>(
    rt: &R,
    alloc: Global,
    source: &'static [u8],
    words: &[u32],
) -> Result<(), AllocError> {
    assert!(rt; words.len() < 100);
    let file = write(alloc, words)?;
    for &plan in PLANS {
        let call = Call {
            words: &["build"],
            plan,
            source,
        };
        expect(rt, alloc, call, SOUND, (Status::Done, &file, b""))?;
    }
    Ok(())
}

#[test]
fn builds_the_words_for_every_plan(rt: HostRuntime) -> Result<(), Fail> {
    for &(source, words) in WORDS {
        expect_words(&rt, rt.alloc(), source, words)?;
    }
    Ok(())
}

/// Programs of one expression or some statements.
const PROGRAMS: &[Row] = &[
    (
        &["run"],
        b"fn main(): int { return 8-3-2; }",
        Status::Done,
        b"exit 3\n",
        b"",
    ),
    (
        &["run"],
        b"fn main(): int { return (-2147483647-1)/-1; }",
        Status::Done,
        b"exit -2147483648\n",
        b"",
    ),
    (
        &["run"],
        b"fn main(): int { return 1/0; }",
        Status::Done,
        b"exit -1\n",
        b"",
    ),
    (
        &["run"],
        b"fn main(): int { return 5%0; }",
        Status::Done,
        b"exit 5\n",
        b"",
    ),
    (
        &["run"],
        b"fn main(): int { return 1<<33; }",
        Status::Done,
        b"exit 2\n",
        b"",
    ),
    (
        &["run"],
        b"fn main(): int { var x: int = 1; return x + (x = 3); }",
        Status::Done,
        b"exit 4\n",
        b"",
    ),
    (
        &["run"],
        b"fn le(): bool { return 1<=2 == true; } fn main(): int { if le[] { return 1; } return 0; }",
        Status::Done,
        b"exit 1\n",
        b"",
    ),
    (
        &["run"],
        b"fn f(var a: int): int { return a; } fn main(): int { return 1+(2+(3+(4+(5+(6+(7+(8+(9+(10+(11+(12+(13+f[14])))))))))))); }",
        Status::Done,
        b"exit 105\n",
        b"",
    ),
];

/// 64 statements, of which the first and the last have an operand of a wrong type.
const FIRST_AND_LAST: &[u8] =
    b"fn main(): int { 1 + true; 0;0;0;0;0;0;0;0;0;0;0;0;0;0;0;0;0;0;0;0;0;0;0;0;0;0;0;0;0;0;0;0;0;0;0;0;0;0;0;0;0;0;0;0;0;0;0;0;0;0;0;0;0;0;0;0;0;0;0;0;0;0; 1 + true; }";

/// Sources with diagnostics.
const REFUSED: &[Row] = &[
    (
        &["build"],
        FIRST_AND_LAST,
        Status::Refused,
        b"",
        b"error 501 at 1:20\n",
    ),
    (
        &["build"],
        b"fn f(): int { return 7; }",
        Status::Refused,
        b"",
        b"error 405 at 1:26\n",
    ),
    (
        &["build"],
        b"fn main(): int { return 7",
        Status::Refused,
        b"",
        b"error 201 at 1:26\n",
    ),
];

#[test]
fn refuses_the_same_for_every_plan(rt: HostRuntime) -> Result<(), Fail> {
    expect_for_every_plan(&rt, rt.alloc(), REFUSED)?;
    Ok(())
}

#[test]
fn runs_programs_of_the_whole_language(rt: HostRuntime) -> Result<(), Fail> {
    expect_rows(&rt, rt.alloc(), &[], PROGRAMS)?;
    Ok(())
}

#[test]
fn runs_the_same_for_every_plan(rt: HostRuntime) -> Result<(), Fail> {
    expect_for_every_plan(&rt, rt.alloc(), PROGRAMS)?;
    Ok(())
}

const DRILLS: &[Row] = &[
    (
        &["drill", "--seed", "1", "--functions", "1"],
        b"",
        Status::Done,
        b"source 144\ntokens 61\nimage 296\nexit 650\n",
        b"",
    ),
    (
        &["drill", "--seed", "1", "--functions", "2"],
        b"",
        Status::Done,
        b"source 261\ntokens 111\nimage 448\nexit 30379224\n",
        b"",
    ),
];

#[test]
fn drills_the_same_for_every_plan(rt: HostRuntime) -> Result<(), Fail> {
    expect_for_every_plan(&rt, rt.alloc(), DRILLS)?;
    Ok(())
}
