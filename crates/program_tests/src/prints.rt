// Prints, and chains of else-ifs.

use crate::calls::{Call, Row, SOUND, expect, expect_rows};
use crate::plans::{CHOOSING, PRINTING, expect_for_every_plan};
use elf_file::write;
use pareas_core::Status;
use std::alloc::{AllocError, Global};
use std::process::Abort;
use std::test::Fail;
use std::thread::Threads;

/// What is printed before a program exits, and before the steps are used up, and sources that are refused.
const FOR_EVERY_PLAN: &[Row] = &[
    (&["run"], PRINTING, Status::Done, b"5\n-6\nexit 7\n", b""),
    (
        &["run", "--steps", "9"],
        PRINTING,
        Status::Running,
        b"5\nrunning\n",
        b"",
    ),
    (
        &["run", "--steps", "8"],
        PRINTING,
        Status::Running,
        b"running\n",
        b"",
    ),
    (&["run"], CHOOSING, Status::Done, b"exit 5\n", b""),
    (
        &["build"],
        b"fn main(): int { if true { } else { } else if true { } }",
        Status::Refused,
        b"",
        b"error 301 at 1:39\n",
    ),
    (
        &["build"],
        b"fn main(): int { print true; return 0; }",
        Status::Refused,
        b"",
        b"error 507 at 1:18\n",
    ),
    (
        &["build"],
        b"fn print(): int { return 0; } fn main(): int { return print[]; }",
        Status::Refused,
        b"",
        b"error 201 at 1:4\n",
    ),
];

#[test]
fn prints_and_chains_for_every_plan(rt: HostRuntime) -> Result<(), Fail> {
    expect_for_every_plan(&rt, rt.alloc(), FOR_EVERY_PLAN)?;
    Ok(())
}

/// The first step of `main` that prints is the eleventh, and each further turn takes seven.
const PRINTING_FOREVER: &[u8] = b"fn main(): int { while true { print 7; } }";

/// Behind the print, 65,535 calls of `f` fit the stack, of five steps each; the next one's second step faults.
const PRINTING_AND_DEEP: &[u8] =
    b"fn f(): int { return f[]; } fn main(): int { print 5; return f[]; }";

/// What is printed within a bound of steps.
const STEPS: &[Row] = &[
    (
        &["run", "--steps", "23"],
        PRINTING,
        Status::Done,
        b"5\n-6\nexit 7\n",
        b"",
    ),
    (
        &["run", "--steps", "22"],
        PRINTING,
        Status::Running,
        b"5\n-6\nrunning\n",
        b"",
    ),
    (
        &["run", "--steps", "14"],
        PRINTING,
        Status::Running,
        b"5\n-6\nrunning\n",
        b"",
    ),
    (
        &["run", "--steps", "13"],
        PRINTING,
        Status::Running,
        b"5\nrunning\n",
        b"",
    ),
    (
        &["run", "--steps", "0"],
        PRINTING,
        Status::Running,
        b"running\n",
        b"",
    ),
    (
        &["run", "--steps", "10"],
        PRINTING_FOREVER,
        Status::Running,
        b"running\n",
        b"",
    ),
    (
        &["run", "--steps", "11"],
        PRINTING_FOREVER,
        Status::Running,
        b"7\nrunning\n",
        b"",
    ),
    (
        &["run", "--steps", "17"],
        PRINTING_FOREVER,
        Status::Running,
        b"7\nrunning\n",
        b"",
    ),
    (
        &["run", "--steps", "18"],
        PRINTING_FOREVER,
        Status::Running,
        b"7\n7\nrunning\n",
        b"",
    ),
    (
        &["run", "--steps", "327686"],
        PRINTING_AND_DEEP,
        Status::Running,
        b"5\nrunning\n",
        b"",
    ),
    (
        &["run", "--steps", "327687"],
        PRINTING_AND_DEEP,
        Status::Machine,
        b"5\nfault store at 0x00010064\n",
        b"",
    ),
];

#[test]
fn prints_for_so_many_steps(rt: HostRuntime) -> Result<(), Fail> {
    expect_rows(&rt, rt.alloc(), &[], STEPS)?;
    Ok(())
}

/// Numbers at the edges, the order in which calls print, and what is chosen by chains.
const RUNS: &[Row] = &[
    (
        &["run"],
        b"fn main(): int { print -2147483647 - 1; print 0; print -0; print 2147483647; print 2147483647 + 1; }",
        Status::Done,
        b"-2147483648\n0\n0\n2147483647\n-2147483648\nexit 0\n",
        b"",
    ),
    (
        &["run"],
        b"fn f(var n: int): int { print n; return n * 10; } fn g(var a: int, var b: int): int { print a - b; return a + b; } fn main(): int { print g[f[1], f[f[2] + 1]]; return f[3]; }",
        Status::Done,
        b"1\n2\n21\n-200\n220\n3\nexit 30\n",
        b"",
    ),
    (
        &["run"],
        b"fn t(var n: int): bool { print n; return n < 3; } fn main(): int { if t[1] && t[5] || t[2] { print 9; } if t[7] && t[1] { print 8; } }",
        Status::Done,
        b"1\n5\n2\n9\n7\nexit 0\n",
        b"",
    ),
    (
        &["run"],
        b"fn f(): int { print 5; } fn main(): int { var x: int = 1; print x = 3; print x; return f[] + x; }",
        Status::Done,
        b"3\n3\n5\nexit 3\n",
        b"",
    ),
    (
        &["run"],
        b"fn t(var n: int): bool { print n; return n == 2; } \
            fn main(): int { \
            if t[1] { print 10; } else if t[2] { print 20; } else if t[2] { print 30; } else { print 40; } \
            if t[3] { print 50; } else if t[4] { print 60; } else { print 70; } \
            if t[5] { } else if t[6] { print 80; } return 1; }",
        Status::Done,
        b"1\n2\n20\n3\n4\n70\n5\n6\nexit 1\n",
        b"",
    ),
    (
        &["run"],
        b"fn f(var x: int): int { \
            if x == 1 { var a: int = 10; print a; } \
            else if x == 2 { var a: int = 20; var b: int = 21; print a + b; } \
            else { if x == 3 { var a: int = 30; print a; } else if x == 4 { print x; } } \
            var a: int = x; return a; } \
            fn main(): int { return f[1] * 1000 + f[2] * 100 + f[3] * 10 + f[4]; }",
        Status::Done,
        b"10\n41\n30\n4\nexit 1234\n",
        b"",
    ),
];

#[test]
fn prints_in_order(rt: HostRuntime) -> Result<(), Fail> {
    expect_rows(&rt, rt.alloc(), &[], RUNS)?;
    Ok(())
}

/// An else behind a chain that has ended or stands elsewhere, values that are no int, and a name that is a keyword now.
const REFUSALS: &[Row] = &[
    (
        &["build"],
        b"fn main(): int { if true { } else if false { } else { } else { } }",
        Status::Refused,
        b"",
        b"error 301 at 1:57\n",
    ),
    (
        &["build"],
        b"fn main(): int { if true { } else if true { } 1; else { } }",
        Status::Refused,
        b"",
        b"error 301 at 1:50\n",
    ),
    (
        &["build"],
        b"fn main(): int { if true { } { else { } } }",
        Status::Refused,
        b"",
        b"error 301 at 1:32\n",
    ),
    (
        &["build"],
        b"fn main(): int { else if true { } else { } }",
        Status::Refused,
        b"",
        b"error 301 at 1:18\n",
    ),
    (
        &["run"],
        b"fn f(): bool { print 1; } fn main(): int { print 5; print f[]; return 0; }",
        Status::Refused,
        b"",
        b"error 507 at 1:53\n",
    ),
    (
        &["build"],
        b"fn main(): int { var print: int = 1; }",
        Status::Refused,
        b"",
        b"error 201 at 1:22\n",
    ),
    (
        &["build"],
        b"fn main(): int { return print 5; }",
        Status::Refused,
        b"",
        b"error 201 at 1:25\n",
    ),
];

#[test]
fn refuses_prints_and_chains(rt: HostRuntime) -> Result<(), Fail> {
    expect_rows(&rt, rt.alloc(), &[], REFUSALS)?;
    Ok(())
}

/// The words of an image, its status and the result.
const IMAGES: &[(&[u32], Status, &[u8])] = &[
    // addi a7,zero,2047; ecall; lui a0,0x80000; ecall; addi a0,a0,-1; ecall, and no word behind them
    (
        &[
            0x7FF00893, 0x00000073, 0x80000537, 0x00000073, 0xFFF50513, 0x00000073,
        ],
        Status::Machine,
        b"0\n-2147483648\n2147483647\nfault fetch at 0x0001006c\n",
    ),
    // the same first two, then addi a7,a7,1 and a call of number 2048
    (
        &[0x7FF00893, 0x00000073, 0x00188893, 0x00000073],
        Status::Machine,
        b"0\nfault call at 0x00010060\n",
    ),
    // the same first two, then addi a7,zero,93 and the call that exits
    (
        &[0x7FF00893, 0x00000073, 0x05D00893, 0x00000073],
        Status::Done,
        b"0\nexit 0\n",
    ),
    // addi a0,a0,1; addi a7,zero,2047; ecall; j -12
    (
        &[0x00150513, 0x7FF00893, 0x00000073, 0xFF5FF06F],
        Status::Running,
        b"1\n2\n3\nrunning\n",
    ),
];

/// Emulates an image for at most 14 steps, and sees that it ends so and has written this.
fn expect_emulated<R: Threads + Abort + Sync>(
    rt: &R,
    alloc: Global,
    words: &[u32],
    answer: (Status, &[u8], &[u8]),
) -> Result<(), AllocError> {
    assert!(rt; words.len() < 100);
    let file = write(alloc, words)?;
    let call = Call {
        words: &["emu", "--steps", "14"],
        plan: &[],
        source: &file,
    };
    expect(rt, alloc, call, SOUND, answer)
}

#[test]
fn emulates_prints(rt: HostRuntime) -> Result<(), Fail> {
    for &(words, status, out) in IMAGES {
        expect_emulated(&rt, rt.alloc(), words, (status, out, b""))?;
    }
    Ok(())
}
