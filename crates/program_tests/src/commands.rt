// Calls of the commands, each with its status, its result and its notes.

use crate::calls::{Call, Row, SEVEN, SEVEN_FILE, SOUND, expect, expect_rows};
use elf_file::write;
use pareas_core::Status;
use std::alloc::{AllocError, Global};
use std::process::Abort;
use std::test::Fail;
use std::thread::Threads;

/// The listing of `SEVEN_FILE`.
const SEVEN_LISTING: &[u8] = b"\
# 0x00010054
jal x1, 12
addi x17, x0, 93
ecall
addi x2, x2, -16
sw x0, 0(x2)
sw x1, 12(x2)
sw x9, 8(x2)
addi x9, x0, 7
addi x10, x9, 0
jal x0, 8
addi x10, x0, 0
lw x1, 12(x2)
lw x9, 8(x2)
addi x2, x2, 16
jalr x0, 0(x1)
";

const ENDLESS: &[u8] = b"fn main(): int { while true { } }";

const DEEP: &[u8] = b"fn f(): int { return f[]; } fn main(): int { return f[]; }";

/// Sources with white space, leading zeros and a comment, and sources that are refused with their lines.
const SOURCES: &[Row] = &[
    (
        &["build"],
        b"fn main(): int { return 0000000007; }",
        Status::Done,
        &SEVEN_FILE,
        b"",
    ),
    (
        &["build"],
        b"\tfn\r\nmain ( )\n:int{return\t7;}\r\n",
        Status::Done,
        &SEVEN_FILE,
        b"",
    ),
    (
        &["build"],
        b"fn main(): int { return 7; } // end",
        Status::Done,
        &SEVEN_FILE,
        b"",
    ),
    (&["build"], b"", Status::Refused, b"", b"error 405 at 1:1\n"),
    (
        &["build"],
        b"fn main(): int { return 2147483648; }",
        Status::Refused,
        b"",
        b"error 102 at 1:25\n",
    ),
    (
        &["build"],
        b"fn main(): int {\nreturn true;\n    $\n}",
        Status::Refused,
        b"",
        b"error 101 at 3:5\n",
    ),
    (
        &["build"],
        b"fn main(): int {\nreturn true;\n\n}",
        Status::Refused,
        b"",
        b"error 505 at 2:1\n",
    ),
    (&["run"], b"", Status::Refused, b"", b"error 405 at 1:1\n"),
];

#[test]
fn builds_and_refuses_sources(rt: HostRuntime) -> Result<(), Fail> {
    expect_rows(&rt, rt.alloc(), &[], SOURCES)?;
    Ok(())
}

#[test]
fn sources_have_a_limit(rt: HostRuntime) -> Result<(), Fail> {
    let spaces = vec![in rt.alloc(); b' '; 16_777_217]?;
    let call = Call {
        words: &["build"],
        plan: &[],
        source: &spaces,
    };
    let limit: (Status, &[u8], &[u8]) = (Status::Limit, b"", b"limit 601 at 1:16777217\n");
    expect(&rt, rt.alloc(), call, SOUND, limit)?;
    Ok(())
}

/// Programs that get this many steps: some exit, some don't.
const STEPS: &[Row] = &[
    (
        &["run", "--steps", "14"],
        SEVEN,
        Status::Done,
        b"exit 7\n",
        b"",
    ),
    (
        &["run", "--steps", "13"],
        SEVEN,
        Status::Running,
        b"running\n",
        b"",
    ),
    (
        &["run", "--steps", "0"],
        SEVEN,
        Status::Running,
        b"running\n",
        b"",
    ),
    (
        &["run", "--steps", "0"],
        ENDLESS,
        Status::Running,
        b"running\n",
        b"",
    ),
    (
        &["run", "--steps", "1"],
        ENDLESS,
        Status::Running,
        b"running\n",
        b"",
    ),
    (
        &["run", "--steps", "1000"],
        ENDLESS,
        Status::Running,
        b"running\n",
        b"",
    ),
    (
        &["run", "--steps", "327682"],
        DEEP,
        Status::Running,
        b"running\n",
        b"",
    ),
    (
        &["run", "--steps", "327683"],
        DEEP,
        Status::Machine,
        b"fault store at 0x00010064\n",
        b"",
    ),
];

#[test]
fn runs_for_so_many_steps(rt: HostRuntime) -> Result<(), Fail> {
    expect_rows(&rt, rt.alloc(), &[], STEPS)?;
    Ok(())
}

const LISTINGS: &[Row] = &[
    (&["asm"], SEVEN_LISTING, Status::Done, &SEVEN_FILE, b""),
    (
        &["asm"],
        b"addi x1, x0, 2048",
        Status::BadAsm,
        b"",
        b"asm line 1\n",
    ),
    (&["asm"], b"jal x1, 3", Status::BadAsm, b"", b"asm line 1\n"),
    (&["asm"], b"", Status::BadAsm, b"", b"asm empty\n"),
];

#[test]
fn assembles_listings(rt: HostRuntime) -> Result<(), Fail> {
    expect_rows(&rt, rt.alloc(), &[], LISTINGS)?;
    Ok(())
}

/// The least seed and the greatest.
const SEEDS: &[Row] = &[
    (
        &["drill", "--seed", "0", "--functions", "3"],
        b"",
        Status::Done,
        b"source 380\ntokens 161\nimage 600\nexit -1002442593\n",
        b"",
    ),
    (
        &["drill", "--seed", "4294967295", "--functions", "3"],
        b"",
        Status::Done,
        b"source 379\ntokens 161\nimage 600\nexit -2027067966\n",
        b"",
    ),
];

#[test]
fn drills_by_seeds(rt: HostRuntime) -> Result<(), Fail> {
    expect_rows(&rt, rt.alloc(), &[], SEEDS)?;
    Ok(())
}

/// A command, how many bytes of `SEVEN_FILE` it reads, its status, the result and the notes.
const IMAGES: &[(&str, usize, Status, &[u8], &[u8])] = &[
    ("emu", 144, Status::Done, b"exit 7\n", b""),
    ("emu", 143, Status::BadImage, b"", b"image Segment 0\n"),
    ("emu", 51, Status::BadImage, b"", b"image Short\n"),
    ("dump", 144, Status::Done, SEVEN_LISTING, b""),
    ("dump", 143, Status::BadImage, b"", b"image Segment 0\n"),
    ("dump", 51, Status::BadImage, b"", b"image Short\n"),
];

#[test]
fn emulates_and_lists_images(rt: HostRuntime) -> Result<(), Fail> {
    for &(command, count, status, out, notes) in IMAGES {
        let call = Call {
            words: &[command],
            plan: &[],
            source: &SEVEN_FILE[..count.min(144)],
        };
        expect(&rt, rt.alloc(), call, SOUND, (status, out, notes))?;
    }
    Ok(())
}

/// Runs a file on the emulator, and sees that it ends so and has written this.
fn expect_emulated<R: Threads + Abort + Sync>(
    rt: &R,
    alloc: Global,
    file: &[u8],
    answer: (Status, &[u8], &[u8]),
) -> Result<(), AllocError> {
    let call = Call {
        words: &["emu"],
        plan: &[],
        source: file,
    };
    expect(rt, alloc, call, SOUND, answer)
}

#[test]
fn refuses_images_of_other_machines(rt: HostRuntime) -> Result<(), Fail> {
    let mut other_machine = SEVEN_FILE;
    other_machine[18] = 0;
    let refusal: (Status, &[u8], &[u8]) = (Status::BadImage, b"", b"image Machine\n");
    expect_emulated(&rt, rt.alloc(), &other_machine, refusal)?;
    Ok(())
}

/// The one word of an image, and how it faults.
const FAULTS: &[(u32, &[u8])] = &[
    (0x0020_2283, b"fault misaligned at 0x00010054\n"),
    (0x0000_2283, b"fault load at 0x00010054\n"),
    (0x0000_2023, b"fault store at 0x00010054\n"),
    (0x0000_0000, b"fault unknown at 0x00010054\n"),
    (0x0010_0073, b"fault call at 0x00010054\n"),
    (0x0000_0073, b"fault call at 0x00010054\n"),
    (0x0020_00ef, b"fault misaligned at 0x00010054\n"),
    (0x0000_0067, b"fault fetch at 0x00000000\n"),
];

#[test]
fn tells_faults(rt: HostRuntime) -> Result<(), Fail> {
    for &(word, out) in FAULTS {
        let file = write(rt.alloc(), &[word])?;
        expect_emulated(&rt, rt.alloc(), &file, (Status::Machine, out, b""))?;
    }
    Ok(())
}
