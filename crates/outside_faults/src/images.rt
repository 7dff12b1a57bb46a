// Damaged images, and one whose segment is as long as can be.

use crate::calls::{Answer, Call, Fault, done, expect, refused};
use crate::seven::SEVEN_FILE;
use pareas_core::Status;
use std::alloc::{AllocError, Global};
use std::process::Abort;
use std::test::Fail;
use std::thread::Threads;

/// Runs the file, and sees that it is answered so.
fn expect_of<R: Threads + Abort + Sync>(
    rt: &R,
    alloc: Global,
    file: &[u8],
    answer: Answer,
) -> Result<(), AllocError> {
    let call = Call {
        words: &["emu"],
        input: file,
    };
    expect(rt, alloc, call, Fault::Nowhere, answer)
}

/// The file with these four bytes at a place.
fn with_number(place: usize, number: [u8; 4]) -> [u8; 144] {
    let mut file = SEVEN_FILE;
    for (byte, new) in file.iter_mut().skip(place).zip(number) {
        *byte = new;
    }
    file
}

const ENTRY: usize = 24;

const TABLE: usize = 28;

const HEADERS: usize = 44;

const START: usize = 60;

const FILE_SIZE: usize = 68;

const MEMORY_SIZE: usize = 72;

const FLAGS: usize = 76;

/// Where a number is changed, to what, the status, the result and the notes. The last segment has 64 MiB.
const CHANGES: &[(usize, u32, Status, &[u8], &[u8])] = &[
    (HEADERS, 65_535, Status::BadImage, b"", b"image Segment 2\n"),
    (HEADERS, 0, Status::BadImage, b"", b"image Entry\n"),
    (MEMORY_SIZE, 0, Status::BadImage, b"", b"image Entry\n"),
    (FLAGS, 4, Status::BadImage, b"", b"image Entry\n"),
    (ENTRY, 0x0001_0056, Status::BadImage, b"", b"image Entry\n"),
    (
        TABLE,
        0xFFFF_FFFF,
        Status::BadImage,
        b"",
        b"image Segment 0\n",
    ),
    (
        FILE_SIZE,
        0xFFFF_FFFF,
        Status::BadImage,
        b"",
        b"image Segment 0\n",
    ),
    (
        START,
        0xFFFF_FFF0,
        Status::BadImage,
        b"",
        b"image Segment 0\n",
    ),
    (
        START,
        0x700F_FFF0,
        Status::BadImage,
        b"",
        b"image Segment 0\n",
    ),
    (
        MEMORY_SIZE,
        0x0400_0001,
        Status::BadImage,
        b"",
        b"image Segment 0\n",
    ),
    (MEMORY_SIZE, 0x0400_0000, Status::Done, b"exit 7\n", b""),
];

#[test]
fn changed_headers(rt: HostRuntime) -> Result<(), Fail> {
    for &(place, number, status, out, notes) in CHANGES {
        let file = with_number(place, number.to_le_bytes());
        expect_of(&rt, rt.alloc(), &file, Answer { status, out, notes })?;
    }
    Ok(())
}

/// How the file is answered when it is cut to this many bytes.
fn answer_of_cut(count: usize) -> Answer<'static> {
    if count < 52 {
        refused(Status::BadImage, b"image Short\n")
    } else if count < 144 {
        refused(Status::BadImage, b"image Segment 0\n")
    } else {
        done(b"exit 7\n")
    }
}

#[test]
fn files_that_end_early(rt: HostRuntime) -> Result<(), Fail> {
    for count in 0..=SEVEN_FILE.len() {
        expect_of(&rt, rt.alloc(), &SEVEN_FILE[..count], answer_of_cut(count))?;
    }
    Ok(())
}
