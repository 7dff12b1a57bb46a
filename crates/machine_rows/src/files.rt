// Whole and damaged files.

use crate::runs::{change, comes_to, file_of, file_with};
use elf_file::{ElfFault, ReadError, read};
use rv_isa::FaultKind;
use rv32_emul::Outcome;
use std::alloc::Global;
use std::test::Fail;

/// The words of a program that returns 7.
const SEVEN: [u32; 15] = [
    0x00C000EF, 0x05D00893, 0x00000073, 0xFF010113, 0x00012023, 0x00112623, 0x00912423, 0x00700493,
    0x00048513, 0x0080006F, 0x00000513, 0x00C12083, 0x00812483, 0x01010113, 0x00008067,
];

/// Its file.
const FILE: [u8; 144] = [
    0x7F, 0x45, 0x4C, 0x46, 0x01, 0x01, 0x01, 0x00, 0x00, 0x00, 0x00, 0x00, 0x00, 0x00, 0x00, 0x00,
    0x02, 0x00, 0xF3, 0x00, 0x01, 0x00, 0x00, 0x00, 0x54, 0x00, 0x01, 0x00, 0x34, 0x00, 0x00, 0x00,
    0x00, 0x00, 0x00, 0x00, 0x00, 0x00, 0x00, 0x00, 0x34, 0x00, 0x20, 0x00, 0x01, 0x00, 0x00, 0x00,
    0x00, 0x00, 0x00, 0x00, 0x01, 0x00, 0x00, 0x00, 0x54, 0x00, 0x00, 0x00, 0x54, 0x00, 0x01, 0x00,
    0x54, 0x00, 0x01, 0x00, 0x3C, 0x00, 0x00, 0x00, 0x3C, 0x00, 0x00, 0x00, 0x05, 0x00, 0x00, 0x00,
    0x00, 0x10, 0x00, 0x00, 0xEF, 0x00, 0xC0, 0x00, 0x93, 0x08, 0xD0, 0x05, 0x73, 0x00, 0x00, 0x00,
    0x13, 0x01, 0x01, 0xFF, 0x23, 0x20, 0x01, 0x00, 0x23, 0x26, 0x11, 0x00, 0x23, 0x24, 0x91, 0x00,
    0x93, 0x04, 0x70, 0x00, 0x13, 0x85, 0x04, 0x00, 0x6F, 0x00, 0x80, 0x00, 0x13, 0x05, 0x00, 0x00,
    0x83, 0x20, 0xC1, 0x00, 0x83, 0x24, 0x81, 0x00, 0x13, 0x01, 0x01, 0x01, 0x67, 0x80, 0x00, 0x00,
];

#[test]
fn written(rt: HostRuntime) -> Result<(), Fail> {
    let file = file_of(rt.alloc(), &SEVEN).ok_or("a file")?;
    assert!(rt; file.as_slice() == FILE.as_slice());
    let segments = read(rt.alloc(), &file)?;
    assert_eq!(rt; segments.entry(), 0x10054);
    assert_eq!(rt; segments.segments().len(), 1);
    let code = &segments.segments()[0];
    assert_eq!(rt;
        (code.start(), code.end(), code.flags()),
        (0x10054, 0x10090, 5)
    );
    assert!(rt; code.bytes() == &FILE[84..]);
    Ok(())
}

/// Whether the file isn't loaded, with that fault.
fn has_fault(alloc: Global, file: &[u8], fault: ElfFault) -> bool {
    match read(alloc, file) {
        Ok(_) => false,
        Err(error) => error == ReadError::Fault(fault),
    }
}

/// The file cut short.
#[test]
fn cut(rt: HostRuntime) {
    for n in 0..144 {
        let fault = if n < 52 {
            ElfFault::Short
        } else {
            ElfFault::Segment(0)
        };
        assert!(rt; has_fault(rt.alloc(), &FILE[..n], fault), "at {n}");
    }
}

const TEXTS: &[(ElfFault, &str)] = &[
    (ElfFault::Segment(0), "Segment 0"),
    (ElfFault::Short, "Short"),
    (ElfFault::Machine, "Machine"),
    (ElfFault::TooLarge, "TooLarge"),
];

/// How faults are printed.
#[test]
fn texts(rt: HostRuntime) -> Result<(), Fail> {
    for &(fault, text) in TEXTS {
        assert!(rt; format!(in rt.alloc(); "{fault}")?.as_str() == text);
    }
    Ok(())
}

/// Where a byte is changed, to what, and the fault.
const BYTES: &[(usize, u8, ElfFault)] = &[
    (0, 0x7E, ElfFault::Magic),
    (3, 0x47, ElfFault::Magic),
    (4, 2, ElfFault::Class),
    (5, 2, ElfFault::Class),
    (6, 0, ElfFault::Class),
    (16, 3, ElfFault::Kind),
    (42, 33, ElfFault::Kind),
    (18, 0, ElfFault::Machine),
];

/// A byte changed, and the fault.
#[test]
fn bytes(rt: HostRuntime) -> Result<(), Fail> {
    for &(offset, byte, fault) in BYTES {
        let mut file = FILE.to_vec(rt.alloc())?;
        if let Some(changed) = file.get_mut(offset) {
            *changed = byte;
        }
        assert!(rt; has_fault(rt.alloc(), &file, fault), "at {offset}");
    }
    Ok(())
}

/// Where four bytes are changed, to what, and the fault.
const NUMBERS: &[(usize, u32, ElfFault)] = &[
    (44, 65535, ElfFault::Segment(2)),
    (44, 0, ElfFault::Entry),
    (72, 0, ElfFault::Entry),
    (76, 4, ElfFault::Entry),
    (24, 0x10056, ElfFault::Entry),
    (24, 0x10090, ElfFault::Entry),
    (52, 2, ElfFault::Entry),
    (28, 0xFFFFFFFF, ElfFault::Segment(0)),
    (68, 0xFFFFFFFF, ElfFault::Segment(0)),
    (68, 61, ElfFault::Segment(0)),
    (72, 59, ElfFault::Segment(0)),
    (60, 0xFFFFFFF0, ElfFault::Segment(0)),
    (60, 0x700FFFF0, ElfFault::Segment(0)),
    (60, 0x6FFFFFC5, ElfFault::Segment(0)),
    (72, 0x04000001, ElfFault::Segment(0)),
];

/// Four bytes changed, and the fault. `e_phnum` has two bytes, and behind it stands 0.
#[test]
fn numbers(rt: HostRuntime) -> Result<(), Fail> {
    for &(offset, number, fault) in NUMBERS {
        let mut file = FILE.to_vec(rt.alloc())?;
        change(&mut file, &[(offset, number)]);
        assert!(rt; has_fault(rt.alloc(), &file, fault), "at {offset}");
    }
    Ok(())
}

/// Where the file has the entry, the segment's address, and how many bytes it has in the file and in memory.
const ENTRY: usize = 24;

const START: usize = 60;

const FILE_SIZE: usize = 68;

const MEMORY_SIZE: usize = 72;

/// Words, numbers that are changed in their file, how many steps go on, and what the next one comes to: a segment up to the stack,
/// one behind it, and one up to 2^32; the last word of all addresses, behind which the pc is 0; a load of a word of which two bytes
/// are in the segment; and a segment of 64 MiB.
const EDGES: &[(&[u32], &[(usize, u32)], u64, Outcome)] = &[
    (
        &SEVEN,
        &[(ENTRY, 0x6FFFFFC4), (START, 0x6FFFFFC4)],
        13,
        Outcome::Exit(7),
    ),
    (
        &SEVEN,
        &[(ENTRY, 0xFFFFFFC4), (START, 0xFFFFFFC4)],
        13,
        Outcome::Exit(7),
    ),
    (
        &SEVEN,
        &[(ENTRY, 0x70100000), (START, 0x70100000)],
        13,
        Outcome::Exit(7),
    ),
    (
        &[0x00000013],
        &[(ENTRY, 0xFFFFFFFC), (START, 0xFFFFFFFC)],
        1,
        Outcome::Fault {
            kind: FaultKind::Fetch,
            at: 0,
            address: 0,
        },
    ),
    (
        &[0x00000397, 0x0083A503, 0x05D00893],
        &[(FILE_SIZE, 10), (MEMORY_SIZE, 10)],
        1,
        Outcome::Fault {
            kind: FaultKind::Load,
            at: 0x10058,
            address: 0x1005C,
        },
    ),
    (&SEVEN, &[(MEMORY_SIZE, 0x04000000)], 13, Outcome::Exit(7)),
];

#[test]
fn edges(rt: HostRuntime) -> Result<(), Fail> {
    for &(words, changes, steps, outcome) in EDGES {
        let file = file_with(rt.alloc(), words, changes).ok_or("a file")?;
        assert_eq!(rt; comes_to(rt.alloc(), &file, steps, 1), Some(outcome));
    }
    Ok(())
}
