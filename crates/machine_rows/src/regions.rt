// Machines that change their code, or run in more than one region.

use crate::runs::{comes_to, file_with, words_come_to};
use rv_isa::FaultKind;
use rv32_emul::Outcome;
use std::test::Fail;

/// The flags of the first segment.
const FLAGS: usize = 76;

/// Puts `addi a0, a0, 9` in the place of `addi a0, a0, 2` before it gets there.
const CHANGING: [u32; 9] = [
    0x00000397, 0x0203A283, 0x0053A823, 0x00100513, 0x00250513, 0x05D00893, 0x00000073, 0x00000013,
    0x00950513,
];

/// A store into code that may be written is seen by the next fetch. One into other code faults.
#[test]
fn code_that_changes(rt: HostRuntime) -> Result<(), Fail> {
    let file = file_with(rt.alloc(), &CHANGING, &[(FLAGS, 7)]).ok_or("a file")?;
    assert_eq!(rt; comes_to(rt.alloc(), &file, 6, 1), Some(Outcome::Exit(10)));
    let denied = Outcome::Fault {
        kind: FaultKind::Store,
        at: 0x1005C,
        address: 0x10064,
    };
    assert_eq!(rt; words_come_to(rt.alloc(), &CHANGING, 0, 100), Some(denied));
    Ok(())
}

/// Words that change words of their own, run where they may be written; how many steps they take, and the value
/// with which the last one ends.
const CHANGED: &[(&[u32], u64, u32)] = &[
    // puts `addi a0, a0, 9` in the place of the next instruction
    (
        &[
            0x00000397, 0x0183A283, 0x0053A623, 0x00250513, 0x05D00893, 0x00000073, 0x00950513,
        ],
        6,
        9,
    ),
    // four turns, each of which makes the number that its first word adds greater by 1
    (
        &[
            0x00000397, 0x00400E13, 0x00150513, 0x00A3D303, 0x01030313, 0x00639523, 0xFFFE0E13,
            0xFE0E16E3, 0x05D00893, 0x00000073,
        ],
        28,
        10,
    ),
    // makes `addi a0, a0, 2` behind it `addi a1, a0, 2`, by one byte, and leaves the words beside it
    (
        &[
            0x00000397, 0x09300293, 0x00538823, 0x00350513, 0x00250513, 0x00150513, 0x05D00893,
            0x00000073,
        ],
        8,
        4,
    ),
    // sums up 5, 4, .. 1 in a word behind the code, which is no instruction
    (
        &[
            0x00000397, 0x00500E13, 0x0283A503, 0x01C50533, 0x02A3A423, 0xFFFE0E13, 0xFE0E18E3,
            0x05D00893, 0x00000073, 0x00000013, 0x00000000,
        ],
        29,
        15,
    ),
];

/// What is run is always what the words are now.
#[test]
fn code_that_changes_itself(rt: HostRuntime) -> Result<(), Fail> {
    for &(words, steps, value) in CHANGED {
        let file = file_with(rt.alloc(), words, &[(FLAGS, 7)]).ok_or("a file")?;
        for goes_on in 0..steps {
            assert_eq!(rt;
                comes_to(rt.alloc(), &file, goes_on, steps - goes_on),
                Some(Outcome::Exit(value.cast_signed()))
            );
        }
    }
    Ok(())
}

/// Puts 0, which is no instruction, in the place of the next one.
const CLEARED: [u32; 4] = [0x00000397, 0x0003A423, 0x00250513, 0x00000073];

/// A word that is no instruction any more faults.
#[test]
fn code_that_is_cleared(rt: HostRuntime) -> Result<(), Fail> {
    let file = file_with(rt.alloc(), &CLEARED, &[(FLAGS, 7)]).ok_or("a file")?;
    let unknown = Outcome::Fault {
        kind: FaultKind::Unknown,
        at: 0x1005C,
        address: 0x1005C,
    };
    assert_eq!(rt; comes_to(rt.alloc(), &file, 2, 1), Some(unknown));
    Ok(())
}

/// A second program header, code of the first segment, and two words of the second one: the first calls
/// the second, which returns.
const TWO_REGIONS: [u32; 16] = [
    1, 140, 0x20000, 0x20000, 8, 8, 5, 4096, 0x000202B7, 0x00100513, 0x000280E7, 0x00250513,
    0x05D00893, 0x00000073, 0x00950513, 0x00008067,
];

/// The entry, and the number of program headers.
const SECOND_SEGMENT: [(usize, u32); 2] = [(24, 0x10074), (44, 2)];

/// A call into another region and back, in one run and cut in two behind each step.
#[test]
fn from_region_to_region(rt: HostRuntime) -> Result<(), Fail> {
    let file = file_with(rt.alloc(), &TWO_REGIONS, &SECOND_SEGMENT).ok_or("a file")?;
    for steps in 0..8 {
        assert_eq!(rt;
            comes_to(rt.alloc(), &file, steps, 8 - steps),
            Some(Outcome::Exit(12))
        );
    }
    Ok(())
}

/// The second program header of a file, code of the first segment with a load as its second word, and the two
/// words of the second one, from 0x20000 on, which may only be read.
fn loading(load: u32) -> [u32; 14] {
    [
        1, 132, 0x20000, 0x20000, 8, 8, 4, 4096, 0x000202B7, load, 0x05D00893, 0x00000073,
        0x11223344, 0x55667788,
    ]
}

fn denied(address: u32) -> Outcome {
    Outcome::Fault {
        kind: FaultKind::Load,
        at: 0x10078,
        address,
    }
}

/// Loads into a0, at an offset from 0x20000, and what they come to: `lw`, `lbu` and `lhu` of the first and of the
/// last bytes, and `lw` right before and right behind them.
const LOADS: &[(u32, Result<u32, u32>)] = &[
    (0x0002A503, Ok(0x11223344)),
    (0x0042A503, Ok(0x55667788)),
    (0x0072C503, Ok(0x55)),
    (0x0062D503, Ok(0x5566)),
    (0x0082A503, Err(0x20008)),
    (0xFFC2A503, Err(0x1FFFC)),
];

/// A region has its first and its last byte, and none beside them.
#[test]
fn ends_of_a_region(rt: HostRuntime) -> Result<(), Fail> {
    for &(load, outcome) in LOADS {
        let file = file_with(rt.alloc(), &loading(load), &SECOND_SEGMENT).ok_or("a file")?;
        let due = match outcome {
            Ok(value) => Outcome::Exit(value.cast_signed()),
            Err(address) => denied(address),
        };
        assert_eq!(rt; comes_to(rt.alloc(), &file, 1, 3), Some(due), "{load:08x}");
    }
    Ok(())
}

/// The stack can't be run.
#[test]
fn onto_the_stack(rt: HostRuntime) {
    let fetch = Outcome::Fault {
        kind: FaultKind::Fetch,
        at: 0x70000000,
        address: 0x70000000,
    };
    assert_eq!(rt;
        words_come_to(rt.alloc(), &[0x700002B7, 0x00028067], 2, 10),
        Some(fetch)
    );
}
