// Machines of small files.

use crate::runs::words_come_to;
use rv_isa::FaultKind;
use rv32_emul::Outcome;

fn fault(kind: FaultKind, at: u32, address: u32) -> Option<Outcome> {
    Some(Outcome::Fault { kind, at, address })
}

fn exit(value: u32) -> Option<Outcome> {
    Some(Outcome::Exit(u32::cast_signed(value)))
}

/// The words of a program that returns 7, and of one that returns the greatest number.
const SEVEN: [u32; 15] = [
    0x00C000EF, 0x05D00893, 0x00000073, 0xFF010113, 0x00012023, 0x00112623, 0x00912423, 0x00700493,
    0x00048513, 0x0080006F, 0x00000513, 0x00C12083, 0x00812483, 0x01010113, 0x00008067,
];

const GREATEST: [u32; 16] = [
    0x00C000EF, 0x05D00893, 0x00000073, 0xFF010113, 0x00012023, 0x00112623, 0x00912423, 0x800004B7,
    0xFFF48493, 0x00048513, 0x0080006F, 0x00000513, 0x00C12083, 0x00812483, 0x01010113, 0x00008067,
];

/// A jump to an odd address clears the lowest bit.
const ODD_JUMP: [u32; 5] = [0x00000397, 0x00D38567, 0x00100073, 0x05D00893, 0x00000073];

/// Stores of one, two and four bytes.
const STORES: [u32; 8] = [
    0x123452B7, 0x67828293, 0xFE512C23, 0xFE510DA3, 0xFE511C23, 0xFF812503, 0x05D00893, 0x00000073,
];

/// Words, how many steps go on, how many come behind them, and the value with which the last one ends.
const ENDS: &[(&[u32], u64, u64, u32)] = &[
    (&SEVEN, 0, 14, 7),
    (&SEVEN, 13, 1, 7),
    (&GREATEST, 14, 1, 2147483647),
    (&ODD_JUMP, 0, 4, 0x1005C),
    (&STORES, 0, 8, 0x78345678),
];

#[test]
fn ends(rt: HostRuntime) {
    for &(words, goes_on, steps, value) in ENDS {
        assert_eq!(rt;
            words_come_to(rt.alloc(), words, goes_on, steps),
            exit(value)
        );
    }
}

/// Words that fault, the kind and the address of the fault.
const FAULTS: &[(u32, FaultKind, u32)] = &[
    (0x00202283, FaultKind::Misaligned, 2),
    (0x00201283, FaultKind::Load, 2),
    (0x00002283, FaultKind::Load, 0),
    (0x00002023, FaultKind::Store, 0),
    (0x000020A3, FaultKind::Misaligned, 1),
    (0x00000000, FaultKind::Unknown, 0x10054),
    (0x00100073, FaultKind::Call, 0x10054),
    (0x00000073, FaultKind::Call, 0x10054),
    (0x002000EF, FaultKind::Misaligned, 0x10056),
    (0x0020A2E7, FaultKind::Unknown, 0x10054),
    (0x00000163, FaultKind::Misaligned, 0x10056),
];

/// Words that fault in their first step at 0x10054, and the kind and address of the fault.
#[test]
fn faults(rt: HostRuntime) {
    for &(word, kind, address) in FAULTS {
        let found = words_come_to(rt.alloc(), &[word], 0, 1);
        assert_eq!(rt; found, fault(kind, 0x10054, address), "at {word:08x}");
    }
    // a jump to 0, and a store into the code
    let jump = words_come_to(rt.alloc(), &[0x00000067], 1, 1);
    assert_eq!(rt; jump, fault(FaultKind::Fetch, 0, 0));
    let store = words_come_to(rt.alloc(), &[0x00000397, 0x0003A023], 0, 2);
    assert_eq!(rt; store, fault(FaultKind::Store, 0x10058, 0x10054));
}

/// Four words, how many steps go on, and the fault of the next one: its kind, its pc and its address.
const LATE_FAULTS: &[([u32; 4], u64, FaultKind, u32, u32)] = &[
    // down the stack by 256 KiB a turn: lui t0,0x40; sub sp,sp,t0; sw sp,0(sp); j -8
    (
        [0x000402B7, 0x40510133, 0x00212023, 0xFF9FF06F],
        14,
        FaultKind::Store,
        0x1005C,
        0x6FFC0000,
    ),
    // up the code by a word a turn: lui t0,0x10; lw t1,84(t0); addi t0,t0,4; j -8
    (
        [0x000102B7, 0x0542A303, 0x00428293, 0xFF9FF06F],
        13,
        FaultKind::Load,
        0x10058,
        0x10064,
    ),
    // behind the last word
    (
        [0x00000013, 0x00000013, 0x00000013, 0x00000013],
        4,
        FaultKind::Fetch,
        0x10064,
        0x10064,
    ),
    // no instruction
    (
        [0x00000013, 0x00000013, 0x00000000, 0x00000013],
        2,
        FaultKind::Unknown,
        0x1005C,
        0x1005C,
    ),
    // lui t0,0x10; jalr ra,86(t0)
    (
        [0x00000013, 0x000102B7, 0x056280E7, 0x00000013],
        2,
        FaultKind::Misaligned,
        0x1005C,
        0x10056,
    ),
    // lw t0,2(zero)
    (
        [0x00000013, 0x00202283, 0x00000013, 0x00000013],
        1,
        FaultKind::Misaligned,
        0x10058,
        2,
    ),
    // ebreak
    (
        [0x00000013, 0x00000013, 0x00000013, 0x00100073],
        3,
        FaultKind::Call,
        0x10060,
        0x10060,
    ),
];

/// Faults behind steps that go on, in one run and behind a run of just these steps.
#[test]
fn late_faults(rt: HostRuntime) {
    for &(words, steps, kind, at, address) in LATE_FAULTS {
        let due = fault(kind, at, address);
        assert_eq!(rt; words_come_to(rt.alloc(), &words, steps, 1), due);
        assert_eq!(rt; words_come_to(rt.alloc(), &words, 0, u64::MAX), due);
    }
}

/// Instructions, their two operands and their values.
const OPERATIONS: &[(u32, u32, u32, u32)] = &[
    (0x00628533, 0xFFFFFFFF, 0x1, 0x0), // add x10,x5,x6
    (0x40628533, 0x0, 0x1, 0xFFFFFFFF), // sub x10,x5,x6
    (0x00629533, 0x1, 0x1F, 0x80000000), // sll x10,x5,x6
    (0x00629533, 0x1, 0x20, 0x1), // sll x10,x5,x6
    (0x00629533, 0x3, 0x1F, 0x80000000), // sll x10,x5,x6
    (0x0062D533, 0x80000000, 0x1F, 0x1), // srl x10,x5,x6
    (0x0062D533, 0x80000000, 0x21, 0x40000000), // srl x10,x5,x6
    (0x4062D533, 0x80000000, 0x1F, 0xFFFFFFFF), // sra x10,x5,x6
    (0x4062D533, 0x7FFFFFFF, 0x1F, 0x0), // sra x10,x5,x6
    (0x0062A533, 0x80000000, 0x7FFFFFFF, 0x1), // slt x10,x5,x6
    (0x0062A533, 0x0, 0xFFFFFFFF, 0x0), // slt x10,x5,x6
    (0x0062B533, 0x0, 0xFFFFFFFF, 0x1), // sltu x10,x5,x6
    (0x0062B533, 0x80000000, 0x7FFFFFFF, 0x0), // sltu x10,x5,x6
    (0x0062C533, 0xF0F0F0F0, 0xFFFFFFFF, 0xF0F0F0F), // xor x10,x5,x6
    (0x0062E533, 0xF0F0F0F0, 0xF0F0F0F, 0xFFFFFFFF), // or x10,x5,x6
    (0x0062F533, 0xF0F0F0F0, 0xFF00FF00, 0xF000F000), // and x10,x5,x6
    (0x02628533, 0x80000000, 0xFFFFFFFF, 0x80000000), // mul x10,x5,x6
    (0x02628533, 0x10000, 0x10000, 0x0), // mul x10,x5,x6
    (0x02629533, 0x80000000, 0x80000000, 0x40000000), // mulh x10,x5,x6
    (0x02629533, 0xFFFFFFFF, 0xFFFFFFFF, 0x0), // mulh x10,x5,x6
    (0x02629533, 0xFFFFFFFF, 0x1, 0xFFFFFFFF), // mulh x10,x5,x6
    (0x0262A533, 0xFFFFFFFF, 0xFFFFFFFF, 0xFFFFFFFF), // mulhsu x10,x5,x6
    (0x0262A533, 0x80000000, 0xFFFFFFFF, 0x80000000), // mulhsu x10,x5,x6
    (0x0262A533, 0x1, 0xFFFFFFFF, 0x0), // mulhsu x10,x5,x6
    (0x0262B533, 0xFFFFFFFF, 0xFFFFFFFF, 0xFFFFFFFE), // mulhu x10,x5,x6
    (0x0262B533, 0x80000000, 0x2, 0x1), // mulhu x10,x5,x6
    (0x0262C533, 0x80000000, 0xFFFFFFFF, 0x80000000), // div x10,x5,x6
    (0x0262C533, 0x7, 0x0, 0xFFFFFFFF), // div x10,x5,x6
    (0x0262C533, 0xFFFFFFF9, 0x2, 0xFFFFFFFD), // div x10,x5,x6
    (0x0262D533, 0x7, 0x0, 0xFFFFFFFF), // divu x10,x5,x6
    (0x0262D533, 0x80000000, 0xFFFFFFFF, 0x0), // divu x10,x5,x6
    (0x0262E533, 0x80000000, 0xFFFFFFFF, 0x0), // rem x10,x5,x6
    (0x0262E533, 0x7, 0x0, 0x7), // rem x10,x5,x6
    (0x0262E533, 0xFFFFFFF9, 0x2, 0xFFFFFFFF), // rem x10,x5,x6
    (0x0262F533, 0x80000000, 0x0, 0x80000000), // remu x10,x5,x6
    (0x0262F533, 0x80000000, 0xFFFFFFFF, 0x80000000), // remu x10,x5,x6
    (0xFFF28513, 0x0, 0x0, 0xFFFFFFFF), // addi x10,x5,-1
    (0xFFF2A513, 0x80000000, 0x0, 0x1), // slti x10,x5,-1
    (0xFFF2B513, 0x5, 0x0, 0x1), // sltiu x10,x5,-1
    (0x0012B513, 0x0, 0x0, 0x1), // sltiu x10,x5,1
    (0xFFF2C513, 0xF0F0F0F0, 0x0, 0xF0F0F0F), // xori x10,x5,-1
    (0x8002E513, 0x1, 0x0, 0xFFFFF801), // ori x10,x5,-2048
    (0xFFF2F513, 0x12345678, 0x0, 0x12345678), // andi x10,x5,-1
    (0x01F29513, 0x1, 0x0, 0x80000000), // slli x10,x5,31
    (0x01F2D513, 0x80000000, 0x0, 0x1), // srli x10,x5,31
    (0x41F2D513, 0x80000000, 0x0, 0xFFFFFFFF), // srai x10,x5,31
    (0x01838503, 0x80, 0x0, 0xFFFFFF80), // lb x10,24(x7)
    (0x0183C503, 0x80, 0x0, 0x80), // lbu x10,24(x7)
    (0x01B38503, 0xFF000000, 0x0, 0xFFFFFFFF), // lb x10,27(x7)
    (0x01839503, 0x8000, 0x0, 0xFFFF8000), // lh x10,24(x7)
    (0x0183D503, 0x8000, 0x0, 0x8000), // lhu x10,24(x7)
    (0x01A39503, 0x7FFF0000, 0x0, 0x7FFF), // lh x10,26(x7)
    (0x01C3A503, 0x0, 0x80000000, 0x80000000), // lw x10,28(x7)
    (0xFFFFF537, 0x0, 0x0, 0xFFFFF000), // lui x10,0xFFFFF
    (0xFFFFF517, 0x0, 0x0, 0xF060), // auipc x10,0xFFFFF
    (0x00628033, 0x1, 0x2, 0x0), // add x0,x5,x6
    (0x0FF0000F, 0x0, 0x0, 0x0), // fence
];

/// An instruction on two operands (x5 and x6, which also lie at 24 and 28 behind x7), and its value in x10.
#[test]
fn operands(rt: HostRuntime) {
    for &(word, x, y, value) in OPERATIONS {
        let words = [
            0x00000397, 0x0183A283, 0x01C3A303, word, 0x05D00893, 0x00000073, x, y,
        ];
        let found = words_come_to(rt.alloc(), &words, 0, 6);
        assert_eq!(rt; found, exit(value), "{word:08x}");
    }
}

/// Branches, their two operands, and whether they are taken.
const BRANCHES: &[(u32, u32, u32, bool)] = &[
    (0x00628463, 0x5, 0x5, true), // beq x5, x6, 8
    (0x00628463, 0x5, 0x6, false), // beq x5, x6, 8
    (0x00629463, 0x5, 0x6, true), // bne x5, x6, 8
    (0x00629463, 0x5, 0x5, false), // bne x5, x6, 8
    (0x0062C463, 0x80000000, 0x0, true), // blt x5, x6, 8
    (0x0062C463, 0x0, 0x80000000, false), // blt x5, x6, 8
    (0x0062D463, 0x0, 0x80000000, true), // bge x5, x6, 8
    (0x0062D463, 0x80000000, 0x0, false), // bge x5, x6, 8
    (0x0062D463, 0x3, 0x3, true), // bge x5, x6, 8
    (0x0062E463, 0x0, 0x80000000, true), // bltu x5, x6, 8
    (0x0062E463, 0x80000000, 0x0, false), // bltu x5, x6, 8
    (0x0062F463, 0x80000000, 0x0, true), // bgeu x5, x6, 8
    (0x0062F463, 0x0, 0x80000000, false), // bgeu x5, x6, 8
    (0x0062F463, 0x3, 0x3, true), // bgeu x5, x6, 8
];

/// A branch on two operands past a breakpoint, and whether it is taken.
#[test]
fn branches(rt: HostRuntime) {
    for &(word, x, y, taken) in BRANCHES {
        let words = [
            0x00000397, 0x01C3A283, 0x0203A303, word, 0x00100073, 0x05D00893, 0x00000073, x, y,
        ];
        let due = if taken {
            exit(0)
        } else {
            fault(FaultKind::Call, 0x10064, 0x10064)
        };
        assert_eq!(rt; words_come_to(rt.alloc(), &words, 0, 6), due, "{word:08x}");
    }
}
