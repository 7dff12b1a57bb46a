// Machines that print: the environment call of number 2047.

use crate::runs::file_of;
use rv_isa::FaultKind;
use rv32_emul::{Machine, Outcome};
use std::alloc::Global;
use std::test::Fail;

/// The words of `fn main(): int { print 5; print -6; return 7; }`.
const TWO_PRINTS: [u32; 24] = [
    0x00C000EF, 0x05D00893, 0x00000073, 0xFF010113, 0x00012023, 0x00112623, 0x00912423, 0x00500493,
    0x00048513, 0x7FF00893, 0x00000073, 0x00600493, 0x409004B3, 0x00048513, 0x7FF00893, 0x00000073,
    0x00700493, 0x00048513, 0x0080006F, 0x00000513, 0x00C12083, 0x00812483, 0x01010113, 0x00008067,
];

/// addi a7,zero,2047; ecall; lui a0,0x80000; ecall; addi a0,a0,-1; ecall; addi a0,zero,-1; ecall. Behind them stands no word.
const EDGES: [u32; 8] = [
    0x7FF00893, 0x00000073, 0x80000537, 0x00000073, 0xFFF50513, 0x00000073, 0xFFF00513, 0x00000073,
];

/// addi a0,zero,5; addi a7,zero,2047; ecall; ecall; addi a7,a7,-1954; ecall: a print changes neither a0 nor a7.
const TWICE: [u32; 6] = [
    0x00500513, 0x7FF00893, 0x00000073, 0x00000073, 0x85E88893, 0x00000073,
];

/// addi a7,zero,2047; ecall; addi a0,a0,1; j -8: prints 0, 1, 2 and so on, at its second, fifth, eighth step.
const COUNTING: [u32; 4] = [0x7FF00893, 0x00000073, 0x00150513, 0xFF9FF06F];

const SEVEN: Outcome = Outcome::Exit(7);

const FIVE: Outcome = Outcome::Exit(5);

const BEHIND_EDGES: Outcome = Outcome::Fault {
    kind: FaultKind::Fetch,
    at: 0x10074,
    address: 0x10074,
};

/// Words, how many steps they get, the numbers that they print, each with the steps that are left behind it, and what they come to.
const COURSES: &[(&[u32], u64, &[(i32, u64)], Outcome)] = &[
    (&TWO_PRINTS, 23, &[(5, 14), (-6, 9)], SEVEN),
    (&TWO_PRINTS, 1000, &[(5, 991), (-6, 986)], SEVEN),
    (&TWO_PRINTS, 22, &[(5, 13), (-6, 8)], Outcome::More),
    (&TWO_PRINTS, 14, &[(5, 5), (-6, 0)], Outcome::More),
    (&TWO_PRINTS, 13, &[(5, 4)], Outcome::More),
    (&TWO_PRINTS, 9, &[(5, 0)], Outcome::More),
    (&TWO_PRINTS, 8, &[], Outcome::More),
    (&TWO_PRINTS, 0, &[], Outcome::More),
    (
        &EDGES,
        u64::MAX,
        &[
            (0, u64::MAX - 2),
            (-2147483648, u64::MAX - 4),
            (2147483647, u64::MAX - 6),
            (-1, u64::MAX - 8),
        ],
        BEHIND_EDGES,
    ),
    (
        &EDGES,
        8,
        &[(0, 6), (-2147483648, 4), (2147483647, 2), (-1, 0)],
        Outcome::More,
    ),
    (&TWICE, 6, &[(5, 3), (5, 2)], FIVE),
    (&TWICE, 4, &[(5, 1), (5, 0)], Outcome::More),
    (
        &COUNTING,
        11,
        &[(0, 9), (1, 6), (2, 3), (3, 0)],
        Outcome::More,
    ),
    (&COUNTING, 10, &[(0, 8), (1, 5), (2, 2)], Outcome::More),
];

/// Whether a machine prints these numbers in this many steps, where a run that prints is followed by one of the steps that it left, and comes
/// to this.
fn prints(machine: &mut Machine, steps: u64, numbers: &[(i32, u64)], outcome: Outcome) -> bool {
    let mut due = steps;
    for &(value, left) in numbers {
        if machine.run(due) != (Outcome::Print { value, left }) {
            return false;
        }
        due = left;
    }
    machine.run(due) == outcome
}

/// What a run of no step answers behind this: the end stays, and no number comes once more.
fn stays(machine: &mut Machine, outcome: Outcome) -> bool {
    machine.run(0) == outcome
}

/// The machine of these words.
fn machine_of(alloc: Global, words: &[u32]) -> Option<Machine> {
    Machine::load(alloc, &file_of(alloc, words)?).ok()
}

#[test]
fn courses(rt: HostRuntime) -> Result<(), Fail> {
    for &(words, steps, numbers, outcome) in COURSES {
        let mut machine = machine_of(rt.alloc(), words).ok_or("a machine")?;
        assert!(rt;
            prints(&mut machine, steps, numbers, outcome) && stays(&mut machine, outcome),
            "{steps} {numbers:?}"
        );
    }
    Ok(())
}

/// What a machine answers to runs of one step each: a number in the place of each step that prints one, and none of its steps left.
fn step_by_step(machine: &mut Machine, answers: &[Option<i32>]) -> bool {
    for &answer in answers {
        let due = match answer {
            Some(value) => Outcome::Print { value, left: 0 },
            None => Outcome::More,
        };
        if machine.run(1) != due || machine.run(0) != Outcome::More {
            return false;
        }
    }
    true
}

/// Words, and the answers to their single steps before the last one.
const STEPS: &[(&[u32], &[Option<i32>])] = &[
    (&TWICE, &[None, None, Some(5), Some(5), None]),
    (
        &EDGES,
        &[
            None,
            Some(0),
            None,
            Some(-2147483648),
            None,
            Some(2147483647),
            None,
            Some(-1),
        ],
    ),
    (
        &COUNTING,
        &[
            None,
            Some(0),
            None,
            None,
            Some(1),
            None,
            None,
            Some(2),
            None,
            None,
            Some(3),
        ],
    ),
];

#[test]
fn single_steps(rt: HostRuntime) -> Result<(), Fail> {
    for &(words, answers) in STEPS {
        let mut machine = machine_of(rt.alloc(), words).ok_or("a machine")?;
        assert!(rt; step_by_step(&mut machine, answers), "{answers:?}");
    }
    Ok(())
}

/// Two words before an environment call: the number of the call, if it isn't one of those that exit and print.
const OTHER_CALLS: &[[u32; 3]] = &[
    // lui a7,1; addi a7,a7,-2048: 2048
    [0x000018B7, 0x80088893, 0x00000073],
    // addi a7,zero,2047; addi a7,a7,-1: 2046
    [0x7FF00893, 0xFFF88893, 0x00000073],
    // lui a7,0x80000; addi a7,a7,2047: 2047 but for the sign
    [0x800008B7, 0x7FF88893, 0x00000073],
    // addi a7,zero,-1; fence
    [0xFFF00893, 0x0FF0000F, 0x00000073],
    // addi a7,zero,92; fence
    [0x05C00893, 0x0FF0000F, 0x00000073],
    // addi a7,zero,94; fence
    [0x05E00893, 0x0FF0000F, 0x00000073],
    // addi a0,zero,2047; fence: the number stands in a0, and a7 is 0
    [0x7FF00513, 0x0FF0000F, 0x00000073],
    // addi a7,zero,2047; fence; ebreak
    [0x7FF00893, 0x0FF0000F, 0x00100073],
];

#[test]
fn other_calls(rt: HostRuntime) -> Result<(), Fail> {
    let fault = Outcome::Fault {
        kind: FaultKind::Call,
        at: 0x1005C,
        address: 0x1005C,
    };
    for words in OTHER_CALLS {
        let mut machine = machine_of(rt.alloc(), words).ok_or("a machine")?;
        assert!(rt;
            prints(&mut machine, 3, &[], fault) && stays(&mut machine, fault),
            "{words:?}"
        );
    }
    Ok(())
}
