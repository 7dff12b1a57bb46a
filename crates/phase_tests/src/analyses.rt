//! What sources mean: their names, types, depths and frames, for every plan, and each of these passes by itself.
use crate::fronts::many_names;
use chunk_seats::OpenGate;
use front_end::{Analysis, front};
use name_pass::resolve;
use par_passes::Passes;
use rv_regs::{Frame, FrameFault, Frames, depths, frames};
use source_meaning::ValueType;
use std::alloc::Global;
use std::process::Abort;
use std::test::*;
use std::thread::Threads;
use test_gates::{Meeting, PLANS, at};
use type_pass::check;

const NONE: u32 = u32::MAX;

const INT: Option<ValueType> = Some(ValueType::Int);

const BOOL: Option<ValueType> = Some(ValueType::Bool);

fn analysed(crew: &impl Passes, source: &[u8]) -> Result<Analysis, Fail> {
    match front(crew, source) {
        Ok(found) => Ok(found),
        Err(_) => Err("a refusal".into()),
    }
}

// The inner `a` is seen only behind its own declaration, and only in its block.
const BINDINGS: &[u8] =
    b"fn f(var a: int): int { return a; } fn main(): int { var a: int = 1; { var a: int = f[a]; return a; } return a; }";

// The row that each row means.
const MEANT: [u32; 18] = [
    NONE, 0, NONE, NONE, 4, NONE, NONE, 6, 4, 6, 9, NONE, NONE, 6, NONE, NONE, 16, NONE,
];

// How many variables stand before each row with a name in its function, its parameters first; 0 at other rows.
const NUMBERS: [u32; 18] = [0, 1, 0, 0, 1, 0, 0, 1, 1, 1, 2, 0, 0, 2, 0, 0, 2, 0];

fn names_are_right(crew: &impl Passes) -> Result<bool, Fail> {
    let names = analysed(crew, BINDINGS)?.names;
    Ok(
        names.meant() == MEANT.as_slice()
            && names.numbers() == NUMBERS.as_slice()
            && names.main() == 16,
    )
}

const EACH_KIND: &[u8] =
    b"fn f(var x: int): bool { return x == 1; } fn main(): int { var b: bool = !f[2] && true; b = b || true; return -3; }";

const TYPES: [Option<ValueType>; 25] = [
    None, INT, INT, BOOL, None, None, None, INT, BOOL, BOOL, BOOL, BOOL, None, BOOL, BOOL, BOOL,
    BOOL, BOOL, None, INT, INT, None, None, None, None,
];

fn types_are_right(crew: &impl Passes) -> Result<bool, Fail> {
    let types = analysed(crew, EACH_KIND)?.types;
    Ok(types.as_slice() == TYPES.as_slice())
}

// A source, the depths of its rows, and the frames of its functions.
struct Framed {
    source: &'static [u8],
    depths: &'static [u32],
    frames: &'static [Frame],
}

const DIFFERENCES: Framed = Framed {
    source: b"fn main(): int { return 8-3-2; }",
    depths: &[0, 1, 0, 1, 0, 0, 0, 0, 0],
    frames: &[Frame {
        registers: 2,
        spills: 0,
        locals: 0,
        bytes: 16,
    }],
};

// The deepest slot of `main` is 13: 11 registers and 3 words of the frame.
const NESTED_SUMS: Framed = Framed {
    source: b"fn f(var a: int): int { return a; } fn main(): int { return 1+(2+(3+(4+(5+(6+(7+(8+(9+(10+(11+(12+(13+f[14])))))))))))); }",
    depths: &[
        0, 0, 0, 0, 0, 0, 1, 2, 3, 4, 5, 6, 7, 8, 9, 10, 11, 12, 13, 13, 12, 11, 10, 9, 8, 7, 6, 5,
        4, 3, 2, 1, 0, 0, 0, 0, 0,
    ],
    frames: &[
        Frame {
            registers: 1,
            spills: 0,
            locals: 1,
            bytes: 16,
        },
        Frame {
            registers: 11,
            spills: 3,
            locals: 0,
            bytes: 64,
        },
    ],
};

// A print's value stands at depth 0, and the second one's right operand is deepest.
const PRINTS: Framed = Framed {
    source: b"fn main(): int { print 5; print 8-(3-2); return 0; }",
    depths: &[0, 0, 0, 1, 2, 1, 0, 0, 0, 0, 0, 0, 0],
    frames: &[Frame {
        registers: 3,
        spills: 0,
        locals: 0,
        bytes: 16,
    }],
};

fn frames_of(crew: &impl Passes, found: &Analysis) -> Result<Result<Frames, FrameFault>, Fail> {
    if found.rows.len() > 50_000 {
        return Err("too long".into());
    }
    let deep = depths(crew, &found.rows)?;
    Ok(frames(crew, &found.rows, &deep))
}

fn frames_are_right(crew: &impl Passes, framed: &Framed) -> Result<bool, Fail> {
    let found = analysed(crew, framed.source)?;
    match frames_of(crew, &found)? {
        Ok(all) => Ok(all.as_slice() == framed.frames),
        Err(_) => Ok(false),
    }
}

fn depths_are_right(crew: &impl Passes, framed: &Framed) -> Result<bool, Fail> {
    let found = analysed(crew, framed.source)?;
    if found.rows.len() > 2000 {
        return Err("too long".into());
    }
    let deep = depths(crew, &found.rows)?;
    Ok(deep.as_slice() == framed.depths)
}

fn is_right(crew: &impl Passes, example: u32) -> Result<bool, Fail> {
    match example {
        0 => names_are_right(crew),
        1 => types_are_right(crew),
        2 => depths_are_right(crew, &DIFFERENCES),
        3 => depths_are_right(crew, &NESTED_SUMS),
        4 => frames_are_right(crew, &DIFFERENCES),
        5 => frames_are_right(crew, &NESTED_SUMS),
        6 => depths_are_right(crew, &PRINTS),
        _ => frames_are_right(crew, &PRINTS),
    }
}

#[test]
fn the_same_for_every_plan(rt: HostRuntime) -> Result<(), Fail> {
    for &plan in PLANS {
        let crew = at(&rt, rt.alloc(), plan, &OpenGate)?;
        for example in 0..8 {
            assert!(rt; is_right(&crew, example)?, "example {example}");
        }
    }
    Ok(())
}

// How the frames of a function main with this many variables and one more are refused, or their frame.
fn declarations<R: Threads + Sync>(
    rt: &R,
    alloc: Global,
    count: u32,
) -> Result<Result<Option<Frame>, FrameFault>, Fail> {
    let crew = at(rt, alloc, (4, 7), &OpenGate)?;
    let source = many_names(alloc, count)?;
    match frames_of(&crew, &analysed(&crew, &source)?)? {
        Ok(all) => Ok(Ok(all.as_slice().first().copied())),
        Err(error) => Ok(Err(error)),
    }
}

#[test]
fn frames_up_to_the_limit(rt: HostRuntime) -> Result<(), Fail> {
    for (count, bytes) in [(505, 2032), (506, 2048), (16_377, 65_520)] {
        let main = Frame {
            registers: 1,
            spills: 0,
            locals: count + 1,
            bytes,
        };
        assert!(rt; declarations(&rt, rt.alloc(), count)? == Ok(Some(main)));
    }
    let large = FrameFault::Large {
        at: 1,
        bytes: 65_536,
    };
    assert!(rt; declarations(&rt, rt.alloc(), 16_378)? == Err(large));
    Ok(())
}

// Whether one pass alone finds what is known of a source.
fn pass_is_right(crew: &impl Passes, found: &Analysis, pass: u32) -> Result<bool, Fail> {
    if found.rows.len() > 1000 || found.tokens.len() > 1000 {
        return Err("too long".into());
    }
    match pass {
        0 => match resolve(crew, BINDINGS, &found.tokens, &found.rows) {
            Ok(names) => Ok(names.meant() == found.names.meant()),
            Err(_) => Ok(false),
        },
        1 => match check(crew, &found.rows, &found.names) {
            Ok(types) => Ok(types.as_slice() == found.types.as_slice()),
            Err(_) => Ok(false),
        },
        2 => Ok(depths(crew, &found.rows)?.len() == found.rows.len()),
        _ => Ok(frames_of(crew, found)?.is_ok()),
    }
}

// A source of more than one block of rows, by which frames are found.
const BLOCKS: &[u8] =
    b"fn f(): int { return 1; } fn main(): int { 0; 0; 0; 0; 0; 0; 0; 0; 0; 0; 0; 0; 0; 0; 0; 0; 0; 0; 0; 0; 0; 0; 0; 0; 0; 0; 0; 0; 0; 0; 0; 0; 0; 0; 0; 0; 0; 0; 0; 0; return 2; }";

// In how many passes of names, types, depths, and depths with frames two workers meet, and in how many one draws alone: the ends of three variables, and both
// levels of their minima, are one worker's.
const MEETINGS: [(&[u8], (u64, u64)); 4] = [
    (BINDINGS, (2, 3)),
    (BINDINGS, (2, 0)),
    (BINDINGS, (2, 0)),
    (BLOCKS, (6, 0)),
];

#[test]
fn two_workers_meet_in_each_pass(rt: HostRuntime) -> Result<(), Fail> {
    let before = at(&rt, rt.alloc(), (2, 1), &OpenGate)?;
    for (pass, &(source, counts)) in MEETINGS.iter().enumerate() {
        let found = analysed(&before, source)?;
        let gate = Meeting::new();
        let crew = at(&rt, rt.alloc(), (2, 1), &gate)?;
        assert!(rt; pass_is_right(&crew, &found, pass as u32)?, "pass {pass}");
        assert_eq!(rt; gate.counts(), counts, "pass {pass}");
    }
    Ok(())
}
