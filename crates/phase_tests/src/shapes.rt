//! The rows of sources, their faults of shape, and sources that are deep or long.
use ast_rows::Rows;
use chunk_seats::OpenGate;
use front_end::{language_tables, lexed, parsed};
use limits::MOST_SOURCE;
use par_passes::Passes;
use phase_faults::PhaseFault;
use source_meaning::{BinaryOp, Kind, UnaryOp, ValueType};
use std::alloc::Global;
use std::process::Abort;
use std::test::*;
use std::thread::Threads;
use test_gates::{Draws, Meeting, PLANS, at};
use tree_passes::rows;

// The rows of a source, which the second crew finds, or its fault of shape.
fn shape(
    before: &impl Passes,
    crew: &impl Passes,
    source: &[u8],
) -> Result<Result<Rows, PhaseFault>, Fail> {
    if source.len() > MOST_SOURCE {
        return Err("too large".into());
    }
    let tables = language_tables(before.alloc())?;
    let Ok(tokens) = lexed(before, source) else {
        return Err("no tokens".into());
    };
    let Ok(productions) = parsed(before, &tables, source, &tokens) else {
        return Err("no parse".into());
    };
    Ok(rows(crew, source, &tokens, productions.as_slice()))
}

// Sees that the rows of a source have these kinds and parents.
fn expect_rows(
    rt: &impl Abort,
    crew: &impl Passes,
    source: &[u8],
    kinds: &[Kind],
    parents: &[u32],
) -> Result<(), Fail> {
    match shape(crew, crew, source)? {
        Ok(found) => {
            assert!(rt; found.kinds() == kinds);
            assert!(rt; found.parents() == parents);
        }
        Err(_) => assert!(rt; false),
    }
    Ok(())
}

// Sees that a source has this fault of shape, at a token.
fn expect_fault(
    rt: &impl Abort,
    crew: &impl Passes,
    source: &[u8],
    code: u16,
    at: u32,
) -> Result<(), Fail> {
    match shape(crew, crew, source)? {
        Ok(_) => assert!(rt; false),
        Err(fault) => assert_eq!(rt; fault, PhaseFault::Diagnostic { code, at }),
    }
    Ok(())
}

// A source, and the kinds and parents of its rows.
type Shaped = (&'static [u8], &'static [Kind], &'static [u32]);

const EMPTY: Shaped = (b"", &[Kind::Program], &[0]);

const LEFT: Shaped = (
    b"fn main(): int { return 8-3-2; }",
    &[
        Kind::Num(8),
        Kind::Num(3),
        Kind::Binary(BinaryOp::Minus),
        Kind::Num(2),
        Kind::Binary(BinaryOp::Minus),
        Kind::Return,
        Kind::Block,
        Kind::Function(ValueType::Int),
        Kind::Program,
    ],
    &[2, 2, 4, 4, 5, 6, 7, 8, 8],
);

const PARENTHESES: Shaped = (
    b"fn main(): int { return (8)-((3-2)); }",
    &[
        Kind::Num(8),
        Kind::Num(3),
        Kind::Num(2),
        Kind::Binary(BinaryOp::Minus),
        Kind::Binary(BinaryOp::Minus),
        Kind::Return,
        Kind::Block,
        Kind::Function(ValueType::Int),
        Kind::Program,
    ],
    &[4, 3, 3, 4, 5, 6, 7, 8, 8],
);

const TAILS: Shaped = (
    b"fn main(): bool { return 1 + 2 * 3 < 4 && true; }",
    &[
        Kind::Num(1),
        Kind::Num(2),
        Kind::Num(3),
        Kind::Binary(BinaryOp::Times),
        Kind::Binary(BinaryOp::Plus),
        Kind::Num(4),
        Kind::Binary(BinaryOp::Less),
        Kind::Truth(true),
        Kind::And,
        Kind::Return,
        Kind::Block,
        Kind::Function(ValueType::Bool),
        Kind::Program,
    ],
    &[4, 3, 3, 4, 6, 6, 8, 8, 9, 10, 11, 12, 12],
);

const ELSES: Shaped = (
    b"fn main(): int { if true { if false { } else { } } else { } }",
    &[
        Kind::Truth(true),
        Kind::Truth(false),
        Kind::Block,
        Kind::Block,
        Kind::IfElse,
        Kind::Block,
        Kind::Block,
        Kind::IfElse,
        Kind::Block,
        Kind::Function(ValueType::Int),
        Kind::Program,
    ],
    &[7, 4, 4, 4, 5, 7, 7, 8, 9, 10, 10],
);

const ASSIGNMENTS: Shaped = (
    b"fn main(): int { var x: int = 1; while x < 2 { (x) = x = 2; } }",
    &[
        Kind::Num(1),
        Kind::Var(ValueType::Int),
        Kind::Name,
        Kind::Num(2),
        Kind::Binary(BinaryOp::Less),
        Kind::Name,
        Kind::Name,
        Kind::Num(2),
        Kind::Assign,
        Kind::Assign,
        Kind::Eval,
        Kind::Block,
        Kind::While,
        Kind::Block,
        Kind::Function(ValueType::Int),
        Kind::Program,
    ],
    &[1, 13, 4, 4, 12, 9, 8, 8, 9, 10, 11, 12, 13, 14, 15, 15],
);

const CALLS: Shaped = (
    b"fn f(var a: int, var b: bool): int { f[-a, b]; if b { } }",
    &[
        Kind::Param(ValueType::Int),
        Kind::Param(ValueType::Bool),
        Kind::Name,
        Kind::Unary(UnaryOp::Negate),
        Kind::Name,
        Kind::Call,
        Kind::Eval,
        Kind::Name,
        Kind::Block,
        Kind::If,
        Kind::Block,
        Kind::Function(ValueType::Int),
        Kind::Program,
    ],
    &[11, 11, 3, 5, 5, 6, 10, 9, 9, 10, 11, 12, 12],
);

// Each else joins the if before it, and the third part of that is the if behind the else.
const CHAIN: Shaped = (
    b"fn main(): int { if true { } else if false { } else if true { } else { } }",
    &[
        Kind::Truth(true),
        Kind::Block,
        Kind::Truth(false),
        Kind::Block,
        Kind::Truth(true),
        Kind::Block,
        Kind::Block,
        Kind::IfElse,
        Kind::IfElse,
        Kind::IfElse,
        Kind::Block,
        Kind::Function(ValueType::Int),
        Kind::Program,
    ],
    &[9, 9, 8, 8, 7, 7, 7, 8, 9, 10, 11, 12, 12],
);

// A chain that ends without an else, inside the block of another one.
const CHAINS: Shaped = (
    b"fn main(): int { if true { if false { } else if true { } } else if false { } print 1; }",
    &[
        Kind::Truth(true),
        Kind::Truth(false),
        Kind::Block,
        Kind::Truth(true),
        Kind::Block,
        Kind::If,
        Kind::IfElse,
        Kind::Block,
        Kind::Truth(false),
        Kind::Block,
        Kind::If,
        Kind::IfElse,
        Kind::Num(1),
        Kind::Print,
        Kind::Block,
        Kind::Function(ValueType::Int),
        Kind::Program,
    ],
    &[11, 6, 6, 5, 5, 6, 7, 11, 10, 10, 11, 14, 13, 14, 15, 16, 16],
);

const PRINTS: Shaped = (
    b"fn main(): int { print 5; print -6; return 7; }",
    &[
        Kind::Num(5),
        Kind::Print,
        Kind::Num(6),
        Kind::Unary(UnaryOp::Negate),
        Kind::Print,
        Kind::Num(7),
        Kind::Return,
        Kind::Block,
        Kind::Function(ValueType::Int),
        Kind::Program,
    ],
    &[1, 7, 3, 4, 7, 6, 7, 8, 9, 9],
);

const SHAPES: &[Shaped] = &[
    EMPTY,
    LEFT,
    PARENTHESES,
    TAILS,
    ELSES,
    ASSIGNMENTS,
    CALLS,
    CHAIN,
    CHAINS,
    PRINTS,
];

// A source, and the code and the token of its first fault of shape.
type Misshapen = (&'static [u8], u16, u32);

const CHAIN_THAT_ENDED: Misshapen = (
    b"fn main(): int { if true { } else if false { } else { } else { } }",
    301,
    19,
);

const FAULTS: &[Misshapen] = &[
    (
        b"fn main(): int { while false { } else { } return 0; }",
        301,
        11,
    ),
    (b"fn main(): int { else { } }", 301, 7),
    (b"fn main(): int { if true { } else { } else { } }", 301, 14),
    (
        b"fn main(): int { if true { } else { } else if true { } }",
        301,
        14,
    ),
    CHAIN_THAT_ENDED,
    (
        b"fn main(): int { if true { } else if true { } 1; else { } }",
        301,
        18,
    ),
    (
        b"fn main(): int { else if true { } else { } else if true { } }",
        301,
        7,
    ),
    (b"fn main(): int { 1 = 2; return 0; }", 302, 8),
    (b"fn main(): int { var x: int = 0; x + x = 2; }", 302, 17),
    (
        b"fn f(var a: int, var b: int, var c: int, var d: int, var e: int, var f: int, var g: int, var h: int, var i: int): int { return 0; }",
        303,
        44,
    ),
];

#[test]
fn each_shape_has_its_rows(rt: HostRuntime) -> Result<(), Fail> {
    for plan in [(1, 1024), (4, 1)] {
        let crew = at(&rt, rt.alloc(), plan, &OpenGate)?;
        for &(source, kinds, parents) in SHAPES {
            expect_rows(&rt, &crew, source, kinds, parents)?;
        }
        for &(source, code, token) in FAULTS {
            expect_fault(&rt, &crew, source, code, token)?;
        }
    }
    Ok(())
}

#[test]
fn one_shape_for_every_plan(rt: HostRuntime) -> Result<(), Fail> {
    for &plan in PLANS {
        let crew = at(&rt, rt.alloc(), plan, &OpenGate)?;
        expect_rows(&rt, &crew, LEFT.0, LEFT.1, LEFT.2)?;
        expect_rows(&rt, &crew, CHAINS.0, CHAINS.1, CHAINS.2)?;
        expect_fault(
            &rt,
            &crew,
            CHAIN_THAT_ENDED.0,
            CHAIN_THAT_ENDED.1,
            CHAIN_THAT_ENDED.2,
        )?;
    }
    Ok(())
}

// This many copies of a piece, and then of another, between a beginning, a middle and an end, and how many rows that source has.
#[derive(Clone, Copy)]
struct Long {
    beginning: &'static [u8],
    piece: &'static [u8],
    middle: &'static [u8],
    closing: &'static [u8],
    end: &'static [u8],
    count: u32,
    rows: usize,
}

const PARENTHESES_IN_GREAT_DEPTH: Long = Long {
    beginning: b"fn main(): int { return ",
    piece: b"(",
    middle: b"1",
    closing: b")",
    end: b"; }",
    count: 100_000,
    rows: 5,
};

const BLOCKS_IN_GREAT_DEPTH: Long = Long {
    beginning: b"fn main(): int {",
    piece: b"{",
    middle: b"",
    closing: b"}",
    end: b"}",
    count: 100_000,
    rows: 100_003,
};

const ASSIGNMENTS_IN_A_LONG_CHAIN: Long = Long {
    beginning: b"fn main(): int { var x: int = 0; ",
    piece: b"x = ",
    middle: b"1",
    closing: b"",
    end: b"; }",
    count: 20_000,
    rows: 40_007,
};

const MANY_ARGUMENTS: Long = Long {
    beginning: b"fn main(): int { return main[",
    piece: b"1,",
    middle: b"1",
    closing: b"",
    end: b"]; }",
    count: 19_999,
    rows: 20_005,
};

const ELSE_IFS: Long = Long {
    beginning: b"fn main(): int { if true { }",
    piece: b" else if false { }",
    middle: b" else { }",
    closing: b"",
    end: b" }",
    count: 20_000,
    rows: 60_007,
};

fn text_of(alloc: Global, long: &Long) -> Result<Vec<u8>, Fail> {
    let mut text = long.beginning.to_vec(alloc)?;
    for _ in 0..long.count {
        text.extend_from_slice(long.piece)?;
    }
    text.extend_from_slice(long.middle)?;
    for _ in 0..long.count {
        text.extend_from_slice(long.closing)?;
    }
    text.extend_from_slice(long.end)?;
    Ok(text)
}

// How many rows a source has, if it has no fault of shape.
fn count_rows(crew: &impl Passes, source: &[u8]) -> Result<Option<usize>, Fail> {
    match shape(crew, crew, source)? {
        Ok(found) => Ok(Some(found.len())),
        Err(_) => Ok(None),
    }
}

#[test]
fn deep_and_long_sources_have_rows(rt: HostRuntime) -> Result<(), Fail> {
    let crew = at(&rt, rt.alloc(), (4, 1024), &OpenGate)?;
    for long in [
        PARENTHESES_IN_GREAT_DEPTH,
        BLOCKS_IN_GREAT_DEPTH,
        ASSIGNMENTS_IN_A_LONG_CHAIN,
        MANY_ARGUMENTS,
        ELSE_IFS,
    ] {
        let source = text_of(rt.alloc(), &long)?;
        assert_eq!(rt; count_rows(&crew, &source)?, Some(long.rows));
    }
    Ok(())
}

#[test]
fn two_workers_meet_at_rows(rt: HostRuntime) -> Result<(), Fail> {
    let before = at(&rt, rt.alloc(), (2, 1), &OpenGate)?;
    let gate = Meeting::new();
    let crew = at(&rt, rt.alloc(), (2, 1), &gate)?;
    match shape(&before, &crew, LEFT.0)? {
        Ok(found) => assert!(rt; found.parents() == LEFT.2),
        Err(_) => assert!(rt; false),
    }
    // the tokens of rows, three passes over stretches of the parse, two over stretches of the rows, for faults and kin, and two over the rows, for functions
    assert_eq!(rt; gate.counts(), (8, 0));
    Ok(())
}

// How many chunks this many workers draw in all while they make the rows of a source.
fn count_draws<R: Threads + Sync>(
    rt: &R,
    alloc: Global,
    workers: u32,
    source: &[u8],
) -> Result<u64, Fail> {
    let before = at(rt, alloc, (workers, 1), &OpenGate)?;
    let gate = Draws::new();
    let crew = at(rt, alloc, (workers, 1), &gate)?;
    match shape(&before, &crew, source)? {
        Ok(_) => Ok(gate.count()),
        Err(_) => Err("a fault of shape".into()),
    }
}

#[test]
fn two_workers_take_stretches(rt: HostRuntime) -> Result<(), Fail> {
    let alone = count_draws(&rt, rt.alloc(), 1, LEFT.0)?;
    let together = count_draws(&rt, rt.alloc(), 2, LEFT.0)?;
    // Both draw each owned token. Two workers have four stretches or more where one has one, in the walk and for the kin, and all but the last in the sums and the pieces.
    assert!(rt; together.saturating_sub(alone) >= 4 * 3);
    Ok(())
}
