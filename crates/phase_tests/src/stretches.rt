//! Worked columns: a function whose rows come in two stretches, and rows that show faults.
ghost use Rattle.std.specs.Prelude.{◌+◌, ◌≤◌, length};

use row_columns::{Columns, Source, add_program, least_fault, stretch_columns};
use row_pieces::Made;
use source_meaning::{BinaryOp, Kind, ValueType};
use std::alloc::{AllocError, Global};
use std::test::*;

const NUMBERS: &[u16] = &[
    1, 3, 4, 8, 9, 7, 10, 11, 12, 20, 21, 24, 27, 30, 33, 37, 42, 43, 49, 39, 36, 32, 29, 26, 22,
    21, 24, 27, 30, 33, 37, 42, 44, 39, 36, 32, 29, 26, 23, 12, 18, 21, 24, 27, 30, 33, 37, 42, 43,
    49, 39, 36, 31, 33, 37, 42, 44, 39, 36, 32, 29, 26, 23, 13, 2,
];

fn made(place: u32, own: u32, size: u32) -> Made {
    Made { place, own, size }
}

// The columns of closed rows of the function that stand behind this many others. The last of those is the assignment.
fn columns_of(alloc: Global, rows: &[Made], count: u32) -> Result<Columns, AllocError>
    requires { count + length rows.now ≤ 4294967295 }
{
    let source = Source {
        text: b"fn f(var a:int):bool{a=1;return a<20;}",
        starts: &[
            0, 3, 4, 5, 9, 10, 11, 14, 15, 16, 20, 21, 22, 23, 24, 25, 32, 33, 34, 36, 37,
        ],
        lengths: &[
            2, 1, 1, 3, 1, 1, 3, 1, 1, 4, 1, 1, 1, 1, 1, 6, 1, 1, 2, 1, 1,
        ],
        owned: &[1, 4, 10, 11, 12, 13, 15, 16, 17, 18],
        numbers: NUMBERS,
    };
    stretch_columns(alloc, &source, rows, made(24, 4, 3), count)
}

// Up to the assignment.
fn first_columns(alloc: Global) -> Result<Columns, AllocError> {
    let rows = [
        made(3, 1, 1),
        made(18, 3, 1),
        made(32, 5, 1),
        made(24, 4, 3),
    ];
    columns_of(alloc, &rows, 0)
}

// From its statement on.
fn second_columns(alloc: Global) -> Result<Columns, AllocError> {
    let rows = [
        made(9, 3, 4),
        made(49, 7, 1),
        made(56, 9, 1),
        made(52, 8, 3),
        made(40, 6, 4),
        made(7, 2, 9),
        made(1, 0, 11),
    ];
    add_program(columns_of(alloc, &rows, 4)?)
}

// Kinds, the first rows of subtrees, and own tokens.
type Due = (&'static [Kind], &'static [u32], &'static [u32]);

const FIRST: Due = (
    &[
        Kind::Param(ValueType::Int),
        Kind::Name,
        Kind::Num(1),
        Kind::Assign,
    ],
    &[0, 1, 2, 1],
    &[4, 11, 13, 12],
);

const SECOND: Due = (
    &[
        Kind::Eval,
        Kind::Name,
        Kind::Num(20),
        Kind::Binary(BinaryOp::Less),
        Kind::Return,
        Kind::Block,
        Kind::Function(ValueType::Bool),
        Kind::Program,
    ],
    &[1, 5, 6, 5, 5, 1, 0, 0],
    &[12, 16, 18, 17, 15, 10, 1, 4294967295],
);

// Whether columns are these.
fn are(columns: &Columns, (kinds, lows, tokens): Due) -> bool {
    columns.kinds.as_slice() == kinds
        && columns.lows.as_slice() == lows
        && columns.tokens.as_slice() == tokens
}

#[test]
fn columns_of_two_stretches(rt: HostRuntime) -> Result<(), Fail> {
    let first = first_columns(rt.alloc())?;
    assert!(rt; are(&first, FIRST));
    let second = second_columns(rt.alloc())?;
    assert!(rt; are(&second, SECOND));
    Ok(())
}

const PARAMS: &[Kind] = &[Kind::Param(ValueType::Int); 10];

const PARAM_LOWS: &[u32] = &[0, 1, 2, 3, 4, 5, 6, 7, 8, 9];

const PARAM_TOKENS: &[u32] = &[4, 9, 14, 19, 24, 29, 34, 39, 44, 49];

// Kinds, the first rows of subtrees, own tokens, the rows from one up to another that are looked at, and the least key of their faults.
const FAULTS: &[(&[Kind], &[u32], &[u32], usize, usize, u64)] = &[
    // an else with no if before it, and one that has its if
    (
        &[Kind::Block, Kind::IfElse],
        &[0, 0],
        &[6, 5],
        0,
        2,
        5 * 1024 + 301,
    ),
    (
        &[Kind::Truth(true), Kind::Block, Kind::Block, Kind::IfElse],
        &[0, 1, 2, 0],
        &[2, 3, 5, 1],
        0,
        4,
        u64::MAX,
    ),
    // the same where an if stands behind the else
    (
        &[Kind::Truth(true), Kind::Block, Kind::If, Kind::IfElse],
        &[0, 1, 0, 0],
        &[6, 7, 5, 4],
        0,
        4,
        4 * 1024 + 301,
    ),
    (
        &[
            Kind::Truth(true),
            Kind::Block,
            Kind::Truth(true),
            Kind::Block,
            Kind::If,
            Kind::IfElse,
        ],
        &[0, 1, 2, 3, 2, 0],
        &[2, 3, 7, 8, 6, 1],
        0,
        6,
        u64::MAX,
    ),
    // what is assigned to a number, and to a name
    (
        &[Kind::Num(1), Kind::Num(2), Kind::Assign],
        &[0, 1, 0],
        &[3, 5, 4],
        0,
        3,
        4 * 1024 + 302,
    ),
    (
        &[Kind::Name, Kind::Num(2), Kind::Assign],
        &[0, 1, 0],
        &[3, 5, 4],
        0,
        3,
        u64::MAX,
    ),
    // eight parameters, the ninth and those behind it, and the tenth alone
    (PARAMS, PARAM_LOWS, PARAM_TOKENS, 0, 8, u64::MAX),
    (PARAMS, PARAM_LOWS, PARAM_TOKENS, 8, 10, 44 * 1024 + 303),
    (PARAMS, PARAM_LOWS, PARAM_TOKENS, 9, 10, u64::MAX),
];

// The least key of the faults of rows, where there are such rows.
fn key_of(kinds: &[Kind], lows: &[u32], tokens: &[u32], from: usize, to: usize) -> Option<u64> {
    if lows.len() != kinds.len() || from > to || to > kinds.len() {
        return None;
    }
    Some(least_fault(kinds, lows, tokens, from, to).word())
}

#[test]
fn faults_of_rows(rt: HostRuntime) {
    for &(kinds, lows, tokens, from, to, key) in FAULTS {
        assert_eq!(rt; key_of(kinds, lows, tokens, from, to), Some(key));
    }
}
