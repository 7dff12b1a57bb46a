//! Rows that are made by hand, folded under every kind of plan.
ghost use Rattle.std.specs.Prelude.{◌≡◌, ◌<◌};

use ast_rows::{Names, Rows};
use chunk_seats::OpenGate;
use fold_pass::fold;
use par_passes::Passes;
use scan_lookback::Steps;
use source_meaning::{BinaryOp, Kind, UnaryOp, ValueType};
use std::alloc::Global;
use std::marker::Brand;
use std::process::Abort;
use std::sync::ledger::{Blank, Ledger};
use std::test::*;
use test_gates::{PLANS, at};

const NONE: u32 = u32::MAX;

// A row: its kind, its parent, its own token, its place among its siblings, and the row that it means.
type Line = (Kind, u32, u32, u32, u32);

// The rows of these lines, and their names; each row declares the variable of its own number.
fn rows_of(alloc: Global, lines: &[Line]) -> Result<(Rows, Names), Fail> {
    let mut kinds = Vec::new(alloc);
    let mut parents = Vec::new(alloc);
    let mut tokens = Vec::new(alloc);
    let mut places = Vec::new(alloc);
    let mut meant = Vec::new(alloc);
    let mut numbers = Vec::new(alloc);
    for &(kind, parent, token, place, row) in lines {
        kinds.push(kind)?;
        parents.push(parent)?;
        tokens.push(token)?;
        places.push(place)?;
        meant.push(row)?;
        numbers.push(parent)?;
    }
    let main = lines.len().saturating_sub(2).min(NONE as usize) as u32;
    let rows = Rows::from_columns(alloc, kinds, parents, tokens, places)?.ok_or("no rows")?;
    Ok((rows, Names::new(meant, numbers, main)))
}

// What folding makes of them.
fn folded<L: Ledger>(
    crew: &impl Passes,
    rows: Rows,
    names: Names,
    blank: Blank,
) -> Result<(Rows, Names), Fail>
    requires ledger { (blank.name ≡ L.name) × (blank.parts ≡ L.parts) × (0 < L.parts) }
{
    if rows.len() > 4294967295 {
        return Err("too many rows".into());
    }
    let mut steps = Steps::<L>::new(blank);
    Ok(fold(crew, rows, names, &mut steps)?)
}

// Sees that folding makes these lines of those.
fn expect(
    rt: &impl Abort,
    crew: &impl Passes,
    before: &[Line],
    after: &[Line],
) -> Result<(), Fail> {
    let (rows, names) = rows_of(crew.alloc(), before)?;
    let (rows, names) = folded::<Brand>(crew, rows, names, Blank::new(1))?;
    let (due, named) = rows_of(crew.alloc(), after)?;
    assert!(rt; rows.kinds() == due.kinds());
    assert!(rt; rows.parents() == due.parents());
    assert!(rt; rows.tokens() == due.tokens());
    assert!(rt; rows.places() == due.places());
    assert!(rt; rows.lows() == due.lows());
    assert!(rt; rows.functions() == due.functions());
    assert!(rt; rows.owners() == due.owners());
    assert!(rt; names.meant() == named.meant());
    assert!(rt; names.main() == named.main());
    Ok(())
}

const RETURN: Kind = Kind::Return;

const INT_MAIN: Kind = Kind::Function(ValueType::Int);

const MIN: u32 = 0x8000_0000;

const MINUS_1: u32 = u32::MAX;

// An operator, the two numbers that it takes, and the constant that they give.
type Operation = (BinaryOp, u32, u32, Kind);

// `return x op y;` is one constant, which has the operator's own token.
fn expect_binary(rt: &impl Abort, crew: &impl Passes, operation: Operation) -> Result<(), Fail> {
    let (op, x, y, constant) = operation;
    let before = [
        (Kind::Num(x), 2, 8, 0, NONE),
        (Kind::Num(y), 2, 10, 1, NONE),
        (Kind::Binary(op), 3, 9, 0, NONE),
        (RETURN, 4, 7, 0, NONE),
        (Kind::Block, 5, 6, 0, NONE),
        (INT_MAIN, 6, 1, 0, NONE),
        (Kind::Program, 6, NONE, 0, NONE),
    ];
    let after = [
        (constant, 1, 9, 0, NONE),
        (RETURN, 2, 7, 0, NONE),
        (Kind::Block, 3, 6, 0, NONE),
        (INT_MAIN, 4, 1, 0, NONE),
        (Kind::Program, 4, NONE, 0, NONE),
    ];
    expect(rt, crew, before.as_slice(), after.as_slice())
}

// Operators on edge values.
const BINARIES: &[Operation] = &[
    (BinaryOp::Plus, MINUS_1, 2, Kind::Num(1)),
    (BinaryOp::Minus, 0, 1, Kind::Num(MINUS_1)),
    (BinaryOp::Times, 65536, 65537, Kind::Num(65536)),
    (BinaryOp::Divide, 7, 0, Kind::Num(MINUS_1)),
    (BinaryOp::Divide, MIN, MINUS_1, Kind::Num(MIN)),
    (BinaryOp::Divide, MINUS_1 - 6, 2, Kind::Num(MINUS_1 - 2)),
    (BinaryOp::Remainder, 7, 0, Kind::Num(7)),
    (BinaryOp::Remainder, MIN, MINUS_1, Kind::Num(0)),
    (BinaryOp::Remainder, MINUS_1 - 6, 2, Kind::Num(MINUS_1)),
    (BinaryOp::BitwiseAnd, 12, 10, Kind::Num(8)),
    (BinaryOp::BitwiseOr, 12, 10, Kind::Num(14)),
    (BinaryOp::BitwiseXor, 12, 10, Kind::Num(6)),
    (BinaryOp::ShiftLeft, 1, 32, Kind::Num(1)),
    (BinaryOp::ShiftLeft, 3, 31, Kind::Num(MIN)),
    (BinaryOp::ShiftRight, MIN, 31, Kind::Num(MINUS_1)),
    (BinaryOp::ShiftRight, MIN, 32, Kind::Num(MIN)),
    (BinaryOp::Less, MINUS_1, 0, Kind::Truth(true)),
    (BinaryOp::Less, 0, MINUS_1, Kind::Truth(false)),
    (BinaryOp::LessOrEqual, MIN, MIN, Kind::Truth(true)),
    (BinaryOp::Greater, 1, MIN, Kind::Truth(true)),
    (BinaryOp::GreaterOrEqual, MIN, 1, Kind::Truth(false)),
    (BinaryOp::Equal, 5, 5, Kind::Truth(true)),
    (BinaryOp::NotEqual, 5, 5, Kind::Truth(false)),
    (BinaryOp::NotEqual, MIN, 0, Kind::Truth(true)),
];

#[test]
fn operators(rt: HostRuntime) -> Result<(), Fail> {
    for &plan in PLANS {
        let crew = at(&rt, rt.alloc(), plan, &OpenGate)?;
        for &operation in BINARIES {
            expect_binary(&rt, &crew, operation)?;
        }
    }
    Ok(())
}

// -!~x, as far as types go: `return -(~5);`, and `return !(1 < 2);` of another function.
const NEGATIONS: [Line; 12] = [
    (Kind::Num(5), 1, 9, 0, NONE),
    (Kind::Unary(UnaryOp::BitwiseNot), 2, 8, 0, NONE),
    (Kind::Unary(UnaryOp::Negate), 3, 7, 0, NONE),
    (RETURN, 4, 6, 0, NONE),
    (Kind::Block, 5, 5, 0, NONE),
    (INT_MAIN, 11, 1, 0, NONE),
    (Kind::Truth(true), 7, 18, 0, NONE),
    (Kind::Unary(UnaryOp::LogicalNot), 8, 17, 0, NONE),
    (RETURN, 9, 16, 0, NONE),
    (Kind::Block, 10, 15, 0, NONE),
    (Kind::Function(ValueType::Bool), 11, 11, 1, NONE),
    (Kind::Program, 11, NONE, 0, NONE),
];

const NEGATED: [Line; 9] = [
    (Kind::Num(6), 1, 7, 0, NONE),
    (RETURN, 2, 6, 0, NONE),
    (Kind::Block, 3, 5, 0, NONE),
    (INT_MAIN, 8, 1, 0, NONE),
    (Kind::Truth(false), 5, 17, 0, NONE),
    (RETURN, 6, 16, 0, NONE),
    (Kind::Block, 7, 15, 0, NONE),
    (Kind::Function(ValueType::Bool), 8, 11, 1, NONE),
    (Kind::Program, 8, NONE, 0, NONE),
];

// true && (true && 1 < 2), whose right sides stand for it: so it has the token of the order.
const RIGHT_SIDES: [Line; 11] = [
    (Kind::Truth(true), 6, 6, 0, NONE),
    (Kind::Truth(true), 5, 9, 0, NONE),
    (Kind::Num(1), 4, 12, 0, NONE),
    (Kind::Num(2), 4, 14, 1, NONE),
    (Kind::Binary(BinaryOp::Less), 5, 13, 1, NONE),
    (Kind::And, 6, 10, 1, NONE),
    (Kind::And, 7, 7, 0, NONE),
    (RETURN, 8, 5, 0, NONE),
    (Kind::Block, 9, 4, 0, NONE),
    (Kind::Function(ValueType::Bool), 10, 1, 0, NONE),
    (Kind::Program, 10, NONE, 0, NONE),
];

const RIGHT_SIDE: [Line; 5] = [
    (Kind::Truth(true), 1, 13, 0, NONE),
    (RETURN, 2, 5, 0, NONE),
    (Kind::Block, 3, 4, 0, NONE),
    (Kind::Function(ValueType::Bool), 4, 1, 0, NONE),
    (Kind::Program, 4, NONE, 0, NONE),
];

// `false || g[true || g[]];` in g: the statement has the own token of the call that is left, and the call inside goes.
const CALLS: [Line; 9] = [
    (Kind::Truth(false), 5, 5, 0, NONE),
    (Kind::Truth(true), 3, 9, 0, NONE),
    (Kind::Call, 3, 11, 1, 7),
    (Kind::Or, 4, 10, 0, NONE),
    (Kind::Call, 5, 7, 1, 7),
    (Kind::Or, 6, 6, 0, NONE),
    (Kind::Eval, 7, 6, 0, NONE),
    (Kind::Function(ValueType::Bool), 8, 1, 0, NONE),
    (Kind::Program, 8, NONE, 0, NONE),
];

const CALL: [Line; 5] = [
    (Kind::Truth(true), 1, 10, 0, NONE),
    (Kind::Call, 2, 7, 0, 3),
    (Kind::Eval, 3, 7, 0, NONE),
    (Kind::Function(ValueType::Bool), 4, 1, 0, NONE),
    (Kind::Program, 4, NONE, 0, NONE),
];

// x && false stays, for its left side is no constant; so does the sum in x + (2 * 3).
const NAMES: [Line; 11] = [
    (Kind::Param(ValueType::Bool), 9, 3, 0, NONE),
    (Kind::Name, 3, 8, 0, 0),
    (Kind::Truth(false), 3, 10, 1, NONE),
    (Kind::And, 8, 9, 0, NONE),
    (Kind::Name, 8, 12, 1, 0),
    (Kind::Num(2), 7, 14, 0, NONE),
    (Kind::Num(3), 7, 16, 1, NONE),
    (Kind::Binary(BinaryOp::Times), 8, 15, 2, NONE),
    (Kind::Call, 9, 7, 1, 9),
    (Kind::Function(ValueType::Bool), 10, 1, 0, NONE),
    (Kind::Program, 10, NONE, 0, NONE),
];

const NAMED: [Line; 9] = [
    (Kind::Param(ValueType::Bool), 7, 3, 0, NONE),
    (Kind::Name, 3, 8, 0, 0),
    (Kind::Truth(false), 3, 10, 1, NONE),
    (Kind::And, 6, 9, 0, NONE),
    (Kind::Name, 6, 12, 1, 0),
    (Kind::Num(6), 6, 15, 2, NONE),
    (Kind::Call, 7, 7, 1, 7),
    (Kind::Function(ValueType::Bool), 8, 1, 0, NONE),
    (Kind::Program, 8, NONE, 0, NONE),
];

// `return true && x;`: no row becomes a constant, but the right side stands for the And.
const GUARDED: [Line; 7] = [
    (Kind::Param(ValueType::Bool), 5, 3, 0, NONE),
    (Kind::Truth(true), 3, 8, 0, NONE),
    (Kind::Name, 3, 10, 1, 0),
    (Kind::And, 4, 9, 0, NONE),
    (RETURN, 5, 7, 1, NONE),
    (Kind::Function(ValueType::Bool), 6, 1, 0, NONE),
    (Kind::Program, 6, NONE, 0, NONE),
];

const UNGUARDED: [Line; 5] = [
    (Kind::Param(ValueType::Bool), 3, 3, 0, NONE),
    (Kind::Name, 2, 10, 0, 0),
    (RETURN, 3, 7, 1, NONE),
    (Kind::Function(ValueType::Bool), 4, 1, 0, NONE),
    (Kind::Program, 4, NONE, 0, NONE),
];

// `return -x + 1 < 2 && false;`, in which nothing folds: each operator has an operand that is no constant.
const COMPLETE: [Line; 12] = [
    (Kind::Param(ValueType::Int), 10, 3, 0, NONE),
    (Kind::Name, 2, 9, 0, 0),
    (Kind::Unary(UnaryOp::Negate), 4, 8, 0, NONE),
    (Kind::Num(1), 4, 11, 1, NONE),
    (Kind::Binary(BinaryOp::Plus), 6, 10, 0, NONE),
    (Kind::Num(2), 6, 13, 1, NONE),
    (Kind::Binary(BinaryOp::Less), 8, 12, 0, NONE),
    (Kind::Truth(false), 8, 15, 1, NONE),
    (Kind::And, 9, 14, 0, NONE),
    (RETURN, 10, 7, 1, NONE),
    (Kind::Function(ValueType::Bool), 11, 1, 0, NONE),
    (Kind::Program, 11, NONE, 0, NONE),
];

#[test]
fn trees(rt: HostRuntime) -> Result<(), Fail> {
    for &plan in PLANS {
        let crew = at(&rt, rt.alloc(), plan, &OpenGate)?;
        expect(&rt, &crew, &NEGATIONS, &NEGATED)?;
        expect(&rt, &crew, &RIGHT_SIDES, &RIGHT_SIDE)?;
        expect(&rt, &crew, &CALLS, &CALL)?;
        expect(&rt, &crew, &NAMES, &NAMED)?;
        expect(&rt, &crew, &GUARDED, &UNGUARDED)?;
        expect(&rt, &crew, &COMPLETE, &COMPLETE)?;
    }
    Ok(())
}
