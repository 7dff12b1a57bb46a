//! A worked program: the sizes and places of its pieces and its words, for every kind of plan.
ghost use Rattle.std.specs.Prelude.{◌≡◌, ◌≤◌, ◌<◌, length, IfOk};
ghost use Rattle.limits.specs.Limits.{most_rows};
ghost use Rattle.source_meaning.specs.Ast.{Program as Source};
ghost use Rattle.ast_rows.specs.NodeRows.{rows_from};
ghost use Rattle.rv_emit.specs.Compilable.{IsCompilable};
ghost use Rattle.phase_tests.specs.Worked.{seven as seven_program};

use ast_rows::{Names, Rows};
use chunk_seats::OpenGate;
use par_passes::Passes;
use rv_emit::{code, code_columns, emit, places, sizes};
use rv_regs::{Frame, Frames};
use source_meaning::{Kind, ValueType};
use std::alloc::Global;
use std::process::Abort;
use std::test::*;
use test_gates::{Meeting, PLANS, at};

const NONE: u32 = u32::MAX;

const INT: ValueType = ValueType::Int;

// What the passes before the code have found of a program.
#[derive(Drop)]
struct Found {
    rows: Rows,
    names: Names,
    depths: Vec<u32>,
    frames: Frames,
}

// The sizes and places of its pieces, and its words.
#[derive(Clone, Copy)]
struct Code<'a> {
    sizes: &'a [u32],
    places: &'a [u32],
    words: &'a [u32],
}

// These columns as rows.
fn rows_of(
    alloc: Global,
    kinds: Vec<Kind>,
    parents: Vec<u32>,
    tokens: Vec<u32>,
    places: Vec<u32>,
) -> Result<Rows, Fail>
    ensures { IfOk result (λ r. r ≡ rows_from 0 kinds.items parents.items tokens.items places.items) }
{
    Ok(Rows::from_columns(alloc, kinds, parents, tokens, places)?.ok_or("rows that go up")?)
}

// fn main(): int { return 7; }
fn seven(alloc: Global) -> Result<Found, Fail>
    ensures { IfOk result (λ v. IsCompilable seven_program v.rows v.names v.depths.items v.frames) }
{
    let kinds = Vec::from_array(
        alloc,
        [
            Kind::Num(7),
            Kind::Return,
            Kind::Block,
            Kind::Function(INT),
            Kind::Program,
        ],
    )?;
    let parents = Vec::from_array(alloc, [1, 2, 3, 4, 4])?;
    let tokens = Vec::from_array(alloc, [8, 7, 6, 1, NONE])?;
    let places = Vec::from_array(alloc, [0, 0, 0, 0, 0])?;
    let meant = Vec::from_array(alloc, [NONE, NONE, NONE, NONE, NONE])?;
    let numbers = Vec::from_array(alloc, [0, 0, 0, 0, 0])?;
    let depths = Vec::from_array(alloc, [0, 0, 0, 0, 0])?;
    let main = Frame {
        registers: 1,
        spills: 0,
        locals: 0,
        bytes: 16,
    };
    let frames = Vec::from_array(alloc, [main])?;
    let rows = rows_of(alloc, kinds, parents, tokens, places)?;
    Ok(Found {
        rows,
        names: Names::new(meant, numbers, 3),
        depths,
        frames: Frames::new(frames),
    })
}

// The head has the stub's 3 words and the 4 before the body. The number has 1 word, the return 2, and behind the body stand 5.
const SEVEN: Code<'static> = Code {
    sizes: &[1, 2, 0, 5, 0],
    places: &[7, 8, 10, 10, 15],
    words: &[
        0x00C000EF, 0x05D00893, 0x00000073, 0xFF010113, 0x00012023, 0x00112623, 0x00912423,
        0x00700493, 0x00048513, 0x0080006F, 0x00000513, 0x00C12083, 0x00812483, 0x01010113,
        0x00008067,
    ],
};

// Sees that the passes give this.
fn expect<R: Abort>(
    rt: &R,
    crew: &impl Passes,
    found: &Found,
    expected: Code<'_>,
) -> Result<(), Fail>
    requires nodes { length found.now.rows ≤ most_rows }
    requires program { (p : Source) × IsCompilable p found.now.rows found.now.names found.now.depths.items found.now.frames }
{
    let columns = code_columns(
        crew,
        &found.rows,
        &found.names,
        &found.depths,
        &found.frames,
    )?;
    let sizes = sizes(crew, &columns)?;
    assert!(rt; sizes.as_slice() == expected.sizes);
    let places = places(crew, &columns, &sizes)?;
    assert!(rt; places.as_slice() == expected.places);
    match emit(crew, &columns, &places) {
        Ok(words) => assert!(rt; words.as_slice() == expected.words),
        Err(_) => assert!(rt; false),
    }
    Ok(())
}

// Sees that one call for all passes gives these words.
fn expect_words<R: Abort>(
    rt: &R,
    crew: &impl Passes,
    found: &Found,
    expected: Code<'_>,
) -> Result<(), Fail>
    requires nodes { length found.now.rows ≤ most_rows }
    requires program { (p : Source) × IsCompilable p found.now.rows found.now.names found.now.depths.items found.now.frames }
{
    match code(
        crew,
        &found.rows,
        &found.names,
        &found.depths,
        &found.frames,
    ) {
        Ok(words) => assert!(rt; words.as_slice() == expected.words),
        Err(_) => assert!(rt; false),
    }
    Ok(())
}

#[test]
fn code_of_every_plan(rt: HostRuntime) -> Result<(), Fail> {
    for &plan in PLANS {
        let crew = at(&rt, rt.alloc(), plan, &OpenGate)?;
        let seven = seven(rt.alloc())?;
        expect(&rt, &crew, &seven, SEVEN)?;
        expect_words(&rt, &crew, &seven, SEVEN)?;
    }
    Ok(())
}

#[test]
fn two_workers_meet(rt: HostRuntime) -> Result<(), Fail> {
    let seven = seven(rt.alloc())?;
    let gate = Meeting::new();
    let crew = at(&rt, rt.alloc(), (2, 1), &gate)?;
    expect(&rt, &crew, &seven, SEVEN)?;
    // one pass over the only frame and one for the layout, one for sizes, two for places, two for words
    assert_eq!(rt; gate.counts(), (6, 1));
    Ok(())
}
