//! Sources and their first diagnostics, and the rows of one, for every plan.
use chunk_seats::OpenGate;
use front_end::{Refusal, front};
use limits::MOST_SOURCE;
use par_passes::Passes;
use std::alloc::Global;
use std::process::Abort;
use std::test::*;
use std::thread::Threads;
use test_gates::{PLANS, at};

// A source, and the code and the place of its first diagnostic.
type Diagnosed = (&'static [u8], u16, u32);

const LEXICAL: [Diagnosed; 3] = [
    (b"fn main(): int {\nreturn true;\n    $\n}", 101, 34),
    (b"fn main(): int { return 2147483648; }", 102, 24),
    (b"fn main(): int { return f(1); } $", 101, 32),
];

const SYNTACTIC: [Diagnosed; 6] = [
    (b"fn main(): int { return f(1); }", 201, 25),
    (b"fn main(): int { return (1]; }", 201, 26),
    (b"fn main(): int { return 1;", 201, 26),
    (
        b"fn main(): int { if true { } else while true { } }",
        201,
        34,
    ),
    (
        b"fn print(): int { return 0; } fn main(): int { return print[]; }",
        201,
        3,
    ),
    (b"fn main(): int { print ; }", 201, 23),
];

const OF_SHAPE: [Diagnosed; 5] = [
    (
        b"fn main(): int { while false { } else { } return 0; }",
        301,
        33,
    ),
    (
        b"fn main(): int { if true { } else { } else if true { } }",
        301,
        38,
    ),
    (
        b"fn main(): int { if true { } else if true { } else { } else { } }",
        301,
        55,
    ),
    (b"fn main(): int { 1 = 2; return 0; }", 302, 19),
    (
        b"fn f(var a: int, var b: int, var c: int, var d: int, var e: int, var f: int, var g: int, var h: int, var i: int): int { return 0; } fn main(): int { return 0; }",
        303,
        105,
    ),
];

const OF_SCOPE: [Diagnosed; 10] = [
    (b"", 405, 0),
    (
        b"fn f(): int { } fn f(): int { } fn main(): int { }",
        401,
        19,
    ),
    (b"fn main(): int { } fn main(): bool { }", 401, 22),
    (
        b"fn main(): int { var a: int = 1; var a: int = 2; }",
        402,
        37,
    ),
    (b"fn main(): int { return x; }", 403, 24),
    (b"fn main(): int { { var x: int = 1; } return x; }", 403, 44),
    (
        b"fn main(): int { if true { var x: int = 1; } else if x == 1 { } return 0; }",
        403,
        53,
    ),
    (b"fn main(): int { print x; return 0; }", 403, 23),
    (b"fn main(): int { return f[]; }", 404, 24),
    (b"fn main(): bool { }", 406, 3),
];

const OF_TYPING: [Diagnosed; 14] = [
    (b"fn main(): int { return 1 + true; }", 501, 26),
    (
        b"fn main(): int { var b: bool = true; var a: int = 1; return a + (b = 1); }",
        501,
        62,
    ),
    (
        b"fn f(var a: bool): int { return 0; } fn main(): int { return f[1 + true]; }",
        501,
        65,
    ),
    (
        b"fn f(var a: int): int { return a; } fn main(): int { return f[]; }",
        502,
        60,
    ),
    (
        b"fn f(var a: int): int { return a; } fn main(): int { return f[true]; }",
        503,
        62,
    ),
    (b"fn main(): int { if 1 { } return 0; }", 504, 17),
    (b"fn main(): int { return true; }", 505, 17),
    (b"fn main(): int {\nreturn true;\n\n}", 505, 17),
    (b"fn main(): int { var a: int = true; return a; }", 506, 21),
    (
        b"fn main(): int { var a: int = 1; a = true; return a; }",
        506,
        35,
    ),
    (b"fn main(): int { print true; return 0; }", 507, 17),
    (
        b"fn f(): bool { print 1; } fn main(): int { print f[]; return 0; }",
        507,
        43,
    ),
    (b"fn main(): int { print true + 1; return 0; }", 501, 28),
    (
        b"fn main(): int { if true { } else if 1 { } return 0; }",
        504,
        34,
    ),
];

// Sources without a diagnostic up to types, and how many rows they have.
const ACCEPTED: [(&[u8], usize); 6] = [
    (b"fn main(): int { return 8-3-2; }", 9),
    (b"fn main(): int { }", 3),
    (
        b"fn main(): int { return f[1]; } fn f(var f: int): int { var g: int = f; { var f: int = g; g = f; } return f; }",
        20,
    ),
    (b"fn main(): int { if true { } else { } return 0; }", 9),
    (b"fn main(): int { if true { } else if true { } }", 9),
    (b"fn main(): int { print 5; print -6; return 7; }", 10),
];

// Why a source is refused, if it is.
fn refusal(crew: &impl Passes, source: &[u8]) -> Option<Refusal> {
    match front(crew, source) {
        Ok(_) => None,
        Err(refusal) => Some(refusal),
    }
}

// Sees that each source has its diagnostic, and no other answer.
fn expect<R: Threads + Abort + Sync>(
    rt: &R,
    alloc: Global,
    plan: (u32, u32),
    sources: &[Diagnosed],
) -> Result<(), Fail> {
    let crew = at(rt, alloc, plan, &OpenGate)?;
    for (source, code, place) in sources {
        let told = Refusal::Diagnostic {
            code: *code,
            at: *place,
        };
        assert!(rt; refusal(&crew, source) == Some(told));
    }
    Ok(())
}

#[test]
fn each_phase_has_its_diagnostics(rt: HostRuntime) -> Result<(), Fail> {
    for phase in [
        LEXICAL.as_slice(),
        SYNTACTIC.as_slice(),
        OF_SHAPE.as_slice(),
        OF_SCOPE.as_slice(),
        OF_TYPING.as_slice(),
    ] {
        expect(&rt, rt.alloc(), (1, 1024), phase)?;
        expect(&rt, rt.alloc(), (4, 1), phase)?;
    }
    Ok(())
}

#[test]
fn one_source_of_each_phase_for_every_plan(rt: HostRuntime) -> Result<(), Fail> {
    let sources = [
        LEXICAL[0],
        SYNTACTIC[0],
        OF_SHAPE[0],
        OF_SCOPE[3],
        OF_TYPING[1],
    ];
    for &plan in PLANS {
        expect(&rt, rt.alloc(), plan, &sources)?;
    }
    Ok(())
}

#[test]
fn sources_have_rows(rt: HostRuntime) -> Result<(), Fail> {
    let crew = at(&rt, rt.alloc(), (4, 1), &OpenGate)?;
    for (source, count) in ACCEPTED {
        match front(&crew, source) {
            Ok(found) => assert_eq!(rt; found.rows.len(), count),
            Err(_) => assert!(rt; false),
        }
    }
    Ok(())
}

// Why this many spaces and more are refused.
fn spaces_are_refused<R: Threads + Sync>(
    rt: &R,
    alloc: Global,
    count: usize,
) -> Result<Option<Refusal>, Fail> {
    let crew = at(rt, alloc, (4, 1024), &OpenGate)?;
    let spaces = vec![in alloc; b' '; count]?;
    Ok(refusal(&crew, &spaces))
}

#[test]
fn sources_have_a_limit(rt: HostRuntime) -> Result<(), Fail> {
    let told = spaces_are_refused(&rt, rt.alloc(), 1_048_576)?;
    let no_main = Refusal::Diagnostic {
        code: 405,
        at: 1_048_576,
    };
    assert!(rt; told == Some(no_main));
    let told = spaces_are_refused(&rt, rt.alloc(), MOST_SOURCE + 1)?;
    let limit = Refusal::Limit {
        code: 601,
        at: 16_777_216,
        bytes: 16_777_217,
    };
    assert!(rt; told == Some(limit));
    Ok(())
}

// A text, and how many times it stands in a row.
type Copies = (&'static [u8], u32);

// A function main with these texts in turn.
fn repeated(alloc: Global, texts: &[Copies]) -> Result<Vec<u8>, Fail> {
    let mut text = b"fn main(): int { ".to_vec(alloc)?;
    for &(copy, count) in texts {
        for _ in 0..count {
            text.extend_from_slice(copy)?;
        }
    }
    text.extend_from_slice(b"return x; }")?;
    Ok(text)
}

// A function main that declares this many variables, each of another name, and uses the last one.
pub(crate) fn many_names(alloc: Global, count: u32) -> Result<Vec<u8>, Fail> {
    let mut text = b"fn main(): int { var x: int = 0; ".to_vec(alloc)?;
    for n in 0..count {
        let declaration = format!(in alloc; "var x{n}: int = x; ")?;
        text.extend_from_slice(declaration.as_bytes())?;
    }
    text.extend_from_slice(b"return x; }")?;
    Ok(text)
}

// Two names of a thousand bytes that differ in the last one, of which the second is used and not declared.
fn long_names(alloc: Global) -> Result<Vec<u8>, Fail> {
    let name = vec![in alloc; b'n'; 999]?;
    let mut text = b"fn main(): int { var ".to_vec(alloc)?;
    text.extend_from_slice(name.as_slice())?;
    text.extend_from_slice(b"a: int = 1; return ")?;
    text.extend_from_slice(name.as_slice())?;
    text.extend_from_slice(b"b; }")?;
    Ok(text)
}

// Why a source that is made is refused, if it is, with four workers.
fn refused<R: Threads + Sync>(
    rt: &R,
    alloc: Global,
    source: &[u8],
) -> Result<Option<Refusal>, Fail> {
    let crew = at(rt, alloc, (4, 1024), &OpenGate)?;
    Ok(refusal(&crew, source))
}

const OUTER: Copies = (b"var x: int = 1; ", 1);

#[test]
fn names_in_great_numbers(rt: HostRuntime) -> Result<(), Fail> {
    let alloc = rt.alloc();
    let nested = repeated(
        alloc,
        &[OUTER, (b"{ var x: int = x; ", 1_000), (b"} ", 1_000)],
    )?;
    assert!(rt; refused(&rt, alloc, &nested)?.is_none());
    let apart = repeated(alloc, &[OUTER, (b"{ var x: int = x; } ", 20_000)])?;
    assert!(rt; refused(&rt, alloc, &apart)?.is_none());
    let many = many_names(alloc, 20_000)?;
    assert!(rt; refused(&rt, alloc, &many)?.is_none());
    Ok(())
}

#[test]
fn the_first_fault_of_many_names(rt: HostRuntime) -> Result<(), Fail> {
    let alloc = rt.alloc();
    let again = repeated(
        alloc,
        &[
            OUTER,
            (b"{ var x: int = x; } ", 20_000),
            (b"var x: int = 2; ", 1),
        ],
    )?;
    let declared_twice = Refusal::Diagnostic {
        code: 402,
        at: 400_037,
    };
    assert!(rt; refused(&rt, alloc, &again)? == Some(declared_twice));
    let long = long_names(alloc)?;
    let undeclared = Refusal::Diagnostic {
        code: 403,
        at: 1_039,
    };
    assert!(rt; refused(&rt, alloc, &long)? == Some(undeclared));
    Ok(())
}

// A function main that calls itself with this many arguments and one more.
fn many_arguments(alloc: Global, count: u32) -> Result<Vec<u8>, Fail> {
    let mut text = b"fn main(): int { return main[".to_vec(alloc)?;
    for _ in 0..count {
        text.extend_from_slice(b"1,")?;
    }
    text.extend_from_slice(b"1]; }")?;
    Ok(text)
}

#[test]
fn many_arguments_are_too_many(rt: HostRuntime) -> Result<(), Fail> {
    let source = many_arguments(rt.alloc(), 99_999)?;
    let too_many = Refusal::Diagnostic { code: 502, at: 24 };
    assert!(rt; refused(&rt, rt.alloc(), &source)? == Some(too_many));
    Ok(())
}
