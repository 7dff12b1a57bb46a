//! Programs whose outcomes are known.

use crate::trees::{Node, program_of};
use source_meaning::BinaryOp;
use std::alloc::Global;
use std::test::Fail;
use tree_interpreter::{Expr, Function, Outcome, Program, Stmt, Stmts, walk};

const STACK: u32 = 1 << 20;

/// `fn main(): int { var x: int = 1; return x + (x = 3); }`
const LEFT_BEFORE_RIGHT: &[Node] = &[
    Node::Num(1),
    Node::Var(b"x"),
    Node::Name(b"x"),
    Node::Name(b"x"),
    Node::Num(3),
    Node::Assign,
    Node::Binary(BinaryOp::Plus),
    Node::Return,
    Node::Block(2),
    Node::Function(b"main", &[]),
];

/// `fn f(): int { return f[]; } fn main(): int { return f[]; }`
const WITHOUT_END: &[Node] = &[
    Node::Call(b"f", 0),
    Node::Return,
    Node::Block(1),
    Node::Function(b"f", &[]),
    Node::Call(b"f", 0),
    Node::Return,
    Node::Block(1),
    Node::Function(b"main", &[]),
];

/// `fn main(): int { while true { } }`
const ROUND_AND_ROUND: &[Node] = &[
    Node::True,
    Node::Block(0),
    Node::While,
    Node::Block(1),
    Node::Function(b"main", &[]),
];

/// `fn f(var a: int, var b: int): int { return a - b; } fn main(): int { var x: int = 1; return f[x, x = 3]; }`
const FIRST_ARGUMENT_FIRST: &[Node] = &[
    Node::Name(b"a"),
    Node::Name(b"b"),
    Node::Binary(BinaryOp::Minus),
    Node::Return,
    Node::Block(1),
    Node::Function(b"f", &[b"a", b"b"]),
    Node::Num(1),
    Node::Var(b"x"),
    Node::Name(b"x"),
    Node::Name(b"x"),
    Node::Num(3),
    Node::Assign,
    Node::Call(b"f", 2),
    Node::Return,
    Node::Block(2),
    Node::Function(b"main", &[]),
];

/// `fn f0(var a: int): int { var b: int = a * 496 + 200; if b > a { b = b - 46; } else { b = b ^ 46; } return b; }`, and
/// `fn f1(var a: int): int { var b: int = f0[a + 195] * 312; if b > a { b = b - 216; } else { b = b ^ 216; } return b; }`, and
/// `fn main(): int { return f1[1]; }`
const TWO_STEPS: &[Node] = &[
    Node::Name(b"a"),
    Node::Num(496),
    Node::Binary(BinaryOp::Times),
    Node::Num(200),
    Node::Binary(BinaryOp::Plus),
    Node::Var(b"b"),
    Node::Name(b"b"),
    Node::Name(b"a"),
    Node::Binary(BinaryOp::Greater),
    Node::Name(b"b"),
    Node::Name(b"b"),
    Node::Num(46),
    Node::Binary(BinaryOp::Minus),
    Node::Assign,
    Node::Eval,
    Node::Block(1),
    Node::Name(b"b"),
    Node::Name(b"b"),
    Node::Num(46),
    Node::Binary(BinaryOp::BitwiseXor),
    Node::Assign,
    Node::Eval,
    Node::Block(1),
    Node::IfElse,
    Node::Name(b"b"),
    Node::Return,
    Node::Block(3),
    Node::Function(b"f0", &[b"a"]),
    Node::Name(b"a"),
    Node::Num(195),
    Node::Binary(BinaryOp::Plus),
    Node::Call(b"f0", 1),
    Node::Num(312),
    Node::Binary(BinaryOp::Times),
    Node::Var(b"b"),
    Node::Name(b"b"),
    Node::Name(b"a"),
    Node::Binary(BinaryOp::Greater),
    Node::Name(b"b"),
    Node::Name(b"b"),
    Node::Num(216),
    Node::Binary(BinaryOp::Minus),
    Node::Assign,
    Node::Eval,
    Node::Block(1),
    Node::Name(b"b"),
    Node::Name(b"b"),
    Node::Num(216),
    Node::Binary(BinaryOp::BitwiseXor),
    Node::Assign,
    Node::Eval,
    Node::Block(1),
    Node::IfElse,
    Node::Name(b"b"),
    Node::Return,
    Node::Block(3),
    Node::Function(b"f1", &[b"a"]),
    Node::Num(1),
    Node::Call(b"f1", 1),
    Node::Return,
    Node::Block(1),
    Node::Function(b"main", &[]),
];

/// `fn f0(var a: int): int { var b: int = a * 496 + 200; if b > a { b = b - 46; } else { b = b ^ 46; } return b; } fn main(): int { return f0[1]; }`
const ONE_STEP: &[Node] = &[
    Node::Name(b"a"),
    Node::Num(496),
    Node::Binary(BinaryOp::Times),
    Node::Num(200),
    Node::Binary(BinaryOp::Plus),
    Node::Var(b"b"),
    Node::Name(b"b"),
    Node::Name(b"a"),
    Node::Binary(BinaryOp::Greater),
    Node::Name(b"b"),
    Node::Name(b"b"),
    Node::Num(46),
    Node::Binary(BinaryOp::Minus),
    Node::Assign,
    Node::Eval,
    Node::Block(1),
    Node::Name(b"b"),
    Node::Name(b"b"),
    Node::Num(46),
    Node::Binary(BinaryOp::BitwiseXor),
    Node::Assign,
    Node::Eval,
    Node::Block(1),
    Node::IfElse,
    Node::Name(b"b"),
    Node::Return,
    Node::Block(3),
    Node::Function(b"f0", &[b"a"]),
    Node::Num(1),
    Node::Call(b"f0", 1),
    Node::Return,
    Node::Block(1),
    Node::Function(b"main", &[]),
];

/// Programs, the bound of steps, the bytes of the stack, and the outcome.
const OUTCOMES: &[(&[Node], u64, u32, Outcome)] = &[
    (LEFT_BEFORE_RIGHT, 10, STACK, Outcome::Ended(4)),
    (LEFT_BEFORE_RIGHT, 1, STACK, Outcome::Ended(4)),
    (LEFT_BEFORE_RIGHT, 0, STACK, Outcome::More),
    (LEFT_BEFORE_RIGHT, 10, 15, Outcome::Deep),
    (WITHOUT_END, 100, 1024, Outcome::Deep),
    (WITHOUT_END, 63, 1024, Outcome::More),
    (WITHOUT_END, 100_000, STACK, Outcome::Deep),
    (WITHOUT_END, 60_000, STACK, Outcome::More),
    (ROUND_AND_ROUND, 1000, STACK, Outcome::More),
    (FIRST_ARGUMENT_FIRST, 10, STACK, Outcome::Ended(-2)),
    (ONE_STEP, 10, STACK, Outcome::Ended(650)),
    (TWO_STEPS, 10, STACK, Outcome::Ended(30_379_224)),
];

/// What a walk of a program comes to.
fn outcome_of(alloc: Global, nodes: &[Node], steps: u64, stack: u32) -> Option<Outcome> {
    let program = program_of(alloc, nodes)?;
    walk(alloc, &program, steps, stack, &mut Vec::new(alloc)).ok()
}

#[test]
fn known_outcomes(rt: HostRuntime) {
    for &(nodes, steps, stack, outcome) in OUTCOMES {
        let found = outcome_of(rt.alloc(), nodes, steps, stack);
        assert!(rt; found == Some(outcome), "{outcome:?}");
    }
}

/// How deep expressions are nested: an even number.
const DEPTH: u32 = 100_000;

/// The same node this many times, behind others.
fn repeat(nodes: &mut Vec<Node>, node: Node, count: u32) -> Option<()> {
    for _ in 0..count {
        nodes.push(node).ok()?;
    }
    Some(())
}

/// `fn main(): int { return - .. - (1 - (1 - (.. - 1))); }`, with as many signs as differences.
fn nested(alloc: Global) -> Option<Vec<Node>> {
    let mut nodes = Vec::new(alloc);
    repeat(&mut nodes, Node::Num(1), DEPTH + 1)?;
    repeat(&mut nodes, Node::Binary(BinaryOp::Minus), DEPTH)?;
    repeat(&mut nodes, Node::Negate, DEPTH)?;
    nodes.push(Node::Return).ok()?;
    nodes.push(Node::Block(1)).ok()?;
    nodes.push(Node::Function(b"main", &[])).ok()?;
    Some(nodes)
}

/// The value that the last function's one statement returns.
fn value_of_last(program: Program) -> Option<Expr> {
    let mut functions = program.functions;
    let Function { body, .. } = functions.pop()?;
    let Stmt::Block {
        body: statements,
        ..
    } = body
    else {
        return None;
    };
    let Stmts::Next { first, .. } = statements else {
        return None;
    };
    match Box::into_inner(first) {
        Stmt::Return { value, .. } => Some(value),
        _ => None,
    }
}

/// Lets go of a deep expression from the outside, since a tree as a whole is let go by recursion.
fn take_apart(value: Expr) {
    let mut rest = value;
    for _ in 0..2 * DEPTH {
        rest = match rest {
            Expr::Unary { operand, .. } => Box::into_inner(operand),
            Expr::Binary { right, .. } => Box::into_inner(right),
            other => other,
        };
    }
}

/// What a walk of a deep program comes to.
fn deep_outcome(alloc: Global) -> Option<Outcome> {
    let nodes = nested(alloc)?;
    let program = program_of(alloc, &nodes)?;
    let outcome = walk(alloc, &program, 1, STACK, &mut Vec::new(alloc)).ok();
    if let Some(returned) = value_of_last(program) {
        take_apart(returned);
    }
    outcome
}

#[test]
fn far_inside(rt: HostRuntime) {
    assert!(rt; deep_outcome(rt.alloc()) == Some(Outcome::Ended(1)));
}

/// `fn f(var x: int): int { if x == 1 { print 10; } else if x == 2 { print 20; } else { print 30; } print x; return x; }
/// fn main(): int { print f[1]; print f[2] + f[3]; print -1; return 4; }`
const CHAIN: &[Node] = &[
    Node::Name(b"x"),
    Node::Num(1),
    Node::Binary(BinaryOp::Equal),
    Node::Num(10),
    Node::Print,
    Node::Block(1),
    Node::Name(b"x"),
    Node::Num(2),
    Node::Binary(BinaryOp::Equal),
    Node::Num(20),
    Node::Print,
    Node::Block(1),
    Node::Num(30),
    Node::Print,
    Node::Block(1),
    Node::IfElse,
    Node::IfElse,
    Node::Name(b"x"),
    Node::Print,
    Node::Name(b"x"),
    Node::Return,
    Node::Block(3),
    Node::Function(b"f", &[b"x"]),
    Node::Num(1),
    Node::Call(b"f", 1),
    Node::Print,
    Node::Num(2),
    Node::Call(b"f", 1),
    Node::Num(3),
    Node::Call(b"f", 1),
    Node::Binary(BinaryOp::Plus),
    Node::Print,
    Node::Num(1),
    Node::Negate,
    Node::Print,
    Node::Num(4),
    Node::Return,
    Node::Block(4),
    Node::Function(b"main", &[]),
];

/// `fn main(): int { while true { print 7; } }`
const LOOP: &[Node] = &[
    Node::True,
    Node::Num(7),
    Node::Print,
    Node::Block(1),
    Node::While,
    Node::Block(1),
    Node::Function(b"main", &[]),
];

/// `fn f(var n: int): int { print n; return n * 10; } fn g(var a: int, var b: int): int { print a - b; return a + b; }
/// fn main(): int { print g[f[1], f[f[2] + 1]]; return f[3]; }`
const IN_ARGUMENTS: &[Node] = &[
    Node::Name(b"n"),
    Node::Print,
    Node::Name(b"n"),
    Node::Num(10),
    Node::Binary(BinaryOp::Times),
    Node::Return,
    Node::Block(2),
    Node::Function(b"f", &[b"n"]),
    Node::Name(b"a"),
    Node::Name(b"b"),
    Node::Binary(BinaryOp::Minus),
    Node::Print,
    Node::Name(b"a"),
    Node::Name(b"b"),
    Node::Binary(BinaryOp::Plus),
    Node::Return,
    Node::Block(2),
    Node::Function(b"g", &[b"a", b"b"]),
    Node::Num(1),
    Node::Call(b"f", 1),
    Node::Num(2),
    Node::Call(b"f", 1),
    Node::Num(1),
    Node::Binary(BinaryOp::Plus),
    Node::Call(b"f", 1),
    Node::Call(b"g", 2),
    Node::Print,
    Node::Num(3),
    Node::Call(b"f", 1),
    Node::Return,
    Node::Block(2),
    Node::Function(b"main", &[]),
];

/// `fn f(var n: int): int { print n; return f[n + 1]; } fn main(): int { return f[1]; }`: each call takes 16 bytes.
const DEEPER: &[Node] = &[
    Node::Name(b"n"),
    Node::Print,
    Node::Name(b"n"),
    Node::Num(1),
    Node::Binary(BinaryOp::Plus),
    Node::Call(b"f", 1),
    Node::Return,
    Node::Block(2),
    Node::Function(b"f", &[b"n"]),
    Node::Num(1),
    Node::Call(b"f", 1),
    Node::Return,
    Node::Block(1),
    Node::Function(b"main", &[]),
];

/// `fn f(): int { print 5; } fn main(): int { print -2147483647 - 1; print 0; print 2147483647; print f[] + 1; }`
const EDGES: &[Node] = &[
    Node::Num(5),
    Node::Print,
    Node::Block(1),
    Node::Function(b"f", &[]),
    Node::Num(2147483647),
    Node::Negate,
    Node::Num(1),
    Node::Binary(BinaryOp::Minus),
    Node::Print,
    Node::Num(0),
    Node::Print,
    Node::Num(2147483647),
    Node::Print,
    Node::Call(b"f", 0),
    Node::Num(1),
    Node::Binary(BinaryOp::Plus),
    Node::Print,
    Node::Block(4),
    Node::Function(b"main", &[]),
];

const PRINTS: &[(&[Node], u64, u32, Outcome, &[i32])] = &[
    (
        CHAIN,
        10,
        STACK,
        Outcome::Ended(4),
        &[10, 1, 1, 20, 2, 30, 3, 5, -1],
    ),
    (CHAIN, 0, STACK, Outcome::More, &[]),
    (CHAIN, 10, 31, Outcome::Deep, &[]),
    (LOOP, 3, STACK, Outcome::More, &[7, 7, 7]),
    (LOOP, 0, STACK, Outcome::More, &[]),
    (
        IN_ARGUMENTS,
        10,
        STACK,
        Outcome::Ended(30),
        &[1, 2, 21, -200, 220, 3],
    ),
    (DEEPER, 10, 80, Outcome::Deep, &[1, 2, 3, 4]),
    (DEEPER, 10, 79, Outcome::Deep, &[1, 2, 3]),
    (DEEPER, 5, 80, Outcome::Deep, &[1, 2, 3, 4]),
    (DEEPER, 4, 80, Outcome::More, &[1, 2, 3]),
    (
        EDGES,
        10,
        STACK,
        Outcome::Ended(0),
        &[-2147483648, 0, 2147483647, 5, 1],
    ),
];

fn prints_of(alloc: Global, nodes: &[Node], steps: u64, stack: u32) -> Option<(Outcome, Vec<i32>)> {
    let program = program_of(alloc, nodes)?;
    let mut output = Vec::new(alloc);
    let outcome = walk(alloc, &program, steps, stack, &mut output).ok()?;
    Some((outcome, output))
}

#[test]
fn known_prints(rt: HostRuntime) {
    for &(nodes, steps, stack, outcome, numbers) in PRINTS {
        let found = prints_of(rt.alloc(), nodes, steps, stack);
        assert!(rt;
            found.is_some_and(|found| found.0 == outcome && found.1.as_slice() == numbers),
            "{outcome:?} {numbers:?}"
        );
    }
}

/// `x == n` and `{ print n; }`.
fn branch(nodes: &mut Vec<Node>, number: u32) -> Option<()> {
    for node in [
        Node::Name(b"x"),
        Node::Num(number),
        Node::Binary(BinaryOp::Equal),
        Node::Num(number),
        Node::Print,
        Node::Block(1),
    ] {
        nodes.push(node).ok()?;
    }
    Some(())
}

/// How many of the ifs of the long chain stand behind an else.
const ELSE_IFS: u32 = 1000;

/// `fn main(): int { var x: int = ..; if x == 0 { print 0; } else if x == 1 { print 1; } .. else { print -1; } return x; }`.
fn long_chain(alloc: Global, value: u32) -> Option<Vec<Node>> {
    let mut nodes = Vec::new(alloc);
    nodes.push(Node::Num(value)).ok()?;
    nodes.push(Node::Var(b"x")).ok()?;
    for number in 0..=ELSE_IFS {
        branch(&mut nodes, number)?;
    }
    for node in [Node::Num(1), Node::Negate, Node::Print, Node::Block(1)] {
        nodes.push(node).ok()?;
    }
    repeat(&mut nodes, Node::IfElse, ELSE_IFS + 1)?;
    for node in [
        Node::Name(b"x"),
        Node::Return,
        Node::Block(3),
        Node::Function(b"main", &[]),
    ] {
        nodes.push(node).ok()?;
    }
    Some(nodes)
}

#[test]
fn long_chains(rt: HostRuntime) -> Result<(), Fail> {
    for &(value, printed) in &[(0, 0), (500, 500), (1000, 1000), (1001, -1)] {
        let nodes = long_chain(rt.alloc(), value).ok_or("no memory")?;
        let found = prints_of(rt.alloc(), &nodes, 1, STACK);
        let outcome = Outcome::Ended(value.cast_signed());
        assert!(rt;
            found.is_some_and(|found| found.0 == outcome
                && found.1.as_slice() == [printed].as_slice()),
            "{value}"
        );
    }
    Ok(())
}
