// The syntax trees of programs, as values. Each node keeps its own token by that token's number in the text.

use source_meaning::{BinaryOp, UnaryOp, ValueType};

/// An expression.
#[cycle(expr)]
#[derive(Drop)]
pub enum Expr {
    /// A number, as a 32-bit word.
    Num {
        at: u32,
        value: u32,
    },
    Truth {
        at: u32,
        value: bool,
    },
    /// A variable's value.
    Name {
        at: u32,
        name: Vec<u8>,
    },
    /// The value of a function, of arguments that are computed from left to right.
    Call {
        at: u32,
        name: Vec<u8>,
        args: Args,
    },
    Unary {
        at: u32,
        op: UnaryOp,
        operand: Box<Expr>,
    },
    Binary {
        at: u32,
        op: BinaryOp,
        left: Box<Expr>,
        right: Box<Expr>,
    },
    /// `&&`, whose right side is computed only where the left one is true.
    And {
        at: u32,
        left: Box<Expr>,
        right: Box<Expr>,
    },
    /// `||`, whose right side is computed only where the left one is false.
    Or {
        at: u32,
        left: Box<Expr>,
        right: Box<Expr>,
    },
    /// The right side's value, which the variable that the left side names has from then on.
    Assign {
        at: u32,
        left: Box<Expr>,
        right: Box<Expr>,
    },
}

/// The arguments of a call.
#[cycle(expr)]
#[derive(Drop)]
pub enum Args {
    Done,
    Then { first: Box<Expr>, rest: Box<Args> },
}

/// A statement. The parts of `if`, `else` and `while` are blocks, and an `if` may stand behind an `else`.
#[cycle(stmt)]
#[derive(Drop)]
pub enum Stmt {
    /// The declaration of a variable, with its first value.
    Var {
        at: u32,
        name: Vec<u8>,
        kind: ValueType,
        value: Expr,
    },
    If {
        at: u32,
        condition: Expr,
        then: Box<Stmt>,
    },
    IfElse {
        at: u32,
        condition: Expr,
        then: Box<Stmt>,
        otherwise: Box<Stmt>,
    },
    /// An `else` without an `if`, which no program without a diagnostic has. It does nothing.
    StrayElse {
        at: u32,
        body: Box<Stmt>,
    },
    While {
        at: u32,
        condition: Expr,
        body: Box<Stmt>,
    },
    Return {
        at: u32,
        value: Expr,
    },
    Block {
        at: u32,
        body: Stmts,
    },
    /// An expression that is computed for what it does.
    Eval {
        value: Expr,
    },
    /// An integer that is printed.
    Print {
        at: u32,
        value: Expr,
    },
}

/// The statements of a block, one after the other.
#[cycle(stmt)]
#[derive(Drop)]
pub enum Stmts {
    Empty,
    Next { first: Box<Stmt>, rest: Box<Stmts> },
}

/// A parameter of a function.
#[derive(Drop)]
pub struct Param {
    pub at: u32,
    pub name: Vec<u8>,
    pub kind: ValueType,
}

/// A function. Its body is a block.
#[derive(Drop)]
pub struct Function {
    pub at: u32,
    pub name: Vec<u8>,
    pub params: Vec<Param>,
    pub kind: ValueType,
    pub body: Stmt,
}

/// A program: its functions, in the order of the text.
#[derive(Drop)]
pub struct Program {
    pub functions: Vec<Function>,
}
