// What is left to do where a program runs.

ghost use Rattle.std.specs.Prelude.{◌≡◌, ◌+◌};
ghost use Rattle.source_meaning.specs.Scope.{variables_in};
ghost use Rattle.tree_interpreter.specs.Trees.{stmt_of, stmts_of};
ghost use Rattle.tree_interpreter.specs.Numbering.{numbers, numbers_all, next_in, joined};

use crate::names::{Named, Names};
use crate::numbering::{Entry, next_number, parts_of};
use crate::trees::{Args, Expr, Stmt, Stmts};
use source_meaning::{BinaryOp, UnaryOp};
use std::alloc::{AllocError, Global};

/// A statement, with its numbering.
#[derive(Clone, Copy)]
pub(crate) struct Placed<'a> {
    pub(crate) statement: &'a Stmt,
    pub(crate) numbering: &'a [Entry],
    ghost numbered: { numbering.now ≡ numbers (next_in numbering.now) (stmt_of statement.now) },
}

impl<'a> Placed<'a> {
    /// How many variables were declared before the statement.
    pub(crate) fn next(&self) -> u32
        ensures { result ≡ next_in self.now.numbering.now }
    {
        next_number(self.numbering)
    }
}

/// Statements, one after the other, with their numbering.
#[derive(Clone, Copy)]
pub(crate) struct PlacedAll<'a> {
    pub(crate) statements: &'a Stmts,
    pub(crate) numbering: &'a [Entry],
    ghost numbered: { numbering.now ≡ numbers_all (next_in numbering.now) (stmts_of statements.now) },
}

/// The statements of an `if` and its `else`, with their numbering.
#[derive(Clone, Copy)]
pub(crate) struct Branches<'a> {
    pub(crate) then: &'a Stmt,
    pub(crate) otherwise: &'a Stmt,
    pub(crate) numbering: &'a [Entry],
    ghost numbered: { numbering.now ≡ joined (next_in numbering.now) (numbers (next_in numbering.now) (stmt_of then.now))
        (numbers (next_in numbering.now + variables_in (stmt_of then.now)) (stmt_of otherwise.now)) },
}

impl<'a> Branches<'a> {
    ghost use Rattle.tree_interpreter.specs.Resuming.{IsChosen};

    /// The statement that runs where the condition is true.
    fn then(self) -> Placed<'a>
        ensures { (result.statement.now ≡ self.entry.then.now) × (next_in result.numbering.now ≡ next_in self.entry.numbering.now) }
    {
        Placed {
            statement: self.then,
            numbering: parts_of(self.numbering).0,
        }
    }

    /// The statement that runs where the condition is false.
    fn otherwise(self) -> Placed<'a>
        ensures { (result.statement.now ≡ self.entry.otherwise.now) × (next_in result.numbering.now ≡ next_in self.entry.numbering.now + variables_in (stmt_of self.entry.then.now)) }
    {
        Placed {
            statement: self.otherwise,
            numbering: parts_of(self.numbering).1,
        }
    }

    /// The statement that runs behind a condition of this value.
    pub(crate) fn chosen(self, value: u32) -> Placed<'a>
        ensures { IsChosen self.entry value result }
    {
        if value == 0 {
            self.otherwise()
        } else {
            self.then()
        }
    }
}

/// A loop that may make this many more turns.
#[derive(Clone, Copy)]
pub(crate) struct Loop<'a> {
    pub(crate) condition: &'a Expr,
    pub(crate) body: Placed<'a>,
    pub(crate) turns: u64,
}

/// An open call: how many more may be opened in it, the bytes of the stack that are left, and its variables in
/// scope with the values of all its variables.
#[derive(Drop)]
pub(crate) struct OpenCall<'a> {
    pub(crate) calls: u64,
    pub(crate) left: u32,
    pub(crate) names: Names<'a>,
    pub(crate) table: Vec<u32>,
}

/// A step that is left to do. Most take the value that was computed last.
#[derive(Drop)]
pub(crate) enum Rest<'a> {
    /// Computes an expression.
    Evaluate(&'a Expr),
    /// Applies an operator to the value.
    Unary(UnaryOp),
    /// The value is the left side: computes the right side.
    Right {
        op: BinaryOp,
        right: &'a Expr,
    },
    /// The value is the right side: applies the operator.
    Binary {
        op: BinaryOp,
        left: u32,
    },
    /// The value is the left side of `&&`.
    And(&'a Expr),
    /// The value is the left side of `||`.
    Or(&'a Expr),
    /// Gives the value to the variable of a number.
    Store(Option<u32>),
    /// The value is the next argument of a call.
    Argument {
        name: &'a Vec<u8>,
        values: Vec<u32>,
        rest: &'a Args,
    },
    /// The value is the first one of the variable of a number.
    Initialize(u32),
    /// The value is that of a statement.
    Discard,
    /// Runs statements.
    RunAll(PlacedAll<'a>),
    /// Brings a variable into scope.
    Declare(Named<'a>),
    /// The innermost variable goes out of scope.
    Forget,
    /// The value is the condition of an `if`.
    If(Placed<'a>),
    /// The value is the condition of an `if` with an `else`.
    IfElse(Branches<'a>),
    /// The value is the condition of a loop.
    Turn(Loop<'a>),
    /// Computes the condition of a loop again.
    Again(Loop<'a>),
    /// Runs a statement.
    Run(Placed<'a>),
    /// Returns the value from the call.
    Return,
    /// Prints the value.
    Print,
    /// Goes on in the call that was open before.
    Caller(OpenCall<'a>),
}

/// The steps that are left to do, the next one last.
#[derive(Drop)]
pub(crate) struct Rests<'a> {
    all: Vec<Rest<'a>>,
}

impl<'a> Rests<'a> {
    ghost use Rattle.std.specs.Prelude.{◌≡◌, [], ◌∷◌, OnOk, MatchOption};
    ghost use Rattle.tree_interpreter.specs.Resuming.{stacked};
    ghost use Rattle.tree_interpreter.specs.Walking.{Follows};

    /// Nothing.
    pub(crate) fn new(alloc: Global) -> Rests<'a>
        ensures { stacked result ≡ [] }
    {
        Rests {
            all: Vec::new(alloc),
        }
    }

    /// Puts a step before all others.
    #[inline(always)]
    pub(crate) fn push(&mut self, rest: Rest<'a>) -> Result<(), AllocError>
        ensures { OnOk result (stacked self.new ≡ rest.entry ∷ stacked self.old) }
    {
        self.all.push(rest)?;
        Ok(())
    }

    /// Puts statements before all steps, where there are any.
    #[inline(always)]
    pub(crate) fn follow(&mut self, placed: PlacedAll<'a>) -> Result<(), AllocError>
        ensures { OnOk result (Follows self.old placed.entry self.new) }
    {
        match placed.statements {
            Stmts::Empty => Ok(()),
            Stmts::Next { .. } => {
                self.push(Rest::RunAll(placed))?;
                Ok(())
            }
        }
    }

    /// Takes the next step.
    #[inline(always)]
    pub(crate) fn pop(&mut self) -> Option<Rest<'a>>
        ensures { MatchOption result ((stacked self.old ≡ []) × (stacked self.new ≡ [])) (λ rest. stacked self.old ≡ rest ∷ stacked self.new) }
    {
        self.all.pop()
    }
}
