// The parts of a body that are still to be looked at, where its frame is measured and its variables are
// numbered.

ghost use Rattle.std.specs.Prelude.{◌≡◌, [], ◌∷◌, OnOk, MatchOption};
ghost use Rattle.tree_interpreter.specs.Parts.{listed};

use crate::trees::{Args, Expr, Stmt, Stmts};
use std::alloc::{AllocError, Global};

/// A part of a body, and how many values are kept while an expression or the arguments of a call are computed.
/// `Join` stands behind two parts that are numbered as one.
#[derive(Clone, Copy)]
pub(crate) enum Part<'a> {
    Expr { e: &'a Expr, kept: u32 },
    Args { args: &'a Args, kept: u32 },
    Stmt(&'a Stmt),
    Stmts(&'a Stmts),
    Join { from: usize },
}

/// The parts that are left, the next one last.
#[derive(Drop)]
pub(crate) struct Parts<'a> {
    all: Vec<Part<'a>>,
}

impl<'a> Parts<'a> {
    /// Nothing.
    pub(crate) fn new(alloc: Global) -> Parts<'a>
        ensures { listed result ≡ [] }
    {
        Parts {
            all: Vec::new(alloc),
        }
    }

    /// Puts a part before all others.
    pub(crate) fn push(&mut self, part: Part<'a>) -> Result<(), AllocError>
        ensures { OnOk result (listed self.new ≡ part.entry ∷ listed self.old) }
    {
        self.all.push(part)?;
        Ok(())
    }

    /// Takes the next part.
    pub(crate) fn pop(&mut self) -> Option<Part<'a>>
        ensures { MatchOption result ((listed self.old ≡ []) × (listed self.new ≡ [])) (λ part. listed self.old ≡ part ∷ listed self.new) }
    {
        self.all.pop()
    }
}
