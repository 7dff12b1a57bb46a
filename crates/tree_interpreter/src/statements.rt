// The interpreter's statements: each is done at once, or leaves steps for its parts.

ghost use Rattle.std.specs.Prelude.{◌≡◌, ◌+◌, ◌∷◌};
ghost use Rattle.tree_interpreter.specs.Trees.{expr_of, stmt_of, stmts_of};
ghost use Rattle.tree_interpreter.specs.Resuming.{stacked};
ghost use Rattle.tree_interpreter.specs.Numbering.{next_in};
ghost use Rattle.tree_interpreter.specs.Walking.{EvaluatesThen, Begins, Enters, Runs, RunsAll, Resumes};
ghost use Rattle.tree_interpreter.specs.declared.rests.Rest.TheVariants.{Again as NextTurn, Discard as Discarded, If as IfTrue, IfElse as Either, Initialize as Initialized, Return as Returned, Turn};

use crate::interpreter::{Stop, Walker};
use crate::names::Named;
use crate::numbering::{next_number, parts_of};
use crate::rests::{Branches, Loop, Placed, PlacedAll, Rest};
use crate::trees::{Expr, Stmt, Stmts};

impl<'a> Walker<'a> {
    /// Computes an expression for what it does.
    fn discard(&mut self, e: &'a Expr) -> Result<(), Stop>
        ensures { EvaluatesThen self.old (expr_of e.now) Discarded result self.new }
    {
        match self.call.assigned(e) {
            Some(_) => self.give(0),
            None => self.evaluate_then(e, Rest::Discard),
        }
    }

    /// Computes the first value of the variable of a number.
    fn initialize(&mut self, e: &'a Expr, number: u32) -> Result<(), Stop>
        ensures { EvaluatesThen self.old (expr_of e.now) (Initialized number) result self.new }
    {
        match self.call.simple(e) {
            Some(value) => {
                self.rests.push(Rest::Initialize(number))?;
                self.give(value)
            }
            None => self.evaluate_then(e, Rest::Initialize(number)),
        }
    }

    /// Computes a value, and returns it.
    fn give_back(&mut self, e: &'a Expr) -> Result<(), Stop>
        ensures { EvaluatesThen self.old (expr_of e.now) Returned result self.new }
    {
        match self.call.simple(e) {
            Some(value) => {
                self.value = value;
                self.leave()
            }
            None => self.evaluate_then(e, Rest::Return),
        }
    }

    /// Computes the condition of an `if`, and runs its statement if it is true.
    fn decide(&mut self, condition: &'a Expr, then: Placed<'a>) -> Result<(), Stop>
        ensures { EvaluatesThen self.old (expr_of condition.now) (IfTrue then.entry) result self.new }
    {
        match self.call.simple(condition) {
            Some(value) => {
                self.value = value;
                self.run_if(then)
            }
            None => self.evaluate_then(condition, Rest::If(then)),
        }
    }

    /// Computes the condition of an `if`, and runs its statement or that of its `else`.
    fn decide_between(&mut self, condition: &'a Expr, branches: Branches<'a>) -> Result<(), Stop>
        ensures { EvaluatesThen self.old (expr_of condition.now) (Either branches.entry) result self.new }
    {
        match self.call.simple(condition) {
            Some(value) => {
                self.value = value;
                self.choose(branches)
            }
            None => self.evaluate_then(condition, Rest::IfElse(branches)),
        }
    }

    /// Computes the condition of a loop, and goes round it if that is true.
    fn test(&mut self, looped: Loop<'a>) -> Result<(), Stop>
        ensures { EvaluatesThen self.old (expr_of looped.entry.condition.now) (Turn looped.entry) result self.new }
    {
        match self.call.simple(looped.condition) {
            Some(value) => {
                self.value = value;
                self.turn(looped)
            }
            None => self.evaluate_then(looped.condition, Rest::Turn(looped)),
        }
    }

    /// Runs statements: those that come first and are simple at once, and the others by steps.
    fn begin(&mut self, placed: PlacedAll<'a>) -> Result<(), Stop>
        ensures { Begins self.old (next_in placed.entry.numbering.now) (stmts_of placed.entry.statements.now) result self.new }
    {
        let left = self.call.leading(placed);
        self.rests.follow(left)?;
        self.give(0)
    }

    /// Runs a statement: a block's first ones at once, and what is left by steps.
    pub(crate) fn enter(&mut self, placed: Placed<'a>) -> Result<(), Stop>
        ensures { Enters self.old (next_in placed.entry.numbering.now) (stmt_of placed.entry.statement.now) result self.new }
    {
        match placed.statement {
            Stmt::Block { body, .. } => self.begin(PlacedAll {
                statements: body,
                numbering: placed.numbering,
            }),
            _ => {
                self.rests.push(Rest::Run(placed))?;
                Ok(())
            }
        }
    }

    /// Runs a statement.
    pub(crate) fn run(&mut self, placed: Placed<'a>) -> Result<(), Stop>
        ensures { Runs self.old (next_in placed.entry.numbering.now) (stmt_of placed.entry.statement.now) result self.new }
    {
        let numbering = placed.numbering;
        match placed.statement {
            Stmt::Var { value, .. } => self.initialize(value, placed.next()),
            Stmt::If {
                condition,
                then,
                ..
            } => self.decide(
                condition,
                Placed {
                    statement: then,
                    numbering,
                },
            ),
            Stmt::IfElse {
                condition,
                then,
                otherwise,
                ..
            } => self.decide_between(
                condition,
                Branches {
                    then,
                    otherwise,
                    numbering,
                },
            ),
            Stmt::StrayElse { .. } => self.give(0),
            Stmt::While {
                condition,
                body,
                ..
            } => self.test(Loop {
                condition,
                body: Placed {
                    statement: body,
                    numbering,
                },
                turns: self.turns,
            }),
            Stmt::Return { value, .. } => self.give_back(value),
            Stmt::Block { body, .. } => self.begin(PlacedAll {
                statements: body,
                numbering,
            }),
            Stmt::Eval { value } => self.discard(value),
            Stmt::Print { value, .. } => self.compute_then(value, Rest::Print),
        }
    }

    /// Runs statements, one after the other.
    fn run_next(&mut self, placed: PlacedAll<'a>) -> Result<(), Stop>
        ensures { RunsAll self.old (next_in placed.entry.numbering.now) (stmts_of placed.entry.statements.now) result self.new }
    {
        let (own, others) = parts_of(placed.numbering);
        match placed.statements {
            Stmts::Empty => self.give(0),
            Stmts::Next { first, rest } => match &**first {
                Stmt::Var { name, value, .. } => {
                    let number = next_number(own);
                    self.rests.push(Rest::Forget)?;
                    self.rests.push(Rest::RunAll(PlacedAll {
                        statements: rest,
                        numbering: others,
                    }))?;
                    self.rests.push(Rest::Declare(Named { name, number }))?;
                    self.initialize(value, number)
                }
                _ => {
                    self.rests.follow(PlacedAll {
                        statements: rest,
                        numbering: others,
                    })?;
                    self.run(Placed {
                        statement: first,
                        numbering: own,
                    })
                }
            },
        }
    }

    /// Runs statements, one after the other.
    pub(crate) fn run_all(&mut self, placed: PlacedAll<'a>) -> Result<(), Stop>
        ensures { RunsAll self.old (next_in placed.entry.numbering.now) (stmts_of placed.entry.statements.now) result self.new }
    {
        let left = self.call.leading(placed);
        self.run_next(left)
    }

    /// Runs the statement of an `if`, if its condition is true.
    pub(crate) fn run_if(&mut self, then: Placed<'a>) -> Result<(), Stop>
        ensures { Resumes self.old (IfTrue then.entry ∷ stacked self.old.rests) result self.new }
    {
        if self.value == 0 {
            Ok(())
        } else {
            self.enter(then)
        }
    }

    /// Runs the statement of an `if` or that of its `else`.
    pub(crate) fn choose(&mut self, branches: Branches<'a>) -> Result<(), Stop>
        ensures { Resumes self.old (Either branches.entry ∷ stacked self.old.rests) result self.new }
    {
        let placed = branches.chosen(self.value);
        self.enter(placed)
    }

    /// Goes round a loop, if its condition is true.
    pub(crate) fn turn(&mut self, looped: Loop<'a>) -> Result<(), Stop>
        ensures { Resumes self.old (Turn looped.entry ∷ stacked self.old.rests) result self.new }
    {
        if self.value == 0 {
            return Ok(());
        }
        if looped.turns == 0 {
            return Err(Stop::More);
        }
        self.rests.push(Rest::Again(Loop {
            turns: looped.turns - 1,
            ..looped
        }))?;
        self.enter(looped.body)
    }

    /// Computes the condition of a loop again, and goes round it.
    pub(crate) fn again(&mut self, looped: Loop<'a>) -> Result<(), Stop>
        ensures { Resumes self.old (NextTurn looped.entry ∷ stacked self.old.rests) result self.new }
    {
        self.test(looped)
    }
}
