// The plain interpreter: what a program does, step by step, with a stack of what is left to do. Here are its state and its steps.

ghost use Rattle.std.specs.Prelude.{◌≡◌, ℕ, ℤ, ◌≤◌, List, [], ◌∷◌, map};
ghost use Rattle.source_meaning.specs.Meaning.{meaning, call_in, End};
ghost use Rattle.tree_interpreter.specs.Trees.{stmt_of, function_of, program_of};
ghost use Rattle.tree_interpreter.specs.Running.{CallsTo, WalksTo, HasSaid};
ghost use Rattle.tree_interpreter.specs.Resuming.{stacked};
ghost use Rattle.tree_interpreter.specs.Weights.{stmt_weight, heaviest};
ghost use Rattle.tree_interpreter.specs.Walking.{program_in, meant, Resumes, IsSilent, Says, Steps};

use crate::callees::{Callee, callees_of};
use crate::names::Names;
use crate::rests::{OpenCall, Rest, Rests};
use crate::simple::store;
use crate::trees::Program;
use source_meaning::{apply_binary, apply_unary};
use std::alloc::{AllocError, AllocFailed, Global};

/// Numbers that were printed, in order.
pub type Numbers = Vec<i32>;

/// How a run of a program ends.
#[derive(Clone, Copy, PartialEq, Eq, Debug)]
pub enum Outcome {
    /// `main` returned this value.
    Ended(i32),
    /// The frames of the open calls passed the stack.
    Deep,
    /// A loop's turns or the open calls met the bound.
    More,
}

/// What ends an evaluation early.
#[derive(Clone, Copy, PartialEq, Eq, Debug)]
pub(crate) enum Stop {
    Deep,
    More,
    NoMemory,
}

impl From<AllocError> for Stop {
    ghost use Rattle.tree_interpreter.specs.declared.interpreter.Stop.TheVariants.{NoMemory};

    ghost from_gives = { λ _ stop. stop ≡ NoMemory };

    fn from(_: AllocError) -> Stop {
        Stop::NoMemory
    }
}

impl<T: Drop> From<AllocFailed<T>> for Stop {
    ghost use Rattle.tree_interpreter.specs.declared.interpreter.Stop.TheVariants.{NoMemory};

    ghost from_gives = { λ _ stop. stop ≡ NoMemory };

    fn from(_: AllocFailed<T>) -> Stop {
        Stop::NoMemory
    }
}

/// Puts the signed number of a word behind others.
fn say(output: &mut Numbers, word: u32) -> Result<(), AllocError>
    ensures { HasSaid output.old.items word result output.new.items }
{
    output.push(word.cast_signed())?;
    Ok(())
}

/// Where the walk of a program stands.
#[derive(Drop)]
pub(crate) struct Walker<'a> {
    pub(crate) functions: &'a [Callee<'a>],
    /// How many turns each loop makes at most.
    pub(crate) turns: u64,
    pub(crate) call: OpenCall<'a>,
    /// What was computed last. It is 0 behind a statement that didn't return.
    pub(crate) value: u32,
    pub(crate) rests: Rests<'a>,
    /// The names of the call that was left last: the next call takes their memory.
    pub(crate) spare: Names<'a>,
    pub(crate) alloc: Global,
}

impl<'a> Walker<'a> {
    /// Does a step that prints nothing.
    fn resume(&mut self, rest: Rest<'a>) -> Result<(), Stop>
        requires { IsSilent rest }
        ensures { Resumes self.old (rest.entry ∷ stacked self.old.rests) result self.new }
    {
        let value = self.value;
        match rest {
            Rest::Evaluate(e) => self.evaluate(e),
            Rest::Unary(op) => self.give(apply_unary(op, value)),
            Rest::Right { op, right } => self.apply(op, value, right),
            Rest::Binary { op, left } => self.give(apply_binary(op, left, value)),
            Rest::And(right) => {
                if value == 0 {
                    Ok(())
                } else {
                    self.evaluate(right)
                }
            }
            Rest::Or(right) => {
                if value == 0 {
                    self.evaluate(right)
                } else {
                    Ok(())
                }
            }
            Rest::Store(number) => {
                store(number, value, &mut self.call.table);
                Ok(())
            }
            Rest::Argument { name, values, rest } => {
                let mut known = values;
                known.push(value)?;
                self.arguments(name, known, rest)
            }
            Rest::Initialize(number) => {
                store(Some(number), value, &mut self.call.table);
                self.give(0)
            }
            Rest::Discard => self.give(0),
            Rest::RunAll(placed) => self.run_all(placed),
            Rest::Declare(variable) => {
                self.call.names.declare(variable)?;
                Ok(())
            }
            Rest::Forget => {
                self.call.names.forget();
                Ok(())
            }
            Rest::If(then) => self.run_if(then),
            Rest::IfElse(branches) => self.choose(branches),
            Rest::Turn(looped) => self.turn(looped),
            Rest::Again(looped) => self.again(looped),
            Rest::Run(placed) => self.run(placed),
            Rest::Return => self.leave(),
            Rest::Print => self.give(0),
            Rest::Caller(outer) => self.go_back(outer),
        }
    }

    /// Puts the value behind the numbers that were printed.
    fn print(&mut self, output: &mut Numbers) -> Result<(), Stop>
        ensures { Says self.old output.old.items result self.new output.new.items }
    {
        say(output, self.value)?;
        self.value = 0;
        Ok(())
    }

    /// Does a step.
    fn step(&mut self, rest: Rest<'a>, output: &mut Numbers) -> Result<(), Stop>
        ensures { Steps self.old (rest.entry ∷ stacked self.old.rests) output.old.items result self.new output.new.items }
    {
        match rest {
            Rest::Print => self.print(output),
            silent => self.resume(silent),
        }
    }

    /// Does what is left, to the end.
    fn finish(&mut self, output: &mut Numbers) -> Result<u32, Stop>
        ensures { CallsTo (meant self.old) output.old.items output.new.items result }
    {
        while let Some(rest) = self.rests.pop() {
            self.step(rest, output)?;
        }
        Ok(self.value)
    }

    /// Calls a function that is the first one, and goes on to the end.
    fn call_first(&mut self, f: &'a Callee<'a>, output: &mut Numbers) -> Result<u32, Stop>
        requires light { (calls : ℕ) → stmt_weight calls self.old.turns (stmt_of f.now.function.now.body) ≤ heaviest calls self.old.turns self.old.functions.now }
        requires nothing_left { stacked self.old.rests ≡ [] }
        ensures { CallsTo (call_in (program_in self.old) self.old.turns self.old.call.calls self.old.call.left (function_of f.now.function.now) []) output.old.items output.new.items result }
    {
        self.open(f, Vec::new(self.alloc))?;
        self.finish(output)
    }
}

/// What the answer of the call of `main` says.
fn outcome_of(answer: Result<u32, Stop>) -> Result<Outcome, AllocError>
    ensures { (e : End) (old new : List ℤ) → CallsTo e old new answer → WalksTo e old new result }
{
    match answer {
        Ok(value) => Ok(Outcome::Ended(value.cast_signed())),
        Err(Stop::Deep) => Ok(Outcome::Deep),
        Err(Stop::More) => Ok(Outcome::More),
        Err(Stop::NoMemory) => Err(AllocError),
    }
}

/// What a program of these functions does.
fn walk_from_main(
    alloc: Global,
    callees: &[Callee<'_>],
    steps: u64,
    stack: u32,
    output: &mut Numbers,
) -> Result<Outcome, AllocError>
    ensures { WalksTo (meaning (map (λ f. function_of f.function.now) callees.now) stack steps) output.old.items output.new.items result }
{
    let mut walker = Walker {
        functions: callees,
        turns: steps,
        call: OpenCall {
            calls: steps,
            left: stack,
            names: Names::new(alloc),
            table: Vec::new(alloc),
        },
        value: 0,
        rests: Rests::new(alloc),
        spare: Names::new(alloc),
        alloc,
    };
    match walker.function(b"main") {
        Some(main) => outcome_of(walker.call_first(main, output)),
        None => Ok(Outcome::Ended(0)),
    }
}

/// What a program does on a stack of `stack` bytes, where each loop makes at most `steps` turns and at most
/// `steps` calls are open at once. The numbers that it prints are put behind those of the output; out of memory,
/// the first ones of them were.
pub fn walk(
    alloc: Global,
    program: &Program,
    steps: u64,
    stack: u32,
    output: &mut Numbers,
) -> Result<Outcome, AllocError>
    ensures { WalksTo (meaning (program_of program.now) stack steps) output.old.items output.new.items result }
{
    let callees = callees_of(alloc, &program.functions)?;
    walk_from_main(alloc, &callees, steps, stack, output)
}
