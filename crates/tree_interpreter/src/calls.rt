// The interpreter's calls: their arguments, how they are opened, and how they are left.

ghost use Rattle.std.specs.Prelude.{◌≡◌, ℕ, ◌≤◌, ◌++◌, OnOk, option_map, MatchOption, replicate};
ghost use Rattle.source_meaning.specs.Scope.{function_of as function_named};
ghost use Rattle.tree_interpreter.specs.Trees.{args_of, stmt_of, function_of};
ghost use Rattle.tree_interpreter.specs.Resuming.{opened};
ghost use Rattle.tree_interpreter.specs.Weights.{stmt_weight, heaviest};
ghost use Rattle.tree_interpreter.specs.Walking.{program_in, Computes, Opens, Departs, GoesBack};

use crate::callees::Callee;
use crate::interpreter::{Stop, Walker};
use crate::names::Names;
use crate::rests::{OpenCall, Placed, Rest};
use crate::trees::Args;
use std::alloc::AllocError;
use std::mem;

/// A new call's table: its arguments, and a zero for each other variable.
fn fill(table: &mut Vec<u32>, count: u32) -> Result<(), AllocError>
    ensures { OnOk result (table.new.items ≡ table.old.items ++ replicate count 0) }
{
    for _ in 0..count {
        table.push(0)?;
    }
    Ok(())
}

impl<'a> Walker<'a> {
    /// The first function of a name.
    pub(crate) fn function(&self, name: &[u8]) -> Option<&'a Callee<'a>>
        ensures first { option_map (λ f. function_of f.now.function.now) result ≡ function_named (program_in self.now) name.now }
        ensures light { (calls : ℕ) → MatchOption result (Unit {0}) (λ f. stmt_weight calls self.now.turns (stmt_of f.now.function.now.body) ≤ heaviest calls self.now.turns self.now.functions.now) }
    {
        for f in self.functions {
            if f.function.name.as_slice() == name {
                return Some(f);
            }
        }
        None
    }

    /// Computes the arguments of a call that are left behind those whose values are known, and calls.
    pub(crate) fn arguments(
        &mut self,
        name: &'a Vec<u8>,
        values: Vec<u32>,
        args: &'a Args,
    ) -> Result<(), Stop>
        ensures { Computes self.old name.now.items values.items (args_of args.now) result self.new }
    {
        let mut known = values;
        match self.call.known_arguments(&mut known, args)? {
            Args::Done => match self.function(name) {
                Some(f) => self.open(f, known),
                None => self.give(0),
            },
            Args::Then { first, rest } => self.put_off(
                first,
                Rest::Argument {
                    name,
                    values: known,
                    rest,
                },
            ),
        }
    }

    /// Opens a call of a function. A frame that doesn't fit the stack is Deep, one call too many is More.
    pub(crate) fn open(&mut self, f: &'a Callee<'a>, args: Vec<u32>) -> Result<(), Stop>
        requires light { (calls : ℕ) → stmt_weight calls self.old.turns (stmt_of f.now.function.now.body) ≤ heaviest calls self.old.turns self.old.functions.now }
        ensures { Opens self.old (function_of f.now.function.now) args.items result self.new }
    {
        let Some(left) = f.left_behind(self.call.left) else {
            return Err(Stop::Deep);
        };
        if self.call.calls == 0 {
            return Err(Stop::More);
        }
        let mut names = mem::replace(&mut self.spare, Names::new(self.alloc));
        names.clear();
        names.declare_all(&f.function.params)?;
        let mut table = args;
        fill(&mut table, f.variables)?;
        let inner = OpenCall {
            calls: self.call.calls - 1,
            left,
            names,
            table,
        };
        let outer = mem::replace(&mut self.call, inner);
        self.rests.push(Rest::Caller(outer))?;
        self.enter(Placed {
            statement: &f.function.body,
            numbering: &f.numbering,
        })
    }

    /// Drops what is left to do in the call.
    pub(crate) fn leave(&mut self) -> Result<(), Stop>
        ensures { Departs self.old result self.new }
    {
        match self.rests.pop() {
            None => Ok(()),
            Some(Rest::Caller(outer)) => self.go_back(outer),
            Some(_) => {
                self.rests.push(Rest::Return)?;
                Ok(())
            }
        }
    }

    /// Goes on in the call that was open before.
    pub(crate) fn go_back(&mut self, outer: OpenCall<'a>) -> Result<(), Stop>
        ensures { GoesBack self.old (opened outer.entry) result self.new }
    {
        let left = mem::replace(&mut self.call, outer);
        self.spare = left.names;
        Ok(())
    }
}
