// Functions that are ready to be called: what of each is found once, before the program runs.

ghost use Rattle.std.specs.Prelude.{◌≡◌, ◌+◌, ◌<◌, ◌^◌, min, length, map, IfOk};
ghost use Rattle.source_meaning.specs.Scope.{variables_in};
ghost use Rattle.source_meaning.specs.Frames.{frame};
ghost use Rattle.tree_interpreter.specs.Counts.{capped};
ghost use Rattle.tree_interpreter.specs.Trees.{stmt_of, function_of};
ghost use Rattle.tree_interpreter.specs.Numbering.{numbers};

use crate::frames::{frame_of, rest_behind, variables_of};
use crate::numbering::{Entry, numbering_of};
use crate::trees::Function;
use std::alloc::{AllocError, Global};

/// A function with the bytes of its frame, the number of variables that its body declares, and its body's numbering.
#[derive(Drop)]
pub(crate) struct Callee<'a> {
    pub(crate) function: &'a Function,
    bytes: u64,
    pub(crate) variables: u32,
    pub(crate) numbering: Vec<Entry>,
    ghost framed: { min bytes (2 ^ 32) ≡ min (frame (function_of function.now)).bytes (2 ^ 32) },
    ghost counted: { variables ≡ capped (variables_in (stmt_of function.now.body)) },
    ghost numbered: { length function.now.params.items + variables_in (stmt_of function.now.body) < 2 ^ 32 → numbering.items ≡ numbers (length function.now.params.items) (stmt_of function.now.body) },
}

impl<'a> Callee<'a> {
    ghost use Rattle.std.specs.Prelude.{◌-◌, nat_lt, true, false, MatchOption};

    /// Makes a function ready.
    fn new(alloc: Global, function: &'a Function) -> Result<Callee<'a>, AllocError>
        ensures { IfOk result (λ callee. callee.function.now ≡ function.now) }
    {
        let variables = variables_of(alloc, &function.body)?;
        let bytes = frame_of(alloc, function, variables)?;
        let params = u32::try_from(function.params.len()).unwrap_or(u32::MAX);
        let numbering = numbering_of(alloc, &function.body, params.saturating_add(variables))?;
        Ok(Callee {
            function,
            bytes,
            variables,
            numbering,
        })
    }

    /// What a call leaves of this many bytes of the stack, or None where its frame doesn't fit.
    pub(crate) fn left_behind(&self, left: u32) -> Option<u32>
        ensures { MatchOption result (nat_lt left (frame (function_of self.now.function.now)).bytes ≡ true) (λ rest. (nat_lt left (frame (function_of self.now.function.now)).bytes ≡ false)
            × (rest ≡ left - (frame (function_of self.now.function.now)).bytes)
            × (self.now.variables ≡ variables_in (stmt_of self.now.function.now.body))
            × (length self.now.function.now.params.items + variables_in (stmt_of self.now.function.now.body) < 2 ^ 32)) }
    {
        rest_behind(left, self.bytes)
    }
}

/// Makes the functions of a program ready.
pub(crate) fn callees_of(
    alloc: Global,
    functions: &[Function],
) -> Result<Vec<Callee<'_>>, AllocError>
    ensures { IfOk result (λ callees. map (λ c. c.function.now) callees.items ≡ functions.now) }
{
    let mut callees = Vec::new(alloc);
    for function in functions {
        callees.push(Callee::new(alloc, function)?)?;
    }
    Ok(callees)
}
