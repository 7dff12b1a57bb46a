// What an open call does at once, without a step: expressions that have no calls, and statements that are such expressions.

ghost use Rattle.std.specs.Prelude.{◌≡◌, ◌<◌, option_map, MatchOption, IfOk};
ghost use Rattle.source_meaning.specs.Scope.{variable_of};
ghost use Rattle.source_meaning.specs.Meaning.{value_in, target as target_of};
ghost use Rattle.tree_interpreter.specs.Trees.{expr_of, args_of, stmts_of};
ghost use Rattle.tree_interpreter.specs.Running.{value_numbered, stored_numbered, named, scope_with};
ghost use Rattle.tree_interpreter.specs.Weights.{stmts_weight};
ghost use Rattle.tree_interpreter.specs.Walking.{HasValue, Leaves, Leads, Puts};

use crate::numbering::parts_of;
use crate::rests::{OpenCall, PlacedAll};
use crate::trees::{Args, Expr, Stmt, Stmts};
use source_meaning::{apply_binary, apply_unary};
use std::alloc::AllocError;

/// A variable's value, 0 where there is none.
fn value_at(number: Option<u32>, table: &[u32]) -> u32
    ensures { result ≡ value_numbered number table.now }
{
    match number {
        Some(number) => table.get(number as usize).copied().unwrap_or(0),
        None => 0,
    }
}

/// Gives a variable a value, where there is one.
pub(crate) fn store(number: Option<u32>, x: u32, table: &mut [u32])
    ensures { table.new ≡ stored_numbered number x table.old }
{
    if let Some(number) = number {
        let index = number as usize;
        if index < table.len() {
            table[index] = x;
        }
    }
}

/// How deep an expression is at most that is computed at once.
const LEVELS: u32 = 64;

impl<'a> OpenCall<'a> {
    /// The value of a variable.
    #[inline(always)]
    pub(crate) fn value_of(&self, name: &[u8]) -> u32
        ensures { result ≡ value_in (variable_of (scope_with (named self.now.names) 0) name.now) self.now.table.items }
    {
        value_at(self.names.number_of(name), &self.table)
    }

    /// The number of the variable that an assignment's left side names.
    pub(crate) fn target(&self, left: &Expr) -> Option<u32>
        ensures { result ≡ option_map (λ v. v.number) (target_of (scope_with (named self.now.names) 0) (expr_of left.now)) }
    {
        match left {
            Expr::Name { name, .. } => self.names.number_of(name),
            _ => None,
        }
    }

    /// The value of an expression that is a number, a truth value or a variable.
    #[inline(always)]
    pub(crate) fn leaf(&self, e: &Expr) -> Option<u32>
        ensures { MatchOption result (Unit {0}) (HasValue self.now (expr_of e.now)) }
    {
        match e {
            Expr::Num { value, .. } => Some(*value),
            Expr::Truth { value, .. } => Some(u32::from(*value)),
            Expr::Name { name, .. } => Some(self.value_of(name)),
            _ => None,
        }
    }

    /// The value of an expression of at most this many levels that has no operators but those that compute all their sides.
    fn value_within(&self, e: &Expr, levels: u32) -> Option<u32>
        ensures { MatchOption result (Unit {0}) (HasValue self.now (expr_of e.now)) }
    {
        let levels = levels.checked_sub(1)?;
        match e {
            Expr::Unary { op, operand, .. } => {
                let x = self.value_within(operand, levels)?;
                Some(apply_unary(*op, x))
            }
            Expr::Binary {
                op,
                left,
                right,
                ..
            } => {
                let x = self.value_within(left, levels)?;
                let y = self.value_within(right, levels)?;
                Some(apply_binary(*op, x, y))
            }
            _ => self.leaf(e),
        }
    }

    /// The value of an expression that is simple: it has few levels, and no operators but those that compute all their sides.
    #[inline(always)]
    pub(crate) fn simple(&self, e: &Expr) -> Option<u32>
        ensures { MatchOption result (Unit {0}) (HasValue self.now (expr_of e.now)) }
    {
        self.value_within(e, LEVELS)
    }

    /// The value of a simple expression, or of the assignment of one to a variable, which has it from then on.
    pub(crate) fn assigned(&mut self, e: &Expr) -> Option<u32>
        ensures { MatchOption result (self.new ≡ self.old) (λ x. Leaves self.old (expr_of e.now) x self.new) }
    {
        match e {
            Expr::Assign { left, right, .. } => {
                let value = self.simple(right)?;
                let number = self.target(left);
                store(number, value, &mut self.table);
                Some(value)
            }
            _ => self.simple(e),
        }
    }

    /// Does the first of these statements, if it is such an expression. The others are left.
    fn first_done(&mut self, placed: PlacedAll<'a>) -> Option<PlacedAll<'a>>
        ensures { MatchOption result (self.new ≡ self.old) (λ rest. Leads self.old placed.entry self.new rest
            × (stmts_weight 0 0 (stmts_of rest.statements.now) < stmts_weight 0 0 (stmts_of placed.entry.statements.now))) }
    {
        let Stmts::Next { first, rest } = placed.statements else {
            return None;
        };
        let Stmt::Eval { value } = &**first else {
            return None;
        };
        self.assigned(value)?;
        Some(PlacedAll {
            statements: rest,
            numbering: parts_of(placed.numbering).1,
        })
    }

    /// Does the statements that come first and are such expressions. The others are left.
    pub(crate) fn leading(&mut self, placed: PlacedAll<'a>) -> PlacedAll<'a>
        ensures { Leads self.old placed.entry self.new result }
    {
        let mut left = placed;
        while let Some(others) = self.first_done(left) {
            left = others;
        }
        left
    }

    /// Puts the values of the arguments that come first and are simple behind those that are known. The others are left.
    pub(crate) fn known_arguments<'b>(
        &self,
        values: &mut Vec<u32>,
        args: &'b Args,
    ) -> Result<&'b Args, AllocError>
        ensures { IfOk result (λ left. Puts self.now values.old.items (args_of args.now) values.new.items (args_of left.now)) }
    {
        let mut left = args;
        while let Args::Then { first, rest } = left {
            let Some(value) = self.simple(first) else {
                return Ok(left);
            };
            values.push(value)?;
            left = rest;
        }
        Ok(left)
    }
}
