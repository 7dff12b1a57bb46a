// The interpreter's expressions: each is computed at once, or leaves steps for its parts.

ghost use Rattle.std.specs.Prelude.{◌≡◌};
ghost use Rattle.tree_interpreter.specs.Trees.{expr_of};
ghost use Rattle.tree_interpreter.specs.Walking.{Gives, EvaluatesThen, Evaluates, Starts};
ghost use Rattle.tree_interpreter.specs.declared.rests.Rest.TheVariants.{Binary as Applied, Right as RightSide};

use crate::interpreter::{Stop, Walker};
use crate::rests::Rest;
use crate::trees::Expr;
use source_meaning::{BinaryOp, apply_binary};

impl<'a> Walker<'a> {
    /// Goes on with a value.
    #[inline(always)]
    pub(crate) fn give(&mut self, value: u32) -> Result<(), Stop>
        ensures { Gives self.old value result self.new }
    {
        self.value = value;
        Ok(())
    }

    /// Begins to compute an expression.
    fn start(&mut self, e: &'a Expr) -> Result<(), Stop>
        ensures { Starts self.old (expr_of e.now) result self.new }
    {
        match e {
            Expr::Call { name, args, .. } => self.arguments(name, Vec::new(self.alloc), args),
            _ => {
                self.rests.push(Rest::Evaluate(e))?;
                Ok(())
            }
        }
    }

    /// Leaves steps for an expression and for the rest, which is done with its value.
    pub(crate) fn put_off(&mut self, e: &'a Expr, rest: Rest<'a>) -> Result<(), Stop>
        ensures { EvaluatesThen self.old (expr_of e.now) rest.entry result self.new }
    {
        self.rests.push(rest)?;
        self.rests.push(Rest::Evaluate(e))?;
        Ok(())
    }

    /// Computes an expression, and then does the rest with its value. A leaf is computed at once.
    #[inline(always)]
    pub(crate) fn evaluate_then(&mut self, e: &'a Expr, rest: Rest<'a>) -> Result<(), Stop>
        ensures { EvaluatesThen self.old (expr_of e.now) rest.entry result self.new }
    {
        self.rests.push(rest)?;
        match self.call.leaf(e) {
            Some(value) => self.give(value),
            None => self.start(e),
        }
    }

    /// Applies an operator to a left side of this value and to a right side, which is computed first.
    pub(crate) fn apply(&mut self, op: BinaryOp, left: u32, right: &'a Expr) -> Result<(), Stop>
        ensures { EvaluatesThen self.old (expr_of right.now) (Applied op left) result self.new }
    {
        match self.call.leaf(right) {
            Some(value) => self.give(apply_binary(op, left, value)),
            None => self.evaluate_then(right, Rest::Binary { op, left }),
        }
    }

    /// Computes both sides of an operator, and applies it.
    fn operate(&mut self, op: BinaryOp, left: &'a Expr, right: &'a Expr) -> Result<(), Stop>
        ensures { EvaluatesThen self.old (expr_of left.now) (RightSide op right.entry) result self.new }
    {
        match self.call.leaf(left) {
            Some(value) => self.apply(op, value, right),
            None => self.evaluate_then(left, Rest::Right { op, right }),
        }
    }

    /// Computes an expression, and then does the rest with its value. A simple one is computed at once.
    pub(crate) fn compute_then(&mut self, e: &'a Expr, rest: Rest<'a>) -> Result<(), Stop>
        ensures { EvaluatesThen self.old (expr_of e.now) rest.entry result self.new }
    {
        match self.call.simple(e) {
            Some(value) => {
                self.rests.push(rest)?;
                self.give(value)
            }
            None => self.evaluate_then(e, rest),
        }
    }

    /// Computes an expression.
    pub(crate) fn evaluate(&mut self, e: &'a Expr) -> Result<(), Stop>
        ensures { Evaluates self.old (expr_of e.now) result self.new }
    {
        match e {
            Expr::Num { value, .. } => self.give(*value),
            Expr::Truth { value, .. } => self.give(u32::from(*value)),
            Expr::Name { name, .. } => {
                let value = self.call.value_of(name);
                self.give(value)
            }
            Expr::Call { name, args, .. } => self.arguments(name, Vec::new(self.alloc), args),
            Expr::Unary { op, operand, .. } => self.evaluate_then(operand, Rest::Unary(*op)),
            Expr::Binary {
                op,
                left,
                right,
                ..
            } => self.operate(*op, left, right),
            Expr::And { left, right, .. } => self.compute_then(left, Rest::And(right)),
            Expr::Or { left, right, .. } => self.compute_then(left, Rest::Or(right)),
            Expr::Assign { left, right, .. } => {
                let number = self.call.target(left);
                self.evaluate_then(right, Rest::Store(number))
            }
        }
    }
}
