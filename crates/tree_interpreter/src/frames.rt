// How much of the stack a call takes. The counts stop at the greatest u32, with which no frame fits any stack.

ghost use Rattle.std.specs.Prelude.{◌≡◌, ◌<◌, ◌-◌, ◌+◌, ◌^◌, ◌∷◌, suc, min, max, nat_lt, true, false, OnOk, IfOk, MatchOption};
ghost use Rattle.source_meaning.specs.Frames.{slots, stmt_slots, frame, frame_bytes, frame_for};
ghost use Rattle.source_meaning.specs.Scope.{variables_in};
ghost use Rattle.tree_interpreter.specs.Trees.{expr_of, stmt_of, function_of};
ghost use Rattle.tree_interpreter.specs.Counts.{capped};
ghost use Rattle.tree_interpreter.specs.Weights.{expr_weight, stmt_weight};
ghost use Rattle.tree_interpreter.specs.Parts.{listed, needs, most_of, declares, all_of, weigh_parts};

use crate::parts::{Part, Parts};
use crate::trees::{Args, Expr, Function, Stmt, Stmts};
use std::alloc::{AllocError, Global};

/// How many slots an expression uses beside those that the parts in it need, where this many values are kept.
fn used_by<'a>(parts: &mut Parts<'a>, e: &'a Expr, kept: u32) -> Result<u32, AllocError>
    ensures same { IfOk result (λ own. capped (max own (most_of (listed parts.new))) ≡ capped (max (kept + slots (expr_of e.now)) (most_of (listed parts.old)))) }
    ensures less { IfOk result (λ own. weigh_parts (listed parts.new) < suc (expr_weight 0 1 (expr_of e.now) + weigh_parts (listed parts.old))) }
{
    match e {
        Expr::Num { .. } | Expr::Truth { .. } | Expr::Name { .. } => Ok(kept.saturating_add(1)),
        Expr::Call { args, .. } => {
            parts.push(Part::Args { args, kept })?;
            Ok(kept.saturating_add(1))
        }
        Expr::Unary { operand, .. } => {
            parts.push(Part::Expr { e: operand, kept })?;
            Ok(0)
        }
        Expr::Binary { left, right, .. } => {
            parts.push(Part::Expr { e: left, kept })?;
            parts.push(Part::Expr {
                e: right,
                kept: kept.saturating_add(1),
            })?;
            Ok(0)
        }
        Expr::And { left, right, .. } | Expr::Or { left, right, .. } => {
            parts.push(Part::Expr { e: left, kept })?;
            parts.push(Part::Expr { e: right, kept })?;
            Ok(0)
        }
        Expr::Assign { right, .. } => {
            parts.push(Part::Expr { e: right, kept })?;
            Ok(0)
        }
    }
}

/// Leaves the parts of a statement to look at.
fn open_stmt<'a>(parts: &mut Parts<'a>, s: &'a Stmt) -> Result<(), AllocError>
    ensures same { OnOk result (most_of (listed parts.new) ≡ max (stmt_slots (stmt_of s.now)) (most_of (listed parts.old))) }
    ensures less { OnOk result (weigh_parts (listed parts.new) < suc (stmt_weight 0 1 (stmt_of s.now) + weigh_parts (listed parts.old))) }
{
    match s {
        Stmt::Var { value, .. }
        | Stmt::Return { value, .. }
        | Stmt::Eval { value }
        | Stmt::Print { value, .. } => { parts.push(Part::Expr { e: value, kept: 0 }) }
        Stmt::If {
            condition,
            then,
            ..
        } => {
            parts.push(Part::Expr {
                e: condition,
                kept: 0,
            })?;
            parts.push(Part::Stmt(then))
        }
        Stmt::IfElse {
            condition,
            then,
            otherwise,
            ..
        } => {
            parts.push(Part::Expr {
                e: condition,
                kept: 0,
            })?;
            parts.push(Part::Stmt(then))?;
            parts.push(Part::Stmt(otherwise))
        }
        Stmt::StrayElse { body, .. } => parts.push(Part::Stmt(body)),
        Stmt::While {
            condition,
            body,
            ..
        } => {
            parts.push(Part::Expr {
                e: condition,
                kept: 0,
            })?;
            parts.push(Part::Stmt(body))
        }
        Stmt::Block { body, .. } => parts.push(Part::Stmts(body)),
    }
}

/// How many slots a part uses beside those that the parts in it need, which are left to look at.
fn used<'a>(parts: &mut Parts<'a>, part: Part<'a>) -> Result<u32, AllocError>
    ensures same { IfOk result (λ own. capped (max own (most_of (listed parts.new))) ≡ capped (max (needs part.entry) (most_of (listed parts.old)))) }
    ensures less { IfOk result (λ own. weigh_parts (listed parts.new) < weigh_parts (part.entry ∷ listed parts.old)) }
{
    match part {
        Part::Expr { e, kept } => used_by(parts, e, kept),
        Part::Args { args, kept } => match args {
            Args::Done => Ok(kept),
            Args::Then { first, rest } => {
                parts.push(Part::Expr { e: first, kept })?;
                parts.push(Part::Args {
                    args: rest,
                    kept: kept.saturating_add(1),
                })?;
                Ok(0)
            }
        },
        Part::Stmt(s) => {
            open_stmt(parts, s)?;
            Ok(0)
        }
        Part::Stmts(ss) => match ss {
            Stmts::Empty => Ok(0),
            Stmts::Next { first, rest } => {
                parts.push(Part::Stmts(rest))?;
                parts.push(Part::Stmt(first))?;
                Ok(0)
            }
        },
        Part::Join { .. } => Ok(0),
    }
}

/// How many slots the expressions of a statement need.
fn slots_of(alloc: Global, s: &Stmt) -> Result<u32, AllocError>
    ensures { IfOk result (λ n. n ≡ capped (stmt_slots (stmt_of s.now))) }
{
    let mut parts = Parts::new(alloc);
    let mut most = used(&mut parts, Part::Stmt(s))?;
    while let Some(part) = parts.pop() {
        let own = used(&mut parts, part)?;
        most = most.max(own);
    }
    Ok(most)
}

/// How many variables a part declares beside the parts in it, which are left to look at.
fn declared<'a>(parts: &mut Parts<'a>, part: Part<'a>) -> Result<u32, AllocError>
    ensures same { IfOk result (λ own. own + all_of (listed parts.new) ≡ declares part.entry + all_of (listed parts.old)) }
    ensures less { IfOk result (λ own. weigh_parts (listed parts.new) < weigh_parts (part.entry ∷ listed parts.old)) }
{
    match part {
        Part::Expr { .. } | Part::Args { .. } => Ok(0),
        Part::Stmt(s) => match s {
            Stmt::Var { .. } => Ok(1),
            Stmt::Return { .. } | Stmt::Eval { .. } | Stmt::Print { .. } => Ok(0),
            Stmt::If { then: inner, .. }
            | Stmt::StrayElse { body: inner, .. }
            | Stmt::While { body: inner, .. } => {
                parts.push(Part::Stmt(inner))?;
                Ok(0)
            }
            Stmt::IfElse {
                then,
                otherwise,
                ..
            } => {
                parts.push(Part::Stmt(then))?;
                parts.push(Part::Stmt(otherwise))?;
                Ok(0)
            }
            Stmt::Block { body, .. } => {
                parts.push(Part::Stmts(body))?;
                Ok(0)
            }
        },
        Part::Stmts(ss) => match ss {
            Stmts::Empty => Ok(0),
            Stmts::Next { first, rest } => {
                parts.push(Part::Stmts(rest))?;
                parts.push(Part::Stmt(first))?;
                Ok(0)
            }
        },
        Part::Join { .. } => Ok(0),
    }
}

/// How many variables a statement declares.
pub(crate) fn variables_of(alloc: Global, s: &Stmt) -> Result<u32, AllocError>
    ensures { IfOk result (λ n. n ≡ capped (variables_in (stmt_of s.now))) }
{
    let mut parts = Parts::new(alloc);
    let mut count = declared(&mut parts, Part::Stmt(s))?;
    while let Some(part) = parts.pop() {
        let own = declared(&mut parts, part)?;
        count = count.saturating_add(own);
    }
    Ok(count)
}

/// The bytes of a frame with this many words, rounded up to a multiple of 16.
fn bytes_of_words(words: u64) -> u64
    requires { words < 2 ^ 40 }
    ensures { result ≡ frame_bytes words }
{
    16 * ((4 * words + 15) / 16)
}

/// The bytes of a frame that uses this many slots and has this many variables.
fn bytes_for(used: u32, locals: u64) -> u64
    requires { locals < 2 ^ 34 }
    ensures { result ≡ (frame_for used locals).bytes }
{
    let used = used as u64;
    bytes_of_words(1 + used.min(11) + locals + used.saturating_sub(11))
}

/// The bytes of a function's frame, where the body declares this many variables.
pub(crate) fn frame_of(alloc: Global, f: &Function, variables: u32) -> Result<u64, AllocError>
    ensures { variables ≡ capped (variables_in (stmt_of f.now.body)) → IfOk result (λ bytes. min bytes (2 ^ 32) ≡ min (frame (function_of f.now)).bytes (2 ^ 32)) }
{
    let params = u32::try_from(f.params.len()).unwrap_or(u32::MAX);
    Ok(bytes_for(slots_of(alloc, &f.body)?, params as u64 + variables as u64))
}

/// What a frame of this many bytes leaves of the stack.
pub(crate) fn rest_behind(left: u32, bytes: u64) -> Option<u32>
    ensures { MatchOption result (nat_lt left bytes ≡ true) (λ rest. (nat_lt left bytes ≡ false) × (rest ≡ left - bytes)) }
{
    if (left as u64) < bytes {
        None
    } else {
        Some((left as u64 - bytes) as u32)
    }
}
