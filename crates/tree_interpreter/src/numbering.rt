// The numbers of a body's variables, which are found once, before the body runs.

ghost use Rattle.std.specs.Prelude.{◌≡◌, ℕ, ◌+◌, ◌-◌, ◌<◌, ◌∷◌, suc, length, reverse, take, drop, OnOk, IfOk};
ghost use Rattle.source_meaning.specs.Scope.{variables_in};
ghost use Rattle.tree_interpreter.specs.Trees.{stmt_of};
ghost use Rattle.tree_interpreter.specs.Parts.{listed, all_of, weigh_parts};
ghost use Rattle.tree_interpreter.specs.Numbering.{numbers, next_in, first_length, entry_of};
ghost use Rattle.tree_interpreter.specs.Laying.{done, laid};

use crate::parts::{Part, Parts};
use crate::trees::{Stmt, Stmts};
use std::alloc::{AllocError, Global};

/// Where a part of a body begins: the number of the next variable that is declared, and how many entries the
/// part has.
#[derive(Clone, Copy)]
pub(crate) struct Entry {
    pub(crate) next: u32,
    pub(crate) length: usize,
}

/// The entries of the parts of a body that were looked at, the last part first.
#[derive(Drop)]
struct Numbering {
    entries: Vec<Entry>,
    /// The number of the first variable in these parts.
    next: u32,
}

impl Numbering {
    /// How many entries there are.
    fn len(&self) -> usize
        ensures { result ≡ length (done self.now) }
    {
        self.entries.len()
    }

    /// Adds the entry of a part.
    fn add(&mut self, length: usize) -> Result<(), AllocError>
        ensures { OnOk result ((done self.new ≡ entry_of self.old.next length ∷ done self.old) × (self.new.next ≡ self.old.next)) }
    {
        self.entries.push(Entry {
            next: self.next,
            length,
        })?;
        Ok(())
    }

    /// Adds the entry of a declaration.
    fn declare(&mut self) -> Result<(), AllocError>
        ensures { OnOk result ((done self.new ≡ entry_of (self.old.next - 1) 1 ∷ done self.old) × (self.new.next ≡ self.old.next - 1)) }
    {
        self.next = self.next.saturating_sub(1);
        self.add(1)
    }

    /// Adds an entry behind the first `from` ones.
    fn join(&mut self, from: usize) -> Result<(), AllocError>
        ensures { OnOk result ((done self.new ≡ entry_of self.old.next (suc (length (done self.old) - from)) ∷ done self.old) × (self.new.next ≡ self.old.next)) }
    {
        let length = self.len().saturating_sub(from);
        self.add(1 + length)
    }
}

/// Numbers a part, but for the parts in it, which are left to look at.
fn number_part<'a>(
    parts: &mut Parts<'a>,
    numbering: &mut Numbering,
    part: Part<'a>,
) -> Result<(), AllocError>
    ensures same { OnOk result ((n : ℕ) → numbering.old.next ≡ n + all_of (part.entry ∷ listed parts.old) → (numbering.new.next ≡ n + all_of (listed parts.new))
        × (laid n (listed parts.new) (done numbering.new) ≡ laid n (part.entry ∷ listed parts.old) (done numbering.old))) }
    ensures less { OnOk result (weigh_parts (listed parts.new) < weigh_parts (part.entry ∷ listed parts.old)) }
{
    match part {
        Part::Expr { .. } | Part::Args { .. } => Ok(()),
        Part::Stmt(s) => match s {
            Stmt::Var { .. } => numbering.declare(),
            Stmt::Return { .. } | Stmt::Eval { .. } | Stmt::Print { .. } => numbering.add(1),
            Stmt::If { then: inner, .. }
            | Stmt::StrayElse { body: inner, .. }
            | Stmt::While { body: inner, .. } => parts.push(Part::Stmt(inner)),
            Stmt::IfElse {
                then,
                otherwise,
                ..
            } => {
                parts.push(Part::Join {
                    from: numbering.len(),
                })?;
                parts.push(Part::Stmt(then))?;
                parts.push(Part::Stmt(otherwise))
            }
            Stmt::Block { body, .. } => parts.push(Part::Stmts(body)),
        },
        Part::Stmts(ss) => match ss {
            Stmts::Empty => numbering.add(1),
            Stmts::Next { first, rest } => {
                parts.push(Part::Join {
                    from: numbering.len(),
                })?;
                parts.push(Part::Stmt(first))?;
                parts.push(Part::Stmts(rest))
            }
        },
        Part::Join { from } => numbering.join(from),
    }
}

/// The numbering of a statement behind whose variables the number `end` comes.
pub(crate) fn numbering_of(alloc: Global, s: &Stmt, end: u32) -> Result<Vec<Entry>, AllocError>
    ensures { IfOk result (λ entries. (n : ℕ) → end ≡ n + variables_in (stmt_of s.now) → entries.items ≡ numbers n (stmt_of s.now)) }
{
    let mut parts = Parts::new(alloc);
    let mut numbering = Numbering {
        entries: Vec::new(alloc),
        next: end,
    };
    number_part(&mut parts, &mut numbering, Part::Stmt(s))?;
    while let Some(part) = parts.pop() {
        number_part(&mut parts, &mut numbering, part)?;
    }
    let mut entries = numbering.entries;
    entries.reverse();
    Ok(entries)
}

/// The number of the next variable where a numbering begins.
pub(crate) fn next_number(numbering: &[Entry]) -> u32
    ensures { result ≡ next_in numbering.now }
{
    match numbering.first() {
        Some(entry) => entry.next,
        None => 0,
    }
}

/// The numberings of the two parts of a numbering.
pub(crate) fn parts_of(numbering: &[Entry]) -> (&[Entry], &[Entry])
    ensures { (result.0.now ≡ take (first_length numbering.now) (drop 1 numbering.now)) × (result.1.now ≡ drop (first_length numbering.now) (drop 1 numbering.now)) }
{
    let inner = numbering.get(1..).unwrap_or(&[]);
    let length = inner.first().map_or(0, |entry| entry.length);
    inner.split_at(length.min(inner.len()))
}
