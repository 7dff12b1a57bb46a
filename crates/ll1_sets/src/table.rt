// The LL(1) parse table, terminal by terminal.

ghost use Rattle.std.specs.Prelude.{◌≡◌, ◌⊎◌, ◌<◌, ◌∷◌, [], ℕ, length, Some, IfOk, IfErr, slice_get};
ghost use Rattle.grammar_file.specs.declared.symbols.Symbol.TheVariants.{Nonterminal as AnyNonterminal};
ghost use Rattle.grammar_file.specs.Grammar.{IsWellFormed};
ghost use Rattle.grammar_file.specs.Marks.{AreMarksOf};
ghost use Rattle.ll1_sets.specs.Predict.{IsNullable, IsLl1, IsLeastConflict};
ghost use Rattle.ll1_sets.specs.Conflicts.{LeastBelow, LeastOn};
ghost use Rattle.ll1_sets.specs.Table.{IsColumn, IsLl1Table};
ghost use Rattle.ll1_sets.specs.Width.{width_of};
ghost use Rattle.ll1_sets.specs.declared.conflicts.Conflict.{Conflict as AnyConflict};
ghost use Rattle.ll1_sets.specs.declared.table.Ll1Fault.TheVariants.{Conflict as IsConflict, NoMemory as IsNoMemory};

use crate::conflicts::{Conflict, lesser};
use crate::sets::{Sets, first, follow, width_of};
use grammar_file::Grammar;
use std::alloc::{AllocError, Global};
use std::marker::Model;

/// What one terminal begins and predicts.
#[derive(Drop)]
pub struct Ll1Column {
    first: Vec<bool>,
    predictions: Vec<Option<u16>>,
}

impl Model for Ll1Column {
    ghost use Rattle.ll1_sets.specs.Table.{Column};

    ghost Value = { Column };

    ghost view = { λ c. record { first = c.first.items; predictions = c.predictions.items } };
}

impl Ll1Column {
    /// The nonterminals that have the terminal in FIRST, by marks.
    pub fn first(&self) -> &[bool]
        ensures { result.now ≡ self.now.first }
    {
        self.first.as_slice()
    }

    /// The production of each nonterminal that the terminal predicts, where there is one.
    pub fn predictions(&self) -> &[Option<u16>]
        ensures { result.now ≡ self.now.predictions }
    {
        self.predictions.as_slice()
    }
}

/// The column of the terminal b, and the least conflict on it.
fn column_of(
    alloc: Global,
    grammar: &Grammar,
    nullable: &[bool],
    b: u16,
) -> Result<(Ll1Column, Option<Conflict>), AllocError>
    requires { AreMarksOf grammar.now (λ a. IsNullable grammar.now (AnyNonterminal a ∷ [])) nullable.now }
    ensures column { IfOk result (λ r. IsColumn grammar.now b r.0) }
    ensures conflict { IfOk result (λ r. LeastOn grammar.now b r.1) }
{
    let first = first(alloc, grammar, nullable, b)?;
    let follow = follow(alloc, grammar, nullable, first.as_slice(), b)?;
    let sets = Sets {
        grammar,
        nullable,
        first: first.as_slice(),
        follow: follow.as_slice(),
        b,
    };
    let found = sets.predicted(alloc)?;
    let predictions = found.predictions;
    Ok((Ll1Column { first, predictions }, found.conflict))
}

/// The columns of all terminals, and the least conflict.
fn columns_of(
    alloc: Global,
    grammar: &Grammar,
    nullable: &[bool],
) -> Result<(Vec<Ll1Column>, Option<Conflict>), AllocError>
    requires { AreMarksOf grammar.now (λ a. IsNullable grammar.now (AnyNonterminal a ∷ [])) nullable.now }
    ensures columns { IfOk result (λ r. IsLl1Table grammar.now r.0.items) }
    ensures conflict { IfOk result (λ r. LeastBelow grammar.now (width_of grammar.now) r.1) }
{
    let width = width_of(grammar);
    let mut columns = Vec::with_capacity(alloc, width as usize)?;
    let mut best = None;
    for b in 0..width {
        let (column, conflict) = column_of(alloc, grammar, nullable, b)?;
        columns.push(column)?;
        best = lesser(best, conflict);
    }
    Ok((columns, best))
}

/// Why a grammar isn't LL(1), or that memory ran out.
#[derive(Drop)]
pub enum Ll1Fault {
    /// The nonterminal derives, in one or more steps, a form that begins with itself.
    LeftRecursive(u16),
    /// A terminal predicts two productions of a nonterminal.
    Conflict(Conflict),
    /// Memory ran out.
    NoMemory,
}

impl From<AllocError> for Ll1Fault {
    ghost use Rattle.std.specs.Prelude.{◌≡◌};
    ghost use Rattle.ll1_sets.specs.declared.table.Ll1Fault.TheVariants.{NoMemory};

    ghost from_gives = { λ _ e. e ≡ NoMemory };

    fn from(_: AllocError) -> Ll1Fault {
        Ll1Fault::NoMemory
    }
}

/// The LL(1) parse table of a grammar: a column for each terminal, by number, the two marks among them.
#[derive(Drop)]
pub struct Ll1Table {
    columns: Vec<Ll1Column>,
}

impl Model for Ll1Table {
    ghost use Rattle.std.specs.Prelude.{List};
    ghost use Rattle.ll1_sets.specs.Table.{Column};

    ghost Value = { List Column };

    ghost view = { λ t. t.columns.items };
}

impl Ll1Table {
    /// The parse table, or the least conflict: the least nonterminal, then the least terminal, then the two least productions. There is one
    /// exactly where the grammar isn't LL(1). An LL(1) grammar has its table, or memory runs out.
    pub fn of(alloc: Global, grammar: &Grammar, nullable: &[bool]) -> Result<Ll1Table, Ll1Fault>
        requires well_formed { IsWellFormed grammar.now }
        requires marks { AreMarksOf grammar.now (λ a. IsNullable grammar.now (AnyNonterminal a ∷ [])) nullable.now }
        ensures ok { IfOk result (λ table. IsLl1Table grammar.now table × IsLl1 grammar.now) }
        ensures fault { IfErr result (λ fault. (fault ≡ IsNoMemory)
            ⊎ ((k : AnyConflict) × (fault ≡ IsConflict k) × IsLeastConflict grammar.now k.nonterminal k.b k.p1 k.p2)) }
        ensures served { IsLl1 grammar.now → IfErr result (λ fault. fault ≡ IsNoMemory) }
    {
        let (columns, conflict) = columns_of(alloc, grammar, nullable)?;
        match conflict {
            Some(conflict) => Err(Ll1Fault::Conflict(conflict)),
            None => Ok(Ll1Table { columns }),
        }
    }

    /// The column of the terminal b.
    pub fn column(&self, b: u16) -> &Ll1Column
        requires { b < length self.now }
        ensures { slice_get self.now b ≡ Some result.now }
    {
        &self.columns[b as usize]
    }
}
