// The sets of a grammar, by how many terminals are looked back at.

ghost use Rattle.std.specs.Prelude.{◌≡◌, ◌≢◌, ◌⊎◌, true, false, Some, None, IfErr, IfOk, MatchOption};
ghost use Rattle.grammar_file.specs.Grammar.{Grammar as AnyGrammar, IsWellFormed};
ghost use Rattle.llp_tables.specs.Tables.{IsTableFault};
ghost use Rattle.llp_tables.specs.declared.fault.TableFault.TheVariants.{NoMemory as NoMemoryForPairs};
ghost use Rattle.llp_wide.specs.WideFaults.{IsWideFault};
ghost use Rattle.llp_wide.specs.declared.fault.WideFault.TheVariants.{NoMemory as NoMemoryForTriples};
ghost use Rattle.table_text.specs.Answers.{CountsEntries, IsConflict};
ghost use Rattle.table_text.specs.ByLookback.{AreSetsOf, IsUntabled};
ghost use Rattle.table_text.specs.Members.{members_of};

use crate::answer::Text;
use grammar_file::{Grammar, Symbol};
use llp_tables::{Lookbacks, TableFault};
use llp_wide::{WideFault, WideLookbacks};
use std::alloc::{AllocError, Global};

/// Why a grammar has no tables.
#[derive(Drop)]
pub(crate) enum Untabled {
    /// The line of its least conflict.
    Conflict(Text),
    /// Memory ran out.
    NoMemory,
}

impl From<AllocError> for Untabled {
    ghost use Rattle.std.specs.Prelude.{◌≡◌};
    ghost use Rattle.table_text.specs.declared.lookback.Untabled.TheVariants.{NoMemory};

    ghost from_gives = { λ _ e. e ≡ NoMemory };

    fn from(_: AllocError) -> Untabled {
        Untabled::NoMemory
    }
}

fn ran_out_of_pairs(fault: &TableFault) -> bool
    ensures yes { result ≡ true → fault.now ≡ NoMemoryForPairs }
    ensures no_other { result ≡ false → fault.now ≢ NoMemoryForPairs }
{
    matches!(fault, TableFault::NoMemory)
}

fn ran_out_of_triples(fault: &WideFault) -> bool
    ensures yes { result ≡ true → fault.now ≡ NoMemoryForTriples }
    ensures no_other { result ≡ false → fault.now ≢ NoMemoryForTriples }
{
    matches!(fault, WideFault::NoMemory)
}

// Whether one terminal is looked back at, and not two.
fn is_one(grammar: &Grammar) -> bool
    requires { IsWellFormed grammar.now }
    ensures yes { result ≡ true → grammar.now.lookback ≡ 1 }
    ensures no_other { result ≡ false → grammar.now.lookback ≡ 2 }
{
    grammar.lookback() == 1
}

// The line of a conflict where one terminal is looked back at.
fn line_of_pairs(alloc: Global, grammar: &Grammar, fault: &TableFault) -> Result<Text, AllocError>
    requires lookback { grammar.now.lookback ≡ 1 }
    requires fault { (fault.now ≡ NoMemoryForPairs) ⊎ IsTableFault grammar.now fault.now }
    ensures { IfOk result (IsConflict grammar.now) }
{
    if ran_out_of_pairs(fault) {
        return Err(AllocError);
    }
    Ok(Text::new(fault.line(alloc, grammar)?))
}

// The line of a conflict where two terminals are looked back at.
fn line_of_triples(alloc: Global, grammar: &Grammar, fault: &WideFault) -> Result<Text, AllocError>
    requires lookback { grammar.now.lookback ≡ 2 }
    requires fault { (fault.now ≡ NoMemoryForTriples) ⊎ IsWideFault grammar.now fault.now }
    ensures { IfOk result (IsConflict grammar.now) }
{
    if ran_out_of_triples(fault) {
        return Err(AllocError);
    }
    Ok(Text::new(fault.line(alloc, grammar)?))
}

/// The sets of a grammar, for which no piece is made.
#[derive(Drop)]
pub(crate) enum Sets {
    /// One terminal is looked back at.
    One(Lookbacks),
    /// Two terminals are looked back at.
    Two(WideLookbacks),
}

impl Sets {
    /// The sets of a grammar, by its lookback.
    pub(crate) fn of(alloc: Global, grammar: &Grammar) -> Result<Sets, Untabled>
        requires { IsWellFormed grammar.now }
        ensures sets { IfOk result (AreSetsOf grammar.now) }
        ensures untabled { IfErr result (IsUntabled grammar.now) }
    {
        if is_one(grammar) {
            match Lookbacks::of(alloc, grammar) {
                Ok(sets) => Ok(Sets::One(sets)),
                Err(fault) => Err(Untabled::Conflict(line_of_pairs(alloc, grammar, &fault)?)),
            }
        } else {
            match WideLookbacks::of(alloc, grammar) {
                Ok(sets) => Ok(Sets::Two(sets)),
                Err(fault) => Err(Untabled::Conflict(line_of_triples(alloc, grammar, &fault)?)),
            }
        }
    }

    /// What is closed where b comes next behind z and then a, the uppermost symbol first. Where one terminal is looked back at, z is
    /// passed over.
    pub(crate) fn member(&self, z: u16, a: u16, b: u16) -> Option<&[Symbol]>
        ensures { MatchOption result (members_of self.now z a b ≡ None) (λ closes. members_of self.now z a b ≡ Some closes.now) }
    {
        match self {
            Sets::One(sets) => sets.member(a, b),
            Sets::Two(sets) => sets.member(z, a, b),
        }
    }

    /// How many of the sets have a member, and so how many entries the grammar's tables have.
    pub(crate) fn entries(&self) -> u64
        ensures { (g : AnyGrammar) → AreSetsOf g self.now → CountsEntries g result }
    {
        match self {
            Sets::One(sets) => sets.entries(),
            Sets::Two(sets) => sets.entries(),
        }
    }
}
