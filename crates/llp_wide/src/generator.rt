// The sets and the tables of a grammar where two terminals are looked back at, or why it has none.

ghost use Rattle.std.specs.Prelude.{◌≡◌, ◌⊎◌, IfErr, IfOk, IfSome};
ghost use Rattle.grammar_file.specs.Grammar.{IsWellFormed};
ghost use Rattle.llp_tables.specs.EntryTable.{AreTablesOf, EntryTable};
ghost use Rattle.llp_tables.specs.Lookback.{IsLlp};
ghost use Rattle.ll1_sets.specs.Width.{width_of};
ghost use Rattle.ll1_sets.specs.GrammarSets.{AreLl1Sets};
ghost use Rattle.ll1_sets.specs.Predict.{IsLl1};
ghost use Rattle.ll1_sets.specs.Table.{IsLl1Table};
ghost use Rattle.llp_wide.specs.Triples.{AreLayers};
ghost use Rattle.llp_wide.specs.Wide.{IsWideLlp};
ghost use Rattle.llp_wide.specs.WideEntries.{AreWideTablesOf};
ghost use Rattle.llp_wide.specs.WideFaults.{IsWideFault};
ghost use Rattle.llp_wide.specs.WideLookbacks.{AreWideLookbacksOf};
ghost use Rattle.llp_wide.specs.declared.fault.WideFault.TheVariants.{Wide as AnyWide, NoMemory};

use crate::conflicts::WideConflict;
use crate::endings::endings;
use crate::fault::WideFault;
use crate::lookback_table::WideLookbacks;
use crate::pieces::pieces_of;
use crate::survey::places;
use crate::triples::{Triples, conflict_or_triples};
use crate::wide_table::WideTables;
use grammar_file::Grammar;
use ll1_sets::{Ll1Sets, Ll1Table, width_of};
use std::alloc::{AllocError, Global};

/// The fault of two stacks that may be closed.
fn wide_fault(conflict: WideConflict) -> WideFault
    ensures { result ≡ AnyWide conflict.z conflict.a conflict.b conflict.first conflict.second }
{
    WideFault::Wide {
        z: conflict.z,
        a: conflict.a,
        b: conflict.b,
        first: conflict.first,
        second: conflict.second,
    }
}

/// The sets of a grammar that is LL(1) and LLP(2,1), if there was memory for all triples.
fn lookbacks_by(grammar: &Grammar, triples: Option<Triples>) -> Result<WideLookbacks, AllocError>
    requires well_formed { IsWellFormed grammar.now }
    requires ll1 { IsLl1 grammar.now }
    requires llp { IsWideLlp grammar.now }
    requires triples { IfSome triples (λ t. AreLayers grammar.now (width_of grammar.now) t.numbers.items t.stacks.items) }
    ensures { IfOk result (AreWideLookbacksOf grammar.now) }
{
    match triples {
        Some(triples) => Ok(WideLookbacks::new(width_of(grammar), triples)),
        None => Err(AllocError),
    }
}

/// The sets PSLS of an LL(1) grammar where two terminals are looked back at, or its least conflict.
fn lookbacks_of(
    alloc: Global,
    grammar: &Grammar,
    sets: &Ll1Sets,
) -> Result<WideLookbacks, WideFault>
    requires { AreLl1Sets grammar.now sets.now }
    ensures ok { IfOk result (λ lookbacks. AreWideLookbacksOf grammar.now lookbacks) }
    ensures fault { IfErr result (λ fault. (fault ≡ NoMemory) ⊎ IsWideFault grammar.now fault) }
    ensures served { IsLlp grammar.now → IfErr result (λ fault. fault ≡ NoMemory) }
{
    let endings = endings(alloc, grammar, sets.nullable.as_slice())?;
    let places = places(alloc, grammar, sets.nullable.as_slice(), endings.as_slice())?;
    let (conflict, triples) = conflict_or_triples(alloc, grammar, sets, places.as_slice())?;
    match conflict {
        Some(conflict) => Err(wide_fault(conflict)),
        None => Ok(lookbacks_by(grammar, triples)?),
    }
}

impl WideLookbacks {
    /// The sets PSLS of a grammar where two terminals are looked back at, or its least conflict: exactly where it isn't LL(1) and
    /// LLP(2,1). Where one terminal of look-back serves a grammar, two do, or memory runs out.
    pub fn of(alloc: Global, grammar: &Grammar) -> Result<WideLookbacks, WideFault>
        ensures ok { IfOk result (λ lookbacks. AreWideLookbacksOf grammar.now lookbacks) }
        ensures fault { IfErr result (λ fault. (fault ≡ NoMemory) ⊎ IsWideFault grammar.now fault) }
        ensures served { IsLl1 grammar.now → IsLlp grammar.now → IfErr result (λ fault. fault ≡ NoMemory) }
    {
        let sets = Ll1Sets::of(alloc, grammar)?;
        lookbacks_of(alloc, grammar, &sets)
    }
}

/// The tables of a grammar from its sets.
fn tables_by(
    alloc: Global,
    grammar: &Grammar,
    table: &Ll1Table,
    lookbacks: WideLookbacks,
) -> Result<WideTables, AllocError>
    requires well_formed { IsWellFormed grammar.now }
    requires table { IsLl1Table grammar.now table.now }
    requires lookbacks { AreWideLookbacksOf grammar.now lookbacks }
    ensures { IfOk result (AreWideTablesOf grammar.now) }
{
    let pieces = pieces_of(alloc, grammar, table, lookbacks.stacks())?;
    Ok(WideTables::new(width_of(grammar), lookbacks.into_numbers(), pieces))
}

impl WideTables {
    /// The tables of a grammar where two terminals are looked back at, or its least conflict: exactly where it isn't LL(1) and
    /// LLP(2,1). Where a grammar has tables with one terminal of look-back, it has these, or memory runs out.
    pub fn build(alloc: Global, grammar: &Grammar) -> Result<WideTables, WideFault>
        ensures ok { IfOk result (λ tables. AreWideTablesOf grammar.now tables) }
        ensures fault { IfErr result (λ fault. (fault ≡ NoMemory) ⊎ IsWideFault grammar.now fault) }
        ensures tabled { (t : EntryTable) → AreTablesOf grammar.now t → IfErr result (λ fault. fault ≡ NoMemory) }
    {
        let sets = Ll1Sets::of(alloc, grammar)?;
        let lookbacks = lookbacks_of(alloc, grammar, &sets)?;
        Ok(tables_by(alloc, grammar, &sets.table, lookbacks)?)
    }
}
