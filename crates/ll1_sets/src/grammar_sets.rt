// The sets of a grammar that is LL(1), each found once.

ghost use Rattle.std.specs.Prelude.{◌≡◌, ◌⊎◌, IfOk, IfErr};
ghost use Rattle.ll1_sets.specs.Predict.{IsLl1};
ghost use Rattle.ll1_sets.specs.GrammarSets.{AreLl1Sets, IsLl1Fault};
ghost use Rattle.ll1_sets.specs.declared.table.Ll1Fault.TheVariants.{NoMemory as IsNoMemory};

use crate::left_recursion::least_left_recursive;
use crate::sets::nullable;
use crate::table::{Ll1Fault, Ll1Table};
use grammar_file::Grammar;
use std::alloc::Global;

/// The sets of an LL(1) grammar.
#[derive(Drop)]
pub struct Ll1Sets {
    /// The nonterminals that derive nothing, by marks.
    pub nullable: Vec<bool>,
    /// What each terminal begins and predicts.
    pub table: Ll1Table,
}

impl Ll1Sets {
    /// The sets of a grammar, or why it isn't LL(1): its least left-recursive nonterminal, else its least conflict of predictions.
    /// An LL(1) grammar has its sets, or memory runs out.
    pub fn of(alloc: Global, grammar: &Grammar) -> Result<Ll1Sets, Ll1Fault>
        ensures ok { IfOk result (λ sets. AreLl1Sets grammar.now sets) }
        ensures fault { IfErr result (λ fault. (fault ≡ IsNoMemory) ⊎ IsLl1Fault grammar.now fault) }
        ensures served { IsLl1 grammar.now → IfErr result (λ fault. fault ≡ IsNoMemory) }
    {
        let nullable = nullable(alloc, grammar)?;
        if let Some(a) = least_left_recursive(alloc, grammar, nullable.as_slice())? {
            return Err(Ll1Fault::LeftRecursive(a));
        }
        let table = Ll1Table::of(alloc, grammar, nullable.as_slice())?;
        Ok(Ll1Sets { nullable, table })
    }
}
