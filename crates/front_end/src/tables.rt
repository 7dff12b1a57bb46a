//! The parse tables of the language.
ghost use Rattle.std.specs.Prelude.{◌≡◌, IfOk};
ghost use Rattle.source_meaning.specs.Grammar.{grammar};
ghost use Rattle.grammar_file.specs.Spelling.{IsReduced};
ghost use Rattle.llp_tables.specs.EntryTable.{AreTablesOf};

use grammar_file::{G2, Grammar, spelled_grammars_are_well_formed};
use llp_tables::{Tables, g2_is_ll1_and_llp, grammars_have_one_answer};
use source_meaning::grammar_is_spelled;
use std::alloc::{AllocError, Global};

/// The language's grammar, read from its text.
pub fn language_grammar(alloc: Global) -> Result<Grammar, AllocError>
    ensures { IfOk result (λ g. (g ≡ grammar) × IsReduced grammar) }
{
    grammar_is_spelled();
    match Grammar::read(alloc, G2) {
        Ok(grammar) => Ok(grammar),
        Err(_) => Err(AllocError),
    }
}

/// The parse tables of the language's grammar. The text of the grammar spells it, and it is LL(1) and LLP(1,1), so the only refusal is that
/// memory is out.
pub fn language_tables(alloc: Global) -> Result<Tables, AllocError>
    ensures tables { IfOk result (λ t. AreTablesOf grammar t) }
    ensures reduced { IfOk result (λ _. IsReduced grammar) }
{
    let grammar = language_grammar(alloc)?;
    match Tables::build(alloc, &grammar) {
        Ok(tables) => Ok(tables),
        Err(_) => Err(AllocError),
    }
}
