// Pieces in outline: what they close and open, without their productions. A word's stacks need no more, and all outlines of a grammar
// are small, where its pieces can be too long for any memory.

ghost use Rattle.std.specs.Prelude.{◌≡◌, OnOk, IfErr, IfOk, Ok as Success};
ghost use Rattle.glue_summary.specs.Parse.{IsParse};
ghost use Rattle.grammar_file.specs.Grammar.{IsWellFormed};
ghost use Rattle.grammar_file.specs.Spelling.{IsReduced};
ghost use Rattle.ll1_sets.specs.Predict.{IsLl1};
ghost use Rattle.ll1_sets.specs.Table.{IsLl1Table};
ghost use Rattle.table_text.specs.ByLookback.{AreSetsOf, IsWordFault};
ghost use Rattle.table_text.specs.Outlines.{AreOutlines};

use crate::ahead::{Ahead, aheads_of, opens_at};
use crate::lookback::Sets;
use crate::readings::readings;
use glue_summary::{ParseFault, PieceTables, ended, pieces_make_the_parse};
use grammar_file::Grammar;
use ll1_sets::{Ll1Table, nullable, width_of};
use llp_glue::meet;
use llp_tables::Entry;
use llp_wide::{one_terminal_serves_two, wide_tables_make_the_parse};
use par_passes::Passes;
use std::alloc::{AllocError, Global};

/// The pieces of a grammar in outline.
#[derive(Drop)]
pub(crate) struct Outlines {
    pub sets: Sets,
    pub table: Ll1Table,
    pub aheads: Vec<Ahead>,
    pub end: u16,
}

// The productions are left out.
impl PieceTables for Outlines {
    ghost use Rattle.table_text.specs.Outlines.{outline_end, outlines_of};

    ghost pieces = { outlines_of };

    ghost mark = { outline_end };

    fn piece(&self, z: u16, a: u16, b: u16) -> Option<Entry<'_>> {
        match self.sets.member(z, a, b) {
            Some(closes) => Some(Entry {
                closes,
                opens: opens_at(self.aheads.as_slice(), b, closes),
                productions: &[],
            }),
            None => None,
        }
    }

    fn end(&self) -> u16 {
        self.end
    }
}

/// The parse table of an LL(1) grammar: the only refusal is that memory is out.
fn table_of(alloc: Global, grammar: &Grammar) -> Result<Ll1Table, AllocError>
    requires { IsLl1 grammar.now }
    ensures { IfOk result (IsLl1Table grammar.now) }
{
    let nullable = nullable(alloc, grammar)?;
    match Ll1Table::of(alloc, grammar, nullable.as_slice()) {
        Ok(table) => Ok(table),
        Err(_) => Err(AllocError),
    }
}

impl Outlines {
    /// The outlines of a grammar's pieces, by its sets.
    pub(crate) fn of(alloc: Global, grammar: &Grammar, sets: Sets) -> Result<Outlines, AllocError>
        requires { AreSetsOf grammar.now sets }
        ensures { IfOk result (AreOutlines grammar.now) }
    {
        one_terminal_serves_two();
        wide_tables_make_the_parse();
        let table = table_of(alloc, grammar)?;
        let aheads = aheads_of(alloc, grammar, &table)?;
        Ok(Outlines {
            sets,
            table,
            aheads,
            end: width_of(grammar).saturating_sub(1),
        })
    }

    /// The left parse of a word. Its stacks come first, by the outlines alone; productions are made only where the word is a sentence, so each
    /// of them is one of its left parse.
    pub(crate) fn parse(
        &self,
        crew: &impl Passes,
        grammar: &Grammar,
        word: &[u16],
    ) -> Result<Vec<u16>, ParseFault>
        requires outlines { AreOutlines grammar.now self.now }
        requires formed { IsWellFormed grammar.now }
        requires reduced { IsReduced grammar.now }
        ensures ok { IfOk result (λ ps. IsParse grammar.now word.now (Success ps.items)) }
        ensures fault { IfErr result (IsWordFault grammar.now word.now) }
    {
        pieces_make_the_parse();
        meet(crew, self, word)?;
        let tokens = ended(crew.alloc(), self.end, word)?;
        let productions = readings(crew.alloc(), grammar, self, tokens.as_slice())?;
        Ok(productions)
    }
}
