// The tables as gluing asks them, and what it comes to by them.

ghost use Rattle.std.specs.Prelude.{ℕ, List, Option};
ghost use Rattle.grammar_file.specs.declared.symbols.Symbol.{Symbol};
ghost use Rattle.grammar_file.specs.Grammar.{Grammar};
ghost use Rattle.llp_tables.specs.Tables.{Entry as AnyEntry};
ghost use Rattle.glue_summary.specs.Pieces.{ArePieces, IsClosedBehind};
ghost use Rattle.glue_summary.specs.declared.behind.Behind.{Behind};
ghost use Rattle.glue_summary.specs.Stretch.{IsGlueFault, IsGlued, ended_by};
ghost use Rattle.glue_summary.specs.declared.fault.ParseFault.{ParseFault};
ghost use Rattle.llp_wide.specs.Wide.{IsWideLookback};
ghost use Rattle.llp_wide.specs.WideEntries.{AreWideTables, WideTable, wide_entry_of};
ghost use Rattle.llp_wide.specs.WideParsing.{IsFaultByWide, IsLeftParseByWide, wide_end};

use crate::wide_table::WideTables;
use glue_summary::{PieceTables, pieces_make_the_parse};
use llp_tables::Entry;

impl PieceTables for WideTables {
    ghost use Rattle.llp_wide.specs.WideEntries.{wide_entry_of};
    ghost use Rattle.llp_wide.specs.WideParsing.{wide_end};

    ghost pieces = { wide_entry_of };

    ghost mark = { wide_end };

    fn piece(&self, z: u16, a: u16, b: u16) -> Option<Entry<'_>> {
        self.entry(z, a, b)
    }

    fn end(&self) -> u16 {
        self.width().saturating_sub(1)
    }
}

/// What can be closed on a stack behind two tokens is a member of their set. So tables with two tokens of look-back are pieces of their
/// grammar: where the pairs of a word meet the stack of the start, their productions are the word's left parse, by every grammar of the
/// tables, and else the least pair that fails is the place of the fault.
pub fn wide_tables_make_the_parse()
    ensures closed { (g : Grammar) (k : Behind) (b : ℕ) (beta : List Symbol) → IsClosedBehind g k b beta → IsWideLookback g k.before_last k.last b beta }
    ensures pieces { (g : Grammar) (entry : ℕ → ℕ → ℕ → Option AnyEntry) → AreWideTables g entry → ArePieces g entry }
    ensures ok { (t : WideTable) (word ps : List ℕ) → IsGlued (wide_entry_of t) (wide_end t) (ended_by (wide_end t) word) ps → IsLeftParseByWide t word ps }
    ensures fault { (t : WideTable) (word : List ℕ) (fault : ParseFault) → IsGlueFault (wide_entry_of t) (wide_end t) (ended_by (wide_end t) word) fault → IsFaultByWide t word fault }
{
    pieces_make_the_parse();
}
