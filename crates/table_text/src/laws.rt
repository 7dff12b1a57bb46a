// What is told of a grammar is one thing. Each law is the contract of a function that does nothing.

ghost use Rattle.std.specs.Prelude.{◌≡◌, ℕ, List, Bool, Option};
ghost use Rattle.grammar_file.specs.Grammar.{Grammar, IsWellFormed};
ghost use Rattle.grammar_file.specs.Spelling.{IsReduced};
ghost use Rattle.ll1_sets.specs.Predict.{IsLl1};
ghost use Rattle.llp_tables.specs.Tables.{AreTables, Entry};
ghost use Rattle.llp_wide.specs.Wide.{IsWideLlp};
ghost use Rattle.llp_wide.specs.WideEntries.{AreWideTables, CountsTriples};
ghost use Rattle.llp_wide.specs.WideFaults.{IsWideFault};
ghost use Rattle.llp_wide.specs.declared.fault.WideFault.{WideFault};
ghost use Rattle.table_text.specs.Answers.{IsTableAnswer};
ghost use Rattle.table_text.specs.declared.answer.TableAnswer.{TableAnswer};

use grammar_file::{files_spell_one_answer, spelled_grammars_are_well_formed};
use llp_tables::{grammars_have_one_answer, ll1_has_no_left_recursion};
use llp_wide::one_terminal_serves_two;

/// Where two terminals are looked back at, a grammar has one answer, too: one fault, or tables, with one number of triples.
pub fn wide_grammars_have_one_answer()
    ensures fault { (g : Grammar) (f h : WideFault) → IsWideFault g f → IsWideFault g h → f ≡ h }
    ensures no_tables { (g : Grammar) → IsWellFormed g → IsReduced g → (f : WideFault) → IsWideFault g f → IsLl1 g → IsWideLlp g → ⊥ }
    ensures count { (g : Grammar) (m n : ℕ) → CountsTriples g m → CountsTriples g n → m ≡ n }
{
    grammars_have_one_answer();
    ll1_has_no_left_recursion();
}

/// A grammar has one table of entries: what is closed is the only member of its set, and its piece is the only one in an LL(1) grammar.
pub fn tables_are_unique()
    ensures pairs { (g : Grammar) (entry other : ℕ → ℕ → Option Entry) → AreTables g entry → AreTables g other → (a b : ℕ) → entry a b ≡ other a b }
    ensures triples { (g : Grammar) (entry other : ℕ → ℕ → ℕ → Option Entry) → AreWideTables g entry → AreWideTables g other → (z a b : ℕ) → entry z a b ≡ other z a b }
{
    one_terminal_serves_two();
}

/// A grammar file and a word have one answer, with the entries or without them.
pub fn files_have_one_answer()
    ensures { (bytes : List ℕ) (entries : Bool) (word : Option (List ℕ)) (a b : TableAnswer) → IsTableAnswer bytes entries word a → IsTableAnswer bytes entries word b → a ≡ b }
{
    files_spell_one_answer();
    spelled_grammars_are_well_formed();
    grammars_have_one_answer();
    wide_grammars_have_one_answer();
    tables_are_unique();
}
