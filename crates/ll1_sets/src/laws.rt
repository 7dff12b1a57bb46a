// What holds of every LL(1) grammar, each law the contract of a function that does nothing.

ghost use Rattle.std.specs.Prelude.{◌≡◌, List, ℕ};
ghost use Rattle.grammar_file.specs.Grammar.{Grammar, IsWellFormed};
ghost use Rattle.grammar_file.specs.Derivation.{IsLeftParse, Tree, IsParseTree};
ghost use Rattle.grammar_file.specs.Spelling.{IsReduced};
ghost use Rattle.ll1_sets.specs.Predict.{IsLl1, IsNotLeftRecursive};

/// In an LL(1) grammar a word has at most one left parse, and at most one parse tree.
pub fn ll1_is_unambiguous()
    ensures left_parse { (g : Grammar) → IsLl1 g → (word ps qs : List ℕ) → IsLeftParse g word ps → IsLeftParse g word qs → ps ≡ qs }
    ensures tree { (g : Grammar) → IsLl1 g → (word : List ℕ) (t u : Tree) → IsParseTree g word t → IsParseTree g word u → t ≡ u }
{}

/// A reduced LL(1) grammar has no left recursion.
pub fn ll1_has_no_left_recursion()
    ensures { (g : Grammar) → IsLl1 g → IsWellFormed g → IsReduced g → IsNotLeftRecursive g }
{}
