// Laws of two terminals of look-back, each the contract of a function that does nothing.

ghost use Rattle.std.specs.Prelude.{ℕ, List};
ghost use Rattle.grammar_file.specs.declared.symbols.Symbol.{Symbol};
ghost use Rattle.grammar_file.specs.declared.symbols.Symbol.TheVariants.{Terminal};
ghost use Rattle.grammar_file.specs.Grammar.{Grammar};
ghost use Rattle.llp_tables.specs.Lookback.{IsLookback, IsLlp};
ghost use Rattle.llp_wide.specs.Wide.{IsWideLookback, IsWideLlp};
ghost use Rattle.llp_wide.specs.WideBehind.{WideBehind};

/// What stands behind two terminals stands behind the second one alone, so a grammar that needs one terminal of look-back has
/// enough of two.
pub fn one_terminal_serves_two()
    ensures within { (g : Grammar) (z a b : ℕ) (beta : List Symbol) → IsWideLookback g z a b beta → IsLookback g a b beta }
    ensures llp { (g : Grammar) → IsLlp g → IsWideLlp g }
{}

/// PSLS with two terminals of look-back by derivations is the same by rules, over which a search goes.
pub fn wide_look_back_by_rules()
    ensures by_rules { (g : Grammar) (z a b : ℕ) (beta : List Symbol) → IsWideLookback g z a b beta → WideBehind g z (Terminal a) b beta }
    ensures by_derivations { (g : Grammar) (z a b : ℕ) (beta : List Symbol) → WideBehind g z (Terminal a) b beta → IsWideLookback g z a b beta }
{}
