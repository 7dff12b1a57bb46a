// The test for LL(1): the least two productions of one nonterminal that one terminal predicts.

ghost use Rattle.std.specs.Prelude.{◌+◌, ℕ};
ghost use Rattle.grammar_file.specs.Grammar.{Grammar as AnyGrammar};
ghost use Rattle.ll1_sets.specs.Conflicts.{LeastBelow, LeastOn};

/// Two productions of a nonterminal that the terminal b predicts.
#[derive(Drop)]
pub struct Conflict {
    /// The nonterminal whose productions they are.
    pub nonterminal: u16,
    /// The terminal that predicts both.
    pub b: u16,
    /// The lesser production, by number.
    pub p1: u16,
    /// The greater one.
    pub p2: u16,
}

/// The lesser of the least conflict on the terminals so far and that on the next one.
pub(crate) fn lesser(best: Option<Conflict>, next: Option<Conflict>) -> Option<Conflict>
    ensures { (g : AnyGrammar) (n : ℕ) → LeastBelow g n best → LeastOn g n next → LeastBelow g (n + 1) result }
{
    match (best, next) {
        (None, y) => y,
        (Some(x), None) => Some(x),
        (Some(x), Some(y)) => {
            if y.nonterminal < x.nonterminal {
                Some(y)
            } else {
                Some(x)
            }
        }
    }
}
