//! Programs that are compiled have no fault: a law, the contract of a function that does nothing.
ghost use Rattle.std.specs.Prelude.{Bool, ℕ, List, length};
ghost use Rattle.source_meaning.specs.Grammar.{Tree, Prog, ast};
ghost use Rattle.source_meaning.specs.Lexemes.{tokens};
ghost use Rattle.front_end.specs.Front.{IsChecked};
ghost use Rattle.verdict.specs.Verdict.{folded_if};
ghost use Rattle.back_end.specs.Coded.{IsClean};

use code_rules::numbers_are_small;
use folding::{folded_is_clean, values_are_words};
use simulation::numbers_are_words;

/// A source without a fault of the phases up to types has a program without one, with its constants folded or as they are.
pub(crate) fn compiled_programs_are_clean()
    ensures { (fold : Bool) (text : List ℕ) (t : Tree Prog) → IsChecked text t → IsClean (length (tokens text)) (folded_if fold (ast t)) }
{
    folded_is_clean();
    values_are_words();
    numbers_are_words();
    numbers_are_small();
}
