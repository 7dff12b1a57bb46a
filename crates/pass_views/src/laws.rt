// A law about what is shown, the contract of a function that does nothing.

ghost use Rattle.std.specs.Prelude.{◌≡◌, List, ℕ};
ghost use Rattle.command_line.specs.declared.command.Pass.{Pass};
ghost use Rattle.pass_views.specs.Shown.{IsPage, Shows};

use table_text::tables_are_unique;
use verdict::{one_tree_of_text, one_verdict};

/// There is one text to show of a pass for a source, and one page, where there is any.
pub fn views_are_one()
    ensures tables { (text : List ℕ) (pass : Pass) (a b : List ℕ) → Shows text pass a → Shows text pass b → a ≡ b }
    ensures page { (text a b : List ℕ) → IsPage text a → IsPage text b → a ≡ b }
{
    one_tree_of_text();
    one_verdict();
    tables_are_unique();
}
