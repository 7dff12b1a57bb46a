// Laws on what is said of a source, each the contract of a function that does nothing.

ghost use Rattle.std.specs.Prelude.{◌≡◌, ℕ, Bool, true, List, is_some};
ghost use Rattle.diagnostic_texts.specs.Explained.{explanation_of};
ghost use Rattle.verdict.specs.Verdict.{IsVerdict, Diagnosed, Limited};

use diagnostic_texts::explanations_are_in_order;

/// Each diagnostic and each limit that a source may have, with folding and without, has an explanation.
pub fn what_is_told_is_explained()
    ensures diagnostics { (fold : Bool) (text : List ℕ) (code place : ℕ) → IsVerdict fold text (Diagnosed code place) → is_some (explanation_of code) ≡ true }
    ensures limits { (fold : Bool) (text : List ℕ) (code place bytes : ℕ) → IsVerdict fold text (Limited code place bytes) → is_some (explanation_of code) ≡ true }
{
    explanations_are_in_order();
}
