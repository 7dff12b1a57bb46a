// Laws about the definitions, each the contract of a function that does nothing.

ghost use Rattle.std.specs.Prelude.{◌≡◌, ℕ, ◌<◌, ◌≤◌, ◌^◌, ◌∷◌, ◌++◌, ◌==◌, false, List, length, All, Result, Ok};
ghost use Rattle.rv_text.specs.Written.{listed};
ghost use Rattle.rv_text.specs.Assembled.{assembled, IsAnswer};
ghost use Rattle.rv_text.specs.declared.fault.AsmFault.{AsmFault as AnyFault};

/// The listing of one to 4,194,304 words is assembled to these words, also behind a comment of at most a thousand bytes in a line of its own.
pub fn listings_are_assembled()
    ensures alone { (ws : List ℕ) → All (λ w. w < 2 ^ 32) ws → 0 < length ws → length ws ≤ 4194304 → assembled (listed ws) ≡ Ok ws }
    ensures headed { (comment ws : List ℕ) → All (λ b. (b == 10) ≡ false) comment → length comment ≤ 1000 → All (λ w. w < 2 ^ 32) ws → 0 < length ws → length ws ≤ 4194304
        → assembled (0x23 ∷ comment ++ 10 ∷ listed ws) ≡ Ok ws }
{}

/// Each text has exactly one answer, and that is what is assembled of it.
pub fn texts_have_one_answer()
    ensures there { (text : List ℕ) → IsAnswer text (assembled text) }
    ensures one { (text : List ℕ) (a b : Result (List ℕ) AnyFault) → IsAnswer text a → IsAnswer text b → a ≡ b }
{}
