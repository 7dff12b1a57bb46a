// What the definitions say of some texts.

ghost use Rattle.std.specs.Prelude.{◌≡◌, length, codes, ◌++◌, [], ◌∷◌};
ghost use Rattle.drill_source.specs.Drill.{drawn, drill_text, main_line, next_state};

/// Some numbers, and the lengths and an end of some texts.
pub fn worked_texts()
    ensures first { drawn (next_state 1) ≡ 496 }
    ensures second { drawn (next_state (next_state 1)) ≡ 200 }
    ensures third { drawn (next_state (next_state (next_state 1))) ≡ 46 }
    ensures wraps { next_state 4294967295 ≡ 1012239698 }
    ensures main { main_line 0 ≡ codes "fn main(): int { return f0[1]; }" ++ 10 ∷ [] }
    ensures one { length (drill_text 1 1) ≡ 144 }
    ensures two { length (drill_text 1 2) ≡ 261 }
{}
