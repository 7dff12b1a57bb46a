//! Worked look-backs, which the check computes.
ghost use Rattle.std.specs.Prelude.{◌≡◌, ℕ, All, List, [], ◌∷◌, slice_index};
ghost use Rattle.scan_lookback.specs.LookBacks.{IsLookBack};

/// Where of four chunks chunk 1 alone is sealed, at 10, a look-back from chunk 3 makes two loads: it finds nothing of chunk 2, and
/// the prefix of chunk 1.
pub fn worked_look_back()
    ensures made { IsLookBack 3 ((2, 0) ∷ (1, 42) ∷ []) }
    ensures no_others { (loads : List (ℕ × ℕ)) → All (λ p. p.1 ≡ slice_index (0 ∷ 42 ∷ 0 ∷ 0 ∷ []) p.0) loads → IsLookBack 3 loads → loads ≡ (2, 0) ∷ (1, 42) ∷ [] }
{}
