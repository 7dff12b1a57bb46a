//! Laws about nearest values.
ghost use Rattle.std.specs.Prelude.{◌≡◌, ℕ, ◌+◌, ℤ, List, length, MatchOption};
ghost use Rattle.near_smaller.specs.Nearest.{AreAbove, IsPrevious, IsNext, prev_le, next_le};

/// What `prev_le` gives is the nearest place before another, the only one, or there is none.
pub fn previous_is_one()
    ensures given { (values : List ℤ) (i : ℕ) (x : ℤ) → MatchOption (prev_le values i x) (AreAbove values x 0 i) (IsPrevious values i x) }
    ensures one { (values : List ℤ) (i : ℕ) (x : ℤ) (j k : ℕ) → IsPrevious values i x j → IsPrevious values i x k → j ≡ k }
    ensures or_none { (values : List ℤ) (i : ℕ) (x : ℤ) (j : ℕ) → AreAbove values x 0 i → IsPrevious values i x j → ⊥ }
{}

/// What `next_le` gives is the nearest place behind another, the only one, or there is none.
pub fn next_is_one()
    ensures given { (values : List ℤ) (i : ℕ) (x : ℤ) → MatchOption (next_le values i x) (AreAbove values x (i + 1) (length values)) (IsNext values i x) }
    ensures one { (values : List ℤ) (i : ℕ) (x : ℤ) (j k : ℕ) → IsNext values i x j → IsNext values i x k → j ≡ k }
    ensures or_none { (values : List ℤ) (i : ℕ) (x : ℤ) (j : ℕ) → AreAbove values x (i + 1) (length values) → IsNext values i x j → ⊥ }
{}
