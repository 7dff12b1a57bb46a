//! What a board's contracts name. No value of it is made.
use std::marker::Brand;

/// The items of a board as they are at first, and what an item has to be when it comes back, by its number. Each run picks it.
pub trait Goods<T> {
    ghost use Rattle.std.specs.Prelude.{ℕ, List};

    ghost items: { List T };

    ghost good: { ℕ → T → Type 0 };
}

impl<T> Goods<T> for Brand {
    ghost use Rattle.std.specs.Prelude.{[]};

    ghost items = { [] };

    ghost good = { λ _ _. Unit {0} };
}
