//! What the rule of a status board speaks of, and what a scan's contracts name. No value of these types is made.
ghost use Rattle.std.specs.Prelude.{◌≡◌};

use std::collections::LinkedList;
use std::marker::Brand;

/// What a seat of a status board knows: the chunks whose sum it has shown, those that it has sealed, the chunk and the word of each
/// of its loads, and how much of the board it stands for.
pub struct LookView {
    pub shown: LinkedList<u64>,
    pub sealed: LinkedList<u64>,
    pub looked: LinkedList<(u64, u64)>,
    pub share: u64,
}

/// The codes of the sums that a board is for, and of the joins of the sums up to each chunk and with it. Nothing holds them at run
/// time. Each run picks them.
pub trait Codes {
    ghost use Rattle.std.specs.Prelude.{ℕ, List};

    ghost sum_codes: { List ℕ };

    ghost prefix_codes: { List ℕ };
}

impl Codes for Brand {
    ghost use Rattle.std.specs.Prelude.{[]};

    ghost sum_codes = { [] };

    ghost prefix_codes = { [] };
}

/// The items that a run is about, and the sums of their chunks. Nothing holds them at run time either.
pub trait Chunks<I>: Codes {
    ghost use Rattle.std.specs.Prelude.{List};

    ghost items: { List I };

    ghost sums: { List I };
}

impl<I> Chunks<I> for Brand {
    ghost use Rattle.std.specs.Prelude.{[]};

    ghost items = { [] };

    ghost sums = { [] };
}

/// The code of what a closure makes of an item. A call of `scan` picks it.
pub trait Lifted<T> {
    ghost use Rattle.std.specs.Prelude.{ℕ};

    ghost code_of: { T → ℕ };
}

impl<T> Lifted<T> for Brand {
    ghost code_of = { λ _. 0 };
}

/// What is made of an item, as a function that contracts can name.
pub trait Lift<T, I> {
    ghost lifted: { Self → T → I };

    fn lift(&self, x: T) -> I
        ensures { result ≡ lifted self.now x };
}
