// What the rule of a table of cells speaks of. No value of a view is made.
use std::collections::LinkedList;
use std::marker::Brand;

/// What a seat of a table of cells knows: the pairs that it has put, by their indexes.
pub(crate) struct PutView {
    pub put: LinkedList<u64>,
    pub share: u64,
}

/// The places and the values of a call, and a number that is above each value that is put. Nothing holds them, each call picks them.
pub(crate) trait Pairs {
    ghost use Rattle.std.specs.Prelude.{ℕ, List};

    ghost places: { List ℕ };

    ghost values: { List ℕ };

    ghost limit: { ℕ };
}

impl Pairs for Brand {
    ghost use Rattle.std.specs.Prelude.{[]};

    ghost places = { [] };

    ghost values = { [] };

    ghost limit = { 0 };
}
