//! Reading columns of rows.
ghost use Rattle.std.specs.Prelude.{◌≡◌, slice_index_or, None};
ghost use Rattle.folded_rows.specs.Columns.{kind_in, left_of, right_of, value_in};

use ast_rows::reading::{kind, number};
use source_meaning::Kind;
use std::marker::Model;

/// The columns of rows: kinds, parents, own tokens, places among the siblings, and the first rows of subtrees. Contracts see the lists.
#[derive(Drop)]
pub(crate) struct RowColumns<'a> {
    pub(crate) kinds: &'a [Kind],
    pub(crate) parents: &'a [u32],
    pub(crate) tokens: &'a [u32],
    pub(crate) places: &'a [u32],
    pub(crate) lows: &'a [u32],
}

impl<'a> Model for RowColumns<'a> {
    ghost use Rattle.folded_rows.specs.Columns.{Columns};

    ghost Value = { Columns };

    ghost view = { λ c. record {
      kinds = c.kinds.now;
      parents = c.parents.now;
      tokens = c.tokens.now;
      places = c.places.now;
      lows = c.lows.now;
    } };
}

impl RowColumns<'_> {
    /// The kind of a row; where there is none, that of the root.
    pub(crate) fn kind(&self, k: u32) -> Kind
        ensures { result ≡ kind_in self.now k }
    {
        kind(self.kinds, k)
    }

    /// The last child of a row that has children.
    pub(crate) fn right(&self, k: u32) -> u32
        ensures { result ≡ right_of self.now k }
    {
        k.saturating_sub(1)
    }

    /// The child before the last one, of a row that has two.
    pub(crate) fn left(&self, k: u32) -> u32
        ensures { result ≡ left_of self.now k }
    {
        number(self.lows, k.saturating_sub(1)).saturating_sub(1)
    }
}

/// The constant that a row is known to be; where there is no row, none.
pub(crate) fn value(values: &[Option<u32>], k: u32) -> Option<u32>
    ensures { result ≡ value_in values.now k }
{
    values.get(k as usize).copied().flatten()
}
