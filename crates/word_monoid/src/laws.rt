//! Laws of folds, each the contract of a function that does nothing.
ghost use Rattle.std.specs.Prelude.{◌≡◌, ◌+◌, ◌<◌, ◌≤◌, length, slice_get, Some};
ghost use Rattle.word_monoid.specs.Folds.{prefix_of, prefixes};

use crate::monoid::WordMonoid;

/// The joins before each item, and of all: there is one more of them than items, and the one at a place is the join of the
/// items before it.
pub fn prefixes_by_number<M: WordMonoid>(monoid: &M, items: &[M::Item], i: usize)
    ensures length { length (prefixes (M.ops monoid.now) items.now) ≡ length items.now + 1 }
    ensures each { i ≤ length items.now → slice_get (prefixes (M.ops monoid.now) items.now) i ≡ Some (prefix_of (M.ops monoid.now) items.now i) }
{
    // The contract alone speaks of these.
    let _ = monoid;
    let _ = items;
    let _ = i;
}

/// The join before the first item is the unit, and one item more is joined from the right.
pub fn prefixes_by_steps<M: WordMonoid>(monoid: &M, items: &[M::Item], i: usize)
    ensures first { prefix_of (M.ops monoid.now) items.now 0 ≡ (M.ops monoid.now).unit }
    ensures next { (x : M.Item) → slice_get items.now i ≡ Some x → prefix_of (M.ops monoid.now) items.now (i + 1) ≡ (M.ops monoid.now).join (prefix_of (M.ops monoid.now) items.now i) x }
{
    // The contract alone speaks of these.
    let _ = monoid;
    let _ = items;
    let _ = i;
}
