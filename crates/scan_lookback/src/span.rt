//! Folds and prefixes of a slice of items.
ghost use Rattle.std.specs.Prelude.{◌≡◌, ◌++◌, List, length, fold, IfOk, All};
ghost use Rattle.word_monoid.specs.Monoid.{IsItem};
ghost use Rattle.word_monoid.specs.Folds.{fold_of};
ghost use Rattle.scan_lookback.specs.Cuts.{Lifts, GivesItems, running};

use std::alloc::AllocError;
use word_monoid::WordMonoid;

// The join of what is made of the items.
pub(crate) fn fold_slice<T: Copy, M: WordMonoid, F: Fn(T) -> M::Item>(
    monoid: &M,
    part: &[T],
    lift: &F,
) -> M::Item
    requires callable { All (F.pre lift.now) part.now }
    requires items { GivesItems (F.post lift.now) (M.ops monoid.now) part.now }
    ensures { (lifted : List M.Item) → Lifts (F.post lift.now) part.now lifted → result ≡ fold_of (M.ops monoid.now) lifted }
{
    let mut sum = monoid.unit();
    for x in part {
        sum = monoid.join(sum, lift(*x));
    }
    sum
}

// The joins of a start with what is made of the items before each, right behind what is in the list. The answer is the join with all of
// them.
pub(crate) fn run_onto<T: Copy, M: WordMonoid, F: Fn(T) -> M::Item>(
    monoid: &M,
    part: &[T],
    lift: &F,
    start: M::Item,
    out: &mut Vec<M::Item>,
) -> Result<M::Item, AllocError>
    requires callable { All (F.pre lift.now) part.now }
    requires items { GivesItems (F.post lift.now) (M.ops monoid.now) part.now }
    requires start { IsItem (M.ops monoid.now) start }
    ensures listed { IfOk result (λ _. (lifted : List M.Item) → Lifts (F.post lift.now) part.now lifted → out.new.items ≡ out.old.items ++ running (M.ops monoid.now) start lifted) }
    ensures joined { IfOk result (λ s. (lifted : List M.Item) → Lifts (F.post lift.now) part.now lifted → s ≡ fold (M.ops monoid.now).join start lifted) }
    ensures item { IfOk result (λ s. IsItem (M.ops monoid.now) s) }
{
    let mut sum = start;
    for x in part {
        out.push(sum)?;
        sum = monoid.join(sum, lift(*x));
    }
    Ok(sum)
}

// The joins of a start with what is made of the items before each, into a list of as many items.
pub(crate) fn run_into<T: Copy, M: WordMonoid, F: Fn(T) -> M::Item>(
    monoid: &M,
    part: &[T],
    lift: &F,
    start: M::Item,
    out: &mut [M::Item],
)
    requires callable { All (F.pre lift.now) part.now }
    requires items { GivesItems (F.post lift.now) (M.ops monoid.now) part.now }
    requires start { IsItem (M.ops monoid.now) start }
    requires wide { length out.old ≡ length part.now }
    ensures { (lifted : List M.Item) → Lifts (F.post lift.now) part.now lifted → out.new ≡ running (M.ops monoid.now) start lifted }
{
    let mut sum = start;
    for k in 0..out.len() {
        out[k] = sum;
        sum = monoid.join(sum, lift(part[k]));
    }
}
