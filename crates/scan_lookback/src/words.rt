//! Status words: 0 while nothing is published of a chunk, then four times the code of its sum plus 1, or four times the code of its
//! prefix plus 2.
ghost use Rattle.std.specs.Prelude.{◌≡◌, ◌<◌, ◌^◌, length, slice_index};
ghost use Rattle.scan_lookback.specs.Named.{Names};
ghost use Rattle.scan_lookback.specs.Found.{IsSum, IsPrefix};

use crate::views::Chunks;
use word_monoid::WordMonoid;

// The code of a chunk's sum.
pub(crate) fn sum_code<M: WordMonoid, N: Chunks<M::Item>>(monoid: &M, c: u64, sum: M::Item) -> u64
    requires names { Names (M.ops monoid.now) N.sums N.sum_codes N.prefix_codes }
    requires sum { IsSum (M.ops monoid.now) N.sums c sum }
    ensures small { result < 2 ^ 62 }
    ensures code { result ≡ slice_index N.sum_codes c }
{
    // The contract alone speaks of it.
    let _ = c;
    monoid.word(sum)
}

// The code of the join of the sums up to a chunk and with it.
pub(crate) fn prefix_code<M: WordMonoid, N: Chunks<M::Item>>(
    monoid: &M,
    c: u64,
    prefix: M::Item,
) -> u64
    requires names { Names (M.ops monoid.now) N.sums N.sum_codes N.prefix_codes }
    requires chunk { c < length N.sums }
    requires prefix { IsPrefix (M.ops monoid.now) N.sums c prefix }
    ensures small { result < 2 ^ 62 }
    ensures code { result ≡ slice_index N.prefix_codes c }
{
    // The contract alone speaks of it.
    let _ = c;
    monoid.word(prefix)
}
