//! The nearest value before a place.
ghost use Rattle.std.specs.Prelude.{◌≡◌, ◌+◌, ◌-◌, ◌*◌, ◌<◌, ◌≤◌, ◌≤ℤ◌, ◌<ℤ◌, true, false, length, IfSome, IfNone};
ghost use Rattle.near_smaller.specs.Nearest.{value_at, AreAbove, IsPrevious};
ghost use Rattle.near_smaller.specs.Levels.{AreLevels, lists_of, level_at};
ghost use Rattle.near_smaller.specs.Climbs.{PassesBefore, EndsBefore};

// Whether the block right before this one is of the same pair and has a value at most x.
fn ends_before(level: &[i64], block: usize, x: i64) -> bool
    requires { block ≤ length level.now }
    ensures found { result ≡ true → IsPrevious level.now block x (block - 1) }
    ensures passed { result ≡ false → PassesBefore level.now block x }
{
    block % 2 == 1 && level[block - 1] <= x
}

// Of the two blocks that make up a block, the second if it has a value at most x.
fn last_half(level: &[i64], block: usize, x: i64) -> usize
    requires { 2 * block + 1 < length level.now }
    ensures second { value_at level.now (2 * block + 1) ≤ℤ x → result ≡ 2 * block + 1 }
    ensures first { x <ℤ value_at level.now (2 * block + 1) → result ≡ 2 * block }
{
    if level[2 * block + 1] <= x {
        2 * block + 1
    } else {
        2 * block
    }
}

/// The least height at which the block before that of place i, in the same pair, has a value at most x.
pub(crate) fn height_before(levels: &[Vec<i64>], i: usize, x: i64) -> Option<usize>
    requires levels { AreLevels (lists_of levels.now) }
    requires within { i ≤ length (level_at (lists_of levels.now) 0) }
    ensures found { IfSome result (EndsBefore (lists_of levels.now) i x) }
    ensures none { IfNone result (AreAbove (level_at (lists_of levels.now) 0) x 0 i) }
{
    for (height, level) in levels.iter().enumerate() {
        if ends_before(level, i >> height, x) {
            return Some(height);
        }
    }
    None
}

/// The nearest place before i whose value is at most x, from the height that was found.
pub(crate) fn place_before(levels: &[Vec<i64>], i: usize, height: usize, x: i64) -> usize
    requires levels { AreLevels (lists_of levels.now) }
    requires within { i ≤ length (level_at (lists_of levels.now) 0) }
    requires height { EndsBefore (lists_of levels.now) i x height }
    ensures { IsPrevious (level_at (lists_of levels.now) 0) i x result }
{
    let mut place = (i >> height) - 1;
    for below in (0..height).rev() {
        place = last_half(&levels[below], place, x);
    }
    place
}
