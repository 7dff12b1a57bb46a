//! The nearest value behind a place.
ghost use Rattle.std.specs.Prelude.{◌≡◌, ◌+◌, ◌*◌, ◌<◌, ◌≤◌, ◌≤ℤ◌, ◌<ℤ◌, true, false, length, IfSome, IfNone};
ghost use Rattle.near_smaller.specs.Nearest.{value_at, AreAbove, IsNext};
ghost use Rattle.near_smaller.specs.Levels.{AreLevels, lists_of, level_at};
ghost use Rattle.near_smaller.specs.Climbs.{PassesBehind, EndsBehind};

// Whether the block right behind this one is of the same pair and has a value at most x.
fn ends_behind(level: &[i64], block: usize, x: i64) -> bool
    requires { block ≤ length level.now }
    ensures found { result ≡ true → IsNext level.now block x (block + 1) }
    ensures passed { result ≡ false → PassesBehind level.now block x }
{
    block % 2 == 0 && block + 1 < level.len() && level[block + 1] <= x
}

// Of the two blocks that make up a block, the first if it has a value at most x.
fn first_half(level: &[i64], block: usize, x: i64) -> usize
    requires { 2 * block < length level.now }
    ensures first { value_at level.now (2 * block) ≤ℤ x → result ≡ 2 * block }
    ensures second { x <ℤ value_at level.now (2 * block) → result ≡ 2 * block + 1 }
{
    if level[2 * block] <= x {
        2 * block
    } else {
        2 * block + 1
    }
}

/// The least height at which the block behind that of place i, in the same pair, has a value at most x.
pub(crate) fn height_behind(levels: &[Vec<i64>], i: usize, x: i64) -> Option<usize>
    requires levels { AreLevels (lists_of levels.now) }
    requires within { i ≤ length (level_at (lists_of levels.now) 0) }
    ensures found { IfSome result (EndsBehind (lists_of levels.now) i x) }
    ensures none { IfNone result (AreAbove (level_at (lists_of levels.now) 0) x (i + 1) (length (level_at (lists_of levels.now) 0))) }
{
    for (height, level) in levels.iter().enumerate() {
        if ends_behind(level, i >> height, x) {
            return Some(height);
        }
    }
    None
}

/// The nearest place behind i whose value is at most x, from the height that was found.
pub(crate) fn place_behind(levels: &[Vec<i64>], i: usize, height: usize, x: i64) -> usize
    requires levels { AreLevels (lists_of levels.now) }
    requires within { i ≤ length (level_at (lists_of levels.now) 0) }
    requires height { EndsBehind (lists_of levels.now) i x height }
    ensures { IsNext (level_at (lists_of levels.now) 0) i x result }
{
    let mut place = (i >> height) + 1;
    for below in (0..height).rev() {
        place = first_half(&levels[below], place, x);
    }
    place
}
