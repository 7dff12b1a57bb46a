//! One stretch of a list.
ghost use Rattle.std.specs.Prelude.{◌≡◌, drop, take};

// The items from a place on.
fn behind<T>(items: &[T], place: usize) -> &[T]
    ensures { result.now ≡ drop place items.now }
{
    &items[place.min(items.len())..]
}

// The first `count` items, or all if there are fewer.
fn front<T>(items: &[T], count: usize) -> &[T]
    ensures { result.now ≡ take count items.now }
{
    &items[..count.min(items.len())]
}

/// `count` items of a list from a place on, or as many as there are.
pub fn stretch_at<T>(items: &[T], place: usize, count: usize) -> &[T]
    ensures { result.now ≡ take count (drop place items.now) }
{
    front(behind(items, place), count)
}
