//! A part is cut in two, and neighbours are glued together.
ghost use Rattle.std.specs.Prelude.{◌≡◌, ◌+◌, ◌≤◌, ◌++◌, length, take, drop};
ghost use Rattle.core.specs.Mem.{type_size};
ghost use Rattle.list_parts.specs.Parts.{part_items, part_start, Follows, Fits};

use crate::part::Part;

impl<T> Part<T> {
    /// The first `at` values, and the others.
    pub fn cut(self, at: usize) -> (Part<T>, Part<T>)
        requires { at ≤ length (part_items self) }
        ensures place { (part_start result.0 ≡ part_start self) × Follows (type_size T.row) result.0 result.1 }
        ensures items { (part_items result.0 ≡ take at (part_items self)) × (part_items result.1 ≡ drop at (part_items self)) }
        ensures size { Fits (type_size T.row) (length (part_items self)) }
    {
        let Part { start, len } = self;
        let middle = unsafe { start.add(at) };
        let first = Part { start, len: at };
        let second = Part {
            start: middle,
            len: len - at,
        };
        (first, second)
    }

    /// This part with the values of `next` behind its own.
    pub fn glue(self, next: Part<T>) -> Part<T>
        requires neighbours { Follows (type_size T.row) self next }
        requires size { Fits (type_size T.row) (length (part_items self) + length (part_items next)) }
        ensures place { part_start result ≡ part_start self }
        ensures items { part_items result ≡ part_items self ++ part_items next }
    {
        let Part { start, len } = self;
        let Part {
            start: _,
            len: next_len,
        } = next;
        Part {
            start,
            len: len + next_len,
        }
    }
}
