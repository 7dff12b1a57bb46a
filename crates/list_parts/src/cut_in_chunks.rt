//! A part is cut into chunks, and glued from them.
ghost use Rattle.std.specs.Prelude.{◌≡◌, ℕ, ◌+◌, ◌-◌, ◌*◌, ◌<◌, ◌≤◌, [], length, flat_map, slice_get, Some, vec_capacity};
ghost use denote.RawPtr.{Ptr};
ghost use Rattle.core.specs.Mem.{type_size};
ghost use Rattle.chunk_seats.specs.Chunks.{chunk_of};
ghost use Rattle.list_parts.specs.Parts.{part_items, part_start, Chain, Fits};
ghost use Rattle.list_parts.specs.declared.part.Part.{Part as Piece};

use crate::part::Part;

impl<T> Part<T> {
    /// This many chunks of that size, the last of which may be shorter. They are put into a list that has room for them.
    pub fn cut_all(self, size: usize, count: usize, room: Vec<Part<T>>) -> Vec<Part<T>>
        requires room { (room.items ≡ []) × (count ≤ vec_capacity room) }
        requires count { (1 ≤ count) × ((count - 1) * size ≤ length (part_items self)) × (length (part_items self) ≤ count * size) }
        ensures count { length result.items ≡ count }
        ensures place { Chain (type_size T.row) (part_start self) result.items }
        ensures whole { flat_map part_items result.items ≡ part_items self }
        ensures items { (c : ℕ) (part : Piece T) → slice_get result.items c ≡ Some part → part_items part ≡ chunk_of size (part_items self) c }
    {
        let mut parts = room;
        let mut rest = self;
        for _ in 1..count {
            let (part, behind) = rest.cut(size);
            parts.push_reserved(part);
            rest = behind;
        }
        parts.push_reserved(rest);
        parts
    }

    /// The parts, which lie one behind the other, as one.
    pub fn glue_all(parts: Vec<Part<T>>) -> Part<T>
        requires some { 0 < length parts.items }
        requires place { (start : Ptr) × Chain (type_size T.row) start parts.items }
        requires size { Fits (type_size T.row) (length (flat_map part_items parts.items)) }
        ensures place { (start : Ptr) → Chain (type_size T.row) start parts.items → part_start result ≡ start }
        ensures items { part_items result ≡ flat_map part_items parts.items }
    {
        let mut left = parts;
        let Some(mut whole) = left.pop() else {
            unreachable!();
        };
        while let Some(part) = left.pop() {
            whole = part.glue(whole);
        }
        whole
    }
}
