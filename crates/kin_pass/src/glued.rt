//! Parts of the three lists are glued together again.
ghost use Rattle.std.specs.Prelude.{◌≡◌, ◌+◌, ◌<◌, ◌++◌, length, map, flat_map};
ghost use denote.RawPtr.{Ptr};
ghost use Rattle.list_parts.specs.Parts.{part_items, part_start, Chain, Fits, Follows};
ghost use Rattle.kin_pass.specs.Lists.{EachList};

use crate::kin_parts::KinParts;

// The parts of the rows of both.
fn glue_two(first: KinParts, second: KinParts) -> KinParts
    requires neighbours { EachList (λ list. Follows 4 (list first) (list second)) }
    requires size { EachList (λ list. Fits 4 (length (part_items (list first)) + length (part_items (list second)))) }
    ensures place { EachList (λ list. part_start (list result) ≡ part_start (list first)) }
    ensures items { EachList (λ list. part_items (list result) ≡ part_items (list first) ++ part_items (list second)) }
{
    KinParts {
        parents: first.parents.glue(second.parents),
        lows: first.lows.glue(second.lows),
        places: first.places.glue(second.places),
    }
}

/// The parts, which lie one behind the other, as one.
pub(crate) fn glue_all(parts: Vec<KinParts>) -> KinParts
    requires some { 0 < length parts.items }
    requires place { EachList (λ list. (start : Ptr) × Chain 4 start (map list parts.items)) }
    requires size { EachList (λ list. Fits 4 (length (flat_map part_items (map list parts.items)))) }
    ensures place { EachList (λ list. (start : Ptr) → Chain 4 start (map list parts.items) → part_start (list result) ≡ start) }
    ensures items { EachList (λ list. part_items (list result) ≡ flat_map part_items (map list parts.items)) }
{
    let mut left = parts;
    let Some(mut whole) = left.pop() else {
        unreachable!();
    };
    while let Some(part) = left.pop() {
        whole = glue_two(part, whole);
    }
    whole
}
