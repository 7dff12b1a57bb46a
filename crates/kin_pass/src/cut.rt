//! The three lists are cut at the ends of stretches.
ghost use Rattle.std.specs.Prelude.{◌≡◌, ℕ, ◌<◌, ◌≤◌, Some, [], length, take, drop, map, flat_map, slice_get, vec_capacity};
ghost use Rattle.list_cuts.specs.Cuts.{number_at, AreCuts, start_of};
ghost use Rattle.list_parts.specs.Parts.{part_items, part_start, Chain, Follows};
ghost use Rattle.kin_pass.specs.Lists.{AreWide, EachList, rows_in};
ghost use Rattle.kin_pass.specs.declared.kin_parts.KinParts.{KinParts as AnyParts};

use crate::kin_parts::KinParts;
use list_cuts::stretch_start;

// The parts of the first `at` rows, and of the others.
fn cut_in_two(parts: KinParts, at: usize) -> (KinParts, KinParts)
    requires { EachList (λ list. at ≤ length (part_items (list parts))) }
    ensures place { EachList (λ list. (part_start (list result.0) ≡ part_start (list parts)) × Follows 4 (list result.0) (list result.1)) }
    ensures items { EachList (λ list. (part_items (list result.0) ≡ take at (part_items (list parts))) × (part_items (list result.1) ≡ drop at (part_items (list parts)))) }
{
    let KinParts {
        parents,
        lows,
        places,
    } = parts;
    let (parents, next_parents) = parents.cut(at);
    let (lows, next_lows) = lows.cut(at);
    let (places, next_places) = places.cut(at);
    let first = KinParts {
        parents,
        lows,
        places,
    };
    let second = KinParts {
        parents: next_parents,
        lows: next_lows,
        places: next_places,
    };
    (first, second)
}

// How many rows stretch number c has.
fn count_rows(ends: &[usize], c: usize) -> usize
    requires inside { c < length ends.now }
    requires order { start_of ends.now c ≤ number_at ends.now c }
    ensures { result ≡ rows_in ends.now c }
{
    ends[c] - stretch_start(ends, c)
}

/// The parts of the stretches that end at these places, in order. They are put into a list that has room for them.
pub(crate) fn cut_at_ends(whole: KinParts, ends: &[usize], room: Vec<KinParts>) -> Vec<KinParts>
    requires some { 0 < length ends.now }
    requires cuts { EachList (λ list. AreCuts ends.now (length (part_items (list whole)))) }
    requires room { (room.items ≡ []) × (length ends.now ≤ vec_capacity room) }
    ensures count { length result.items ≡ length ends.now }
    ensures place { EachList (λ list. Chain 4 (part_start (list whole)) (map list result.items)) }
    ensures whole { EachList (λ list. flat_map part_items (map list result.items) ≡ part_items (list whole)) }
    ensures wide { (c : ℕ) (x : AnyParts) → slice_get result.items c ≡ Some x → AreWide (rows_in ends.now c) x }
{
    let last = ends.len() - 1;
    let mut parts = room;
    let mut rest = whole;
    for c in 0..last {
        let (part, behind) = cut_in_two(rest, count_rows(ends, c));
        parts.push_reserved(part);
        rest = behind;
    }
    parts.push_reserved(rest);
    parts
}
