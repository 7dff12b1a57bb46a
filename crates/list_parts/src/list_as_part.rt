//! A list is handed out as one part.
ghost use Rattle.std.specs.Prelude.{◌≡◌};
ghost use Rattle.core.specs.Mem.Slots.{slots_items, IsFull};
ghost use Rattle.core.specs.Mem.{type_size};
ghost use Rattle.list_parts.specs.Parts.{part_items, SamePlaces, Covers, Lies};
ghost use Rattle.list_parts.specs.declared.part.Part.{Part as Piece};

use crate::part::Part;
use core::slots::{Slots, with_slots};

/// Hands `f` the whole list as one part, with `x`. The list is then what `f` left in the part that it gives back.
pub fn with_part<T, X, R, F: FnOnce(Part<T>, X) -> (Part<T>, R)>(list: &mut [T], x: X, f: F) -> R
    requires callable { (part : Piece T) → Covers (type_size T.row) part list.old → F.pre f part x }
    requires returns { (part : Piece T) (out : Piece T × R) → Covers (type_size T.row) part list.old → F.post f part x out → SamePlaces part out.0 }
    ensures { (part : Piece T) × (back : Piece T) × Covers (type_size T.row) part list.old × F.post f part x (back, result) × (list.new ≡ part_items back) }
{
    let mut nothing = ();
    let on_slots = |row: Slots<T>, state: (), x: X| -> (Slots<T>, (), R)
        requires { IsFull row × ((part : Piece T) → Covers (type_size T.row) part (slots_items row) → F.pre f part x) }
        ensures { (part : Piece T) × (back : Piece T) × Lies (type_size T.row) part row × F.post f part x (back, result.2) × Lies (type_size T.row) back result.0 × IsFull result.0 }
    {
        let (back, out) = f(Part::of(row), x);
        (back.into_slots(), state, out)
    };
    unsafe { with_slots(list, &mut nothing, x, on_slots) }
}
