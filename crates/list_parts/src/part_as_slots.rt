//! A part is a full row of slots.
ghost use Rattle.core.specs.Mem.Slots.{IsFull};
ghost use Rattle.core.specs.Mem.{type_size};
ghost use Rattle.list_parts.specs.Parts.{Lies};

use crate::part::Part;
use core::slots::Slots;

impl<T> Part<T> {
    pub(crate) fn of(row: Slots<T>) -> Part<T>
        requires { IsFull row }
        ensures { Lies (type_size T.row) result row }
    {
        let parts = unsafe { row.into_raw_parts() };
        Part {
            start: parts.0,
            len: parts.1,
        }
    }

    pub(crate) fn into_slots(self) -> Slots<T>
        ensures { Lies (type_size T.row) self result × IsFull result }
    {
        let Part { start, len } = self;
        unsafe { Slots::from_raw_parts(start, len) }
    }
}
