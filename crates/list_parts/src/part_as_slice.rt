//! A part lends its values as a slice.
ghost use Rattle.std.specs.Prelude.{◌≡◌};
ghost use types.Logic.{sem};
ghost use Rattle.list_parts.specs.Parts.{part_items};
ghost use Rattle.list_parts.specs.Lent.{part_follows};

use crate::part::Part;

impl<T> Part<T> {
    /// The values. When the borrow ends, the part has what was written.
    pub fn as_mut_slice(&mut self) -> &mut [T]
        ensures* writes_back { sem 𝓛 (part_follows T.row self.entry result) }
        ensures value { result.now ≡ part_items self.old }
    {
        unsafe { std::slice::from_raw_parts_mut(self.start, self.len) }
    }
}
