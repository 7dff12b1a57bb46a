//! Where a walk is.
ghost use Rattle.std.specs.Prelude.{◌≡◌, ◌+◌, ◌<◌, ◌≤◌};
ghost use Rattle.row_pieces.specs.Forms.{passed};

use crate::forms::{Form, level_after};

/// Where a walk is: before a production.
#[derive(Clone, Copy)]
pub struct Point {
    /// The place of the production.
    pub place: usize,
    /// How many nonterminals are open.
    pub level: u32,
    /// How many owned tokens are read.
    pub read: u32,
}

/// Where it is behind that production.
pub(crate) fn behind(at: Point, form: &Form) -> Point
    requires place { at.place < 4294967295 }
    requires level { at.level ≤ 4294967040 }
    requires read { at.read + form.now.reads ≤ 4294967295 }
    ensures { result ≡ passed form.now at }
{
    Point {
        place: at.place + 1,
        level: level_after(form, at.level),
        read: at.read + u32::from(form.reads),
    }
}
