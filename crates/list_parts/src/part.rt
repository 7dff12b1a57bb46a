//! Values side by side, owned by whoever has them.
ghost use Rattle.std.specs.Prelude.{◌≡◌, List, length};
ghost use Rattle.list_parts.specs.Owned.{full_row};

use std::marker::Model;

/// A run of places of a list, each with its value. It is owned: a part may be cut, moved into another value or sent to a thread,
/// and neighbours are glued together again.
#[derive(Drop)]
pub struct Part<T> {
    pub(crate) start: *mut T,
    pub(crate) len: usize,
    pub(crate) ghost items: { List T },
    pub(crate) ghost counted: { len ≡ length items },
}

impl<T> Model for Part<T> {
    ghost also_owns = { λ p. full_row T.row p.start p.len p.items };
}

unsafe impl<T: Send> Send for Part<T> {}
