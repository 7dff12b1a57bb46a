//! Parts of a list that workers own while they fill them: a part is cut in two, goes to a thread or into a slot of a board, and is
//! glued to its neighbour again.
#![tactic(auto)]

mod cut_in_chunks;
mod cut_in_two;
mod list_as_part;
mod part;
mod part_as_slice;
mod part_as_slots;

pub use list_as_part::with_part;
pub use part::Part;
