//! The nearest marked proper ancestor of each node of a forest, by pointer jumping (Wyllie, "The Complexity of Parallel Computations"):
//! each node holds an ancestor that it knows to be no farther than its answer, and in each round takes over what that ancestor holds, so
//! that the way behind it doubles.
#![tactic(auto)]

mod ancestors;
mod jump;
mod laws;
mod rounds;

pub use ancestors::nearest;
pub use laws::{climbs_are_one, every_node_climbs};
