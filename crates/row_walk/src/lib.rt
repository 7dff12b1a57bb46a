//! Laws on one walk over a left parse: it gives the rows of the tree, and their faults of shape.
#![tactic(auto)]

mod laws;

pub use laws::walks_give_rows;
