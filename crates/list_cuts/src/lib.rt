//! Stretches of a list, by where they end: those that a crew's workers draw, and one by its place.
#![tactic(auto)]

mod cuts;
mod ends;
mod stretch;

pub use cuts::{even_cuts, stretch_start};
pub use ends::stretch_ends;
pub use stretch::stretch_at;
