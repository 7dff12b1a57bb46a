//! The nearest place before another, or behind it, whose value is at most a bound. The minima of blocks of a list are made once, in
//! parallel, and each question climbs through them and down again.
#![tactic(auto)]

mod before;
mod behind;
mod laws;
mod levels;
mod minima;

pub use laws::{next_is_one, previous_is_one};
pub use minima::Minima;
