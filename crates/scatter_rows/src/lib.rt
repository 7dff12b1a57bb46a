//! Values that several workers write at places of one shared table of words.
#![tactic(auto)]

mod alone;
mod at_places;
mod at_starts;
mod cells;
mod chunked;
mod team;
mod views;

pub use at_places::{scatter, scatter_is_unique};
pub use at_starts::{Parts, scatter_parts};
