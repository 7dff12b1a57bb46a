//! Constant folding of rows: the rows and the names of the folded program, found by passes. Constants are found in rounds, each of which looks
//! at the parents of the rows that the round before has found; then the rows that stay are put together.
#![tactic(auto)]

mod columns;
mod complete;
mod constant;
mod folded;
mod pass;
mod rounds;
mod staying;

pub use pass::fold;
