//! Passes over arrays. Workers draw chunks of the items from a shared board, and the chunks' results are put together by number, so
//! that each pass gives its list's definition whatever the plan is.
#![tactic(auto)]

mod bundles;
mod crew;
mod dealt;
mod each;
mod fewest;
mod marked;
mod numbered;
mod order;
mod passes;
mod places;

pub use bundles::in_order;
pub use chunk_seats::{Crew, Workers};
pub use passes::Passes;
pub use scan_lookback::{Lift, Lifted};
pub use scatter_rows::Parts;
pub use worker_teams::{chunk_start, count_chunks};
