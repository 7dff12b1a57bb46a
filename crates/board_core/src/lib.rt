//! The boards of a scan as one plain value: what each step of a worker does, for every order of the steps.
#![tactic(auto)]

mod boards;
mod laws;
mod rules;
mod seat;
mod state;
mod steps;

pub use boards::Core;
pub use laws::{every_schedule, worked_schedule};
pub use steps::{Event, Reply, Status};
