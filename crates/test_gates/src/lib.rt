//! Crews of every kind for tests, and gates that record which workers are at work.
#![tactic(auto)]

mod crews;
mod draws;
mod meeting;
mod roll;

pub use crews::{OutOfRange, PLANS, at};
pub use draws::Draws;
pub use meeting::Meeting;
pub use roll::Roll;

#[cfg(test)]
mod tests;
