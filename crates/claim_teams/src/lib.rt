//! Teams of workers that draw the chunks of a claim board that is lent to them, and what is made of each chunk.
#![tactic(auto)]

mod job;
mod team;

pub use team::make_each;
