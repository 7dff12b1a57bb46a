//! Teams of workers: what a team has is split among its workers, each of whom works in a thread of its own where threads can be made, and
//! what they leave is put together. Also the chunks of items that workers draw: how many there are, and which items each has.
#![tactic(auto)]

mod chunk;
mod team;

pub use chunk::{chunk_slice, chunk_start, count_chunks};
pub use team::{Task, run};
