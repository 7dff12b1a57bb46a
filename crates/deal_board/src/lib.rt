//! Items that workers draw from a shared board, change, and put back. Each draw is one atomic step: nothing is retried, and no call
//! waits for another thread.
#![tactic(auto)]

mod board;
mod goods;
mod item;
mod returned;

pub use board::{DealBoard, Seat};
pub use goods::Goods;
pub use returned::Returned;
