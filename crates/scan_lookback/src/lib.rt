//! A prefix sum in one pass over the items: workers draw chunks, publish the sum of each, and look back over what is published of
//! the chunks before. No worker waits for another: a chunk that isn't published is folded by who meets it.
#![tactic(auto)]

mod alone;
mod back;
mod board;
mod boards;
mod chunk;
mod fill;
mod look;
mod place;
mod run;
mod scanned;
mod single_pass;
mod span;
mod steps;
mod unseen;
mod views;
mod words;
mod work;
mod worked;

pub use board::{ScanBoard, Seat};
pub use boards::{Boards, Team};
pub use look::Look;
pub use place::{assemble, by_number};
pub use scanned::Scanned;
pub use single_pass::{scan, scan_lifted};
pub use steps::Steps;
pub use unseen::Unseen;
pub use views::{Chunks, Codes, Lift, Lifted, LookView};
pub use word_monoid::{Count, Greatest, Signed, WordMonoid};
pub use worked::worked_look_back;
