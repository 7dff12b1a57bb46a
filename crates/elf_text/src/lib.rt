//! Listings of executable files: the text that lists the code of a file, and the file that such a text gives back.
#![tactic(auto)]

mod assembling;
mod bytes;
mod laws;
mod listing;

pub use assembling::asm;
pub use laws::listings_give_their_files;
pub use listing::dump;
