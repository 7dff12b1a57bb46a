//! The compiler from source text to an executable file, and what its program reads and writes.
#![tactic(auto)]

mod batch;
mod buffer;
mod compiler;
mod drill;
mod ends;
mod explain;
mod laws;
mod listing;
mod machine;
mod memory;
mod position;
mod program;
mod reading;
mod response;
mod sharing;
mod show;
mod status;
mod table;
mod writing;

pub use back_end::code;
pub use batch::{Answers, deal};
pub use compiler::{compile, compile_by};
pub use ends::{ByteIn, ByteOut, Failed};
pub use front_end::{Analysis, Refusal, front, language_tables};
pub use laws::{accepted_sources_are_shown, images_are_listed_and_assembled};
pub use memory::{MemoryIn, MemoryOut};
pub use program::pareas;
pub use status::Status;
