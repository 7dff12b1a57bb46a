//! The front of the compiler: the tokens of a source, the rows of its syntax tree, its names and its types, or its first diagnostic.
#![tactic(auto)]

mod analysis;
mod laws;
mod phases;
mod places;
mod refusal;
mod tables;
mod words;

pub use analysis::{Analysis, check_size, front, front_by};
pub use laws::limits_come_last;
pub use phases::{lexed, named, parsed, shaped, typed};
pub use places::place;
pub use refusal::Refusal;
pub use tables::{language_grammar, language_tables};
pub use words::terminal_number;
