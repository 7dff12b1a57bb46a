//! The command line of `pareas`, read by `clap`.
#![tactic(auto)]

mod command;
mod laws;
mod options;
mod parser;
mod request;
mod word;

pub use command::{Command, Pass};
pub use laws::{asked_codes_are_explained, taken_words_ask, worked_words};
pub use parser::{Refusal, read};
pub use request::Request;
pub use word::Word;
