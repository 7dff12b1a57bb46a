//! Source texts that are made from a seed and a number of functions: each function calls the one before it, and the text is a program.
#![tactic(auto)]

mod generator;
mod laws;
mod lines;
mod text;

pub use generator::Generator;
pub use laws::worked_texts;
pub use text::source;
