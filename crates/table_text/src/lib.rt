//! The answer to a grammar file: the sizes of its grammar and of its tables, the lines of their entries, and the left parse of a word, or why
//! there are none.
#![tactic(auto)]

mod ahead;
mod answer;
mod entries;
mod laws;
mod lines;
mod lookback;
mod outlines;
mod pieces;
mod readings;
mod table;
mod tokens;

pub use answer::{TableAnswer, Text};
pub use laws::{files_have_one_answer, tables_are_unique, wide_grammars_have_one_answer};
pub use lines::push_count;
pub use table::table_answer;
