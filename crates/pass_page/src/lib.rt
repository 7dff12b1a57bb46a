//! What the passes of the compiler make of a source, as one page of HTML: the source, its syntax tree as a picture, and the arrays of the passes as tables. Pointing
//! at an item of the page highlights everything that belongs to it. The page is written part by part, so that no two tables are held at once.
#![tactic(auto)]

mod ends;
mod escaped;
mod levels;
mod source;
mod table;
mod tree;
mod worked;

pub use ends::{push_closing, push_opening};
pub use source::push_source_box;
pub use table::push_table_box;
pub use tree::push_tree_box;
pub use worked::{worked_source, worked_table, worked_tree};
