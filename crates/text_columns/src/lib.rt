//! A table of text: columns side by side, each padded to one width.
#![tactic(auto)]

mod column;
mod table;
mod worked;

pub use column::{Align, Column};
pub use table::{push_table, rows_of};
pub use worked::worked_tables;
