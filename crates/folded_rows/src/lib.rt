//! Constant folding over the columns of rows: definitions, and the law that they give the rows of the folded tree.
#![tactic(auto)]

mod laws;
mod worked;

pub use laws::{folded_names_are, folded_rows_are, nothing_folds, rows_have_levels};
pub use worked::{worked_differences, worked_short_circuits};
