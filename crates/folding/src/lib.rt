//! Constant folding of programs on their trees, and what it keeps.
#![tactic(auto)]

mod laws;
mod worked;

pub use laws::{
    folded_is_clean, folding_is_complete, folding_keeps, frames_shrink, uses_stay, values_are_words,
};
pub use worked::{worked_faulty, worked_program};
