//! What `explain` says of each diagnostic and of each limit: what it means, where its place is, a source that has it, and how to fix it.
#![tactic(auto)]

mod explanation;
mod laws;
mod text;
mod texts;

pub use explanation::{Explanation, explanation_of};
pub use laws::explanations_are_in_order;
pub use text::explanation_text;
