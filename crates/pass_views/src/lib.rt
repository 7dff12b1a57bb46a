//! What the passes make of a source, as tables of text and as a page.
#![tactic(auto)]

mod laws;
mod show;

pub use laws::views_are_one;
pub use show::{page, tables};
