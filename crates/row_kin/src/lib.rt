//! Rows in postorder whose subtrees begin at given rows: parents, first rows and places among siblings. A row takes in the roots before
//! it that lie in its subtree. By stretches, each by itself in one walk, and then one pass over the rows whose subtrees may begin before
//! their stretch.
#![tactic(auto)]

mod alone;
mod intake;
mod settling;
mod stretches;

pub use alone::Kin;
pub use settling::kin_settled;
pub use stretches::{Stretch, Stretches, Ties};
