//! Gluing: the left parse of a word, from the pieces of its neighbouring tokens, by workers that share out chunks of these.
#![tactic(auto)]

mod gluing;

pub use glue_summary::ParseFault;
pub use gluing::{meet, parse, parse_wide};
