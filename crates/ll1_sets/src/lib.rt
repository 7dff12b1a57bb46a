//! What grammars have without any look-back: the nonterminals that derive nothing (NULL), FIRST and FOLLOW of each
//! terminal, left recursion, the LL(1) parse table, and the least conflict of its predictions, which there is exactly where
//! a grammar isn't LL(1).
#![tactic(auto)]

mod conflicts;
mod grammar_sets;
mod laws;
mod left_recursion;
mod predicted;
mod sets;
mod table;

pub use conflicts::Conflict;
pub use grammar_sets::Ll1Sets;
pub use laws::{ll1_has_no_left_recursion, ll1_is_unambiguous};
pub use left_recursion::least_left_recursive;
pub use predicted::prediction_of;
pub use sets::{all_vanish, first, mark_of, no_marks, nullable, starts, width_of};
pub use table::{Ll1Column, Ll1Fault, Ll1Table};
