//! The functions from states to states that the words of an automaton make, composed and numbered: its transition monoid, whose
//! prefix sums run the automaton in parallel (Hillis and Steele, "Data Parallel Algorithms").
#![tactic(auto)]

mod compositions;
mod dfa;
mod explore;
mod fault;
mod joins;
mod laws;
mod letters;
mod states;

pub use compositions::Compositions;
pub use dfa::Dfa;
pub use fault::BuildFault;
pub use laws::{
    bytes_have_items, composition_is_associative, few_or_too_many, prefixes_are_runs, words_compose,
};
pub use states::States;
