//! LLP(2,1): the set PSLS with two terminals of look-back, and the tables of pieces for a grammar.
#![tactic(auto)]

mod claims;
mod closings;
mod conflicts;
mod endings;
mod fault;
mod generator;
mod gluing;
mod laws;
mod lookback_table;
mod members;
mod pieces;
mod places;
mod queue;
mod search;
mod survey;
mod triples;
mod wide_table;

pub use fault::WideFault;
pub use gluing::wide_tables_make_the_parse;
pub use laws::{one_terminal_serves_two, wide_look_back_by_rules};
pub use lookback_table::WideLookbacks;
pub use members::wide_members;
pub use wide_table::WideTables;
