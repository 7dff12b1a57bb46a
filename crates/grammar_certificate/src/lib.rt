//! A certificate that a grammar is LL(1) and LLP(1,1), as a value, and its check, which takes no memory.
#![tactic(auto)]

mod certificate;
mod check;
mod laws;
mod members;
mod predictions;
mod productions;
mod terminals;

pub use certificate::{Certificate, Member, PlaceRows, Row, TerminalSet};
pub use check::accepts;
pub use laws::certificate_of_g2_passes;
