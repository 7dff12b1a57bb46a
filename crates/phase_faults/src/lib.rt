//! Why a phase has no result, and the keys by which its passes find its first fault.
#![tactic(auto)]

mod fault;
mod key;
mod laws;

pub use fault::PhaseFault;
pub use key::FaultKey;
pub use laws::{earliest_is_least, least_key_tells};
