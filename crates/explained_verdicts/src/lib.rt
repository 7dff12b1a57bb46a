//! A law alone: whatever the compiler says of a source that it refuses, `explain` explains.
#![tactic(auto)]

mod laws;

pub use laws::what_is_told_is_explained;
