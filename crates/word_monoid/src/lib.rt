//! Monoids whose items fit a word below 2^62: what a parallel prefix sum joins (Blelloch, "Prefix Sums and Their Applications").
#![tactic(auto)]

mod count;
mod greatest;
mod laws;
mod monoid;
mod signed;

pub use count::{Count, counts_are_exact};
pub use greatest::{Greatest, greatest_is_there};
pub use laws::{prefixes_by_number, prefixes_by_steps};
pub use monoid::WordMonoid;
pub use signed::{Signed, signed_sums_are_exact};
