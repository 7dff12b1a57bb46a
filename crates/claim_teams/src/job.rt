//! What the workers of a team have in common.

use chunk_seats::ClaimBoard;
use std::alloc::Global;

/// What the workers of a team have in common: all but their seats.
#[derive_where(Clone, Copy)]
pub(crate) struct Job<'a, R, G, F> {
    pub runtime: &'a R,
    pub alloc: Global,
    pub gate: &'a G,
    pub claims: &'a ClaimBoard,
    pub make: &'a F,
}
