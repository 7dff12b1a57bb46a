//! Crews of every kind.
ghost use Rattle.std.specs.Prelude.{◌≡◌, ◌≤◌, IfOk, IfErr};

use chunk_seats::{Plan, Workers};
use std::alloc::Global;

/// Numbers of workers, and sizes of chunks.
pub const PLANS: &[(u32, u32)] = &[
    (1, 1),
    (1, 2),
    (1, 7),
    (1, 65536),
    (4, 1),
    (4, 2),
    (4, 7),
    (4, 65536),
    (64, 1),
    (64, 2),
    (64, 7),
    (64, 65536),
];

/// No plan has these numbers.
#[derive(Debug, Drop)]
pub struct OutOfRange;

/// The workers of a plan at a gate: this many, who draw chunks of that size. A refusal comes exactly where one of the numbers is out of range.
pub fn at<'a, R, G>(
    runtime: &'a R,
    alloc: Global,
    plan: (u32, u32),
    gate: &'a G,
) -> Result<Workers<'a, R, G>, OutOfRange>
    ensures plan { IfOk result (λ crew. (crew.plan.workers ≡ plan.0) × (crew.plan.chunk ≡ plan.1)) }
    ensures out_of_range { IfErr result (λ _. (1 ≤ plan.0) × (plan.0 ≤ 64) × (1 ≤ plan.1) × (plan.1 ≤ 65536) → ⊥) }
{
    let (workers, chunk) = plan;
    match Plan::new(workers, chunk) {
        Some(plan) => Ok(Workers {
            runtime,
            alloc,
            plan,
            gate,
        }),
        None => Err(OutOfRange),
    }
}
