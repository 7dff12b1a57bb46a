//! The nearest marked proper ancestors.
ghost use Rattle.std.specs.Prelude.{◌≡◌, ◌+◌, ◌*◌, ◌<◌, ◌≤◌, ◌^◌, ℕ, None, length, slice_index_or, IfOk};
ghost use Rattle.pointer_jumping.specs.Climbs.{AreUpward, AreWithin, Climbs};

use crate::rounds::{answers, any_open, first_jumps, jump_on};
use par_passes::Passes;
use scan_lookback::Steps;
use std::alloc::AllocError;
use std::sync::ledger::Ledger;

/// The nearest marked proper ancestor of each node of a forest, and `None` where none is marked. Node i has the parent `parents[i]`, or is a
/// root, and is marked where `marks[i]` says so. Each round is one step, and doubles the way that is behind each node, so r rounds are made
/// where d is at most 2 ^ r, and 2 ^ r at most 2 d + 1, d the longest way from a node to its answer, or to its root where it has none. The
/// same for every plan, and the only refusal is that memory is out.
pub fn nearest<L: Ledger>(
    crew: &impl Passes,
    parents: &[Option<u32>],
    marks: &[bool],
    steps: &mut Steps<L>,
) -> Result<Vec<Option<u32>>, AllocError>
    requires few { length parents.now < 2 ^ 32 }
    requires marks { length marks.now ≡ length parents.now }
    requires upward { AreUpward parents.now }
    ensures as_many { IfOk result (λ v. length v.items ≡ length parents.now) }
    ensures ancestors { IfOk result (λ v. (i : ℕ) → i < length parents.now → (d : ℕ) × Climbs parents.now marks.now i d (slice_index_or v.items i None)) }
    ensures enough { IfOk result (λ _. (r : ℕ) × (steps.new ≡ steps.old + r) × AreWithin parents.now marks.now (2 ^ r)) }
    ensures rounds { (r : ℕ) × (steps.new ≡ steps.old + r) × ((d : ℕ) → AreWithin parents.now marks.now d → 2 ^ r ≤ 2 * d + 1) }
{
    let mut jumps = first_jumps(crew, parents, marks)?;
    while any_open(crew, jumps.as_slice())? {
        steps.tick();
        jumps = jump_on(crew, jumps.as_slice(), jumps.as_slice())?;
    }
    answers(crew, jumps.as_slice())
}
