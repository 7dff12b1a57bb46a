//! The passes of the rounds.
ghost use Rattle.std.specs.Prelude.{◌≡◌, ◌+◌, ◌*◌, ◌<◌, ◌^◌, ℕ, true, false, length, map, filter, IfOk};
ghost use Rattle.std.specs.List.{range_with_len};
ghost use Rattle.pointer_jumping.specs.Climbs.{AreUpward};
ghost use Rattle.pointer_jumping.specs.Jumps.{AreJumps, StandsBelow, IsJump, is_open, jump_at, onwards, found_by};

use crate::jump::Jump;
use par_passes::Passes;
use std::alloc::AllocError;

/// What each node's parent tells.
pub(crate) fn first_jumps(
    crew: &impl Passes,
    parents: &[Option<u32>],
    marks: &[bool],
) -> Result<Vec<Jump>, AllocError>
    requires few { length parents.now < 2 ^ 32 }
    requires marks { length marks.now ≡ length parents.now }
    requires upward { AreUpward parents.now }
    ensures { IfOk result (λ v. AreJumps parents.now marks.now 1 v.items) }
{
    let first = |node: u32| -> Jump
        requires within { node < length parents.now }
        requires marks { length marks.now ≡ length parents.now }
        requires upward { AreUpward parents.now }
        ensures { IsJump parents.entry.now marks.entry.now 1 node result }
    { Jump::first(parents, marks, node) };
    crew.tabulate(parents.len() as u32, &first)
}

/// The jumps, each of which takes over what is known ahead, at the node where it stands.
pub(crate) fn jump_on(
    crew: &impl Passes,
    jumps: &[Jump],
    ahead: &[Jump],
) -> Result<Vec<Jump>, AllocError>
    requires few { length jumps.now < 2 ^ 32 }
    requires standing { (i : ℕ) → i < length jumps.now → StandsBelow (length ahead.now) (jump_at jumps.now i) }
    ensures { IfOk result (λ v. v.items ≡ map (onwards ahead.now) jumps.now) }
{
    let take_over = |jump: Jump| -> Jump
        requires { StandsBelow (length ahead.now) jump }
        ensures { result ≡ onwards ahead.entry.now jump }
    { jump.onwards(ahead) };
    crew.map(jumps, &take_over)
}

// The nodes whose jumps haven't come to the end.
fn open_nodes(crew: &impl Passes, jumps: &[Jump]) -> Result<Vec<u32>, AllocError>
    requires few { length jumps.now < 2 ^ 32 }
    ensures { IfOk result (λ v. v.items ≡ filter (λ k. is_open (jump_at jumps.now k)) (range_with_len 0 (length jumps.now))) }
{
    crew.positions(jumps, &|jump: Jump| jump.is_open())
}

/// Whether any jump hasn't come to the end.
pub(crate) fn any_open(crew: &impl Passes, jumps: &[Jump]) -> Result<bool, AllocError>
    requires few { length jumps.now < 2 ^ 32 }
    ensures left { IfOk result (λ b. b ≡ true → (i : ℕ) × (i < length jumps.now) × (is_open (jump_at jumps.now i) ≡ true)) }
    ensures settled { IfOk result (λ b. b ≡ false → (i : ℕ) → i < length jumps.now → is_open (jump_at jumps.now i) ≡ false) }
{
    let nodes = open_nodes(crew, jumps)?;
    Ok(!nodes.is_empty())
}

/// The ancestors that were found.
pub(crate) fn answers(crew: &impl Passes, jumps: &[Jump]) -> Result<Vec<Option<u32>>, AllocError>
    requires few { length jumps.now < 2 ^ 32 }
    ensures { IfOk result (λ v. v.items ≡ map found_by jumps.now) }
{
    crew.map(jumps, &|jump: Jump| jump.found())
}
