//! Where stretches end.
ghost use Rattle.std.specs.Prelude.{◌≡◌, ℕ, ◌+◌, ◌<◌, ◌≤◌, length, min, IfOk};
ghost use Rattle.list_cuts.specs.Cuts.{number_at, start_of, AreCuts};

use std::alloc::{AllocError, Global};

/// The ends of stretches of `size` places each, the last of which may be shorter. The only refusal is that memory is out.
pub fn even_cuts(alloc: Global, places: usize, size: usize) -> Result<Vec<usize>, AllocError>
    requires { 0 < size }
    ensures cuts { IfOk result (λ v. AreCuts v.items places) }
    ensures sizes { IfOk result (λ v. (c : ℕ) → c < length v.items → number_at v.items c ≡ min (start_of v.items c + size) places) }
{
    let mut ends = Vec::new(alloc);
    let mut from = 0;
    while from < places {
        let left = places - from;
        from += left.min(size);
        ends.push(from)?;
    }
    Ok(ends)
}

/// Where stretch number c begins, of those that end where `ends` says.
pub fn stretch_start(ends: &[usize], c: usize) -> usize
    requires { c ≤ length ends.now }
    ensures { result ≡ start_of ends.now c }
{
    if c == 0 { 0 } else { ends[c - 1] }
}
