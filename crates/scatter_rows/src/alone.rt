//! A scatter by one worker, who needs no shared table.
ghost use Rattle.std.specs.Prelude.{◌≡◌, ℕ, ◌<◌, ◌≤◌, length, replicate, flat_map, IfOk, Ok, All};
ghost use Rattle.std.specs.Global.{Vec};
ghost use Rattle.std.specs.List.{range_with_len};
ghost use Rattle.scatter_rows.specs.Scattered.{AreDistinct, IsScattered};
ghost use Rattle.scatter_rows.specs.Worked.{AreFit, HaveBeenPut};

use crate::at_starts::Parts;
use chunk_seats::{Crew, Gate};
use std::alloc::AllocError;

// Writes the values of the pairs from one number up to another into their cells.
fn put_between(places: &[u64], values: &[u64], from: usize, to: usize, cells: &mut [u64])
    requires fit { AreFit (length cells.old) places.now values.now }
    requires distinct { AreDistinct places.now }
    requires pairs { (from ≤ to) × (to ≤ length places.now) }
    requires before { HaveBeenPut places.now values.now from (length cells.old) cells.old }
    ensures { HaveBeenPut places.now values.now to (length cells.old) cells.new }
{
    for i in from..to {
        cells[places[i] as usize] = values[i];
    }
}

/// Writes each value into the cell at its place, chunk by chunk, and tells the gate of each chunk.
pub(crate) fn scatter_alone<C: Crew>(
    crew: &C,
    size: u32,
    places: &[u64],
    values: &[u64],
    cells: &mut [u64],
)
    requires size { 0 < size }
    requires fit { AreFit (length cells.old) places.now values.now }
    requires distinct { AreDistinct places.now }
    requires blank { cells.old ≡ replicate (length cells.old) 0 }
    ensures { IsScattered places.now values.now (length cells.old) cells.new }
{
    let mut chunk = 0_u64;
    let mut from = 0;
    while from < places.len() {
        crew.gate().after_claim(0, Some(chunk));
        let to = from + (places.len() - from).min(size as usize);
        put_between(places, values, from, to, cells);
        from = to;
        chunk += 1;
    }
    crew.gate().after_claim(0, None);
}

/// What is made of each number below `count`, one list behind the other, and tells the gate of each number. `capacity` says how many values there
/// will be.
pub(crate) fn join_alone<C: Crew, F: Fn(u64) -> Result<Vec<u32>, AllocError>, K: Parts>(
    crew: &C,
    count: usize,
    capacity: usize,
    make: &F,
) -> Result<Vec<u32>, AllocError>
    requires callable { All (F.pre make.now) (range_with_len 0 count) }
    requires parts { (c : ℕ) (x : Vec ℕ) → c < count → F.post make.now c (Ok x) → x.items ≡ K.part c }
    ensures { IfOk result (λ v. v.items ≡ flat_map K.part (range_with_len 0 count)) }
{
    let mut out = Vec::with_capacity(crew.alloc(), capacity)?;
    for c in 0..count as u64 {
        crew.gate().after_claim(0, Some(c));
        let part = make(c)?;
        out.extend_from_slice(part.as_slice())?;
    }
    crew.gate().after_claim(0, None);
    Ok(out)
}
