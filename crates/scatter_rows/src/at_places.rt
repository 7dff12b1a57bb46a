//! The scatter, a list that is written at places (Blelloch, "Prefix Sums and Their Applications", calls it permute).
ghost use Rattle.std.specs.Prelude.{◌≡◌, ℕ, List, ◌-◌, ◌*◌, ◌<◌, ◌^◌, length, IfOk, All, replicate};
ghost use Rattle.std.specs.Result.{OnOk};
ghost use Rattle.chunk_seats.specs.Tallies.{times};
ghost use Rattle.scatter_rows.specs.Scattered.{AreDistinct, IsScattered};
ghost use Rattle.scatter_rows.specs.Worked.{AreFit, IsOf};

use crate::alone::scatter_alone;
use crate::cells::{Cells, Seat};
use crate::chunked::Chunks;
use crate::team::put_all;
use crate::views::Pairs;
use chunk_seats::Crew;
use std::alloc::AllocError;
use std::marker::Brand;
use worker_teams::count_chunks;

/// What `scatter` promises holds of one list at most.
pub fn scatter_is_unique()
    ensures { (places values : List ℕ) (len : ℕ) (xs ys : List ℕ) → IsScattered places values len xs → IsScattered places values len ys → xs ≡ ys }
{}

// Two lists of pairs, which are cut into chunks of a size.
#[derive(Drop)]
struct Listed<'a> {
    places: &'a [u64],
    values: &'a [u64],
    size: u32,
}

impl Listed<'_> {
    // Puts the pairs of a chunk.
    fn put_chunk<N: Pairs>(&self, cells: &Cells<N>, seat: &mut Seat, c: u64)
        requires board { seat.old.board ≡ cells.now.board }
        requires pairs { (self.now.places.now ≡ N.places) × (self.now.values.now ≡ N.values) }
        requires fit { AreFit cells.now.board.words N.places N.values }
        requires limit { N.limit ≡ 2 ^ 64 - 1 }
        requires chunk { c * self.now.size < length self.now.places.now }
        ensures board { seat.new.board ≡ seat.old.board }
        ensures kept { (i : ℕ) → 0 < times i seat.old.view.put → 0 < times i seat.new.view.put }
        ensures put { (i : ℕ) → IsOf self.now.size (length self.now.places.now) c i → 0 < times i seat.new.view.put }
    {
        let from = c as usize * self.size as usize;
        let to = from + (self.places.len() - from).min(self.size as usize);
        for i in from..to {
            cells.put(seat, i, self.places[i], self.values[i]);
        }
    }
}

impl<N: Pairs> Chunks<N> for Listed<'_> {
    ghost use Rattle.std.specs.Prelude.{◌≡◌, ◌-◌, ◌<◌, ◌^◌, length};
    ghost use Rattle.chunk_seats.specs.Chunks.{chunk_count};
    ghost use Rattle.scatter_rows.specs.Worked.{AreFit, IsOf};

    ghost count = { λ all. chunk_count all.size (length all.places.now) };

    ghost fit = { λ all words.
        ((all.places.now ≡ N.places) × (all.values.now ≡ N.values))
        × AreFit words N.places N.values
        × (N.limit ≡ 2 ^ 64 - 1)
        × (0 < all.size) };

    ghost has = { λ all c i. IsOf all.size (length all.places.now) c i };

    fn put(&self, cells: &Cells<N>, seat: &mut Seat, c: u64) -> Result<(), AllocError> {
        self.put_chunk(cells, seat, c);
        Ok(())
    }
}

// Puts the values into as many cells as there are zeros, and reads the cells out in their place.
fn scatter_into<C: Crew, N: Pairs + Send + Sync>(
    crew: &C,
    places: &[u64],
    values: &[u64],
    cells: &mut [u64],
) -> Result<(), AllocError>
    requires len { length places.now < 2 ^ 62 }
    requires pairs { (places.now ≡ N.places) × (values.now ≡ N.values) }
    requires limit { N.limit ≡ 2 ^ 64 - 1 }
    requires blank { (cells.old ≡ replicate (length cells.old) 0) × (0 < length cells.old) }
    requires fit { AreFit (length cells.old) N.places N.values }
    requires distinct { AreDistinct N.places }
    ensures { OnOk result (IsScattered N.places N.values (length cells.old) cells.new) }
{
    let plan = crew.plan();
    let count = count_chunks(places.len(), plan.chunk);
    let listed = Listed {
        places,
        values,
        size: plan.chunk,
    };
    let (board, seat) = put_all::<C, N, _>(crew, cells, count, &listed)?;
    board.close(seat, cells);
    Ok(())
}

/// The list of `len` cells in which each place holds its value, and every other cell 0. It is the same for every crew.
///
/// Workers claim chunks of the pairs of a place and a value, and put the values into the words of one shared table, where a word
/// is 0 before its value and the value plus 1 after it. There are at most as many workers as chunks. One worker writes the values right
/// into the list.
/// The crew's gate is told of each claim by the worker's number, which is below that of the workers, and once of its end.
pub fn scatter(
    crew: &impl Crew,
    places: &[u64],
    values: &[u64],
    len: u64,
) -> Result<Vec<u64>, AllocError>
    requires lists { (length values.now ≡ length places.now) × (length places.now < 2 ^ 62) }
    requires inside { All (λ p. p < len) places.now }
    requires distinct { AreDistinct places.now }
    requires small { All (λ v. v < 2 ^ 64 - 1) values.now }
    ensures { IfOk result (λ v. IsScattered places.now values.now len v.items) }
{
    let plan = crew.plan();
    let mut cells = Vec::from_elem(crew.alloc(), 0u64, len.max(1) as usize)?;
    if plan.workers == 1 || places.len() <= plan.chunk as usize {
        scatter_alone(crew, plan.chunk, places, values, cells.as_mut_slice());
    } else {
        scatter_into::<_, Brand>(crew, places, values, cells.as_mut_slice())?;
    }
    cells.truncate(len as usize);
    Ok(cells)
}
