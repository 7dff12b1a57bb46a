//! Lists that are written one behind the other, each from a place on that is known before.
ghost use Rattle.std.specs.Prelude.{◌≡◌, ℕ, ◌+◌, ◌-◌, ◌<◌, ◌≤◌, ◌^◌, length, slice_index, flat_map, IfOk, Ok, All};
ghost use Rattle.std.specs.Global.{Vec};
ghost use Rattle.std.specs.List.{range_with_len};
ghost use Rattle.chunk_seats.specs.Tallies.{times};
ghost use Rattle.scatter_rows.specs.Starts.{AreStarts, StandsAt, IsIn};

use crate::alone::join_alone;
use crate::cells::{Cells, Seat};
use crate::chunked::Chunks;
use crate::team::put_all;
use crate::views::Pairs;
use chunk_seats::Crew;
use std::alloc::AllocError;
use std::marker::Brand;

/// What is made of each number. Nothing holds it, each call picks it.
pub trait Parts {
    ghost use Rattle.std.specs.Prelude.{ℕ, List};

    ghost part: { ℕ → List ℕ };
}

impl Parts for Brand {
    ghost use Rattle.std.specs.Prelude.{[]};

    ghost part = { λ _. [] };
}

// Puts values one behind the other, from one place up to another.
fn put_values<N: Pairs>(cells: &Cells<N>, seat: &mut Seat, from: usize, to: usize, values: &[u32])
    requires board { seat.old.board ≡ cells.now.board }
    requires places { (N.places ≡ range_with_len 0 cells.now.board.words) × (length N.values ≡ cells.now.board.words) }
    requires limit { N.limit ≡ 2 ^ 32 }
    requires stand { StandsAt N.values from to values.now }
    ensures board { seat.new.board ≡ seat.old.board }
    ensures kept { (i : ℕ) → 0 < times i seat.old.view.put → 0 < times i seat.new.view.put }
    ensures put { (i : ℕ) → from ≤ i → i < to → 0 < times i seat.new.view.put }
{
    for i in from..to {
        cells.put(seat, i, i as u64, u64::from(values[i - from]));
    }
}

// Puts what is made of the number `c` from its start on.
fn put_part<N: Pairs, F: Fn(u64) -> Result<Vec<u32>, AllocError>>(
    cells: &Cells<N>,
    seat: &mut Seat,
    starts: &[u32],
    make: &F,
    c: u64,
) -> Result<(), AllocError>
    requires board { seat.old.board ≡ cells.now.board }
    requires places { (N.places ≡ range_with_len 0 cells.now.board.words) × (length N.values ≡ cells.now.board.words) }
    requires limit { N.limit ≡ 2 ^ 32 }
    requires number { c + 1 < length starts.now }
    requires callable { F.pre make.now c }
    requires stand { (x : Vec ℕ) → F.post make.now c (Ok x) → StandsAt N.values (slice_index starts.now c) (slice_index starts.now (c + 1)) x.items }
    ensures board { seat.new.board ≡ seat.old.board }
    ensures kept { (i : ℕ) → 0 < times i seat.old.view.put → 0 < times i seat.new.view.put }
    ensures put { IfOk result (λ _. (i : ℕ) → IsIn starts.now c i → 0 < times i seat.new.view.put) }
{
    let part = make(c)?;
    let from = starts[c as usize] as usize;
    let to = starts[c as usize + 1] as usize;
    put_values(cells, seat, from, to, part.as_slice());
    Ok(())
}

// The list that is made of each number, from its start on.
#[derive(Drop)]
struct Starting<'a, F> {
    starts: &'a [u32],
    make: &'a F,
}

impl<N: Pairs, F: Fn(u64) -> Result<Vec<u32>, AllocError>> Chunks<N> for Starting<'_, F> {
    ghost use Rattle.std.specs.Prelude.{◌≡◌, ℕ, ◌+◌, ◌-◌, ◌<◌, ◌^◌, length, slice_index, Ok};
    ghost use Rattle.std.specs.Global.{Vec};
    ghost use Rattle.std.specs.List.{range_with_len};
    ghost use Rattle.scatter_rows.specs.Starts.{StandsAt, IsIn};

    ghost count = { λ all. length all.starts.now - 1 };

    ghost fit = { λ all words.
        ((N.places ≡ range_with_len 0 words) × (length N.values ≡ words))
        × (N.limit ≡ 2 ^ 32)
        × ((c : ℕ) → c < length all.starts.now - 1 → F.pre all.make.now c)
        × ((c : ℕ) (x : Vec ℕ) → c < length all.starts.now - 1 → F.post all.make.now c (Ok x)
        → StandsAt N.values (slice_index all.starts.now c) (slice_index all.starts.now (c + 1)) x.items) };

    ghost has = { λ all c i. IsIn all.starts.now c i };

    fn put(&self, cells: &Cells<N>, seat: &mut Seat, c: u64) -> Result<(), AllocError> {
        put_part(cells, seat, self.starts, self.make, c)
    }
}

// The values, of which there are this many, written by the workers that make them.
fn put_parts<C: Crew, F: Fn(u64) -> Result<Vec<u32>, AllocError> + Sync, N: Pairs + Send + Sync>(
    crew: &C,
    starts: &[u32],
    make: &F,
    len: usize,
) -> Result<Vec<u32>, AllocError>
    requires some { 0 < len }
    requires len { length N.values ≡ len }
    requires places { N.places ≡ range_with_len 0 len }
    requires limit { N.limit ≡ 2 ^ 32 }
    requires count { length starts.now < 2 ^ 62 }
    requires callable { (c : ℕ) → c < length starts.now - 1 → F.pre make.now c }
    requires stand { (c : ℕ) (x : Vec ℕ) → c < length starts.now - 1 → F.post make.now c (Ok x)
        → StandsAt N.values (slice_index starts.now c) (slice_index starts.now (c + 1)) x.items }
    requires covered { (i : ℕ) → i < len → (c : ℕ) × (c < length starts.now - 1) × IsIn starts.now c i }
    ensures { IfOk result (λ v. v.items ≡ N.values) }
{
    let zeros = Vec::from_elem(crew.alloc(), 0u64, len)?;
    let starting = Starting { starts, make };
    let count = starts.len().saturating_sub(1);
    let (cells, seat) = put_all::<C, N, _>(crew, zeros.as_slice(), count, &starting)?;
    drop(zeros);
    cells.into_list(crew.alloc(), seat, len)
}

/// What is made of each number, one list behind the other. What is made of the number c begins at place `starts[c]`, and the last of the starts says
/// how many values there are. K names what is made. The list is the same for every crew, and the only refusal is that memory is out.
///
/// Workers claim the numbers, and put what they make into the words of one shared table, where a word is 0 before its value and the value plus 1
/// after it. There are at most as many workers as numbers. One worker puts what it makes right behind the list so far.
/// The crew's gate is told of each claim by the worker's number, which is below that of the workers, and once of its end.
pub fn scatter_parts<C: Crew, F: Fn(u64) -> Result<Vec<u32>, AllocError> + Sync, K: Parts>(
    crew: &C,
    starts: &[u32],
    make: &F,
) -> Result<Vec<u32>, AllocError>
    requires count { length starts.now < 2 ^ 62 }
    requires starts { AreStarts K.part starts.now }
    requires callable { All (F.pre make.now) (range_with_len 0 (length starts.now - 1)) }
    requires parts { (c : ℕ) (x : Vec ℕ) → c < length starts.now - 1 → F.post make.now c (Ok x) → x.items ≡ K.part c }
    ensures { IfOk result (λ v. v.items ≡ flat_map K.part (range_with_len 0 (length starts.now - 1))) }
{
    let count = starts.len() - 1;
    let len = starts[count] as usize;
    if crew.plan().workers == 1 || count <= 1 || len == 0 {
        return join_alone::<C, F, K>(crew, count, len, make);
    }
    put_parts::<C, F, Brand>(crew, starts, make, len)
}
