//! A table with a word for each cell, into which workers put values.
ghost use Rattle.std.specs.Prelude.{◌≡◌, ℕ, ◌-◌, ◌^◌, ◌<◌, ◌≤◌, length, map, slice_index, IfOk, replicate, EachIndex};
ghost use Rattle.std.specs.List.{range_with_len};
ghost use Rattle.std.specs.Mem.Slots.{slots_items, slots_len, IsFull};
ghost use Rattle.scatter_rows.specs.Scattered.{AreDistinct};
ghost use Rattle.scatter_rows.specs.Rule.{idle, putting, parting, uniting};
ghost use Rattle.scatter_rows.specs.Held.{held};
ghost use Rattle.scatter_rows.specs.Worked.{IsReadOut};

use crate::views::{Pairs, PutView};
use atomic_table::{Closed, Join, Play, Split, Table, TableRule};
use chunk_seats::Told;
use std::alloc::{AllocError, Global};
use std::marker::{Brand, Model, PhantomData};

struct Celling<N> {
    of: PhantomData<N>,
}

impl<N: Pairs> TableRule<(), PutView, u64> for Celling<N> {
    ghost use Rattle.scatter_rows.specs.Rule.{Celled, idle};

    ghost holds = { Celled N.places N.values N.limit };

    ghost first = { idle };
}

struct Put<C> {
    told: PhantomData<C>,
}

impl<C: Told> Play<(), PutView> for Put<C> {
    ghost use Rattle.scatter_rows.specs.Rule.{Puts};

    ghost then = { Puts C.told };
}

struct Part<C> {
    told: PhantomData<C>,
}

impl<C: Told> Split<PutView> for Part<C> {
    ghost use Rattle.scatter_rows.specs.Rule.{idle, parting};

    ghost left = { λ v. parting v C.told };

    ghost right = { λ v. idle C.told };
}

struct Unite;

impl Join<PutView> for Unite {
    ghost use Rattle.scatter_rows.specs.Rule.{idle, uniting};

    ghost both = { uniting };

    ghost spent = { idle 0 };
}

/// The cells' words. Threads share it.
#[derive(Drop)]
pub(crate) struct Cells<N: Pairs> {
    table: Table<(), PutView, u64, Celling<N>, Global>,
}

impl<N: Pairs> Model for Cells<N> {
    ghost use Rattle.std.specs.Prelude.{◌≡◌, ◌<◌, ◌^◌};
    ghost use Rattle.scatter_rows.specs.Held.{Board};

    ghost Value = { Board };

    ghost view = { λ b. record { board = b.table.shared.table_id; seats = b.table.shared.key } };

    ghost invariant = { λ b. (b.table.shared.table_id.slots ≡ 0) × (N.limit < 2 ^ 64) };
}

/// What a worker puts with.
#[derive(Drop)]
pub(crate) struct Seat {
    token: atomic_table::Seat<(), PutView>,
}

impl Model for Seat {
    ghost use Rattle.std.specs.Prelude.{◌≡◌, []};
    ghost use Rattle.scatter_rows.specs.Held.{Held, held};

    ghost Value = { Held };

    ghost view = { λ s. held s.token.table_id s.token.me.0 };

    ghost invariant = { λ s. s.token.me.1 ≡ [] };
}

// One less than each word, where it isn't 0.
fn read_out(closed: &Closed<(), Global>, out: &mut [u64])
    requires wide { length out.old ≡ slots_len closed.now.words }
    requires full { IsFull closed.now.words }
    ensures { EachIndex out.new (λ k. slice_index out.new k ≡ slice_index (slots_items closed.now.words) k - 1) }
{
    for (c, cell) in out.iter_mut().enumerate() {
        *cell = closed.word(c).saturating_sub(1);
    }
}

// The same as a list.
fn list_values(
    alloc: Global,
    closed: &Closed<(), Global>,
    len: usize,
) -> Result<Vec<u32>, AllocError>
    requires wide { len ≡ slots_len closed.now.words }
    requires full { IsFull closed.now.words }
    requires narrow { (k : ℕ) → slice_index (slots_items closed.now.words) k ≤ 2 ^ 32 }
    ensures { IfOk result (λ v. v.items ≡ map (λ k. slice_index (slots_items closed.now.words) k - 1) (range_with_len 0 len)) }
{
    let mut list = Vec::with_capacity(alloc, len)?;
    for c in 0..len {
        list.push(closed.word(c).saturating_sub(1) as u32)?;
    }
    Ok(list)
}

impl<N: Pairs> Cells<N> {
    /// Cells with these words, all of them 0, and the first seat, which stands for all.
    pub(crate) fn new(
        alloc: Global,
        words: &[u64],
        seats: u32,
    ) -> Result<(Cells<N>, Seat), AllocError>
        requires blank { words.now ≡ replicate (length words.now) 0 }
        requires inside { (i : ℕ) → i < length N.places → slice_index N.places i < length words.now }
        requires limit { N.limit < 2 ^ 64 }
        ensures { IfOk result (λ r. (r.0.board.words ≡ length words.now) × (r.0.seats ≡ seats) × (r.1 ≡ held r.0.board (idle seats))) }
    {
        let (table, token) = Table::of_words(alloc, words, &u64::from(seats))?;
        Ok((Cells { table }, Seat { token }))
    }

    fn put_told<C: Told>(&self, seat: &mut Seat, i: usize, place: u64, value: u64)
        requires told { C.told ≡ i }
        requires board { seat.old.board ≡ self.now.board }
        requires pair { (i < length N.places) × (slice_index N.places i ≡ place) × (slice_index N.values i ≡ value) }
        requires inside { place < self.now.board.words }
        requires small { value < N.limit }
        ensures { seat.new ≡ held seat.old.board (putting seat.old.view i) }
    {
        // The contract alone speaks of it.
        let _ = i;
        self.table
            .shared
            .store::<Put<C>>(&mut seat.token, place as usize, value + 1);
    }

    /// Puts the value of the pair i at its place.
    pub(crate) fn put(&self, seat: &mut Seat, i: usize, place: u64, value: u64)
        requires board { seat.old.board ≡ self.now.board }
        requires pair { (i < length N.places) × (slice_index N.places i ≡ place) × (slice_index N.values i ≡ value) }
        requires inside { place < self.now.board.words }
        requires small { value < N.limit }
        ensures { seat.new ≡ held seat.old.board (putting seat.old.view i) }
    {
        self.put_told::<Brand>(seat, i, place, value);
    }

    fn part<C: Told>(&self, seat: &mut Seat, n: u32) -> Seat
        requires told { C.told ≡ n }
        requires board { seat.old.board ≡ self.now.board }
        requires words { 0 < self.now.board.words }
        requires part { (1 ≤ n) × (n < seat.old.view.share) }
        ensures kept { seat.new ≡ held seat.old.board (parting seat.old.view n) }
        ensures given { result ≡ held seat.old.board (idle n) }
    {
        Seat {
            token: self.table.shared.split_seat::<Part<C>>(&mut seat.token),
        }
    }

    /// Cuts off a seat with n of this seat's share.
    pub(crate) fn split(&self, seat: &mut Seat, n: u32) -> Seat
        requires board { seat.old.board ≡ self.now.board }
        requires words { 0 < self.now.board.words }
        requires part { (1 ≤ n) × (n < seat.old.view.share) }
        ensures kept { seat.new ≡ held seat.old.board (parting seat.old.view n) }
        ensures given { result ≡ held seat.old.board (idle n) }
    {
        self.part::<Brand>(seat, n)
    }

    /// Takes in what another seat has put.
    pub(crate) fn join(&self, seat: &mut Seat, other: Seat)
        requires board { (seat.old.board ≡ self.now.board) × (other.board ≡ self.now.board) }
        requires words { 0 < self.now.board.words }
        ensures { seat.new ≡ held seat.old.board (uniting seat.old.view other.view) }
    {
        let Seat { token } = other;
        self.table.shared.join_seat::<Unite>(&mut seat.token, token);
    }

    /// Takes the table apart, and reads the values out.
    pub(crate) fn close(self, seat: Seat, out: &mut [u64])
        requires board { seat.board ≡ self.board }
        requires wide { length out.old ≡ self.board.words }
        requires distinct { AreDistinct N.places }
        ensures { IsReadOut N.places N.values seat.view.put out.new }
    {
        let Seat { token } = seat;
        let Cells { table } = self;
        let closed = table.close_with(token);
        read_out(&closed, out);
        closed.free();
    }

    /// Takes the table apart, and lists the values.
    pub(crate) fn into_list(
        self,
        alloc: Global,
        seat: Seat,
        len: usize,
    ) -> Result<Vec<u32>, AllocError>
        requires board { seat.board ≡ self.board }
        requires wide { len ≡ self.board.words }
        requires narrow { N.limit ≤ 2 ^ 32 }
        requires distinct { AreDistinct N.places }
        ensures { IfOk result (λ v. (length v.items ≡ len) × IsReadOut N.places N.values seat.view.put v.items) }
    {
        let Seat { token } = seat;
        let Cells { table } = self;
        let closed = table.close_with(token);
        let list = list_values(alloc, &closed, len);
        closed.free();
        list
    }
}
