//! The boards' words and their seats.
ghost use Rattle.std.specs.Prelude.{◌≡◌, ◌+◌, ◌-◌, ◌<◌, ◌≤◌, ◌^◌, ◌++◌, ◌∷◌, [], List, Some, None, length, map, nat_lt, if◌then◌else◌, slice_set, IfOk, OnOk, OnErr};
ghost use Rattle.board_core.specs.declared.steps.Status.TheVariants.{X, A, P};
ghost use Rattle.board_core.specs.State.{fresh, gone, has, is_there, is_spent, seat_at, status_at, with_seat, with_status};
ghost use Rattle.board_core.specs.Steps.{claiming, finishing, showing, sealing, looking, giving, joining};

use crate::seat::Seat;
use crate::steps::Status;
use std::alloc::{AllocError, Global};
use std::marker::Model;

/// The counter and the count of finished chunks, a status for each chunk, and the seats, by their numbers.
#[derive(Drop)]
pub(crate) struct State<I: Copy> {
    alloc: Global,
    counter: u64,
    finished: u64,
    statuses: Vec<Status<I>>,
    seats: Vec<Seat<I>>,
}

impl<I: Copy> Model for State<I> {
    ghost use Rattle.board_core.specs.State as specs;

    ghost Value = { specs.State I };

    ghost view = { λ s. record { counter = s.counter; finished = s.finished; statuses = s.statuses.items; seats = s.seats.items } };
}

// Nothing is published of as many chunks as there are sums.
fn unpublished<I: Copy>(alloc: Global, sums: &[I]) -> Result<Vec<Status<I>>, AllocError>
    ensures { IfOk result (λ v. v.items ≡ map (λ _. X) sums.now) }
{
    sums.iter().map(|_| Status::X).collect(alloc)
}

impl<I: Copy> State<I> {
    /// Nothing is drawn or published, and one seat stands for all.
    pub(crate) fn new(alloc: Global, sums: &[I], seats: u32) -> Result<State<I>, AllocError>
        ensures { IfOk result (λ s. s ≡ record { counter = 0; finished = 0; statuses = map (λ _. X) sums.now; seats = fresh seats ∷ [] }) }
    {
        let statuses = unpublished(alloc, sums)?;
        let mut all = Vec::new(alloc);
        all.push(Seat::new(alloc, u64::from(seats)))?;
        Ok(State {
            alloc,
            counter: 0,
            finished: 0,
            statuses,
            seats: all,
        })
    }

    pub(crate) fn is_there(&self, a: u64) -> bool
        ensures { result ≡ is_there (seat_at self.now a) }
    {
        match self.seats.get(a as usize) {
            Some(seat) => seat.is_there(),
            None => false,
        }
    }

    pub(crate) fn is_spent(&self, a: u64) -> bool
        ensures { result ≡ is_spent (seat_at self.now a) }
    {
        match self.seats.get(a as usize) {
            Some(seat) => seat.is_spent(),
            None => false,
        }
    }

    pub(crate) fn share(&self, a: u64) -> u64
        ensures { result ≡ (seat_at self.now a).share }
    {
        match self.seats.get(a as usize) {
            Some(seat) => seat.share(),
            None => 0,
        }
    }

    pub(crate) fn has_claimed(&self, a: u64, c: u64) -> bool
        ensures { result ≡ has c (seat_at self.now a).claimed }
    {
        match self.seats.get(a as usize) {
            Some(seat) => seat.has_claimed(c),
            None => false,
        }
    }

    pub(crate) fn has_done(&self, a: u64, c: u64) -> bool
        ensures { result ≡ has c (seat_at self.now a).done }
    {
        match self.seats.get(a as usize) {
            Some(seat) => seat.has_done(c),
            None => false,
        }
    }

    pub(crate) fn has_shown(&self, a: u64, c: u64) -> bool
        ensures { result ≡ has c (seat_at self.now a).shown }
    {
        match self.seats.get(a as usize) {
            Some(seat) => seat.has_shown(c),
            None => false,
        }
    }

    /// Draws the next number for a seat, which is spent where that is no chunk's.
    pub(crate) fn claim(&mut self, chunks: u64, a: u64) -> Result<Option<u64>, AllocError>
        requires there { a < length self.old.seats }
        requires small { self.old.counter < 2 ^ 64 - 1 }
        ensures ok { OnOk result (self.new ≡ record (with_seat self.old a (claiming chunks self.old.counter (seat_at self.old a))) { counter = self.old.counter + 1 }) }
        ensures drew { IfOk result (λ drawn. drawn ≡ if nat_lt self.old.counter chunks then Some self.old.counter else None) }
        ensures err { OnErr result (self.new ≡ self.old) }
    {
        let drawn = self.counter;
        if drawn < chunks {
            self.seats[a as usize].claim(drawn)?;
            self.counter += 1;
            return Ok(Some(drawn));
        }
        self.seats[a as usize].spend();
        self.counter += 1;
        Ok(None)
    }

    /// Counts a chunk of a seat as done.
    pub(crate) fn finish(&mut self, a: u64, c: u64) -> Result<(), AllocError>
        requires there { a < length self.old.seats }
        requires small { self.old.finished < 2 ^ 64 - 1 }
        ensures ok { OnOk result (self.new ≡ record (with_seat self.old a (finishing c (seat_at self.old a))) { finished = self.old.finished + 1 }) }
        ensures err { OnErr result (self.new ≡ self.old) }
    {
        self.seats[a as usize].finish(c)?;
        self.finished += 1;
        Ok(())
    }

    /// Publishes the sum of a chunk.
    pub(crate) fn show(&mut self, a: u64, c: u64, sum: I) -> Result<(), AllocError>
        requires there { a < length self.old.seats }
        requires chunk { c < length self.old.statuses }
        ensures ok { OnOk result (self.new ≡ with_status (with_seat self.old a (showing c (seat_at self.old a))) c (A sum)) }
        ensures err { OnErr result (self.new ≡ self.old) }
    {
        self.seats[a as usize].show(c)?;
        self.statuses[c as usize] = Status::A(sum);
        Ok(())
    }

    /// Reads the status of a chunk.
    pub(crate) fn look(&mut self, a: u64, j: u64) -> Result<Status<I>, AllocError>
        requires there { a < length self.old.seats }
        requires chunk { j < length self.old.statuses }
        ensures ok { OnOk result (self.new ≡ with_seat self.old a (looking j (status_at self.old j) (seat_at self.old a))) }
        ensures looked { IfOk result (λ status. status ≡ status_at self.old j) }
        ensures err { OnErr result (self.new ≡ self.old) }
    {
        let status = self.statuses[j as usize];
        self.seats[a as usize].look(j, status)?;
        Ok(status)
    }

    /// Publishes the join of the sums up to a chunk and with it.
    pub(crate) fn seal(&mut self, a: u64, c: u64, prefix: I) -> Result<(), AllocError>
        requires there { a < length self.old.seats }
        requires chunk { c < length self.old.statuses }
        ensures ok { OnOk result (self.new ≡ with_status (with_seat self.old a (sealing c (seat_at self.old a))) c (P prefix)) }
        ensures err { OnErr result (self.new ≡ self.old) }
    {
        self.seats[a as usize].seal(c)?;
        self.statuses[c as usize] = Status::P(prefix);
        Ok(())
    }

    /// Splits off a new seat, and answers its number.
    pub(crate) fn split(&mut self, a: u64, n: u64) -> Result<u64, AllocError>
        requires there { a < length self.old.seats }
        requires part { (n ≤ (seat_at self.old a).share) × (n ≤ (seat_at self.old a).weight) }
        ensures ok { OnOk result (self.new ≡ record self.old { seats = slice_set self.old.seats a (giving n (seat_at self.old a)) ++ fresh n ∷ [] }) }
        ensures number { IfOk result (λ number. number ≡ length self.old.seats) }
        ensures err { OnErr result (self.new ≡ self.old) }
    {
        let number = self.seats.len() as u64;
        self.seats.push(Seat::new(self.alloc, n))?;
        self.seats[a as usize].give(n);
        Ok(number)
    }

    /// Puts two seats together, and leaves nothing of the second.
    pub(crate) fn join(&mut self, a: u64, b: u64) -> Result<(), AllocError>
        requires there { (a < length self.old.seats) × (b < length self.old.seats) }
        requires shares { (seat_at self.old a).share + (seat_at self.old b).share < 2 ^ 64 }
        requires weights { (seat_at self.old a).weight + (seat_at self.old b).weight < 2 ^ 64 }
        ensures ok { OnOk result (self.new ≡ with_seat (with_seat self.old a (joining (seat_at self.old a) (seat_at self.old b))) b gone) }
        ensures err { OnErr result (self.new ≡ self.old) }
    {
        let joined = self.seats[a as usize].joined(self.alloc, &self.seats[b as usize])?;
        self.seats[a as usize] = joined;
        self.seats[b as usize] = Seat::new(self.alloc, 0);
        Ok(())
    }
}
