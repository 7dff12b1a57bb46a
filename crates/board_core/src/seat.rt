//! What a seat may do, and what it has done.
ghost use Rattle.std.specs.Prelude.{◌≡◌, ◌+◌, ◌-◌, ◌<◌, ◌≤◌, ◌^◌, ◌++◌, ◌∷◌, [], List, nat_lt, IfOk, OnOk, OnErr};
ghost use Rattle.chunk_seats.specs.Tallies.{times};
ghost use Rattle.board_core.specs.State.{fresh, has, is_there, is_spent};
ghost use Rattle.board_core.specs.Steps.{shares, finishing, showing, sealing, looking, giving, joining};

use crate::steps::Status;
use std::alloc::{AllocError, Global};
use std::marker::Model;

/// A seat: how much it may still claim with, how much of the boards it stands for, and the chunks of its steps so far.
#[derive(Drop)]
pub(crate) struct Seat<I: Copy> {
    share: u64,
    weight: u64,
    claimed: Vec<u64>,
    done: Vec<u64>,
    shown: Vec<u64>,
    sealed: Vec<u64>,
    looked: Vec<(u64, Status<I>)>,
}

impl<I: Copy> Model for Seat<I> {
    ghost use Rattle.board_core.specs.State as specs;

    ghost Value = { specs.Seat I };

    ghost view = { λ s. record { share = s.share; weight = s.weight; claimed = s.claimed.items; done = s.done.items; shown = s.shown.items; sealed = s.sealed.items; looked = s.looked.items } };
}

// Whether a number stands in a list.
fn contains(list: &[u64], n: u64) -> bool
    ensures { result ≡ has n list.now }
{
    for x in list {
        if *x == n {
            return true;
        }
    }
    false
}

// The shares of two seats together, where neither is spent.
fn shares_of(one: u64, two: u64) -> u64
    requires { one + two < 2 ^ 64 }
    ensures { result ≡ shares one two }
{
    if one == 0 || two == 0 { 0 } else { one + two }
}

// One list behind the other.
fn concatenated<T: Copy>(alloc: Global, one: &[T], two: &[T]) -> Result<Vec<T>, AllocError>
    ensures { IfOk result (λ v. v.items ≡ one.now ++ two.now) }
{
    let mut all = Vec::with_capacity(alloc, one.len())?;
    all.extend_from_slice(one)?;
    all.extend_from_slice(two)?;
    Ok(all)
}

impl<I: Copy> Seat<I> {
    /// A new seat with this share.
    pub(crate) fn new(alloc: Global, share: u64) -> Seat<I>
        ensures { result ≡ fresh share }
    {
        Seat {
            share,
            weight: share,
            claimed: Vec::new(alloc),
            done: Vec::new(alloc),
            shown: Vec::new(alloc),
            sealed: Vec::new(alloc),
            looked: Vec::new(alloc),
        }
    }

    pub(crate) fn share(&self) -> u64
        ensures { result ≡ self.now.share }
    {
        self.share
    }

    pub(crate) fn is_there(&self) -> bool
        ensures { result ≡ is_there self.now }
    {
        self.weight > 0
    }

    pub(crate) fn is_spent(&self) -> bool
        ensures { result ≡ is_spent self.now }
    {
        self.share == 0 && self.weight > 0
    }

    pub(crate) fn has_claimed(&self, c: u64) -> bool
        ensures { result ≡ has c self.now.claimed }
    {
        contains(self.claimed.as_slice(), c)
    }

    pub(crate) fn has_done(&self, c: u64) -> bool
        ensures { result ≡ has c self.now.done }
    {
        contains(self.done.as_slice(), c)
    }

    pub(crate) fn has_shown(&self, c: u64) -> bool
        ensures { result ≡ has c self.now.shown }
    {
        contains(self.shown.as_slice(), c)
    }

    pub(crate) fn claim(&mut self, n: u64) -> Result<(), AllocError>
        ensures ok { OnOk result (self.new ≡ record self.old { claimed = self.old.claimed ++ n ∷ [] }) }
        ensures err { OnErr result (self.new ≡ self.old) }
    {
        self.claimed.push(n)?;
        Ok(())
    }

    pub(crate) fn spend(&mut self)
        ensures { self.new ≡ record self.old { share = 0 } }
    {
        self.share = 0;
    }

    pub(crate) fn finish(&mut self, c: u64) -> Result<(), AllocError>
        ensures ok { OnOk result (self.new ≡ finishing c self.old) }
        ensures err { OnErr result (self.new ≡ self.old) }
    {
        self.done.push(c)?;
        Ok(())
    }

    pub(crate) fn show(&mut self, c: u64) -> Result<(), AllocError>
        ensures ok { OnOk result (self.new ≡ showing c self.old) }
        ensures err { OnErr result (self.new ≡ self.old) }
    {
        self.shown.push(c)?;
        Ok(())
    }

    pub(crate) fn seal(&mut self, c: u64) -> Result<(), AllocError>
        ensures ok { OnOk result (self.new ≡ sealing c self.old) }
        ensures err { OnErr result (self.new ≡ self.old) }
    {
        self.sealed.push(c)?;
        Ok(())
    }

    pub(crate) fn look(&mut self, j: u64, status: Status<I>) -> Result<(), AllocError>
        ensures ok { OnOk result (self.new ≡ looking j status self.old) }
        ensures err { OnErr result (self.new ≡ self.old) }
    {
        self.looked.push((j, status))?;
        Ok(())
    }

    pub(crate) fn give(&mut self, n: u64)
        requires { (n ≤ self.old.share) × (n ≤ self.old.weight) }
        ensures { self.new ≡ giving n self.old }
    {
        self.share -= n;
        self.weight -= n;
    }

    /// A seat with what two seats have. It is spent where one of them is.
    pub(crate) fn joined(&self, alloc: Global, other: &Seat<I>) -> Result<Seat<I>, AllocError>
        requires { (self.now.share + other.now.share < 2 ^ 64) × (self.now.weight + other.now.weight < 2 ^ 64) }
        ensures { IfOk result (λ seat. seat ≡ joining self.now other.now) }
    {
        Ok(Seat {
            share: shares_of(self.share, other.share),
            weight: self.weight + other.weight,
            claimed: concatenated(alloc, self.claimed.as_slice(), other.claimed.as_slice())?,
            done: concatenated(alloc, self.done.as_slice(), other.done.as_slice())?,
            shown: concatenated(alloc, self.shown.as_slice(), other.shown.as_slice())?,
            sealed: concatenated(alloc, self.sealed.as_slice(), other.sealed.as_slice())?,
            looked: concatenated(alloc, self.looked.as_slice(), other.looked.as_slice())?,
        })
    }
}
