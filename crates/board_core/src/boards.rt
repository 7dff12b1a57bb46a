//! The boards, and the steps that they take.
ghost use Rattle.std.specs.Prelude.{◌≡◌, ℕ, ◌+◌, ◌<◌, ◌≤◌, ◌^◌, length, All, take, IsTrue, IfOk, OnOk, OnErr};
ghost use Rattle.word_monoid.specs.Monoid.{IsItem};
ghost use Rattle.board_core.specs.Schedules.{start, reply, play, play_all, all_orderly};
ghost use Rattle.board_core.specs.Sound.{IsSound, IsOrdered, ClaimsAll, FinishesAll};
ghost use Rattle.board_core.specs.Held.{IsKept, with_state};

use crate::rules::{apply, may};
use crate::state::State;
use crate::steps::{Event, Reply};
use std::alloc::{AllocError, Global};
use std::marker::Model;
use word_monoid::WordMonoid;

/// The claim board and the status board of a scan, and the seats on them, as one value. Whatever steps it takes, it stays sound.
#[derive(Drop)]
pub struct Core<M: WordMonoid> {
    monoid: M,
    sums: Vec<M::Item>,
    seats: u32,
    state: State<M::Item>,
}

impl<M: WordMonoid> Model for Core<M> {
    ghost use Rattle.board_core.specs.Held.{Board, IsKept};

    ghost Value = { Board M M.Item };

    ghost view = { λ c. record { monoid = c.monoid; sums = c.sums.items; seats = c.seats; state = c.state } };

    ghost invariant = { λ c. IsKept (M.ops c.monoid) c.sums.items c.seats c.state };
}

impl<M: WordMonoid + Drop> Core<M> {
    /// The boards of as many chunks as there are sums, with nothing drawn or published, and seat 0, which stands for `seats`.
    pub fn new(
        alloc: Global,
        monoid: M,
        sums: &[M::Item],
        seats: u32,
    ) -> Result<Core<M>, AllocError>
        requires sums { (length sums.now < 2 ^ 62) × All (IsItem (M.ops monoid)) sums.now }
        requires seats { 1 ≤ seats }
        ensures start { IfOk result (λ c. c ≡ record { monoid = monoid; sums = sums.now; seats = seats; state = start (M.ops monoid) sums.now seats }) }
        ensures ordered { IfOk result (λ c. IsOrdered c.state) }
    {
        let state = State::new(alloc, sums, seats)?;
        let mut own = Vec::with_capacity(alloc, sums.len())?;
        own.extend_from_slice(sums)?;
        Ok(Core {
            monoid,
            sums: own,
            seats,
            state,
        })
    }

    /// How many seats the first one stood for.
    pub fn seats(&self) -> u32
        ensures { result ≡ self.now.seats }
    {
        self.seats
    }

    /// What every core keeps: the boards are sound, whatever steps were taken.
    pub fn know_sound(&self)
        ensures { IsKept (M.ops self.now.monoid) self.now.sums self.now.seats self.now.state }
    {
        // Whoever reads the state has its invariant.
        let _ = &self.state;
    }

    /// Takes one step. `Passed` comes exactly where it isn't lawful, and then nothing changes.
    pub fn play(&mut self, event: Event) -> Result<Reply<M::Item>, AllocError>
        ensures ok { OnOk result (self.new ≡ with_state self.old (play (M.ops self.old.monoid) self.old.sums self.old.state event)) }
        ensures replies { IfOk result (λ r. r ≡ reply (M.ops self.old.monoid) self.old.sums self.old.state event) }
        ensures err { OnErr result (self.new ≡ self.old) }
    {
        let sums = self.sums.as_slice();
        if !may(&self.monoid, sums, &self.state, event) {
            return Ok(Reply::Passed);
        }
        apply(&self.monoid, sums, &mut self.state, event)
    }

    /// Takes steps in order. Where memory runs out, those before some step were taken.
    ///
    /// Whatever the steps are, the boards are sound then. Where a seat shows only chunks that it has claimed, each once, and says
    /// done only of those that it has sealed, they are in order too.
    pub fn play_all(&mut self, events: &[Event]) -> Result<(), AllocError>
        ensures ok { OnOk result (self.new ≡ with_state self.old (play_all (M.ops self.old.monoid) self.old.sums self.old.state events.now)) }
        ensures err { OnErr result ((n : ℕ) × (n < length events.now) × (self.new ≡ with_state self.old (play_all (M.ops self.old.monoid) self.old.sums self.old.state (take n events.now)))) }
        ensures sound { IsSound (M.ops self.new.monoid) self.new.sums self.new.seats self.new.state }
        ensures claims { ClaimsAll (length self.new.sums) self.new.seats self.new.state }
        ensures ordered { IsOrdered self.old.state → IsTrue (all_orderly (M.ops self.old.monoid) self.old.sums self.old.state events.now) → IsOrdered self.new.state }
        ensures finishes { IsOrdered self.old.state → IsTrue (all_orderly (M.ops self.old.monoid) self.old.sums self.old.state events.now)
            → FinishesAll (length self.new.sums) self.new.seats self.new.state }
    {
        self.know_sound();
        for event in events {
            self.play(*event)?;
        }
        Ok(())
    }
}
