//! Laws of all schedules, each the contract of a function that does nothing.
ghost use Rattle.std.specs.Prelude.{◌≡◌, ℕ, ◌<◌, List, IsTrue, length};
ghost use Rattle.board_core.specs.declared.steps.Event.{Event};
ghost use Rattle.board_core.specs.Schedules.{after, is_orderly_from_start};
ghost use Rattle.board_core.specs.Sound.{IsSound, IsOrdered, ClaimsAll, FinishesAll};
ghost use Rattle.board_core.specs.Worked.{replies_of_steps, its_replies};

use word_monoid::WordMonoid;

/// What thirteen steps of two seats answer.
pub fn worked_schedule()
    ensures { replies_of_steps ≡ its_replies }
{}

/// After any steps from the start the boards are sound. Where each lawful step was orderly, they are in order too.
pub fn every_schedule<M: WordMonoid>(monoid: &M)
    ensures sound { (sums : List M.Item) (seats : ℕ) (events : List Event) → 0 < seats → IsSound (M.ops monoid.now) sums seats (after (M.ops monoid.now) sums seats events) }
    ensures claims { (sums : List M.Item) (seats : ℕ) (events : List Event) → 0 < seats → ClaimsAll (length sums) seats (after (M.ops monoid.now) sums seats events) }
    ensures ordered { (sums : List M.Item) (seats : ℕ) (events : List Event) → 0 < seats → IsTrue (is_orderly_from_start (M.ops monoid.now) sums seats events)
        → IsOrdered (after (M.ops monoid.now) sums seats events) }
    ensures finishes { (sums : List M.Item) (seats : ℕ) (events : List Event) → 0 < seats → IsTrue (is_orderly_from_start (M.ops monoid.now) sums seats events)
        → FinishesAll (length sums) seats (after (M.ops monoid.now) sums seats events) }
{
    // The contract alone speaks of it.
    let _ = monoid;
}
