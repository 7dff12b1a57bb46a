// Each law is the contract of a function that does nothing.

ghost use Rattle.std.specs.Prelude.{ℕ, List, [], ◌∷◌};
ghost use Rattle.board_core.specs.declared.steps.Event.TheVariants.{Claim, Done, Show, Look, Seal};
ghost use Rattle.board_core.specs.State.{State};
ghost use Rattle.board_steps.specs.Runs.{ClaimRun, ClaimRunsAreSchedules, ClaimRunsAreSound, DealRun, DealRunsAreSchedules, DealRunsAreSound, StatusRunsAreSchedules, StatusRunsAreSound};
ghost use Rattle.board_steps.specs.Worked.{dealt_twice, split_and_claimed};
ghost use Rattle.board_steps.specs.Ties.{DrawsAreClaims, FinishesAreDone, DrawsAreDeals, StoresAreShown, StoresAreSealed, LoadsAreLooks};
ghost use Rattle.board_steps.specs.Ties.{ClaimsAreEvents, DoneAreEvents, ClaimSplitsAreEvents, ClaimJoinsAreEvents};
ghost use Rattle.board_steps.specs.Ties.{DealsAreEvents, DealSplitsAreEvents, DealJoinsAreEvents};
ghost use Rattle.board_steps.specs.Ties.{ShowsAreEvents, SealsAreEvents, LooksAreEvents, StatusSplitsAreEvents, StatusJoinsAreEvents};
ghost use Rattle.board_steps.specs.Ties.{LeavesStatuses, LeavesClaims};

use board_core::every_schedule;
use deal_board::Goods;
use word_monoid::WordMonoid;

/// Each step of the boards' tables, by the play that its operation has in the code, is what the board's call is said to do.
pub fn table_steps<M: WordMonoid>(monoid: &M)
    ensures draws { DrawsAreClaims }
    ensures finishes { FinishesAreDone }
    ensures shows { StoresAreShown (M.ops monoid.now) }
    ensures seals { StoresAreSealed (M.ops monoid.now) }
    ensures loads { LoadsAreLooks (M.ops monoid.now) }
{
    // The contract alone speaks of it.
    let _ = monoid;
}

/// Each step of a running claim board, which is the claim part of a core's state, is the core's event of that name: the event is lawful,
/// its answer is that of the call, and the board becomes the claim part of the state to which the event leads. Nothing is asked of the
/// status part.
pub fn claim_board_steps<M: WordMonoid>(monoid: &M)
    ensures claims { ClaimsAreEvents (M.ops monoid.now) }
    ensures done { DoneAreEvents (M.ops monoid.now) }
    ensures splits { ClaimSplitsAreEvents (M.ops monoid.now) }
    ensures joins { ClaimJoinsAreEvents (M.ops monoid.now) }
{
    // The contract alone speaks of it.
    let _ = monoid;
}

/// The same of a running board that deals items of a type T, and of its table, where N says which items are good for a number. A deal is
/// two events where something is in the seat's hand, which is done first, and one where its hand is empty.
pub fn deal_board_steps<M: WordMonoid, T, N: Goods<T>>(monoid: &M)
    ensures draws { DrawsAreDeals N.good }
    ensures deals { DealsAreEvents (M.ops monoid.now) T }
    ensures splits { DealSplitsAreEvents (M.ops monoid.now) T }
    ensures joins { DealJoinsAreEvents (M.ops monoid.now) T }
{
    // The contract alone speaks of it.
    let _ = monoid;
}

/// The same of a running status board and the status part. Nothing is asked of the claim part.
pub fn status_board_steps<M: WordMonoid>(monoid: &M)
    ensures shows { ShowsAreEvents (M.ops monoid.now) }
    ensures seals { SealsAreEvents (M.ops monoid.now) }
    ensures looks { LooksAreEvents (M.ops monoid.now) }
    ensures splits { StatusSplitsAreEvents (M.ops monoid.now) }
    ensures joins { StatusJoinsAreEvents (M.ops monoid.now) }
{
    // The contract alone speaks of it.
    let _ = monoid;
}

/// An event of one part leaves the other part as it is.
pub fn parts_apart<M: WordMonoid>(monoid: &M)
    ensures claim { (sums : List M.Item) (c : State M.Item) (a : ℕ) → LeavesStatuses (M.ops monoid.now) sums c (Claim a) }
    ensures done { (sums : List M.Item) (c : State M.Item) (a n : ℕ) → LeavesStatuses (M.ops monoid.now) sums c (Done a n) }
    ensures show { (sums : List M.Item) (c : State M.Item) (a n : ℕ) → LeavesClaims (M.ops monoid.now) sums c (Show a n) }
    ensures seal { (sums : List M.Item) (c : State M.Item) (a n : ℕ) → LeavesClaims (M.ops monoid.now) sums c (Seal a n) }
    ensures look { (sums : List M.Item) (c : State M.Item) (a j : ℕ) → LeavesClaims (M.ops monoid.now) sums c (Look a j) }
{
    // The contract alone speaks of it.
    let _ = monoid;
}

/// Whatever steps the seats of a claim board have taken, in whatever order, the board is the claim part of the core's state after some
/// lawful events from the start, for every list of as many sums as there are chunks. So all that holds of the core after every list of
/// events holds of the board.
pub fn claim_board_runs<M: WordMonoid>(monoid: &M)
    ensures schedule { ClaimRunsAreSchedules (M.ops monoid.now) }
    ensures sound { ClaimRunsAreSound (M.ops monoid.now) }
{
    every_schedule(monoid);
}

/// The same of a board that deals items of a type T, for every list of as many sums as there are items.
pub fn deal_board_runs<M: WordMonoid, T>(monoid: &M)
    ensures schedule { DealRunsAreSchedules (M.ops monoid.now) T }
    ensures sound { DealRunsAreSound (M.ops monoid.now) T }
{
    every_schedule(monoid);
}

/// The same of a status board and the status part.
pub fn status_board_runs<M: WordMonoid>(monoid: &M)
    ensures schedule { StatusRunsAreSchedules (M.ops monoid.now) }
    ensures sound { StatusRunsAreSound (M.ops monoid.now) }
{
    every_schedule(monoid);
}

/// Where two seats share a board of two chunks, a split and a claim by the new seat are a run.
pub fn worked_run()
    ensures { ClaimRun 2 2 split_and_claimed }
{}

/// A seat that draws both of two items, and puts the first back with the second draw, is a run.
pub fn worked_deals()
    ensures { DealRun (5 ∷ 6 ∷ []) 1 dealt_twice }
{}
