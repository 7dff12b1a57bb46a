//! Which steps are lawful, and what they do.
ghost use Rattle.std.specs.Prelude.{◌≡◌, ℕ, ◌+◌, ◌<◌, length, All, IsTrue, IfOk, OnOk, OnErr};
ghost use Rattle.word_monoid.specs.Monoid.{IsItem};
ghost use Rattle.board_core.specs.Schedules.{through, is_lawful, does, answers};
ghost use Rattle.board_core.specs.Held.{IsKept};

use crate::state::State;
use crate::steps::{Event, Reply};
use std::alloc::AllocError;
use word_monoid::{WordMonoid, prefixes_by_steps};

// The join of the sums of the chunks up to c and with it.
fn join_through<M: WordMonoid>(monoid: &M, sums: &[M::Item], c: u64) -> M::Item
    requires items { All (IsItem (M.ops monoid.now)) sums.now }
    requires chunk { c < length sums.now }
    ensures { result ≡ through (M.ops monoid.now) sums.now c }
{
    prefixes_by_steps(monoid, sums, 0);
    let mut joined = monoid.unit();
    for i in 0..c as usize + 1 {
        prefixes_by_steps(monoid, sums, i);
        joined = monoid.join(joined, sums[i]);
    }
    joined
}

/// Whether a step may be taken.
pub(crate) fn may<M: WordMonoid>(
    monoid: &M,
    sums: &[M::Item],
    state: &State<M::Item>,
    event: Event,
) -> bool
    ensures { result ≡ is_lawful (M.ops monoid.now) sums.now state.now event }
{
    // The contract alone speaks of it.
    let _ = monoid;
    let chunks = sums.len() as u64;
    match event {
        Event::Claim(a) => state.is_there(a) && !state.is_spent(a),
        Event::Done(a, c) => state.is_there(a) && state.has_claimed(a, c) && !state.has_done(a, c),
        Event::Show(a, c) => state.is_there(a) && c < chunks,
        Event::Look(a, j) => state.is_there(a) && j < chunks,
        Event::Seal(a, c) => state.is_there(a) && state.has_shown(a, c),
        Event::Split(a, n) => state.is_there(a) && 1 <= n && n < state.share(a),
        Event::Join(a, b) => state.is_there(a) && state.is_there(b) && a != b,
    }
}

/// Takes a lawful step.
pub(crate) fn apply<M: WordMonoid>(
    monoid: &M,
    sums: &[M::Item],
    state: &mut State<M::Item>,
    event: Event,
) -> Result<Reply<M::Item>, AllocError>
    requires kept { (seats : ℕ) × IsKept (M.ops monoid.now) sums.now seats state.old }
    requires lawful { IsTrue (is_lawful (M.ops monoid.now) sums.now state.old event) }
    ensures ok { OnOk result (state.new ≡ does (M.ops monoid.now) sums.now state.old event) }
    ensures answer { IfOk result (λ r. r ≡ answers (M.ops monoid.now) sums.now state.old event) }
    ensures err { OnErr result (state.new ≡ state.old) }
{
    match event {
        Event::Claim(a) => Ok(Reply::Drew(state.claim(sums.len() as u64, a)?)),
        Event::Done(a, c) => {
            state.finish(a, c)?;
            Ok(Reply::Did)
        }
        Event::Show(a, c) => {
            state.show(a, c, sums[c as usize])?;
            Ok(Reply::Did)
        }
        Event::Look(a, j) => Ok(Reply::Looked(state.look(a, j)?)),
        Event::Seal(a, c) => {
            state.seal(a, c, join_through(monoid, sums, c))?;
            Ok(Reply::Did)
        }
        Event::Split(a, n) => Ok(Reply::NewSeat(state.split(a, n)?)),
        Event::Join(a, b) => {
            state.join(a, b)?;
            Ok(Reply::Did)
        }
    }
}
