//! What the workers of a team do together.
ghost use Rattle.std.specs.Prelude.{ℕ, ◌+◌, ◌<◌, ◌≤◌};

use std::marker::{Send, Sync};
use std::thread::{Threads, join};

/// What a team of workers does together.
pub trait Task {
    ghost use Rattle.std.specs.Prelude.{ℕ, ◌+◌, ◌<◌, ◌≤◌};

    /// What a team has before it works.
    type Seats: Drop + Send;

    /// What a team leaves.
    type Made: Drop + Send;

    /// A team of this many workers may begin with these seats.
    ghost begins: { Self → ℕ → Self.Seats → Type 0 };

    /// A team of this many workers may leave this.
    ghost ends: { Self → ℕ → Self.Made → Type 0 };

    /// Splits off the seats of `half` workers. Those of the `rest` are kept.
    fn split(&self, seats: &mut Self::Seats, rest: u32, half: u32) -> Self::Seats
        requires some { (1 ≤ rest) × (1 ≤ half) }
        requires all { begins self.now (rest + half) seats.old }
        ensures kept { begins self.now rest seats.new }
        ensures given { begins self.now half result };

    /// All that one worker does. Its number is that by which the gate knows it.
    fn work(&self, seats: Self::Seats, worker: u32) -> Self::Made
        requires worker { worker < 64 }
        requires begins { begins self.now 1 seats }
        ensures { ends self.now 1 result };

    /// What two teams left, as one.
    fn merge(&self, rest: u32, half: u32, one: Self::Made, two: Self::Made) -> Self::Made
        requires one { ends self.now rest one }
        requires two { ends self.now half two }
        ensures { ends self.now (rest + half) result };
}

/// This many workers do the task, each in a thread of its own where threads can be made. The first of them has the number `first`.
pub fn run<R: Threads + Sync, J: Task + Send + Sync>(
    rt: &R,
    task: &J,
    mut seats: J::Seats,
    first: u32,
    workers: u32,
) -> J::Made
    requires workers { (1 ≤ workers) × (first + workers ≤ 64) }
    requires begins { J.begins task.now workers seats }
    ensures { J.ends task.now workers result }
{
    if workers == 1 {
        return task.work(seats, first);
    }
    let half = workers / 2;
    let rest = workers - half;
    let after = first + rest;
    let others = task.split(&mut seats, rest, half);
    let (one, two) = join(
        rt,
        move || -> J::Made
            requires { (1 ≤ rest) × (first + rest ≤ 64) × J.begins task.now rest seats }
            ensures { J.ends task.entry.now rest result }
        { run(rt, task, seats, first, rest) },
        move || -> J::Made
            requires { (1 ≤ half) × (after + half ≤ 64) × J.begins task.now half others }
            ensures { J.ends task.entry.now half result }
        { run(rt, task, others, after, half) },
    );
    task.merge(rest, half, one, two)
}
