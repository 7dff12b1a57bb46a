// A command, and how its work is shared out.

use crate::command::Command;
use chunk_seats::Plan;
use std::marker::Model;

/// What the words ask for.
#[derive(Drop)]
pub struct Request {
    /// What is to be done.
    pub command: Command,
    /// How the work is shared out. No answer depends on it. `emu`, `dump`, `asm`, `table` and `explain` have no options for it: one thread does their work.
    pub plan: Plan,
}

impl Model for Request {
    ghost use Rattle.command_line.specs.Words.{Asked};

    ghost Value = { Asked };

    ghost view = { λ r. record { command = r.command; workers = r.plan.workers; chunk = r.plan.chunk } };
}
