//! What every pass takes, as one value.

use crate::plan::{Gate, Plan};
use std::alloc::Global;
use std::marker::Sync;
use std::thread::Threads;

/// Who does a pass, and where. No answer of a pass depends on it, but for whether there is memory.
pub trait Crew: Sync {
    /// What makes the workers' threads.
    type Runtime: Threads + Sync;

    /// The kind of the hook.
    type Hook: Gate;

    /// What makes the workers' threads.
    fn runtime(&self) -> &Self::Runtime;

    /// Where the lists of the answers lie.
    fn alloc(&self) -> Global;

    /// How many workers there are, and how the work is cut.
    fn plan(&self) -> Plan;

    /// The hook that is called after each claim.
    fn gate(&self) -> &Self::Hook;

    /// The crew for a pass over `len` items, with the plan that [`Plan::for_items`] gives.
    final fn for_items(&self, len: usize) -> Workers<'_, Self::Runtime, Self::Hook> {
        Workers {
            runtime: self.runtime(),
            alloc: self.alloc(),
            plan: self.plan().for_items(len),
            gate: self.gate(),
        }
    }
}

/// The workers of a runtime.
#[derive_where(Clone, Copy)]
pub struct Workers<'a, R, G> {
    /// What makes their threads.
    pub runtime: &'a R,
    /// Where the lists of the answers lie.
    pub alloc: Global,
    /// How many there are, and how the work is cut.
    pub plan: Plan,
    /// The hook that is called after each claim.
    pub gate: &'a G,
}

impl<R: Threads + Sync, G: Gate> Crew for Workers<'_, R, G> {
    type Runtime = R;

    type Hook = G;

    fn runtime(&self) -> &R {
        self.runtime
    }

    fn alloc(&self) -> Global {
        self.alloc
    }

    fn plan(&self) -> Plan {
        self.plan
    }

    fn gate(&self) -> &G {
        self.gate
    }
}
