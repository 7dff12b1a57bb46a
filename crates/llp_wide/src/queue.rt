// The strings that wait to come into cells, of which the least comes out first.

ghost use Rattle.std.specs.Prelude.{◌≡◌, ◌+◌, [], length, IfSome, IfNone, OnOk, OnSome};
ghost use Rattle.llp_tables.specs.Cells.{IsBefore};
ghost use Rattle.llp_wide.specs.Added.{Adds, IsIn};
ghost use Rattle.llp_wide.specs.Claims.{Claim as AnyClaim};

use crate::claims::Waiting;
use std::alloc::AllocError;
use std::collections::BinaryHeap;
use std::marker::Model;

/// Strings that wait. The least one comes out first.
#[derive(Drop)]
pub(crate) struct Queue {
    heap: BinaryHeap<Waiting>,
}

impl Model for Queue {
    ghost use Rattle.std.specs.Prelude.{List};
    ghost use Rattle.std.specs.BinaryHeap.{IsHeap, heap_items};
    ghost use Rattle.llp_wide.specs.Claims.{Claim};
    ghost use Rattle.llp_wide.specs.Queueing.{claim_cmp};

    ghost Value = { List Claim };

    ghost view = { λ q. heap_items q.heap };

    ghost invariant = { λ q. IsHeap claim_cmp (heap_items q.heap) };
}

impl Queue {
    /// A queue of these strings.
    pub(crate) fn of(claims: Vec<Waiting>) -> Queue
        ensures { Adds (IsIn claims.items) [] result }
    {
        Queue {
            heap: BinaryHeap::from(claims),
        }
    }

    /// Adds these strings.
    pub(crate) fn add(&mut self, claims: Vec<Waiting>) -> Result<(), AllocError>
        ensures { OnOk result (Adds (IsIn claims.items) self.old self.new) }
    {
        let mut more = BinaryHeap::from(claims);
        self.heap.append(&mut more)
    }

    /// Takes out the least string.
    pub(crate) fn next(&mut self) -> Option<Waiting>
        ensures taken { IfSome result (λ p. Adds (λ x. x ≡ p) self.new self.old) }
        ensures least { IfSome result (λ p. (x : AnyClaim) → IsIn self.old x → IsBefore x.stack p.stack → ⊥) }
        ensures len { OnSome result (length self.new + 1 ≡ length self.old) }
        ensures none { IfNone result (self.old ≡ []) }
    {
        self.heap.pop()
    }
}
