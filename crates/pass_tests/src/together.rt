//! Work that no gate is told of: whether two threads do it at once.
ghost use Rattle.std.specs.Prelude.{true, Some};
ghost use Rattle.std.specs.declared.cmp.Ordering.TheVariants.{Equal};
ghost use Rattle.std.specs.Cmp.Rules.{comparing};
ghost use Rattle.std.proofs.Common.{rules};

use chunk_seats::{Gate, OpenGate};
use par_passes::{Lift, Passes};
use std::alloc::{AllocError, Global};
use std::cmp::Ordering as Order;
use std::sync::atomic::{AtomicU64, Ordering};
use std::test::*;
use std::thread::{Threads, available_parallelism};
use test_gates::at;
use word_monoid::Count;

// A room in which a thread waits for another one, for at most this many turns. Once two have met there, nobody waits.
#[derive(Drop)]
struct Room {
    turns: u64,
    inside: AtomicU64,
    met: AtomicU64,
}

impl Room {
    fn new(turns: u64) -> Room {
        Room {
            turns,
            inside: AtomicU64::new(0),
            met: AtomicU64::new(0),
        }
    }

    // Goes in, waits, and goes out.
    fn visit(&self) {
        if self.inside.fetch_add(1, Ordering::SeqCst) > 0 {
            self.met.store(1, Ordering::SeqCst);
        }
        for _ in 0..self.turns {
            if self.have_met() {
                break;
            }
        }
        self.inside.fetch_sub(1, Ordering::SeqCst);
    }

    fn have_met(&self) -> bool {
        self.met.load(Ordering::SeqCst) > 0
    }
}

// The function of a scan, which goes to the room as soon as two workers have found no chunk left: from then on the scan's list is filled.
#[derive(Drop)]
struct Filling {
    ended: AtomicU64,
    room: Room,
}

impl Gate for Filling {
    fn after_claim(&self, _worker: u32, chunk: Option<u64>) {
        if chunk.is_none() {
            self.ended.fetch_add(1, Ordering::SeqCst);
        }
    }
}

impl Lift<u64, u64> for Filling {
    ghost use Rattle.std.specs.Prelude.{◌%◌};

    ghost lifted = { λ _ x. x % 1024 };

    fn lift(&self, x: u64) -> u64 {
        if self.ended.load(Ordering::SeqCst) == 2 {
            self.room.visit();
        }
        x % 1024
    }
}

fn begins(crew: &impl Passes, filling: &Filling) -> Result<Vec<u64>, AllocError> {
    crew.scan_lifted(&Count, &[3, 1028], filling)
}

#[test]
fn two_workers_fill_the_list_of_a_scan(rt: HostRuntime) -> Result<(), Fail> {
    let filling = Filling {
        ended: AtomicU64::new(0),
        room: Room::new(1 << 26),
    };
    let crew = at(&rt, rt.alloc(), (2, 1), &filling)?;
    assert!(rt; begins(&crew, &filling)?.as_slice() == [0, 3, 7].as_slice());
    assert!(rt; filling.room.have_met());
    Ok(())
}

// A part of a key that is equal to all others, and each comparison of which goes to a room.
#[derive(Clone, Copy)]
struct Visit<'a> {
    room: &'a Room,
}

impl PartialEq for Visit<'_> {
    ghost eq = { λ _ _. true };

    ghost laws = { Prim.search (comparing, rules) };

    fn eq(&self, _other: &Self) -> bool {
        true
    }
}

impl Eq for Visit<'_> {
    ghost laws = { Prim.search (comparing, rules) };
}

impl PartialOrd for Visit<'_> {
    ghost partial_cmp = { λ _ _. Some Equal };

    ghost laws = { Prim.search (comparing, rules) };

    fn partial_cmp(&self, other: &Self) -> Option<Order> {
        Some(self.cmp(other))
    }
}

impl Ord for Visit<'_> {
    ghost cmp = { λ _ _. Equal };

    ghost total = { Prim.search (comparing, rules) };

    ghost matches_partial_cmp = { Prim.search (comparing, rules) };

    ghost matches_eq = { Prim.search (comparing, rules) };

    fn cmp(&self, _other: &Self) -> Order {
        self.room.visit();
        Order::Equal
    }
}

#[derive(Clone, Copy, PartialEq, Eq, PartialOrd, Ord)]
struct Key<'a> {
    visit: Visit<'a>,
    number: u32,
}

// This many keys, in no order.
fn keys(alloc: Global, room: &Room, count: u32) -> Result<Vec<Key<'_>>, AllocError> {
    let mut keys = Vec::new(alloc);
    for k in 0..count {
        keys.push(Key {
            visit: Visit { room },
            number: k.wrapping_mul(0x9E37_79B1),
        })?;
    }
    Ok(keys)
}

// Whether there are processors for two threads.
fn are_two(rt: &impl Threads) -> bool {
    match available_parallelism(rt) {
        Ok(count) => count.get() > 1,
        Err(_) => false,
    }
}

#[test]
fn two_threads_sort(rt: HostRuntime) -> Result<(), Fail> {
    let room = Room::new(1 << 8);
    let keys = keys(rt.alloc(), &room, 1 << 14)?;
    let crew = at(&rt, rt.alloc(), (2, 1), &OpenGate)?;
    let up = crew.sorted(keys.as_slice())?;
    assert_eq!(rt; up.len(), keys.len());
    assert!(rt; room.have_met() || !are_two(&rt));
    Ok(())
}
