//! Passes to which both workers come, one, and none.
use crate::meeting::Meeting;
use chunk_seats::Gate;
use std::test::*;

#[test]
fn both_have_to_come_to_each_pass(rt: HostRuntime) {
    let gate = Meeting::new();
    gate.after_claim(1, Some(1));
    assert_eq!(rt; gate.counts(), (0, 0));
    gate.after_claim(0, Some(0));
    gate.after_claim(1, None);
    gate.after_claim(0, None);
    assert_eq!(rt; gate.counts(), (1, 0));
    // what worker 1 drew before was in the pass before
    gate.after_claim(0, Some(0));
    gate.after_claim(0, Some(1));
    gate.after_claim(0, None);
    assert_eq!(rt; gate.counts(), (1, 1));
    // a pass without chunks is none
    gate.after_claim(0, None);
    gate.after_claim(0, Some(1));
    gate.after_claim(1, Some(0));
    assert_eq!(rt; gate.counts(), (2, 1));
}
