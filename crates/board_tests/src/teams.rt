//! Teams over a claim board that is lent to them.
ghost use Rattle.std.specs.Prelude.{◌<◌, ◌≤◌, ◌^◌};

use chunk_seats::{ClaimBoard, Closed, Gate, OpenGate};
use claim_teams::make_each;
use par_passes::in_order;
use std::alloc::{AllocError, Global};
use std::test::*;
use std::thread::Threads;
use test_gates::{Meeting, at};

// The squares of the numbers of a board's chunks, as a team makes them, and what the board's words are in the end.
fn squares<R: Threads + Sync, G: Gate>(
    rt: &R,
    alloc: Global,
    gate: &G,
    workers: u32,
    chunks: u64,
) -> Result<(Vec<u64>, Closed), Fail>
    requires workers { (1 ≤ workers) × (workers ≤ 64) }
    requires chunks { chunks < 2 ^ 62 }
{
    let crew = at(rt, alloc, (workers, 1), gate)?;
    let (board, mut seat) = ClaimBoard::new(alloc, chunks, workers)?;
    let square = |c: u64| -> Result<u64, AllocError> { Ok(c.wrapping_mul(c)) };
    let pairs = make_each(&crew, &board, &mut seat, workers, &square)?;
    let values = in_order(alloc, chunks as usize, pairs)?;
    Ok((values, board.close(seat)))
}

#[test]
fn five_chunks(rt: HostRuntime) -> Result<(), Fail> {
    for workers in [1, 2, 3, 64] {
        let (values, closed) = squares(&rt, rt.alloc(), &OpenGate, workers, 5)?;
        assert!(rt; values.as_slice() == [0, 1, 4, 9, 16].as_slice());
        assert_eq!(rt;
            (closed.counter, closed.finished),
            (5 + u64::from(workers), 5)
        );
    }
    Ok(())
}

#[test]
fn no_chunk(rt: HostRuntime) -> Result<(), Fail> {
    for workers in [1, 2, 64] {
        let (values, closed) = squares(&rt, rt.alloc(), &OpenGate, workers, 0)?;
        assert!(rt; values.is_empty());
        assert_eq!(rt; (closed.counter, closed.finished), (1, 0));
    }
    Ok(())
}

#[test]
fn two_workers_have_a_chunk_each(rt: HostRuntime) -> Result<(), Fail> {
    let gate = Meeting::new();
    let (values, _) = squares(&rt, rt.alloc(), &gate, 2, 2)?;
    assert!(rt; values.as_slice() == [0, 1].as_slice());
    assert_eq!(rt; gate.counts(), (1, 0));
    Ok(())
}
