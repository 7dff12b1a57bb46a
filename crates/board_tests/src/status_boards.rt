//! What seats of a status board publish and find.
ghost use Rattle.std.specs.Prelude.{◌≡◌, ◌+◌, ◌<◌, [], ◌∷◌};
ghost use Rattle.word_monoid.specs.Instances.{count};
ghost use Rattle.scan_lookback.specs.Named.{Names};

use scan_lookback::{Chunks, Count, Look, ScanBoard, Seat, Steps, Unseen};
use std::alloc::{AllocError, Global};
use std::marker::Brand;
use std::process::Abort;
use std::sync::Wait;
use std::sync::atomic::{AtomicU64, Ordering};
use std::sync::ledger::{Blank, Ledger};
use std::test::*;
use std::thread;
use std::thread::Threads;

// Whoever meets chunk 0 unpublished folds it.
fn before_one<N: Chunks<u64>, L: Ledger>(
    board: &ScanBoard<Count, N>,
    seat: &mut Seat,
    blank: Blank,
) -> u64
    requires ledger { (blank.name ≡ L.name) × (blank.parts ≡ L.parts) × (0 < L.parts) }
    requires board { (seat.old.board ≡ board.now.board) × (board.now.chunks ≡ 2) }
    requires sums { N.sums ≡ 4 ∷ 5 ∷ [] }
    ensures { seat.new.board ≡ seat.old.board }
{
    let fold = |unseen: Unseen<'_>| -> u64
        ensures { result ≡ 4 }
    {
        // The only chunk before has this sum.
        let _ = unseen;
        4
    };
    let mut steps = Steps::<L>::new(blank);
    board.before(seat, 1, &fold, &mut steps)
}

fn looks<N: Chunks<u64>>(rt: &impl Abort, alloc: Global) -> Result<(), Fail>
    requires sums { N.sums ≡ 4 ∷ 5 ∷ [] }
    requires names { Names count N.sums N.sum_codes N.prefix_codes }
{
    let (board, mut old) = ScanBoard::<Count, N>::new(alloc, &Count, 2, 2)?;
    let mut new = board.split(&mut old, 1);
    board.show(&mut old, 0, 4);
    assert!(rt; matches!(board.look(&mut new, 0), Look::Sum(4)));
    assert_eq!(rt; before_one::<N, Brand>(&board, &mut new, Blank::new(1)), 4);
    board.seal(&mut old, 0, 4);
    assert!(rt; matches!(board.look(&mut new, 0), Look::Prefix(4)));
    assert!(rt; matches!(board.look(&mut new, 1), Look::Nothing));
    board.join(&mut old, new);
    board.close(old);
    Ok(())
}

#[test]
fn two_seats_look(rt: HostRuntime) -> Result<(), Fail> {
    looks::<Brand>(&rt, rt.alloc())
}

// Where only chunk 1 of four is sealed, the look-back from chunk 3 on looks at 2, which it folds, and at 1.
fn looks_back<N: Chunks<u64>, L: Ledger>(
    rt: &impl Abort,
    alloc: Global,
    blank: Blank,
) -> Result<(), Fail>
    requires ledger { (blank.name ≡ L.name) × (blank.parts ≡ L.parts) × (0 < L.parts) }
    requires sums { N.sums ≡ 5 ∷ 5 ∷ 5 ∷ 5 ∷ [] }
    requires names { Names count N.sums N.sum_codes N.prefix_codes }
{
    let (board, mut seat) = ScanBoard::<Count, N>::new(alloc, &Count, 4, 1)?;
    board.show(&mut seat, 1, 5);
    board.seal(&mut seat, 1, 10);
    let folded = AtomicU64::new(0);
    let fold = |unseen: Unseen<'_>| -> u64
        ensures { result ≡ 5 }
    {
        folded.fetch_or(1 << (unseen.chunk() % 64), Ordering::SeqCst);
        5
    };
    let mut steps = Steps::<L>::new(blank);
    assert_eq!(rt; board.before(&mut seat, 3, &fold, &mut steps), 15);
    assert_eq!(rt; folded.load(Ordering::SeqCst), 0b100);
    board.close(seat);
    Ok(())
}

#[test]
fn two_loads(rt: HostRuntime) -> Result<(), Fail> {
    looks_back::<Brand, Brand>(&rt, rt.alloc(), Blank::new(1))
}

fn asks<N: Chunks<u64>>(board: &ScanBoard<Count, N>, mut seat: Seat) -> u64
    requires board { (seat.board ≡ board.now.board) × (board.now.chunks ≡ 2) }
    requires sums { N.sums ≡ 4 ∷ 5 ∷ [] }
{
    before_one::<N, Brand>(board, &mut seat, Blank::new(1))
}

fn shows<N: Chunks<u64>>(board: &ScanBoard<Count, N>, mut seat: Seat)
    requires board { (seat.board ≡ board.now.board) × (board.now.chunks ≡ 2) }
    requires sums { N.sums ≡ 4 ∷ 5 ∷ [] }
{
    board.show(&mut seat, 0, 4);
}

// One caller's thread shows chunk 0 while another's asks for the sums before chunk 1.
fn both<N: Chunks<u64> + Send + Sync, R: Threads + Wait>(
    rt: &R,
    board: &ScanBoard<Count, N>,
    one: Seat,
    two: Seat,
) -> Result<u64, AllocError>
    requires boards { (one.board ≡ board.now.board) × (two.board ≡ board.now.board) × (board.now.chunks ≡ 2) }
    requires sums { N.sums ≡ 4 ∷ 5 ∷ [] }
{
    thread::scope(
        thread::scope_env(),
        rt,
        |scope| -> Result<u64, AllocError>
            requires { (N.sums ≡ 4 ∷ 5 ∷ []) × (board.now.chunks ≡ 2) × (one.board ≡ board.now.board) × (two.board ≡ board.now.board) }
        {
            let shower = scope.spawn(
                move ||
                    requires { (N.sums ≡ 4 ∷ 5 ∷ []) × (board.now.chunks ≡ 2) × (one.board ≡ board.now.board) }
                { shows(board, one) },
            )?;
            let asker = scope.spawn(
                move || -> u64
                    requires { (N.sums ≡ 4 ∷ 5 ∷ []) × (board.now.chunks ≡ 2) × (two.board ≡ board.now.board) }
                { asks(board, two) },
            )?;
            shower.join(rt);
            Ok(asker.join(rt))
        },
    )
}

fn meets<N: Chunks<u64> + Send + Sync, R: Threads + Wait + Abort>(
    rt: &R,
    alloc: Global,
) -> Result<(), Fail>
    requires sums { N.sums ≡ 4 ∷ 5 ∷ [] }
    requires names { Names count N.sums N.sum_codes N.prefix_codes }
{
    for _ in 0..1000 {
        let (board, mut one) = ScanBoard::<Count, N>::new(alloc, &Count, 2, 2)?;
        let two = board.split(&mut one, 1);
        assert_eq!(rt; both(rt, &board, one, two)?, 4);
    }
    Ok(())
}

#[test]
fn two_callers_meet(rt: HostRuntime) -> Result<(), Fail> {
    meets::<Brand, _>(&rt, rt.alloc())
}
