use chunk_seats::{ClaimBoard, LeastWord, Plan};
use std::test::*;

#[test]
fn two_chunks_and_two_seats(rt: HostRuntime) -> Result<(), Fail> {
    let (board, mut old) = ClaimBoard::new(rt.alloc(), 2, 2)?;
    let mut new = board.split(&mut old, 1);
    assert_eq!(rt; board.claim(&mut new), Some(0));
    assert_eq!(rt; board.claim(&mut old), Some(1));
    assert_eq!(rt; board.claim(&mut new), None);
    board.join(&mut old, new);
    let closed = board.close(old);
    assert_eq!(rt; (closed.counter, closed.finished), (3, 0));
    Ok(())
}

#[test]
fn two_chunks_and_one_seat(rt: HostRuntime) -> Result<(), Fail> {
    let (board, mut seat) = ClaimBoard::new(rt.alloc(), 2, 1)?;
    assert_eq!(rt; board.claim(&mut seat), Some(0));
    assert_eq!(rt; board.claim(&mut seat), Some(1));
    assert_eq!(rt; board.claim(&mut seat), None);
    let closed = board.close(seat);
    assert_eq!(rt; (closed.counter, closed.finished), (3, 0));
    Ok(())
}

#[test]
fn the_least_of_three_keys(rt: HostRuntime) -> Result<(), Fail> {
    let (word, mut seat) = LeastWord::new(rt.alloc(), 1)?;
    word.offer(&mut seat, 7);
    word.offer(&mut seat, 3);
    word.offer(&mut seat, 9);
    assert_eq!(rt; word.close(seat), 3);
    Ok(())
}

#[test]
fn the_least_key(rt: HostRuntime) -> Result<(), Fail> {
    let (word, mut old) = LeastWord::new(rt.alloc(), 2)?;
    let mut new = word.split(&mut old, 1);
    word.offer(&mut new, 5);
    word.offer(&mut old, 8);
    word.join(&mut old, new);
    assert_eq!(rt; word.close(old), 5);
    Ok(())
}

#[test]
fn no_key(rt: HostRuntime) -> Result<(), Fail> {
    let (word, seat) = LeastWord::new(rt.alloc(), 1)?;
    assert_eq!(rt; word.close(seat), u64::MAX);
    Ok(())
}

#[test]
fn plans_in_range(rt: HostRuntime) {
    assert!(rt; Plan::new(0, 1).is_none());
    assert!(rt; Plan::new(65, 1).is_none());
    assert!(rt; Plan::new(1, 65537).is_none());
    assert!(rt; Plan::new(64, 65536).is_some());
}
