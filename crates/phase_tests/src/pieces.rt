//! A worked program whose left parse is gone over by stretches, and the few pieces that each comes to.
use row_pieces::{Piece, Point, Tally, reduce_stretch, tally_stretch};
use std::alloc::{AllocError, Global};
use std::test::*;

// fn f(var a: int): int { if a { a = 1; } else { return 1 + a * 1; } }
const NUMBERS: &[u16] = &[
    1, 3, 4, 8, 9, 7, 9, 11, 12, 15, 21, 24, 27, 30, 33, 37, 42, 43, 49, 39, 36, 32, 29, 26, 23,
    11, 12, 20, 21, 24, 27, 30, 33, 37, 42, 43, 49, 39, 36, 32, 29, 26, 22, 21, 24, 27, 30, 33, 37,
    42, 44, 39, 36, 32, 29, 26, 23, 13, 12, 16, 54, 11, 12, 18, 21, 24, 27, 30, 33, 37, 42, 44, 39,
    34, 37, 42, 43, 49, 38, 42, 44, 39, 36, 32, 29, 26, 23, 13, 13, 2,
];

// fn f(var a: bool): int { if a { } else if a { } else { } }
const CHAIN: &[u16] = &[
    1, 3, 4, 8, 10, 7, 9, 11, 12, 15, 21, 24, 27, 30, 33, 37, 42, 43, 49, 39, 36, 32, 29, 26, 23,
    11, 13, 12, 16, 55, 21, 24, 27, 30, 33, 37, 42, 43, 49, 39, 36, 32, 29, 26, 23, 11, 13, 12, 16,
    54, 11, 13, 13, 2,
];

// What a piece is, in numbers.
fn spelled(piece: &Piece) -> [u32; 4] {
    match *piece {
        Piece::Cut { level, waits } => [0, level, u32::from(waits), 0],
        Piece::Bulk {
            rows,
            size,
            place,
            ..
        } => [1, rows, size, place],
        Piece::Open {
            bound,
            back,
            place,
            ..
        } => [2, bound, u32::from(back), place],
        Piece::Turn { level, place, own } => [3, level, place, own],
    }
}

// Whether pieces are these.
fn are_pieces(pieces: &[Piece], due: &[[u32; 4]]) -> bool {
    if pieces.len() != due.len() {
        return false;
    }
    for (i, piece) in pieces.iter().enumerate() {
        if Some(&spelled(piece)) != due.get(i) {
            return false;
        }
    }
    true
}

// A left parse, the places from one up to another, how many nonterminals are open and how many owned tokens are read before them, and the pieces
// of that stretch.
type Stretch = (&'static [u16], usize, usize, u32, u32, &'static [[u32; 4]]);

const STRETCHES: &[Stretch] = &[
    // rows that stay open
    (
        NUMBERS,
        0,
        12,
        1,
        0,
        &[
            [0, 1, 0, 0],
            [2, 1, 0, 1],
            [1, 1, 1, 3],
            [2, 1, 0, 7],
            [2, 2, 0, 9],
        ],
    ),
    // an operand before its operator
    (
        NUMBERS,
        36,
        48,
        10,
        7,
        &[[0, 10, 0, 0], [1, 1, 1, 36], [0, 4, 0, 0], [2, 3, 1, 42]],
    ),
    // an else that takes the place of an if
    (
        NUMBERS,
        48,
        60,
        9,
        8,
        &[[0, 9, 0, 0], [1, 1, 1, 50], [0, 2, 1, 0], [3, 3, 59, 9]],
    ),
    // rows that are all closed
    (
        NUMBERS,
        73,
        85,
        8,
        13,
        &[[0, 8, 0, 0], [1, 4, 4, 73], [0, 6, 0, 0]],
    ),
    // an if behind an else, which may be joined in its turn
    (
        CHAIN,
        27,
        31,
        2,
        6,
        &[[0, 2, 1, 0], [3, 3, 28, 6], [2, 2, 0, 29]],
    ),
    // an else of which nothing tells what it joins
    (CHAIN, 46, 50, 3, 10, &[[0, 2, 1, 0], [3, 3, 48, 10]]),
    // a whole chain, all of which is closed where it ends
    (
        CHAIN,
        9,
        53,
        3,
        3,
        &[[0, 3, 0, 0], [1, 7, 7, 28], [0, 2, 0, 0]],
    ),
];

// Whether a stretch is small, and has its pieces.
fn has_pieces(
    alloc: Global,
    (numbers, place, to, level, read, due): Stretch,
) -> Result<bool, AllocError> {
    if place > to || to > 1000 || level > 1000 || read > 1000 {
        return Ok(false);
    }
    let from = Point { place, level, read };
    let pieces = reduce_stretch(alloc, numbers, from, to)?;
    Ok(are_pieces(&pieces, due))
}

#[test]
fn stretches_are_few_pieces(rt: HostRuntime) -> Result<(), Fail> {
    for &stretch in STRETCHES {
        assert!(rt; has_pieces(rt.alloc(), stretch)?, "from {}", stretch.1);
    }
    Ok(())
}

#[test]
fn tally_of_a_stretch(rt: HostRuntime) {
    assert!(rt; tally_stretch(NUMBERS, 0, 48) == Tally { kids: 56, reads: 8 });
}
