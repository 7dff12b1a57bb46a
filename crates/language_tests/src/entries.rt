// The entries of worked grammars, whose tables are made by hand.

use crate::answers::{LOOKBACKS, Question, is_text, long_beside_short, told};
use std::alloc::AllocError;
use std::test::Fail;

/// Matched pairs: between `a` and `b` the last `S` ends, and a pair is closed.
const PAIRS: &[u8] = b"S -> a S b\nS ->";

const OF_PAIRS: &[u8] = b"terminals 2
nonterminals 1
productions 2
entries 6
BEGIN a closes S opens S b productions 1
BEGIN END closes S END opens productions 2
a a closes S opens S b productions 1
a b closes S b opens productions 2
b b closes b opens productions
b END closes END opens productions
";

/// Behind `i` a `q` closes what the terminal before the `i` tells: behind `p` itself alone, behind `c` and `d` a `T` that ends, too.
const TWO_STACKS: &[u8] = b"lookback 2\nS -> p E q\nS -> c E T q\nE -> i\nT -> d E T\nT ->";

const OF_TWO_STACKS: &[u8] = b"terminals 5
nonterminals 3
productions 5
entries 11
BEGIN BEGIN p closes S opens E q productions 1
BEGIN BEGIN c closes S opens E T q productions 2
BEGIN p i closes E opens productions 3
BEGIN c i closes E opens productions 3
p i q closes q opens productions
c i q closes T q opens productions 5
c i d closes T opens E T productions 4
i q END closes END opens productions
i d i closes E opens productions 3
d i q closes T q opens productions 5
d i d closes T opens E T productions 4
";

/// The empty text alone.
const OF_NOTHING: &[u8] = b"terminals 0
nonterminals 1
productions 1
entries 1
BEGIN END closes S END opens productions 1
";

const OF_NOTHING_BEHIND_TWO: &[u8] = b"terminals 0
nonterminals 1
productions 1
entries 1
BEGIN BEGIN END closes S END opens productions 1
";

/// Grammars, and what is told of them.
const TOLD: &[(&[u8], &[u8])] = &[
    (PAIRS, OF_PAIRS),
    (TWO_STACKS, OF_TWO_STACKS),
    (b"S ->", OF_NOTHING),
    (b"lookback 2\nS ->", OF_NOTHING_BEHIND_TWO),
];

#[test]
fn entries_by_hand(rt: HostRuntime) -> Result<(), Fail> {
    for &(file, due) in TOLD {
        let answer = told(&rt, rt.alloc(), 1, file, Question::Entries)??;
        assert!(rt; is_text(answer, due));
    }
    Ok(())
}

#[test]
fn entries_that_no_memory_holds(rt: HostRuntime) -> Result<(), Fail> {
    for &lookback in LOOKBACKS {
        let file = long_beside_short(rt.alloc(), lookback)?;
        let answer = told(&rt, rt.alloc(), 1, file.as_bytes(), Question::Entries)?;
        assert!(rt; matches!(answer, Err(AllocError)));
    }
    Ok(())
}
