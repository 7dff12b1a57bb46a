// Grammar files, and words.

use crate::calls::{Call, SOUND, expect};
use grammar_file::G2;
use pareas_core::Status;
use std::alloc::{AllocError, Global};
use std::process::Abort;
use std::test::Fail;
use std::thread::Threads;

/// As many times `a` as `b` behind it.
const PAIRS: &[u8] = b"S -> a S b\nS ->\n";

/// A list behind `c`, and one item behind `p`: which of them it is, the token before the item tells.
const LISTS: &[u8] = b"lookback 2\nS -> p E q\nS -> c E T q\nE -> i\nT -> d E T\nT ->\n";

/// The same where the token before the item doesn't tell it.
const LISTS_BEHIND_X: &[u8] =
    b"lookback 2\nS -> p x E q\nS -> c x E T q\nE -> i\nT -> d E T\nT ->\n";

/// Runs `table` over a grammar file, and sees that it ends so and has written this.
fn expect_table<R: Threads + Abort + Sync>(
    rt: &R,
    alloc: Global,
    file: &[u8],
    answer: (Status, &[u8], &[u8]),
) -> Result<(), AllocError> {
    let call = Call {
        words: &["table"],
        plan: &[],
        source: file,
    };
    expect(rt, alloc, call, SOUND, answer)
}

/// Grammar files, and the sizes of their tables.
const SIZES: &[(&[u8], &[u8])] = &[
    (
        G2,
        b"terminals 30\nnonterminals 27\nproductions 56\nentries 248\n",
    ),
    (
        b"S -> a S b\nS ->\n",
        b"terminals 2\nnonterminals 1\nproductions 2\nentries 6\n",
    ),
    (
        b"S -> a",
        b"terminals 1\nnonterminals 1\nproductions 1\nentries 2\n",
    ),
    (
        b"S ->",
        b"terminals 0\nnonterminals 1\nproductions 1\nentries 1\n",
    ),
    (
        b"S -> N a\nN ->\n",
        b"terminals 1\nnonterminals 2\nproductions 2\nentries 2\n",
    ),
    (
        b"lookback 1\nS -> a S b\nS ->\n",
        b"terminals 2\nnonterminals 1\nproductions 2\nentries 6\n",
    ),
    (
        b"lookback 2\nS -> a S b\nS ->\n",
        b"terminals 2\nnonterminals 1\nproductions 2\nentries 10\n",
    ),
    (
        LISTS,
        b"terminals 5\nnonterminals 3\nproductions 5\nentries 11\n",
    ),
];

#[test]
fn tables_have_sizes(rt: HostRuntime) -> Result<(), Fail> {
    for &(file, sizes) in SIZES {
        expect_table(&rt, rt.alloc(), file, (Status::Done, sizes, b""))?;
    }
    Ok(())
}

const CONFLICTS: &[(&[u8], &[u8])] = &[
    (
        b"S -> p E q\nS -> c E T q\nE -> i\nT -> d E T\nT ->\n",
        b"conflict i q: q | T q\n",
    ),
    (b"S -> a\nS -> a b\n", b"conflict S on a: productions 1 2\n"),
    (b"S -> S a\nS -> b\n", b"left recursive S\n"),
    (b"S -> T S a\nS -> b\nT ->\n", b"left recursive S\n"),
    (
        b"S -> A b\nA -> a A N\nA -> c\nN ->\n",
        b"conflict c b: b | N b\n",
    ),
    (
        b"S -> A\nA -> a\nA ->\nA -> N\nN ->\n",
        b"conflict A on END: productions 3 4\n",
    ),
    (
        b"lookback 1\nS -> p E q\nS -> c E T q\nE -> i\nT -> d E T\nT ->\n",
        b"conflict i q: q | T q\n",
    ),
    (LISTS_BEHIND_X, b"conflict x i q: q | T q\n"),
    (
        b"lookback 2\nS -> a\nS -> a b\n",
        b"conflict S on a: productions 1 2\n",
    ),
    (b"lookback 2\nS -> S a\nS -> b\n", b"left recursive S\n"),
];

#[test]
fn grammars_have_conflicts(rt: HostRuntime) -> Result<(), Fail> {
    for &(file, line) in CONFLICTS {
        expect_table(&rt, rt.alloc(), file, (Status::Conflict, b"", line))?;
    }
    Ok(())
}

/// Files that spell no grammar.
const NO_GRAMMARS: &[(&[u8], &[u8])] = &[
    (b"", b"grammar empty\n"),
    (b"A B", b"grammar line 1\n"),
    (b"S -> S a", b"grammar unproductive S\n"),
    (b"S -> a\nT -> b\n", b"grammar unreachable T\n"),
    (b"S ->a", b"grammar line 1\n"),
    (b"S -> END", b"grammar line 1\n"),
    (b"lookback 3\nS -> a", b"grammar line 1\n"),
];

#[test]
fn files_spell_no_grammar(rt: HostRuntime) -> Result<(), Fail> {
    for &(file, line) in NO_GRAMMARS {
        expect_table(&rt, rt.alloc(), file, (Status::BadGrammar, b"", line))?;
    }
    Ok(())
}

#[test]
fn grammar_files_have_a_limit(rt: HostRuntime) -> Result<(), Fail> {
    let mut file = b"S -> a\n".to_vec(rt.alloc())?;
    for _ in file.len()..65_536 {
        file.push(b' ')?;
    }
    let sizes = b"terminals 1\nnonterminals 1\nproductions 1\nentries 2\n";
    expect_table(&rt, rt.alloc(), &file, (Status::Done, sizes, b""))?;
    file.push(b' ')?;
    let refusal = b"grammar too large\n";
    expect_table(&rt, rt.alloc(), &file, (Status::BadGrammar, b"", refusal))?;
    Ok(())
}

/// Runs `table` over a grammar file and a word, and sees that it ends so and has written this.
fn expect_parse<R: Threads + Abort + Sync>(
    rt: &R,
    alloc: Global,
    (file, word): (&[u8], &str),
    answer: (Status, &[u8], &[u8]),
) -> Result<(), AllocError> {
    let call = Call {
        words: &["table", "--word", word],
        plan: &[],
        source: file,
    };
    expect(rt, alloc, call, SOUND, answer)
}

/// Grammar files, words, and the sizes and parses.
const PARSES: &[(&[u8], &str, &[u8])] = &[
    (
        PAIRS,
        "",
        b"terminals 2\nnonterminals 1\nproductions 2\nentries 6\nparse 2\n",
    ),
    (
        PAIRS,
        "a b",
        b"terminals 2\nnonterminals 1\nproductions 2\nentries 6\nparse 1 2\n",
    ),
    (
        PAIRS,
        " \ta\t  b ",
        b"terminals 2\nnonterminals 1\nproductions 2\nentries 6\nparse 1 2\n",
    ),
    (
        PAIRS,
        "a a b b",
        b"terminals 2\nnonterminals 1\nproductions 2\nentries 6\nparse 1 1 2\n",
    ),
    (
        b"lookback 1\nS -> a S b\nS ->\n",
        "a a b b",
        b"terminals 2\nnonterminals 1\nproductions 2\nentries 6\nparse 1 1 2\n",
    ),
    (
        b"lookback 2\nS -> a S b\nS ->\n",
        "",
        b"terminals 2\nnonterminals 1\nproductions 2\nentries 10\nparse 2\n",
    ),
    (
        b"lookback 2\nS -> a S b\nS ->\n",
        "a b",
        b"terminals 2\nnonterminals 1\nproductions 2\nentries 10\nparse 1 2\n",
    ),
    (
        LISTS,
        "p i q",
        b"terminals 5\nnonterminals 3\nproductions 5\nentries 11\nparse 1 3\n",
    ),
    (
        LISTS,
        "c i q",
        b"terminals 5\nnonterminals 3\nproductions 5\nentries 11\nparse 2 3 5\n",
    ),
    (
        LISTS,
        "c i d i q",
        b"terminals 5\nnonterminals 3\nproductions 5\nentries 11\nparse 2 3 4 3 5\n",
    ),
    (
        b"S -> a",
        "a",
        b"terminals 1\nnonterminals 1\nproductions 1\nentries 2\nparse 1\n",
    ),
];

#[test]
fn words_have_parses(rt: HostRuntime) -> Result<(), Fail> {
    for &(file, word, text) in PARSES {
        expect_parse(&rt, rt.alloc(), (file, word), (Status::Done, text, b""))?;
    }
    Ok(())
}

const SYNTAX_PLACES: &[(&[u8], &str, &[u8])] = &[
    (PAIRS, "a", b"syntax 1\n"),
    (PAIRS, "b", b"syntax 0\n"),
    (PAIRS, "a a b", b"syntax 3\n"),
    (PAIRS, "a b b", b"syntax 2\n"),
    (PAIRS, "a x b", b"syntax 1\n"),
    (PAIRS, "ab", b"syntax 0\n"),
    (PAIRS, "a\nb", b"syntax 0\n"),
    (PAIRS, "a b # b", b"syntax 2\n"),
    (PAIRS, "S", b"syntax 0\n"),
    (PAIRS, "a S b", b"syntax 1\n"),
    (PAIRS, "BEGIN", b"syntax 0\n"),
    (PAIRS, "BEGIN a b", b"syntax 0\n"),
    (PAIRS, "END", b"syntax 0\n"),
    (PAIRS, "a b END", b"syntax 2\n"),
    (LISTS, "", b"syntax 0\n"),
    (LISTS, "c q", b"syntax 1\n"),
    (LISTS, "p i d i q", b"syntax 2\n"),
    (LISTS, "c i q END", b"syntax 3\n"),
    (b"S -> a", "", b"syntax 0\n"),
];

#[test]
fn words_have_syntax_places(rt: HostRuntime) -> Result<(), Fail> {
    for &(file, word, line) in SYNTAX_PLACES {
        expect_parse(&rt, rt.alloc(), (file, word), (Status::Refused, b"", line))?;
    }
    Ok(())
}

/// Files that spell no grammar, and grammars that have conflicts, with words.
const REFUSED_WITH_WORDS: &[(&[u8], &str, Status, &[u8])] = &[
    (b"", "a", Status::BadGrammar, b"grammar empty\n"),
    (
        b"S -> S a",
        "x",
        Status::BadGrammar,
        b"grammar unproductive S\n",
    ),
    (
        b"S -> a\nS -> a b\n",
        "a",
        Status::Conflict,
        b"conflict S on a: productions 1 2\n",
    ),
    (
        LISTS_BEHIND_X,
        "x",
        Status::Conflict,
        b"conflict x i q: q | T q\n",
    ),
];

#[test]
fn files_and_grammars_come_before_words(rt: HostRuntime) -> Result<(), Fail> {
    for &(file, word, status, line) in REFUSED_WITH_WORDS {
        expect_parse(&rt, rt.alloc(), (file, word), (status, b"", line))?;
    }
    Ok(())
}
