// Certificates of grammars, those that are accepted and others.

use crate::made::{PAIRS, TWO_STACKS};
use grammar_certificate::{Certificate, Member, PlaceRows, Row, TerminalSet, accepts};
use grammar_file::{G2, Grammar, Symbol};
use std::alloc::{AllocError, Global};
use std::test::Fail;

/// A certificate in writing.
#[derive(Clone, Copy)]
struct Written<'a> {
    /// A line for each nonterminal: its rank, `e` where it may be empty, FIRST, FOLLOW, and the number of the row at its end.
    nonterminals: &'a str,
    /// Rows of members, by their numbers from 0 on. A member is the terminal that comes next and the symbols that are closed.
    rows: &'a str,
    /// A line for each right side, from that of the augmented start on: the number of the row at each place.
    places: &'a str,
}

fn member_of(alloc: Global, text: &str) -> Result<Member, Fail> {
    let mut ahead = 0;
    let mut closes = Vec::new(alloc);
    for word in text.split(' ') {
        if let Some(number) = word.strip_prefix("T") {
            closes.push(Symbol::Terminal(number.parse()?))?;
        } else if let Some(number) = word.strip_prefix("N") {
            closes.push(Symbol::Nonterminal(number.parse()?))?;
        } else {
            ahead = word.parse()?;
        }
    }
    Ok(Member { ahead, closes })
}

fn row_of(alloc: Global, rows: &str, number: &str) -> Result<Row, Fail> {
    let number = number.parse::<usize>()?;
    let text = rows.split('\n').nth(number).ok_or("a row")?;
    let mut members = Vec::new(alloc);
    for member in text.split(',') {
        if !member.is_empty() {
            members.push(member_of(alloc, member)?)?;
        }
    }
    Ok(Row { members })
}

fn set_of(alloc: Global, text: &str) -> Result<TerminalSet, Fail> {
    let mut terminals = Vec::new(alloc);
    for number in text.split_whitespace() {
        terminals.push(number.parse::<u16>()?)?;
    }
    Ok(TerminalSet { terminals })
}

fn places_of(alloc: Global, written: &Written<'_>) -> Result<Vec<PlaceRows>, Fail> {
    let mut places = Vec::new(alloc);
    for line in written.places.split('\n') {
        let mut rows = Vec::new(alloc);
        for number in line.split(' ') {
            rows.push(row_of(alloc, written.rows, number)?)?;
        }
        places.push(PlaceRows { rows })?;
    }
    Ok(places)
}

fn certificate_of(alloc: Global, written: &Written<'_>) -> Result<Certificate, Fail> {
    let mut ranks = Vec::new(alloc);
    let mut empty = Vec::new(alloc);
    let mut first = Vec::new(alloc);
    let mut follow = Vec::new(alloc);
    let mut ends = Vec::new(alloc);
    for line in written.nonterminals.split('\n') {
        let mut fields = line.split(';');
        ranks.push(fields.next().ok_or("a rank")?.parse::<u32>()?)?;
        empty.push(fields.next() == Some("e"))?;
        first.push(set_of(alloc, fields.next().ok_or("FIRST")?)?)?;
        follow.push(set_of(alloc, fields.next().ok_or("FOLLOW")?)?)?;
        let end = fields.next().ok_or("an end")?;
        ends.push(row_of(alloc, written.rows, end)?)?;
    }
    Ok(Certificate {
        ranks,
        empty,
        first,
        follow,
        places: places_of(alloc, written)?,
        ends,
    })
}

/// Whether the certificate is accepted for a text's grammar.
fn is_accepted(alloc: Global, text: &[u8], written: &Written<'_>) -> Result<bool, Fail> {
    let grammar = Grammar::read(alloc, text)?;
    let certificate = certificate_of(alloc, written)?;
    Ok(accepts(&grammar, &certificate))
}

/// The text with another line in the place of one of its lines.
fn with_line(alloc: Global, text: &str, at: usize, line: &str) -> Result<String, AllocError> {
    let mut changed = String::new(alloc);
    for (number, old) in text.split('\n').enumerate() {
        if number != 0 {
            changed.push('\n')?;
        }
        changed.push_str(if number == at { line } else { old })?;
    }
    Ok(changed)
}

/// The certificate of the source language's grammar, as a program made it.
const OF_G2: Written<'static> = Written {
    nonterminals: "\
        1;e;1;31;2\n\
        0;;1;1 31;1\n\
        1;e;7;4;9\n\
        0;e;6;4;9\n\
        0;;7;4 6;14\n\
        0;;8 9;4 6 10 12;18\n\
        0;;10;1 2 3 7 10 11 14 15 16 17 22 24 25 26 27 30 31;23\n\
        9;e;2 3 7 10 14 15 16 17 22 24 25 26 27 30;11;22\n\
        8;;2 3 7 10 14 15 16 17 22 24 25 26 27 30;2 3 7 10 11 14 15 16 17 22 24 25 26 27 30;21\n\
        7;;2 3 22 24 25 26 27;4 6 10 13 29;35\n\
        0;e;12;4 6 10 13 29;35\n\
        6;;2 3 22 24 25 26 27;4 6 10 12 13 29;34\n\
        0;e;18;4 6 10 12 13 29;34\n\
        5;;2 3 22 24 25 26 27;4 6 10 12 13 18 29;37\n\
        0;e;19;4 6 10 12 13 18 29;37\n\
        4;;2 3 22 24 25 26 27;4 6 10 12 13 18 19 29;40\n\
        0;e;20;4 6 10 12 13 18 19 29;40\n\
        3;;2 3 22 24 25 26 27;4 6 10 12 13 18 19 20 29;43\n\
        0;e;21 22;4 6 10 12 13 18 19 20 29;43\n\
        2;;2 3 22 24 25 26 27;4 6 10 12 13 18 19 20 21 22 29;46\n\
        0;e;23;4 6 10 12 13 18 19 20 21 22 29;46\n\
        1;;2 3 22 24 25 26 27;4 6 10 12 13 18 19 20 21 22 23 29;50\n\
        0;;2 3 25 26 27;4 6 10 12 13 18 19 20 21 22 23 29;50\n\
        0;e;28;4 6 10 12 13 18 19 20 21 22 23 29;50\n\
        8;e;2 3 22 24 25 26 27;29;60\n\
        0;e;6;29;60\n\
        1;;10 14;2 3 7 10 11 14 15 16 17 22 24 25 26 27 30;21",
    rows: "\
        0 T0\n\
        1 N0,31 N0 T31\n\
        31 T31\n\
        \n\
        1 N1\n\
        1 T1\n\
        2 T2\n\
        3 T3\n\
        4 N2 T4,7 N2\n\
        4 T4\n\
        5 T5\n\
        8 N5,9 N5\n\
        10 N6\n\
        7 N4\n\
        4 N3 T4,6 N3\n\
        6 T6\n\
        7 T7\n\
        8 T8\n\
        4 N3 T4,6 N3,10 N6,12 T12\n\
        9 T9\n\
        10 T10\n\
        2 N7,3 N7,7 N7,10 N7,11 N7 T11,14 N7,15 N7,16 N7,17 N7,22 N7,24 N7,25 N7,26 N7,27 N7,30 N7\n\
        11 T11\n\
        1 N0,2 N7,3 N7,7 N7,10 N7,11 N7 T11,14 N7,15 N7,16 N7,17 N7,22 N7,24 N7,25 N7,26 N7,27 N7,30 N7,31 N0 T31\n\
        2 N8,3 N8,7 N8,10 N8,14 N8,15 N8,16 N8,17 N8,22 N8,24 N8,25 N8,26 N8,27 N8,30 N8\n\
        12 T12\n\
        2 N9,3 N9,22 N9,24 N9,25 N9,26 N9,27 N9\n\
        13 T13\n\
        14 T14\n\
        15 T15\n\
        10 N26,14 N26\n\
        16 T16\n\
        17 T17\n\
        2 N11,3 N11,22 N11,24 N11,25 N11,26 N11,27 N11\n\
        4 N10 T4,6 N10 N25,10 N10 N6,12 N10,13 N10 T13,29 N10 N25 T29\n\
        4 T4,6 N25,10 N6,13 T13,29 N25 T29\n\
        2 N13,3 N13,22 N13,24 N13,25 N13,26 N13,27 N13\n\
        4 N12 N10 T4,6 N12 N10 N25,10 N12 N10 N6,12 N12 N10,13 N12 N10 T13,18 N12,29 N12 N10 N25 T29\n\
        18 T18\n\
        2 N15,3 N15,22 N15,24 N15,25 N15,26 N15,27 N15\n\
        4 N14 N12 N10 T4,6 N14 N12 N10 N25,10 N14 N12 N10 N6,12 N14 N12 N10,13 N14 N12 N10 T13,18 N14 N12,19 N14,29 N14 N12 N10 N25 T29\n\
        19 T19\n\
        2 N17,3 N17,22 N17,24 N17,25 N17,26 N17,27 N17\n\
        4 N16 N14 N12 N10 T4,6 N16 N14 N12 N10 N25,10 N16 N14 N12 N10 N6,12 N16 N14 N12 N10,13 N16 N14 N12 N10 T13,18 N16 N14 N12,\
        19 N16 N14,20 N16,29 N16 N14 N12 N10 N25 T29\n\
        20 T20\n\
        2 N19,3 N19,22 N19,24 N19,25 N19,26 N19,27 N19\n\
        4 N18 N16 N14 N12 N10 T4,6 N18 N16 N14 N12 N10 N25,10 N18 N16 N14 N12 N10 N6,12 N18 N16 N14 N12 N10,13 N18 N16 N14 N12 N10 T13,\
        18 N18 N16 N14 N12,19 N18 N16 N14,20 N18 N16,21 N18,22 N18,29 N18 N16 N14 N12 N10 N25 T29\n\
        21 T21\n\
        22 T22\n\
        2 N21,3 N21,22 N21,24 N21,25 N21,26 N21,27 N21\n\
        4 N20 N18 N16 N14 N12 N10 T4,6 N20 N18 N16 N14 N12 N10 N25,10 N20 N18 N16 N14 N12 N10 N6,12 N20 N18 N16 N14 N12 N10,\
        13 N20 N18 N16 N14 N12 N10 T13,18 N20 N18 N16 N14 N12,19 N20 N18 N16 N14,20 N20 N18 N16,21 N20 N18,22 N20 N18,23 N20,\
        29 N20 N18 N16 N14 N12 N10 N25 T29\n\
        23 T23\n\
        24 T24\n\
        2 N22,3 N22,25 N22,26 N22,27 N22\n\
        4 N23 N20 N18 N16 N14 N12 N10 T4,6 N23 N20 N18 N16 N14 N12 N10 N25,10 N23 N20 N18 N16 N14 N12 N10 N6,12 N23 N20 N18 N16 N14 N12 N10,\
        13 N23 N20 N18 N16 N14 N12 N10 T13,18 N23 N20 N18 N16 N14 N12,19 N23 N20 N18 N16 N14,20 N23 N20 N18 N16,21 N23 N20 N18,\
        22 N23 N20 N18,23 N23 N20,28 N23,29 N23 N20 N18 N16 N14 N12 N10 N25 T29\n\
        25 T25\n\
        26 T26\n\
        27 T27\n\
        28 T28\n\
        2 N24,3 N24,22 N24,24 N24,25 N24,26 N24,27 N24,29 N24 T29\n\
        29 T29\n\
        6 N25,29 N25 T29\n\
        30 T30",
    places: "\
        0 1 2 3\n\
        4 1 2\n\
        2\n\
        5 6 7 8 9 10 11 12 1\n\
        13 14 9\n\
        9\n\
        15 13 14 9\n\
        9\n\
        16 6 10 11 14\n\
        17 18\n\
        19 18\n\
        20 21 22 23\n\
        24 21 22\n\
        22\n\
        16 6 10 11 25 26 27 21\n\
        28 26 12 21\n\
        29 30 21\n\
        31 26 12 21\n\
        32 26 27 21\n\
        12 21\n\
        26 27 21\n\
        33 34 35\n\
        25 26 35\n\
        35\n\
        36 37 34\n\
        38 36 37 34\n\
        34\n\
        39 40 37\n\
        41 39 40 37\n\
        37\n\
        42 43 40\n\
        44 42 43 40\n\
        40\n\
        45 46 43\n\
        47 45 46 43\n\
        48 49 50 46 43\n\
        43\n\
        49 50 46\n\
        51 49 50 46\n\
        46\n\
        48 49 50\n\
        52 49 50\n\
        53 50\n\
        6 54 50\n\
        55 50\n\
        56 50\n\
        57 50\n\
        7 26 9 50\n\
        58 59 60 50\n\
        50\n\
        26 61 60\n\
        60\n\
        15 26 61 60\n\
        60\n\
        12 21\n\
        28 26 12 21\n\
        62 26 27 21",
};

/// The one of pairs.
const OF_PAIRS: Written<'static> = Written {
    nonterminals: "\
        0;e;1;2 3;7",
    rows: "\
        0 T0\n\
        1 N0,3 N0 T3\n\
        3 T3\n\
        \n\
        1 T1\n\
        1 N0,2 N0 T2\n\
        2 T2\n\
        2 T2,3 T3",
    places: "\
        0 1 2 3\n\
        4 5 6 7\n\
        7",
};

/// One for a grammar that isn't LLP(1,1): two members are forced at an end, and it has the first.
const OF_TWO_STACKS: Written<'static> = Written {
    nonterminals: "\
        0;;1 3;6;2\n\
        0;;4;2 5;10\n\
        0;e;5;2;6",
    rows: "\
        0 T0\n\
        1 N0,3 N0\n\
        6 T6\n\
        \n\
        1 T1\n\
        4 N1\n\
        2 T2\n\
        3 T3\n\
        2 N2 T2,5 N2\n\
        4 T4\n\
        2 T2,5 N2\n\
        5 T5",
    places: "\
        0 1 2 3\n\
        4 5 6 2\n\
        7 5 8 6 2\n\
        9 10\n\
        11 5 8 6\n\
        6",
};

/// The same, where two places right after one terminal have different members.
const OF_TWO_PLACES: Written<'static> = Written {
    nonterminals: "\
        0;;1 4;6;2\n\
        0;e;5;3;6",
    rows: "\
        0 T0\n\
        1 N0,4 N0\n\
        6 T6\n\
        \n\
        1 T1\n\
        2 T2\n\
        3 T3\n\
        4 T4\n\
        3 N1 T3,5 N1\n\
        5 T5",
    places: "\
        0 1 2 3\n\
        4 5 6 2\n\
        7 5 8 6 2\n\
        9 6\n\
        6",
};

#[test]
fn accepted(rt: HostRuntime) -> Result<(), Fail> {
    assert!(rt; is_accepted(rt.alloc(), G2, &OF_G2)?);
    assert!(rt; is_accepted(rt.alloc(), PAIRS, &OF_PAIRS)?);
    assert!(rt; !is_accepted(rt.alloc(), PAIRS, &OF_G2)?);
    assert!(rt; !is_accepted(rt.alloc(), G2, &OF_PAIRS)?);
    Ok(())
}

#[test]
fn not_llp(rt: HostRuntime) -> Result<(), Fail> {
    assert!(rt; !is_accepted(rt.alloc(), TWO_STACKS, &OF_TWO_STACKS)?);
    let text = b"S -> a x q\nS -> b x T q\nT -> d\nT ->";
    assert!(rt; !is_accepted(rt.alloc(), text, &OF_TWO_PLACES)?);
    Ok(())
}

/// Other lines for nonterminals, and whether the certificate is accepted with them.
const NONTERMINALS: &[(usize, &str, bool)] = &[
    // a rank that may be greater, and one that doesn't fall
    (0, "2;e;1;31;2", true),
    (0, "0;e;1;31;2", false),
    // no mark, a set without a terminal, no member at an end
    (0, "1;;1;31;2", false),
    (0, "1;e;;31;2", false),
    (0, "1;e;1;;2", false),
    (1, "0;;1;31;1", false),
    (0, "1;e;1;31;3", false),
    // both productions predicted by one terminal
    (0, "1;e;1;1 31;2", false),
];

#[test]
fn changed_nonterminals(rt: HostRuntime) -> Result<(), Fail> {
    for &(at, line, wanted) in NONTERMINALS {
        let changed = with_line(rt.alloc(), OF_G2.nonterminals, at, line)?;
        let written = Written {
            nonterminals: changed.as_str(),
            ..OF_G2
        };
        assert_eq!(rt; is_accepted(rt.alloc(), G2, &written)?, wanted);
    }
    Ok(())
}

/// Other rows: a symbol that is replaced, two members for one terminal, no member.
const ROWS: &[(usize, &str)] = &[
    (2, "31 T30"),
    (8, "4 N2 T4,7 N3"),
    (1, "1 N0,31 N0 T31,1 N1"),
    (62, ""),
];

#[test]
fn changed_rows(rt: HostRuntime) -> Result<(), Fail> {
    for &(at, line) in ROWS {
        let changed = with_line(rt.alloc(), OF_G2.rows, at, line)?;
        let written = Written {
            rows: changed.as_str(),
            ..OF_G2
        };
        assert!(rt; !is_accepted(rt.alloc(), G2, &written)?);
    }
    Ok(())
}

/// Other rows at the places of right sides, and whether the certificate is accepted with them: a member that nothing forces, behind the
/// end mark; no member before it; another member before the last symbol of the last production, and none behind it.
const PLACES: &[(usize, &str, bool)] = &[
    (0, "0 1 2 0", true),
    (0, "0 1 3 3", false),
    (56, "62 26 2 21", false),
    (56, "62 26 27 3", false),
];

#[test]
fn changed_places(rt: HostRuntime) -> Result<(), Fail> {
    for &(at, line, wanted) in PLACES {
        let changed = with_line(rt.alloc(), OF_G2.places, at, line)?;
        let written = Written {
            places: changed.as_str(),
            ..OF_G2
        };
        assert_eq!(rt; is_accepted(rt.alloc(), G2, &written)?, wanted);
    }
    Ok(())
}
