//! Texts and their tokens, for every kind of plan.
ghost use Rattle.std.specs.Prelude.{◌≡◌, ◌≤◌, ◌^◌, length, IfOk};

use chunk_seats::OpenGate;
use par_lexer::{automaton, lex};
use par_passes::Passes;
use phase_faults::PhaseFault;
use source_meaning::Terminal;
use state_monoid::Compositions;
use std::alloc::{AllocError, Global};
use std::process::Abort;
use std::test::*;
use std::thread::Threads;
use test_gates::{Meeting, PLANS, at};

// A token's terminal, place and length.
type Lexeme = (Terminal, u32, u32);

// Whether a text has these tokens.
fn has_tokens(crew: &impl Passes, text: &[u8], expected: &[Lexeme]) -> bool
    requires len { length text.now ≤ 2 ^ 24 }
{
    let Ok(tokens) = lex(crew, text) else {
        return false;
    };
    if tokens.len() != expected.len() {
        return false;
    }
    for (i, lexeme) in expected.iter().enumerate() {
        if *lexeme != (tokens.kinds()[i], tokens.starts()[i], tokens.lengths()[i]) {
            return false;
        }
    }
    true
}

// Whether a text has this diagnostic.
fn has_fault(crew: &impl Passes, text: &[u8], code: u16, at: u32) -> bool
    requires len { length text.now ≤ 2 ^ 24 }
{
    match lex(crew, text) {
        Ok(_) => false,
        Err(fault) => fault == PhaseFault::Diagnostic { code, at },
    }
}

const FUNCTION: [Lexeme; 11] = [
    (Terminal::FnWord, 0, 2),
    (Terminal::Ident, 3, 4),
    (Terminal::LeftParen, 7, 1),
    (Terminal::RightParen, 8, 1),
    (Terminal::Colon, 9, 1),
    (Terminal::IntWord, 11, 3),
    (Terminal::LeftBrace, 15, 1),
    (Terminal::ReturnWord, 17, 6),
    (Terminal::Digits, 24, 1),
    (Terminal::Semicolon, 25, 1),
    (Terminal::RightBrace, 27, 1),
];

const COMPARED: [Lexeme; 5] = [
    (Terminal::Digits, 0, 1),
    (Terminal::Cmp, 1, 2),
    (Terminal::Digits, 3, 1),
    (Terminal::Cmp, 5, 2),
    (Terminal::TrueWord, 8, 4),
];

const EVERY_CLASS: &[u8] = b"ifx if\t12/ //\x00\x80\xff/\n&&&|||<<=!=!>>=a_1";

const CLASSES: [Lexeme; 15] = [
    (Terminal::Ident, 0, 3),
    (Terminal::IfWord, 4, 2),
    (Terminal::Digits, 7, 2),
    (Terminal::Mul, 9, 1),
    (Terminal::AmpAmp, 18, 2),
    (Terminal::Mul, 20, 1),
    (Terminal::BarBar, 21, 2),
    (Terminal::Add, 23, 1),
    (Terminal::Mul, 24, 2),
    (Terminal::Equals, 26, 1),
    (Terminal::Cmp, 27, 2),
    (Terminal::Unop, 29, 1),
    (Terminal::Mul, 30, 2),
    (Terminal::Equals, 32, 1),
    (Terminal::Ident, 33, 3),
];

// Stretches may end in comments, in numbers and in marks of two bytes.
const CUT_ANYWHERE: [Lexeme; 7] = [
    (Terminal::Digits, 0, 1),
    (Terminal::Digits, 7, 5),
    (Terminal::Cmp, 12, 2),
    (Terminal::Digits, 14, 2),
    (Terminal::Digits, 20, 1),
    (Terminal::Cmp, 21, 2),
    (Terminal::Digits, 23, 1),
];

// Without a line end no state is known before the states before the stretches are.
const NO_LINE_END: [Lexeme; 9] = [
    (Terminal::Ident, 0, 1),
    (Terminal::Cmp, 1, 2),
    (Terminal::Digits, 3, 1),
    (Terminal::AmpAmp, 4, 2),
    (Terminal::Ident, 6, 1),
    (Terminal::Cmp, 7, 2),
    (Terminal::Digits, 9, 2),
    (Terminal::BarBar, 11, 2),
    (Terminal::Ident, 13, 1),
];

// A comment over three chunks and more.
const LONG_COMMENT: [Lexeme; 2] = [(Terminal::Ident, 0, 1), (Terminal::Ident, 24, 1)];

// A comment and a name over three chunks and more, and what stands behind them in the last one.
const LONG_PIECES: [Lexeme; 3] = [
    (Terminal::Ident, 0, 1),
    (Terminal::Ident, 19, 13),
    (Terminal::Digits, 33, 1),
];

const PRINTS: [Lexeme; 6] = [
    (Terminal::PrintWord, 0, 5),
    (Terminal::MinusSign, 6, 1),
    (Terminal::Digits, 7, 1),
    (Terminal::Semicolon, 8, 1),
    (Terminal::Ident, 10, 6),
    (Terminal::Ident, 17, 4),
];

const SEVEN: [Lexeme; 1] = [(Terminal::Digits, 0, 1)];

// Texts and their tokens.
const TEXTS: [(&[u8], &[Lexeme]); 12] = [
    (b"fn main(): int { return 7; } // end", &FUNCTION),
    (b"1<=2 == true", &COMPARED),
    (b"", &[]),
    (b"7// end", &SEVEN),
    (b"7// end\n", &SEVEN),
    (b"2147483647", &[(Terminal::Digits, 0, 10)]),
    (b"a // one two three\nfour_and_five 6", &LONG_PIECES),
    (EVERY_CLASS, &CLASSES),
    (b"print -6; print6 prin", &PRINTS),
    (b"7 // x\n12345==67//y\n8==9", &CUT_ANYWHERE),
    (b"a==1&&b!=22||c", &NO_LINE_END),
    (b"a//////////////////// b\nc", &LONG_COMMENT),
];

// Texts, and the codes and places of their diagnostics.
const FAULTS: [(&[u8], u16, u32); 8] = [
    (b"2147483648 $", 102, 0),
    (b"$ 2147483648", 101, 0),
    (b"7 0002147483648", 102, 2),
    (b"7\x00\x80", 101, 1),
    // a comment's is none; then each of those behind the first stands before a line end in one plan and behind one in another
    (b"a // $\n $ 2147483648\n$", 101, 8),
    (b"x\n2147483648 $\n$", 102, 2),
    (b"aaaa$bbb\n$", 101, 4),
    (b"12 == 3\n\n2147483648", 102, 9),
];

fn texts<R: Threads + Abort + Sync>(rt: &R, alloc: Global, plan: (u32, u32)) -> Result<(), Fail> {
    let crew = at(rt, alloc, plan, &OpenGate)?;
    for (text, expected) in TEXTS {
        assert!(rt; text.len() < 100 && has_tokens(&crew, text, expected));
    }
    for (text, code, place) in FAULTS {
        assert!(rt; text.len() < 100 && has_fault(&crew, text, code, place));
    }
    Ok(())
}

#[test]
fn tokens_of_every_plan(rt: HostRuntime) -> Result<(), Fail> {
    for &plan in PLANS {
        texts(&rt, rt.alloc(), plan)?;
    }
    Ok(())
}

// Borders of chunks at each byte.
#[test]
fn chunks_cut_anywhere(rt: HostRuntime) -> Result<(), Fail> {
    for chunk in 1..37 {
        texts(&rt, rt.alloc(), (3, chunk))?;
    }
    Ok(())
}

// This many copies of a byte.
fn copies(alloc: Global, byte: u8) -> Result<Vec<u8>, AllocError>
    ensures { IfOk result (λ v. length v.items ≡ 1048576) }
{
    vec![in alloc; byte; 1_048_576]
}

// A minus sign again and again.
fn signs(alloc: Global) -> Result<Vec<u8>, AllocError>
    ensures { IfOk result (λ v. length v.items ≡ 8192) }
{
    vec![in alloc; b'-'; 8192]
}

// Pieces of a megabyte, from one byte again and again.
#[test]
fn long_pieces(rt: HostRuntime) -> Result<(), Fail> {
    let crew = at(&rt, rt.alloc(), (4, 1024), &OpenGate)?;
    for (byte, expected) in [
        (b'a', [(Terminal::Ident, 0, 1_048_576)].as_slice()),
        (b'0', [(Terminal::Digits, 0, 1_048_576)].as_slice()),
        (b'/', [].as_slice()),
    ] {
        let text = copies(rt.alloc(), byte)?;
        assert!(rt; has_tokens(&crew, &text, expected));
    }
    let ones = copies(rt.alloc(), b'1')?;
    assert!(rt; has_fault(&crew, &ones, 102, 0));
    Ok(())
}

// Bytes that begin no lexeme, in comments and out of them.
#[test]
fn bytes_of_no_lexeme(rt: HostRuntime) -> Result<(), Fail> {
    let crew = at(&rt, rt.alloc(), (4, 2), &OpenGate)?;
    for byte in 127..=255u8 {
        let byte = if byte == 127 { 0 } else { byte };
        assert!(rt; has_fault(&crew, &[b'7', byte], 101, 1));
        let comment = [b'/', b'/', byte, b'\n', b'7'];
        assert!(rt; has_tokens(&crew, &comment, &[(Terminal::Digits, 4, 1)]));
    }
    Ok(())
}

#[test]
fn two_workers_meet_in_every_pass(rt: HostRuntime) -> Result<(), Fail> {
    let gate = Meeting::new();
    let crew = at(&rt, rt.alloc(), (2, 1), &gate)?;
    let expected = [(Terminal::Ident, 0, 1), (Terminal::Ident, 2, 1)];
    assert!(rt; has_tokens(&crew, b"a b", &expected));
    // what the stretches tell by themselves; one worker alone tells their fronts, which are few bytes
    assert_eq!(rt; gate.counts(), (1, 1));
    Ok(())
}

// Without a line end the fronts are all of the text.
#[test]
fn two_workers_meet_at_long_fronts(rt: HostRuntime) -> Result<(), Fail> {
    let gate = Meeting::new();
    let crew = at(&rt, rt.alloc(), (2, 1), &gate)?;
    let text = signs(rt.alloc())?;
    let Ok(tokens) = lex(&crew, &text) else {
        return Err("refused".into());
    };
    assert_eq!(rt; tokens.len(), 8192);
    for (place, start) in tokens.starts().iter().enumerate() {
        assert!(rt; place == *start as usize);
    }
    assert_eq!(rt; gate.counts(), (2, 0));
    Ok(())
}

// The automaton has few enough functions to be numbered, so that their numbers are the way taken.
#[test]
fn few_functions(rt: HostRuntime) -> Result<(), Fail> {
    let dfa = automaton(rt.alloc())?;
    let Ok(compositions) = Compositions::build(rt.alloc(), &dfa) else {
        return Err("too many".into());
    };
    assert_eq!(rt; compositions.count(), 65);
    Ok(())
}
