// Explanations of codes, and the sources in them.

use crate::calls::{Call, SOUND, expect};
use diagnostic_texts::{Explanation, explanation_of};
use pareas_core::Status;
use std::alloc::{AllocError, Global};
use std::process::Abort;
use std::test::Fail;
use std::thread::Threads;

/// What `explain` writes of a code with a source and of one without.
const WRITTEN: &[(&str, &[u8])] = &[
    (
        "504",
        b"\
error 504: a condition isn't bool
place: `if` or `while`

    fn main(): int {
        var n: int = 3;
        while n { n = n - 1; }
        return n;
    }

The answer to this source is \"error 504 at 3:5\".

A number is no condition. Say what it is compared with: while n > 0.
",
    ),
    (
        "602",
        b"\
limit 602: a frame above 65,520 bytes, with `--fold` in the folded program
place: the function's name

A function with 16,379 variables has it. A frame has four bytes for each
variable and parameter, and some more for what the function has to keep.

Split the function into several. Variables of different blocks don't share their
places, so it doesn't help to put them into blocks of their own.
",
    ),
];

#[test]
fn explanations_are_written(rt: HostRuntime) -> Result<(), Fail> {
    for &(code, text) in WRITTEN {
        let call = Call {
            words: &["explain", code],
            plan: &[],
            source: b"never read",
        };
        expect(&rt, rt.alloc(), call, SOUND, (Status::Done, text, b""))?;
    }
    Ok(())
}

/// Builds the source of an explanation, and sees that it is refused as the explanation says.
fn expect_answer<R: Threads + Abort + Sync>(
    rt: &R,
    alloc: Global,
    explanation: &Explanation,
) -> Result<(), AllocError> {
    let Some((line, column)) = explanation.at else {
        return Ok(());
    };
    let call = Call {
        words: &["build"],
        plan: &[],
        source: explanation.example.as_bytes(),
    };
    let notes = format!(in alloc; "error {} at {line}:{column}\n", explanation.code)?;
    let due = (Status::Refused, b"".as_slice(), notes.as_bytes());
    expect(rt, alloc, call, SOUND, due)
}

#[test]
fn sources_have_the_diagnostics_that_they_explain(rt: HostRuntime) -> Result<(), Fail> {
    let mut count: u32 = 0;
    for code in 0..1000 {
        if let Some(explanation) = explanation_of(code) {
            expect_answer(&rt, rt.alloc(), &explanation)?;
            count = count.saturating_add(1);
        }
    }
    assert_eq!(rt; count, 22);
    Ok(())
}
