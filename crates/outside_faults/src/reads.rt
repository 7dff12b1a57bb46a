// A read that fails: nothing is written, whichever it is.

use crate::calls::{Call, Fault, RESULTS, done, expect, refused};
use crate::seven::SEVEN;
use pareas_core::Status;
use std::test::Fail;

/// Each read that is made fails in turn. Where a further one would fail, nothing does.
#[test]
fn results_whose_read_fails(rt: HostRuntime) -> Result<(), Fail> {
    for &(words, input, reads, out) in RESULTS {
        let call = Call { words, input };
        for number in 0..reads {
            let nothing = refused(Status::ReadFault, b"");
            expect(&rt, rt.alloc(), call, Fault::Read(number + 1), nothing)?;
        }
        expect(&rt, rt.alloc(), call, Fault::Read(reads + 1), done(out))?;
    }
    Ok(())
}

#[test]
fn words_without_a_command_read_nothing(rt: HostRuntime) -> Result<(), Fail> {
    let call = Call {
        words: &["--version"],
        input: SEVEN,
    };
    let version = refused(Status::Usage, b"pareas 0.1.0\n");
    expect(&rt, rt.alloc(), call, Fault::Read(1), version)?;
    Ok(())
}
