// The records of a batch, and its answers.

ghost use Rattle.std.specs.Prelude.{◌≤◌};

use batch_records::{
    Answer, AnswerKind, BatchError, BatchFault, MOST_RECORDS, Record, read_records, source_of,
};
use std::alloc::{AllocError, Global};
use std::test::Fail;

/// Whether the input has these records, or this fault.
fn comes_to(
    alloc: Global,
    input: &[u8],
    expected: Result<&[Record], BatchFault>,
) -> Result<bool, AllocError> {
    match read_records(alloc, input) {
        Ok(records) => match expected {
            Ok(places) => Ok(records.as_slice() == places),
            Err(_) => Ok(false),
        },
        Err(BatchError::Fault(fault)) => match expected {
            Ok(_) => Ok(false),
            Err(other) => Ok(fault == other),
        },
        Err(BatchError::NoMemory) => Err(AllocError),
    }
}

/// No byte, no source; an empty one; two; a length of two bytes.
const TAKEN: &[(&[u8], &[Record])] = &[
    (b"", &[]),
    (b"\0\0\0\0", &[Record { start: 4, end: 4 }]),
    (
        b"\x02\0\0\0ab\x01\0\0\0c",
        &[Record { start: 4, end: 6 }, Record { start: 10, end: 11 }],
    ),
    (
        b"\0\0\0\0\x03\0\0\0abc",
        &[Record { start: 4, end: 4 }, Record { start: 8, end: 11 }],
    ),
];

#[test]
fn reads_records(rt: HostRuntime) -> Result<(), Fail> {
    for &(input, places) in TAKEN {
        assert!(rt; comes_to(rt.alloc(), input, Ok(places))?);
    }
    let input = b"\x02\0\0\0ab\x01\0\0\0c";
    assert_eq!(rt;
        source_of(input, Record { start: 4, end: 6 }),
        b"ab".as_slice()
    );
    assert_eq!(rt;
        source_of(input, Record { start: 10, end: 11 }),
        b"c".as_slice()
    );
    Ok(())
}

/// Inputs whose record of this number isn't whole.
const BROKEN: &[(&[u8], u32)] = &[
    (b"\x01\x02\x03", 0),
    (b"\x01\0\0\0", 0),
    (b"\x03\0\0\0ab", 0),
    (b"\0\0\0\x01", 0),
    (b"\x02\0\0\0ab\x01\0\0\0", 1),
    (b"\0\0\0\0\0\0\0\0\0", 2),
];

#[test]
fn refuses_broken_records(rt: HostRuntime) -> Result<(), Fail> {
    for &(input, number) in BROKEN {
        assert!(rt; comes_to(rt.alloc(), input, Err(BatchFault::Record(number)))?);
    }
    Ok(())
}

/// How many records are read of this many empty ones and some bytes, or the fault.
fn empty_records(alloc: Global, count: usize, behind: usize) -> Result<usize, BatchError>
    requires few { count ≤ 65537 }
    requires less { behind ≤ 3 }
{
    let input = vec![in alloc; 0u8; 4 * count + behind]?;
    Ok(read_records(alloc, &input)?.len())
}

#[test]
fn refuses_too_many_records(rt: HostRuntime) {
    let all = empty_records(rt.alloc(), MOST_RECORDS, 0);
    assert_eq!(rt; all, Ok(65_536));
    let count = empty_records(rt.alloc(), MOST_RECORDS + 1, 0);
    assert_eq!(rt; count, Err(BatchError::Fault(BatchFault::Count)));
    let broken = empty_records(rt.alloc(), MOST_RECORDS + 1, 3);
    assert_eq!(rt; broken, Err(BatchError::Fault(BatchFault::Record(65_537))));
}

#[test]
fn encodes_answers(rt: HostRuntime) -> Result<(), Fail> {
    let image = Answer::new(rt.alloc(), AnswerKind::Image, &[7; 258])?;
    assert_eq!(rt; &image.encoded()[..6], b"\0\x02\x01\0\0\x07".as_slice());
    assert_eq!(rt; image.encoded().len(), 263);
    assert_eq!(rt; image.bytes(), [7; 258].as_slice());
    let empty = Answer::new(rt.alloc(), AnswerKind::Diagnostic, &[])?;
    assert_eq!(rt; empty.encoded(), b"\x01\0\0\0\0".as_slice());
    assert_eq!(rt; empty.bytes(), b"".as_slice());
    let limit = Answer::new(rt.alloc(), AnswerKind::Limit, b"\n")?;
    assert_eq!(rt; limit.encoded(), b"\x05\x01\0\0\0\n".as_slice());
    assert_eq!(rt; limit.kind(), AnswerKind::Limit);
    Ok(())
}

#[test]
fn tells_faults(rt: HostRuntime) -> Result<(), Fail> {
    let large = format!(in rt.alloc(); "{}", BatchFault::TooLarge)?;
    assert_eq!(rt; large.as_str(), "batch too large");
    let broken = format!(in rt.alloc(); "{}", BatchError::Fault(BatchFault::Record(65_537)))?;
    assert_eq!(rt; broken.as_str(), "batch record 65537");
    let count = format!(in rt.alloc(); "{}", BatchFault::Count)?;
    assert_eq!(rt; count.as_str(), "batch count");
    let memory = format!(in rt.alloc(); "{}", BatchError::NoMemory)?;
    assert_eq!(rt; memory.as_str(), "out of memory");
    Ok(())
}
