// A file of some thousand small segments, each of which jumps to the next one.

ghost use Rattle.std.specs.Prelude.{◌<◌};

use crate::headers::append;
use crate::runs::comes_to;
use rv32_emul::Outcome;
use std::alloc::{AllocError, Global};
use std::test::Fail;

/// The segments, a prime number of them.
const SEGMENTS: u32 = 4001;

/// The ELF header, in words: the run begins at 0x100000.
const ELF_HEADER: [u32; 13] = [
    0x464C457F, 0x00010101, 0, 0, 0x00F30002, 1, 0x100000, 52, 0, 0, 0x00200034, SEGMENTS, 0,
];

/// The bytes of all segments but the last: addi a0, a0, 1; jal x0, 12; and those of the last one: addi a7, x0, 93;
/// ecall.
const CODE: [u32; 4] = [0x00150513, 0x00C0006F, 0x05D00893, 0x00000073];

/// The program header of a number. Its segment lies 16 bytes behind another one, in another order than the headers;
/// every third one may be written.
fn header_of(number: u32) -> [u32; 8]
    requires { number < 4001 }
{
    let place = 7 * number % SEGMENTS;
    let code = 52 + 32 * SEGMENTS + if place == SEGMENTS - 1 { 8 } else { 0 };
    let flags = if number % 3 == 0 { 7 } else { 5 };
    [1, code, 0x100000 + 16 * place, 0, 8, 8, flags, 4]
}

/// The file.
fn chain(alloc: Global) -> Result<Vec<u8>, AllocError> {
    let mut file = Vec::new(alloc);
    append(&mut file, &ELF_HEADER)?;
    for number in 0..SEGMENTS {
        append(&mut file, &header_of(number))?;
    }
    append(&mut file, &CODE)?;
    Ok(file)
}

/// Each of them is run once.
#[test]
fn through_all_segments(rt: HostRuntime) -> Result<(), Fail> {
    let file = chain(rt.alloc())?;
    assert_eq!(rt;
        comes_to(rt.alloc(), &file, 8001, 1),
        Some(Outcome::Exit(4000))
    );
    Ok(())
}
