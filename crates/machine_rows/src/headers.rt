// Files of many program headers, all of which are to be loaded.

ghost use Rattle.std.specs.Prelude.{◌<◌};

use crate::runs::{change, comes_to};
use byteorder::{ByteOrder, LittleEndian};
use elf_file::{ElfFault, ReadError, Segment, read};
use rv32_emul::Outcome;
use std::alloc::{AllocError, Global};
use std::test::Fail;

/// The program headers of the file, of which the first one is that of the code.
const HEADERS: u32 = 300;

/// Adds the words that lie 16 bytes apart from 0x20000 on, one for each other header, and exits with the sum.
const SUM: [u32; 9] = [
    0x000202B7, 0x00021337, 0x2B030313, 0x0002A383, 0x00750533, 0x01028293, 0xFE629AE3, 0x05D00893,
    0x00000073,
];

/// The ELF header, in words: the run begins at 0x10000.
const ELF_HEADER: [u32; 13] = [
    0x464C457F, 0x00010101, 0, 0, 0x00F30002, 1, 0x10000, 52, 0, 0, 0x00200034, HEADERS, 0,
];

/// The program header of the code, which stands behind all headers.
const CODE_HEADER: [u32; 8] = [1, 52 + 32 * HEADERS, 0x10000, 0, 36, 36, 5, 4];

/// Where the segment of a header begins: in another order than the headers.
fn start_of(number: u32) -> u32
    requires { number < 300 }
{
    0x20000 + 16 * (7 * number % 299)
}

/// The program header of four bytes, those that hold its own number (in `p_paddr`, which no loader reads).
fn header_of(number: u32) -> [u32; 8]
    requires { number < 300 }
{
    [
        1,
        52 + 32 * number + 12,
        start_of(number),
        number,
        4,
        4,
        4,
        4,
    ]
}

pub fn append(file: &mut Vec<u8>, words: &[u32]) -> Result<(), AllocError> {
    for word in words {
        let mut bytes = [0; 4];
        LittleEndian::write_u32(&mut bytes, *word);
        file.extend_from_slice(&bytes)?;
    }
    Ok(())
}

/// The file, with numbers of four bytes changed in it.
fn many_headers(alloc: Global, changes: &[(usize, u32)]) -> Result<Vec<u8>, AllocError> {
    let mut file = Vec::new(alloc);
    append(&mut file, &ELF_HEADER)?;
    append(&mut file, &CODE_HEADER)?;
    for number in 1..HEADERS {
        append(&mut file, &header_of(number))?;
    }
    append(&mut file, &SUM)?;
    change(&mut file, changes);
    Ok(file)
}

/// It is the segment of a header's own number.
fn is_numbered(segment: &Segment, number: u32) -> bool
    requires { number < 300 }
{
    segment.start() == start_of(number)
        && segment.flags() == 4
        && segment.bytes().len() == 4
        && LittleEndian::read_u32(segment.bytes()) == number
}

/// Whether each header has its segment, in the order of the headers.
fn has_all(segments: &[Segment]) -> bool {
    let mut number = 0;
    for segment in segments {
        let is_right = if number == 0 {
            (segment.start(), segment.end(), segment.flags()) == (0x10000, 0x10024, 5)
        } else {
            number < HEADERS && is_numbered(segment, number)
        };
        if !is_right {
            return false;
        }
        number = number.saturating_add(1);
    }
    number == HEADERS
}

/// All are loaded, and the run sees them.
#[test]
fn all_are_loaded(rt: HostRuntime) -> Result<(), Fail> {
    let file = many_headers(rt.alloc(), &[])?;
    let segments = read(rt.alloc(), &file)?;
    assert!(rt; has_all(segments.segments()));
    assert!(rt; comes_to(rt.alloc(), &file, 1200, 1) == Some(Outcome::Exit(44850)));
    Ok(())
}

/// Where the program header number 287 stands.
const LATE: usize = 52 + 32 * 287;

/// Where four bytes are changed in it, to what: its bytes are not in the file; it begins one byte before the
/// end of the segment of header 1, ends one byte behind the start of another one, behind that of the stack, and
/// behind all addresses; it has more bytes in the file than in memory; all segments are too large.
const FAULTS: &[(usize, u32)] = &[
    (LATE + 4, 0xFFFFFFFE),
    (LATE + 8, 0x20073),
    (LATE + 8, 0x2126D),
    (LATE + 8, 0x6FFFFFFD),
    (LATE + 8, 0xFFFFFFFD),
    (LATE + 16, 5),
    (LATE + 20, 0x04000000),
];

/// The fault of the file with these changes, if it has one.
fn fault_with(alloc: Global, changes: &[(usize, u32)]) -> Result<Option<ReadError>, AllocError> {
    let file = many_headers(alloc, changes)?;
    Ok(read(alloc, &file).err())
}

/// A fault in a late header is told by its number, and one in a later header is not.
#[test]
fn late_faults(rt: HostRuntime) -> Result<(), Fail> {
    let late = Some(ReadError::Fault(ElfFault::Segment(287)));
    for &(offset, number) in FAULTS {
        let changes = [(offset, number), (LATE + 36, 0xFFFFFFFE)];
        assert!(rt; fault_with(rt.alloc(), &changes)? == late, "{number:x}");
    }
    Ok(())
}

/// A late header beside other segments has no fault.
#[test]
fn late_neighbours(rt: HostRuntime) -> Result<(), Fail> {
    for start in [0x20074, 0x2126C, 0x6FFFFFFC, 0xFFFFFFFC] {
        assert!(rt;
            fault_with(rt.alloc(), &[(LATE + 8, start)])? == None,
            "{start:x}"
        );
    }
    Ok(())
}
