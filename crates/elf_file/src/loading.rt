// Reading a file (System V ABI, "ELF Header", "Program Header" and "Program Loading").

ghost use Rattle.std.specs.Prelude.{◌≡◌, ◌+◌, ◌*◌, ◌%◌, ◌<◌, ◌≤◌, ◌^◌, ◌⊎◌, ◌-◌, ◌++◌, [], ◌∷◌, true, false, bit_and, nat_le, nat_lt, ◌&&◌, ◌==◌, OnOk, take, drop, replicate, Ok, Err, IfOk, length, MatchResult, MatchOption, Result, sum_by};
ghost use Rattle.std.specs.List.{list_any};
ghost use Rattle.elf_file.specs.Load.{
  load,
  most,
  half_at as half_of,
  word_at as word_of,
  overlap as share,
  is_loaded as is_due,
  cannot_load as is_refused,
  segment_at as segment_of,
  with_header as after_header,
  with_headers,
  with_entry,
  may_begin as begins,
};
ghost use Rattle.elf_file.specs.Earlier.{touches_segment};
ghost use Rattle.elf_file.specs.Reading.{IsRefusal, Reads};

use crate::earlier::Earlier;
use crate::fault::{ElfFault, ReadError};
use crate::format::{
    E_ENTRY, E_MACHINE, E_PHENTSIZE, E_PHNUM, E_PHOFF, E_TYPE, EXECUTABLE, EXECUTE, HEADER_SIZE,
    LOAD, MAGIC, P_FILESZ, P_FLAGS, P_MEMSZ, P_OFFSET, P_VADDR, PROGRAM_HEADER_SIZE, RISCV,
};
use crate::segments::{Segment, Segments};
use byteorder::{ByteOrder, LittleEndian};
use std::alloc::{AllocError, Global};

/// The most bytes of a file, and of all its segments in memory.
const MOST: u64 = 67108864;

/// The stack, which no segment may touch: its first address and the one behind its last.
const STACK_START: u64 = 0x70000000;

const STACK_END: u64 = 0x70100000;

fn half_at(file: &[u8], offset: usize) -> u16
    requires { offset + 2 ≤ length file.now }
    ensures { result ≡ half_of file.now offset }
{
    LittleEndian::read_u16(&file[offset..])
}

fn word_at(file: &[u8], offset: usize) -> u32
    requires { offset + 4 ≤ length file.now }
    ensures { result ≡ word_of file.now offset }
{
    LittleEndian::read_u32(&file[offset..])
}

/// Finds the first fault of the ELF header.
fn check_header(file: &[u8]) -> Result<(), ElfFault>
    ensures fault { MatchResult result (λ _. Unit {0}) (λ fault. load file.now ≡ Err fault) }
    ensures rest { OnOk result (load file.now ≡ with_entry (word_of file.now 24) (with_headers file.now (half_of file.now 44) 0 (word_of file.now 28) (Ok []))) }
    ensures long { OnOk result (52 ≤ length file.now) }
    ensures short { OnOk result (length file.now ≤ most) }
{
    if file.len() as u64 > MOST {
        return Err(ElfFault::TooLarge);
    }
    if file.len() < HEADER_SIZE as usize {
        return Err(ElfFault::Short);
    }
    if word_at(file, 0) != MAGIC {
        return Err(ElfFault::Magic);
    }
    if !(file[4] == 1 && file[5] == 1 && file[6] == 1) {
        return Err(ElfFault::Class);
    }
    if !(half_at(file, E_TYPE) == EXECUTABLE
        && half_at(file, E_PHENTSIZE) as u32 == PROGRAM_HEADER_SIZE)
    {
        return Err(ElfFault::Kind);
    }
    if half_at(file, E_MACHINE) != RISCV {
        return Err(ElfFault::Machine);
    }
    Ok(())
}

/// Two stretches of addresses, each with its first address and the one behind its last, share an
/// address.
fn overlap(start: u64, end: u64, other_start: u64, other_end: u64) -> bool
    ensures { result ≡ share start end other_start other_end }
{
    start < other_end && other_start < end
}

/// The program header at an offset is one to be loaded.
fn is_loaded(file: &[u8], offset: usize) -> bool
    requires { offset + 32 ≤ length file.now }
    ensures due { result ≡ is_due file.now offset }
    ensures some { result ≡ true → 0 < word_of file.now (offset + 20) }
{
    word_at(file, offset) == LOAD && word_at(file, offset + P_MEMSZ) != 0
}

/// The segment of the program header at an offset cannot be loaded behind earlier ones.
fn cannot_load(file: &[u8], offset: usize, earlier: &Earlier) -> bool
    requires { offset + 32 ≤ length file.now }
    ensures refused { result ≡ is_refused file.now offset earlier.now }
    ensures sizes { result ≡ false → word_of file.now (offset + 16) ≤ word_of file.now (offset + 20) }
    ensures inside { result ≡ false → (word_of file.now (offset + 16) ≡ 0) ⊎ (word_of file.now (offset + 4) + word_of file.now (offset + 16) ≤ length file.now) }
    ensures apart { result ≡ false → touches_segment earlier.now (word_of file.now (offset + 8)) (word_of file.now (offset + 8) + word_of file.now (offset + 20)) ≡ false }
    ensures few { result ≡ false → sum_by (λ s. length s.bytes) earlier.now + word_of file.now (offset + 20) ≤ most }
{
    let file_size = word_at(file, offset + P_FILESZ) as u64;
    let size = word_at(file, offset + P_MEMSZ) as u64;
    let start = word_at(file, offset + P_VADDR) as u64;
    let end = start + size;
    (file_size != 0 && word_at(file, offset + P_OFFSET) as u64 + file_size > file.len() as u64)
        || size < file_size
        || end > 1 << 32
        || earlier.touches(start, end)
        || overlap(start, end, STACK_START, STACK_END)
        || earlier.total() + size > MOST
}

/// The bytes of the file at an offset, which may be anywhere where there are none.
fn file_bytes(file: &[u8], offset: usize, size: usize) -> &[u8]
    requires { (size ≡ 0) ⊎ (offset + size ≤ length file.now) }
    ensures bytes { result.now ≡ take size (drop offset file.now) }
    ensures size { length result.now ≡ size }
{
    if size == 0 {
        &file[..0]
    } else {
        &file[offset..offset + size]
    }
}

/// Bytes with zeros behind them, up to a size.
fn padded(alloc: Global, bytes: &[u8], size: usize) -> Result<Vec<u8>, AllocError>
    requires { length bytes.now ≤ size }
    ensures { IfOk result (λ v. v.items ≡ bytes.now ++ replicate (size - length bytes.now) 0) }
{
    let mut v = Vec::with_capacity(alloc, size)?;
    v.extend_from_slice(bytes)?;
    v.resize(size, 0)?;
    Ok(v)
}

/// The segment of the program header at an offset: its bytes of the file, and zeros behind them.
fn segment_at(alloc: Global, file: &[u8], offset: usize) -> Result<Segment, AllocError>
    requires offset { offset + 32 ≤ length file.now }
    requires sizes { word_of file.now (offset + 16) ≤ word_of file.now (offset + 20) }
    requires inside { (word_of file.now (offset + 16) ≡ 0) ⊎ (word_of file.now (offset + 4) + word_of file.now (offset + 16) ≤ length file.now) }
    ensures segment { IfOk result (λ segment. segment ≡ segment_of file.now offset) }
    ensures start { IfOk result (λ segment. segment.start ≡ word_of file.now (offset + 8)) }
    ensures size { IfOk result (λ segment. length segment.bytes ≡ word_of file.now (offset + 20)) }
{
    let file_size = word_at(file, offset + P_FILESZ) as usize;
    let bytes = file_bytes(file, word_at(file, offset + P_OFFSET) as usize, file_size);
    let bytes = padded(alloc, bytes, word_at(file, offset + P_MEMSZ) as usize)?;
    Ok(Segment::new(
        word_at(file, offset + P_VADDR),
        bytes,
        word_at(file, offset + P_FLAGS),
    ))
}

/// Earlier segments and the one of the program header at an offset, which can be loaded behind them.
fn with_segment(
    alloc: Global,
    file: &[u8],
    offset: usize,
    earlier: Earlier,
) -> Result<Earlier, AllocError>
    requires offset { offset + 32 ≤ length file.now }
    requires sizes { word_of file.now (offset + 16) ≤ word_of file.now (offset + 20) }
    requires inside { (word_of file.now (offset + 16) ≡ 0) ⊎ (word_of file.now (offset + 4) + word_of file.now (offset + 16) ≤ length file.now) }
    requires some { 0 < word_of file.now (offset + 20) }
    requires apart { touches_segment earlier (word_of file.now (offset + 8)) (word_of file.now (offset + 8) + word_of file.now (offset + 20)) ≡ false }
    requires few { sum_by (λ s. length s.bytes) earlier + word_of file.now (offset + 20) ≤ most }
    ensures { IfOk result (λ all. all ≡ earlier ++ segment_of file.now offset ∷ []) }
{
    let segment = segment_at(alloc, file, offset)?;
    earlier.with(segment)
}

/// Earlier segments and the one, if any, of the program header `number`, which is at an offset.
fn with_header(
    alloc: Global,
    file: &[u8],
    number: u32,
    offset: u64,
    earlier: Earlier,
) -> Result<Earlier, ReadError>
    requires { offset < 2 ^ 40 }
    ensures { MatchResult result (λ all. after_header file.now number offset earlier ≡ Ok all) (λ e. IsRefusal (after_header file.now number offset earlier) e) }
{
    let refused = ReadError::Fault(ElfFault::Segment(number));
    if offset + 32 > file.len() as u64 {
        return Err(refused);
    }
    let offset = offset as usize;
    if !is_loaded(file, offset) {
        return Ok(earlier);
    }
    if cannot_load(file, offset, &earlier) {
        return Err(refused);
    }
    Ok(with_segment(alloc, file, offset, earlier)?)
}

/// The segments of all program headers.
fn read_segments(
    alloc: Global,
    file: &[u8],
    count: u16,
    start: u32,
) -> Result<Vec<Segment>, ReadError>
    ensures { MatchResult result (λ v. with_headers file.now count 0 start (Ok []) ≡ Ok v.items) (λ e. IsRefusal (with_headers file.now count 0 start (Ok [])) e) }
{
    let mut earlier = Earlier::new(alloc);
    for number in 0..count as u32 {
        let offset = start as u64 + 32 * number as u64;
        earlier = with_header(alloc, file, number, offset, earlier)?;
    }
    Ok(earlier.into_segments())
}

/// The address lies in the segment, which may be executed.
fn may_run(segment: &Segment, address: u32) -> bool
    ensures { result ≡ (nat_le segment.now.start address && nat_lt address (segment.now.start + length segment.now.bytes) && bit_and segment.now.flags 1 == 1) }
{
    segment.start() <= address
        && u64::from(address) < segment.end()
        && segment.flags() & EXECUTE == EXECUTE
}

/// The address lies in a segment that may be executed.
fn is_code(segments: &[Segment], address: u32) -> bool
    ensures { result ≡ list_any (λ s. nat_le s.start address && nat_lt address (s.start + length s.bytes) && bit_and s.flags 1 == 1) segments.now }
{
    segments.iter().any(|s| may_run(s, address))
}

/// The run may begin at the address.
fn may_begin(segments: &[Segment], entry: u32) -> bool
    ensures begins { result ≡ begins segments.now entry }
    ensures aligned { result ≡ true → entry % 4 ≡ 0 }
{
    entry % 4 == 0 && is_code(segments, entry)
}

/// The segments that a file has the loader put into memory, and where the run begins, or the first
/// fault of the file.
pub fn read(alloc: Global, file: &[u8]) -> Result<Segments, ReadError>
    ensures segments { Reads (load file.now) result }
    ensures entry { IfOk result (λ segments. segments.entry % 4 ≡ 0) }
{
    check_header(file)?;
    let entry = word_at(file, E_ENTRY);
    let segments = read_segments(alloc, file, half_at(file, E_PHNUM), word_at(file, E_PHOFF))?;
    if !may_begin(&segments, entry) {
        return Err(ReadError::Fault(ElfFault::Entry));
    }
    Ok(Segments::new(entry, segments))
}
