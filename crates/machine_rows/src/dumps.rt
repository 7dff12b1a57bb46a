use crate::runs::{file_of, file_with};
use elf_file::{ElfFault, ReadError};
use elf_text::{asm, dump};
use rv_text::AsmFault;
use std::alloc::{AllocError, Global};
use std::test::Fail;

/// Two words that are instructions, and one that is none.
const WORDS: [u32; 3] = [0x0070_0513, 0x0000_8067, 0xFFFF_FFFF];

/// Where a file of words has the number of program headers, the offset of its bytes, how many bytes there are in the file and in
/// memory, and the flags. The second program header has its flags behind that.
const HEADERS: usize = 44;

const OFFSET: usize = 56;

const FILE_SIZE: usize = 68;

const MEMORY_SIZE: usize = 72;

const FLAGS: usize = 76;

const SECOND_FLAGS: usize = 108;

/// The listing of a file, if it is loaded.
fn listed(alloc: Global, file: &[u8]) -> Option<Vec<u8>> {
    dump(alloc, file).ok()
}

const WHOLE: &[u8] = b"# 0x00010054\naddi x10, x0, 7\njalr x0, 0(x1)\n.word 0xffffffff\n";

/// A program header in place of the first words, for the word behind it, at an address of its own.
const SECOND: [u32; 9] = [1, 116, 0x20000, 0x20000, 4, 4, 1, 4096, 0x0000_0073];

const FIRST_LISTED: &[u8] = b"\
# 0x00010054
.word 0x00000001
.word 0x00000074
.word 0x00020000
.word 0x00020000
.word 0x00000004
.word 0x00000004
.word 0x00000006
.word 0x00001000
ecall
";

const BOTH_LISTED: &[u8] = b"\
# 0x00010054
.word 0x00000001
.word 0x00000074
.word 0x00020000
.word 0x00020000
.word 0x00000004
.word 0x00000004
.word 0x00000001
.word 0x00001000
ecall
# 0x00020000
ecall
";

/// Words, numbers that are changed in their file, and its listing. Zeros in memory behind the file's bytes aren't listed, and nor
/// is a segment that can't be executed.
const LISTINGS: &[(&[u32], &[(usize, u32)], &[u8])] = &[
    (&WORDS, &[], WHOLE),
    (&WORDS, &[(MEMORY_SIZE, 4096)], WHOLE),
    (
        &WORDS,
        &[(FILE_SIZE, 11)],
        b"# 0x00010054\naddi x10, x0, 7\njalr x0, 0(x1)\n# rest 3\n",
    ),
    (
        &WORDS,
        &[(FILE_SIZE, 5)],
        b"# 0x00010054\naddi x10, x0, 7\n# rest 1\n",
    ),
    (&WORDS, &[(FILE_SIZE, 2)], b"# 0x00010054\n# rest 2\n"),
    (
        &WORDS,
        &[(FILE_SIZE, 0), (OFFSET, 0xFFFF_FFFF)],
        b"# 0x00010054\n",
    ),
    (&SECOND, &[(HEADERS, 2)], BOTH_LISTED),
    (&SECOND, &[(HEADERS, 2), (SECOND_FLAGS, 6)], FIRST_LISTED),
];

#[test]
fn code_is_listed(rt: HostRuntime) -> Result<(), Fail> {
    for &(words, changes, wanted) in LISTINGS {
        let file = file_with(rt.alloc(), words, changes).ok_or("a file")?;
        let text = listed(rt.alloc(), &file).ok_or("the file is loaded")?;
        assert!(rt; text.as_slice() == wanted);
    }
    Ok(())
}

/// Why a file isn't listed.
fn refusal_of(alloc: Global, file: &[u8]) -> Option<ReadError> {
    dump(alloc, file).err()
}

#[test]
fn other_files_are_refused(rt: HostRuntime) -> Result<(), Fail> {
    let file = file_with(rt.alloc(), &WORDS, &[(FLAGS, 4)]).ok_or("a file")?;
    for (bytes, fault) in [
        (file.as_slice(), ElfFault::Entry),
        (b"".as_slice(), ElfFault::Short),
    ] {
        assert!(rt; refusal_of(rt.alloc(), bytes) == Some(ReadError::Fault(fault)));
    }
    Ok(())
}

/// The file that a listing is assembled to.
fn assembled(alloc: Global, text: &[u8]) -> Option<Vec<u8>> {
    asm(alloc, text).ok()
}

/// Why a listing isn't assembled.
fn fault_of(alloc: Global, text: &[u8]) -> Option<AsmFault> {
    asm(alloc, text).err()
}

#[test]
fn listings_become_files(rt: HostRuntime) -> Result<(), Fail> {
    let file = assembled(rt.alloc(), WHOLE).ok_or("the listing is assembled")?;
    assert!(rt; Some(file) == file_of(rt.alloc(), &WORDS));
    let line = Some(AsmFault::Line(2));
    assert!(rt; fault_of(rt.alloc(), b"ecall\naddi x1, x0, 2048") == line);
    assert!(rt; fault_of(rt.alloc(), b"# nothing\n") == Some(AsmFault::Empty));
    Ok(())
}

/// The most words of a listing, and the most bytes.
const MOST_WORDS: usize = 4_194_304;

const MOST_BYTES: usize = 134_217_728;

/// This many lines, each with one instruction.
fn calls(alloc: Global, count: usize) -> Result<Vec<u8>, AllocError> {
    let mut text = Vec::new(alloc);
    for _ in 0..count {
        text.extend_from_slice(b"ecall\n")?;
    }
    Ok(text)
}

#[test]
fn listings_may_be_too_long(rt: HostRuntime) -> Result<(), Fail> {
    let most = calls(rt.alloc(), MOST_WORDS)?;
    let file = assembled(rt.alloc(), &most).ok_or("the listing is assembled")?;
    assert_eq!(rt; file.len(), 84 + 4 * MOST_WORDS);
    let more = calls(rt.alloc(), MOST_WORDS + 1)?;
    assert!(rt; fault_of(rt.alloc(), &more) == Some(AsmFault::TooMany));
    Ok(())
}

/// This many blanks.
fn blanks(alloc: Global, count: usize) -> Result<Vec<u8>, AllocError> {
    vec![in alloc; b' '; count]
}

#[test]
fn listings_may_be_too_large(rt: HostRuntime) -> Result<(), Fail> {
    let most = blanks(rt.alloc(), MOST_BYTES)?;
    assert!(rt; fault_of(rt.alloc(), &most) == Some(AsmFault::Empty));
    let more = blanks(rt.alloc(), MOST_BYTES + 1)?;
    assert!(rt; fault_of(rt.alloc(), &more) == Some(AsmFault::TooLarge));
    Ok(())
}

/// What clang and lld make of a loop in C, without its sections: the first program header is code, the second one isn't loaded.
const FROM_C: [u8; 204] = [
    0x7f, 0x45, 0x4c, 0x46, 0x01, 0x01, 0x01, 0x00, 0x00, 0x00, 0x00, 0x00, 0x00, 0x00, 0x00, 0x00, //
    0x02, 0x00, 0xf3, 0x00, 0x01, 0x00, 0x00, 0x00, 0xd8, 0x00, 0x01, 0x00, 0x34, 0x00, 0x00, 0x00, //
    0x00, 0x00, 0x00, 0x00, 0x00, 0x00, 0x00, 0x00, 0x34, 0x00, 0x20, 0x00, 0x02, 0x00, 0x00, 0x00, //
    0x00, 0x00, 0x00, 0x00, 0x01, 0x00, 0x00, 0x00, 0x74, 0x00, 0x00, 0x00, 0x94, 0x00, 0x01, 0x00, //
    0x94, 0x00, 0x01, 0x00, 0x58, 0x00, 0x00, 0x00, 0x58, 0x00, 0x00, 0x00, 0x07, 0x00, 0x00, 0x00, //
    0x04, 0x00, 0x00, 0x00, 0x51, 0xe5, 0x74, 0x64, 0x00, 0x00, 0x00, 0x00, 0x00, 0x00, 0x00, 0x00, //
    0x00, 0x00, 0x00, 0x00, 0x00, 0x00, 0x00, 0x00, 0x00, 0x00, 0x00, 0x00, 0x06, 0x00, 0x00, 0x00, //
    0x00, 0x00, 0x00, 0x00, 0x63, 0x5e, 0xb5, 0x02, 0x13, 0x06, 0x05, 0x00, 0x13, 0x05, 0x00, 0x00, //
    0xb3, 0x86, 0xc5, 0x40, 0x33, 0x86, 0xc5, 0x02, 0x37, 0x57, 0x55, 0x55, 0x13, 0x07, 0x67, 0x55, //
    0xb3, 0x17, 0xe6, 0x02, 0x13, 0xd8, 0xf7, 0x01, 0xb3, 0x87, 0x07, 0x01, 0x33, 0x85, 0xa7, 0x00, //
    0x93, 0x86, 0xf6, 0xff, 0x33, 0x06, 0xb6, 0x00, 0xe3, 0x94, 0x06, 0xfe, 0x67, 0x80, 0x00, 0x00, //
    0x13, 0x05, 0x00, 0x00, 0x67, 0x80, 0x00, 0x00, 0x13, 0x05, 0xc0, 0x4e, 0x13, 0x05, 0x05, 0x00, //
    0x93, 0x08, 0xd0, 0x05, 0x73, 0x00, 0x00, 0x00, 0x67, 0x80, 0x00, 0x00, //
];

/// Its code as llvm-objdump tells it, but for branches, which have their offsets.
const LISTED_C: &str = "\
# 0x00010094
bge x10, x11, 60
addi x12, x10, 0
addi x10, x0, 0
sub x13, x11, x12
mul x12, x11, x12
lui x14, 349525
addi x14, x14, 1366
mulh x15, x12, x14
srli x16, x15, 31
add x15, x15, x16
add x10, x15, x10
addi x13, x13, -1
add x12, x12, x11
bne x13, x0, -24
jalr x0, 0(x1)
addi x10, x0, 0
jalr x0, 0(x1)
addi x10, x0, 1260
addi x10, x10, 0
addi x17, x0, 93
ecall
jalr x0, 0(x1)
";

#[test]
fn code_of_another_compiler(rt: HostRuntime) -> Result<(), Fail> {
    let text = listed(rt.alloc(), &FROM_C).ok_or("the file is loaded")?;
    assert!(rt; text.as_slice() == LISTED_C.as_bytes());
    let file = assembled(rt.alloc(), LISTED_C.as_bytes()).ok_or("the listing is assembled")?;
    assert!(rt; file.ends_with(&FROM_C[116..]));
    Ok(())
}
