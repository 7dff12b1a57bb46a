// The listing of a file's code.

ghost use Rattle.std.specs.Prelude.{◌≡◌, ◌≤◌, ◌<◌, ◌^◌, ◌++◌, codes, length, IfOk, MatchResult, Ok};
ghost use Rattle.elf_file.specs.Reading.{IsRefusal};
ghost use Rattle.rv_text.specs.Written.{hexadecimal, listed};
ghost use Rattle.elf_text.specs.Listing.{line, whole_words, rest, code_listed, is_code, file_bytes, header_listed, file_listed, dumped};

use crate::bytes::{half_at, word_at};
use elf_file::format::{
    E_PHNUM, E_PHOFF, EXECUTE, LOAD, P_FILESZ, P_FLAGS, P_MEMSZ, P_OFFSET, P_VADDR,
    PROGRAM_HEADER_SIZE,
};
use elf_file::{ReadError, read};
use list_cuts::stretch_at;
use rv_text::{LONGEST_LINE, push_hexadecimal, push_line};
use std::alloc::{AllocError, Global};

/// The bytes of a word.
const WORD: usize = 4;

/// The line of an address.
fn push_address(out: &mut Vec<u8>, address: u32) -> Result<(), AllocError>
    ensures { IfOk result (λ _. out.new.items ≡ out.old.items ++ line (codes "# 0x" ++ hexadecimal address)) }
{
    out.extend_from_slice(b"# 0x")?;
    push_hexadecimal(out, address)?;
    out.push(b'\n')?;
    Ok(())
}

/// A line for each whole word.
fn push_words(out: &mut Vec<u8>, bytes: &[u8]) -> Result<(), AllocError>
    requires { length bytes.now ≤ 2 ^ 32 }
    ensures { IfOk result (λ _. out.new.items ≡ out.old.items ++ listed (whole_words bytes.now)) }
{
    let count = bytes.len() / WORD;
    out.reserve(count * LONGEST_LINE)?;
    for k in 0..count {
        push_line(out, word_at(bytes, WORD * k))?;
    }
    Ok(())
}

/// The line for one to three bytes behind the last whole word, or nothing.
fn rest(count: usize) -> &'static [u8]
    requires { count < 4 }
    ensures { result.now ≡ rest count }
{
    match count {
        0 => b"",
        1 => b"# rest 1\n",
        2 => b"# rest 2\n",
        _ => b"# rest 3\n",
    }
}

/// The listing of the bytes from an address on.
fn push_code(out: &mut Vec<u8>, start: u32, bytes: &[u8]) -> Result<(), AllocError>
    requires { length bytes.now ≤ 2 ^ 32 }
    ensures { IfOk result (λ _. out.new.items ≡ out.old.items ++ code_listed start bytes.now) }
{
    push_address(out, start)?;
    push_words(out, bytes)?;
    out.extend_from_slice(rest(bytes.len() % WORD))?;
    Ok(())
}

/// The program header at an offset has a segment that is loaded and may be executed.
fn is_code(file: &[u8], offset: usize) -> bool
    requires { offset ≤ 2 ^ 39 }
    ensures { result ≡ is_code file.now offset }
{
    word_at(file, offset) == LOAD
        && word_at(file, offset + P_MEMSZ) != 0
        && word_at(file, offset + P_FLAGS) & EXECUTE == EXECUTE
}

/// The bytes of its segment that stand in the file.
fn file_bytes(file: &[u8], offset: usize) -> &[u8]
    requires { offset ≤ 2 ^ 39 }
    ensures bytes { result.now ≡ file_bytes file.now offset }
    ensures few { length result.now ≤ 2 ^ 32 }
{
    let place = word_at(file, offset + P_OFFSET) as usize;
    stretch_at(file, place, word_at(file, offset + P_FILESZ) as usize)
}

/// Its listing, where it has code.
fn push_header(out: &mut Vec<u8>, file: &[u8], offset: usize) -> Result<(), AllocError>
    requires { offset ≤ 2 ^ 39 }
    ensures { IfOk result (λ _. out.new.items ≡ out.old.items ++ header_listed file.now offset) }
{
    if is_code(file, offset) {
        push_code(
            out,
            word_at(file, offset + P_VADDR),
            file_bytes(file, offset),
        )
    } else {
        Ok(())
    }
}

/// The code of all program headers, in their order.
fn file_listed(alloc: Global, file: &[u8]) -> Result<Vec<u8>, AllocError>
    ensures { IfOk result (λ text. text.items ≡ file_listed file.now) }
{
    let start = word_at(file, E_PHOFF) as usize;
    let mut out = Vec::new(alloc);
    for number in 0..half_at(file, E_PHNUM) as usize {
        push_header(
            &mut out,
            file,
            start + PROGRAM_HEADER_SIZE as usize * number,
        )?;
    }
    Ok(out)
}

/// The listing of the code of a file: for each segment that may be executed, in the order of the program headers, a comment with its
/// first address, a line for each whole word that the file has of it, and a comment that tells how many bytes are left. The refusals are those
/// of a file that isn't loaded, and that memory is out.
pub fn dump(alloc: Global, file: &[u8]) -> Result<Vec<u8>, ReadError>
    ensures { MatchResult result (λ text. dumped file.now ≡ Ok text.items) (λ error. IsRefusal (dumped file.now) error) }
{
    read(alloc, file)?;
    Ok(file_listed(alloc, file)?)
}
