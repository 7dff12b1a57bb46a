// The file of a list of words (System V ABI, "ELF Header" and "Program Header").

ghost use Rattle.std.specs.Prelude.{◌≡◌, ◌≤◌, ◌++◌, length, flat_map, IfOk, OnOk};
ghost use Rattle.elf_file.specs.Image.{elf, half, word};

use crate::format::{
    CODE_OFFSET, CODE_START, CURRENT, EXECUTABLE, HEADER_SIZE, IDENT, LOAD, PAGE,
    PROGRAM_HEADER_SIZE, READ_EXECUTE, RISCV,
};
use byteorder::{ByteOrder, LittleEndian};
use std::alloc::{AllocError, Global};

/// Appends each number in two bytes.
fn append_halves(file: &mut Vec<u8>, numbers: &[u16]) -> Result<(), AllocError>
    ensures { OnOk result (file.new.items ≡ file.old.items ++ flat_map half numbers.now) }
{
    for number in numbers {
        let mut bytes = [0; 2];
        LittleEndian::write_u16(&mut bytes, *number);
        file.extend_from_slice(&bytes)?;
    }
    Ok(())
}

/// Appends each number in four bytes.
fn append_words(file: &mut Vec<u8>, numbers: &[u32]) -> Result<(), AllocError>
    ensures { OnOk result (file.new.items ≡ file.old.items ++ flat_map word numbers.now) }
{
    for number in numbers {
        let mut bytes = [0; 4];
        LittleEndian::write_u32(&mut bytes, *number);
        file.extend_from_slice(&bytes)?;
    }
    Ok(())
}

/// The file of at most 4,194,304 words: one segment with these words, readable and executable, at
/// 0x10054, where the run begins.
pub fn write(alloc: Global, words: &[u32]) -> Result<Vec<u8>, AllocError>
    requires { length words.now ≤ 4194304 }
    ensures { IfOk result (λ file. file.items ≡ elf words.now) }
{
    let size = 4 * words.len() as u32;
    let mut file = Vec::with_capacity(alloc, (CODE_OFFSET + size) as usize)?;
    file.extend_from_slice(&IDENT)?;
    append_halves(&mut file, &[EXECUTABLE, RISCV])?;
    append_words(&mut file, &[CURRENT, CODE_START, HEADER_SIZE, 0, 0])?;
    append_halves(
        &mut file,
        &[HEADER_SIZE as u16, PROGRAM_HEADER_SIZE as u16, 1, 0, 0, 0],
    )?;
    append_words(
        &mut file,
        &[
            LOAD,
            CODE_OFFSET,
            CODE_START,
            CODE_START,
            size,
            size,
            READ_EXECUTE,
            PAGE,
        ],
    )?;
    append_words(&mut file, words)?;
    Ok(file)
}
