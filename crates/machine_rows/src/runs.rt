// Files with numbers changed in them, and what the machine comes to that runs one.

use byteorder::{ByteOrder, LittleEndian};
use elf_file::write;
use rv32_emul::{Machine, Outcome};
use std::alloc::Global;

/// The file of these words, of which there are a hundred at most.
pub fn file_of(alloc: Global, words: &[u32]) -> Option<Vec<u8>> {
    if words.len() > 100 {
        return None;
    }
    write(alloc, words).ok()
}

/// The same with numbers of four bytes changed in it.
pub fn file_with(alloc: Global, words: &[u32], changes: &[(usize, u32)]) -> Option<Vec<u8>> {
    let mut file = file_of(alloc, words)?;
    change(&mut file, changes);
    Some(file)
}

/// Changes numbers of four bytes.
pub fn change(file: &mut [u8], changes: &[(usize, u32)]) {
    for (offset, number) in changes {
        if *offset < file.len() && file.len() - *offset >= 4 {
            LittleEndian::write_u32(&mut file[*offset..*offset + 4], *number);
        }
    }
}

/// What the machine of a file comes to in this many steps, behind this many that go on. No further step changes it.
pub fn comes_to(alloc: Global, file: &[u8], goes_on: u64, steps: u64) -> Option<Outcome> {
    let mut machine = Machine::load(alloc, file).ok()?;
    if machine.run(goes_on) != Outcome::More {
        return None;
    }
    let outcome = machine.run(steps);
    if outcome != Outcome::More && machine.run(u64::MAX) != outcome {
        return None;
    }
    Some(outcome)
}

/// The same of the machine of these words.
pub fn words_come_to(alloc: Global, words: &[u32], goes_on: u64, steps: u64) -> Option<Outcome> {
    comes_to(alloc, &file_of(alloc, words)?, goes_on, steps)
}
