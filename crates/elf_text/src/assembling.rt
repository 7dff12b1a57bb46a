// The file of a listing.

ghost use Rattle.std.specs.Prelude.{◌≡◌, ◌⊎◌, Ok, Err, IfOk, IfErr};
ghost use Rattle.rv_text.specs.declared.fault.AsmFault.TheVariants.{NoMemory};
ghost use Rattle.elf_text.specs.Listing.{file_of_text};

use elf_file::write;
use rv_text::{AsmFault, assemble};
use std::alloc::Global;

/// The executable file of the words that the lines of a text spell, or the text's first fault.
pub fn asm(alloc: Global, text: &[u8]) -> Result<Vec<u8>, AsmFault>
    ensures file { IfOk result (λ file. file_of_text text.now ≡ Ok file.items) }
    ensures fault { IfErr result (λ fault. (fault ≡ NoMemory) ⊎ (file_of_text text.now ≡ Err fault)) }
{
    let words = assemble(alloc, text)?;
    Ok(write(alloc, &words)?)
}
