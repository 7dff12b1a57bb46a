// A law about the definitions, the contract of a function that does nothing.

ghost use Rattle.std.specs.Prelude.{◌≡◌, ◌<◌, ◌≤◌, ℕ, List, length, Ok};
ghost use Rattle.elf_file.specs.Image.{elf};
ghost use Rattle.elf_text.specs.Listing.{dumped, file_of_text};

use elf_file::written_is_read;
use rv_text::listings_are_assembled;

/// The listing of the file of one to 4,194,304 words is assembled to this file.
pub fn listings_give_their_files()
    ensures { (words : List ℕ) → 0 < length words → length words ≤ 4194304 → (text : List ℕ) × (dumped (elf words) ≡ Ok text) × (file_of_text text ≡ Ok (elf words)) }
{
    written_is_read();
    listings_are_assembled();
}
