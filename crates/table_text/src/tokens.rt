// The tokens of a word that is spelled by names.

ghost use Rattle.std.specs.Prelude.{◌≡◌, ◌<◌, ◌==◌, ◌||◌, length, bytes_eq, IfOk, IfSome};
ghost use Rattle.std.specs.List.{position};
ghost use Rattle.table_text.specs.Tokens.{token_of, tokens_of};

use grammar_file::{Grammar, Name};
use std::alloc::{AllocError, Global};

/// Blanks are space and tab.
fn is_blank(byte: u8) -> bool
    ensures { result ≡ (byte == 0x20 || byte == 0x09) }
{
    byte == b' ' || byte == b'\t'
}

/// Where a name stands among names.
fn place_of(names: &[Name], name: &[u8]) -> Option<usize>
    ensures place { result ≡ position (λ other. bytes_eq other name.now) names.now }
    ensures within { IfSome result (λ place. place < length names.now) }
{
    names.iter().position(|other| other.as_bytes() == name)
}

/// The number of the terminal with this name, or the begin mark's.
fn token_of(grammar: &Grammar, name: &[u8]) -> u16
    ensures { result ≡ token_of grammar.now name.now }
{
    match place_of(grammar.terminals(), name) {
        Some(place) => place as u16 + 1,
        None => 0,
    }
}

/// The tokens of a word.
pub(crate) fn tokens_of(
    alloc: Global,
    grammar: &Grammar,
    text: &[u8],
) -> Result<Vec<u16>, AllocError>
    ensures { IfOk result (λ tokens. tokens.items ≡ tokens_of grammar.now text.now) }
{
    text.split(|b| is_blank(*b))
        .filter(|name| name.len() != 0)
        .map(|name| token_of(grammar, name))
        .collect(alloc)
}
