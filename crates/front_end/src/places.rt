//! The places of tokens in the source.
ghost use Rattle.std.specs.Prelude.{◌≡◌, ◌≤◌, ◌^◌, length, slice_index_or};
ghost use Rattle.source_meaning.specs.Lexemes.{place_of, tokens as tokens_of};
ghost use Rattle.front_end.specs.Front.{AreTokens};

use ast_rows::Tokens;
use row_laws::tokens_are_sliced;

// The number at a place, or what stands for none.
fn number_or(numbers: &[u32], place: u64, none: u32) -> u32
    ensures { result ≡ slice_index_or numbers.now place none }
{
    numbers.get(place as usize).copied().unwrap_or(none)
}

/// The place of the first byte of a token; the end of the source stands behind the last one.
pub fn place(source: &[u8], tokens: &Tokens, token: u64) -> u32
    requires { length source.now ≤ 2 ^ 24 }
    ensures { AreTokens source.now tokens.now → result ≡ place_of source.now (tokens_of source.now) token }
{
    tokens_are_sliced();
    number_or(tokens.starts(), token, source.len() as u32)
}
