// The words of a text.

ghost use Rattle.std.specs.Prelude.{◌≡◌, ◌⊎◌, ℕ, List, ◌≤◌, length, Result, Ok, Err, IfOk, IfErr, MatchResult};
ghost use Rattle.std.specs.Str.Lines.{lines};
ghost use Rattle.rv_text.specs.declared.fault.AsmFault.{AsmFault as AnyFault};
ghost use Rattle.rv_text.specs.declared.fault.AsmFault.TheVariants.{NoMemory};
ghost use Rattle.rv_text.specs.Assembled.{words_from, assembled, IsAnswer};

use crate::fault::AsmFault;
use crate::lines::{Line, read_line, split_line};
use std::alloc::Global;

/// How many bytes a text may have.
const MOST_BYTES: usize = 134_217_728;

/// How many words a text may spell.
const MOST_WORDS: usize = 4_194_304;

/// No line that spells a word has fewer bytes, with its line feed.
const SHORTEST_LINE: usize = 6;

/// The words that the lines spell, or the first line that neither is blank nor spells a word.
fn words(alloc: Global, text: &[u8]) -> Result<Vec<u32>, AsmFault>
    requires { length text.now ≤ 134217728 }
    ensures ok { IfOk result (λ v. words_from 1 (lines text.now) ≡ Ok v.items) }
    ensures fault { IfErr result (λ fault. (fault ≡ NoMemory) ⊎ (words_from 1 (lines text.now) ≡ Err fault)) }
{
    let mut words = Vec::with_capacity(alloc, (text.len() / SHORTEST_LINE + 1).min(MOST_WORDS))?;
    let mut number = 1;
    let mut rest = text;
    while let Some((line, after)) = split_line(rest) {
        match read_line(line) {
            Line::Blank => {}
            Line::Spells(word) => words.push(word)?,
            Line::Wrong => return Err(AsmFault::Line(number)),
        }
        number += 1;
        rest = after;
    }
    Ok(words)
}

/// The words that the lines of a text spell, or its first fault.
fn words_or_fault(alloc: Global, text: &[u8]) -> Result<Vec<u32>, AsmFault>
    ensures ok { IfOk result (λ words. assembled text.now ≡ Ok words.items) }
    ensures few { IfOk result (λ words. length words.items ≤ 4194304) }
    ensures fault { IfErr result (λ fault. (fault ≡ NoMemory) ⊎ (assembled text.now ≡ Err fault)) }
{
    if MOST_BYTES < text.len() {
        return Err(AsmFault::TooLarge);
    }
    let words = words(alloc, text)?;
    if words.is_empty() {
        return Err(AsmFault::Empty);
    }
    if MOST_WORDS < words.len() {
        return Err(AsmFault::TooMany);
    }
    Ok(words)
}

/// The words that the lines of a text spell, of which there are at most 4,194,304, or its first fault.
pub fn assemble(alloc: Global, text: &[u8]) -> Result<Vec<u32>, AsmFault>
    ensures ok { IfOk result (λ words. assembled text.now ≡ Ok words.items) }
    ensures fault { IfErr result (λ fault. (fault ≡ NoMemory) ⊎ (assembled text.now ≡ Err fault)) }
    ensures few { IfOk result (λ words. length words.items ≤ 4194304) }
    ensures exactly { (told : Result (List ℕ) AnyFault) → IsAnswer text.now told
        → MatchResult result (λ words. told ≡ Ok words.items) (λ fault. (fault ≡ NoMemory) ⊎ (told ≡ Err fault)) }
{
    words_or_fault(alloc, text)
}
