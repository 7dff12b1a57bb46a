// The text that `explain` prints.

ghost use Rattle.std.specs.Prelude.{◌≡◌, ◌++◌, ◌∷◌, true, IfOk};
ghost use Rattle.diagnostic_texts.specs.Explained.{answer_line, example_text, explanation_text, heading, indented, kind, text_of};

use crate::explanation::{Explanation, explanation_of};
use std::alloc::{AllocError, Global};

// What the line of a diagnostic begins with.
fn kind(code: u32) -> &'static str
    ensures { result.now ≡ kind code }
{
    if code < 600 { "error" } else { "limit" }
}

// The first lines: what it means, and where its place is.
fn heading(alloc: Global, explanation: &Explanation) -> Result<String, AllocError>
    ensures { IfOk result (λ text. text.bytes.items ≡ heading explanation.now) }
{
    let kind = kind(explanation.code);
    let code = explanation.code;
    let meaning = explanation.meaning;
    let place = explanation.place;
    format!(in alloc; "{kind} {code}: {meaning}\nplace: {place}\n\n")
}

// The lines, each behind four spaces.
fn push_indented(text: &mut Vec<u8>, lines: &[u8]) -> Result<(), AllocError>
    ensures { IfOk result (λ _. text.new.items ≡ text.old.items ++ indented true lines.now) }
{
    let mut begins = true;
    for byte in lines {
        if begins {
            text.extend_from_slice(b"    ")?;
        }
        text.push(*byte)?;
        begins = *byte == b'\n';
    }
    Ok(())
}

// The line that a source is answered with.
fn answer_line(alloc: Global, code: u32, line: u32, column: u32) -> Result<String, AllocError>
    ensures { IfOk result (λ text. text.bytes.items ≡ answer_line code line column) }
{
    let kind = kind(code);
    format!(in alloc; "\nThe answer to this source is \"{kind} {code} at {line}:{column}\".\n")
}

// A source, and the line that it is answered with.
fn push_source(text: &mut Vec<u8>, source: &str, answer: &str) -> Result<(), AllocError>
    ensures { IfOk result (λ _. text.new.items ≡ text.old.items ++ (indented true source.now ++ answer.now)) }
{
    push_indented(text, source.as_bytes())?;
    text.extend_from_slice(answer.as_bytes())
}

// A source and the line that it is answered with, or what such a source has.
fn push_example(
    alloc: Global,
    text: &mut Vec<u8>,
    explanation: &Explanation,
) -> Result<(), AllocError>
    ensures { IfOk result (λ _. text.new.items ≡ text.old.items ++ example_text explanation.now) }
{
    match explanation.at {
        Some((line, column)) => {
            let answer = answer_line(alloc, explanation.code, line, column)?;
            push_source(text, explanation.example, &answer)
        }
        None => text.extend_from_slice(explanation.example.as_bytes()),
    }
}

// Writes a text behind another one, and a blank line between them.
fn push_behind(text: &mut Vec<u8>, last: &str) -> Result<(), AllocError>
    ensures { IfOk result (λ _. text.new.items ≡ text.old.items ++ 10 ∷ last.now) }
{
    text.push(b'\n')?;
    text.extend_from_slice(last.as_bytes())
}

// All that there is to say.
fn text_of(alloc: Global, explanation: &Explanation) -> Result<Vec<u8>, AllocError>
    ensures { IfOk result (λ text. text.items ≡ text_of explanation.now) }
{
    let mut text = heading(alloc, explanation)?.into_bytes();
    push_example(alloc, &mut text, explanation)?;
    push_behind(&mut text, explanation.mended)?;
    Ok(text)
}

/// The text of a code: empty where it is the code of no diagnostic and of no limit.
pub fn explanation_text(alloc: Global, code: u32) -> Result<Vec<u8>, AllocError>
    ensures { IfOk result (λ text. text.items ≡ explanation_text code) }
{
    match explanation_of(code) {
        Some(explanation) => text_of(alloc, &explanation),
        None => Ok(Vec::new(alloc)),
    }
}
