// The lines of a text.

ghost use Rattle.std.specs.Prelude.{◌≡◌, ◌<◌, ◌==◌, ◌∷◌, [], length, MatchOption, IfSome};
ghost use Rattle.std.specs.List.{position};
ghost use Rattle.std.specs.Str.Lines.{lines, strip_carriage_return};
ghost use Rattle.rv_text.specs.Reading.{line_read, line_at, spelled as spelled_by};

use crate::mnemonics::word_with;
use crate::pieces::{split_name, unindented, without_comment};

/// What a line says: nothing, a word, or neither.
#[derive(Clone, Copy, PartialEq, Eq, Debug)]
pub(crate) enum Line {
    Blank,
    Spells(u32),
    Wrong,
}

/// A line without the carriage return at its end.
fn without_return(line: &[u8]) -> &[u8]
    ensures { result.now ≡ strip_carriage_return line.now }
{
    match line.split_last() {
        Some((last, front)) if *last == b'\r' => front,
        _ => line,
    }
}

/// Where a line feed stands first.
fn find_feed(text: &[u8]) -> Option<usize>
    ensures { result ≡ position (λ b. b == 10) text.now }
{
    text.iter().position(|byte| *byte == b'\n')
}

/// The first line of a text, and the text behind it. A last line needs no line feed.
pub(crate) fn split_line(text: &[u8]) -> Option<(&[u8], &[u8])>
    ensures parts { MatchOption result (lines text.now ≡ []) (λ r. lines text.now ≡ r.0.now ∷ lines r.1.now) }
    ensures shorter { IfSome result (λ r. length r.1.now < length text.now) }
{
    if text.is_empty() {
        return None;
    }
    match find_feed(text) {
        Some(end) => Some((without_return(&text[..end]), &text[end + 1..])),
        None => Some((text, &text[..0])),
    }
}

fn spelled(word: Option<u32>) -> Line
    ensures { result ≡ spelled_by word }
{
    match word {
        Some(word) => Line::Spells(word),
        None => Line::Wrong,
    }
}

/// What a line says that begins with no blank and has no comment.
fn line_at(text: &[u8]) -> Line
    ensures { result ≡ line_at text.now }
{
    if text.is_empty() {
        return Line::Blank;
    }
    let (name, rest) = split_name(text);
    spelled(word_with(name, unindented(rest)))
}

/// What a line says.
pub(crate) fn read_line(line: &[u8]) -> Line
    ensures { result ≡ line_read line.now }
{
    line_at(unindented(without_comment(line)))
}
