// The pieces of a line: blanks, names, digits.

ghost use Rattle.std.specs.Prelude.{◌≡◌, ◌≤◌, ◌==◌, not, drop, min};
ghost use Rattle.std.specs.List.{list_all, position, position_or_len, before_first};
ghost use Rattle.std.specs.Char.{digit_value as value_of_digit, is_digit};
ghost use Rattle.std.specs.Str.Parse.{digits_value};
ghost use Rattle.rv_text.specs.Reading.{is_blank, unindented, leading, behind};

/// Blanks are space and tab.
fn is_blank(byte: u8) -> bool
    ensures { result ≡ is_blank byte }
{
    byte == b' ' || byte == b'\t'
}

/// Whether there is nothing but blanks.
pub(crate) fn is_white(text: &[u8]) -> bool
    ensures { result ≡ list_all is_blank text.now }
{
    text.iter().all(|byte| is_blank(*byte))
}

fn find_text(text: &[u8]) -> Option<usize>
    ensures { result ≡ position (λ b. not (is_blank b)) text.now }
{
    text.iter().position(|byte| !is_blank(*byte))
}

fn find_blank(text: &[u8]) -> Option<usize>
    ensures { result ≡ position is_blank text.now }
{
    text.iter().position(|byte| is_blank(*byte))
}

fn find_comment(text: &[u8]) -> Option<usize>
    ensures { result ≡ position (λ b. b == 0x23) text.now }
{
    text.iter().position(|byte| *byte == b'#')
}

/// A text without the blanks that it begins with.
pub(crate) fn unindented(text: &[u8]) -> &[u8]
    ensures { result.now ≡ unindented text.now }
{
    let start = find_text(text).unwrap_or(text.len());
    &text[start..]
}

/// A line without its comment.
pub(crate) fn without_comment(line: &[u8]) -> &[u8]
    ensures { result.now ≡ before_first (λ b. b == 0x23) line.now }
{
    let end = find_comment(line).unwrap_or(line.len());
    &line[..end]
}

/// What stands before the first blank, and the text from that blank on.
pub(crate) fn split_name(text: &[u8]) -> (&[u8], &[u8])
    ensures name { result.0.now ≡ before_first is_blank text.now }
    ensures rest { result.1.now ≡ drop (position_or_len is_blank text.now) text.now }
{
    let end = find_blank(text).unwrap_or(text.len());
    (&text[..end], &text[end..])
}

/// The value of a digit or a letter; 36 for any other byte.
fn digit_value(byte: u8) -> u32
    ensures value { result ≡ value_of_digit byte }
    ensures small { result ≤ 36 }
{
    match byte {
        b'0'..=b'9' => u32::from(byte - b'0'),
        b'A'..=b'Z' => u32::from(byte - b'A') + 10,
        b'a'..=b'z' => u32::from(byte - b'a') + 10,
        _ => 36,
    }
}

fn is_digit(byte: u8, radix: u32) -> bool
    ensures { result ≡ is_digit byte radix }
{
    digit_value(byte) < radix
}

fn find_behind_digits(text: &[u8], radix: u32) -> Option<usize>
    ensures { result ≡ position (λ b. not (is_digit b radix)) text.now }
{
    text.iter().position(|byte| !is_digit(*byte, radix))
}

/// The digits that a text begins with, and what stands behind them.
pub(crate) fn split_digits(text: &[u8], radix: u32) -> (&[u8], &[u8])
    ensures digits { result.0.now ≡ leading radix text.now }
    ensures rest { result.1.now ≡ behind radix text.now }
{
    let end = find_behind_digits(text, radix).unwrap_or(text.len());
    (&text[..end], &text[end..])
}

/// The number that decimal digits spell; the greatest word where it is greater.
pub(crate) fn decimal(digits: &[u8]) -> u32
    ensures { result ≡ min (digits_value 10 digits.now) 4294967295 }
{
    let mut value: u32 = 0;
    for digit in digits {
        value = value.saturating_mul(10).saturating_add(digit_value(*digit));
    }
    value
}

/// The number that hexadecimal digits spell; the greatest word where it is greater.
pub(crate) fn hexadecimal(digits: &[u8]) -> u32
    ensures { result ≡ min (digits_value 16 digits.now) 4294967295 }
{
    let mut value: u32 = 0;
    for digit in digits {
        value = value.saturating_mul(16).saturating_add(digit_value(*digit));
    }
    value
}
