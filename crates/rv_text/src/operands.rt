// The operands of a line.

ghost use Rattle.std.specs.Prelude.{◌≡◌, ◌∷◌, [], ◌<◌, ◌==◌, ◌&&◌, length, None, Some, MatchOption, IfSome, option_map};
ghost use Rattle.std.specs.List.{position};
ghost use Rattle.rv_text.specs.Reading.{
  is_register as names_register,
  register as register_in,
  unsigned as unsigned_in,
  opposite,
  number as number_in,
  hexadecimal_word as hexadecimal_in,
  ended as ended_in,
  closed,
  number_or_address,
  by_bracket,
  by_prefix as prefix_in,
  operand_at as operand_in,
  operand as operand_of,
  parted,
  IsNumbered,
};

use crate::pieces::{decimal, hexadecimal, is_white, split_digits, unindented};

/// An operand as it is written. A number stands as a word in two's complement.
#[derive(Clone, Copy, PartialEq, Eq, Debug)]
pub(crate) enum Operand {
    Register(u8),
    Number(u32),
    /// A number, and a register in brackets.
    Address(u32, u8),
    /// Behind `0x`, for `.word` alone.
    Word(u32),
}

/// The numbers of registers are below this one.
const REGISTERS: u32 = 32;

/// No field has room for this number.
const NUMBERS: u32 = 1 << 21;

/// Whether these digits behind `x` are the number of a register.
fn is_register(digits: &[u8]) -> bool
    ensures { result ≡ names_register digits.now }
{
    if digits.is_empty() || (digits.len() != 1 && digits[0] == b'0') {
        return false;
    }
    decimal(digits) < REGISTERS
}

/// The register that a text begins with, and the text behind it.
fn register(text: &[u8]) -> Option<(u8, &[u8])>
    ensures read { MatchOption result (register_in text.now ≡ None) (λ r. register_in text.now ≡ Some (r.0, r.1.now)) }
    ensures small { IfSome result (λ r. r.0 < 32) }
{
    let (first, rest) = text.split_first()?;
    let (digits, rest) = split_digits(rest, 10);
    if *first == b'x' && is_register(digits) {
        Some((decimal(digits) as u8, rest))
    } else {
        None
    }
}

/// The number without a sign that a text begins with, and the text behind it.
fn unsigned(text: &[u8]) -> Option<(u32, &[u8])>
    ensures read { MatchOption result (unsigned_in text.now ≡ None) (λ r. unsigned_in text.now ≡ Some (r.0, r.1.now)) }
{
    let (digits, rest) = split_digits(text, 10);
    let value = decimal(digits);
    if !digits.is_empty() && value < NUMBERS {
        Some((value, rest))
    } else {
        None
    }
}

/// The number that a text begins with, and the text behind it.
fn number(text: &[u8]) -> Option<(u32, &[u8])>
    ensures { MatchOption result (number_in text.now ≡ None) (λ r. number_in text.now ≡ Some (r.0, r.1.now)) }
{
    let (first, digits) = text.split_first()?;
    if *first == b'-' {
        let (value, rest) = unsigned(digits)?;
        Some((value.wrapping_neg(), rest))
    } else {
        unsigned(text)
    }
}

/// The word behind `0x` that a text begins with, and the text behind it.
fn hexadecimal_word(text: &[u8]) -> Option<(u32, &[u8])>
    ensures { MatchOption result (hexadecimal_in text.now ≡ None) (λ r. hexadecimal_in text.now ≡ Some (r.0, r.1.now)) }
{
    let (digits, rest) = split_digits(text, 16);
    if !digits.is_empty() && digits.len() <= 8 {
        Some((hexadecimal(digits), rest))
    } else {
        None
    }
}

/// A register that nothing but blanks stands behind.
fn register_alone(text: &[u8]) -> Option<Operand>
    ensures operand { result ≡ option_map Operand.Register (ended_in (register_in text.now)) }
    ensures numbered { IfSome result IsNumbered }
{
    let (number, rest) = register(text)?;
    if is_white(rest) {
        Some(Operand::Register(number))
    } else {
        None
    }
}

/// A word that nothing but blanks stands behind.
fn word_alone(text: &[u8]) -> Option<Operand>
    ensures operand { result ≡ option_map Operand.Word (ended_in (hexadecimal_in text.now)) }
    ensures numbered { IfSome result IsNumbered }
{
    let (word, rest) = hexadecimal_word(text)?;
    if is_white(rest) {
        Some(Operand::Word(word))
    } else {
        None
    }
}

/// The register that stands before a closing bracket, with nothing but blanks behind it.
fn register_in_brackets(text: &[u8]) -> Option<u8>
    ensures register { result ≡ ended_in (closed (register_in text.now)) }
    ensures small { IfSome result (λ n. n < 32) }
{
    let (number, rest) = register(text)?;
    let (bracket, rest) = unindented(rest).split_first()?;
    if *bracket == b')' && is_white(rest) {
        Some(number)
    } else {
        None
    }
}

/// A number, or an address that begins with it.
fn behind_number(number: u32, rest: &[u8]) -> Option<Operand>
    ensures operand { result ≡ by_bracket number rest.now }
    ensures numbered { IfSome result IsNumbered }
{
    match rest.split_first() {
        None => Some(Operand::Number(number)),
        Some((bracket, rest)) if *bracket == b'(' => {
            let base = register_in_brackets(unindented(rest))?;
            Some(Operand::Address(number, base))
        }
        Some(_) => None,
    }
}

fn numeric(text: &[u8]) -> Option<Operand>
    ensures operand { result ≡ number_or_address (number_in text.now) }
    ensures numbered { IfSome result IsNumbered }
{
    let (number, rest) = number(text)?;
    behind_number(number, unindented(rest))
}

fn is_hexadecimal_mark(first: u8, second: u8) -> bool
    ensures { result ≡ (first == 0x30 && second == 0x78) }
{
    first == b'0' && second == b'x'
}

/// A word behind `0x`, or else a number or an address.
fn by_prefix(text: &[u8], first: u8, rest: &[u8]) -> Option<Operand>
    requires { text.now ≡ first ∷ rest.now }
    ensures operand { result ≡ prefix_in first rest.now }
    ensures numbered { IfSome result IsNumbered }
{
    match rest.split_first() {
        None => numeric(text),
        Some((second, digits)) => {
            if is_hexadecimal_mark(first, *second) {
                word_alone(digits)
            } else {
                numeric(text)
            }
        }
    }
}

fn operand_at(text: &[u8]) -> Option<Operand>
    ensures operand { result ≡ operand_in text.now }
    ensures numbered { IfSome result IsNumbered }
{
    match text.split_first() {
        None => None,
        Some((first, rest)) => {
            if *first == b'x' {
                register_alone(text)
            } else {
                by_prefix(text, *first, rest)
            }
        }
    }
}

fn read_operand(text: &[u8]) -> Option<Operand>
    ensures operand { result ≡ operand_of text.now }
    ensures numbered { IfSome result IsNumbered }
{
    operand_at(unindented(text))
}

fn find_comma(text: &[u8]) -> Option<usize>
    ensures { result ≡ position (λ b. b == 0x2C) text.now }
{
    text.iter().position(|byte| *byte == b',')
}

/// The operand before a comma, and the text behind it.
fn operand_before(text: &[u8], end: usize) -> Option<(Operand, Option<&[u8]>)>
    requires comma { position (λ b. b == 0x2C) text.now ≡ Some end }
    requires inside { end < length text.now }
    ensures read { MatchOption result (parted text.now ≡ None) (λ r. MatchOption r.1 (parted text.now ≡ Some (r.0 ∷ []))
        (λ rest. parted text.now ≡ option_map (λ more. r.0 ∷ more) (parted rest.now))) }
    ensures numbered { IfSome result (λ r. IsNumbered r.0) }
{
    match read_operand(&text[..end]) {
        Some(operand) => Some((operand, Some(&text[end + 1..]))),
        None => None,
    }
}

/// The operand of a text without a comma.
fn last_operand(text: &[u8]) -> Option<(Operand, Option<&[u8]>)>
    requires { position (λ b. b == 0x2C) text.now ≡ None }
    ensures read { MatchOption result (parted text.now ≡ None) (λ r. MatchOption r.1 (parted text.now ≡ Some (r.0 ∷ []))
        (λ rest. parted text.now ≡ option_map (λ more. r.0 ∷ more) (parted rest.now))) }
    ensures numbered { IfSome result (λ r. IsNumbered r.0) }
{
    match read_operand(text) {
        Some(operand) => Some((operand, None)),
        None => None,
    }
}

/// The first operand of some that commas part, and the text behind its comma, if it has one.
pub(crate) fn next_operand(text: &[u8]) -> Option<(Operand, Option<&[u8]>)>
    ensures read { MatchOption result (parted text.now ≡ None) (λ r. MatchOption r.1 (parted text.now ≡ Some (r.0 ∷ []))
        (λ rest. parted text.now ≡ option_map (λ more. r.0 ∷ more) (parted rest.now))) }
    ensures numbered { IfSome result (λ r. IsNumbered r.0) }
{
    match find_comma(text) {
        Some(end) => operand_before(text, end),
        None => last_operand(text),
    }
}
