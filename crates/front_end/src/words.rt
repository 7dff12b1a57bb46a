//! A source's tokens as a word of the grammar.
ghost use Rattle.std.specs.Prelude.{◌≡◌, ◌<◌, ◌^◌, length, map, IfOk};
ghost use Rattle.source_meaning.specs.Grammar.{terminal_number as number_of_terminal};

use ast_rows::Tokens;
use par_passes::Passes;
use source_meaning::Terminal;
use std::alloc::AllocError;

/// The number of a terminal in the language's grammar.
pub fn terminal_number(terminal: Terminal) -> u16
    ensures { result ≡ number_of_terminal terminal }
{
    match terminal {
        Terminal::FnWord => 1,
        Terminal::Ident => 2,
        Terminal::LeftParen => 3,
        Terminal::RightParen => 4,
        Terminal::Colon => 5,
        Terminal::Comma => 6,
        Terminal::VarWord => 7,
        Terminal::IntWord => 8,
        Terminal::BoolWord => 9,
        Terminal::LeftBrace => 10,
        Terminal::RightBrace => 11,
        Terminal::Equals => 12,
        Terminal::Semicolon => 13,
        Terminal::IfWord => 14,
        Terminal::ElseWord => 15,
        Terminal::WhileWord => 16,
        Terminal::ReturnWord => 17,
        Terminal::BarBar => 18,
        Terminal::AmpAmp => 19,
        Terminal::Cmp => 20,
        Terminal::Add => 21,
        Terminal::MinusSign => 22,
        Terminal::Mul => 23,
        Terminal::Unop => 24,
        Terminal::Digits => 25,
        Terminal::TrueWord => 26,
        Terminal::FalseWord => 27,
        Terminal::LeftBracket => 28,
        Terminal::RightBracket => 29,
        Terminal::PrintWord => 30,
    }
}

/// The terminals of the tokens, by their numbers in the grammar.
pub(crate) fn word_of(crew: &impl Passes, tokens: &Tokens) -> Result<Vec<u16>, AllocError>
    requires { length tokens.now < 2 ^ 62 }
    ensures { IfOk result (λ v. v.items ≡ map (λ t. number_of_terminal t.terminal) tokens.now) }
{
    crew.map(tokens.kinds(), &|kind: Terminal| terminal_number(kind))
}
