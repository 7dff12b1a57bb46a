//! The tokens that are own tokens of rows.
ghost use Rattle.std.specs.Prelude.{◌≡◌, ◌≤◌, length, IfOk};
ghost use Rattle.row_laws.specs.Owned.{is_owned as is_read};
ghost use Rattle.row_columns.specs.TokensOf.{owned_numbers};

use par_passes::Passes;
use source_meaning::Terminal;
use std::alloc::AllocError;

// Whether a terminal's tokens are own tokens of rows.
fn is_owned(terminal: Terminal) -> bool
    ensures { result ≡ is_read terminal }
{
    match terminal {
        Terminal::FnWord
        | Terminal::LeftParen
        | Terminal::RightParen
        | Terminal::Colon
        | Terminal::Comma
        | Terminal::VarWord
        | Terminal::IntWord
        | Terminal::BoolWord
        | Terminal::RightBrace
        | Terminal::Semicolon
        | Terminal::LeftBracket
        | Terminal::RightBracket => false,
        Terminal::Ident
        | Terminal::LeftBrace
        | Terminal::Equals
        | Terminal::IfWord
        | Terminal::ElseWord
        | Terminal::WhileWord
        | Terminal::ReturnWord
        | Terminal::BarBar
        | Terminal::AmpAmp
        | Terminal::Cmp
        | Terminal::Add
        | Terminal::MinusSign
        | Terminal::Mul
        | Terminal::Unop
        | Terminal::Digits
        | Terminal::TrueWord
        | Terminal::FalseWord
        | Terminal::PrintWord => true,
    }
}

/// The numbers of the tokens that are own tokens of rows.
pub(crate) fn owned_all(crew: &impl Passes, kinds: &[Terminal]) -> Result<Vec<u32>, AllocError>
    requires few { length kinds.now ≤ 4294967295 }
    ensures { IfOk result (λ v. v.items ≡ owned_numbers kinds.now) }
{
    crew.positions(kinds, &|kind: Terminal| is_owned(kind))
}
