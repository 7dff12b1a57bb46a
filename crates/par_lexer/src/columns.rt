//! The columns of tokens.
ghost use Rattle.std.specs.Prelude.{◌≡◌, ◌∷◌, List, length, IfOk};
ghost use Rattle.ast_rows.specs.TokenRows.{token_rows};
ghost use Rattle.par_lexer.specs.PieceRows.{kind_of as terminal_of_piece, Awaits};
ghost use Rattle.par_lexer.specs.declared.pieces.Piece.{Piece as PieceRow};

use crate::meanings::Meaning;
use crate::pieces::Piece;
use ast_rows::Tokens;
use source_meaning::Terminal;
use std::alloc::{AllocError, Global};

// The terminal of a token.
fn kind(meaning: Meaning) -> Terminal
    ensures { result ≡ terminal_of_piece meaning }
{
    match meaning {
        Meaning::Token(terminal) => terminal,
        Meaning::Passed | Meaning::NoLexeme | Meaning::TooLarge => Terminal::Ident,
    }
}

// The columns of tokens.
#[derive(Drop)]
pub(crate) struct Columns {
    pub(crate) kinds: Vec<Terminal>,
    pub(crate) starts: Vec<u32>,
    pub(crate) lengths: Vec<u32>,
}

impl Columns {
    // No tokens.
    pub(crate) fn new(alloc: Global) -> Columns
        ensures { (ps : List PieceRow) → Awaits result.kinds.items result.starts.items result.lengths.items ps ps }
    {
        Columns {
            kinds: Vec::new(alloc),
            starts: Vec::new(alloc),
            lengths: Vec::new(alloc),
        }
    }

    // No tokens, and room for this many.
    pub(crate) fn with_capacity(alloc: Global, count: usize) -> Result<Columns, AllocError>
        ensures { IfOk result (λ v. (ps : List PieceRow) → Awaits v.kinds.items v.starts.items v.lengths.items ps ps) }
    {
        Ok(Columns {
            kinds: Vec::with_capacity(alloc, count)?,
            starts: Vec::with_capacity(alloc, count)?,
            lengths: Vec::with_capacity(alloc, count)?,
        })
    }

    // One token more.
    pub(crate) fn push(&mut self, piece: Piece) -> Result<(), AllocError>
        ensures { IfOk result (λ _. (whole rest : List PieceRow)
            → Awaits self.old.kinds.items self.old.starts.items self.old.lengths.items whole (piece ∷ rest)
            → Awaits self.new.kinds.items self.new.starts.items self.new.lengths.items whole rest) }
    {
        self.kinds.push(kind(piece.meaning))?;
        self.starts.push(piece.start)?;
        self.lengths.push(piece.length)?;
        Ok(())
    }

    // The tokens that come behind these.
    pub(crate) fn append(&mut self, more: &Columns) -> Result<(), AllocError>
        ensures { IfOk result (λ _. (whole middle rest : List PieceRow)
            → Awaits self.old.kinds.items self.old.starts.items self.old.lengths.items whole middle
            → Awaits more.now.kinds.items more.now.starts.items more.now.lengths.items middle rest
            → Awaits self.new.kinds.items self.new.starts.items self.new.lengths.items whole rest) }
    {
        self.kinds.extend_from_slice(more.kinds.as_slice())?;
        self.starts.extend_from_slice(more.starts.as_slice())?;
        self.lengths.extend_from_slice(more.lengths.as_slice())?;
        Ok(())
    }

    // The tokens.
    pub(crate) fn into_tokens(self) -> Tokens
        requires { (length self.starts.items ≡ length self.kinds.items) × (length self.lengths.items ≡ length self.kinds.items) }
        ensures { result ≡ token_rows self.kinds.items self.starts.items self.lengths.items }
    {
        let Columns {
            kinds,
            starts,
            lengths,
        } = self;
        Tokens::new(kinds, starts, lengths)
    }
}
