// Pieces, which are made one at a time.

ghost use Rattle.std.specs.Prelude.{ℕ, IfOk};
ghost use Rattle.grammar_file.specs.Grammar.{IsWellFormed};
ghost use Rattle.ll1_sets.specs.Predict.{ArePredictions, IsLl1};
ghost use Rattle.llp_tables.specs.Lookback.{IsLookback, IsPiece};
ghost use Rattle.table_text.specs.Outlines.{AreOutlines};

use crate::outlines::Outlines;
use grammar_file::{Grammar, Symbol};
use llp_tables::{LookAhead, PieceRoom};
use std::alloc::{AllocError, Global};

/// What a piece opens, the uppermost symbol first, and its productions.
#[derive(Drop)]
pub(crate) struct Piece {
    pub opens: Vec<Symbol>,
    pub productions: Vec<u16>,
}

/// By what pieces are made.
#[derive(Clone, Copy)]
pub(crate) struct PieceMaker<'a> {
    /// The grammar.
    pub grammar: &'a Grammar,
    /// How much room its pieces need.
    pub room: &'a PieceRoom,
    /// Its pieces in outline.
    pub outlines: &'a Outlines,
}

// The piece for the terminal that closes these symbols. Memory for its productions is taken at once, before any is made.
fn piece_by<'a>(
    alloc: Global,
    room: &PieceRoom,
    ahead: &LookAhead<'a>,
    closes: &'a [Symbol],
) -> Result<Piece, AllocError>
    requires ll1 { IsLl1 ahead.now.grammar.now }
    requires predictions { ArePredictions ahead.now.grammar.now ahead.now.b ahead.now.predictions.now }
    requires member { (a : ℕ) × IsLookback ahead.now.grammar.now a ahead.now.b closes.now }
    ensures { IfOk result (λ piece. IsPiece ahead.now.grammar.now ahead.now.b closes.now piece.opens.items piece.productions.items) }
{
    let mut productions = room.no_productions(alloc, ahead, closes)?;
    let opens = ahead.add_piece(alloc, closes, &mut productions)?;
    Ok(Piece { opens, productions })
}

impl PieceMaker<'_> {
    /// The piece for b that closes these symbols.
    pub(crate) fn piece_of(
        &self,
        alloc: Global,
        b: u16,
        closes: &[Symbol],
    ) -> Result<Piece, AllocError>
        requires outlines { AreOutlines self.now.grammar.now self.now.outlines.now }
        requires formed { IsWellFormed self.now.grammar.now }
        requires member { (a : ℕ) × IsLookback self.now.grammar.now a b closes.now }
        ensures { IfOk result (λ piece. IsPiece self.now.grammar.now b closes.now piece.opens.items piece.productions.items) }
    {
        let column = self.outlines.table.column(b);
        let ahead = LookAhead {
            grammar: self.grammar,
            b,
            first: column.first(),
            predictions: column.predictions(),
        };
        piece_by(alloc, self.room, &ahead, closes)
    }
}
