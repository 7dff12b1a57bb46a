// The productions of a word's pieces, one piece after the other.

ghost use Rattle.std.specs.Prelude.{IfOk, OnOk};
ghost use Rattle.glue_summary.specs.Pieces.{at_begin};
ghost use Rattle.grammar_file.specs.Grammar.{IsWellFormed};
ghost use Rattle.table_text.specs.Members.{member_behind, members_of};
ghost use Rattle.table_text.specs.Outlines.{AreOutlines};
ghost use Rattle.table_text.specs.Readings.{AddsWritten, AreWritten};

use crate::outlines::Outlines;
use crate::pieces::PieceMaker;
use glue_summary::Behind;
use grammar_file::Grammar;
use llp_tables::PieceRoom;
use std::alloc::{AllocError, Global};

// Writes the productions of the piece by which b comes next behind two tokens, if there is one.
fn write_token(
    alloc: Global,
    maker: &PieceMaker<'_>,
    behind: Behind,
    b: u16,
    productions: &mut Vec<u16>,
) -> Result<(), AllocError>
    requires outlines { AreOutlines maker.now.grammar.now maker.now.outlines.now }
    requires formed { IsWellFormed maker.now.grammar.now }
    ensures { OnOk result (AddsWritten maker.now.grammar.now b (member_behind (members_of maker.now.outlines.now.sets) behind b) productions.old.items productions.new.items) }
{
    match maker
        .outlines
        .sets
        .member(behind.before_last, behind.last, b)
    {
        Some(closes) => {
            let piece = maker.piece_of(alloc, b, closes)?;
            productions.extend_from_slice(piece.productions.as_slice())
        }
        None => Ok(()),
    }
}

/// The productions of the pieces of tokens, one piece's behind the other's.
pub(crate) fn readings(
    alloc: Global,
    grammar: &Grammar,
    outlines: &Outlines,
    tokens: &[u16],
) -> Result<Vec<u16>, AllocError>
    requires outlines { AreOutlines grammar.now outlines.now }
    requires formed { IsWellFormed grammar.now }
    ensures { IfOk result (λ ps. AreWritten grammar.now (members_of outlines.now.sets) at_begin tokens.now ps.items) }
{
    let room = PieceRoom::of(alloc, grammar)?;
    let maker = PieceMaker {
        grammar,
        room: &room,
        outlines,
    };
    let mut productions = Vec::new(alloc);
    let mut last = Behind {
        before_last: 0,
        last: 0,
    };
    for b in tokens {
        write_token(alloc, &maker, last, *b, &mut productions)?;
        last = last.next(*b);
    }
    Ok(productions)
}
