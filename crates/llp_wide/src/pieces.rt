// The pieces of the stacks that are closed, one for each.

ghost use Rattle.std.specs.Prelude.{◌≡◌, length, IfOk};
ghost use Rattle.grammar_file.specs.Grammar.{IsWellFormed};
ghost use Rattle.ll1_sets.specs.Predict.{IsLl1};
ghost use Rattle.ll1_sets.specs.Table.{IsLl1Table};
ghost use Rattle.llp_wide.specs.StackPieces.{AreMadeFor, IsMadeFor};
ghost use Rattle.llp_wide.specs.WideLookbacks.{AreClosed, IsClosed};

use crate::closings::Closing;
use grammar_file::{Grammar, Symbol};
use ll1_sets::Ll1Table;
use llp_tables::{LookAhead, PieceRoom};
use std::alloc::{AllocError, Global};
use std::marker::Model;

/// What a piece closes and opens, and its productions.
#[derive(Drop)]
pub(crate) struct WidePiece {
    pub closes: Vec<Symbol>,
    pub opens: Vec<Symbol>,
    pub productions: Vec<u16>,
}

impl Model for WidePiece {
    ghost use Rattle.llp_tables.specs.Tables.{Entry};

    ghost Value = { Entry };

    ghost view = { λ p. record {
      closes = p.closes.items;
      opens = p.opens.items;
      productions = p.productions.items;
    } };
}

/// The piece of a stack. Memory for its productions is taken at once, before any is made: a grammar can have pieces too long for any
/// memory.
fn piece_of(
    alloc: Global,
    grammar: &Grammar,
    table: &Ll1Table,
    room: &PieceRoom,
    stack: &Closing,
) -> Result<WidePiece, AllocError>
    requires well_formed { IsWellFormed grammar.now }
    requires ll1 { IsLl1 grammar.now }
    requires table { IsLl1Table grammar.now table.now }
    requires closed { IsClosed grammar.now stack.now }
    ensures { IfOk result (IsMadeFor grammar.now stack.now) }
{
    let column = table.column(stack.ahead);
    let ahead = LookAhead {
        grammar,
        b: stack.ahead,
        first: column.first(),
        predictions: column.predictions(),
    };
    let closes = stack.closes.as_slice();
    let mut productions = room.no_productions(alloc, &ahead, closes)?;
    let opens = ahead.add_piece(alloc, closes, &mut productions)?;
    let closes = Vec::from_slice(alloc, closes)?;
    Ok(WidePiece {
        closes,
        opens,
        productions,
    })
}

/// The pieces of stacks, in order.
pub(crate) fn pieces_of(
    alloc: Global,
    grammar: &Grammar,
    table: &Ll1Table,
    stacks: &[Closing],
) -> Result<Vec<WidePiece>, AllocError>
    requires well_formed { IsWellFormed grammar.now }
    requires table { IsLl1Table grammar.now table.now }
    requires ll1 { IsLl1 grammar.now }
    requires closed { AreClosed grammar.now stacks.now }
    ensures made { IfOk result (λ pieces. AreMadeFor grammar.now stacks.now pieces.items) }
    ensures len { IfOk result (λ pieces. length pieces.items ≡ length stacks.now) }
{
    let room = PieceRoom::of(alloc, grammar)?;
    let mut pieces = Vec::with_capacity(alloc, stacks.len())?;
    for n in 0..stacks.len() {
        let stack = &stacks[n];
        pieces.push(piece_of(alloc, grammar, table, &room, stack)?)?;
    }
    Ok(pieces)
}
