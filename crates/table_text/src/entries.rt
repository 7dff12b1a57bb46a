// The lines of the entries of a grammar's tables. Each entry is made, written and let go, so memory holds one of them beside the text.

ghost use Rattle.std.specs.Prelude.{◌≡◌, ◌++◌, map, IfOk, OnOk};
ghost use Rattle.grammar_file.specs.declared.symbols.Symbol.TheVariants.{Terminal as AnyTerminal};
ghost use Rattle.grammar_file.specs.Grammar.{IsWellFormed};
ghost use Rattle.llp_tables.specs.FaultLines.{stack_text};
ghost use Rattle.table_text.specs.Entries.{entry_text};
ghost use Rattle.table_text.specs.Listed.{AddsEntries, AddsEntry, AddsLayer, AddsLayers, AddsRow, looked_back};
ghost use Rattle.table_text.specs.Outlines.{AreOutlines};

use crate::lines::{push_names, push_spaced};
use crate::lookback::Sets;
use crate::outlines::Outlines;
use crate::pieces::PieceMaker;
use glue_summary::Behind;
use grammar_file::{Grammar, Symbol};
use ll1_sets::width_of;
use llp_tables::{Entry, PieceRoom, push_name};
use std::alloc::{AllocError, Global};

// Writes the names of the terminals that are looked back at behind the text.
fn push_look_back(
    text: &mut Vec<u8>,
    grammar: &Grammar,
    sets: &Sets,
    behind: Behind,
) -> Result<(), AllocError>
    ensures { IfOk result (λ _. text.new.items ≡ text.old.items ++ stack_text grammar.now (map AnyTerminal (looked_back sets.now behind))) }
{
    match sets {
        Sets::One(_) => push_name(text, grammar, Symbol::Terminal(behind.last)),
        Sets::Two(_) => {
            push_name(text, grammar, Symbol::Terminal(behind.before_last))?;
            push_names(text, grammar, &[Symbol::Terminal(behind.last)])
        }
    }
}

// Writes what an entry closes and opens, and its productions, behind the text.
fn push_entry_text(
    alloc: Global,
    text: &mut Vec<u8>,
    grammar: &Grammar,
    entry: &Entry<'_>,
) -> Result<(), AllocError>
    ensures { IfOk result (λ _. text.new.items
        ≡ text.old.items ++ entry_text grammar.now (record { closes = entry.now.closes.now; opens = entry.now.opens.now; productions = entry.now.productions.now })) }
{
    text.extend_from_slice(b" closes")?;
    push_names(text, grammar, entry.closes)?;
    text.extend_from_slice(b" opens")?;
    push_names(text, grammar, entry.opens)?;
    text.extend_from_slice(b" productions")?;
    push_spaced(alloc, text, entry.productions)
}

// Writes the line of the entry where b comes next behind two others, if there is one.
fn push_entry(
    alloc: Global,
    maker: &PieceMaker<'_>,
    behind: Behind,
    b: u16,
    text: &mut Vec<u8>,
) -> Result<(), AllocError>
    requires outlines { AreOutlines maker.now.grammar.now maker.now.outlines.now }
    requires formed { IsWellFormed maker.now.grammar.now }
    ensures { OnOk result (AddsEntry maker.now.grammar.now maker.now.outlines.now.sets behind b text.old.items text.new.items) }
{
    let sets = &maker.outlines.sets;
    let Some(closes) = sets.member(behind.before_last, behind.last, b) else {
        return Ok(());
    };
    let piece = maker.piece_of(alloc, b, closes)?;
    let entry = Entry {
        closes,
        opens: piece.opens.as_slice(),
        productions: piece.productions.as_slice(),
    };
    push_look_back(text, maker.grammar, sets, behind)?;
    push_names(text, maker.grammar, &[Symbol::Terminal(b)])?;
    push_entry_text(alloc, text, maker.grammar, &entry)?;
    text.push(b'\n')?;
    Ok(())
}

// Writes the lines of the entries behind two terminals.
fn push_row(
    alloc: Global,
    maker: &PieceMaker<'_>,
    behind: Behind,
    text: &mut Vec<u8>,
) -> Result<(), AllocError>
    requires outlines { AreOutlines maker.now.grammar.now maker.now.outlines.now }
    requires formed { IsWellFormed maker.now.grammar.now }
    ensures { OnOk result (AddsRow maker.now.grammar.now maker.now.outlines.now.sets behind text.old.items text.new.items) }
{
    for b in 0..width_of(maker.grammar) {
        push_entry(alloc, maker, behind, b, text)?;
    }
    Ok(())
}

// Writes the lines of the entries behind z and whatever terminal is matched last.
fn push_layer(
    alloc: Global,
    maker: &PieceMaker<'_>,
    z: u16,
    text: &mut Vec<u8>,
) -> Result<(), AllocError>
    requires outlines { AreOutlines maker.now.grammar.now maker.now.outlines.now }
    requires formed { IsWellFormed maker.now.grammar.now }
    ensures { OnOk result (AddsLayer maker.now.grammar.now maker.now.outlines.now.sets z text.old.items text.new.items) }
{
    for a in 0..width_of(maker.grammar) {
        let behind = Behind {
            before_last: z,
            last: a,
        };
        push_row(alloc, maker, behind, text)?;
    }
    Ok(())
}

// Writes the lines of the entries behind whatever two terminals.
fn push_layers(alloc: Global, maker: &PieceMaker<'_>, text: &mut Vec<u8>) -> Result<(), AllocError>
    requires outlines { AreOutlines maker.now.grammar.now maker.now.outlines.now }
    requires formed { IsWellFormed maker.now.grammar.now }
    ensures { OnOk result (AddsLayers maker.now.grammar.now maker.now.outlines.now.sets text.old.items text.new.items) }
{
    for z in 0..width_of(maker.grammar) {
        push_layer(alloc, maker, z, text)?;
    }
    Ok(())
}

/// Writes the lines of all entries of a grammar's tables behind the text.
pub(crate) fn push_entries(
    alloc: Global,
    grammar: &Grammar,
    outlines: &Outlines,
    text: &mut Vec<u8>,
) -> Result<(), AllocError>
    requires outlines { AreOutlines grammar.now outlines.now }
    requires formed { IsWellFormed grammar.now }
    ensures { OnOk result (AddsEntries grammar.now text.old.items text.new.items) }
{
    let room = PieceRoom::of(alloc, grammar)?;
    let maker = PieceMaker {
        grammar,
        room: &room,
        outlines,
    };
    match &outlines.sets {
        Sets::One(_) => push_layer(alloc, &maker, 0, text),
        Sets::Two(_) => push_layers(alloc, &maker, text),
    }
}
