//! The parallel left parse.
ghost use Rattle.std.specs.Prelude.{◌≡◌, ◌<◌, ◌≤◌, length, flat_map, IfErr, IfOk, OnOk};
ghost use Rattle.std.specs.List.{range_with_len};
ghost use Rattle.chunk_seats.specs.Chunks.{chunk_count};
ghost use Rattle.glue_summary.specs.Marks.{chunk_marks};
ghost use Rattle.glue_summary.specs.Parsing.{IsFaultBy, IsLeftParseBy};
ghost use Rattle.glue_summary.specs.Pieces.{at_begin};
ghost use Rattle.glue_summary.specs.Stretch.{AreMet, IsGlueFault, IsGlued, chunk_productions, ended_by, entries_of, start_of};
ghost use Rattle.llp_wide.specs.WideParsing.{IsFaultByWide, IsLeftParseByWide};

use chunk_seats::Crew;
use glue_summary::{
    Mark, ParseFault, PieceTables, chunks_make_the_whole, ended, join_word, marks_of_chunk,
    productions_of_chunk, tables_make_the_parse,
};
use llp_tables::Tables;
use llp_wide::{WideTables, wide_tables_make_the_parse};
use par_passes::{Passes, count_chunks};
use std::alloc::AllocError;

// The marks of the summaries of all chunks.
fn all_marks<T: PieceTables + Send + Sync>(
    crew: &impl Passes,
    tables: &T,
    tokens: &[u16],
    size: u32,
) -> Result<Vec<Mark>, AllocError>
    requires size { (0 < size) × (size ≤ 65536) }
    ensures { IfOk result (λ v. v.items ≡ flat_map (chunk_marks (T.pieces tables.now) size tokens.now) (range_with_len 0 (chunk_count size (length tokens.now)))) }
{
    let alloc = crew.alloc();
    let marks = |c: u64| -> Result<Vec<Mark>, AllocError>
        ensures { IfOk result (λ v. v.items ≡ chunk_marks (T.pieces tables.entry.now) size tokens.entry.now c) }
    { marks_of_chunk(alloc, tables, tokens, size, c) };
    let count = count_chunks(tokens.len(), size);
    crew.by_chunks(count, count, &marks)
}

// The productions of all chunks.
fn all_productions<T: PieceTables + Send + Sync>(
    crew: &impl Passes,
    tables: &T,
    tokens: &[u16],
    size: u32,
) -> Result<Vec<u16>, AllocError>
    requires size { (0 < size) × (size ≤ 65536) }
    ensures { IfOk result (λ v. v.items ≡ flat_map (chunk_productions (T.pieces tables.now) size tokens.now) (range_with_len 0 (chunk_count size (length tokens.now)))) }
{
    let alloc = crew.alloc();
    let productions = |c: u64| -> Result<Vec<u16>, AllocError>
        ensures { IfOk result (λ v. v.items ≡ chunk_productions (T.pieces tables.entry.now) size tokens.entry.now c) }
    { productions_of_chunk(alloc, tables, tokens, size, c) };
    crew.by_chunks(count_chunks(tokens.len(), size), tokens.len(), &productions)
}

// What each chunk closes and opens, these joined in order onto the stack of the start, and then each chunk's productions.
fn glue_by_chunks<T: PieceTables + Send + Sync>(
    crew: &impl Passes,
    tables: &T,
    tokens: &[u16],
    size: u32,
) -> Result<Vec<u16>, ParseFault>
    requires size { (0 < size) × (size ≤ 65536) }
    ensures ok { IfOk result (λ v. IsGlued (T.pieces tables.now) (T.mark tables.now) tokens.now v.items) }
    ensures fault { IfErr result (IsGlueFault (T.pieces tables.now) (T.mark tables.now) tokens.now) }
{
    chunks_make_the_whole();
    let marks = all_marks(crew, tables, tokens, size)?;
    join_word(crew.alloc(), tables, tokens, size, marks.as_slice())?;
    Ok(all_productions(crew, tables, tokens, size)?)
}

// The productions of all pairs, or the least pair that fails.
fn glue<T: PieceTables + Send + Sync>(
    crew: &impl Passes,
    tables: &T,
    tokens: &[u16],
) -> Result<Vec<u16>, ParseFault>
    ensures ok { IfOk result (λ v. IsGlued (T.pieces tables.now) (T.mark tables.now) tokens.now v.items) }
    ensures fault { IfErr result (IsGlueFault (T.pieces tables.now) (T.mark tables.now) tokens.now) }
{
    let crew = &crew.for_items(tokens.len());
    glue_by_chunks(crew, tables, tokens, crew.plan().chunk)
}

// The same for the word between its marks.
fn glue_word<T: PieceTables + Send + Sync>(
    crew: &impl Passes,
    tables: &T,
    word: &[u16],
) -> Result<Vec<u16>, ParseFault>
    ensures ok { IfOk result (λ v. IsGlued (T.pieces tables.now) (T.mark tables.now) (ended_by (T.mark tables.now) word.now) v.items) }
    ensures fault { IfErr result (IsGlueFault (T.pieces tables.now) (T.mark tables.now) (ended_by (T.mark tables.now) word.now)) }
{
    let tokens = ended(crew.alloc(), tables.end(), word)?;
    glue(crew, tables, tokens.as_slice())
}

/// The left parse of a word, by the tables of a grammar: the productions, in order, of the one tree that derives the word. It is
/// the same for every plan and gate, and the only other refusal is that memory is out. A token that the tables don't have fails at
/// its place.
///
/// Each pair of neighbouring tokens closes symbols and opens others, by its entry, and so does each chunk of pairs. Where what they
/// close is always what the pairs before have opened, the productions of all pairs, one behind the other, are the left parse
/// (Vagner and Melichar, "Parallel LL Parsing"). Work and memory are linear in the numbers of tokens, of symbols that pairs close and
/// open, and of productions.
pub fn parse(crew: &impl Passes, tables: &Tables, word: &[u16]) -> Result<Vec<u16>, ParseFault>
    ensures ok { IfOk result (λ ps. IsLeftParseBy tables.now word.now ps.items) }
    ensures fault { IfErr result (IsFaultBy tables.now word.now) }
{
    tables_make_the_parse();
    glue_word(crew, tables, word)
}

/// The same by tables with two tokens of look-back: each token has an entry by the two before it, where the begin mark stands twice before
/// the word.
pub fn parse_wide(
    crew: &impl Passes,
    tables: &WideTables,
    word: &[u16],
) -> Result<Vec<u16>, ParseFault>
    ensures ok { IfOk result (λ ps. IsLeftParseByWide tables.now word.now ps.items) }
    ensures fault { IfErr result (IsFaultByWide tables.now word.now) }
{
    wide_tables_make_the_parse();
    glue_word(crew, tables, word)
}

/// Whether all pairs of a word meet the stack of the start, or the least pair that fails. Nothing is said of productions, so tables of which
/// only what is closed and opened is known serve.
pub fn meet<T: PieceTables + Send + Sync>(
    crew: &impl Passes,
    tables: &T,
    word: &[u16],
) -> Result<(), ParseFault>
    ensures ok { OnOk result (AreMet (entries_of (T.pieces tables.now) at_begin (ended_by (T.mark tables.now) word.now)) (start_of (T.mark tables.now))) }
    ensures fault { IfErr result (IsGlueFault (T.pieces tables.now) (T.mark tables.now) (ended_by (T.mark tables.now) word.now)) }
{
    let _productions = glue_word(crew, tables, word)?;
    Ok(())
}
