//! The code of a source whose front has no diagnostic.
ghost use Rattle.std.specs.Prelude.{◌≡◌, ◌<◌, ◌≤◌, Bool, false, None, length, nat_lt, IfOk, IfErr};
ghost use Rattle.std.specs.List.{find};
ghost use Rattle.limits.specs.Limits.{most_frame, most_rows};
ghost use Rattle.source_meaning.specs.Ast.{Program as Source};
ghost use Rattle.source_meaning.specs.Grammar.{Tree, Prog, ast};
ghost use Rattle.source_meaning.specs.Frames.{depths as depths_of, frame};
ghost use Rattle.source_meaning.specs.Rows.{post};
ghost use Rattle.folding.specs.Folding.{folded_program};
ghost use Rattle.rv_code.specs.Code.{most_long, words as words_of};
ghost use Rattle.front_end.specs.Front.{AreTokens, IsAnalysis, IsChecked, IsRefusedBy, TellsThat};
ghost use Rattle.verdict.specs.Verdict.{Accepted, IsVerdict, folded_if};
ghost use Rattle.back_end.specs.Coded.{AreFrames, AreLaidOut, AreRowsOf, IsClean, IsFramed};

use crate::clean::compiled_programs_are_clean;
use ast_rows::{Names, Rows, Tokens};
use fold_pass::fold;
use front_end::{Analysis, Refusal, limits_come_last, place};
use par_passes::Passes;
use row_laws::rows_are_few;
use rv_emit::{CodeFault, code_columns, emit, places, sizes};
use rv_regs::{FrameFault, Frames, depths, frames};
use scan_lookback::Steps;
use std::alloc::AllocError;
use std::marker::Brand;
use std::sync::ledger::{Blank, Ledger};

/// What is left of an analysis for the code: the tokens, the rows, and what names mean. The types end here.
pub fn parts(analysis: Analysis) -> (Tokens, Rows, Names)
    ensures tokens { result.0 ≡ analysis.tokens }
    ensures rows { result.1 ≡ analysis.rows }
    ensures names { result.2 ≡ analysis.names }
{
    (analysis.tokens, analysis.rows, analysis.names)
}

// The rows and the names of the folded program. The rounds that find its constants are counted in a ledger that ends here.
fn folded<L: Ledger>(
    crew: &impl Passes,
    rows: Rows,
    names: Names,
    blank: Blank,
) -> Result<(Rows, Names), AllocError>
    requires ledger { (blank.name ≡ L.name) × (blank.parts ≡ L.parts) × (0 < L.parts) }
    requires nodes { length rows ≤ most_rows }
    ensures few { IfOk result (λ v. length v.0 ≤ most_rows) }
    ensures are { IfOk result (λ v. (p : Source) (end : _) → IsClean end p → AreRowsOf p rows names → AreRowsOf (folded_program p) v.0 v.1) }
{
    let mut steps = Steps::<L>::new(blank);
    fold(crew, rows, names, &mut steps)
}

// The rows and the names of the program that is compiled: with its constants folded, or as they are.
fn compiled(
    crew: &impl Passes,
    rows: Rows,
    names: Names,
    is_folded: bool,
) -> Result<(Rows, Names), AllocError>
    requires nodes { length rows ≤ most_rows }
    ensures few { IfOk result (λ v. length v.0 ≤ most_rows) }
    ensures are { IfOk result (λ v. (p : Source) (end : _) → IsClean end p → AreRowsOf p rows names → AreRowsOf (folded_if is_folded p) v.0 v.1) }
{
    if is_folded {
        folded::<Brand>(crew, rows, names, Blank::new(1))
    } else {
        Ok((rows, names))
    }
}

/// The frames of the functions, or the limit that one of them passes.
pub fn frames_or_limit(
    crew: &impl Passes,
    source: &[u8],
    tokens: &Tokens,
    rows: &Rows,
    depths: &[u32],
) -> Result<Frames, Refusal>
    requires nodes { length rows.now ≤ most_rows }
    requires lexed { AreTokens source.now tokens.now }
    ensures ok { IfOk result (λ f. (fold : Bool) (t : Tree Prog) → IsChecked source.now t → rows.now ≡ post (folded_if fold (ast t)) → depths.now ≡ depths_of (folded_if fold (ast t))
        → AreFrames (folded_if fold (ast t)) f) }
    ensures refused { (fold : Bool) (t : Tree Prog) → IsChecked source.now t → rows.now ≡ post (folded_if fold (ast t)) → depths.now ≡ depths_of (folded_if fold (ast t))
        → IfErr result (IsRefusedBy fold source.now) }
    ensures large { (fold : Bool) (t : Tree Prog) → IsChecked source.now t → rows.now ≡ post (folded_if fold (ast t)) → depths.now ≡ depths_of (folded_if fold (ast t))
        → IfErr result (TellsThat (¬ (find (λ g. nat_lt most_frame (frame g).bytes) (folded_if fold (ast t)) ≡ None))) }
{
    limits_come_last();
    compiled_programs_are_clean();
    match frames(crew, rows, depths) {
        Ok(frames) => Ok(frames),
        Err(FrameFault::Large { at, bytes }) => Err(Refusal::Limit {
            code: 602,
            at: place(source, tokens, u64::from(at)),
            bytes,
        }),
        Err(FrameFault::NoMemory) => Err(Refusal::NoMemory),
    }
}

// The same. The tokens, which tell the place of a frame that is too large, end here.
fn make_frames(
    crew: &impl Passes,
    source: &[u8],
    tokens: Tokens,
    rows: &Rows,
    depths: &[u32],
) -> Result<Frames, Refusal>
    requires nodes { length rows.now ≤ most_rows }
    requires lexed { AreTokens source.now tokens }
    ensures ok { IfOk result (λ f. (fold : Bool) (t : Tree Prog) → IsChecked source.now t → rows.now ≡ post (folded_if fold (ast t)) → depths.now ≡ depths_of (folded_if fold (ast t))
        → AreFrames (folded_if fold (ast t)) f) }
    ensures refused { (fold : Bool) (t : Tree Prog) → IsChecked source.now t → rows.now ≡ post (folded_if fold (ast t)) → depths.now ≡ depths_of (folded_if fold (ast t))
        → IfErr result (IsRefusedBy fold source.now) }
{
    frames_or_limit(crew, source, &tokens, rows, depths)
}

/// A program up to its frames: all that its code is made of.
#[derive(Drop)]
pub struct Framed {
    /// The rows of its syntax tree.
    pub rows: Rows,
    /// What its names mean.
    pub names: Names,
    /// The depth of each row.
    pub depths: Vec<u32>,
    /// The frames of its functions.
    pub frames: Frames,
}

// The words of the program, or the limit that they pass.
fn emitted(crew: &impl Passes, source: &[u8], framed: &Framed) -> Result<Vec<u32>, Refusal>
    requires nodes { length framed.now.rows ≤ most_rows }
    requires framed { (fold : Bool) × (t : Tree Prog) × IsFramed fold source.now t framed.now }
    ensures ok { IfOk result (λ v. (fold : Bool) (t : Tree Prog) → IsFramed fold source.now t framed.now
        → IsVerdict fold source.now (Accepted (folded_if fold (ast t))) × (v.items ≡ words_of (folded_if fold (ast t)))) }
    ensures few { IfOk result (λ v. length v.items ≤ most_long) }
    ensures refused { (fold : Bool) (t : Tree Prog) → IsFramed fold source.now t framed.now → IfErr result (IsRefusedBy fold source.now) }
{
    limits_come_last();
    compiled_programs_are_clean();
    match rv_emit::code(
        crew,
        &framed.rows,
        &framed.names,
        &framed.depths,
        &framed.frames,
    ) {
        Ok(words) => Ok(words),
        Err(CodeFault::Large { bytes }) => Err(Refusal::Limit {
            code: 603,
            at: source.len() as u32,
            bytes,
        }),
        Err(CodeFault::NoMemory) => Err(Refusal::NoMemory),
    }
}

/// The passes' arrays of the code: how many words the piece of each row has, the number of its first word, and the words of all.
#[derive(Drop)]
pub struct LaidOut {
    /// For each row, how many words its piece has.
    pub sizes: Vec<u32>,
    /// For each row, the number of the first word of its piece.
    pub places: Vec<u32>,
    /// The words of the program.
    pub words: Vec<u32>,
}

/// These arrays of the program as it is, or the limit that its words pass.
pub fn laid_out(crew: &impl Passes, source: &[u8], framed: &Framed) -> Result<LaidOut, Refusal>
    requires nodes { length framed.now.rows ≤ most_rows }
    requires framed { (t : Tree Prog) × IsFramed false source.now t framed.now }
    ensures ok { IfOk result (λ laid. (t : Tree Prog) → IsFramed false source.now t framed.now
        → IsVerdict false source.now (Accepted (ast t)) × AreLaidOut (ast t) laid) }
    ensures few { IfOk result (λ laid. length laid.words.items ≤ most_long) }
    ensures refused { (t : Tree Prog) → IsFramed false source.now t framed.now → IfErr result (IsRefusedBy false source.now) }
{
    limits_come_last();
    compiled_programs_are_clean();
    let columns = code_columns(
        crew,
        &framed.rows,
        &framed.names,
        &framed.depths,
        &framed.frames,
    )?;
    let sizes = sizes(crew, &columns)?;
    let places = places(crew, &columns, &sizes)?;
    match emit(crew, &columns, &places) {
        Ok(words) => Ok(LaidOut {
            sizes,
            places,
            words,
        }),
        Err(CodeFault::Large { bytes }) => Err(Refusal::Limit {
            code: 603,
            at: source.len() as u32,
            bytes,
        }),
        Err(CodeFault::NoMemory) => Err(Refusal::NoMemory),
    }
}

/// The words of a source's program, with its constants folded where `fold` says so, or the limit that its frames or its code pass.
pub fn code(
    crew: &impl Passes,
    source: &[u8],
    analysis: Analysis,
    fold: bool,
) -> Result<Vec<u32>, Refusal>
    requires analyzed { (t : Tree Prog) × IsAnalysis source.now t analysis }
    ensures ok { IfOk result (λ v. (p : Source) × IsVerdict fold source.now (Accepted p) × (v.items ≡ words_of p)) }
    ensures few { IfOk result (λ v. length v.items ≤ most_long) }
    ensures refused { IfErr result (IsRefusedBy fold source.now) }
{
    rows_are_few();
    compiled_programs_are_clean();
    let (tokens, rows, names) = parts(analysis);
    let (rows, names) = compiled(crew, rows, names, fold)?;
    let depths = depths(crew, &rows)?;
    let frames = make_frames(crew, source, tokens, &rows, &depths)?;
    let program = Framed {
        rows,
        names,
        depths,
        frames,
    };
    emitted(crew, source, &program)
}
