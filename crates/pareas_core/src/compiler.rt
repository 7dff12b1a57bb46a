//! The compiler: from a source to an executable file.
ghost use Rattle.std.specs.Prelude.{◌≡◌, length, IfOk, IfErr};
ghost use Rattle.front_end.specs.Front.{IsAnalysis, IsRefusedBy};
ghost use Rattle.grammar_file.specs.Spelling.{IsReduced};
ghost use Rattle.llp_tables.specs.EntryTable.{AreTablesOf};
ghost use Rattle.source_meaning.specs.Grammar.{Tree, Prog, grammar};
ghost use Rattle.source_meaning.specs.Lexemes.{tokens};
ghost use Rattle.pareas_core.specs.Headline.{CompilesTo};

use back_end::code;
use elf_file::write;
use front_end::{Analysis, Refusal, front, front_by};
use llp_tables::Tables;
use par_passes::Passes;
use simulation::source_behaves;

/// What is made of a source.
#[derive(Drop)]
pub(crate) struct Compiled {
    /// The executable file.
    pub(crate) file: Vec<u8>,
    /// How many tokens the source has.
    pub(crate) tokens: usize,
}

// The file of a source whose front has no diagnostic.
fn finished(
    crew: &impl Passes,
    source: &[u8],
    analysis: Analysis,
    fold: bool,
) -> Result<Compiled, Refusal>
    requires analyzed { (t : Tree Prog) × IsAnalysis source.now t analysis }
    ensures image { IfOk result (λ made. CompilesTo fold source.now made.file.items) }
    ensures tokens { IfOk result (λ made. made.tokens ≡ length (tokens source.now)) }
    ensures refused { IfErr result (IsRefusedBy fold source.now) }
{
    source_behaves();
    let tokens = analysis.tokens.len();
    let words = code(crew, source, analysis, fold)?;
    Ok(Compiled {
        file: write(crew.alloc(), &words)?,
        tokens,
    })
}

/// The executable file of a source and the number of its tokens, or why it has no file. With `fold`, constants are folded.
pub(crate) fn compile_counting(
    crew: &impl Passes,
    source: &[u8],
    fold: bool,
) -> Result<Compiled, Refusal>
    ensures image { IfOk result (λ made. CompilesTo fold source.now made.file.items) }
    ensures tokens { IfOk result (λ made. made.tokens ≡ length (tokens source.now)) }
    ensures refused { IfErr result (IsRefusedBy fold source.now) }
{
    let analysis = front(crew, source)?;
    finished(crew, source, analysis, fold)
}

/// The executable file of a source, or why it has none: its first diagnostic, or the limit that it passes. With `fold`, the program's
/// constants are folded once it has no diagnostic, so the limits are those of the folded program. The answer is the same for every
/// plan, gate and schedule, and the only other refusal is that memory is out.
pub fn compile(crew: &impl Passes, source: &[u8], fold: bool) -> Result<Vec<u8>, Refusal>
    // A file is the image of the program that the source is, and does on RV32IM what that program does.
    ensures image { IfOk result (λ file. CompilesTo fold source.now file.items) }
    // A refusal is what the definitions say of the source.
    ensures refused { IfErr result (IsRefusedBy fold source.now) }
{
    let made = compile_counting(crew, source, fold)?;
    Ok(made.file)
}

/// The same as [`compile`], by the language's parse tables, which one call of [`language_tables`](front_end::language_tables) makes for
/// many sources.
pub fn compile_by(
    crew: &impl Passes,
    tables: &Tables,
    source: &[u8],
    fold: bool,
) -> Result<Vec<u8>, Refusal>
    requires tables { AreTablesOf grammar tables.now }
    requires reduced { IsReduced grammar }
    ensures image { IfOk result (λ file. CompilesTo fold source.now file.items) }
    ensures refused { IfErr result (IsRefusedBy fold source.now) }
{
    let analysis = front_by(crew, tables, source)?;
    let made = finished(crew, source, analysis, fold)?;
    Ok(made.file)
}
