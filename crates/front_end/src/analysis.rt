//! What is known of a source before its code is made.
ghost use Rattle.std.specs.Prelude.{◌<◌, ◌≤◌, length, IfOk, IfErr, OnErr, OnOk};
ghost use Rattle.limits.specs.Limits.{most_source};
ghost use Rattle.grammar_file.specs.Spelling.{IsReduced};
ghost use Rattle.llp_tables.specs.EntryTable.{AreTablesOf};
ghost use Rattle.source_meaning.specs.Grammar.{Tree, Prog, grammar};
ghost use Rattle.front_end.specs.Front.{AreTokens, AreRows, IsAnalysis, IsRefused};

use crate::phases::{lexed, named, parsed, shaped, typed};
use crate::refusal::Refusal;
use crate::tables::language_tables;
use ast_rows::{Names, Rows, Tokens, Types};
use limits::MOST_SOURCE;
use llp_tables::Tables;
use par_passes::Passes;
use row_laws::rows_are_few;
use std::alloc::AllocError;
use std::thread::join;

/// What is known of a source before its code is made.
#[derive(Drop)]
pub struct Analysis {
    /// Its tokens.
    pub tokens: Tokens,
    /// The nodes of its syntax tree, in postorder.
    pub rows: Rows,
    /// What its names mean.
    pub names: Names,
    /// The types of its expressions.
    pub types: Types,
}

// The rows of the source's syntax tree. Its left parse, which is longer, ends here.
fn tree(
    crew: &impl Passes,
    tables: &Tables,
    source: &[u8],
    tokens: &Tokens,
) -> Result<Rows, Refusal>
    requires tables { AreTablesOf grammar tables.now }
    requires reduced { IsReduced grammar }
    requires lexed { AreTokens source.now tokens.now }
    ensures ok { IfOk result (λ v. (t : Tree Prog) × AreRows source.now v t) }
    ensures refused { IfErr result (IsRefused source.now) }
{
    let productions = parsed(crew, tables, source, tokens)?;
    shaped(crew, source, tokens, &productions)
}

// The phases behind the rows.
fn meant(crew: &impl Passes, source: &[u8], tokens: Tokens, rows: Rows) -> Result<Analysis, Refusal>
    requires lexed { AreTokens source.now tokens }
    requires shaped { (t : Tree Prog) × AreRows source.now rows t }
    ensures ok { IfOk result (λ f. (t : Tree Prog) × IsAnalysis source.now t f) }
    ensures refused { IfErr result (IsRefused source.now) }
{
    rows_are_few();
    let names = named(crew, source, &tokens, &rows)?;
    let types = typed(crew, source, &tokens, &rows, &names)?;
    Ok(Analysis {
        tokens,
        rows,
        names,
        types,
    })
}

// The parse tables of the language, made in one thread, and the tokens of the source, in another one.
fn tables_beside_tokens<C: Passes>(crew: &C, source: &[u8]) -> Result<(Tables, Tokens), Refusal>
    requires fits { length source.now ≤ most_source }
    ensures ok { IfOk result (λ b. AreTablesOf grammar b.0 × IsReduced grammar × AreTokens source.now b.1) }
    ensures refused { IfErr result (IsRefused source.now) }
{
    let alloc = crew.alloc();
    let (tokens, tables) = join(
        crew.runtime(),
        move || -> Result<Tokens, Refusal>
            requires { length source.now ≤ most_source }
            ensures ok { IfOk result (λ t. AreTokens source.entry.now t) }
            ensures refused { IfErr result (IsRefused source.entry.now) }
        { lexed(crew, source) },
        move || -> Result<Tables, AllocError>
            ensures { IfOk result (λ t. AreTablesOf grammar t × IsReduced grammar) }
        { language_tables(alloc) },
    );
    Ok((tables?, tokens?))
}

// The parse tables of the language and the tokens of the source, one after the other where there is one worker.
fn tables_and_tokens<C: Passes>(crew: &C, source: &[u8]) -> Result<(Tables, Tokens), Refusal>
    requires fits { length source.now ≤ most_source }
    ensures ok { IfOk result (λ b. AreTablesOf grammar b.0 × IsReduced grammar × AreTokens source.now b.1) }
    ensures refused { IfErr result (IsRefused source.now) }
{
    if crew.plan().workers > 1 {
        return tables_beside_tokens(crew, source);
    }
    let tables = language_tables(crew.alloc())?;
    let tokens = lexed(crew, source)?;
    Ok((tables, tokens))
}

// The phases behind the tokens.
fn behind_tokens(
    crew: &impl Passes,
    tables: &Tables,
    source: &[u8],
    tokens: Tokens,
) -> Result<Analysis, Refusal>
    requires tables { AreTablesOf grammar tables.now }
    requires reduced { IsReduced grammar }
    requires lexed { AreTokens source.now tokens }
    ensures ok { IfOk result (λ f. (t : Tree Prog) × IsAnalysis source.now t f) }
    ensures refused { IfErr result (IsRefused source.now) }
{
    let rows = tree(crew, tables, source, &tokens)?;
    meant(crew, source, tokens, rows)
}

/// The limit of a source's bytes.
pub fn check_size(source: &[u8]) -> Result<(), Refusal>
    ensures fits { OnOk result (length source.now ≤ most_source) }
    ensures refused { IfErr result (IsRefused source.now) }
    ensures large { OnErr result (most_source < length source.now) }
{
    if source.len() > MOST_SOURCE {
        return Err(Refusal::Limit {
            code: 601,
            at: MOST_SOURCE as u32,
            bytes: source.len() as u64,
        });
    }
    Ok(())
}

/// The tokens, rows, names and types of a source that has no diagnostic of the phases up to types; or its first diagnostic, where it has
/// one, or the limit of a source's bytes. They are the same for every plan and gate. The only other refusal is that memory is out.
pub fn front(crew: &impl Passes, source: &[u8]) -> Result<Analysis, Refusal>
    ensures ok { IfOk result (λ f. (t : Tree Prog) × IsAnalysis source.now t f) }
    ensures refused { IfErr result (IsRefused source.now) }
{
    check_size(source)?;
    let (tables, tokens) = tables_and_tokens(crew, source)?;
    behind_tokens(crew, &tables, source, tokens)
}

/// The same as [`front`], by the language's parse tables, which one call of [`language_tables`] makes for many sources.
pub fn front_by(crew: &impl Passes, tables: &Tables, source: &[u8]) -> Result<Analysis, Refusal>
    requires tables { AreTablesOf grammar tables.now }
    requires reduced { IsReduced grammar }
    ensures ok { IfOk result (λ f. (t : Tree Prog) × IsAnalysis source.now t f) }
    ensures refused { IfErr result (IsRefused source.now) }
{
    check_size(source)?;
    let tokens = lexed(crew, source)?;
    behind_tokens(crew, tables, source, tokens)
}
