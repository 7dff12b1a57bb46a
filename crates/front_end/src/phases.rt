//! The phases of the front, each with what its fault says of the source.
ghost use Rattle.std.specs.Prelude.{◌≡◌, [], ◌≤◌, ◌<◌, ◌^◌, length, map, None, IfOk, IfErr};
ghost use Rattle.limits.specs.Limits.{most_source, most_rows};
ghost use Rattle.source_meaning.specs.Lexemes.{lexical_fault, tokens as tokens_of};
ghost use Rattle.source_meaning.specs.Grammar.{Tree, Prog, ast, grammar, leaves};
ghost use Rattle.source_meaning.specs.Scope.{scope_faults};
ghost use Rattle.source_meaning.specs.Shape.{shape_faults};
ghost use Rattle.source_meaning.specs.Typing.{type_faults, types};
ghost use Rattle.grammar_file.specs.Spelling.{IsReduced};
ghost use Rattle.llp_tables.specs.EntryTable.{AreTablesOf};
ghost use Rattle.tree_passes.specs.TreeColumns.{IsParseOf};
ghost use Rattle.front_end.specs.Front.{AreNamesOf, AreTokens, AreRows, IsRefused, TellsThat};

use crate::places::place;
use crate::refusal::Refusal;
use crate::words::word_of;
use ast_rows::{Names, Rows, Tokens, Types};
use grammar_file::spelled_grammars_are_well_formed;
use llp_glue::{ParseFault, parse};
use llp_tables::Tables;
use name_pass::{programs_are_formed, resolve};
use par_lexer::lex;
use par_passes::Passes;
use phase_faults::PhaseFault;
use source_meaning::{derivations_have_trees, grammar_is_spelled};
use tree_passes::rows;
use type_pass::check;
use verdict::{one_tree_of_text, syntax_errors_leave_no_tree};

/// The tokens of the source.
#[inline(never)]
pub fn lexed(crew: &impl Passes, source: &[u8]) -> Result<Tokens, Refusal>
    requires fits { length source.now ≤ most_source }
    ensures ok { IfOk result (λ t. AreTokens source.now t) }
    ensures refused { IfErr result (IsRefused source.now) }
    ensures faulty { IfErr result (TellsThat (¬ (lexical_fault source.now ≡ None))) }
{
    match lex(crew, source) {
        Ok(tokens) => Ok(tokens),
        Err(PhaseFault::Diagnostic { code, at }) => Err(Refusal::Diagnostic { code, at }),
        Err(PhaseFault::NoMemory) => Err(Refusal::NoMemory),
    }
}

/// The left parse of the source's tokens.
#[inline(never)]
pub fn parsed(
    crew: &impl Passes,
    tables: &Tables,
    source: &[u8],
    tokens: &Tokens,
) -> Result<Vec<u16>, Refusal>
    requires tables { AreTablesOf grammar tables.now }
    requires reduced { IsReduced grammar }
    requires lexed { AreTokens source.now tokens.now }
    ensures ok { IfOk result (λ ps. (t : Tree Prog) × IsParseOf source.now ps.items t) }
    ensures refused { IfErr result (IsRefused source.now) }
    ensures faulty { IfErr result (TellsThat ((t : Tree Prog) → ¬ (leaves t ≡ tokens_of source.now))) }
{
    syntax_errors_leave_no_tree();
    derivations_have_trees();
    grammar_is_spelled();
    spelled_grammars_are_well_formed();
    let word = word_of(crew, tokens)?;
    match parse(crew, tables, word.as_slice()) {
        Ok(productions) => Ok(productions),
        Err(ParseFault::Syntax { at }) => Err(Refusal::Diagnostic {
            code: 201,
            at: place(source, tokens, at),
        }),
        Err(ParseFault::NoMemory) => Err(Refusal::NoMemory),
    }
}

/// The rows of the source's syntax tree.
#[inline(never)]
pub fn shaped(
    crew: &impl Passes,
    source: &[u8],
    tokens: &Tokens,
    productions: &[u16],
) -> Result<Rows, Refusal>
    requires lexed { AreTokens source.now tokens.now }
    requires parsed { (t : Tree Prog) × IsParseOf source.now productions.now t }
    ensures ok { IfOk result (λ v. (t : Tree Prog) × AreRows source.now v t) }
    ensures refused { IfErr result (IsRefused source.now) }
    ensures faulty { IfErr result (TellsThat ((t : Tree Prog) → leaves t ≡ tokens_of source.now → ¬ (shape_faults (ast t) ≡ []))) }
{
    one_tree_of_text();
    match rows(crew, source, tokens, productions) {
        Ok(rows) => Ok(rows),
        Err(PhaseFault::Diagnostic { code, at }) => Err(Refusal::Diagnostic {
            code,
            at: place(source, tokens, u64::from(at)),
        }),
        Err(PhaseFault::NoMemory) => Err(Refusal::NoMemory),
    }
}

/// What the source's names mean.
#[inline(never)]
pub fn named(
    crew: &impl Passes,
    source: &[u8],
    tokens: &Tokens,
    rows: &Rows,
) -> Result<Names, Refusal>
    requires lexed { AreTokens source.now tokens.now }
    requires few { length rows.now < 2 ^ 30 }
    ensures lens { IfOk result (λ n. (length n.meant ≡ length rows.now) × (length n.numbers ≡ length rows.now)) }
    ensures scoped { IfOk result (λ n. (t : Tree Prog) → AreRows source.now rows.now t → scope_faults (length (tokens_of source.now)) (ast t) ≡ []) }
    ensures names { IfOk result (λ n. (t : Tree Prog) → AreRows source.now rows.now t → AreNamesOf n (ast t)) }
    ensures refused { (t : Tree Prog) → AreRows source.now rows.now t → IfErr result (IsRefused source.now) }
    ensures faulty { (t : Tree Prog) → AreRows source.now rows.now t → IfErr result (TellsThat (¬ (scope_faults (length (tokens_of source.now)) (ast t) ≡ []))) }
{
    programs_are_formed();
    match resolve(crew, source, tokens, rows) {
        Ok(names) => Ok(names),
        Err(PhaseFault::Diagnostic { code, at }) => Err(Refusal::Diagnostic {
            code,
            at: place(source, tokens, u64::from(at)),
        }),
        Err(PhaseFault::NoMemory) => Err(Refusal::NoMemory),
    }
}

/// The types of the source's expressions.
#[inline(never)]
pub fn typed(
    crew: &impl Passes,
    source: &[u8],
    tokens: &Tokens,
    rows: &Rows,
    names: &Names,
) -> Result<Types, Refusal>
    requires lexed { AreTokens source.now tokens.now }
    requires few { length rows.now ≤ most_rows }
    ensures typed { IfOk result (λ v. (t : Tree Prog) → AreRows source.now rows.now t → AreNamesOf names.now (ast t) → type_faults (ast t) ≡ []) }
    ensures types { IfOk result (λ v. (t : Tree Prog) → AreRows source.now rows.now t → AreNamesOf names.now (ast t) → v ≡ types (ast t)) }
    ensures refused { (t : Tree Prog) → AreRows source.now rows.now t → scope_faults (length (tokens_of source.now)) (ast t) ≡ [] → AreNamesOf names.now (ast t)
        → IfErr result (IsRefused source.now) }
    ensures faulty { (t : Tree Prog) → AreRows source.now rows.now t → scope_faults (length (tokens_of source.now)) (ast t) ≡ [] → AreNamesOf names.now (ast t)
        → IfErr result (TellsThat (¬ (type_faults (ast t) ≡ []))) }
{
    match check(crew, rows, names) {
        Ok(types) => Ok(types),
        Err(PhaseFault::Diagnostic { code, at }) => Err(Refusal::Diagnostic {
            code,
            at: place(source, tokens, u64::from(at)),
        }),
        Err(PhaseFault::NoMemory) => Err(Refusal::NoMemory),
    }
}
