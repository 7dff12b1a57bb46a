// What the passes of the compiler make of a source, as tables of text and as a page. What makes the arrays of a pass has a stack frame of its own, so that
// those of other passes don't lie on the stack beside it.

ghost use Rattle.std.specs.Prelude.{◌≡◌, ◌≢◌, ◌++◌, ◌∷◌, ◌≤◌, [], ℕ, List, Option, false, codes, flat_map, length, map, IfErr, IfOk, OnOk};
ghost use Rattle.command_line.specs.declared.command.Pass.{Pass as AnyPass};
ghost use Rattle.command_line.specs.declared.command.Pass.TheVariants as passes;
ghost use Rattle.back_end.specs.Coded.{AreFrames};
ghost use Rattle.front_end.specs.Front.{AreNamesOf, AreRows, AreTokens, IsAnalysis, IsChecked};
ghost use Rattle.grammar_file.specs.SyntaxPlace.{ended};
ghost use Rattle.limits.specs.Limits.{most_rows};
ghost use Rattle.llp_tables.specs.Tables.{AreTables, Entry};
ghost use Rattle.par_lexer.specs.Table.{lexer};
ghost use Rattle.pass_page.specs.Page.{closing, opening, source_box, table_box, tree_box};
ghost use Rattle.pass_tables.specs.Tables.{code_columns, frame_columns, function_names, pair_columns, parse_columns, place_columns, state_columns};
ghost use Rattle.rv_code.specs.Code.{most_long};
ghost use Rattle.source_meaning.specs.Ast.{Program};
ghost use Rattle.source_meaning.specs.Grammar.{Tree, Prog, ast, grammar, leaves, left_parse, number_of, terminal_number};
ghost use Rattle.source_meaning.specs.Lexemes.{tokens as tokens_in};
ghost use Rattle.text_columns.specs.Columns.{Column as AnyColumn, table_text};
ghost use Rattle.verdict.specs.Verdict.{Accepted, IsVerdict};
ghost use Rattle.pass_views.specs.Shown.{AllArrays, AreAllArrays, Arrays, IsLexed, IsPage, IsParsed, IsScoped, IsShaped, Shows, all_tables, apart, headed, named_arrays};
ghost use Rattle.pass_views.specs.Stopped.{AreNone, IsUnpaged, IsUnshown, Stops, arrays_of};

use ast_rows::{Names, Rows, Tokens};
use back_end::{Framed, LaidOut, frames_or_limit, laid_out, parts};
use command_line::Pass;
use front_end::{
    Analysis, Refusal, check_size, front, language_grammar, language_tables, lexed,
    limits_come_last, named, parsed, shaped, terminal_number, typed,
};
use name_pass::names_are_bindings;
use par_lexer::automaton;
use par_passes::Passes;
use pass_page::{push_closing, push_opening, push_source_box, push_table_box, push_tree_box};
use pass_tables::{
    code_columns, frame_columns, name_columns, pair_columns, parse_columns, place_columns,
    row_columns, state_columns, table, token_columns, type_columns,
};
use row_laws::rows_are_few;
use row_rules::shaped_is_named;
use rv_regs::{Frames, depths};
use source_meaning::Terminal;
use std::alloc::{AllocError, Global};
use text_columns::{Column, push_table};
use verdict::{one_tree_of_text, one_verdict};

// The tokens of the source.
fn tokens_of(crew: &impl Passes, source: &[u8]) -> Result<Tokens, Refusal>
    ensures ok { IfOk result (λ tokens. AreTokens source.now tokens) }
    ensures stopped { IfErr result (Stops (¬ IsLexed source.now) source.now) }
{
    check_size(source)?;
    lexed(crew, source)
}

// Its tokens and their left parse.
fn parse_of(crew: &impl Passes, source: &[u8]) -> Result<(Tokens, Vec<u16>), Refusal>
    ensures lexed { IfOk result (λ found. AreTokens source.now found.0) }
    ensures parsed { IfOk result (λ found. (t : Tree Prog) × (leaves t ≡ tokens_in source.now) × (map number_of (left_parse t) ≡ found.1.items)) }
    ensures tabled { IfOk result (λ _. (entry : ℕ → ℕ → Option Entry) × AreTables grammar entry) }
    ensures stopped { IfErr result (Stops ((t : Tree Prog) → ¬ IsParsed source.now t) source.now) }
{
    let tokens = tokens_of(crew, source)?;
    let tables = language_tables(crew.alloc())?;
    let productions = parsed(crew, &tables, source, &tokens)?;
    Ok((tokens, productions))
}

// Its tokens and the rows of its syntax tree.
fn rows_of(crew: &impl Passes, source: &[u8]) -> Result<(Tokens, Rows), Refusal>
    ensures lexed { IfOk result (λ found. AreTokens source.now found.0) }
    ensures shaped { IfOk result (λ found. (t : Tree Prog) × AreRows source.now found.1 t) }
    ensures stopped { IfErr result (Stops ((t : Tree Prog) → ¬ IsShaped source.now t) source.now) }
{
    let (tokens, productions) = parse_of(crew, source)?;
    let rows = shaped(crew, source, &tokens, &productions)?;
    Ok((tokens, rows))
}

// The rows of its syntax tree, and what its names mean.
fn names_of(crew: &impl Passes, source: &[u8]) -> Result<(Rows, Names), Refusal>
    ensures scoped { IfOk result (λ found. (t : Tree Prog) × IsScoped source.now t × AreRows source.now found.0 t × AreNamesOf found.1 (ast t)) }
    ensures few { IfOk result (λ found. length found.0 ≤ most_rows) }
    ensures stopped { IfErr result (Stops ((t : Tree Prog) → ¬ IsScoped source.now t) source.now) }
{
    rows_are_few();
    one_tree_of_text();
    let (tokens, rows) = rows_of(crew, source)?;
    let names = named(crew, source, &tokens, &rows)?;
    Ok((rows, names))
}

// ---- the arrays of one pass

// The arrays of the states of the lexer's automaton.
fn arrays_of_states(alloc: Global, source: &[u8]) -> Result<Vec<Column>, AllocError>
    ensures { IfOk result (λ columns. columns.items ≡ state_columns lexer source.now) }
{
    let automaton = automaton(alloc)?;
    state_columns(alloc, &automaton, source)
}

// The same of a source that isn't too large.
#[inline(never)]
fn state_arrays(crew: &impl Passes, source: &[u8]) -> Result<Vec<Column>, Refusal>
    ensures shown { IfOk result (λ columns. Arrays source.now passes.States columns.items) }
    ensures stopped { IfErr result (AreNone source.now passes.States) }
{
    check_size(source)?;
    Ok(arrays_of_states(crew.alloc(), source)?)
}

// The arrays of the tokens.
#[inline(never)]
fn token_arrays(crew: &impl Passes, source: &[u8]) -> Result<Vec<Column>, Refusal>
    ensures shown { IfOk result (λ columns. Arrays source.now passes.Tokens columns.items) }
    ensures stopped { IfErr result (AreNone source.now passes.Tokens) }
{
    let tokens = tokens_of(crew, source)?;
    Ok(token_columns(crew.alloc(), source, &tokens)?)
}

// The numbers of terminals, and behind them that of the mark behind a text.
fn numbers_ended(alloc: Global, kinds: &[Terminal], end: u16) -> Result<Vec<u16>, AllocError>
    ensures { IfOk result (λ v. v.items ≡ map terminal_number kinds.now ++ end ∷ []) }
{
    let mut numbers = Vec::with_capacity(alloc, kinds.len() + 1)?;
    for kind in kinds {
        numbers.push(terminal_number(*kind))?;
    }
    numbers.push(end)?;
    Ok(numbers)
}

// The arrays of the pairs of a word of terminals, by the language's parse table.
fn arrays_of_pairs(alloc: Global, kinds: &[Terminal]) -> Result<Vec<Column>, AllocError>
    ensures { IfOk result (λ columns. (entry : ℕ → ℕ → Option Entry) × AreTables grammar entry
        × (columns.items ≡ pair_columns grammar entry (ended grammar (map terminal_number kinds.now)))) }
{
    let grammar = language_grammar(alloc)?;
    let tables = language_tables(alloc)?;
    let word = numbers_ended(alloc, kinds, tables.width().saturating_sub(1))?;
    pair_columns(alloc, &grammar, &tables, &word)
}

// The arrays of the pairs.
#[inline(never)]
fn pair_arrays(crew: &impl Passes, source: &[u8]) -> Result<Vec<Column>, Refusal>
    ensures shown { IfOk result (λ columns. Arrays source.now passes.Pairs columns.items) }
    ensures stopped { IfErr result (AreNone source.now passes.Pairs) }
{
    let (tokens, _) = parse_of(crew, source)?;
    Ok(arrays_of_pairs(crew.alloc(), tokens.kinds())?)
}

// The arrays of a left parse by the language's grammar.
fn production_arrays(alloc: Global, productions: &[u16]) -> Result<Vec<Column>, AllocError>
    ensures { IfOk result (λ columns. columns.items ≡ parse_columns grammar productions.now) }
{
    let grammar = language_grammar(alloc)?;
    parse_columns(alloc, &grammar, productions)
}

// The arrays of the left parse.
#[inline(never)]
fn parse_arrays(crew: &impl Passes, source: &[u8]) -> Result<Vec<Column>, Refusal>
    ensures shown { IfOk result (λ columns. Arrays source.now passes.Parse columns.items) }
    ensures stopped { IfErr result (AreNone source.now passes.Parse) }
{
    let (_, productions) = parse_of(crew, source)?;
    Ok(production_arrays(crew.alloc(), &productions)?)
}

// The arrays of the rows.
#[inline(never)]
fn row_arrays(crew: &impl Passes, source: &[u8]) -> Result<Vec<Column>, Refusal>
    ensures shown { IfOk result (λ columns. Arrays source.now passes.Rows columns.items) }
    ensures stopped { IfErr result (AreNone source.now passes.Rows) }
{
    let (tokens, rows) = rows_of(crew, source)?;
    Ok(row_columns(crew.alloc(), source, &tokens, &rows)?)
}

// The arrays of the names.
#[inline(never)]
fn name_arrays(crew: &impl Passes, source: &[u8]) -> Result<Vec<Column>, Refusal>
    ensures shown { IfOk result (λ columns. Arrays source.now passes.Names columns.items) }
    ensures stopped { IfErr result (AreNone source.now passes.Names) }
{
    names_are_bindings();
    shaped_is_named();
    let (rows, names) = names_of(crew, source)?;
    Ok(name_columns(crew.alloc(), &rows, &names)?)
}

// The arrays of the types.
#[inline(never)]
fn type_arrays(crew: &impl Passes, source: &[u8]) -> Result<Vec<Column>, Refusal>
    ensures shown { IfOk result (λ columns. Arrays source.now passes.Types columns.items) }
    ensures stopped { IfErr result (AreNone source.now passes.Types) }
{
    one_verdict();
    limits_come_last();
    let analysis = front(crew, source)?;
    Ok(type_columns(crew.alloc(), &analysis.rows, &analysis.types)?)
}

// The frames of the functions of a source without a fault, or the limit that one of them passes.
fn frames_of(crew: &impl Passes, source: &[u8], analysis: &Analysis) -> Result<Frames, Refusal>
    requires analyzed { (t : Tree Prog) × IsAnalysis source.now t analysis.now }
    ensures ok { IfOk result (λ f. (t : Tree Prog) × IsAnalysis source.now t analysis.now × AreFrames (ast t) f) }
    ensures stopped { IfErr result (AreNone source.now passes.Frames) }
{
    one_tree_of_text();
    rows_are_few();
    let depths = depths(crew, &analysis.rows)?;
    frames_or_limit(crew, source, &analysis.tokens, &analysis.rows, &depths)
}

// The arrays of the frames.
#[inline(never)]
fn frame_arrays(crew: &impl Passes, source: &[u8]) -> Result<Vec<Column>, Refusal>
    ensures shown { IfOk result (λ columns. Arrays source.now passes.Frames columns.items) }
    ensures stopped { IfErr result (AreNone source.now passes.Frames) }
{
    one_verdict();
    limits_come_last();
    let analysis = front(crew, source)?;
    let frames = frames_of(crew, source, &analysis)?;
    Ok(frame_columns(
        crew.alloc(),
        source,
        &analysis.tokens,
        &analysis.rows,
        &frames,
    )?)
}

// The arrays of the passes that make the code.
#[derive(Drop)]
struct CodeArrays {
    frames: Vec<Column>,
    places: Vec<Column>,
    code: Vec<Column>,
}

// These arrays, of a program and its code.
fn columns_of_code(
    alloc: Global,
    source: &[u8],
    tokens: &Tokens,
    program: &Framed,
    laid: &LaidOut,
) -> Result<CodeArrays, AllocError>
    requires few { length laid.now.words.items ≤ most_long }
    ensures frames { IfOk result (λ arrays. arrays.frames.items ≡ frame_columns (function_names source.now tokens.now program.now.rows) program.now.frames) }
    ensures places { IfOk result (λ arrays. arrays.places.items ≡ place_columns program.now.rows program.now.depths.items laid.now.sizes.items laid.now.places.items) }
    ensures code { IfOk result (λ arrays. arrays.code.items ≡ code_columns laid.now.words.items) }
{
    Ok(CodeArrays {
        frames: frame_columns(alloc, source, tokens, &program.rows, &program.frames)?,
        places: place_columns(
            alloc,
            &program.rows,
            &program.depths,
            &laid.sizes,
            &laid.places,
        )?,
        code: code_columns(alloc, &laid.words)?,
    })
}

// These arrays, of a source without a fault.
#[inline(never)]
fn arrays_of_code(
    crew: &impl Passes,
    source: &[u8],
    analysis: Analysis,
) -> Result<CodeArrays, Refusal>
    requires analyzed { (t : Tree Prog) × IsAnalysis source.now t analysis }
    ensures frames { IfOk result (λ arrays. Arrays source.now passes.Frames arrays.frames.items) }
    ensures places { IfOk result (λ arrays. Arrays source.now passes.Places arrays.places.items) }
    ensures code { IfOk result (λ arrays. Arrays source.now passes.Code arrays.code.items) }
    ensures stopped { IfErr result (Stops ((p : Program) → ¬ IsVerdict false source.now (Accepted p)) source.now) }
{
    one_verdict();
    rows_are_few();
    let (tokens, rows, names) = parts(analysis);
    let depths = depths(crew, &rows)?;
    let frames = frames_or_limit(crew, source, &tokens, &rows, &depths)?;
    let program = Framed {
        rows,
        names,
        depths,
        frames,
    };
    let laid = laid_out(crew, source, &program)?;
    Ok(columns_of_code(crew.alloc(), source, &tokens, &program, &laid)?)
}

// The arrays of the passes that make the code, of a source that has some.
fn coded(crew: &impl Passes, source: &[u8]) -> Result<CodeArrays, Refusal>
    ensures places { IfOk result (λ arrays. Arrays source.now passes.Places arrays.places.items) }
    ensures code { IfOk result (λ arrays. Arrays source.now passes.Code arrays.code.items) }
    ensures stopped { IfErr result (Stops ((p : Program) → ¬ IsVerdict false source.now (Accepted p)) source.now) }
{
    one_verdict();
    let analysis = front(crew, source)?;
    arrays_of_code(crew, source, analysis)
}

// The arrays of the places.
#[inline(never)]
fn place_arrays(crew: &impl Passes, source: &[u8]) -> Result<Vec<Column>, Refusal>
    ensures shown { IfOk result (λ columns. Arrays source.now passes.Places columns.items) }
    ensures stopped { IfErr result (AreNone source.now passes.Places) }
{
    let CodeArrays { places, .. } = coded(crew, source)?;
    Ok(places)
}

// The arrays of the code.
#[inline(never)]
fn code_arrays(crew: &impl Passes, source: &[u8]) -> Result<Vec<Column>, Refusal>
    ensures shown { IfOk result (λ columns. Arrays source.now passes.Code columns.items) }
    ensures stopped { IfErr result (AreNone source.now passes.Code) }
{
    let CodeArrays { code, .. } = coded(crew, source)?;
    Ok(code)
}

// ---- the arrays of all passes

// The arrays of the passes up to the rows of the syntax tree.
#[derive(Drop)]
struct SyntaxArrays {
    tokens: Vec<Column>,
    parse: Vec<Column>,
    rows: Vec<Column>,
}

// The arrays of the passes over the rows that find names and types.
#[derive(Drop)]
struct MeaningArrays {
    names: Vec<Column>,
    types: Vec<Column>,
}

// The arrays of the passes whose tables the page has.
#[derive(Drop)]
struct PageArrays {
    syntax: SyntaxArrays,
    meaning: MeaningArrays,
    code: CodeArrays,
}

// The arrays of what goes on within the first two phases: the states of the lexer's automaton, and what pairs of tokens tell the parser.
#[derive(Drop)]
struct InnerArrays {
    states: Vec<Column>,
    pairs: Vec<Column>,
}

// These arrays, of a source whose tokens have a parse tree.
#[inline(never)]
fn inner_arrays(alloc: Global, source: &[u8], tokens: &Tokens) -> Result<InnerArrays, AllocError>
    requires lexed { AreTokens source.now tokens.now }
    requires parsed { (t : Tree Prog) × (leaves t ≡ tokens_in source.now) }
    ensures states { IfOk result (λ arrays. Arrays source.now passes.States arrays.states.items) }
    ensures pairs { IfOk result (λ arrays. Arrays source.now passes.Pairs arrays.pairs.items) }
{
    Ok(InnerArrays {
        states: arrays_of_states(alloc, source)?,
        pairs: arrays_of_pairs(alloc, tokens.kinds())?,
    })
}

// The first arrays, with what the passes behind them take. The left parse ends here.
#[inline(never)]
fn arrays_to_rows(
    crew: &impl Passes,
    source: &[u8],
) -> Result<(Tokens, Rows, SyntaxArrays), Refusal>
    ensures lexed { IfOk result (λ found. AreTokens source.now found.0) }
    ensures shaped { IfOk result (λ found. (t : Tree Prog) × AreRows source.now found.1 t) }
    ensures tabled { IfOk result (λ _. (entry : ℕ → ℕ → Option Entry) × AreTables grammar entry) }
    ensures tokens { IfOk result (λ found. Arrays source.now passes.Tokens found.2.tokens.items) }
    ensures parse { IfOk result (λ found. Arrays source.now passes.Parse found.2.parse.items) }
    ensures rows { IfOk result (λ found. Arrays source.now passes.Rows found.2.rows.items) }
    ensures stopped { IfErr result (Stops ((t : Tree Prog) → ¬ IsShaped source.now t) source.now) }
{
    let (tokens, productions) = parse_of(crew, source)?;
    let rows = shaped(crew, source, &tokens, &productions)?;
    let arrays = SyntaxArrays {
        tokens: token_columns(crew.alloc(), source, &tokens)?,
        parse: production_arrays(crew.alloc(), &productions)?,
        rows: row_columns(crew.alloc(), source, &tokens, &rows)?,
    };
    Ok((tokens, rows, arrays))
}

// The arrays behind them, with all that is known of the source before its code is made.
#[inline(never)]
fn arrays_of_meaning(
    crew: &impl Passes,
    source: &[u8],
    tokens: Tokens,
    rows: Rows,
) -> Result<(Analysis, MeaningArrays), Refusal>
    requires lexed { AreTokens source.now tokens }
    requires shaped { (t : Tree Prog) × AreRows source.now rows t }
    ensures ok { IfOk result (λ found. (t : Tree Prog) × IsAnalysis source.now t found.0) }
    ensures names { IfOk result (λ found. Arrays source.now passes.Names found.1.names.items) }
    ensures types { IfOk result (λ found. Arrays source.now passes.Types found.1.types.items) }
    ensures stopped { IfErr result (Stops ((t : Tree Prog) → ¬ IsChecked source.now t) source.now) }
{
    rows_are_few();
    one_tree_of_text();
    names_are_bindings();
    shaped_is_named();
    let names = named(crew, source, &tokens, &rows)?;
    let types = typed(crew, source, &tokens, &rows, &names)?;
    let arrays = MeaningArrays {
        names: name_columns(crew.alloc(), &rows, &names)?,
        types: type_columns(crew.alloc(), &rows, &types)?,
    };
    let analysis = Analysis {
        tokens,
        rows,
        names,
        types,
    };
    Ok((analysis, arrays))
}

// The arrays whose tables the page has, by those up to the rows.
#[inline(never)]
fn page_arrays(
    crew: &impl Passes,
    source: &[u8],
    tokens: Tokens,
    rows: Rows,
    syntax: SyntaxArrays,
) -> Result<PageArrays, Refusal>
    requires lexed { AreTokens source.now tokens }
    requires shaped { (t : Tree Prog) × AreRows source.now rows t }
    requires tokens { Arrays source.now passes.Tokens syntax.tokens.items }
    requires parse { Arrays source.now passes.Parse syntax.parse.items }
    requires rows { Arrays source.now passes.Rows syntax.rows.items }
    ensures ok { IfOk result (λ arrays. (states pairs : List AnyColumn) → Arrays source.now passes.States states → Arrays source.now passes.Pairs pairs
        → AreAllArrays source.now (arrays_of states pairs arrays)) }
    ensures stopped { IfErr result (Stops ((all : AllArrays) → ¬ AreAllArrays source.now all) source.now) }
{
    let (analysis, meaning) = arrays_of_meaning(crew, source, tokens, rows)?;
    let code = arrays_of_code(crew, source, analysis)?;
    Ok(PageArrays {
        syntax,
        meaning,
        code,
    })
}

// ---- the tables

// Writes a table behind a line with its name.
fn push_headed(out: &mut Vec<u8>, name: &[u8], columns: &[Column]) -> Result<(), AllocError>
    ensures { OnOk result (out.new.items ≡ out.old.items ++ headed name.now columns.now) }
{
    out.extend_from_slice(name)?;
    out.push(b'\n')?;
    push_table(out, columns)
}

// The same behind an empty line.
fn push_apart(out: &mut Vec<u8>, name: &[u8], columns: &[Column]) -> Result<(), AllocError>
    ensures { OnOk result (out.new.items ≡ out.old.items ++ apart name.now columns.now) }
{
    out.push(b'\n')?;
    push_headed(out, name, columns)
}

// All tables, each behind a line with its pass's name.
fn joined(alloc: Global, inner: &InnerArrays, arrays: &PageArrays) -> Result<Vec<u8>, AllocError>
    ensures { IfOk result (λ text. text.items ≡ all_tables (arrays_of inner.now.states.items inner.now.pairs.items arrays.now)) }
{
    let mut out = Vec::new(alloc);
    push_headed(&mut out, b"states", &inner.states)?;
    push_apart(&mut out, b"tokens", &arrays.syntax.tokens)?;
    push_apart(&mut out, b"pairs", &inner.pairs)?;
    push_apart(&mut out, b"parse", &arrays.syntax.parse)?;
    push_apart(&mut out, b"rows", &arrays.syntax.rows)?;
    push_apart(&mut out, b"names", &arrays.meaning.names)?;
    push_apart(&mut out, b"types", &arrays.meaning.types)?;
    push_apart(&mut out, b"frames", &arrays.code.frames)?;
    push_apart(&mut out, b"places", &arrays.code.places)?;
    push_apart(&mut out, b"code", &arrays.code.code)?;
    Ok(out)
}

// The tables of all passes, in one run of them.
#[inline(never)]
fn all(crew: &impl Passes, source: &[u8]) -> Result<Vec<u8>, Refusal>
    ensures shown { IfOk result (λ text. Shows source.now passes.All text.items) }
    ensures stopped { IfErr result (IsUnshown source.now passes.All) }
{
    let (tokens, rows, syntax) = arrays_to_rows(crew, source)?;
    let inner = inner_arrays(crew.alloc(), source, &tokens)?;
    let arrays = page_arrays(crew, source, tokens, rows, syntax)?;
    Ok(joined(crew.alloc(), &inner, &arrays)?)
}

// The table of a pass's arrays.
fn tabled(alloc: Global, arrays: Result<Vec<Column>, Refusal>) -> Result<Vec<u8>, Refusal>
    ensures shown { (text : List ℕ) (pass : AnyPass) → IfOk arrays (λ columns. Arrays text pass columns.items) → IfOk result (λ table. Shows text pass table.items) }
    ensures stopped { (text : List ℕ) (pass : AnyPass) → pass ≢ passes.All → IfErr arrays (AreNone text pass) → IfErr result (IsUnshown text pass) }
{
    let columns = arrays?;
    Ok(table(alloc, &columns)?)
}

/// The text of a pass's table, or of the tables of all passes, for a source that reaches the pass; or why the source doesn't reach it, which is what the
/// compiler says of it. The only other refusal is that memory is out.
pub fn tables(crew: &impl Passes, source: &[u8], pass: Pass) -> Result<Vec<u8>, Refusal>
    ensures shown { IfOk result (λ text. Shows source.now pass text.items) }
    ensures stopped { IfErr result (IsUnshown source.now pass) }
{
    match pass {
        Pass::States => tabled(crew.alloc(), state_arrays(crew, source)),
        Pass::Tokens => tabled(crew.alloc(), token_arrays(crew, source)),
        Pass::Pairs => tabled(crew.alloc(), pair_arrays(crew, source)),
        Pass::Parse => tabled(crew.alloc(), parse_arrays(crew, source)),
        Pass::Rows => tabled(crew.alloc(), row_arrays(crew, source)),
        Pass::Names => tabled(crew.alloc(), name_arrays(crew, source)),
        Pass::Types => tabled(crew.alloc(), type_arrays(crew, source)),
        Pass::Frames => tabled(crew.alloc(), frame_arrays(crew, source)),
        Pass::Places => tabled(crew.alloc(), place_arrays(crew, source)),
        Pass::Code => tabled(crew.alloc(), code_arrays(crew, source)),
        Pass::All => all(crew, source),
    }
}

// ---- the page

// The page up to its tables: the source with its tokens, and the tree.
fn drawn(alloc: Global, source: &[u8], tokens: &Tokens, rows: &Rows) -> Result<Vec<u8>, AllocError>
    requires few { length rows.now ≤ most_rows }
    ensures { IfOk result (λ page. page.items ≡ opening ++ source_box source.now tokens.now ++ tree_box rows.now) }
{
    let mut page = Vec::new(alloc);
    push_opening(&mut page)?;
    push_source_box(&mut page, source, tokens)?;
    push_tree_box(alloc, &mut page, rows)?;
    Ok(page)
}

// Writes the tables of the page, and its end.
#[inline(never)]
fn push_tables(page: &mut Vec<u8>, arrays: &PageArrays) -> Result<(), AllocError>
    ensures { (states pairs : List AnyColumn) → OnOk result (page.new.items
        ≡ page.old.items ++ flat_map (λ t. table_box t.0 t.1) (named_arrays (arrays_of states pairs arrays.now)) ++ closing) }
{
    push_table_box(page, b"tokens", &arrays.syntax.tokens)?;
    push_table_box(page, b"parse", &arrays.syntax.parse)?;
    push_table_box(page, b"rows", &arrays.syntax.rows)?;
    push_table_box(page, b"names", &arrays.meaning.names)?;
    push_table_box(page, b"types", &arrays.meaning.types)?;
    push_table_box(page, b"frames", &arrays.code.frames)?;
    push_table_box(page, b"places", &arrays.code.places)?;
    push_table_box(page, b"code", &arrays.code.code)?;
    push_closing(page)
}

/// The page of the source, in HTML: the source with its tokens, the tree of its rows, and the tables of the passes. Or why the source has no page, which is what
/// the compiler says of it. The only other refusal is that memory is out.
#[inline(never)]
pub fn page(crew: &impl Passes, source: &[u8]) -> Result<Vec<u8>, Refusal>
    ensures paged { IfOk result (λ page. IsPage source.now page.items) }
    ensures stopped { IfErr result (IsUnpaged source.now) }
{
    rows_are_few();
    let (tokens, rows, syntax) = arrays_to_rows(crew, source)?;
    let mut page = drawn(crew.alloc(), source, &tokens, &rows)?;
    let arrays = page_arrays(crew, source, tokens, rows, syntax)?;
    push_tables(&mut page, &arrays)?;
    Ok(page)
}
