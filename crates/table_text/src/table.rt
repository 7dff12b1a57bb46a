// What is told of a grammar file, and of a word.

ghost use Rattle.std.specs.Prelude.{◌≡◌, ◌≢◌, ◌++◌, List, ℕ, true, false, IfErr, IfOk, Some, None, option_map};
ghost use Rattle.grammar_file.specs.Grammar.{IsWellFormed};
ghost use Rattle.grammar_file.specs.Spelling.{IsReduced};
ghost use Rattle.grammar_file.specs.declared.file.GrammarFault.TheVariants.{NoMemory as NoMemoryToRead};
ghost use Rattle.table_text.specs.Answers.{IsGrammarAnswer, IsTableAnswer};
ghost use Rattle.table_text.specs.ByLookback.{AreSetsOf, IsUntabled};
ghost use Rattle.table_text.specs.Lines.{parse_line};
ghost use Rattle.table_text.specs.Listed.{IsHead};
ghost use Rattle.table_text.specs.Outlines.{AreOutlines};
ghost use Rattle.table_text.specs.declared.answer.TableAnswer.TheVariants.{Tabled};

use crate::answer::{TableAnswer, Text};
use crate::entries::push_entries;
use crate::lines::{push_parse, sizes};
use crate::lookback::{Sets, Untabled};
use crate::outlines::Outlines;
use crate::tokens::tokens_of;
use glue_summary::ParseFault;
use grammar_file::{Grammar, GrammarFault, spelled_grammars_are_well_formed};
use par_passes::Passes;
use std::alloc::{AllocError, Global};

fn ran_out_reading(fault: &GrammarFault) -> bool
    ensures yes { result ≡ true → fault.now ≡ NoMemoryToRead }
    ensures no_other { result ≡ false → fault.now ≢ NoMemoryToRead }
{
    matches!(fault, GrammarFault::NoMemory)
}

// The sizes of a grammar and of its tables, and the lines of all entries.
fn listed(alloc: Global, grammar: &Grammar, outlines: &Outlines) -> Result<Vec<u8>, AllocError>
    requires outlines { AreOutlines grammar.now outlines.now }
    requires formed { IsWellFormed grammar.now }
    ensures { IfOk result (λ text. IsHead grammar.now true text.items) }
{
    let mut text = sizes(alloc, grammar, outlines.sets.entries())?;
    push_entries(alloc, grammar, outlines, &mut text)?;
    Ok(text)
}

// The sizes alone.
fn sized(alloc: Global, grammar: &Grammar, sets: &Sets) -> Result<Vec<u8>, AllocError>
    requires { AreSetsOf grammar.now sets.now }
    ensures { IfOk result (λ text. IsHead grammar.now false text.items) }
{
    sizes(alloc, grammar, sets.entries())
}

// The sizes, and the lines of all entries where they are asked for.
fn head_of(
    alloc: Global,
    grammar: &Grammar,
    outlines: &Outlines,
    entries: bool,
) -> Result<Vec<u8>, AllocError>
    requires outlines { AreOutlines grammar.now outlines.now }
    requires formed { IsWellFormed grammar.now }
    ensures { IfOk result (λ text. IsHead grammar.now entries text.items) }
{
    if entries {
        listed(alloc, grammar, outlines)
    } else {
        sized(alloc, grammar, &outlines.sets)
    }
}

// The same by the sets: without entries these are enough.
fn head_by(
    alloc: Global,
    grammar: &Grammar,
    sets: Sets,
    entries: bool,
) -> Result<Vec<u8>, AllocError>
    requires sets { AreSetsOf grammar.now sets }
    requires formed { IsWellFormed grammar.now }
    ensures { IfOk result (λ text. IsHead grammar.now entries text.items) }
{
    if entries {
        let outlines = Outlines::of(alloc, grammar, sets)?;
        listed(alloc, grammar, &outlines)
    } else {
        sized(alloc, grammar, &sets)
    }
}

// What comes before a parse, and the parse.
fn parsed(
    alloc: Global,
    grammar: &Grammar,
    outlines: &Outlines,
    productions: &[u16],
    entries: bool,
) -> Result<TableAnswer, AllocError>
    requires outlines { AreOutlines grammar.now outlines.now }
    requires formed { IsWellFormed grammar.now }
    ensures { IfOk result (λ answer. (head : List ℕ) × IsHead grammar.now entries head × (answer ≡ Tabled (head ++ parse_line productions.now))) }
{
    let mut text = head_of(alloc, grammar, outlines, entries)?;
    push_parse(alloc, &mut text, productions)?;
    Ok(TableAnswer::Tabled(Text::new(text)))
}

// What is told of a word.
fn of_word(
    crew: &impl Passes,
    grammar: &Grammar,
    word: &[u8],
    entries: bool,
) -> Result<TableAnswer, Untabled>
    requires formed { IsWellFormed grammar.now }
    requires reduced { IsReduced grammar.now }
    ensures answer { IfOk result (IsGrammarAnswer grammar.now entries (Some word.now)) }
    ensures untabled { IfErr result (IsUntabled grammar.now) }
{
    let alloc = crew.alloc();
    let sets = Sets::of(alloc, grammar)?;
    let outlines = Outlines::of(alloc, grammar, sets)?;
    let tokens = tokens_of(alloc, grammar, word)?;
    match outlines.parse(crew, grammar, tokens.as_slice()) {
        Ok(productions) => Ok(parsed(alloc, grammar, &outlines, productions.as_slice(), entries)?),
        Err(ParseFault::Syntax { at }) => Ok(TableAnswer::Syntax { at }),
        Err(ParseFault::NoMemory) => Err(Untabled::NoMemory),
    }
}

/// What is told of a grammar alone. No piece is made where no entries are asked for, since only the sets are counted.
pub(crate) fn of_grammar(
    alloc: Global,
    grammar: &Grammar,
    entries: bool,
) -> Result<TableAnswer, Untabled>
    requires { IsWellFormed grammar.now }
    ensures answer { IfOk result (IsGrammarAnswer grammar.now entries None) }
    ensures untabled { IfErr result (IsUntabled grammar.now) }
{
    let sets = Sets::of(alloc, grammar)?;
    let text = head_by(alloc, grammar, sets, entries)?;
    Ok(TableAnswer::Tabled(Text::new(text)))
}

// What is told of a grammar, and of a word.
fn told(
    crew: &impl Passes,
    grammar: &Grammar,
    word: Option<&[u8]>,
    entries: bool,
) -> Result<TableAnswer, Untabled>
    requires formed { IsWellFormed grammar.now }
    requires reduced { IsReduced grammar.now }
    ensures answer { IfOk result (IsGrammarAnswer grammar.now entries (option_map (λ w. w.now) word.entry)) }
    ensures untabled { IfErr result (IsUntabled grammar.now) }
{
    match word {
        Some(word) => of_word(crew, grammar, word, entries),
        None => of_grammar(crew.alloc(), grammar, entries),
    }
}

// The same, with a conflict as an answer.
fn answered(
    crew: &impl Passes,
    grammar: &Grammar,
    word: Option<&[u8]>,
    entries: bool,
) -> Result<TableAnswer, AllocError>
    requires formed { IsWellFormed grammar.now }
    requires reduced { IsReduced grammar.now }
    ensures { IfOk result (λ answer. IsGrammarAnswer grammar.now entries (option_map (λ w. w.now) word.entry) answer) }
{
    match told(crew, grammar, word, entries) {
        Ok(answer) => Ok(answer),
        Err(Untabled::Conflict(line)) => Ok(TableAnswer::Conflict(line)),
        Err(Untabled::NoMemory) => Err(AllocError),
    }
}

/// The sizes of the grammar that a file spells and of its tables, the lines of all entries where they are asked for, and the left parse of a
/// word by its spelling, or why there are none.
///
/// The tables are those of the file's lookback. The names of a word are parted by spaces and tabs; a name of no terminal is in no
/// sentence. Pieces of entries are made whole, one at a time; without `entries` none is made but those of the
/// word. The answer doesn't depend on the crew.
pub fn table_answer(
    crew: &impl Passes,
    file: &[u8],
    word: Option<&[u8]>,
    entries: bool,
) -> Result<TableAnswer, AllocError>
    ensures { IfOk result (λ answer. IsTableAnswer file.now entries (option_map (λ w. w.now) word.entry) answer) }
{
    spelled_grammars_are_well_formed();
    match Grammar::read(crew.alloc(), file) {
        Ok(grammar) => answered(crew, &grammar, word, entries),
        Err(fault) if ran_out_reading(&fault) => Err(AllocError),
        Err(fault) => {
            let line = format!(in crew.alloc(); "{fault}")?;
            Ok(TableAnswer::NoGrammar(Text::new(line.into_bytes())))
        }
    }
}
