// From the words to what they ask for.

ghost use Rattle.std.specs.Prelude.{◌≡◌, Some, None, IfOk, map, string_bytes, codes, IfErr, option_and_then, option_map};
ghost use Rattle.clap.specs.Words.{first_of, found_of, rows_of, kind_of};
ghost use Rattle.command_line.specs.Ranges.{HasNumber, HasPlan, HasSteps, HasNumbers};
ghost use Rattle.command_line.specs.Words.{asked, asked_by, known, number_at, flag_at, pass_named, unknown_code, view_at, view_of};
ghost use Rattle.command_line.specs.Refused.{IsUsage};
ghost use Rattle.clap.specs.declared.error.kind.ErrorKind.TheVariants as ErrorKind;

use crate::command::{Command, Pass};
use crate::options::command;
use crate::request::Request;
use crate::word::Word;
use chunk_seats::Plan;
use clap::error::ErrorKind;
use clap::{ArgMatches, Error};
use diagnostic_texts::explanation_of;
use std::alloc::{AllocError, Global};

// The text that says that nothing is to be shown, as `clap` words it.
const NO_VIEW: &str =
    "error: the following required arguments were not provided:\n  --pass <PASS>\n\nUsage: pareas show --pass <PASS>\n\nFor more information, try '--help'.\n";

// The text that says that two things are to be shown, as `clap` words it.
const TWO_VIEWS: &str =
    "error: the argument '--html' cannot be used with '--pass <PASS>'\n\nUsage: pareas show --html\n\nFor more information, try '--help'.\n";

/// Why words ask for nothing.
#[derive(Debug, Drop)]
pub enum Refusal {
    /// The words aren't as the command wants them, or ask for help or the version: the text that tells it.
    Usage(String),
    /// Out of memory.
    NoMemory,
}

impl From<AllocError> for Refusal {
    ghost use Rattle.command_line.specs.declared.parser.Refusal.TheVariants.{NoMemory};

    ghost from_gives = { λ _ e. e ≡ NoMemory };

    fn from(_: AllocError) -> Self {
        Refusal::NoMemory
    }
}

// The number of an option, which lies in its range.
fn number(matches: &ArgMatches<'_>, name: &str) -> u32
    requires { HasNumber name.now 0 4294967295 (rows_of (found_of matches.now)) }
    ensures { result ≡ number_at name.now (rows_of (found_of matches.now)) }
{
    matches.get_str(name).unwrap().parse::<u32>().unwrap()
}

// Whether a flag was given. It is what `get_flag` gives, whose clauses leave out values that are no truth value.
fn flag(matches: &ArgMatches<'_>, name: &str) -> bool
    ensures { result ≡ flag_at name.now (rows_of (found_of matches.now)) }
{
    matches.get_one::<bool>(name).unwrap_or(false)
}

// How the work is shared out, by the options of a subcommand that has them.
fn plan(options: &ArgMatches<'_>) -> Plan
    requires { HasPlan (rows_of (found_of options.now)) }
    ensures workers { result.workers ≡ number_at (codes "workers") (rows_of (found_of options.now)) }
    ensures chunk { result.chunk ≡ number_at (codes "chunk") (rows_of (found_of options.now)) }
{
    Plan::new(number(options, "workers"), number(options, "chunk")).unwrap()
}

// One worker, for a command that has no options for sharing work.
fn alone() -> Plan
    ensures workers { result.workers ≡ 1 }
    ensures chunk { result.chunk ≡ 1 }
{
    Plan {
        workers: 1,
        chunk: 1,
    }
}

// The word that is to be parsed, where one is given.
fn word(alloc: Global, options: &ArgMatches<'_>) -> Result<Option<Word>, AllocError>
    ensures { IfOk result (λ word. word ≡ first_of (codes "word") (rows_of (found_of options.now))) }
{
    match options.get_str("word") {
        Some(text) => Ok(Some(Word::from_str(alloc, text)?)),
        None => Ok(None),
    }
}

// The pass that a word names.
fn pass_named(word: &str) -> Option<Pass>
    ensures { result ≡ pass_named word.now }
{
    match word {
        "states" => Some(Pass::States),
        "tokens" => Some(Pass::Tokens),
        "pairs" => Some(Pass::Pairs),
        "parse" => Some(Pass::Parse),
        "rows" => Some(Pass::Rows),
        "names" => Some(Pass::Names),
        "types" => Some(Pass::Types),
        "frames" => Some(Pass::Frames),
        "places" => Some(Pass::Places),
        "code" => Some(Pass::Code),
        "all" => Some(Pass::All),
        _ => None,
    }
}

// The pass that a word names, or what `clap` says of a value that isn't among the possible ones. Its own parser of such values holds a reference to
// them, which no definition can name.
fn pass(alloc: Global, word: &str) -> Result<Pass, Refusal>
    ensures named { IfOk result (λ pass. pass_named word.now ≡ Some pass) }
    ensures refused { IfErr result (λ refusal. IsUsage refusal → pass_named word.now ≡ None) }
{
    match pass_named(word) {
        Some(pass) => Ok(pass),
        None => Err(Refusal::Usage(format!(in alloc;
            "error: invalid value '{word}' for '--pass <PASS>'\n  [possible values: states, tokens, pairs, parse, rows, names, types, frames, places, code, all]\n\n\
            For more information, try '--help'.\n"
        )?)),
    }
}

// What is to be shown, or what `clap` says where not exactly one of the page and a pass is asked for. Its words for a command say nothing of options that
// exclude or replace each other.
fn view_of(alloc: Global, is_page: bool, word: Option<&str>) -> Result<Command, Refusal>
    ensures shown { IfOk result (λ view. view_of is_page (option_map (λ w. w.now) word.entry) ≡ Some view) }
    ensures refused { IfErr result (λ refusal. IsUsage refusal → view_of is_page (option_map (λ w. w.now) word.entry) ≡ None) }
{
    match (is_page, word) {
        (true, None) => Ok(Command::Page),
        (true, Some(_)) => Err(Refusal::Usage(String::from_str(alloc, TWO_VIEWS)?)),
        (false, Some(word)) => Ok(Command::Show {
            pass: pass(alloc, word)?,
        }),
        (false, None) => Err(Refusal::Usage(String::from_str(alloc, NO_VIEW)?)),
    }
}

// The same by the options.
fn view(alloc: Global, options: &ArgMatches<'_>) -> Result<Command, Refusal>
    ensures shown { IfOk result (λ view. view_at (rows_of (found_of options.now)) ≡ Some view) }
    ensures refused { IfErr result (λ refusal. IsUsage refusal → view_at (rows_of (found_of options.now)) ≡ None) }
{
    view_of(alloc, flag(options, "html"), options.get_str("pass"))
}

// What a subcommand asks for.
fn request(alloc: Global, name: &str, options: &ArgMatches<'_>) -> Result<Request, Refusal>
    requires { HasNumbers (rows_of (found_of options.now)) name.now }
    ensures asked { IfOk result (λ request. asked_by name.now (rows_of (found_of options.now)) ≡ Some request) }
    ensures refused { IfErr result (λ refusal. IsUsage refusal → asked_by name.now (rows_of (found_of options.now)) ≡ None) }
{
    let request = match name {
        "build" => Request {
            command: Command::Build {
                fold: flag(options, "fold"),
            },
            plan: plan(options),
        },
        "run" => Request {
            command: Command::Run {
                steps: number(options, "steps"),
                fold: flag(options, "fold"),
            },
            plan: plan(options),
        },
        "show" => Request {
            command: view(alloc, options)?,
            plan: plan(options),
        },
        "batch" => Request {
            command: Command::Batch,
            plan: plan(options),
        },
        "emu" => Request {
            command: Command::Emu {
                steps: number(options, "steps"),
            },
            plan: alone(),
        },
        "dump" => Request {
            command: Command::Dump,
            plan: alone(),
        },
        "asm" => Request {
            command: Command::Asm,
            plan: alone(),
        },
        "drill" => Request {
            command: Command::Drill {
                seed: number(options, "seed"),
                functions: number(options, "functions"),
            },
            plan: plan(options),
        },
        "explain" => Request {
            command: Command::Explain {
                code: number(options, "code"),
            },
            plan: alone(),
        },
        _ => Request {
            command: Command::Table {
                word: word(alloc, options)?,
                entries: flag(options, "entries"),
            },
            plan: alone(),
        },
    };
    Ok(request)
}

// The code that is to be explained, where no diagnostic has it.
fn unknown_code(command: &Command) -> Option<u32>
    ensures { result ≡ unknown_code command.now }
{
    match command {
        Command::Explain { code } => match explanation_of(*code) {
            Some(_) => None,
            None => Some(*code),
        },
        _ => None,
    }
}

// The request, or why it can't be met: there is nothing to explain.
fn known(alloc: Global, request: Request) -> Result<Request, Refusal>
    ensures kept { IfOk result (λ kept. known request ≡ Some kept) }
    ensures refused { IfErr result (λ refusal. IsUsage refusal → known request ≡ None) }
{
    match unknown_code(&request.command) {
        Some(code) => Err(Refusal::Usage(format!(in alloc;
            "error: no diagnostic has the code {code}\n\nFor more information, try '--help'.\n"
        )?)),
        None => Ok(request),
    }
}

// Why clap refused the words.
fn refused_by(alloc: Global, error: &Error) -> Refusal
    ensures { IsUsage result → (kind_of error.now ≡ ErrorKind.OutOfMemory) → ⊥ }
{
    if error.kind() == ErrorKind::OutOfMemory {
        return Refusal::NoMemory;
    }
    match format!(in alloc; "{error}") {
        Ok(text) => Refusal::Usage(text),
        Err(_) => Refusal::NoMemory,
    }
}

/// What the words ask for, of which the first is the program's name. What it takes of the stack is given back before the work begins.
#[inline(never)]
pub fn read(alloc: Global, words: &[String]) -> Result<Request, Refusal>
    ensures asked { IfOk result (λ request. asked (map string_bytes words.now) ≡ Some request) }
    ensures refused { IfErr result (λ refusal. IsUsage refusal → asked (map string_bytes words.now) ≡ None) }
{
    let mut command = command(alloc)?;
    let matches = match command.try_get_matches_from_mut(words) {
        Ok(matches) => matches,
        Err(error) => return Err(refused_by(alloc, &error)),
    };
    let (name, options) = matches.subcommand().unwrap();
    known(alloc, request(alloc, name, options)?)
}
