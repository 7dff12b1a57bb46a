use command_line::{Command, Refusal, Request, read};
use std::alloc::{AllocError, Global};
use std::test::Fail;

fn words(alloc: Global, line: &str) -> Result<Vec<String>, AllocError> {
    let mut words = Vec::new(alloc);
    for word in line.split(' ') {
        words.push(String::from_str(alloc, word)?)?;
    }
    Ok(words)
}

/// What a command line asks for, with its numbers of workers and of items, or nothing.
fn asked(alloc: Global, line: &str) -> Result<String, AllocError> {
    let words = words(alloc, line)?;
    match read(alloc, &words) {
        Ok(Request { command, plan }) => {
            format!(in alloc; "{command:?} {} {}", plan.workers, plan.chunk)
        }
        Err(Refusal::Usage(_)) => Ok(String::new(alloc)),
        Err(Refusal::NoMemory) => Err(AllocError),
    }
}

/// Whether the words ask for the tables of a grammar, and for this word to be parsed.
fn is_asked_to_parse(alloc: Global, words: &[&str], spelling: &str) -> Result<bool, AllocError> {
    let mut all = Vec::new(alloc);
    for word in words {
        all.push(String::from_str(alloc, word)?)?;
    }
    match read(alloc, &all) {
        Ok(request) => match request.command {
            Command::Table {
                word: Some(word),
                ..
            } => Ok(word.as_bytes() == spelling.as_bytes()),
            _ => Ok(false),
        },
        Err(_) => Ok(false),
    }
}

/// The text that a command line is refused with.
fn refused_with(alloc: Global, line: &str) -> Result<Option<String>, AllocError> {
    let words = words(alloc, line)?;
    match read(alloc, &words) {
        Ok(_) => Ok(None),
        Err(Refusal::Usage(text)) => Ok(Some(text)),
        Err(Refusal::NoMemory) => Err(AllocError),
    }
}

/// Command lines, and what they ask for: nothing where they are refused.
const LINES: &[(&str, &str)] = &[
    ("pareas build", "Build { fold: false } 4 1024"),
    (
        "pareas build --workers 64 --chunk=65536",
        "Build { fold: false } 64 65536",
    ),
    ("pareas build --chunk 7 --fold", "Build { fold: true } 4 7"),
    ("pareas run", "Run { steps: 1000000, fold: false } 4 1024"),
    (
        "pareas run --steps 14 --workers 1",
        "Run { steps: 14, fold: false } 1 1024",
    ),
    (
        "pareas run --fold --steps 14",
        "Run { steps: 14, fold: true } 4 1024",
    ),
    (
        "pareas emu --steps 1000000000",
        "Emu { steps: 1000000000 } 1 1",
    ),
    ("pareas emu --steps +007", "Emu { steps: 7 } 1 1"),
    ("pareas dump", "Dump 1 1"),
    ("pareas asm", "Asm 1 1"),
    ("pareas table", "Table { word: None, entries: false } 1 1"),
    (
        "pareas table --entries",
        "Table { word: None, entries: true } 1 1",
    ),
    (
        "pareas drill --seed 1 --functions 2",
        "Drill { seed: 1, functions: 2 } 4 1024",
    ),
    (
        "pareas drill --functions 4096 --chunk 7 --seed 4294967295 --workers 64",
        "Drill { seed: 4294967295, functions: 4096 } 64 7",
    ),
    ("pareas explain 504", "Explain { code: 504 } 1 1"),
    ("pareas explain +603", "Explain { code: 603 } 1 1"),
    ("pareas explain -- 101", "Explain { code: 101 } 1 1"),
    ("pareas explain", ""),
    ("pareas explain 304", ""),
    ("pareas explain 504 505", ""),
    ("pareas explain 5040", ""),
    ("pareas explain 50", ""),
    ("pareas explain -504", ""),
    ("pareas explain all", ""),
    ("pareas explain --code 504", ""),
    ("pareas explain 504 --workers 2", ""),
    ("pareas explain --steps 1 504", ""),
    ("pareas 504", ""),
    ("pareas build 504", ""),
    ("pareas drill --seed 1 --functions 0", ""),
    ("pareas drill --seed 1 --functions 4097", ""),
    ("pareas drill --seed 4294967296 --functions 1", ""),
    ("pareas drill --functions 1", ""),
    ("pareas drill --seed 1", ""),
    ("pareas drill --seed 1 --functions 1 --steps 1", ""),
    ("pareas dump --steps 1", ""),
    ("pareas dump --chunk 1", ""),
    ("pareas dump seven.elf", ""),
    ("pareas asm --steps 1", ""),
    ("pareas asm --workers 1", ""),
    ("pareas asm dump", ""),
    ("pareas table --workers 1", ""),
    ("pareas table --steps 1", ""),
    ("pareas table --word", ""),
    ("pareas table --word a b", ""),
    ("pareas table --word a --word a", ""),
    ("pareas table --word -a", ""),
    ("pareas table --entries --entries", ""),
    ("pareas table --entries=true", ""),
    ("pareas table --entries true", ""),
    ("pareas table --entries --chunk 1", ""),
    ("pareas asm --entries", ""),
    ("pareas show --entries", ""),
    ("pareas build --word a", ""),
    ("pareas asm --word a", ""),
    ("pareas --word a table", ""),
    ("pareas", ""),
    ("pareas bild", ""),
    ("pareas build run", ""),
    ("pareas build --workers 0", ""),
    ("pareas build --workers 65", ""),
    ("pareas build --chunk 65537", ""),
    ("pareas build --chunk x", ""),
    ("pareas build --steps 3", ""),
    ("pareas build --fold --fold", ""),
    ("pareas run --fold=true", ""),
    ("pareas run --fold true", ""),
    ("pareas show --pass states", "Show { pass: States } 4 1024"),
    ("pareas show --pass tokens", "Show { pass: Tokens } 4 1024"),
    ("pareas show --pass pairs", "Show { pass: Pairs } 4 1024"),
    ("pareas show --pass=parse", "Show { pass: Parse } 4 1024"),
    (
        "pareas show --workers 2 --pass rows",
        "Show { pass: Rows } 2 1024",
    ),
    (
        "pareas show --pass names --chunk 7",
        "Show { pass: Names } 4 7",
    ),
    ("pareas show --pass types", "Show { pass: Types } 4 1024"),
    ("pareas show --pass frames", "Show { pass: Frames } 4 1024"),
    ("pareas show --pass places", "Show { pass: Places } 4 1024"),
    ("pareas show --pass code", "Show { pass: Code } 4 1024"),
    ("pareas show --pass all", "Show { pass: All } 4 1024"),
    ("pareas show --html", "Page 4 1024"),
    ("pareas show --chunk 7 --html --workers=2", "Page 2 7"),
    ("pareas show", ""),
    ("pareas show --workers 2", ""),
    ("pareas show --html --pass rows", ""),
    ("pareas show --pass=all --html", ""),
    ("pareas show --html --pass row", ""),
    ("pareas show --html --html", ""),
    ("pareas show --html=true", ""),
    ("pareas show --html rows", ""),
    ("pareas show --html --fold", ""),
    ("pareas build --html", ""),
    ("pareas --html show", ""),
    ("pareas show rows", ""),
    ("pareas show --pass", ""),
    ("pareas show --pass=", ""),
    ("pareas show --pass row", ""),
    ("pareas show --pass Rows", ""),
    ("pareas show --pass state", ""),
    ("pareas show --pass place", ""),
    ("pareas show --pass rows names", ""),
    ("pareas show --pass rows --pass rows", ""),
    ("pareas show --pass rows --fold", ""),
    ("pareas show --pass rows --steps 1", ""),
    ("pareas build --pass rows", ""),
    ("pareas batch", "Batch 4 1024"),
    ("pareas batch --workers 2 --chunk 7", "Batch 2 7"),
    ("pareas batch --fold", ""),
    ("pareas batch --steps 3", ""),
    ("pareas emu --fold", ""),
    ("pareas drill --seed 1 --functions 1 --fold", ""),
    ("pareas emu --workers 1", ""),
    ("pareas run --steps", ""),
    ("pareas run --steps 1 --steps 1", ""),
    ("pareas run --steps 1000000001", ""),
    ("pareas run --steps -1", ""),
    ("pareas --help", ""),
    ("pareas help run", ""),
    ("pareas --version", ""),
];

#[test]
fn words_ask_for_commands(rt: HostRuntime) -> Result<(), Fail> {
    for &(line, wanted) in LINES {
        let found = asked(rt.alloc(), line)?;
        assert!(rt; found.as_str() == wanted, "{line}: {found}");
    }
    Ok(())
}

/// Words that ask for tables, and the spelling of the word to be parsed.
const SPELLINGS: &[(&[&str], &str)] = &[
    (&["pareas", "table", "--word", "a"], "a"),
    (&["pareas", "table", "--word", "a b"], "a b"),
    (&["pareas", "table", "--word=a  b "], "a  b "),
    (&["pareas", "table", "--word", ""], ""),
    (&["pareas", "table", "--word="], ""),
    (&["pareas", "table", "--word=-a"], "-a"),
    (&["pareas", "table", "--entries", "--word", "a"], "a"),
];

#[test]
fn tables_are_asked_for_with_a_word(rt: HostRuntime) -> Result<(), Fail> {
    for &(words, spelling) in SPELLINGS {
        let is_asked = is_asked_to_parse(rt.alloc(), words, spelling)?;
        assert!(rt; is_asked, "{spelling}");
    }
    Ok(())
}

/// Command lines that are refused, and the text of it.
const REFUSALS: &[(&str, &str)] = &[
    ("pareas --help", PAREAS_HELP),
    ("pareas help", PAREAS_HELP),
    ("pareas help build", BUILD_HELP),
    ("pareas build --help", BUILD_HELP),
    ("pareas help run", RUN_HELP),
    ("pareas help batch", BATCH_HELP),
    ("pareas help emu", EMU_HELP),
    ("pareas help dump", DUMP_HELP),
    ("pareas help asm", ASM_HELP),
    ("pareas help table", TABLE_HELP),
    ("pareas help drill", DRILL_HELP),
    ("pareas help explain", EXPLAIN_HELP),
    ("pareas help show", SHOW_HELP),
    ("pareas --version", "pareas 0.1.0\n"),
    ("pareas", NO_COMMAND),
    ("pareas bild", UNKNOWN_COMMAND),
    ("pareas asm --steps 1", UNKNOWN_OPTION),
    ("pareas explain", NO_CODE),
    ("pareas explain 304", UNKNOWN_CODE),
    ("pareas explain 50", CODE_OUT_OF_RANGE),
    ("pareas explain all", NO_NUMBER),
    ("pareas show", NO_VIEW),
    ("pareas show --html --pass rows", TWO_VIEWS),
    ("pareas show --pass row --html", TWO_VIEWS),
    ("pareas show --pass row", UNKNOWN_PASS),
];

#[test]
fn refusals_say_why(rt: HostRuntime) -> Result<(), Fail> {
    for &(line, wanted) in REFUSALS {
        let text = refused_with(rt.alloc(), line)?.unwrap_or(String::new(rt.alloc()));
        assert!(rt; text.as_str() == wanted, "{line}: {text}");
    }
    Ok(())
}

const PAREAS_HELP: &str = "\
A parallel compiler of a small C-like language to RV32IM, proved correct, and an emulator

Usage: pareas <COMMAND>

Commands:
  build    Compiles a program: source on standard input, ELF file for RV32IM on standard output
  run      Compiles a program from standard input and runs it on the emulator: prints its output and how it ends
  batch    Compiles many programs: sources on standard input, each after its length, an ELF file or a diagnostic for each on standard output
  emu      Runs an ELF file for RV32IM from standard input on the emulator: prints its output and how it ends
  dump     Lists the code of an ELF file for RV32IM from standard input: prints a line for each word
  asm      Assembles a listing as `dump` prints it: lines on standard input, ELF file for RV32IM on standard output
  table    Makes the LLP tables of a grammar from standard input: prints their sizes and the parse of a word, or a conflict
  drill    Compiles and runs a program made from a seed, as in `pareas drill --seed 1 --functions 2`: prints sizes and how it ends, reads no input
  explain  Explains a diagnostic, as in `pareas explain 504`: prints what it means, a source that has it and how to fix it, reads no input
  show     Shows what a pass makes of a program from standard input, as in `pareas show --pass rows`: prints its arrays as tables
  help     Print this message or the help of the given subcommand(s)

Options:
  -h, --help     Print help
  -V, --version  Print version
";

const BUILD_HELP: &str = "\
Compiles a program: source on standard input, ELF file for RV32IM on standard output

Usage: pareas build [OPTIONS]

Options:
      --workers <N>  Threads that share the work, 1 to 64 [default: 4]
      --chunk <C>    Items that a thread draws at a time, 1 to 65536 [default: 1024]
      --fold         Fold the constants of the program
  -h, --help         Print help
";

const RUN_HELP: &str = "\
Compiles a program from standard input and runs it on the emulator: prints its output and how it ends

Usage: pareas run [OPTIONS]

Options:
      --workers <N>  Threads that share the work, 1 to 64 [default: 4]
      --chunk <C>    Items that a thread draws at a time, 1 to 65536 [default: 1024]
      --steps <M>    Steps after which the machine stops, 0 to 1000000000 [default: 1000000]
      --fold         Fold the constants of the program
  -h, --help         Print help
";

const BATCH_HELP: &str = "\
Compiles many programs: sources on standard input, each after its length, an ELF file or a diagnostic for each on standard output

Usage: pareas batch [OPTIONS]

Options:
      --workers <N>  Threads that share the work, 1 to 64 [default: 4]
      --chunk <C>    Items that a thread draws at a time, 1 to 65536 [default: 1024]
  -h, --help         Print help
";

const EMU_HELP: &str = "\
Runs an ELF file for RV32IM from standard input on the emulator: prints its output and how it ends

Usage: pareas emu [OPTIONS]

Options:
      --steps <M>  Steps after which the machine stops, 0 to 1000000000 [default: 1000000]
  -h, --help       Print help
";

const DUMP_HELP: &str = "\
Lists the code of an ELF file for RV32IM from standard input: prints a line for each word

Usage: pareas dump

Options:
  -h, --help  Print help
";

const ASM_HELP: &str = "\
Assembles a listing as `dump` prints it: lines on standard input, ELF file for RV32IM on standard output

Usage: pareas asm

Options:
  -h, --help  Print help
";

const TABLE_HELP: &str = "\
Makes the LLP tables of a grammar from standard input: prints their sizes and the parse of a word, or a conflict

Usage: pareas table [OPTIONS]

Options:
      --word <W>  Parse this word: names separated by spaces or tabs
      --entries   List the entries of the tables, a line each
  -h, --help      Print help
";

const DRILL_HELP: &str = "\
Compiles and runs a program made from a seed, as in `pareas drill --seed 1 --functions 2`: prints sizes and how it ends, reads no input

Usage: pareas drill [OPTIONS] --seed <S> --functions <K>

Options:
      --seed <S>       What the numbers of the text are drawn from, 0 to 4294967295
      --functions <K>  Functions of the program besides main, 1 to 4096
      --workers <N>    Threads that share the work, 1 to 64 [default: 4]
      --chunk <C>      Items that a thread draws at a time, 1 to 65536 [default: 1024]
  -h, --help           Print help
";

const EXPLAIN_HELP: &str = "\
Explains a diagnostic, as in `pareas explain 504`: prints what it means, a source that has it and how to fix it, reads no input

Usage: pareas explain <CODE>

Arguments:
  <CODE>  What the line of the diagnostic names, as 504 in `error 504 at 2:5`

Options:
  -h, --help  Print help
";

const SHOW_HELP: &str = "\
Shows what a pass makes of a program from standard input, as in `pareas show --pass rows`: prints its arrays as tables

Usage: pareas show [OPTIONS]

Options:
      --pass <PASS>  Pass whose arrays are shown [possible values: states, tokens, pairs, parse, rows, names, types, frames, places, code, all]
      --html         Print one page of HTML with the arrays of all passes but states and pairs
      --workers <N>  Threads that share the work, 1 to 64 [default: 4]
      --chunk <C>    Items that a thread draws at a time, 1 to 65536 [default: 1024]
  -h, --help         Print help
";

const NO_COMMAND: &str = "\
error: 'pareas' requires a subcommand but one was not provided
  [subcommands: build, run, batch, emu, dump, asm, table, drill, explain, show, help]

Usage: pareas <COMMAND>

For more information, try '--help'.
";

const UNKNOWN_COMMAND: &str = "\
error: unrecognized subcommand 'bild'

  tip: a similar subcommand exists: 'build'

Usage: pareas <COMMAND>

For more information, try '--help'.
";

const UNKNOWN_OPTION: &str = "\
error: unexpected argument '--steps' found

Usage: pareas asm

For more information, try '--help'.
";

const NO_CODE: &str = "\
error: the following required arguments were not provided:
  <CODE>

Usage: pareas explain <CODE>

For more information, try '--help'.
";

const UNKNOWN_CODE: &str = "\
error: no diagnostic has the code 304

For more information, try '--help'.
";

const CODE_OUT_OF_RANGE: &str = "\
error: invalid value '50' for '<CODE>': 50 is not in 100..=999

For more information, try '--help'.
";

const NO_NUMBER: &str = "\
error: invalid value 'all' for '<CODE>': invalid digit found in string

For more information, try '--help'.
";

const NO_VIEW: &str = "\
error: the following required arguments were not provided:
  --pass <PASS>

Usage: pareas show --pass <PASS>

For more information, try '--help'.
";

const TWO_VIEWS: &str = "\
error: the argument '--html' cannot be used with '--pass <PASS>'

Usage: pareas show --html

For more information, try '--help'.
";

const UNKNOWN_PASS: &str = "\
error: invalid value 'row' for '--pass <PASS>'
  [possible values: states, tokens, pairs, parse, rows, names, types, frames, places, code, all]

For more information, try '--help'.
";
