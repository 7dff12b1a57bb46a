// The command, its subcommands and options, as `clap` builds them. Each is a large value that is moved at every step. So a command stands on the heap while
// it grows, and what moves it has a stack frame of its own, which is given back before the next step begins.

ghost use Rattle.std.specs.Prelude.{◌≡◌, IfOk, false, true};
ghost use Rattle.clap.specs.Simple.{new_app, with_rule, with_subcommand};
ghost use Rattle.clap.specs.Words.{app_of, rule_of, shape_of};
ghost use Rattle.command_line.specs.Words.{app, bare_app, build_shape, run_shape, batch_shape, emu_shape, dump_shape, asm_shape, table_shape, drill_shape, explain_shape, show_shape, pass_option, workers_option, chunk_option, steps_option, fold_option, seed_option, functions_option, word_option, entries_option, html_option, code_value, plain_value, value_option, with_default, required, flag_option};

use clap::builder::ValueParser;
use clap::{Arg, ArgAction, Command, value_parser};
use std::alloc::{AllocError, Global};

// What help says of a value: its name, the letter that stands for it, and what it is.
#[derive(Clone, Copy)]
struct Described<'a> {
    name: &'a str,
    letter: &'a str,
    help: &'a str,
}

// A value that stands by itself.
#[inline(never)]
fn plain_value<'a>(alloc: Global, described: Described<'a>, values: ValueParser<'a>) -> Arg<'a>
    ensures rule { rule_of result ≡ plain_value described.entry.name.now values.entry }
    ensures local { result.global ≡ false }
{
    Arg::new(alloc, described.name)
        .action(ArgAction::Set)
        .value_name(described.letter)
        .value_parser(values)
        .help(described.help)
}

// An option `--name N` with a value.
#[inline(never)]
fn value_option<'a>(alloc: Global, described: Described<'a>, values: ValueParser<'a>) -> Arg<'a>
    ensures rule { rule_of result ≡ value_option described.entry.name.now values.entry }
    ensures local { result.global ≡ false }
{
    plain_value(alloc, described, values).long(described.name)
}

// An option with a number, and its default.
#[inline(never)]
fn default_option<'a>(
    alloc: Global,
    described: Described<'a>,
    numbers: ValueParser<'a>,
    default: &'a str,
) -> Arg<'a>
    ensures rule { rule_of result ≡ with_default (value_option described.entry.name.now numbers.entry) default.entry.now }
    ensures local { result.global ≡ false }
{
    value_option(alloc, described, numbers).default_value(default)
}

// A flag `--name`.
#[inline(never)]
fn flag_option<'a>(alloc: Global, name: &'a str, help: &'a str) -> Arg<'a>
    ensures rule { rule_of result ≡ flag_option name.entry.now }
    ensures local { result.global ≡ false }
{
    Arg::new(alloc, name)
        .long(name)
        .action(ArgAction::SetTrue)
        .help(help)
}

// A number that stands by itself, and has to be given.
#[inline(never)]
fn required_value<'a>(alloc: Global, described: Described<'a>, numbers: ValueParser<'a>) -> Arg<'a>
    ensures rule { rule_of result ≡ required (plain_value described.entry.name.now numbers.entry) }
    ensures local { result.global ≡ false }
{
    plain_value(alloc, described, numbers).required(true)
}

// An option with a value, which has to be given.
#[inline(never)]
fn required_option<'a>(alloc: Global, described: Described<'a>, numbers: ValueParser<'a>) -> Arg<'a>
    ensures rule { rule_of result ≡ required (value_option described.entry.name.now numbers.entry) }
    ensures local { result.global ≡ false }
{
    value_option(alloc, described, numbers).required(true)
}

#[inline(never)]
fn workers<'a>(alloc: Global) -> Arg<'a>
    ensures rule { rule_of result ≡ workers_option }
    ensures local { result.global ≡ false }
{
    let numbers = value_parser!(u64).range(1..=64);
    let described = Described {
        name: "workers",
        letter: "N",
        help: "Threads that share the work, 1 to 64",
    };
    default_option(alloc, described, numbers, "4")
}

#[inline(never)]
fn chunk<'a>(alloc: Global) -> Arg<'a>
    ensures rule { rule_of result ≡ chunk_option }
    ensures local { result.global ≡ false }
{
    let numbers = value_parser!(u64).range(1..=65_536);
    let described = Described {
        name: "chunk",
        letter: "C",
        help: "Items that a thread draws at a time, 1 to 65536",
    };
    default_option(alloc, described, numbers, "1024")
}

#[inline(never)]
fn steps<'a>(alloc: Global) -> Arg<'a>
    ensures rule { rule_of result ≡ steps_option }
    ensures local { result.global ≡ false }
{
    let numbers = value_parser!(u64).range(0..=1_000_000_000);
    let described = Described {
        name: "steps",
        letter: "M",
        help: "Steps after which the machine stops, 0 to 1000000000",
    };
    default_option(alloc, described, numbers, "1000000")
}

#[inline(never)]
fn fold<'a>(alloc: Global) -> Arg<'a>
    ensures rule { rule_of result ≡ fold_option }
    ensures local { result.global ≡ false }
{
    flag_option(alloc, "fold", "Fold the constants of the program")
}

#[inline(never)]
fn seed<'a>(alloc: Global) -> Arg<'a>
    ensures rule { rule_of result ≡ seed_option }
    ensures local { result.global ≡ false }
{
    let numbers = value_parser!(u64).range(0..=4_294_967_295);
    let described = Described {
        name: "seed",
        letter: "S",
        help: "What the numbers of the text are drawn from, 0 to 4294967295",
    };
    required_option(alloc, described, numbers)
}

#[inline(never)]
fn functions<'a>(alloc: Global) -> Arg<'a>
    ensures rule { rule_of result ≡ functions_option }
    ensures local { result.global ≡ false }
{
    let numbers = value_parser!(u64).range(1..=4096);
    let described = Described {
        name: "functions",
        letter: "K",
        help: "Functions of the program besides main, 1 to 4096",
    };
    required_option(alloc, described, numbers)
}

#[inline(never)]
fn word<'a>(alloc: Global) -> Arg<'a>
    ensures rule { rule_of result ≡ word_option }
    ensures local { result.global ≡ false }
{
    let described = Described {
        name: "word",
        letter: "W",
        help: "Parse this word: names separated by spaces or tabs",
    };
    value_option(alloc, described, value_parser!(String))
}

#[inline(never)]
fn entries<'a>(alloc: Global) -> Arg<'a>
    ensures rule { rule_of result ≡ entries_option }
    ensures local { result.global ≡ false }
{
    let help = "List the entries of the tables, a line each";
    flag_option(alloc, "entries", help)
}

#[inline(never)]
fn pass<'a>(alloc: Global) -> Arg<'a>
    ensures rule { rule_of result ≡ pass_option }
    ensures local { result.global ≡ false }
{
    let described = Described {
        name: "pass",
        letter: "PASS",
        help: "Pass whose arrays are shown [possible values: states, tokens, pairs, parse, rows, names, types, frames, places, code, all]",
    };
    value_option(alloc, described, value_parser!(String))
}

#[inline(never)]
fn html<'a>(alloc: Global) -> Arg<'a>
    ensures rule { rule_of result ≡ html_option }
    ensures local { result.global ≡ false }
{
    let help = "Print one page of HTML with the arrays of all passes but states and pairs";
    flag_option(alloc, "html", help)
}

#[inline(never)]
fn code<'a>(alloc: Global) -> Arg<'a>
    ensures rule { rule_of result ≡ code_value }
    ensures local { result.global ≡ false }
{
    let numbers = value_parser!(u64).range(100..=999);
    let described = Described {
        name: "code",
        letter: "CODE",
        help: "What the line of the diagnostic names, as 504 in `error 504 at 2:5`",
    };
    required_value(alloc, described, numbers)
}

// The command, on the heap.
#[inline(never)]
fn boxed<'a>(alloc: Global, command: Command<'a>) -> Result<Box<Command<'a>>, AllocError>
    ensures { IfOk result (λ b. b.value ≡ command.entry) }
{
    Ok(Box::new(alloc, command)?)
}

// A command without options.
#[inline(never)]
fn named<'a>(alloc: Global, name: &'a str, about: &'a str) -> Result<Box<Command<'a>>, AllocError>
    ensures { IfOk result (λ c. app_of c.value ≡ new_app name.entry.now) }
{
    boxed(alloc, Command::new(alloc, name).about(about))
}

// The command with one option more.
#[inline(never)]
fn with_option<'a>(
    alloc: Global,
    command: Box<Command<'a>>,
    option: Arg<'a>,
) -> Result<Box<Command<'a>>, AllocError>
    requires { option.global ≡ false }
    ensures { IfOk result (λ c. app_of c.value ≡ with_rule (app_of command.entry.value) (rule_of option.entry)) }
{
    boxed(alloc, Box::into_inner(command).arg(option)?)
}

// The command with one subcommand more.
#[inline(never)]
fn with_command<'a>(
    alloc: Global,
    command: Box<Command<'a>>,
    subcommand: Box<Command<'a>>,
) -> Result<Box<Command<'a>>, AllocError>
    requires { (shape_of subcommand.value).is_plain ≡ true }
    ensures { IfOk result (λ c. app_of c.value ≡ with_subcommand (app_of command.entry.value) (shape_of subcommand.entry.value)) }
{
    boxed(
        alloc,
        Box::into_inner(command).subcommand(Box::into_inner(subcommand))?,
    )
}

#[inline(never)]
fn build<'a>(alloc: Global) -> Result<Box<Command<'a>>, AllocError>
    ensures { IfOk result (λ c. shape_of c.value ≡ build_shape) }
{
    let command = named(
        alloc,
        "build",
        "Compiles a program: source on standard input, ELF file for RV32IM on standard output",
    )?;
    let command = with_option(alloc, command, workers(alloc))?;
    let command = with_option(alloc, command, chunk(alloc))?;
    with_option(alloc, command, fold(alloc))
}

#[inline(never)]
fn run<'a>(alloc: Global) -> Result<Box<Command<'a>>, AllocError>
    ensures { IfOk result (λ c. shape_of c.value ≡ run_shape) }
{
    let command = named(
        alloc,
        "run",
        "Compiles a program from standard input and runs it on the emulator: prints its output and how it ends",
    )?;
    let command = with_option(alloc, command, workers(alloc))?;
    let command = with_option(alloc, command, chunk(alloc))?;
    let command = with_option(alloc, command, steps(alloc))?;
    with_option(alloc, command, fold(alloc))
}

#[inline(never)]
fn batch<'a>(alloc: Global) -> Result<Box<Command<'a>>, AllocError>
    ensures { IfOk result (λ c. shape_of c.value ≡ batch_shape) }
{
    let command = named(
        alloc,
        "batch",
        "Compiles many programs: sources on standard input, each after its length, an ELF file or a diagnostic for each on standard output",
    )?;
    let command = with_option(alloc, command, workers(alloc))?;
    with_option(alloc, command, chunk(alloc))
}

#[inline(never)]
fn emu<'a>(alloc: Global) -> Result<Box<Command<'a>>, AllocError>
    ensures { IfOk result (λ c. shape_of c.value ≡ emu_shape) }
{
    let command = named(
        alloc,
        "emu",
        "Runs an ELF file for RV32IM from standard input on the emulator: prints its output and how it ends",
    )?;
    with_option(alloc, command, steps(alloc))
}

#[inline(never)]
fn dump<'a>(alloc: Global) -> Result<Box<Command<'a>>, AllocError>
    ensures { IfOk result (λ c. shape_of c.value ≡ dump_shape) }
{
    named(
        alloc,
        "dump",
        "Lists the code of an ELF file for RV32IM from standard input: prints a line for each word",
    )
}

#[inline(never)]
fn asm<'a>(alloc: Global) -> Result<Box<Command<'a>>, AllocError>
    ensures { IfOk result (λ c. shape_of c.value ≡ asm_shape) }
{
    named(
        alloc,
        "asm",
        "Assembles a listing as `dump` prints it: lines on standard input, ELF file for RV32IM on standard output",
    )
}

#[inline(never)]
fn table<'a>(alloc: Global) -> Result<Box<Command<'a>>, AllocError>
    ensures { IfOk result (λ c. shape_of c.value ≡ table_shape) }
{
    let command = named(
        alloc,
        "table",
        "Makes the LLP tables of a grammar from standard input: prints their sizes and the parse of a word, or a conflict",
    )?;
    let command = with_option(alloc, command, word(alloc))?;
    with_option(alloc, command, entries(alloc))
}

#[inline(never)]
fn drill<'a>(alloc: Global) -> Result<Box<Command<'a>>, AllocError>
    ensures { IfOk result (λ c. shape_of c.value ≡ drill_shape) }
{
    let command = named(
        alloc,
        "drill",
        "Compiles and runs a program made from a seed, as in `pareas drill --seed 1 --functions 2`: prints sizes and how it ends, reads no input",
    )?;
    let command = with_option(alloc, command, seed(alloc))?;
    let command = with_option(alloc, command, functions(alloc))?;
    let command = with_option(alloc, command, workers(alloc))?;
    with_option(alloc, command, chunk(alloc))
}

#[inline(never)]
fn explain<'a>(alloc: Global) -> Result<Box<Command<'a>>, AllocError>
    ensures { IfOk result (λ c. shape_of c.value ≡ explain_shape) }
{
    let command = named(
        alloc,
        "explain",
        "Explains a diagnostic, as in `pareas explain 504`: prints what it means, a source that has it and how to fix it, reads no input",
    )?;
    with_option(alloc, command, code(alloc))
}

#[inline(never)]
fn show<'a>(alloc: Global) -> Result<Box<Command<'a>>, AllocError>
    ensures { IfOk result (λ c. shape_of c.value ≡ show_shape) }
{
    let command = named(
        alloc,
        "show",
        "Shows what a pass makes of a program from standard input, as in `pareas show --pass rows`: prints its arrays as tables",
    )?;
    let command = with_option(alloc, command, pass(alloc))?;
    let command = with_option(alloc, command, html(alloc))?;
    let command = with_option(alloc, command, workers(alloc))?;
    with_option(alloc, command, chunk(alloc))
}

// The command before it has subcommands.
#[inline(never)]
fn bare<'a>(alloc: Global) -> Result<Box<Command<'a>>, AllocError>
    ensures { IfOk result (λ c. app_of c.value ≡ bare_app) }
{
    boxed(
        alloc,
        Command::new(alloc, "pareas")
            .version("0.1.0")
            .about(
                "A parallel compiler of a small C-like language to RV32IM, proved correct, and an emulator",
            )
            .subcommand_required(true),
    )
}

/// The command line as `clap` reads it.
#[inline(never)]
pub(crate) fn command<'a>(alloc: Global) -> Result<Box<Command<'a>>, AllocError>
    ensures { IfOk result (λ c. app_of c.value ≡ app) }
{
    let command = bare(alloc)?;
    let command = with_command(alloc, command, build(alloc)?)?;
    let command = with_command(alloc, command, run(alloc)?)?;
    let command = with_command(alloc, command, batch(alloc)?)?;
    let command = with_command(alloc, command, emu(alloc)?)?;
    let command = with_command(alloc, command, dump(alloc)?)?;
    let command = with_command(alloc, command, asm(alloc)?)?;
    let command = with_command(alloc, command, table(alloc)?)?;
    let command = with_command(alloc, command, drill(alloc)?)?;
    let command = with_command(alloc, command, explain(alloc)?)?;
    with_command(alloc, command, show(alloc)?)
}
