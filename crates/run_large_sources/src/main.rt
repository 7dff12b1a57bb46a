//! Runs sources at the limits of the language, and long and deep ones, and prints what each comes to.
#![tactic(auto)]

mod sources;

use plan_trials::{call, is_one_answer};
use sources::Source;
use std::alloc::Global;
use std::io::{self, Write};
use std::thread::Threads;

/// What a source is tried by.
#[derive(Clone, Copy)]
enum Trial {
    /// It is compiled; how many bytes its image has, or why there is none.
    Build,
    /// It is compiled and run; how it ends, or why it has no image.
    Run,
    /// The same, with this number of steps at most.
    RunFor(&'static str),
    /// It is compiled with its constants folded; how many bytes its image has, or why there is none.
    BuildFolded,
    /// It is compiled with its constants folded, and run; how it ends, or why it has no image.
    RunFolded,
    /// It is compiled under nine plans; whether all come to one answer.
    Compare,
}

/// A source, what it shows, and what it is tried by.
type Row = (&'static str, Source, &'static [Trial]);

const SOURCES: &[Row] = &[
    // at the limits
    (
        "a frame of 2,032 bytes",
        Source::Variables(506),
        &[Trial::Build, Trial::Run],
    ),
    (
        "a frame of 2,048 bytes",
        Source::Variables(507),
        &[
            Trial::Build,
            Trial::RunFor("1029"),
            Trial::RunFor("1030"),
            Trial::Compare,
        ],
    ),
    (
        "a frame of 2,064 bytes",
        Source::Variables(511),
        &[Trial::Build, Trial::Run],
    ),
    (
        "a frame of 65,520 bytes",
        Source::Variables(16_378),
        &[Trial::Build, Trial::RunFor("64511"), Trial::RunFor("64512")],
    ),
    (
        "one variable more",
        Source::Variables(16_379),
        &[Trial::Run],
    ),
    (
        "code of 1,048,576 bytes, the most in the short layout",
        Source::Zeros(262_132),
        &[
            Trial::Build,
            Trial::RunFor("262143"),
            Trial::RunFor("262144"),
        ],
    ),
    (
        "one word more, in the long layout",
        Source::Zeros(262_133),
        &[
            Trial::Build,
            Trial::RunFor("262145"),
            Trial::RunFor("262146"),
            Trial::Compare,
        ],
    ),
    (
        "code of 16,777,216 bytes",
        Source::Zeros(4_194_291),
        &[Trial::Build],
    ),
    ("one word more", Source::Zeros(4_194_292), &[Trial::Build]),
    (
        "a source of 16,777,216 bytes",
        Source::Spaces(16_777_216),
        &[Trial::Build],
    ),
    (
        "one byte more",
        Source::Spaces(16_777_217),
        &[Trial::Build, Trial::Compare],
    ),
    // jumps over more than a million bytes
    (
        "a call back over 262,144 words",
        Source::Filled {
            before: b"fn f(): int {",
            piece: b"0;",
            count: 262_144,
            behind: b"return 3; } fn main(): int { return f[]; }",
        },
        &[
            Trial::Build,
            Trial::RunFor("262173"),
            Trial::RunFor("262174"),
        ],
    ),
    (
        "a loop over 262,144 words",
        Source::Filled {
            before: b"fn main(): int { var x: int = 0; while x < 3 {",
            piece: b"0;",
            count: 262_144,
            behind: b"x = x + 1; } return x; }",
        },
        &[Trial::Build, Trial::Run],
    ),
    (
        "an if over 262,144 words",
        Source::Filled {
            before: b"fn main(): int { var x: int = 0; if x == 1 {",
            piece: b"0;",
            count: 262_144,
            behind: b"} else { x = 5; } return x; }",
        },
        &[Trial::Build, Trial::Run],
    ),
    (
        "an else over 262,144 words",
        Source::Filled {
            before: b"fn main(): int { var x: int = 0; if x == 0 { x = 6; } else {",
            piece: b"0;",
            count: 262_144,
            behind: b"} return x; }",
        },
        &[Trial::Build, Trial::Run],
    ),
    (
        "the right of an && over 262,144 words",
        Source::Filled {
            before: b"fn main(): int { var x: int = 7; if x == 0 && 0",
            piece: b"+0",
            count: 131_072,
            behind: b" == 0 { x = 0; } return x; }",
        },
        &[Trial::Build, Trial::Run],
    ),
    (
        "the right of an || over 262,144 words",
        Source::Filled {
            before: b"fn main(): int { var x: int = 0; if x == 0 || 0",
            piece: b"+0",
            count: 131_072,
            behind: b" == 1 { x = 8; } return x; }",
        },
        &[Trial::Build, Trial::Run],
    ),
    // long ones
    (
        "a number of 900,001 digits",
        Source::Around {
            before: b"0",
            count: 900_000,
            middle: b"7",
            behind: b"",
        },
        &[Trial::Run],
    ),
    (
        "a name of 1,000 bytes, 880 times in one line",
        Source::LongNames {
            length: 1000,
            count: 439,
        },
        &[Trial::Run],
    ),
    (
        "a comment of 900,000 bytes",
        Source::Comment(900_000),
        &[Trial::Run],
    ),
    ("20,000 functions", Source::Names(20_000), &[Trial::Run]),
    (
        "10,000 functions, each calling the one before",
        Source::CallsInARow(10_000),
        &[Trial::Run],
    ),
    (
        "a call with 100,000 arguments",
        Source::Arguments(100_000),
        &[Trial::Run],
    ),
    (
        "100,000 sums to the left",
        Source::Filled {
            before: b"fn main(): int { return 0",
            piece: b"+1",
            count: 100_000,
            behind: b"; }",
        },
        &[
            Trial::Build,
            Trial::Run,
            Trial::BuildFolded,
            Trial::RunFolded,
        ],
    ),
    // deep ones
    (
        "100,000 parentheses",
        Source::Around {
            before: b"(",
            count: 100_000,
            middle: b"7",
            behind: b")",
        },
        &[Trial::Run],
    ),
    (
        "100,000 that stay open",
        Source::Around {
            before: b"(",
            count: 100_000,
            middle: b"7",
            behind: b"",
        },
        &[Trial::Run],
    ),
    (
        "100,000 minus signs",
        Source::Around {
            before: b"-",
            count: 100_000,
            middle: b"7",
            behind: b"",
        },
        &[Trial::Run, Trial::RunFolded],
    ),
    (
        "20,000 chained assignments",
        Source::Around {
            before: b"x = ",
            count: 20_000,
            middle: b"7",
            behind: b"",
        },
        &[Trial::Run],
    ),
    (
        "10,000 calls in calls",
        Source::Around {
            before: b"f[",
            count: 10_000,
            middle: b"7",
            behind: b"]",
        },
        &[Trial::Run],
    ),
    (
        "16,000 sums to the right",
        Source::Around {
            before: b"1+(",
            count: 16_000,
            middle: b"7",
            behind: b")",
        },
        &[Trial::Build, Trial::Run, Trial::BuildFolded],
    ),
    (
        "100,000 sums to the right",
        Source::Around {
            before: b"1+(",
            count: 100_000,
            middle: b"7",
            behind: b")",
        },
        &[Trial::Run, Trial::RunFolded],
    ),
    (
        "100,000 blocks",
        Source::Blocks {
            before: b"{",
            count: 100_000,
            behind: b"}",
        },
        &[Trial::Run],
    ),
    (
        "10,000 ifs",
        Source::Blocks {
            before: b"if x == 1 {",
            count: 10_000,
            behind: b"}",
        },
        &[Trial::Run],
    ),
    (
        "a chain of 1,000 else-ifs",
        Source::ElseIfs(1000),
        &[Trial::Build, Trial::Run, Trial::Compare],
    ),
    (
        "a chain of 10,000 else-ifs",
        Source::ElseIfs(10_000),
        &[Trial::Build, Trial::Run],
    ),
    (
        "a variable declared anew in 400 blocks",
        Source::Blocks {
            before: b"{ var x: int = x + 1; y = x;",
            count: 400,
            behind: b"}",
        },
        &[Trial::Run],
    ),
];

/// Compiles the source by this command, and prints how many bytes its image has, or why there is none.
fn build<R: Threads + Print + Sync>(
    rt: &R,
    alloc: Global,
    words: &[&str],
    source: &[u8],
) -> io::Result<()> {
    let written = call(rt, alloc, words, source)?;
    if written.notes().is_empty() {
        println!(rt; "an image of {} bytes", written.out().len())
    } else {
        io::writer(rt).write_all(written.notes())
    }
}

/// Runs the command, and prints all that it writes.
fn show<R: Threads + Print + Sync>(
    rt: &R,
    alloc: Global,
    words: &[&str],
    source: &[u8],
) -> io::Result<()> {
    let written = call(rt, alloc, words, source)?;
    io::writer(rt).write_all(written.out())?;
    io::writer(rt).write_all(written.notes())
}

/// Prints whether a build of the source comes to one answer under nine plans.
fn compare<R: Threads + Print + Sync>(rt: &R, alloc: Global, source: &[u8]) -> io::Result<()> {
    if is_one_answer(rt, alloc, source)? {
        println!(rt; "the same under nine plans")
    } else {
        println!(rt; "another answer under another plan")
    }
}

/// Tries the source, and prints what that comes to.
fn attempt<R: Threads + Print + Sync>(
    rt: &R,
    alloc: Global,
    trial: Trial,
    source: &[u8],
) -> io::Result<()> {
    match trial {
        Trial::Build => build(rt, alloc, &["pareas", "build"], source),
        Trial::BuildFolded => build(rt, alloc, &["pareas", "build", "--fold"], source),
        Trial::RunFolded => show(rt, alloc, &["pareas", "run", "--fold"], source),
        Trial::Run => show(rt, alloc, &["pareas", "run"], source),
        Trial::RunFor(steps) => show(rt, alloc, &["pareas", "run", "--steps", steps], source),
        Trial::Compare => compare(rt, alloc, source),
    }
}

/// Prints what a source shows, and what each of its trials comes to.
fn show_row<R: Threads + Print + Sync>(rt: &R, alloc: Global, row: Row) -> io::Result<()> {
    let (shows, source, trials) = row;
    print!(rt; "{shows}: ")?;
    let text = source.text(alloc)?;
    for &trial in trials {
        attempt(rt, alloc, trial, &text)?;
    }
    Ok(())
}

fn main(rt: HostRuntime) -> io::Result<()> {
    for &row in SOURCES {
        show_row(&rt, rt.alloc(), row)?;
    }
    println!(rt; "the greatest drill:")?;
    let words = ["pareas", "drill", "--seed", "1", "--functions", "4096"];
    show(&rt, rt.alloc(), &words, b"")
}
