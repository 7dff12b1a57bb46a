//! Runs the example programs that standard input names, one a line, and prints what each writes; those in a folder `refused` are to be built.
//! Each is called a second time with its constants folded, and a line counts those that came to the same: a program that runs to its end, or a source
//! that is refused. Those in the folder `worked` are compiled under nine plans too, and the last line counts those that came to one answer under all.
#![tactic(auto)]

use plan_trials::{Written, call, is_one_answer};
use std::alloc::Global;
use std::fs;
use std::io::{self, Write};
use std::rt::Files;
use std::thread::Threads;

/// What a program is for: to be run, or to be refused by a build.
fn command(name: &str) -> &'static str {
    if name.contains("refused/") {
        "build"
    } else {
        "run"
    }
}

/// Calls the program for the example, and prints all that it writes.
fn show<R: Threads + Print + Sync>(
    rt: &R,
    alloc: Global,
    name: &str,
    source: &[u8],
) -> io::Result<Written> {
    let written = call(rt, alloc, &["pareas", command(name)], source)?;
    print!(rt; "{name}: ")?;
    io::writer(rt).write_all(written.out())?;
    io::writer(rt).write_all(written.notes())?;
    Ok(written)
}

/// Whether the example comes to the same with its constants folded.
fn folds_alike<R: Threads + Sync>(
    rt: &R,
    alloc: Global,
    name: &str,
    source: &[u8],
    written: &Written,
) -> io::Result<bool> {
    let folded = call(rt, alloc, &["pareas", command(name), "--fold"], source)?;
    Ok(folded.is_same(written))
}

/// How many examples were tried in some way, and how many of them came to the same.
#[derive(Clone, Copy)]
struct Tally {
    tried: u64,
    same: u64,
}

impl Tally {
    /// No example yet.
    const NONE: Tally = Tally { tried: 0, same: 0 };

    /// One example more.
    fn and(self, is_same: bool) -> Tally {
        Tally {
            tried: self.tried.saturating_add(1),
            same: self.same.saturating_add(u64::from(is_same)),
        }
    }
}

fn main(rt: HostRuntime) -> io::Result<()> {
    let alloc = rt.alloc();
    let mut folded = Tally::NONE;
    let mut worked = Tally::NONE;
    for line in rt.lines(alloc) {
        let name = line?;
        let name = name.as_str();
        let text = fs::read_to_string(&rt, name)?;
        let source = text.as_bytes();
        let written = show(&rt, alloc, name, source)?;
        if written.is_settled() {
            folded = folded.and(folds_alike(&rt, alloc, name, source, &written)?);
        }
        if name.starts_with("worked/") {
            worked = worked.and(is_one_answer(&rt, alloc, source)?);
        }
    }
    println!(rt;
        "The same output or refusal with constants folded: {} of {}",
        folded.same, folded.tried
    )?;
    println!(rt;
        "The same file or refusal under each of nine plans: {} of {}",
        worked.same, worked.tried
    )
}
