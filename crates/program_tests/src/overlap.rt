//! That two workers overlap in each of the compiler's passes that has more than one chunk: the one that draws chunk 0 waits for the other.

use crate::calls::{Call, SEVEN, SOUND, memory_of, words_of};
use chunk_seats::{OpenGate, Plan};
use front_end::{language_tables, lexed, named, parsed, shaped, typed};
use par_passes::Workers;
use pareas_core::{Status, code, front, pareas};
use std::alloc::Global;
use std::process::Abort;
use std::test::Fail;
use std::thread::Threads;
use test_gates::Meeting;

// In how many passes both workers drew a chunk, and in how many one drew alone, since there is one chunk, or little to do.
type Passed = (u64, u64);

// Two workers that draw items one by one.
fn pair<'a, R, G>(rt: &'a R, alloc: Global, gate: &'a G) -> Result<Workers<'a, R, G>, Fail> {
    Ok(Workers {
        runtime: rt,
        alloc,
        plan: Plan::new(2, 1).ok_or("in range")?,
        gate,
    })
}

// The passes of the phases of the front, each called by itself.
fn passes_of_phases<R: Threads + Abort + Sync>(rt: &R, alloc: Global) -> Result<[Passed; 5], Fail> {
    let tables = language_tables(alloc)?;
    let gates = [
        Meeting::new(),
        Meeting::new(),
        Meeting::new(),
        Meeting::new(),
        Meeting::new(),
    ];
    let Ok(tokens) = lexed(&pair(rt, alloc, &gates[0])?, SEVEN) else {
        return Err("refused".into());
    };
    let Ok(productions) = parsed(&pair(rt, alloc, &gates[1])?, &tables, SEVEN, &tokens) else {
        return Err("refused".into());
    };
    let Ok(rows) = shaped(
        &pair(rt, alloc, &gates[2])?,
        SEVEN,
        &tokens,
        productions.as_slice(),
    ) else {
        return Err("refused".into());
    };
    if rows.len() > 1 << 25 {
        return Err("too many".into());
    }
    let Ok(names) = named(&pair(rt, alloc, &gates[3])?, SEVEN, &tokens, &rows) else {
        return Err("refused".into());
    };
    let Ok(_types) = typed(&pair(rt, alloc, &gates[4])?, SEVEN, &tokens, &rows, &names) else {
        return Err("refused".into());
    };
    Ok([
        gates[0].counts(),
        gates[1].counts(),
        gates[2].counts(),
        gates[3].counts(),
        gates[4].counts(),
    ])
}

// How many words the code of a source has, and the passes from depths to words; where constants are folded, with those of folding before them.
fn passes_of_code<R: Threads + Abort + Sync>(
    rt: &R,
    alloc: Global,
    source: &[u8],
    fold: bool,
) -> Result<(usize, Passed), Fail> {
    let Ok(analysis) = front(&pair(rt, alloc, &OpenGate)?, source) else {
        return Err("refused".into());
    };
    let gate = Meeting::new();
    let Ok(words) = code(&pair(rt, alloc, &gate)?, source, analysis, fold) else {
        return Err("refused".into());
    };
    Ok((words.len(), gate.counts()))
}

// Those of `pareas build`.
fn passes_of_build<R: Threads + Abort + Sync>(rt: &R, alloc: Global) -> Result<Passed, Fail> {
    let call = Call {
        words: &["build"],
        plan: &["--workers", "2", "--chunk", "1"],
        source: SEVEN,
    };
    let words = words_of(alloc, call)?;
    let (mut input, mut out, mut notes) = memory_of(rt, alloc, call.source, SOUND)?;
    let gate = Meeting::new();
    let status = pareas(rt, alloc, &words, &mut input, &mut out, &mut notes, &gate);
    assert_eq!(rt; status, Status::Done);
    assert_eq!(rt; out.written().len(), 144);
    Ok(gate.counts())
}

// The passes of each phase of the front over a function that returns a number: of tokens (of which one is over the few bytes of the stretches' fronts),
// parse, rows, names and types.
const PHASES: [Passed; 5] = [(1, 1), (3, 0), (8, 0), (2, 0), (2, 0)];

// Those of depths, frames, sizes, places and words. Three are over the only function, and no block of the rows is whole, so there is none over
// blocks.
const CODE: Passed = (7, 3);

// A function with more than one block of rows, whose result can be folded.
const LONG: &[u8] =
    b"fn main(): int { 0; 0; 0; 0; 0; 0; 0; 0; 0; 0; 0; 0; 0; 0; 0; 0; 0; 0; 0; 0; 0; 0; 0; 0; 0; 0; 0; 0; 0; 0; 0; 0; 0; 0; 0; 0; 0; 0; 0; 0; return 3+4; }";

const LONG_CODE: Passed = (9, 3);

// Those of folding too, of which one is over the only operator.
const FOLDED_CODE: Passed = (27, 4);

#[test]
fn two_workers_meet_in_each_pass(rt: HostRuntime) -> Result<(), Fail> {
    let found = passes_of_phases(&rt, rt.alloc())?;
    assert!(rt; found == PHASES, "{found:?}");
    for (source, fold, wanted) in [
        (SEVEN, false, (15, CODE)),
        (LONG, false, (59, LONG_CODE)),
        (LONG, true, (55, FOLDED_CODE)),
    ] {
        let found = passes_of_code(&rt, rt.alloc(), source, fold)?;
        assert!(rt; found == wanted, "{found:?}");
    }
    Ok(())
}

// The words that workers share.
#[derive(Clone, Copy, PartialEq, Eq, Debug)]
enum Shared {
    // hands out each chunk's number once
    Claim,
    // hands out the parts of a list, and takes them back
    Deal,
    // a chunk's sum, or the sum up to it, for those who look back
    Status,
    // takes a value at its place
    Cells,
    // keeps the least key
    Least,
}

// The words that are shared in each pass of a build in which two workers meet, phase by phase. Those from depths to words count as one. The gate counts the
// passes of each; which words a pass has is what this table says of it.
const BUILD: &[&[&[Shared]]] = &[
    // tokens: stretches
    &[&[Shared::Claim]],
    // parse: terminals, what pairs close and open, productions
    &[&[Shared::Deal], &[Shared::Claim], &[Shared::Claim]],
    // rows: tokens of rows, four times by stretches, kin, rows of functions, and how many of these stand before
    &[
        &[Shared::Claim],
        &[Shared::Claim],
        &[Shared::Claim],
        &[Shared::Claim],
        &[Shared::Claim],
        &[Shared::Deal],
        &[Shared::Claim],
        &[Shared::Claim, Shared::Status],
    ],
    // names: what is declared, what is found
    &[&[Shared::Claim], &[Shared::Claim]],
    // types, and the first fault of them
    &[&[Shared::Deal], &[Shared::Claim, Shared::Least]],
    // sums of depths and depths; sizes; sums and places; children that jumps go to, and words
    &[
        &[Shared::Claim],
        &[Shared::Claim],
        &[Shared::Deal],
        &[Shared::Claim, Shared::Status],
        &[Shared::Deal],
        &[Shared::Deal],
        &[Shared::Claim, Shared::Cells],
    ],
];

// Whether such words are shared in some pass of a build.
fn is_used(word: Shared) -> bool {
    BUILD
        .iter()
        .any(|passes| passes.iter().any(|words| words.contains(&word)))
}

#[test]
fn build_uses_each_shared_word(rt: HostRuntime) -> Result<(), Fail> {
    let [tokens, parse, rows, names, types] = passes_of_phases(&rt, rt.alloc())?;
    let (_, code) = passes_of_code(&rt, rt.alloc(), SEVEN, false)?;
    let found = [tokens, parse, rows, names, types, code];
    for (passes, (met, _)) in BUILD.iter().zip(&found) {
        assert_eq!(rt; passes.len() as u64, *met);
    }
    for word in [
        Shared::Claim,
        Shared::Deal,
        Shared::Status,
        Shared::Cells,
        Shared::Least,
    ] {
        assert!(rt; is_used(word), "{word:?}");
    }
    Ok(())
}

#[test]
fn build_does_what_its_calls_do(rt: HostRuntime) -> Result<(), Fail> {
    let (mut met, mut alone) = CODE;
    for (both, one) in PHASES {
        met = met.saturating_add(both);
        alone = alone.saturating_add(one);
    }
    assert_eq!(rt; passes_of_build(&rt, rt.alloc())?, (met, alone));
    Ok(())
}
