//! What is told of the fronts of stretches, in which the state is known only once the states before the stretches are.
ghost use Rattle.std.specs.Prelude.{◌≡◌, ℕ, ◌<◌, ◌≤◌, ◌^◌, List, length, IfOk};
ghost use Rattle.list_cuts.specs.Cuts.{AreCuts};
ghost use Rattle.par_lexer.specs.Known.{AreFunctions};
ghost use Rattle.par_lexer.specs.Places.{state_before};
ghost use Rattle.par_lexer.specs.Fronts.{AreReady};
ghost use Rattle.par_lexer.specs.Stretches.{AreFrontsOf, ArePartsOf, AreStatesBefore, IsPart, TellsFront};

use crate::functions::Functions;
use crate::parts::{Behind, Part};
use crate::states::NOTHING;
use crate::stretch::{Point, Told, tell};
use chunk_seats::{Crew, Workers};
use list_cuts::stretch_start;
use par_passes::Passes;
use std::alloc::{AllocError, Global};

// The state behind a stretch, by what the stretch tells, from the state before it.
fn state_after(functions: &Functions, part: &Part, state: u32) -> u32
    requires functions { AreFunctions functions.now }
    requires part { (text : List ℕ) × (from : ℕ) × (to : ℕ) × IsPart functions.now.compositions text from to part.now }
    requires below { state < 16 }
    ensures { (text : List ℕ) (from to : ℕ) → IsPart functions.now.compositions text from to part.now → state ≡ state_before text from → result ≡ state_before text to }
{
    match part.behind {
        Behind::State(behind) => behind,
        Behind::Function(number) => functions.compositions.apply(number, state),
    }
}

// The states before the stretches, one after the other.
fn states_before(
    alloc: Global,
    functions: &Functions,
    text: &[u8],
    ends: &[usize],
    parts: &[Part],
) -> Result<Vec<u32>, AllocError>
    requires functions { AreFunctions functions.now }
    requires parts { ArePartsOf functions.now.compositions text.now ends.now parts.now }
    ensures { IfOk result (λ v. AreStatesBefore text.now ends.now parts.now v.items) }
{
    let mut states = Vec::with_capacity(alloc, parts.len())?;
    let mut state = u32::from(NOTHING);
    for c in 0..parts.len() {
        states.push(state)?;
        state = state_after(functions, &parts[c], state);
    }
    Ok(states)
}

// How many bytes the fronts have.
fn count_bytes(ends: &[usize], parts: &[Part]) -> usize
    requires { length parts.now ≤ length ends.now }
{
    let mut count = 0_usize;
    for c in 0..parts.len() {
        let front = parts[c].known.saturating_sub(stretch_start(ends, c));
        count = count.saturating_add(front);
    }
    count
}

// Up to this many bytes of fronts are told by one worker: to start a thread takes longer.
const FEW_BYTES: usize = 4096;

// Stretches of a text: where each ends, what each tells by itself, and the state before each.
#[derive(Clone, Copy)]
struct Stretches<'a> {
    functions: &'a Functions,
    text: &'a [u8],
    ends: &'a [usize],
    parts: &'a [Part],
    states: &'a [u32],
}

impl Stretches<'_> {
    // What is told of the front of stretch number c.
    fn front(&self, alloc: Global, c: usize) -> Result<Told, AllocError>
        requires ready { AreReady self.now }
        requires inside { c < length self.now.parts.now }
        ensures { IfOk result (TellsFront self.now.text.now self.now.ends.now self.now.parts.now c) }
    {
        let dfa = self.functions.compositions.dfa();
        let mut point = Point {
            place: stretch_start(self.ends, c),
            state: self.states[c],
        };
        tell(alloc, dfa, self.text, &mut point, self.parts[c].known)
    }

    // What is told of the front of each.
    fn fronts(&self, crew: &impl Passes) -> Result<Vec<Told>, AllocError>
        requires ready { AreReady self.now }
        requires count { length self.now.parts.now < 2 ^ 62 }
        ensures { IfOk result (λ v. AreFrontsOf self.now.text.now self.now.ends.now self.now.parts.now v.items) }
    {
        let alloc = crew.alloc();
        let make = |c: u64| -> Result<Told, AllocError>
            requires { AreReady self.now × (c < length self.now.parts.now) }
            ensures { IfOk result (TellsFront self.entry.now.text.now self.entry.now.ends.now self.entry.now.parts.now c) }
        { self.front(alloc, c as usize) };
        let bytes = count_bytes(self.ends, self.parts);
        let crew = Workers {
            runtime: crew.runtime(),
            alloc,
            plan: crew.plan().for_items(bytes).unless_few(bytes, FEW_BYTES),
            gate: crew.gate(),
        };
        crew.bundles(self.parts.len(), &make)
    }
}

// What is told of the front of each stretch.
pub(crate) fn fronts(
    crew: &impl Passes,
    functions: &Functions,
    text: &[u8],
    ends: &[usize],
    parts: &[Part],
) -> Result<Vec<Told>, AllocError>
    requires len { length text.now ≤ 2 ^ 24 }
    requires functions { AreFunctions functions.now }
    requires cuts { AreCuts ends.now (length text.now) }
    requires count { length ends.now < 2 ^ 62 }
    requires parts { ArePartsOf functions.now.compositions text.now ends.now parts.now }
    ensures { IfOk result (λ v. AreFrontsOf text.now ends.now parts.now v.items) }
{
    let states = states_before(crew.alloc(), functions, text, ends, parts)?;
    let stretches = Stretches {
        functions,
        text,
        ends,
        parts,
        states: states.as_slice(),
    };
    stretches.fronts(crew)
}
