//! What stretches of the text tell without what is before them.
ghost use Rattle.std.specs.Prelude.{◌≡◌, ℕ, ◌<◌, ◌≤◌, ◌^◌, length, slice_get, Some, IfOk};
ghost use Rattle.list_cuts.specs.Cuts.{AreCuts, number_at, start_of};
ghost use Rattle.par_lexer.specs.Known.{AreFunctions, IsBehind, IsKnown};
ghost use Rattle.par_lexer.specs.Places.{state_before};
ghost use Rattle.par_lexer.specs.Stretches.{ArePartsOf, IsPart};
ghost use Rattle.par_lexer.specs.declared.parts.Part.{Part as AnyPart};

use crate::columns::Columns;
use crate::functions::Functions;
use crate::states::NOTHING;
use crate::stretch::{Point, Told, state_behind, tell};
use list_cuts::stretch_start;
use par_passes::Passes;
use std::alloc::{AllocError, Global};

// The state behind a stretch: it is known, or the function with this number leads to it from the state before the stretch.
#[derive(Clone, Copy)]
pub(crate) enum Behind {
    State(u32),
    Function(u16),
}

// Where the state is known in a stretch without what is before: from a place on, or nowhere.
#[derive(Clone, Copy)]
enum Known {
    From(Point),
    Nowhere(u16),
}

// What a stretch tells by itself: where the state is known, what is told from there on, and the state behind the stretch.
#[derive(Drop)]
pub(crate) struct Part {
    pub(crate) known: usize,
    pub(crate) told: Told,
    pub(crate) behind: Behind,
}

// Where the state is known in a stretch: nothing has been read before the text, and a constant function leads to one state.
fn known_in(functions: &Functions, text: &[u8], from: usize, to: usize) -> Known
    requires functions { AreFunctions functions.now }
    requires places { (from ≤ to) × (to ≤ length text.now) }
    ensures { IsKnown functions.now.compositions text.now from to result }
{
    if from == 0 {
        return Known::From(Point {
            place: 0,
            state: u32::from(NOTHING),
        });
    }
    let (count, number) = functions.until_constant(&text[from..to]);
    if functions.is_marked(number) {
        let state = functions.compositions.apply(number, u32::from(NOTHING));
        Known::From(Point {
            place: from + count,
            state,
        })
    } else {
        Known::Nowhere(number)
    }
}

// What is told from a point on, at which the state is known.
fn part_from(
    alloc: Global,
    functions: &Functions,
    text: &[u8],
    point: Point,
    to: usize,
) -> Result<Part, AllocError>
    requires len { length text.now ≤ 2 ^ 24 }
    requires functions { AreFunctions functions.now }
    requires places { (point.place ≤ to) × (to ≤ length text.now) }
    requires state { point.state ≡ state_before text.now point.place }
    ensures { IfOk result (λ part. (from : ℕ) → from ≤ point.place → IsPart functions.now.compositions text.now from to part) }
{
    let dfa = functions.compositions.dfa();
    let known = point.place;
    let mut last = point;
    let told = tell(alloc, dfa, text, &mut last, to)?;
    let state = state_behind(dfa, &text[last.place..to], last.state);
    Ok(Part {
        known,
        told,
        behind: Behind::State(state),
    })
}

// What a stretch tells by itself.
fn make_part(
    alloc: Global,
    functions: &Functions,
    text: &[u8],
    from: usize,
    to: usize,
) -> Result<Part, AllocError>
    requires len { length text.now ≤ 2 ^ 24 }
    requires functions { AreFunctions functions.now }
    requires places { (from ≤ to) × (to ≤ length text.now) }
    ensures { IfOk result (IsPart functions.now.compositions text.now from to) }
{
    match known_in(functions, text, from, to) {
        Known::From(point) => part_from(alloc, functions, text, point, to),
        Known::Nowhere(number) => Ok(Part {
            known: to,
            told: Told::Tokens(Columns::new(alloc)),
            behind: Behind::Function(number),
        }),
    }
}

// What stretch number c tells by itself.
fn part_by_number(
    alloc: Global,
    functions: &Functions,
    text: &[u8],
    ends: &[usize],
    c: usize,
) -> Result<Part, AllocError>
    requires len { length text.now ≤ 2 ^ 24 }
    requires functions { AreFunctions functions.now }
    requires cuts { AreCuts ends.now (length text.now) }
    requires inside { c < length ends.now }
    ensures { IfOk result (IsPart functions.now.compositions text.now (start_of ends.now c) (number_at ends.now c)) }
{
    make_part(alloc, functions, text, stretch_start(ends, c), ends[c])
}

// What each stretch tells by itself.
pub(crate) fn parts(
    crew: &impl Passes,
    functions: &Functions,
    text: &[u8],
    ends: &[usize],
) -> Result<Vec<Part>, AllocError>
    requires len { length text.now ≤ 2 ^ 24 }
    requires functions { AreFunctions functions.now }
    requires cuts { AreCuts ends.now (length text.now) }
    requires count { length ends.now < 2 ^ 62 }
    ensures { IfOk result (λ v. ArePartsOf functions.now.compositions text.now ends.now v.items) }
{
    let alloc = crew.alloc();
    let make = |c: u64| -> Result<Part, AllocError>
        requires { (length text.now ≤ 2 ^ 24) × AreFunctions functions.now × AreCuts ends.now (length text.now) × (c < length ends.now) }
        ensures { IfOk result (IsPart functions.entry.now.compositions text.entry.now (start_of ends.entry.now c) (number_at ends.entry.now c)) }
    { part_by_number(alloc, functions, text, ends, c as usize) };
    crew.bundles(ends.len(), &make)
}
