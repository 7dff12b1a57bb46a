//! All functions that words make, breadth first.
ghost use Rattle.std.specs.Prelude.{◌≡◌, ℕ, ◌+◌, ◌<◌, ◌≤◌, ◌∷◌, [], ◌++◌, length, map, nat_eq, Err, IfOk, slice_index_or};
ghost use Rattle.std.specs.Cmp.Lexicographic.{pointwise};
ghost use Rattle.std.specs.List.{IsDistinct};
ghost use Rattle.state_monoid.specs.Image.{HasMoreThan};
ghost use Rattle.state_monoid.specs.Letters.{AreLetters};
ghost use Rattle.state_monoid.specs.Explored.{IsNumbered, AreExplored, IsRow, AreRows, StaysIn};
ghost use Rattle.state_monoid.specs.declared.fault.BuildFault.TheVariants.{TooMany};

use crate::fault::BuildFault;
use crate::letters::Letters;
use crate::states::States;
use indexmap::IndexSet;
use std::alloc::Global;

/// The most functions that are numbered.
pub(crate) const MOST_FUNCTIONS: usize = 4096;

/// The function and the letter behind it that made a function first.
#[derive(Clone, Copy)]
pub(crate) struct Origin {
    pub(crate) before: u16,
    pub(crate) letter: u16,
}

/// Functions by their numbers, how each was made first, and for each the numbers of those that one letter more makes.
#[derive(Drop)]
pub(crate) struct Explored {
    pub(crate) functions: IndexSet<States>,
    pub(crate) origins: Vec<Origin>,
    pub(crate) rows: Vec<Vec<u16>>,
}

// The number of a function, which is the next one if the function is new.
fn number(
    functions: &mut IndexSet<States>,
    origins: &mut Vec<Origin>,
    function: States,
    origin: Origin,
) -> Result<u16, BuildFault>
    requires { length functions.old.keys ≤ 4096 }
    ensures ok { IfOk result (IsNumbered functions.old.keys origins.old.items function origin functions.new.keys origins.new.items) }
    ensures count { (reached : ℕ) → result ≡ Err (TooMany reached) → (reached ≡ 4097) × (length functions.new.keys ≡ 4097) }
    ensures all { (reached : ℕ) → result ≡ Err (TooMany reached) → functions.new.keys ≡ functions.old.keys ++ function ∷ [] }
    ensures distinct { (reached : ℕ) → result ≡ Err (TooMany reached) → IsDistinct (pointwise nat_eq) functions.new.keys }
{
    let (code, is_new) = functions.insert_full(function)?;
    if is_new {
        origins.push(origin)?;
        if functions.len() > MOST_FUNCTIONS {
            return Err(BuildFault::TooMany {
                reached: functions.len() as u32,
            });
        }
    }
    Ok(code as u16)
}

// The numbers of the functions that a function makes with one letter more.
fn row(
    alloc: Global,
    letters: &Letters,
    functions: &mut IndexSet<States>,
    origins: &mut Vec<Origin>,
    before: usize,
) -> Result<Vec<u16>, BuildFault>
    requires letters { AreLetters letters.now.dfa 256 letters.now.functions.keys letters.now.of_byte.items }
    requires explored { AreExplored letters.now.dfa letters.now.functions.keys functions.old.keys origins.old.items }
    requires before { before < length functions.old.keys }
    ensures explored { IfOk result (λ _. AreExplored letters.now.dfa letters.now.functions.keys functions.new.keys origins.new.items) }
    ensures stays { IfOk result (λ _. StaysIn functions.old.keys functions.new.keys) }
    ensures row { IfOk result (λ row. IsRow letters.now.functions.keys functions.new.keys (slice_index_or functions.old.keys before []) row.items (length letters.now.functions.keys)) }
    ensures too_many { (reached : ℕ) → result ≡ Err (TooMany reached) → HasMoreThan letters.now.dfa 4096 × (reached ≡ 4097) }
{
    let mut row = Vec::with_capacity(alloc, letters.functions.len())?;
    for (letter, function) in letters.functions.as_slice().iter().enumerate() {
        let next = functions.as_slice()[before].then(function);
        let origin = Origin {
            before: before as u16,
            letter: letter as u16,
        };
        row.push(number(functions, origins, next, origin)?)?;
    }
    Ok(row)
}

/// All functions that words make.
pub(crate) fn explore(alloc: Global, letters: &Letters) -> Result<Explored, BuildFault>
    requires letters { AreLetters letters.now.dfa 256 letters.now.functions.keys letters.now.of_byte.items }
    ensures explored { IfOk result (λ e. AreExplored letters.now.dfa letters.now.functions.keys e.functions.keys e.origins.items) }
    ensures rows { IfOk result (λ e. AreRows letters.now.functions.keys e.functions.keys (map (λ row. row.items) e.rows.items)) }
    ensures all { IfOk result (λ e. length e.rows.items ≡ length e.functions.keys) }
    ensures distinct { IfOk result (λ e. IsDistinct (pointwise nat_eq) e.functions.keys) }
    ensures too_many { (reached : ℕ) → result ≡ Err (TooMany reached) → HasMoreThan letters.now.dfa 4096 × (reached ≡ 4097) }
{
    let mut functions = IndexSet::new(alloc);
    let mut origins = Vec::new(alloc);
    let mut rows = Vec::new(alloc);
    let start = Origin {
        before: 0,
        letter: 0,
    };
    let identity = States::identity(&letters.dfa);
    number(&mut functions, &mut origins, identity, start)?;
    while rows.len() < functions.len() {
        let next = row(alloc, letters, &mut functions, &mut origins, rows.len())?;
        rows.push(next)?;
    }
    Ok(Explored {
        functions,
        origins,
        rows,
    })
}
