// What is closed behind each symbol where one terminal comes next, by what is matched last before the symbol.

ghost use Rattle.std.specs.Prelude.{◌≡◌, ◌<◌, [], ℕ, List, length, true, false, IfOk, OnOk, MatchOption};
ghost use Rattle.grammar_file.specs.declared.symbols.Symbol.{Symbol as AnySymbol};
ghost use Rattle.llp_tables.specs.Lookbacks.{cells_at};
ghost use Rattle.llp_tables.specs.Slots.{Empty as EmptySlots};
ghost use Rattle.llp_wide.specs.Claims.{AreClaimsCovered, AreLeastWide, Claim as AnyClaim, IsPassOf};
ghost use Rattle.llp_wide.specs.Added.{Adds};
ghost use Rattle.llp_wide.specs.Classes.{HasWideCell, HasAdded, HasOpened, AreClasses, IsOpen};
ghost use Rattle.llp_wide.specs.Grounds.{IsGround, IsFillingOn, AreClassesOn, room_on};
ghost use Rattle.llp_wide.specs.Settling.{IsTakenOut};
ghost use Rattle.llp_wide.specs.Places.{spots_behind};

use crate::claims::{Ground, Waiting, add_passes, is_covered};
use crate::places::{Group, Place};
use crate::queue::Queue;
use grammar_file::Symbol;
use llp_tables::Members;
use std::alloc::{AllocError, Global};

// A class for each terminal that may be matched last, with no cells yet.
fn empty_classes(alloc: Global, terminals: usize) -> Result<Vec<Members>, AllocError>
    ensures classes { IfOk result (λ v. (nonterminals : ℕ) → AreClasses terminals nonterminals v.items) }
    ensures empty { IfOk result (λ v. (z : ℕ) (s : AnySymbol) → cells_at v.items z s ≡ EmptySlots) }
{
    let mut classes = Vec::new(alloc);
    for _ in 0..terminals {
        let members = Members::new(alloc, 0, 0)?;
        classes.push(members)?;
    }
    Ok(classes)
}

// Whether a class has no cells.
fn is_closed(members: &Members) -> bool
    ensures closed { result ≡ true → IsOpen 0 0 members.now }
    ensures open { result ≡ false → IsOpen 0 0 members.now → ⊥ }
{
    members.terminals.is_empty() && members.nonterminals.is_empty()
}

// Gives the class of z its cells, if it has none.
fn open(
    alloc: Global,
    classes: &mut Vec<Members>,
    z: u16,
    terminals: usize,
    nonterminals: usize,
) -> Result<(), AllocError>
    requires { z < length classes.old.items }
    ensures { OnOk result (HasOpened terminals nonterminals classes.old.items classes.new.items z) }
{
    if !is_closed(&classes[z as usize]) {
        return Ok(());
    }
    let members = Members::new(alloc, terminals, nonterminals)?;
    classes[z as usize] = members;
    Ok(())
}

// Adds a string to the cell of its symbol, where there is room for it.
fn add(classes: &mut Vec<Members>, claim: Waiting)
    requires { HasWideCell classes.old.items claim.before claim.symbol }
    ensures { HasAdded classes.old.items classes.new.items claim }
{
    let Waiting {
        before,
        symbol,
        stack,
    } = claim;
    classes[before as usize].add(symbol, stack);
}

// The places in the right sides of a symbol, entered with that terminal matched last.
fn places_behind(groups: &[Group], count: u16, before: u16, symbol: Symbol) -> &[Place]
    ensures { result.now ≡ spots_behind count groups.now before symbol }
{
    match symbol {
        Symbol::Terminal(_) => &[],
        Symbol::Nonterminal(a) => {
            match groups.get(before as usize * count as usize + a as usize) {
                Some(group) => group.places.as_slice(),
                None => &[],
            }
        }
    }
}

// What the places of its symbol pass on of a string that comes into its cell.
fn passes(
    alloc: Global,
    nullable: &[bool],
    groups: &[Group],
    count: u16,
    owner: &Waiting,
) -> Result<Vec<Waiting>, AllocError>
    ensures { IfOk result (λ v. Adds (IsPassOf nullable.now owner.now (spots_behind count groups.now owner.now.before owner.now.symbol)) [] v.items) }
{
    let mut passed = Vec::new(alloc);
    add_passes(
        alloc,
        nullable,
        places_behind(groups, count, owner.before, owner.symbol),
        owner,
        &mut passed,
    )?;
    Ok(passed)
}

// Takes the least string out that waits and that its cell doesn't cover. Strings that are covered wait no longer.
fn next_waiting(classes: &[Members], queue: &mut Queue) -> Option<Waiting>
    ensures { MatchOption result (AreClaimsCovered queue.old (cells_at classes.now)) (λ p. IsTakenOut (cells_at classes.now) queue.old queue.new p) }
{
    while let Some(next) = queue.next() {
        if !is_covered(classes, &next) {
            return Some(next);
        }
    }
    None
}

// Takes the least string that waits into its cell.
fn take(
    alloc: Global,
    ground: &Ground<'_>,
    claim: Waiting,
    classes: &mut Vec<Members>,
    queue: &mut Queue,
) -> Result<(), AllocError>
    requires ground { IsGround ground.now }
    requires classes { AreClassesOn ground.now classes.old.items }
    requires taken { (before : List AnyClaim) × IsFillingOn ground.now classes.old.items before × IsTakenOut (cells_at classes.old.items) before queue.old claim }
    ensures classes { OnOk result (AreClassesOn ground.now classes.new.items) }
    ensures filling { OnOk result (IsFillingOn ground.now classes.new.items queue.new) }
    ensures room { OnOk result (room_on ground.now classes.new.items < room_on ground.now classes.old.items) }
{
    let count = ground.grammar.nonterminal_count();
    let passed = passes(alloc, ground.nullable, ground.groups, count, &claim)?;
    queue.add(passed)?;
    let terminals = ground.grammar.terminals().len() + 3;
    open(alloc, classes, claim.before, terminals, count as usize)?;
    add(classes, claim);
    Ok(())
}

/// The two least strings that are closed behind each symbol where b comes next, for each terminal that is matched last before the
/// symbol. Strings come in from the least one on, so none is taken out again.
pub(crate) fn least_wide_members(
    alloc: Global,
    ground: &Ground<'_>,
) -> Result<Vec<Members>, AllocError>
    requires { IsGround ground.now }
    ensures { IfOk result (λ v. AreLeastWide ground.now.grammar.now ground.now.b (cells_at v.items)) }
{
    let terminals = ground.grammar.terminals().len() + 3;
    let mut classes = empty_classes(alloc, terminals)?;
    let waiting = ground.first_waiting(alloc)?;
    let mut queue = Queue::of(waiting);
    while let Some(claim) = next_waiting(classes.as_slice(), &mut queue) {
        take(alloc, ground, claim, &mut classes, &mut queue)?;
    }
    Ok(classes)
}
