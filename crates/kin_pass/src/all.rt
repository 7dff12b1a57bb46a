//! The kin of all rows.
ghost use Rattle.std.specs.Prelude.{◌≡◌, ◌<◌, ◌≤◌, ◌^◌, length, IfOk};
ghost use Rattle.list_cuts.specs.Cuts.{AreCuts};
ghost use Rattle.row_kin.specs.Alone.{ties_alone};
ghost use Rattle.kin_pass.specs.Kin.{AreKin, AreTies};
ghost use Rattle.kin_pass.specs.Lists.{HasRows, known_alone};

use crate::lent::lend_all;
use list_cuts::stretch_ends;
use par_passes::Passes;
use row_kin::{Kin, Stretch, Stretches, kin_settled};
use std::alloc::{AllocError, Global};

// Lists of this many zeros.
fn blank_kin(alloc: Global, rows: usize) -> Result<Kin, AllocError>
    ensures { IfOk result (λ v. HasRows rows v) }
{
    Ok(Kin {
        parents: vec![in alloc; 0; rows]?,
        lows: vec![in alloc; 0; rows]?,
        places: vec![in alloc; 0; rows]?,
    })
}

// What is known of the rows, taken as one stretch, written into these lists.
fn write_in_one(lows: &[u32], kin: Kin) -> Kin
    requires few { length lows.now ≤ 4294967295 }
    requires wide { HasRows (length lows.now) kin }
    ensures { AreTies (ties_alone lows.now 0 (length lows.now)) result.parents.items result.lows.items result.places.items }
{
    let Kin {
        mut parents,
        lows: mut firsts,
        mut places,
    } = kin;
    let stretch = Stretch {
        lows,
        from: 0,
        to: lows.len(),
    };
    stretch.write_alone(
        parents.as_mut_slice(),
        firsts.as_mut_slice(),
        places.as_mut_slice(),
    );
    Kin {
        parents,
        lows: firsts,
        places,
    }
}

// What the stretches know by themselves, one behind the other.
fn known_kin(crew: &impl Passes, stretches: &Stretches<'_>) -> Result<Kin, AllocError>
    requires few { length stretches.now.lows.now ≤ 4294967295 }
    requires cuts { AreCuts stretches.now.ends.now (length stretches.now.lows.now) }
    requires count { length stretches.now.ends.now < 2 ^ 62 }
    ensures { IfOk result (λ v. AreTies (known_alone stretches.now) v.parents.items v.lows.items v.places.items) }
{
    let blank = blank_kin(crew.alloc(), stretches.lows.len())?;
    if stretches.ends.len() <= 1 {
        return Ok(write_in_one(stretches.lows, blank));
    }
    lend_all(crew, stretches, blank)
}

/// The kin of rows whose subtrees begin at these ones. `shares` says how many stretches each worker has, where they are no shorter than a chunk; one
/// worker takes all rows in one. It is the same for every crew and all shares. The only refusal is that memory is out.
pub fn kin(crew: &impl Passes, lows: &[u32], shares: u32) -> Result<Kin, AllocError>
    requires few { length lows.now ≤ 4294967295 }
    requires shares { 0 < shares }
    ensures { IfOk result (λ v. AreKin lows.now v) }
{
    let crew = &crew.for_items(lows.len());
    let ends = stretch_ends(crew, lows.len(), shares)?;
    let stretches = Stretches {
        lows,
        ends: ends.as_slice(),
    };
    let known = known_kin(crew, &stretches)?;
    Ok(kin_settled(lows, stretches.ends, known))
}
