//! Workers write what stretches know by themselves into their parts of the three lists.
ghost use Rattle.std.specs.Prelude.{◌≡◌, ℕ, ◌-◌, ◌<◌, ◌≤◌, Some, length, slice_get, IfOk, IfErr};
ghost use Rattle.std.specs.Result.{OnOk};
ghost use Rattle.list_parts.specs.Parts.{SamePlaces};
ghost use Rattle.row_kin.specs.Alone.{ties_alone};
ghost use Rattle.kin_pass.specs.Lists.{AreStretches, AreTiesIn, AreWide, AreWritten, EachList, IsLent, known_alone, row_count, rows_in};
ghost use Rattle.kin_pass.specs.declared.kin_parts.KinParts.{KinParts as AnyParts};

use crate::cut::cut_at_ends;
use crate::dealt::work_in_place;
use crate::glued::glue_all;
use crate::kin_parts::KinParts;
use list_cuts::stretch_start;
use par_passes::Passes;
use row_kin::{Stretch, Stretches};
use std::alloc::AllocError;

// Writes what a stretch knows by itself into its parts.
fn write_stretch(stretch: &Stretch<'_>, parts: &mut KinParts)
    requires few { length stretch.now.lows.now ≤ 4294967295 }
    requires order { stretch.now.from ≤ stretch.now.to }
    requires within { stretch.now.to ≤ length stretch.now.lows.now }
    requires wide { AreWide (stretch.now.to - stretch.now.from) parts.old }
    ensures place { EachList (λ list. SamePlaces (list parts.old) (list parts.new)) }
    ensures ties { AreTiesIn (ties_alone stretch.now.lows.now stretch.now.from stretch.now.to) parts.new }
{
    stretch.write_alone(
        parts.parents.as_mut_slice(),
        parts.lows.as_mut_slice(),
        parts.places.as_mut_slice(),
    );
}

// The same for stretch number c.
fn write_by_number(stretches: &Stretches<'_>, c: usize, parts: &mut KinParts)
    requires stretches { AreStretches stretches.now }
    requires inside { c < length stretches.now.ends.now }
    requires wide { AreWide (rows_in stretches.now.ends.now c) parts.old }
    ensures { AreWritten stretches.now c parts.old parts.new }
{
    let stretch = Stretch {
        lows: stretches.lows,
        from: stretch_start(stretches.ends, c),
        to: stretches.ends[c],
    };
    write_stretch(&stretch, parts);
}

// Writes what each stretch knows by itself into its parts. Where memory is out, they come back as they were.
fn write_stretches(
    crew: &impl Passes,
    stretches: &Stretches<'_>,
    parts: Vec<KinParts>,
) -> Result<Vec<KinParts>, Vec<KinParts>>
    requires stretches { AreStretches stretches.now }
    requires count { length parts.items ≡ length stretches.now.ends.now }
    requires wide { (c : ℕ) (x : AnyParts) → slice_get parts.items c ≡ Some x → AreWide (rows_in stretches.now.ends.now c) x }
    ensures many { IfOk result (λ v. length v.items ≡ length parts.items) }
    ensures each { IfOk result (λ v. (c : ℕ) (x y : AnyParts) → slice_get parts.items c ≡ Some x → slice_get v.items c ≡ Some y → AreWritten stretches.now c x y) }
    ensures back { IfErr result (λ v. v.items ≡ parts.items) }
{
    let write = |c: u64, parts: &mut KinParts|
        requires { AreStretches stretches.now × (c < length stretches.now.ends.now) × AreWide (rows_in stretches.now.ends.now c) parts.now }
        ensures { AreWritten stretches.entry.now c parts.entry.now parts.exit.now }
    { write_by_number(stretches, c as usize, parts) };
    work_in_place(crew, parts, &write)
}

/// Writes what each stretch knows by itself into three lists of which these parts are all. The parts that come back lie where these do.
pub(crate) fn write_all(
    crew: &impl Passes,
    stretches: &Stretches<'_>,
    whole: KinParts,
) -> (KinParts, Result<(), AllocError>)
    requires stretches { AreStretches stretches.now }
    requires lent { EachList (λ list. IsLent (row_count stretches.now) (list whole)) }
    ensures place { EachList (λ list. SamePlaces (list whole) (list result.0)) }
    ensures ties { OnOk result.1 (AreTiesIn (known_alone stretches.now) result.0) }
{
    let ends = stretches.ends;
    let Ok(room) = Vec::with_capacity(crew.alloc(), ends.len()) else {
        return (whole, Err(AllocError));
    };
    let parts = cut_at_ends(whole, ends, room);
    match write_stretches(crew, stretches, parts) {
        Ok(parts) => (glue_all(parts), Ok(())),
        Err(parts) => (glue_all(parts), Err(AllocError)),
    }
}
