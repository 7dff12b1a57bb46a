//! The three lists are handed out as parts, one list after the other.
ghost use Rattle.std.specs.Prelude.{◌≡◌, length, IfOk};
ghost use Rattle.std.specs.Result.{OnOk};
ghost use Rattle.list_parts.specs.Parts.{part_items, SamePlaces};
ghost use Rattle.kin_pass.specs.Kin.{AreTies};
ghost use Rattle.kin_pass.specs.Lists.{AreStretches, HasRows, IsLent, known_alone, row_count};

use crate::kin_parts::KinParts;
use crate::written::write_all;
use list_parts::{Part, with_part};
use par_passes::Passes;
use row_kin::{Kin, Stretches};
use std::alloc::AllocError;

// Two lists are parts. The last one is handed out.
fn lend_places(
    crew: &impl Passes,
    stretches: &Stretches<'_>,
    parts: (Part<u32>, Part<u32>),
    places: Vec<u32>,
) -> ((Part<u32>, Part<u32>), Vec<u32>, Result<(), AllocError>)
    requires stretches { AreStretches stretches.now }
    requires lent { IsLent (row_count stretches.now) parts.0 × IsLent (row_count stretches.now) parts.1 }
    requires wide { length places.items ≡ row_count stretches.now }
    ensures place { SamePlaces parts.0 result.0.0 × SamePlaces parts.1 result.0.1 }
    ensures ties { OnOk result.2 (AreTies (known_alone stretches.now) (part_items result.0.0) (part_items result.0.1) result.1.items) }
{
    let mut places = places;
    let write = |places: Part<u32>, parts: (Part<u32>, Part<u32>)| -> (
        Part<u32>,
        ((Part<u32>, Part<u32>), Result<(), AllocError>),
    )
        requires { AreStretches stretches.now × IsLent (row_count stretches.now) places
            × IsLent (row_count stretches.now) parts.0 × IsLent (row_count stretches.now) parts.1 }
        ensures place { SamePlaces places result.0 × SamePlaces parts.0 result.1.0.0 × SamePlaces parts.1 result.1.0.1 }
        ensures ties { OnOk result.1.1 (AreTies (known_alone stretches.entry.now) (part_items result.1.0.0) (part_items result.1.0.1) (part_items result.0)) }
    {
        let (parents, firsts) = parts;
        let whole = KinParts {
            parents,
            lows: firsts,
            places,
        };
        let (whole, done) = write_all(crew, stretches, whole);
        let KinParts {
            parents,
            lows: firsts,
            places,
        } = whole;
        (places, ((parents, firsts), done))
    };
    let (parts, done) = with_part(places.as_mut_slice(), parts, write);
    (parts, places, done)
}

// One list is a part. The other two are handed out.
fn lend_lows(
    crew: &impl Passes,
    stretches: &Stretches<'_>,
    parents: Part<u32>,
    rest: (Vec<u32>, Vec<u32>),
) -> (Part<u32>, (Vec<u32>, Vec<u32>), Result<(), AllocError>)
    requires stretches { AreStretches stretches.now }
    requires lent { IsLent (row_count stretches.now) parents }
    requires wide { (length rest.0.items ≡ row_count stretches.now) × (length rest.1.items ≡ row_count stretches.now) }
    ensures place { SamePlaces parents result.0 }
    ensures ties { OnOk result.2 (AreTies (known_alone stretches.now) (part_items result.0) result.1.0.items result.1.1.items) }
{
    let (mut firsts, places) = rest;
    let write = |firsts: Part<u32>, rest: (Part<u32>, Vec<u32>)| -> (
        Part<u32>,
        (Part<u32>, Vec<u32>, Result<(), AllocError>),
    )
        requires { AreStretches stretches.now × IsLent (row_count stretches.now) firsts × IsLent (row_count stretches.now) rest.0
            × (length rest.1.items ≡ row_count stretches.now) }
        ensures place { SamePlaces firsts result.0 × SamePlaces rest.0 result.1.0 }
        ensures ties { OnOk result.1.2 (AreTies (known_alone stretches.entry.now) (part_items result.1.0) (part_items result.0) result.1.1.items) }
    {
        let (parents, places) = rest;
        let (parts, places, done) = lend_places(crew, stretches, (parents, firsts), places);
        let (parents, firsts) = parts;
        (firsts, (parents, places, done))
    };
    let (parents, places, done) = with_part(firsts.as_mut_slice(), (parents, places), write);
    (parents, (firsts, places), done)
}

/// What the stretches know by themselves, written into these lists by the workers.
pub(crate) fn lend_all(
    crew: &impl Passes,
    stretches: &Stretches<'_>,
    kin: Kin,
) -> Result<Kin, AllocError>
    requires stretches { AreStretches stretches.now }
    requires wide { HasRows (row_count stretches.now) kin }
    ensures { IfOk result (λ v. AreTies (known_alone stretches.now) v.parents.items v.lows.items v.places.items) }
{
    let Kin {
        mut parents,
        lows: firsts,
        places,
    } = kin;
    let write = |parents: Part<u32>, rest: (Vec<u32>, Vec<u32>)| -> (
        Part<u32>,
        ((Vec<u32>, Vec<u32>), Result<(), AllocError>),
    )
        requires { AreStretches stretches.now × IsLent (row_count stretches.now) parents
            × (length rest.0.items ≡ row_count stretches.now) × (length rest.1.items ≡ row_count stretches.now) }
        ensures place { SamePlaces parents result.0 }
        ensures ties { OnOk result.1.1 (AreTies (known_alone stretches.entry.now) (part_items result.0) result.1.0.0.items result.1.0.1.items) }
    {
        let (parents, rest, done) = lend_lows(crew, stretches, parents, rest);
        (parents, (rest, done))
    };
    let (rest, done) = with_part(parents.as_mut_slice(), (firsts, places), write);
    done?;
    let (firsts, places) = rest;
    Ok(Kin {
        parents,
        lows: firsts,
        places,
    })
}
