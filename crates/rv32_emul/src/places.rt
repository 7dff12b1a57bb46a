// Where regions begin, so that the one that has an address is found by halves.

ghost use Rattle.std.specs.Prelude.{ℕ, List, IfOk, length};
ghost use Rattle.rv32_emul.specs.Stretches.{stretches, AreApart, HavePlaces, ArePlacesOf, IsOnly};

use crate::region::Region;
use std::alloc::{AllocError, Global};

/// The first address of a region, and the region's number.
#[derive(Clone, Copy)]
pub(crate) struct Place {
    start: u32,
    region: usize,
}

/// The places of the regions that have any byte, in the order of the regions.
fn unsorted(alloc: Global, regions: &[Region]) -> Result<Vec<Place>, AllocError>
    ensures { IfOk result (λ v. HavePlaces (stretches regions.now) (length regions.now) v.items) }
{
    let mut places = Vec::with_capacity(alloc, regions.len())?;
    for region in 0..regions.len() {
        if !regions[region].is_empty() {
            places.push(Place {
                start: regions[region].start(),
                region,
            })?;
        }
    }
    Ok(places)
}

/// The places of the regions that have any byte, in the order of their addresses.
pub(crate) fn places_of(alloc: Global, regions: &[Region]) -> Result<Vec<Place>, AllocError>
    ensures { IfOk result (λ v. ArePlacesOf (stretches regions.now) v.items) }
{
    let mut places = unsorted(alloc, regions)?;
    places.sort_unstable_by_key(|place| place.start);
    Ok(places)
}

/// The number of the region that has the byte at an address, if any has it: the last one that begins at or
/// below the address.
pub(crate) fn region_at(places: &[Place], address: u32) -> Option<usize>
    ensures { (ss : List (ℕ × ℕ)) → AreApart ss → ArePlacesOf ss places.now → IsOnly ss address result }
{
    let count = places.partition_point(|place| place.start <= address);
    if count == 0 {
        None
    } else {
        Some(places[count - 1].region)
    }
}
