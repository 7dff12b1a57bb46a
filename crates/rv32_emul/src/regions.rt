// The regions of the segments.

ghost use Rattle.std.specs.Prelude.{◌≡◌, ◌<◌, ◌%◌, ◌^◌, ◌⊎◌, Some, None, [], ◌∷◌, ◌++◌, map, replicate, IfOk, MatchOption, option_map};
ghost use Rattle.rv_isa.specs.Memory.{number_at as number_of_access, stored, fetched, IsAccess};
ghost use Rattle.rv_isa.specs.Encoding.{decoded, InRange};
ghost use Rattle.rv32_emul.specs.Machine.{region_of};
ghost use Rattle.rv32_emul.specs.Access.{allows as permits, IsFirst};
ghost use Rattle.rv32_emul.specs.Stretches.{stretches, AreApart};
ghost use Rattle.rv32_emul.specs.Fixed.{fixed};
ghost use Rattle.rv32_emul.specs.Kept.{IsMemory, AreCode};

use crate::code::{Code, code_of};
use crate::places::{Place, places_of, region_at};
use crate::region::{Access, Region};
use elf_file::Segment;
use rv_isa::Instr;
use std::alloc::{AllocError, Global};
use std::marker::Model;

/// The region that has the byte at an address, where it has all `size` bytes from there on and allows the
/// access.
#[inline(never)]
fn find_by_place(
    regions: &[Region],
    places: &[Place],
    access: Access,
    address: u32,
    size: u32,
) -> Option<usize>
    requires some { 0 < size }
    requires memory { IsMemory regions.now places.now }
    ensures { IsFirst (permits access) regions.now address size result }
{
    let index = region_at(places, address)?;
    if regions[index].allows(access, address, size) {
        Some(index)
    } else {
        None
    }
}

/// The first region that has all `size` bytes from the address on and allows the access. The last one is asked
/// first, which is where the data of most files lies. No other region has what it has.
#[inline(always)]
fn find(
    regions: &[Region],
    places: &[Place],
    access: Access,
    address: u32,
    size: u32,
) -> Option<usize>
    requires some { 0 < size }
    requires memory { IsMemory regions.now places.now }
    ensures { IsFirst (permits access) regions.now address size result }
{
    let count = regions.len();
    if count > 0 && regions[count - 1].allows(access, address, size) {
        Some(count - 1)
    } else {
        find_by_place(regions, places, access, address, size)
    }
}

/// The number of `size` bytes at an address, where a region allows the access.
fn number_at(
    regions: &[Region],
    places: &[Place],
    access: Access,
    address: u32,
    size: u32,
) -> Option<u32>
    requires memory { IsMemory regions.now places.now }
    requires size { (size ≡ 1) ⊎ (size ≡ 2) ⊎ (size ≡ 4) }
    ensures number { result ≡ number_of_access (permits access) regions.now address size }
    ensures fits { MatchOption result (Unit {0}) (λ number. number < 256 ^ size) }
{
    match find(regions, places, access, address, size) {
        Some(index) => {
            let region = &regions[index];
            Some(region.number(address, size))
        }
        None => None,
    }
}

/// Puts the low bytes of a value at an address, where a region may be written.
fn put_at(
    regions: &mut [Region],
    places: &[Place],
    address: u32,
    size: u32,
    value: u32,
) -> Option<()>
    requires memory { IsMemory regions.old places.now }
    requires access { IsAccess address size }
    ensures stored { MatchOption result (stored regions.old address size value ≡ None) (λ _. stored regions.old address size value ≡ Some regions.new) }
    ensures same { result ≡ None → regions.new ≡ regions.old }
    ensures stretches { stretches regions.new ≡ stretches regions.old }
{
    match find(regions, places, Access::Store, address, size) {
        Some(index) => {
            let region = &mut regions[index];
            region.put(address, size, value);
            Some(())
        }
        None => None,
    }
}

/// The regions of a machine's segments, of which no two meet, and their places.
#[derive(Drop)]
pub(crate) struct Regions {
    regions: Vec<Region>,
    places: Vec<Place>,
}

impl Model for Regions {
    ghost use Rattle.std.specs.Prelude.{List};
    ghost use Rattle.rv_isa.specs.Memory.{Region as MemoryRegion};

    ghost Value = { List MemoryRegion };

    ghost view = { λ m. m.regions.items };

    ghost use Rattle.rv32_emul.specs.Kept.{IsMemory};

    ghost invariant = { λ m. IsMemory m.regions.items m.places.items };
}

/// The regions of segments.
fn regions_of(alloc: Global, segments: Vec<Segment>) -> Result<Vec<Region>, AllocError>
    ensures { IfOk result (λ v. v.items ≡ map region_of segments.items) }
{
    let mut regions = Vec::with_capacity(alloc, segments.len())?;
    for segment in segments {
        regions.push(Region::of_segment(alloc, segment)?)?;
    }
    Ok(regions)
}

impl Regions {
    /// The regions of segments.
    pub(crate) fn of_segments(alloc: Global, segments: Vec<Segment>) -> Result<Regions, AllocError>
        requires { AreApart (stretches (map region_of segments.items)) }
        ensures { IfOk result (λ m. m ≡ map region_of segments.items) }
    {
        let regions = regions_of(alloc, segments)?;
        let places = places_of(alloc, &regions)?;
        Ok(Regions { regions, places })
    }

    /// The instructions that are kept of each region that no store changes.
    pub(crate) fn code(&self, alloc: Global) -> Result<Vec<Code>, AllocError>
        ensures { IfOk result (λ v. AreCode v.items (fixed self.now)) }
    {
        code_of(alloc, &self.regions)
    }

    /// The number of the region that has the instruction at the pc, or of any other one.
    #[inline(never)]
    pub(crate) fn region_at(&self, pc: u32) -> usize {
        region_at(&self.places, pc).unwrap_or(0)
    }

    /// The instruction at the pc, where this region keeps it.
    #[inline(always)]
    pub(crate) fn kept(&self, region: usize, pc: u32) -> Option<Instr>
        requires { pc % 4 ≡ 0 }
        ensures { MatchOption result (Unit {0}) (λ i. (option_map decoded (fetched self.now pc) ≡ Some (Some i)) × InRange i) }
    {
        if region < self.regions.len() {
            self.regions[region].kept(pc)
        } else {
            None
        }
    }

    /// The number of `size` bytes at an address, where a region allows the access. This isn't put into
    /// `execute`, which would grow too large to be put into the run.
    #[inline(never)]
    pub(crate) fn number(&self, access: Access, address: u32, size: u32) -> Option<u32>
        requires size { (size ≡ 1) ⊎ (size ≡ 2) ⊎ (size ≡ 4) }
        ensures number { result ≡ number_of_access (permits access) self.now address size }
        ensures fits { MatchOption result (Unit {0}) (λ number. number < 256 ^ size) }
    {
        number_at(&self.regions, &self.places, access, address, size)
    }

    /// Puts the low bytes of a value at an address, where a region may be written. This isn't put into
    /// `execute` either.
    #[inline(never)]
    pub(crate) fn put(&mut self, address: u32, size: u32, value: u32) -> Option<()>
        requires access { IsAccess address size }
        ensures stored { MatchOption result (stored self.old address size value ≡ None) (λ _. stored self.old address size value ≡ Some self.new) }
        ensures same { result ≡ None → self.new ≡ self.old }
        ensures stretches { stretches self.new ≡ stretches self.old }
    {
        put_at(&mut self.regions, &self.places, address, size, value)
    }
}
