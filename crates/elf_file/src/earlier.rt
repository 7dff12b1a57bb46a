// The segments of the program headers so far, with the addresses that they take.

ghost use Rattle.std.specs.Prelude.{◌≡◌, ◌+◌, ◌<◌, ◌≤◌, ◌++◌, [], ◌∷◌, false, List, length, IfOk, sum_by};
ghost use Rattle.elf_file.specs.Load.{Loaded, most};
ghost use Rattle.elf_file.specs.Earlier.{AreApart, Keeps, touches as touches_stretch, touches_segment};

use crate::segments::Segment;
use std::alloc::{AllocError, Global};
use std::collections::BTreeMap;
use std::marker::Model;

/// The addresses from `start` up to `end` share one with a stretch of the map, which has the first
/// address of each and the one behind its last. The last that begins below `end` decides.
fn touches(ends: &BTreeMap<u64, u64>, start: u64, end: u64) -> bool
    requires { AreApart 0 ends.now.entries }
    ensures { result ≡ touches_stretch ends.now.entries start end }
{
    match ends.range(..end).next_back() {
        Some((_, last_end)) => start < *last_end,
        None => false,
    }
}

/// The segments of the program headers so far.
#[derive(Drop)]
pub(crate) struct Earlier {
    segments: Vec<Segment>,
    /// From the first address of each segment, the one behind its last.
    ends: BTreeMap<u64, u64>,
    /// The bytes of all segments.
    total: u64,
}

impl Model for Earlier {
    ghost Value = { List Loaded };

    ghost view = { λ e. e.segments.items };

    ghost invariant = { λ e. Keeps e.segments.items e.ends.entries e.total };
}

impl Earlier {
    /// None yet.
    pub(crate) fn new(alloc: Global) -> Earlier
        ensures { result ≡ [] }
    {
        Earlier {
            segments: Vec::new(alloc),
            ends: BTreeMap::new(alloc),
            total: 0,
        }
    }

    /// The addresses from `start` up to `end` share one with a segment. It takes logarithmic time.
    pub(crate) fn touches(&self, start: u64, end: u64) -> bool
        ensures { result ≡ touches_segment self.now start end }
    {
        touches(&self.ends, start, end)
    }

    /// The bytes of all segments.
    pub(crate) fn total(&self) -> u64
        ensures total { result ≡ sum_by (λ s. length s.bytes) self.now }
        ensures few { result ≤ most }
    {
        self.total
    }

    /// These, and a segment behind them.
    pub(crate) fn with(self, segment: Segment) -> Result<Earlier, AllocError>
        requires some { 0 < length segment.bytes }
        requires apart { touches_segment self segment.start (segment.start + length segment.bytes) ≡ false }
        requires few { sum_by (λ s. length s.bytes) self + length segment.bytes ≤ most }
        ensures { IfOk result (λ e. e ≡ self ++ segment ∷ []) }
    {
        let Earlier {
            mut segments,
            mut ends,
            total,
        } = self;
        let size = segment.bytes().len() as u64;
        ends.insert(u64::from(segment.start()), segment.end())?;
        segments.push(segment)?;
        Ok(Earlier {
            segments,
            ends,
            total: total + size,
        })
    }

    /// The segments, in the order of their program headers.
    pub(crate) fn into_segments(self) -> Vec<Segment>
        ensures { result.items ≡ self }
    {
        self.segments
    }
}
