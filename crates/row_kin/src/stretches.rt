//! Stretches of the rows, and what one knows by itself.
ghost use Rattle.std.specs.Prelude.{◌≡◌, ℕ, ◌+◌, ◌-◌, ◌<◌, ◌≤◌, length, map};
ghost use Rattle.list_cuts.specs.Cuts.{number_at};
ghost use Rattle.row_kin.specs.Alone.{ties_alone};

use crate::alone::kin_into;

/// What is known of a row.
#[derive(Clone, Copy)]
pub struct Ties {
    /// Its parent; a root is its own.
    pub parent: u32,
    /// The first row of its subtree.
    pub low: u32,
    /// Its place among the children of its parent; that of a root is 0.
    pub place: u32,
}

// Adds a number to each one of a list.
fn shift(numbers: &mut [u32], by: usize)
    requires few { by ≤ 4294967295 }
    requires fits { (k : ℕ) → k < length numbers.old → by + number_at numbers.old k ≤ 4294967295 }
    ensures { (k : ℕ) → k < length numbers.old → number_at numbers.new k ≡ by + number_at numbers.old k }
{
    for n in numbers.iter_mut() {
        *n += by as u32;
    }
}

/// A stretch of rows, from one up to another.
#[derive(Clone, Copy)]
pub struct Stretch<'a> {
    /// The first row of the subtree of each row.
    pub lows: &'a [u32],
    /// The first row of the stretch.
    pub from: usize,
    /// The row behind its last one.
    pub to: usize,
}

impl Stretch<'_> {
    /// Writes what the stretch knows by itself into its parts of three lists.
    pub fn write_alone(&self, parents: &mut [u32], firsts: &mut [u32], places: &mut [u32])
        requires few { length self.now.lows.now ≤ 4294967295 }
        requires order { self.now.from ≤ self.now.to }
        requires within { self.now.to ≤ length self.now.lows.now }
        requires parents { length parents.old ≡ self.now.to - self.now.from }
        requires firsts { length firsts.old ≡ self.now.to - self.now.from }
        requires places { length places.old ≡ self.now.to - self.now.from }
        ensures parents { parents.new ≡ map (λ t. t.parent) (ties_alone self.now.lows.now self.now.from self.now.to) }
        ensures firsts { firsts.new ≡ map (λ t. t.low) (ties_alone self.now.lows.now self.now.from self.now.to) }
        ensures places { places.new ≡ map (λ t. t.place) (ties_alone self.now.lows.now self.now.from self.now.to) }
    {
        let own = &self.lows[self.from..self.to];
        kin_into(own, parents, firsts, places);
        shift(parents, self.from);
        shift(firsts, self.from);
    }
}

/// All rows, by stretches in order.
#[derive(Clone, Copy)]
pub struct Stretches<'a> {
    /// The first row of the subtree of each row.
    pub lows: &'a [u32],
    /// The row behind the last one of each stretch.
    pub ends: &'a [usize],
}
