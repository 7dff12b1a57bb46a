//! What rows of a stretch do to the rows before it.
ghost use Rattle.std.specs.Prelude.{◌≡◌, ℕ, ◌<◌, ◌≤◌, length, map, min};
ghost use Rattle.std.specs.List.{range_with_len};
ghost use Rattle.ast_rows.specs.NodeRows.{lows_of};
ghost use Rattle.row_laws.specs.Climbed.{parents_by, place_at};
ghost use Rattle.list_cuts.specs.Cuts.{number_at, AreCuts, start_of};
ghost use Rattle.row_kin.specs.Taken.{taker, parent_by};
ghost use Rattle.row_kin.specs.Settles.{Done, DoneAlone, Stretched};
ghost use Rattle.row_kin.specs.Alone.{ties_by_stretches};

use crate::alone::Kin;
use crate::intake::Taker;
use crate::stretches::{Stretch, Stretches};

// The next row of the stretch that may take in rows before it, as its parent is that of the stretch; `to` if it has none.
fn next_record(lows: &[u32], parents: &[u32], i: usize, to: usize) -> usize
    requires within { i < length parents.now }
    requires parent { number_at parents.now i ≡ parent_by lows.now to i }
    requires behind { i < taker lows.now i }
    ensures { result ≡ min (taker lows.now i) to }
{
    let parent = parents[i] as usize;
    if parent == i { to } else { parent }
}

impl Stretch<'_> {
    // Takes the stretch, done by itself, to the rows before it, which are settled among themselves: then all rows up to its end are.
    // The rows that may take in earlier ones are the stretch's first one, its parent, and so on: no other row is looked at, but for the
    // children of these.
    fn settle(&self, parents: &mut [u32], firsts: &mut [u32], places: &mut [u32])
        requires few { length self.now.lows.now ≤ 4294967295 }
        requires parents { length parents.old ≡ length self.now.lows.now }
        requires firsts { length firsts.old ≡ length self.now.lows.now }
        requires places { length places.old ≡ length self.now.lows.now }
        requires order { self.now.from ≤ self.now.to }
        requires within { self.now.to ≤ length self.now.lows.now }
        requires before { Done self.now.lows.now parents.old firsts.old places.old self.now.from }
        requires stretch { DoneAlone self.now.lows.now parents.old firsts.old places.old self.now.from self.now.to }
        ensures done { Done self.now.lows.now parents.new firsts.new places.new self.now.to }
        ensures kept_parents { (k : ℕ) → self.now.to ≤ k → number_at parents.new k ≡ number_at parents.old k }
        ensures kept_firsts { (k : ℕ) → self.now.to ≤ k → number_at firsts.new k ≡ number_at firsts.old k }
        ensures kept_places { (k : ℕ) → self.now.to ≤ k → number_at places.new k ≡ number_at places.old k }
    {
        let mut top = self.from;
        let mut i = self.from;
        while i < self.to {
            let taker = Taker {
                lows: self.lows,
                row: i,
            };
            let earlier = taker.take_in(top, parents, firsts);
            taker.number_again(top, earlier, firsts, places);
            firsts[i] = earlier.first as u32;
            top = earlier.first;
            i = next_record(self.lows, parents, i, self.to);
        }
    }
}

impl Stretches<'_> {
    // Settles all rows, each stretch of which is done by itself.
    fn settle(&self, parents: &mut [u32], firsts: &mut [u32], places: &mut [u32])
        requires few { length self.now.lows.now ≤ 4294967295 }
        requires parents { length parents.old ≡ length self.now.lows.now }
        requires firsts { length firsts.old ≡ length self.now.lows.now }
        requires places { length places.old ≡ length self.now.lows.now }
        requires stretches { Stretched self.now.lows.now parents.old firsts.old places.old self.now.ends.now 0 (length self.now.ends.now) }
        requires all { start_of self.now.ends.now (length self.now.ends.now) ≡ length self.now.lows.now }
        ensures parents { parents.new ≡ parents_by self.now.lows.now }
        ensures firsts { firsts.new ≡ lows_of (parents_by self.now.lows.now) }
        ensures places { places.new ≡ map (place_at (parents_by self.now.lows.now)) (range_with_len 0 (length self.now.lows.now)) }
    {
        let lows = self.lows;
        let mut from = 0;
        for end in self.ends {
            let to = *end;
            let stretch = Stretch { lows, from, to };
            stretch.settle(parents, firsts, places);
            from = to;
        }
    }

    // Settles all rows, from what the stretches know.
    fn settle_known(&self, parents: &mut [u32], firsts: &mut [u32], places: &mut [u32])
        requires few { length self.now.lows.now ≤ 4294967295 }
        requires cuts { AreCuts self.now.ends.now (length self.now.lows.now) }
        requires parents { parents.old ≡ map (λ t. t.parent) (ties_by_stretches self.now.lows.now self.now.ends.now) }
        requires firsts { firsts.old ≡ map (λ t. t.low) (ties_by_stretches self.now.lows.now self.now.ends.now) }
        requires places { places.old ≡ map (λ t. t.place) (ties_by_stretches self.now.lows.now self.now.ends.now) }
        ensures parents { parents.new ≡ parents_by self.now.lows.now }
        ensures firsts { firsts.new ≡ lows_of (parents_by self.now.lows.now) }
        ensures places { places.new ≡ map (place_at (parents_by self.now.lows.now)) (range_with_len 0 (length self.now.lows.now)) }
    {
        self.settle(parents, firsts, places);
    }
}

/// The kin of all rows, from the lists of what the stretches that end where `ends` says know by themselves, one behind the other: one
/// worker goes once over the rows whose subtrees may begin before their stretch.
pub fn kin_settled(lows: &[u32], ends: &[usize], known: Kin) -> Kin
    requires few { length lows.now ≤ 4294967295 }
    requires cuts { AreCuts ends.now (length lows.now) }
    requires parents { known.parents.items ≡ map (λ t. t.parent) (ties_by_stretches lows.now ends.now) }
    requires lows { known.lows.items ≡ map (λ t. t.low) (ties_by_stretches lows.now ends.now) }
    requires places { known.places.items ≡ map (λ t. t.place) (ties_by_stretches lows.now ends.now) }
    ensures parents { result.parents.items ≡ parents_by lows.now }
    ensures lows { result.lows.items ≡ lows_of (parents_by lows.now) }
    ensures places { result.places.items ≡ map (place_at (parents_by lows.now)) (range_with_len 0 (length lows.now)) }
{
    let Kin {
        mut parents,
        lows: mut firsts,
        mut places,
    } = known;
    Stretches { lows, ends }.settle_known(
        parents.as_mut_slice(),
        firsts.as_mut_slice(),
        places.as_mut_slice(),
    );
    Kin {
        parents,
        lows: firsts,
        places,
    }
}
