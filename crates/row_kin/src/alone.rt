//! All rows of a list, in one walk.
ghost use Rattle.std.specs.Prelude.{◌≡◌, ◌≤◌, length, map};
ghost use Rattle.std.specs.List.{range_with_len};
ghost use Rattle.ast_rows.specs.NodeRows.{lows_of};
ghost use Rattle.row_laws.specs.Climbed.{parents_by, place_at};

use crate::intake::Taker;

/// What is known of rows, each a list by their numbers.
#[derive(Drop)]
pub struct Kin {
    /// The parent of each row; a root is its own.
    pub parents: Vec<u32>,
    /// The first row of each row's subtree.
    pub lows: Vec<u32>,
    /// The place of each row among the children of its parent; that of a root is 0.
    pub places: Vec<u32>,
}

/// Writes the kin of rows whose subtrees begin where `lows` says into three lists.
pub(crate) fn kin_into(lows: &[u32], parents: &mut [u32], firsts: &mut [u32], places: &mut [u32])
    requires few { length lows.now ≤ 4294967295 }
    requires parents { length parents.old ≡ length lows.now }
    requires firsts { length firsts.old ≡ length lows.now }
    requires places { length places.old ≡ length lows.now }
    ensures parents { parents.new ≡ parents_by lows.now }
    ensures firsts { firsts.new ≡ lows_of (parents_by lows.now) }
    ensures places { places.new ≡ map (place_at (parents_by lows.now)) (range_with_len 0 (length lows.now)) }
{
    for i in 0..lows.len() {
        let taker = Taker { lows, row: i };
        let intake = taker.take_in(i, parents, firsts);
        taker.number_taken(i, intake, firsts, places);
        parents[i] = i as u32;
        firsts[i] = intake.first as u32;
        places[i] = 0;
    }
}
