//! What a worker of a scan finds of the chunks that it draws.
ghost use Rattle.std.specs.Prelude.{◌≡◌, [], ◌∷◌};
ghost use Rattle.word_monoid.specs.Instances.{count};
ghost use Rattle.scan_lookback.specs.Named.{Names};

use chunk_seats::ClaimBoard;
use scan_lookback::{Boards, Chunks, Count, ScanBoard, Scanned, Team};
use std::alloc::Global;
use std::marker::Brand;
use std::process::Abort;
use std::test::*;

// The joins before each chunk of five items, in chunks of two, by the one worker there is.
fn works<N: Chunks<u64>>(rt: &impl Abort, alloc: Global) -> Result<(), Fail>
    requires items { N.items ≡ 3 ∷ 1 ∷ 4 ∷ 1 ∷ 5 ∷ [] }
    requires sums { N.sums ≡ 4 ∷ 5 ∷ 5 ∷ [] }
    requires names { Names count N.sums N.sum_codes N.prefix_codes }
{
    let items: [u64; 5] = [3, 1, 4, 1, 5];
    let lift = |x: u64| x;
    let scanned = Scanned {
        monoid: &Count,
        items: &items,
        lift: &lift,
        size: 2,
    };
    let (claims, mine) = ClaimBoard::new(alloc, 3, 1)?;
    let (status, seat) = ScanBoard::<Count, N>::new(alloc, &Count, 3, 1)?;
    let boards = Boards { claims, status };
    let mut team = Team { mine, seat };
    let found = boards.work(alloc, &mut team, &scanned, &|_: Option<u64>| ())?;
    assert!(rt; found.as_slice() == [(0, 0), (1, 4), (2, 9)].as_slice());
    let Boards { claims, status } = boards;
    let Team { mine, seat } = team;
    status.close(seat);
    let closed = claims.close(mine);
    assert_eq!(rt; (closed.counter, closed.finished), (4, 3));
    Ok(())
}

#[test]
fn one_worker(rt: HostRuntime) -> Result<(), Fail> {
    works::<Brand>(&rt, rt.alloc())
}
