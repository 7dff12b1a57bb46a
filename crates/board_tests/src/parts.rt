ghost use Rattle.std.specs.Prelude.{◌≡◌, ◌≤◌, [], length, vec_capacity};
ghost use Rattle.list_parts.specs.Parts.{part_items, SamePlaces, Fits};

use list_parts::{Part, with_part};
use std::test::*;
use std::thread::{Threads, join};

// The part with these values.
fn written(part: Part<u64>, values: &[u64]) -> Part<u64>
    requires { length (part_items part) ≡ length values.now }
    ensures { SamePlaces part result }
{
    let mut part = part;
    part.as_mut_slice().copy_from_slice(values);
    part
}

fn mend(whole: Part<u64>, _nothing: ()) -> (Part<u64>, ())
    requires { (length (part_items whole) ≡ 6) × Fits 8 6 }
    ensures { SamePlaces whole result.0 }
{
    let (front, rest) = whole.cut(2);
    let (middle, back) = rest.cut(2);
    let middle = written(middle, &[30, 40]);
    (front.glue(middle).glue(back), ())
}

fn in_two_threads<R: Threads>(whole: Part<u64>, rt: &R) -> (Part<u64>, ())
    requires { (length (part_items whole) ≡ 4) × Fits 8 4 }
    ensures { SamePlaces whole result.0 }
{
    let (front, back) = whole.cut(2);
    let (front, back) = join(rt, || written(front, &[1, 2]), || written(back, &[3, 4]));
    (front.glue(back), ())
}

// Into chunks of two, and one part again, all of whose places are then written.
fn by_chunks(whole: Part<u64>, room: Vec<Part<u64>>) -> (Part<u64>, ())
    requires whole { (length (part_items whole) ≡ 5) × Fits 8 5 }
    requires room { (room.items ≡ []) × (3 ≤ vec_capacity room) }
    ensures { SamePlaces whole result.0 }
{
    let glued = Part::glue_all(whole.cut_all(2, 3, room));
    (written(glued, &[10, 20, 30, 40, 50]), ())
}

#[test]
fn three_parts(rt: HostRuntime) {
    let mut list = [1, 2, 3, 4, 5, 6];
    with_part(&mut list, (), mend);
    assert_eq!(rt; list, [1, 2, 30, 40, 5, 6]);
}

#[test]
fn two_threads(rt: HostRuntime) {
    let mut list = [0; 4];
    with_part(&mut list, &rt, in_two_threads);
    assert_eq!(rt; list, [1, 2, 3, 4]);
}

#[test]
fn chunks_are_glued(rt: HostRuntime) -> Result<(), Fail> {
    let mut list = [1, 2, 3, 4, 5];
    let room = Vec::with_capacity(rt.alloc(), 3)?;
    with_part(&mut list, room, by_chunks);
    assert_eq!(rt; list, [10, 20, 30, 40, 50]);
    Ok(())
}
