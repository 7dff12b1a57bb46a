use board_core::{Core, Event, Reply, Status};
use std::test::*;
use word_monoid::Count;

// A reply as a word and a number.
fn told(reply: Reply<u64>) -> (&'static str, u64) {
    match reply {
        Reply::Drew(Some(chunk)) => ("drew", chunk),
        Reply::Drew(None) => ("drew none", 0),
        Reply::Looked(Status::X) => ("nothing", 0),
        Reply::Looked(Status::A(sum)) => ("sum", sum),
        Reply::Looked(Status::P(prefix)) => ("prefix", prefix),
        Reply::Did => ("did", 0),
        Reply::NewSeat(seat) => ("seat", seat),
        Reply::Passed => ("passed", 0),
    }
}

const STEPS: [(Event, &str, u64); 13] = [
    (Event::Split(0, 1), "seat", 1),
    (Event::Claim(1), "drew", 0),
    (Event::Claim(0), "drew", 1),
    (Event::Show(1, 0), "did", 0),
    (Event::Look(0, 0), "sum", 4),
    (Event::Seal(0, 1), "passed", 0),
    (Event::Show(0, 1), "did", 0),
    (Event::Seal(0, 1), "did", 0),
    (Event::Look(1, 1), "prefix", 9),
    (Event::Done(1, 0), "did", 0),
    (Event::Claim(1), "drew none", 0),
    (Event::Claim(1), "passed", 0),
    (Event::Join(0, 0), "passed", 0),
];

#[test]
fn two_seats(rt: HostRuntime) -> Result<(), Fail> {
    let mut core = Core::new(rt.alloc(), Count, &[4, 5], 2)?;
    for (event, word, number) in STEPS {
        assert!(rt; told(core.play(event)?) == (word, number), "{event:?}");
    }
    Ok(())
}

#[test]
fn a_whole_schedule(rt: HostRuntime) -> Result<(), Fail> {
    let mut core = Core::new(rt.alloc(), Count, &[4, 5], 2)?;
    core.play_all(&[
        Event::Split(0, 1),
        Event::Claim(1),
        Event::Show(1, 0),
        Event::Join(0, 1),
        Event::Claim(1),
    ])?;
    // the seat is gone, and what it has shown can be sealed
    assert!(rt; told(core.play(Event::Seal(0, 0))?) == ("did", 0));
    assert!(rt; told(core.play(Event::Claim(1))?) == ("passed", 0));
    Ok(())
}
