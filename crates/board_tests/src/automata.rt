use state_monoid::{BuildFault, Compositions, Dfa, States};
use std::alloc::{AllocError, Global};
use std::test::*;
use word_monoid::WordMonoid;

// The table that keeps each state at each byte.
fn still(alloc: Global, states: u32) -> Result<Vec<u8>, AllocError> {
    let mut table = Vec::new(alloc);
    for place in 0..256 * states.min(64) {
        table.push((place / 256) as u8)?;
    }
    Ok(table)
}

// The automaton that keeps each state at each byte, but for these moves of a state by a byte to another.
fn automaton(alloc: Global, states: u32, moves: &[(u8, u8, u8)]) -> Result<Dfa, Fail> {
    let mut table = still(alloc, states)?;
    for (state, byte, next) in moves {
        let place = table
            .get_mut(*state as usize * 256 + *byte as usize)
            .ok_or("a state")?;
        *place = *next;
    }
    if !Dfa::is_table(states, &table) {
        return Err("no automaton".into());
    }
    Ok(Dfa::new(states, table))
}

// The state that a function gives, if there is such a state.
fn value(function: &States, state: u32) -> Option<u32> {
    if state < function.count() {
        Some(function.apply(state))
    } else {
        None
    }
}

// Whether one function is another and then a third.
fn is_composed(both: &States, first: &States, second: &States) -> bool {
    first.count() == second.count() && first.then(second) == *both
}

const THREE: [(u8, u8, u8); 3] = [(0, b'a', 1), (1, b'a', 2), (2, b'b', 0)];

const WORDS: [(&[u8], [Option<u32>; 4]); 5] = [
    (b"", [Some(0), Some(1), Some(2), None]),
    (b"a", [Some(1), Some(2), Some(2), None]),
    (b"b", [Some(0), Some(1), Some(0), None]),
    (b"ab", [Some(1), Some(0), Some(0), None]),
    (b"ba", [Some(1), Some(2), Some(1), None]),
];

#[test]
fn functions_of_words(rt: HostRuntime) -> Result<(), Fail> {
    let dfa = automaton(rt.alloc(), 3, &THREE)?;
    for (word, values) in WORDS {
        let function = dfa.of_bytes(word);
        for (state, expected) in values.iter().enumerate() {
            assert_eq!(rt; value(&function, state as u32), *expected);
        }
    }
    Ok(())
}

#[test]
fn functions_are_composed(rt: HostRuntime) -> Result<(), Fail> {
    let dfa = automaton(rt.alloc(), 3, &THREE)?;
    let (a, b) = (dfa.of_bytes(b"a"), dfa.of_bytes(b"b"));
    assert!(rt; is_composed(&dfa.of_bytes(b"ab"), &a, &b));
    assert!(rt; is_composed(&dfa.of_bytes(b"ba"), &b, &a));
    assert!(rt; is_composed(&a, &States::identity(&dfa), &a));
    Ok(())
}

#[test]
fn tables_of_automata(rt: HostRuntime) -> Result<(), Fail> {
    let table = vec![in rt.alloc(); 1; 512]?;
    assert!(rt; Dfa::is_table(2, &table));
    assert!(rt; !Dfa::is_table(1, &table[..256]));
    assert!(rt; !Dfa::is_table(3, &table));
    assert!(rt; !Dfa::is_table(0, &[]));
    Ok(())
}

fn built(alloc: Global, dfa: &Dfa) -> Result<Compositions, Fail> {
    match Compositions::build(alloc, dfa) {
        Ok(compositions) => Ok(compositions),
        Err(_) => Err("built".into()),
    }
}

// The join of two items, by the trait alone.
fn joined<M: WordMonoid + Sync>(monoid: &M, a: M::Item, b: M::Item) -> Option<u64> {
    if monoid.is_item(a) && monoid.is_item(b) {
        let item = monoid.join(a, b);
        Some(monoid.word(item))
    } else {
        None
    }
}

// The state to which a function leads, by number.
fn applied(compositions: &Compositions, code: u16, state: u32) -> Option<u32> {
    if (code as u32) < compositions.count() && state < compositions.dfa().states() {
        Some(compositions.apply(code, state))
    } else {
        None
    }
}

// How many functions there are, and the numbers of those of no byte, of a byte that exchanges two states, and of another one.
fn numbers(compositions: &Compositions) -> (u32, u16, u16, u16) {
    (
        compositions.count(),
        compositions.unit(),
        compositions.of_byte(b'a'),
        compositions.of_byte(b'b'),
    )
}

#[test]
fn two_states_exchanged(rt: HostRuntime) -> Result<(), Fail> {
    let dfa = automaton(rt.alloc(), 2, &[(0, b'a', 1), (1, b'a', 0)])?;
    let compositions = built(rt.alloc(), &dfa)?;
    assert!(rt; numbers(&compositions) == (2, 0, 1, 0));
    for (a, b, both) in [
        (1, 1, Some(0)),
        (0, 1, Some(1)),
        (1, 0, Some(1)),
        (1, 2, None),
    ] {
        assert_eq!(rt; joined(&compositions, a, b), both);
    }
    for (code, state, expected) in [(1, 0, Some(1)), (1, 1, Some(0)), (0, 1, Some(1))] {
        assert_eq!(rt; applied(&compositions, code, state), expected);
    }
    Ok(())
}

// How many functions there are, or how many had been reached when there were too many.
fn counted(alloc: Global, dfa: &Dfa) -> Result<(u32, bool), Fail> {
    match Compositions::build(alloc, dfa) {
        Ok(compositions) => Ok((compositions.count(), true)),
        Err(BuildFault::TooMany { reached }) => Ok((reached, false)),
        Err(BuildFault::NoMemory) => Err("memory".into()),
    }
}

// Twelve pairs of states, of which a byte each takes the first to the second, and a last state to which z leads from everywhere, if
// it is there.
fn switches(alloc: Global, with_last: bool) -> Result<Dfa, Fail> {
    let mut moves = Vec::new(alloc);
    for pair in 0..12u8 {
        moves.push((2 * pair, b'a' + pair, 2 * pair + 1))?;
    }
    if with_last {
        for state in 0..24u8 {
            moves.push((state, b'z', 24))?;
        }
    }
    automaton(alloc, 25, &moves)
}

// Six states of which a, b and c make every function.
const SIX: [(u8, u8, u8); 9] = [
    (0, b'a', 1),
    (1, b'a', 2),
    (2, b'a', 3),
    (3, b'a', 4),
    (4, b'a', 5),
    (5, b'a', 0),
    (0, b'b', 1),
    (1, b'b', 0),
    (1, b'c', 0),
];

#[test]
fn every_function_of_six_states(rt: HostRuntime) -> Result<(), Fail> {
    let dfa = automaton(rt.alloc(), 6, &SIX)?;
    assert!(rt; counted(rt.alloc(), &dfa)? == (4097, false));
    Ok(())
}

#[test]
fn too_many_functions(rt: HostRuntime) -> Result<(), Fail> {
    for (with_last, expected) in [(true, (4097, false)), (false, (4096, true))] {
        let dfa = switches(rt.alloc(), with_last)?;
        assert!(rt; counted(rt.alloc(), &dfa)? == expected);
    }
    Ok(())
}
