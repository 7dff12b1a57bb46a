//! The states of an automaton along a text.

ghost use Rattle.std.specs.Prelude.{◌≡◌, ◌<◌, ◌≤◌, ◌++◌, codes, decimal, map, IfOk, OnOk};
ghost use Rattle.std.specs.List.{range_with_len};
ghost use Rattle.state_monoid.specs.Automaton.{step};
ghost use Rattle.pass_tables.specs.Tables.{next_states, numbers, state_columns, states_behind};

use crate::columns::{places, push_decimal};
use state_monoid::Dfa;
use std::alloc::{AllocError, Global};
use text_columns::{Align, Column};

// The values of bytes.
fn values(alloc: Global, text: &[u8]) -> Result<Column, AllocError>
    ensures { IfOk result (λ column. column ≡ numbers (codes "value") text.now) }
{
    let mut column = Column::new(alloc, b"value", Align::Right)?;
    for byte in text {
        column.push_number(u64::from(*byte))?;
    }
    Ok(column)
}

// The state behind each byte, from state 0 before the first one.
fn states_behind(alloc: Global, dfa: &Dfa, text: &[u8]) -> Result<Column, AllocError>
    requires some_state { 1 ≤ dfa.now.states }
    ensures { IfOk result (λ column. column ≡ numbers (codes "state") (states_behind dfa.now text.now)) }
{
    let mut column = Column::new(alloc, b"state", Align::Right)?;
    let mut state = 0;
    for byte in text {
        state = dfa.next(state, *byte);
        column.push_number(u64::from(state))?;
    }
    Ok(column)
}

// The state behind each byte where this state is before it.
fn next_states(
    alloc: Global,
    title: &[u8],
    dfa: &Dfa,
    text: &[u8],
    state: u32,
) -> Result<Column, AllocError>
    requires { state < dfa.now.states }
    ensures { IfOk result (λ column. column ≡ numbers title.now (map (step dfa.now state) text.now)) }
{
    let mut column = Column::new(alloc, title, Align::Right)?;
    for byte in text {
        column.push_number(u64::from(dfa.next(state, *byte)))?;
    }
    Ok(column)
}

// The same below the state's number.
fn states_from(alloc: Global, dfa: &Dfa, text: &[u8], state: u32) -> Result<Column, AllocError>
    requires { state < dfa.now.states }
    ensures { IfOk result (λ column. column ≡ next_states dfa.now text.now state) }
{
    let mut title = Vec::new(alloc);
    push_decimal(&mut title, state)?;
    next_states(alloc, &title, dfa, text, state)
}

// Puts such a column behind others for each of the first `count` states.
fn push_states(
    alloc: Global,
    columns: &mut Vec<Column>,
    dfa: &Dfa,
    text: &[u8],
    count: u32,
) -> Result<(), AllocError>
    requires { count ≤ dfa.now.states }
    ensures { OnOk result (columns.new.items ≡ columns.old.items ++ map (next_states dfa.now text.now) (range_with_len 0 count)) }
{
    for state in 0..count {
        columns.push(states_from(alloc, dfa, text, state)?)?;
    }
    Ok(())
}

/// The bytes of a text: the value of each, the state of an automaton behind it, from state 0 before the first byte, and for each state the one behind the
/// byte where that state is before it.
pub fn state_columns(alloc: Global, dfa: &Dfa, text: &[u8]) -> Result<Vec<Column>, AllocError>
    ensures { IfOk result (λ columns. columns.items ≡ state_columns dfa.now text.now) }
{
    let count = dfa.states();
    let places = places(alloc, b"byte", text.len())?;
    let values = values(alloc, text)?;
    let states = states_behind(alloc, dfa, text)?;
    let mut columns = vec![in alloc; places, values, states]?;
    push_states(alloc, &mut columns, dfa, text, count)?;
    Ok(columns)
}
