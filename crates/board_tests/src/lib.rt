//! Tests of the boards, of what workers share by them, and of what a scan joins. They are a crate of their own, so that no crate is proved a second time with its tests.
#![tactic(auto)]

#[cfg(test)]
mod automata;
#[cfg(test)]
mod claims;
#[cfg(test)]
mod deals;
#[cfg(test)]
mod monoids;
#[cfg(test)]
mod parts;
#[cfg(test)]
mod scans;
#[cfg(test)]
mod scatters;
#[cfg(test)]
mod schedules;
#[cfg(test)]
mod status_boards;
#[cfg(test)]
mod teams;
#[cfg(test)]
mod workers;
#[cfg(test)]
mod works;
