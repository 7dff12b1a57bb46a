//! Tests of the passes over arrays. They are a crate of their own, so that no crate is proved a second time with its tests.
#![tactic(auto)]

#[cfg(test)]
mod callers;
#[cfg(test)]
mod examples;
#[cfg(test)]
mod jumping;
#[cfg(test)]
mod minima;
#[cfg(test)]
mod passes;
#[cfg(test)]
mod together;
#[cfg(test)]
mod worked;
