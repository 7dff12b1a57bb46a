//! Tests of the command line and of the whole program over memory. They are a crate of their own, so that no crate is proved a second time with its tests.
#![tactic(auto)]

#[cfg(test)]
mod batches;
#[cfg(test)]
mod calls;
#[cfg(test)]
mod commands;
#[cfg(test)]
mod ends;
#[cfg(test)]
mod explanations;
#[cfg(test)]
mod folds;
#[cfg(test)]
mod overlap;
#[cfg(test)]
mod plans;
#[cfg(test)]
mod prints;
#[cfg(test)]
mod tables;
#[cfg(test)]
mod words;
