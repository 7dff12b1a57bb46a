//! Tests of the texts that are made: columns, the tables and the page of the passes, and a batch's answers. They are a crate of their own, so that no
//! crate is proved a second time with its tests.
#![tactic(auto)]

#[cfg(test)]
mod columns;
#[cfg(test)]
mod pages;
#[cfg(test)]
mod records;
#[cfg(test)]
mod tables;
