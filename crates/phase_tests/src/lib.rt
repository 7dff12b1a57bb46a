//! Tests of the phases of the compiler: tokens, rows, names, types, frames and code of sources. They are a crate of their own, so that no crate is proved a second time with its tests.
#![tactic(auto)]

#[cfg(test)]
mod analyses;
#[cfg(test)]
mod columns;
#[cfg(test)]
mod fronts;
#[cfg(test)]
mod lexemes;
#[cfg(test)]
mod pieces;
#[cfg(test)]
mod shapes;
#[cfg(test)]
mod stretches;
#[cfg(test)]
mod words;
