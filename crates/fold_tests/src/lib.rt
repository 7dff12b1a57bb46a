//! Tests of folding.
#![tactic(auto)]

#[cfg(test)]
mod folds;
