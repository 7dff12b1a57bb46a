//! A plain interpreter of the source language: it walks the syntax tree of a program and does what the program means, step by step.
#![tactic(auto)]

mod callees;
mod calls;
mod expressions;
mod frames;
mod interpreter;
mod names;
mod numbering;
mod parts;
mod rests;
mod simple;
mod statements;
mod trees;

pub use interpreter::{Numbers, Outcome, walk};
pub use trees::{Args, Expr, Function, Param, Program, Stmt, Stmts};
