//! The back end: the code of a source whose front has no diagnostic.
#![tactic(auto)]

mod clean;
mod coding;

pub use coding::{Framed, LaidOut, code, frames_or_limit, laid_out, parts};
