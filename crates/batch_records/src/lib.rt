//! The input and the output of a batch: many sources as records, one behind the other, and an answer for each.
#![tactic(auto)]

mod answer;
mod fault;
mod laws;
mod reading;

pub use answer::{Answer, AnswerKind};
pub use fault::{BatchError, BatchFault};
pub use laws::{fault_or_records, faults_are_one, records_are_one};
pub use reading::{MOST_BYTES, MOST_RECORDS, Record, read_records, source_of};
