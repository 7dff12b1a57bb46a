//! Listings of machine code for RV32I and M: a line of text for each word, and the words of such lines again.
#![tactic(auto)]

mod assembler;
mod fault;
mod laws;
mod lines;
mod mnemonics;
mod operands;
mod pieces;
mod writing;

pub use assembler::assemble;
pub use fault::AsmFault;
pub use laws::{listings_are_assembled, texts_have_one_answer};
pub use writing::{LONGEST_LINE, listing, push_hexadecimal, push_line};
