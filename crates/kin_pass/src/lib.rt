//! The kin of rows in postorder, from where their subtrees begin: parents, first rows of subtrees and places among siblings. Each of the
//! three lists is made once. Workers draw stretches of the rows and write what these know by themselves into their parts of the lists; then one worker
//! settles the rows whose subtrees may begin before their stretch. Beside them, from the kinds of rows: which are functions, and in which one each row stands.
#![tactic(auto)]

mod all;
mod cut;
mod dealt;
mod function_rows;
mod glued;
mod kin_parts;
mod lent;
mod sums;
mod written;

pub use all::kin;
pub use function_rows::functions;
pub use sums::Sum;
