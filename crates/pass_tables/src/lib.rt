//! The arrays that the passes of the compiler hand on, as columns of text: the states of the lexer's automaton, tokens, what pairs of tokens tell the
//! parser, the left parse, the rows of the syntax tree, what names mean, types, frames, the pieces of the code, and the code. There is a line for each place
//! of a pass's arrays, with its number first, and a column for each array.
//!
//! What is allocated is the columns, the text of a table, and, where cells are put together of parts, the bytes of one cell.
#![tactic(auto)]

mod code;
mod columns;
mod frames;
mod names;
mod pairs;
mod parse;
mod pieces;
mod rows;
mod states;
mod tokens;
mod types;
mod worked;

pub use code::code_columns;
pub use columns::table;
pub use frames::frame_columns;
pub use names::name_columns;
pub use pairs::pair_columns;
pub use parse::parse_columns;
pub use pieces::place_columns;
pub use rows::{push_kind, row_columns};
pub use states::state_columns;
pub use tokens::{number_at, token_columns};
pub use types::type_columns;
pub use worked::{
    worked_code, worked_frames, worked_names, worked_pairs, worked_parses, worked_pieces,
    worked_rows, worked_states, worked_tokens, worked_types,
};
