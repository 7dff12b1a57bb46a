//! What names are resolved of.
use ast_rows::{Rows, Tokens};

/// A text, its tokens and the rows of its syntax tree.
#[derive(Clone, Copy)]
pub(crate) struct Input<'a> {
    pub(crate) text: &'a [u8],
    pub(crate) tokens: &'a Tokens,
    pub(crate) rows: &'a Rows,
}
