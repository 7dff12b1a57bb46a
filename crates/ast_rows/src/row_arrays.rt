//! Arrays of rows that belong together.

/// How the rows of a tree hang together.
#[derive(Drop)]
pub struct Links {
    /// The number of each row's parent; that of the root is its own.
    pub parents: Vec<u32>,
    /// How many siblings stand before each row.
    pub places: Vec<u32>,
    /// The number of the first row of each row's subtree.
    pub lows: Vec<u32>,
}

/// Which rows are functions, and in which function each row stands.
#[derive(Drop)]
pub struct FunctionColumns {
    /// The rows of functions, in order.
    pub rows: Vec<u32>,
    /// How many functions stand before each row, and how many there are.
    pub owners: Vec<u32>,
}
