//! How far the instructions of one word reach: constants for the code, and the same numbers for definitions and proofs in `specs/`.

/// The most words of code in the short layout, in which each jump has one word.
pub const MOST_SHORT: u64 = 262_144;

/// The most bytes of a frame that one instruction takes and gives back.
pub const NEAR_FRAME: u32 = 2_032;

/// The greatest offset that a load or a store has room for, in bytes.
pub const NEAR_OFFSET: u32 = 2_047;
