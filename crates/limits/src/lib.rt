//! The sizes above which the compiler refuses a source: constants for the code, and the same numbers for definitions and proofs in `specs/`.
#![tactic(auto)]

/// The most bytes that a source may have; a longer one is refused with 601.
pub const MOST_SOURCE: usize = 16_777_216;

/// The most bytes that the frame of a function may have; the first function with a greater one is refused with 602.
pub const MOST_FRAME: u64 = 65_520;

/// The most bytes that the code of a program may have; longer code is refused with 603.
pub const MOST_CODE: u64 = 16_777_216;
