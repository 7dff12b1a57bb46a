//! Parts of the three lists of the kin.

use list_parts::Part;

/// A part of each list, for the same rows.
#[derive(Drop)]
pub(crate) struct KinParts {
    pub(crate) parents: Part<u32>,
    pub(crate) lows: Part<u32>,
    pub(crate) places: Part<u32>,
}
