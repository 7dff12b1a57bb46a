//! Values at their places, each of which says whether the cells are right.
use chunk_seats::Crew;
use scatter_rows::scatter;
use std::alloc::AllocError;

// Five values, and a cell that stays free.
pub(crate) fn five_values(crew: &impl Crew) -> Result<bool, AllocError> {
    let cells = scatter(crew, &[3, 1, 5, 0, 2], &[10, 11, 12, 13, 14], 6)?;
    Ok(cells.as_slice() == [13, 11, 14, 10, 0, 12].as_slice())
}

pub(crate) fn no_value(crew: &impl Crew) -> Result<bool, AllocError> {
    let cells = scatter(crew, &[], &[], 2)?;
    Ok(cells.as_slice() == [0, 0].as_slice())
}
