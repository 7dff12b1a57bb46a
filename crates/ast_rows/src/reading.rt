//! What columns of rows have at a row; behind the last row, what the root has.
ghost use Rattle.std.specs.Prelude.{◌≡◌, slice_index_or};
ghost use Rattle.source_meaning.specs.declared.kinds.Kind.TheVariants.{Program};

use source_meaning::Kind;

/// The kind of a row; where there is none, that of the root.
pub fn kind(kinds: &[Kind], k: u32) -> Kind
    ensures { result ≡ slice_index_or kinds.now k Program }
{
    kinds.get(k as usize).copied().unwrap_or(Kind::Program)
}

/// The number of a row in a column; where there is none, 0.
pub fn number(column: &[u32], k: u32) -> u32
    ensures { result ≡ slice_index_or column.now k 0 }
{
    column.get(k as usize).copied().unwrap_or(0)
}
