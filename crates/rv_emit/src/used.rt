//! The layout that a program uses, which is the short one where its code fits it, and the sizes of the pieces in it.
ghost use Rattle.std.specs.Prelude.{◌≡◌, ◌+◌, ◌<◌, ◌≤◌, ◌^◌, length, map, slice_index_or, IfOk};
ghost use Rattle.limits.specs.Limits.{most_rows};
ghost use Rattle.word_monoid.specs.Folds.{prefixes};
ghost use Rattle.word_monoid.specs.Instances.{count as added};
ghost use Rattle.rv_code.specs.Code.{Short, layout_for};
ghost use Rattle.rv_select.specs.Knowns.{code_layout};
ghost use Rattle.rv_select.specs.Columns.{size_in};
ghost use Rattle.rv_select.specs.Layout.{rows, words_many};

use crate::piece_sizes::row_sizes;
use par_passes::Passes;
use rv_code::MOST_SHORT;
use rv_select::{Columns, Layout, head_size};
use std::alloc::AllocError;

// The sum of all sizes.
fn total(sizes: &[u32]) -> u64
    requires len { length sizes.now ≤ most_rows }
    ensures value { result ≡ slice_index_or (prefixes added sizes.now) (length sizes.now) 0 }
    ensures small { result < 2 ^ 62 }
{
    let mut words: u64 = 0;
    for k in 0..sizes.len() {
        words += sizes[k] as u64;
    }
    words
}

/// The layout of a program with these columns, and how many words each row's piece has in it. The only refusal is that memory is out.
pub(crate) fn used_sizes(
    crew: &impl Passes,
    columns: &Columns<'_>,
) -> Result<(Layout, Vec<u32>), AllocError>
    requires rows { length columns.now.kinds ≤ most_rows }
    ensures layout { IfOk result (λ v. code_layout v.0 ≡ layout_for (words_many Short columns.now)) }
    ensures sizes { IfOk result (λ v. v.1.items ≡ map (size_in columns.now (code_layout v.0)) (rows columns.now)) }
{
    let sizes = row_sizes(crew, Layout::Short, columns)?;
    let words = head_size(Layout::Short, columns) + total(&sizes);
    if words > MOST_SHORT {
        Ok((Layout::Long, row_sizes(crew, Layout::Long, columns)?))
    } else {
        Ok((Layout::Short, sizes))
    }
}
