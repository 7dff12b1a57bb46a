//! A scan by one worker.
ghost use Rattle.std.specs.Prelude.{◌≡◌, length, IfOk};
ghost use Rattle.chunk_seats.specs.Chunks.{chunk_count};
ghost use Rattle.word_monoid.specs.Folds.{prefixes};
ghost use Rattle.scan_lookback.specs.Cuts.{IsScan};

use crate::scanned::Scanned;
use crate::span::run_onto;
use crate::views::Chunks;
use chunk_seats::{Crew, Gate};
use std::alloc::AllocError;
use word_monoid::WordMonoid;
use worker_teams::chunk_slice;

impl<T: Copy, M: WordMonoid, F: Fn(T) -> M::Item> Scanned<'_, T, M, F> {
    // All that one worker does alone: the joins before the items of each chunk in turn, right behind those of the chunk before. The gate is
    // told of each chunk.
    pub(crate) fn scan_alone<C: Crew, N: Chunks<M::Item>>(
        &self,
        crew: &C,
        count: usize,
    ) -> Result<Vec<M::Item>, AllocError>
        requires scan { IsScan M.ops F.pre F.post N.items N.sums self.now }
        requires count { count ≡ chunk_count self.now.size (length self.now.items.now) }
        ensures { IfOk result (λ v. v.items ≡ prefixes (M.ops self.now.monoid.now) N.items) }
    {
        let mut out = Vec::with_capacity(crew.alloc(), self.items.len() + 1)?;
        let mut sum = self.monoid.unit();
        for c in 0..count as u64 {
            crew.gate().after_claim(0, Some(c));
            sum = run_onto(
                self.monoid,
                chunk_slice(self.items, self.size, c),
                self.lift,
                sum,
                &mut out,
            )?;
        }
        crew.gate().after_claim(0, None);
        out.push(sum)?;
        Ok(out)
    }
}
