//! A list that is asked for its nearest values.
ghost use Rattle.std.specs.Prelude.{◌≡◌, ◌+◌, ◌≤◌, length, IfOk, IfSome, IfNone};
ghost use Rattle.near_smaller.specs.Nearest.{AreAbove, IsPrevious, IsNext, prev_le, next_le};

use crate::before::{height_before, place_before};
use crate::behind::{height_behind, place_behind};
use crate::levels::all_levels;
use par_passes::Passes;
use std::alloc::AllocError;
use std::marker::Model;

/// Values, and the minima of their blocks. Contracts see the list of the values.
#[derive(Drop)]
pub struct Minima {
    levels: Vec<Vec<i64>>,
}

impl Model for Minima {
    ghost use Rattle.std.specs.Prelude.{List, ℤ};

    ghost Value = { List ℤ };

    ghost use Rattle.near_smaller.specs.Levels.{AreLevels, lists_of, level_at};

    ghost view = { λ m. level_at (lists_of m.levels.items) 0 };

    ghost invariant = { λ m. AreLevels (lists_of m.levels.items) };
}

impl Minima {
    /// The values, with the minima of all their blocks: twice as many words as there are values. It is the same for every crew. The only
    /// refusal is that memory is out.
    pub fn build(crew: &impl Passes, values: &[i64]) -> Result<Minima, AllocError>
        ensures { IfOk result (λ m. m ≡ values.now) }
    {
        let levels = all_levels(crew, values)?;
        Ok(Minima { levels })
    }

    /// The greatest place before i whose value is at most x, `None` exactly where there is none. It takes no memory, and
    /// logarithmic time.
    pub fn prev_le(&self, i: usize, x: i64) -> Option<usize>
        requires { i ≤ length self.now }
        ensures value { result ≡ prev_le self.now i x }
        ensures found { IfSome result (IsPrevious self.now i x) }
        ensures none { IfNone result (AreAbove self.now x 0 i) }
    {
        let height = height_before(&self.levels, i, x)?;
        Some(place_before(&self.levels, i, height, x))
    }

    /// The least place behind i whose value is at most x, `None` exactly where there is none. It takes no memory, and logarithmic
    /// time.
    pub fn next_le(&self, i: usize, x: i64) -> Option<usize>
        requires { i ≤ length self.now }
        ensures value { result ≡ next_le self.now i x }
        ensures found { IfSome result (IsNext self.now i x) }
        ensures none { IfNone result (AreAbove self.now x (i + 1) (length self.now)) }
    {
        let height = height_behind(&self.levels, i, x)?;
        Some(place_behind(&self.levels, i, height, x))
    }
}
