//! Numbers of which the greater counts.
ghost use Rattle.std.specs.Prelude.{◌≡◌, ◌≤◌, ◌⊎◌, All, Contains};
ghost use Rattle.word_monoid.specs.Folds.{fold_of};
ghost use Rattle.word_monoid.specs.Instances.{greatest};

use crate::monoid::WordMonoid;

/// Numbers below 2^62, of which the greater is taken. The unit is 0.
#[derive(Clone, Copy)]
pub struct Greatest;

const BOUND: u64 = 1 << 62;

impl WordMonoid for Greatest {
    type Item = u64;

    ghost use Rattle.word_monoid.specs.Instances.{greatest};
    ghost use Rattle.word_monoid.specs.Lawful.{greatest_is_monoid};

    ghost ops = { λ _. greatest };

    fn unit(&self) -> u64 {
        0
    }

    fn join(&self, a: u64, b: u64) -> u64 {
        a.max(b)
    }

    fn word(&self, x: u64) -> u64 {
        x
    }

    fn of_word(&self, word: u64) -> u64 {
        word
    }

    fn is_item(&self, x: u64) -> bool {
        x < BOUND
    }

    ghost lawful = { λ _. greatest_is_monoid };
}

/// The join of numbers is at least each of them, and it is one of them or 0.
pub fn greatest_is_there(numbers: &[u64])
    ensures bound { All (λ x. x ≤ fold_of greatest numbers.now) numbers.now }
    ensures met { (fold_of greatest numbers.now ≡ 0) ⊎ Contains numbers.now (fold_of greatest numbers.now) }
{
    // The contract alone speaks of it.
    let _ = numbers;
}
