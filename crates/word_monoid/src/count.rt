//! Numbers that are added.
ghost use Rattle.std.specs.Prelude.{◌≡◌, ◌^◌, ◌<◌, sum, IsTrue};
ghost use Rattle.word_monoid.specs.Folds.{fold_of};
ghost use Rattle.word_monoid.specs.Instances.{count};

use crate::monoid::WordMonoid;

/// Numbers below 2^62, added modulo 2^62.
#[derive(Clone, Copy)]
pub struct Count;

const MODULUS: u64 = 1 << 62;

impl WordMonoid for Count {
    type Item = u64;

    ghost use Rattle.word_monoid.specs.Instances.{count};
    ghost use Rattle.word_monoid.specs.Lawful.{count_is_monoid};

    ghost ops = { λ _. count };

    fn unit(&self) -> u64 {
        0
    }

    fn join(&self, a: u64, b: u64) -> u64 {
        (a + b) % MODULUS
    }

    fn word(&self, x: u64) -> u64 {
        x
    }

    fn of_word(&self, word: u64) -> u64 {
        word
    }

    fn is_item(&self, x: u64) -> bool {
        x < MODULUS
    }

    ghost lawful = { λ _. count_is_monoid };
}

/// Where the plain sum of counts is below 2^62, their join is that sum.
pub fn counts_are_exact(counts: &[u64])
    requires { sum counts.now < 2 ^ 62 }
    ensures { fold_of count counts.now ≡ sum counts.now }
{
    // The contract alone speaks of it.
    let _ = counts;
}
