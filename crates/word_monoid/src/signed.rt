//! Signed numbers that are added.
ghost use Rattle.std.specs.Prelude.{◌≡◌, IsTrue};
ghost use Rattle.word_monoid.specs.Folds.{fold_of};
ghost use Rattle.word_monoid.specs.Instances.{signed, is_signed, int_sum};

use crate::monoid::WordMonoid;

/// Numbers from -2^61 to 2^61 - 1, added modulo 2^62.
#[derive(Clone, Copy)]
pub struct Signed;

const MODULUS: i64 = 1 << 62;

const BOUND: i64 = 1 << 61;

impl WordMonoid for Signed {
    type Item = i64;

    ghost use Rattle.word_monoid.specs.Instances.{signed};
    ghost use Rattle.word_monoid.specs.Lawful.{signed_is_monoid};

    ghost ops = { λ _. signed };

    fn unit(&self) -> i64 {
        0
    }

    fn join(&self, a: i64, b: i64) -> i64 {
        let sum = a + b;
        if sum >= BOUND {
            sum - MODULUS
        } else if sum < -BOUND {
            sum + MODULUS
        } else {
            sum
        }
    }

    fn word(&self, x: i64) -> u64 {
        if x >= 0 {
            x as u64
        } else {
            (x + MODULUS) as u64
        }
    }

    fn of_word(&self, word: u64) -> i64 {
        let residue = word as i64;
        if residue < BOUND {
            residue
        } else {
            residue - MODULUS
        }
    }

    fn is_item(&self, x: i64) -> bool {
        -BOUND <= x && x < BOUND
    }

    ghost lawful = { λ _. signed_is_monoid };
}

/// Where the plain sum of signed numbers is in range, their join is that sum.
pub fn signed_sums_are_exact(numbers: &[i64])
    requires { IsTrue (is_signed (int_sum numbers.now)) }
    ensures { fold_of signed numbers.now ≡ int_sum numbers.now }
{
    // The contract alone speaks of it.
    let _ = numbers;
}
