//! Sums of numbers of 32 bits.

use word_monoid::WordMonoid;

/// Numbers of 32 bits, added. What is greater becomes the greatest.
pub struct Sum;

impl WordMonoid for Sum {
    type Item = u32;

    ghost use Rattle.kin_pass.specs.Sums.{sum32};
    ghost use Rattle.kin_pass.specs.Sums.{sum32_is_monoid};

    ghost ops = { λ _. sum32 };

    fn unit(&self) -> u32 {
        0
    }

    fn join(&self, a: u32, b: u32) -> u32 {
        a.saturating_add(b)
    }

    fn word(&self, x: u32) -> u64 {
        x as u64
    }

    fn of_word(&self, word: u64) -> u32 {
        word as u32
    }

    fn is_item(&self, x: u32) -> bool {
        x as u64 <= 4294967295
    }

    ghost lawful = { λ _. sum32_is_monoid };
}
