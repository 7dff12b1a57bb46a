//! A fault as one number, so that the first fault is the least number.
ghost use Rattle.std.specs.Prelude.{◌≡◌, ◌<◌, ℕ, [], List, Some, None, min as least_of};
ghost use Rattle.source_meaning.specs.Scope.{Fault, earliest};
ghost use Rattle.phase_faults.specs.Keys.{fault_of_key, key_if, key_of, IsKey, IsLeastKey};
ghost use Rattle.phase_faults.specs.Diagnosed.{diagnosed};
ghost use Rattle.phase_faults.specs.declared.fault.PhaseFault.TheVariants.{Diagnostic as Told};

use crate::fault::PhaseFault;
use std::marker::Model;

/// A fault's token and code as one number, 1,024 · token + code, so that the earliest fault has the least key; and the greatest number
/// where there is no fault. Contracts see the number.
#[derive(Clone, Copy, PartialEq, Eq, PartialOrd, Ord, Debug)]
pub struct FaultKey(u64);

impl Model for FaultKey {
    ghost use Rattle.std.specs.Prelude.{ℕ};

    ghost Value = { ℕ };

    ghost view = { λ k. k.0 };

    ghost inverse = { λ n. record { 0 = n } };
}

impl FaultKey {
    /// There is no fault.
    pub const NONE: FaultKey = FaultKey(u64::MAX);

    /// The key of the fault with this code at the token with this number.
    pub fn of(at: u32, code: u16) -> FaultKey
        requires { code < 1024 }
        ensures { result ≡ key_of (record { at = at; code = code }) }
    {
        FaultKey(1024 * u64::from(at) + u64::from(code))
    }

    /// The same where there is a fault, and else that of none.
    pub fn of_if(is_fault: bool, at: u32, code: u16) -> FaultKey
        requires { code < 1024 }
        ensures { result ≡ key_if is_fault at code }
    {
        if is_fault {
            FaultKey::of(at, code)
        } else {
            FaultKey::NONE
        }
    }

    /// The key of the fault that comes first.
    pub fn min(self, other: FaultKey) -> FaultKey
        ensures { result ≡ least_of self other }
    {
        FaultKey(self.0.min(other.0))
    }

    /// The key as a word, for passes that take the least of words.
    pub fn word(self) -> u64
        ensures { result ≡ self }
    {
        self.0
    }

    /// The key that is this word.
    pub fn of_word(word: u64) -> FaultKey
        ensures { result ≡ word }
    {
        FaultKey(word)
    }

    // The fault that this number stands for.
    fn decoded(self) -> Option<PhaseFault>
        ensures { IsKey self → result ≡ diagnosed (fault_of_key self) }
    {
        if self.0 == u64::MAX {
            return None;
        }
        Some(PhaseFault::Diagnostic {
            code: (self.0 % 1024) as u16,
            at: (self.0 / 1024 % (1 << 32)) as u32,
        })
    }

    /// The fault that has this key, if there is one. The least key of faults is that of the first of them.
    pub fn fault(self) -> Option<PhaseFault>
        ensures fault { IsKey self → result ≡ diagnosed (fault_of_key self) }
        ensures none { result ≡ None → (fs : List Fault) → IsLeastKey fs self → fs ≡ [] }
        ensures first { (code at : ℕ) → result ≡ Some (Told code at) → (fs : List Fault) → IsLeastKey fs self
            → earliest fs ≡ Some (record { at = at; code = code }) }
    {
        self.decoded()
    }
}
