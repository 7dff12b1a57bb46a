//! Laws on the keys of faults, each the contract of a function that does nothing.
ghost use Rattle.std.specs.Prelude.{◌≡◌, ℕ, ◌^◌, ◌<◌, ◌≤◌, ◌⊎◌, List, fold, min, map};
ghost use Rattle.std.specs.List.{range_with_len};
ghost use Rattle.source_meaning.specs.Scope.{Fault, earliest};
ghost use Rattle.phase_faults.specs.Keys.{AreCodes, fault_of_key, IsAmong, IsFirst, key_of, no_key};

/// The earliest fault is one of the list whose key, 1024 * at + code, is least.
pub fn earliest_is_least()
    ensures { (fs : List Fault) → AreCodes fs → IsFirst fs (earliest fs) }
{}

/// Where each fault's key is at least the key of a row, and each row's key is that of a fault or stands for none, the least key of
/// the rows tells the earliest fault.
pub fn least_key_tells()
    ensures earliest { (fs : List Fault) (n : ℕ) (h : ℕ → ℕ)
        → ((x : Fault) → IsAmong x fs → (k : ℕ) × (k < n) × (h k ≤ key_of x) × (x.code < 1024) × (x.at < 2 ^ 32))
        → ((k : ℕ) → k < n → (h k ≡ no_key) ⊎ ((x : Fault) × IsAmong x fs × (h k ≡ key_of x)))
        → fault_of_key (fold min no_key (map h (range_with_len 0 n))) ≡ earliest fs }
    ensures fits { (fs : List Fault) (n : ℕ) (h : ℕ → ℕ)
        → ((x : Fault) → IsAmong x fs → (k : ℕ) × (k < n) × (h k ≤ key_of x) × (x.code < 1024) × (x.at < 2 ^ 32))
        → ((k : ℕ) → k < n → (h k ≡ no_key) ⊎ ((x : Fault) × IsAmong x fs × (h k ≡ key_of x)))
        → (fold min no_key (map h (range_with_len 0 n)) ≡ no_key) ⊎ (fold min no_key (map h (range_with_len 0 n)) < 2 ^ 42) }
{}
