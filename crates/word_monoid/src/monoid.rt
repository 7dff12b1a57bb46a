//! The trait.

/// Items with an associative join and a unit, each with a code below 2^62 that names it.
pub trait WordMonoid {
    type Item: Copy;

    ghost use Rattle.std.specs.Prelude.{◌≡◌};
    ghost use Rattle.word_monoid.specs.Monoid.{Ops, IsItem, IsCode, IsMonoid};

    /// The operations, as the contracts name them.
    ghost ops: { Self → Ops Self.Item };

    /// The item that changes nothing.
    fn unit(&self) -> Self::Item
        ensures { result ≡ (ops self.now).unit };

    /// The join of two items, the left one first.
    fn join(&self, a: Self::Item, b: Self::Item) -> Self::Item
        requires { IsItem (ops self.now) a × IsItem (ops self.now) b }
        ensures { result ≡ (ops self.now).join a b };

    /// The code of an item, below 2^62.
    fn word(&self, x: Self::Item) -> u64
        requires { IsItem (ops self.now) x }
        ensures { result ≡ (ops self.now).code x };

    /// The item of a code.
    fn of_word(&self, word: u64) -> Self::Item
        requires { IsCode (ops self.now) word }
        ensures { result ≡ (ops self.now).decode word };

    /// Tells whether a value is one of the items, for which the laws hold.
    fn is_item(&self, x: Self::Item) -> bool
        ensures { result ≡ (ops self.now).accepts x };

    /// The laws.
    ghost lawful: { (m : Self) → IsMonoid (ops m) };
}
