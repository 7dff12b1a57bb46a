// Tables that have a piece for each token that comes next behind two others.

ghost use Rattle.std.specs.Prelude.{◌≡◌, ℕ, Some, None, MatchOption};
ghost use Rattle.glue_summary.specs.Pieces.{Pieces};

use llp_tables::{Entry, Tables};

/// Tables that tell what is closed and opened where a token comes next behind two others. Tables with one token of look-back pass the
/// first of the two over.
pub trait PieceTables {
    /// What is closed and opened, and by which productions.
    ghost pieces: { Self → Pieces };

    /// The end mark.
    ghost mark: { Self → ℕ };

    /// What is closed and opened where b comes next behind z and then a. There is nothing where b never comes next there.
    fn piece(&self, z: u16, a: u16, b: u16) -> Option<Entry<'_>>
        ensures { MatchOption result (pieces self.now z a b ≡ None) (λ e. pieces self.now z a b ≡ Some (record { closes = e.closes.now; opens = e.opens.now; productions = e.productions.now })) };

    /// The mark behind a text.
    fn end(&self) -> u16
        ensures { result ≡ mark self.now };
}

impl PieceTables for Tables {
    ghost use Rattle.glue_summary.specs.Pieces.{end_by, pieces_by};

    ghost pieces = { pieces_by };

    ghost mark = { end_by };

    fn piece(&self, _: u16, a: u16, b: u16) -> Option<Entry<'_>> {
        self.entry(a, b)
    }

    fn end(&self) -> u16 {
        self.width().saturating_sub(1)
    }
}
