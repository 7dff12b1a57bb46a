// What there is to say of a code, and where it is found.

ghost use Rattle.std.specs.Prelude.{◌≡◌, ◌==◌, find, map, option_map};
ghost use Rattle.diagnostic_texts.specs.Explained.{explanation_of, shown};

use crate::texts::{Row, TEXTS};
use std::marker::Model;

/// What there is to say of a code.
#[derive(Debug, Drop)]
pub struct Explanation {
    /// The code of a diagnostic, or of a limit from 600 on.
    pub code: u32,
    /// What is wrong with the source.
    pub meaning: &'static str,
    /// Where the place is that the diagnostic tells.
    pub place: &'static str,
    /// A source that has it, or what such a source has: whole lines.
    pub example: &'static str,
    /// The line and the column of the place in the example. `None` where the example is no source, since a source that has it is too long to be shown.
    pub at: Option<(u32, u32)>,
    /// How to fix it: whole lines.
    pub mended: &'static str,
}

impl Model for Explanation {
    ghost use Rattle.diagnostic_texts.specs.Explained.{Explained};

    ghost Value = { Explained };

    ghost view = { λ e. record { code = e.code; meaning = e.meaning.now; place = e.place.now; example = e.example.now; at = e.at; mended = e.mended.now } };
}

// The row of a code.
fn row_of(rows: &'static [Row], code: u32) -> Option<&'static Row>
    ensures { option_map (λ row. shown row.now) result ≡ find (λ e. e.code == code) (map shown rows.now) }
{
    rows.iter().find(|row| row.0 == code)
}

/// What there is to say of a code. `None` comes exactly where it is the code of no diagnostic and of no limit.
pub fn explanation_of(code: u32) -> Option<Explanation>
    ensures { result ≡ explanation_of code }
{
    match row_of(TEXTS, code) {
        Some(&(code, meaning, place, example, at, mended)) => Some(Explanation {
            code,
            meaning,
            place,
            example,
            at,
            mended,
        }),
        None => None,
    }
}
