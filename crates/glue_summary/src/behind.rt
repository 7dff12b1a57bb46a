// The last two tokens before a place.

ghost use Rattle.std.specs.Prelude.{◌≡◌};
ghost use Rattle.glue_summary.specs.Pieces.{behind_next};

/// The last two tokens before a place. Before a word the begin mark stands twice.
#[derive(Clone, Copy, PartialEq, Eq, Debug)]
pub struct Behind {
    /// The token before the last one.
    pub before_last: u16,
    /// The last token.
    pub last: u16,
}

impl Behind {
    /// One token further.
    pub fn next(self, b: u16) -> Behind
        ensures { result ≡ behind_next self b }
    {
        Behind {
            before_last: self.last,
            last: b,
        }
    }
}
