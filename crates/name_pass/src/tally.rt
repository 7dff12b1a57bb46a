//! How stretches of rows count the variables of functions.
ghost use Rattle.std.specs.Prelude.{◌≡◌, ℕ, ◌+◌, ◌<◌, ◌≤◌, false};
ghost use Rattle.name_pass.specs.RowNames.{count_step};
ghost use Rattle.name_pass.specs.Stretches.{count_behind};

use source_meaning::Kind;

/// What a stretch of rows does to the count of the variables that a function declares.
#[derive(Clone, Copy)]
pub(crate) struct Tally {
    /// A function ends in it, so that the count begins anew.
    pub(crate) anew: bool,
    /// This many variables are declared in it, behind the last function that ends in it.
    pub(crate) variables: u32,
}

/// How many variables of its function are declared up to a row of this kind, where this many are before it.
pub(crate) fn counted(kind: Kind, before: u32) -> u32
    requires { before < 4294967295 }
    ensures { result ≡ count_step kind before }
{
    match kind {
        Kind::Function(_) => 0,
        Kind::Param(_) | Kind::Var(_) => before + 1,
        _ => before,
    }
}

impl Tally {
    /// What no rows do.
    pub(crate) fn new() -> Tally
        ensures { result ≡ record { anew = false; variables = 0 } }
    {
        Tally {
            anew: false,
            variables: 0,
        }
    }

    /// What the rows do with one more of this kind.
    pub(crate) fn with(self, kind: Kind) -> Tally
        requires { self.variables < 4294967295 }
        ensures counts { (before : ℕ) → count_behind result before ≡ count_step kind (count_behind self before) }
        ensures few { result.variables ≤ self.variables + 1 }
    {
        match kind {
            Kind::Function(_) => Tally {
                anew: true,
                variables: 0,
            },
            Kind::Param(_) | Kind::Var(_) => Tally {
                anew: self.anew,
                variables: self.variables + 1,
            },
            _ => self,
        }
    }

    /// The count behind the rows, where it is so much before them.
    pub(crate) fn behind(self, before: u32) -> u32
        requires { before + self.variables < 4294967296 }
        ensures { result ≡ count_behind self before }
    {
        if self.anew {
            self.variables
        } else {
            before + self.variables
        }
    }
}
