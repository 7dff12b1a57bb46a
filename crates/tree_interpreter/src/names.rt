// The variables that are in scope where a program runs.

ghost use Rattle.std.specs.Prelude.{◌≡◌, ℕ, ◌+◌, ◌<◌, ◌^◌, [], ◌∷◌, map, length, OnOk};
ghost use Rattle.source_meaning.specs.Scope.{params_scope, no_scope};
ghost use Rattle.tree_interpreter.specs.Trees.{param_of};
ghost use Rattle.tree_interpreter.specs.Running.{number_named, named, name_of, outer};

use crate::trees::Param;
use std::alloc::{AllocError, Global};

/// A variable in scope.
#[derive(Clone, Copy)]
pub(crate) struct Named<'a> {
    pub(crate) name: &'a [u8],
    pub(crate) number: u32,
}

/// The variables in scope, the innermost last.
#[derive(Drop)]
pub(crate) struct Names<'a> {
    all: Vec<Named<'a>>,
}

impl<'a> Names<'a> {
    /// No variable.
    pub(crate) fn new(alloc: Global) -> Names<'a>
        ensures { named result ≡ [] }
    {
        Names {
            all: Vec::new(alloc),
        }
    }

    /// The number of the innermost variable of a name.
    pub(crate) fn number_of(&self, name: &[u8]) -> Option<u32>
        ensures { result ≡ number_named (named self.now) name.now }
    {
        let mut rest = self.all.len();
        while rest > 0 {
            rest -= 1;
            let known = self.all[rest];
            if known.name == name {
                return Some(known.number);
            }
        }
        None
    }

    /// Brings a variable into scope.
    pub(crate) fn declare(&mut self, variable: Named<'a>) -> Result<(), AllocError>
        ensures { OnOk result (named self.new ≡ (variable.entry.name.now, variable.entry.number) ∷ named self.old) }
    {
        self.all.push(variable)?;
        Ok(())
    }

    /// The innermost variable goes out of scope.
    pub(crate) fn forget(&mut self)
        ensures { named self.new ≡ outer (named self.old) }
    {
        self.all.pop();
    }

    /// All variables go out of scope.
    pub(crate) fn clear(&mut self)
        ensures { named self.new ≡ [] }
    {
        self.all.clear();
    }

    /// Brings the parameters of a function into the empty scope.
    pub(crate) fn declare_all(&mut self, params: &'a [Param]) -> Result<(), AllocError>
        requires fresh { named self.old ≡ [] }
        requires fits { length params.now < 2 ^ 32 }
        ensures { OnOk result (named self.new ≡ map name_of (params_scope no_scope (map param_of params.now)).variables) }
    {
        let mut number = 0;
        for param in params {
            self.declare(Named {
                name: &param.name,
                number,
            })?;
            number += 1;
        }
        Ok(())
    }
}
