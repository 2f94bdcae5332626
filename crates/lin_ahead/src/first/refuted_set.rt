//! The configurations that a first search has refuted.
ghost use Rattle.std.specs.Prelude.{◌≡◌, ◌++◌, ◌∷◌, ◌⊎◌, [], IfOk, IsTrue};
ghost use Rattle.lin_search.specs.Count.{Among};

use indexmap::IndexSet;
use lin_object::SeqObject;
use lin_search::Config;
use std::alloc::{AllocError, Global};
use std::marker::Model;
use std::mem;

/// Configurations of one problem that first searches refuted, of which nothing more is known. Contracts see them in order of storing.
#[derive(Drop)]
pub struct RefutedSet<O: SeqObject> {
    configs: IndexSet<Config<O>>,
}

impl<O: SeqObject> Model for RefutedSet<O> {
    ghost use Rattle.std.specs.Prelude.{List};
    ghost use Rattle.lin_search.specs.Configuration.{Configuration};

    ghost Value = { List (Configuration O.State) };

    ghost view = { λ set. set.configs.keys };
}

impl<O: SeqObject> RefutedSet<O> {
    /// None. It takes no memory.
    pub fn new(alloc: Global) -> Self
        ensures { result ≡ [] }
    {
        RefutedSet {
            configs: IndexSet::new(alloc),
        }
    }

    // All of them; none are left.
    pub(crate) fn take(&mut self, alloc: Global) -> Self
        ensures all { result ≡ self.old }
        ensures left { self.new ≡ [] }
    {
        mem::replace(self, RefutedSet::new(alloc))
    }

    // Whether the configuration is there. Where none is, it is not hashed: that takes as long as its state is large.
    pub(crate) fn has(&self, config: &Config<O>) -> bool
        ensures { IsTrue result → Among O.State.eq self.now config.now.lifted config.now.state }
    {
        !self.configs.is_empty() && self.configs.contains(config)
    }

    // Adds the configuration, where it is not there.
    pub(crate) fn add(&mut self, config: Config<O>) -> Result<(), AllocError>
        ensures { IfOk result (λ done. (self.new ≡ self.old)
            ⊎ (self.new ≡ self.old ++ config ∷ [])) }
    {
        match self.configs.insert(config) {
            Ok(_) => Ok(()),
            Err(_) => Err(AllocError),
        }
    }
}
