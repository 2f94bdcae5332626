//! The calls of one key.

ghost use Rattle.std.specs.Prelude.{◌≡◌, ◌++◌, ◌∷◌, [], OnOk};

use std::alloc::{AllocError, Global};
use std::marker::Model;

/// The calls of one key, by their numbers in the whole, in increasing order.
#[derive(Drop)]
pub(crate) struct CallsOfKey {
    calls: Vec<usize>,
}

// Contracts see the list of the calls' numbers.
impl Model for CallsOfKey {
    ghost use Rattle.std.specs.Prelude.{List, ℕ};

    ghost Value = { List ℕ };

    ghost view = { λ list. list.calls.items };
}

impl CallsOfKey {
    /// No call. It takes no memory.
    pub(crate) fn new(alloc: Global) -> Self
        ensures { result ≡ [] }
    {
        CallsOfKey {
            calls: Vec::new(alloc),
        }
    }

    /// Puts one call more behind the others.
    pub(crate) fn push(&mut self, call: usize) -> Result<(), AllocError>
        ensures { OnOk result (self.new ≡ self.old ++ call ∷ []) }
    {
        self.calls.push(call)?;
        Ok(())
    }

    /// The calls.
    pub(crate) fn calls(&self) -> &[usize]
        ensures { result.now ≡ self.now }
    {
        self.calls.as_slice()
    }
}
