//! Arrays of whole numbers.

ghost use Rattle.std.specs.Prelude.{◌≡◌, ◌++◌, ◌∷◌, [], Some, IfOk, OnOk};

use smallvec::SmallVec;
use std::alloc::{AllocError, Global};
use std::marker::Model;

/// So many whole numbers, which no operation has more of as arguments, take no memory of their own.
pub(crate) type Numbers = SmallVec<i64, 2>;

/// The whole numbers of a JSON array, each of 64 bits. Contracts see the list.
#[derive(Drop)]
pub(crate) struct Wholes {
    numbers: Numbers,
}

impl Model for Wholes {
    ghost use Rattle.std.specs.Prelude.{◌≡◌, List, ℤ, Some};
    ghost use Rattle.lin_text.specs.Fields.{wholes};
    ghost use Rattle.lin_text.specs.WholeNumbers.{items_of};

    ghost Value = { List ℤ };

    ghost view = { λ w. w.numbers.items };

    // What is read of the array is these numbers.
    ghost invariant = { λ w. wholes (items_of w.numbers.items) ≡ Some w.numbers.items };
}

impl Wholes {
    ghost use Rattle.lin_text.specs.Fields.{wholes};
    ghost use Rattle.lin_text.specs.WholeNumbers.{items_of};

    /// No number. It takes no memory.
    pub(crate) fn none(alloc: Global) -> Self
        ensures { result ≡ [] }
    {
        Wholes {
            numbers: Numbers::new(alloc),
        }
    }

    /// Appends a number. `AllocError` where memory was refused.
    pub(crate) fn push(&mut self, number: i64) -> Result<(), AllocError>
        ensures { OnOk result (self.new ≡ self.old ++ number ∷ []) }
    {
        self.numbers.push(number)?;
        Ok(())
    }

    /// What is read of the array. `AllocError` where memory was refused.
    pub(crate) fn copy(&self, alloc: Global) -> Result<Numbers, AllocError>
        ensures { IfOk result (λ numbers. wholes (items_of self.now) ≡ Some numbers.items) }
    {
        Numbers::from_slice(alloc, self.numbers.as_slice())
    }
}
