//! What is known beforehand of which calls need which.

ghost use Rattle.std.specs.Prelude.{◌≡◌};

use std::marker::Model;

/// Two numbers for each call of a problem, by which one call is known to need another: to come after it wherever it
/// is in a linearization (this project's own). A call needs every call whose number `by` is less than its own
/// number `from`, where the rows are right for the problem. A number is that of an event, or beyond all events.
#[derive(Debug, Drop)]
pub struct NeedRows {
    by: Vec<u64>,
    from: Vec<u64>,
}

impl Model for NeedRows {
    ghost use Rattle.lin_history.specs.Problems.Needs.{NeedNumbers};

    ghost Value = { NeedNumbers };

    ghost view = { λ rows. record { by = rows.by.items; from = rows.from.items } };
}

impl NeedRows {
    /// The rows of these numbers, each in the order of the calls.
    pub fn new(by: Vec<u64>, from: Vec<u64>) -> Self
        ensures { result ≡ record { by = by.items; from = from.items } }
    {
        NeedRows { by, from }
    }

    /// The numbers from which on a call is needed.
    pub fn by(&self) -> &[u64]
        ensures { result.now ≡ self.now.by }
    {
        &self.by
    }

    /// The numbers up to which a call needs others.
    pub fn from(&self) -> &[u64]
        ensures { result.now ≡ self.now.from }
    {
        &self.from
    }
}
