//! Orders of one problem's calls.

ghost use Rattle.std.specs.Prelude.{◌≡◌};

use std::marker::Model;

/// Calls of one problem, by their numbers, in an order.
#[derive(Debug, Drop)]
pub struct Order {
    calls: Vec<usize>,
}

// Contracts see the list of the calls' numbers.
impl Model for Order {
    ghost use Rattle.std.specs.Prelude.{List, ℕ};

    ghost Value = { List ℕ };

    ghost view = { λ order. order.calls.items };
}

impl PartialEq for Order {
    ghost use Rattle.std.specs.Prelude.{nat_eq};
    ghost use Rattle.std.specs.Cmp.Lexicographic.{pointwise};
    ghost use Rattle.std.specs.Cmp.Rules.{comparing};
    ghost use Rattle.std.proofs.Common.{rules};

    ghost eq = { pointwise nat_eq };

    ghost laws = { Prim.search (comparing, rules) };

    fn eq(&self, other: &Order) -> bool {
        self.calls.as_slice() == other.calls.as_slice()
    }
}

impl Eq for Order {
    ghost use Rattle.std.specs.Cmp.Rules.{comparing};
    ghost use Rattle.std.proofs.Common.{rules};

    ghost laws = { Prim.search (comparing, rules) };
}

impl Order {
    /// The order of these calls.
    pub fn new(calls: Vec<usize>) -> Self
        ensures { result ≡ calls.items }
    {
        Order { calls }
    }

    /// The numbers of the calls, first to last.
    pub fn calls(&self) -> &[usize]
        ensures { result.now ≡ self.now }
    {
        &self.calls
    }

    /// The numbers of the calls, first to last.
    pub fn into_calls(self) -> Vec<usize>
        ensures { result.items ≡ self }
    {
        let Order { calls } = self;
        calls
    }
}
