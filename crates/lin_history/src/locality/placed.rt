//! Calls of a history with their replies, in an order.

ghost use Rattle.std.specs.Prelude.{◌≡◌};

use lin_object::Reply;
use std::marker::Model;

/// A call of a history, by its index, with the reply that it has in an order.
#[derive(Clone, Copy, PartialEq, Eq, Debug)]
pub struct Placed<R = Reply> {
    /// The index of the call in the history.
    pub call: usize,
    /// The reply of its step.
    pub reply: R,
}

/// Calls of a whole history in an order, each with its reply.
#[derive(Debug, Drop)]
pub struct WholeOrder {
    placed: Vec<Placed>,
}

// Contracts see the list of the calls with their replies.
impl Model for WholeOrder {
    ghost use Rattle.std.specs.Prelude.{List};
    ghost use Rattle.lin_object.specs.declared.reply.Reply.{Reply};
    ghost use Rattle.lin_history.specs.declared.locality.placed.Placed.{Placed};

    ghost Value = { List (Placed Reply) };

    ghost view = { λ order. order.placed.items };
}

impl WholeOrder {
    /// The order of these calls.
    pub fn new(placed: Vec<Placed>) -> Self
        ensures { result ≡ placed.items }
    {
        WholeOrder { placed }
    }

    /// The calls, first to last.
    pub fn placed(&self) -> &[Placed]
        ensures { result.now ≡ self.now }
    {
        self.placed.as_slice()
    }
}
