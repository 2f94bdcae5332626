//! What is known of an object while it is checked.

ghost use Rattle.std.specs.Prelude.{◌≡◌, IsTrue, None, Some, false, true};
ghost use Rattle.lin_decide.specs.Begun.{IsBegunOf};
ghost use Rattle.lincheck.specs.Known.{IsKnownOf};
ghost use Rattle.lincheck.specs.ObjectAnswer.{HasNoOrder};

use crate::object_fault::ObjectFault;
use lin_decide::Begun;
use std::alloc::Global;

/// Whether it was looked for what lets a reader see that an object has no order.
#[derive(Drop)]
pub(crate) enum Sought {
    /// It was not.
    NotYet,
    /// It was, and was not found.
    InVain,
    /// It was found.
    Found(ObjectFault),
}

impl Sought {
    /// Whether it is still to be looked for.
    pub(crate) fn is_not_yet(&self) -> bool {
        matches!(self, Sought::NotYet)
    }

    /// What was found.
    pub(crate) fn found(&self) -> Option<&ObjectFault> {
        match self {
            Sought::Found(fault) => Some(fault),
            _ => None,
        }
    }
}

/// What is known of an object.
#[derive(Drop)]
pub(crate) struct Known {
    /// Whether it is known that it has no linearization.
    pub(crate) is_refuted: bool,
    /// Whether it showed that it has one, though not which is the least; `None` where that was not asked.
    pub(crate) has_order: Option<bool>,
    /// What lets a reader see that.
    pub(crate) fault: Sought,
    /// What searches for an order found out of its configurations: the next ones go on from there.
    pub(crate) begun: Begun,
}

impl Known {
    /// Nothing is known.
    pub(crate) fn nothing(alloc: Global) -> Self
        ensures refuted { result.is_refuted ≡ false }
        ensures order { result.has_order ≡ None }
        ensures fault { result.fault ≡ Sought.NotYet }
        ensures begun { (p : _) → IsBegunOf p result.begun }
    {
        Known {
            is_refuted: false,
            has_order: None,
            fault: Sought::NotYet,
            begun: Begun::nothing(alloc),
        }
    }

    /// Notes that it has no linearization. No order is looked for again, so what was begun takes no more memory.
    pub(crate) fn refute(&mut self, alloc: Global)
        ensures { (p : _) → HasNoOrder p → IsKnownOf p self.old → IsKnownOf p self.new }
    {
        self.is_refuted = true;
        self.begun = Begun::nothing(alloc);
    }

    /// Whether it showed that it has a linearization.
    pub(crate) fn shows_order(&self) -> bool
        ensures { IsTrue result → self.now.has_order ≡ Some true }
    {
        self.has_order == Some(true)
    }
}
