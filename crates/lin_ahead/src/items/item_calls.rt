//! What the calls on a queue show of one item.

ghost use Rattle.std.specs.Prelude.{◌≡◌};
ghost use Rattle.lin_ahead.specs.Items.ItemCalls.{one_more, item_of, with_call, nothing_told, goes_in_once, pending_at, least_pending};

use lin_history::ProblemCall;
use lin_object::{Op, Reply};

/// A number beyond those of all events.
pub(crate) const BEYOND: u64 = 1 << 32;

/// How many calls do something, as put an item in or write a value.
#[derive(Clone, Copy)]
pub(crate) enum Callers {
    /// No call does.
    Nobody,
    /// One call does.
    One,
    /// More calls than one do.
    Several,
}

/// What the calls on a queue show of one item.
#[derive(Clone, Copy)]
pub(crate) struct ItemCalls {
    /// How many calls put it in.
    pub putters: Callers,
    /// Whether a call took it.
    pub taken: bool,
    /// The least number of the return events of the calls that took it; beyond all events where none did.
    pub returned: u64,
    /// The least number of the call events of the calls that took it; beyond all events where none did.
    pub called: u64,
}

/// With one call more that does it.
pub(crate) fn one_more(callers: Callers) -> Callers
    ensures { result ≡ one_more callers }
{
    match callers {
        Callers::Nobody => Callers::One,
        Callers::One | Callers::Several => Callers::Several,
    }
}

/// The item that the call puts in, or took.
pub(crate) fn item_of(call: &ProblemCall<Op, Reply>) -> Option<i64>
    ensures { result ≡ item_of call.now.op call.now.returned }
{
    match (&call.op, &call.returned) {
        (Op::Enqueue(item), _) => Some(*item),
        (Op::Dequeue, Some((_, Reply::Int(item)))) => Some(*item),
        _ => None,
    }
}

// The call event of a dequeue that is pending; beyond all events for another call.
fn pending_at(call: &ProblemCall<Op, Reply>) -> u64
    ensures { result ≡ pending_at call.now.called call.now.op call.now.returned }
{
    match (&call.op, &call.returned) {
        (Op::Dequeue, None) => u64::from(call.called),
        _ => BEYOND,
    }
}

/// The least call event of the dequeues that are pending; beyond all events where there is none.
pub(crate) fn least_pending(calls: &[ProblemCall<Op, Reply>]) -> u64
    ensures { result ≡ least_pending calls.now }
{
    let mut least = BEYOND;
    for call in calls {
        least = u64::min(least, pending_at(call));
    }
    least
}

impl ItemCalls {
    /// What no call shows.
    pub(crate) fn nothing() -> Self
        ensures { result ≡ nothing_told }
    {
        ItemCalls {
            putters: Callers::Nobody,
            taken: false,
            returned: BEYOND,
            called: BEYOND,
        }
    }

    /// With a call more, which puts the item in or took it.
    pub(crate) fn with_call(self, call: &ProblemCall<Op, Reply>) -> Self
        ensures { result ≡ with_call self call.now.called call.now.op call.now.returned }
    {
        match (&call.op, &call.returned) {
            (Op::Enqueue(_), _) => ItemCalls {
                putters: one_more(self.putters),
                taken: self.taken,
                returned: self.returned,
                called: self.called,
            },
            (Op::Dequeue, Some((number, _))) => ItemCalls {
                putters: self.putters,
                taken: true,
                returned: u64::min(self.returned, u64::from(*number)),
                called: u64::min(self.called, u64::from(call.called)),
            },
            _ => self,
        }
    }

    /// Whether several calls put the item in.
    pub(crate) fn goes_in_again(&self) -> bool {
        matches!(self.putters, Callers::Several)
    }

    /// Whether one call puts the item in, and no other.
    pub(crate) fn goes_in_once(&self) -> bool
        ensures { result ≡ goes_in_once self.now.putters }
    {
        match self.putters {
            Callers::One => true,
            Callers::Nobody | Callers::Several => false,
        }
    }
}
