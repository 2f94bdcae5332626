//! Calls on a register that took a value away, and calls that alone can have made what another one found.

ghost use Rattle.std.specs.Prelude.{◌≡◌, ℕ, Option, Some, IfSome};
ghost use Rattle.lin_ahead.specs.Values.TakenTwice.{takes, IsSoleOwner};

use crate::values::owners::Owners;
use lin_history::ProblemCall;
use lin_object::{Op, Reply};

/// Whether the call found a value and took it away.
pub(crate) fn takes(call: &ProblemCall<Op, Reply>) -> bool
    ensures { result ≡ takes call.now.op call.now.returned }
{
    match (&call.op, &call.returned) {
        (Op::Cas(found, written), Some((_, Reply::Flag(true)))) => !(*found == *written),
        _ => false,
    }
}

/// The one owner, if there is just one: a call, or none where it is the start.
pub(crate) fn sole_owner(owners: &Owners) -> Option<Option<usize>>
    ensures is { IfSome result (λ owner. IsSoleOwner owners.now owner) }
    ensures every { (owner : Option ℕ) → IsSoleOwner owners.now owner → result ≡ Some owner }
{
    if !owners.are_told {
        return None;
    }
    let calls = owners.calls.as_slice();
    match (calls.len(), owners.at_start) {
        (0, true) => Some(None),
        (1, false) => Some(Some(calls[0])),
        _ => None,
    }
}
