//! Replies that an operation never gives: a call that returned with one rules a linearization out by itself.

ghost use Rattle.std.specs.Prelude.{◌≡◌, IsTrue};
ghost use Rattle.lin_core.specs.Replies.{may_reply, gave_another};

use crate::item_times::return_of;
use crate::selection::Selection;
use lin_history::{Problem, ProblemCall};
use lin_object::{AnyObject, Op, Reply};
use std::alloc::{AllocError, Global};

// Whether the operation gives such a reply in some state.
fn may_reply(op: &Op, reply: &Reply) -> bool
    ensures { result ≡ may_reply op.now reply.now }
{
    match op {
        Op::Write(_) | Op::Add(_) | Op::Enqueue(_) | Op::Push(_) => matches!(reply, Reply::Okay),
        Op::Lock | Op::Unlock | Op::Put(..) => matches!(reply, Reply::Okay),
        Op::Read | Op::Get => matches!(reply, Reply::Int(_)),
        Op::Dequeue | Op::Pop | Op::Lookup(_) => matches!(reply, Reply::Int(_) | Reply::Empty),
        Op::Cas(..) | Op::TryLock | Op::Delete(_) => matches!(reply, Reply::Flag(_)),
        Op::Insert(_) | Op::Remove(_) | Op::Contains(_) => matches!(reply, Reply::Flag(_)),
    }
}

/// Whether the call returned with a reply that its operation never gives.
pub(crate) fn gave_another(call: &ProblemCall<Op, Reply>) -> bool
    ensures { result ≡ gave_another call.now.op call.now.returned }
{
    match &call.returned {
        Some((_, reply)) => !may_reply(&call.op, reply),
        None => false,
    }
}

/// Of the calls that did so the one that returned first, by itself; if there is one. It takes O(n) for n calls.
pub(crate) fn odd_reply(
    alloc: Global,
    problem: &Problem<AnyObject>,
) -> Result<Option<Selection>, AllocError> {
    let odd = problem
        .calls()
        .iter()
        .enumerate()
        .filter(|(_, call)| gave_another(call));
    let Some((index, call)) = odd.min_by_key(|(_, call)| return_of(call)) else {
        return Ok(None);
    };
    let calls = Vec::from_slice(alloc, &[index])?;
    let event = return_of(call);
    Ok(Some(Selection::new(alloc, event, None, Vec::new(alloc), calls)))
}
