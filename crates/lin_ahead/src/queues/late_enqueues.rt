//! What the calls on a queue show by which enqueues are too late: what goes in before a call that finds the queue empty comes out
//! before it.

ghost use Rattle.std.specs.Prelude.{◌≡◌, [], IfOk};
ghost use Rattle.lin_ahead.specs.Queues.ToldOfQueue.{queue_empty, queue_empty_row};

use crate::items::late_pushes::LateRows;
use lin_history::ProblemCall;
use lin_object::{Op, Reply};
use std::alloc::{AllocError, Global};

// Whether the call returned as it found the queue empty.
fn queue_empty(call: &ProblemCall<Op, Reply>) -> bool
    ensures { result ≡ queue_empty call.now.op call.now.returned }
{
    matches!(
        (&call.op, &call.returned),
        (Op::Dequeue, Some((_, Reply::Empty)))
    )
}

// For each call whether it did.
fn queue_empty_row(alloc: Global, calls: &[ProblemCall<Op, Reply>]) -> Result<Vec<bool>, AllocError>
    ensures { IfOk result (λ row. row.items ≡ queue_empty_row calls.now) }
{
    calls.iter().map(|call| queue_empty(call)).collect(alloc)
}

/// What is known of each call by which enqueues are too late, by the event at which, or later, a call was called that may take
/// what it puts in.
pub(crate) fn late_enqueues(
    alloc: Global,
    from: &[u64],
    calls: &[ProblemCall<Op, Reply>],
) -> Result<LateRows, AllocError>
    ensures from { IfOk result (λ late. late.from.items ≡ from.now) }
    ensures poppers { IfOk result (λ late. late.poppers.items ≡ []) }
    ensures found_empty { IfOk result (λ late. late.found_empty.items
        ≡ queue_empty_row calls.now) }
{
    Ok(LateRows {
        from: Vec::from_slice(alloc, from)?,
        poppers: Vec::new(alloc),
        found_empty: queue_empty_row(alloc, calls)?,
    })
}
