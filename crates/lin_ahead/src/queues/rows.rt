//! What the calls on a queue show before any search.

ghost use Rattle.std.specs.Prelude.{◌≡◌, ℤ, IfOk};
ghost use Rattle.std.specs.Ordering.{int_eq};
ghost use Rattle.indexmap.specs.IndexMap.{get};
ghost use Rattle.lin_ahead.specs.Items.ItemCalls.{told, told_in, least_pending};
ghost use Rattle.lin_ahead.specs.Items.CallNumbers.{by_row, from_row};
ghost use Rattle.lin_ahead.specs.Queues.ToldOfQueue.{once_row, taken_row, takers_from, AreLateEnqueues};

use crate::items::item_calls::ItemCalls;
use crate::items::late_pushes::LateRows;
use crate::items::numbers::{by_of, taken_of};
use crate::items::rows::{ItemsAhead, from_row, told_of_items};
use crate::queues::late_enqueues::late_enqueues;
use indexmap::IndexMap;
use lin_history::{NeedRows, ProblemCall};
use lin_object::{Op, Reply};
use std::alloc::{AllocError, Global};

/// What is known of a queue's problem before any search.
///
/// A call needs every call whose number `by` is less than its own number `from`. It needs every call whose number `by` is
/// less than its own number `taken` too, once the takers that are not lifted were all called after that event.
#[derive(Drop)]
pub struct QueueAhead {
    /// The numbers `by` and `from` of each call.
    pub needs: NeedRows,
    /// The number `taken` of each call.
    pub taken: Vec<u64>,
    /// What is known of each call, by which a search finds enqueues that are too late.
    pub late: LateRows,
    /// What the calls show of items.
    pub items: ItemsAhead,
}

// For each call the event from which on it is needed.
fn by_row(
    alloc: Global,
    items: &IndexMap<i64, ItemCalls>,
    calls: &[ProblemCall<Op, Reply>],
) -> Result<Vec<u64>, AllocError>
    ensures { IfOk result (λ row. row.items ≡ by_row (told_in (get int_eq items.now)) calls.now) }
{
    calls.iter().map(|call| by_of(items, call)).collect(alloc)
}

// For each call when the first call was called that returned with the item which it puts in.
fn taken_row(
    alloc: Global,
    items: &IndexMap<i64, ItemCalls>,
    calls: &[ProblemCall<Op, Reply>],
) -> Result<Vec<u64>, AllocError>
    ensures { IfOk result (λ row. row.items
        ≡ taken_row (told_in (get int_eq items.now)) calls.now) }
{
    calls
        .iter()
        .map(|call| taken_of(items, call))
        .collect(alloc)
}

/// What these calls show, on a queue that starts empty. `AllocError` where memory was refused.
pub(crate) fn told_of_queue(
    alloc: Global,
    calls: &[ProblemCall<Op, Reply>],
) -> Result<QueueAhead, AllocError>
    ensures by { IfOk result (λ ahead. ahead.needs.by ≡ by_row (told calls.now) calls.now) }
    ensures from { IfOk result (λ ahead. ahead.needs.from
        ≡ from_row (told calls.now) (least_pending calls.now) calls.now) }
    ensures taken { IfOk result (λ ahead. ahead.taken.items
        ≡ taken_row (told calls.now) calls.now) }
    ensures takers { IfOk result (λ ahead. ahead.items.takers.items ≡ takers_from 0 calls.now) }
    ensures owed { IfOk result (λ ahead. ahead.items.owed.items
        ≡ once_row (told calls.now) calls.now) }
    ensures late { IfOk result (λ ahead. AreLateEnqueues calls.now ahead.late) }
    ensures items { IfOk result (λ ahead. (v : ℤ)
        → told_in (get int_eq ahead.items.told) v ≡ told calls.now v) }
{
    let items = told_of_items(alloc, calls)?;
    let by = by_row(alloc, &items.told, calls)?;
    let from = from_row(alloc, &items.told, calls)?;
    let late = late_enqueues(alloc, from.as_slice(), calls)?;
    Ok(QueueAhead {
        needs: NeedRows::new(by, from),
        taken: taken_row(alloc, &items.told, calls)?,
        late,
        items,
    })
}
