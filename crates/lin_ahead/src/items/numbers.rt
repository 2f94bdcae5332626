//! What is told of a call by what the calls show of its item: its numbers, and whether it is owed its reply.

ghost use Rattle.std.specs.Prelude.{◌≡◌};
ghost use Rattle.std.specs.Ordering.{int_eq};
ghost use Rattle.indexmap.specs.IndexMap.{get};
ghost use Rattle.lin_ahead.specs.Items.ItemCalls.{told_in};
ghost use Rattle.lin_ahead.specs.Items.CallNumbers.{by_item, from_item, by_number, from_number};
ghost use Rattle.lin_ahead.specs.Queues.ToldOfQueue.{took_once, taken_number, is_taker};

use crate::items::each_item::told_of;
use crate::items::item_calls::{BEYOND, ItemCalls};
use indexmap::IndexMap;
use lin_history::ProblemCall;
use lin_object::{Op, Reply};

// The event at which the item is known to have been in, of which this is told: a call that took it returns then.
fn by_item(told: &ItemCalls) -> u64
    ensures { result ≡ by_item told.now }
{
    if told.goes_in_once() {
        told.returned
    } else {
        BEYOND
    }
}

// The event before which the item is known not to have been taken, of which this is told. Pending dequeues may take it, the
// first of which was called at this event, unless it goes in once and is known to be taken.
fn from_item(told: &ItemCalls, pending: u64) -> u64
    ensures { result ≡ from_item told.now pending }
{
    if told.goes_in_once() && told.taken {
        told.called
    } else {
        u64::min(told.called, pending)
    }
}

/// The event from which on the call is needed.
pub(crate) fn by_of(items: &IndexMap<i64, ItemCalls>, call: &ProblemCall<Op, Reply>) -> u64
    ensures { result ≡ by_number (told_in (get int_eq items.now)) call.now.op call.now.returned }
{
    match (&call.op, &call.returned) {
        (Op::Enqueue(item), _) => by_item(&told_of(items, *item)),
        (Op::Dequeue, Some((number, Reply::Empty))) => u64::from(*number),
        _ => BEYOND,
    }
}

/// The event up to which the call needs others; the first of the pending dequeues was called at `pending`.
pub(crate) fn from_of(
    items: &IndexMap<i64, ItemCalls>,
    pending: u64,
    call: &ProblemCall<Op, Reply>,
) -> u64
    ensures { result ≡ from_number (told_in (get int_eq items.now)) pending call.now.op }
{
    match &call.op {
        Op::Enqueue(item) => from_item(&told_of(items, *item), pending),
        _ => 0,
    }
}

/// Whether the call returned with an item that goes in once.
pub(crate) fn took_once(items: &IndexMap<i64, ItemCalls>, call: &ProblemCall<Op, Reply>) -> bool
    ensures { result ≡ took_once (told_in (get int_eq items.now)) call.now.op call.now.returned }
{
    match (&call.op, &call.returned) {
        (Op::Dequeue, Some((_, Reply::Int(item)))) => told_of(items, *item).goes_in_once(),
        _ => false,
    }
}

/// When the first call was called that returned with the item which the call puts in; 0 where it puts none in.
pub(crate) fn taken_of(items: &IndexMap<i64, ItemCalls>, call: &ProblemCall<Op, Reply>) -> u64
    ensures { result ≡ taken_number (told_in (get int_eq items.now)) call.now.op }
{
    match &call.op {
        Op::Enqueue(item) => told_of(items, *item).called,
        _ => 0,
    }
}

/// Whether the call is a dequeue that is pending, which may take any item.
pub(crate) fn is_taker(call: &ProblemCall<Op, Reply>) -> bool
    ensures { result ≡ is_taker call.now.op call.now.returned }
{
    matches!((&call.op, &call.returned), (Op::Dequeue, None))
}
