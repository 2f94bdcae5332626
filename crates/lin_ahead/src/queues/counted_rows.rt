//! The calls that concern an item once more, with the events of which counts ask: so these go over short lists and look at no call.

ghost use Rattle.std.specs.Prelude.{◌≡◌, slice_get, IfOk};
ghost use Rattle.lin_ahead.specs.Queues.Slots.{puts_it, may_take, IsItemRow, AreItemRows};
ghost use Rattle.lin_ahead.specs.Queues.CountedRows.{put_of, taker_of, took_at, taken_of, puts_among, takers_among, taken_among, IsCountedRow, AreCountedRows};

use crate::queues::item_rows::ItemRow;
use lin_history::ProblemCall;
use lin_object::{Op, Reply};
use std::alloc::{AllocError, Global};

/// A call, and when it was called.
#[derive(Clone, Copy)]
pub(crate) struct Called {
    /// The call.
    pub call: usize,
    /// The event at which it was called.
    pub at: u64,
}

/// A call that returned with an item.
#[derive(Clone, Copy)]
pub(crate) struct Taken {
    /// The call.
    pub call: usize,
    /// The event at which it was called.
    pub called: u64,
    /// The event at which it returned.
    pub by: u64,
}

/// An item, and the calls that concern it, in rising order.
#[derive(Drop)]
pub(crate) struct CountedRow {
    /// The item.
    pub item: i64,
    /// The calls that put it in.
    pub puts: Vec<Called>,
    /// The calls that may take it.
    pub takers: Vec<Called>,
    /// The calls that returned with it.
    pub taken: Vec<Taken>,
}

// Whether the call puts the item in.
fn puts_it(item: i64, call: &ProblemCall<Op, Reply>) -> bool
    ensures { result ≡ puts_it item call.now.op }
{
    match &call.op {
        Op::Enqueue(put) => item == *put,
        _ => false,
    }
}

// Whether the call may take the item: it is a dequeue that is pending, or returned with it.
fn may_take(item: i64, call: &ProblemCall<Op, Reply>) -> bool
    ensures { result ≡ may_take item call.now.op call.now.returned }
{
    match (&call.op, &call.returned) {
        (Op::Dequeue, None) => true,
        (Op::Dequeue, Some((_, Reply::Int(taken)))) => item == *taken,
        _ => false,
    }
}

// When the call returned with the item, if it did.
fn took_at(item: i64, call: &ProblemCall<Op, Reply>) -> Option<u64>
    ensures { result ≡ took_at item call.now.op call.now.returned }
{
    match (&call.op, &call.returned) {
        (Op::Dequeue, Some((number, Reply::Int(taken)))) => {
            if item == *taken {
                Some(u64::from(*number))
            } else {
                None
            }
        }
        _ => None,
    }
}

// The call of this number, if it puts the item in.
fn put_of(calls: &[ProblemCall<Op, Reply>], item: i64, call: usize) -> Option<Called>
    ensures { result ≡ put_of item call (slice_get calls.now call) }
{
    if call < calls.len() && puts_it(item, &calls[call]) {
        let at = u64::from(calls[call].called);
        Some(Called { call, at })
    } else {
        None
    }
}

// The call of this number, if it may take the item.
fn taker_of(calls: &[ProblemCall<Op, Reply>], item: i64, call: usize) -> Option<Called>
    ensures { result ≡ taker_of item call (slice_get calls.now call) }
{
    if call < calls.len() && may_take(item, &calls[call]) {
        let at = u64::from(calls[call].called);
        Some(Called { call, at })
    } else {
        None
    }
}

// The call of this number, if it returned with the item.
fn taken_of(calls: &[ProblemCall<Op, Reply>], item: i64, call: usize) -> Option<Taken>
    ensures { result ≡ taken_of item call (slice_get calls.now call) }
{
    if call >= calls.len() {
        return None;
    }
    let called = u64::from(calls[call].called);
    match took_at(item, &calls[call]) {
        Some(by) => Some(Taken { call, called, by }),
        None => None,
    }
}

// Those of the calls that put the item in.
fn puts_among(
    alloc: Global,
    calls: &[ProblemCall<Op, Reply>],
    item: i64,
    these: &[usize],
) -> Result<Vec<Called>, AllocError>
    ensures { IfOk result (λ list. list.items ≡ puts_among calls.now item these.now) }
{
    these
        .iter()
        .filter_map(|call| put_of(calls, item, *call))
        .collect(alloc)
}

// Those of the calls that may take the item.
fn takers_among(
    alloc: Global,
    calls: &[ProblemCall<Op, Reply>],
    item: i64,
    these: &[usize],
) -> Result<Vec<Called>, AllocError>
    ensures { IfOk result (λ list. list.items ≡ takers_among calls.now item these.now) }
{
    these
        .iter()
        .filter_map(|call| taker_of(calls, item, *call))
        .collect(alloc)
}

// Those of the calls that returned with the item.
fn taken_among(
    alloc: Global,
    calls: &[ProblemCall<Op, Reply>],
    item: i64,
    these: &[usize],
) -> Result<Vec<Taken>, AllocError>
    ensures { IfOk result (λ list. list.items ≡ taken_among calls.now item these.now) }
{
    these
        .iter()
        .filter_map(|call| taken_of(calls, item, *call))
        .collect(alloc)
}

// The row with the events of its calls.
fn counted_row(
    alloc: Global,
    calls: &[ProblemCall<Op, Reply>],
    row: &ItemRow,
) -> Result<CountedRow, AllocError>
    requires { IsItemRow calls.now row.now }
    ensures { IfOk result (λ counted. IsCountedRow calls.now counted) }
{
    let item = row.item;
    let these = row.calls.as_slice();
    Ok(CountedRow {
        item,
        puts: puts_among(alloc, calls, item, these)?,
        takers: takers_among(alloc, calls, item, these)?,
        taken: taken_among(alloc, calls, item, these)?,
    })
}

/// The rows with the events of their calls.
pub(crate) fn counted_rows(
    alloc: Global,
    calls: &[ProblemCall<Op, Reply>],
    rows: &[ItemRow],
) -> Result<Vec<CountedRow>, AllocError>
    requires { AreItemRows calls.now rows.now }
    ensures { IfOk result (λ counted. AreCountedRows calls.now counted.items) }
{
    let mut counted = Vec::new(alloc);
    for row in rows {
        counted.push(counted_row(alloc, calls, row)?)?;
    }
    Ok(counted)
}
