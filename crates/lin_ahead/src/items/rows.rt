//! What the calls that put items in and take them show of the items, of a queue; of a stack, whose calls are read as those on a
//! queue.

ghost use Rattle.std.specs.Prelude.{◌≡◌, ℤ, IfOk};
ghost use Rattle.std.specs.Ordering.{int_eq};
ghost use Rattle.indexmap.specs.IndexMap.{get};
ghost use Rattle.lin_ahead.specs.Items.ItemCalls.{told, told_in, least_pending};
ghost use Rattle.lin_ahead.specs.Items.CallNumbers.{from_row};
ghost use Rattle.lin_ahead.specs.Queues.ToldOfQueue.{once_row, takers_from};

use crate::items::each_item::told_by_calls;
use crate::items::item_calls::{ItemCalls, least_pending};
use crate::items::numbers::{from_of, is_taker, took_once};
use indexmap::IndexMap;
use lin_history::ProblemCall;
use lin_object::{Op, Reply};
use std::alloc::{AllocError, Global};

/// What is known ahead of the calls that put items in and take them.
#[derive(Drop)]
pub struct ItemsAhead {
    /// What the calls show of each item.
    pub(crate) told: IndexMap<i64, ItemCalls>,
    /// The pending calls that may take what a call puts in, whatever it is.
    pub takers: Vec<usize>,
    /// For each call, whether it returned with a reply that no pending call can be answered with.
    pub owed: Vec<bool>,
}

/// For each call the event up to which it needs others.
pub(crate) fn from_row(
    alloc: Global,
    items: &IndexMap<i64, ItemCalls>,
    calls: &[ProblemCall<Op, Reply>],
) -> Result<Vec<u64>, AllocError>
    ensures { IfOk result (λ row. row.items
        ≡ from_row (told_in (get int_eq items.now)) (least_pending calls.now) calls.now) }
{
    let pending = least_pending(calls);
    calls
        .iter()
        .map(|call| from_of(items, pending, call))
        .collect(alloc)
}

// For each call whether it took an item that goes in once.
fn once_row(
    alloc: Global,
    items: &IndexMap<i64, ItemCalls>,
    calls: &[ProblemCall<Op, Reply>],
) -> Result<Vec<bool>, AllocError>
    ensures { IfOk result (λ row. row.items
        ≡ once_row (told_in (get int_eq items.now)) calls.now) }
{
    calls
        .iter()
        .map(|call| took_once(items, call))
        .collect(alloc)
}

// The dequeues that are pending.
fn takers_of(alloc: Global, calls: &[ProblemCall<Op, Reply>]) -> Result<Vec<usize>, AllocError>
    ensures { IfOk result (λ takers. takers.items ≡ takers_from 0 calls.now) }
{
    let mut takers = Vec::new(alloc);
    for call in 0..calls.len() {
        if is_taker(&calls[call]) {
            takers.push(call)?;
        }
    }
    Ok(takers)
}

/// What these calls show of items. `AllocError` where memory was refused.
pub(crate) fn told_of_items(
    alloc: Global,
    calls: &[ProblemCall<Op, Reply>],
) -> Result<ItemsAhead, AllocError>
    ensures told { IfOk result (λ items. (v : ℤ)
        → told_in (get int_eq items.told) v ≡ told calls.now v) }
    ensures takers { IfOk result (λ items. items.takers.items ≡ takers_from 0 calls.now) }
    ensures owed { IfOk result (λ items. items.owed.items ≡ once_row (told calls.now) calls.now) }
{
    let told = told_by_calls(alloc, calls)?;
    Ok(ItemsAhead {
        takers: takers_of(alloc, calls)?,
        owed: once_row(alloc, &told, calls)?,
        told,
    })
}
