//! What the calls on a queue show of each item, by one pass over them.

ghost use Rattle.std.specs.Prelude.{◌≡◌, ◌≢◌, ℤ, Some, IfOk, OnOk};
ghost use Rattle.std.specs.Ordering.{int_eq};
ghost use Rattle.indexmap.specs.IndexMap.{get};
ghost use Rattle.lin_ahead.specs.Items.ItemCalls.{told, told_in, told_next};

use crate::items::item_calls::{ItemCalls, item_of};
use indexmap::IndexMap;
use lin_history::ProblemCall;
use lin_object::{Op, Reply};
use std::alloc::{AllocError, Global};

/// What is told of the item.
pub(crate) fn told_of(items: &IndexMap<i64, ItemCalls>, item: i64) -> ItemCalls
    ensures { result ≡ told_in (get int_eq items.now) item }
{
    match items.get(&item) {
        Some(told) => *told,
        None => ItemCalls::nothing(),
    }
}

// Notes what is told of the item now. After an error nothing has changed.
fn note(items: &mut IndexMap<i64, ItemCalls>, item: i64, told: ItemCalls) -> Result<(), AllocError>
    ensures own { OnOk result (get int_eq items.new item ≡ Some told) }
    ensures others { (v : ℤ) → v ≢ item → get int_eq items.new v ≡ get int_eq items.old v }
{
    items.insert(item, told)?;
    Ok(())
}

// Adds what the call shows of its item.
fn add_call(
    items: &mut IndexMap<i64, ItemCalls>,
    call: &ProblemCall<Op, Reply>,
) -> Result<(), AllocError>
    ensures { OnOk result ((v : ℤ) → told_in (get int_eq items.new) v
        ≡ told_next (told_in (get int_eq items.old) v) call.now v) }
{
    let Some(item) = item_of(call) else {
        return Ok(());
    };
    let told = told_of(items, item).with_call(call);
    note(items, item, told)
}

/// What the calls show of each item. `AllocError` where memory was refused.
pub(crate) fn told_by_calls(
    alloc: Global,
    calls: &[ProblemCall<Op, Reply>],
) -> Result<IndexMap<i64, ItemCalls>, AllocError>
    ensures { IfOk result (λ items. (v : ℤ) → told_in (get int_eq items) v ≡ told calls.now v) }
{
    let mut items = IndexMap::new(alloc);
    for call in calls {
        add_call(&mut items, call)?;
    }
    Ok(items)
}
