//! What the calls on a stack show: as those on a queue would, with a push read as what puts an item in and a pop as what takes
//! one.

ghost use Rattle.std.specs.Prelude.{◌≡◌, ℕ, ℤ, Some, IfOk, IfSome, IsTrue};
ghost use Rattle.std.specs.Ordering.{int_eq};
ghost use Rattle.indexmap.specs.IndexMap.{get};
ghost use Rattle.lin_object.specs.declared.op.Op.TheVariants.{Push, Pop};
ghost use Rattle.lin_object.specs.declared.reply.Reply.TheVariants.{Int};
ghost use Rattle.lin_ahead.specs.Items.ItemCalls.{told, told_in};
ghost use Rattle.lin_ahead.specs.Queues.ToldOfQueue.{takers_from};
ghost use Rattle.lin_ahead.specs.Stacks.ToldOfStack.{exchanged_op, exchanged_call, exchanged_calls, popped_once_row, found_empty, found_empty_row, IsPopperIn, ArePoppers, AreLateRows};

use crate::items::each_item::told_of;
use crate::items::item_calls::ItemCalls;
use crate::items::late_pushes::LateRows;
use crate::items::rows::{ItemsAhead, from_row, told_of_items};
use indexmap::IndexMap;
use lin_history::ProblemCall;
use lin_object::{Op, Reply};
use std::alloc::{AllocError, Global};

/// What is known of a stack's problem before any search.
#[derive(Drop)]
pub struct StackAhead {
    /// Its calls read as those on a queue.
    pub(crate) on_queue: Vec<ProblemCall<Op, Reply>>,
    /// What is known of each call, by which a search finds pushes that are too late.
    pub late: LateRows,
    /// What the calls show of items.
    pub items: ItemsAhead,
}

// The operation with those of a stack and those of a queue exchanged.
fn exchanged_op(op: &Op) -> Op
    ensures { result ≡ exchanged_op op.now }
{
    match op {
        Op::Push(item) => Op::Enqueue(*item),
        Op::Pop => Op::Dequeue,
        Op::Enqueue(item) => Op::Push(*item),
        Op::Dequeue => Op::Pop,
        other => *other,
    }
}

// The call with that operation.
fn exchanged_call(call: &ProblemCall<Op, Reply>) -> ProblemCall<Op, Reply>
    ensures { result ≡ exchanged_call call.now }
{
    ProblemCall {
        process: call.process,
        op: exchanged_op(&call.op),
        called: call.called,
        returned: call.returned,
    }
}

// The calls so.
fn exchanged_calls(
    alloc: Global,
    calls: &[ProblemCall<Op, Reply>],
) -> Result<Vec<ProblemCall<Op, Reply>>, AllocError>
    ensures { IfOk result (λ exchanged. exchanged.items ≡ exchanged_calls calls.now) }
{
    calls.iter().map(|call| exchanged_call(call)).collect(alloc)
}

// Whether the call returned as it found the stack empty.
fn found_empty(call: &ProblemCall<Op, Reply>) -> bool
    ensures { result ≡ found_empty call.now.op call.now.returned }
{
    matches!(
        (&call.op, &call.returned),
        (Op::Pop, Some((_, Reply::Empty)))
    )
}

// For each call whether it returned as it found the stack empty.
fn found_empty_row(alloc: Global, calls: &[ProblemCall<Op, Reply>]) -> Result<Vec<bool>, AllocError>
    ensures { IfOk result (λ row. row.items ≡ found_empty_row calls.now) }
{
    calls.iter().map(|call| found_empty(call)).collect(alloc)
}

// For each item a pop that returned with it. It is a hint.
fn poppers_by_item(
    alloc: Global,
    calls: &[ProblemCall<Op, Reply>],
) -> Result<IndexMap<i64, usize>, AllocError> {
    let mut poppers = IndexMap::new(alloc);
    for call in 0..calls.len() {
        if let (Op::Pop, Some((_, Reply::Int(item)))) = (&calls[call].op, &calls[call].returned) {
            poppers.insert(*item, call)?;
        }
    }
    Ok(poppers)
}

// Whether the call popped the item.
fn popped(call: &ProblemCall<Op, Reply>, item: i64) -> bool
    ensures { IsTrue result → (call.now.op ≡ Pop) × ((n : ℕ) × (call.now.returned
        ≡ Some (n, Int item))) }
{
    match (&call.op, &call.returned) {
        (Op::Pop, Some((_, Reply::Int(other)))) => *other == item,
        _ => false,
    }
}

// The item that the call pushes.
fn item_pushed(call: &ProblemCall<Op, Reply>) -> Option<i64>
    ensures { IfSome result (λ v. call.now.op ≡ Push v) }
{
    match &call.op {
        Op::Push(item) => Some(*item),
        _ => None,
    }
}

// The pop that the hint names of the push, where it popped the item of the push and no other call pushes that.
fn popper_of(
    items: &IndexMap<i64, ItemCalls>,
    poppers: &IndexMap<i64, usize>,
    calls: &[ProblemCall<Op, Reply>],
    push: usize,
) -> Option<usize>
    requires { (v : ℤ) → told_in (get int_eq items.now) v ≡ told (exchanged_calls calls.now) v }
    ensures { IfSome result (IsPopperIn calls.now push) }
{
    let item = item_pushed(calls.get(push)?)?;
    if !told_of(items, item).goes_in_once() {
        return None;
    }
    let popper = *poppers.get(&item)?;
    if popped(calls.get(popper)?, item) {
        Some(popper)
    } else {
        None
    }
}

// For each call such a pop.
fn poppers_row(
    alloc: Global,
    items: &IndexMap<i64, ItemCalls>,
    calls: &[ProblemCall<Op, Reply>],
) -> Result<Vec<Option<usize>>, AllocError>
    requires { (v : ℤ) → told_in (get int_eq items.now) v ≡ told (exchanged_calls calls.now) v }
    ensures { IfOk result (λ row. ArePoppers calls.now row.items) }
{
    let poppers = poppers_by_item(alloc, calls)?;
    let mut row = Vec::with_capacity(alloc, calls.len())?;
    for push in 0..calls.len() {
        row.push(popper_of(items, &poppers, calls, push))?;
    }
    Ok(row)
}

// What is known of each call by which pushes are too late.
fn late_rows(
    alloc: Global,
    items: &IndexMap<i64, ItemCalls>,
    exchanged: &[ProblemCall<Op, Reply>],
    calls: &[ProblemCall<Op, Reply>],
) -> Result<LateRows, AllocError>
    requires exchanged { exchanged.now ≡ exchanged_calls calls.now }
    requires items { (v : ℤ) → told_in (get int_eq items.now) v
        ≡ told (exchanged_calls calls.now) v }
    ensures { IfOk result (AreLateRows calls.now) }
{
    Ok(LateRows {
        from: from_row(alloc, items, exchanged)?,
        poppers: poppers_row(alloc, items, calls)?,
        found_empty: found_empty_row(alloc, calls)?,
    })
}

/// What these calls show, on a stack that starts empty: which are owed their replies, and by which numbers pushes are too late.
/// `AllocError` where memory was refused.
pub(crate) fn told_of_stack(
    alloc: Global,
    calls: &[ProblemCall<Op, Reply>],
) -> Result<StackAhead, AllocError>
    ensures takers { IfOk result (λ ahead. ahead.items.takers.items
        ≡ takers_from 0 (exchanged_calls calls.now)) }
    ensures on_queue { IfOk result (λ ahead. ahead.on_queue.items
        ≡ exchanged_calls calls.now) }
    ensures items { IfOk result (λ ahead. (v : ℤ) → told_in (get int_eq ahead.items.told) v
        ≡ told (exchanged_calls calls.now) v) }
    ensures owed { IfOk result (λ ahead. ahead.items.owed.items ≡ popped_once_row calls.now) }
    ensures late { IfOk result (λ ahead. AreLateRows calls.now ahead.late) }
{
    let on_queue = exchanged_calls(alloc, calls)?;
    let exchanged = on_queue.as_slice();
    let items = told_of_items(alloc, exchanged)?;
    Ok(StackAhead {
        late: late_rows(alloc, &items.told, exchanged, calls)?,
        items,
        on_queue,
    })
}
