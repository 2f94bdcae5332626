//! The calls of a set on one item, as calls of a register that tells whether the item is in.

ghost use Rattle.std.specs.Prelude.{◌≡◌, map, IfOk, slice_get};
ghost use Rattle.lin_ahead.specs.Values.ItemValue.{item_of, item_at, is_on_item, are_on_item, of_one_item, value_if_in, op_on_item, reply_on_item, returned_on_item, call_on_item};

use lin_history::ProblemCall;
use lin_object::{Items, Op, Reply};
use std::alloc::{AllocError, Global};

/// What the register holds while the item is in.
pub(crate) const ITEM_IN: i64 = 1;

/// What it holds while the item is not in.
pub(crate) const ITEM_OUT: i64 = 0;

// The item of the operation, where it is one of a set.
fn item_of(op: &Op) -> Option<i64>
    ensures { result ≡ item_of op.now }
{
    match op {
        Op::Insert(item) => Some(*item),
        Op::Remove(item) => Some(*item),
        Op::Contains(item) => Some(*item),
        _ => None,
    }
}

// The item of the first call.
fn first_item(calls: &[ProblemCall<Op, Reply>]) -> Option<i64>
    ensures { result ≡ item_at (slice_get calls.now 0) }
{
    match calls.first() {
        Some(call) => item_of(&call.op),
        None => None,
    }
}

// Whether the operation is one of a set on the item.
fn is_on_item(item: i64, op: &Op) -> bool
    ensures { result ≡ is_on_item item op.now }
{
    match op {
        Op::Insert(other) => *other == item,
        Op::Remove(other) => *other == item,
        Op::Contains(other) => *other == item,
        _ => false,
    }
}

// Whether all calls are.
fn are_on_item(item: i64, calls: &[ProblemCall<Op, Reply>]) -> bool
    ensures { result ≡ are_on_item item calls.now }
{
    calls.iter().all(|call| is_on_item(item, &call.op))
}

/// Whether all calls are operations of a set on one item. Of no calls none is.
pub(crate) fn of_one_item(calls: &[ProblemCall<Op, Reply>]) -> bool
    ensures { result ≡ of_one_item calls.now }
{
    match first_item(calls) {
        Some(item) => are_on_item(item, calls),
        None => false,
    }
}

// What the register holds, where the item is in or is not.
fn value_if_in(is_in: bool) -> i64
    ensures { result ≡ value_if_in is_in }
{
    if is_in { ITEM_IN } else { ITEM_OUT }
}

/// What the register holds where the set has these items; none if the first call has no item. A hint.
pub(crate) fn value_of_items(calls: &[ProblemCall<Op, Reply>], items: &Items) -> Option<i64> {
    Some(value_if_in(items.has(first_item(calls)?)))
}

// What the operation does to the register: what told that it changed the set is a cas, and what told that it did not is a read.
fn op_on_item(op: &Op, returned: &Option<(u32, Reply)>) -> Op
    ensures { result ≡ op_on_item op.now returned.now }
{
    match (op, returned) {
        (Op::Insert(_), None) => Op::Write(ITEM_IN),
        (Op::Insert(_), Some((_, Reply::Flag(true)))) => Op::Cas(ITEM_OUT, ITEM_IN),
        (Op::Insert(_), Some((_, Reply::Flag(false)))) => Op::Read,
        (Op::Remove(_), None) => Op::Write(ITEM_OUT),
        (Op::Remove(_), Some((_, Reply::Flag(true)))) => Op::Cas(ITEM_IN, ITEM_OUT),
        (Op::Remove(_), Some((_, Reply::Flag(false)))) => Op::Read,
        (Op::Contains(_), None) => Op::Read,
        (Op::Contains(_), Some((_, Reply::Flag(_)))) => Op::Read,
        _ => *op,
    }
}

// What such an operation replies, where that of the set replied so.
fn reply_on_item(op: &Op, reply: Reply) -> Reply
    ensures { result ≡ reply_on_item op.now reply }
{
    match (op, reply) {
        (Op::Insert(_), Reply::Flag(false)) => Reply::Int(ITEM_IN),
        (Op::Remove(_), Reply::Flag(false)) => Reply::Int(ITEM_OUT),
        (Op::Contains(_), Reply::Flag(is_in)) => Reply::Int(value_if_in(is_in)),
        (_, reply) => reply,
    }
}

// Its return.
fn returned_on_item(op: &Op, returned: &Option<(u32, Reply)>) -> Option<(u32, Reply)>
    ensures { result ≡ returned_on_item op.now returned.now }
{
    match returned {
        Some((number, reply)) => Some((*number, reply_on_item(op, *reply))),
        None => None,
    }
}

// The call, as one of a register that tells whether the item is in.
fn call_on_item(call: &ProblemCall<Op, Reply>) -> ProblemCall<Op, Reply>
    ensures { result ≡ call_on_item call.now }
{
    ProblemCall {
        process: call.process,
        op: op_on_item(&call.op, &call.returned),
        called: call.called,
        returned: returned_on_item(&call.op, &call.returned),
    }
}

/// The calls, as those of a register that tells whether the item is in. `AllocError` where memory was refused.
pub(crate) fn calls_on_item(
    alloc: Global,
    calls: &[ProblemCall<Op, Reply>],
) -> Result<Vec<ProblemCall<Op, Reply>>, AllocError>
    ensures { IfOk result (λ row. row.items ≡ map call_on_item calls.now) }
{
    calls.iter().map(|call| call_on_item(call)).collect(alloc)
}
