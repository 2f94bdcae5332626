//! The calls of a map on one key, as calls of a register that holds the key's value.

ghost use Rattle.std.specs.Prelude.{◌≡◌, map, IfOk, slice_get};
ghost use Rattle.lin_ahead.specs.Values.KeyValue.{key_of, key_at, is_on, are_on, of_one_key, op_on_value, reply_on_value, returned_on_value, call_on_value};

use crate::values::item_value::value_of_items;
use lin_history::ProblemCall;
use lin_object::{ObjState, Op, Reply};
use std::alloc::{AllocError, Global};

/// What the register holds where the key has no value. No call that is looked at gives the key this value.
pub(crate) const NOTHING: i64 = i64::MIN;

// The key of the operation, where it is one of a map.
fn key_of(op: &Op) -> Option<i64>
    ensures { result ≡ key_of op.now }
{
    match op {
        Op::Put(key, _) => Some(*key),
        Op::Lookup(key) => Some(*key),
        Op::Delete(key) => Some(*key),
        _ => None,
    }
}

// The key of the first call.
fn first_key(calls: &[ProblemCall<Op, Reply>]) -> Option<i64>
    ensures { result ≡ key_at (slice_get calls.now 0) }
{
    match calls.first() {
        Some(call) => key_of(&call.op),
        None => None,
    }
}

// Whether the operation is one of a map on the key, and does not give it the value that stands for none.
fn is_on(key: i64, op: &Op) -> bool
    ensures { result ≡ is_on key op.now }
{
    match op {
        Op::Put(other, value) => *other == key && *value != NOTHING,
        Op::Lookup(other) => *other == key,
        Op::Delete(other) => *other == key,
        _ => false,
    }
}

// Whether all calls are.
fn are_on(key: i64, calls: &[ProblemCall<Op, Reply>]) -> bool
    ensures { result ≡ are_on key calls.now }
{
    calls.iter().all(|call| is_on(key, &call.op))
}

/// The value that the register holds, or the key of the first call, or what the register holds as which the item of a set is read; none
/// of other states. A hint.
pub(crate) fn value_held(calls: &[ProblemCall<Op, Reply>], state: &ObjState) -> Option<i64> {
    match state {
        ObjState::Register(value) => Some(*value),
        ObjState::Map(pairs) => Some(pairs.value_at(first_key(calls)?).unwrap_or(NOTHING)),
        ObjState::Set(items) => value_of_items(calls, items),
        _ => None,
    }
}

/// Whether all calls are operations of a map on one key, and none gives it the value that stands for none. Of no calls none is.
pub(crate) fn of_one_key(calls: &[ProblemCall<Op, Reply>]) -> bool
    ensures { result ≡ of_one_key calls.now }
{
    match first_key(calls) {
        Some(key) => are_on(key, calls),
        None => false,
    }
}

// What the operation does to the key's value: a delete that told that the key had none reads it.
fn op_on_value(op: &Op, returned: &Option<(u32, Reply)>) -> Op
    ensures { result ≡ op_on_value op.now returned.now }
{
    match (op, returned) {
        (Op::Put(_, value), _) => Op::Write(*value),
        (Op::Lookup(_), _) => Op::Read,
        (Op::Delete(_), Some((_, Reply::Flag(false)))) => Op::Read,
        (Op::Delete(_), _) => Op::Write(NOTHING),
        _ => *op,
    }
}

// What such an operation replies, where that of the map replied so.
fn reply_on_value(op: &Op, reply: Reply) -> Reply
    ensures { result ≡ reply_on_value op.now reply }
{
    match (op, reply) {
        (Op::Lookup(_), Reply::Empty) => Reply::Int(NOTHING),
        (Op::Delete(_), Reply::Flag(true)) => Reply::Okay,
        (Op::Delete(_), Reply::Flag(false)) => Reply::Int(NOTHING),
        (_, reply) => reply,
    }
}

// Its return.
fn returned_on_value(op: &Op, returned: &Option<(u32, Reply)>) -> Option<(u32, Reply)>
    ensures { result ≡ returned_on_value op.now returned.now }
{
    match returned {
        Some((number, reply)) => Some((*number, reply_on_value(op, *reply))),
        None => None,
    }
}

// The call, as one of a register that holds the key's value.
fn call_on_value(call: &ProblemCall<Op, Reply>) -> ProblemCall<Op, Reply>
    ensures { result ≡ call_on_value call.now }
{
    ProblemCall {
        process: call.process,
        op: op_on_value(&call.op, &call.returned),
        called: call.called,
        returned: returned_on_value(&call.op, &call.returned),
    }
}

/// The calls, as those of a register that holds the key's value. `AllocError` where memory was refused.
pub(crate) fn calls_on_value(
    alloc: Global,
    calls: &[ProblemCall<Op, Reply>],
) -> Result<Vec<ProblemCall<Op, Reply>>, AllocError>
    ensures { IfOk result (λ row. row.items ≡ map call_on_value calls.now) }
{
    calls.iter().map(|call| call_on_value(call)).collect(alloc)
}
