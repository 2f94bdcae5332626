//! How many calls put each item in, and how many returned with it.

ghost use Rattle.std.specs.Prelude.{◌≡◌, ◌≢◌, ◌≤◌, ℕ, ℤ, Some, IfOk, OnOk, length};
ghost use Rattle.std.specs.Ordering.{int_eq};
ghost use Rattle.indexmap.specs.IndexMap.{get};
ghost use Rattle.lin_history.specs.declared.limits.TheConstants.{MAX_CALLS_ON_OBJECT};
ghost use Rattle.lin_laws.specs.Counting.{counted};
ghost use Rattle.lin_lost.specs.Counts.{count_in, item_put, item_given, is_of, puts_of, takes_of};

use indexmap::IndexMap;
use lin_history::ProblemCall;
use lin_object::{Op, Reply};
use std::alloc::{AllocError, Global};

/// The item that the operation puts into a queue or pushes.
pub(crate) fn item_put(op: &Op) -> Option<i64>
    ensures { result ≡ item_put op.now }
{
    match op {
        Op::Enqueue(item) | Op::Push(item) => Some(*item),
        _ => None,
    }
}

// The item that the call returned with.
fn item_given(call: &ProblemCall<Op, Reply>) -> Option<i64>
    ensures { result ≡ item_given call.now.op call.now.returned }
{
    match (&call.op, &call.returned) {
        (Op::Dequeue, Some((_, Reply::Int(item)))) => Some(*item),
        (Op::Pop, Some((_, Reply::Int(item)))) => Some(*item),
        _ => None,
    }
}

/// How many calls are counted of the item.
pub(crate) fn count_of(counts: &IndexMap<i64, u32>, item: i64) -> u32
    ensures { result ≡ count_in (get int_eq counts.now) item }
{
    match counts.get(&item) {
        Some(count) => *count,
        None => 0,
    }
}

// Notes how many calls there are of the item.
fn note(counts: &mut IndexMap<i64, u32>, item: i64, count: u32) -> Result<(), AllocError>
    ensures own { OnOk result (get int_eq counts.new item ≡ Some count) }
    ensures others { (v : ℤ) → v ≢ item → get int_eq counts.new v ≡ get int_eq counts.old v }
{
    counts.insert(item, count)?;
    Ok(())
}

// Counts one call more of the item, where there is one.
fn add_one(counts: &mut IndexMap<i64, u32>, item: Option<i64>) -> Result<(), AllocError>
    requires { (v : ℤ) → count_in (get int_eq counts.old) v ≤ MAX_CALLS_ON_OBJECT }
    ensures { OnOk result ((v : ℤ) → count_in (get int_eq counts.new) v
        ≡ counted (is_of item v) (count_in (get int_eq counts.old) v)) }
{
    let Some(item) = item else {
        return Ok(());
    };
    let count = count_of(counts, item) + 1;
    note(counts, item, count)
}

/// For each item how many of the calls put it in. `AllocError` where memory was refused.
pub(crate) fn puts_of(
    alloc: Global,
    calls: &[ProblemCall<Op, Reply>],
) -> Result<IndexMap<i64, u32>, AllocError>
    requires { length calls.now ≤ MAX_CALLS_ON_OBJECT }
    ensures { IfOk result (λ puts. (v : ℤ) → count_in (get int_eq puts) v ≡ puts_of calls.now v) }
{
    let mut puts = IndexMap::new(alloc);
    for call in calls {
        add_one(&mut puts, item_put(&call.op))?;
    }
    Ok(puts)
}

/// For each item how many of the calls returned with it. `AllocError` where memory was refused.
pub(crate) fn takes_of(
    alloc: Global,
    calls: &[ProblemCall<Op, Reply>],
) -> Result<IndexMap<i64, u32>, AllocError>
    requires { length calls.now ≤ MAX_CALLS_ON_OBJECT }
    ensures { IfOk result (λ takes. (v : ℤ) → count_in (get int_eq takes) v ≡ takes_of calls.now v) }
{
    let mut takes = IndexMap::new(alloc);
    for call in calls {
        add_one(&mut takes, item_given(call))?;
    }
    Ok(takes)
}
