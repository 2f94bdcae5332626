//! Which value a call on a register may write, and which it found.

ghost use Rattle.std.specs.Prelude.{◌≡◌};
ghost use Rattle.lin_ahead.specs.Values.Register.{value_written, value_found};

use indexmap::IndexMap;
use lin_history::ProblemCall;
use lin_object::{Op, Reply};
use std::alloc::{AllocError, Global};

/// The value that the call may write: a `cas` may, unless it returned false. A pending call may, too.
pub(crate) fn value_written(call: &ProblemCall<Op, Reply>) -> Option<i64>
    ensures { result ≡ value_written call.now.op call.now.returned }
{
    match (&call.op, &call.returned) {
        (Op::Write(value), _) => Some(*value),
        (Op::Cas(_, _), Some((_, Reply::Flag(false)))) => None,
        (Op::Cas(_, value), _) => Some(*value),
        _ => None,
    }
}

/// The value that the call found, as its reply shows: it read it, or is a `cas` from it that returned true.
pub(crate) fn value_found(call: &ProblemCall<Op, Reply>) -> Option<i64>
    ensures { result ≡ value_found call.now.op call.now.returned }
{
    match (&call.op, &call.returned) {
        (Op::Read, Some((_, Reply::Int(value)))) => Some(*value),
        (Op::Cas(value, _), Some((_, Reply::Flag(true)))) => Some(*value),
        _ => None,
    }
}

// Notes the value, if there is one.
fn note(values: &mut IndexMap<i64, ()>, value: Option<i64>) -> Result<(), AllocError> {
    if let Some(value) = value {
        values.insert(value, ())?;
    }
    Ok(())
}

/// The values that the calls may write or found. `AllocError` where memory was refused.
pub(crate) fn values_of_calls(
    alloc: Global,
    calls: &[ProblemCall<Op, Reply>],
) -> Result<IndexMap<i64, ()>, AllocError> {
    let mut values = IndexMap::new(alloc);
    for call in calls {
        note(&mut values, value_written(call))?;
        note(&mut values, value_found(call))?;
    }
    Ok(values)
}
