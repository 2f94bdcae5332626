//! A get of a map's key that found nothing while a value surely was there. It is a hint.

use crate::call_places::is_idle;
use crate::item_times::{NEVER, return_of};
use crate::selection::{MapKey, Selection};
use lin_history::{Problem, ProblemCall};
use lin_object::{AnyObject, Op, Reply};
use std::alloc::{AllocError, Global};

// When the first call on the key was called that may take its value away; `NEVER` where there is none.
fn first_delete(problem: &Problem<AnyObject>, calls: &[usize]) -> u32 {
    let mut first = NEVER;
    for index in calls {
        match problem.calls().get(*index) {
            Some(call) if matches!(call.op, Op::Delete(_)) && !is_idle(call) => {
                first = u32::min(first, call.called);
            }
            _ => {}
        }
    }
    first
}

// The value of the put that returned first, and when it did.
fn first_value(problem: &Problem<AnyObject>, calls: &[usize]) -> Option<(i64, u32)> {
    let mut first = None;
    let mut when = NEVER;
    for index in calls {
        let Some(call) = problem.calls().get(*index) else {
            continue;
        };
        match &call.op {
            Op::Put(_, value) if return_of(call) < when => {
                when = return_of(call);
                first = Some((*value, when));
            }
            _ => {}
        }
    }
    first
}

// Whether the call found nothing, and was called after the one event and returned before the other.
fn found_nothing(call: &ProblemCall<Op, Reply>, after: u32, before: u32) -> bool {
    matches!(call.op, Op::Lookup(_))
        && matches!(call.returned, Some((_, Reply::Empty)))
        && call.called > after
        && return_of(call) < before
}

/// Of the calls on the key the puts of a value, and a get that found nothing though that was put and nothing taken away; if there is one.
pub(crate) fn forgotten(
    alloc: Global,
    problem: &Problem<AnyObject>,
    calls: &[usize],
    key: i64,
) -> Result<Option<Selection>, AllocError> {
    let Some((value, put)) = first_value(problem, calls) else {
        return Ok(None);
    };
    let taken = first_delete(problem, calls);
    let is_the_get = |index: &&usize| match problem.calls().get(**index) {
        Some(call) => found_nothing(call, put, taken),
        None => false,
    };
    let Some(get) = calls.iter().find(is_the_get) else {
        return Ok(None);
    };
    let event = match problem.calls().get(*get) {
        Some(call) => return_of(call),
        None => NEVER,
    };
    let mut kept = Vec::new(alloc);
    for index in calls {
        match problem.calls().get(*index) {
            Some(call) if call.called > event => break,
            Some(call) if index == get || call.op == Op::Put(key, value) => kept.push(*index)?,
            _ => {}
        }
    }
    let at = MapKey {
        key,
        nothing: true,
        later: None,
    };
    let values = Vec::from_slice(alloc, &[value])?;
    Ok(Some(Selection::new(alloc, event, Some(at), values, kept)))
}
