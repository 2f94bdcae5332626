//! Two calls that each took a mutex while the other surely held it, and calls of `try_lock` that answered 'no' though nobody held
//! it. All of it is hints.

use crate::call_places::is_idle;
use crate::item_faults::MOST;
use crate::item_times::{NEVER, return_of};
use crate::next_calls::NextCalls;
use crate::refused_tries::is_refused;
use crate::rounds::takes;
use crate::selection::Selection;
use crate::spans::{Span, Spans};
use lin_history::Problem;
use lin_laws::precedes;
use lin_object::{AnyObject, Op};
use std::alloc::{AllocError, Global};

/// Two calls that took the mutex, each by its number.
#[derive(Clone, Copy)]
pub(crate) struct TwoHolders {
    pub(crate) first: usize,
    pub(crate) second: usize,
}

// When the call, which took the mutex, surely held it: from its return to the next call of its process, if that gives it back.
fn held_from(next: &NextCalls<'_>, call: usize) -> Option<Span> {
    let calls = next.problem().calls();
    let taker = calls.get(call)?;
    if !takes(taker) || taker.returned.is_none() {
        return None;
    }
    let until = match next
        .next_of_process(call)
        .and_then(|index| calls.get(index))
    {
        Some(other) if other.op == Op::Unlock => other.called,
        _ => NEVER,
    };
    Some(Span {
        from: return_of(taker),
        until,
        name: i64::try_from(call).ok()?,
    })
}

/// Two calls that each took the mutex while the other surely held it, if there are any. It takes O(n log n) for n calls.
pub(crate) fn two_holders(
    alloc: Global,
    next: &NextCalls<'_>,
) -> Result<Option<TwoHolders>, AllocError> {
    let mut held = Vec::new(alloc);
    for call in 0..next.problem().len() {
        if let Some(span) = held_from(next, call) {
            held.push(span)?;
        }
    }
    let each = Vec::from_slice(alloc, held.as_slice())?;
    let spans = Spans::new(alloc, each)?;
    for span in &held {
        match spans.last_before(span.from) {
            Some(other) if span.from < other.until => {
                return Ok(holders(other.name, span.name));
            }
            _ => {}
        }
    }
    Ok(None)
}

// The calls of these numbers.
fn holders(first: i64, second: i64) -> Option<TwoHolders> {
    Some(TwoHolders {
        first: usize::try_from(first).ok()?,
        second: usize::try_from(second).ok()?,
    })
}

// From when to when the call, which may have taken the mutex, may have held it: from its call to the return of the unlock behind
// it.
fn may_hold(next: &NextCalls<'_>, call: usize) -> Option<Span> {
    let calls = next.problem().calls();
    let taker = calls.get(call)?;
    if is_idle(taker) || taker.op == Op::Unlock {
        return None;
    }
    let until = match next.round_from(call).and_then(|last| calls.get(last)) {
        Some(last) => return_of(last),
        None => NEVER,
    };
    Some(Span {
        from: taker.called,
        until,
        name: 0,
    })
}

// Whether nobody may hold the mutex from the call to its return.
fn is_alone(problem: &Problem<AnyObject>, holds: &Spans, call: usize) -> bool {
    let Some(call) = problem.calls().get(call) else {
        return false;
    };
    match holds.last_before(return_of(call)) {
        Some(span) => span.until < call.called,
        None => true,
    }
}

/// Calls of `try_lock` that answered 'no', first those while which nobody may hold the mutex. It takes O(n log n) for n calls.
pub(crate) fn tries_in_vain(alloc: Global, next: &NextCalls<'_>) -> Result<Vec<usize>, AllocError> {
    let problem = next.problem();
    let is_try = |call: &usize| problem.calls().get(*call).is_some_and(is_refused);
    let tries: Vec<usize> = (0..problem.len()).filter(is_try).collect(alloc)?;
    let spans = (0..problem.len()).filter_map(|call| may_hold(next, call));
    let holds = Spans::new(alloc, spans.collect(alloc)?)?;
    let is_alone = |call: &usize| is_alone(problem, &holds, *call);
    let mut found: Vec<usize> = tries
        .iter()
        .copied()
        .filter(is_alone)
        .take(MOST)
        .collect(alloc)?;
    for call in tries.iter().take(MOST) {
        found.push(*call)?;
    }
    Ok(found)
}

// All processes with a call by the event, in increasing order.
fn processes_by(
    alloc: Global,
    problem: &Problem<AnyObject>,
    event: u32,
) -> Result<Vec<i64>, AllocError> {
    let mut processes = Vec::new(alloc);
    for call in problem.calls() {
        if call.called <= event {
            processes.push(i64::from(call.process))?;
        }
    }
    processes.sort_unstable();
    processes.dedup();
    Ok(processes)
}

// Whether the round ended before the call or began after it.
fn is_apart(problem: &Problem<AnyObject>, call: usize, first: usize, last: usize) -> bool {
    precedes(problem, last, call) || precedes(problem, call, first)
}

/// The selection of a `try_lock` and of all that may hold the mutex meanwhile, after the event: without the rounds that ended
/// before it or began after it.
pub(crate) fn around_try(
    alloc: Global,
    next: &NextCalls<'_>,
    try_lock: usize,
    event: u32,
) -> Result<Selection, AllocError> {
    let problem = next.problem();
    let values = processes_by(alloc, problem, event)?;
    let mut around = Selection::new(alloc, event, None, values, Vec::new(alloc));
    let mut unlocks = vec![in alloc; false; problem.len()]?;
    for index in 0..problem.len() {
        let call = problem.call(index);
        if call.called > event {
            break;
        }
        match next.round_from(index) {
            Some(last) if last < unlocks.len() && is_apart(problem, try_lock, index, last) => {
                unlocks[last] = true;
                around.firsts.push(index)?;
                around.lasts.push(last)?;
            }
            _ if unlocks[index] || (is_idle(call) && index != try_lock) => {}
            _ => around.calls.push(index)?,
        }
    }
    Ok(around)
}
