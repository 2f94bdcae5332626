//! Calls that found a value, and calls that break one: while such a call stands in a run, the value is not there all the time.

ghost use Rattle.std.specs.Prelude.{◌≡◌, ◌<◌, Some, List, slice_get, IfSome, IsSomeAnd, IsTrue};
ghost use Rattle.std.specs.Ordering.{int_eq};
ghost use Rattle.indexmap.specs.IndexMap.{index_of};
ghost use Rattle.lin_ahead.specs.Values.PossibleOwners.{breaks};
ghost use Rattle.lin_ahead.specs.Values.Writers.{low_by, IsFinder, IsSince};

use crate::kept::kept;
use crate::sight::MORE_IN_SIGHT;
use crate::values::shown_values::value_found;
use crate::values::writers::low_of;
use indexmap::IndexMap;
use lin_history::ProblemCall;
use lin_object::{Op, Reply};
use std::alloc::{AllocError, Global};

/// A completed call that found a value.
#[derive(Clone, Copy)]
pub(crate) struct Finder {
    /// The call.
    pub call: usize,
    /// The value that it found.
    pub value: i64,
    /// When it was called.
    pub called: u64,
    /// From which key on the rows of the calls stand that may write the value.
    pub low: u64,
    /// Up to which key, of those that were called before it returned.
    pub high: u64,
}

/// How far the calls in front of a finder were looked at for one that breaks its value.
#[derive(Clone, Copy)]
pub(crate) struct Sought {
    /// The calls from here on that stand in front of the finder were looked at.
    pub next: usize,
    /// When the call that was found was called; 0 while none is.
    pub since: u64,
}

// What a call shows by its reply.
#[derive(Clone, Copy)]
enum Shown {
    // No value.
    Nothing,
    // That this value is there all the time, or is written.
    Only(i64),
    // That the value changes.
    Change,
}

// What the call shows by its reply. That a `cas` found another value is left out.
fn shown_by(call: &ProblemCall<Op, Reply>) -> Shown {
    match (&call.op, &call.returned) {
        (Op::Write(value), Some(_)) => Shown::Only(*value),
        (Op::Read, Some((_, Reply::Int(value)))) => Shown::Only(*value),
        (Op::Cas(from, to), Some((_, Reply::Flag(true)))) => if *from == *to {
            Shown::Only(*from)
        } else {
            Shown::Change
        },
        _ => Shown::Nothing,
    }
}

/// For each call that shows a value alone, one more than the last call before it that shows another one, or 0; for other calls,
/// themselves. All calls from there on up to the call leave its value as it is. A hint.
pub(crate) fn others_before(
    alloc: Global,
    calls: &[ProblemCall<Op, Reply>],
) -> Result<Vec<u16>, AllocError> {
    let mut others = Vec::with_capacity(alloc, calls.len())?;
    let mut value = None;
    let mut other = 0;
    let mut last = 0;
    for call in 0..calls.len() {
        match shown_by(&calls[call]) {
            Shown::Nothing => others.push(kept(call))?,
            Shown::Change => {
                value = None;
                last = call + 1;
                others.push(kept(call))?;
            }
            Shown::Only(own) => {
                if value != Some(own) {
                    value = Some(own);
                    other = last;
                }
                last = call + 1;
                others.push(kept(other))?;
            }
        }
    }
    Ok(others)
}

/// The finder that the call is, if it found a value that has a number.
pub(crate) fn finder_of(
    values: &IndexMap<i64, ()>,
    lows: &[u64],
    one: &ProblemCall<Op, Reply>,
    call: usize,
) -> Option<Finder>
    ensures low { IfSome result (λ f. low_by lows.now (index_of int_eq values.now f.value) ≡ Some f.low) }
    ensures call { IfSome result (λ f. f.call ≡ call) }
    ensures finder { IfSome result (λ f. (calls : List (ProblemCall Op Reply))
        → slice_get calls call ≡ Some one.now → IsFinder calls f) }
{
    let value = value_found(one)?;
    let low = low_of(values, lows, value)?;
    match &one.returned {
        Some((number, _)) => Some(Finder {
            call,
            value,
            called: u64::from(one.called),
            low,
            high: low + u64::from(*number),
        }),
        None => None,
    }
}

/// Whether the call breaks the value: by its reply it wrote or found another one, or found that this one was not there.
pub(crate) fn breaks(value: i64, call: &ProblemCall<Op, Reply>) -> bool
    ensures { result ≡ breaks value call.now.op call.now.returned }
{
    match (&call.op, &call.returned) {
        (_, None) => false,
        (Op::Write(other), Some(_)) => *other != value,
        (Op::Read, Some((_, Reply::Int(other)))) => *other != value,
        (Op::Cas(from, to), Some((_, Reply::Flag(true)))) => *from != value || *to != value,
        (Op::Cas(from, _), Some((_, Reply::Flag(false)))) => *from == value,
        _ => false,
    }
}

// Whether the call returned before the finder was called.
fn returned_before(call: &ProblemCall<Op, Reply>, finder: &Finder) -> bool
    ensures { IsTrue result → IsSomeAnd call.now.returned (λ r. r.0 < finder.now.called) }
{
    match &call.returned {
        Some((number, _)) => u64::from(*number) < finder.called,
        None => false,
    }
}

// When the call was called, if it returned before the finder was called and breaks the value that this one found; else 0.
fn broken_at(calls: &[ProblemCall<Op, Reply>], finder: &Finder, call: usize) -> u64
    ensures { IsSince calls.now finder.now result }
{
    match calls.get(call) {
        Some(one) if returned_before(one, finder) && breaks(finder.value, one) => u64::from(
            one.called,
        ),
        _ => 0,
    }
}

// The last of the calls before `next` that breaks the value which the finder found, and returned before the finder was called or
// was called by the event; 0 where there is none in sight. A hint.
fn last_to_ask(
    calls: &[ProblemCall<Op, Reply>],
    others: &[u16],
    finder: &Finder,
    next: usize,
    event: u64,
) -> usize {
    let mut next = next;
    for _ in 0..MORE_IN_SIGHT {
        let call = next.saturating_sub(1);
        match calls.get(call) {
            Some(one) if 0 < call && u64::from(one.called) > event => next = if breaks(
                finder.value,
                one,
            ) {
                if returned_before(one, finder) {
                    return call;
                }
                call
            } else {
                others.get(call).copied().unwrap_or(0) as usize
            },
            _ => return call,
        }
    }
    0
}

// Looks on for a call that breaks the value which the finder found, as far as to the calls that were called by the event.
fn look_further(
    calls: &[ProblemCall<Op, Reply>],
    others: &[u16],
    finder: &Finder,
    next: usize,
    event: u64,
) -> Sought
    ensures { IsSince calls.now finder.now result.since }
{
    let next = last_to_ask(calls, others, finder, next, event);
    Sought {
        next,
        since: broken_at(calls, finder, next),
    }
}

/// Looks on for a call that breaks the value which the finder found, as far as to the calls that were called by the event. It does
/// nothing where one is found, no call is left, or none can have been called after the event.
#[inline(always)]
pub(crate) fn look_on(
    calls: &[ProblemCall<Op, Reply>],
    others: &[u16],
    finder: &Finder,
    sought: Sought,
    event: u64,
) -> Sought
    requires { IsSince calls.now finder.now sought.since }
    ensures { IsSince calls.now finder.now result.since }
{
    if sought.since > 0 || sought.next == 0 || finder.called <= event {
        return sought;
    }
    look_further(calls, others, finder, sought.next, event)
}
