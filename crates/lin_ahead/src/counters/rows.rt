//! Of each `get` of a counter how far the calls before it can have added: by those that returned before it was called, which
//! come before it, and those that were called before it returned, which may.

ghost use Rattle.std.specs.Prelude.{◌≡◌, ℕ, ◌≤◌, ◌^◌, ℤ, true, false, Some, slice_get, IfOk, IfSome, IfNone};
ghost use Rattle.lin_object.specs.declared.op.Op.TheVariants.{Get};
ghost use Rattle.lin_object.specs.declared.reply.Reply.TheVariants.{Int};
ghost use Rattle.lin_history.specs.Problems.Timeline.{IsTimeline};
ghost use Rattle.lin_history.specs.Problems.AnyProblem.{any_problem};
ghost use Rattle.lin_ahead.specs.Counters.Sums.{IsHeight, IsLimitOf, AreLimits, event_of, AreSumsAt};
ghost use Rattle.lin_laws.specs.Shares.{share_of_call};

use lin_history::{Problem, ProblemCall, ProblemEvent};
use lin_laws::{share_in, share_of};
use lin_object::{AnyObject, Op, Reply};
use std::alloc::{AllocError, Global};

/// Between which two heights a completed `get` leaves room for calls that need not come before it. A height is a number counted
/// in a direction from 2^63 the other way, so that none is negative.
#[derive(Clone, Copy)]
pub struct SumLimit {
    /// The height at the start, with what all calls add in the direction that returned before this one was called.
    pub least: u128,
    /// The height that the call returned with, with what all calls add the other way that were called before it returned.
    pub most: u128,
}

/// What is known before any search of each call on a counter, upwards and downwards: the limit of a completed `get`.
#[derive(Drop)]
pub struct SumRows {
    /// Upwards.
    pub up: Vec<Option<SumLimit>>,
    /// Downwards.
    pub down: Vec<Option<SumLimit>>,
}

// What the call of this number adds in the direction.
pub(crate) fn share_at(up: bool, problem: &Problem<AnyObject>, call: usize) -> u64
    ensures share { result ≡ share_of_call up (slice_get problem.now.calls call) }
    ensures few { result ≤ 2 ^ 63 }
{
    match problem.calls().get(call) {
        Some(made) => share_of(up, &made.op),
        None => 0,
    }
}

// The height of a number in the direction.
fn height(up: bool, value: i64) -> u128
    ensures height { IsHeight up value result }
    ensures few { result ≤ 2 ^ 64 }
{
    (1 << 63) + share_in(up, value) as u128 - share_in(!up, value) as u128
}

// The call of an event, and whether it is counted.
#[derive(Clone, Copy)]
struct Turn {
    call: usize,
    counts: bool,
}

// The turn of the event, where returns are counted, or else call events.
fn turn_of(event: &ProblemEvent, returns: bool) -> Turn
    ensures { event.now ≡ event_of result.counts returns result.call }
{
    match event {
        ProblemEvent::Call(call) => Turn {
            call: *call as usize,
            counts: !returns,
        },
        ProblemEvent::Return(call) => Turn {
            call: *call as usize,
            counts: returns,
        },
    }
}

// For each call the sum of what those calls add in the direction whose returns come before its call event; or, where call
// events are counted, of those whose call events come before its return.
fn sums_at(
    alloc: Global,
    problem: &Problem<AnyObject>,
    events: &[ProblemEvent],
    up: bool,
    returns: bool,
) -> Result<Vec<u128>, AllocError>
    requires { IsTimeline (any_problem problem.now) events.now }
    ensures { IfOk result (λ row. AreSumsAt (any_problem problem.now) up returns events.now
        row.items) }
{
    let mut row = vec![in alloc; 0; problem.len()]?;
    let mut sum = 0;
    for place in 0..events.len() {
        let turn = turn_of(&events[place], returns);
        if turn.counts {
            sum += share_at(up, problem, turn.call) as u128;
        } else {
            row[turn.call] = sum;
        }
    }
    Ok(row)
}

// The limit of the call with these sums, if it is a completed `get`.
fn limit_of(
    up: bool,
    start: i64,
    call: &ProblemCall<Op, Reply>,
    before: u128,
    through: u128,
) -> Option<SumLimit>
    requires before { before ≤ 2 ^ 127 }
    requires through { through ≤ 2 ^ 127 }
    ensures some { IfSome result (IsLimitOf up start call.now before through) }
    ensures none { IfNone result ((value : ℤ) (n : ℕ) → call.now.op ≡ Get
        → call.now.returned ≡ Some (n, Int value) → ⊥) }
{
    match (&call.op, &call.returned) {
        (Op::Get, Some((_, Reply::Int(value)))) => Some(SumLimit {
            least: height(up, start) + before,
            most: height(up, *value) + through,
        }),
        _ => None,
    }
}

// The limits of the calls in the direction.
fn limits(
    alloc: Global,
    problem: &Problem<AnyObject>,
    start: i64,
    up: bool,
    events: &[ProblemEvent],
) -> Result<Vec<Option<SumLimit>>, AllocError>
    requires { IsTimeline (any_problem problem.now) events.now }
    ensures { IfOk result (λ row. AreLimits (any_problem problem.now) start up row.items) }
{
    let before = sums_at(alloc, problem, events, up, true)?;
    let through = sums_at(alloc, problem, events, !up, false)?;
    let mut row = Vec::with_capacity(alloc, problem.len())?;
    for call in 0..problem.len() {
        row.push(limit_of(up, start, problem.call(call), before[call], through[call]))?;
    }
    Ok(row)
}

/// What the calls show, on a counter that starts with the number: the limits of its `get`s. `AllocError` where memory was refused.
pub(crate) fn told_of_counter(
    alloc: Global,
    problem: &Problem<AnyObject>,
    start: i64,
) -> Result<SumRows, AllocError>
    ensures up { IfOk result (λ rows. AreLimits (any_problem problem.now) start true
        rows.up.items) }
    ensures down { IfOk result (λ rows. AreLimits (any_problem problem.now) start false
        rows.down.items) }
{
    let events = problem.timeline(alloc)?;
    Ok(SumRows {
        up: limits(alloc, problem, start, true, events.as_slice())?,
        down: limits(alloc, problem, start, false, events.as_slice())?,
    })
}
