//! Pending calls that have one reply only, such as a `lock`, returned with it behind all events.
//!
//! The runs stay the same lists of calls. A run asks for a reply where one is recorded, and a step of such a call has no other; and a
//! return behind all events precedes nothing. So a `lock` that never returned is a call that a run may lack, as any other that is open,
//! and not one that would have to have a step behind each run.

ghost use Rattle.std.specs.Prelude.{◌≡◌, ◌<◌, IfOk, IfSome, IsTrue, length};
ghost use Rattle.lin_history.specs.Problems.AnyProblem.{any_problem};
ghost use Rattle.lin_prefixes.specs.OnlyReplies.{HasOnlyReply, HasSameRuns, IsBehind, IsReplied};

use crate::call_lists::kept_calls;
use lin_history::{Problem, ProblemCall};
use lin_object::{AnyObject, Op, Reply};
use lin_parts::{part_of, same_call};
use std::alloc::{AllocError, Global};

// Whether both calls are the same but for their returns.
fn same_start(a: &ProblemCall<Op, Reply>, b: &ProblemCall<Op, Reply>) -> bool
    ensures process { IsTrue result → a.now.process ≡ b.now.process }
    ensures op { IsTrue result → a.now.op ≡ b.now.op }
    ensures called { IsTrue result → a.now.called ≡ b.now.called }
{
    a.process == b.process && a.op == b.op && a.called == b.called
}

// The reply of an operation that may have no step and has one reply only where it has one.
fn only_reply(op: &Op) -> Option<Reply>
    ensures { IfSome result (HasOnlyReply op.now) }
{
    match op {
        Op::Lock | Op::Unlock => Some(Reply::Okay),
        _ => None,
    }
}

// Whether some pending call has one.
fn some_has_one(problem: &Problem<AnyObject>) -> bool {
    for call in problem.calls() {
        if call.returned.is_none() && only_reply(&call.op).is_some() {
            return true;
        }
    }
    false
}

// The number of the last event.
fn last_number(problem: &Problem<AnyObject>) -> u32 {
    let mut last = 0;
    for call in problem.calls() {
        let number = match &call.returned {
            Some((returned, _)) => *returned,
            None => call.called,
        };
        last = u32::max(last, u32::max(call.called, number));
    }
    last
}

// The same problem, where it has a call.
fn copied(
    alloc: Global,
    problem: &Problem<AnyObject>,
) -> Result<Option<Problem<AnyObject>>, AllocError>
    ensures { IfOk result (λ answer. IfSome answer (λ copy. copy.start ≡ problem.now.start)) }
{
    let count = problem.calls().len();
    if count == 0 {
        return Ok(None);
    }
    let all = kept_calls(alloc, count - 1, &[])?;
    let copy = part_of(alloc, problem, all.as_slice())?;
    Ok(Some(copy))
}

// Lets the call return at the event, if it has one reply only, and is pending: whether it does.
fn give_reply(problem: &mut Problem<AnyObject>, call: usize, number: u32) -> bool
    ensures { problem.new.start ≡ problem.old.start }
{
    let Some(made) = problem.calls().get(call) else {
        return false;
    };
    let Some(reply) = only_reply(&made.op) else {
        return false;
    };
    problem.add_return(call, reply, number).is_ok()
}

// Whether no call was called after the event.
fn is_behind(problem: &Problem<AnyObject>, number: u32) -> bool
    ensures { IsTrue result → IsBehind (any_problem problem.now) number }
{
    let calls = problem.calls();
    if calls.is_empty() {
        return true;
    }
    calls[calls.len() - 1].called <= number
}

// Whether it is the operation's only reply.
fn is_only_reply(op: &Op, reply: Reply) -> bool
    ensures { IsTrue result → HasOnlyReply op.now reply }
{
    match only_reply(op) {
        Some(only) => only == reply,
        None => false,
    }
}

// Whether the other problem's call is the same, or returned with its only reply behind all events, where it was pending.
fn is_replied(problem: &Problem<AnyObject>, other: &Problem<AnyObject>, call: usize) -> bool
    requires call { call < length problem.now.calls }
    requires other { call < length other.now.calls }
    ensures { IsTrue result → IsReplied (any_problem problem.now) (any_problem other.now) call }
{
    let made = problem.call(call);
    let own = other.call(call);
    match (&made.returned, &own.returned) {
        (None, Some((number, reply))) => {
            if !same_start(own, made) {
                return false;
            }
            if !is_only_reply(&made.op, *reply) {
                return false;
            }
            is_behind(problem, *number)
        }
        _ => same_call(own, made),
    }
}

// Whether this is so of each call.
fn are_replied(problem: &Problem<AnyObject>, other: &Problem<AnyObject>) -> bool
    requires { other.now.start ≡ problem.now.start }
    ensures { IsTrue result → HasSameRuns (any_problem problem.now) (any_problem other.now) }
{
    if problem.len() != other.len() {
        return false;
    }
    for call in 0..problem.len() {
        if !is_replied(problem, other, call) {
            return false;
        }
    }
    true
}

/// The problem in which each pending `lock` and `unlock` returned with `ok` behind all events: its runs are the same. `None` where there
/// is no such call, or where what was made is not found to be so: it is compared with the problem call by call. `AllocError` where memory
/// was refused.
pub(crate) fn with_only_replies(
    alloc: Global,
    problem: &Problem<AnyObject>,
) -> Result<Option<Problem<AnyObject>>, AllocError>
    ensures { IfOk result (λ answer. IfSome answer (λ other. HasSameRuns (any_problem problem.now)
        (any_problem other))) }
{
    if !some_has_one(problem) {
        return Ok(None);
    }
    let Some(mut other) = copied(alloc, problem)? else {
        return Ok(None);
    };
    let mut number = last_number(problem).saturating_add(1);
    for call in 0..problem.len() {
        if give_reply(&mut other, call, number) {
            number = number.saturating_add(1);
        }
    }
    if !are_replied(problem, &other) {
        return Ok(None);
    }
    Ok(Some(other))
}
