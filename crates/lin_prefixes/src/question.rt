//! The part by which it is decided whether a call has a run with some of its open calls.
//!
//! The part has the calls up to that one, and each other open call may stay out of its orders. Such a call is left out of the part if its
//! recorded reply is of a step that changes nothing: without it a run stays one. So are the dequeues or pops that take, and what put in
//! the items that they took may stay out with them. Each other one is made pending. It has one reply alone, or two of which the
//! one that was not recorded changes nothing, and so it does no more than it did.

ghost use Rattle.std.specs.Prelude.{◌≡◌, ◌⊎◌, ◌+◌, ◌<◌, ℕ, List, IfOk, IsFalse, IsTrue, length};
ghost use Rattle.lin_object.specs.declared.op.Op.{Op};
ghost use Rattle.lin_object.specs.declared.reply.Reply.{Reply};
ghost use Rattle.lin_history.specs.Problems.AnyProblem.{any_problem};
ghost use Rattle.lin_history.specs.Problems.Linearizations.{IsLinearization};
ghost use Rattle.lin_history.specs.Problems.Lists.{In};
ghost use Rattle.lin_prefixes.specs.Freed.{AreTakers};
ghost use Rattle.lin_prefixes.specs.Marked.{AreMarked};
ghost use Rattle.lin_prefixes.specs.Prefixes.{HasNoRunWith};
ghost use Rattle.lin_prefixes.specs.Questions.{AreAsked, IsIdle, IsLoosened, IsLoosePrefix, IsRequired};

use crate::marks::Marks;
use lin_history::{Problem, ProblemCall};
use lin_object::{AnyObject, Op, Reply, SeqObject};
use lin_parts::part_of;
use std::alloc::{AllocError, Global};

/// A call, those of its open calls that a run is to have, and the dequeues or pops that are to stay out; and the marks of both.
#[derive(Clone, Copy)]
pub(crate) struct Question<'a> {
    pub(crate) call: usize,
    pub(crate) kept: &'a [usize],
    pub(crate) takers: &'a [usize],
    pub(crate) marks: &'a Marks,
}

// Whether the part has the call's return: each run that is asked for has the call.
fn is_required(problem: &Problem<AnyObject>, question: Question<'_>, call: usize) -> bool
    requires last { question.call < length problem.now.calls }
    requires call { call < length problem.now.calls }
    requires marks { AreMarked (any_problem problem.now) question.kept.now question.takers.now question.marks.now }
    ensures { IsTrue result → IsRequired (any_problem problem.now) question.entry.call
        question.entry.kept.now question.entry.takers.now call }
{
    match &problem.call(call).returned {
        None => false,
        Some((number, _)) => {
            (*number < problem.call(question.call).called || question.marks.is_kept(call))
                && !question.marks.may_be_freed(problem, call)
        }
    }
}

// The call with this return.
fn with_return(
    call: &ProblemCall<Op, Reply>,
    returned: Option<(u32, Reply)>,
) -> ProblemCall<Op, Reply>
    ensures { result ≡ record call.now { returned = returned } }
{
    ProblemCall {
        process: call.process,
        op: call.op,
        called: call.called,
        returned,
    }
}

// The call as it is, if each run that is asked for has it; or else made pending.
fn loosened_call(
    problem: &Problem<AnyObject>,
    question: Question<'_>,
    call: usize,
) -> ProblemCall<Op, Reply>
    requires last { question.call < length problem.now.calls }
    requires call { call < length problem.now.calls }
    requires marks { AreMarked (any_problem problem.now) question.kept.now question.takers.now question.marks.now }
    ensures { IsLoosened (any_problem problem.now) question.entry.call question.entry.kept.now
        question.entry.takers.now call result }
{
    let made = problem.call(call);
    if is_required(problem, question, call) {
        return with_return(made, made.returned);
    }
    with_return(made, None)
}

// The calls up to the question's.
fn loosened_calls(
    alloc: Global,
    problem: &Problem<AnyObject>,
    question: Question<'_>,
) -> Result<Vec<ProblemCall<Op, Reply>>, AllocError>
    requires last { question.call < length problem.now.calls }
    requires marks { AreMarked (any_problem problem.now) question.kept.now question.takers.now question.marks.now }
    ensures { IfOk result (λ calls. IsLoosePrefix (any_problem problem.now) question.entry.call
        question.entry.kept.now question.entry.takers.now calls.items) }
{
    let _whole = problem.calls();
    let mut calls = Vec::with_capacity(alloc, question.call + 1)?;
    for call in 0..question.call + 1 {
        calls.push(loosened_call(problem, question, call))?;
    }
    Ok(calls)
}

// The problem of these.
fn loosened(
    alloc: Global,
    problem: &Problem<AnyObject>,
    question: Question<'_>,
) -> Result<Problem<AnyObject>, AllocError>
    requires last { question.call < length problem.now.calls }
    requires marks { AreMarked (any_problem problem.now) question.kept.now question.takers.now question.marks.now }
    ensures start { IfOk result (λ prefix. prefix.start ≡ problem.now.start) }
    ensures loose { IfOk result (λ prefix. IsLoosePrefix (any_problem problem.now) question.entry.call
        question.entry.kept.now question.entry.takers.now prefix.calls) }
{
    let _whole = problem.calls();
    let start = problem.object().copy_state(alloc, problem.start())?;
    let calls = loosened_calls(alloc, problem, question)?;
    Ok(Problem::with_calls(AnyObject, start, calls))
}

// Whether the part does not have the call at all.
fn stays_out(problem: &Problem<AnyObject>, question: Question<'_>, call: usize) -> bool
    requires last { question.call < length problem.now.calls }
    requires call { call < length problem.now.calls }
    requires marks { AreMarked (any_problem problem.now) question.kept.now question.takers.now question.marks.now }
    ensures yes { IsTrue result → In call question.entry.takers.now ⊎ IsIdle (any_problem problem.now) call }
    ensures no { IsFalse result → In call question.entry.takers.now → ⊥ }
{
    if question.marks.is_taker(call) {
        return true;
    }
    let made = problem.call(call);
    !is_required(problem, question, call) && AnyObject.changes_nothing(&made.op, &made.returned)
}

// The calls of the part.
fn asked_calls(
    alloc: Global,
    problem: &Problem<AnyObject>,
    question: Question<'_>,
) -> Result<Vec<usize>, AllocError>
    requires last { question.call < length problem.now.calls }
    requires marks { AreMarked (any_problem problem.now) question.kept.now question.takers.now question.marks.now }
    ensures { IfOk result (λ calls. AreAsked (any_problem problem.now) (question.entry.call + 1)
        question.entry.takers.now calls.items) }
{
    let _whole = problem.calls();
    let mut calls = Vec::with_capacity(alloc, question.call + 1)?;
    for call in 0..question.call + 1 {
        if !stays_out(problem, question, call) {
            calls.push(call)?;
        }
    }
    Ok(calls)
}

/// The part: where it has no linearization the call has no run with each of those kept. `AllocError` where memory was refused.
pub(crate) fn part_for(
    alloc: Global,
    problem: &Problem<AnyObject>,
    question: Question<'_>,
) -> Result<Problem<AnyObject>, AllocError>
    requires last { question.call < length problem.now.calls }
    requires marks { AreMarked (any_problem problem.now) question.kept.now question.takers.now question.marks.now }
    requires takers { AreTakers (any_problem problem.now) question.takers.now }
    ensures { IfOk result (λ part. ((l : List ℕ) → IsLinearization (any_problem part) l → ⊥)
        → HasNoRunWith (any_problem problem.now) question.entry.call question.entry.kept.now) }
{
    let prefix = loosened(alloc, problem, question)?;
    let calls = asked_calls(alloc, problem, question)?;
    let part = part_of(alloc, &prefix, calls.as_slice())?;
    Ok(part)
}
