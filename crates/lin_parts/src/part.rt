//! The problem of some of a problem's calls, and whether a problem is that.

ghost use Rattle.std.specs.Prelude.{◌≡◌, ◌<◌, ℕ, IfOk, IsTrue, length, slice_get, slice_index};
ghost use Rattle.lin_history.specs.Problems.AnyProblem.{any_problem};
ghost use Rattle.lin_history.specs.Problems.Lists.{In};
ghost use Rattle.lin_parts.specs.Parts.{ArePart, AreSomeCalls};

use lin_history::{Problem, ProblemCall};
use lin_object::{AnyObject, ObjState, Op, Reply, SeqObject};
use std::alloc::{AllocError, Global};

// Whether both are pending, or returned at one number with the same reply.
fn same_return(a: &Option<(u32, Reply)>, b: &Option<(u32, Reply)>) -> bool
    ensures { IsTrue result → a.now ≡ b.now }
{
    match (a, b) {
        (None, None) => true,
        (Some((m, r)), Some((n, s))) => *m == *n && *r == *s,
        (None, Some(_)) => false,
        (Some(_), None) => false,
    }
}

/// Whether both calls are the same.
pub fn same_call(a: &ProblemCall<Op, Reply>, b: &ProblemCall<Op, Reply>) -> bool
    ensures { IsTrue result → a.now ≡ b.now }
{
    a.process == b.process
        && a.op == b.op
        && a.called == b.called
        && same_return(&a.returned, &b.returned)
}

// Whether the states are the same.
fn same_state(a: &ObjState, b: &ObjState) -> bool
    ensures { IsTrue result → a.now ≡ b.now }
{
    *a == *b
}

/// Whether the part starts as the problem does, and has just the calls of these numbers.
pub fn is_part(problem: &Problem<AnyObject>, kept: &[usize], part: &Problem<AnyObject>) -> bool
    ensures start { IsTrue result → part.now.start ≡ problem.now.start }
    ensures count { IsTrue result → length part.now.calls ≡ length kept.now }
    ensures same { IsTrue result → (i : ℕ) → i < length kept.now
        → slice_get part.now.calls i ≡ slice_get problem.now.calls (slice_index kept.now i) }
{
    if !same_state(part.start(), problem.start()) || part.len() != kept.len() {
        return false;
    }
    for i in 0..kept.len() {
        if kept[i] >= problem.len() || !same_call(part.call(i), problem.call(kept[i])) {
            return false;
        }
    }
    true
}

// The same call.
fn copy_of(call: &ProblemCall<Op, Reply>) -> ProblemCall<Op, Reply>
    ensures { result ≡ call.now }
{
    ProblemCall {
        process: call.process,
        op: call.op,
        called: call.called,
        returned: call.returned,
    }
}

// The calls of these numbers.
fn some_calls(
    alloc: Global,
    problem: &Problem<AnyObject>,
    kept: &[usize],
) -> Result<Vec<ProblemCall<Op, Reply>>, AllocError>
    requires { (c : ℕ) → In c kept.now → c < length problem.now.calls }
    ensures count { IfOk result (λ calls. length calls.items ≡ length kept.now) }
    ensures same { IfOk result (λ calls. (i : ℕ) → i < length kept.now
        → slice_get calls.items i ≡ slice_get problem.now.calls (slice_index kept.now i)) }
{
    let mut calls = Vec::with_capacity(alloc, kept.len())?;
    for call in kept {
        calls.push(copy_of(problem.call(*call)))?;
    }
    Ok(calls)
}

/// The problem of these calls, with their event numbers. `AllocError` where memory was refused.
pub fn part_of(
    alloc: Global,
    problem: &Problem<AnyObject>,
    kept: &[usize],
) -> Result<Problem<AnyObject>, AllocError>
    requires { AreSomeCalls (any_problem problem.now) kept.now }
    ensures start { IfOk result (λ part. part.start ≡ problem.now.start) }
    ensures part { IfOk result (λ part. ArePart (any_problem problem.now) kept.now part.calls) }
{
    let _whole = problem.calls();
    let start = problem.object().copy_state(alloc, problem.start())?;
    let calls = some_calls(alloc, problem, kept)?;
    Ok(Problem::with_calls(AnyObject, start, calls))
}
