//! Calls on a queue or a stack from a moment on at which each of some items was out: what came before it does not show.

ghost use Rattle.std.specs.Prelude.{◌≡◌, ◌⊎◌, ◌≤◌, ℕ, Some, true, false, IfOk, IsTrue, slice_get, slice_index_or};
ghost use Rattle.std.specs.List.{list_all};
ghost use Rattle.lin_object.specs.declared.op.Op.{Op};
ghost use Rattle.lin_object.specs.declared.reply.Reply.{Reply};
ghost use Rattle.lin_history.specs.declared.problems.problem.ProblemCall.{ProblemCall};
ghost use Rattle.lin_history.specs.Problems.Lists.{In, IsDistinct};
ghost use Rattle.lin_history.specs.Problems.Precedence.{Before};
ghost use Rattle.lin_history.specs.Problems.AnyProblem.{any_problem};
ghost use Rattle.lin_core.specs.Laws.{IsOff};
ghost use Rattle.lin_core.specs.Emptied.{puts, is_item, gave, took, puts_at, took_at, count_puts, count_takes, is_even};

use crate::value_tables::may_go;
use lin_history::{Problem, ProblemCall};
use lin_laws::precedes;
use lin_object::{AnyObject, Op, Reply};
use lin_parts::has_flag;
use lin_search::Stop;
use std::alloc::{AllocError, Global};

/// Whether the operation puts the item in.
pub(crate) fn puts(item: i64, op: &Op) -> bool
    ensures { result ≡ puts item op.now }
{
    match op {
        Op::Enqueue(put) | Op::Push(put) => *put == item,
        _ => false,
    }
}

// Whether the reply gives the item.
fn is_item(item: i64, reply: &Reply) -> bool
    ensures { result ≡ is_item item reply.now }
{
    match reply {
        Reply::Int(given) => *given == item,
        _ => false,
    }
}

// Whether it is recorded that the item was given.
fn gave(item: i64, returned: &Option<(u32, Reply)>) -> bool
    ensures { result ≡ gave item returned.now }
{
    match returned {
        Some((_, reply)) => is_item(item, reply),
        None => false,
    }
}

/// Whether the call took the item out.
pub(crate) fn took(item: i64, call: &ProblemCall<Op, Reply>) -> bool
    ensures { result ≡ took item call.now.op call.now.returned }
{
    match &call.op {
        Op::Dequeue | Op::Pop => gave(item, &call.returned),
        _ => false,
    }
}

// Whether the call of this number puts the item in.
fn puts_at(problem: &Problem<AnyObject>, item: i64, call: usize) -> bool
    ensures { result ≡ puts_at item (slice_get problem.now.calls call) }
{
    call < problem.len() && puts(item, &problem.call(call).op)
}

// Whether it took the item out.
fn took_at(problem: &Problem<AnyObject>, item: i64, call: usize) -> bool
    ensures { result ≡ took_at item (slice_get problem.now.calls call) }
{
    call < problem.len() && took(item, problem.call(call))
}

// How many of these calls put the item in.
fn count_puts(problem: &Problem<AnyObject>, item: i64, these: &[usize]) -> usize
    ensures { result ≡ count_puts problem.now.calls item these.now }
{
    let mut count = 0;
    for call in these {
        if puts_at(problem, item, *call) {
            count += 1;
        }
    }
    count
}

// How many of them took it out.
fn count_takes(problem: &Problem<AnyObject>, item: i64, these: &[usize]) -> usize
    ensures { result ≡ count_takes problem.now.calls item these.now }
{
    let mut count = 0;
    for call in these {
        if took_at(problem, item, *call) {
            count += 1;
        }
    }
    count
}

// Whether as many of these calls put the item in as took it out.
fn is_even(problem: &Problem<AnyObject>, item: i64, these: &[usize]) -> bool
    ensures { result ≡ is_even problem.now.calls these.now item }
{
    count_puts(problem, item, these) == count_takes(problem, item, these)
}

/// Whether as many of these calls put each of the items in as took it out; not where the stop answers. It takes O(n) for n calls and
/// each item.
pub(crate) fn are_even<S: Stop>(
    problem: &Problem<AnyObject>,
    items: &[i64],
    these: &[usize],
    stop: &mut S,
) -> bool
    ensures { IsTrue result → list_all (is_even problem.now.calls these.now) items.now ≡ true }
{
    for item in items {
        if stop.ask().is_some() || !is_even(problem, *item, these) {
            return false;
        }
    }
    true
}

/// Whether each of the calls returned before this one was called.
pub(crate) fn all_precede(problem: &Problem<AnyObject>, calls: &[usize], first: usize) -> bool
    ensures { IsTrue result → (c : ℕ) → In c calls.now → Before (any_problem problem.now) c first }
{
    for c in calls {
        if !precedes(problem, *c, first) {
            return false;
        }
    }
    true
}

/// The calls that were called by the event, have no flag, and change what is known of the values. `AllocError` where memory was
/// refused.
pub(crate) fn others_on(
    alloc: Global,
    problem: &Problem<AnyObject>,
    event: u32,
    flags: &[bool],
    values: &[i64],
) -> Result<Vec<usize>, AllocError>
    ensures distinct { IfOk result (λ others. IsDistinct others.items) }
    ensures each { IfOk result (λ others. (c : ℕ) (x : ProblemCall Op Reply) → slice_get problem.now.calls c ≡ Some x
        → x.called ≤ event
        → (slice_index_or flags.now c false ≡ true) ⊎ (IsOff values.now x ⊎ In c others.items)) }
{
    let mut others = Vec::new(alloc);
    for c in 0..problem.len() {
        let call = problem.call(c);
        if call.called <= event && !may_go(values, call) && !has_flag(flags, c) {
            others.push(c)?;
        }
    }
    Ok(others)
}
