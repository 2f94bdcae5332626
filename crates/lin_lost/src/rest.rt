//! The problem without lost items and without pending calls that take one.

ghost use Rattle.std.specs.Prelude.{◌≡◌, ◌↔◌, ◌⊎◌, ◌≤◌, ℕ, ℤ, List, [], Some, true, false, IfOk, IfSome, IfNone, IsTrue, length, slice_get};
ghost use Rattle.std.specs.Ordering.{int_eq};
ghost use Rattle.indexmap.specs.IndexMap.{get};
ghost use Rattle.lin_object.specs.declared.op.Op.{Op};
ghost use Rattle.lin_object.specs.declared.reply.Reply.{Reply};
ghost use Rattle.lin_history.specs.declared.problems.problem.ProblemCall.{ProblemCall};
ghost use Rattle.lin_history.specs.Problems.AnyProblem.{any_problem};
ghost use Rattle.lin_history.specs.Problems.Linearizations.{IsLinearization};
ghost use Rattle.lin_history.specs.Problems.Lists.{In};
ghost use Rattle.lin_parts.specs.Parts.{AreSomeCalls};
ghost use Rattle.lin_lost.specs.Lost.{HoldsNothing, IsTakenAsOften, IsWithoutLost, is_left_out};
ghost use Rattle.lin_lost.specs.Counts.{count_in, item_put, puts_of, takes_of};

use crate::item_counts::{count_of, item_put, puts_of, takes_of};
use indexmap::IndexMap;
use lin_history::{Problem, ProblemCall};
use lin_object::{AnyObject, Items, ObjState, Op, Reply};
use lin_parts::part_of;
use std::alloc::{AllocError, Global};

// Whether there is no item.
fn is_empty(items: &Items) -> bool
    ensures { IsTrue result ↔ (items.now ≡ []) }
{
    items.first().is_none()
}

// Whether it is a queue or a stack that holds nothing.
fn holds_nothing(state: &ObjState) -> bool
    ensures { IsTrue result ↔ HoldsNothing state.now }
{
    match state {
        ObjState::Queue(items) | ObjState::Stack(items) => is_empty(items),
        _ => false,
    }
}

// Whether the call puts a lost item in, or is pending and would take one.
fn is_left_out(takes: &IndexMap<i64, u32>, call: &ProblemCall<Op, Reply>) -> bool
    ensures { result ≡ is_left_out (count_in (get int_eq takes.now)) call.now.op call.now.returned }
{
    match &call.op {
        Op::Enqueue(item) | Op::Push(item) => count_of(takes, *item) == 0,
        Op::Dequeue | Op::Pop => call.returned.is_none(),
        _ => false,
    }
}

// Whether the item of the call, if it puts one in, is lost, or put in no more often than it came out.
fn is_taken_as_often(
    puts: &IndexMap<i64, u32>,
    takes: &IndexMap<i64, u32>,
    call: &ProblemCall<Op, Reply>,
) -> bool
    ensures { IsTrue result ↔ IfSome (item_put call.now.op)
        (IsTakenAsOften (count_in (get int_eq puts.now)) (count_in (get int_eq takes.now))) }
{
    let Some(item) = item_put(&call.op) else {
        return true;
    };
    let taken = count_of(takes, item);
    taken == 0 || count_of(puts, item) <= taken
}

// Whether each item is lost, or put in no more often than it came out.
fn are_taken_as_often(
    calls: &[ProblemCall<Op, Reply>],
    puts: &IndexMap<i64, u32>,
    takes: &IndexMap<i64, u32>,
) -> bool
    requires puts { (v : ℤ) → count_in (get int_eq puts.now) v ≡ puts_of calls.now v }
    requires takes { (v : ℤ) → count_in (get int_eq takes.now) v ≡ takes_of calls.now v }
    ensures { IsTrue result ↔ ((v : ℤ) → IsTakenAsOften (puts_of calls.now) (takes_of calls.now) v) }
{
    for call in calls {
        if !is_taken_as_often(puts, takes, call) {
            return false;
        }
    }
    true
}

// The calls that are not left out.
fn calls_kept(
    alloc: Global,
    problem: &Problem<AnyObject>,
    takes: &IndexMap<i64, u32>,
) -> Result<Vec<usize>, AllocError>
    ensures some { IfOk result (λ kept. AreSomeCalls (any_problem problem.now) kept.items) }
    ensures each { IfOk result (λ kept. (c : ℕ) (x : ProblemCall Op Reply) → slice_get problem.now.calls c ≡ Some x
        → In c kept.items ↔ (is_left_out (count_in (get int_eq takes.now)) x.op x.returned ≡ false)) }
{
    let mut kept = Vec::with_capacity(alloc, problem.len())?;
    for call in 0..problem.len() {
        if !is_left_out(takes, problem.call(call)) {
            kept.push(call)?;
        }
    }
    Ok(kept)
}

/// The problem without lost items and without pending calls that take one: it has a linearization if the whole has one. `None` where
/// nothing is left out, an item that came out is put in more often than that, or it is no queue or stack that starts empty.
/// `AllocError` where memory was refused. The time is O(n) for n calls.
pub fn without_lost(
    alloc: Global,
    problem: &Problem<AnyObject>,
) -> Result<Option<Problem<AnyObject>>, AllocError>
    ensures exact { IfOk result (λ rest. IfSome rest (λ part. (part.start ≡ problem.now.start)
        × ((kept : List ℕ) × IsWithoutLost (any_problem problem.now) kept part.calls))) }
    ensures left { IfOk result (λ rest. IfSome rest (λ part. (l : List ℕ)
        → IsLinearization (any_problem problem.now) l
        → (m : List ℕ) × IsLinearization (any_problem part) m)) }
{
    if !holds_nothing(problem.start()) {
        return Ok(None);
    }
    let takes = takes_of(alloc, problem.calls())?;
    let kept = calls_kept(alloc, problem, &takes)?;
    if kept.len() == problem.len() {
        return Ok(None);
    }
    let puts = puts_of(alloc, problem.calls())?;
    if !are_taken_as_often(problem.calls(), &puts, &takes) {
        return Ok(None);
    }
    Ok(Some(part_of(alloc, problem, kept.as_slice())?))
}
