//! Items that a call on a queue or a stack returned with before any call put them there: no order of the calls explains that.

ghost use Rattle.std.specs.Prelude.{◌≡◌, ◌≢◌, ◌<◌, ◌↔◌, ℕ, ℤ, [], Some, List, IfOk, OnOk, IsTrue, length};
ghost use Rattle.std.specs.Ordering.{int_eq};
ghost use Rattle.indexmap.specs.IndexMap.{get};
ghost use Rattle.lin_object.specs.declared.state.ObjState.TheVariants.{Queue, Stack};
ghost use Rattle.lin_history.specs.Problems.Linearizations.{IsLinearization};
ghost use Rattle.lin_history.specs.Problems.AnyProblem.{any_problem};
ghost use Rattle.lin_ahead.specs.Items.Impossible.{CameTooEarly, added_next, earlier, first_added, is_early, item_added, item_dequeued, item_out, item_popped};

use crate::look_ahead::is_empty;
use indexmap::IndexMap;
use lin_history::{Problem, ProblemCall};
use lin_object::{AnyObject, ObjState, Op, Reply};
use std::alloc::{AllocError, Global};

/// The item that the operation puts into a queue or onto a stack.
pub(crate) fn added_by(op: &Op) -> Option<i64>
    ensures { result ≡ item_added op.now }
{
    match op {
        Op::Enqueue(item) | Op::Push(item) => Some(*item),
        _ => None,
    }
}

// The item that the call dequeued.
fn item_dequeued(made: &ProblemCall<Op, Reply>) -> Option<i64>
    ensures { result ≡ item_dequeued made.now.op made.now.returned }
{
    match (&made.op, &made.returned) {
        (Op::Dequeue, Some((_, Reply::Int(item)))) => Some(*item),
        _ => None,
    }
}

// The item that the call popped.
fn item_popped(made: &ProblemCall<Op, Reply>) -> Option<i64>
    ensures { result ≡ item_popped made.now.op made.now.returned }
{
    match (&made.op, &made.returned) {
        (Op::Pop, Some((_, Reply::Int(item)))) => Some(*item),
        _ => None,
    }
}

// Whether the state is an empty queue.
fn is_empty_queue(state: &ObjState) -> bool
    ensures { IsTrue result ↔ (state.now ≡ Queue []) }
{
    match state {
        ObjState::Queue(items) => is_empty(items),
        _ => false,
    }
}

// Whether the state is an empty stack.
fn is_empty_stack(state: &ObjState) -> bool
    ensures { IsTrue result ↔ (state.now ≡ Stack []) }
{
    match state {
        ObjState::Stack(items) => is_empty(items),
        _ => false,
    }
}

/// The item that the call returned with, from a queue or a stack that starts empty.
pub(crate) fn item_out(start: &ObjState, made: &ProblemCall<Op, Reply>) -> Option<i64>
    ensures { result ≡ item_out start.now made.now.op made.now.returned }
{
    if is_empty_queue(start) {
        return item_dequeued(made);
    }
    if is_empty_stack(start) {
        return item_popped(made);
    }
    None
}

// The event at which the first call was called that puts the item there, where another one is called at this event.
fn earlier(added: &IndexMap<i64, u32>, item: i64, called: u32) -> u32
    ensures { result ≡ earlier (get int_eq added.now item) called }
{
    match added.get(&item) {
        Some(first) => u32::min(*first, called),
        None => called,
    }
}

// Notes the event at which the first call was called that puts the item there.
fn note(added: &mut IndexMap<i64, u32>, item: i64, first: u32) -> Result<(), AllocError>
    ensures own { OnOk result (get int_eq added.new item ≡ Some first) }
    ensures others { (v : ℤ) → v ≢ item → get int_eq added.new v ≡ get int_eq added.old v }
{
    added.insert(item, first)?;
    Ok(())
}

// Notes the item that the call puts there.
fn add_call(added: &mut IndexMap<i64, u32>, made: &ProblemCall<Op, Reply>) -> Result<(), AllocError>
    ensures { OnOk result ((v : ℤ) → get int_eq added.new v
        ≡ added_next (get int_eq added.old v) made.now v) }
{
    let Some(item) = added_by(&made.op) else {
        return Ok(());
    };
    let first = earlier(added, item, made.called);
    note(added, item, first)
}

// For each item the event at which the first call was called that puts it there.
fn first_added(
    alloc: Global,
    calls: &[ProblemCall<Op, Reply>],
) -> Result<IndexMap<i64, u32>, AllocError>
    ensures { IfOk result (λ added. (v : ℤ) → get int_eq added v ≡ first_added calls.now v) }
{
    let mut added = IndexMap::new(alloc);
    for made in calls {
        add_call(&mut added, made)?;
    }
    Ok(added)
}

// Whether the call returned before the first call was called that puts the item there.
fn is_early(added: &IndexMap<i64, u32>, item: i64, made: &ProblemCall<Op, Reply>) -> bool
    ensures { result ≡ is_early (get int_eq added.now item) made.now.returned }
{
    match (&made.returned, added.get(&item)) {
        (Some((number, _)), Some(first)) => *number < *first,
        (Some(_), None) => true,
        (None, _) => false,
    }
}

// Whether the call returned with an item that no call had put there by then.
fn came_too_early(problem: &Problem<AnyObject>, added: &IndexMap<i64, u32>, call: usize) -> bool
    requires added { (v : ℤ) → get int_eq added.now v ≡ first_added problem.now.calls v }
    requires call { call < length problem.now.calls }
    ensures { IsTrue result ↔ CameTooEarly (any_problem problem.now) call }
{
    let made = problem.call(call);
    match item_out(problem.start(), made) {
        Some(item) => is_early(added, item, made),
        None => false,
    }
}

// Whether some call returned with an item that no call had put there by then.
fn has_early(problem: &Problem<AnyObject>, added: &IndexMap<i64, u32>) -> bool
    requires { (v : ℤ) → get int_eq added.now v ≡ first_added problem.now.calls v }
    ensures { IsTrue result ↔ ((c : ℕ) × CameTooEarly (any_problem problem.now) c) }
{
    for call in 0..problem.len() {
        if came_too_early(problem, added, call) {
            return true;
        }
    }
    false
}

/// Whether some call returned with an item that no call had put there by then, of a queue or a stack that starts empty. Then
/// there is no linearization. `AllocError` where memory was refused. The time is O(n) for n calls. (This project's own.)
pub fn some_came_too_early(alloc: Global, problem: &Problem<AnyObject>) -> Result<bool, AllocError>
    ensures exact { IfOk result (λ found. IsTrue found
        ↔ ((c : ℕ) × CameTooEarly (any_problem problem.now) c)) }
    ensures none { IfOk result (λ found. IsTrue found
        → (l : List ℕ) → IsLinearization (any_problem problem.now) l → ⊥) }
{
    let added = first_added(alloc, problem.calls())?;
    Ok(has_early(problem, &added))
}
