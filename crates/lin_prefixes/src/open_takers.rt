//! Open dequeues and pops that may stay out of a run of a queue or a stack. Without one, and without the call that put in what it
//! took, a run stays one: all others take what they took.
ghost use Rattle.std.specs.Prelude.{◌≡◌, ◌↔◌, ◌<◌, ℕ, ℤ, Some, [], IfOk, IsTrue, OnOk, length};
ghost use Rattle.std.specs.Ordering.{int_eq};
ghost use Rattle.indexmap.specs.IndexSet.{contains};
ghost use Rattle.lin_history.specs.Problems.Lists.{In};
ghost use Rattle.lin_history.specs.Problems.AnyProblem.{any_problem};
ghost use Rattle.lin_laws.specs.Items.{AddsItem};
ghost use Rattle.lin_prefixes.specs.Freed.{AreTakers, HasReturned, TookOut};

use indexmap::IndexSet;
use lin_history::{Problem, ProblemCall};
use lin_object::{AnyObject, Items, ObjState, Op, Reply};
use lin_parts::{flags_of, has_flag};
use std::alloc::{AllocError, Global};

// Whether there is no item.
fn has_none(items: &Items) -> bool
    ensures { IsTrue result ↔ (items.now ≡ []) }
{
    items.first().is_none()
}

// Whether the call has this operation, and returned.
fn has_returned(problem: &Problem<AnyObject>, call: usize, op: &Op) -> bool
    ensures { IsTrue result → HasReturned (any_problem problem.now) op.now call }
{
    if call >= problem.len() {
        return false;
    }
    let made = problem.call(call);
    made.op == *op && made.returned.is_some()
}

// Whether each of the calls has this operation, and returned.
fn have_returned(problem: &Problem<AnyObject>, takers: &[usize], op: &Op) -> bool
    ensures { IsTrue result → (g : ℕ) → In g takers.now
        → HasReturned (any_problem problem.now) op.now g }
{
    for taker in takers {
        if !has_returned(problem, *taker, op) {
            return false;
        }
    }
    true
}

// Whether there are no such calls, or each is a dequeue that returned, of a queue that starts empty, or each is a pop that
// returned, of a stack that starts empty.
fn are_takers(problem: &Problem<AnyObject>, takers: &[usize]) -> bool
    ensures { IsTrue result → AreTakers (any_problem problem.now) takers.now }
{
    if takers.is_empty() {
        return true;
    }
    match problem.start() {
        ObjState::Queue(items) if has_none(items) => {
            have_returned(problem, takers, &Op::Dequeue)
        },
        ObjState::Stack(items) if has_none(items) => { have_returned(problem, takers, &Op::Pop) },
        _ => false,
    }
}

// The item with which the call returned.
fn item_taken(problem: &Problem<AnyObject>, call: usize) -> Option<i64>
    ensures { (w : ℤ) → TookOut (any_problem problem.now) call w → result ≡ Some w }
{
    if call >= problem.len() {
        return None;
    }
    match &problem.call(call).returned {
        Some((_, Reply::Int(item))) => Some(*item),
        _ => None,
    }
}

// Adds the item, where there is one.
fn add_item(items: &mut IndexSet<i64>, item: Option<i64>) -> Result<(), AllocError>
    ensures there { OnOk result ((w : ℤ) → item ≡ Some w → IsTrue (contains int_eq items.new w)) }
    ensures more { OnOk result ((w : ℤ) → IsTrue (contains int_eq items.old w)
        → IsTrue (contains int_eq items.new w)) }
{
    if let Some(item) = item {
        items.insert(item)?;
    }
    Ok(())
}

/// The items with which the calls returned.
pub(crate) fn items_taken(
    alloc: Global,
    problem: &Problem<AnyObject>,
    takers: &[usize],
) -> Result<IndexSet<i64>, AllocError>
    ensures { IfOk result (λ items. (g : ℕ) → In g takers.now → (w : ℤ)
        → TookOut (any_problem problem.now) g w → IsTrue (contains int_eq items w)) }
{
    let mut items = IndexSet::new(alloc);
    for taker in takers {
        add_item(&mut items, item_taken(problem, *taker))?;
    }
    Ok(items)
}

/// The item that the call puts in.
pub(crate) fn item_put(problem: &Problem<AnyObject>, call: usize) -> Option<i64>
    requires { call < length problem.now.calls }
    ensures { (w : ℤ) → AddsItem (any_problem problem.now) call w → result ≡ Some w }
{
    match &problem.call(call).op {
        Op::Enqueue(item) => Some(*item),
        Op::Push(item) => Some(*item),
        _ => None,
    }
}

// The event at which a call returned that takes an item out of a queue or off a stack.
fn taken_at(made: &ProblemCall<Op, Reply>) -> Option<u32> {
    match (&made.op, &made.returned) {
        (Op::Dequeue | Op::Pop, Some((event, _))) => Some(*event),
        _ => None,
    }
}

// Whether the object starts as an empty queue or an empty stack.
fn starts_empty(problem: &Problem<AnyObject>) -> bool {
    match problem.start() {
        ObjState::Queue(items) | ObjState::Stack(items) => has_none(items),
        _ => false,
    }
}

// The dequeues or pops up to the call that returned after it was called, but for those listed.
fn takers_behind(
    alloc: Global,
    problem: &Problem<AnyObject>,
    call: usize,
    kept: &[usize],
) -> Result<Vec<usize>, AllocError> {
    let mut takers = Vec::new(alloc);
    if !starts_empty(problem) {
        return Ok(takers);
    }
    let Some(last) = problem.calls().get(call) else {
        return Ok(takers);
    };
    let kept = flags_of(alloc, kept, problem.len())?;
    for (c, made) in problem.calls().iter().enumerate() {
        if let Some(event) = taken_at(made)
            && c <= call
            && event >= last.called
            && !has_flag(kept.as_slice(), c)
        {
            takers.push(c)?;
        }
    }
    Ok(takers)
}

/// The dequeues or pops up to the call that returned after it was called, but for those listed; of a queue or a stack that starts
/// empty. Which ones is a hint.
pub(crate) fn open_takers(
    alloc: Global,
    problem: &Problem<AnyObject>,
    call: usize,
    kept: &[usize],
) -> Result<Vec<usize>, AllocError>
    ensures { IfOk result (λ takers. AreTakers (any_problem problem.now) takers.items) }
{
    let takers = takers_behind(alloc, problem, call, kept)?;
    if are_takers(problem, takers.as_slice()) {
        return Ok(takers);
    }
    Ok(Vec::new(alloc))
}
