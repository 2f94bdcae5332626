//! Pushes that cross a pop: the item of each would still lie on the stack when a call is made that finds what is under it. No
//! order of the calls explains that.

ghost use Rattle.std.specs.Prelude.{ℕ, List, true, Some, IfOk, IfSome, IsTrue};
ghost use Rattle.lin_history.specs.Problems.Linearizations.{IsLinearization};
ghost use Rattle.lin_history.specs.Problems.AnyProblem.{any_problem};
ghost use Rattle.lin_ahead.specs.Behind.{IsRightOfStack};
ghost use Rattle.lin_ahead.specs.Items.Numbers.{ReturnsAt};
ghost use Rattle.lin_ahead.specs.Items.Late.{IsPoppedAfter, FindsUnder, IsCrossed};

use crate::items::calls::is_before;
use crate::items::item_calls::BEYOND;
use crate::items::late_hints::returned_at;
use crate::items::late_pushes::{LateRows, popped_from};
use crate::stacks::rows::StackAhead;
use crate::sum_tree::SumTree;
use lin_history::{Problem, ProblemEvent};
use lin_object::AnyObject;
use std::alloc::{AllocError, Global};

// A push, and a call that may cross it, with the push whose item that one popped; `None` where it found the stack empty.
#[derive(Clone, Copy)]
struct Crossing {
    push: usize,
    pop: usize,
    under: Option<usize>,
}

// The event at which the call returned.
fn return_of(problem: &Problem<AnyObject>, call: usize) -> Option<u64>
    ensures { IfSome result (ReturnsAt (any_problem problem.now) call) }
{
    if call >= problem.len() {
        return None;
    }
    match &problem.call(call).returned {
        Some((number, _)) => Some(u64::from(*number)),
        None => None,
    }
}

// Whether the pop found the stack empty, or popped an item that was pushed before the push was called.
fn finds_under(problem: &Problem<AnyObject>, late: &LateRows, crossing: Crossing) -> bool
    ensures { IsTrue result → FindsUnder (any_problem problem.now) late.now crossing.push
        crossing.pop }
{
    match crossing.under {
        Some(under) => {
            late.poppers.get(under) == Some(&Some(crossing.pop))
                && is_before(problem.calls(), under, crossing.push)
        }
        None => late.found_empty.get(crossing.pop) == Some(&true),
    }
}

// The event at which the pop returned, where the item of the push is popped by a call that was called after that.
fn popped_after(
    problem: &Problem<AnyObject>,
    late: &LateRows,
    push: usize,
    pop: usize,
) -> Option<u64>
    ensures returns { IfSome result (ReturnsAt (any_problem problem.now) pop) }
    ensures popped { IfSome result (IsPoppedAfter late.now push) }
{
    let returned = return_of(problem, pop)?;
    let from = popped_from(late, push);
    if returned < from {
        Some(returned)
    } else {
        None
    }
}

// Whether the push crosses the pop: it returned before that was called, and its item is popped after that returned, and yet the
// pop found what is under it.
fn crosses(problem: &Problem<AnyObject>, late: &LateRows, crossing: Crossing) -> bool
    ensures { IsTrue result → IsCrossed (any_problem problem.now) late.now crossing.push }
{
    if !is_before(problem.calls(), crossing.push, crossing.pop) {
        return false;
    }
    match popped_after(problem, late, crossing.push, crossing.pop) {
        Some(event) => finds_under(problem, late, crossing),
        None => false,
    }
}

// A push that returned, and the event from which on its item may have been popped.
#[derive(Clone, Copy, Drop)]
struct Lying {
    until: u64,
    push: usize,
}

// What a crossing is found by. All of it is a hint.
#[derive(Drop)]
struct Moments {
    // For each call, how many had been called as it returned.
    called: Vec<usize>,
    // The calls that returned, in the order of their returns.
    returned: Vec<usize>,
}

// The moments of the calls.
fn moments_of(alloc: Global, problem: &Problem<AnyObject>) -> Result<Moments, AllocError> {
    let events = problem.timeline(alloc)?;
    let mut called = vec![in alloc; 0; problem.len()]?;
    let mut returned = Vec::with_capacity(alloc, problem.len())?;
    let mut count: usize = 0;
    for event in &events {
        match event {
            ProblemEvent::Call(_) => count = count.saturating_add(1),
            ProblemEvent::Return(call) => {
                if let Some(slot) = called.get_mut(*call as usize) {
                    *slot = count;
                }
                returned.push(*call as usize)?;
            }
        }
    }
    Ok(Moments { called, returned })
}

// For each call the push whose item it popped, where that is known.
fn popped_by(alloc: Global, late: &LateRows) -> Result<Vec<Option<usize>>, AllocError> {
    let mut pushes = vec![in alloc; None; late.poppers.len()]?;
    for push in 0..late.poppers.len() {
        if let Some(pop) = late.poppers[push]
            && let Some(slot) = pushes.get_mut(pop)
        {
            *slot = Some(push);
        }
    }
    Ok(pushes)
}

// When the call was called.
fn called_at(problem: &Problem<AnyObject>, call: usize) -> i64 {
    if call >= problem.len() {
        return 0;
    }
    i64::from(problem.call(call).called)
}

// A number beyond those of all events.
const NEVER: i64 = 1 << 32;

// When the call returned; beyond all events where it did not.
fn returned_by(problem: &Problem<AnyObject>, call: usize) -> i64 {
    if call >= problem.len() {
        return NEVER;
    }
    match &problem.call(call).returned {
        Some((number, _)) => i64::from(*number),
        None => NEVER,
    }
}

// By when what the call found under others had been pushed: never where it found the stack empty; beyond all events where that
// is not known.
fn pushed_by(
    problem: &Problem<AnyObject>,
    late: &LateRows,
    pushes: &[Option<usize>],
    call: usize,
) -> i64 {
    if late.found_empty.get(call) == Some(&true) {
        return -1;
    }
    match pushes.get(call) {
        Some(Some(push)) => returned_by(problem, *push),
        _ => NEVER,
    }
}

// These of all calls, the last call first.
fn pushed_by_row(
    alloc: Global,
    problem: &Problem<AnyObject>,
    late: &LateRows,
    pushes: &[Option<usize>],
) -> Result<Vec<i64>, AllocError> {
    let mut row = Vec::with_capacity(alloc, problem.len())?;
    for call in (0..problem.len()).rev() {
        row.push(pushed_by(problem, late, pushes, call))?;
    }
    Ok(row)
}

// The pushes that returned, by the events from which on their items may have been popped, the last first.
fn lying_longest(
    alloc: Global,
    problem: &Problem<AnyObject>,
    late: &LateRows,
) -> Result<Vec<Lying>, AllocError> {
    let mut lying = Vec::new(alloc);
    for push in 0..late.from.len() {
        let until = late.from[push];
        if 0 < until && returned_at(problem, push) < BEYOND {
            lying.push(Lying { until, push })?;
        }
    }
    lying.sort_by_key(|one| BEYOND.saturating_sub(one.until))?;
    Ok(lying)
}

// Leaves out the calls that returned at the event or later.
fn leave_out(
    problem: &Problem<AnyObject>,
    tree: &mut SumTree,
    returned: &mut Vec<usize>,
    event: u64,
) {
    for _ in 0..returned.len() {
        match returned.last() {
            Some(call) if returned_at(problem, *call) >= event => {
                tree.set(problem.len().saturating_sub(call.saturating_add(1)), false);
                returned.pop();
            }
            _ => return,
        }
    }
}

// A push, and a call that seems to cross it. It takes O(n log n) for n calls: it goes over the pushes by when their items may
// have been popped, and asks of each which call that returned before that was called after the push returned and found what was
// pushed first.
fn find_crossing(
    alloc: Global,
    problem: &Problem<AnyObject>,
    late: &LateRows,
) -> Result<Option<Crossing>, AllocError> {
    let Moments { called, returned } = moments_of(alloc, problem)?;
    let mut returned = returned;
    let pushes = popped_by(alloc, late)?;
    let row = pushed_by_row(alloc, problem, late, pushes.as_slice())?;
    let mut tree = SumTree::new(alloc, row.as_slice())?;
    let lying = lying_longest(alloc, problem, late)?;
    for one in &lying {
        leave_out(problem, &mut tree, &mut returned, one.until);
        let behind = called.get(one.push).copied().unwrap_or(0);
        let before = problem.len().saturating_sub(behind);
        let start = called_at(problem, one.push);
        if let Some(place) = tree.narrow(before, start) {
            let pop = problem.len().saturating_sub(place.saturating_add(1));
            let under = pushes.get(pop).copied().unwrap_or(None);
            return Ok(Some(Crossing {
                push: one.push,
                pop,
                under,
            }));
        }
    }
    Ok(None)
}

/// Whether some push crosses a call, by what is known ahead of a stack's problem: the push returned before that call was
/// called, which popped what was pushed before the push was called, or found the stack empty; and the item of the push was
/// popped by a call that was called after that one returned. `true` only where there is no linearization. `AllocError` where memory
/// was refused. The time is O(n log n) for n calls. (This project's own.)
pub(crate) fn some_push_crosses(
    alloc: Global,
    problem: &Problem<AnyObject>,
    ahead: &StackAhead,
) -> Result<bool, AllocError>
    requires { IsRightOfStack (any_problem problem.now) ahead.now }
    ensures { IfOk result (λ found. IsTrue found
        → (l : List ℕ) → IsLinearization (any_problem problem.now) l → ⊥) }
{
    match find_crossing(alloc, problem, &ahead.late)? {
        Some(crossing) => Ok(crosses(problem, &ahead.late, crossing)),
        None => Ok(false),
    }
}
