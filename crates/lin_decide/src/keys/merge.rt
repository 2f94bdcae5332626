//! The orders of the keys, merged: at each place the least of the calls with which they go on.

ghost use Rattle.std.specs.Prelude.{◌≡◌, ◌<◌, ◌≤◌, ◌++◌, ℕ, suc, IfOk, IsTrue, IsFalse, length, take, drop, slice_index};
ghost use Rattle.lin_history.specs.Problems.Lists.{In};
ghost use Rattle.lin_history.specs.Problems.Precedence.{IsCompleted};
ghost use Rattle.lin_history.specs.Problems.AnyProblem.{any_problem};
ghost use Rattle.lin_decide.specs.Keys.Merging.{order_at, AreOrdersOfKeys, IsMergedWhole, IsTakenUpTo};

use lin_history::{Order, Problem};
use lin_object::AnyObject;
use std::alloc::{AllocError, Global};

// Whether the order goes on at the place with a call that is not greater than this one.
fn goes_on(order: &[usize], place: usize, call: usize) -> bool
    ensures there { IsTrue result → place < length order.now }
    ensures low { IsTrue result → slice_index order.now place ≤ call }
    ensures no { IsFalse result → place < length order.now → slice_index order.now place ≤ call → ⊥ }
{
    place < order.len() && order[place] <= call
}

// The order of the key.
fn order_of(orders: &[Order], key: usize) -> &[usize]
    requires { key < length orders.now }
    ensures { result.now ≡ order_at orders.now key }
{
    orders[key].calls()
}

// Takes from the order, from the place on, the calls up to the first that is greater than this one: the place of that.
fn take_up_to(
    order: &[usize],
    place: usize,
    call: usize,
    merged: &mut Vec<usize>,
) -> Result<usize, AllocError>
    requires { place ≤ length order.now }
    ensures { IfOk result (IsTakenUpTo order.now place call merged.old.items merged.new.items) }
{
    let mut next = place;
    while goes_on(order, next, call) {
        merged.push(order[next])?;
        next += 1;
    }
    Ok(next)
}

/// The orders of the keys, merged; `numbers` has for each call the number of its key. When the turn of a call comes, no order
/// goes on with a smaller one. So where its key's order goes on with it, it is the least, and so is each smaller one that
/// follows it there.
pub(crate) fn merged(
    alloc: Global,
    numbers: &[usize],
    orders: &[Order],
) -> Result<Vec<usize>, AllocError>
    requires { AreOrdersOfKeys numbers.now orders.now }
    ensures { IfOk result (λ merged. IsMergedWhole numbers.now orders.now merged.items) }
{
    let mut merged = Vec::with_capacity(alloc, numbers.len())?;
    let mut places = vec![in alloc; 0usize; orders.len()]?;
    for call in 0..numbers.len() {
        let key = numbers[call];
        let place = places[key];
        places[key] = take_up_to(order_of(orders, key), place, call, &mut merged)?;
    }
    Ok(merged)
}

// Whether the call is there and has not returned.
fn is_pending(problem: &Problem<AnyObject>, call: usize) -> bool
    ensures yes { IsTrue result → IsCompleted (any_problem problem.now) call → ⊥ }
    ensures no { IsFalse result → call < length problem.now.calls
        → IsCompleted (any_problem problem.now) call }
{
    match problem.calls().get(call) {
        Some(call) => call.returned.is_none(),
        None => false,
    }
}

// Whether the first calls, so many, end with a pending one.
fn ends_pending(problem: &Problem<AnyObject>, calls: &[usize], count: usize) -> bool
    requires { count ≤ length calls.now }
    ensures some { IsTrue result → 0 < count }
    ensures yes { IsTrue result → (i : ℕ) → count ≡ suc i
        → IsCompleted (any_problem problem.now) (slice_index calls.now i) → ⊥ }
    ensures no { IsFalse result → (i : ℕ) → count ≡ suc i
        → slice_index calls.now i < length problem.now.calls
        → IsCompleted (any_problem problem.now) (slice_index calls.now i) }
{
    count > 0 && is_pending(problem, calls[count - 1])
}

/// How many of the calls there are up to the last that has returned, with it.
pub(crate) fn end_of_completed(problem: &Problem<AnyObject>, calls: &[usize]) -> usize
    ensures within { result ≤ length calls.now }
    ensures behind { (c : ℕ) → In c (drop result calls.now)
        → IsCompleted (any_problem problem.now) c → ⊥ }
    ensures last { (i : ℕ) → result ≡ suc i → slice_index calls.now i < length problem.now.calls
        → IsCompleted (any_problem problem.now) (slice_index calls.now i) }
{
    let mut end = calls.len();
    while ends_pending(problem, calls, end) {
        end -= 1;
    }
    end
}
