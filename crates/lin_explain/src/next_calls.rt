//! The calls that could come next after a run.
ghost use Rattle.std.specs.Prelude.{◌≡◌, ℕ, ◌<◌, ◌↔◌, ◌⊎◌, true, false, IfOk, IsSomeAnd, length, slice_get};
ghost use Rattle.lin_history.specs.Problems.Continuations.{has};
ghost use Rattle.lin_history.specs.Problems.Lists.{In};
ghost use Rattle.lin_history.specs.Problems.AnyProblem.{any_problem};
ghost use Rattle.lin_explain.specs.Explanation.{AreNextCalls};
ghost use Rattle.lin_explain.specs.FirstReturn.{IsFirstReturn};

use lin_history::{Problem, ProblemCall};
use lin_object::{AnyObject, Op, Reply};
use std::alloc::{AllocError, Global};

// For each of so many calls whether it is in the run.
fn run_flags(alloc: Global, count: usize, run: &[usize]) -> Result<Vec<bool>, AllocError>
    requires { (c : ℕ) → In c run.now → c < count }
    ensures count { IfOk result (λ flags. length flags.items ≡ count) }
    ensures flags { IfOk result (λ flags. (c : ℕ) → has flags.items c ≡ true ↔ In c run.now) }
{
    let mut flags = vec![in alloc; false; count]?;
    for number in run {
        flags[*number] = true;
    }
    Ok(flags)
}

// The first of some returns and this one, where there is any.
fn first_of_both(first: Option<u32>, returned: &Option<(u32, Reply)>) -> Option<u32>
    ensures { (number : ℕ) → IsSomeAnd result (λ m. m < number)
        ↔ (IsSomeAnd first (λ m. m < number) ⊎ IsSomeAnd returned.now (λ r. r.0 < number)) }
{
    let Some((number, _)) = returned else {
        return first;
    };
    match first {
        Some(least) => Some(least.min(*number)),
        None => Some(*number),
    }
}

// The number of the first return of a call that is not in the run; `None` where none of them returned.
fn first_return(calls: &[ProblemCall<Op, Reply>], flags: &[bool]) -> Option<u32>
    requires { length flags.now ≡ length calls.now }
    ensures { IsFirstReturn calls.now flags.now (length calls.now) result }
{
    let mut first = None;
    for number in 0..calls.len() {
        if !flags[number] {
            first = first_of_both(first, &calls[number].returned);
        }
    }
    first
}

// Whether the call is not in the run and was called before the first return of those that are not.
fn comes_next(
    calls: &[ProblemCall<Op, Reply>],
    flags: &[bool],
    first: Option<u32>,
    call: usize,
) -> bool
    requires call { call < length calls.now }
    requires flags { length flags.now ≡ length calls.now }
    ensures { result ≡ true ↔ (has flags.now call ≡ false)
        × (IsSomeAnd (slice_get calls.now call) (λ x. IsSomeAnd first (λ m. m < x.called)) → ⊥) }
{
    if flags[call] {
        return false;
    }
    match first {
        Some(first) => calls[call].called <= first,
        None => true,
    }
}

/// The calls that could come next after a run, in order of their numbers: those that are not in it and that no other call
/// that is not in it precedes. `AllocError` where memory was refused.
///
/// Condition: the run is of calls of the problem.
pub(crate) fn next_calls(
    alloc: Global,
    problem: &Problem<AnyObject>,
    run: &[usize],
) -> Result<Vec<usize>, AllocError>
    requires { (c : ℕ) → In c run.now → c < length problem.now.calls }
    ensures { IfOk result (λ next. AreNextCalls (any_problem problem.now) run.now next.items) }
{
    let calls = problem.calls();
    let flags = run_flags(alloc, calls.len(), run)?;
    let first = first_return(calls, flags.as_slice());
    let mut next = Vec::new(alloc);
    for call in 0..calls.len() {
        if comes_next(calls, flags.as_slice(), first, call) {
            next.push(call)?;
        }
    }
    Ok(next)
}
