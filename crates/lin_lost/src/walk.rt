//! Whether a list of calls is a linearization of a problem. It shares no code with a search.

ghost use Rattle.std.specs.Prelude.{◌≡◌, ◌↔◌, ◌<◌, ℕ, List, Some, true, false, IfOk, IfSome, IsTrue, IsSomeAnd, length, slice_index_or};
ghost use Rattle.lin_object.specs.declared.state.ObjState.{ObjState as State};
ghost use Rattle.lin_history.specs.Problems.AnyProblem.{any_problem};
ghost use Rattle.lin_history.specs.Problems.LegalLists.{next, Legal};
ghost use Rattle.lin_history.specs.Problems.Linearizations.{IsLinearization};
ghost use Rattle.lin_history.specs.Problems.Lists.{In, IsDistinct};
ghost use Rattle.lin_history.specs.Problems.Precedence.{IsCompleted};
ghost use Rattle.lin_history.specs.Locality.OrderLemmas.{KeepsTime};

use lin_history::{Problem, ProblemCall};
use lin_object::{AnyObject, ObjState, Op, Reply, SeqObject};
use lin_parts::has_flag;
use std::alloc::{AllocError, Global};

// A flag for each of so many calls, set for those of the list; `None` where one of the list is none of them, or is there twice.
fn flags_of_distinct(
    alloc: Global,
    calls: &[usize],
    count: usize,
) -> Result<Option<Vec<bool>>, AllocError>
    ensures distinct { IfOk result (λ found. IfSome found (λ flags. IsDistinct calls.now)) }
    ensures set { IfOk result (λ found. IfSome found (λ flags. (c : ℕ)
        → slice_index_or flags.items c false ≡ true → In c calls.now)) }
{
    let mut flags = vec![in alloc; false; count]?;
    for call in calls {
        if *call >= count || flags[*call] {
            return Ok(None);
        }
        flags[*call] = true;
    }
    Ok(Some(flags))
}

// Whether every call that has returned has its flag set.
fn has_completed(problem: &Problem<AnyObject>, flags: &[bool]) -> bool
    ensures { IsTrue result → (c : ℕ) → IsCompleted (any_problem problem.now) c
        → slice_index_or flags.now c false ≡ true }
{
    for call in 0..problem.len() {
        if problem.call(call).returned.is_some() && !has_flag(flags, call) {
            return false;
        }
    }
    true
}

// Whether the call returned before the event of this number.
fn returned_before(call: &ProblemCall<Op, Reply>, number: u32) -> bool
    ensures { IsTrue result ↔ IsSomeAnd call.now.returned (λ r. r.0 < number) }
{
    match &call.returned {
        Some((returned, _)) => *returned < number,
        None => false,
    }
}

// Whether no call of the list returned before the greatest call event of those up to it.
fn keeps_time(problem: &Problem<AnyObject>, calls: &[usize]) -> bool
    ensures { IsTrue result → KeepsTime (any_problem problem.now) calls.now }
{
    let mut greatest = 0;
    for call in calls {
        let Some(made) = problem.calls().get(*call) else {
            return false;
        };
        greatest = u32::max(greatest, made.called);
        if returned_before(made, greatest) {
            return false;
        }
    }
    true
}

// Makes the step of the call in the state, where it has one whose reply is the recorded one: whether it has.
fn makes_step(
    alloc: Global,
    problem: &Problem<AnyObject>,
    state: &mut ObjState,
    call: usize,
) -> Result<bool, AllocError>
    ensures { IfOk result (λ made. IsTrue made
        → next (any_problem problem.now) state.old call ≡ Some state.new) }
{
    let Some(made) = problem.calls().get(call) else {
        return Ok(false);
    };
    let object = problem.object();
    let back = object.step_in_place(alloc, state, made.process, &made.op, &made.returned)?;
    Ok(back.is_some())
}

// Whether the list is legal.
fn is_legal(
    alloc: Global,
    problem: &Problem<AnyObject>,
    calls: &[usize],
) -> Result<bool, AllocError>
    ensures { IfOk result (λ legal. IsTrue legal → (t : State)
        × Legal (any_problem problem.now) problem.now.start calls.now t) }
{
    let mut state = problem.object().copy_state(alloc, problem.start())?;
    for call in calls {
        if !makes_step(alloc, problem, &mut state, *call)? {
            return Ok(false);
        }
    }
    Ok(true)
}

/// Whether the calls are a linearization of the problem (Herlihy and Wing 1990). It takes a step for each. `AllocError` where memory was
/// refused.
pub(crate) fn is_linearization(
    alloc: Global,
    problem: &Problem<AnyObject>,
    calls: &[usize],
) -> Result<bool, AllocError>
    ensures { IfOk result (λ yes. IsTrue yes → IsLinearization (any_problem problem.now) calls.now) }
{
    let Some(flags) = flags_of_distinct(alloc, calls, problem.len())? else {
        return Ok(false);
    };
    if !has_completed(problem, flags.as_slice()) || !keeps_time(problem, calls) {
        return Ok(false);
    }
    let is_legal = is_legal(alloc, problem, calls)?;
    Ok(is_legal)
}
