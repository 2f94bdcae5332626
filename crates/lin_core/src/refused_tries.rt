//! Calls of `try_lock` that answered 'no' and may be kept: no round that is left out goes on meanwhile.

ghost use Rattle.std.specs.Prelude.{◌≡◌, ◌⊎◌, ◌<◌, ◌≤◌, ℕ, None, Some, true, false, pos, IsTrue, length, slice_get, slice_index};
ghost use Rattle.lin_object.specs.declared.op.Op.{Op};
ghost use Rattle.lin_object.specs.declared.op.Op.TheVariants.{TryLock};
ghost use Rattle.lin_object.specs.declared.reply.Reply.{Reply};
ghost use Rattle.lin_object.specs.declared.reply.Reply.TheVariants.{Flag};
ghost use Rattle.lin_object.specs.declared.state.ObjState.TheVariants.{Mutex};
ghost use Rattle.lin_history.specs.Problems.Precedence.{Before};
ghost use Rattle.lin_history.specs.Problems.AnyProblem.{any_problem};
ghost use Rattle.lin_core.specs.Rounds.{may_take, AreAllTakers, IsTryApart};

use crate::selection::Selection;
use crate::value_tables::has_process;
use lin_history::{Problem, ProblemCall};
use lin_laws::precedes;
use lin_object::{AnyObject, ObjState, Op, Reply};
use lin_search::Stop;

/// Whether the call is a `try_lock` that answered 'no'.
pub(crate) fn is_refused(call: &ProblemCall<Op, Reply>) -> bool
    ensures op { IsTrue result → call.now.op ≡ TryLock }
    ensures answer { IsTrue result → (n : ℕ) × (call.now.returned ≡ Some (n, Flag false)) }
{
    match (&call.op, &call.returned) {
        (Op::TryLock, Some((_, Reply::Flag(false)))) => true,
        _ => false,
    }
}

/// Whether the operation may take a mutex.
pub(crate) fn may_take(op: &Op) -> bool
    ensures { result ≡ may_take op.now }
{
    matches!(op, Op::Lock | Op::TryLock)
}

// Whether it is the state of a mutex that is free.
fn is_free(state: &ObjState) -> bool
    ensures { IsTrue result → state.now ≡ Mutex None }
{
    match state {
        ObjState::Mutex(holder) => holder.is_none(),
        _ => false,
    }
}

/// Whether the mutex is free at the start, and only these processes may take it by the event; not where the stop answers.
pub(crate) fn are_all_takers<S: Stop>(
    problem: &Problem<AnyObject>,
    event: u32,
    values: &[i64],
    stop: &mut S,
) -> bool
    ensures { IsTrue result → AreAllTakers (any_problem problem.now) event values.now }
{
    if !is_free(problem.start()) {
        return false;
    }
    for c in 0..problem.len() {
        if stop.ask().is_some() {
            return false;
        }
        let call = problem.call(c);
        if call.called <= event && may_take(&call.op) && !has_process(values, call.process) {
            return false;
        }
    }
    true
}

// Whether each pair of calls ended before the call was called, or began after it returned.
fn is_apart(problem: &Problem<AnyObject>, firsts: &[usize], lasts: &[usize], call: usize) -> bool
    requires { length lasts.now ≡ length firsts.now }
    ensures { IsTrue result → (i : ℕ) → i < length firsts.now
        → Before (any_problem problem.now) call (slice_index firsts.now i)
        ⊎ Before (any_problem problem.now) (slice_index lasts.now i) call }
{
    for i in 0..firsts.len() {
        if !precedes(problem, call, firsts[i]) && !precedes(problem, lasts[i], call) {
            return false;
        }
    }
    true
}

/// Whether the call, which has this number in the whole, is a `try_lock` that answered 'no', by the processes of all that may
/// take the mutex, and each round that is left out ended before it or began after it: where it is known whether these are all.
pub(crate) fn is_try_apart(
    problem: &Problem<AnyObject>,
    selection: &Selection,
    are_all: bool,
    number: usize,
    call: &ProblemCall<Op, Reply>,
) -> bool
    requires all { IsTrue are_all → AreAllTakers (any_problem problem.now) selection.now.event
        selection.now.values.items }
    requires pairs { length selection.now.lasts.items ≡ length selection.now.firsts.items }
    ensures { IsTrue result → IsTryApart (any_problem problem.now) selection.now.event
        selection.now.values.items selection.now.firsts.items selection.now.lasts.items number call.now }
{
    let firsts = selection.firsts.as_slice();
    let lasts = selection.lasts.as_slice();
    are_all && is_refused(call) && is_apart(problem, firsts, lasts, number)
}
