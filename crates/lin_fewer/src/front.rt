//! Which calls may be next.

ghost use Rattle.std.specs.Prelude.{◌≡◌, ◌<◌, ◌↔◌, false, length, IfSome, IfNone, IsFalse, IsTrue};
ghost use Rattle.lin_history.specs.Problems.Problem.{problem_of};
ghost use Rattle.lin_history.specs.Problems.Precedence.{IsCompleted};
ghost use Rattle.lin_history.specs.Problems.Continuations.{has};
ghost use Rattle.lin_search.specs.NextCall.{HasEveryCompleted};
ghost use Rattle.lin_fewer.specs.Fronts.{HasCompletedBelow, IsCalledBy, IsFirstLeft, IsLater, IsLeastReturn, IsLesserReturn, IsReturnOf};

use lin_history::Problem;
use lin_object::SeqObject;
use lin_search::CallSet;

// Whether the call has returned.
pub(crate) fn is_completed<O: SeqObject>(problem: &Problem<O>, call: usize) -> bool
    requires { call < length problem.now.calls }
    ensures { IsTrue result ↔ IsCompleted (problem_of O.after O.State.eq O.Reply.eq problem.now)
        call }
{
    problem.call(call).returned.is_some()
}

// Whether the call was called after the event of this number.
pub(crate) fn is_later<O: SeqObject>(problem: &Problem<O>, call: usize, bound: u32) -> bool
    requires { call < length problem.now.calls }
    ensures yes { IsTrue result → IsLater
        (problem_of O.after O.State.eq O.Reply.eq problem.now) call bound }
    ensures no { IsFalse result → IsCalledBy
        (problem_of O.after O.State.eq O.Reply.eq problem.now) call bound }
{
    let _timed = problem.calls();
    let made = problem.call(call);
    if made.called > bound {
        return true;
    }
    false
}

// Whether the call has returned and is not in the set.
fn is_left<O: SeqObject>(problem: &Problem<O>, set: &CallSet, call: usize) -> bool
    requires { call < length problem.now.calls }
    ensures { IsTrue result ↔ (IsCompleted (problem_of O.after O.State.eq O.Reply.eq problem.now)
        call × (has set.now call ≡ false)) }
{
    if set.has(call) {
        return false;
    }
    is_completed(problem, call)
}

// The first completed call that is not in the set, from this one on: below it there is none. `None` where there is none at all.
pub(crate) fn first_left<O: SeqObject>(
    problem: &Problem<O>,
    set: &CallSet,
    from: usize,
) -> Option<usize>
    requires { HasCompletedBelow (problem_of O.after O.State.eq O.Reply.eq problem.now) set.now from }
    ensures some { IfSome result (IsFirstLeft
        (problem_of O.after O.State.eq O.Reply.eq problem.now) set.now) }
    ensures none { IfNone result (HasEveryCompleted
        (problem_of O.after O.State.eq O.Reply.eq problem.now) set.now) }
{
    for call in from..problem.len() {
        if is_left(problem, set, call) {
            return Some(call);
        }
    }
    None
}

// The number of the call's return event. Condition: it has returned.
fn return_of<O: SeqObject>(problem: &Problem<O>, call: usize) -> u32
    requires { call < length problem.now.calls }
    ensures { IsReturnOf (problem_of O.after O.State.eq O.Reply.eq problem.now) call result }
{
    match &problem.call(call).returned {
        Some((returned, _)) => *returned,
        None => 0,
    }
}

// The lesser of this number and that of the call's return event, if the call is left.
fn lesser_return<O: SeqObject>(problem: &Problem<O>, set: &CallSet, call: usize, least: u32) -> u32
    requires { call < length problem.now.calls }
    ensures { IsLesserReturn (problem_of O.after O.State.eq O.Reply.eq problem.now) set.now call least
        result }
{
    if !is_left(problem, set, call) {
        return least;
    }
    u32::min(least, return_of(problem, call))
}

// The least number of a return event of a call that is not in the set. The call is the first of these.
pub(crate) fn least_return<O: SeqObject>(problem: &Problem<O>, set: &CallSet, first: usize) -> u32
    requires { IsFirstLeft (problem_of O.after O.State.eq O.Reply.eq problem.now) set.now first }
    ensures { IsLeastReturn (problem_of O.after O.State.eq O.Reply.eq problem.now) set.now result }
{
    let mut least = return_of(problem, first);
    for call in first..problem.len() {
        if is_later(problem, call, least) {
            return least;
        }
        least = lesser_return(problem, set, call, least);
    }
    least
}
