//! The calls that a call on a queue needs, by the numbers of both, and by the takers that are left.
ghost use Rattle.std.specs.Prelude.{◌≡◌, ◌≢◌, false, IfSome, IsTrue};
ghost use Rattle.lin_history.specs.Problems.Problem.{problem_of};
ghost use Rattle.lin_history.specs.Problems.Continuations.{has};
ghost use Rattle.lin_history.specs.Problems.AnyProblem.{any_problem};
ghost use Rattle.lin_ahead.specs.Behind.{NeedsBehind, CalledAfter, OthersCalledAfter, IsRightOfQueue};

use crate::first::calls_in_turn::CallsInTurn;
use crate::first::needed_calls::first_other;
use crate::queues::rows::QueueAhead;
use lin_history::Problem;
use lin_object::{AnyObject, SeqObject};
use lin_search::Config;

// Whether the call was called after the event.
fn is_called_after<O: SeqObject>(problem: &Problem<O>, call: usize, event: u64) -> bool
    ensures { IsTrue result → CalledAfter (problem_of O.after O.State.eq O.Reply.eq problem.now)
        event call }
{
    call < problem.len() && event < u64::from(problem.call(call).called)
}

// Whether each of these calls that the configuration does not have was called after the event.
fn others_called_after<O: SeqObject>(
    problem: &Problem<O>,
    config: &Config<O>,
    calls: &[usize],
    event: u64,
) -> bool
    ensures { IsTrue result → OthersCalledAfter
        (problem_of O.after O.State.eq O.Reply.eq problem.now) config.now.lifted event
        calls.now }
{
    for call in calls {
        if !config.has(*call) && !is_called_after(problem, *call, event) {
            return false;
        }
    }
    true
}

// Whether it is known that the call needs the other one at the configuration. `None` where one of them is no call.
fn needs(
    problem: &Problem<AnyObject>,
    ahead: &QueueAhead,
    config: &Config<AnyObject>,
    other: usize,
    call: usize,
) -> Option<bool>
    requires other { other ≢ call }
    requires ahead { IsRightOfQueue (any_problem problem.now) ahead.now }
    ensures { IfSome result (λ needs. IsTrue needs → NeedsBehind
        (any_problem problem.now) config.now.lifted other call) }
{
    let by = *ahead.needs.by().get(other)?;
    let from = *ahead.needs.from().get(call)?;
    if by < from {
        return Some(true);
    }
    let taken = *ahead.taken.get(call)?;
    Some(by < taken && others_called_after(problem, config, ahead.items.takers.as_slice(), by))
}

/// A call that this call needs and that the configuration does not have, where one is known. It looks at the first in
// turn.
pub(crate) fn left_out(
    problem: &Problem<AnyObject>,
    ahead: &QueueAhead,
    needed: &CallsInTurn,
    config: &Config<AnyObject>,
    call: usize,
) -> Option<usize>
    requires { IsRightOfQueue (any_problem problem.now) ahead.now }
    ensures { IfSome result (λ other. NeedsBehind
        (any_problem problem.now) config.now.lifted other call
        × (has config.now.lifted other ≡ false)) }
{
    let other = first_other(needed, config, call)?;
    if needs(problem, ahead, config, other, call)? {
        Some(other)
    } else {
        None
    }
}
