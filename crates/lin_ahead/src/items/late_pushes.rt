//! Pushes that are too late: their items would still lie on the stack when a call is made that has to find what is under them. So
//! it is with an enqueue, and a call that has to find the queue empty.

ghost use Rattle.std.specs.Prelude.{◌≡◌, ◌⊎◌, true, Some, slice_get, IfSome, IsTrue};
ghost use Rattle.lin_history.specs.Problems.Continuations.{has};
ghost use Rattle.lin_history.specs.Problems.Problem.{problem_of};
ghost use Rattle.lin_history.specs.Problems.Configurations.{IsReachable};
ghost use Rattle.lin_ahead.specs.First.FirstProgress.{BeginsNone};
ghost use Rattle.lin_ahead.specs.Items.Late.{NoneIsLate, Grows, IsHeldTo, IsDeadline, IsLate};

use crate::items::calls::returned_outside;
use crate::items::late_hints::LateHints;
use lin_history::Problem;
use lin_object::{SeqObject, lawful};
use lin_search::Config;

/// What is known ahead of each call on a stack or a queue, by which a search finds pushes or enqueues that are too late.
#[derive(Drop)]
pub struct LateRows {
    /// Of a push or an enqueue: the call that takes its item was called at this event or later. 0 of another call.
    pub from: Vec<u64>,
    /// Of a push whose item no other call pushes: a call that returned with it, where one did. Empty of a queue.
    pub poppers: Vec<Option<usize>>,
    /// Whether the call returned as it found the stack or the queue empty.
    pub found_empty: Vec<bool>,
}

// Whether the push `below` is the push itself, or one that the configuration has.
fn is_there<O: SeqObject>(config: &Config<O>, push: usize, below: usize) -> bool
    ensures { IsTrue result → (below ≡ push) ⊎ (has config.now.lifted below ≡ true) }
{
    below == push || config.has(below)
}

// When the call returned that popped the item of `below`, which is the push or lies under its item.
fn popped_at<O: SeqObject>(
    problem: &Problem<O>,
    late: &LateRows,
    config: &Config<O>,
    push: usize,
    below: usize,
) -> Option<u64>
    ensures { IfSome result (IsDeadline (problem_of O.after O.State.eq O.Reply.eq problem.now)
        late.now config.now.lifted push) }
{
    if !is_there(config, push, below) {
        return None;
    }
    match late.poppers.get(below) {
        Some(Some(popper)) => returned_outside(problem, config, *popper),
        _ => None,
    }
}

// When the call returned that popped the lowest, of what lies on the stack what is popped first.
fn lowest_popped_at<O: SeqObject>(
    problem: &Problem<O>,
    late: &LateRows,
    lowest: Option<usize>,
    config: &Config<O>,
    push: usize,
) -> Option<u64>
    ensures { IfSome result (IsDeadline (problem_of O.after O.State.eq O.Reply.eq problem.now)
        late.now config.now.lifted push) }
{
    match lowest {
        Some(below) => popped_at(problem, late, config, push, below),
        None => None,
    }
}

// When the first call returned that found the stack or the queue empty and is not lifted.
fn empty_at<O: SeqObject>(
    problem: &Problem<O>,
    late: &LateRows,
    hints: &LateHints,
    config: &Config<O>,
    push: usize,
) -> Option<u64>
    ensures { IfSome result (IsDeadline (problem_of O.after O.State.eq O.Reply.eq problem.now)
        late.now config.now.lifted push) }
{
    let call = hints.first_empty()?;
    match late.found_empty.get(call) {
        Some(true) => returned_outside(problem, config, call),
        _ => None,
    }
}

// The earlier of two events, or the one that there is.
fn earlier(one: Option<u64>, other: Option<u64>) -> Option<u64>
    ensures { (result ≡ one) ⊎ (result ≡ other) }
{
    match (one, other) {
        (Some(first), Some(second)) if second < first => other,
        (Some(_), _) => one,
        (None, _) => other,
    }
}

// The first event known before which the item of the push has to be popped.
fn deadline_of<O: SeqObject>(
    problem: &Problem<O>,
    late: &LateRows,
    hints: &LateHints,
    lowest: Option<usize>,
    config: &Config<O>,
    push: usize,
) -> Option<u64>
    ensures { IfSome result (IsDeadline (problem_of O.after O.State.eq O.Reply.eq problem.now)
        late.now config.now.lifted push) }
{
    let own = popped_at(problem, late, config, push, push);
    let lowest = lowest_popped_at(problem, late, lowest, config, push);
    let empty = empty_at(problem, late, hints, config, push);
    earlier(own, earlier(lowest, empty))
}

// The event to which a push is held, with another push more: its own, where it returned before that event.
fn held_with<O: SeqObject>(
    problem: &Problem<O>,
    late: &LateRows,
    config: &Config<O>,
    held: u64,
    other: usize,
) -> u64
    ensures { (result ≡ held) ⊎ Grows (problem_of O.after O.State.eq O.Reply.eq problem.now)
        late.now config.now.lifted held other result }
{
    match (
        returned_outside(problem, config, other),
        late.from.get(other),
    ) {
        (Some(returned), Some(from)) if returned < held && held < *from => *from,
        _ => held,
    }
}

// Whether the call returned before the event.
fn is_returned_before<O: SeqObject>(problem: &Problem<O>, call: usize, event: u64) -> bool {
    if call >= problem.len() {
        return false;
    }
    match &problem.call(call).returned {
        Some((number, _)) => u64::from(*number) < event,
        None => false,
    }
}

/// The event at which, or later, the call was called that pops the item of the push.
pub(crate) fn popped_from(late: &LateRows, push: usize) -> u64
    ensures { (result ≡ 0) ⊎ (slice_get late.now.from.items push ≡ Some result) }
{
    match late.from.get(push) {
        Some(from) => *from,
        None => 0,
    }
}

// The event to which the push is held by the pushes that must lie above it, and an enqueue by those whose items must be out before
// the same call; no more is asked where no chain leads beyond the deadline, or once one does.
fn held_to<O: SeqObject>(
    problem: &Problem<O>,
    late: &LateRows,
    hints: &LateHints,
    config: &Config<O>,
    push: usize,
    deadline: u64,
) -> u64
    ensures { IsHeldTo (problem_of O.after O.State.eq O.Reply.eq problem.now) late.now
        config.now.lifted push result }
{
    let mut held = popped_from(late, push);
    if hints.end(push) <= deadline {
        return held;
    }
    for count in 0..problem.len() {
        if deadline < held {
            return held;
        }
        let Some(other) = hints.putter_ahead(count) else {
            return held;
        };
        held = held_with(problem, late, config, held, other);
        if !is_returned_before(problem, other, held) {
            return held;
        }
    }
    held
}

// Whether the call is a push or an enqueue that is known to be too late at the configuration. Of what lies on a stack, `lowest` is
// popped first.
fn is_late<O: SeqObject>(
    problem: &Problem<O>,
    late: &LateRows,
    hints: &LateHints,
    lowest: Option<usize>,
    config: &Config<O>,
    call: usize,
) -> bool
    ensures { IsTrue result → IsLate (problem_of O.after O.State.eq O.Reply.eq problem.now)
        late.now config.now.lifted call }
{
    let Some(deadline) = deadline_of(problem, late, hints, lowest, config, call) else {
        return false;
    };
    let held = held_to(problem, late, hints, config, call, deadline);
    deadline < held
}

/// Whether no completion of the configuration begins with the call, since it is a push or an enqueue that is known to be too late.
pub(crate) fn comes_too_late<O: SeqObject>(
    problem: &Problem<O>,
    late: &LateRows,
    hints: &LateHints,
    lowest: Option<usize>,
    config: &Config<O>,
    call: usize,
) -> bool
    requires right { NoneIsLate (problem_of O.after O.State.eq O.Reply.eq problem.now) late.now }
    requires reachable { IsReachable (problem_of O.after O.State.eq O.Reply.eq problem.now)
        config.now.lifted config.now.state }
    ensures { IsTrue result → BeginsNone (problem_of O.after O.State.eq O.Reply.eq problem.now)
        config.now.lifted config.now.state call }
{
    lawful::<O>();
    is_late(problem, late, hints, lowest, config, call)
}
