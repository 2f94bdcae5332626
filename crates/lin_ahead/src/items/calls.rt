//! What one call of a queue is: which item it put in or took, and when it returned. The calls of a stack are read as those on a queue.

ghost use Rattle.std.specs.Prelude.{IfSome, IsTrue};
ghost use Rattle.lin_history.specs.Problems.Precedence.{Before};
ghost use Rattle.lin_history.specs.Problems.Problem.{problem_of};
ghost use Rattle.lin_ahead.specs.Items.Late.{ReturnsOutside};
ghost use Rattle.lin_ahead.specs.Items.Takers.{queue_of};
ghost use Rattle.lin_ahead.specs.Queues.Queue.{FoundEmpty};
ghost use Rattle.lin_laws.specs.Items.{Puts, Took};

use lin_history::{Problem, ProblemCall};
use lin_object::{Op, Reply, SeqObject};
use lin_search::Config;

/// The item that the call puts in.
pub(crate) fn item_put(calls: &[ProblemCall<Op, Reply>], call: usize) -> Option<i64>
    ensures { IfSome result (Puts (queue_of calls.now) call) }
{
    if call >= calls.len() {
        return None;
    }
    match &calls[call].op {
        Op::Enqueue(item) => Some(*item),
        _ => None,
    }
}

/// The item that the call returned with.
pub(crate) fn item_taken(calls: &[ProblemCall<Op, Reply>], call: usize) -> Option<i64>
    ensures { IfSome result (Took (queue_of calls.now) call) }
{
    if call >= calls.len() {
        return None;
    }
    let made = &calls[call];
    match (&made.op, &made.returned) {
        (Op::Dequeue, Some((_, Reply::Int(item)))) => Some(*item),
        _ => None,
    }
}

/// Whether the call returned as it found none.
pub(crate) fn found_empty(calls: &[ProblemCall<Op, Reply>], call: usize) -> bool
    ensures { IsTrue result → FoundEmpty (queue_of calls.now) call }
{
    if call >= calls.len() {
        return false;
    }
    let made = &calls[call];
    match (&made.op, &made.returned) {
        (Op::Dequeue, Some((_, Reply::Empty))) => true,
        _ => false,
    }
}

/// Whether the one call returned before the other was called.
pub(crate) fn is_before(calls: &[ProblemCall<Op, Reply>], call: usize, other: usize) -> bool
    ensures { IsTrue result → Before (queue_of calls.now) call other }
{
    if call >= calls.len() || other >= calls.len() {
        return false;
    }
    match &calls[call].returned {
        Some((number, _)) => *number < calls[other].called,
        None => false,
    }
}

/// The event at which the call returned, where the configuration does not have it.
pub(crate) fn returned_outside<O: SeqObject>(
    problem: &Problem<O>,
    config: &Config<O>,
    call: usize,
) -> Option<u64>
    ensures { IfSome result (ReturnsOutside
        (problem_of O.after O.State.eq O.Reply.eq problem.now) config.now.lifted call) }
{
    if call >= problem.len() {
        return None;
    }
    if config.has(call) {
        return None;
    }
    match &problem.call(call).returned {
        Some((number, _)) => Some(u64::from(*number)),
        None => None,
    }
}
