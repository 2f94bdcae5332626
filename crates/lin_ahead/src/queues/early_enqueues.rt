//! Enqueues of items that repeat which would come out too early: before an event at which more of another item were out than are in yet,
//! or before a call that found the queue empty.

ghost use Rattle.std.specs.Prelude.{◌≡◌, ◌<◌, ◌≤◌, nat_le, IsTrue};
ghost use Rattle.lin_ahead.specs.Items.Takers.{queue_of};
ghost use Rattle.lin_ahead.specs.Queues.Slots.{FoundEmptyBy, IsTooEarly, ComesTooEarly};
ghost use Rattle.lin_ahead.specs.Queues.CountedRows.{called_until, is_back_until, back_until, lifted_among, left_among, IsCountedRow, AreCountedRows};

use crate::items::calls::item_put;
use crate::queues::counted_rows::{Called, CountedRow, Taken};
use crate::queues::slots::{Reason, Wait};
use lin_history::ProblemCall;
use lin_object::{AnyObject, Op, Reply};
use lin_search::Config;

// Whether the call was called by this event.
fn is_called_by(one: &Called, event: u64) -> bool
    ensures { result ≡ nat_le one.now.at event }
{
    one.at <= event
}

/// How many of the calls were called by this event.
pub(crate) fn count_called(these: &[Called], event: u64) -> usize
    ensures { result ≡ called_until event these.now }
{
    let mut count = 0;
    for one in these {
        if is_called_by(one, event) {
            count += 1;
        }
    }
    count
}

/// Whether the call was called and returned by this event.
pub(crate) fn is_back_by(one: &Taken, event: u64) -> bool
    ensures { result ≡ is_back_until event one.now }
{
    one.by <= event && one.called <= event
}

/// How many of the calls were called and returned by this event, up to the first that was called later: those behind it were called
/// later too, as rows are in rising order.
pub(crate) fn count_back(these: &[Taken], event: u64) -> usize
    ensures { result ≤ back_until event these.now }
{
    let mut count = 0;
    for one in these {
        if one.called > event {
            return count;
        }
        if is_back_by(one, event) {
            count += 1;
        }
    }
    count
}

// Whether so many of the calls are lifted.
fn are_lifted(config: &Config<AnyObject>, these: &[Called], many: usize) -> bool
    ensures { IsTrue result → many ≤ lifted_among config.now.lifted these.now }
{
    let mut left = many;
    for one in these {
        if left == 0 {
            return true;
        }
        if config.has(one.call) {
            left -= 1;
        }
    }
    left == 0
}

// Whether so many of the calls are not lifted. The last of them are asked first: these are lifted last.
fn are_left(config: &Config<AnyObject>, these: &[Called], many: usize) -> bool
    ensures { IsTrue result → many ≤ left_among config.now.lifted these.now }
{
    let mut left = many;
    let mut from = these.len();
    while from > 0 && left > 0 {
        from -= 1;
        if !config.has(these[from].call) {
            left -= 1;
        }
    }
    left == 0
}

// Whether fewer of the calls are lifted.
fn are_fewer_lifted(config: &Config<AnyObject>, these: &[Called], many: usize) -> bool
    ensures { IsTrue result → lifted_among config.now.lifted these.now < many }
{
    many > 0 && are_left(config, these, these.len().saturating_sub(many - 1))
}

// Whether an enqueue of the own row's item would come out before the event, by which more of the other row's item were out than are in.
fn is_too_early(
    calls: &[ProblemCall<Op, Reply>],
    config: &Config<AnyObject>,
    own: &CountedRow,
    other: &CountedRow,
    event: u64,
) -> bool
    requires own { IsCountedRow calls.now own.now }
    requires other { IsCountedRow calls.now other.now }
    ensures { IsTrue result → IsTooEarly calls.now config.now.lifted own.now.item }
{
    let takers = count_called(own.takers.as_slice(), event);
    are_lifted(config, own.puts.as_slice(), takers)
        && are_fewer_lifted(
            config,
            other.puts.as_slice(),
            count_back(other.taken.as_slice(), event),
        )
}

// Whether the call is not lifted, found the queue empty and returned by this event.
fn found_empty_by(
    calls: &[ProblemCall<Op, Reply>],
    config: &Config<AnyObject>,
    event: u64,
    call: usize,
) -> bool
    ensures { IsTrue result → FoundEmptyBy calls.now config.now.lifted event call }
{
    if call >= calls.len() || config.has(call) {
        return false;
    }
    match (&calls[call].op, &calls[call].returned) {
        (Op::Dequeue, Some((number, Reply::Empty))) => u64::from(*number) <= event,
        _ => false,
    }
}

// Whether an enqueue of the own row's item would have to come out before a call that found the queue empty and returned by the event.
fn comes_before_empty(
    calls: &[ProblemCall<Op, Reply>],
    config: &Config<AnyObject>,
    own: &CountedRow,
    empty: usize,
    event: u64,
) -> bool
    requires { IsCountedRow calls.now own.now }
    ensures { IsTrue result → IsTooEarly calls.now config.now.lifted own.now.item }
{
    found_empty_by(calls, config, event, empty)
        && are_lifted(
            config,
            own.puts.as_slice(),
            count_called(own.takers.as_slice(), event),
        )
}

/// Whether it is known that the call is an enqueue that would come out too early. The wait says by which event, and which items or
/// which call to ask.
pub(crate) fn comes_too_early(
    calls: &[ProblemCall<Op, Reply>],
    rows: &[CountedRow],
    wait: Wait,
    config: &Config<AnyObject>,
    call: usize,
) -> bool
    requires { AreCountedRows calls.now rows.now }
    ensures { IsTrue result → ComesTooEarly (queue_of calls.now) config.now.lifted call }
{
    let Some(item) = item_put(calls, call) else {
        return false;
    };
    if wait.own >= rows.len() {
        return false;
    }
    let own = &rows[wait.own];
    if item != own.item {
        return false;
    }
    match wait.reason {
        Reason::Taken(other) => {
            other < rows.len() && is_too_early(calls, config, own, &rows[other], wait.event)
        }
        Reason::FoundEmpty(empty) => comes_before_empty(calls, config, own, empty, wait.event),
    }
}
