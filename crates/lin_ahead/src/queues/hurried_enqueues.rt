//! Enqueues of items that repeat whose item would have to be out by an event by which too few calls that may take it were called.

ghost use Rattle.std.specs.Prelude.{◌≡◌, ◌≤◌, IfOk, IsTrue};
ghost use Rattle.std.specs.Ordering.{int_eq};
ghost use Rattle.lin_ahead.specs.Items.Takers.{queue_of};
ghost use Rattle.lin_laws.specs.Counting.{counted};
ghost use Rattle.lin_ahead.specs.Queues.Slots.{calls_on};
ghost use Rattle.lin_ahead.specs.Queues.CountedRows.{is_left_until, left_until, is_left_back_until, left_back_until, is_left_between, left_between, IsCountedRow, AreCountedRows};
ghost use Rattle.lin_ahead.specs.Queues.Hurried.{times, times_until, left_takers, MoreAreOut, ComesHurried};

use crate::items::calls::item_put;
use crate::queues::counted_rows::{Called, CountedRow, Taken};
use crate::queues::early_enqueues::is_back_by;
use crate::queues::inner_takers::Hurry;
use lin_history::ProblemCall;
use lin_object::{AnyObject, Items, Op, Reply};
use lin_search::Config;
use std::alloc::{AllocError, Global};

/// A configuration, and the items that lie in the queue there.
#[derive(Clone, Copy, Drop)]
pub(crate) struct Lying<'a> {
    /// The configuration.
    pub config: &'a Config<AnyObject>,
    /// The items.
    pub items: &'a [i64],
}

/// The items one behind another.
pub(crate) fn listed(alloc: Global, items: &Items) -> Result<Vec<i64>, AllocError>
    ensures { IfOk result (λ list. list.items ≡ items.now) }
{
    let mut list = Vec::new(alloc);
    let mut rest = items.copy(alloc)?;
    while let Some(item) = rest.first() {
        list.push(item)?;
        rest = rest.without_first(alloc)?;
    }
    Ok(list)
}

// How often the item is among these.
fn count_times(item: i64, items: &[i64]) -> usize
    ensures { result ≡ times item items.now }
{
    let mut count = 0;
    for lying in items {
        if item == *lying {
            count += 1;
        }
    }
    count
}

// One, where the items are equal.
fn once(item: i64, other: i64) -> usize
    ensures value { result ≡ counted (int_eq item other) 0 }
    ensures few { result ≤ 1 }
{
    if item == other { 1 } else { 0 }
}

// How often the item is among these until so many of the other came.
fn count_times_until(item: i64, other: i64, until: usize, items: &[i64]) -> usize
    ensures { result ≡ times_until item other until items.now }
{
    let mut count = 0;
    let mut left = until;
    for lying in items {
        if left == 0 {
            return count;
        }
        count += once(item, *lying);
        left -= once(other, *lying);
    }
    count
}

// Whether the call was called and returned by this event and is not lifted.
fn is_left_back(config: &Config<AnyObject>, one: &Taken, event: u64) -> bool
    ensures { result ≡ is_left_back_until config.now.lifted event one.now }
{
    is_back_by(one, event) && !config.has(one.call)
}

// How many of the calls are so.
fn count_left_back(config: &Config<AnyObject>, these: &[Taken], event: u64) -> usize
    ensures { result ≡ left_back_until config.now.lifted event these.now }
{
    let mut count = 0;
    for one in these {
        if is_left_back(config, one, event) {
            count += 1;
        }
    }
    count
}

// Whether it was called after another event, too.
fn is_left_between(config: &Config<AnyObject>, one: &Taken, since: u64, event: u64) -> bool
    ensures { result ≡ is_left_between config.now.lifted since event one.now }
{
    one.called > since && is_left_back(config, one, event)
}

// How many of the calls are so.
fn count_left_between(config: &Config<AnyObject>, these: &[Taken], since: u64, event: u64) -> usize
    ensures { result ≡ left_between config.now.lifted since event these.now }
{
    let mut count = 0;
    for one in these {
        if is_left_between(config, one, since, event) {
            count += 1;
        }
    }
    count
}

// Whether the call was called by this event and is not lifted.
fn is_left_by(config: &Config<AnyObject>, one: &Called, event: u64) -> bool
    ensures { result ≡ is_left_until config.now.lifted event one.now }
{
    one.at <= event && !config.has(one.call)
}

// How many of the calls are so.
fn count_left(config: &Config<AnyObject>, these: &[Called], event: u64) -> usize
    ensures { result ≡ left_until config.now.lifted event these.now }
{
    let mut count = 0;
    for one in these {
        if is_left_by(config, one, event) {
            count += 1;
        }
    }
    count
}

// Whether by the event more of the row's item must be out than lie in the queue, as what lies in front is out by an earlier one.
fn are_more_out(
    calls: &[ProblemCall<Op, Reply>],
    lying: &Lying,
    first: &CountedRow,
    row: &CountedRow,
    since: u64,
    event: u64,
) -> bool
    requires first { IsCountedRow calls.now first.now }
    requires row { IsCountedRow calls.now row.now }
    ensures { IsTrue result → MoreAreOut calls.now lying.now.config.now.lifted
        lying.now.items.now event }
{
    let config = lying.config;
    let out = count_left_back(config, first.taken.as_slice(), since);
    let in_front = count_times_until(row.item, first.item, out, lying.items);
    let more = count_left_between(config, row.taken.as_slice(), since, event);
    since <= event && count_times(row.item, lying.items) < in_front.saturating_add(more)
}

// Whether no more calls that are left and may take the row's item were called by the event than it lies in the queue.
fn are_few_takers(
    calls: &[ProblemCall<Op, Reply>],
    lying: &Lying,
    own: &CountedRow,
    event: u64,
) -> bool
    requires { IsCountedRow calls.now own.now }
    ensures { IsTrue result → left_takers calls.now lying.now.config.now.lifted own.now.item
        event (calls_on own.now.item 0 calls.now) ≤ times own.now.item lying.now.items.now }
{
    let takers = count_left(lying.config, own.takers.as_slice(), event);
    takers <= count_times(own.item, lying.items)
}

/// Whether it is known that the call is an enqueue of the row's item that hurries it. The hint says by which events and items.
pub(crate) fn comes_hurried(
    calls: &[ProblemCall<Op, Reply>],
    rows: &[CountedRow],
    lying: &Lying,
    own: usize,
    hurry: Hurry,
    call: usize,
) -> bool
    requires { AreCountedRows calls.now rows.now }
    ensures { IsTrue result → ComesHurried (queue_of calls.now) lying.now.config.now.lifted
        lying.now.items.now call }
{
    let Some(item) = item_put(calls, call) else {
        return false;
    };
    if own >= rows.len() || hurry.row >= rows.len() || hurry.first_row >= rows.len() {
        return false;
    }
    let row = &rows[own];
    item == row.item
        && are_few_takers(calls, lying, row, hurry.event)
        && are_more_out(
            calls,
            lying,
            &rows[hurry.first_row],
            &rows[hurry.row],
            hurry.since,
            hurry.event,
        )
}
