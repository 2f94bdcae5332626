//! Calls that leave too few takers: items that no completed call returned with are taken by calls that never returned, by each
//! one of them at most, and before a call is made that finds them gone. The calls are those on a queue; those on a stack are read
//! as such.

ghost use Rattle.std.specs.Prelude.{◌≡◌, IfOk, OnOk, IfSome, IsTrue};
ghost use Rattle.lin_object.specs.Items.{is_in};
ghost use Rattle.lin_ahead.specs.Behind.{AreQueueCalls};
ghost use Rattle.lin_laws.specs.Items.{Puts};
ghost use Rattle.lin_ahead.specs.Items.Takers.{queue_of, is_left, is_left_by, left_from, IsLost, AreLostBefore, GoesBefore, AreTooFew};

use crate::items::calls::{is_before, item_put};
use crate::items::each_item::told_of;
use crate::items::rows::ItemsAhead;
use lin_history::ProblemCall;
use lin_object::{AnyObject, Items, Op, Reply};
use lin_search::Config;
use std::alloc::{AllocError, Global};

/// A configuration, a call that follows it, and items that are there after that.
#[derive(Clone, Copy, Drop)]
pub(crate) struct After<'a> {
    /// The configuration.
    pub config: &'a Config<AnyObject>,
    /// The call.
    pub call: usize,
    /// The items.
    pub items: &'a Items,
}

/// A call that finds all gone which goes before another call.
#[derive(Clone, Copy)]
pub(crate) struct Wanting {
    /// The other call.
    pub put: usize,
    /// The call.
    pub taker: usize,
}

/// By when items have to be taken.
#[derive(Clone, Copy)]
pub(crate) struct Deadline {
    /// The call before which they go.
    pub before: usize,
    /// The event by which those that take them were called.
    pub event: u64,
}

/// Whether the call is still left.
pub(crate) fn is_left(after: &After, call: usize) -> bool
    ensures { result ≡ is_left after.now.config.now.lifted after.now.call call }
{
    call != after.call && !after.config.has(call)
}

// Whether the call is still left, and was called by this event.
fn is_left_by(calls: &[ProblemCall<Op, Reply>], after: &After, call: usize, event: u64) -> bool
    ensures { result ≡ is_left_by (queue_of calls.now) after.now.config.now.lifted
        after.now.call event call }
{
    is_left(after, call) && call < calls.len() && u64::from(calls[call].called) <= event
}

// How many of these calls are still left and were called by this event.
fn count_left(
    calls: &[ProblemCall<Op, Reply>],
    after: &After,
    takers: &[usize],
    event: u64,
) -> usize
    ensures { result ≡ left_from (queue_of calls.now) after.now.config.now.lifted
        after.now.call event 0 takers.now }
{
    let mut count = 0;
    for taker in takers {
        if is_left_by(calls, after, *taker, event) {
            count += 1;
        }
    }
    count
}

// The item that the call puts in, where no completed call returned with it.
fn lost_item(calls: &[ProblemCall<Op, Reply>], ahead: &ItemsAhead, call: usize) -> Option<i64>
    requires { AreQueueCalls (queue_of calls.now) ahead.now }
    ensures put { IfSome result (Puts (queue_of calls.now) call) }
    ensures lost { IfSome result (IsLost (queue_of calls.now)) }
{
    let item = item_put(calls, call)?;
    if told_of(&ahead.told, item).taken {
        None
    } else {
        Some(item)
    }
}

// Whether the item that the call puts in goes before what the other call puts in.
fn goes_before(
    calls: &[ProblemCall<Op, Reply>],
    after: &After,
    item: i64,
    call: usize,
    other: usize,
) -> bool
    requires { Puts (queue_of calls.now) call item }
    ensures { IsTrue result → GoesBefore (queue_of calls.now)
        after.now.config.now.lifted after.now.call after.now.items.now other item }
{
    after.items.has(item) || (is_left(after, call) && is_before(calls, call, other))
}

// Whether the item is among these.
fn is_among(items: &[i64], item: i64) -> bool
    ensures { result ≡ is_in item items.now }
{
    items.contains(&item)
}

// Puts the item of the call to those found, where it was lost, goes before the other call and is not there yet.
fn add_lost(
    found: &mut Vec<i64>,
    calls: &[ProblemCall<Op, Reply>],
    ahead: &ItemsAhead,
    after: &After,
    call: usize,
    other: usize,
) -> Result<(), AllocError>
    requires calls { AreQueueCalls (queue_of calls.now) ahead.now }
    requires found { AreLostBefore (queue_of calls.now) after.now.config.now.lifted
        after.now.call after.now.items.now other found.old.items }
    ensures { OnOk result (AreLostBefore (queue_of calls.now)
        after.now.config.now.lifted after.now.call after.now.items.now other found.new.items) }
{
    let Some(item) = lost_item(calls, ahead, call) else {
        return Ok(());
    };
    if !is_among(found.as_slice(), item) && goes_before(calls, after, item, call, other) {
        found.push(item)?;
    }
    Ok(())
}

// The items that these calls put in, where they were lost and go before the other call, each once.
fn lost_before(
    alloc: Global,
    calls: &[ProblemCall<Op, Reply>],
    ahead: &ItemsAhead,
    after: &After,
    putters: &[usize],
    other: usize,
) -> Result<Vec<i64>, AllocError>
    requires { AreQueueCalls (queue_of calls.now) ahead.now }
    ensures { IfOk result (λ found. AreLostBefore (queue_of calls.now)
        after.now.config.now.lifted after.now.call after.now.items.now other found.items) }
{
    let mut found = Vec::new(alloc);
    for call in putters {
        add_lost(&mut found, calls, ahead, after, *call, other)?;
    }
    Ok(found)
}

// Whether more of the items that these calls put in have to be taken by the deadline than there are takers.
pub(crate) fn are_too_few(
    alloc: Global,
    calls: &[ProblemCall<Op, Reply>],
    ahead: &ItemsAhead,
    after: &After,
    putters: &[usize],
    deadline: Deadline,
) -> Result<bool, AllocError>
    requires { AreQueueCalls (queue_of calls.now) ahead.now }
    ensures { IfOk result (λ few. IsTrue few → AreTooFew (queue_of calls.now)
        after.now.config.now.lifted after.now.call after.now.items.now deadline.before
        deadline.event) }
{
    let takers = count_left(calls, after, ahead.takers.as_slice(), deadline.event);
    if putters.len() <= takers {
        return Ok(false);
    }
    let found = lost_before(alloc, calls, ahead, after, putters, deadline.before)?;
    Ok(takers < found.len())
}
