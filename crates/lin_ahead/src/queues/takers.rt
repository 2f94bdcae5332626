//! Calls that leave too few dequeues that are pending for what must be taken out of a queue.

ghost use Rattle.std.specs.Prelude.{IfOk, IsTrue};
ghost use Rattle.lin_history.specs.Problems.AnyProblem.{any_problem};
ghost use Rattle.lin_ahead.specs.Behind.{AreQueueCalls};
ghost use Rattle.lin_ahead.specs.Items.Takers.{queue_of, FindsGone, LacksTakers};

use crate::items::calls::{found_empty, item_put, item_taken, returned_outside};
use crate::items::each_item::told_of;
use crate::items::rows::ItemsAhead;
use crate::items::taker_hints::{TakerHints, TakerWalk};
use crate::items::takers::{After, Deadline, Wanting, are_too_few, is_left};
use lin_history::{Problem, ProblemCall};
use lin_object::{AnyObject, Items, Op, Reply};
use std::alloc::{AllocError, Global};

// Whether the taker finds all gone that goes before the other call.
fn finds_gone(
    calls: &[ProblemCall<Op, Reply>],
    ahead: &ItemsAhead,
    items: &Items,
    wanting: Wanting,
) -> bool
    requires { AreQueueCalls (queue_of calls.now) ahead.now }
    ensures { IsTrue result → FindsGone (queue_of calls.now) items.now wanting.put
        wanting.taker }
{
    if wanting.put == wanting.taker {
        return found_empty(calls, wanting.taker);
    }
    let Some(put) = item_put(calls, wanting.put) else {
        return false;
    };
    let Some(taken) = item_taken(calls, wanting.taker) else {
        return false;
    };
    if put != taken {
        return false;
    }
    if items.has(put) {
        return false;
    }
    told_of(&ahead.told, put).goes_in_once()
}

// Whether more of the items that these calls put in must be taken before the wanting call than there are takers.
fn lacks_takers_for(
    alloc: Global,
    problem: &Problem<AnyObject>,
    ahead: &ItemsAhead,
    after: &After,
    putters: &[usize],
    wanting: Wanting,
) -> Result<bool, AllocError>
    requires { AreQueueCalls (any_problem problem.now) ahead.now }
    ensures { IfOk result (λ lacks. IsTrue lacks → LacksTakers (any_problem problem.now)
        after.now.config.now.lifted after.now.call after.now.items.now) }
{
    if wanting.taker == after.call {
        return Ok(false);
    }
    let Some(event) = returned_outside(problem, after.config, wanting.taker) else {
        return Ok(false);
    };
    let calls = problem.calls();
    if !finds_gone(calls, ahead, after.items, wanting) {
        return Ok(false);
    }
    let deadline = Deadline {
        before: wanting.put,
        event,
    };
    are_too_few(alloc, calls, ahead, after, putters, deadline)
}

/// Whether it is known that with the call too few dequeues are left for what must be taken out of the queue.
pub(crate) fn lacks_takers(
    problem: &Problem<AnyObject>,
    ahead: &ItemsAhead,
    hints: &TakerHints,
    after: &After,
    next_needed: Option<usize>,
) -> Result<bool, AllocError>
    requires { AreQueueCalls (any_problem problem.now) ahead.now }
    ensures { IfOk result (λ lacks. IsTrue lacks → LacksTakers (any_problem problem.now)
        after.now.config.now.lifted after.now.call after.now.items.now) }
{
    let calls = problem.calls();
    let mut putters = hints.lying(calls, after)?;
    let mut walk = TakerWalk::new();
    if let Some(wanting) = hints.wanting(next_needed) {
        walk.go_to(calls, ahead.takers.as_slice(), after, wanting);
        if walk.left() < putters.len() {
            if lacks_takers_for(
                hints.alloc(),
                problem,
                ahead,
                after,
                putters.as_slice(),
                wanting,
            )? {
                return Ok(true);
            }
        }
    }
    for count in 0..hints.in_sight() {
        let Some(call) = hints.lost_ahead(count) else {
            return Ok(false);
        };
        if !is_left(after, call) {
            continue;
        }
        putters.push(call)?;
        let Some(wanting) = hints.wanting_behind(call) else {
            return Ok(false);
        };
        walk.go_to(calls, ahead.takers.as_slice(), after, wanting);
        if walk.left() < putters.len() {
            if lacks_takers_for(
                hints.alloc(),
                problem,
                ahead,
                after,
                putters.as_slice(),
                wanting,
            )? {
                return Ok(true);
            }
        }
    }
    Ok(false)
}
