//! Calls that leave too few pops that are pending for what must be taken off a stack. The calls are read as those on a queue.

ghost use Rattle.std.specs.Prelude.{IfOk, IfSome, IsTrue};
ghost use Rattle.lin_history.specs.Problems.AnyProblem.{any_problem};
ghost use Rattle.lin_ahead.specs.Behind.{AreQueueCalls, AreStackCalls};
ghost use Rattle.lin_ahead.specs.Items.Takers.{queue_of};
ghost use Rattle.lin_ahead.specs.Stacks.StackTakers.{LieAbove, TookLifted, FindsGoneAbove, StandsBy, LacksPops};

use crate::items::calls::{found_empty, item_put, item_taken, returned_outside};
use crate::items::each_item::told_of;
use crate::items::rows::ItemsAhead;
use crate::items::taker_hints::{TakerHints, TakerWalk, called_last};
use crate::items::takers::{After, Deadline, Wanting, are_too_few, is_left};
use crate::sight::MORE_IN_SIGHT;
use crate::stacks::hints::StackHints;
use crate::stacks::rows::StackAhead;
use lin_history::{Problem, ProblemCall};
use lin_object::{AnyObject, Items, Op, Reply};
use std::alloc::{AllocError, Global};

// The items that lie above this one, where it lies there once.
fn items_above(alloc: Global, items: &Items, item: i64) -> Result<Option<Items>, AllocError>
    ensures { IfOk result (λ above. IfSome above (LieAbove items.now item)) }
{
    let mut above = Items::none(alloc);
    let mut rest = items.copy(alloc)?;
    for _ in 0..MORE_IN_SIGHT {
        let Some(first) = rest.first() else {
            return Ok(None);
        };
        rest = rest.without_first(alloc)?;
        if first == item {
            if rest.has(item) {
                return Ok(None);
            }
            return Ok(Some(above));
        }
        above = above.with_last(alloc, first)?;
    }
    Ok(None)
}

// The item with which the taker returned, where the other call alone puts it in, and is not left.
fn item_lifted(
    calls: &[ProblemCall<Op, Reply>],
    ahead: &ItemsAhead,
    after: &After,
    wanting: Wanting,
) -> Option<i64>
    requires { AreQueueCalls (queue_of calls.now) ahead.now }
    ensures { IfSome result (TookLifted (queue_of calls.now) after.now.config.now.lifted
        after.now.call wanting.taker) }
{
    let put = item_put(calls, wanting.put)?;
    let taken = item_taken(calls, wanting.taker)?;
    if put == taken && !is_left(after, wanting.put) && told_of(&ahead.told, put).goes_in_once() {
        Some(taken)
    } else {
        None
    }
}

// The items that the taker finds gone: all, where it found none, or those above what it returned with.
fn items_gone(
    alloc: Global,
    calls: &[ProblemCall<Op, Reply>],
    ahead: &ItemsAhead,
    after: &After,
    wanting: Wanting,
) -> Result<Option<Items>, AllocError>
    requires { AreQueueCalls (queue_of calls.now) ahead.now }
    ensures { IfOk result (λ gone. IfSome gone (FindsGoneAbove (queue_of calls.now)
        after.now.config.now.lifted after.now.call after.now.items.now wanting.taker)) }
{
    if wanting.put == wanting.taker && found_empty(calls, wanting.taker) {
        return Ok(Some(after.items.copy(alloc)?));
    }
    match item_lifted(calls, ahead, after, wanting) {
        Some(item) => items_above(alloc, after.items, item),
        None => Ok(None),
    }
}

// A call that finds items gone, and one that comes no later.
#[derive(Clone, Copy)]
struct Finding {
    // The call that finds items gone.
    finder: Wanting,
    // It, or one that returned with one of these items. What was pushed before that one was called is gone, too.
    until: Wanting,
}

// Whether the one call is the other, or returned with one of the items that are gone.
fn stands_by(
    alloc: Global,
    calls: &[ProblemCall<Op, Reply>],
    ahead: &ItemsAhead,
    after: &After,
    gone: &Items,
    finding: Finding,
) -> Result<bool, AllocError>
    requires { AreQueueCalls (queue_of calls.now) ahead.now }
    ensures { IfOk result (λ stands. IsTrue stands → StandsBy (queue_of calls.now)
        after.now.config.now.lifted after.now.call after.now.items.now gone.now
        finding.finder.taker finding.until.taker) }
{
    if finding.until.taker == finding.finder.taker {
        return Ok(true);
    }
    if !is_left(after, finding.until.taker) {
        return Ok(false);
    }
    let Some(item) = item_lifted(calls, ahead, after, finding.until) else {
        return Ok(false);
    };
    if !gone.has(item) {
        return Ok(false);
    }
    match items_above(alloc, after.items, item)? {
        Some(_above) => Ok(true),
        None => Ok(false),
    }
}

// Whether more of the items that these calls put in must be taken before the finder than there are takers.
fn lacks_pops_for(
    alloc: Global,
    problem: &Problem<AnyObject>,
    ahead: &StackAhead,
    after: &After,
    putters: &[usize],
    finding: Finding,
) -> Result<bool, AllocError>
    requires { AreStackCalls (any_problem problem.now) ahead.now }
    ensures { IfOk result (λ lacks. IsTrue lacks → LacksPops (any_problem problem.now)
        after.now.config.now.lifted after.now.call after.now.items.now) }
{
    if finding.finder.taker == after.call {
        return Ok(false);
    }
    let Some(event) = returned_outside(problem, after.config, finding.finder.taker) else {
        return Ok(false);
    };
    let calls = ahead.on_queue.as_slice();
    let Some(items) = items_gone(alloc, calls, &ahead.items, after, finding.finder)? else {
        return Ok(false);
    };
    if !stands_by(alloc, calls, &ahead.items, after, &items, finding)? {
        return Ok(false);
    }
    let gone = After {
        config: after.config,
        call: after.call,
        items: &items,
    };
    let deadline = Deadline {
        before: finding.until.taker,
        event,
    };
    are_too_few(alloc, calls, &ahead.items, &gone, putters, deadline)
}

// Whether the hints say so, and it is known then. `lying` are the calls whose items lie above what the finder returned with.
fn lacks_pops_by(
    problem: &Problem<AnyObject>,
    ahead: &StackAhead,
    hints: &TakerHints,
    after: &After,
    lying: &[usize],
    finding: Finding,
) -> Result<bool, AllocError>
    requires { AreStackCalls (any_problem problem.now) ahead.now }
    ensures { IfOk result (λ lacks. IsTrue lacks → LacksPops (any_problem problem.now)
        after.now.config.now.lifted after.now.call after.now.items.now) }
{
    let calls = ahead.on_queue.as_slice();
    let putters = hints.with_those_before(calls, after, lying, finding.until.taker)?;
    let mut walk = TakerWalk::new();
    walk.go_to(calls, ahead.items.takers.as_slice(), after, finding.finder);
    if putters.len() <= walk.left() {
        return Ok(false);
    }
    lacks_pops_for(
        hints.alloc(),
        problem,
        ahead,
        after,
        putters.as_slice(),
        finding,
    )
}

// The same for empty answers behind calls that put lost items in.
fn lacks_pops_behind(
    problem: &Problem<AnyObject>,
    ahead: &StackAhead,
    hints: &TakerHints,
    after: &After,
    lying: &[usize],
) -> Result<bool, AllocError>
    requires { AreStackCalls (any_problem problem.now) ahead.now }
    ensures { IfOk result (λ lacks. IsTrue lacks → LacksPops (any_problem problem.now)
        after.now.config.now.lifted after.now.call after.now.items.now) }
{
    let calls = ahead.on_queue.as_slice();
    let mut putters = Vec::from_slice(hints.alloc(), lying)?;
    let mut walk = TakerWalk::new();
    for count in 0..hints.in_sight() {
        let Some(call) = hints.lost_ahead(count) else {
            return Ok(false);
        };
        if !is_left(after, call) {
            continue;
        }
        putters.push(call)?;
        let Some(wanting) = hints.wanting_behind(call) else {
            return Ok(false);
        };
        walk.go_to(calls, ahead.items.takers.as_slice(), after, wanting);
        let finding = Finding {
            finder: wanting,
            until: wanting,
        };
        if walk.left() < putters.len() {
            if lacks_pops_for(
                hints.alloc(),
                problem,
                ahead,
                after,
                putters.as_slice(),
                finding,
            )? {
                return Ok(true);
            }
        }
    }
    Ok(false)
}

// A walk down the stack, from the top.
#[derive(Drop)]
struct StackWalk {
    // The next push that is passed.
    push: Option<usize>,
    // Of the calls that pop what was passed, the one that was called last.
    last: Option<Wanting>,
}

impl StackWalk {
    // The walk at its beginning: past what the call puts on, where it is a push.
    fn new(hints: &TakerHints, stack: &StackHints, call: usize) -> Self {
        StackWalk {
            push: stack.under_call(call),
            last: hints.wanting(stack.pushed_by(call)),
        }
    }

    // Goes on to above the item of this push; to below all, where there is none.
    fn go_to(
        &mut self,
        calls: &[ProblemCall<Op, Reply>],
        hints: &TakerHints,
        stack: &StackHints,
        end: Option<usize>,
    ) {
        for _ in 0..MORE_IN_SIGHT {
            if self.push == end {
                return;
            }
            let Some(push) = self.push else {
                return;
            };
            if let Some(wanting) = hints.wanting(Some(push)) {
                self.last = Some(called_last(calls, wanting, self.last));
            }
            self.push = stack.under(push);
        }
    }

    // A call that finds items gone, with the call that was called last of it and those that pop what was passed.
    fn finding(&self, calls: &[ProblemCall<Op, Reply>], finder: Wanting) -> Finding {
        Finding {
            finder,
            until: called_last(calls, finder, self.last),
        }
    }
}

/// Whether it is known that with the call too few pops are left for what must be taken off the stack.
pub(crate) fn lacks_pops(
    problem: &Problem<AnyObject>,
    ahead: &StackAhead,
    hints: &TakerHints,
    stack: &StackHints,
    after: &After,
) -> Result<bool, AllocError>
    requires { AreStackCalls (any_problem problem.now) ahead.now }
    ensures { IfOk result (λ lacks. IsTrue lacks → LacksPops (any_problem problem.now)
        after.now.config.now.lifted after.now.call after.now.items.now) }
{
    let calls = ahead.on_queue.as_slice();
    let mut lying = Vec::new(hints.alloc());
    if hints.puts_lost(after.call) {
        lying.push(after.call)?;
    }
    let mut push = stack.under_call(after.call);
    let mut walk = StackWalk::new(hints, stack, after.call);
    for _ in 0..hints.in_sight() {
        let first = stack.first_popped_from(push);
        if let Some(finder) = hints.wanting(first) {
            walk.go_to(calls, hints, stack, first);
            let finding = walk.finding(calls, finder);
            if lacks_pops_by(problem, ahead, hints, after, lying.as_slice(), finding)? {
                return Ok(true);
            }
        }
        let Some(lost) = stack.first_lost_from(push) else {
            break;
        };
        lying.push(lost)?;
        push = stack.under(lost);
    }
    if let Some(finder) = hints.wanting(stack.first_empty()) {
        walk.go_to(calls, hints, stack, None);
        let finding = walk.finding(calls, finder);
        if lacks_pops_by(problem, ahead, hints, after, lying.as_slice(), finding)? {
            return Ok(true);
        }
    }
    lacks_pops_behind(problem, ahead, hints, after, lying.as_slice())
}
