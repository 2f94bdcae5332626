//! What searches of one part tell.

ghost use Rattle.std.specs.Prelude.{◌≡◌, ◌<◌, ◌≤◌, ℕ, IfOk, length};
ghost use Rattle.lin_history.specs.Problems.AnyProblem.{any_problem};
ghost use Rattle.lin_history.specs.Problems.Lists.{In};
ghost use Rattle.lin_search.specs.Told.{IsRightOf, IsSpent, IsToldUnless};
ghost use Rattle.lin_decide.specs.Keys.PartOrder.{IsNamed, IsPartOrder, IsSpentOnPart};
ghost use Rattle.lin_effort.specs.Lifts.{lifts_on_key};
ghost use Rattle.lin_parts.specs.Parts.{AreSomeCalls};

use lin_ahead::{RefutedSet, known_ahead, search_first};
use lin_effort::efforts::{STEPS_FOR_A_LIFT, ahead, lifts_at_once, lifts_on_key};
use lin_fewer::{Judged, NoRules, has_many_pending, least_linearization};
use lin_history::{Order, Problem};
use lin_object::{AnyObject, ObjState};
use lin_parts::{fill, own_names, part_of};
use lin_search::{AtTimes, Stop, Told, search_for_order};
use std::alloc::{AllocError, Global};

// What a first search of the part tells, where something is known ahead.
fn told_at_first<S: Stop>(
    alloc: Global,
    part: &Problem<AnyObject>,
    limit: Option<u64>,
    stop: &mut S,
) -> Result<Told, AllocError>
    ensures told { IfOk result (IsRightOf (any_problem part.now)) }
    ensures stop { S.follows stop.old stop.new }
{
    let lifts = ahead(part.len(), limit).lifts;
    match known_ahead(alloc, part)? {
        Some(known) => search_first(
            alloc,
            part,
            &known,
            &mut RefutedSet::new(alloc),
            lifts,
            stop,
        ),
        None => Ok(Told::Nothing),
    }
}

// What a search tells that tries pending calls only between completed ones, where there are many of them.
fn told_by_blocks<S: Stop>(
    alloc: Global,
    part: &Problem<AnyObject>,
    lifts: u64,
    stop: &mut S,
) -> Result<Told, AllocError>
    ensures told { IfOk result (IsRightOf (any_problem part.now)) }
    ensures stop { S.follows stop.old stop.new }
{
    if !has_many_pending(part) {
        return Ok(Told::Nothing);
    }
    let steps = STEPS_FOR_A_LIFT.saturating_mul(lifts);
    let mut judged = Judged::none(alloc);
    least_linearization(
        alloc,
        part,
        &NoRules,
        &mut judged,
        steps,
        &mut AtTimes::new(stop),
    )
}

// What these two tell: a first search where something is known ahead, and where that tells nothing, one by blocks.
fn told_by_rules<S: Stop>(
    alloc: Global,
    part: &Problem<AnyObject>,
    limit: Option<u64>,
    stop: &mut S,
) -> Result<Told, AllocError>
    ensures told { IfOk result (IsRightOf (any_problem part.now)) }
    ensures stop { S.follows stop.old stop.new }
{
    let lifts = lifts_on_key(part.calls().len(), limit);
    match told_at_first(alloc, part, limit, stop)? {
        Told::Nothing => told_by_blocks(alloc, part, lifts, stop),
        known => Ok(known),
    }
}

// What a search of few lifts tells of an item of a set.
fn told_at_once<S: Stop>(
    alloc: Global,
    part: &Problem<AnyObject>,
    limit: Option<u64>,
    stop: &mut S,
) -> Result<Told, AllocError>
    ensures told { IfOk result (IsRightOf (any_problem part.now)) }
    ensures stop { S.follows stop.old stop.new }
{
    let lifts = lifts_at_once(part.len(), limit);
    match part.start() {
        ObjState::Set(_) => search_for_order(alloc, part, lifts, stop),
        _ => Ok(Told::Nothing),
    }
}

// What these two tell.
fn told_before<S: Stop>(
    alloc: Global,
    part: &Problem<AnyObject>,
    limit: Option<u64>,
    stop: &mut S,
) -> Result<Told, AllocError>
    ensures told { IfOk result (IsRightOf (any_problem part.now)) }
    ensures stop { S.follows stop.old stop.new }
{
    match told_at_once(alloc, part, limit, stop)? {
        Told::Nothing => told_by_rules(alloc, part, limit, stop),
        known => Ok(known),
    }
}

// What searches of the part tell: these, and where they tell nothing, one that keeps what it refuted.
fn told_of_part<S: Stop>(
    alloc: Global,
    part: &Problem<AnyObject>,
    limit: Option<u64>,
    stop: &mut S,
) -> Result<Told, AllocError>
    ensures told { IfOk result (IsRightOf (any_problem part.now)) }
    ensures nothing { IfOk result (IsToldUnless (IsSpent (any_problem part.now)
        (lifts_on_key limit (length part.now.calls)) (S.tells stop.new))) }
    ensures stop { S.follows stop.old stop.new }
{
    let lifts = lifts_on_key(part.calls().len(), limit);
    match told_before(alloc, part, limit, stop)? {
        Told::Nothing => search_for_order(alloc, part, lifts, stop),
        known => Ok(known),
    }
}

// The order's calls and, behind them, the other calls of the part, by their numbers in the whole.
fn full_order(alloc: Global, kept: &[usize], order: Order) -> Result<Order, AllocError>
    requires { (c : ℕ) → In c order → c < length kept.now }
    ensures { IfOk result (IsNamed kept.now order) }
{
    let mut calls = order.into_calls();
    fill(alloc, &mut calls, kept.len())?;
    let names = own_names(alloc, kept, calls.as_slice())?;
    Ok(Order::new(names))
}

/// What searches of the part of these calls tell: its least linearization and behind it the pending calls that it lacks, by
/// their numbers in the whole; or that it has none; or nothing, where it has more runs than lifts may be made, or where the stop
/// answers. `AllocError` where memory was refused.
pub(crate) fn order_of_part<S: Stop>(
    alloc: Global,
    problem: &Problem<AnyObject>,
    kept: &[usize],
    limit: Option<u64>,
    stop: &mut S,
) -> Result<Told, AllocError>
    requires { AreSomeCalls (any_problem problem.now) kept.now }
    ensures told { IfOk result (IsPartOrder (any_problem problem.now) kept.now) }
    ensures nothing { IfOk result (IsToldUnless (IsSpentOnPart (any_problem problem.now) kept.now
        limit (S.tells stop.new))) }
    ensures stop { S.follows stop.old stop.new }
{
    let part = part_of(alloc, problem, kept)?;
    match told_of_part(alloc, &part, limit, stop)? {
        Told::Found(order) => {
            let order = full_order(alloc, kept, order)?;
            Ok(Told::Found(order))
        }
        Told::Refuted => Ok(Told::Refuted),
        Told::Nothing => Ok(Told::Nothing),
    }
}
