//! Calls on a register that took values away, and are more than the calls of which one made what each found.

ghost use Rattle.std.specs.Prelude.{ℕ, ◌<◌, length, slice_get, IfOk, IsSomeAnd, IsTrue, ◌≡◌};
ghost use Rattle.lin_history.specs.Problems.Lists.{In, IsDistinct};
ghost use Rattle.lin_ahead.specs.Values.Balance.{AreMakers, ComesFrom, TakesFromMakers, AreTooManyTakers};

use crate::values::owners::Owners;
use crate::values::taken_values::takes;
use lin_history::ProblemCall;
use lin_object::{Op, Reply};
use std::alloc::{AllocError, Global};

// ---- where to look

// The number of the group of the call. The way there gets shorter.
fn group_of(groups: &mut Vec<usize>, call: usize) -> usize {
    let mut at = call;
    for _ in 0..groups.len() {
        let next = groups.get(at).copied().unwrap_or(at);
        if next == at {
            return at;
        }
        let over = groups.get(next).copied().unwrap_or(next);
        if let Some(slot) = groups.get_mut(at) {
            *slot = over;
        }
        at = over;
    }
    at
}

// Makes the groups of the two calls one.
fn unite(groups: &mut Vec<usize>, one: usize, other: usize) {
    let from = group_of(groups, one);
    let to = group_of(groups, other);
    if let Some(slot) = groups.get_mut(from) {
        *slot = to;
    }
}

// One of the owners, if they are told. The start counts as this number.
fn one_of(owners: &Owners, start: usize) -> Option<usize> {
    if !owners.are_told {
        return None;
    }
    match owners.calls.as_slice().first() {
        Some(owner) => Some(*owner),
        None if owners.at_start => Some(start),
        None => None,
    }
}

// Makes one group of the owners.
fn unite_owners(groups: &mut Vec<usize>, owners: &Owners, start: usize) {
    let Some(one) = one_of(owners, start) else {
        return;
    };
    for owner in owners.calls.as_slice() {
        unite(groups, one, *owner);
    }
    if owners.at_start {
        unite(groups, one, start);
    }
}

// One of the owners of the call, if it took a value away and they are told.
fn one_taken_from(calls: &[ProblemCall<Op, Reply>], rows: &[Owners], call: usize) -> Option<usize> {
    match (calls.get(call), rows.get(call)) {
        (Some(one), Some(owners)) if takes(one) => one_of(owners, calls.len()),
        _ => None,
    }
}

// Groups of calls, so that all owners of each call that took a value away are in one.
fn groups_of_makers(
    alloc: Global,
    calls: &[ProblemCall<Op, Reply>],
    rows: &[Owners],
) -> Result<Vec<usize>, AllocError> {
    let mut groups = Vec::with_capacity(alloc, calls.len())?;
    for call in 0..calls.len() {
        groups.push(call)?;
    }
    groups.push(calls.len())?;
    for call in 0..calls.len() {
        if one_taken_from(calls, rows, call).is_some()
            && let Some(owners) = rows.get(call)
        {
            unite_owners(&mut groups, owners, calls.len());
        }
    }
    Ok(groups)
}

// Adds one to the number at this place.
fn count(numbers: &mut Vec<usize>, place: usize) {
    if let Some(slot) = numbers.get_mut(place) {
        *slot = (*slot).saturating_add(1);
    }
}

// A group with more takers than calls, if there is one.
fn group_out_of_balance(
    alloc: Global,
    calls: &[ProblemCall<Op, Reply>],
    rows: &[Owners],
    groups: &mut Vec<usize>,
) -> Result<Option<usize>, AllocError> {
    let mut takers = vec![in alloc; 0usize; groups.len()]?;
    let mut makers = vec![in alloc; 0usize; groups.len()]?;
    for call in 0..groups.len() {
        let group = group_of(groups, call);
        count(&mut makers, group);
        if let Some(one) = one_taken_from(calls, rows, call) {
            let group = group_of(groups, one);
            count(&mut takers, group);
        }
    }
    for group in 0..groups.len() {
        if takers.get(group).copied().unwrap_or(0) > makers.get(group).copied().unwrap_or(0) {
            return Ok(Some(group));
        }
    }
    Ok(None)
}

// The calls of a group that is out of balance, in their order; of no group, if there is none. A hint.
fn makers_out_of_balance(
    alloc: Global,
    calls: &[ProblemCall<Op, Reply>],
    rows: &[Owners],
) -> Result<Vec<usize>, AllocError> {
    let mut groups = groups_of_makers(alloc, calls, rows)?;
    let mut makers = Vec::new(alloc);
    let Some(group) = group_out_of_balance(alloc, calls, rows, &mut groups)? else {
        return Ok(makers);
    };
    for call in 0..groups.len() {
        if group_of(&mut groups, call) == group {
            makers.push(call)?;
        }
    }
    Ok(makers)
}

// ---- what is found there

// Whether the call stands at this place.
fn is_at(makers: &[usize], place: usize, call: usize) -> bool
    ensures { IsTrue result → IsSomeAnd (slice_get makers.now place) (λ c. c ≡ call) }
{
    match makers.get(place) {
        Some(one) => *one == call,
        None => false,
    }
}

// Whether the call is among the makers, which are in order.
fn is_maker(makers: &[usize], call: usize) -> bool
    ensures { IsTrue result → In call makers.now }
{
    is_at(makers, makers.partition_point(|one| *one < call), call)
}

// Whether each of the calls is.
fn are_makers(makers: &[usize], calls: &[usize]) -> bool
    ensures { IsTrue result → AreMakers makers.now calls.now }
{
    for call in calls {
        if !is_maker(makers, *call) {
            return false;
        }
    }
    true
}

// Whether one of the makers made what was found by the call with these owners. The start counts as this number.
fn comes_from(makers: &[usize], start: usize, owners: &Owners) -> bool
    ensures { IsTrue result → ComesFrom makers.now start owners.now }
{
    if !owners.are_told {
        return false;
    }
    if owners.at_start && !is_maker(makers, start) {
        return false;
    }
    are_makers(makers, owners.calls.as_slice())
}

// Whether the call took away what one of the makers made.
fn takes_from(
    calls: &[ProblemCall<Op, Reply>],
    rows: &[Owners],
    makers: &[usize],
    call: usize,
) -> bool
    ensures { IsTrue result → TakesFromMakers calls.now rows.now makers.now call }
{
    match (calls.get(call), rows.get(call)) {
        (Some(one), Some(owners)) if takes(one) => comes_from(makers, calls.len(), owners),
        _ => false,
    }
}

// The calls that took away what one of the makers made.
fn takers_from(
    alloc: Global,
    calls: &[ProblemCall<Op, Reply>],
    rows: &[Owners],
    makers: &[usize],
) -> Result<Vec<usize>, AllocError>
    ensures distinct { IfOk result (λ takers. IsDistinct takers.items) }
    ensures each { IfOk result (λ takers. (g : ℕ) → In g takers.items
        → TakesFromMakers calls.now rows.now makers.now g) }
{
    let mut takers = Vec::new(alloc);
    for call in 0..calls.len() {
        if takes_from(calls, rows, makers, call) {
            takers.push(call)?;
        }
    }
    Ok(takers)
}

// Whether there are more takers than makers.
fn are_too_many(makers: &[usize], takers: &[usize]) -> bool
    ensures { IsTrue result → length makers.now < length takers.now }
{
    makers.len() < takers.len()
}

/// Whether more calls took values away than there are calls, or the start, of which one made what each of them found, by the owners
/// of each call. It answers yes only if so. `AllocError` where memory was refused.
pub(crate) fn some_takers_are_too_many(
    alloc: Global,
    calls: &[ProblemCall<Op, Reply>],
    rows: &[Owners],
) -> Result<bool, AllocError>
    ensures { IfOk result (λ found. IsTrue found → AreTooManyTakers calls.now rows.now) }
{
    if !calls.iter().any(|one| takes(one)) {
        return Ok(false);
    }
    let row = makers_out_of_balance(alloc, calls, rows)?;
    let makers = row.as_slice();
    if makers.is_empty() {
        return Ok(false);
    }
    let found = takers_from(alloc, calls, rows, makers)?;
    Ok(are_too_many(makers, found.as_slice()))
}
