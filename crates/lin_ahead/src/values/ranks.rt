//! Ranks of a register's values. A call brings a value that has a rank from values of lower ranks alone, so it comes about once at most.

ghost use Rattle.std.specs.Prelude.{◌≡◌, slice_get, IfSome, IsTrue};
ghost use Rattle.std.specs.Ordering.{int_eq};
ghost use Rattle.indexmap.specs.IndexMap.{index_of};
ghost use Rattle.lin_ahead.specs.Values.Ranks.{rank_at, rank_by, IsUnder, IsFromUnder, KeepsRanks, AreRanked};

use crate::values::shown_values::{value_found, value_written};
use indexmap::IndexMap;
use lin_history::ProblemCall;
use lin_object::{Op, Reply};
use std::alloc::{AllocError, Global};

// That a value has no rank.
const UNRANKED: u64 = 1 << 63;

/// That a call has no such value, or one that is not in the map.
pub(crate) const NO_INDEX: usize = 1 << 62;

/// The indexes of a call's values in a map.
#[derive(Clone, Copy)]
pub(crate) struct CallIndexes {
    /// That of the value at which alone the call writes.
    pub from: usize,
    /// That of the value that it may write in place of another one.
    pub to: usize,
    /// That of the value that it found.
    pub found: usize,
}

// The index of the value, if there is one and the map has it.
fn index_of(values: &IndexMap<i64, ()>, value: Option<i64>) -> usize {
    match value {
        Some(value) => values.get_index_of(&value).unwrap_or(NO_INDEX),
        None => NO_INDEX,
    }
}

// The indexes of the call's values. A call that writes at a value which is not in the map can come about at the start alone, and
// that value is lower than all others.
fn indexes_of(values: &IndexMap<i64, ()>, call: &ProblemCall<Op, Reply>) -> CallIndexes {
    let found = index_of(values, value_found(call));
    let written = index_of(values, value_written(call));
    match &call.op {
        Op::Cas(from, _) => {
            let from = index_of(values, Some(*from));
            let to = if from == NO_INDEX || from == written {
                NO_INDEX
            } else {
                written
            };
            CallIndexes { from, to, found }
        }
        _ => CallIndexes {
            from: NO_INDEX,
            to: written,
            found,
        },
    }
}

/// The indexes of each call's values. A hint.
pub(crate) fn indexes_of_calls(
    alloc: Global,
    values: &IndexMap<i64, ()>,
    calls: &[ProblemCall<Op, Reply>],
) -> Result<Vec<CallIndexes>, AllocError> {
    let mut row = Vec::with_capacity(alloc, calls.len())?;
    for call in calls {
        row.push(indexes_of(values, call))?;
    }
    Ok(row)
}

// The calls that may write a value in place of another one, in the order of the values at which they do.
fn bringing_calls(alloc: Global, calls: &[CallIndexes]) -> Result<Vec<CallIndexes>, AllocError> {
    let mut row = Vec::new(alloc);
    for call in calls {
        if call.to < NO_INDEX {
            row.push(*call)?;
        }
    }
    row.sort_by_key(|one| one.from)?;
    Ok(row)
}

// For each of so many values how many calls may bring it.
fn count_bringing(
    alloc: Global,
    calls: &[CallIndexes],
    values: usize,
) -> Result<Vec<usize>, AllocError> {
    let mut row = vec![in alloc; 0usize; values]?;
    for call in calls {
        if let Some(slot) = row.get_mut(call.to) {
            *slot = (*slot).saturating_add(1);
        }
    }
    Ok(row)
}

// The values that no call brings.
fn never_brought(alloc: Global, left: &[usize]) -> Result<Vec<usize>, AllocError> {
    let mut order = Vec::new(alloc);
    for value in 0..left.len() {
        if left[value] == 0 {
            order.push(value)?;
        }
    }
    Ok(order)
}

// Takes away the calls that bring others at this value, and adds to the order each value that no call brings any more.
fn take_away(
    left: &mut Vec<usize>,
    order: &mut Vec<usize>,
    calls: &[CallIndexes],
    value: usize,
) -> Result<(), AllocError> {
    for place in calls.partition_point(|one| one.from < value)..calls.len() {
        let call = calls[place];
        if call.from > value {
            return Ok(());
        }
        if let Some(slot) = left.get_mut(call.to) {
            *slot = (*slot).saturating_sub(1);
            if *slot == 0 {
                order.push(call.to)?;
            }
        }
    }
    Ok(())
}

/// The rank of each of so many values, in an order in which each stands behind those at which calls bring it (Kahn 1962). Values
/// that a call may write whatever it finds have none, nor have those brought from them. A hint.
pub(crate) fn ranks_of_values(
    alloc: Global,
    calls: &[CallIndexes],
    values: usize,
) -> Result<Vec<u64>, AllocError> {
    let bringing = bringing_calls(alloc, calls)?;
    let mut left = count_bringing(alloc, bringing.as_slice(), values)?;
    let mut order = never_brought(alloc, left.as_slice())?;
    let mut ranks = vec![in alloc; UNRANKED; values]?;
    for place in 0..values {
        let Some(value) = order.get(place).copied() else {
            return Ok(ranks);
        };
        if let Some(slot) = ranks.get_mut(value) {
            *slot = u64::saturating_add(place as u64, 1);
        }
        take_away(&mut left, &mut order, bringing.as_slice(), value)?;
    }
    Ok(ranks)
}

/// The rank of the value with this index, if it has one.
pub(crate) fn rank_at(ranks: &[u64], index: usize) -> Option<u64>
    ensures { result ≡ rank_at (slice_get ranks.now index) }
{
    match ranks.get(index) {
        Some(rank) if *rank < UNRANKED => Some(*rank),
        _ => None,
    }
}

/// The rank of the value, if it has one.
pub(crate) fn rank_of(values: &IndexMap<i64, ()>, ranks: &[u64], value: i64) -> Option<u64>
    ensures { result ≡ rank_by ranks.now (index_of int_eq values.now value) }
{
    match values.get_index_of(&value) {
        Some(index) => rank_at(ranks, index),
        None => Some(0),
    }
}

/// Whether the value is this other one, or has a lower rank, if the other one has a rank.
pub(crate) fn is_under(values: &IndexMap<i64, ()>, ranks: &[u64], value: i64, other: i64) -> bool
    ensures is { IsTrue result → IsUnder (λ v. rank_by ranks.now (index_of int_eq values.now v)) value other }
    ensures every { IsUnder (λ v. rank_by ranks.now (index_of int_eq values.now v)) value other → IsTrue result }
{
    let Some(most) = rank_of(values, ranks, other) else {
        return true;
    };
    if value == other {
        return true;
    }
    match rank_of(values, ranks, value) {
        Some(rank) => rank < most,
        None => false,
    }
}

// Whether the operation writes this value where it finds one of a lower rank alone, or the value has no rank.
fn is_from_under(values: &IndexMap<i64, ()>, ranks: &[u64], op: &Op, written: i64) -> bool
    ensures { IsTrue result → IsFromUnder (λ v. rank_by ranks.now (index_of int_eq values.now v)) op.now written }
{
    match op {
        Op::Cas(found, _) => is_under(values, ranks, *found, written),
        _ => rank_of(values, ranks, written).is_none(),
    }
}

// Whether the call keeps to the ranks: so it is with the value that it may write, if there is one.
fn keeps_ranks(values: &IndexMap<i64, ()>, ranks: &[u64], call: &ProblemCall<Op, Reply>) -> bool
    ensures { IsTrue result → KeepsRanks (λ v. rank_by ranks.now (index_of int_eq values.now v)) call.now }
{
    match value_written(call) {
        Some(written) => is_from_under(values, ranks, &call.op, written),
        None => true,
    }
}

// Whether the call at this place does, if there is one.
fn keeps_ranks_at(
    values: &IndexMap<i64, ()>,
    ranks: &[u64],
    calls: &[ProblemCall<Op, Reply>],
    call: usize,
) -> bool
    ensures { IsTrue result → IfSome (slice_get calls.now call)
        (KeepsRanks (λ v. rank_by ranks.now (index_of int_eq values.now v))) }
{
    match calls.get(call) {
        Some(one) => keeps_ranks(values, ranks, one),
        None => true,
    }
}

/// Whether the ranks are right: each call that may write a value which has one finds a value of a lower rank there.
pub(crate) fn are_ranked(
    values: &IndexMap<i64, ()>,
    ranks: &[u64],
    calls: &[ProblemCall<Op, Reply>],
) -> bool
    ensures { IsTrue result → AreRanked (λ v. rank_by ranks.now (index_of int_eq values.now v)) calls.now }
{
    for call in 0..calls.len() {
        if !keeps_ranks_at(values, ranks, calls, call) {
            return false;
        }
    }
    true
}
