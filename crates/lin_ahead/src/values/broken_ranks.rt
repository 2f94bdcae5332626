//! Calls on a register that the ranks of its values refute: two that took away one value, and one that found a value too late.

ghost use Rattle.std.specs.Prelude.{slice_get, IfOk, IfSome, IsSomeAnd, IsTrue};
ghost use Rattle.std.specs.Ordering.{int_eq};
ghost use Rattle.indexmap.specs.IndexMap.{index_of};
ghost use Rattle.lin_ahead.specs.Values.Ranks.{rank_by, TookAway, Found, ShowsOver, AreTwo, IsLate, AreRanksBroken};
ghost use Rattle.lin_ahead.specs.Values.PossibleOwners.{ReturnedBefore};

use crate::values::ranks::{
    CallIndexes, NO_INDEX, are_ranked, indexes_of_calls, is_under, rank_at, rank_of,
    ranks_of_values,
};
use crate::values::shown_values::{value_found, value_written};
use crate::values::taken_values::takes;
use indexmap::IndexMap;
use lin_history::ProblemCall;
use lin_object::{Op, Reply};
use std::alloc::{AllocError, Global};

// The greatest rank that a completed call showed, beyond all where it showed a value that has none.
#[derive(Clone, Copy)]
struct ShownRank {
    // When the call returned.
    pub returned: u64,
    // The rank.
    pub rank: u64,
    // The call.
    pub call: usize,
}

// Beyond all ranks.
const BEYOND_RANKS: u64 = u64::MAX;

// Whether the call may write a value in place of another one alone.
fn may_bring(call: &ProblemCall<Op, Reply>) -> bool {
    match &call.op {
        Op::Cas(found, written) => !(*found == *written) && value_written(call).is_some(),
        _ => false,
    }
}

// ---- where to look

// Two calls that took away one value that has a rank, if there are some. A hint.
fn find_two(
    alloc: Global,
    ranks: &[u64],
    indexes: &[CallIndexes],
) -> Result<Option<(usize, usize)>, AllocError> {
    let mut taken_by = vec![in alloc; None; ranks.len()]?;
    for call in 0..indexes.len() {
        let one = indexes[call];
        if one.to == NO_INDEX || rank_at(ranks, one.found).is_none() {
            continue;
        }
        if let Some(slot) = taken_by.get_mut(one.found) {
            if let Some(first) = *slot {
                return Ok(Some((first, call)));
            }
            *slot = Some(call);
        }
    }
    Ok(None)
}

// The rank of the value with this index, beyond all where it has none; 0 for no value.
fn shown_rank(ranks: &[u64], index: usize) -> u64 {
    if index == NO_INDEX {
        return 0;
    }
    rank_at(ranks, index).unwrap_or(BEYOND_RANKS)
}

// The greatest ranks that completed calls showed, in the order of their returns, and with each the greatest up to there.
fn shown_ranks(
    alloc: Global,
    ranks: &[u64],
    indexes: &[CallIndexes],
    calls: &[ProblemCall<Op, Reply>],
) -> Result<Vec<ShownRank>, AllocError> {
    let mut rows = Vec::with_capacity(alloc, calls.len())?;
    for call in 0..calls.len() {
        if let Some((number, _)) = &calls[call].returned
            && let Some(one) = indexes.get(call)
        {
            rows.push(ShownRank {
                returned: u64::from(*number),
                rank: u64::max(shown_rank(ranks, one.to), shown_rank(ranks, one.found)),
                call,
            })?;
        }
    }
    rows.sort_by_key(|one| one.returned)?;
    let mut most = ShownRank {
        returned: 0,
        rank: 0,
        call: 0,
    };
    for place in 0..rows.len() {
        if let Some(slot) = rows.get_mut(place) {
            if slot.rank > most.rank {
                most = *slot;
            }
            *slot = ShownRank {
                returned: slot.returned,
                rank: most.rank,
                call: most.call,
            };
        }
    }
    Ok(rows)
}

// A call that returned before this one was called, and showed a greater rank than that of the value which this one found.
fn shown_before(rows: &[ShownRank], ranks: &[u64], found: usize, called: u64) -> Option<usize> {
    let rank = rank_at(ranks, found)?;
    let place = rows.partition_point(|one| one.returned < called);
    let last = rows.get(place.saturating_sub(1))?;
    if last.returned < called && last.rank > rank {
        Some(last.call)
    } else {
        None
    }
}

// A call that found a value too late, behind the one that showed a greater rank, if there are such two. A hint.
fn find_late(
    alloc: Global,
    ranks: &[u64],
    indexes: &[CallIndexes],
    calls: &[ProblemCall<Op, Reply>],
) -> Result<Option<(usize, usize)>, AllocError> {
    let rows = shown_ranks(alloc, ranks, indexes, calls)?;
    for call in 0..calls.len() {
        if let Some(one) = indexes.get(call)
            && let Some(first) = shown_before(
                rows.as_slice(),
                ranks,
                one.found,
                u64::from(calls[call].called),
            )
        {
            return Ok(Some((first, call)));
        }
    }
    Ok(None)
}

// Whether some call may bring a value that has a rank.
fn some_is_brought(ranks: &[u64], indexes: &[CallIndexes]) -> bool {
    indexes.iter().any(|one| rank_at(ranks, one.to).is_some())
}

// Two calls by which there is no linearization, if some are found. A hint.
fn find_broken(
    alloc: Global,
    ranks: &[u64],
    indexes: &[CallIndexes],
    calls: &[ProblemCall<Op, Reply>],
) -> Result<Option<(usize, usize)>, AllocError> {
    if !some_is_brought(ranks, indexes) {
        return Ok(None);
    }
    if let Some(two) = find_two(alloc, ranks, indexes)? {
        return Ok(Some(two));
    }
    find_late(alloc, ranks, indexes, calls)
}

// ---- what is found there

// The value that the call took away, if it did.
fn took_away(calls: &[ProblemCall<Op, Reply>], call: usize) -> Option<i64>
    ensures { IfSome result (λ v. TookAway calls.now v call) }
{
    match calls.get(call) {
        Some(one) if takes(one) => value_found(one),
        _ => None,
    }
}

// The value that the call found, if it did.
fn found(calls: &[ProblemCall<Op, Reply>], call: usize) -> Option<i64>
    ensures { IfSome result (λ v. Found calls.now v call) }
{
    match calls.get(call) {
        Some(one) => value_found(one),
        None => None,
    }
}

// Whether two calls took away one and the same value that has a rank.
fn are_two(
    values: &IndexMap<i64, ()>,
    ranks: &[u64],
    calls: &[ProblemCall<Op, Reply>],
    one: usize,
    other: usize,
) -> bool
    ensures { IsTrue result → AreTwo (λ v. rank_by ranks.now (index_of int_eq values.now v)) calls.now }
{
    if one == other {
        return false;
    }
    match (took_away(calls, one), took_away(calls, other)) {
        (Some(value), Some(same)) => value == same && rank_of(values, ranks, value).is_some(),
        _ => false,
    }
}

// Whether the call found a value which has no rank, or a higher one than this value.
fn finds_over(
    values: &IndexMap<i64, ()>,
    ranks: &[u64],
    call: &ProblemCall<Op, Reply>,
    value: i64,
) -> bool
    ensures { IsTrue result → ShowsOver (λ v. rank_by ranks.now (index_of int_eq values.now v)) value call.now }
{
    match value_found(call) {
        Some(found) => !is_under(values, ranks, found, value),
        None => false,
    }
}

// Whether it may write such a value.
fn writes_over(
    values: &IndexMap<i64, ()>,
    ranks: &[u64],
    call: &ProblemCall<Op, Reply>,
    value: i64,
) -> bool
    ensures { IsTrue result → ShowsOver (λ v. rank_by ranks.now (index_of int_eq values.now v)) value call.now }
{
    match value_written(call) {
        Some(written) => !is_under(values, ranks, written, value),
        None => false,
    }
}

// Whether the call at this place showed such a value.
fn shows_over(
    values: &IndexMap<i64, ()>,
    ranks: &[u64],
    calls: &[ProblemCall<Op, Reply>],
    call: usize,
    value: i64,
) -> bool
    ensures { IsTrue result → IsSomeAnd (slice_get calls.now call)
        (ShowsOver (λ v. rank_by ranks.now (index_of int_eq values.now v)) value) }
{
    match calls.get(call) {
        Some(one) => finds_over(values, ranks, one, value)
            || writes_over(values, ranks, one, value),
        None => false,
    }
}

// Whether the one call returned before the other was called.
fn returned_before(calls: &[ProblemCall<Op, Reply>], one: usize, other: usize) -> bool
    ensures { IsTrue result → ReturnedBefore calls.now one other }
{
    match (calls.get(one), calls.get(other)) {
        (Some(first), Some(second)) => match &first.returned {
            Some((number, _)) => *number < second.called,
            None => false,
        },
        _ => false,
    }
}

// Whether the other call found a value that has a rank, and was called after the one returned, which showed a value of no rank or of
// a higher one.
fn is_late(
    values: &IndexMap<i64, ()>,
    ranks: &[u64],
    calls: &[ProblemCall<Op, Reply>],
    one: usize,
    other: usize,
) -> bool
    ensures { IsTrue result → IsLate (λ v. rank_by ranks.now (index_of int_eq values.now v)) calls.now }
{
    if !returned_before(calls, one, other) {
        return false;
    }
    match found(calls, other) {
        Some(value) => shows_over(values, ranks, calls, one, value),
        None => false,
    }
}

// Whether there is no linearization by these two calls and the ranks.
fn are_broken(
    values: &IndexMap<i64, ()>,
    ranks: &[u64],
    calls: &[ProblemCall<Op, Reply>],
    one: usize,
    other: usize,
) -> bool
    ensures { IsTrue result → AreRanksBroken calls.now }
{
    if !are_ranked(values, ranks, calls) {
        return false;
    }
    if are_two(values, ranks, calls, one, other) {
        return true;
    }
    is_late(values, ranks, calls, one, other)
}

/// Whether two calls show by the ranks of these values that there is no linearization. It answers yes only if so. `AllocError` where
/// memory was refused.
pub(crate) fn some_rank_is_broken(
    alloc: Global,
    values: &IndexMap<i64, ()>,
    calls: &[ProblemCall<Op, Reply>],
) -> Result<bool, AllocError>
    ensures { IfOk result (λ found. IsTrue found → AreRanksBroken calls.now) }
{
    if !calls.iter().any(|one| may_bring(one)) {
        return Ok(false);
    }
    let indexes = indexes_of_calls(alloc, values, calls)?;
    let ranks = ranks_of_values(alloc, indexes.as_slice(), values.len())?;
    let Some((one, other)) = find_broken(alloc, ranks.as_slice(), indexes.as_slice(), calls)? else {
        return Ok(false);
    };
    Ok(are_broken(values, ranks.as_slice(), calls, one, other))
}
