//! Fewer owners: a call is no owner of another one where the cluster that the two would be of crosses another one, or is parted.

ghost use Rattle.std.specs.Prelude.{ℕ, ◌<◌, ◌⊎◌, OnOk, IfOk, IfSome, IsSomeAnd, IsTrue};
ghost use Rattle.lin_history.specs.Problems.Lists.{In};
ghost use Rattle.lin_ahead.specs.Values.PossibleOwners.{ReturnedBefore, Breaks};
ghost use Rattle.lin_ahead.specs.Values.Clusters.{IsForced, OfCluster};
ghost use Rattle.lin_ahead.specs.Values.Narrowing.{OfClusterWith, AreOfOther, ShowsFound, IsCrossed, IsParted, IsTakenOut};
ghost use Rattle.lin_ahead.specs.Values.Narrowing.{IsPastStart, IsNarrowedRow, AreNarrowed};

use crate::values::breaking_calls::breaks;
use crate::values::call_values::CallValues;
use crate::values::crossings::{Cluster, Clusters, clusters_of_each, has_several, parting_of};
use crate::values::last_breaks::LastBreaks;
use crate::values::owners::Owners;
use crate::values::shown_values::value_found;
use crate::values::stranded::{Crossing, Parting};
use crate::values::taken_values::sole_owner;
use lin_history::ProblemCall;
use lin_object::{Op, Reply};
use smallvec::SmallVec;
use std::alloc::{AllocError, Global};

// How many rounds are made: what one takes out may let the next one take out more.
const ROUNDS: usize = 6;

// What hints are made of.
#[derive(Clone, Copy)]
struct Hints<'a> {
    values: &'a [CallValues],
    breaks: &'a LastBreaks,
    each: &'a [Cluster],
    clusters: &'a Clusters,
}

// Whether the first call returned before the other one was called.
fn is_before(one: &ProblemCall<Op, Reply>, other: &ProblemCall<Op, Reply>) -> bool
    ensures { IsTrue result → IsSomeAnd one.now.returned (λ r. r.0 < other.now.called) }
{
    match &one.returned {
        Some((number, _)) => *number < other.called,
        None => false,
    }
}

// The same of two calls by their numbers.
fn returned_before(calls: &[ProblemCall<Op, Reply>], one: usize, other: usize) -> bool
    ensures { IsTrue result → ReturnedBefore calls.now one other }
{
    let Some(first) = calls.get(one) else {
        return false;
    };
    match calls.get(other) {
        Some(second) => is_before(first, second),
        None => false,
    }
}

// Whether the call found the value.
fn shows_found(calls: &[ProblemCall<Op, Reply>], value: i64, call: usize) -> bool
    ensures { IsTrue result → ShowsFound calls.now value call }
{
    match calls.get(call) {
        Some(one) => value_found(one) == Some(value),
        None => false,
    }
}

// Whether the call breaks the value.
fn shows_break(calls: &[ProblemCall<Op, Reply>], value: i64, call: usize) -> bool
    ensures { IsTrue result → Breaks calls.now call value }
{
    match calls.get(call) {
        Some(one) => breaks(value, one),
        None => false,
    }
}

// Whether the writer alone can have written what the call found.
fn is_forced(rows: &[Owners], writer: usize, call: usize) -> bool
    ensures { IsTrue result → IsForced rows.now writer call }
{
    let Some(row) = rows.get(call) else {
        return false;
    };
    match sole_owner(row) {
        Some(Some(owner)) => owner == writer,
        _ => false,
    }
}

// Whether the call is the writer, or the writer alone can have written what it found.
fn is_of_cluster(rows: &[Owners], writer: usize, call: usize) -> bool
    ensures { IsTrue result → OfCluster rows.now writer call }
{
    call == writer || is_forced(rows, writer, call)
}

// Whether it is so with a call more.
fn is_of_cluster_with(rows: &[Owners], writer: usize, more: usize, call: usize) -> bool
    ensures { IsTrue result → OfClusterWith rows.now writer more call }
{
    call == more || is_of_cluster(rows, writer, call)
}

// Whether the two are of the cluster of this writer, and it is no other call for one of them.
fn are_of_other(rows: &[Owners], writer: usize, early: usize, late: usize) -> bool
    ensures { IsTrue result → AreOfOther rows.now writer early late }
{
    if is_forced(rows, writer, early) {
        return is_of_cluster(rows, writer, late);
    }
    early == writer && is_forced(rows, writer, late)
}

// Whether the cluster of the writer crosses another one with this call.
fn is_crossed(
    calls: &[ProblemCall<Op, Reply>],
    rows: &[Owners],
    call: usize,
    writer: usize,
    crossing: &Crossing,
) -> bool
    ensures { IsTrue result → IsCrossed calls.now rows.now writer call }
{
    if writer == crossing.other {
        return false;
    }
    if !returned_before(calls, crossing.first, crossing.early) {
        return false;
    }
    if !returned_before(calls, crossing.late, crossing.last) {
        return false;
    }
    if !is_of_cluster_with(rows, writer, call, crossing.first) {
        return false;
    }
    if !is_of_cluster_with(rows, writer, call, crossing.last) {
        return false;
    }
    are_of_other(rows, crossing.other, crossing.early, crossing.late)
}

// Whether a call that breaks the value parts the cluster of the writer with this call.
fn is_parted(
    calls: &[ProblemCall<Op, Reply>],
    rows: &[Owners],
    call: usize,
    writer: usize,
    value: i64,
    parting: &Parting,
) -> bool
    ensures { IsTrue result → IsParted calls.now rows.now writer call }
{
    if !returned_before(calls, parting.first, parting.between) {
        return false;
    }
    if !returned_before(calls, parting.between, parting.last) {
        return false;
    }
    if !is_of_cluster_with(rows, writer, call, parting.first) {
        return false;
    }
    if !is_of_cluster_with(rows, writer, call, parting.last) {
        return false;
    }
    if !shows_found(calls, value, parting.last) {
        return false;
    }
    shows_break(calls, value, parting.between)
}

impl<'a> Hints<'a> {
    // The cluster of the writer with this call, but without the writer.
    fn cluster_with(&self, writer: usize, call: usize) -> Option<Cluster> {
        let cluster = self.each.get(writer)?;
        Some(cluster.with(call, self.values.get(call)?))
    }

    // A cluster that may cross that of the writer with this call.
    fn crossing(&self, writer: usize, call: usize) -> Option<Crossing> {
        let left = self.cluster_with(writer, call)?;
        self.clusters.crossing(&left.with_owner(self.values))
    }

    // A call that may part it.
    fn parting(&self, writer: usize, call: usize, value: i64) -> Option<Parting> {
        let left = self.cluster_with(writer, call)?;
        parting_of(
            self.values,
            self.breaks,
            value,
            &left.with_owner(self.values),
            &left,
        )
    }

    // A cluster of which a call returned before this one was called.
    fn cluster_before(&self, call: usize) -> Option<Cluster> {
        self.clusters
            .other_before(self.values.get(call)?.called, self.values.len())
    }
}

// Whether a cluster crosses that of the writer with this call.
fn crosses(
    calls: &[ProblemCall<Op, Reply>],
    rows: &[Owners],
    hints: &Hints<'_>,
    call: usize,
    writer: usize,
) -> bool
    ensures { IsTrue result → IsCrossed calls.now rows.now writer call }
{
    match hints.crossing(writer, call) {
        Some(crossing) => is_crossed(calls, rows, call, writer, &crossing),
        None => false,
    }
}

// Whether a call parts the cluster of the writer with this call.
fn parts(
    calls: &[ProblemCall<Op, Reply>],
    rows: &[Owners],
    hints: &Hints<'_>,
    call: usize,
    writer: usize,
) -> bool
    ensures { IsTrue result → IsParted calls.now rows.now writer call }
{
    let Some(one) = calls.get(call) else {
        return false;
    };
    let Some(value) = value_found(one) else {
        return false;
    };
    match hints.parting(writer, call, value) {
        Some(parting) => is_parted(calls, rows, call, writer, value, &parting),
        None => false,
    }
}

// Whether the writer is no owner of the call.
fn is_taken_out(
    calls: &[ProblemCall<Op, Reply>],
    rows: &[Owners],
    hints: &Hints<'_>,
    call: usize,
    writer: usize,
) -> bool
    ensures { IsTrue result → IsTakenOut calls.now rows.now writer call }
{
    if crosses(calls, rows, hints, call, writer) {
        return true;
    }
    parts(calls, rows, hints, call, writer)
}

// Whether the start is no owner of the call: a call of a cluster returned before it was called.
fn is_past_start(
    calls: &[ProblemCall<Op, Reply>],
    rows: &[Owners],
    hints: &Hints<'_>,
    call: usize,
) -> bool
    ensures { IsTrue result → IsPastStart calls.now rows.now call }
{
    let Some(cluster) = hints.cluster_before(call) else {
        return false;
    };
    let owner = cluster.owner as usize;
    let first = cluster.first as usize;
    if !is_forced(rows, owner, cluster.last as usize) {
        return false;
    }
    if !is_of_cluster(rows, owner, first) {
        return false;
    }
    returned_before(calls, first, call)
}

// Whether the start is still an owner of the call.
fn is_at_start(
    calls: &[ProblemCall<Op, Reply>],
    rows: &[Owners],
    hints: &Hints<'_>,
    call: usize,
    at_start: bool,
) -> bool
    ensures { IsTrue at_start → IsTrue result ⊎ IsPastStart calls.now rows.now call }
{
    if !at_start {
        return false;
    }
    !is_past_start(calls, rows, hints, call)
}

// Whether several may own the call, or the start.
fn may_be_narrowed(row: &Owners) -> bool
    ensures { IsTrue result → IsTrue row.now.are_told }
{
    if !row.are_told {
        return false;
    }
    row.at_start || has_several(row)
}

// The owners of the call that are left.
fn owners_left(
    alloc: Global,
    calls: &[ProblemCall<Op, Reply>],
    rows: &[Owners],
    hints: &Hints<'_>,
    call: usize,
    owners: &[usize],
) -> Result<SmallVec<usize, 1>, AllocError>
    ensures { IfOk result (λ left. (w : ℕ) → In w owners.now
        → In w left.items ⊎ IsTakenOut calls.now rows.now w call) }
{
    let mut left = SmallVec::new(alloc);
    for at in 0..owners.len() {
        if !is_taken_out(calls, rows, hints, call, owners[at]) {
            left.push(owners[at])?;
        }
    }
    Ok(left)
}

// The row of the call with the owners that are left, if it has several or the start.
fn narrowed_row(
    alloc: Global,
    calls: &[ProblemCall<Op, Reply>],
    rows: &[Owners],
    hints: &Hints<'_>,
    call: usize,
) -> Result<Option<Owners>, AllocError>
    ensures { IfOk result (λ told. IfSome told (λ row. IsNarrowedRow calls.now rows.now call row)) }
{
    let Some(row) = rows.get(call) else {
        return Ok(None);
    };
    if !may_be_narrowed(row) {
        return Ok(None);
    }
    let left = owners_left(alloc, calls, rows, hints, call, row.calls.as_slice())?;
    let at_start = is_at_start(calls, rows, hints, call, row.at_start);
    if left.len() == row.calls.len() && at_start == row.at_start {
        return Ok(None);
    }
    Ok(Some(Owners {
        calls: left,
        at_start,
        are_told: true,
    }))
}

// Takes owners of the call out, and tells whether there were any.
fn narrow_row(
    alloc: Global,
    calls: &[ProblemCall<Op, Reply>],
    rows: &mut Vec<Owners>,
    hints: &Hints<'_>,
    call: usize,
) -> Result<bool, AllocError>
    ensures { OnOk result (AreNarrowed calls.now rows.old.items rows.new.items) }
{
    let Some(row) = narrowed_row(alloc, calls, rows.as_slice(), hints, call)? else {
        return Ok(false);
    };
    match rows.get_mut(call) {
        Some(slot) => {
            *slot = row;
            Ok(true)
        }
        None => Ok(false),
    }
}

// Takes owners of each call out, and tells whether there were any.
fn narrow_rows(
    alloc: Global,
    calls: &[ProblemCall<Op, Reply>],
    rows: &mut Vec<Owners>,
    hints: &Hints<'_>,
) -> Result<bool, AllocError>
    ensures { OnOk result (AreNarrowed calls.now rows.old.items rows.new.items) }
{
    let mut are_changed = false;
    for call in 0..calls.len() {
        if narrow_row(alloc, calls, rows, hints, call)? {
            are_changed = true;
        }
    }
    Ok(are_changed)
}

// The same, with hints by the rows as they stand.
fn narrow_once(
    alloc: Global,
    calls: &[ProblemCall<Op, Reply>],
    values: &[CallValues],
    breaks: &LastBreaks,
    rows: &mut Vec<Owners>,
) -> Result<bool, AllocError>
    ensures { OnOk result (AreNarrowed calls.now rows.old.items rows.new.items) }
{
    let each = clusters_of_each(alloc, values, rows.as_slice())?;
    let clusters = Clusters::new(alloc, values, each.as_slice())?;
    let hints = Hints {
        values,
        breaks,
        each: each.as_slice(),
        clusters: &clusters,
    };
    narrow_rows(alloc, calls, rows, &hints)
}

/// Takes out of the owners of each call those that are none in any linearization, as far as clusters of calls show it. It does
/// nothing where no call has several. `AllocError` where memory was refused.
pub(crate) fn narrow(
    alloc: Global,
    calls: &[ProblemCall<Op, Reply>],
    values: &[CallValues],
    rows: &mut Vec<Owners>,
) -> Result<(), AllocError>
    ensures { OnOk result (AreNarrowed calls.now rows.old.items rows.new.items) }
{
    if !rows.iter().any(|row| has_several(row)) {
        return Ok(());
    }
    let breaks = LastBreaks::new(alloc, values)?;
    for _ in 0..ROUNDS {
        if !narrow_once(alloc, calls, values, &breaks, rows)? {
            return Ok(());
        }
    }
    Ok(())
}
