//! The calls that one call alone may own, its cluster, and which clusters cross once a call has changed the state. It is a hint.

use crate::kept::kept;
use crate::sight::CALLS_IN_SIGHT;
use crate::values::call_values::{BEHIND_ALL, CallValues};
use crate::values::due::Due;
use crate::values::last_breaks::LastBreaks;
use crate::values::owners::Owners;
use crate::values::stranded::{Crossing, Parting, Stranded};
use crate::values::taken_values::sole_owner;
use std::alloc::{AllocError, Global};

// How many events behind the first return of a call that is left they may be called.
const EVENTS_AHEAD: u32 = 400;

/// Calls that one call alone may own: the one that returned first, and the one that was called last.
#[derive(Clone, Copy)]
pub(crate) struct Cluster {
    by: u32,
    from: u32,
    /// The one call.
    pub owner: u16,
    /// The call that returned first.
    pub first: u16,
    /// The call that was called last.
    pub last: u16,
}

// A cluster by its place in the order of first returns, and another one: of those up to a place the two whose last call was called
// last.
#[derive(Clone, Copy)]
struct Tops {
    most: u16,
    next: u16,
}

/// The clusters of the calls whose owner is known, in the order of their first returns.
#[derive(Drop)]
pub(crate) struct Clusters {
    rows: Vec<Cluster>,
    tops: Vec<Tops>,
}

/// The clusters of the calls whose owner is known, and the calls that may write each value.
#[derive(Drop)]
pub(crate) struct Crossings {
    clusters: Clusters,
    // The calls that may write values, by their values, and of each in the order of their calls.
    written: Vec<u16>,
    breaks: LastBreaks,
}

impl Cluster {
    // No call.
    fn none(owner: usize) -> Self {
        let owner = kept(owner);
        Cluster {
            by: BEHIND_ALL,
            from: 0,
            owner,
            first: owner,
            last: owner,
        }
    }

    // Whether there is a call.
    fn has_any(&self) -> bool {
        self.by < BEHIND_ALL
    }

    /// With a completed call more.
    pub(crate) fn with(&self, call: usize, values: &CallValues) -> Self {
        let mut cluster = *self;
        if values.returned < cluster.by {
            cluster.first = kept(call);
            cluster.by = values.returned;
        }
        if values.called >= cluster.from {
            cluster.last = kept(call);
            cluster.from = values.called;
        }
        cluster
    }

    /// With the owner itself; but it is not both the first call and the last.
    pub(crate) fn with_owner(&self, calls: &[CallValues]) -> Self {
        let Some(values) = calls.get(self.owner as usize) else {
            return *self;
        };
        let mut cluster = self.with(self.owner as usize, values);
        if cluster.first == self.owner && cluster.last == self.owner {
            cluster.last = self.last;
            cluster.from = self.from;
        }
        cluster
    }
}

/// The clusters of all calls, by the owners that are known. `AllocError` where memory was refused.
pub(crate) fn clusters_of_each(
    alloc: Global,
    calls: &[CallValues],
    owners: &[Owners],
) -> Result<Vec<Cluster>, AllocError> {
    let mut clusters = Vec::with_capacity(alloc, calls.len())?;
    for owner in 0..calls.len() {
        clusters.push(Cluster::none(owner))?;
    }
    for call in 0..owners.len() {
        if let Some(Some(owner)) = sole_owner(&owners[call])
            && let Some(values) = calls.get(call)
            && let Some(slot) = clusters.get_mut(owner)
        {
            *slot = slot.with(call, values);
        }
    }
    Ok(clusters)
}

// Those with a call, in the order of their first returns.
fn clusters_in_order(
    alloc: Global,
    calls: &[CallValues],
    each: &[Cluster],
) -> Result<Vec<Cluster>, AllocError> {
    let mut rows = Vec::new(alloc);
    for cluster in each {
        if cluster.has_any() {
            rows.push(cluster.with_owner(calls))?;
        }
    }
    rows.sort_by_key(|one| one.by)?;
    Ok(rows)
}

// When the last call of the cluster at the place was called.
fn from_at(rows: &[Cluster], place: u16) -> u32 {
    match rows.get(place as usize) {
        Some(cluster) => cluster.from,
        None => 0,
    }
}

// For each place the two clusters up to it whose last call was called last.
fn tops_of(alloc: Global, rows: &[Cluster]) -> Result<Vec<Tops>, AllocError> {
    let mut tops = Vec::with_capacity(alloc, rows.len())?;
    let mut top = Tops {
        most: 0,
        next: kept(rows.len()),
    };
    for place in 0..rows.len() {
        if place > 0 && rows[place].from > from_at(rows, top.most) {
            top = Tops {
                most: kept(place),
                next: top.most,
            };
        } else if place > 0 && rows[place].from > from_at(rows, top.next) {
            top.next = kept(place);
        }
        tops.push(top)?;
    }
    Ok(tops)
}

// The value that the call may write.
fn written_at(calls: &[CallValues], call: u16) -> Option<i64> {
    calls.get(call as usize)?.written()
}

// When the call was called; 0 where there is no such call.
fn called_at(calls: &[CallValues], call: u16) -> u32 {
    match calls.get(call as usize) {
        Some(values) => values.called,
        None => 0,
    }
}

// The calls that may write values, by their values, and of each in the order of their calls.
fn written_by_value(alloc: Global, calls: &[CallValues]) -> Result<Vec<u16>, AllocError> {
    let mut rows = Vec::new(alloc);
    for call in 0..calls.len() {
        if calls[call].writes() {
            rows.push(kept(call))?;
        }
    }
    rows.sort_by_key(|call| written_at(calls, *call).unwrap_or(0))?;
    Ok(rows)
}

// The calls left to the writer alone once the other one has changed the state, if there are any.
fn left_to(calls: &[CallValues], due: &Due, writer: usize, call: usize) -> Cluster {
    let mut cluster = Cluster::none(writer);
    for place in due.places_of(writer) {
        if let Some(left) = due.due_behind(place, writer)
            && left != call
            && let Some(values) = calls.get(left)
        {
            cluster = cluster.with(left, values);
        }
    }
    cluster
}

/// Whether one of several calls may own the call, or it found the start or what one call made.
pub(crate) fn has_several(owners: &Owners) -> bool {
    owners.are_told && (owners.calls.len() > 1 || (owners.at_start && owners.calls.len() > 0))
}

impl Clusters {
    /// Those of these clusters that have a call. `AllocError` where memory was refused.
    pub(crate) fn new(
        alloc: Global,
        calls: &[CallValues],
        each: &[Cluster],
    ) -> Result<Self, AllocError> {
        let rows = clusters_in_order(alloc, calls, each)?;
        Ok(Clusters {
            tops: tops_of(alloc, rows.as_slice())?,
            rows,
        })
    }

    // The cluster at the place.
    fn at(&self, place: u16) -> Option<Cluster> {
        self.rows.get(place as usize).copied()
    }

    /// Of the clusters of other owners whose first call returned before the event, the one whose last call was called last.
    pub(crate) fn other_before(&self, event: u32, owner: usize) -> Option<Cluster> {
        let count = self.rows.as_slice().partition_point(|one| one.by < event);
        let top = *self.tops.get(count.checked_sub(1)?)?;
        let most = self.at(top.most)?;
        if most.owner != kept(owner) {
            Some(most)
        } else {
            self.at(top.next)
        }
    }

    /// A cluster that crosses this one.
    pub(crate) fn crossing(&self, cluster: &Cluster) -> Option<Crossing> {
        let other = self.other_before(cluster.from, cluster.owner as usize)?;
        if other.from <= cluster.by {
            return None;
        }
        Some(Crossing {
            writer: cluster.owner as usize,
            first: cluster.first as usize,
            last: cluster.last as usize,
            other: other.owner as usize,
            early: other.last as usize,
            late: other.first as usize,
        })
    }
}

/// A call that comes between the first of the cluster and the last of those left to the owner, and does not leave the value.
pub(crate) fn parting_of(
    calls: &[CallValues],
    breaks: &LastBreaks,
    value: i64,
    cluster: &Cluster,
    left: &Cluster,
) -> Option<Parting> {
    let between = breaks.last_before(calls, left.from, value)?;
    if calls.get(between)?.called <= cluster.by {
        return None;
    }
    Some(Parting {
        writer: cluster.owner as usize,
        first: cluster.first as usize,
        last: left.last as usize,
        between,
    })
}

impl Crossings {
    /// Those of these calls; none where no call may have one of several owners.
    pub(crate) fn new(
        alloc: Global,
        calls: &[CallValues],
        owners: &[Owners],
    ) -> Result<Self, AllocError> {
        if owners.iter().any(|row| has_several(row)) {
            Crossings::of(alloc, calls, owners)
        } else {
            Crossings::of(alloc, &[], &[])
        }
    }

    // Those of these calls.
    fn of(alloc: Global, calls: &[CallValues], owners: &[Owners]) -> Result<Self, AllocError> {
        let each = clusters_of_each(alloc, calls, owners)?;
        Ok(Crossings {
            clusters: Clusters::new(alloc, calls, each.as_slice())?,
            written: written_by_value(alloc, calls)?,
            breaks: LastBreaks::new(alloc, calls)?,
        })
    }

    /// Whether calls may be stranded at all.
    pub(crate) fn are_told(&self) -> bool {
        self.written.len() > 0
    }

    // Where the calls that write the value and are called later than this event begin.
    fn end_of(&self, calls: &[CallValues], value: i64, event: u32) -> usize {
        self.written
            .as_slice()
            .partition_point(|call| match written_at(calls, *call) {
                Some(written) => written < value
                    || (written == value && called_at(calls, *call) <= event),
                None => false,
            })
    }

    // How calls that are left to the writer alone would be stranded.
    fn stranded_by(
        &self,
        calls: &[CallValues],
        due: &Due,
        call: usize,
        value: i64,
        writer: usize,
    ) -> Option<Stranded> {
        let left = left_to(calls, due, writer, call);
        if !left.has_any() {
            return None;
        }
        let cluster = left.with_owner(calls);
        match self.clusters.crossing(&cluster) {
            Some(crossing) => Some(Stranded::Crossed(crossing)),
            None => match parting_of(calls, &self.breaks, value, &cluster, &left) {
                Some(parting) => Some(Stranded::Parted(parting)),
                None => None,
            },
        }
    }

    /// Calls that are stranded once the call takes the value away, if some are found.
    pub(crate) fn stranded(
        &self,
        calls: &[CallValues],
        due: &Due,
        call: usize,
        value: i64,
    ) -> Option<Stranded> {
        let first = due.first_left()?;
        let event = calls.get(first)?.returned.saturating_add(EVENTS_AHEAD);
        let end = self.end_of(calls, value, event);
        for place in (end.saturating_sub(CALLS_IN_SIGHT)..end).rev() {
            let writer = *self.written.get(place)?;
            if written_at(calls, writer) != Some(value) {
                return None;
            }
            let writer = writer as usize;
            if writer != call && !due.has(writer) {
                let stranded = self.stranded_by(calls, due, call, value, writer);
                if stranded.is_some() {
                    return stranded;
                }
            }
        }
        None
    }
}
