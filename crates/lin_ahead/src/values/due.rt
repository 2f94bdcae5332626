//! Which calls are due: completed calls that are not lifted, while all calls of which one wrote what they found are. All of it is
//! a hint.

use crate::kept::kept;
use crate::sight::CALLS_IN_SIGHT;
use crate::values::call_values::CallValues;
use crate::values::calls_left::CallsLeft;
use crate::values::owners::Owners;
use std::alloc::{AllocError, Global};
use std::ops::Range;

// So many owners of a call are never all lifted: those of a call are not known.
const NEVER: u8 = u8::MAX;

// For each call how many of its owners are not lifted, and the calls that it may own.
#[derive(Drop)]
pub(crate) struct Due {
    // How many owners of each call are not lifted: it has no more than 64.
    left: Vec<u8>,
    // The calls that each call may own, one after another, and for each call where they begin; the end of all is behind that.
    owned: Vec<u16>,
    begins: Vec<u32>,
    is_lifted: Vec<bool>,
    // The calls all of whose owners are lifted, in the order in which that came about, and how many of them are not lifted.
    due: Vec<u16>,
    count: usize,
    calls_left: CallsLeft,
}

// How many owners the call has.
fn owners_of(calls: &[CallValues], owners: &[Owners], call: usize) -> u8 {
    match (calls.get(call), owners.get(call)) {
        (Some(values), Some(row)) if row.are_told && values.is_completed() => usize::min(
            row.calls.len(),
            NEVER as usize,
        ) as u8,
        _ => NEVER,
    }
}

// How many owners each call has.
fn owners_of_calls(
    alloc: Global,
    calls: &[CallValues],
    owners: &[Owners],
) -> Result<Vec<u8>, AllocError> {
    let mut row = Vec::with_capacity(alloc, calls.len())?;
    for call in 0..calls.len() {
        row.push(owners_of(calls, owners, call))?;
    }
    Ok(row)
}

// How many calls each of so many calls may own, one place further on.
fn owned_counts(alloc: Global, owners: &[Owners], calls: usize) -> Result<Vec<u32>, AllocError> {
    let mut counts = vec![in alloc; 0u32; calls.saturating_add(2)]?;
    for row in owners {
        for owner in row.calls.as_slice() {
            if let Some(slot) = counts.get_mut(owner.saturating_add(2)) {
                *slot = slot.saturating_add(1);
            }
        }
    }
    Ok(counts)
}

// Makes sums of the numbers up to each.
fn sum_up(row: &mut Vec<u32>) {
    let mut sum: u32 = 0;
    for slot in row.iter_mut() {
        sum = sum.saturating_add(*slot);
        *slot = sum;
    }
}

// Writes the call behind those that the owner was found to own so far, and notes that there is one more.
fn add_owned(owned: &mut Vec<u16>, ends: &mut Vec<u32>, owner: usize, call: usize) {
    if let Some(end) = ends.get_mut(owner.saturating_add(1)) {
        if let Some(slot) = owned.get_mut(*end as usize) {
            *slot = kept(call);
        }
        *end = end.saturating_add(1);
    }
}

impl Due {
    // Those of these calls, none of which is lifted.
    pub(crate) fn new(
        alloc: Global,
        calls: &[CallValues],
        owners: &[Owners],
    ) -> Result<Self, AllocError> {
        let mut begins = owned_counts(alloc, owners, calls.len())?;
        sum_up(&mut begins);
        let all = begins.last().copied().unwrap_or(0) as usize;
        let mut owned = vec![in alloc; 0u16; all]?;
        for call in 0..owners.len() {
            for owner in owners[call].calls.as_slice() {
                add_owned(&mut owned, &mut begins, *owner, call);
            }
        }
        let mut due = Due {
            left: owners_of_calls(alloc, calls, owners)?,
            owned,
            begins,
            is_lifted: vec![in alloc; false; calls.len()]?,
            due: Vec::with_capacity(alloc, calls.len())?,
            count: 0,
            calls_left: CallsLeft::new(alloc, calls)?,
        };
        for call in 0..calls.len() {
            if due.has_all_owners(call) {
                due.add(call)?;
            }
        }
        Ok(due)
    }

    // Whether all owners of the call are lifted.
    fn has_all_owners(&self, call: usize) -> bool {
        match self.left.get(call) {
            Some(left) => *left == 0,
            None => false,
        }
    }

    /// Whether the call is lifted.
    pub(crate) fn has(&self, call: usize) -> bool {
        match self.is_lifted.get(call) {
            Some(is_lifted) => *is_lifted,
            None => true,
        }
    }

    // Where those begin that the call may own.
    fn begin_of(&self, call: usize) -> usize {
        self.begins.get(call).copied().unwrap_or(0) as usize
    }

    /// The places of the calls that the call may own.
    pub(crate) fn places_of(&self, call: usize) -> Range<usize> {
        self.begin_of(call)..self.begin_of(call.saturating_add(1))
    }

    /// The call left that returned first.
    pub(crate) fn first_left(&self) -> Option<usize> {
        self.calls_left.first()
    }

    // Notes that all owners of the call are lifted.
    fn add(&mut self, call: usize) -> Result<(), AllocError> {
        self.due.push(kept(call))?;
        if !self.has(call) {
            self.count = self.count.saturating_add(1);
        }
        Ok(())
    }

    // Takes the note of the call back, which was the last.
    fn take_back(&mut self, call: usize) {
        self.due.pop();
        if !self.has(call) {
            self.count = self.count.saturating_sub(1);
        }
    }

    // The call at the place.
    fn owned_at(&self, place: usize) -> Option<usize> {
        Some(*self.owned.get(place)? as usize)
    }

    // Notes of the call at the place that one of its owners more is lifted.
    fn owner_lifted(&mut self, place: usize) -> Result<(), AllocError> {
        let Some(call) = self.owned_at(place) else {
            return Ok(());
        };
        if let Some(left) = self.left.get_mut(call) {
            *left = left.saturating_sub(1);
        }
        if self.has_all_owners(call) {
            self.add(call)?;
        }
        Ok(())
    }

    // Takes that note back.
    fn owner_unlifted(&mut self, place: usize) {
        let Some(call) = self.owned_at(place) else {
            return;
        };
        if self.has_all_owners(call) {
            self.take_back(call);
        }
        if let Some(left) = self.left.get_mut(call) {
            *left = left.saturating_add(1);
        }
    }

    // Notes that the call is lifted now, or is not any more.
    fn set_lifted(&mut self, call: usize, is_lifted: bool) {
        if let Some(slot) = self.is_lifted.get_mut(call) {
            *slot = is_lifted;
        }
    }

    // Goes on after the call, which is lifted now.
    pub(crate) fn lifted(&mut self, call: usize) -> Result<(), AllocError> {
        self.calls_left.take_out(call);
        if self.has_all_owners(call) {
            self.count = self.count.saturating_sub(1);
        }
        self.set_lifted(call, true);
        for place in self.begin_of(call)..self.begin_of(call.saturating_add(1)) {
            self.owner_lifted(place)?;
        }
        Ok(())
    }

    // Goes back to before the call, which was lifted last.
    pub(crate) fn unlifted(&mut self, call: usize) {
        for place in (self.begin_of(call)..self.begin_of(call.saturating_add(1))).rev() {
            self.owner_unlifted(place);
        }
        self.set_lifted(call, false);
        if self.has_all_owners(call) {
            self.count = self.count.saturating_add(1);
        }
        self.calls_left.put_back(call);
    }

    // Whether a call that is due is not lifted, another one than this.
    pub(crate) fn has_another(&self, call: usize) -> bool {
        let own = if self.has_all_owners(call) { 1 } else { 0 };
        self.count > own
    }

    // A call that is due and not lifted, another one than this.
    pub(crate) fn another(&self, call: usize) -> Option<usize> {
        if !self.has_another(call) {
            return None;
        }
        for place in 0..CALLS_IN_SIGHT {
            let other = *self
                .due
                .get(self.due.len().checked_sub(place.saturating_add(1))?)? as usize;
            if other != call && !self.has(other) {
                return Some(other);
            }
        }
        None
    }

    /// The call at the place that the call may own, where it will be due once the call is lifted.
    pub(crate) fn due_behind(&self, place: usize, call: usize) -> Option<usize> {
        let owned = self.owned_at(place)?;
        let left = *self.left.get(owned)?;
        if left == 1 && owned != call && !self.has(owned) {
            Some(owned)
        } else {
            None
        }
    }

    // Of the calls that will be due once the call is lifted, the one that was called last.
    pub(crate) fn last_behind(&self, call: usize) -> Option<usize> {
        for place in (self.begin_of(call)..self.begin_of(call.saturating_add(1))).rev() {
            if let Some(owned) = self.due_behind(place, call) {
                return Some(owned);
            }
        }
        None
    }

    // Two calls that will be due once the call is lifted, and that change each value.
    pub(crate) fn two_behind(&self, calls: &[CallValues], call: usize) -> Option<(usize, usize)> {
        let mut first = None;
        for place in self.begin_of(call)..self.begin_of(call.saturating_add(1)) {
            if let Some(owned) = self.due_behind(place, call)
                && changes(calls, owned)
            {
                if let Some(one) = first {
                    return Some((one, owned));
                }
                first = Some(owned);
            }
        }
        None
    }

    // Whether something is to be asked of the calls that will be due once the call is lifted: what comes between, or whether two of
    // them change the value.
    pub(crate) fn may_forbid(&self, calls: &[CallValues], call: usize) -> bool {
        self.two_behind(calls, call).is_some() || self.between(calls, call).is_some()
    }

    // Of the calls that will be due once the call is lifted, the one that was called last; and the first of the calls left that
    // returned before that, and does not leave the value that is there then.
    pub(crate) fn between(&self, calls: &[CallValues], call: usize) -> Option<(usize, usize)> {
        let last = self.last_behind(call)?;
        let value = calls.get(call)?.written()?;
        let called = calls.get(last)?.called;
        let mut at = self.calls_left.first()?;
        for _ in 0..calls.len() {
            let one = calls.get(at)?;
            if one.returned >= called {
                return None;
            }
            if at != call && !one.leaves(value) {
                return Some((last, at));
            }
            at = self.calls_left.after(at)?;
        }
        None
    }
}

// Whether the call changes each value.
fn changes(calls: &[CallValues], call: usize) -> bool {
    match calls.get(call) {
        Some(values) => values.changes(),
        None => false,
    }
}
