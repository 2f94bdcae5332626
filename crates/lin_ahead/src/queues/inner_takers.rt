//! Dequeues within another one of the same item, and which enqueues they hurry: what is taken by the other one is out before such a
//! dequeue is called, so that it takes one more. All of it is hints.

use crate::first::calls_in_turn::CallsInTurn;
use crate::items::calls::item_taken;
use crate::kept::kept;
use crate::queues::item_rows::{ItemRow, rows_by_call};
use crate::queues::slots::SlotHints;
use crate::sight::CALLS_IN_SIGHT;
use lin_history::ProblemCall;
use lin_object::{AnyObject, Op, Reply};
use lin_search::Config;
use std::alloc::{AllocError, Global};

// A dequeue that was called and returned within another one of its row.
#[derive(Clone, Copy)]
struct Inner {
    call: usize,
    row: usize,
    called: u64,
    returned: u64,
    // How many dequeues of the row are within it, with itself.
    own: usize,
    // How many slots are before it was called.
    slots: usize,
}

/// What must be out by an event, and what by an earlier one.
#[derive(Clone, Copy)]
pub(crate) struct Hurry {
    /// The row of which more must be out by the event than are in.
    pub row: usize,
    /// The event.
    pub event: u64,
    /// The row by which what lies in front is out before.
    pub first_row: usize,
    /// By which event that is.
    pub since: u64,
}

/// The inner dequeues in the order of their returns.
#[derive(Drop)]
pub(crate) struct InnerHints {
    inner: Vec<Inner>,
    turn: CallsInTurn,
    // Of each call that returned with an item, its row; none where there is no inner dequeue.
    rows: Vec<Option<usize>>,
    // Of each row, how many of these calls are lifted.
    taken: Vec<usize>,
}

// When the call was called and returned, where it returned with an item.
fn times_of(calls: &[ProblemCall<Op, Reply>], call: usize) -> Option<(u64, u64)> {
    item_taken(calls, call)?;
    let made = calls.get(call)?;
    let (number, _) = made.returned.as_ref()?;
    Some((u64::from(made.called), u64::from(*number)))
}

// How many of these calls are dequeues that were called and returned between the events.
fn count_within(
    calls: &[ProblemCall<Op, Reply>],
    these: &[usize],
    called: u64,
    returned: u64,
) -> usize {
    let mut count = 0;
    for call in these {
        if let Some((from, to)) = times_of(calls, *call) {
            if from > returned {
                return count;
            }
            if called <= from && to <= returned {
                count = count.saturating_add(1);
            }
        }
    }
    count
}

// Puts the inner dequeues of a row to the others.
fn add_inner(
    inner: &mut Vec<Inner>,
    calls: &[ProblemCall<Op, Reply>],
    slots: &SlotHints,
    row: usize,
    these: &[usize],
) -> Result<(), AllocError> {
    let mut latest = 0;
    for place in 0..these.len() {
        let Some((called, returned)) = times_of(calls, these[place]) else {
            continue;
        };
        if returned > latest {
            latest = returned;
            continue;
        }
        let (_, behind) = these.split_at(place);
        inner.push(Inner {
            call: these[place],
            row,
            called,
            returned,
            own: count_within(calls, behind, called, returned),
            slots: slots.slots_before(called),
        })?;
    }
    Ok(())
}

impl InnerHints {
    /// Those of these rows, where no call is lifted.
    pub(crate) fn new(
        alloc: Global,
        calls: &[ProblemCall<Op, Reply>],
        rows: &[ItemRow],
        slots: &SlotHints,
    ) -> Result<Self, AllocError> {
        let mut inner = Vec::new(alloc);
        for row in 0..rows.len() {
            add_inner(&mut inner, calls, slots, row, rows[row].calls.as_slice())?;
        }
        inner.sort_by_key(|one| one.returned)?;
        // where there are none, nothing is followed
        let (rows, count) = if inner.is_empty() {
            (&rows[..0], 0)
        } else {
            (rows, calls.len())
        };
        let order: Vec<u16> = inner.iter().map(|one| kept(one.call)).collect(alloc)?;
        Ok(InnerHints {
            turn: CallsInTurn::new(alloc, order, count)?,
            rows: rows_by_call(alloc, calls, rows, false)?,
            taken: vec![in alloc; 0; rows.len()]?,
            inner,
        })
    }

    // How many calls of the row are lifted that returned with its item, if the call is one.
    fn taken_by(&mut self, call: usize) -> Option<&mut usize> {
        let row = (*self.rows.get(call)?)?;
        self.taken.get_mut(row)
    }

    /// Goes on to the configuration, which has the call too.
    pub(crate) fn lifted(&mut self, config: &Config<AnyObject>, call: usize) {
        if let Some(taken) = self.taken_by(call) {
            *taken = taken.saturating_add(1);
            self.turn.lifted(config);
        }
    }

    /// Goes back to before the call, which was taken out again.
    pub(crate) fn unlifted(&mut self, call: usize) {
        if let Some(taken) = self.taken_by(call) {
            *taken = taken.saturating_sub(1);
            self.turn.unlifted(call);
        }
    }

    // The row by which so many of what lies in front is out before the inner dequeue was called that it takes one more than is in: its
    // own, if so many were taken.
    fn first_row(
        &self,
        slots: &SlotHints,
        config: &Config<AnyObject>,
        inner: Inner,
    ) -> Option<usize> {
        let puts = slots.puts(inner.row)?;
        let last = puts.len().checked_sub(inner.own)?;
        if last < *self.taken.get(inner.row)? {
            return Some(inner.row);
        }
        slots.row_out_before(config, inner.slots, CALLS_IN_SIGHT, *puts.get(last)?)
    }

    /// What hurries an enqueue of the row, where something does.
    pub(crate) fn hurry(
        &self,
        slots: &SlotHints,
        config: &Config<AnyObject>,
        row: usize,
    ) -> Option<Hurry> {
        if self.inner.is_empty() {
            return None;
        }
        let by = slots.next_taken(row)?;
        for place in self.turn.first()..self.inner.len() {
            let inner = self.inner[place];
            if inner.returned >= by {
                return None;
            }
            if config.has(inner.call) {
                continue;
            }
            if let Some(first_row) = self.first_row(slots, config, inner) {
                return Some(Hurry {
                    row: inner.row,
                    event: inner.returned,
                    first_row,
                    since: inner.called.saturating_sub(1),
                });
            }
        }
        None
    }
}
