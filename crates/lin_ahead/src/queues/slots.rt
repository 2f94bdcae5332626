//! Of the items of a queue some of which repeat, the events by which they are out that many times, and which enqueues have to wait for
//! others before that. All of it is hints.

use crate::items::calls::{item_put, item_taken};
use crate::items::item_calls::BEYOND;
use crate::items::rows::ItemsAhead;
use crate::queues::item_rows::{ItemRow, rows_by_call};
use lin_history::ProblemCall;
use lin_object::{AnyObject, Op, Reply};
use lin_search::Config;
use std::alloc::{AllocError, Global};

// Dequeues that are pending stand in each row: at most so many places are taken by them, which is sixteen megabytes.
const MOST_PENDING: usize = 1 << 20;

// So many calls of a row that return after a slot are looked at for such as are lifted already.
const LATER_IN_SIGHT: usize = 2;

// By the event, at which the call returned, more calls returned with the row's item than the rank says.
#[derive(Clone, Copy)]
struct Slot {
    event: u64,
    call: usize,
    row: usize,
    rank: usize,
}

/// Why all that lies in the queue was out by an event, and what goes in next.
#[derive(Clone, Copy)]
pub(crate) enum Reason {
    /// More of the row's item were out than are in yet.
    Taken(usize),
    /// The call found the queue empty.
    FoundEmpty(usize),
}

/// What an enqueue has to wait for.
#[derive(Clone, Copy)]
pub(crate) struct Wait {
    /// The row of what the enqueue puts in.
    pub own: usize,
    /// By which event it would have to be out.
    pub event: u64,
    /// Why.
    pub reason: Reason,
}

/// By the event more calls returned with the row's item than enqueues of it were called.
#[derive(Clone, Copy)]
pub(crate) struct Lack {
    /// The row.
    pub row: usize,
    /// The event.
    pub event: u64,
}

/// The slots in the order of their events, and the first for which too few enqueues are lifted.
#[derive(Drop)]
pub(crate) struct SlotHints {
    slots: Vec<Slot>,
    // Of each row, the places of its slots.
    places: Vec<Vec<usize>>,
    // Of each row, when those were called that may take its item.
    called: Vec<Vec<u64>>,
    // Of each row, the places of its enqueues that are lifted among all those of rows.
    puts: Vec<Vec<usize>>,
    // How many enqueues of rows are lifted.
    lifted: usize,
    // Of each call that puts an item in, the row.
    rows: Vec<Option<usize>>,
    first: usize,
    lack: Option<Lack>,
}

/// The items of which rows are made: all, where some go in more than once and the dequeues that are pending are not too many; else none.
pub(crate) fn items_in_rows(alloc: Global, ahead: &ItemsAhead) -> Result<Vec<i64>, AllocError> {
    let some_repeat = ahead.told.values().any(|told| told.goes_in_again());
    if !some_repeat || ahead.told.len().saturating_mul(ahead.takers.len()) > MOST_PENDING {
        return Ok(Vec::new(alloc));
    }
    ahead.told.keys().copied().collect(alloc)
}

// When those of the row were called that may take its item.
fn called_of(
    alloc: Global,
    calls: &[ProblemCall<Op, Reply>],
    row: &ItemRow,
) -> Result<Vec<u64>, AllocError> {
    let mut called = Vec::new(alloc);
    for call in row.calls.as_slice() {
        if *call < calls.len() && item_put(calls, *call).is_none() {
            called.push(u64::from(calls[*call].called))?;
        }
    }
    Ok(called)
}

// When the enqueues of the row were called.
fn put_events(
    alloc: Global,
    calls: &[ProblemCall<Op, Reply>],
    row: &ItemRow,
) -> Result<Vec<u64>, AllocError> {
    let mut events = Vec::new(alloc);
    for call in row.calls.as_slice() {
        if *call < calls.len() && item_put(calls, *call).is_some() {
            events.push(u64::from(calls[*call].called))?;
        }
    }
    Ok(events)
}

// The first of these slots by which too few enqueues were called that were called at these events.
fn first_lack(slots: &[Slot], puts: &[u64]) -> Option<Lack> {
    for slot in slots {
        let called = puts.get(slot.rank).copied().unwrap_or(BEYOND);
        if slot.event < called {
            return Some(Lack {
                row: slot.row,
                event: slot.event,
            });
        }
    }
    None
}

// Puts the slots of a row to the others.
fn add_slots(
    slots: &mut Vec<Slot>,
    alloc: Global,
    calls: &[ProblemCall<Op, Reply>],
    row: usize,
    concerned: &[usize],
) -> Result<(), AllocError> {
    let mut events = Vec::new(alloc);
    for call in concerned {
        if item_taken(calls, *call).is_some() && *call < calls.len() {
            if let Some((number, _)) = &calls[*call].returned {
                events.push((u64::from(*number), *call))?;
            }
        }
    }
    events.sort_by_key(|one| one.0)?;
    for rank in 0..events.len() {
        slots.push(Slot {
            event: events[rank].0,
            call: events[rank].1,
            row,
            rank,
        })?;
    }
    Ok(())
}

// No places of each of so many rows.
fn no_places(alloc: Global, rows: usize) -> Result<Vec<Vec<usize>>, AllocError> {
    let mut places = Vec::new(alloc);
    for _ in 0..rows {
        places.push(Vec::new(alloc))?;
    }
    Ok(places)
}

// Of each of so many rows, the places of its slots.
fn places_of(alloc: Global, slots: &[Slot], rows: usize) -> Result<Vec<Vec<usize>>, AllocError> {
    let mut places = no_places(alloc, rows)?;
    for place in 0..slots.len() {
        if let Some(row) = places.get_mut(slots[place].row) {
            row.push(place)?;
        }
    }
    Ok(places)
}

impl SlotHints {
    /// Those of these rows, where no call is lifted.
    pub(crate) fn new(
        alloc: Global,
        calls: &[ProblemCall<Op, Reply>],
        rows: &[ItemRow],
    ) -> Result<Self, AllocError> {
        let mut slots = Vec::new(alloc);
        let mut called = Vec::new(alloc);
        let mut lack = None;
        for row in 0..rows.len() {
            let before = slots.len();
            add_slots(&mut slots, alloc, calls, row, rows[row].calls.as_slice())?;
            called.push(called_of(alloc, calls, &rows[row])?)?;
            if before < slots.len() && lack.is_none() {
                let puts = put_events(alloc, calls, &rows[row])?;
                let (_, own) = slots.as_slice().split_at(before);
                lack = first_lack(own, puts.as_slice());
            }
        }
        slots.sort_by_key(|slot| slot.event)?;
        Ok(SlotHints {
            places: places_of(alloc, slots.as_slice(), rows.len())?,
            called,
            puts: no_places(alloc, rows.len())?,
            lifted: 0,
            rows: rows_by_call(alloc, calls, rows, true)?,
            slots,
            first: 0,
            lack,
        })
    }

    /// The row of which too few enqueues were called by an event, where there is one.
    pub(crate) fn lack(&self) -> Option<Lack> {
        self.lack
    }

    /// The row of what the call puts in.
    pub(crate) fn row_of(&self, call: usize) -> Option<usize> {
        *self.rows.get(call)?
    }

    // Whether enough enqueues of its item are lifted for the slot.
    fn is_full(&self, slot: Slot) -> bool {
        match self.puts.get(slot.row) {
            Some(puts) => slot.rank < puts.len(),
            None => true,
        }
    }

    /// Goes on after the call, which is lifted now.
    pub(crate) fn lifted(&mut self, call: usize) -> Result<(), AllocError> {
        let Some(row) = self.row_of(call) else {
            return Ok(());
        };
        if let Some(puts) = self.puts.get_mut(row) {
            puts.push(self.lifted)?;
            self.lifted = self.lifted.saturating_add(1);
        }
        for place in self.first..self.slots.len() {
            if !self.is_full(self.slots[place]) {
                self.first = place;
                return Ok(());
            }
        }
        self.first = self.slots.len();
        Ok(())
    }

    /// Goes back to before the call, which was taken out again.
    pub(crate) fn unlifted(&mut self, call: usize) {
        let Some(row) = self.row_of(call) else {
            return;
        };
        let mut rank = 0;
        if let Some(puts) = self.puts.get_mut(row) {
            puts.pop();
            rank = puts.len();
            self.lifted = self.lifted.saturating_sub(1);
        }
        if let Some(places) = self.places.get(row) {
            if let Some(place) = places.get(rank) {
                self.first = self.first.min(*place);
            }
        }
    }

    /// When the call was called that is the first which may take what goes in next by the row; beyond all events, where there is none.
    pub(crate) fn next_taken(&self, row: usize) -> Option<u64> {
        let rank = self.puts.get(row)?.len();
        let called = self.called.get(row)?;
        Some(called.get(rank).copied().unwrap_or(BEYOND))
    }

    /// Why an enqueue of the row has to wait, where it has: by the first slot, or by this call, which found the queue empty and
    /// returned at the event.
    pub(crate) fn wait(&self, own: usize, empty: Option<(usize, u64)>) -> Option<Wait> {
        let by = self.next_taken(own)?;
        if let Some(slot) = self.slots.get(self.first) {
            if slot.event < by {
                return Some(Wait {
                    own,
                    event: slot.event,
                    reason: Reason::Taken(slot.row),
                });
            }
        }
        let (call, event) = empty?;
        if event < by {
            Some(Wait {
                own,
                event,
                reason: Reason::FoundEmpty(call),
            })
        } else {
            None
        }
    }

    /// The places of the row's enqueues that are lifted among all those of rows.
    pub(crate) fn puts(&self, row: usize) -> Option<&[usize]> {
        Some(self.puts.get(row)?.as_slice())
    }

    /// How many slots are before the event.
    pub(crate) fn slots_before(&self, event: u64) -> usize {
        self.slots.partition_point(|slot| slot.event < event)
    }

    // The place among the enqueues of what is out by the slot: of one more for each call of the row that is lifted and returns later.
    fn out_by(&self, slot: Slot, config: &Config<AnyObject>) -> Option<usize> {
        let places = self.places.get(slot.row)?;
        let mut rank = slot.rank;
        for later in 1..=LATER_IN_SIGHT {
            let Some(place) = places.get(slot.rank.saturating_add(later)) else {
                break;
            };
            if config.has(self.slots.get(*place)?.call) {
                rank = rank.saturating_add(1);
            }
        }
        self.puts.get(slot.row)?.get(rank).copied()
    }

    /// The row of a slot before the place, one of so many, by which what was put in at this place is out.
    pub(crate) fn row_out_before(
        &self,
        config: &Config<AnyObject>,
        before: usize,
        sight: usize,
        put: usize,
    ) -> Option<usize> {
        for count in 0..sight {
            let slot = *self.slots.get(before.checked_sub(count + 1)?)?;
            match self.out_by(slot, config) {
                Some(place) if place < put => {}
                _ => return Some(slot.row),
            }
        }
        None
    }
}
