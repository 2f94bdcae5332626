//! What a search goes by to find calls that put an item in too late: which of those calls and of the empty answers are left, and
//! how far chains lead. All of it is a hint.

use crate::first::calls_in_turn::CallsInTurn;
use crate::items::item_calls::BEYOND;
use crate::items::late_pushes::{LateRows, popped_from};
use crate::kept::kept;
use lin_history::Problem;
use lin_object::SeqObject;
use lin_search::Config;
use std::alloc::{AllocError, Global};

/// The calls that put items in and the empty answers, by their returns.
#[derive(Drop)]
pub(crate) struct LateHints {
    putters: CallsInTurn,
    empties: CallsInTurn,
    // How far chains lead from each call, whatever is lifted. Empty where that is not known.
    ends: Vec<u64>,
}

// A call, and when it returned.
#[derive(Clone, Copy, Drop)]
struct Returned {
    event: u64,
    call: usize,
}

/// When the call returned; beyond all events where it did not.
pub(crate) fn returned_at<O: SeqObject>(problem: &Problem<O>, call: usize) -> u64 {
    if call >= problem.len() {
        return BEYOND;
    }
    match &problem.call(call).returned {
        Some((number, _)) => u64::from(*number),
        None => BEYOND,
    }
}

// The completed calls with a flag, in the order of their returns.
fn by_returns<O: SeqObject>(
    alloc: Global,
    problem: &Problem<O>,
    flags: &[bool],
) -> Result<Vec<Returned>, AllocError> {
    let mut returned = Vec::new(alloc);
    for call in 0..flags.len() {
        let event = returned_at(problem, call);
        if flags[call] && event < BEYOND {
            returned.push(Returned { event, call })?;
        }
    }
    returned.sort_by_key(|one| one.event)?;
    Ok(returned)
}

// These calls in turn, of so many.
fn in_turn(alloc: Global, returned: &[Returned], calls: usize) -> Result<CallsInTurn, AllocError> {
    let mut order = Vec::with_capacity(alloc, returned.len())?;
    for one in returned {
        order.push(kept(one.call))?;
    }
    CallsInTurn::new(alloc, order, calls)
}

/// For each call whether it puts an item in.
pub(crate) fn putter_flags(alloc: Global, late: &LateRows) -> Result<Vec<bool>, AllocError> {
    let mut flags = Vec::with_capacity(alloc, late.from.len())?;
    for from in &late.from {
        flags.push(0 < *from)?;
    }
    Ok(flags)
}

// How many of the calls returned before the event.
fn returned_before(returned: &[Returned], event: u64) -> usize {
    returned.partition_point(|one| one.event < event)
}

// How far chains lead that go on by the first calls, of so many of these each, at first by one call of them.
fn ends_by_first(
    alloc: Global,
    late: &LateRows,
    returned: &[Returned],
) -> Result<Vec<u64>, AllocError> {
    let mut ends = Vec::with_capacity(alloc, returned.len().saturating_add(1))?;
    let mut greatest = 0;
    ends.push(greatest)?;
    for one in returned {
        greatest = u64::max(greatest, popped_from(late, one.call));
        ends.push(greatest)?;
    }
    for count in (0..ends.len()).rev() {
        let end = ends.get(count).copied().unwrap_or(0);
        let more = returned_before(returned, end);
        if count < more {
            let end = ends.get(more).copied().unwrap_or(BEYOND);
            if let Some(slot) = ends.get_mut(count) {
                *slot = end;
            }
        }
    }
    Ok(ends)
}

// How far chains lead from each call.
fn ends_of(alloc: Global, late: &LateRows, returned: &[Returned]) -> Result<Vec<u64>, AllocError> {
    let by_first = ends_by_first(alloc, late, returned)?;
    let mut ends = Vec::with_capacity(alloc, late.from.len())?;
    for from in &late.from {
        let count = returned_before(returned, *from);
        let end = by_first.get(count).copied().unwrap_or(BEYOND);
        ends.push(u64::max(*from, end))?;
    }
    Ok(ends)
}

impl LateHints {
    // Those of a problem with nothing by which a call could be too late.
    fn none(alloc: Global) -> Result<Self, AllocError> {
        Ok(LateHints {
            putters: CallsInTurn::new(alloc, Vec::new(alloc), 0)?,
            empties: CallsInTurn::new(alloc, Vec::new(alloc), 0)?,
            ends: Vec::new(alloc),
        })
    }

    // Those of a problem none of whose calls is lifted.
    pub(crate) fn new<O: SeqObject>(
        alloc: Global,
        problem: &Problem<O>,
        late: &LateRows,
    ) -> Result<Self, AllocError> {
        let calls = late.from.len();
        let empties = by_returns(alloc, problem, late.found_empty.as_slice())?;
        if empties.is_empty() && late.poppers.is_empty() {
            return LateHints::none(alloc);
        }
        let flags = putter_flags(alloc, late)?;
        let putters = by_returns(alloc, problem, flags.as_slice())?;
        Ok(LateHints {
            ends: ends_of(alloc, late, putters.as_slice())?,
            putters: in_turn(alloc, putters.as_slice(), calls)?,
            empties: in_turn(alloc, empties.as_slice(), calls)?,
        })
    }

    // The first call that found none and is not lifted.
    pub(crate) fn first_empty(&self) -> Option<usize> {
        self.empties.ahead(0)
    }

    // The completed call that puts an item in and is so many behind the first that is not lifted.
    pub(crate) fn putter_ahead(&self, count: usize) -> Option<usize> {
        self.putters.ahead(count)
    }

    // How far chains lead from the call at most.
    pub(crate) fn end(&self, call: usize) -> u64 {
        self.ends.get(call).copied().unwrap_or(BEYOND)
    }

    // Goes on to the configuration, which has a call more.
    pub(crate) fn lifted<O: SeqObject>(&mut self, config: &Config<O>) {
        self.putters.lifted(config);
        self.empties.lifted(config);
    }

    // Goes back to before the call, which was taken out again.
    pub(crate) fn unlifted(&mut self, call: usize) {
        self.putters.unlifted(call);
        self.empties.unlifted(call);
    }
}
