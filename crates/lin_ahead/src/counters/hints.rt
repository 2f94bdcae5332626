//! What a search of a counter goes by to find a `get` that leaves no room for an add, and which calls to count. All of it is a
//! hint.

use crate::counters::rows::{SumLimit, SumRows};
use crate::sum_tree::SumTree;
use lin_history::Problem;
use lin_object::{AnyObject, Op};
use std::alloc::{AllocError, Global};

// A call's part in this.
#[derive(Clone, Copy)]
struct Part {
    // Its place among the completed `get`s, if it is one.
    place: Option<usize>,
    // How many of them were called before it returned.
    reach: usize,
    // The first call that returned after this one was called; where none did, the number of all calls.
    from: usize,
    // What it adds.
    adds: i64,
    is_pending: bool,
}

/// The room that each completed `get` has left, in the order of their calls, and the pending adds that are lifted.
#[derive(Drop)]
pub(crate) struct SumHints {
    parts: Vec<Part>,
    gets: Vec<usize>,
    up: SumTree,
    down: SumTree,
    // The pending calls that are lifted and add something, in the order of their numbers.
    pending: Vec<usize>,
    // Behind each call that was ever lifted.
    reached: usize,
}

// What the operation adds.
fn added_by(op: &Op) -> i64 {
    match op {
        Op::Add(difference) => *difference,
        _ => 0,
    }
}

// The completed `get`s, in the order of their calls.
fn bounded(alloc: Global, row: &[Option<SumLimit>]) -> Result<Vec<usize>, AllocError> {
    let mut gets = Vec::new(alloc);
    for call in 0..row.len() {
        if row[call].is_some() {
            gets.push(call)?;
        }
    }
    Ok(gets)
}

// The room that each of the `get`s leaves.
fn rooms(alloc: Global, row: &[Option<SumLimit>], gets: &[usize]) -> Result<Vec<i64>, AllocError> {
    let mut rooms = Vec::with_capacity(alloc, gets.len())?;
    for get in gets {
        let room = match row.get(*get) {
            Some(Some(limit)) => limit.most.saturating_sub(limit.least).min(1 << 60) as i64,
            _ => 0,
        };
        rooms.push(room)?;
    }
    Ok(rooms)
}

// When the call returned; beyond all events where it did not.
fn returned_at(problem: &Problem<AnyObject>, call: usize) -> u64 {
    match problem.calls().get(call) {
        Some(made) => match &made.returned {
            Some((number, _)) => u64::from(*number),
            None => u64::MAX,
        },
        None => u64::MAX,
    }
}

// How many of the `get`s were called before the event.
fn called_before(problem: &Problem<AnyObject>, gets: &[usize], event: u64) -> usize {
    let calls = problem.calls();
    gets.partition_point(|get| match calls.get(*get) {
        Some(made) => u64::from(made.called) < event,
        None => false,
    })
}

// The first completed call from this one on that returned after the event.
fn first_after(problem: &Problem<AnyObject>, from: usize, event: u64) -> usize {
    let calls = problem.calls();
    for call in from..calls.len() {
        let returned = returned_at(problem, call);
        if event < returned && returned < u64::MAX {
            return call;
        }
    }
    calls.len()
}

// The part of each call.
fn parts(
    alloc: Global,
    problem: &Problem<AnyObject>,
    gets: &[usize],
) -> Result<Vec<Part>, AllocError> {
    let calls = problem.calls();
    let mut parts = Vec::with_capacity(alloc, calls.len())?;
    let mut from = 0;
    for call in 0..calls.len() {
        from = first_after(problem, from, u64::from(calls[call].called));
        let returned = returned_at(problem, call);
        parts.push(Part {
            place: None,
            reach: called_before(problem, gets, returned),
            from,
            adds: added_by(&calls[call].op),
            is_pending: returned == u64::MAX,
        })?;
    }
    for place in 0..gets.len() {
        if let Some(part) = parts.get_mut(gets[place]) {
            part.place = Some(place);
        }
    }
    Ok(parts)
}

impl SumHints {
    // Those of a problem none of whose calls is lifted.
    pub(crate) fn new(
        alloc: Global,
        problem: &Problem<AnyObject>,
        rows: &SumRows,
    ) -> Result<Self, AllocError> {
        let gets = bounded(alloc, rows.up.as_slice())?;
        let up = rooms(alloc, rows.up.as_slice(), gets.as_slice())?;
        let down = rooms(alloc, rows.down.as_slice(), gets.as_slice())?;
        let parts = if gets.is_empty() {
            Vec::new(alloc)
        } else {
            parts(alloc, problem, gets.as_slice())?
        };
        Ok(SumHints {
            parts,
            up: SumTree::new(alloc, up.as_slice())?,
            down: SumTree::new(alloc, down.as_slice())?,
            gets,
            pending: Vec::with_capacity(alloc, problem.len())?,
            reached: 0,
        })
    }

    // Whether the call adds upwards, and a completed `get` that may be too low for it.
    pub(crate) fn narrow(&self, call: usize) -> Option<(bool, usize)> {
        let part = self.parts.get(call)?;
        if part.adds == 0 {
            return None;
        }
        let up = part.adds > 0;
        let place = if up {
            self.up.narrow(part.reach, part.adds)?
        } else {
            self.down.narrow(part.reach, part.adds.wrapping_neg())?
        };
        Some((up, *self.gets.get(place)?))
    }

    // The pending calls that are lifted.
    pub(crate) fn pending(&self) -> &[usize] {
        self.pending.as_slice()
    }

    // The first call that is to be counted for the `get`.
    pub(crate) fn from(&self, get: usize) -> usize {
        match self.parts.get(get) {
            Some(part) => part.from,
            None => 0,
        }
    }

    // Behind the last call that is to be counted.
    pub(crate) fn to(&self) -> usize {
        self.reached
    }

    // Takes the part of the call out of the room, or puts it back.
    fn count(&mut self, part: Part, is_lifted: bool) {
        if let Some(place) = part.place {
            self.up.set(place, !is_lifted);
            self.down.set(place, !is_lifted);
        }
        if part.adds == 0 {
            return;
        }
        let room = if (part.adds > 0) == is_lifted {
            part.adds.wrapping_neg()
        } else {
            part.adds
        };
        if part.adds > 0 {
            self.up.add(part.reach, room);
        } else {
            self.down.add(part.reach, room);
        }
    }

    // Goes on after the call, which is lifted now.
    pub(crate) fn lifted(&mut self, call: usize) -> Result<(), AllocError> {
        let Some(part) = self.parts.get(call).copied() else {
            return Ok(());
        };
        self.count(part, true);
        self.reached = self.reached.max(call.saturating_add(1));
        if part.is_pending && part.adds != 0 {
            let place = self.pending.partition_point(|other| *other < call);
            self.pending.insert(place, call)?;
        }
        Ok(())
    }

    // Goes back to before the call, which was taken out again.
    pub(crate) fn unlifted(&mut self, call: usize) {
        let Some(part) = self.parts.get(call).copied() else {
            return;
        };
        self.count(part, false);
        if part.is_pending && part.adds != 0 {
            let place = self.pending.partition_point(|other| *other < call);
            if place < self.pending.len() {
                self.pending.remove(place);
            }
        }
    }
}
