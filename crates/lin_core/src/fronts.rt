//! Places among the calls of a selection from which on they may be enough: a call that begins anew, or a moment at which each item
//! of a queue or a stack was out. All of it is hints.

use crate::begins_anew::begins_anew;
use crate::item_times::return_of;
use crate::judge::Judge;
use crate::selection::Selection;
use indexmap::IndexMap;
use lin_effort::Decide;
use lin_history::{Problem, ProblemCall};
use lin_object::{AnyObject, ObjState, Op, Reply};
use std::alloc::{AllocError, Global};

// How many such places are tried, or calls looked at for one that begins anew: the last ones.
const MOST_FRONTS: usize = 256;

// Whether all of the calls before this place returned before the call there was called, and it returned before the next one was
// called.
fn parts_at(problem: &Problem<AnyObject>, calls: &[usize], place: usize) -> bool {
    let Some(first) = calls
        .get(place)
        .and_then(|index| problem.calls().get(*index))
    else {
        return false;
    };
    let is_before = |index: &usize| match problem.calls().get(*index) {
        Some(call) => return_of(call) < first.called,
        None => false,
    };
    let next = calls.get(place.saturating_add(1));
    let is_alone = match next.and_then(|index| problem.calls().get(*index)) {
        Some(next) => return_of(first) < next.called,
        None => true,
    };
    is_alone && calls.iter().take(place).all(is_before)
}

// The places of the last calls that begin anew behind all that came before them, in increasing order.
fn places_anew(
    alloc: Global,
    problem: &Problem<AnyObject>,
    selection: &Selection,
) -> Result<Vec<usize>, AllocError> {
    let calls = selection.calls.as_slice();
    let mut places = Vec::new(alloc);
    for place in calls.len().saturating_sub(MOST_FRONTS)..calls.len() {
        let call = calls
            .get(place)
            .and_then(|index| problem.calls().get(*index));
        let begins = call.is_some_and(|call| begins_anew(
            problem,
            selection.values.as_slice(),
            call,
        ));
        if place > 0 && begins && parts_at(problem, calls, place) {
            places.push(place)?;
        }
    }
    Ok(places)
}

// How many more calls put each item in than took it out.
#[derive(Drop)]
struct Inside {
    items: IndexMap<i64, i64>,
    // Of how many items that is another number than 0.
    uneven: usize,
}

impl Inside {
    // Counts one more of the item, or one less.
    fn count(&mut self, item: i64, change: i64) -> Result<(), AllocError> {
        let before = self.items.get(&item).copied().unwrap_or(0);
        let now = before.saturating_add(change);
        if before == 0 {
            self.uneven = self.uneven.saturating_add(1);
        }
        if now == 0 {
            self.uneven = self.uneven.saturating_sub(1);
        }
        self.items.insert(item, now)?;
        Ok(())
    }

    // Counts what the call put in or took out.
    fn count_call(&mut self, call: &ProblemCall<Op, Reply>) -> Result<(), AllocError> {
        match (&call.op, &call.returned) {
            (Op::Enqueue(item) | Op::Push(item), _) => self.count(*item, 1),
            (Op::Dequeue | Op::Pop, Some((_, Reply::Int(item)))) => self.count(*item, -1),
            _ => Ok(()),
        }
    }
}

// The places at which each item was out, in increasing order: all of the calls before returned before the call there was called,
// and as many of them put each item in as took it out.
fn places_once_out(
    alloc: Global,
    problem: &Problem<AnyObject>,
    calls: &[usize],
) -> Result<Vec<usize>, AllocError> {
    let mut inside = Inside {
        items: IndexMap::new(alloc),
        uneven: 0,
    };
    let mut returned = 0;
    let mut places = Vec::new(alloc);
    for place in 0..calls.len() {
        let Some(call) = problem.calls().get(calls[place]) else {
            break;
        };
        if place > 0 && inside.uneven == 0 && returned < call.called {
            places.push(place)?;
        }
        inside.count_call(call)?;
        returned = u32::max(returned, return_of(call));
    }
    Ok(places)
}

// The places from which on the calls of the selection may be enough, in increasing order.
fn fronts(
    alloc: Global,
    problem: &Problem<AnyObject>,
    selection: &Selection,
) -> Result<Vec<usize>, AllocError> {
    match problem.start() {
        ObjState::Queue(_) | ObjState::Stack(_) => {
            places_once_out(alloc, problem, selection.calls.as_slice())
        }
        _ => places_anew(alloc, problem, selection),
    }
}

/// The selection from its last such place on that leaves calls which have no linearization, if there is one.
pub(crate) fn from_front<D: Decide>(
    alloc: Global,
    problem: &Problem<AnyObject>,
    judge: &mut Judge<'_, '_, D>,
    selection: &Selection,
) -> Result<Option<Selection>, AllocError> {
    let places = fronts(alloc, problem, selection)?;
    for place in places.iter().rev().take(MOST_FRONTS) {
        if !judge.goes_on() {
            break;
        }
        let mut less = selection.copied(alloc)?;
        less.calls = selection.calls.iter().skip(*place).copied().collect(alloc)?;
        if judge.refutes_selection(alloc, &less)? {
            return Ok(Some(less));
        }
    }
    Ok(None)
}
