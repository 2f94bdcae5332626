//! Windows of a few calls that may have no linearization, whatever the object held before them: around gaps. All of it is hints.

use crate::call_index::CallIndex;
use crate::call_places::{is_idle, source_of};
use crate::gaps::{Gap, add_gaps};
use crate::held::{held_calls, values_in};
use crate::item_times::{NEVER, return_of};
use crate::selection::{Later, MapKey, Selection};
use crate::windows::{Window, may_go_in};
use lin_history::{Problem, ProblemCall};
use lin_object::{AnyObject, ObjState, Op, Reply};
use std::alloc::{AllocError, Global};

// How many gaps are looked at, the shortest ones, and how many windows are tried, those with the fewest calls.
const MOST_GAPS: usize = 32;

const MOST_WINDOWS: usize = 16;

// How many calls a window may have.
const MOST_CALLS: usize = 8;

// How often the values that calls of `cas` expect are added.
const MOST_SOURCES: usize = 4;

// A gap between calls on one key or item, of this place among all.
#[derive(Clone, Copy)]
struct PlacedGap {
    gap: Gap,
    place: usize,
}

// The calls on each key of a map or each item of a set, or all of another object.
fn groups_of(
    alloc: Global,
    problem: &Problem<AnyObject>,
    index: &CallIndex,
) -> Result<Vec<Vec<usize>>, AllocError> {
    let mut groups = Vec::new(alloc);
    match problem.start() {
        ObjState::Map(_) | ObjState::Set(_) => {
            for on_value in &index.values {
                groups.push(Vec::from_slice(alloc, on_value.calls.as_slice())?)?;
            }
        }
        ObjState::Register(_) | ObjState::Mutex(_) => {
            groups.push((0..problem.len()).collect(alloc)?)?;
        }
        _ => {}
    }
    Ok(groups)
}

// The gaps of a group of calls.
fn gaps_of_group(
    alloc: Global,
    problem: &Problem<AnyObject>,
    calls: &[usize],
) -> Result<Vec<Gap>, AllocError> {
    let mut gaps = Vec::new(alloc);
    let told = held_calls(alloc, problem, calls, true)?;
    add_gaps(alloc, told.as_slice(), &mut gaps)?;
    if let ObjState::Map(_) = problem.start() {
        let told = held_calls(alloc, problem, calls, false)?;
        add_gaps(alloc, told.as_slice(), &mut gaps)?;
    }
    Ok(gaps)
}

/// When the first of all calls returned.
pub(crate) fn first_return(problem: &Problem<AnyObject>) -> u32 {
    let mut first = NEVER;
    for call in problem.calls() {
        first = u32::min(first, return_of(call));
    }
    first
}

// The shortest gaps of the groups.
fn shortest_gaps(
    alloc: Global,
    problem: &Problem<AnyObject>,
    groups: &[Vec<usize>],
) -> Result<Vec<PlacedGap>, AllocError> {
    let mut all = Vec::new(alloc);
    for place in 0..groups.len() {
        for gap in gaps_of_group(alloc, problem, groups[place].as_slice())? {
            all.push(PlacedGap { gap, place })?;
        }
    }
    all.sort_by_key(|one| one.gap.size())?;
    all.truncate(MOST_GAPS);
    Ok(all)
}

// The key of a map that the operation is on, or the item of a set.
fn key_of(op: &Op) -> Option<i64> {
    match op {
        Op::Put(key, _) | Op::Lookup(key) | Op::Delete(key) => Some(*key),
        Op::Insert(item) | Op::Remove(item) | Op::Contains(item) => Some(*item),
        _ => None,
    }
}

// Whether the call on a key tells of more than its values.
fn tells_of_nothing(call: &ProblemCall<Op, Reply>) -> bool {
    matches!(call.op, Op::Delete(_)) || matches!(call.returned, Some((_, Reply::Empty)))
}

// The calls of a gap, in increasing order.
fn calls_of(alloc: Global, gap: &Gap) -> Result<Vec<usize>, AllocError> {
    let mut calls = Vec::new(alloc);
    calls.push(gap.first)?;
    calls.push(gap.second)?;
    if let Some(helper) = gap.helper {
        calls.push(helper)?;
    }
    calls.sort_unstable();
    calls.dedup();
    Ok(calls)
}

// What is looked at of a map: the values of the key that these calls are on, or all that it has.
fn map_key_of(problem: &Problem<AnyObject>, calls: &[usize]) -> Option<MapKey> {
    let ObjState::Map(_) = problem.start() else {
        return None;
    };
    let first = problem.calls().get(*calls.first()?)?;
    let nothing = calls.iter().any(|index| match problem.calls().get(*index) {
        Some(call) => tells_of_nothing(call),
        None => false,
    });
    Some(MapKey {
        key: key_of(&first.op)?,
        nothing,
        later: None,
    })
}

// The values that these calls are on.
fn values_of(
    alloc: Global,
    problem: &Problem<AnyObject>,
    calls: &[usize],
) -> Result<Vec<i64>, AllocError> {
    let ObjState::Set(_) = problem.start() else {
        return values_in(alloc, problem, calls, true);
    };
    let mut values = Vec::new(alloc);
    let first = calls.first().and_then(|index| problem.calls().get(*index));
    if let Some(item) = first.and_then(|call| key_of(&call.op)) {
        values.push(item)?;
    }
    Ok(values)
}

// Whether the call counts in a window from the one event to the other: it was called by then, and had not returned before.
fn is_within(from: u32, until: u32, call: &ProblemCall<Op, Reply>) -> bool {
    call.called <= until && return_of(call) >= from
}

// A value that a `cas` on these values expects and that is none of them.
fn next_source(
    problem: &Problem<AnyObject>,
    calls: &[usize],
    gap: &Gap,
    values: &[i64],
) -> Option<i64> {
    for index in calls {
        let Some(call) = problem.calls().get(*index) else {
            continue;
        };
        if let (Op::Cas(_, to), Some(source)) = (&call.op, source_of(call)) {
            let is_needed = values.contains(to) && !values.contains(&source);
            if is_needed && is_within(gap.from, gap.until, call) {
                return Some(source);
            }
        }
    }
    None
}

// Appends to the window the calls of a group that it has: those that are needed, and others that may not be left out. Whether these
// are not too many.
fn add_calls_within(
    problem: &Problem<AnyObject>,
    group: &[usize],
    needed: &[usize],
    window: &mut Window,
) -> Result<bool, AllocError> {
    for index in group {
        let Some(call) = problem.calls().get(*index) else {
            continue;
        };
        let counts = is_within(window.from, window.event, call)
            && !may_go_in(&window.key, window.values.as_slice(), call);
        if counts || needed.contains(index) {
            window.calls.push(*index)?;
        }
        if window.calls.len() > MOST_CALLS {
            return Ok(false);
        }
    }
    Ok(true)
}

// The window around a gap between calls of this group, if it has few calls.
fn window_around(
    alloc: Global,
    problem: &Problem<AnyObject>,
    group: &[usize],
    gap: &Gap,
) -> Result<Option<Window>, AllocError> {
    let needed = calls_of(alloc, gap)?;
    let mut values = values_of(alloc, problem, needed.as_slice())?;
    if let ObjState::Register(_) = problem.start() {
        for _ in 0..MOST_SOURCES {
            if let Some(source) = next_source(problem, group, gap, values.as_slice()) {
                values.push(source)?;
            }
        }
        values.sort_unstable();
    }
    let mut window = Window {
        from: gap.from,
        event: gap.until,
        key: map_key_of(problem, needed.as_slice()),
        values,
        calls: Vec::new(alloc),
    };
    if add_calls_within(problem, group, needed.as_slice(), &mut window)? {
        Ok(Some(window))
    } else {
        Ok(None)
    }
}

// The value that the call puts at a key of a map, if it is a put.
fn put_by(problem: &Problem<AnyObject>, call: usize) -> Option<i64> {
    match problem.calls().get(call)?.op {
        Op::Put(_, value) => Some(value),
        _ => None,
    }
}

// Whether the call is a get that was called after the event and found the value.
fn found_after(call: &ProblemCall<Op, Reply>, event: u32, value: i64) -> bool {
    matches!(call.op, Op::Lookup(_))
        && call.called > event
        && matches!(call.returned, Some((_, Reply::Int(found))) if found == value)
}

// The first get of a group that was called after the event and found the value.
fn first_get_after(
    problem: &Problem<AnyObject>,
    group: &[usize],
    event: u32,
    value: i64,
) -> Option<usize> {
    let is_the_get = |index: &&usize| match problem.calls().get(**index) {
        Some(call) => found_after(call, event, value),
        None => false,
    };
    group.iter().find(is_the_get).copied()
}

// The window around a gap of a key of a map and a get that found later what a put gives that is open meanwhile, if it has few calls. The
// put comes between the calls of the gap, or else last: after these calls only its value counts.
fn window_to_get(
    alloc: Global,
    problem: &Problem<AnyObject>,
    group: &[usize],
    gap: &Gap,
) -> Result<Option<Window>, AllocError> {
    let Some(value) = gap.helper.and_then(|helper| put_by(problem, helper)) else {
        return Ok(None);
    };
    let Some(get) = first_get_after(problem, group, gap.until, value) else {
        return Ok(None);
    };
    let Some(call) = problem.calls().get(get) else {
        return Ok(None);
    };
    let mut needed = calls_of(alloc, gap)?;
    needed.push(get)?;
    let later = Later {
        event: gap.until,
        value,
    };
    let key = key_of(&call.op).map(|key| MapKey {
        key,
        nothing: true,
        later: Some(later),
    });
    let mut window = Window {
        from: gap.from,
        event: return_of(call),
        key,
        values: values_of(alloc, problem, needed.as_slice())?,
        calls: Vec::new(alloc),
    };
    if add_calls_within(problem, group, needed.as_slice(), &mut window)? {
        Ok(Some(window))
    } else {
        Ok(None)
    }
}

// The last return of these calls up to the event.
fn last_return(problem: &Problem<AnyObject>, calls: &[usize], event: u32) -> u32 {
    let mut last = 0;
    for index in calls {
        if let Some(call) = problem.calls().get(*index) {
            if return_of(call) <= event {
                last = u32::max(last, return_of(call));
            }
        }
    }
    last
}

// The window without one of its calls.
fn without_call(
    alloc: Global,
    problem: &Problem<AnyObject>,
    window: &Window,
    call: usize,
) -> Result<Window, AllocError> {
    let calls: Vec<usize> = window
        .calls
        .iter()
        .filter(|other| **other != call)
        .copied()
        .collect(alloc)?;
    Ok(Window {
        from: window.from,
        event: last_return(problem, calls.as_slice(), window.event),
        key: window.key,
        values: values_of(alloc, problem, calls.as_slice())?,
        calls,
    })
}

// Appends the window, and of one with more than two calls those without one that changes nothing.
fn add_window(
    alloc: Global,
    problem: &Problem<AnyObject>,
    windows: &mut Vec<Window>,
    window: Window,
) -> Result<(), AllocError> {
    if window.calls.len() > 2 {
        for index in &window.calls {
            if problem.calls().get(*index).is_some_and(is_idle) {
                windows.push(without_call(alloc, problem, &window, *index)?)?;
            }
        }
    }
    windows.push(window)?;
    Ok(())
}

// Orders windows by how many calls they have, and then by their last events.
fn order_of(window: &Window) -> u64 {
    let calls = window.calls.len() as u64;
    calls
        .saturating_mul(1 << 32)
        .saturating_add(u64::from(window.event))
}

/// Windows of a few calls that may have no linearization, those with the fewest calls first, and of those the ones that end first. It
/// takes O(n log n) for n calls.
pub(crate) fn windows_around_gaps(
    alloc: Global,
    problem: &Problem<AnyObject>,
    index: &CallIndex,
) -> Result<Vec<Window>, AllocError> {
    let groups = groups_of(alloc, problem, index)?;
    let mut windows = Vec::new(alloc);
    for one in shortest_gaps(alloc, problem, groups.as_slice())? {
        if let Some(group) = groups.get(one.place) {
            if let Some(window) = window_around(alloc, problem, group.as_slice(), &one.gap)? {
                add_window(alloc, problem, &mut windows, window)?;
            }
            if let Some(window) = window_to_get(alloc, problem, group.as_slice(), &one.gap)? {
                windows.push(window)?;
            }
        }
    }
    windows.sort_by_key(order_of)?;
    windows.truncate(MOST_WINDOWS);
    Ok(windows)
}

// The same calls from the start on, as they stood at the end of the window.
fn selection_of(alloc: Global, window: &Window) -> Result<Selection, AllocError> {
    let calls = Vec::from_slice(alloc, window.calls.as_slice())?;
    let mut values = Vec::new(alloc);
    match &window.key {
        Some(at) => values.push(at.key)?,
        None => values.extend_from_slice(window.values.as_slice())?,
    }
    Ok(Selection::new(alloc, window.event, None, values, calls))
}

/// The calls of these windows from the start on: they may be enough where the first begins anew.
pub(crate) fn selections_of(
    alloc: Global,
    windows: &[Window],
) -> Result<Vec<Selection>, AllocError> {
    let mut selections = Vec::with_capacity(alloc, windows.len())?;
    for window in windows {
        selections.push(selection_of(alloc, window)?)?;
    }
    Ok(selections)
}
