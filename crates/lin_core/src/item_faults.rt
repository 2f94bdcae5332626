//! Values on which the calls of a queue or a stack may have no linearization, by the faults that such objects have in practice. All of
//! it is hints.

use crate::call_index::CallIndex;
use crate::greatest::Greatest;
use crate::item_times::{ItemTimes, NEVER, times_of_empties, times_of_items};
use crate::spans::{Span, Spans};
use lin_history::Problem;
use lin_object::AnyObject;
use std::alloc::{AllocError, Global};

// How many times each fault is told: the first ones of some hundred thousand are as good as all.
pub(crate) const MOST: usize = 4;

// How many pending calls may take an item where it is asked whether they are too few.
const MOST_TAKERS: usize = 8;

// The items whose puts returned, in the order of these returns.
fn put_in_turn(alloc: Global, all: &[ItemTimes]) -> Result<Vec<ItemTimes>, AllocError> {
    let mut put: Vec<ItemTimes> = all
        .iter()
        .filter(|times| times.put_returned < NEVER)
        .copied()
        .collect(alloc)?;
    put.sort_by_key(|times| times.put_returned)?;
    Ok(put)
}

// When each of the items was surely there: at these times more of it were put than could be taken.
fn spans_of(alloc: Global, put: &[ItemTimes]) -> Result<Spans, AllocError> {
    let spans = put.iter().map(|times| Span {
        from: times.put_returned,
        until: times.take_called,
        name: times.item,
    });
    Spans::new(alloc, spans.collect(alloc)?)
}

// A list with these values.
pub(crate) fn list_of(alloc: Global, values: &[i64]) -> Result<Vec<i64>, AllocError> {
    Vec::from_slice(alloc, values)
}

// Items of which at some time more were taken than put.
fn taken_in_vain(
    alloc: Global,
    all: &[ItemTimes],
    found: &mut Vec<Vec<i64>>,
) -> Result<(), AllocError> {
    for times in all.iter().filter(|times| times.is_in_vain()).take(MOST) {
        found.push(list_of(alloc, &[times.item])?)?;
    }
    Ok(())
}

// Items of which one always lay there while a call found none.
fn there_when_empty(
    alloc: Global,
    spans: &Spans,
    empties: &[(u32, u32)],
    found: &mut Vec<Vec<i64>>,
) -> Result<(), AllocError> {
    let most = found.len().saturating_add(MOST);
    let reach = spans.reach(alloc)?;
    for (called, returned) in empties {
        if found.len() >= most {
            break;
        }
        if let Some(chain) = spans.cover(alloc, reach.as_slice(), *called, *returned)? {
            found.push(chain)?;
        }
    }
    Ok(())
}

// Two items that went into a queue in one order and came out in the other.
fn crossed(
    alloc: Global,
    spans: &Spans,
    all: &[ItemTimes],
    found: &mut Vec<Vec<i64>>,
) -> Result<(), AllocError> {
    let most = found.len().saturating_add(MOST);
    for times in all {
        if found.len() >= most {
            break;
        }
        match spans.last_before(times.put_called) {
            Some(early) if times.take_returned < early.until => {
                found.push(list_of(alloc, &[early.name, times.item])?)?;
            }
            _ => {}
        }
    }
    Ok(())
}

// Two items of a stack, each put once, of which the lower one was popped first.
fn popped_from_under(
    alloc: Global,
    put: &[ItemTimes],
    found: &mut Vec<Vec<i64>>,
) -> Result<(), AllocError> {
    let most = found.len().saturating_add(MOST);
    let singles: Vec<ItemTimes> = put
        .iter()
        .filter(|times| times.is_single())
        .copied()
        .collect(alloc)?;
    let mut lower: Vec<ItemTimes> = singles
        .iter()
        .filter(|times| times.take_returned < NEVER)
        .copied()
        .collect(alloc)?;
    lower.sort_by_key(|times| times.take_called)?;
    let calls: Vec<u32> = singles.iter().map(|times| times.put_called).collect(alloc)?;
    let mut above = Greatest::new(alloc, calls)?;
    let mut upper = singles.iter();
    let mut next = upper.next();
    for times in &lower {
        for _ in 0..singles.len() {
            match next {
                Some(one) if one.put_returned < times.take_called => {
                    above.note(one.put_called, one.take_called, one.item);
                    next = upper.next();
                }
                _ => break,
            }
        }
        match above.greatest_above(times.put_returned) {
            Some((taken, item)) if times.take_returned < taken && found.len() < most => {
                found.push(list_of(alloc, &[times.item, item])?)?;
            }
            _ => {}
        }
    }
    Ok(())
}

// Items that no call took, one more than there are pending calls that may take one; and the same with an item that was put into a
// queue behind them and taken, or into a stack below them.
fn lost(
    alloc: Global,
    put: &[ItemTimes],
    takers: usize,
    is_queue: bool,
    found: &mut Vec<Vec<i64>>,
) -> Result<(), AllocError> {
    if takers == 0 || takers > MOST_TAKERS {
        return Ok(());
    }
    let left: Vec<ItemTimes> = put
        .iter()
        .filter(|times| times.take_returned == NEVER)
        .take(takers.saturating_add(1))
        .copied()
        .collect(alloc)?;
    if left.len() <= takers {
        return Ok(());
    }
    let items: Vec<i64> = left.iter().map(|times| times.item).collect(alloc)?;
    let last = left
        .iter()
        .map(|times| times.put_returned)
        .max()
        .unwrap_or(NEVER);
    let first = left
        .iter()
        .map(|times| times.put_called)
        .min()
        .unwrap_or(NEVER);
    let other = put.iter().find(|times| {
        if is_queue {
            last < times.put_called && times.take_returned < NEVER
        } else {
            times.put_returned < first && last < times.take_called && times.take_returned < NEVER
        }
    });
    if let Some(other) = other {
        let mut more = list_of(alloc, items.as_slice())?;
        more.push(other.item)?;
        found.push(more)?;
    }
    found.push(items)?;
    Ok(())
}

// How many pending calls may take any item.
fn count_takers(problem: &Problem<AnyObject>, index: &CallIndex) -> usize {
    let is_pending = |call: &&usize| match problem.calls().get(**call) {
        Some(call) => call.returned.is_none(),
        None => false,
    };
    index.anywhere.iter().filter(is_pending).count()
}

/// Lists of items: of each list the calls may have no linearization. It takes O(n log n) for n calls.
pub(crate) fn item_faults(
    alloc: Global,
    problem: &Problem<AnyObject>,
    index: &CallIndex,
    is_queue: bool,
) -> Result<Vec<Vec<i64>>, AllocError> {
    let mut found = Vec::new(alloc);
    let all = times_of_items(alloc, problem, index)?;
    let empties = times_of_empties(alloc, problem, index)?;
    let put = put_in_turn(alloc, all.as_slice())?;
    let spans = spans_of(alloc, put.as_slice())?;
    taken_in_vain(alloc, all.as_slice(), &mut found)?;
    there_when_empty(alloc, &spans, empties.as_slice(), &mut found)?;
    if is_queue {
        crossed(alloc, &spans, all.as_slice(), &mut found)?;
    } else {
        popped_from_under(alloc, put.as_slice(), &mut found)?;
    }
    lost(
        alloc,
        put.as_slice(),
        count_takers(problem, index),
        is_queue,
        &mut found,
    )?;
    Ok(found)
}
