//! Selections with fewer calls, as long as a search shows that they have no linearization: without some values, without calls
//! that change nothing, without rounds of a mutex, and cut at an earlier event.

use crate::call_index::CallIndex;
use crate::call_places::{Place, is_idle, place_of, source_of};
use crate::judge::Judge;
use crate::next_calls::NextCalls;
use crate::refused_tries::is_refused;
use crate::selection::{MapKey, Selection};
use lin_effort::Decide;
use lin_history::{Problem, ProblemCall};
use lin_object::{AnyObject, Op, Reply};
use std::alloc::{AllocError, Global};

// How often all ways are tried, and how often a number below 2^32 can be halved.
const TURNS: usize = 4;

const HALVINGS: usize = 32;

// What is left out of a selection.
#[derive(Clone, Copy)]
enum Way {
    // Values, with the calls on them.
    Values,
    // Calls that change nothing.
    IdleCalls,
    // Rounds of a mutex.
    Rounds,
}

// What becomes of a call of a selection whose values become fewer.
#[derive(Clone, Copy)]
enum Fate {
    Stays,
    Goes,
    // It may neither stay nor go.
    Forbids,
}

// Whether the value is in the list, which is in increasing order.
fn has_value(values: &[i64], value: i64) -> bool {
    values.binary_search(&value).is_ok()
}

// What becomes of a call whose values become these.
fn fate_of(key: &Option<MapKey>, values: &[i64], call: &ProblemCall<Op, Reply>) -> Fate {
    let is_on = match place_of(key, call) {
        Place::At(value) => has_value(values, value),
        Place::Anywhere => true,
        Place::Nowhere => false,
    };
    match source_of(call) {
        _ if !is_on => Fate::Goes,
        Some(source) if !has_value(values, source) => Fate::Forbids,
        _ => Fate::Stays,
    }
}

// Those of the calls that stay with these values. `None` where one may neither stay nor go.
fn calls_with_values(
    alloc: Global,
    problem: &Problem<AnyObject>,
    selection: &Selection,
    values: &[i64],
) -> Result<Option<Vec<usize>>, AllocError> {
    let mut stay = Vec::new(alloc);
    for index in &selection.calls {
        let Some(call) = problem.calls().get(*index) else {
            return Ok(None);
        };
        match fate_of(&selection.key, values, call) {
            Fate::Stays => stay.push(*index)?,
            Fate::Goes => {}
            Fate::Forbids => return Ok(None),
        }
    }
    Ok(Some(stay))
}

// The list without these of its members: so many from a place on.
fn without_values(
    alloc: Global,
    values: &[i64],
    from: usize,
    count: usize,
) -> Result<Vec<i64>, AllocError> {
    let mut left = Vec::with_capacity(alloc, values.len())?;
    for i in 0..values.len() {
        if i < from || i - from >= count {
            left.push(values[i])?;
        }
    }
    Ok(left)
}

// The selection without these of its values.
fn with_fewer_values(
    alloc: Global,
    problem: &Problem<AnyObject>,
    selection: &Selection,
    from: usize,
    count: usize,
) -> Result<Option<Selection>, AllocError> {
    let values = without_values(alloc, selection.values.as_slice(), from, count)?;
    let Some(calls) = calls_with_values(alloc, problem, selection, values.as_slice())? else {
        return Ok(None);
    };
    let mut less = selection.copied(alloc)?;
    less.values = values;
    less.calls = calls;
    Ok(Some(less))
}

// The calls of the selection that may be left out one by one, or with which such a round begins.
fn removable(
    alloc: Global,
    next: &NextCalls<'_>,
    selection: &Selection,
    way: Way,
) -> Result<Vec<usize>, AllocError> {
    let mut found = Vec::new(alloc);
    for index in &selection.calls {
        let Some(call) = next.problem().calls().get(*index) else {
            continue;
        };
        let may_go = match way {
            Way::Values => false,
            Way::IdleCalls => is_idle(call),
            Way::Rounds => next.round_from(*index).is_some(),
        };
        if may_go {
            found.push(*index)?;
        }
    }
    Ok(found)
}

// Those of the calls that are not in the list, which is in increasing order.
fn without_calls(alloc: Global, calls: &[usize], gone: &[usize]) -> Result<Vec<usize>, AllocError> {
    let mut left = Vec::with_capacity(alloc, calls.len())?;
    for call in calls {
        if gone.binary_search(call).is_err() {
            left.push(*call)?;
        }
    }
    Ok(left)
}

/// The selection without the rounds that begin with these calls.
pub(crate) fn without_rounds(
    alloc: Global,
    next: &NextCalls<'_>,
    selection: &Selection,
    first_calls: &[usize],
) -> Result<Selection, AllocError> {
    let mut less = selection.copied(alloc)?;
    let mut gone = Vec::new(alloc);
    for first in first_calls {
        if let Some(last) = next.round_from(*first) {
            gone.push(*first)?;
            gone.push(last)?;
            less.firsts.push(*first)?;
            less.lasts.push(last)?;
        }
    }
    gone.sort_unstable();
    less.calls = without_calls(alloc, selection.calls.as_slice(), gone.as_slice())?;
    Ok(less)
}

// The selection without these of the calls that may go this way: so many from a place on. `None` where that can't be.
fn with_fewer(
    alloc: Global,
    next: &NextCalls<'_>,
    selection: &Selection,
    way: Way,
    from: usize,
    count: usize,
) -> Result<Option<Selection>, AllocError> {
    if way == Way::Values {
        return with_fewer_values(alloc, next.problem(), selection, from, count);
    }
    let all = removable(alloc, next, selection, way)?;
    let gone: Vec<usize> = all.iter().skip(from).take(count).copied().collect(alloc)?;
    if way == Way::Rounds {
        return Ok(Some(without_rounds(alloc, next, selection, gone.as_slice())?));
    }
    let mut less = selection.copied(alloc)?;
    less.calls = without_calls(alloc, selection.calls.as_slice(), gone.as_slice())?;
    Ok(Some(less))
}

// How many of its values, calls or rounds may be left out this way.
fn count_of(
    alloc: Global,
    next: &NextCalls<'_>,
    selection: &Selection,
    way: Way,
) -> Result<usize, AllocError> {
    if way == Way::Values {
        return Ok(selection.values.len());
    }
    Ok(removable(alloc, next, selection, way)?.len())
}

// Takes the smaller selection where a search shows that it has no linearization. Whether it did.
fn takes_smaller<D: Decide>(
    alloc: Global,
    judge: &mut Judge<'_, '_, D>,
    selection: &mut Selection,
    less: Option<Selection>,
) -> Result<bool, AllocError> {
    let Some(less) = less else {
        return Ok(false);
    };
    if !judge.refutes_selection(alloc, &less)? {
        return Ok(false);
    }
    *selection = less;
    Ok(true)
}

// Leaves out so many at once, wherever that can be.
fn leave_out_by<D: Decide>(
    alloc: Global,
    next: &NextCalls<'_>,
    judge: &mut Judge<'_, '_, D>,
    selection: &mut Selection,
    way: Way,
    size: usize,
) -> Result<(), AllocError> {
    let mut from = 0;
    for _ in 0..count_of(alloc, next, selection, way)? {
        if !judge.goes_on() || from >= count_of(alloc, next, selection, way)? {
            break;
        }
        let less = with_fewer(alloc, next, selection, way, from, size)?;
        if !takes_smaller(alloc, judge, selection, less)? {
            from = from.saturating_add(size);
        }
    }
    Ok(())
}

// Leaves out this way what can be: halves first, and one by one at last.
fn leave_out<D: Decide>(
    alloc: Global,
    next: &NextCalls<'_>,
    judge: &mut Judge<'_, '_, D>,
    selection: &mut Selection,
    way: Way,
) -> Result<(), AllocError> {
    let mut size = count_of(alloc, next, selection, way)?;
    for _ in 0..HALVINGS {
        if !judge.goes_on() {
            break;
        }
        size -= size / 2;
        leave_out_by(alloc, next, judge, selection, way, size)?;
        if size <= 1 {
            break;
        }
    }
    Ok(())
}

// The numbers of the returns by the event, in increasing order.
fn returns_by(
    alloc: Global,
    problem: &Problem<AnyObject>,
    selection: &Selection,
) -> Result<Vec<u32>, AllocError> {
    let mut returns = Vec::with_capacity(alloc, selection.calls.len())?;
    for index in &selection.calls {
        match problem.calls().get(*index) {
            Some(
                ProblemCall {
                    returned: Some((number, _)),
                    ..
                },
            ) if *number <= selection.event => returns.push(*number)?,
            _ => {}
        }
    }
    returns.sort_unstable();
    Ok(returns)
}

// Those of the calls that were called by the event.
fn calls_by(
    alloc: Global,
    problem: &Problem<AnyObject>,
    calls: &[usize],
    event: u32,
) -> Result<Vec<usize>, AllocError> {
    let mut early = Vec::new(alloc);
    for index in calls {
        match problem.calls().get(*index) {
            Some(call) if call.called <= event => early.push(*index)?,
            _ => {}
        }
    }
    Ok(early)
}

// The least return after which the selection has no linearization, where it has none now. A cut at an event has one wherever a cut at a
// later one has.
fn first_refuted_return<D: Decide>(
    alloc: Global,
    problem: &Problem<AnyObject>,
    judge: &mut Judge<'_, '_, D>,
    selection: &Selection,
) -> Result<Option<u32>, AllocError> {
    let returns = returns_by(alloc, problem, selection)?;
    let mut low = 0;
    let mut high = returns.len().saturating_sub(1);
    for _ in 0..HALVINGS {
        if low >= high || !judge.goes_on() {
            break;
        }
        let middle = low + (high - low) / 2;
        let Some(event) = returns.get(middle) else {
            break;
        };
        let early = calls_by(alloc, problem, selection.calls.as_slice(), *event)?;
        if judge.refutes(alloc, early.as_slice(), *event)? {
            high = middle;
        } else {
            low = middle + 1;
        }
    }
    Ok(returns.get(high).copied())
}

// Cuts the selection at the least return after which it has no linearization.
fn cut_early<D: Decide>(
    alloc: Global,
    problem: &Problem<AnyObject>,
    judge: &mut Judge<'_, '_, D>,
    selection: &mut Selection,
) -> Result<(), AllocError> {
    if let Some(event) = first_refuted_return(alloc, problem, judge, selection)? {
        selection.calls = calls_by(alloc, problem, selection.calls.as_slice(), event)?;
        selection.event = event;
    }
    Ok(())
}

// How large a selection is: its event, and how many values and calls it has.
fn size_of(selection: &Selection) -> (u32, usize, usize) {
    (
        selection.event,
        selection.values.len(),
        selection.calls.len(),
    )
}

// Whether the call is a `cas` that answered 'no'.
fn is_refused_cas(call: &ProblemCall<Op, Reply>) -> bool {
    matches!(
        (&call.op, &call.returned),
        (Op::Cas(..), Some((_, Reply::Flag(false))))
    )
}

/// Whether a `try_lock` or a `cas` that answered 'no' is among the calls: then each process is needed, and so is each round that may go
/// on meanwhile; or each value.
pub(crate) fn needs_all(problem: &Problem<AnyObject>, selection: &Selection) -> bool {
    let needs_all = |call: &ProblemCall<Op, Reply>| is_refused(call) || is_refused_cas(call);
    selection
        .calls
        .iter()
        .any(|index| problem.calls().get(*index).is_some_and(needs_all))
}

/// Makes a selection that has no linearization smaller, as long as the judge goes on.
pub(crate) fn make_smaller<D: Decide>(
    alloc: Global,
    next: &NextCalls<'_>,
    judge: &mut Judge<'_, '_, D>,
    selection: &mut Selection,
) -> Result<(), AllocError> {
    for _ in 0..TURNS {
        let before = size_of(selection);
        cut_early(alloc, next.problem(), judge, selection)?;
        if !needs_all(next.problem(), selection) {
            leave_out(alloc, next, judge, selection, Way::Values)?;
            leave_out(alloc, next, judge, selection, Way::Rounds)?;
        }
        leave_out(alloc, next, judge, selection, Way::IdleCalls)?;
        if size_of(selection) == before || !judge.goes_on() {
            break;
        }
    }
    Ok(())
}

/// The first calls of the rounds of a selection but for these calls.
pub(crate) fn rounds_but_for(
    alloc: Global,
    next: &NextCalls<'_>,
    selection: &Selection,
    calls: &[usize],
) -> Result<Vec<usize>, AllocError> {
    let mut firsts = removable(alloc, next, selection, Way::Rounds)?;
    firsts.retain(|first| !calls.contains(first));
    Ok(firsts)
}
