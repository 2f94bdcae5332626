//! The calls of a queue or a stack that put one item in or returned with it, and whether it was taken more often than it was put.

ghost use Rattle.std.specs.Prelude.{◌≡◌, ◌⊎◌, ◌≤◌, ℕ, Some, true, false, IsTrue, slice_get, slice_index_or};
ghost use Rattle.lin_object.specs.declared.op.Op.{Op};
ghost use Rattle.lin_object.specs.declared.reply.Reply.{Reply};
ghost use Rattle.lin_history.specs.declared.problems.problem.ProblemCall.{ProblemCall};
ghost use Rattle.lin_history.specs.Problems.Lists.{In};
ghost use Rattle.lin_core.specs.OneItem.{put_or_took, PutOrTook, PutsNot};

use crate::call_index::CallIndex;
use crate::emptied::{puts, took};
use crate::item_faults::{MOST, list_of};
use crate::item_times::{ItemTimes, return_of, times_of_items};
use crate::part_check::is_kept;
use crate::selection::Selection;
use lin_history::{Problem, ProblemCall};
use lin_object::{AnyObject, ObjState, Op, Reply};
use lin_search::Stop;
use std::alloc::{AllocError, Global};

// Whether the call puts the item in, or has returned with it.
fn put_or_took(item: &i64, call: &ProblemCall<Op, Reply>) -> bool
    ensures { result ≡ put_or_took item.now call.now.op call.now.returned }
{
    puts(*item, &call.op) || took(*item, call)
}

/// Whether all its calls put the item in, or returned with it; not where the stop answers.
pub(crate) fn are_of_item<S: Stop>(item: &i64, part: &Problem<AnyObject>, stop: &mut S) -> bool
    ensures { IsTrue result → (i : ℕ) (x : ProblemCall Op Reply) → slice_get part.now.calls i ≡ Some x
        → PutOrTook item.now x }
{
    for i in 0..part.len() {
        if stop.ask().is_some() {
            return false;
        }
        if !put_or_took(item, part.call(i)) {
            return false;
        }
    }
    true
}

/// Whether no other call that was called by the event puts the item in; not where the stop answers.
pub(crate) fn others_put_none<S: Stop>(
    problem: &Problem<AnyObject>,
    event: u32,
    kept: &[usize],
    flags: &[bool],
    item: &i64,
    stop: &mut S,
) -> bool
    requires { (c : ℕ) → slice_index_or flags.now c false ≡ true → In c kept.now }
    ensures { IsTrue result → (c : ℕ) (x : ProblemCall Op Reply) → slice_get problem.now.calls c ≡ Some x
        → x.called ≤ event → In c kept.now ⊎ PutsNot item.now x }
{
    for c in 0..problem.len() {
        if stop.ask().is_some() {
            return false;
        }
        let call = problem.call(c);
        if call.called <= event && puts(*item, &call.op) && !is_kept(kept, flags, c) {
            return false;
        }
    }
    true
}

// The calls that put the item of these times in by the last take, and those that had taken it by then.
fn selection_by(
    alloc: Global,
    problem: &Problem<AnyObject>,
    index: &CallIndex,
    times: &ItemTimes,
) -> Result<Selection, AllocError> {
    let event = times.take_returned;
    let mut calls = Vec::new(alloc);
    if let Some(on_item) = index.at(times.item) {
        for number in &on_item.calls {
            match problem.calls().get(*number) {
                Some(call) if puts(times.item, &call.op) && call.called <= event => {
                    calls.push(*number)?;
                }
                Some(call) if took(times.item, call) && return_of(call) <= event => {
                    calls.push(*number)?;
                }
                _ => {}
            }
        }
    }
    let values = list_of(alloc, &[times.item])?;
    Ok(Selection::new(alloc, event, None, values, calls))
}

/// Selections of the calls on an item that was taken more often than it was put by then: those with the fewest calls first. They are
/// hints. `AllocError` where memory was refused.
pub(crate) fn taken_too_often(
    alloc: Global,
    problem: &Problem<AnyObject>,
    index: &CallIndex,
) -> Result<Vec<Selection>, AllocError> {
    let mut found = Vec::new(alloc);
    if !matches!(problem.start(), ObjState::Queue(_) | ObjState::Stack(_)) {
        return Ok(found);
    }
    let all = times_of_items(alloc, problem, index)?;
    for times in all.iter().filter(|times| times.is_in_vain()).take(MOST) {
        found.push(selection_by(alloc, problem, index, times)?)?;
    }
    found.sort_by_key(|selection: &Selection| selection.calls.len())?;
    Ok(found)
}
