//! Which of a call's runs are tried: those that lack some of the open calls.
ghost use Rattle.std.specs.Prelude.{◌≡◌, ◌+◌, ◌<◌, ◌≤◌, ℕ, List, All, IfOk, IsTrue, length};
ghost use Rattle.lin_history.specs.Problems.Lists.{In};
ghost use Rattle.lin_history.specs.Problems.Problem.{problem_of};
ghost use Rattle.lin_history.specs.Problems.Linearizations.{IsRun};
ghost use Rattle.lin_prefixes.specs.Prefixes.{IsBeaten, IsConflict, IsRunLacking, OneMoreIsBeaten};

use crate::call_lists::{with_more, without};
use crate::candidate::try_part;
use crate::conflicts::{Conflict, Cut, add_conflict, some_missed};
use crate::part_search::PartSearch;
use crate::repeated_calls::twins_of;
use lin_history::{Order, Problem};
use lin_object::SeqObject;
use std::alloc::{AllocError, Global};

/// Which runs are tried: those of the cut's call that lack, of the completed calls, those dropped and so many of those that come
/// later. Calls are left out so many times more at most: each is a step deeper in the recursion. The cut's open calls are there for a
/// hint.
#[derive(Clone, Copy)]
pub(crate) struct Choice<'a> {
    pub(crate) cut: Cut<'a>,
    pub(crate) dropped: &'a [usize],
    pub(crate) late: &'a [usize],
    pub(crate) lacking: usize,
    pub(crate) steps: usize,
}

// Tries the runs that lack just the calls dropped: whether they are known. The best run is then no worse than each of them. No
// part is searched that lacks no call of some conflict, one that is known or one that is found now.
fn try_dropped<O: SeqObject, S: PartSearch<O>>(
    alloc: Global,
    problem: &Problem<O>,
    search: &mut S,
    choice: Choice<'_>,
    conflicts: &mut Vec<Conflict>,
    best: &mut Order,
) -> Result<bool, AllocError>
    requires call { choice.cut.call < length problem.now.calls }
    requires run { IsRun (problem_of O.after O.State.eq O.Reply.eq problem.now) best.old }
    requires conflicts { All (IsConflict (problem_of O.after O.State.eq O.Reply.eq problem.now)
        choice.cut.call) conflicts.old.items }
    ensures run { IsRun (problem_of O.after O.State.eq O.Reply.eq problem.now) best.new }
    ensures conflicts { IfOk result (λ known. All
        (IsConflict (problem_of O.after O.State.eq O.Reply.eq problem.now) choice.entry.cut.call)
        conflicts.new.items) }
    ensures better { IfOk result (λ known. IsBeaten best.new best.old) }
    ensures known { IfOk result (λ known. IsTrue known → (r : List ℕ)
        → IsRunLacking (problem_of O.after O.State.eq O.Reply.eq problem.now) choice.entry.cut.call
        choice.entry.dropped.now choice.entry.late.now 0 r → IsBeaten best.new r) }
{
    let count = problem.len();
    if some_missed(alloc, count, conflicts.as_slice(), choice.dropped, &[])? {
        return Ok(true);
    }
    let kept = without(alloc, count, choice.cut.others, choice.dropped)?;
    if !add_conflict(
        alloc,
        problem,
        search,
        choice.cut.call,
        kept.as_slice(),
        conflicts,
    )? {
        return Ok(false);
    }
    if some_missed(alloc, count, conflicts.as_slice(), choice.dropped, &[])? {
        return Ok(true);
    }
    try_part(
        alloc,
        problem,
        search,
        choice.cut.call,
        choice.dropped,
        best,
    )
}

// About how many looks at a call it takes to find a conflict that is missed.
fn looks(conflicts: &[Conflict], late: &[usize]) -> u64 {
    (conflicts.len() as u64).saturating_mul(late.len() as u64)
}

/// Tries these runs: whether all are known. The best run is then no worse than each of them, if it was no worse than each that is one of
/// them with one open call more. So a call is left out with all those that repeat it: a run that has one of these has room for it.
pub(crate) fn try_open<O: SeqObject, S: PartSearch<O>>(
    alloc: Global,
    problem: &Problem<O>,
    search: &mut S,
    choice: Choice<'_>,
    conflicts: &mut Vec<Conflict>,
    best: &mut Order,
) -> Result<bool, AllocError>
    requires call { choice.cut.call < length problem.now.calls }
    requires run { IsRun (problem_of O.after O.State.eq O.Reply.eq problem.now) best.old }
    requires late { (c : ℕ) → In c choice.late.now → In c choice.cut.others.now }
    requires conflicts { All (IsConflict (problem_of O.after O.State.eq O.Reply.eq problem.now)
        choice.cut.call) conflicts.old.items }
    ensures run { IsRun (problem_of O.after O.State.eq O.Reply.eq problem.now) best.new }
    ensures conflicts { IfOk result (λ known. All
        (IsConflict (problem_of O.after O.State.eq O.Reply.eq problem.now) choice.entry.cut.call)
        conflicts.new.items) }
    ensures better { IfOk result (λ known. IsBeaten best.new best.old) }
    ensures known { IfOk result (λ known. IsTrue known → (r : List ℕ)
        → IsRunLacking (problem_of O.after O.State.eq O.Reply.eq problem.now) choice.entry.cut.call
        choice.entry.dropped.now choice.entry.late.now choice.entry.lacking r
        → OneMoreIsBeaten (problem_of O.after O.State.eq O.Reply.eq problem.now) choice.entry.cut.call
        choice.entry.cut.others.now best.old r → IsBeaten best.new r) }
{
    if choice.lacking == 0 {
        return try_dropped(alloc, problem, search, choice, conflicts, best);
    }
    let count = problem.len();
    let mut late = Vec::from_slice(alloc, choice.late)?;
    while !late.is_empty() {
        if !search.may_go_on(looks(conflicts.as_slice(), late.as_slice())) {
            return Ok(false);
        }
        let known = conflicts.as_slice();
        if some_missed(alloc, count, known, choice.dropped, late.as_slice())? {
            return Ok(true);
        }
        let next = late.remove(0);
        let twins = twins_of(alloc, problem, search, next, late.as_slice())?;
        if twins.again.len() >= choice.lacking {
            continue;
        }
        if choice.steps == 0 {
            return Ok(false);
        }
        let more = with_more(alloc, choice.dropped, next, twins.again.as_slice())?;
        let without_next = Choice {
            dropped: more.as_slice(),
            late: twins.others.as_slice(),
            lacking: choice.lacking - 1 - twins.again.len(),
            steps: choice.steps - 1,
            ..choice
        };
        if !try_open(alloc, problem, search, without_next, conflicts, best)? {
            return Ok(false);
        }
    }
    Ok(true)
}
