//! The longest run of a problem, from the last calls that a run may have downwards, and for each from few open calls left
//! out to many.
ghost use Rattle.std.specs.Prelude.{◌≡◌, ◌⊎◌, ◌+◌, ◌<◌, ◌≤◌, ◌^◌, [], ℕ, List, All, IfOk, IfSome, IsTrue, IsFalse, filter, length, nat_lt, not, slice_index_or};
ghost use Rattle.lin_laws.specs.StandIns.{AreStandIns};
ghost use Rattle.lin_history.specs.Problems.Lists.{In};
ghost use Rattle.lin_history.specs.Problems.Problem.{problem_of};
ghost use Rattle.lin_history.specs.Problems.Precedence.{Before, IsCompleted};
ghost use Rattle.lin_history.specs.Problems.Linearizations.{IsRun};
ghost use Rattle.lin_search.specs.LongestRun.{IsFirstLongest};
ghost use Rattle.lin_prefixes.specs.Prefixes.{HasNoRunOf, IsBeaten, IsConflict, IsRunOf, AreOpen, AreSplit, is_spared};

use crate::call_lists::among;
use crate::candidate::try_part;
use crate::choices::{Choice, try_open};
use crate::conflicts::{Conflict, Cut, add_all_single, conflicts_again, parted};
use crate::hint::Hint;
use crate::last_call::{calls_by_hint, calls_with_runs};
use crate::part_search::{PartSearch, RunsTold};
use lin_history::{Order, Problem};
use lin_object::SeqObject;
use std::alloc::{AllocError, Global};

// How many times open calls are left out of a run at most, each time one with those that repeat it. Each is a step deeper in the recursion.
const MOST_STEPS: usize = 256;

// The last call of runs, and the search's numbers of the calls that may stand in for others.
#[derive(Clone, Copy)]
struct LastCall<'a> {
    call: usize,
    until: &'a [usize],
}

// Whether the call has returned, and not before the other one was called.
fn is_open<O: SeqObject>(problem: &Problem<O>, call: usize, other: usize) -> bool
    requires call { call < length problem.now.calls }
    requires other { other < length problem.now.calls }
    ensures no { IsFalse result
        → IsCompleted (problem_of O.after O.State.eq O.Reply.eq problem.now) call
        → Before (problem_of O.after O.State.eq O.Reply.eq problem.now) call other }
    ensures yes { IsTrue result
        → Before (problem_of O.after O.State.eq O.Reply.eq problem.now) call other → ⊥ }
{
    match &problem.call(call).returned {
        Some((returned, _)) => problem.call(other).called <= *returned,
        None => false,
    }
}

// The completed calls up to this one that do not precede it.
fn open_calls<O: SeqObject>(
    alloc: Global,
    problem: &Problem<O>,
    call: usize,
) -> Result<Vec<usize>, AllocError>
    requires call { call < length problem.now.calls }
    requires few { call + 1 < 2 ^ 64 }
    ensures { IfOk result (λ open_calls. AreOpen
        (problem_of O.after O.State.eq O.Reply.eq problem.now) call (call + 1)
        open_calls.items) }
{
    let mut open = Vec::new(alloc);
    for c in 0..call + 1 {
        if is_open(problem, c, call) {
            open.push(c)?;
        }
    }
    Ok(open)
}

// Whether the first call returned after the other one was called and before the one that follows that was.
fn returns_between<O: SeqObject>(problem: &Problem<O>, call: usize, other: usize) -> bool
    requires call { call < length problem.now.calls }
    requires other { other + 1 < length problem.now.calls }
    ensures { IsFalse result
        → Before (problem_of O.after O.State.eq O.Reply.eq problem.now) call (other + 1)
        → Before (problem_of O.after O.State.eq O.Reply.eq problem.now) call other }
{
    if is_open(problem, call, other) {
        let _calls = problem.calls();
        return !is_open(problem, call, other + 1);
    }
    false
}

// Whether no return stands between this call and the next one. Then each run of this one is a run of that.
fn is_within_window<O: SeqObject>(problem: &Problem<O>, call: usize) -> bool
    requires { call + 1 < length problem.now.calls }
    ensures { IsTrue result → (a : ℕ) → a ≤ call
        → Before (problem_of O.after O.State.eq O.Reply.eq problem.now) a (call + 1)
        → Before (problem_of O.after O.State.eq O.Reply.eq problem.now) a call }
{
    let _calls = problem.calls();
    for c in 0..call + 1 {
        if returns_between(problem, c, call) {
            return false;
        }
    }
    true
}

// Whether a run with calls up to this one that lacks so many could be as long as the best.
fn may_be_best(best: &Order, call: usize, lacking: usize) -> bool
    requires { call + 1 < 2 ^ 64 }
    ensures { IsFalse result → call + 1 < length best.now + lacking }
{
    lacking <= call + 1 && best.calls().len() <= call + 1 - lacking
}

// Whether the call's number is greater than the last call.
fn goes_beyond(last: LastCall<'_>, call: usize) -> bool
    ensures { result ≡ nat_lt last.entry.call (slice_index_or last.entry.until.now call 0) }
{
    match last.until.get(call) {
        Some(until) => last.call < *until,
        None => false,
    }
}

// The first of the calls whose number is greater than the last call; where there is none, the last call.
fn first_beyond(calls: &[usize], last: LastCall<'_>) -> usize {
    for c in calls {
        if goes_beyond(last, *c) {
            return *c;
        }
    }
    last.call
}

// Whether the first call may stand in for this one.
fn is_spared(last: LastCall<'_>, first: usize, call: usize) -> bool
    ensures { result ≡ is_spared last.entry.call last.entry.until.now first call }
{
    first < call && goes_beyond(last, first) && goes_beyond(last, call)
}

// Those of the calls for which the first one may stand in.
fn spared_calls(
    alloc: Global,
    calls: &[usize],
    last: LastCall<'_>,
    first: usize,
) -> Result<Vec<usize>, AllocError>
    ensures { IfOk result (λ spared. spared.items ≡ filter (is_spared last.entry.call last.entry.until.now first) calls.now) }
{
    calls
        .iter()
        .copied()
        .filter(|c| is_spared(last, first, *c))
        .collect(alloc)
}

// The other ones of the calls.
fn other_calls(
    alloc: Global,
    calls: &[usize],
    last: LastCall<'_>,
    first: usize,
) -> Result<Vec<usize>, AllocError>
    ensures { IfOk result (λ others. others.items ≡ filter (λ c. not (is_spared last.entry.call last.entry.until.now first c)) calls.now) }
{
    calls
        .iter()
        .copied()
        .filter(|c| !is_spared(last, first, *c))
        .collect(alloc)
}

// Tries all runs of the cut's call: whether they are known. The best run is then no worse than each of them.
fn try_levels<O: SeqObject, S: PartSearch<O>>(
    alloc: Global,
    problem: &Problem<O>,
    search: &mut S,
    cut: Cut<'_>,
    conflicts: &mut Vec<Conflict>,
    best: &mut Order,
) -> Result<bool, AllocError>
    requires call { cut.call < length problem.now.calls }
    requires few { cut.call + 1 < 2 ^ 64 }
    requires split { AreSplit (problem_of O.after O.State.eq O.Reply.eq problem.now) cut.call
        cut.spared.now cut.others.now }
    requires run { IsRun (problem_of O.after O.State.eq O.Reply.eq problem.now) best.old }
    requires conflicts { All (IsConflict (problem_of O.after O.State.eq O.Reply.eq problem.now)
        cut.call) conflicts.old.items }
    ensures run { IsRun (problem_of O.after O.State.eq O.Reply.eq problem.now) best.new }
    ensures better { IfOk result (λ known. IsBeaten best.new best.old) }
    ensures known { IfOk result (λ known. IsTrue known → (r : List ℕ)
        → IsRunOf (problem_of O.after O.State.eq O.Reply.eq problem.now) cut.entry.call r
        → IsBeaten best.new r) }
{
    for lacking in 0..cut.others.len() + 1 {
        if !may_be_best(best, cut.call, cut.spared.len() + lacking) {
            return Ok(true);
        }
        let choice = Choice {
            cut,
            dropped: cut.spared,
            late: cut.others,
            lacking,
            steps: MOST_STEPS,
        };
        if !try_open(alloc, problem, search, choice, conflicts, best)? {
            return Ok(false);
        }
    }
    Ok(true)
}

// Tries the longest runs that the cut's call can have, those that lack the spared calls alone: whether all its runs are known then. The
// best run is then no worse than each of them. That is done where some conflicts are known: what is left mostly has an order.
fn try_longest<O: SeqObject, S: PartSearch<O>>(
    alloc: Global,
    problem: &Problem<O>,
    search: &mut S,
    cut: Cut<'_>,
    conflicts: &[Conflict],
    best: &mut Order,
) -> Result<bool, AllocError>
    requires call { cut.call < length problem.now.calls }
    requires few { cut.call + 1 < 2 ^ 64 }
    requires split { AreSplit (problem_of O.after O.State.eq O.Reply.eq problem.now) cut.call
        cut.spared.now cut.others.now }
    requires run { IsRun (problem_of O.after O.State.eq O.Reply.eq problem.now) best.old }
    ensures run { IsRun (problem_of O.after O.State.eq O.Reply.eq problem.now) best.new }
    ensures better { IfOk result (λ known. IsBeaten best.new best.old) }
    ensures known { IfOk result (λ known. IsTrue known → (r : List ℕ)
        → IsRunOf (problem_of O.after O.State.eq O.Reply.eq problem.now) cut.entry.call r
        → IsBeaten best.new r) }
{
    if conflicts.is_empty() {
        return Ok(false);
    }
    if !try_part(alloc, problem, search, cut.call, cut.spared, best)? {
        return Ok(false);
    }
    if may_be_best(best, cut.call, cut.spared.len() + 1) {
        return Ok(false);
    }
    Ok(true)
}

// Whether the call has no run, where none is known of any call. What is tried last tells that too, but only after it was asked of each
// open call.
fn has_no_run<O: SeqObject, S: PartSearch<O>>(
    alloc: Global,
    problem: &Problem<O>,
    search: &mut S,
    call: usize,
    best: &Order,
) -> Result<bool, AllocError>
    requires { call < length problem.now.calls }
    ensures { IfOk result (λ none. IsTrue none
        → HasNoRunOf (problem_of O.after O.State.eq O.Reply.eq problem.now) call) }
{
    if !best.calls().is_empty() {
        return Ok(false);
    }
    match search.runs_with(alloc, problem, call, &[])? {
        RunsTold::NoRun => Ok(true),
        RunsTold::SomeRun | RunsTold::Nothing | RunsTold::Ended => Ok(false),
    }
}

// Tries all runs of the cut's call: whether they are known. The best run is then no worse than each of them. Of the open calls, but for
// the spared ones, those that no run has are looked for first.
fn try_others<O: SeqObject, S: PartSearch<O>>(
    alloc: Global,
    problem: &Problem<O>,
    search: &mut S,
    cut: Cut<'_>,
    conflicts: &mut Vec<Conflict>,
    best: &mut Order,
) -> Result<bool, AllocError>
    requires call { cut.call < length problem.now.calls }
    requires few { cut.call + 1 < 2 ^ 64 }
    requires split { AreSplit (problem_of O.after O.State.eq O.Reply.eq problem.now) cut.call
        cut.spared.now cut.others.now }
    requires run { IsRun (problem_of O.after O.State.eq O.Reply.eq problem.now) best.old }
    requires conflicts { All (IsConflict (problem_of O.after O.State.eq O.Reply.eq problem.now)
        cut.call) conflicts.old.items }
    ensures run { IsRun (problem_of O.after O.State.eq O.Reply.eq problem.now) best.new }
    ensures better { IfOk result (λ known. IsBeaten best.new best.old) }
    ensures known { IfOk result (λ known. IsTrue known → (r : List ℕ)
        → IsRunOf (problem_of O.after O.State.eq O.Reply.eq problem.now) cut.entry.call r
        → IsBeaten best.new r) }
{
    if !may_be_best(best, cut.call, cut.spared.len()) {
        return Ok(true);
    }
    if try_longest(alloc, problem, search, cut, conflicts.as_slice(), best)? {
        return Ok(true);
    }
    if has_no_run(alloc, problem, search, cut.call, best)? {
        return Ok(true);
    }
    if !add_all_single(alloc, problem, search, cut, conflicts)? {
        return Ok(false);
    }
    let parted = parted(alloc, cut, conflicts.as_slice())?;
    let rest = Cut {
        call: cut.call,
        spared: parted.gone.as_slice(),
        others: parted.left.as_slice(),
    };
    try_levels(alloc, problem, search, rest, conflicts, best)
}

// The same. The conflicts of a call that was tried before are asked of first, and left are those of this one: that is a hint. Where they
// alone leave no room for a run that is better, no other is looked for.
fn try_cut<O: SeqObject, S: PartSearch<O>>(
    alloc: Global,
    problem: &Problem<O>,
    search: &mut S,
    cut: Cut<'_>,
    hints: &mut Vec<Conflict>,
    best: &mut Order,
) -> Result<bool, AllocError>
    requires call { cut.call < length problem.now.calls }
    requires few { cut.call + 1 < 2 ^ 64 }
    requires split { AreSplit (problem_of O.after O.State.eq O.Reply.eq problem.now) cut.call
        cut.spared.now cut.others.now }
    requires run { IsRun (problem_of O.after O.State.eq O.Reply.eq problem.now) best.old }
    ensures run { IsRun (problem_of O.after O.State.eq O.Reply.eq problem.now) best.new }
    ensures better { IfOk result (λ known. IsBeaten best.new best.old) }
    ensures known { IfOk result (λ known. IsTrue known → (r : List ℕ)
        → IsRunOf (problem_of O.after O.State.eq O.Reply.eq problem.now) cut.entry.call r
        → IsBeaten best.new r) }
{
    if !may_be_best(best, cut.call, cut.spared.len()) {
        return Ok(true);
    }
    let Some(mut conflicts) = conflicts_again(alloc, problem, search, cut, hints.as_slice())? else {
        return Ok(false);
    };
    let parted = parted(alloc, cut, conflicts.as_slice())?;
    let rest = Cut {
        call: cut.call,
        spared: parted.gone.as_slice(),
        others: parted.left.as_slice(),
    };
    let known = try_others(alloc, problem, search, rest, &mut conflicts, best)?;
    *hints = conflicts;
    Ok(known)
}

// Tries all runs of the call: whether they are known. The best run is then no worse than each of them.
fn try_call<O: SeqObject, S: PartSearch<O>>(
    alloc: Global,
    problem: &Problem<O>,
    search: &mut S,
    last: LastCall<'_>,
    hints: &mut Vec<Conflict>,
    best: &mut Order,
) -> Result<bool, AllocError>
    requires call { last.call < length problem.now.calls }
    requires few { last.call + 1 < 2 ^ 64 }
    requires stand_ins { AreStandIns (problem_of O.after O.State.eq O.Reply.eq problem.now) last.until.now }
    requires run { IsRun (problem_of O.after O.State.eq O.Reply.eq problem.now) best.old }
    ensures run { IsRun (problem_of O.after O.State.eq O.Reply.eq problem.now) best.new }
    ensures better { IfOk result (λ known. IsBeaten best.new best.old) }
    ensures known { IfOk result (λ known. IsTrue known → (r : List ℕ)
        → IsRunOf (problem_of O.after O.State.eq O.Reply.eq problem.now) last.entry.call r
        → IsBeaten best.new r) }
{
    let open = open_calls(alloc, problem, last.call)?;
    let first = first_beyond(open.as_slice(), last);
    let spared = spared_calls(alloc, open.as_slice(), last, first)?;
    let others = other_calls(alloc, open.as_slice(), last, first)?;
    let cut = Cut {
        call: last.call,
        spared: spared.as_slice(),
        others: others.as_slice(),
    };
    try_cut(alloc, problem, search, cut, hints, best)
}

// The calls of the hint that are open at the last of so many calls, as a conflict that is asked of first. That is a hint too.
fn hinted_conflicts<O: SeqObject>(
    alloc: Global,
    problem: &Problem<O>,
    hint: &Hint,
    count: usize,
) -> Result<Vec<Conflict>, AllocError>
    requires { count ≤ length problem.now.calls }
{
    let _calls = problem.calls();
    let mut conflicts = Vec::new(alloc);
    if count == 0 {
        return Ok(conflicts);
    }
    let open = open_calls(alloc, problem, count - 1)?;
    let hinted = among(alloc, problem.len(), open.as_slice(), hint.calls.as_slice())?;
    if !hinted.is_empty() {
        conflicts.push(Conflict::new(alloc, hinted.as_slice())?)?;
    }
    Ok(conflicts)
}

/// The first, in lexicographic order, of the longest runs of the problem, by searches of parts of it. `None` where a search
/// that was needed told nothing; where a run would have to lack so many open calls that it is not tried; or where the order of a part with its
/// pending calls behind it is no run, as where one of these has no step. `AllocError` where memory was refused.
pub(crate) fn longest_by_prefixes<O: SeqObject, S: PartSearch<O>>(
    alloc: Global,
    problem: &Problem<O>,
    search: &mut S,
    hint: &Hint,
) -> Result<Option<Order>, AllocError>
    ensures { IfOk result (λ answer. IfSome answer (IsFirstLongest
        (IsRun (problem_of O.after O.State.eq O.Reply.eq problem.now)))) }
{
    let _calls = problem.calls();
    let mut best = Order::new(Vec::new(alloc));
    let until = search.stand_ins(alloc, problem)?;
    let Some(mut left) = calls_by_hint(alloc, problem, search, hint)? else {
        return Ok(None);
    };
    let mut is_checked = false;
    let mut hints = hinted_conflicts(alloc, problem, hint, left)?;
    while left > 0 && best.calls().len() <= left {
        left -= 1;
        if left + 1 < problem.len() && is_within_window(problem, left) {
            continue;
        }
        let last = LastCall {
            call: left,
            until: until.as_slice(),
        };
        if !try_call(alloc, problem, search, last, &mut hints, &mut best)? {
            return Ok(None);
        }
        if best.calls().is_empty() && !is_checked {
            // the hint was wrong
            is_checked = true;
            let Some(count) = calls_with_runs(alloc, problem, search, hint, left)? else {
                return Ok(None);
            };
            left = count;
        }
    }
    Ok(Some(best))
}
