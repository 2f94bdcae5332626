//! Conflicts of a call: completed calls up to it of which each of its runs lacks one.
//!
//! Which calls are asked of is a hint. A conflict is made only of calls for which the search tells that no run has all of them.
ghost use Rattle.std.specs.Prelude.{◌≡◌, ◌<◌, ◌≤◌, ◌++◌, ◌∷◌, [], ℕ, List, All, IfOk, IfSome, IsTrue, length};
ghost use Rattle.lin_history.specs.Problems.Lists.{In, IsDistinct};
ghost use Rattle.lin_history.specs.Problems.Problem.{problem_of};
ghost use Rattle.lin_prefixes.specs.Prefixes.{AreCompletedUpTo, AreParted, HasNoRunWith, IsConflict, IsSingle, IsUnset, SomeMissed};

use crate::call_lists::is_unset;
use crate::part_search::{PartSearch, RunsTold};
use crate::repeated_calls::first_ones;
use lin_history::Problem;
use lin_object::SeqObject;
use lin_parts::flags_of;
use std::alloc::{AllocError, Global};
use std::marker::Model;

/// A call of which runs are tried, and its open calls, the completed ones up to it that do not precede it: those that are spared,
/// without which its best runs are found too, and the others.
#[derive(Clone, Copy)]
pub(crate) struct Cut<'a> {
    pub(crate) call: usize,
    pub(crate) spared: &'a [usize],
    pub(crate) others: &'a [usize],
}

/// Calls, by their numbers. What they are in conflict with is said where they are made.
#[derive(Drop)]
pub(crate) struct Conflict {
    calls: Vec<usize>,
}

// Contracts see the list of the calls' numbers.
impl Model for Conflict {
    ghost use Rattle.std.specs.Prelude.{List, ℕ};

    ghost Value = { List ℕ };

    ghost view = { λ conflict. conflict.calls.items };
}

impl Conflict {
    /// The conflict of these calls.
    pub(crate) fn new(alloc: Global, calls: &[usize]) -> Result<Self, AllocError>
        ensures { IfOk result (λ made. made ≡ calls.now) }
    {
        Ok(Conflict {
            calls: Vec::from_slice(alloc, calls)?,
        })
    }

    // The conflict of one call.
    fn of_one(alloc: Global, call: usize) -> Result<Self, AllocError>
        ensures { IfOk result (λ made. made ≡ call ∷ []) }
    {
        let mut calls = Vec::new(alloc);
        calls.push(call)?;
        Ok(Conflict { calls })
    }

    // The calls.
    fn calls(&self) -> &[usize]
        ensures { result.now ≡ self.now }
    {
        self.calls.as_slice()
    }
}

// Whether each of the calls is a completed one up to this one.
fn are_completed_up_to<O: SeqObject>(problem: &Problem<O>, calls: &[usize], call: usize) -> bool
    requires { call < length problem.now.calls }
    ensures { IsTrue result → AreCompletedUpTo
        (problem_of O.after O.State.eq O.Reply.eq problem.now) call calls.now }
{
    for c in calls {
        if *c > call || problem.call(*c).returned.is_none() {
            return false;
        }
    }
    true
}

// Adds these calls as a conflict, where it is told that they are one: whether the search goes on.
fn add_known<O: SeqObject, S: PartSearch<O>>(
    alloc: Global,
    problem: &Problem<O>,
    search: &mut S,
    call: usize,
    calls: &[usize],
    conflicts: &mut Vec<Conflict>,
) -> Result<bool, AllocError>
    requires call { call < length problem.now.calls }
    requires conflicts { All (IsConflict (problem_of O.after O.State.eq O.Reply.eq problem.now) call)
        conflicts.old.items }
    ensures { IfOk result (λ goes_on. All
        (IsConflict (problem_of O.after O.State.eq O.Reply.eq problem.now) call)
        conflicts.new.items) }
{
    if !are_completed_up_to(problem, calls, call) {
        return Ok(true);
    }
    match search.runs_with(alloc, problem, call, calls)? {
        RunsTold::NoRun => {}
        RunsTold::SomeRun | RunsTold::Nothing => return Ok(true),
        RunsTold::Ended => return Ok(false),
    }
    let conflict = Conflict::new(alloc, calls)?;
    conflicts.push(conflict)?;
    Ok(true)
}

// How many of the first calls are known to be a conflict, as few as are, but at least `needed`. The calls together are one. `None`
// where the search has come to its end.
fn fewest_in_conflict<O: SeqObject, S: PartSearch<O>>(
    alloc: Global,
    problem: &Problem<O>,
    search: &mut S,
    call: usize,
    calls: &[usize],
    needed: usize,
) -> Result<Option<usize>, AllocError>
    requires { call < length problem.now.calls }
{
    let mut low = needed;
    let mut high = calls.len();
    while low < high {
        let middle = low + (high - low) / 2;
        match search.runs_with(alloc, problem, call, &calls[..middle])? {
            RunsTold::NoRun => high = middle,
            RunsTold::SomeRun | RunsTold::Nothing => low = middle + 1,
            RunsTold::Ended => return Ok(None),
        }
    }
    Ok(Some(high))
}

// Of calls that are a conflict few that still are, by halving. `None` where the search has come to its end.
fn few_in_conflict<O: SeqObject, S: PartSearch<O>>(
    alloc: Global,
    problem: &Problem<O>,
    search: &mut S,
    call: usize,
    calls: &[usize],
) -> Result<Option<Vec<usize>>, AllocError>
    requires { call < length problem.now.calls }
{
    let mut few = Vec::from_slice(alloc, calls)?;
    for needed in 0..calls.len() {
        let Some(count) = fewest_in_conflict(alloc, problem, search, call, few.as_slice(), needed)?
        else {
            return Ok(None);
        };
        few.truncate(count);
        if count <= needed {
            return Ok(Some(few));
        }
        // the last one is needed: it goes to the front, and those behind are halved again
        if let Some(last) = few.pop() {
            few.insert(0, last)?;
        }
    }
    Ok(Some(few))
}

/// Adds a conflict among these calls, where one is known: as few of them as still are one. Of no calls it is not asked: a try of what is
/// left without the open calls tells as much. `false` where the search has come to its end.
pub(crate) fn add_conflict<O: SeqObject, S: PartSearch<O>>(
    alloc: Global,
    problem: &Problem<O>,
    search: &mut S,
    call: usize,
    calls: &[usize],
    conflicts: &mut Vec<Conflict>,
) -> Result<bool, AllocError>
    requires call { call < length problem.now.calls }
    requires conflicts { All (IsConflict (problem_of O.after O.State.eq O.Reply.eq problem.now) call)
        conflicts.old.items }
    ensures { IfOk result (λ goes_on. All
        (IsConflict (problem_of O.after O.State.eq O.Reply.eq problem.now) call)
        conflicts.new.items) }
{
    if calls.is_empty() {
        return Ok(true);
    }
    match search.runs_with(alloc, problem, call, calls)? {
        RunsTold::NoRun => {}
        RunsTold::SomeRun | RunsTold::Nothing => return Ok(true),
        RunsTold::Ended => return Ok(false),
    }
    let Some(few) = few_in_conflict(alloc, problem, search, call, calls)? else {
        return Ok(false);
    };
    add_known(alloc, problem, search, call, few.as_slice(), conflicts)
}

// The calls of the list that are no conflicts of their own.
fn not_single(
    alloc: Global,
    calls: &[usize],
    conflicts: &[Conflict],
) -> Result<Vec<usize>, AllocError>
    ensures { IfOk result (λ left. length left.items ≤ length calls.now) }
{
    let mut left = Vec::new(alloc);
    for c in calls {
        if !is_in_no_run(conflicts, *c) {
            left.push(*c)?;
        }
    }
    Ok(left)
}

// Adds the call, which no run has, and those of the others that repeat it, each as a conflict of its own.
fn add_repeated<O: SeqObject, S: PartSearch<O>>(
    alloc: Global,
    problem: &Problem<O>,
    search: &S,
    cut: Cut<'_>,
    single: usize,
    conflicts: &mut Vec<Conflict>,
) -> Result<(), AllocError>
    requires call { cut.call < length problem.now.calls }
    requires conflicts { All (IsConflict (problem_of O.after O.State.eq O.Reply.eq problem.now) cut.call)
        conflicts.old.items }
    requires single { HasNoRunWith (problem_of O.after O.State.eq O.Reply.eq problem.now) cut.call
        (single ∷ []) }
    ensures { IfOk result (λ added. All
        (IsConflict (problem_of O.after O.State.eq O.Reply.eq problem.now) cut.entry.call)
        conflicts.new.items) }
{
    for c in cut.others {
        if *c != single && !search.is_repeated(problem, single, *c) {
            continue;
        }
        let conflict = Conflict::of_one(alloc, *c)?;
        if are_completed_up_to(problem, conflict.calls(), cut.call) {
            conflicts.push(conflict)?;
        }
    }
    Ok(())
}

// Adds those of the calls that no run has, as far as that is known, each as a conflict of its own: the calls are halved where no
// run has all of them. `false` where the search has come to its end.
fn add_single_conflicts<O: SeqObject, S: PartSearch<O>>(
    alloc: Global,
    problem: &Problem<O>,
    search: &mut S,
    cut: Cut<'_>,
    calls: &[usize],
    conflicts: &mut Vec<Conflict>,
) -> Result<bool, AllocError>
    requires call { cut.call < length problem.now.calls }
    requires conflicts { All (IsConflict (problem_of O.after O.State.eq O.Reply.eq problem.now) cut.call)
        conflicts.old.items }
    ensures { IfOk result (λ goes_on. All
        (IsConflict (problem_of O.after O.State.eq O.Reply.eq problem.now) cut.entry.call)
        conflicts.new.items) }
{
    let left = not_single(alloc, calls, conflicts.as_slice())?;
    if left.is_empty() {
        return Ok(true);
    }
    match search.runs_with(alloc, problem, cut.call, left.as_slice())? {
        RunsTold::NoRun => {}
        RunsTold::SomeRun | RunsTold::Nothing => return Ok(true),
        RunsTold::Ended => return Ok(false),
    }
    if left.len() == 1 {
        add_repeated(alloc, problem, search, cut, left[0], conflicts)?;
        return Ok(true);
    }
    let (first, second) = left.as_slice().split_at(left.len() / 2);
    if !add_single_conflicts(alloc, problem, search, cut, first, conflicts)? {
        return Ok(false);
    }
    add_single_conflicts(alloc, problem, search, cut, second, conflicts)
}

// About how many looks at a call it takes to find which of the calls are the first ones.
fn looks_among(calls: &[usize], firsts: &[usize]) -> u64 {
    (calls.len() as u64).saturating_mul(firsts.len() as u64)
}

/// Adds those of the cut's open calls that no run has, as far as that is known, each as a conflict of its own. Of calls that repeat one
/// another the first is asked of. `false` where the search has come to its end.
pub(crate) fn add_all_single<O: SeqObject, S: PartSearch<O>>(
    alloc: Global,
    problem: &Problem<O>,
    search: &mut S,
    cut: Cut<'_>,
    conflicts: &mut Vec<Conflict>,
) -> Result<bool, AllocError>
    requires call { cut.call < length problem.now.calls }
    requires conflicts { All (IsConflict (problem_of O.after O.State.eq O.Reply.eq problem.now) cut.call)
        conflicts.old.items }
    ensures { IfOk result (λ goes_on. All
        (IsConflict (problem_of O.after O.State.eq O.Reply.eq problem.now) cut.entry.call)
        conflicts.new.items) }
{
    let left = not_single(alloc, cut.others, conflicts.as_slice())?;
    if left.len() > 1 {
        match search.runs_with(alloc, problem, cut.call, left.as_slice())? {
            RunsTold::NoRun => {}
            RunsTold::SomeRun | RunsTold::Nothing => return Ok(true),
            RunsTold::Ended => return Ok(false),
        }
    }
    let firsts = first_ones(alloc, problem, search, left.as_slice())?;
    if !search.may_go_on(looks_among(left.as_slice(), firsts.as_slice())) {
        return Ok(false);
    }
    let (some, others) = firsts.as_slice().split_at(firsts.len() / 2);
    if !add_single_conflicts(alloc, problem, search, cut, some, conflicts)? {
        return Ok(false);
    }
    add_single_conflicts(alloc, problem, search, cut, others, conflicts)
}

// Adds the conflict of another call, where it is one of this call too: whether the search goes on.
fn add_again<O: SeqObject, S: PartSearch<O>>(
    alloc: Global,
    problem: &Problem<O>,
    search: &mut S,
    cut: Cut<'_>,
    hint: &Conflict,
    conflicts: &mut Vec<Conflict>,
) -> Result<bool, AllocError>
    requires call { cut.call < length problem.now.calls }
    requires conflicts { All (IsConflict (problem_of O.after O.State.eq O.Reply.eq problem.now) cut.call)
        conflicts.old.items }
    ensures { IfOk result (λ goes_on. All
        (IsConflict (problem_of O.after O.State.eq O.Reply.eq problem.now) cut.entry.call)
        conflicts.new.items) }
{
    if hint.calls().len() != 1 {
        return add_known(alloc, problem, search, cut.call, hint.calls(), conflicts);
    }
    if !are_completed_up_to(problem, hint.calls(), cut.call) {
        return Ok(true);
    }
    add_single_conflicts(alloc, problem, search, cut, hint.calls(), conflicts)
}

/// Those of the conflicts that are conflicts of this call too. `None` where the search has come to its end.
pub(crate) fn conflicts_again<O: SeqObject, S: PartSearch<O>>(
    alloc: Global,
    problem: &Problem<O>,
    search: &mut S,
    cut: Cut<'_>,
    hints: &[Conflict],
) -> Result<Option<Vec<Conflict>>, AllocError>
    requires { cut.call < length problem.now.calls }
    ensures { IfOk result (λ answer. IfSome answer (λ conflicts. All
        (IsConflict (problem_of O.after O.State.eq O.Reply.eq problem.now) cut.entry.call) conflicts.items)) }
{
    let mut conflicts = Vec::new(alloc);
    for hint in hints {
        if !add_again(alloc, problem, search, cut, hint, &mut conflicts)? {
            return Ok(None);
        }
    }
    Ok(Some(conflicts))
}

// Whether the conflict has no other call than this one.
fn is_alone(conflict: &Conflict, call: usize) -> bool
    ensures { IsTrue result → (c : ℕ) → In c conflict.now → c ≡ call }
{
    let calls = conflict.calls();
    for c in calls {
        if *c != call {
            return false;
        }
    }
    true
}

// Whether the call is a conflict of its own.
fn is_in_no_run(conflicts: &[Conflict], call: usize) -> bool
    ensures { IsTrue result → IsSingle conflicts.now call }
{
    for conflict in conflicts {
        if is_alone(conflict, call) {
            return true;
        }
    }
    false
}

/// The open calls of a cut that are no conflicts of their own, and those that are, behind those that are spared.
#[derive(Drop)]
pub(crate) struct OpenCalls {
    pub(crate) gone: Vec<usize>,
    pub(crate) left: Vec<usize>,
}

/// The open calls of the cut, parted so.
pub(crate) fn parted(
    alloc: Global,
    cut: Cut<'_>,
    conflicts: &[Conflict],
) -> Result<OpenCalls, AllocError>
    requires { IsDistinct (cut.spared.now ++ cut.others.now) }
    ensures { IfOk result (AreParted conflicts.now cut.entry.spared.now cut.entry.others.now) }
{
    let mut gone = Vec::from_slice(alloc, cut.spared)?;
    let mut left = Vec::new(alloc);
    for c in cut.others {
        if is_in_no_run(conflicts, *c) {
            gone.push(*c)?;
        } else {
            left.push(*c)?;
        }
    }
    Ok(OpenCalls { gone, left })
}

// Whether no call of the conflict has a flag in either list.
fn is_missed(conflict: &Conflict, dropped: &[bool], late: &[bool]) -> bool
    ensures { IsTrue result → (c : ℕ) → In c conflict.now → IsUnset dropped.now c × IsUnset late.now c }
{
    let calls = conflict.calls();
    for c in calls {
        if !is_unset(dropped, *c) || !is_unset(late, *c) {
            return false;
        }
    }
    true
}

/// Whether some conflict has no call in either list, which have calls of a problem of so many calls.
pub(crate) fn some_missed(
    alloc: Global,
    count: usize,
    conflicts: &[Conflict],
    dropped: &[usize],
    late: &[usize],
) -> Result<bool, AllocError>
    ensures { IfOk result (λ missed. IsTrue missed → SomeMissed conflicts.now dropped.now late.now) }
{
    let dropped_flags = flags_of(alloc, dropped, count)?;
    let late_flags = flags_of(alloc, late, count)?;
    for conflict in conflicts {
        if is_missed(conflict, dropped_flags.as_slice(), late_flags.as_slice()) {
            return Ok(true);
        }
    }
    Ok(false)
}
