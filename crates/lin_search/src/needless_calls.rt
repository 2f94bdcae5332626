//! Which candidates a search may leave untried: an identical call was tried, or one that changes nothing.
ghost use Rattle.std.specs.Prelude.{◌≡◌, ◌<◌, List, Bool, true, false, length, IsTrue};
ghost use Rattle.lin_object.specs.StepAnswers.{IgnoresProcess};
ghost use Rattle.lin_history.specs.Problems.Problem.{problem_of};
ghost use Rattle.lin_history.specs.Problems.Continuations.{has};
ghost use Rattle.lin_search.specs.NextCall.{IsNext};
ghost use Rattle.lin_search.specs.NeedlessCalls.{AddsNothing, ComesFirst, EndsTheList, LeavesStates, ReturnedAlike, StandsFor};

use lin_history::{Problem, ProblemCall};
use lin_object::{SeqObject, lawful};
use std::alloc::{AllocError, Global};

// Whether both returned with equal replies and the first not later, or neither returned.
fn are_returned_alike<R: Eq>(first: &Option<(u32, R)>, second: &Option<(u32, R)>) -> bool
    ensures { IsTrue result → ReturnedAlike R.eq first.now second.now }
{
    match (first, second) {
        (Some((m, r)), Some((n, s))) => *m <= *n && *r == *s,
        (None, Some(_)) => false,
        (Some(_), None) => false,
        (None, None) => true,
    }
}

// Whether both returned with equal replies and the first not later, or the second is pending.
fn comes_first<R: Eq>(first: &Option<(u32, R)>, second: &Option<(u32, R)>) -> bool
    ensures { IsTrue result → ComesFirst R.eq first.now second.now }
{
    match (first, second) {
        (Some(_), None) => true,
        _ => are_returned_alike(first, second),
    }
}

// Whether both have one operation, and a step of the first, where its reply fits, is that of any process.
fn are_of_one_operation<O: SeqObject>(
    object: &O,
    first: &ProblemCall<O::Op, O::Reply>,
    second: &ProblemCall<O::Op, O::Reply>,
) -> bool
    ensures op { IsTrue result → O.Op.eq first.now.op second.now.op ≡ true }
    ensures ignores { IsTrue result → IgnoresProcess O.Reply.eq (O.after object.now) first.now.op
        first.now.returned }
{
    if !(first.op == second.op) {
        return false;
    }
    object.ignores_process(&first.op, &first.returned)
}

/// Whether the call repeats an earlier one: both are of one operation, whichever processes make them, and both returned
/// with equal replies and the earlier one not later, or neither returned. While the earlier one is not lifted, the call
/// need not be tried: what it begins, the earlier one begins as well. No step is made.
///
/// Conditions: the earlier call has the lower number, and both are calls of the problem.
pub fn repeats<O: SeqObject>(problem: &Problem<O>, earlier: usize, call: usize) -> bool
    requires earlier { earlier < call }
    requires there { call < length problem.now.calls }
    ensures stands { IsTrue result → (set : List Bool) (s : O.State) → has set earlier ≡ false
        → StandsFor (problem_of O.after O.State.eq O.Reply.eq problem.now) set s earlier call }
    ensures nothing { IsTrue result → (set : List Bool) (s : O.State) → has set earlier ≡ false
        → AddsNothing (problem_of O.after O.State.eq O.Reply.eq problem.now) set s call }
{
    lawful::<O>();
    let calls = problem.calls();
    let first = &calls[earlier];
    let second = &calls[call];
    if !are_of_one_operation(problem.object(), first, second) {
        return false;
    }
    are_returned_alike(&first.returned, &second.returned)
}

/// Whether the call adds nothing where an earlier one, which can follow, was tried: it repeats that one, or it is pending,
/// and the earlier one, which has returned, has its operation, whichever processes make them.
///
/// Conditions: the earlier call has the lower number, and both are calls of the problem.
pub fn adds_nothing<O: SeqObject>(problem: &Problem<O>, tried: usize, call: usize) -> bool
    requires earlier { tried < call }
    requires there { call < length problem.now.calls }
    ensures stands { IsTrue result → (set : List Bool) (s t : O.State)
        → IsNext (problem_of O.after O.State.eq O.Reply.eq problem.now) set s tried t
        → StandsFor (problem_of O.after O.State.eq O.Reply.eq problem.now) set s tried call }
    ensures nothing { IsTrue result → (set : List Bool) (s t : O.State)
        → IsNext (problem_of O.after O.State.eq O.Reply.eq problem.now) set s tried t
        → AddsNothing (problem_of O.after O.State.eq O.Reply.eq problem.now) set s call }
{
    lawful::<O>();
    let calls = problem.calls();
    let first = &calls[tried];
    let second = &calls[call];
    if !are_of_one_operation(problem.object(), first, second) {
        return false;
    }
    comes_first(&first.returned, &second.returned)
}

/// Whether no further call need be tried once this one, which can follow, was: it changes nothing.
///
/// Condition: it is a call of the problem.
pub fn ends_the_list<O: SeqObject>(problem: &Problem<O>, call: usize) -> bool
    requires { call < length problem.now.calls }
    ensures leaves { IsTrue result
        → LeavesStates (problem_of O.after O.State.eq O.Reply.eq problem.now) call }
    ensures list { IsTrue result
        → EndsTheList (problem_of O.after O.State.eq O.Reply.eq problem.now) call }
{
    lawful::<O>();
    let taken = problem.call(call);
    problem.object().changes_nothing(&taken.op, &taken.returned)
}

// So many calls at most are kept in sight, to find one that is identical to a call: most are called by then.
const IN_SIGHT: usize = 32;

// Whether the call had not returned yet when this event came.
fn is_open_at<P, R>(call: &ProblemCall<P, R>, event: u32) -> bool {
    match &call.returned {
        Some((returned, _)) => *returned > event,
        None => true,
    }
}

// Leaves those calls in sight that had not returned yet when this event came.
fn keep_open<O: SeqObject>(problem: &Problem<O>, in_sight: &mut Vec<usize>, event: u32) {
    let calls = problem.calls();
    in_sight.retain(|call| match calls.get(*call) {
        Some(made) => is_open_at(made, event),
        None => false,
    });
}

// Puts the call behind those in sight. Where they are as many as may be, the first of them goes.
fn bring_in_sight(in_sight: &mut Vec<usize>, call: usize) -> Result<(), AllocError> {
    if in_sight.len() >= IN_SIGHT {
        in_sight.remove(0);
    }
    in_sight.push(call)?;
    Ok(())
}

// The latest of the calls in sight that the call repeats, or else the call itself.
fn latest_repeated<O: SeqObject>(problem: &Problem<O>, in_sight: &[usize], call: usize) -> usize
    requires { call < length problem.now.calls }
{
    for earlier in in_sight.iter().rev() {
        if *earlier < call && repeats(problem, *earlier, call) {
            return *earlier;
        }
    }
    call
}

// The latest of the calls in sight that may stand for the call where it can follow, or else the call itself.
fn latest_of_one_operation<O: SeqObject>(
    problem: &Problem<O>,
    in_sight: &[usize],
    call: usize,
) -> usize
    requires { call < length problem.now.calls }
{
    for earlier in in_sight.iter().rev() {
        if *earlier < call && adds_nothing(problem, *earlier, call) {
            return *earlier;
        }
    }
    call
}

/// For each call of a problem earlier ones of its operation, as far as they were found: for which it need not be tried.
///
/// They are hints: nothing is promised of the numbers, so who goes by them asks `repeats` or `adds_nothing` again.
#[derive(Drop)]
pub struct IdenticalCalls {
    repeated: Vec<u16>,
    completed: Vec<u16>,
}

// The number of the call as it is kept: a problem has no more calls than such numbers.
fn kept(call: usize) -> u16 {
    usize::min(call, u16::MAX as usize) as u16
}

impl IdenticalCalls {
    /// Of no call any. It takes no memory.
    pub fn none(alloc: Global) -> IdenticalCalls {
        IdenticalCalls {
            repeated: Vec::new(alloc),
            completed: Vec::new(alloc),
        }
    }

    /// For each call of the problem the latest one that it repeats, of those open when it was called that are completed or pending as
    /// it is; and for each pending call the latest completed one of its operation. Of more than 32 open at once the last 32 are
    /// looked at. `AllocError` where memory was refused.
    pub fn of<O: SeqObject>(
        alloc: Global,
        problem: &Problem<O>,
    ) -> Result<IdenticalCalls, AllocError> {
        let mut identical = IdenticalCalls::none(alloc);
        let mut completed = Vec::new(alloc);
        let mut pending = Vec::new(alloc);
        for call in 0..problem.len() {
            let made = problem.call(call);
            keep_open(problem, &mut completed, made.called);
            if made.returned.is_some() {
                let earlier = latest_repeated(problem, completed.as_slice(), call);
                identical.repeated.push(kept(earlier))?;
                identical.completed.push(kept(call))?;
                bring_in_sight(&mut completed, call)?;
            } else {
                let earlier = latest_repeated(problem, pending.as_slice(), call);
                identical.repeated.push(kept(earlier))?;
                let earlier = latest_of_one_operation(problem, completed.as_slice(), call);
                identical.completed.push(kept(earlier))?;
                bring_in_sight(&mut pending, call)?;
            }
        }
        Ok(identical)
    }

    /// A call that this one may repeat.
    pub fn repeated_by(&self, call: usize) -> Option<usize> {
        Some(*self.repeated.get(call)? as usize)
    }

    /// A completed call of the operation of this one, which is pending.
    pub fn completed_before(&self, call: usize) -> Option<usize> {
        Some(*self.completed.get(call)? as usize)
    }
}
