//! With which calls no completion begins since others are due.

ghost use Rattle.std.specs.Prelude.{◌≡◌, ◌<◌, None, Some, length, IfOk, IsTrue};
ghost use Rattle.lin_history.specs.Problems.LegalLists.{next};
ghost use Rattle.lin_history.specs.Problems.Problem.{problem_of};
ghost use Rattle.lin_history.specs.Problems.Precedence.{IsCompleted};
ghost use Rattle.lin_history.specs.Problems.AnyProblem.{any_problem};
ghost use Rattle.lin_ahead.specs.Values.Owners.{Changes, AreOwners};
ghost use Rattle.lin_ahead.specs.Values.Due.{IsInWith, AreInWith, IsDue, AnotherIsDue, ComesBetween, TwoChange};

use crate::values::call_values::CallValues;
use crate::values::due::Due;
use crate::values::owners::Owners;
use lin_history::Problem;
use lin_laws::precedes;
use lin_object::{AnyObject, ObjState, SeqObject};
use lin_search::Config;
use std::alloc::{AllocError, Global};

/// A configuration, a call that can follow it, and the state that this leads to.
#[derive(Clone, Copy, Drop)]
pub(crate) struct Next<'a> {
    /// The problem.
    pub problem: &'a Problem<AnyObject>,
    /// The configuration.
    pub config: &'a Config<AnyObject>,
    /// The call.
    pub call: usize,
    /// The state.
    pub state: &'a ObjState,
}

// The state after the call, where it has a step whose reply is the recorded one.
pub(crate) fn state_after<O: SeqObject>(
    alloc: Global,
    problem: &Problem<O>,
    state: &O::State,
    call: usize,
) -> Result<Option<O::State>, AllocError>
    requires { call < length problem.now.calls }
    ensures { IfOk result (λ answer. answer ≡ next
        (problem_of O.after O.State.eq O.Reply.eq problem.now) state.now call) }
{
    let taken = problem.call(call);
    let object = problem.object();
    match &taken.returned {
        None => {
            let answer = object.step(alloc, state, taken.process, &taken.op)?;
            Ok(answer.map(|(next, _)| next))
        }
        Some((_, recorded)) => object.step_with(alloc, state, taken.process, &taken.op, recorded),
    }
}

// Whether the call does not leave the state as it is.
pub(crate) fn changes(
    alloc: Global,
    problem: &Problem<AnyObject>,
    state: &ObjState,
    call: usize,
) -> Result<bool, AllocError>
    ensures { IfOk result (λ changes. IsTrue changes → Changes (any_problem problem.now) state.now call) }
{
    if call >= problem.len() {
        return Ok(false);
    }
    match state_after(alloc, problem, state, call)? {
        Some(next) => Ok(next != *state),
        None => Ok(true),
    }
}

// Whether the call is lifted, or is this one.
fn is_in_with(config: &Config<AnyObject>, more: Option<usize>, call: usize) -> bool
    ensures lifted { IsTrue result → IsInWith config.now.lifted more call }
    ensures left { IsInWith config.now.lifted more call → IsTrue result }
{
    config.has(call) || more == Some(call)
}

// Whether each of the calls is lifted, or is this one.
fn are_in_with(config: &Config<AnyObject>, more: Option<usize>, calls: &[usize]) -> bool
    ensures { IsTrue result → AreInWith config.now.lifted more calls.now }
{
    for call in calls {
        if !is_in_with(config, more, *call) {
            return false;
        }
    }
    true
}

// Whether the call returned.
fn is_completed(problem: &Problem<AnyObject>, call: usize) -> bool
    ensures { IsTrue result → IsCompleted (any_problem problem.now) call }
{
    match problem.calls().get(call) {
        Some(made) => made.returned.is_some(),
        None => false,
    }
}

// Whether the call is due once this one is lifted, if there is one.
pub(crate) fn is_due(
    problem: &Problem<AnyObject>,
    owners: &[Owners],
    config: &Config<AnyObject>,
    more: Option<usize>,
    call: usize,
) -> bool
    requires { AreOwners (any_problem problem.now) owners.now }
    ensures { IsTrue result → IsDue (any_problem problem.now) config.now.lifted more call }
{
    let Some(row) = owners.get(call) else {
        return false;
    };
    if !row.are_told || !is_completed(problem, call) {
        return false;
    }
    if is_in_with(config, more, call) {
        return false;
    }
    are_in_with(config, more, row.calls.as_slice())
}

// Whether another call than this one is due.
pub(crate) fn another_is_due(
    problem: &Problem<AnyObject>,
    owners: &[Owners],
    due: &Due,
    config: &Config<AnyObject>,
    call: usize,
) -> bool
    requires { AreOwners (any_problem problem.now) owners.now }
    ensures { IsTrue result → AnotherIsDue (any_problem problem.now) config.now.lifted call }
{
    match due.another(call) {
        Some(other) => other != call && is_due(problem, owners, config, None, other),
        None => false,
    }
}

impl<'a> Next<'a> {
    // Whether the call is due behind the next one.
    fn is_due(&self, owners: &[Owners], call: usize) -> bool
        requires { AreOwners (any_problem self.now.problem.now) owners.now }
        ensures { IsTrue result → IsDue (any_problem self.now.problem.now)
            self.now.config.now.lifted (Some self.now.call) call }
    {
        is_due(self.problem, owners, self.config, Some(self.call), call)
    }

    // Whether the call does not leave the state as it is.
    fn is_changed(&self, alloc: Global, call: usize) -> Result<bool, AllocError>
        ensures { IfOk result (λ changes. IsTrue changes
            → Changes (any_problem self.now.problem.now) self.now.state.now call) }
    {
        changes(alloc, self.problem, self.state, call)
    }

    // Whether two calls are due behind the next one that do not leave the state as it is.
    pub(crate) fn two_change(
        &self,
        alloc: Global,
        owners: &[Owners],
        due: &Due,
        values: &[CallValues],
    ) -> Result<bool, AllocError>
        requires { AreOwners (any_problem self.now.problem.now) owners.now }
        ensures { IfOk result (λ found. IsTrue found
            → TwoChange (any_problem self.now.problem.now) self.now.config.now.lifted
            self.now.call self.now.state.now) }
    {
        let Some((one, other)) = due.two_behind(values, self.call) else {
            return Ok(false);
        };
        if one == other || !self.is_due(owners, one) || !self.is_due(owners, other) {
            return Ok(false);
        }
        Ok(self.is_changed(alloc, one)? && self.is_changed(alloc, other)?)
    }

    // Whether a call is due behind the next one, and another one that is left goes before it and does not leave the state as it is.
    pub(crate) fn comes_between(
        &self,
        alloc: Global,
        owners: &[Owners],
        due: &Due,
        values: &[CallValues],
    ) -> Result<bool, AllocError>
        requires { AreOwners (any_problem self.now.problem.now) owners.now }
        ensures { IfOk result (λ found. IsTrue found
            → ComesBetween (any_problem self.now.problem.now) self.now.config.now.lifted
            self.now.call self.now.state.now) }
    {
        let Some((call, between)) = due.between(values, self.call) else {
            return Ok(false);
        };
        if !self.is_due(owners, call)
            || is_in_with(self.config, Some(self.call), between)
            || !precedes(self.problem, between, call)
        {
            return Ok(false);
        }
        self.is_changed(alloc, between)
    }
}
