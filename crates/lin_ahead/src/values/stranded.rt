//! With which calls no completion begins since they leave calls to one owner alone that cannot own them all.

ghost use Rattle.std.specs.Prelude.{◌≡◌, ◌≢◌, ◌⊎◌, IfOk, IsTrue};
ghost use Rattle.lin_history.specs.Problems.AnyProblem.{any_problem};
ghost use Rattle.lin_ahead.specs.Values.Owners.{CanFollow, AreOwners};
ghost use Rattle.lin_ahead.specs.Values.Stranded.{FindsOneState, FindOneState, IsLeftTo, IsOfCluster, AreOfCluster, AreCrossed, StandsBetween, IsParted, AreStranded};

use crate::values::due_rules::{Next, changes, is_due, state_after};
use crate::values::owners::Owners;
use lin_history::Problem;
use lin_laws::precedes;
use lin_object::{AnyObject, ObjState};
use std::alloc::{AllocError, Global};

/// Calls that may cross: those of one owner, and those of another one.
#[derive(Clone, Copy)]
pub(crate) struct Crossing {
    /// The one owner.
    pub writer: usize,
    /// A call of it that returned early.
    pub first: usize,
    /// A call of it that was called late.
    pub last: usize,
    /// The other owner.
    pub other: usize,
    /// A call of that which was called after `first` returned.
    pub early: usize,
    /// A call of that which returned before `last` was called.
    pub late: usize,
}

/// Two calls of an owner, and one that may stand between them.
#[derive(Clone, Copy)]
pub(crate) struct Parting {
    /// The owner.
    pub writer: usize,
    /// A call of it that returned early.
    pub first: usize,
    /// A call of it that was called late.
    pub last: usize,
    /// A call that was called after `first` returned, and returned before `last` was called.
    pub between: usize,
}

/// Calls that may be stranded. It is a hint.
#[derive(Clone, Copy)]
pub(crate) enum Stranded {
    /// Calls of two owners cross.
    Crossed(Crossing),
    /// A call stands between two of one owner.
    Parted(Parting),
}

// Whether the call is known to find one state alone.
fn finds_one_state(problem: &Problem<AnyObject>, owners: &[Owners], call: usize) -> bool
    requires { FindOneState (any_problem problem.now) owners.now }
    ensures { IsTrue result → FindsOneState (any_problem problem.now) call }
{
    match owners.get(call) {
        Some(row) => row.are_told,
        None => false,
    }
}

// Whether one of the two is another call than the writer.
fn are_others(writer: usize, one: usize, other: usize) -> bool
    ensures { IsTrue result → (one ≢ writer) ⊎ (other ≢ writer) }
{
    one != writer || other != writer
}

// Whether the call could follow at the state.
fn can_follow(
    alloc: Global,
    problem: &Problem<AnyObject>,
    state: &ObjState,
    call: usize,
) -> Result<bool, AllocError>
    ensures { IfOk result (λ can. IsTrue can → CanFollow (any_problem problem.now) state.now call) }
{
    if call >= problem.len() {
        return Ok(false);
    }
    match state_after(alloc, problem, state, call)? {
        Some(_) => Ok(true),
        None => Ok(false),
    }
}

impl<'a> Next<'a> {
    // Whether the writer alone, of the owners of the call, is not lifted.
    fn is_left_to(&self, owners: &[Owners], writer: usize, call: usize) -> bool
        requires owners { AreOwners (any_problem self.now.problem.now) owners.now }
        ensures { IsTrue result → IsLeftTo (any_problem self.now.problem.now)
            self.now.config.now.lifted self.now.call writer call }
    {
        call != self.call && is_due(self.problem, owners, self.config, Some(writer), call)
    }

    // Whether the call is the writer, or left to it.
    fn is_of_cluster(&self, owners: &[Owners], writer: usize, call: usize) -> bool
        requires owners { AreOwners (any_problem self.now.problem.now) owners.now }
        ensures { IsTrue result → IsOfCluster (any_problem self.now.problem.now)
            self.now.config.now.lifted self.now.call writer call }
    {
        call == writer || self.is_left_to(owners, writer, call)
    }

    // Whether the two are of the writer's cluster, and one of them is left to it.
    fn are_of_cluster(&self, owners: &[Owners], writer: usize, one: usize, other: usize) -> bool
        requires { AreOwners (any_problem self.now.problem.now) owners.now }
        ensures { IsTrue result → AreOfCluster (any_problem self.now.problem.now)
            self.now.config.now.lifted self.now.call writer one other }
    {
        if !are_others(writer, one, other) {
            return false;
        }
        self.is_of_cluster(owners, writer, one) && self.is_of_cluster(owners, writer, other)
    }

    // Whether the calls of two owners cross, once the next call has changed the state.
    fn are_crossed(&self, owners: &[Owners], calls: &Crossing) -> bool
        requires { AreOwners (any_problem self.now.problem.now) owners.now }
        ensures { IsTrue result → AreCrossed (any_problem self.now.problem.now)
            self.now.config.now.lifted self.now.call }
    {
        if calls.writer == calls.other {
            return false;
        }
        if !precedes(self.problem, calls.first, calls.early) {
            return false;
        }
        if !precedes(self.problem, calls.late, calls.last) {
            return false;
        }
        self.are_of_cluster(owners, calls.writer, calls.first, calls.last)
            && self.are_of_cluster(owners, calls.other, calls.early, calls.late)
    }

    // Whether a call comes between two of an owner.
    fn stands_between(&self, owners: &[Owners], calls: &Parting) -> bool
        requires { AreOwners (any_problem self.now.problem.now) owners.now }
        ensures { IsTrue result → StandsBetween (any_problem self.now.problem.now)
            self.now.config.now.lifted self.now.call calls.now.writer calls.now.first calls.now.last calls.now.between }
    {
        if !precedes(self.problem, calls.first, calls.between) {
            return false;
        }
        if !precedes(self.problem, calls.between, calls.last) {
            return false;
        }
        self.is_of_cluster(owners, calls.writer, calls.first)
            && self.is_left_to(owners, calls.writer, calls.last)
    }

    // Whether a call comes between two of an owner that does not leave the state at hand, which the second one found.
    fn is_parted(
        &self,
        alloc: Global,
        owners: &[Owners],
        calls: &Parting,
    ) -> Result<bool, AllocError>
        requires owners { AreOwners (any_problem self.now.problem.now) owners.now }
        requires found { FindOneState (any_problem self.now.problem.now) owners.now }
        ensures { IfOk result (λ parted. IsTrue parted → IsParted (any_problem self.now.problem.now)
            self.now.config.now.lifted self.now.config.now.state self.now.call) }
    {
        if !self.stands_between(owners, calls)
            || !finds_one_state(self.problem, owners, calls.last)
        {
            return Ok(false);
        }
        let here = self.config.state();
        if !can_follow(alloc, self.problem, here, calls.last)? {
            return Ok(false);
        }
        changes(alloc, self.problem, here, calls.between)
    }

    /// Whether these calls are stranded, once the next call has changed the state.
    pub(crate) fn are_stranded(
        &self,
        alloc: Global,
        owners: &[Owners],
        calls: &Stranded,
    ) -> Result<bool, AllocError>
        requires owners { AreOwners (any_problem self.now.problem.now) owners.now }
        requires found { FindOneState (any_problem self.now.problem.now) owners.now }
        ensures { IfOk result (λ stranded. IsTrue stranded
            → AreStranded (any_problem self.now.problem.now) self.now.config.now.lifted
            self.now.config.now.state self.now.call) }
    {
        match calls {
            Stranded::Crossed(crossing) => Ok(self.are_crossed(owners, crossing)),
            Stranded::Parted(parting) => self.is_parted(alloc, owners, parting),
        }
    }
}
