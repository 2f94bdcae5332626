//! Configurations: a set of lifted calls, and the state that they lead to.
ghost use Rattle.std.specs.Prelude.{◌≡◌, ℕ, ◌<◌, ◌≤◌, ◌↔◌, true, false, Some, None, length, IfOk, IfSome, IfNone, IsTrue};
ghost use Rattle.lin_object.specs.StepBacks.{state_before};
ghost use Rattle.lin_history.specs.Problems.Problem.{problem_of};
ghost use Rattle.lin_history.specs.Problems.LegalLists.{next};
ghost use Rattle.lin_history.specs.Problems.Precedence.{Before};
ghost use Rattle.lin_history.specs.Problems.Continuations.{has, no_calls};
ghost use Rattle.lin_history.specs.Problems.Configurations.{IsReachable};
ghost use Rattle.lin_search.specs.CallSet.{with_call, sum_of};
ghost use Rattle.lin_search.specs.NextCall.{IsNext, HasEveryCompleted};
ghost use Rattle.lin_search.specs.Entries.{IsMinimal};

use crate::call_set::CallSet;
use lin_history::Problem;
use lin_object::{SeqObject, StepBack, lawful};
use std::alloc::{AllocError, Global};
use std::hash::{Hash, Hasher};
use std::marker::Model;

/// A configuration of a problem: the set of the calls that are lifted, and the state that they lead to
/// (Lowe 2017). Two are equal, and are hashed alike, where their sets are the same and their states equal.
#[derive(Drop)]
pub struct Config<O: SeqObject> {
    lifted: CallSet,
    state: O::State,
}

impl<O: SeqObject> Model for Config<O> {
    ghost use Rattle.lin_search.specs.Configuration.{Configuration};

    ghost Value = { Configuration O.State };

    ghost view = { λ config. record { lifted = config.lifted; state = config.state } };
}

impl<O: SeqObject> PartialEq for Config<O> {
    ghost use Rattle.lin_search.specs.Configuration.{same_configuration};
    ghost use Rattle.lin_search.specs.ConfigurationLemmas.{same_configuration_partial};

    ghost eq = { same_configuration O.State.eq };

    ghost laws = { same_configuration_partial O.State.PartialEq.laws };

    fn eq(&self, other: &Config<O>) -> bool {
        self.lifted == other.lifted && self.state == other.state
    }
}

impl<O: SeqObject> Eq for Config<O> {
    ghost use Rattle.lin_search.specs.ConfigurationLemmas.{same_configuration_equivalence};

    ghost laws = { same_configuration_equivalence O.State.Eq.laws };
}

impl<O: SeqObject> Hash for Config<O> {
    ghost use Rattle.std.specs.Prelude.{◌++◌};
    ghost use Rattle.lin_search.specs.CallSet.{fed_set};
    ghost use Rattle.lin_search.specs.ConfigurationLemmas.{same_input};

    ghost hash_input = { λ config. fed_set config.lifted ++ O.State.hash_input config.state };

    ghost respects_eq = { λ x y same. same_input O.State.eq O.State.hash_input
        O.State.Hash.respects_eq x y same };

    fn hash<H: Hasher>(&self, state: &mut H) {
        self.lifted.hash(state);
        self.state.hash(state);
    }
}

// Whether call a returned before call b was called.
fn before<O: SeqObject>(problem: &Problem<O>, a: usize, b: usize) -> bool
    requires a { a < length problem.now.calls }
    requires b { b < length problem.now.calls }
    ensures { IsTrue result ↔ Before (problem_of O.after O.State.eq O.Reply.eq problem.now) a b }
{
    match &problem.call(a).returned {
        Some((returned, _)) => *returned < problem.call(b).called,
        None => false,
    }
}

// Whether every call of a smaller number that returned before the call was called is in the set. The last of them are
// asked first: where one is left out, it is most often among these.
fn follows_earlier<O: SeqObject>(problem: &Problem<O>, set: &CallSet, call: usize) -> bool
    requires { call < length problem.now.calls }
    ensures { IsTrue result ↔ ((a : ℕ) → a < call
        → Before (problem_of O.after O.State.eq O.Reply.eq problem.now) a call
        → has set.now a ≡ true) }
{
    let mut left = call;
    while left > 0 {
        left -= 1;
        if before(problem, left, call) && !set.has(left) {
            return false;
        }
    }
    true
}

// Whether every call of another number that returned before the call was called is in the set.
fn follows_later<O: SeqObject>(problem: &Problem<O>, set: &CallSet, call: usize) -> bool
    requires { call < length problem.now.calls }
    ensures { IsTrue result ↔ ((a : ℕ) → call ≤ a
        → Before (problem_of O.after O.State.eq O.Reply.eq problem.now) a call
        → has set.now a ≡ true) }
{
    for other in call..problem.len() {
        if before(problem, other, call) && !set.has(other) {
            return false;
        }
    }
    true
}

// Whether the call is not in the set while every call that returned before it was called is.
fn is_minimal<O: SeqObject>(problem: &Problem<O>, set: &CallSet, call: usize) -> bool
    requires { call < length problem.now.calls }
    ensures { IsTrue result ↔ IsMinimal (problem_of O.after O.State.eq O.Reply.eq problem.now)
        set.now call }
{
    !set.has(call) && follows_earlier(problem, set, call) && follows_later(problem, set, call)
}

// The state after the call, where it has a step whose reply is the recorded one.
#[inline(always)]
fn state_after<O: SeqObject>(
    alloc: Global,
    problem: &Problem<O>,
    state: &O::State,
    call: usize,
) -> Result<Option<O::State>, AllocError>
    requires { call < length problem.now.calls }
    ensures { IfOk result (λ answer. answer ≡ next
        (problem_of O.after O.State.eq O.Reply.eq problem.now) state.now call) }
{
    let taken = problem.call(call);
    let object = problem.object();
    match &taken.returned {
        None => {
            let answer = object.step(alloc, state, taken.process, &taken.op)?;
            Ok(answer.map(|(next, _)| next))
        }
        Some((_, recorded)) => object.step_with(alloc, state, taken.process, &taken.op, recorded),
    }
}

// Makes the step of the call in the state itself, where it has one whose reply is the recorded one: what takes it back.
#[inline(always)]
fn step_in_state<O: SeqObject>(
    alloc: Global,
    problem: &Problem<O>,
    state: &mut O::State,
    call: usize,
) -> Result<Option<StepBack<O::State>>, AllocError>
    requires { call < length problem.now.calls }
    ensures next { IfOk result (λ answer. IfSome answer (λ back. next
        (problem_of O.after O.State.eq O.Reply.eq problem.now) state.old call ≡ Some state.new)) }
    ensures back { IfOk result (λ answer. IfSome answer (λ back. state_before O.undone back
        state.new ≡ state.old)) }
    ensures none { IfOk result (λ answer. IfNone answer ((next
        (problem_of O.after O.State.eq O.Reply.eq problem.now) state.old call ≡ None)
        × (state.new ≡ state.old))) }
{
    let taken = problem.call(call);
    let object = problem.object();
    object.step_in_place(alloc, state, taken.process, &taken.op, &taken.returned)
}

impl<O: SeqObject> Config<O> {
    /// The configuration in which a search begins: no call is lifted, and the state is the problem's at
    /// the start. `AllocError` where memory was refused.
    pub fn root(alloc: Global, problem: &Problem<O>) -> Result<Config<O>, AllocError>
        ensures lifted { IfOk result (λ root. root.lifted
            ≡ no_calls (problem_of O.after O.State.eq O.Reply.eq problem.now)) }
        ensures state { IfOk result (λ root. O.State.eq root.state problem.now.start ≡ true) }
        ensures reachable { IfOk result (λ root. IsReachable
            (problem_of O.after O.State.eq O.Reply.eq problem.now) root.lifted root.state) }
    {
        lawful::<O>();
        Ok(Config {
            lifted: CallSet::none(alloc, problem.calls().len())?,
            state: problem.object().copy_state(alloc, problem.start())?,
        })
    }

    /// The configuration that the call leads to. `None` exactly where the call can't follow: it is lifted,
    /// or a call that precedes it is not, or it has no step from the state, or its step's reply is not the
    /// recorded one. `AllocError` where memory was refused.
    ///
    /// Conditions: the configuration is reachable in the problem, and the call is below `problem.len()`.
    pub fn child(
        &self,
        alloc: Global,
        problem: &Problem<O>,
        call: usize,
    ) -> Result<Option<Config<O>>, AllocError>
        requires reachable { IsReachable (problem_of O.after O.State.eq O.Reply.eq problem.now)
            self.now.lifted self.now.state }
        requires call { call < length problem.now.calls }
        ensures some { IfOk result (λ answer. IfSome answer
            (λ child. (child.lifted ≡ with_call self.now.lifted call)
            × IsNext (problem_of O.after O.State.eq O.Reply.eq problem.now) self.now.lifted
            self.now.state call child.state)) }
        ensures reachable { IfOk result (λ answer. IfSome answer
            (λ child. IsReachable (problem_of O.after O.State.eq O.Reply.eq problem.now)
            child.lifted child.state)) }
        ensures none { IfOk result (λ answer. IfNone answer
            ((t : O.State) → IsNext (problem_of O.after O.State.eq O.Reply.eq problem.now)
            self.now.lifted self.now.state call t → ⊥)) }
    {
        if !is_minimal(problem, &self.lifted, call) {
            return Ok(None);
        }
        let Some(state) = self.next_state(alloc, problem, call)? else {
            return Ok(None);
        };
        let lifted = self.lifted.copy_with(alloc, call)?;
        Ok(Some(Config { lifted, state }))
    }

    /// The state that the call leads to. `None` exactly where it has no step from the state, or its step's reply is not the
    /// recorded one. `AllocError` where memory was refused.
    ///
    /// Conditions: the configuration is reachable in the problem, the call is not lifted, and what precedes it is.
    #[inline(always)]
    pub fn next_state(
        &self,
        alloc: Global,
        problem: &Problem<O>,
        call: usize,
    ) -> Result<Option<O::State>, AllocError>
        requires reachable { IsReachable (problem_of O.after O.State.eq O.Reply.eq problem.now)
            self.now.lifted self.now.state }
        requires minimal { IsMinimal (problem_of O.after O.State.eq O.Reply.eq problem.now)
            self.now.lifted call }
        ensures next { IfOk result (λ answer. IfSome answer
            (λ t. IsNext (problem_of O.after O.State.eq O.Reply.eq problem.now) self.now.lifted
            self.now.state call t)) }
        ensures reachable { IfOk result (λ answer. IfSome answer
            (λ t. IsReachable (problem_of O.after O.State.eq O.Reply.eq problem.now)
            (with_call self.now.lifted call) t)) }
        ensures none { IfOk result (λ answer. IfNone answer
            ((t : O.State) → IsNext (problem_of O.after O.State.eq O.Reply.eq problem.now)
            self.now.lifted self.now.state call t → ⊥)) }
    {
        lawful::<O>();
        state_after(alloc, problem, &self.state, call)
    }

    // Makes the step of the call, which is minimal, in the state itself, and lifts the call: what takes the step back.
    // `None` exactly where it has no step from the state, or its step's reply is not the recorded one.
    #[inline(always)]
    pub(crate) fn lift(
        &mut self,
        alloc: Global,
        problem: &Problem<O>,
        call: usize,
    ) -> Result<Option<StepBack<O::State>>, AllocError>
        requires reachable { IsReachable (problem_of O.after O.State.eq O.Reply.eq problem.now)
            self.old.lifted self.old.state }
        requires minimal { IsMinimal (problem_of O.after O.State.eq O.Reply.eq problem.now)
            self.old.lifted call }
        ensures lifted { IfOk result (λ answer. IfSome answer (λ back. self.new.lifted
            ≡ with_call self.old.lifted call)) }
        ensures next { IfOk result (λ answer. IfSome answer (λ back. IsNext
            (problem_of O.after O.State.eq O.Reply.eq problem.now) self.old.lifted self.old.state
            call self.new.state)) }
        ensures reachable { IfOk result (λ answer. IfSome answer (λ back. IsReachable
            (problem_of O.after O.State.eq O.Reply.eq problem.now) (with_call self.old.lifted call)
            self.new.state)) }
        ensures back { IfOk result (λ answer. IfSome answer (λ back. state_before O.undone back
            self.new.state ≡ self.old.state)) }
        ensures none { IfOk result (λ answer. IfNone answer
            ((t : O.State) → IsNext (problem_of O.after O.State.eq O.Reply.eq problem.now)
            self.old.lifted self.old.state call t → ⊥)) }
        ensures kept { IfOk result (λ answer. IfNone answer (self.new ≡ self.old)) }
    {
        lawful::<O>();
        let Some(back) = step_in_state(alloc, problem, &mut self.state, call)? else {
            return Ok(None);
        };
        self.lifted.insert(call)?;
        Ok(Some(back))
    }

    // Takes the call, which is lifted, out again.
    #[inline(always)]
    pub(crate) fn take_out(&mut self, call: usize) -> Result<(), AllocError>
        requires { has self.old.lifted call ≡ true }
        ensures lifted { IfOk result (λ done. with_call self.new.lifted call ≡ self.old.lifted) }
        ensures outside { IfOk result (λ done. has self.new.lifted call ≡ false) }
        ensures state { self.new.state ≡ self.old.state }
    {
        self.lifted.remove(call)
    }

    // Takes the step back that led to the state.
    #[inline(always)]
    pub(crate) fn take_back(
        &mut self,
        object: &O,
        back: &mut StepBack<O::State>,
    ) -> Result<(), AllocError>
        ensures lifted { self.new.lifted ≡ self.old.lifted }
        ensures state { IfOk result (λ done. self.new.state
            ≡ state_before O.undone back.old self.old.state) }
    {
        object.take_back(&mut self.state, back)
    }

    /// The calls that are lifted.
    pub fn lifted(&self) -> &CallSet
        ensures { result.now ≡ self.now.lifted }
    {
        &self.lifted
    }

    /// A configuration equal to this one. `AllocError` where memory was refused.
    ///
    /// Condition: the configuration is reachable in the problem.
    #[inline(always)]
    pub fn copy(&self, alloc: Global, problem: &Problem<O>) -> Result<Config<O>, AllocError>
        requires { IsReachable (problem_of O.after O.State.eq O.Reply.eq problem.now)
            self.now.lifted self.now.state }
        ensures lifted { IfOk result (λ copy. copy.lifted ≡ self.now.lifted) }
        ensures state { IfOk result (λ copy. O.State.eq copy.state self.now.state ≡ true) }
        ensures reachable { IfOk result (λ copy. IsReachable
            (problem_of O.after O.State.eq O.Reply.eq problem.now) copy.lifted copy.state) }
    {
        lawful::<O>();
        Ok(Config {
            lifted: self.lifted.copy(alloc)?,
            state: problem.object().copy_state(alloc, &self.state)?,
        })
    }

    /// The configuration with these calls lifted and this state.
    pub fn from_parts(lifted: CallSet, state: O::State) -> Self
        ensures { result ≡ record { lifted = lifted; state = state } }
    {
        Config { lifted, state }
    }

    /// The calls that are lifted, and the state.
    pub fn into_parts(self) -> (CallSet, O::State)
        ensures lifted { result.0 ≡ self.lifted }
        ensures state { result.1 ≡ self.state }
    {
        (self.lifted, self.state)
    }

    /// Whether the call is lifted.
    pub fn has(&self, call: usize) -> bool
        ensures { result ≡ has self.now.lifted call }
    {
        self.lifted.has(call)
    }

    /// The sum of the numbers of the lifted calls.
    pub fn sum(&self) -> u64
        ensures { result ≡ sum_of self.now.lifted }
    {
        self.lifted.sum()
    }

    /// The state that the lifted calls lead to.
    pub fn state(&self) -> &O::State
        ensures { result.now ≡ self.now.state }
    {
        &self.state
    }

    /// Whether every completed call is lifted, whatever pending calls remain: then nothing more has to
    /// follow.
    ///
    /// Condition: the configuration is reachable in the problem.
    pub fn is_complete(&self, problem: &Problem<O>) -> bool
        requires { IsReachable (problem_of O.after O.State.eq O.Reply.eq problem.now)
            self.now.lifted self.now.state }
        ensures { IsTrue result ↔ HasEveryCompleted
            (problem_of O.after O.State.eq O.Reply.eq problem.now) self.now.lifted }
    {
        for call in 0..problem.len() {
            if problem.call(call).returned.is_some() && !self.lifted.has(call) {
                return false;
            }
        }
        true
    }
}
