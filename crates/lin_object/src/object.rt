//! What a sequential object is: the trait that the search is generic over, with its laws.
ghost use Rattle.std.specs.Prelude.{◌≡◌, ℕ, Bool, true, Option, Some, None, IfOk, IfErr, IfSome, IfNone, IsTrue};
ghost use Rattle.lin_object.specs.StepAnswers.{SameStep, fits, state_with, state_if_fits, IgnoresProcess, ChangesNothing};
ghost use Rattle.lin_object.specs.StepBacks.{state_before};
ghost use Rattle.lin_object.specs.declared.step_back.Change.{Change};
ghost use Rattle.lin_object.specs.Laws.{IsLawful};

use crate::step_back::StepBack;
use std::alloc::{AllocError, Global};
use std::hash::Hash;
use std::mem;

// Whether the reply is the recorded one, where one is recorded.
pub(crate) fn is_recorded<R: Eq>(reply: &R, returned: &Option<(u32, R)>) -> bool
    ensures { result ≡ fits R.eq reply.now returned.now }
{
    match returned {
        Some((_, recorded)) => *reply == *recorded,
        None => true,
    }
}

/// A sequential object: what its operations do when they are called one at a time.
///
/// It is deterministic: state, process and operation alone decide the next state and the reply. Where
/// it has no step, no call of that operation is legal (Herlihy and Wing 1990, section 2).
pub trait SeqObject: Eq + Drop {
    /// What the object remembers from one call to the next.
    type State: Eq + Hash + Drop;

    /// An operation with its arguments.
    type Op: Eq + Drop;

    /// What a call answers.
    type Reply: Eq + Drop;

    // The state after an operation of a process, and its reply; none where it has no step.
    ghost after: { Self → Self.State → ℕ → Self.Op → Option (Self.State × Self.Reply) };

    // Whether a step from the state, or a copy of it, may take memory. Where an object does not
    // say, each may.
    ghost may_allocate: { Self.State → Bool } = { λ _. true };

    // The state before a change that led to this one. Where an object does not say, it is the same.
    ghost undone: { Change → Self.State → Self.State } = { λ _ t. t };

    /// Applies an operation of a process to a state: the next state and the reply, or `None` where the
    /// object has no step. `AllocError` where memory for the next state was refused.
    fn step(
        &self,
        alloc: Global,
        state: &Self::State,
        process: u32,
        op: &Self::Op,
    ) -> Result<Option<(Self::State, Self::Reply)>, AllocError>
        ensures answer { IfOk result (λ answer. answer ≡ after self.now state.now process op.now) }
        ensures memory { IfErr result (λ _. may_allocate state.now ≡ true) };

    /// The next state, where the object has a step whose reply equals this one; `None` where it has none.
    /// `AllocError` where memory for the next state was refused.
    ///
    /// An object that knows the reply before it makes the next state does better with a body of its
    /// own: most calls that a search tries have another reply than the recorded one.
    fn step_with(
        &self,
        alloc: Global,
        state: &Self::State,
        process: u32,
        op: &Self::Op,
        reply: &Self::Reply,
    ) -> Result<Option<Self::State>, AllocError>
        ensures answer { IfOk result (λ answer.
            answer ≡ state_with Self.Reply.eq reply.now (after self.now state.now process op.now)) }
        ensures memory { IfErr result (λ _. may_allocate state.now ≡ true) }
    {
        let Some((next, answered)) = self.step(alloc, state, process, op)? else {
            return Ok(None);
        };
        if answered == *reply {
            Ok(Some(next))
        } else {
            Ok(None)
        }
    }

    /// Makes the step in the state itself, where the object has one whose reply is the recorded one, or any where none
    /// has returned: what takes it back. `None` where it has none, and then the state stays as it is. `AllocError` where
    /// memory was refused; the state stays as it is then too.
    ///
    /// An object whose states are large does better with a body of its own.
    fn step_in_place(
        &self,
        alloc: Global,
        state: &mut Self::State,
        process: u32,
        op: &Self::Op,
        returned: &Option<(u32, Self::Reply)>,
    ) -> Result<Option<StepBack<Self::State>>, AllocError>
        ensures step { IfOk result (λ answer. IfSome answer (λ back.
            state_if_fits Self.Reply.eq returned.now (after self.now state.old process op.now)
            ≡ Some state.new)) }
        ensures back { IfOk result (λ answer. IfSome answer (λ back.
            state_before undone back state.new ≡ state.old)) }
        ensures none { IfOk result (λ answer. IfNone answer (
            (state_if_fits Self.Reply.eq returned.now (after self.now state.old process op.now) ≡ None)
            × (state.new ≡ state.old))) }
        ensures kept { IfErr result (λ _. state.new ≡ state.old) }
        ensures memory { IfErr result (λ _. may_allocate state.old ≡ true) }
    {
        let Some((next, reply)) = self.step(alloc, state, process, op)? else {
            return Ok(None);
        };
        if !is_recorded(&reply, returned) {
            return Ok(None);
        }
        Ok(Some(StepBack::Before(mem::replace(state, next))))
    }

    /// Takes a step back that led to the state: the state is what it was before. No memory is asked for: `AllocError`
    /// where there is no room for what is put in again. What took the step back is of no more use.
    fn take_back(
        &self,
        state: &mut Self::State,
        back: &mut StepBack<Self::State>,
    ) -> Result<(), AllocError>
        ensures { IfOk result (λ done. state.new ≡ state_before undone back.old state.old) }
    {
        match back {
            StepBack::Before(before) => {
                mem::swap(state, before);
                Ok(())
            }
            StepBack::Changed(_) => Err(AllocError),
        }
    }

    /// A state equal to this one. `AllocError` where memory for it was refused.
    fn copy_state(&self, alloc: Global, state: &Self::State) -> Result<Self::State, AllocError>
        ensures copy { IfOk result (λ copy. Self.State.eq copy state.now ≡ true) }
        ensures memory { IfErr result (λ _. may_allocate state.now ≡ true) };

    /// Whether a step of the operation is that of any process: each step of it, or where a call with it has returned,
    /// each step with the reply that was returned (after the number of the return).
    ///
    /// `false` where that is not known, as it is where an object has no body of its own. A search leaves identical calls
    /// untried where it is `true`.
    fn ignores_process(&self, op: &Self::Op, returned: &Option<(u32, Self::Reply)>) -> bool
        ensures { IsTrue result → IgnoresProcess Self.Reply.eq (after self.now) op.now
            returned.now }
    {
        false
    }

    /// Whether a step of the operation leaves an equal state: each step of it, or where a call with it has returned, each
    /// step with the reply that was returned (after the number of the return).
    ///
    /// `false` where that is not known, as it is where an object has no body of its own. A search tries no further call
    /// after such a one where it is `true`.
    fn changes_nothing(&self, op: &Self::Op, returned: &Option<(u32, Self::Reply)>) -> bool
        ensures { IsTrue result → ChangesNothing Self.State.eq Self.Reply.eq (after self.now)
            op.now returned.now }
    {
        false
    }

    // Equal objects step alike on equal states and equal operations.
    ghost steps_alike: { (x y : Self) (s t : Self.State) (process : ℕ) (a b : Self.Op) →
        Self.eq x y ≡ true → Self.State.eq s t ≡ true → Self.Op.eq a b ≡ true →
        SameStep Self.State.eq Self.Reply.eq (after x s process a) (after y t process b) };
}

/// A sequential object that several threads may use at one time. Every `SeqObject` that can be is one.
pub trait SharedObject: SeqObject<State: Send + Sync, Op: Send + Sync, Reply: Send + Sync>
    + Send
    + Sync {}

impl<
    T: SeqObject<State: Send + Sync, Op: Send + Sync, Reply: Send + Sync> + Send + Sync,
> SharedObject for T {}

/// The laws of an object and its three types, as one fact that a proof may cite. It does nothing.
pub fn lawful<O: SeqObject>()
    ensures { IsLawful O.after O.eq O.State.eq O.Op.eq O.Reply.eq }
{}
