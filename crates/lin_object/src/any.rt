//! The object that the checker judges histories by: it lists the steps of the kinds.
ghost use Rattle.std.specs.Prelude.{◌≡◌, true, Some, None, IfOk, IfErr, IfSome, IfNone};
ghost use Rattle.lin_object.specs.StepAnswers.{step_reply, step_state};
ghost use Rattle.lin_object.specs.StepBacks.{state_before};
ghost use Rattle.lin_object.specs.Changes.{undone};
ghost use Rattle.lin_object.specs.declared.step_back.StepBack.TheVariants.{Changed};
ghost use Rattle.lin_object.specs.Kinds.{after as step_of, holds_items};

use crate::kinds::{Answer, counter, map, mutex, queue, register, set, stack};
use crate::object::{SeqObject, is_recorded};
use crate::op::Op;
use crate::reply::Reply;
use crate::state::ObjState;
use crate::step_back::{Change, StepBack};
use crate::step_tables::{changes_nothing, looks_at_process};
use std::alloc::{AllocError, Global};
use std::mem;

// What the step replies. It needs no memory: no state with items is made.
#[inline(always)]
fn reply_of(state: &ObjState, process: u32, op: &Op) -> Option<Reply>
    ensures { result ≡ step_reply (step_of state.now process op.now) }
{
    match state {
        ObjState::Register(value) => register::step(*value, op).map(|(_, reply)| reply),
        ObjState::Counter(value) => counter::step(*value, op).map(|(_, reply)| reply),
        ObjState::Queue(items) => queue::reply(items, op),
        ObjState::Stack(items) => stack::reply(items, op),
        ObjState::Set(items) => set::reply(items, op),
        ObjState::Mutex(holder) => mutex::step(*holder, process, op).map(|(_, reply)| reply),
        ObjState::Map(pairs) => map::reply(pairs, op),
    }
}

// What takes the change back, where there is one.
#[inline(always)]
fn changed(change: Option<Change>) -> Option<StepBack<ObjState>>
    ensures some { IfSome change (λ change. result ≡ Some (Changed change)) }
    ensures none { IfNone change (result ≡ None) }
{
    match change {
        Some(change) => Some(StepBack::Changed(change)),
        None => None,
    }
}

// Makes the step in the state itself, whatever it replies.
#[inline(always)]
fn stepped(
    alloc: Global,
    state: &mut ObjState,
    process: u32,
    op: &Op,
) -> Result<Option<StepBack<ObjState>>, AllocError>
    ensures step { IfOk result (λ answer. IfSome answer (λ back.
        step_state (step_of state.old process op.now) ≡ Some state.new)) }
    ensures back { IfOk result (λ answer. IfSome answer (λ back.
        state_before undone back state.new ≡ state.old)) }
    ensures none { IfOk result (λ answer. IfNone answer (
        (step_state (step_of state.old process op.now) ≡ None) × (state.new ≡ state.old))) }
    ensures kept { IfErr result (λ _. state.new ≡ state.old) }
    ensures memory { IfErr result (λ _. holds_items state.old ≡ true) }
{
    match state {
        ObjState::Register(value) => Ok(changed(register::step_in_place(value, op))),
        ObjState::Counter(number) => Ok(changed(counter::step_in_place(number, op))),
        ObjState::Queue(items) => Ok(changed(queue::step_in_place(items, op)?)),
        ObjState::Stack(items) => Ok(changed(stack::step_in_place(alloc, items, op)?)),
        ObjState::Set(items) => set::step_in_place(alloc, items, op),
        ObjState::Mutex(holder) => { Ok(changed(mutex::step_in_place(holder, process, op))) }
        ObjState::Map(pairs) => map::step_in_place(alloc, pairs, op),
    }
}

// Takes the change back.
#[inline(always)]
fn change_taken_back(state: &mut ObjState, change: Change) -> Result<(), AllocError>
    ensures { IfOk result (λ done. state.new ≡ undone change state.old) }
{
    match state {
        ObjState::Register(value) => register::take_back(value, change),
        ObjState::Counter(number) => counter::take_back(number, change),
        ObjState::Queue(items) => queue::take_back(items, change),
        ObjState::Stack(items) => stack::take_back(items, change),
        ObjState::Set(items) => set::take_back(items, change),
        ObjState::Mutex(holder) => mutex::take_back(holder, change),
        ObjState::Map(pairs) => map::take_back(pairs, change),
    }
}

// The same state.
#[inline(always)]
fn copied(alloc: Global, state: &ObjState) -> Result<ObjState, AllocError>
    ensures copy { IfOk result (λ copy. copy ≡ state.now) }
    ensures memory { IfErr result (λ _. holds_items state.now ≡ true) }
{
    match state {
        ObjState::Register(value) => Ok(ObjState::Register(*value)),
        ObjState::Counter(value) => Ok(ObjState::Counter(*value)),
        ObjState::Queue(items) => Ok(ObjState::Queue(items.copy(alloc)?)),
        ObjState::Stack(items) => Ok(ObjState::Stack(items.copy(alloc)?)),
        ObjState::Set(items) => Ok(ObjState::Set(items.copy(alloc)?)),
        ObjState::Mutex(holder) => Ok(ObjState::Mutex(*holder)),
        ObjState::Map(pairs) => Ok(ObjState::Map(pairs.copy(alloc)?)),
    }
}

/// The object that histories are judged by: it has the operations of every kind. An operation of
/// another kind than the state's has no step.
#[derive(Clone, Copy, PartialEq, Eq, Hash, Debug)]
pub struct AnyObject;

impl SeqObject for AnyObject {
    ghost use Rattle.std.specs.Prelude.{◌≡◌, not, IsTrue};
    ghost use Rattle.lin_object.specs.Kinds.{after as step_of, holds_items};
    ghost use Rattle.lin_object.specs.contracts.reply.ReplyPartialEq.TheImpl.{eq-value as reply_eq};
    ghost use Rattle.lin_object.specs.contracts.state.ObjStatePartialEq.TheImpl.{eq-value as state_eq};
    ghost use Rattle.lin_object.specs.StepAnswers.{IgnoresProcess, ChangesNothing};
    ghost use Rattle.lin_object.specs.StepTables.{looks_at_process, changes_nothing};
    ghost use Rattle.lin_object.specs.Changes.{undone};

    type State = ObjState;

    type Op = Op;

    type Reply = Reply;

    ghost after = { λ _ state process op. step_of state process op };

    ghost may_allocate = { holds_items };

    ghost undone = { λ change t. undone change t };

    #[inline(always)]
    fn step(
        &self,
        alloc: Global,
        state: &ObjState,
        process: u32,
        op: &Op,
    ) -> Result<Answer, AllocError> {
        match state {
            ObjState::Register(value) => Ok(register::step(*value, op)),
            ObjState::Counter(value) => Ok(counter::step(*value, op)),
            ObjState::Queue(items) => queue::step(alloc, items, op),
            ObjState::Stack(items) => stack::step(alloc, items, op),
            ObjState::Set(items) => set::step(alloc, items, op),
            ObjState::Mutex(holder) => Ok(mutex::step(*holder, process, op)),
            ObjState::Map(pairs) => map::step(alloc, pairs, op),
        }
    }

    #[inline(always)]
    fn step_with(
        &self,
        alloc: Global,
        state: &ObjState,
        process: u32,
        op: &Op,
        reply: &Reply,
    ) -> Result<Option<ObjState>, AllocError> {
        match reply_of(state, process, op) {
            Some(answered) if answered == *reply => {
                Ok(self.step(alloc, state, process, op)?.map(|(next, _)| next))
            }
            _ => Ok(None),
        }
    }

    #[inline(always)]
    fn step_in_place(
        &self,
        alloc: Global,
        state: &mut ObjState,
        process: u32,
        op: &Op,
        returned: &Option<(u32, Reply)>,
    ) -> Result<Option<StepBack<ObjState>>, AllocError> {
        match reply_of(state, process, op) {
            Some(answered) if is_recorded(&answered, returned) => {
                stepped(alloc, state, process, op)
            }
            _ => Ok(None),
        }
    }

    #[inline(always)]
    fn take_back(
        &self,
        state: &mut ObjState,
        back: &mut StepBack<ObjState>,
    ) -> Result<(), AllocError> {
        match back {
            StepBack::Before(before) => {
                mem::swap(state, before);
                Ok(())
            }
            StepBack::Changed(change) => change_taken_back(state, *change),
        }
    }

    #[inline(always)]
    fn copy_state(&self, alloc: Global, state: &ObjState) -> Result<ObjState, AllocError> {
        copied(alloc, state)
    }

    fn ignores_process(&self, op: &Op, returned: &Option<(u32, Reply)>) -> bool
        ensures law { IsTrue result → IgnoresProcess reply_eq.it step_of op.now returned.now }
        ensures exact { result ≡ not (looks_at_process op.now returned.now) }
    {
        !looks_at_process(op, returned)
    }

    fn changes_nothing(&self, op: &Op, returned: &Option<(u32, Reply)>) -> bool
        ensures law { IsTrue result → ChangesNothing state_eq.it reply_eq.it step_of op.now
            returned.now }
        ensures exact { result ≡ changes_nothing op.now returned.now }
    {
        changes_nothing(op, returned)
    }

    ghost use Rattle.lin_object.specs.StepLemmas.{alike};

    ghost steps_alike = { λ x y s t process a b same_object same_state same_op. alike s t process a b same_state same_op };
}
