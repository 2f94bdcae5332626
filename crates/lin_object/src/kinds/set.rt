//! Sets: items that are in it or not.
ghost use Rattle.std.specs.Prelude.{◌≡◌, is_some, Some, None, IfOk, IfErr, IfSome, IfNone};
ghost use Rattle.lin_object.specs.Names.{beside, made_of};
ghost use Rattle.lin_object.specs.StepAnswers.{step_reply, step_state};
ghost use Rattle.lin_object.specs.StepBacks.{state_before};
ghost use Rattle.lin_object.specs.Changes.{undone};
ghost use Rattle.lin_object.specs.declared.state.ObjState.TheVariants.{Set};
ghost use Rattle.lin_object.specs.Kinds.Set.{set_operations, set_step, SetLaw};
ghost use Rattle.lin_object.specs.Kinds.{after};
ghost use Rattle.lin_object.specs.declared.op.Op.TheVariants.{Insert, Remove};

use crate::items::Items;
use crate::kinds::Answer;
use crate::op::Op;
use crate::reply::Reply;
use crate::state::ObjState;
use crate::step_back::{Change, StepBack};
use std::alloc::{AllocError, Global};
use std::mem;

/// Whether sets have an operation of that name.
pub(crate) fn has_op(name: &str) -> bool
    ensures { result ≡ is_some (beside set_operations name.now) }
{
    matches!(name, "add" | "remove" | "contains")
}

/// The operation of a set with this name and these arguments, where there is one.
pub(crate) fn op_with(name: &str, args: &[i64]) -> Option<Op>
    ensures { result ≡ made_of (beside set_operations name.now) args.now }
{
    match (name, args) {
        ("add", [item]) => Some(Op::Insert(*item)),
        ("remove", [item]) => Some(Op::Remove(*item)),
        ("contains", [item]) => Some(Op::Contains(*item)),
        _ => None,
    }
}

// The step that puts the item in.
fn insert(alloc: Global, items: &Items, item: i64) -> Result<Answer, AllocError>
    ensures { IfOk result (λ answer. answer ≡ set_step items.now (Insert item)) }
{
    if items.has(item) {
        let same = items.copy(alloc)?;
        return Ok(Some((ObjState::Set(same), Reply::Flag(false))));
    }
    let larger = items.with_in_order(alloc, item)?;
    Ok(Some((ObjState::Set(larger), Reply::Flag(true))))
}

// The step that takes the item out.
fn remove(alloc: Global, items: &Items, item: i64) -> Result<Answer, AllocError>
    ensures { IfOk result (λ answer. answer ≡ set_step items.now (Remove item)) }
{
    if !items.has(item) {
        let same = items.copy(alloc)?;
        return Ok(Some((ObjState::Set(same), Reply::Flag(false))));
    }
    let smaller = items.without(alloc, item)?;
    Ok(Some((ObjState::Set(smaller), Reply::Flag(true))))
}

/// The step of a set of the items.
pub(crate) fn step(alloc: Global, items: &Items, op: &Op) -> Result<Answer, AllocError>
    ensures { IfOk result (λ answer. answer ≡ set_step items.now op.now) }
{
    match op {
        Op::Insert(item) => insert(alloc, items, *item),
        Op::Remove(item) => remove(alloc, items, *item),
        Op::Contains(item) => {
            let same = items.copy(alloc)?;
            Ok(Some((ObjState::Set(same), Reply::Flag(items.has(*item)))))
        }
        _ => Ok(None),
    }
}

/// What the step replies. It takes no memory, since it makes no state.
pub(crate) fn reply(items: &Items, op: &Op) -> Option<Reply>
    ensures { result ≡ step_reply (set_step items.now op.now) }
{
    match op {
        Op::Insert(item) => Some(Reply::Flag(!items.has(*item))),
        Op::Remove(item) | Op::Contains(item) => Some(Reply::Flag(items.has(*item))),
        _ => None,
    }
}

// Puts the item in, in the items themselves: what takes that back.
fn insert_in_place(items: &mut Items, item: i64) -> Result<StepBack<ObjState>, AllocError>
    ensures step { IfOk result (λ back. step_state (set_step items.old (Insert item)) ≡ Some (Set items.new)) }
    ensures back { IfOk result (λ back. state_before undone back (Set items.new) ≡ Set items.old) }
    ensures kept { IfErr result (λ _. items.new ≡ items.old) }
{
    if !items.has(item) {
        let place = items.put_in_order(item)?;
        return Ok(StepBack::Changed(Change::PutItem(place)));
    }
    // It was there before, and stays there.
    Ok(StepBack::Changed(Change::Nothing))
}

// Takes the item out, from the items themselves: what takes that back.
fn remove_in_place(
    alloc: Global,
    items: &mut Items,
    item: i64,
) -> Result<StepBack<ObjState>, AllocError>
    ensures step { IfOk result (λ back. step_state (set_step items.old (Remove item)) ≡ Some (Set items.new)) }
    ensures back { IfOk result (λ back. state_before undone back (Set items.new) ≡ Set items.old) }
    ensures kept { IfErr result (λ _. items.new ≡ items.old) }
{
    if !items.has(item) {
        return Ok(StepBack::Changed(Change::Nothing));
    }
    match items.only_place_of(item) {
        Some(place) => {
            let taken = items.take_out(place);
            Ok(StepBack::Changed(Change::TookItem(place, taken)))
        }
        None => {
            let fewer = items.without(alloc, item)?;
            let before = mem::replace(items, fewer);
            Ok(StepBack::Before(ObjState::Set(before)))
        }
    }
}

/// Makes the step in the set of the items itself: what takes it back. `None` where it has none; the items stay as they
/// are then, and where memory was refused.
pub(crate) fn step_in_place(
    alloc: Global,
    items: &mut Items,
    op: &Op,
) -> Result<Option<StepBack<ObjState>>, AllocError>
    ensures step { IfOk result (λ answer. IfSome answer (λ back.
        step_state (set_step items.old op.now) ≡ Some (Set items.new))) }
    ensures back { IfOk result (λ answer. IfSome answer (λ back.
        state_before undone back (Set items.new) ≡ Set items.old)) }
    ensures none { IfOk result (λ answer. IfNone answer (
        (step_state (set_step items.old op.now) ≡ None) × (items.new ≡ items.old))) }
    ensures kept { IfErr result (λ _. items.new ≡ items.old) }
{
    match op {
        Op::Insert(item) => Ok(Some(insert_in_place(items, *item)?)),
        Op::Remove(item) => Ok(Some(remove_in_place(alloc, items, *item)?)),
        Op::Contains(_) => Ok(Some(StepBack::Changed(Change::Nothing))),
        _ => Ok(None),
    }
}

/// Takes the change of a set back. No memory is asked for: `AllocError` where there is no room for an item, or the
/// change is none of its kind's.
pub(crate) fn take_back(items: &mut Items, change: Change) -> Result<(), AllocError>
    ensures { IfOk result (λ done. Set items.new ≡ undone change (Set items.old)) }
{
    match change {
        Change::PutItem(place) if place < items.count() => {
            items.take_out(place);
            Ok(())
        }
        Change::TookItem(place, item) if place <= items.count() => items.put_in_again(place, item),
        Change::Nothing => Ok(()),
        _ => Err(AllocError),
    }
}

/// The law of sets, as one fact that a proof may cite. It does nothing.
pub fn set_law()
    ensures { SetLaw after ⟦<ObjState as PartialEq>⟧.eq }
{}
