//! Maps: keys, each with a value.
ghost use Rattle.std.specs.Prelude.{◌≡◌, is_some, Some, None, IfOk, IfErr, IfSome, IfNone};
ghost use Rattle.lin_object.specs.Names.{beside, made_of};
ghost use Rattle.lin_object.specs.StepAnswers.{step_reply, step_state};
ghost use Rattle.lin_object.specs.StepBacks.{state_before};
ghost use Rattle.lin_object.specs.declared.op.Op.TheVariants.{Put, Delete};
ghost use Rattle.lin_object.specs.Changes.{undone};
ghost use Rattle.lin_object.specs.declared.state.ObjState.TheVariants.{Map};
ghost use Rattle.lin_object.specs.Kinds.Map.{map_operations, map_step, MapLaw};
ghost use Rattle.lin_object.specs.Kinds.{after};

use crate::kinds::Answer;
use crate::op::Op;
use crate::pairs::{Pair, Pairs};
use crate::reply::Reply;
use crate::state::ObjState;
use crate::step_back::{Change, StepBack};
use std::alloc::{AllocError, Global};
use std::mem;

/// Whether maps have an operation of that name.
pub(crate) fn has_op(name: &str) -> bool
    ensures { result ≡ is_some (beside map_operations name.now) }
{
    matches!(name, "put" | "get" | "delete")
}

/// The operation of a map with this name and these arguments, where there is one.
pub(crate) fn op_with(name: &str, args: &[i64]) -> Option<Op>
    ensures { result ≡ made_of (beside map_operations name.now) args.now }
{
    match (name, args) {
        ("put", [key, value]) => Some(Op::Put(*key, *value)),
        ("get", [key]) => Some(Op::Lookup(*key)),
        ("delete", [key]) => Some(Op::Delete(*key)),
        _ => None,
    }
}

/// The step of a map of the pairs.
pub(crate) fn step(alloc: Global, pairs: &Pairs, op: &Op) -> Result<Answer, AllocError>
    ensures { IfOk result (λ answer. answer ≡ map_step pairs.now op.now) }
{
    match op {
        Op::Put(key, value) => {
            let changed = pairs.with_value(alloc, *key, *value)?;
            Ok(Some((ObjState::Map(changed), Reply::Okay)))
        }
        Op::Lookup(key) => {
            let same = pairs.copy(alloc)?;
            Ok(Some((ObjState::Map(same), pairs.reply_to_lookup(*key))))
        }
        Op::Delete(key) => {
            let smaller = pairs.without_key(alloc, *key)?;
            Ok(Some((ObjState::Map(smaller), Reply::Flag(pairs.has(*key)))))
        }
        _ => Ok(None),
    }
}

/// What the step replies. It takes no memory, since it makes no state.
pub(crate) fn reply(pairs: &Pairs, op: &Op) -> Option<Reply>
    ensures { result ≡ step_reply (map_step pairs.now op.now) }
{
    match op {
        Op::Put(..) => Some(Reply::Okay),
        Op::Lookup(key) => Some(pairs.reply_to_lookup(*key)),
        Op::Delete(key) => Some(Reply::Flag(pairs.has(*key))),
        _ => None,
    }
}

// Gives the key the value, in the pairs themselves: what takes that back.
fn put_in_place(pairs: &mut Pairs, key: i64, value: i64) -> Result<StepBack<ObjState>, AllocError>
    ensures step { IfOk result (λ back. step_state (map_step pairs.old (Put key value)) ≡ Some (Map pairs.new)) }
    ensures back { IfOk result (λ back. state_before undone back (Map pairs.new) ≡ Map pairs.old) }
    ensures kept { IfErr result (λ _. pairs.new ≡ pairs.old) }
{
    let pair = Pair { key, value };
    match pairs.find(key) {
        (place, Some(_)) => {
            let before = pairs.replace(place, pair);
            Ok(StepBack::Changed(Change::ReplacedPair(place, before)))
        }
        (place, None) => {
            pairs.put_in(place, pair)?;
            Ok(StepBack::Changed(Change::PutPair(place)))
        }
    }
}

// Takes the key out, from the pairs themselves: what takes that back.
fn delete_in_place(
    alloc: Global,
    pairs: &mut Pairs,
    key: i64,
) -> Result<StepBack<ObjState>, AllocError>
    ensures step { IfOk result (λ back. step_state (map_step pairs.old (Delete key)) ≡ Some (Map pairs.new)) }
    ensures back { IfOk result (λ back. state_before undone back (Map pairs.new) ≡ Map pairs.old) }
    ensures kept { IfErr result (λ _. pairs.new ≡ pairs.old) }
{
    if pairs.lacks(key) {
        return Ok(StepBack::Changed(Change::Nothing));
    }
    match pairs.only_place_of(key) {
        Some(place) => {
            let taken = pairs.take_out(place);
            Ok(StepBack::Changed(Change::TookPair(place, taken)))
        }
        None => {
            let fewer = pairs.without_key(alloc, key)?;
            let before = mem::replace(pairs, fewer);
            Ok(StepBack::Before(ObjState::Map(before)))
        }
    }
}

/// Makes the step in the map of the pairs itself: what takes it back. `None` where it has none; the pairs stay as they
/// are then, and where memory was refused.
pub(crate) fn step_in_place(
    alloc: Global,
    pairs: &mut Pairs,
    op: &Op,
) -> Result<Option<StepBack<ObjState>>, AllocError>
    ensures step { IfOk result (λ answer. IfSome answer (λ back.
        step_state (map_step pairs.old op.now) ≡ Some (Map pairs.new))) }
    ensures back { IfOk result (λ answer. IfSome answer (λ back.
        state_before undone back (Map pairs.new) ≡ Map pairs.old)) }
    ensures none { IfOk result (λ answer. IfNone answer (
        (step_state (map_step pairs.old op.now) ≡ None) × (pairs.new ≡ pairs.old))) }
    ensures kept { IfErr result (λ _. pairs.new ≡ pairs.old) }
{
    match op {
        Op::Put(key, value) => Ok(Some(put_in_place(pairs, *key, *value)?)),
        Op::Lookup(_) => Ok(Some(StepBack::Changed(Change::Nothing))),
        Op::Delete(key) => Ok(Some(delete_in_place(alloc, pairs, *key)?)),
        _ => Ok(None),
    }
}

/// Takes the change of a map back. No memory is asked for: `AllocError` where there is no room for a pair, or the
/// change is none of its kind's.
pub(crate) fn take_back(pairs: &mut Pairs, change: Change) -> Result<(), AllocError>
    ensures { IfOk result (λ done. Map pairs.new ≡ undone change (Map pairs.old)) }
{
    match change {
        Change::PutPair(place) if place < pairs.count() => {
            pairs.take_out(place);
            Ok(())
        }
        Change::ReplacedPair(place, pair) if place < pairs.count() => {
            pairs.replace(place, pair);
            Ok(())
        }
        Change::TookPair(place, pair) if place <= pairs.count() => pairs.put_in_again(place, pair),
        Change::Nothing => Ok(()),
        _ => Err(AllocError),
    }
}

/// The law of maps, as one fact that a proof may cite. It does nothing.
pub fn map_law()
    ensures { MapLaw after ⟦<ObjState as PartialEq>⟧.eq }
{}
