//! The verifier: whether a list of calls is a linearization of the whole history. It shares no code with a search.

ghost use Rattle.std.specs.Prelude.{◌≡◌, ℕ, ◌<◌, ◌↔◌, true, false, Some, IsSomeAnd, length, map, MatchOption, IfOk, slice_get};
ghost use Rattle.lin_object.specs.contracts.reply.ReplyPartialEq.TheImpl.{eq-value as reply_eq};
ghost use Rattle.lin_object.specs.declared.state.ObjState.{ObjState as State};
ghost use Rattle.lin_object.specs.Kinds.{after};
ghost use Rattle.lin_history.specs.Problems.LegalLists.{fits};
ghost use Rattle.lin_history.specs.Recorder.Parts.{start_of};
ghost use Rattle.lin_history.specs.Locality.Whole.{HasReturned, KeepsOrder, Replays, IsLinearizationOfWhole};
ghost use Rattle.lin_history.specs.Verifier.Flags.{AreKnown, AreDistinctCalls, AreFlagsOf};
ghost use Rattle.lin_history.specs.Locality.RecordedWhole.{whole_of, start_at};

use crate::locality::placed::{Placed, WholeOrder};
use crate::recorder::history::{CallInfo, History};
use lin_object::{AnyObject, ObjState, Reply, SeqObject, start_state};
use std::alloc::{AllocError, Global};

// The call has a flag, which is not set.
fn is_new(flags: &[bool], call: usize) -> bool
    ensures { result ≡ true ↔ slice_get flags.now call ≡ Some false }
{
    match flags.get(call) {
        Some(flag) => !*flag,
        None => false,
    }
}

// A flag for each call of the history, set for those of the list; `None` where one of the list is no call of the history,
// or is there twice.
fn flags_of(
    alloc: Global,
    history: &History,
    placed: &[Placed],
) -> Result<Option<Vec<bool>>, AllocError>
    ensures { IfOk result (λ found. MatchOption found
        (AreDistinctCalls (whole_of history.now) placed.now → ⊥)
        (λ flags. AreDistinctCalls (whole_of history.now) placed.now
        × AreFlagsOf (whole_of history.now) placed.now flags.items)) }
{
    let mut flags = vec![in alloc; false; history.call_count()]?;
    for one in placed {
        if !is_new(flags.as_slice(), one.call) {
            return Ok(None);
        }
        flags[one.call] = true;
    }
    Ok(Some(flags))
}

// Every call that has returned has its flag set.
fn has_completed(history: &History, flags: &[bool]) -> bool
    requires { length flags.now ≡ length history.now.calls }
    ensures { result ≡ true ↔ ((call : ℕ) → HasReturned (whole_of history.now) call
        → slice_get flags.now call ≡ Some true) }
{
    for index in 0..history.call_count() {
        if history.call(index).returned.is_some() && !flags[index] {
            return false;
        }
    }
    true
}

// The call returned before the event of this number.
fn returned_before(call: &CallInfo, number: u32) -> bool
    ensures { result ≡ true ↔ IsSomeAnd call.now.returned (λ r. r.0 < number) }
{
    match call.returned {
        Some((returned, _)) => returned < number,
        None => false,
    }
}

// No call of the list returned before the greatest call event of those up to it.
fn keeps_order(history: &History, placed: &[Placed]) -> bool
    requires { AreKnown (whole_of history.now) placed.now }
    ensures { result ≡ true ↔ KeepsOrder (whole_of history.now) placed.now }
{
    let mut greatest = 0;
    for one in placed {
        let call = history.call(one.call);
        greatest = greatest.max(call.called);
        if returned_before(call, greatest) {
            return false;
        }
    }
    true
}

// The state in which each object starts.
fn start_states(alloc: Global, history: &History) -> Result<Vec<ObjState>, AllocError>
    ensures { IfOk result (λ states. states.items ≡ map start_of history.now.objects) }
{
    let mut states = Vec::new(alloc);
    for object in 0..history.object_count() {
        let info = history.object(object);
        states.push(start_state(alloc, info.kind, info.start))?;
    }
    Ok(states)
}

// The reply is the recorded one, where one is recorded.
fn is_recorded(call: &CallInfo, reply: Reply) -> bool
    ensures { result ≡ fits reply_eq.it reply call.now.returned }
{
    match call.returned {
        Some((_, recorded)) => reply == recorded,
        None => true,
    }
}

// The state after the call, where it has a step of this reply and that is the recorded one.
fn state_after(
    alloc: Global,
    state: &ObjState,
    call: &CallInfo,
    reply: Reply,
) -> Result<Option<ObjState>, AllocError>
    ensures { IfOk result (λ found. (next : State) → found ≡ Some next
        ↔ (after state.now call.now.process call.now.op ≡ Some (next, reply))
        × (fits reply_eq.it reply call.now.returned ≡ true)) }
{
    let Some((next, answer)) = AnyObject.step(alloc, state, call.process, &call.op)? else {
        return Ok(None);
    };
    if answer == reply && is_recorded(call, reply) {
        Ok(Some(next))
    } else {
        Ok(None)
    }
}

// The list is legal, replayed over a state for each object.
fn replays(alloc: Global, history: &History, placed: &[Placed]) -> Result<bool, AllocError>
    requires { AreKnown (whole_of history.now) placed.now }
    ensures { IfOk result (λ legal. legal ≡ true
        ↔ Replays (whole_of history.now) (start_at history.now) placed.now) }
{
    let mut states = start_states(alloc, history)?;
    for one in placed {
        let call = history.call(one.call);
        let object = call.object as usize;
        let Some(next) = state_after(alloc, &states[object], call, one.reply)? else {
            return Ok(false);
        };
        states[object] = next;
    }
    Ok(true)
}

/// Whether the order is a linearization of the history (Herlihy and Wing 1990): distinct calls of the history, with every
/// completed call, in an order that keeps real time and is legal when replayed over all objects, each with the reply of
/// its step, which is the recorded one where one is recorded. It may be any such order, and nothing of how one is found is
/// used here.
///
/// It takes a step for each call, and a flag for each call of the history. `AllocError` where memory was refused.
pub fn verify(alloc: Global, history: &History, order: &WholeOrder) -> Result<bool, AllocError>
    ensures { IfOk result (λ verified. verified ≡ true
        ↔ IsLinearizationOfWhole (whole_of history.now) order.now) }
{
    let placed = order.placed();
    let Some(flags) = flags_of(alloc, history, placed)? else {
        return Ok(false);
    };
    if !has_completed(history, flags.as_slice()) {
        return Ok(false);
    }
    if !keeps_order(history, placed) {
        return Ok(false);
    }
    replays(alloc, history, placed)
}
