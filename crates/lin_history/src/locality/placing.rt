//! From an order of one object to the calls of the history, each with the reply of its step.

ghost use Rattle.std.specs.Prelude.{◌≡◌, ◌<◌, length, IfOk, IfSome};
ghost use Rattle.lin_object.specs.declared.state.ObjState.{ObjState};
ghost use Rattle.lin_history.specs.Problems.LegalLists.{Legal};
ghost use Rattle.lin_history.specs.Locality.JoinedOrder.{indices_from, Places};
ghost use Rattle.lin_history.specs.Locality.RecordedWhole.{whole_of, part_of, start_at};

use crate::locality::placed::Placed;
use crate::problems::order::Order;
use crate::recorder::history::History;
use crate::recorder::indices::indices_on;
use lin_object::{AnyObject, SeqObject, start_state};
use std::alloc::{AllocError, Global};

/// The calls of one object's order, by their indices in the history, each with the reply of its step. `AllocError` where
/// memory was refused.
///
/// Conditions: the object is declared, and the order is legal on it from its start.
pub fn place(
    alloc: Global,
    history: &History,
    object: usize,
    order: &Order,
) -> Result<Vec<Placed>, AllocError>
    requires object { object < length history.now.objects }
    requires legal { (t : ObjState) × Legal (part_of history.now object)
        (start_at history.now object) order.now t }
    ensures { IfOk result (λ placed. Places (whole_of history.now) object
        (start_at history.now object) order.now placed.items) }
{
    let indices = indices_on(alloc, history, object)?;
    place_at(alloc, history, object, indices.as_slice(), order)
}

/// The calls of one object's order, by their indices in the history, each with the reply of its step, where the indices
/// of the object's calls are known. The reply of a completed call is the recorded one, since the order is legal; so steps
/// are made only where a call of the order is pending. `AllocError` where memory was refused.
///
/// Conditions: the object is declared, the order is legal on it from its start, and these are the indices of its calls.
pub(crate) fn place_at(
    alloc: Global,
    history: &History,
    object: usize,
    indices: &[usize],
    order: &Order,
) -> Result<Vec<Placed>, AllocError>
    requires object { object < length history.now.objects }
    requires legal { (t : ObjState) × Legal (part_of history.now object)
        (start_at history.now object) order.now t }
    requires indices { indices.now ≡ indices_from object 0 history.now.calls }
    ensures { IfOk result (λ placed. Places (whole_of history.now) object
        (start_at history.now object) order.now placed.items) }
{
    if let Some(placed) = placed_as_recorded(alloc, history, object, indices, order)? {
        return Ok(placed);
    }
    placed_by_steps(alloc, history, object, indices, order)
}

// The calls of one object's order with the replies that they were recorded with; `None` where one of them is pending.
// Conditions: as of `place_at`.
fn placed_as_recorded(
    alloc: Global,
    history: &History,
    object: usize,
    indices: &[usize],
    order: &Order,
) -> Result<Option<Vec<Placed>>, AllocError>
    requires object { object < length history.now.objects }
    requires legal { (t : ObjState) × Legal (part_of history.now object)
        (start_at history.now object) order.now t }
    requires indices { indices.now ≡ indices_from object 0 history.now.calls }
    ensures { IfOk result (λ answer. IfSome answer (λ placed. Places (whole_of history.now) object
        (start_at history.now object) order.now placed.items)) }
{
    let mut placed = Vec::new(alloc);
    let calls = order.calls();
    for number in calls {
        let index = indices[*number];
        let Some((_, reply)) = history.call(index).returned else {
            return Ok(None);
        };
        placed.push(Placed { call: index, reply })?;
    }
    Ok(Some(placed))
}

// The calls of one object's order, each with the reply of its step. Conditions: as of `place_at`.
fn placed_by_steps(
    alloc: Global,
    history: &History,
    object: usize,
    indices: &[usize],
    order: &Order,
) -> Result<Vec<Placed>, AllocError>
    requires object { object < length history.now.objects }
    requires legal { (t : ObjState) × Legal (part_of history.now object)
        (start_at history.now object) order.now t }
    requires indices { indices.now ≡ indices_from object 0 history.now.calls }
    ensures { IfOk result (λ placed. Places (whole_of history.now) object
        (start_at history.now object) order.now placed.items) }
{
    let info = history.object(object);
    let mut state = start_state(alloc, info.kind, info.start);
    let mut placed = Vec::new(alloc);
    let calls = order.calls();
    for number in calls {
        let index = indices[*number];
        let call = history.call(index);
        let Some((next, reply)) = AnyObject.step(alloc, &state, call.process, &call.op)? else {
            unreachable!()
        };
        placed.push(Placed { call: index, reply })?;
        state = next;
    }
    Ok(placed)
}
