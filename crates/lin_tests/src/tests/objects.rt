//! Objects: the calls that take memory.

use lin_object::{AnyObject, Items, ObjState, Op, Reply, SeqObject};
use std::alloc::{AllocError, Global};

// Whether the operation leads from the state, with this reply, to a copy of the other one.
fn leads(
    alloc: Global,
    state: &ObjState,
    op: Op,
    reply: Reply,
    next: &ObjState,
) -> Result<bool, AllocError> {
    let wanted = Some(AnyObject.copy_state(alloc, next)?);
    Ok(AnyObject.step_with(alloc, state, 1, &op, &reply)? == wanted)
}

// Whether a queue of two items gives out the first.
fn gives_out_the_first(alloc: Global) -> Result<bool, AllocError> {
    let one = Items::none(alloc).with_last(alloc, 2)?;
    let two = one.with_first(alloc, 1)?;
    leads(
        alloc,
        &ObjState::Queue(two),
        Op::Dequeue,
        Reply::Int(1),
        &ObjState::Queue(one),
    )
}

#[test]
fn a_queue_gives_out_its_first_item(rt: HostRuntime) {
    assert!(rt; matches!(gives_out_the_first(rt.alloc()), Ok(true)));
}
