//! Steps and copies.

use super::starved::{Attempt, is_refused};
use lin_object::{AnyObject, Kind, ObjState, Op, Reply, SeqObject, start_state};
use std::alloc::{AllocError, Global};

// A step from a state, and a copy of it.
#[derive(Drop)]
struct Stepping {
    alloc: Global,
    state: ObjState,
    op: Op,
    reply: Reply,
}

impl Attempt for Stepping {
    fn attempt(&mut self) -> Result<bool, AllocError> {
        let copy = AnyObject.copy_state(self.alloc, &self.state)?;
        let told = AnyObject.step(self.alloc, &self.state, 1, &self.op)?;
        Ok(copy == self.state && matches!(told, Some((_, reply)) if reply == self.reply))
    }
}

// The state of an object of this kind after an operation.
fn state_after(alloc: Global, kind: Kind, op: &Op) -> Result<ObjState, AllocError> {
    let start = start_state(alloc, kind, 0);
    match AnyObject.step(alloc, &start, 1, op)? {
        Some((state, _)) => Ok(state),
        None => Ok(start),
    }
}

// Whether a second operation is refused at least so often, until it has this reply.
fn is_stepped(alloc: Global, kind: Kind, ops: [Op; 2], reply: Reply, times: u64) -> bool {
    match state_after(alloc, kind, &ops[0]) {
        Ok(state) => {
            let mut stepping = Stepping {
                alloc,
                state,
                op: ops[1],
                reply,
            };
            is_refused(alloc, &mut stepping, times)
        }
        Err(AllocError) => false,
    }
}

#[test]
fn steps_and_copies_are_refused_or_made(rt: HostRuntime) {
    let stack = [Op::Push(1), Op::Push(2)];
    let queue = [Op::Enqueue(1), Op::Enqueue(2)];
    let map = [Op::Put(1, 10), Op::Put(2, 20)];
    assert!(rt; is_stepped(rt.alloc(), Kind::Stack, stack, Reply::Okay, 2));
    assert!(rt; is_stepped(rt.alloc(), Kind::Queue, queue, Reply::Okay, 2));
    assert!(rt; is_stepped(rt.alloc(), Kind::Map, map, Reply::Okay, 2));
}
