//! Events that are recorded or read, and what is made of a history.

ghost use Rattle.std.specs.Prelude.{◌≡◌, ◌<◌, ℕ, List, Some, length, slice_get, IfOk, IfSome};
ghost use Rattle.lin_history.specs.Locality.RecordedWhole.{part_of};
ghost use Rattle.lin_history.specs.Problems.Linearizations.{IsLinearization};

use super::checking::are_calls;
use super::starved::{Attempt, Starved, TIMES, is_refused};
use lin_ahead::{RefutedSet, known_ahead, search_first};
use lin_history::{
    BuildFault, Builder, History, Order, Placed, Problem, ProblemFault, WholeOrder, join, verify,
};
use lin_object::{AnyObject, Kind, ObjState, Op, Reply};
use lin_search::{NoStop, Told};
use lin_text::{Cause, read_history};
use std::alloc::{AllocError, Global};
use std::mem;

// A declaration.
#[derive(Drop)]
struct Declaring {
    alloc: Global,
    builder: Builder,
}

impl Attempt for Declaring {
    fn attempt(&mut self) -> Result<bool, AllocError> {
        match self.builder.declare(self.alloc, "x", Kind::Register, 0) {
            Ok(()) => Ok(
                matches!(self.builder.find("x"), Some(found) if found.kind == Kind::Register),
            ),
            Err(BuildFault::OutOfMemory) if self.builder.find("x").is_none() => Err(AllocError),
            Err(_) => Ok(false),
        }
    }
}

#[test]
fn a_declaration_is_refused_or_recorded(rt: HostRuntime) {
    let mut declaring = Declaring {
        alloc: rt.alloc(),
        builder: Builder::new(rt.alloc()),
    };
    assert!(rt; is_refused(rt.alloc(), &mut declaring, 10));
}

// A call of a process on a register.
#[derive(Drop)]
struct Calling {
    alloc: Global,
    builder: Builder,
}

impl Attempt for Calling {
    fn attempt(&mut self) -> Result<bool, AllocError> {
        match self.builder.call(1, "x", Op::Write(1)) {
            Ok(()) => {
                let builder = mem::replace(&mut self.builder, Builder::new(self.alloc));
                Ok(builder.finish().call_count() == 1)
            }
            Err(BuildFault::OutOfMemory)
                if self.builder.ret(1, "x", Reply::Okay) == Err(BuildFault::NoCall(1)) => {
                Err(AllocError)
            }
            Err(_) => Ok(false),
        }
    }
}

#[test]
fn a_call_is_refused_or_recorded(rt: HostRuntime) {
    let mut calling = Calling {
        alloc: rt.alloc(),
        builder: Builder::new(rt.alloc()),
    };
    let declared = calling.builder.declare(rt.alloc(), "x", Kind::Register, 0);
    assert!(rt; declared == Ok(()) && is_refused(rt.alloc(), &mut calling, 20));
}

// A call of a problem by hand.
#[derive(Drop)]
struct Adding {
    problem: Problem<AnyObject>,
}

impl Attempt for Adding {
    fn attempt(&mut self) -> Result<bool, AllocError> {
        match self.problem.add_call(1, Op::Write(1), 2) {
            Ok(()) => Ok(self.problem.len() == 1),
            Err(ProblemFault::OutOfMemory) if self.problem.len() == 0 => Err(AllocError),
            Err(_) => Ok(false),
        }
    }
}

#[test]
fn a_call_by_hand_is_refused_or_added(rt: HostRuntime) {
    let mut adding = Adding {
        problem: Problem::new(rt.alloc(), AnyObject, ObjState::Register(0)),
    };
    assert!(rt; is_refused(rt.alloc(), &mut adding, 10));
}

/// Two enqueues at once, and two dequeues in another order.
pub const QUEUE: &str = r#"{"event":"object","object":"q","kind":"queue"}
{"event":"call","process":1,"object":"q","op":"enq","args":[1]}
{"event":"call","process":2,"object":"q","op":"enq","args":[2]}
{"event":"return","process":1,"object":"q","result":"ok"}
{"event":"return","process":2,"object":"q","result":"ok"}
{"event":"call","process":1,"object":"q","op":"deq"}
{"event":"return","process":1,"object":"q","result":2}
{"event":"call","process":2,"object":"q","op":"deq"}
{"event":"return","process":2,"object":"q","result":1}
"#;

// Two calls at once of one process, which is a fault of line 3.
const FAULTY: &str = r#"{"event":"object","object":"x","kind":"register"}
{"event":"call","process":1,"object":"x","op":"read"}
{"event":"call","process":1,"object":"x","op":"read"}
"#;

// Whether these are the calls of the queue.
fn is_the_queue(history: &History) -> bool {
    if history.call_count() != 4 || history.object_count() != 1 {
        return false;
    }
    let (first, last) = (history.call(0), history.call(3));
    (first.process, first.op, first.called) == (1, Op::Enqueue(1), 1)
        && (last.process, last.op, last.called) == (2, Op::Dequeue, 7)
        && last.returned == Some((8, Reply::Int(1)))
}

// A text that means the queue, or has that fault.
#[derive(Drop)]
struct Reading {
    alloc: Global,
    is_faulty: bool,
}

impl Attempt for Reading {
    fn attempt(&mut self) -> Result<bool, AllocError> {
        let text = if self.is_faulty { FAULTY } else { QUEUE };
        match read_history(self.alloc, text.as_bytes()) {
            Ok(history) => Ok(!self.is_faulty && is_the_queue(&history)),
            Err(fault) if fault.cause == Cause::OutOfMemory => Err(AllocError),
            Err(fault) => { Ok(self.is_faulty && fault.line == 3 && fault.cause == Cause::Busy(1)) }
        }
    }
}

#[test]
fn a_text_is_refused_memory_or_read(rt: HostRuntime) {
    for is_faulty in [false, true] {
        let mut reading = Reading {
            alloc: rt.alloc(),
            is_faulty,
        };
        assert!(rt; is_refused(rt.alloc(), &mut reading, 30));
    }
}

// The history of the queue, and a linearization of it.
#[derive(Drop)]
struct Known {
    alloc: Global,
    history: History,
    order: WholeOrder,
    verifies: bool,
}

impl Attempt for Known {
    fn attempt(&mut self) -> Result<bool, AllocError> {
        if self.verifies {
            return verify(self.alloc, &self.history, &self.order);
        }
        if self.history.object_count() == 0 {
            return Ok(false);
        }
        Ok(self.history.problem(self.alloc, 0)?.len() == 4)
    }
}

const ORDER: [(usize, Reply); 4] = [
    (1, Reply::Okay),
    (0, Reply::Okay),
    (2, Reply::Int(2)),
    (3, Reply::Int(1)),
];

// The order with its replies.
fn placed(alloc: Global) -> Result<WholeOrder, AllocError> {
    let mut placed = Vec::with_capacity(alloc, 4)?;
    for (call, reply) in ORDER {
        placed.push(Placed { call, reply })?;
    }
    Ok(WholeOrder::new(placed))
}

// Whether the queue's problem is made, or its order verified, after it was refused at least so often.
fn is_made(alloc: Global, verifies: bool, times: u64) -> Result<bool, AllocError> {
    let Ok(history) = read_history(alloc, QUEUE.as_bytes()) else {
        return Ok(false);
    };
    let mut known = Known {
        alloc,
        history,
        order: placed(alloc)?,
        verifies,
    };
    Ok(is_refused(alloc, &mut known, times))
}

#[test]
fn a_problem_and_a_check_of_an_order_are_refused_or_made(rt: HostRuntime) {
    assert!(rt; matches!(is_made(rt.alloc(), false, 10), Ok(true)));
    assert!(rt; matches!(is_made(rt.alloc(), true, 2), Ok(true)));
}

// How many times the orders were refused memory to be joined, with more and more room, until they were.
fn refusals_of_a_join(
    alloc: Global,
    starved: &mut Starved,
    history: &History,
    orders: &[Order],
) -> Option<u64>
    requires count { length orders.now ≡ length history.now.objects }
    requires each { (object : ℕ) (order : List ℕ) → slice_get orders.now object ≡ Some order
        → IsLinearization (part_of history.now object) order }
{
    let mut refused = 0u64;
    for step in 0..TIMES {
        if !starved.leave(step * 16) {
            return None;
        }
        match join(alloc, history, orders) {
            Ok(whole) if are_calls(whole.placed(), &[1, 0, 2, 3]) => return Some(refused),
            Ok(_) => return None,
            Err(AllocError) => refused = refused.saturating_add(1),
        }
    }
    None
}

// The linearization of the first object that a first search finds.
fn first_order(alloc: Global, history: &History) -> Result<Option<Order>, AllocError>
    requires { 0 < length history.now.objects }
    ensures { IfOk result (λ found. IfSome found (IsLinearization (part_of history.now 0))) }
{
    let problem = history.problem(alloc, 0)?;
    let Some(ahead) = known_ahead(alloc, &problem)? else {
        return Ok(None);
    };
    let mut refuted = RefutedSet::new(alloc);
    match search_first(alloc, &problem, &ahead, &mut refuted, 100, &mut NoStop)? {
        Told::Found(order) => Ok(Some(order)),
        Told::Refuted | Told::Nothing => Ok(None),
    }
}

// The same of the order of the queue, from a process that has all it wants.
fn joins_in_turn(alloc: Global) -> Result<Option<u64>, AllocError> {
    let Ok(history) = read_history(alloc, QUEUE.as_bytes()) else {
        return Ok(None);
    };
    if history.object_count() != 1 {
        return Ok(None);
    }
    let Some(order) = first_order(alloc, &history)? else {
        return Ok(None);
    };
    let mut starved = Starved::new(alloc, TIMES)?;
    Ok(refusals_of_a_join(alloc, &mut starved, &history, &[order]))
}

#[test]
fn orders_are_refused_or_joined(rt: HostRuntime) {
    let refused = joins_in_turn(rt.alloc());
    assert!(rt; matches!(refused, Ok(Some(4..))), "{refused:?}");
}
