//! Problems by hand, the verifier, and faults in words.

use lin_history::{
    BuildFault, Builder, History, Placed, Problem, ProblemFault, WholeOrder, verify,
};
use lin_object::{AnyObject, Kind, ObjState, Op, Reply};
use lin_text::{Cause, TextFault};
use lincheck::RunFault;
use std::alloc::{AllocError, Global};

// Whether a problem takes the events of one call, and refuses what comes late or without a call.
fn takes_a_call(problem: &mut Problem<AnyObject>) -> bool {
    problem.add_call(1, Op::Write(1), 2) == Ok(())
        && problem.add_call(2, Op::Read, 2) == Err(ProblemFault::Late)
        && problem.add_return(1, Reply::Okay, 3) == Err(ProblemFault::NoCall)
        && problem.add_return(0, Reply::Okay, 3) == Ok(())
        && problem.add_return(0, Reply::Okay, 4) == Err(ProblemFault::NoCall)
        && problem.len() == 1
}

#[test]
fn a_problem_takes_a_call_by_hand(rt: HostRuntime) {
    let mut problem = Problem::new(rt.alloc(), AnyObject, ObjState::Register(0));
    assert!(rt; takes_a_call(&mut problem));
}

// An event on an object.
#[derive(Clone, Copy)]
enum Event {
    // A process calls an operation.
    Call(u32, &'static str, Op),
    // The call of a process returns a reply.
    Return(u32, &'static str, Reply),
}

use Event::{Call, Return};

// A write of 1 and a read of 1 that overlap.
const READ_BESIDE_A_WRITE: [Event; 4] = [
    Call(1, "x", Op::Write(1)),
    Call(2, "x", Op::Read),
    Return(2, "x", Reply::Int(1)),
    Return(1, "x", Reply::Okay),
];

// Two writes, and after them a read of the first.
const STALE_READ: [Event; 6] = [
    Call(1, "x", Op::Write(1)),
    Return(1, "x", Reply::Okay),
    Call(1, "x", Op::Write(2)),
    Return(1, "x", Reply::Okay),
    Call(2, "x", Op::Read),
    Return(2, "x", Reply::Int(1)),
];

// A write to `x`, and meanwhile a write to `y`, a read of `x` that does not see it, and a read of `y`.
const CROSSED: [Event; 8] = [
    Call(1, "x", Op::Write(1)),
    Call(2, "y", Op::Write(7)),
    Return(2, "y", Reply::Okay),
    Call(2, "x", Op::Read),
    Return(2, "x", Reply::Int(0)),
    Call(2, "y", Op::Read),
    Return(2, "y", Reply::Int(7)),
    Return(1, "x", Reply::Okay),
];

// The history of two objects of one kind, `x` and `y`, with these events. An event that is refused is left out.
fn recorded(alloc: Global, kind: Kind, events: &[Event]) -> History {
    let mut builder = Builder::new(alloc);
    let _ = builder.declare(alloc, "x", kind, 0);
    let _ = builder.declare(alloc, "y", kind, 0);
    for event in events {
        let _ = match *event {
            Call(process, object, op) => builder.call(process, object, op),
            Return(process, object, reply) => builder.ret(process, object, reply),
        };
    }
    builder.finish()
}

// An order of calls with their replies, and whether it is a linearization.
type Row = (&'static [Event], &'static [(usize, Reply)], bool);

const ORDERS: [Row; 5] = [
    (
        &STALE_READ,
        &[(0, Reply::Okay), (2, Reply::Int(1)), (1, Reply::Okay)],
        false,
    ),
    (
        &CROSSED,
        &[
            (1, Reply::Okay),
            (2, Reply::Int(0)),
            (0, Reply::Okay),
            (3, Reply::Int(7)),
        ],
        true,
    ),
    (
        &CROSSED,
        &[
            (1, Reply::Okay),
            (2, Reply::Int(0)),
            (3, Reply::Int(7)),
            (0, Reply::Okay),
        ],
        true,
    ),
    (
        &CROSSED,
        &[
            (0, Reply::Okay),
            (1, Reply::Okay),
            (2, Reply::Int(0)),
            (3, Reply::Int(7)),
        ],
        false,
    ),
    (&READ_BESIDE_A_WRITE, &[(0, Reply::Okay)], false),
];

// The order of these calls.
fn order_of(alloc: Global, calls: &[(usize, Reply)]) -> Result<WholeOrder, AllocError> {
    let mut placed = Vec::new(alloc);
    for (call, reply) in calls {
        placed.push(Placed {
            call: *call,
            reply: *reply,
        })?;
    }
    Ok(WholeOrder::new(placed))
}

// Whether the calls, each with its reply, are a linearization of the history of registers with these events.
fn is_verified(
    alloc: Global,
    events: &[Event],
    calls: &[(usize, Reply)],
) -> Result<bool, AllocError> {
    let order = order_of(alloc, calls)?;
    verify(alloc, &recorded(alloc, Kind::Register, events), &order)
}

#[test]
fn orders_are_verified(rt: HostRuntime) {
    for (events, calls, wanted) in ORDERS {
        let verified = is_verified(rt.alloc(), events, calls);
        assert!(rt; matches!(verified, Ok(answer) if answer == wanted));
    }
}

const REFUSALS: [(BuildFault, &str); 9] = [
    (BuildFault::BadName, "bad object name"),
    (BuildFault::Declared, "object is declared already"),
    (BuildFault::TooManyObjects, "too many objects"),
    (BuildFault::UnknownObject, "unknown object"),
    (BuildFault::ProcessEnded(7), "process 7 has ended"),
    (BuildFault::Busy(7), "process 7 has a pending call"),
    (BuildFault::TooManyCalls, "too many calls"),
    (BuildFault::NoCall(7), "process 7 has no pending call"),
    (
        BuildFault::OtherObject(7),
        "process 7 has its pending call on another object",
    ),
];

const ENDS: [(RunFault, &str); 3] = [
    (RunFault::Read, "read failed"),
    (RunFault::Write, "write failed"),
    (RunFault::Memory, "out of memory"),
];

// Whether a refusal is told in these words.
fn is_told(alloc: Global, fault: &BuildFault, words: &str) -> Result<bool, AllocError> {
    Ok(format!(in alloc; "{fault}")?.as_str() == words)
}

// Whether the end of a run is told in these words.
fn is_told_of_a_run(alloc: Global, fault: RunFault, words: &str) -> Result<bool, AllocError> {
    Ok(format!(in alloc; "{fault}")?.as_str() == words)
}

// Whether the fault of a line is told with its number.
fn is_told_of_a_line(alloc: Global) -> Result<bool, AllocError> {
    let fault = TextFault {
        line: 7,
        cause: Cause::OtherObject(3),
    };
    let told = format!(in alloc; "{fault}")?;
    Ok(told.as_str() == "line 7: process 3 has its pending call on another object")
}

#[test]
fn refusals_are_told_in_words(rt: HostRuntime) {
    for (fault, words) in REFUSALS {
        assert!(rt; matches!(is_told(rt.alloc(), &fault, words), Ok(true)));
    }
}

#[test]
fn ends_of_runs_are_told_in_words(rt: HostRuntime) {
    for (fault, words) in ENDS {
        assert!(rt; matches!(is_told_of_a_run(rt.alloc(), fault, words), Ok(true)));
    }
}

#[test]
fn faults_of_lines_are_told_in_words(rt: HostRuntime) {
    assert!(rt; matches!(is_told_of_a_line(rt.alloc()), Ok(true)));
}
