//! A core is found where there is no order, and nowhere else.

use super::searches::Event::{Call, Return};
use super::searches::{Event, Part, posed_by, writes_and_a_read_of};
use lin_core::{Window, core_of, suffix_core_of_calls};
use lin_decide::Ladder;
use lin_effort::Work;
use lin_object::{Kind, Op, Reply};
use lin_search::NoStop;
use std::alloc::{AllocError, Global};

// A write, and two changes of the value that it wrote, one after the other.
const VALUE_THAT_IS_CHANGED_TWICE: [Event; 6] = [
    Call(1, Op::Write(1)),
    Return(0, Reply::Okay),
    Call(1, Op::Cas(1, 2)),
    Return(1, Reply::Flag(true)),
    Call(2, Op::Cas(1, 3)),
    Return(2, Reply::Flag(true)),
];

// How many calls the core of the problem has; none where none is found.
fn calls_in_core(alloc: Global, problem: &Part) -> Result<Option<usize>, AllocError> {
    let mut stop = NoStop;
    let mut ladder = Ladder::new(problem, Work::ANY, &mut stop);
    match core_of(alloc, problem, &mut ladder)? {
        Some(core) => Ok(Some(core.calls.len())),
        None => Ok(None),
    }
}

// With which event the core of the problem begins; none where it begins at the start, or none is found.
fn event_of_core(alloc: Global, problem: &Part) -> Result<Option<u32>, AllocError> {
    let mut stop = NoStop;
    let mut ladder = Ladder::new(problem, Work::ANY, &mut stop);
    match core_of(alloc, problem, &mut ladder)? {
        Some(core) => Ok(core.from),
        None => Ok(None),
    }
}

// Whether both changes are a core, from one event to another.
fn are_core_within(
    alloc: Global,
    problem: &Part,
    from: u32,
    event: u32,
) -> Result<bool, AllocError> {
    let window = Window {
        from,
        event,
        key: None,
        values: Vec::from_slice(alloc, &[1, 2, 3])?,
        calls: Vec::from_slice(alloc, &[1, 2])?,
    };
    let mut stop = NoStop;
    let mut ladder = Ladder::new(problem, Work::ANY, &mut stop);
    let core = suffix_core_of_calls(alloc, problem, window, &mut ladder)?;
    Ok(core.is_some())
}

#[test]
fn core_begins_at_an_event(rt: HostRuntime) {
    let problem = posed_by(rt.alloc(), Kind::Register, &VALUE_THAT_IS_CHANGED_TWICE);
    assert!(rt; matches!(event_of_core(rt.alloc(), &problem), Ok(Some(3))));
    assert!(rt; matches!(are_core_within(rt.alloc(), &problem, 3, 6), Ok(true)));
    assert!(rt; matches!(are_core_within(rt.alloc(), &problem, 2, 6), Ok(false)));
    assert!(rt; matches!(are_core_within(rt.alloc(), &problem, 3, 5), Ok(false)));
}

#[test]
fn history_with_an_order_has_no_core(rt: HostRuntime) {
    let problem = writes_and_a_read_of(rt.alloc(), 3);
    assert!(rt; matches!(calls_in_core(rt.alloc(), &problem), Ok(None)));
}
