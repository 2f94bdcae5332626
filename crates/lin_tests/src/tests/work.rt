//! All work is counted: a decision takes what its searches did, and where no work is left nothing is decided.

use super::searches::Event::{Call, Return};
use super::searches::{Event, posed_by};
use lin_decide::Ladder;
use lin_effort::efforts::ahead;
use lin_effort::{Decide, Decision, Work};
use lin_object::{Kind, Op, Reply};
use lin_search::NoStop;
use std::alloc::{AllocError, Global};

// Two calls, one after the other, of this operation and this one, with these replies.
fn one_after_the_other(first: Op, reply: Reply, second: Op, other: Reply) -> [Event; 4] {
    [
        Call(1, first),
        Return(0, reply),
        Call(1, second),
        Return(1, other),
    ]
}

// What is decided with so much work of an object before its full search, and how much of it is taken.
fn decided_with(
    alloc: Global,
    kind: Kind,
    events: &[Event],
    work: Work,
) -> Result<(Decision, Work), AllocError> {
    let problem = posed_by(alloc, kind, events);
    let mut stop = NoStop;
    let mut ladder = Ladder::new(&problem, work, &mut stop);
    let decision = ladder.decide(alloc, &problem, &ahead(problem.len(), None))?;
    Ok((decision, work.without(ladder.left())))
}

// Whether the order of these calls takes so much work, and is not found where there is no more.
fn takes(alloc: Global, kind: Kind, events: &[Event], work: Work) -> Result<bool, AllocError> {
    let (decision, taken) = decided_with(alloc, kind, events, Work::ANY)?;
    let Decision::Found(_) = decision else {
        return Ok(false);
    };
    let (decision, _) = decided_with(alloc, kind, events, work)?;
    Ok(taken == work && matches!(decision, Decision::Stopped))
}

// Whether the order of these two calls is found with three lifts' work for each beside that of what is known ahead, and nothing is decided
// with no more than that.
fn takes_a_search(alloc: Global, kind: Kind, events: &[Event]) -> Result<bool, AllocError> {
    let ahead = Work::of_rows(2);
    let (before, _) = decided_with(alloc, kind, events, ahead)?;
    let (decision, _) = decided_with(alloc, kind, events, ahead.and(Work::of_lifts(6)))?;
    Ok(matches!(before, Decision::Stopped) && matches!(decision, Decision::Found(_)))
}

// Whether that is so of a call, and after it one that asks for what it left.
fn search_takes_work(alloc: Global, kind: Kind, first: Op, second: Op, other: Reply) -> bool {
    let events = one_after_the_other(first, Reply::Okay, second, other);
    matches!(takes_a_search(alloc, kind, &events), Ok(true))
}

#[test]
fn a_first_search_takes_work(rt: HostRuntime) {
    let alloc = rt.alloc();
    let one = Reply::Int(1);
    assert!(rt; search_takes_work(alloc, Kind::Register, Op::Write(1), Op::Read, one));
    assert!(rt; search_takes_work(alloc, Kind::Counter, Op::Add(1), Op::Get, one));
    assert!(rt; search_takes_work(alloc, Kind::Queue, Op::Enqueue(1), Op::Dequeue, one));
    assert!(rt; search_takes_work(alloc, Kind::Stack, Op::Push(1), Op::Pop, one));
    assert!(rt; search_takes_work(alloc, Kind::Mutex, Op::Lock, Op::Unlock, Reply::Okay));
}

// A map and a set are searched key by key: two calls on one key take two lifts.
#[test]
fn a_search_by_key_takes_its_lifts(rt: HostRuntime) {
    let map = one_after_the_other(Op::Put(1, 1), Reply::Okay, Op::Lookup(1), Reply::Int(1));
    assert!(rt;
        matches!(
            takes(rt.alloc(), Kind::Map, &map, Work::of_lifts(2)),
            Ok(true)
        )
    );
    let yes = Reply::Flag(true);
    let set = one_after_the_other(Op::Insert(1), yes, Op::Contains(1), yes);
    assert!(rt;
        matches!(
            takes(rt.alloc(), Kind::Set, &set, Work::of_lifts(2)),
            Ok(true)
        )
    );
}
