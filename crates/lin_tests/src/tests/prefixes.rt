//! Searches of prefixes find the order or the longest run that a full search finds, and need few lifts for that.

use super::random::random_history;
use super::searches::Event::{Call, Return};
use super::searches::{Event, Part, posed_by};
use lin_decide::Ladder;
use lin_effort::{Decide, Work};
use lin_object::{Kind, Op, Reply};
use lin_prefixes::{Hint, WholeAnswer, longest_run_by_prefixes, search_by_prefixes};
use lin_search::{NoStop, Outcome, OwnMemo, longest_run, search_alone};
use std::alloc::{AllocError, Global};

// What searches of prefixes tell with so many lifts.
fn told_by_prefixes(
    alloc: Global,
    problem: &Part,
    lifts: u64,
) -> Result<Option<WholeAnswer>, AllocError> {
    let mut stop = NoStop;
    let mut ladder = Ladder::new(problem, Work::of_lifts(lifts), &mut stop);
    search_by_prefixes(alloc, problem, &mut ladder)
}

// Whether searches of prefixes answer as the full search does.
fn prefixes_agree(alloc: Global, problem: &Part) -> Result<bool, AllocError> {
    let answer = told_by_prefixes(alloc, problem, 1_000_000)?;
    let (outcome, _) = search_alone(alloc, problem)?;
    match outcome {
        Outcome::Found(order) => match answer {
            Some(WholeAnswer::Found(least)) => Ok(order.calls() == least.calls()),
            _ => Ok(false),
        },
        Outcome::Refuted(_) => {
            let longest = longest_run(alloc, problem, &mut OwnMemo::new(alloc, problem))?;
            match answer {
                Some(WholeAnswer::Refuted(run)) => Ok(run.calls() == longest.calls()),
                _ => Ok(false),
            }
        }
        _ => Ok(false),
    }
}

// The same of a random history of an object of this kind.
fn prefixes_agree_on(alloc: Global, kind: Kind, seed: u64) -> Result<bool, AllocError> {
    let history = random_history(alloc, kind, seed);
    if history.object_count() == 0 {
        return Ok(false);
    }
    prefixes_agree(alloc, &history.problem(alloc, 0)?)
}

#[test]
fn searches_of_prefixes_agree_with_the_full_search(rt: HostRuntime) {
    for seed in 0..50 {
        for kind in &[
            Kind::Queue,
            Kind::Stack,
            Kind::Register,
            Kind::Set,
            Kind::Map,
        ] {
            assert!(rt; matches!(prefixes_agree_on(rt.alloc(), *kind, seed), Ok(true)));
        }
    }
}

// Four items that go in, and a dequeue of one that nobody put in.
const ITEM_THAT_NOBODY_PUT_IN: [Event; 10] = [
    Call(8, Op::Dequeue),
    Call(4, Op::Enqueue(8)),
    Call(6, Op::Enqueue(9)),
    Call(0, Op::Enqueue(10)),
    Call(3, Op::Enqueue(11)),
    Return(2, Reply::Okay),
    Return(1, Reply::Okay),
    Return(0, Reply::Int(1)),
    Return(3, Reply::Okay),
    Return(4, Reply::Okay),
];

// Two dequeues of the one item that went in before they were called, and others that go in beside them.
const ITEM_TAKEN_TWICE: [Event; 15] = [
    Call(1, Op::Enqueue(1)),
    Return(0, Reply::Okay),
    Call(0, Op::Dequeue),
    Call(6, Op::Dequeue),
    Call(5, Op::Enqueue(6)),
    Call(4, Op::Enqueue(7)),
    Call(3, Op::Dequeue),
    Call(7, Op::Enqueue(9)),
    Return(3, Reply::Okay),
    Call(5, Op::Enqueue(10)),
    Return(6, Reply::Okay),
    Return(1, Reply::Int(1)),
    Return(4, Reply::Okay),
    Return(7, Reply::Okay),
    Return(5, Reply::Int(1)),
];

// An item that went in before another comes out behind it.
const ITEMS_TAKEN_IN_ANOTHER_ORDER: [Event; 16] = [
    Call(1, Op::Enqueue(3)),
    Call(2, Op::Enqueue(4)),
    Return(1, Reply::Okay),
    Call(2, Op::Dequeue),
    Return(0, Reply::Okay),
    Call(1, Op::Enqueue(7)),
    Return(3, Reply::Okay),
    Call(1, Op::Dequeue),
    Return(2, Reply::Int(3)),
    Call(2, Op::Enqueue(9)),
    Call(0, Op::Enqueue(10)),
    Return(5, Reply::Okay),
    Return(4, Reply::Int(7)),
    Return(6, Reply::Okay),
    Call(2, Op::Enqueue(12)),
    Return(7, Reply::Okay),
];

// Two pops that find a stack empty on which an item lies.
const FOUND_EMPTY_UNDER_AN_ITEM: [Event; 6] = [
    Call(1, Op::Push(4)),
    Return(0, Reply::Okay),
    Call(2, Op::Pop),
    Return(1, Reply::Empty),
    Call(2, Op::Pop),
    Return(2, Reply::Empty),
];

// Whether searches of prefixes refute the problem with the work of so many lifts.
fn is_refuted_within(alloc: Global, problem: &Part, lifts: u64) -> bool {
    matches!(
        told_by_prefixes(alloc, problem, lifts),
        Ok(Some(WholeAnswer::Refuted(_)))
    )
}

// Whether they refute that of these events.
fn are_refuted_within(alloc: Global, kind: Kind, events: &[Event], lifts: u64) -> bool {
    let problem = posed_by(alloc, kind, events);
    is_refuted_within(alloc, &problem, lifts)
}

// Whether that is so of the first of these histories, of which it would take the work of 241 lifts without the question that is asked
// before a search.
fn item_that_nobody_put_in_is_refuted(alloc: Global) -> bool {
    are_refuted_within(alloc, Kind::Queue, &ITEM_THAT_NOBODY_PUT_IN, 200)
}

// The same of the second, of which it would take 577.
fn item_taken_twice_is_refuted(alloc: Global) -> bool {
    are_refuted_within(alloc, Kind::Queue, &ITEM_TAKEN_TWICE, 500)
}

// The same of the third, of which it would take 138.
fn items_taken_in_another_order_are_refuted(alloc: Global) -> bool {
    are_refuted_within(alloc, Kind::Queue, &ITEMS_TAKEN_IN_ANOTHER_ORDER, 135)
}

// The same of the fourth, of which it would take 37.
fn found_empty_under_an_item_is_refuted(alloc: Global) -> bool {
    are_refuted_within(alloc, Kind::Stack, &FOUND_EMPTY_UNDER_AN_ITEM, 35)
}

#[test]
fn what_shows_that_there_is_none_is_asked_before_a_search(rt: HostRuntime) {
    assert!(rt; item_that_nobody_put_in_is_refuted(rt.alloc()));
    assert!(rt; item_taken_twice_is_refuted(rt.alloc()));
    assert!(rt; items_taken_in_another_order_are_refuted(rt.alloc()));
    assert!(rt; found_empty_under_an_item_is_refuted(rt.alloc()));
}

// How many processes make a call at once.
const AT_ONCE: usize = 24;

// Writes at once, and then reads at once, of which each second one found the value of another write than the others.
fn reads_of_two_values(alloc: Global) -> Result<Part, AllocError> {
    let mut events = Vec::new(alloc);
    for process in 0..AT_ONCE {
        events.push(Call(process as u32, Op::Write(process as i64)))?;
    }
    for process in 0..AT_ONCE {
        events.push(Return(process, Reply::Okay))?;
    }
    for process in 0..AT_ONCE {
        events.push(Call(process as u32, Op::Read))?;
    }
    for process in 0..AT_ONCE {
        events.push(Return(AT_ONCE + process, Reply::Int(process as i64 % 2)))?;
    }
    Ok(posed_by(alloc, Kind::Register, events.as_slice()))
}

// Tries at once to take a mutex that nobody holds, each answered no.
fn tries_of_a_free_mutex(alloc: Global) -> Result<Part, AllocError> {
    let mut events = Vec::new(alloc);
    for process in 0..AT_ONCE {
        events.push(Call(process as u32, Op::TryLock))?;
    }
    for process in 0..AT_ONCE {
        events.push(Return(process, Reply::Flag(false)))?;
    }
    Ok(posed_by(alloc, Kind::Mutex, events.as_slice()))
}

// Whether both are refuted with little work. Of the reads it takes 1,671 lifts' work. It would take 4,282 if each of the calls that
// repeat one another were asked of, 6,096 if every call were tried that others follow before a return, 9,763 if no conflict were looked
// for before a choice of calls, 17,590 if conflicts stayed as large as they are found, and 45,124 if calls that repeat one that is left out
// stayed. Of the tries it takes 128; 182 if each were asked of, 257 if no call were asked of alone, and 6,858 if the others stayed
// in the questions, though they change nothing.
fn calls_at_once_take_little_work(alloc: Global) -> Result<bool, AllocError> {
    let reads = reads_of_two_values(alloc)?;
    let tries = tries_of_a_free_mutex(alloc)?;
    Ok(is_refuted_within(alloc, &reads, 2_000) && is_refuted_within(alloc, &tries, 150))
}

#[test]
fn longest_runs_of_calls_at_once_take_little_work(rt: HostRuntime) {
    assert!(rt; matches!(calls_at_once_take_little_work(rt.alloc()), Ok(true)));
}

// The call of a register's history that is wrong, and the number of the event at which it returns.
const STALE_READ: usize = 32;

const ITS_RETURN: u32 = 66;

// A register that is written again and again, and one read between, of what was written first.
fn with_a_stale_read(alloc: Global) -> Result<Part, AllocError> {
    let mut events = Vec::new(alloc);
    for call in 0..2 * STALE_READ {
        let (op, reply) = if call == STALE_READ {
            (Op::Read, Reply::Int(0))
        } else {
            (Op::Write(call as i64), Reply::Okay)
        };
        events.push(Call(1, op))?;
        events.push(Return(call, reply))?;
    }
    Ok(posed_by(alloc, Kind::Register, events.as_slice()))
}

// How many lifts' work it takes to find, with this hint, that the longest run of the register's history ends right before the read. None
// if it is not found.
fn lifts_taken(alloc: Global, hint: &Hint) -> Result<Option<u64>, AllocError> {
    let problem = with_a_stale_read(alloc)?;
    let work = Work::of_lifts(1_000_000);
    let mut stop = NoStop;
    let mut ladder = Ladder::new(&problem, work, &mut stop);
    let Some(run) = longest_run_by_prefixes(alloc, &problem, hint, &mut ladder)? else {
        return Ok(None);
    };
    if run.calls().len() != STALE_READ {
        return Ok(None);
    }
    Ok(Some(work.without(ladder.left()).lifts()))
}

// Whether the run is found with less work where the hint names the read.
fn hint_saves_work(alloc: Global) -> Result<bool, AllocError> {
    let mut hint = Hint::none(alloc);
    let Some(without) = lifts_taken(alloc, &hint)? else {
        return Ok(false);
    };
    hint.event = Some(ITS_RETURN);
    hint.calls.push(STALE_READ)?;
    match lifts_taken(alloc, &hint)? {
        Some(with) => Ok(with < without),
        None => Ok(false),
    }
}

#[test]
fn right_hint_saves_work(rt: HostRuntime) {
    assert!(rt; matches!(hint_saves_work(rt.alloc()), Ok(true)));
}
