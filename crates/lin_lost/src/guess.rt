//! A guess of what became of items that are put in more often than they came out, and of calls that never returned; and what is left of a
//! queue or a stack by it. All of it is a hint.

use crate::in_turn::judge_in_turn;
use lin_history::{Problem, ProblemCall, ProblemFault};
use lin_object::{AnyObject, ObjState, Op, Reply, SeqObject};
use std::alloc::{AllocError, Global};

/// How it is guessed which of equal items were lost.
#[derive(Clone, Copy, PartialEq, Eq, Drop)]
pub enum Guessing {
    /// The last ones that were put in.
    LastLost,
    /// By the times of the calls, where items of a queue repeat.
    InTurn,
}

/// The time of a return that never comes.
pub(crate) const NEVER: u64 = u64::MAX;

/// The time of an event: between two events there is one time more.
pub(crate) fn time_of(event: u32) -> u64 {
    u64::from(event).saturating_mul(2)
}

/// The time of the return; `NEVER` of a pending call.
pub(crate) fn returned_at(call: &ProblemCall<Op, Reply>) -> u64 {
    match &call.returned {
        Some((event, _)) => time_of(*event),
        None => NEVER,
    }
}

/// Whether the operation takes an item.
pub(crate) fn takes_item(op: &Op) -> bool {
    matches!(op, Op::Dequeue | Op::Pop)
}

// That an item was put in, when that was called; or that it came out, when that returned.
#[derive(Clone, Copy, Drop)]
struct Mark {
    item: i64,
    time: u64,
    call: usize,
    is_take: bool,
}

// The mark of a completed call that puts an item in or took one.
fn mark_of(call: usize, made: &ProblemCall<Op, Reply>) -> Option<Mark> {
    match (&made.op, &made.returned) {
        (Op::Enqueue(item) | Op::Push(item), Some(_)) => Some(Mark {
            item: *item,
            time: time_of(made.called),
            call,
            is_take: false,
        }),
        (Op::Dequeue | Op::Pop, Some((event, Reply::Int(item)))) => Some(Mark {
            item: *item,
            time: time_of(*event),
            call,
            is_take: true,
        }),
        _ => None,
    }
}

// A pending call that puts an item in.
#[derive(Clone, Copy, Drop)]
struct PendingPut {
    item: i64,
    call: usize,
}

// What the calls tell of each item: marks and pending calls that put it in, by items and then by time.
#[derive(Drop)]
struct ItemMarks {
    marks: Vec<Mark>,
    pending: Vec<PendingPut>,
}

// What the calls of the problem tell.
fn marks_of(alloc: Global, problem: &Problem<AnyObject>) -> Result<ItemMarks, AllocError> {
    let mut marks = Vec::new(alloc);
    let mut pending = Vec::new(alloc);
    for (call, made) in problem.calls().iter().enumerate() {
        if let Some(mark) = mark_of(call, made) {
            marks.push(mark)?;
        }
        match (&made.op, &made.returned) {
            (Op::Enqueue(item) | Op::Push(item), None) => {
                pending.push(PendingPut { item: *item, call })?;
            }
            _ => {}
        }
    }
    marks.sort_by_key(|mark| mark.time)?;
    marks.sort_by_key(|mark| mark.item)?;
    pending.sort_by_key(|put| put.item)?;
    Ok(ItemMarks { marks, pending })
}

/// What is guessed of the calls of a problem.
#[derive(Drop)]
pub struct Guess {
    /// When each call returned; a pending call that put in what came out, right before that was seen.
    pub(crate) returns: Vec<u64>,
    /// Whether each call is left out.
    pub(crate) is_out: Vec<bool>,
    /// The completed calls whose items nobody returned with.
    pub(crate) lost: Vec<usize>,
    /// The pending calls that may take an item.
    pub(crate) takers: Vec<usize>,
    /// Whether no other calls can have lost their items.
    pub(crate) is_sure: bool,
}

impl Guess {
    // Nothing guessed yet but that pending calls are left out.
    fn new(alloc: Global, problem: &Problem<AnyObject>) -> Result<Self, AllocError> {
        let mut guess = Guess {
            returns: Vec::with_capacity(alloc, problem.len())?,
            is_out: Vec::with_capacity(alloc, problem.len())?,
            lost: Vec::new(alloc),
            takers: Vec::new(alloc),
            is_sure: true,
        };
        for (call, made) in problem.calls().iter().enumerate() {
            guess.returns.push(returned_at(made))?;
            guess.is_out.push(made.returned.is_none())?;
            if made.returned.is_none() && takes_item(&made.op) {
                guess.takers.push(call)?;
            }
        }
        Ok(guess)
    }

    /// The call stays, and returned at this time.
    pub(crate) fn keep_until(&mut self, call: usize, time: u64) {
        if let Some(slot) = self.returns.get_mut(call) {
            *slot = time;
        }
        if let Some(slot) = self.is_out.get_mut(call) {
            *slot = false;
        }
    }

    /// The call's item is lost.
    pub(crate) fn lose(&mut self, call: usize) -> Result<(), AllocError> {
        if let Some(slot) = self.is_out.get_mut(call) {
            *slot = true;
        }
        self.lost.push(call)?;
        Ok(())
    }

    // Guesses of the calls on one item: so many were lost as were put in more often than taken, the last of them; and each time that more
    // came out than calls that returned had put in by then, a pending call had put it in.
    fn judge_item(&mut self, marks: &[Mark], pending: &[PendingPut]) -> Result<(), AllocError> {
        let (mut puts, mut takes, mut used) = (0usize, 0usize, 0usize);
        for mark in marks {
            if !mark.is_take {
                puts = puts.saturating_add(1);
                continue;
            }
            takes = takes.saturating_add(1);
            if takes <= puts.saturating_add(used) {
                continue;
            }
            if let Some(put) = pending.get(used) {
                self.keep_until(put.call, mark.time.saturating_sub(1));
                used = used.saturating_add(1);
            }
        }
        let mut left = puts.saturating_add(used).saturating_sub(takes);
        self.is_sure = self.is_sure && (left == 0 || takes == 0);
        for mark in marks.iter().rev() {
            if left > 0 && !mark.is_take {
                self.lose(mark.call)?;
                left -= 1;
            }
        }
        Ok(())
    }

    // Guesses of the calls on each item.
    fn judge_items(&mut self, all: &ItemMarks) -> Result<(), AllocError> {
        let (mut marks, mut pending) = (all.marks.as_slice(), all.pending.as_slice());
        for _ in 0..all.marks.len() {
            let Some(first) = marks.first() else {
                break;
            };
            let item = first.item;
            let (of_item, more) = marks.split_at(marks.partition_point(|mark| mark.item <= item));
            let (_, others) = pending.split_at(pending.partition_point(|put| put.item < item));
            let (puts, rest) = others.split_at(others.partition_point(|put| put.item <= item));
            self.judge_item(of_item, puts)?;
            marks = more;
            pending = rest;
        }
        Ok(())
    }

    /// The calls that are left.
    pub(crate) fn kept(&self, alloc: Global) -> Result<Vec<usize>, AllocError> {
        let mut kept = Vec::with_capacity(alloc, self.is_out.len())?;
        for (call, is_out) in self.is_out.iter().enumerate() {
            if !*is_out {
                kept.push(call)?;
            }
        }
        Ok(kept)
    }
}

// Whether it is a queue.
fn is_queue(problem: &Problem<AnyObject>) -> bool {
    matches!(problem.start(), ObjState::Queue(_))
}

/// What is guessed of the calls of the problem this way. `None` where that is what the first way guesses.
pub(crate) fn guess_of(
    alloc: Global,
    problem: &Problem<AnyObject>,
    way: Guessing,
) -> Result<Option<Guess>, AllocError> {
    let mut guess = Guess::new(alloc, problem)?;
    let marks = marks_of(alloc, problem)?;
    guess.judge_items(&marks)?;
    if way == Guessing::LastLost {
        return Ok(Some(guess));
    }
    if guess.is_sure || !is_queue(problem) {
        return Ok(None);
    }
    let mut in_turn = Guess::new(alloc, problem)?;
    judge_in_turn(alloc, problem, &mut in_turn)?;
    Ok(Some(in_turn))
}

// An event of what is left.
#[derive(Clone, Copy, Drop)]
struct RestEvent {
    time: u64,
    index: usize,
    is_return: bool,
}

// The events of the calls that are left, in the order of their times.
fn events_of(
    alloc: Global,
    problem: &Problem<AnyObject>,
    guess: &Guess,
    kept: &[usize],
) -> Result<Vec<RestEvent>, AllocError> {
    let mut events = Vec::new(alloc);
    for (index, call) in kept.iter().enumerate() {
        if let Some(made) = problem.calls().get(*call) {
            events.push(RestEvent {
                time: time_of(made.called),
                index,
                is_return: false,
            })?;
        }
        if let Some(time) = guess.returns.get(*call) {
            events.push(RestEvent {
                time: *time,
                index,
                is_return: true,
            })?;
        }
    }
    events.sort_by_key(|event| event.time)?;
    Ok(events)
}

// Whether the event was added: not where it can't come next. `AllocError` where memory was refused.
fn was_added(added: Result<(), ProblemFault>) -> Result<bool, AllocError> {
    match added {
        Ok(()) => Ok(true),
        Err(ProblemFault::OutOfMemory) => Err(AllocError),
        Err(_) => Ok(false),
    }
}

// Adds the event, with this number. `false` where it can't come next.
fn add_event(
    rest: &mut Problem<AnyObject>,
    problem: &Problem<AnyObject>,
    kept: &[usize],
    event: RestEvent,
    number: u32,
) -> Result<bool, AllocError> {
    let Some(call) = kept.get(event.index) else {
        return Ok(false);
    };
    let Some(made) = problem.calls().get(*call) else {
        return Ok(false);
    };
    if !event.is_return {
        return was_added(rest.add_call(made.process, made.op, number));
    }
    let reply = match &made.returned {
        Some((_, reply)) => *reply,
        None => Reply::Okay,
    };
    was_added(rest.add_return(event.index, reply, number))
}

/// The problem of the calls that are left, with new event numbers. `None` where it can't be made.
pub(crate) fn rest_of(
    alloc: Global,
    problem: &Problem<AnyObject>,
    guess: &Guess,
    kept: &[usize],
) -> Result<Option<Problem<AnyObject>>, AllocError> {
    let events = events_of(alloc, problem, guess, kept)?;
    let start = problem.object().copy_state(alloc, problem.start())?;
    let mut rest = Problem::new(alloc, AnyObject, start);
    let mut number = 0u32;
    for event in &events {
        number = number.saturating_add(1);
        if !add_event(&mut rest, problem, kept, *event, number)? {
            return Ok(None);
        }
    }
    Ok(Some(rest))
}
