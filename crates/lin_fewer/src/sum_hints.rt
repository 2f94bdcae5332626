//! Which `get` of a counter to look at. Nothing is proved of it but that it ends: what it says is asked of the configuration.

use crate::waiting::Waiting;
use lin_history::{Problem, ProblemCall};
use lin_object::{AnyObject, Op, Reply};
use lin_search::Config;
use std::alloc::{AllocError, Global};

/// The least and the greatest number that a `get` may find.
#[derive(Clone, Copy)]
pub(crate) struct Reach {
    pub(crate) least: i64,
    pub(crate) greatest: i64,
}

impl Reach {
    // The same with a call that is left: an `add` that returned before the `get` was called stands in front of it, any other one may.
    fn with(self, call: &ProblemCall<Op, Reply>, called: u32) -> Self {
        let Op::Add(number) = &call.op else {
            return self;
        };
        let is_before = returned_at(call) < called;
        let down = if is_before {
            *number
        } else {
            i64::min(*number, 0)
        };
        let up = if is_before {
            *number
        } else {
            i64::max(*number, 0)
        };
        Reach {
            least: self.least.saturating_add(down),
            greatest: self.greatest.saturating_add(up),
        }
    }
}

/// What a `get` that was called and returned at these events may find, where the counter holds the number and the first completed call
/// that is left is this one.
pub(crate) fn reach_of(
    waiting: &Waiting<'_, AnyObject>,
    config: &Config<AnyObject>,
    first: usize,
    (called, returned): (u32, u32),
    number: i64,
) -> Reach {
    let problem = waiting.problem();
    let _calls = problem.calls();
    let mut reach = Reach {
        least: number,
        greatest: number,
    };
    let mut call = waiting.next_left(first, 0);
    for _ in 0..problem.len() {
        if call >= problem.len() {
            return reach;
        }
        let made = problem.call(call);
        if made.called > returned {
            return reach;
        }
        if !config.has(call) {
            reach = reach.with(made, called);
        }
        call = waiting.next_left(first, call + 1);
    }
    reach
}

// How much room a call leaves that is no completed `get`.
const NO_GET: i64 = i64::MAX;

/// What the `get`s of a counter, which starts with a number, leave room for, where all adds have one sign: for each call how much more
/// may have been added before it than by what precedes it; the least such room from the call on; the first call that returned after it
/// was called; and what the completed calls of lower numbers add.
#[derive(Drop)]
pub(crate) struct SumHints {
    start: i64,
    room: Vec<i64>,
    least: Vec<i64>,
    back: Vec<usize>,
    before: Vec<i64>,
    up: bool,
}

// What the operation adds in the direction, as far as that is a number of 64 bits.
fn share(up: bool, op: &Op) -> i64 {
    match op {
        Op::Add(number) if up => i64::max(*number, 0),
        Op::Add(number) => i64::max(number.saturating_neg(), 0),
        _ => 0,
    }
}

// The number of the call's return event. A pending call has none.
fn returned_at(call: &ProblemCall<Op, Reply>) -> u32 {
    match &call.returned {
        Some((returned, _)) => *returned,
        None => u32::MAX,
    }
}

// What the calls of the problem that returned before the event add.
fn added_before(problem: &Problem<AnyObject>, up: bool, event: u32) -> i64 {
    let mut sum: i64 = 0;
    for call in problem.calls() {
        if call.called >= event {
            return sum;
        }
        if returned_at(call) < event {
            sum = sum.saturating_add(share(up, &call.op));
        }
    }
    sum
}

// By how much the second number is more than the first, or else less.
fn grown_to(up: bool, start: i64, number: i64) -> i64 {
    if up {
        number.saturating_sub(start)
    } else {
        start.saturating_sub(number)
    }
}

// How much more than what precedes it may have been added before the call, where the counter starts with this number.
fn room_of(
    problem: &Problem<AnyObject>,
    start: i64,
    up: bool,
    call: &ProblemCall<Op, Reply>,
) -> i64 {
    let Some((_, Reply::Int(value))) = &call.returned else {
        return NO_GET;
    };
    grown_to(up, start, *value).saturating_sub(added_before(problem, up, call.called))
}

// The first call that returned after the event, of those from this one on.
fn first_after(problem: &Problem<AnyObject>, from: usize, event: u32) -> usize {
    for call in from..problem.len() {
        let made = problem.call(call);
        if made.returned.is_some() && returned_at(made) > event {
            return call;
        }
    }
    problem.len()
}

// Which lifted calls count for a `get` beside those that precede it: those from the first one on that were called by the event; how much
// they and the pending ones added, and the pending ones alone; and the last event at which one of them returned.
#[derive(Clone, Copy)]
struct Window {
    from: usize,
    end: u32,
    load: i64,
    used: i64,
    latest: u32,
}

// What some lifted calls add that have returned, and the last event at which one of them returned.
#[derive(Clone, Copy)]
struct Lifted {
    sum: i64,
    latest: u32,
}

// Those from the first one on that were called by the event.
fn lifted_by(
    problem: &Problem<AnyObject>,
    config: &Config<AnyObject>,
    from: usize,
    end: u32,
    up: bool,
) -> Lifted {
    let mut lifted = Lifted { sum: 0, latest: 0 };
    for call in from..problem.len() {
        let made = problem.call(call);
        if made.called > end {
            return lifted;
        }
        if made.returned.is_some() && config.has(call) {
            lifted = Lifted {
                sum: lifted.sum.saturating_add(share(up, &made.op)),
                latest: u32::max(lifted.latest, returned_at(made)),
            };
        }
    }
    lifted
}

// What the window's calls add that the configuration has and that do not precede an event.
fn load_at(
    problem: &Problem<AnyObject>,
    config: &Config<AnyObject>,
    window: Window,
    up: bool,
    event: u32,
) -> i64 {
    let mut load = window.used;
    for call in window.from..problem.len() {
        let made = problem.call(call);
        if made.called > window.end {
            return load;
        }
        if made.returned.is_some() && returned_at(made) > event && config.has(call) {
            load = load.saturating_add(share(up, &made.op));
        }
    }
    load
}

// In place of each entry the least of those from it on.
fn take_least(room: &mut Vec<i64>) {
    let mut lowest = NO_GET;
    let count = room.len();
    for i in 0..count {
        if let Some(entry) = room.get_mut(count - 1 - i) {
            lowest = i64::min(lowest, *entry);
            *entry = lowest;
        }
    }
}

// What the call adds, if it has returned.
fn completed_share(up: bool, call: &ProblemCall<Op, Reply>) -> i64 {
    match &call.returned {
        Some(_) => share(up, &call.op),
        None => 0,
    }
}

impl SumHints {
    /// What the `get`s of the counter leave room for.
    pub(crate) fn of(
        alloc: Global,
        problem: &Problem<AnyObject>,
        start: i64,
        up: bool,
    ) -> Result<Self, AllocError> {
        let mut room = Vec::new(alloc);
        let mut back = Vec::new(alloc);
        let mut before = Vec::new(alloc);
        let mut from = 0;
        let mut sum: i64 = 0;
        for call in problem.calls() {
            room.push(room_of(problem, start, up, call))?;
            from = first_after(problem, from, call.called);
            back.push(from)?;
            before.push(sum)?;
            sum = sum.saturating_add(completed_share(up, call));
        }
        let mut least = room.clone()?;
        take_least(&mut least);
        Ok(SumHints {
            start,
            room,
            least,
            back,
            before,
            up,
        })
    }

    // Which lifted calls count, where the counter holds the number and the first completed call that is left is this one. All that was
    // added is known by the number, so the pending calls are not gone over.
    fn window_of(
        &self,
        problem: &Problem<AnyObject>,
        config: &Config<AnyObject>,
        first: usize,
        number: i64,
    ) -> Option<Window> {
        let end = returned_at(problem.calls().get(first)?);
        let from = self.back.get(first).copied()?;
        let before = self.before.get(from).copied()?;
        let lifted = lifted_by(problem, config, from, end, self.up);
        let load = grown_to(self.up, self.start, number).saturating_sub(before);
        Some(Window {
            from,
            end,
            load,
            used: load.saturating_sub(lifted.sum),
            latest: lifted.latest,
        })
    }

    // How much room the call leaves.
    fn room_at(&self, call: usize) -> i64 {
        self.room.get(call).copied().unwrap_or(NO_GET)
    }

    // The first `get` from this call on that leaves less room.
    fn suspect_from(&self, from: usize, load: i64) -> Option<usize> {
        if self.least.get(from).copied().unwrap_or(NO_GET) >= load {
            return None;
        }
        for get in from..self.room.len() {
            if self.room_at(get) < load {
                return Some(get);
            }
        }
        None
    }

    // Whether the call seems to leave no room.
    fn is_suspect(
        &self,
        problem: &Problem<AnyObject>,
        config: &Config<AnyObject>,
        window: Window,
        get: usize,
        called: u32,
    ) -> bool {
        let room = self.room_at(get);
        if room >= window.load || config.has(get) {
            return false;
        }
        load_at(problem, config, window, self.up, called) > room
    }

    // A `get` from the first call on for which the window's calls seem to be too much.
    fn suspect_in(
        &self,
        problem: &Problem<AnyObject>,
        config: &Config<AnyObject>,
        window: Window,
        first: usize,
    ) -> Option<usize> {
        for get in first..problem.len() {
            let called = problem.call(get).called;
            if called >= window.latest {
                return self.suspect_from(get, window.used);
            }
            if self.is_suspect(problem, config, window, get, called) {
                return Some(get);
            }
        }
        None
    }

    /// A `get` that the configuration seems to leave no room for, where the counter holds the number. The first of its completed calls
    /// that are left is this one.
    pub(crate) fn suspect(
        &self,
        problem: &Problem<AnyObject>,
        config: &Config<AnyObject>,
        first: usize,
        number: i64,
    ) -> Option<usize> {
        let window = self.window_of(problem, config, first, number)?;
        self.suspect_in(problem, config, window, first)
    }
}
