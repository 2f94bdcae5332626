//! Looking for a get of a counter for whose reply the adds leave no room. Which one is tried is a hint; `sum_fault` judges it.

ghost use Rattle.std.specs.Prelude.{IfOk, IfSome};
ghost use Rattle.lin_history.specs.Problems.AnyProblem.{any_problem};
ghost use Rattle.lin_core.specs.Cores.{HasNone};
ghost use Rattle.lin_core.specs.Sums.{IsSumFault};

use crate::sum_faults::{SumFault, sum_fault};
use lin_history::{Problem, ProblemEvent};
use lin_object::{AnyObject, ObjState, Op, Reply};
use lin_search::{AtTimes, Stop};
use std::alloc::{AllocError, Global};

// How many events before a get are looked at for an earlier one whose reply it can't follow. Before a few gets that are known to
// have such a fault all are.
const NEAR_EVENTS: usize = 64;

const MOST_KNOWN: usize = 16;

// What was added, and what was taken off.
#[derive(Clone, Copy)]
struct Tally {
    up: i128,
    down: i128,
}

impl Tally {
    // Of no adds.
    fn none() -> Self {
        Tally { up: 0, down: 0 }
    }

    // With what this operation adds.
    fn with(self, op: &Op) -> Self {
        match op {
            Op::Add(difference) => Tally {
                up: self.up.saturating_add(i128::from(*difference).max(0)),
                down: self.down.saturating_sub(i128::from(*difference).min(0)),
            },
            _ => self,
        }
    }
}

// An event: its place among all, what those adds make that were called before it, and what those do that returned before it.
#[derive(Clone, Copy)]
struct Moment {
    place: usize,
    called: Tally,
    returned: Tally,
}

impl Moment {
    // The start.
    fn start() -> Self {
        Moment {
            place: 0,
            called: Tally::none(),
            returned: Tally::none(),
        }
    }
}

// A get that has returned, or the start, with its value.
#[derive(Clone, Copy)]
struct Find {
    value: i128,
    call: Moment,
    back: Moment,
}

impl Find {
    // The start of a counter.
    fn start(value: i64) -> Self {
        Find {
            value: i128::from(value),
            call: Moment::start(),
            back: Moment::start(),
        }
    }

    // Whether the value is too small or too great behind an earlier one, where so much must have been added and taken off between
    // them.
    fn is_beyond(&self, first: &Find, must: Tally) -> Option<bool> {
        let may_down = self
            .back
            .called
            .down
            .saturating_sub(first.call.returned.down);
        let may_up = self.back.called.up.saturating_sub(first.call.returned.up);
        let least = first.value.saturating_add(must.up).saturating_sub(may_down);
        let most = first.value.saturating_sub(must.down).saturating_add(may_up);
        if self.value < least {
            Some(true)
        } else if self.value > most {
            Some(false)
        } else {
            None
        }
    }
}

// A get whose reply may be beyond what is possible, the earlier one that it is counted from, and how many events there are from the
// one to the other.
#[derive(Clone, Copy)]
struct Guess {
    from: Option<usize>,
    get: usize,
    up: bool,
    events: usize,
}

// The events of a problem on a counter that starts with the value, with what is known of its calls at them.
#[derive(Drop)]
struct Timeline<'a> {
    problem: &'a Problem<AnyObject>,
    start: i64,
    events: Vec<ProblemEvent>,
    calls: Vec<Moment>,
    // That of a pending call is behind all events.
    backs: Vec<Moment>,
}

// What the events before each event make.
fn moments_of(
    alloc: Global,
    problem: &Problem<AnyObject>,
    events: &[ProblemEvent],
) -> Result<(Vec<Moment>, Vec<Moment>), AllocError> {
    let mut now = Moment::start();
    let never = Moment {
        place: usize::MAX,
        ..now
    };
    let mut calls = vec![in alloc; never; problem.len()]?;
    let mut backs = vec![in alloc; never; problem.len()]?;
    for event in events {
        let (moments, call, returns) = match event {
            ProblemEvent::Call(call) => (&mut calls, *call as usize, false),
            ProblemEvent::Return(call) => (&mut backs, *call as usize, true),
        };
        if let Some(moment) = moments.get_mut(call) {
            *moment = now;
        }
        if let Some(made) = problem.calls().get(call) {
            if returns {
                now.returned = now.returned.with(&made.op);
            } else {
                now.called = now.called.with(&made.op);
            }
        }
        now.place = now.place.saturating_add(1);
    }
    Ok((calls, backs))
}

impl<'a> Timeline<'a> {
    // The events of the problem.
    fn new(alloc: Global, problem: &'a Problem<AnyObject>, start: i64) -> Result<Self, AllocError> {
        let events = problem.timeline(alloc)?;
        let (calls, backs) = moments_of(alloc, problem, events.as_slice())?;
        Ok(Timeline {
            problem,
            start,
            events,
            calls,
            backs,
        })
    }

    // The call, if it is a get that has returned with a value.
    fn find(&self, call: usize) -> Option<Find> {
        let made = self.problem.calls().get(call)?;
        let moments = (
            self.calls.get(call).copied()?,
            self.backs.get(call).copied()?,
        );
        match (&made.op, &made.returned) {
            (Op::Get, Some((_, Reply::Int(value)))) => Some(Find {
                value: i128::from(*value),
                call: moments.0,
                back: moments.1,
            }),
            _ => None,
        }
    }

    // The tally with what the call adds, if it returned before this place.
    fn with_call(&self, must: Tally, call: usize, place: usize) -> Tally {
        match (self.backs.get(call), self.problem.calls().get(call)) {
            (Some(back), Some(made)) if back.place < place => must.with(&made.op),
            _ => must,
        }
    }

    // The get, if its reply can't follow that of this earlier one, or the start, where so much must have been added and taken off
    // between them.
    fn guess_from(
        &self,
        from: Option<usize>,
        get: usize,
        last: &Find,
        must: Tally,
    ) -> Option<Guess> {
        let first = match from {
            Some(call) => self.find(call)?,
            None => Find::start(self.start),
        };
        Some(Guess {
            from,
            get,
            up: last.is_beyond(&first, must)?,
            events: last.back.place.saturating_sub(first.call.place),
        })
    }

    // Back from a get over so many events at most: the nearest get, or the start, that its reply can't follow.
    fn nearest(&self, get: usize, last: &Find, most: usize) -> Option<Guess> {
        let mut must = Tally::none();
        let end = last.call.place.min(self.events.len());
        for place in (end.saturating_sub(most)..end).rev() {
            match self.events.get(place)? {
                ProblemEvent::Call(call) => must = self.with_call(must, *call as usize, end),
                ProblemEvent::Return(call) => {
                    let guess = self.guess_from(Some(*call as usize), get, last, must);
                    if guess.is_some() {
                        return guess;
                    }
                }
            }
        }
        if end > most {
            return None;
        }
        self.guess_from(None, get, last, must)
    }

    // The guess with the fewest events: of each get over the nearest events before it, and of the first gets that are known to have
    // a fault over all. `None` where the stop answers.
    fn best<S: Stop>(&self, alloc: Global, stop: &mut S) -> Result<Option<Guess>, AllocError> {
        let mut rooms = Rooms::new(alloc, self)?;
        let mut known = 0;
        let mut best = None;
        for event in &self.events {
            if stop.ask().is_some() {
                return Ok(None);
            }
            match event {
                ProblemEvent::Call(call) => rooms.note_call(*call as usize),
                ProblemEvent::Return(call) => {
                    let get = *call as usize;
                    let Some(last) = self.find(get) else {
                        continue;
                    };
                    let mut most = NEAR_EVENTS;
                    if known < MOST_KNOWN && rooms.is_known(get, &last) {
                        known += 1;
                        most = self.events.len();
                    }
                    rooms.note_return(&last);
                    best = better(best, self.nearest(get, &last, most));
                }
            }
        }
        Ok(best)
    }
}

// The guess with fewer events, the first of those with as many.
fn better(a: Option<Guess>, b: Option<Guess>) -> Option<Guess> {
    match (a, b) {
        (Some(first), Some(second)) if second.events < first.events => Some(second),
        (Some(first), _) => Some(first),
        (None, second) => second,
    }
}

// What the replies so far leave room for, at least and at most. What must have been added since is counted without the calls that
// were open when a get returned; or, alone, it is not counted at all.
#[derive(Clone, Copy)]
struct Room {
    least: i128,
    least_alone: i128,
    most: i128,
    most_alone: i128,
}

impl Room {
    // From the start on.
    fn new(start: i64) -> Self {
        let start = i128::from(start);
        Room {
            least: start,
            least_alone: start,
            most: start,
            most_alone: start,
        }
    }

    // With a reply more.
    fn with(self, find: &Find) -> Self {
        let least_alone = find.value.saturating_add(find.call.returned.down);
        let most_alone = find.value.saturating_sub(find.call.returned.up);
        Room {
            least: self
                .least
                .max(least_alone.saturating_sub(find.back.called.up)),
            least_alone: self.least_alone.max(least_alone),
            most: self
                .most
                .min(most_alone.saturating_add(find.back.called.down)),
            most_alone: self.most_alone.min(most_alone),
        }
    }

    // Whether it leaves none for the reply.
    fn is_none_for(&self, find: &Find) -> bool {
        let least = self
            .least
            .saturating_add(find.call.returned.up)
            .max(self.least_alone)
            .saturating_sub(find.back.called.down);
        let most = self
            .most
            .saturating_sub(find.call.returned.down)
            .min(self.most_alone)
            .saturating_add(find.back.called.up);
        find.value < least || find.value > most
    }
}

// The room that there was when each call was called.
#[derive(Drop)]
struct Rooms {
    now: Room,
    at_calls: Vec<Room>,
}

impl Rooms {
    // At the start.
    fn new(alloc: Global, timeline: &Timeline<'_>) -> Result<Self, AllocError> {
        let now = Room::new(timeline.start);
        let at_calls = vec![in alloc; now; timeline.problem.len()]?;
        Ok(Rooms { now, at_calls })
    }

    // Notes the room when the call is called.
    fn note_call(&mut self, call: usize) {
        if let Some(room) = self.at_calls.get_mut(call) {
            *room = self.now;
        }
    }

    // Notes the reply of a get.
    fn note_return(&mut self, find: &Find) {
        self.now = self.now.with(find);
    }

    // Whether there was no room for the reply of this get.
    fn is_known(&self, get: usize, find: &Find) -> bool {
        match self.at_calls.get(get) {
            Some(room) => room.is_none_for(find),
            None => false,
        }
    }
}

// The gets that are guessed first.
fn best_guess<S: Stop>(
    alloc: Global,
    problem: &Problem<AnyObject>,
    stop: &mut S,
) -> Result<Option<Guess>, AllocError> {
    match problem.start() {
        ObjState::Counter(start) => {
            Timeline::new(alloc, problem, *start)?.best(alloc, &mut AtTimes::new(stop))
        }
        _ => Ok(None),
    }
}

/// A get of a counter for whose reply the adds leave no room, counted from the start or from an earlier get: of those that are found
/// the one with the fewest events to look at. `None` where none is found, or where the stop answers. It takes O(n) for n calls. `AllocError` where memory was
/// refused.
pub fn sum_fault_of<S: Stop>(
    alloc: Global,
    problem: &Problem<AnyObject>,
    stop: &mut S,
) -> Result<Option<SumFault>, AllocError>
    ensures fault { IfOk result (λ answer. IfSome answer (λ fault.
        IsSumFault (any_problem problem.now) fault)) }
    ensures none { IfOk result (λ answer. IfSome answer (λ fault. HasNone (any_problem problem.now))) }
{
    match best_guess(alloc, problem, stop)? {
        Some(guess) => Ok(sum_fault(problem, guess.from, guess.get, guess.up)),
        None => Ok(None),
    }
}
