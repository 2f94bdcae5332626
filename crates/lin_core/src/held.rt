//! What calls found and left: the value of a register or of a key of a map, whether an item is in a set, who holds a mutex. All of it
//! is hints.

use crate::item_times::{NEVER, return_of};
use lin_history::{Problem, ProblemCall};
use lin_object::{AnyObject, ObjState, Op, Reply};
use std::alloc::{AllocError, Global};

/// Stands for the number of a call where the start is meant.
pub(crate) const START: usize = usize::MAX;

// What is there at one moment.
#[derive(Clone, Copy)]
enum Held {
    Nothing,
    This(i64),
}

// What a call found, and what it left.
#[derive(Clone, Copy)]
struct Tale {
    found: Option<Held>,
    left: Option<Held>,
}

impl Tale {
    // Of a call of which neither is known.
    fn none() -> Self {
        Tale {
            found: None,
            left: None,
        }
    }

    // It found this, if that is known, and left this.
    fn left(found: Option<Held>, left: Held) -> Self {
        Tale {
            found,
            left: Some(left),
        }
    }

    // It found this and changed nothing.
    fn found(found: Held) -> Self {
        Tale {
            found: Some(found),
            left: None,
        }
    }
}

/// A call as far as it tells what was there; what that is is told by a number, that of nothing being 0.
#[derive(Clone, Copy)]
pub(crate) struct HeldCall {
    /// The number of the call.
    pub(crate) call: usize,
    /// Its events; `NEVER` where it is pending.
    pub(crate) called: u32,
    pub(crate) returned: u32,
    /// What it found, or would find.
    pub(crate) found: Option<usize>,
    /// What it left, or would leave.
    pub(crate) left: Option<usize>,
}

impl HeldCall {
    /// Whether it returned and found this.
    pub(crate) fn has_found(&self, what: usize) -> bool {
        self.returned < NEVER && self.found == Some(what)
    }

    /// What was there at one moment between its events, the last that is known; nothing is told so of the start.
    pub(crate) fn shown(&self) -> Option<usize> {
        if self.returned == NEVER || self.call == START {
            return None;
        }
        match self.left {
            Some(left) => Some(left),
            None => self.found,
        }
    }
}

// The answer of a call, where it returned with one.
fn answer_of(returned: &Option<(u32, Reply)>) -> Option<bool> {
    match returned {
        Some((_, Reply::Flag(answer))) => Some(*answer),
        _ => None,
    }
}

// What a reply gives.
fn tale_of_reply(returned: &Option<(u32, Reply)>) -> Tale {
    match returned {
        Some((_, Reply::Int(value))) => Tale::found(Held::This(*value)),
        Some((_, Reply::Empty)) => Tale::found(Held::Nothing),
        _ => Tale::none(),
    }
}

// A call that changes what is there where it answers 'yes': to this, from that, where that is known. Where it answers 'no' it found
// the first.
fn tale_of_change(answer: Option<bool>, from: Option<Held>, to: Held) -> Tale {
    match answer {
        Some(true) => Tale::left(from, to),
        Some(false) => Tale::found(to),
        None => Tale::left(None, to),
    }
}

// A call that may set a register to a value, where it finds another.
fn tale_of_cas(returned: &Option<(u32, Reply)>, from: i64, to: i64) -> Tale {
    match answer_of(returned) {
        Some(false) => Tale::none(),
        _ if from == to => Tale::none(),
        _ => Tale::left(Some(Held::This(from)), Held::This(to)),
    }
}

// A call of a process that takes a mutex.
fn tale_of_lock(call: &ProblemCall<Op, Reply>) -> Tale {
    let holder = Held::This(i64::from(call.process));
    match &call.returned {
        Some((_, Reply::Flag(false))) => Tale::none(),
        Some(_) => Tale::left(Some(Held::Nothing), holder),
        None => Tale::left(None, holder),
    }
}

// A call of a process that lets go of it.
fn tale_of_unlock(call: &ProblemCall<Op, Reply>) -> Tale {
    let holder = Held::This(i64::from(call.process));
    match &call.returned {
        Some(_) => Tale::left(Some(holder), Held::Nothing),
        None => Tale::left(None, Held::Nothing),
    }
}

// A call that looks whether an item is in a set.
fn tale_of_contains(answer: Option<bool>) -> Tale {
    match answer {
        Some(true) => Tale::found(Held::This(0)),
        Some(false) => Tale::found(Held::Nothing),
        None => Tale::none(),
    }
}

// What the call found, and what it left. Of a key of a map either its values are looked at, or whether it has one.
fn tale_of(call: &ProblemCall<Op, Reply>, by_value: bool) -> Tale {
    let answer = answer_of(&call.returned);
    match &call.op {
        Op::Write(value) | Op::Put(_, value) => Tale::left(None, Held::This(*value)),
        Op::Read | Op::Lookup(_) => tale_of_reply(&call.returned),
        Op::Cas(from, to) => tale_of_cas(&call.returned, *from, *to),
        Op::Insert(_) => tale_of_change(answer, Some(Held::Nothing), Held::This(0)),
        Op::Remove(_) => tale_of_change(answer, Some(Held::This(0)), Held::Nothing),
        Op::Contains(_) => tale_of_contains(answer),
        Op::Delete(_) if by_value => tale_of_change(answer, None, Held::Nothing),
        Op::Delete(_) => tale_of_change(answer, Some(Held::This(0)), Held::Nothing),
        Op::Lock | Op::TryLock => tale_of_lock(call),
        Op::Unlock => tale_of_unlock(call),
        _ => Tale::none(),
    }
}

// What is there at the start.
fn held_at_start(problem: &Problem<AnyObject>) -> Held {
    match problem.start() {
        ObjState::Register(value) => Held::This(*value),
        _ => Held::Nothing,
    }
}

// The value that is there, where there is one.
fn value_in(held: Option<Held>) -> Option<i64> {
    match held {
        Some(Held::This(value)) => Some(value),
        _ => None,
    }
}

// The number of what is there, by the values that there may be, which are in increasing order.
fn number_of(values: &[i64], by_value: bool, held: Option<Held>) -> Option<usize> {
    match held {
        Some(Held::Nothing) => Some(0),
        Some(Held::This(_)) if !by_value => Some(1),
        Some(Held::This(value)) => match values.binary_search(&value) {
            Ok(place) => Some(place.saturating_add(1)),
            Err(_) => None,
        },
        None => None,
    }
}

/// All values that one of these calls found or left, in increasing order.
pub(crate) fn values_in(
    alloc: Global,
    problem: &Problem<AnyObject>,
    calls: &[usize],
    by_value: bool,
) -> Result<Vec<i64>, AllocError> {
    let mut values = Vec::new(alloc);
    for index in calls {
        if let Some(call) = problem.calls().get(*index) {
            let tale = tale_of(call, by_value);
            if let Some(value) = value_in(tale.found) {
                values.push(value)?;
            }
            if let Some(value) = value_in(tale.left) {
                values.push(value)?;
            }
        }
    }
    values.sort_unstable();
    values.dedup();
    Ok(values)
}

/// What these calls on a register, an item, a key or a mutex found and left: those that tell of it, and first the start, which left what is
/// there then. Of a key of a map either its values are looked at, or whether it has one.
pub(crate) fn held_calls(
    alloc: Global,
    problem: &Problem<AnyObject>,
    calls: &[usize],
    by_value: bool,
) -> Result<Vec<HeldCall>, AllocError> {
    let start = Some(held_at_start(problem));
    let mut values = values_in(alloc, problem, calls, by_value)?;
    if let Some(value) = value_in(start) {
        values.push(value)?;
        values.sort_unstable();
        values.dedup();
    }
    let mut told = Vec::with_capacity(alloc, calls.len())?;
    told.push(HeldCall {
        call: START,
        called: 0,
        returned: 0,
        found: None,
        left: number_of(values.as_slice(), by_value, start),
    })?;
    for index in calls {
        if let Some(call) = problem.calls().get(*index) {
            let tale = tale_of(call, by_value);
            let found = number_of(values.as_slice(), by_value, tale.found);
            let left = number_of(values.as_slice(), by_value, tale.left);
            if found.is_some() || left.is_some() {
                told.push(HeldCall {
                    call: *index,
                    called: call.called,
                    returned: return_of(call),
                    found,
                    left,
                })?;
            }
        }
    }
    Ok(told)
}
