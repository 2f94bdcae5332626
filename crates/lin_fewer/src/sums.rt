//! What a search of a counter may pass over.
//!
//! A `get` finds all that was added before it. So a configuration has no completion where what it holds, with what has to come before
//! a `get` that is left, is more than that returned with, even if all that may take something off comes before it too. And an add shows
//! only in a `get`, so that a pending one need not be tried directly in front of another add. The second where all adds have one sign:
//! with fewer of them the sum does not leave 64 bits.

ghost use Rattle.std.specs.Prelude.{◌≡◌, ◌+◌, ◌<◌, ◌≤◌, ◌^◌, true, false, length, IfSome, IsSomeAnd, IsTrue};
ghost use Rattle.lin_object.specs.declared.state.ObjState.TheVariants.{Counter};
ghost use Rattle.lin_object.specs.Kinds.Counter.{is_in_range};
ghost use Rattle.lin_history.specs.Problems.AnyProblem.{any_problem};
ghost use Rattle.lin_history.specs.Problems.Continuations.{has};
ghost use Rattle.lin_history.specs.Problems.Configurations.{IsReachable};
ghost use Rattle.lin_search.specs.Answer.{HasNoCompletion};
ghost use Rattle.lin_fewer.specs.Fronts.{HasCompletedBelow, IsFirstLeft, IsLeastReturn};
ghost use Rattle.lin_fewer.specs.AnyAdds.{NoneTakesOff};
ghost use Rattle.lin_fewer.specs.Turns.{BeginsCompleted};
ghost use Rattle.lin_fewer.specs.Adds.{part_in, part_of, IsGot, AddBefore, IsAdd, IsPendingGet, MayComeLate, IsTooMuch};

use crate::front::{is_completed, is_later};
use crate::laws::fewer_law;
use crate::rules::Rules;
use crate::sum_hints::{SumHints, reach_of};
use crate::waiting::Waiting;
use lin_history::{Problem, ProblemCall};
use lin_object::{AnyObject, ObjState, Op, Reply, lawful};
use lin_search::{CallSet, Config};
use std::alloc::{AllocError, Global};

/// When a completed `get` was called and returned, and with which number.
#[derive(Clone, Copy)]
pub struct Got {
    /// The number of its call event.
    pub called: u32,
    /// The number of its return event.
    pub returned: u32,
    /// The number with which it returned.
    pub value: i64,
}

// No more than so much need be counted: it is more than any two numbers of 64 bits are apart.
const ENOUGH: u128 = u64::MAX as u128;

// A `get`, what the counter holds, and a direction in which is added before the `get`.
#[derive(Clone, Copy)]
struct Asked {
    get: usize,
    got: Got,
    number: i64,
    up: bool,
}

// What the number adds, or else takes off.
pub(crate) fn part_in(up: bool, value: i64) -> u64
    ensures part { result ≡ part_in up value }
    ensures few { result ≤ 2 ^ 63 }
{
    if (value >= 0) == up {
        value.unsigned_abs()
    } else {
        0
    }
}

// What the operation adds, or else takes off.
fn part_of(up: bool, op: &Op) -> u64
    ensures part { result ≡ part_of up op.now }
    ensures few { result ≤ 2 ^ 63 }
{
    match op {
        Op::Add(difference) => part_in(up, *difference),
        _ => 0,
    }
}

// The call, if it is a completed `get`.
fn got_at(problem: &Problem<AnyObject>, call: usize) -> Option<Got>
    ensures { IfSome result (IsGot (any_problem problem.now) call) }
{
    let made = problem.calls().get(call)?;
    match (&made.op, &made.returned) {
        (Op::Get, Some((returned, Reply::Int(value)))) => Some(Got {
            called: made.called,
            returned: *returned,
            value: *value,
        }),
        _ => None,
    }
}

// The number of a counter.
pub(crate) fn number_of(state: &ObjState) -> Option<i64>
    ensures is { IfSome result (λ number. state.now ≡ Counter number) }
    ensures range { IfSome result (λ number. is_in_range number ≡ true) }
{
    match state {
        ObjState::Counter(number) => Some(*number),
        _ => None,
    }
}

// Whether the call returned before the event.
fn returned_before(call: &ProblemCall<Op, Reply>, event: u32) -> bool
    ensures { IsTrue result → IsSomeAnd call.now.returned (λ r. r.0 < event) }
{
    match &call.returned {
        Some((returned, _)) => *returned < event,
        None => false,
    }
}

// What calls add before a `get`: in one direction no less than this sum, and in the other one no more than this.
#[derive(Clone, Copy)]
struct Added {
    sum: u128,
    back: u128,
}

// The same with the call, if it is left: it adds in the one direction if it precedes the `get`, and in the other one if it may stand in
// front of it. `None` where so much was added in the other direction that nothing is shown.
fn with_part(
    problem: &Problem<AnyObject>,
    set: &CallSet,
    asked: Asked,
    call: usize,
    added: Added,
) -> Option<Added>
    requires call { call < length problem.now.calls }
    requires got { IsGot (any_problem problem.now) asked.get asked.got }
    requires added { AddBefore (any_problem problem.now) set.now asked.up asked.get call added.sum added.back }
    ensures { IfSome result (λ more. AddBefore (any_problem problem.now) set.now asked.up asked.get (call + 1) more.sum
        more.back) }
{
    if set.has(call) {
        return Some(added);
    }
    if added.back > ENOUGH {
        return None;
    }
    let made = problem.call(call);
    let other = part_of(!asked.up, &made.op);
    let back = added.back + other as u128;
    let sum = added.sum;
    if !returned_before(made, asked.got.called) {
        return Some(Added { sum, back });
    }
    if sum > ENOUGH {
        return Some(Added { sum, back });
    }
    let part = part_of(asked.up, &made.op);
    let more = sum + part as u128;
    Some(Added { sum: more, back })
}

// What the calls add that are left: those that precede the `get`, and in the other direction those that may stand in front of it. `None`
// where that is so much that nothing is shown.
fn sum_before(
    waiting: &Waiting<'_, AnyObject>,
    set: &CallSet,
    first: usize,
    asked: Asked,
) -> Option<Added>
    requires below { HasCompletedBelow (any_problem waiting.now) set.now first }
    requires got { IsGot (any_problem waiting.now) asked.get asked.got }
    ensures { IfSome result (λ added. AddBefore (any_problem waiting.now) set.now asked.up asked.get
        (length waiting.now.calls) added.sum added.back) }
{
    let problem = waiting.problem();
    let _calls = problem.calls();
    let mut added = Added { sum: 0, back: 0 };
    let mut call = waiting.next_left(first, 0);
    'calls: for _ in 0..problem.len() {
        if call >= problem.len() {
            return Some(added);
        }
        if is_later(problem, call, asked.got.returned) {
            return Some(added);
        }
        let Some(more) = with_part(problem, set, asked, call, added) else {
            return None;
        };
        added = more;
        call = waiting.next_left(first, call + 1);
    }
    None
}

// Whether with so much more in the direction, and so much in the other one, the counter holds more than the `get` returned with, or less.
fn is_too_much(asked: Asked, added: Added) -> bool
    ensures { IsTrue result → IsTooMuch asked.up asked.number asked.got.value added.sum added.back }
{
    if added.back > ENOUGH {
        return false;
    }
    let up = asked.up;
    let low = part_in(up, asked.got.value) as u128
        + part_in(!up, asked.number) as u128
        + added.back;
    let high = part_in(up, asked.number) as u128 + part_in(!up, asked.got.value) as u128;
    if low < high {
        return true;
    }
    low - high < added.sum
}

// Whether the `get` is left, and what the configuration holds with what has to come before it is more than it returned with.
fn leaves_no_room(
    waiting: &Waiting<'_, AnyObject>,
    config: &Config<AnyObject>,
    first: usize,
    get: usize,
    up: bool,
) -> bool
    requires below { HasCompletedBelow (any_problem waiting.now) config.now.lifted first }
    ensures { IsTrue result → HasNoCompletion (any_problem waiting.now) config.now.lifted
        config.now.state }
{
    let Some(number) = number_of(config.state()) else {
        return false;
    };
    let Some(got) = got_at(waiting.problem(), get) else {
        return false;
    };
    if config.has(get) {
        return false;
    }
    let asked = Asked {
        get,
        got,
        number,
        up,
    };
    let Some(added) = sum_before(waiting, config.lifted(), first, asked) else {
        return false;
    };
    is_too_much(asked, added)
}

// The first completed `get` from this call on that the configuration lacks.
fn next_got(
    problem: &Problem<AnyObject>,
    config: &Config<AnyObject>,
    from: usize,
) -> Option<usize> {
    for call in from..problem.len() {
        if !config.has(call) && got_at(problem, call).is_some() {
            return Some(call);
        }
    }
    None
}

// How many `get`s are asked about at a configuration where adds have both signs: each takes a look at every pending call.
const GETS: usize = 4;

// One of the next `get`s that seems to leave no room, where the counter holds the number, and in which direction. It is a hint.
fn suspect_of_both(
    waiting: &Waiting<'_, AnyObject>,
    config: &Config<AnyObject>,
    first: usize,
    number: i64,
) -> Option<(usize, bool)> {
    let mut from = first;
    for _ in 0..GETS {
        let get = next_got(waiting.problem(), config, from)?;
        let got = got_at(waiting.problem(), get)?;
        let reach = reach_of(waiting, config, first, (got.called, got.returned), number);
        if reach.least > got.value || reach.greatest < got.value {
            return Some((get, reach.least > got.value));
        }
        from = get.saturating_add(1);
    }
    None
}

// Whether the call adds in the direction, or nothing.
fn is_add(problem: &Problem<AnyObject>, call: usize, up: bool) -> bool
    requires { call < length problem.now.calls }
    ensures { IsTrue result → IsAdd (any_problem problem.now) up call }
{
    match &problem.call(call).op {
        Op::Add(number) => part_in(!up, *number) == 0,
        _ => false,
    }
}

// Whether the call is a pending `get`.
fn is_pending_get(problem: &Problem<AnyObject>, call: usize) -> bool
    requires { call < length problem.now.calls }
    ensures { IsTrue result → IsPendingGet (any_problem problem.now) call }
{
    let made = problem.call(call);
    match (&made.op, &made.returned) {
        (Op::Get, None) => true,
        _ => false,
    }
}

// Whether the call is one or the other.
fn may_come_late(problem: &Problem<AnyObject>, call: usize, up: bool) -> bool
    requires { call < length problem.now.calls }
    ensures { IsTrue result → MayComeLate (any_problem problem.now) up call }
{
    if is_add(problem, call, up) {
        return true;
    }
    is_pending_get(problem, call)
}

// Whether the call is in the set or may come late.
fn is_lifted_or_late(problem: &Problem<AnyObject>, set: &CallSet, call: usize, up: bool) -> bool
    requires { call < length problem.now.calls }
    ensures { IsTrue result → has set.now call ≡ false
        → MayComeLate (any_problem problem.now) up call }
{
    if set.has(call) {
        return true;
    }
    may_come_late(problem, call, up)
}

// Whether each call that may be next may come late.
fn all_may_come_late(
    waiting: &Waiting<'_, AnyObject>,
    config: &Config<AnyObject>,
    first: usize,
    bound: u32,
    up: bool,
) -> bool
    requires reachable { IsReachable (any_problem waiting.now) config.now.lifted config.now.state }
    requires first { IsFirstLeft (any_problem waiting.now) config.now.lifted first }
    requires bound { IsLeastReturn (any_problem waiting.now) config.now.lifted bound }
    ensures { IsTrue result → BeginsCompleted (any_problem waiting.now) config.now }
{
    let problem = waiting.problem();
    let _calls = problem.calls();
    lawful::<AnyObject>();
    fewer_law(problem);
    let Some(_number) = number_of(config.state()) else {
        return false;
    };
    let mut call = waiting.next_left(first, 0);
    'calls: for _ in 0..problem.len() {
        if call >= problem.len() {
            return true;
        }
        if is_later(problem, call, bound) {
            return true;
        }
        if !is_lifted_or_late(problem, config.lifted(), call, up) {
            return false;
        }
        call = waiting.next_left(first, call + 1);
    }
    false
}

/// What a search of a counter may pass over. Of any other object it is nothing.
#[derive(Drop)]
pub struct SumRules {
    hints: Option<SumHints>,
    up: bool,
    has_both_signs: bool,
}

// Whether no call of the problem takes anything off.
pub(crate) fn none_takes_off(problem: &Problem<AnyObject>) -> bool
    ensures { IsTrue result → NoneTakesOff (any_problem problem.now) }
{
    for call in 0..problem.len() {
        if part_of(false, &problem.call(call).op) > 0 {
            return false;
        }
    }
    true
}

// Whether some call of the problem adds something.
fn some_adds(problem: &Problem<AnyObject>) -> bool {
    problem
        .calls()
        .iter()
        .any(|call| part_of(true, &call.op) > 0)
}

impl SumRules {
    /// The rules for the problem.
    pub fn of(alloc: Global, problem: &Problem<AnyObject>) -> Result<Self, AllocError> {
        let up = none_takes_off(problem);
        let has_both_signs = !up && some_adds(problem);
        let Some(start) = number_of(problem.start()) else {
            return Ok(SumRules {
                hints: None,
                up,
                has_both_signs,
            });
        };
        let hints = SumHints::of(alloc, problem, start, up)?;
        Ok(SumRules {
            hints: Some(hints),
            up,
            has_both_signs,
        })
    }

    // A `get` that the configuration seems to leave no room for, where the counter holds the number, and in which direction.
    fn suspect(
        &self,
        waiting: &Waiting<'_, AnyObject>,
        config: &Config<AnyObject>,
        first: usize,
        number: i64,
    ) -> Option<(usize, bool)> {
        if self.has_both_signs {
            return suspect_of_both(waiting, config, first, number);
        }
        let hints = self.hints.as_ref()?;
        let get = hints.suspect(waiting.problem(), config, first, number)?;
        Some((get, self.up))
    }
}

impl Rules<AnyObject> for SumRules {
    ghost suits = { λ r p. Unit {0} };

    fn refutes(
        &self,
        waiting: &Waiting<'_, AnyObject>,
        config: &Config<AnyObject>,
        first: usize,
    ) -> bool {
        let Some(number) = number_of(config.state()) else {
            return false;
        };
        let Some((get, up)) = self.suspect(waiting, config, first, number) else {
            return false;
        };
        leaves_no_room(waiting, config, first, get, up)
    }

    fn comes_first(
        &self,
        problem: &Problem<AnyObject>,
        config: &Config<AnyObject>,
        pending: usize,
        completed: usize,
    ) -> bool {
        lawful::<AnyObject>();
        fewer_law(problem);
        let Some(_number) = number_of(config.state()) else {
            return false;
        };
        if is_completed(problem, pending) {
            return false;
        }
        if !may_come_late(problem, pending, self.up) {
            return false;
        }
        is_add(problem, completed, self.up)
    }

    fn begins_completed(
        &self,
        waiting: &Waiting<'_, AnyObject>,
        config: &Config<AnyObject>,
        first: usize,
        bound: u32,
    ) -> bool {
        if self.hints.is_none() {
            return false;
        }
        all_may_come_late(waiting, config, first, bound, self.up)
    }
}
