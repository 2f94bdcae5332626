//! How far each way goes: all thresholds of the check, with their reasons.

ghost use Rattle.std.specs.Prelude.{◌≡◌, ◌≤◌, ◌<◌, ◌↔◌, ℕ, IfSome, IsSomeAnd, IsTrue};
ghost use Rattle.lin_history.specs.declared.limits.TheConstants.{MAX_CALLS_ON_OBJECT};
ghost use Rattle.lin_effort.specs.declared.efforts.TheConstants.{LEAST_LIMIT};
ghost use Rattle.lin_effort.specs.Lifts.{at_most, lifts_on_key};

use crate::effort::{Effort, Keys};
use crate::work::Work;
use lin_history::Problem;
use lin_object::{AnyObject, ObjState};

// ---- limits

// The least limit with which ways are gone that a limit does not speak of: searches of prefixes, and a verdict that is known ahead. A
// smaller one bounds the full search, and that alone says `undecided` or `not linearizable`.
const LEAST_LIMIT: u64 = 500_000;

/// Whether the limit is one of the full search alone.
pub fn is_small(limit: Option<u64>) -> bool
    ensures { IsTrue result ↔ IsSomeAnd limit (λ most. most < LEAST_LIMIT) }
{
    match limit {
        Some(most) => most < LEAST_LIMIT,
        None => false,
    }
}

/// So many lifts, but never more than the limit.
pub fn within(lifts: u64, limit: Option<u64>) -> u64
    ensures { result ≡ at_most limit lifts }
{
    match limit {
        Some(most) => most.min(lifts),
        None => lifts,
    }
}

// ---- an object before its full search

/// An object of so many calls, before its full search: key by key, or a first search where something is known ahead. No search makes more
/// lifts than the limit allows.
///
/// A first search makes three lifts for each call: where what is known ahead is enough to decide, a queue takes little more than one; where
/// it is not, a search that goes before another is to cost little.
pub fn ahead(calls: usize, limit: Option<u64>) -> Effort
    ensures lifts { IfSome limit (λ most. result.lifts ≤ most) }
    ensures keys { (lifts : ℕ) → result.keys ≡ Keys.AtFirst lifts → IfSome limit (λ most. lifts ≤ most) }
{
    Effort {
        is_shown: false,
        with_any_adds: false,
        keys: Keys::AtFirst(within(u64::MAX, limit)),
        lifts: within((calls as u64).saturating_mul(3), limit),
        growth: 1,
        rounds_ahead: 1,
        rounds: 0,
        steps_for_a_lift: 0,
        made: Work::NONE,
    }
}

// ---- maps and sets, key by key

// The most lifts of a search for each call on a key, and how many more. A key of a real history takes few; where one takes more, the
// search of the whole decides.
const LIFTS_FOR_A_CALL_ON_A_KEY: u64 = 300;

const MORE_LIFTS_ON_A_KEY: u64 = 4_000;

/// How many lifts a search of so many calls makes, which are those on one key.
pub fn lifts_on_key(calls: usize, limit: Option<u64>) -> u64
    requires { calls ≤ MAX_CALLS_ON_OBJECT }
    ensures { result ≡ lifts_on_key limit calls }
{
    within(
        LIFTS_FOR_A_CALL_ON_A_KEY * calls as u64 + MORE_LIFTS_ON_A_KEY,
        limit,
    )
}

/// How many lifts a search of so many calls on one item of a set makes before anything is found out ahead of it: that takes about as long
/// as so many, and most items are easy.
pub fn lifts_at_once(calls: usize, limit: Option<u64>) -> u64
    ensures { IfSome limit (λ most. result ≤ most) }
{
    within((calls as u64).saturating_mul(8), limit)
}

// ---- turns of the full search and of searches of prefixes

// How many lifts the full search makes in its first turn, or as many as there are calls where these are more. It takes some 20
// milliseconds and 8 megabytes for so many, and small histories are decided before.
const FIRST_TURN: u64 = 20_000;

// How many it makes there at least, if it is known that there is no order, or two for each call: it would have every configuration to go
// through. A register of which one wrong value was read mostly takes fewer.
const FIRST_TURN_IF_REFUTED: u64 = 8_000;

// How many keys a map or a set may have for which a lift of its full search counts as one: each copies all keys, so with more of them
// fewer lifts are made in the first turn, if there is known to be no order.
const KEYS_FOR_A_LIFT: u64 = 1_000;

// The least lifts, for each call, of the first searches of prefixes. They halve the number of calls some ten times, and search a few
// dozen prefixes then, each with about a lift for each call.
const LIFTS_BY_PREFIXES: u64 = 32;

// The most lifts of searches of prefixes for each call. What they do not tell with so many is left to the full search. Where it is
// known that there is no linearization they make all of them in the first turn: the full search would have every configuration to
// go through in its next one.
const MOST_BY_PREFIXES: u64 = 1_000;

/// How far the ways go in one turn: how many lifts the full search makes, and searches of prefixes.
#[derive(Clone, Copy, Debug)]
pub struct Turn {
    /// How many lifts the full search makes, or makes no progress for.
    pub full: u64,
    /// How many lifts searches of prefixes make.
    pub prefixes: u64,
    /// Whether it is the first.
    pub is_first: bool,
}

// How many lifts searches of prefixes make at most.
fn most_by_prefixes(problem: &Problem<AnyObject>, limit: Option<u64>) -> u64
    ensures { IfSome limit (λ most. result ≤ most) }
{
    within(MOST_BY_PREFIXES.saturating_mul(problem.len() as u64), limit)
}

// How many lifts the full search makes in its first turn. A mutex has few configurations, so there most searches end within it.
fn full_at_first(problem: &Problem<AnyObject>, is_refuted: bool) -> u64 {
    let calls = problem.len() as u64;
    match problem.start() {
        ObjState::Map(_) | ObjState::Set(_) if is_refuted => {
            FIRST_TURN * KEYS_FOR_A_LIFT / calls.max(KEYS_FOR_A_LIFT)
        }
        ObjState::Mutex(_) => FIRST_TURN.max(calls),
        _ if is_refuted => FIRST_TURN_IF_REFUTED.max(calls.saturating_mul(2)),
        _ => FIRST_TURN.max(calls),
    }
}

/// How many lifts the first searches of prefixes make.
pub fn prefixes_at_first(problem: &Problem<AnyObject>, is_refuted: bool, limit: Option<u64>) -> u64
    ensures { IfSome limit (λ most. result ≤ most) }
{
    let most = most_by_prefixes(problem, limit);
    if is_refuted {
        return most;
    }
    let lifts = LIFTS_BY_PREFIXES.saturating_mul(problem.len() as u64);
    FIRST_TURN.max(lifts).min(most)
}

// How many lifts' work a search takes for each lift that it makes, with what it does beside: it finds out what is known ahead, and tries
// calls that it passes over.
const WORK_FOR_A_LIFT: u64 = 3;

/// The work of searches that make so many lifts.
pub fn work_of_searches(lifts: u64) -> Work {
    Work::of_lifts(lifts.saturating_mul(WORK_FOR_A_LIFT))
}

/// How many lifts searches make with so much work.
pub fn lifts_within(work: Work) -> u64 {
    work.lifts() / WORK_FOR_A_LIFT
}

/// The first turn.
pub fn first_turn(problem: &Problem<AnyObject>, is_refuted: bool, limit: Option<u64>) -> Turn
    ensures { IfSome limit (λ most. result.prefixes ≤ most) }
{
    Turn {
        full: full_at_first(problem, is_refuted),
        prefixes: prefixes_at_first(problem, is_refuted, limit),
        is_first: true,
    }
}

/// The turn after one in which searches of prefixes made so many lifts: twice as far. `None` where they made as many as they ever do.
pub fn turn_after(problem: &Problem<AnyObject>, prefixes: u64, limit: Option<u64>) -> Option<Turn>
    ensures { IfSome limit (λ most. IfSome result (λ turn. turn.prefixes ≤ most)) }
{
    let most = most_by_prefixes(problem, limit);
    if prefixes >= most {
        return None;
    }
    let lifts = prefixes.saturating_mul(2);
    Some(Turn {
        full: lifts,
        prefixes: lifts.min(most),
        is_first: false,
    })
}

// ---- prefixes, and other parts that are made anew

/// How many steps a search makes that tries pending calls only between completed ones (`lin_fewer`), for each lift of another that goes
/// beside it. A step takes about a quarter of the time of a lift, and such a search mostly takes fewer.
pub const STEPS_FOR_A_LIFT: u64 = 16;

/// The least linearization of a problem of so many calls: a search makes two lifts for each call at first, and four times as many each time
/// that it says nothing, until the work is done.
pub fn order(calls: usize) -> Effort {
    Effort {
        is_shown: true,
        with_any_adds: true,
        keys: Keys::InRounds,
        lifts: (calls as u64).saturating_mul(2),
        growth: 4,
        rounds_ahead: usize::MAX,
        rounds: usize::MAX,
        steps_for_a_lift: STEPS_FOR_A_LIFT,
        made: Work::of_problem(calls),
    }
}

/// Whether a call has no run with all that precedes it. A search is made twice at most: without the answer more parts are searched, but each
/// of those shows more. For the same reason one by blocks goes four times as far: it has few rounds.
pub fn bound(calls: usize) -> Effort {
    Effort {
        rounds_ahead: 2,
        rounds: 2,
        steps_for_a_lift: 4 * STEPS_FOR_A_LIFT,
        ..order(calls)
    }
}

/// Whether it has none that has a group of other calls, too. Mostly it has one, so a counter is not asked about any adds. Where something is
/// known ahead a search is made once: mostly that alone shows that no run has them all, and the search begins only where it does not.
pub fn group(calls: usize) -> Effort {
    Effort {
        with_any_adds: false,
        rounds_ahead: 1,
        ..bound(calls)
    }
}

// How many steps a search makes at most that tries pending calls only between completed ones, times how many calls there are. With
// more calls a step takes longer, and more of them are wanted: with thousands of calls it is no good bet, and the full search would
// wait for it. Of a counter it is one: what its gets leave room for bounds it.
const MOST_STEPS_TIMES_CALLS: u64 = 200_000_000;

const MOST_STEPS_TIMES_CALLS_OF_A_COUNTER: u64 = 4_000_000_000;

/// Whether it is a good bet to make so many steps.
pub fn may_take_steps(problem: &Problem<AnyObject>, steps: u64) -> bool {
    let most = match problem.start() {
        ObjState::Counter(_) => MOST_STEPS_TIMES_CALLS_OF_A_COUNTER,
        _ => MOST_STEPS_TIMES_CALLS,
    };
    steps.saturating_mul(problem.len() as u64) <= most
}

// ---- cores

/// How much work is put into looking for a core among so many calls: enough for some fifty searches of all calls, each of which takes
/// three or four lifts for each call, and no more than a search takes that stalls.
pub fn core_work(calls: usize) -> Work {
    Work::of_lifts((calls as u64).saturating_mul(192).saturating_add(100_000))
}

// How many lifts the search of a selection of so many calls may make: of a few calls as many as all sets of these calls have, each with a
// few states; of more a few for each call.
fn core_lifts(calls: usize) -> u64 {
    match calls {
        0..=12 => 65_536,
        _ => (calls as u64).saturating_mul(16).saturating_add(256),
    }
}

/// Whether a selection of so many of an object's calls has no linearization.
pub fn selection(calls: usize) -> Effort {
    Effort {
        lifts: core_lifts(calls),
        rounds: 1,
        keys: Keys::Never,
        made: Work::of_problem(calls),
        ..ahead(0, None)
    }
}
