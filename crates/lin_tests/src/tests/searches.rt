//! Searches: their limits and stops, the memo and entries.

ghost use Rattle.std.specs.Prelude.{◌≡◌, ◌++◌, ◌∷◌, [], ◌<◌, IfSome};

use super::fakes::{Countdown, Forgetful};
use lin_history::{Order, Problem};
use lin_object::{AnyObject, Kind, Op, Reply, start_state};
use lin_search::{
    Config, Entries, Longest, Memo, NoStop, Noted, Outcome, OwnMemo, Refutation, Stop, longest_run,
    search, search_alone,
};
use lin_workers::{Scouting, scout};
use std::alloc::{AllocError, Global};

pub(super) type Part = Problem<AnyObject>;

// An event of a problem.
#[derive(Clone, Copy)]
pub(super) enum Event {
    // A process calls an operation.
    Call(u32, Op),
    // The call of this number returns a reply.
    Return(usize, Reply),
}

use Event::{Call, Return};

// Three writes of one value that overlap one another, and after them a read of what nobody wrote.
const WRITES_OF_ONE_VALUE: [Event; 8] = [
    Call(1, Op::Write(1)),
    Call(2, Op::Write(1)),
    Call(3, Op::Write(1)),
    Return(0, Reply::Okay),
    Return(1, Reply::Okay),
    Return(2, Reply::Okay),
    Call(4, Op::Read),
    Return(3, Reply::Int(9)),
];

// Two enqueues that overlap, and after them two dequeues, of the second item first.
const TWO_AT_ONCE: [Event; 8] = [
    Call(1, Op::Enqueue(1)),
    Call(2, Op::Enqueue(2)),
    Return(0, Reply::Okay),
    Return(1, Reply::Okay),
    Call(1, Op::Dequeue),
    Return(2, Reply::Int(2)),
    Call(2, Op::Dequeue),
    Return(3, Reply::Int(1)),
];

// The problem with these events, numbered from 1. An event that is refused is left out.
pub(super) fn posed_by(alloc: Global, kind: Kind, events: &[Event]) -> Part {
    let mut problem = Problem::new(alloc, AnyObject, start_state(alloc, kind, 0));
    let mut number = 0u32;
    for event in events {
        number = number.wrapping_add(1);
        let _ = match *event {
            Call(process, op) => problem.add_call(process, op, number),
            Return(call, reply) => problem.add_return(call, reply, number),
        };
    }
    problem
}

// Three writes that overlap one another, of 1, 2 and 3, and after them a read of this value.
pub(super) fn writes_and_a_read_of(alloc: Global, value: i64) -> Part {
    let events = [
        Call(1, Op::Write(1)),
        Call(2, Op::Write(2)),
        Call(3, Op::Write(3)),
        Return(0, Reply::Okay),
        Return(1, Reply::Okay),
        Return(2, Reply::Okay),
        Call(4, Op::Read),
        Return(3, Reply::Int(value)),
    ];
    posed_by(alloc, Kind::Register, &events)
}

pub(super) const THREE_MORE: Longest = Longest {
    more: 3,
    first: Some(0),
};

// Whether the search by itself finds all four calls in turn.
fn finds_four_in_turn(alloc: Global, problem: &Part) -> Result<bool, AllocError> {
    let order = Order::new(vec![in alloc; 0, 1, 2, 3]?);
    let (outcome, _) = search_alone(alloc, problem)?;
    Ok(outcome == Outcome::Found(order))
}

#[test]
fn a_search_by_itself_finds_or_counts(rt: HostRuntime) {
    let found = writes_and_a_read_of(rt.alloc(), 3);
    assert!(rt; matches!(finds_four_in_turn(rt.alloc(), &found), Ok(true)));
    // The root, and each of the 3 + 6 + 3 sets of writes with the value of its last.
    let refuted = writes_and_a_read_of(rt.alloc(), 9);
    let wanted = (Outcome::Refuted(THREE_MORE), 13);
    assert!(rt; matches!(search_alone(rt.alloc(), &refuted), Ok(told) if told == wanted));
}

// Whether the search from the root answers so.
fn answers<M: Memo<AnyObject>, S: Stop>(
    alloc: Global,
    problem: &Part,
    memo: &mut M,
    limit: Option<u64>,
    stop: &mut S,
    wanted: &Outcome,
) -> Result<bool, AllocError> {
    let root = Config::root(alloc, problem)?;
    Ok(search(alloc, problem, &root, memo, limit, stop)? == *wanted)
}

// How many configurations the search over a memo of its own stores, where it answers so.
fn stored_by<S: Stop>(
    alloc: Global,
    problem: &Part,
    limit: Option<u64>,
    stop: &mut S,
    wanted: &Outcome,
) -> Result<Option<u64>, AllocError> {
    let mut memo = OwnMemo::new(alloc, problem);
    if answers(alloc, problem, &mut memo, limit, stop, wanted)? {
        Ok(Some(memo.count()))
    } else {
        Ok(None)
    }
}

// The same within this limit.
fn stored_within(
    alloc: Global,
    problem: &Part,
    limit: u64,
    wanted: &Outcome,
) -> Result<Option<u64>, AllocError> {
    stored_by(alloc, problem, Some(limit), &mut NoStop, wanted)
}

// Whether the search is refuted within this limit with so many configurations stored, and not within one lift less.
fn needs(alloc: Global, problem: &Part, limit: u64, count: u64) -> Result<bool, AllocError>
    requires { 0 < limit }
{
    let refuted = Outcome::Refuted(THREE_MORE);
    let stored = stored_within(alloc, problem, limit, &refuted)?;
    let less = stored_within(alloc, problem, limit - 1, &Outcome::Undecided)?;
    Ok(stored == Some(count) && less.is_some())
}

#[test]
fn a_search_ends_at_its_limit(rt: HostRuntime) {
    let problem = writes_and_a_read_of(rt.alloc(), 9);
    assert!(rt; matches!(needs(rt.alloc(), &problem, 15, 13), Ok(true)));
    let early = stored_within(rt.alloc(), &problem, 3, &Outcome::Undecided);
    assert!(rt; matches!(early, Ok(Some(2))));
}

// Whether the search over this memo refutes the problem within 15 lifts, and not within 14.
fn takes_15_lifts(alloc: Global, problem: &Part, memo: &mut Forgetful) -> Result<bool, AllocError> {
    let refuted = Outcome::Refuted(THREE_MORE);
    let enough = answers(alloc, problem, memo, Some(15), &mut NoStop, &refuted)?;
    let undecided = Outcome::Undecided;
    let less = answers(alloc, problem, memo, Some(14), &mut NoStop, &undecided)?;
    Ok(enough && less)
}

// The longest run over this memo, where the problem has no linearization.
fn longest_over(
    alloc: Global,
    problem: &Part,
    memo: &mut Forgetful,
) -> Result<Option<Order>, AllocError> {
    let (outcome, _) = search_alone(alloc, problem)?;
    let Outcome::Refuted(_) = outcome else {
        return Ok(None);
    };
    Ok(Some(longest_run(alloc, problem, memo)?))
}

// Whether a search and a longest run go on over this memo, whatever it answers to what it is handed.
fn goes_on_over(alloc: Global, problem: &Part, memo: &mut Forgetful) -> Result<bool, AllocError> {
    let writes = Order::new(vec![in alloc; 0, 1, 2]?);
    let run = longest_over(alloc, problem, memo)?;
    Ok(run == Some(writes) && takes_15_lifts(alloc, problem, memo)?)
}

#[test]
fn no_answer_to_what_it_notes_ends_a_search(rt: HostRuntime) {
    let problem = writes_and_a_read_of(rt.alloc(), 9);
    let mut busy = Forgetful { is_full: false };
    assert!(rt; matches!(goes_on_over(rt.alloc(), &problem, &mut busy), Ok(true)));
    let mut full = Forgetful { is_full: true };
    assert!(rt; matches!(goes_on_over(rt.alloc(), &problem, &mut full), Ok(true)));
}

#[test]
fn a_hit_is_a_lift(rt: HostRuntime) {
    let problem = posed_by(rt.alloc(), Kind::Register, &WRITES_OF_ONE_VALUE);
    assert!(rt; matches!(needs(rt.alloc(), &problem, 12, 8), Ok(true)));
}

// Whether a search that is stopped after three lifts says so, with two configurations stored.
fn is_stopped(alloc: Global, problem: &Part) -> Result<bool, AllocError> {
    let mut stop = Countdown { lifts: 3 };
    let stored = stored_by(alloc, problem, None, &mut stop, &Outcome::Stopped(0))?;
    Ok(stored == Some(2))
}

// Whether what a search stores in this memo up to its limit serves the next one.
fn serves_the_next(
    alloc: Global,
    problem: &Part,
    memo: &mut OwnMemo<'_, AnyObject>,
) -> Result<bool, AllocError> {
    let undecided = Outcome::Undecided;
    let first = answers(alloc, problem, memo, Some(3), &mut NoStop, &undecided)?;
    let refuted = Outcome::Refuted(THREE_MORE);
    let second = answers(alloc, problem, memo, None, &mut NoStop, &refuted)?;
    Ok(first && second && memo.count() == 13)
}

// Whether that is so in a new memo.
fn is_taken_up(alloc: Global, problem: &Part) -> Result<bool, AllocError> {
    serves_the_next(alloc, problem, &mut OwnMemo::new(alloc, problem))
}

// Whether a scout that goes in these directions stores all below the root in this memo, and a search finds it there.
fn serves_a_search(
    alloc: Global,
    problem: &Part,
    memo: &mut OwnMemo<'_, AnyObject>,
    directions: u64,
) -> Result<bool, AllocError> {
    let root = Config::root(alloc, problem)?;
    let scouting = Scouting {
        directions,
        steps: 100,
    };
    scout(alloc, problem, &root, scouting, memo, &mut NoStop)?;
    let below = memo.count();
    let refuted = Outcome::Refuted(THREE_MORE);
    let agrees = answers(alloc, problem, memo, Some(3), &mut NoStop, &refuted)?;
    Ok(below == 12 && agrees && memo.count() == 13)
}

// Whether that is so in a new memo.
fn is_scouted(alloc: Global, problem: &Part, directions: u64) -> bool {
    let mut memo = OwnMemo::new(alloc, problem);
    matches!(
        serves_a_search(alloc, problem, &mut memo, directions),
        Ok(true)
    )
}

#[test]
fn a_scout_refutes_in_any_direction(rt: HostRuntime) {
    let problem = writes_and_a_read_of(rt.alloc(), 9);
    assert!(rt; is_scouted(rt.alloc(), &problem, 0));
    assert!(rt; is_scouted(rt.alloc(), &problem, u64::MAX));
    assert!(rt; is_scouted(rt.alloc(), &problem, 1) && is_scouted(rt.alloc(), &problem, 2));
}

// Whether a search whose limit is three lifts ends at it, with a stop that answers after as many.
fn is_undecided_first(alloc: Global, problem: &Part) -> Result<bool, AllocError> {
    let mut stop = Countdown { lifts: 3 };
    let stored = stored_by(alloc, problem, Some(3), &mut stop, &Outcome::Undecided)?;
    Ok(stored == Some(2))
}

#[test]
fn the_limit_comes_before_the_stop(rt: HostRuntime) {
    let problem = writes_and_a_read_of(rt.alloc(), 9);
    assert!(rt; matches!(is_undecided_first(rt.alloc(), &problem), Ok(true)));
}

#[test]
fn a_search_is_stopped_and_taken_up(rt: HostRuntime) {
    let problem = writes_and_a_read_of(rt.alloc(), 9);
    assert!(rt; matches!(is_stopped(rt.alloc(), &problem), Ok(true)));
    assert!(rt; matches!(is_taken_up(rt.alloc(), &problem), Ok(true)));
}

// That the root of the problem is refuted, where it is.
pub(super) fn refuted_root(
    alloc: Global,
    problem: &Part,
) -> Result<Option<Refutation<'_, AnyObject>>, AllocError> {
    let root = Config::root(alloc, problem)?;
    let mut memo = Forgetful { is_full: false };
    match search(alloc, problem, &root, &mut memo, None, &mut NoStop)? {
        Outcome::Refuted(longest) => Ok(Some(Refutation::new(problem, root, longest))),
        Outcome::Found(_) | Outcome::Undecided | Outcome::Stopped(_) => Ok(None),
    }
}

// What the memo answers to the refuted root of the problem.
fn noted(
    alloc: Global,
    memo: &mut OwnMemo<'_, AnyObject>,
    problem: &Part,
) -> Result<Option<Noted>, AllocError> {
    match refuted_root(alloc, problem)? {
        Some(refutation) => Ok(Some(memo.note(refutation))),
        None => Ok(None),
    }
}

// Whether the memo refuses the refuted root of another problem, and keeps nothing of it.
fn refuses_a_stranger(
    alloc: Global,
    memo: &mut OwnMemo<'_, AnyObject>,
    other: &Part,
) -> Result<bool, AllocError> {
    Ok(noted(alloc, memo, other)? == Some(Noted::Stranger) && memo.count() == 0)
}

// Whether a new memo does so.
fn a_memo_refuses_a_stranger(alloc: Global) -> Result<bool, AllocError> {
    let problem = writes_and_a_read_of(alloc, 9);
    let other = writes_and_a_read_of(alloc, 8);
    refuses_a_stranger(alloc, &mut OwnMemo::new(alloc, &problem), &other)
}

#[test]
fn a_memo_keeps_nothing_of_another_problem(rt: HostRuntime) {
    assert!(rt; matches!(a_memo_refuses_a_stranger(rt.alloc()), Ok(true)));
}

// The two least minimal calls.
fn two_minimal(entries: &Entries<'_, AnyObject>) -> (Option<usize>, Option<usize>) {
    match entries.first_minimal() {
        Some(first) => (Some(first), entries.next_minimal(first)),
        None => (None, None),
    }
}

// Lifts the least minimal call.
fn lift_first(entries: &mut Entries<'_, AnyObject>) -> Option<usize>
    ensures problem { entries.new.problem ≡ entries.old.problem }
    ensures lifted { IfSome result (λ call. entries.new.lifted ≡ entries.old.lifted ++ call ∷ []) }
{
    let first = entries.first_minimal()?;
    entries.lift(first);
    Some(first)
}

// Lifts the second least minimal call.
fn lift_second(entries: &mut Entries<'_, AnyObject>) -> Option<usize>
    ensures problem { entries.new.problem ≡ entries.old.problem }
    ensures lifted { IfSome result (λ call. entries.new.lifted ≡ entries.old.lifted ++ call ∷ []) }
{
    let first = entries.first_minimal()?;
    let second = entries.next_minimal(first)?;
    entries.lift(second);
    Some(second)
}

// Whether the right calls are minimal: at first, with the second lifted, with both, and with both put back.
fn are_minimal_in_turn(entries: &mut Entries<'_, AnyObject>) -> bool {
    let at_first = two_minimal(entries);
    let Some(second) = lift_second(entries) else {
        return false;
    };
    let without_one = two_minimal(entries);
    let Some(first) = lift_first(entries) else {
        return false;
    };
    let without_two = two_minimal(entries);
    entries.unlift(first);
    entries.unlift(second);
    at_first == (Some(0), Some(1))
        && without_one == (Some(0), None)
        && without_two == (Some(2), None)
        && two_minimal(entries) == at_first
}

// The same of a new list of the problem's entries.
fn entries_are_minimal_in_turn(alloc: Global, problem: &Part) -> Result<bool, AllocError> {
    Ok(are_minimal_in_turn(&mut Entries::new(alloc, problem)?))
}

#[test]
fn calls_are_minimal_in_their_turn(rt: HostRuntime) {
    let problem = posed_by(rt.alloc(), Kind::Queue, &TWO_AT_ONCE);
    assert!(rt; matches!(entries_are_minimal_in_turn(rt.alloc(), &problem), Ok(true)));
}

// What a search answers over a memo that keeps nothing.
pub(super) fn plainly_searched(alloc: Global, problem: &Part) -> Result<Outcome, AllocError> {
    let root = Config::root(alloc, problem)?;
    let mut memo = Forgetful { is_full: false };
    search(alloc, problem, &root, &mut memo, None, &mut NoStop)
}
