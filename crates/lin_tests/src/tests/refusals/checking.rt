//! Checks, workers, and the words after the program's name.

ghost use Rattle.std.specs.Prelude.{◌≡◌, All, IfOk, IfSome};
ghost use Rattle.lin_board.specs.Board.{IsSeatOf};
ghost use Rattle.lin_table.specs.Hand.{IsHandOf};

use super::super::boards::tallies;
use super::super::reports::REFUTED;
use super::super::watched::{Watched, read_of_no_written_value};
use super::histories::QUEUE;
use super::searching::{MUCH, Refused, Refusing};
use super::starved::{Starved, TIMES};
use lin_board::{Board, Seat};
use lin_history::{History, Placed};
use lin_search::{Longest, Outcome};
use lin_table::{Hand, Table};
use lin_text::read_history;
use lin_workers::{Done, FreeGate, ObjectVerdict, check_object, cut, work};
use lincheck::{CheckFault, Gate, Options, Request, Verdict, check, options_of};
use std::alloc::{AllocError, Global};
use std::thread;
use std::thread::Threads;
use std::time::Clock;

/// Two registers, each read while the other is written.
pub const CROSSED: &str = r#"{"event":"object","object":"x","kind":"register"}
{"event":"object","object":"y","kind":"register"}
{"event":"call","process":1,"object":"x","op":"write","args":[1]}
{"event":"call","process":2,"object":"y","op":"write","args":[7]}
{"event":"return","process":2,"object":"y","result":"ok"}
{"event":"call","process":2,"object":"x","op":"read"}
{"event":"return","process":2,"object":"x","result":0}
{"event":"call","process":2,"object":"y","op":"read"}
{"event":"return","process":2,"object":"y","result":7}
{"event":"return","process":1,"object":"x","result":"ok"}
"#;

/// A gate at which nothing happens, and that wants workers at once.
#[derive(Drop)]
pub struct Eager;

impl Gate for Eager {
    fn enter(&self, _task: u64) {}
}

// A text, whether it is linearizable, and the calls of the order or of the longest run.
type Row = (&'static str, bool, &'static [usize]);

const ROWS: [Row; 3] = [
    (QUEUE, true, &[1, 0, 2, 3]),
    (CROSSED, true, &[1, 2, 0, 3]),
    (REFUTED, false, &[0, 1, 2]),
];

/// Whether these are the calls.
pub fn are_calls(placed: &[Placed], calls: &[usize]) -> bool {
    placed.len() == calls.len() && (0..calls.len()).all(|place| placed[place].call == calls[place])
}

// Whether it is the verdict of the row.
fn is_verdict(verdict: &Verdict, row: Row) -> bool {
    match verdict {
        Verdict::Yes(order) => row.1 && are_calls(order.placed(), row.2),
        Verdict::No { object, run } => !row.1 && *object == 0 && are_calls(run.as_slice(), row.2),
        Verdict::NoInTime { .. } => false,
        Verdict::Undecided { .. } => false,
    }
}

// How many times the check was refused memory, with more and more room, until it told the verdict.
fn refusals<R: AllocGlobal + Threads + Clock + Sync>(
    rt: &R,
    starved: &mut Starved,
    history: &History,
    options: &Options,
    row: Row,
) -> Option<u64> {
    let mut refused = 0u64;
    for step in 0..TIMES {
        if !starved.leave(step * 16) {
            return None;
        }
        match check(rt, history, options, &Eager) {
            Ok(checked) if is_verdict(&checked.verdict, row) => return Some(refused),
            Ok(_) => return None,
            Err(CheckFault::Memory) => refused = refused.saturating_add(1),
        }
    }
    None
}

// The same with two workers, from a process that has all it wants.
fn refusals_in_turn<R: AllocGlobal + Threads + Clock + Sync>(
    rt: &R,
    alloc: Global,
    row: Row,
) -> Result<Option<u64>, AllocError> {
    let Ok(history) = read_history(alloc, row.0.as_bytes()) else {
        return Ok(None);
    };
    let Ok(options) = Options::new(2, 16, None, false) else {
        return Ok(None);
    };
    let mut starved = Starved::new(alloc, TIMES)?;
    Ok(refusals(rt, &mut starved, &history, &options, row))
}

#[test]
fn a_check_is_refused_or_tells_its_verdict(rt: HostRuntime) {
    for row in ROWS {
        let refused = refusals_in_turn(&rt, rt.alloc(), row);
        assert!(rt; matches!(refused, Ok(Some(200..))), "{refused:?}");
    }
}

// Whether a thread starts.
fn starts(rt: &impl Threads) -> bool {
    match thread::spawn(rt, move || 7u64) {
        Ok(child) => child.join(rt) == 7,
        Err(_) => false,
    }
}

// Whether a check with four workers shows the verdict of a row where no thread starts.
fn is_checked_without_threads<R: AllocGlobal + Threads + Clock + Sync>(
    rt: &R,
    alloc: Global,
    row: Row,
) -> Result<bool, AllocError> {
    let Ok(history) = read_history(alloc, row.0.as_bytes()) else {
        return Ok(false);
    };
    let Ok(options) = Options::new(4, 16, None, false) else {
        return Ok(false);
    };
    let mut starved = Starved::new(alloc, 64)?;
    for _ in 0..60 {
        starved.leave(65_536);
    }
    let started = starts(rt);
    match check(rt, &history, &options, &Eager) {
        Ok(checked) => Ok(!started && is_verdict(&checked.verdict, row)),
        Err(CheckFault::Memory) => Ok(false),
    }
}

#[test]
fn the_verdict_stays_where_no_thread_starts(rt: HostRuntime) {
    let told = is_checked_without_threads(&rt, rt.alloc(), ROWS[2]);
    assert!(rt; told == Ok(true), "{told:?}");
}

// Whether a check of one object, of whose steps and copies one is refused, shows the longest run; `None` where it was refused
// memory.
fn is_told<R: AllocGlobal + Threads + Clock + Sync>(
    rt: &R,
    problem: &Refused,
    workers: u64,
    before: u64,
) -> Option<bool> {
    let Ok(options) = Options::new(workers, 16, None, false) else {
        return Some(false);
    };
    problem.object().watch.set(before);
    match check_object(rt, problem, &options, &Eager) {
        Ok((ObjectVerdict::No(order), _)) => Some(order.calls() == [0, 1, 2].as_slice()),
        Ok(_) => Some(false),
        Err(CheckFault::Memory) => None,
    }
}

// How many of the first hundred steps and copies, refused in turn, ended the check, where all others told the longest run.
fn refusals_of_a_check<R: AllocGlobal + Threads + Clock + Sync>(
    rt: &R,
    alloc: Global,
    workers: u64,
) -> Option<u64> {
    let problem = read_of_no_written_value(alloc, Refusing::after(MUCH));
    let mut refused = 0u64;
    for before in 0..100 {
        match is_told(rt, &problem, workers, before) {
            Some(true) => {}
            Some(false) => return None,
            None => refused = refused.saturating_add(1),
        }
    }
    Some(refused)
}

#[test]
fn a_check_of_an_object_is_refused_or_tells_its_verdict(rt: HostRuntime) {
    let alone = refusals_of_a_check(&rt, rt.alloc(), 1);
    assert!(rt; matches!(alone, Some(15..=99)), "{alone:?}");
    let shared = refusals_of_a_check(&rt, rt.alloc(), 2);
    assert!(rt; matches!(shared, Some(2..=99)), "{shared:?}");
}

// Whether it is what the task of this number brings with ample memory.
fn is_right(number: u64, outcome: &Outcome) -> bool {
    let first = if number == 0 { 1 } else { 0 };
    let wanted = Longest {
        more: 2,
        first: Some(first),
    };
    matches!(outcome, Outcome::Refuted(longest) if *longest == wanted)
}

// Whether each value is the right one.
fn are_right(values: &[(u64, Outcome)]) -> bool {
    for (number, outcome) in values {
        if !is_right(*number, outcome) {
            return false;
        }
    }
    true
}

// Whether the hand came back to its table, which then shows how much was stored.
fn totals(table: Table<'_, Watched<Refusing>>, hands: Vec<Hand<Watched<Refusing>>>) -> bool
    requires { All (IsHandOf table) hands.items }
{
    matches!(table.total(hands), Ok(0..=12))
}

// The seat of a worker that goes through the three tasks, where each value that it brings is right, and how many it brings;
// of its steps and copies so many are not refused, and then one is.
fn brings(
    alloc: Global,
    problem: &Refused,
    before: u64,
    board: &Board,
    seat: Seat,
) -> Result<Option<(Seat, usize)>, AllocError>
    requires tasks { board.now.tasks ≡ 3 }
    requires seat { IsSeatOf board.now seat }
    ensures { IfOk result (λ brought. IfSome brought (λ r. IsSeatOf board.now r.0)) }
{
    let tasks = cut(alloc, problem, 2)?;
    let (table, mut hands) = Table::new(alloc, problem, 1, 1)?;
    let Some(hand) = hands.pop() else {
        return Ok(None);
    };
    if tasks.len() != 3 {
        return Ok(None);
    }
    problem.object().watch.set(before);
    let done = work(
        alloc,
        problem,
        tasks.as_slice(),
        &table,
        hand,
        board,
        seat,
        &FreeGate,
        None,
    );
    let Done { values, hand, seat } = done;
    hands.push(hand)?;
    if totals(table, hands) && are_right(values.as_slice()) {
        Ok(Some((seat, values.len())))
    } else {
        Ok(None)
    }
}

// How many of the three tasks have a value where that step or copy is refused; each value is the right one, and hand and seat
// came back.
fn brought(alloc: Global, before: u64) -> Result<Option<usize>, AllocError> {
    let problem = read_of_no_written_value(alloc, Refusing::after(MUCH));
    let (board, mut seats) = Board::new(alloc, 3, 1)?;
    let Some(seat) = seats.pop() else {
        return Ok(None);
    };
    let Some((seat, count)) = brings(alloc, &problem, before, &board, seat)? else {
        return Ok(None);
    };
    seats.push(seat)?;
    if tallies(board, seats, 3, None) {
        Ok(Some(count))
    } else {
        Ok(None)
    }
}

// How many steps and copies were refused in turn, each of which cost its task its value, until none was.
fn refusals_of_a_worker(alloc: Global) -> Option<u64> {
    for before in 0..1000u64 {
        match brought(alloc, before) {
            Ok(Some(3)) => return Some(before),
            Ok(Some(2)) => {}
            _ => return None,
        }
    }
    None
}

#[test]
fn a_task_that_was_refused_memory_has_no_value_and_the_worker_goes_on(rt: HostRuntime) {
    let refused = refusals_of_a_worker(rt.alloc());
    assert!(rt; matches!(refused, Some(12..)), "{refused:?}");
}

// Whether both ask for the same, with the same text.
fn are_same(one: &Request, other: &Request) -> bool {
    match (one, other) {
        (Request::Run(a), Request::Run(b)) => a == b,
        (Request::Explain(a), Request::Explain(b)) => a == b,
        (Request::Each(a), Request::Each(b)) => a == b,
        (Request::ExplainEach(a), Request::ExplainEach(b)) => a == b,
        (Request::Help(a), Request::Help(b)) => a.as_str() == b.as_str(),
        (Request::Refused(a), Request::Refused(b)) => a.as_str() == b.as_str(),
        _ => false,
    }
}

// The words.
fn texts(alloc: Global, words: &[&str]) -> Result<Vec<String>, AllocError> {
    let mut texts = Vec::with_capacity(alloc, words.len())?;
    for word in words {
        texts.push(String::from_str(alloc, word)?)?;
    }
    Ok(texts)
}

// How many times the words were refused memory, with more and more room, until they were read; and how many times they were
// answered with another text.
fn refusals_of_words(
    alloc: Global,
    starved: &mut Starved,
    words: &[String],
    wanted: &Request,
) -> Option<(u64, u64)> {
    let mut refused = 0u64;
    let mut others = 0u64;
    for step in 0..TIMES {
        if !starved.leave(step * 16) {
            return None;
        }
        match options_of(alloc, words) {
            Ok(request) if are_same(&request, wanted) => return Some((refused, others)),
            Ok(_) => others = others.saturating_add(1),
            Err(AllocError) => refused = refused.saturating_add(1),
        }
    }
    None
}

// The same, from a process that has all it wants.
fn words_in_turn(alloc: Global, words: &[&str]) -> Result<Option<(u64, u64)>, AllocError> {
    let words = texts(alloc, words)?;
    let wanted = options_of(alloc, words.as_slice())?;
    let mut starved = Starved::new(alloc, TIMES)?;
    Ok(refusals_of_words(alloc, &mut starved, words.as_slice(), &wanted))
}

#[test]
fn no_words_are_refused_or_run(rt: HostRuntime) {
    let refused = words_in_turn(rt.alloc(), &[]);
    assert!(rt; matches!(refused, Ok(Some((200.., 0)))), "{refused:?}");
}

#[test]
fn wrong_words_are_refused_in_the_same_words(rt: HostRuntime) {
    let refused = words_in_turn(rt.alloc(), &["--workers", "65"]);
    assert!(rt; matches!(refused, Ok(Some((200.., 0)))), "{refused:?}");
}
