//! Boards: tasks that are shared in turn, and by two threads.

ghost use Rattle.std.specs.Prelude.{All, IfOk, IfSome};
ghost use Rattle.lin_board.specs.Board.{IsSeatOf};

use lin_board::{Board, Seat, SeatsMissing, Tally};
use std::alloc::{AllocError, Global};
use std::thread;
use std::thread::Threads;

// Whether two seats share three tasks so, and tell one another of two of them.
fn share_three_tasks(board: &Board, a: &mut Seat, b: &mut Seat) -> bool
    requires a { IsSeatOf board.now a.old }
    requires b { IsSeatOf board.now b.old }
    ensures a { IsSeatOf board.now a.new }
    ensures b { IsSeatOf board.now b.new }
{
    let untold = board.least(a);
    let first = board.claim(a);
    let Some(from_b) = board.claim(b) else {
        return false;
    };
    let Some(from_a) = board.claim(a) else {
        return false;
    };
    let ends = [board.claim(a), board.claim(b), board.claim(a)];
    board.found(a, from_a);
    let told_b = board.least(b);
    board.found(b, from_b);
    let told_a = board.least(a);
    (untold, first, from_b, from_a) == (None, Some(0), 1, 2)
        && ends == [None; 3]
        && (told_b, told_a) == (Some(2), Some(1))
        && (a.claims(), b.claims()) == (2, 1)
}

// Whether the board closes with these seats, and returns so many claims and this least task.
pub(super) fn tallies(board: Board, seats: Vec<Seat>, claimed: u64, least: Option<u64>) -> bool
    requires { All (IsSeatOf board) seats.items }
{
    matches!(board.close(seats), Ok(told) if told == Tally { claimed, least })
}

// Whether a board stays open without the seat that comes late, and returns the tally of three tasks with it.
fn closes_with_both(board: Board, seats: Vec<Seat>, late: Seat) -> Result<bool, AllocError>
    requires seats { All (IsSeatOf board) seats.items }
    requires late { IsSeatOf board late }
{
    let Err(SeatsMissing { board, mut seats }) = board.close(seats) else {
        return Ok(false);
    };
    seats.push(late)?;
    Ok(tallies(board, seats, 3, Some(1)))
}

// Whether two seats do so on a board of their own.
fn two_seats_share(alloc: Global) -> Result<bool, AllocError> {
    let (board, mut seats) = Board::new(alloc, 3, 2)?;
    let (Some(mut b), Some(mut a)) = (seats.pop(), seats.pop()) else {
        return Ok(false);
    };
    let shared = share_three_tasks(&board, &mut a, &mut b);
    seats.push(a)?;
    Ok(shared && closes_with_both(board, seats, b)?)
}

#[test]
fn two_seats_share_three_tasks(rt: HostRuntime) {
    assert!(rt; matches!(two_seats_share(rt.alloc()), Ok(true)));
}

// What a thread brings back: the tasks that it was given, and its seat.
#[derive(Drop)]
struct Claimed {
    tasks: Vec<u64>,
    seat: Seat,
}

// Claims until there is no task left. Where memory is refused a task is missing.
fn claim_all(alloc: Global, board: &Board, mut seat: Seat) -> Claimed
    requires { IsSeatOf board.now seat }
    ensures { IsSeatOf board.now result.seat }
{
    let mut tasks = Vec::new(alloc);
    while let Some(task) = board.claim(&mut seat) {
        if tasks.push(task).is_err() {
            break;
        }
    }
    Claimed { tasks, seat }
}

// Whether these are the numbers from 0 on, in some order.
fn are_all(mut tasks: Vec<u64>, count: u64) -> Result<bool, AllocError> {
    tasks.sort()?;
    for (place, task) in tasks.iter().enumerate() {
        if *task != place as u64 {
            return Ok(false);
        }
    }
    Ok(tasks.len() as u64 == count)
}

// Whether two seats brought a thousand tasks between them, each once, and the board closes with both.
fn brought_all(
    board: Board,
    mut seats: Vec<Seat>,
    one: Claimed,
    other: Claimed,
) -> Result<bool, AllocError>
    requires seats { All (IsSeatOf board) seats.items }
    requires one { IsSeatOf board one.seat }
    requires other { IsSeatOf board other.seat }
{
    seats.push(one.seat)?;
    seats.push(other.seat)?;
    let mut tasks = one.tasks;
    tasks.extend_from_slice(&other.tasks)?;
    Ok(are_all(tasks, 1000)? && tallies(board, seats, 1000, None))
}

// Whether two threads claim a thousand tasks between them, each once.
fn two_threads_claim(rt: &impl Threads, alloc: Global) -> Result<bool, AllocError> {
    let (board, mut seats) = Board::new(alloc, 1000, 2)?;
    let (Some(b), Some(a)) = (seats.pop(), seats.pop()) else {
        return Ok(false);
    };
    let shared = &board;
    let (one, other) = thread::join(
        rt,
        move || claim_all(alloc, shared, a),
        move || claim_all(alloc, shared, b),
    );
    brought_all(board, seats, one, other)
}

#[test]
fn two_threads_claim_a_thousand_tasks(rt: HostRuntime) {
    assert!(rt; matches!(two_threads_claim(&rt, rt.alloc()), Ok(true)));
}

// Lets as many seats as may be claim once each in turn: the seats in the order in which they did, where each was given the
// number of its turn, or nothing where nothing is left. `None` where one was told otherwise.
fn claim_in_turn(
    alloc: Global,
    board: &Board,
    mut waiting: Vec<Seat>,
    are_left: bool,
) -> Result<Option<Vec<Seat>>, AllocError>
    requires { All (IsSeatOf board.now) waiting.items }
    ensures { IfOk result (λ answer. IfSome answer (λ seats.
        All (IsSeatOf board.now) seats.items)) }
{
    let mut done = Vec::new(alloc);
    for turn in 0..64u64 {
        let Some(mut seat) = waiting.pop() else {
            return Ok(None);
        };
        let wanted = if are_left { Some(turn) } else { None };
        if board.claim(&mut seat) != wanted {
            return Ok(None);
        }
        done.push(seat)?;
    }
    Ok(Some(done))
}

// Whether as many seats as may be share as many tasks, one each in turn, and are then told that none is left.
fn all_seats_claim_one(alloc: Global) -> Result<bool, AllocError> {
    let (board, seats) = Board::new(alloc, 64, 64)?;
    let Some(seats) = claim_in_turn(alloc, &board, seats, true)? else {
        return Ok(false);
    };
    let Some(seats) = claim_in_turn(alloc, &board, seats, false)? else {
        return Ok(false);
    };
    Ok(tallies(board, seats, 64, None))
}

#[test]
fn as_many_seats_as_may_be_claim_a_task_each(rt: HostRuntime) {
    assert!(rt; matches!(all_seats_claim_one(rt.alloc()), Ok(true)));
}
