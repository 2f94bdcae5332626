//! Workers: what a worker brings of the tasks of a cut.

ghost use Rattle.std.specs.Prelude.{◌≡◌, IfOk, IfSome};
ghost use Rattle.lin_board.specs.Board.{IsSeatOf};
ghost use Rattle.lin_table.specs.Hand.{IsHandOf};

use super::boards::tallies;
use super::searches::{Part, writes_and_a_read_of};
use super::tables::{stored, stored_by_both};
use lin_board::{Board, Seat};
use lin_object::AnyObject;
use lin_search::{Longest, Outcome};
use lin_table::{Hand, Table};
use lin_workers::{Done, FreeGate, cut, work};
use std::alloc::{AllocError, Global};

// What a task brings that is refuted, with two calls more of which this one is the first.
fn refuted_with(first: u16) -> Outcome {
    Outcome::Refuted(Longest {
        more: 2,
        first: Some(first),
    })
}

// The seat of a worker that has a table to itself and goes through the tasks of the cut that are not claimed, where it
// brings these values of them and stores so many configurations.
fn brings(
    alloc: Global,
    problem: &Part,
    board: &Board,
    seat: Seat,
    brought: &[(u64, Outcome)],
    count: u64,
) -> Result<Option<Seat>, AllocError>
    requires tasks { board.now.tasks ≡ 3 }
    requires seat { IsSeatOf board.now seat }
    ensures { IfOk result (λ seat. IfSome seat (λ seat. IsSeatOf board.now seat)) }
{
    let tasks = cut(alloc, problem, 2)?;
    let (table, mut hands) = Table::new(alloc, problem, 1, 1)?;
    let Some(hand) = hands.pop() else {
        return Ok(None);
    };
    if tasks.len() != 3 {
        return Ok(None);
    }
    let done = work(
        alloc,
        problem,
        tasks.as_slice(),
        &table,
        hand,
        board,
        seat,
        &FreeGate,
        None,
    );
    let Done { values, hand, seat } = done;
    hands.push(hand)?;
    if values.as_slice() == brought && stored(table, hands, count) {
        Ok(Some(seat))
    } else {
        Ok(None)
    }
}

// The hand of a worker alone that goes through the tasks of a new board over this table, where it refutes each within this
// limit.
fn refutes_within(
    alloc: Global,
    problem: &Part,
    table: &Table<'_, AnyObject>,
    hand: Hand<AnyObject>,
    limit: Option<u64>,
) -> Result<Option<Hand<AnyObject>>, AllocError>
    requires { IsHandOf table.now hand }
    ensures { IfOk result (λ hand. IfSome hand (λ hand. IsHandOf table.now hand)) }
{
    let tasks = cut(alloc, problem, 2)?;
    let (board, mut seats) = Board::new(alloc, 3, 1)?;
    let Some(seat) = seats.pop() else {
        return Ok(None);
    };
    if tasks.len() != 3 {
        return Ok(None);
    }
    let done = work(
        alloc,
        problem,
        tasks.as_slice(),
        table,
        hand,
        &board,
        seat,
        &FreeGate,
        limit,
    );
    let Done { values, hand, seat } = done;
    seats.push(seat)?;
    let brought = [
        (0, refuted_with(1)),
        (1, refuted_with(0)),
        (2, refuted_with(0)),
    ];
    if values.as_slice() == brought.as_slice() && tallies(board, seats, 3, None) {
        Ok(Some(hand))
    } else {
        Ok(None)
    }
}

// Whether a worker refutes each of three tasks and stores what is below them, and another one after it finds all of that:
// it tries one call for each task at the most.
fn refute_one_after_the_other(alloc: Global, problem: &Part) -> Result<bool, AllocError> {
    let (table, mut hands) = Table::new(alloc, problem, 1, 2)?;
    let (Some(other), Some(one)) = (hands.pop(), hands.pop()) else {
        return Ok(false);
    };
    let Some(one) = refutes_within(alloc, problem, &table, one, None)? else {
        return Ok(false);
    };
    let Some(other) = refutes_within(alloc, problem, &table, other, Some(1))? else {
        return Ok(false);
    };
    stored_by_both(alloc, table, one, other, 12)
}

#[test]
fn a_worker_refutes_each_task_and_another_finds_that(rt: HostRuntime) {
    let problem = writes_and_a_read_of(rt.alloc(), 9);
    assert!(rt; matches!(refute_one_after_the_other(rt.alloc(), &problem), Ok(true)));
}

// Whether a worker stops at each task after the first, for which another seat told that something was found.
fn stops_after_the_first(alloc: Global, problem: &Part) -> Result<bool, AllocError> {
    let (board, mut seats) = Board::new(alloc, 3, 2)?;
    let (Some(seat), Some(mut other)) = (seats.pop(), seats.pop()) else {
        return Ok(false);
    };
    let Some(first) = board.claim(&mut other) else {
        return Ok(false);
    };
    board.found(&mut other, first);
    seats.push(other)?;
    let brought = [(1, Outcome::Stopped(0)), (2, Outcome::Stopped(0))];
    let Some(seat) = brings(alloc, problem, &board, seat, &brought, 0)? else {
        return Ok(false);
    };
    seats.push(seat)?;
    Ok(tallies(board, seats, 3, Some(0)))
}

#[test]
fn a_worker_stops_after_a_task_that_was_found(rt: HostRuntime) {
    let problem = writes_and_a_read_of(rt.alloc(), 9);
    assert!(rt; matches!(stops_after_the_first(rt.alloc(), &problem), Ok(true)));
}
