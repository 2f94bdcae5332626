//! What keeps refuted configurations, and the board.

ghost use Rattle.lin_table.specs.Hand.{IsHandOf};

use super::super::searches::{Part, refuted_root, writes_and_a_read_of};
use super::super::tables::stored;
use super::starved::{Attempt, Starved, TIMES, is_refused};
use lin_board::Board;
use lin_object::AnyObject;
use lin_search::{Noted, Refutation};
use lin_table::{Hand, Shard, Table};
use std::alloc::{AllocError, Global};

// How many times a pair is noted at the most.
const NOTES: usize = 200;

// A table, or a board.
#[derive(Drop)]
struct Making {
    alloc: Global,
    problem: Part,
    board: bool,
}

impl Attempt for Making {
    fn attempt(&mut self) -> Result<bool, AllocError> {
        if self.board {
            let (_, seats) = Board::new(self.alloc, 3, 2)?;
            return Ok(seats.len() == 2);
        }
        let (table, hands) = Table::new(self.alloc, &self.problem, 16, 1)?;
        Ok(matches!(table.total(hands), Ok(0)))
    }
}

// Whether it is made, after it was refused at least so often.
fn is_made(alloc: Global, board: bool, times: u64) -> bool {
    let mut making = Making {
        alloc,
        problem: writes_and_a_read_of(alloc, 9),
        board,
    };
    is_refused(alloc, &mut making, times)
}

#[test]
fn a_table_and_a_board_are_refused_or_made(rt: HostRuntime) {
    assert!(rt; is_made(rt.alloc(), false, 20));
    assert!(rt; is_made(rt.alloc(), true, 2));
}

// The refuted root of the problem, many times.
fn refuted_roots<'p>(
    alloc: Global,
    problem: &'p Part,
) -> Result<Vec<Refutation<'p, AnyObject>>, AllocError> {
    let mut roots = Vec::with_capacity(alloc, NOTES)?;
    for _ in 0..NOTES {
        if let Some(root) = refuted_root(alloc, problem)? {
            roots.push(root)?;
        }
    }
    Ok(roots)
}

// How many times the shard was refused memory for a pair and stayed empty, with more and more room, until it had it.
fn refusals_of_a_shard(
    starved: &mut Starved,
    shard: &mut Shard<'_, AnyObject>,
    mut roots: Vec<Refutation<'_, AnyObject>>,
) -> Option<u64> {
    let mut refused = 0u64;
    for step in 0..NOTES {
        let root = roots.pop()?;
        if !starved.leave(step * 16) {
            return None;
        }
        match (shard.add(root), shard.len()) {
            (Noted::New, 1) => return Some(refused),
            (Noted::NoRoom, 0) => refused = refused.saturating_add(1),
            _ => return None,
        }
    }
    None
}

// Whether a shard is refused memory for a pair, and then has it.
fn a_shard_is_refused(alloc: Global, problem: &Part) -> Result<bool, AllocError> {
    let roots = refuted_roots(alloc, problem)?;
    let mut shard = Shard::new(alloc, problem);
    let mut starved = Starved::new(alloc, TIMES)?;
    Ok(matches!(
        refusals_of_a_shard(&mut starved, &mut shard, roots),
        Some(2..)
    ))
}

// The same of a table with one shard, and the hand.
fn refusals_of_a_table(
    starved: &mut Starved,
    table: &Table<'_, AnyObject>,
    hand: &mut Hand<AnyObject>,
    mut roots: Vec<Refutation<'_, AnyObject>>,
) -> Option<u64>
    requires { IsHandOf table.now hand.old }
    ensures { IsHandOf table.now hand.new }
{
    let mut refused = 0u64;
    for step in 0..NOTES {
        let root = roots.pop()?;
        if !starved.leave(step * 16) {
            return None;
        }
        match (table.note(hand, root), hand.count()) {
            (Noted::New, 1) => return Some(refused),
            (Noted::NoRoom, 0) => refused = refused.saturating_add(1),
            _ => return None,
        }
    }
    None
}

// Whether the table is refused memory for pairs, and then has one.
fn is_refused_a_pair(
    alloc: Global,
    table: &Table<'_, AnyObject>,
    hand: &mut Hand<AnyObject>,
    problem: &Part,
) -> Result<bool, AllocError>
    requires { IsHandOf table.now hand.old }
    ensures { IsHandOf table.now hand.new }
{
    let roots = refuted_roots(alloc, problem)?;
    let mut starved = Starved::new(alloc, TIMES)?;
    Ok(matches!(
        refusals_of_a_table(&mut starved, table, hand, roots),
        Some(2..)
    ))
}

// The same of a new table, which then says so.
fn a_table_is_refused(alloc: Global, problem: &Part) -> Result<bool, AllocError> {
    let (table, mut hands) = Table::new(alloc, problem, 1, 1)?;
    let Some(mut hand) = hands.pop() else {
        return Ok(false);
    };
    let refused = is_refused_a_pair(alloc, &table, &mut hand, problem)?;
    hands.push(hand)?;
    Ok(refused && stored(table, hands, 1))
}

#[test]
fn a_pair_is_refused_or_stored(rt: HostRuntime) {
    let problem = writes_and_a_read_of(rt.alloc(), 9);
    assert!(rt; matches!(a_shard_is_refused(rt.alloc(), &problem), Ok(true)));
    assert!(rt; matches!(a_table_is_refused(rt.alloc(), &problem), Ok(true)));
}
