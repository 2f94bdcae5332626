//! What workers share at an object, and what each of them brings.
ghost use Rattle.std.specs.Prelude.{◌≡◌, length};

use crate::bounds::{Bounds, Watcher};
use crate::tasks::task::Task;
use lin_board::{Board, Seat};
use lin_history::Problem;
use lin_object::SeqObject;
use lin_search::Outcome;
use lin_table::{Hand, Table};
use std::alloc::Global;

/// What all workers at an object share. The board has as many tasks as there are.
#[derive(Drop)]
pub(crate) struct Job<'a, 'p, 'b, O: SeqObject, W: Watcher> {
    /// Where memory is asked for.
    pub(crate) alloc: Global,
    /// The problem.
    pub(crate) problem: &'a Problem<O>,
    /// The tasks that its search is cut into.
    pub(crate) tasks: &'a [Task<O>],
    /// What is refuted.
    pub(crate) table: &'a Table<'p, O>,
    /// Which tasks are claimed, and the least for which something was found.
    pub(crate) board: &'a Board,
    /// Within which bounds a task is searched.
    pub(crate) bounds: &'a Bounds<'b, W>,
    ghost places: { board.now.tasks ≡ length tasks.now },
}

/// What a worker brings: the values of the tasks that it claimed, and its hand and its seat.
#[derive(Drop)]
pub struct Done<O: SeqObject> {
    /// The tasks that have a value, each with its value, in the order in which they were claimed.
    pub values: Vec<(u64, Outcome)>,
    /// The worker's hand.
    pub hand: Hand<O>,
    /// The worker's seat, which was told that all tasks are claimed.
    pub seat: Seat,
}
