//! What a worker does: it claims tasks and searches them, until there is none left.
ghost use Rattle.std.specs.Prelude.{◌≡◌, ℕ, ◌++◌, ◌∷◌, [], ◌⊎◌, List, true, length, IfSome, Contains};
ghost use Rattle.lin_history.specs.Problems.Problem.{problem_of};
ghost use Rattle.lin_history.specs.Problems.Configurations.{IsReachable};
ghost use Rattle.lin_search.specs.Answer.{IsAnswer};
ghost use Rattle.lin_board.specs.Board.{IsSeatOf};
ghost use Rattle.lin_table.specs.Hand.{IsHandOf};
ghost use Rattle.lin_table.specs.Shared.{HasGrown};
ghost use Rattle.lin_workers.specs.Cut.{IsCut};
ghost use Rattle.lin_search.specs.declared.outcome.Outcome.{Outcome as OutcomeOf};
ghost use Rattle.lin_workers.specs.Heard.{HasFound, HasHeard, IsTold};
ghost use Rattle.lin_workers.specs.Values.{HasBrought, found_of};

use crate::bounds::{Bounds, Unwatched, Watcher};
use crate::searches::stop::FoundBefore;
use crate::tasks::task::Task;
use crate::workers::gate::Gate;
use crate::workers::job::{Done, Job};
use crate::workers::scouting::{scout_until_leading, search_unless_told};
use crate::workers::signals::{Member, is_left, tell_begun, tell_ended, tell_undecided};
use lin_board::{Board, Seat};
use lin_history::Problem;
use lin_object::SeqObject;
use lin_search::Outcome;
use lin_table::{Hand, SharedMemo, Table};
use std::alloc::Global;

/// Claims tasks of a cut and searches each over the table, until all are claimed. A task's value is the outcome of its
/// search, within the limit where one is given; the search is stopped where the board shows a smaller task that was
/// found. A task whose search or whose value was refused memory has no value, and the worker goes on. The gate is entered
/// after each claim, and may wait. What the hand had stored comes in front of what it has stored then, and what the seat had
/// claimed in front of its claims.
///
/// Conditions: the tasks are a cut of the problem, and the board has as many; the hand came with the table and the seat with
/// the board.
pub fn work<O: SeqObject, G: Gate>(
    alloc: Global,
    problem: &Problem<O>,
    tasks: &[Task<O>],
    table: &Table<'_, O>,
    hand: Hand<O>,
    board: &Board,
    seat: Seat,
    gate: &G,
    limit: Option<u64>,
) -> Done<O>
    requires cut { (k : ℕ) × IsCut (problem_of O.after O.State.eq O.Reply.eq problem.now) k
        tasks.now }
    requires tasks { board.now.tasks ≡ length tasks.now }
    requires hand { IsHandOf table.now hand }
    requires seat { IsSeatOf board.now seat }
    ensures brought { HasBrought (problem_of O.after O.State.eq O.Reply.eq problem.now) tasks.now
        limit seat result.seat result.values.items }
    ensures hand { IsHandOf table.now result.hand }
    ensures grown { HasGrown hand result.hand }
    ensures seat { IsSeatOf board.now result.seat }
    ensures ended { result.seat.ended ≡ true }
{
    let mut done = Done {
        values: Vec::new(alloc),
        hand,
        seat,
    };
    let bounds = Bounds::new(limit, &Unwatched);
    let job = Job {
        alloc,
        problem,
        tasks,
        table,
        board,
        bounds: &bounds,
    };
    search_tasks(&job, &mut done, gate, None);
    done
}

// Claims tasks and searches each over the table, until all are claimed; the values are put to the worker's, which has none
// before. A member of a group scouts before each search until it leads, and tells the others where it is.
pub(crate) fn search_tasks<O: SeqObject, G: Gate, W: Watcher>(
    job: &Job<'_, '_, '_, O, W>,
    worker: &mut Done<O>,
    gate: &G,
    member: Option<Member<'_>>,
)
    requires cut { (k : ℕ) × IsCut (problem_of O.after O.State.eq O.Reply.eq job.now.problem.now) k
        job.now.tasks.now }
    requires hand { IsHandOf job.now.table.now worker.old.hand }
    requires seat { IsSeatOf job.now.board.now worker.old.seat }
    requires none { worker.old.values.items ≡ [] }
    ensures brought { HasBrought (problem_of O.after O.State.eq O.Reply.eq job.now.problem.now)
        job.now.tasks.now job.now.bounds.now.limit worker.old.seat worker.new.seat worker.new.values.items }
    ensures hand { IsHandOf job.now.table.now worker.new.hand }
    ensures grown { HasGrown worker.old.hand worker.new.hand }
    ensures seat { IsSeatOf job.now.board.now worker.new.seat }
    ensures ended { worker.new.seat.ended ≡ true }
{
    let tasks = job.tasks;
    while let Some(number) = job.board.claim(&mut worker.seat) {
        tell_begun(member, number);
        gate.enter(number);
        let task = &tasks[number as usize];
        let searched = search_task(job, task, number, worker, member);
        if let Some(outcome) = searched {
            keep(
                job.board,
                &mut worker.seat,
                &mut worker.values,
                number,
                outcome,
            );
        }
    }
    tell_ended(member);
}

// Searches the configuration of the task of this number over the table. A member of a group scouts before until it leads.
// `None` where memory was refused or the time was up, or where the task comes after one that another worker did not decide.
fn search_task<O: SeqObject, W: Watcher>(
    job: &Job<'_, '_, '_, O, W>,
    task: &Task<O>,
    number: u64,
    worker: &mut Done<O>,
    member: Option<Member<'_>>,
) -> Option<Outcome>
    requires reachable { IsReachable (problem_of O.after O.State.eq O.Reply.eq job.now.problem.now)
        task.now.config.lifted task.now.config.state }
    requires hand { IsHandOf job.now.table.now worker.old.hand }
    requires seat { IsSeatOf job.now.board.now worker.old.seat }
    ensures answer { IfSome result (IsAnswer
        (problem_of O.after O.State.eq O.Reply.eq job.now.problem.now) task.now.config.lifted
        task.now.config.state job.now.bounds.now.limit (IsTold number worker.new.seat)) }
    ensures values { worker.new.values ≡ worker.old.values }
    ensures hand { IsHandOf job.now.table.now worker.new.hand }
    ensures grown { HasGrown worker.old.hand worker.new.hand }
    ensures seat { HasHeard worker.old.seat worker.new.seat }
{
    if is_left(member, number) {
        return None;
    }
    scout_until_leading(job, task, number, worker, member);
    let searched = search_over_table(job, task, number, worker);
    if !is_decided(&searched) {
        tell_undecided(member, number);
    }
    searched
}

// Searches the configuration of the task of this number over the table. `None` where memory was refused or the time was up.
fn search_over_table<O: SeqObject, W: Watcher>(
    job: &Job<'_, '_, '_, O, W>,
    task: &Task<O>,
    number: u64,
    worker: &mut Done<O>,
) -> Option<Outcome>
    requires reachable { IsReachable (problem_of O.after O.State.eq O.Reply.eq job.now.problem.now)
        task.now.config.lifted task.now.config.state }
    requires hand { IsHandOf job.now.table.now worker.old.hand }
    requires seat { IsSeatOf job.now.board.now worker.old.seat }
    ensures answer { IfSome result (IsAnswer
        (problem_of O.after O.State.eq O.Reply.eq job.now.problem.now) task.now.config.lifted
        task.now.config.state job.now.bounds.now.limit (IsTold number worker.new.seat)) }
    ensures values { worker.new.values ≡ worker.old.values }
    ensures hand { IsHandOf job.now.table.now worker.new.hand }
    ensures grown { HasGrown worker.old.hand worker.new.hand }
    ensures seat { HasHeard worker.old.seat worker.new.seat }
{
    let mut memo = SharedMemo::new(job.table, &mut worker.hand);
    let mut stop = FoundBefore::new(job.board, &mut worker.seat, number);
    search_unless_told(job, &task.config, &mut memo, &mut stop).ok()
}

// Whether the search decided its task, or was stopped since a smaller one was found.
fn is_decided(searched: &Option<Outcome>) -> bool {
    match searched {
        Some(Outcome::Found(_) | Outcome::Refuted(_) | Outcome::Stopped(_)) => true,
        Some(Outcome::Undecided) | None => false,
    }
}

// Keeps the value of the task where there is memory for it, and tells the board where it is a completion.
fn keep(
    board: &Board,
    seat: &mut Seat,
    values: &mut Vec<(u64, Outcome)>,
    number: u64,
    outcome: Outcome,
)
    requires seat { IsSeatOf board.now seat.old }
    requires claimed { Contains seat.old.claimed number }
    ensures kept { (added : List (ℕ × OutcomeOf)) × ((added ≡ []) ⊎ (added ≡ (number, outcome) ∷ []))
        × (values.new.items ≡ values.old.items ++ added)
        × HasFound seat.old seat.new (found_of added) }
{
    let is_found = matches!(&outcome, Outcome::Found(_));
    if values.push((number, outcome)).is_ok() && is_found {
        board.found(seat, number);
    }
}
