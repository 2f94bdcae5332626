//! Workers in threads share the tasks of a cut.
ghost use Rattle.std.specs.Prelude.{◌≡◌, ℕ, ◌+◌, ◌<◌, ◌≤◌, [], All, IfOk, length, vec_capacity, vec_len};
ghost use Rattle.lin_history.specs.Problems.Problem.{problem_of};
ghost use Rattle.lin_board.specs.Board.{IsSeatOf};
ghost use Rattle.lin_board.specs.Facts.{BoardFacts};
ghost use Rattle.lin_table.specs.Hand.{IsHandOf, TableFacts};
ghost use Rattle.lin_workers.specs.Cut.{IsCut};
ghost use Rattle.lin_workers.specs.Outcomes.{AreOutcomes};
ghost use Rattle.lin_workers.specs.Values.{AreValues};

use crate::bounds::{Bounds, Watcher};
use crate::options::MAX_WORKERS;
use crate::tasks::task::Task;
use crate::workers::gate::Gate;
use crate::workers::gathering::{gather, no_outcomes};
use crate::workers::job::{Done, Job};
use crate::workers::scouting::{scout_all, scouting_of};
use crate::workers::signals::{Member, Signals};
use crate::workers::worker::search_tasks;
use lin_board::{Board, Seat};
use lin_object::{SeqObject, SharedObject};
use lin_search::Outcome;
use lin_table::{Hand, Table};
use std::alloc::{AllocError, AllocGlobal, Global};
use std::thread;
use std::thread::Threads;

// A board has less than so many tasks.
const MOST_TASKS: usize = 1 << 62;

// The outcomes of the tasks as far as workers brought them: as many workers as there are hands, and not more than tasks. All
// hands are there again afterwards. No outcome is brought where there are more tasks than a board may have.
pub(crate) fn share<O: SharedObject, R: AllocGlobal + Threads + Sync, G: Gate, W: Watcher>(
    rt: &R,
    table: &Table<'_, O>,
    tasks: &[Task<O>],
    hands: &mut Vec<Hand<O>>,
    gate: &G,
    bounds: &Bounds<'_, W>,
) -> Result<Vec<Option<Outcome>>, AllocError>
    requires cut { (k : ℕ) × IsCut (problem_of O.after O.State.eq O.Reply.eq table.now.problem) k
        tasks.now }
    requires workers { (1 ≤ vec_len hands.old) × (vec_len hands.old ≤ MAX_WORKERS) }
    requires hands { All (IsHandOf table.now) hands.old.items }
    ensures outcomes { IfOk result (λ outcomes. AreOutcomes
        (problem_of O.after O.State.eq O.Reply.eq table.now.problem) tasks.now
        bounds.now.limit outcomes.items) }
    ensures hands { All (IsHandOf table.now) hands.new.items }
    ensures count { vec_len hands.new ≡ vec_len hands.old }
    ensures capacity { vec_capacity hands.new ≡ vec_capacity hands.old }
{
    let alloc = rt.alloc();
    let mut outcomes = no_outcomes(alloc, tasks.len())?;
    if tasks.len() >= MOST_TASKS {
        return Ok(outcomes);
    }
    let count = hands.len().min(tasks.len());
    let (board, seats) = Board::new(alloc, tasks.len() as u64, count)?;
    let mut workers = Vec::with_capacity(alloc, count)?;
    let signals = Signals::new(alloc, count)?;
    make_workers(alloc, &mut workers, hands, seats);
    bounds.watcher().share(count);
    let job = Job {
        alloc,
        problem: table.problem(),
        tasks,
        table,
        board: &board,
        bounds,
    };
    work_all(rt, &job, workers.as_mut_slice(), &signals, gate);
    gather(outcomes.as_mut_slice(), workers, hands);
    Ok(outcomes)
}

// A worker for each seat, with a hand that is taken from these. It has no value yet.
fn make_workers<O: SeqObject>(
    alloc: Global,
    workers: &mut Vec<Done<O>>,
    hands: &mut Vec<Hand<O>>,
    mut seats: Vec<Seat>,
)
    requires room { (workers.old.items ≡ []) × (vec_len seats ≤ vec_capacity workers.old) }
    requires enough { vec_len seats ≤ vec_len hands.old }
    ensures workers { (table : TableFacts O O.State O.Op O.Reply) (board : BoardFacts)
        → All (IsHandOf table) hands.old.items → All (IsSeatOf board) seats.items
        → All (λ worker. IsHandOf table worker.hand × IsSeatOf board worker.seat
        × (worker.values.items ≡ [])) workers.new.items }
    ensures hands { (table : TableFacts O O.State O.Op O.Reply) → All (IsHandOf table) hands.old.items
        → All (IsHandOf table) hands.new.items }
    ensures count { vec_len hands.new + vec_len workers.new ≡ vec_len hands.old }
    ensures capacity { vec_capacity hands.new ≡ vec_capacity hands.old }
{
    while let Some(seat) = seats.pop() {
        let Some(hand) = hands.pop() else {
            unreachable!()
        };
        workers.push_reserved(Done {
            values: Vec::new(alloc),
            hand,
            seat,
        });
    }
}

// Lets each worker work, in a thread of its own where one can be had.
fn work_all<O: SharedObject, R: Threads + Sync, G: Gate, W: Watcher>(
    rt: &R,
    job: &Job<'_, '_, '_, O, W>,
    workers: &mut [Done<O>],
    signals: &Signals,
    gate: &G,
)
    requires cut { (k : ℕ) × IsCut (problem_of O.after O.State.eq O.Reply.eq job.now.problem.now) k
        job.now.tasks.now }
    requires workers { All (λ worker. IsHandOf job.now.table.now worker.hand
        × IsSeatOf job.now.board.now worker.seat × (worker.values.items ≡ [])) workers.old }
    ensures hands { All (λ worker. IsHandOf job.now.table.now worker.hand) workers.new }
    ensures values { All (λ worker. AreValues
        (problem_of O.after O.State.eq O.Reply.eq job.now.problem.now) job.now.tasks.now
        job.now.bounds.now.limit worker.seat worker.values.items) workers.new }
    ensures count { length workers.new ≡ length workers.old }
{
    let count = workers.len();
    thread::for_each_mut(
        rt,
        workers,
        MAX_WORKERS as usize,
        &|number, worker: &mut Done<O>|
            requires { ((k : ℕ) × IsCut
                (problem_of O.after O.State.eq O.Reply.eq job.now.problem.now) k job.now.tasks.now)
                × IsHandOf job.now.table.now worker.now.hand × IsSeatOf job.now.board.now worker.now.seat
                × (worker.now.values.items ≡ []) }
            ensures { IsHandOf job.entry.now.table.now worker.exit.now.hand × AreValues
                (problem_of O.after O.State.eq O.Reply.eq job.entry.now.problem.now)
                job.entry.now.tasks.now job.entry.now.bounds.now.limit worker.exit.now.seat
                worker.exit.now.values.items }
        {
            let scouting = scouting_of(number, count, job.bounds.limit());
            let member = Member {
                number,
                scouting,
                signals,
            };
            work_as(job, worker, gate, member);
        },
    );
}

// Lets the worker search tasks as a member of its group. In the end it helps the others.
fn work_as<O: SeqObject, G: Gate, W: Watcher>(
    job: &Job<'_, '_, '_, O, W>,
    worker: &mut Done<O>,
    gate: &G,
    member: Member<'_>,
)
    requires cut { (k : ℕ) × IsCut (problem_of O.after O.State.eq O.Reply.eq job.now.problem.now) k
        job.now.tasks.now }
    requires hand { IsHandOf job.now.table.now worker.old.hand }
    requires seat { IsSeatOf job.now.board.now worker.old.seat }
    requires none { worker.old.values.items ≡ [] }
    ensures hand { IsHandOf job.now.table.now worker.new.hand }
    ensures values { AreValues (problem_of O.after O.State.eq O.Reply.eq job.now.problem.now)
        job.now.tasks.now job.now.bounds.now.limit worker.new.seat worker.new.values.items }
{
    search_tasks(job, worker, gate, Some(member));
    scout_all(job, worker, member);
}
