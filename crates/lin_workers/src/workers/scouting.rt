//! A worker scouts from a task before it searches it, and from all tasks when all are claimed. Each goes its own way, so
//! that workers do not all walk the same one.
ghost use Rattle.std.specs.Prelude.{◌≡◌, ℕ, ◌≤◌, IfOk, IfSome};
ghost use Rattle.lin_history.specs.Problems.Problem.{problem_of};
ghost use Rattle.lin_history.specs.Problems.Configurations.{IsReachable};
ghost use Rattle.lin_search.specs.Answer.{IsAnswer};
ghost use Rattle.lin_board.specs.Board.{IsSeatOf};
ghost use Rattle.lin_table.specs.Hand.{IsHandOf};
ghost use Rattle.lin_table.specs.Shared.{HasGrown};
ghost use Rattle.lin_workers.specs.Cut.{IsCut};
ghost use Rattle.lin_workers.specs.Heard.{HasHeard};

use crate::bounds::{Unfinished, Watcher};
use crate::searches::starving::{scout_unless_starved, search_unless_starved};
use crate::searches::stop::FoundBefore;
use crate::tasks::task::Task;
use crate::workers::job::{Done, Job};
use crate::workers::scouts::Scouting;
use crate::workers::signals::{Member, UntilLeading};
use lin_object::SeqObject;
use lin_search::{Config, Memo, Outcome, Stop};
use lin_table::SharedMemo;

// How many steps a worker scouts at most from a task.
const SCOUTING_STEPS: u64 = 4_000_000;

// Searches the configuration, unless the stop answers before. `Unfinished` where the time was up, or where memory was refused, to
// the search or to very many notes in a row.
pub(crate) fn search_unless_told<O: SeqObject, M: Memo<O>, S: Stop, W: Watcher>(
    job: &Job<'_, '_, '_, O, W>,
    config: &Config<O>,
    memo: &mut M,
    stop: &mut S,
) -> Result<Outcome, Unfinished>
    requires { IsReachable (problem_of O.after O.State.eq O.Reply.eq job.now.problem.now)
        config.now.lifted config.now.state }
    ensures answer { IfOk result (IsAnswer
        (problem_of O.after O.State.eq O.Reply.eq job.now.problem.now) config.now.lifted
        config.now.state job.now.bounds.now.limit (S.tells stop.new)) }
    ensures memo { M.changes memo.old memo.new }
    ensures stop { S.follows stop.old stop.new }
{
    match stop.ask() {
        Some(told) => Ok(Outcome::Stopped(told)),
        None => search_unless_starved(job.alloc, job.problem, config, memo, job.bounds, stop),
    }
}

// Scouts from the task of this number, over the table, until the worker leads: no other of its group is at a smaller task. It
// ends too where a smaller task was found. A worker without a group does not scout.
pub(crate) fn scout_until_leading<O: SeqObject, W: Watcher>(
    job: &Job<'_, '_, '_, O, W>,
    task: &Task<O>,
    number: u64,
    worker: &mut Done<O>,
    member: Option<Member<'_>>,
)
    requires reachable { IsReachable (problem_of O.after O.State.eq O.Reply.eq job.now.problem.now)
        task.now.config.lifted task.now.config.state }
    requires hand { IsHandOf job.now.table.now worker.old.hand }
    requires seat { IsSeatOf job.now.board.now worker.old.seat }
    ensures values { worker.new.values ≡ worker.old.values }
    ensures hand { IsHandOf job.now.table.now worker.new.hand }
    ensures grown { HasGrown worker.old.hand worker.new.hand }
    ensures seat { HasHeard worker.old.seat worker.new.seat }
{
    let Some(member) = member else {
        return;
    };
    let mut memo = SharedMemo::new(job.table, &mut worker.hand);
    let mut stop = UntilLeading::new(job.board, &mut worker.seat, number, member.signals);
    let scouting = member.scouting;
    scout_unless_told(job, &task.config, scouting, &mut memo, &mut stop);
}

// Scouts from the configuration, unless the stop answers before. What is refuted on the way is in the memo. Want of memory
// only ends it.
fn scout_unless_told<O: SeqObject, M: Memo<O>, S: Stop, W: Watcher>(
    job: &Job<'_, '_, '_, O, W>,
    config: &Config<O>,
    scouting: Scouting,
    memo: &mut M,
    stop: &mut S,
)
    requires { IsReachable (problem_of O.after O.State.eq O.Reply.eq job.now.problem.now)
        config.now.lifted config.now.state }
    ensures memo { M.changes memo.old memo.new }
    ensures stop { S.follows stop.old stop.new }
{
    if stop.ask().is_none() {
        scout_unless_starved(job, config, scouting, memo, stop);
    }
}

// Scouts from each task when all are claimed, up to the first that was not decided: so a worker without a task helps the
// others at theirs. From a task that is refuted by then it goes on to the next at once. What its seat has brought stays as it is.
pub(crate) fn scout_all<O: SeqObject, W: Watcher>(
    job: &Job<'_, '_, '_, O, W>,
    worker: &mut Done<O>,
    member: Member<'_>,
)
    requires cut { (k : ℕ) × IsCut (problem_of O.after O.State.eq O.Reply.eq job.now.problem.now) k
        job.now.tasks.now }
    requires hand { IsHandOf job.now.table.now worker.old.hand }
    requires seat { IsSeatOf job.now.board.now worker.old.seat }
    ensures values { worker.new.values ≡ worker.old.values }
    ensures hand { IsHandOf job.now.table.now worker.new.hand }
    ensures seat { HasHeard worker.old.seat worker.new.seat }
{
    let tasks = job.tasks;
    for number in 0..tasks.len() {
        if member.signals.is_left(number as u64) {
            return;
        }
        scout_one(job, &tasks[number], number as u64, worker, member.scouting);
    }
}

// Scouts from the task of this number, over the table. It ends where this task or a smaller one was found.
fn scout_one<O: SeqObject, W: Watcher>(
    job: &Job<'_, '_, '_, O, W>,
    task: &Task<O>,
    number: u64,
    worker: &mut Done<O>,
    scouting: Scouting,
)
    requires reachable { IsReachable (problem_of O.after O.State.eq O.Reply.eq job.now.problem.now)
        task.now.config.lifted task.now.config.state }
    requires hand { IsHandOf job.now.table.now worker.old.hand }
    requires seat { IsSeatOf job.now.board.now worker.old.seat }
    ensures values { worker.new.values ≡ worker.old.values }
    ensures hand { IsHandOf job.now.table.now worker.new.hand }
    ensures seat { HasHeard worker.old.seat worker.new.seat }
{
    let mut memo = SharedMemo::new(job.table, &mut worker.hand);
    let mut stop = FoundBefore::new(job.board, &mut worker.seat, number.saturating_add(1));
    scout_unless_told(job, &task.config, scouting, &mut memo, &mut stop);
}

// How the worker of this number among so many scouts, where a search makes so many lifts at most.
pub(crate) fn scouting_of(worker: usize, workers: usize, limit: Option<u64>) -> Scouting
    ensures { IfSome limit (λ most. result.steps ≤ most) }
{
    Scouting {
        directions: directions_of(worker, workers),
        steps: steps_within(limit),
    }
}

// In which direction the worker of this number tries the calls, for each of 64 levels: upwards, or for a 1 downwards. The
// digits of the next number tell it, level by level and then from the first again. So no two go the same way, and none
// goes upwards throughout, as a search does: that is the way of the worker that leads.
fn directions_of(worker: usize, workers: usize) -> u64 {
    let levels = levels_of(workers);
    let number = (worker as u64).wrapping_add(1);
    let mut directions = 0;
    for level in 0..64_u32 {
        directions |= ((number >> (level % levels)) & 1) << level;
    }
    directions
}

// How many levels it takes until so many workers have each gone a way of their own, and none of them upwards throughout.
fn levels_of(workers: usize) -> u32
    ensures { 1 ≤ result }
{
    match workers {
        0..=1 => 1,
        2..=3 => 2,
        4..=7 => 3,
        8..=15 => 4,
        16..=31 => 5,
        32..=63 => 6,
        _ => 7,
    }
}

// How many steps a worker scouts, where a search makes so many lifts at most: never more than those.
fn steps_within(limit: Option<u64>) -> u64
    ensures { IfSome limit (λ most. result ≤ most) }
{
    match limit {
        None => SCOUTING_STEPS,
        Some(most) => most.min(SCOUTING_STEPS),
    }
}
