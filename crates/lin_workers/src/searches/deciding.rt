//! The verdict by the tasks of a cut, which are taken in their order.
ghost use Rattle.std.specs.Prelude.{◌≡◌, ℕ, ◌++◌, length, IfOk, IfSome, IfNone};
ghost use Rattle.lin_history.specs.Problems.Problem.{problem_of};
ghost use Rattle.lin_history.specs.Problems.Configurations.{IsReachable};
ghost use Rattle.lin_search.specs.Answer.{HasNoCompletion, IsAnswer};
ghost use Rattle.lin_workers.specs.Bounds.{without_time};
ghost use Rattle.lin_workers.specs.Cut.{DecideBy, IsCut};
ghost use Rattle.lin_workers.specs.Outcomes.{AreOutcomes};
ghost use Rattle.lin_workers.specs.Verdict.{IsNextTask, IsObjectVerdict};

use crate::bounds::{Bounds, Unfinished, Watcher};
use crate::searches::starving::search_unless_starved;
use crate::tasks::task::Task;
use crate::verdict::ObjectVerdict;
use lin_history::{Order, Problem};
use lin_object::{SeqObject, lawful};
use lin_search::{Memo, NoStop, Outcome, longest_run};
use std::alloc::{AllocError, Global};

/// The verdict by the tasks of a cut, in their order: the first that has a completion, or whose search met the limit, decides;
/// where none does, the longest run is read off the memo. A task is searched over the memo where no outcome of it was brought.
/// `Unfinished` where memory was refused or the time was up.
pub(crate) fn verdict_of_tasks<O: SeqObject, M: Memo<O>, W: Watcher>(
    alloc: Global,
    problem: &Problem<O>,
    tasks: &[Task<O>],
    outcomes: &mut [Option<Outcome>],
    memo: &mut M,
    bounds: &Bounds<'_, W>,
) -> Result<ObjectVerdict, Unfinished>
    requires cut { (k : ℕ) × IsCut (problem_of O.after O.State.eq O.Reply.eq problem.now) k
        tasks.now }
    requires decides { DecideBy (problem_of O.after O.State.eq O.Reply.eq problem.now) tasks.now }
    requires outcomes { AreOutcomes (problem_of O.after O.State.eq O.Reply.eq problem.now) tasks.now
        bounds.now.limit outcomes.old }
    ensures verdict { IfOk result (IsObjectVerdict
        (problem_of O.after O.State.eq O.Reply.eq problem.now) (without_time bounds.now)) }
    ensures memo { M.changes memo.old memo.new }
{
    lawful::<O>();
    for i in 0..tasks.len() {
        let task = &tasks[i];
        let brought = outcomes[i].take();
        let outcome = outcome_of(alloc, problem, task, brought, memo, bounds)?;
        if let Some(verdict) = verdict_of_task(alloc, problem, task, outcome, bounds)? {
            return Ok(verdict);
        }
    }
    Ok(ObjectVerdict::No(longest_run(alloc, problem, memo)?))
}

// The outcome of the task: the one that was brought, or else that of a search over the memo.
fn outcome_of<O: SeqObject, M: Memo<O>, W: Watcher>(
    alloc: Global,
    problem: &Problem<O>,
    task: &Task<O>,
    brought: Option<Outcome>,
    memo: &mut M,
    bounds: &Bounds<'_, W>,
) -> Result<Outcome, Unfinished>
    requires reachable { IsReachable (problem_of O.after O.State.eq O.Reply.eq problem.now)
        task.now.config.lifted task.now.config.state }
    requires brought { IfSome brought (IsAnswer
        (problem_of O.after O.State.eq O.Reply.eq problem.now) task.now.config.lifted
        task.now.config.state bounds.now.limit (λ told. ⊥)) }
    ensures answer { IfOk result (IsAnswer
        (problem_of O.after O.State.eq O.Reply.eq problem.now) task.now.config.lifted
        task.now.config.state bounds.now.limit (λ told. ⊥)) }
    ensures memo { M.changes memo.old memo.new }
{
    match brought {
        Some(outcome) => Ok(outcome),
        None => search_unless_starved(alloc, problem, &task.config, memo, bounds, &mut NoStop),
    }
}

// The verdict on the problem, where the task decides it: it has a completion, or its search met the limit.
fn verdict_of_task<O: SeqObject, W: Watcher>(
    alloc: Global,
    problem: &Problem<O>,
    task: &Task<O>,
    outcome: Outcome,
    bounds: &Bounds<'_, W>,
) -> Result<Option<ObjectVerdict>, AllocError>
    requires next { IsNextTask (problem_of O.after O.State.eq O.Reply.eq problem.now) task.now }
    requires answer { IsAnswer (problem_of O.after O.State.eq O.Reply.eq problem.now)
        task.now.config.lifted task.now.config.state bounds.now.limit (λ told. ⊥) outcome }
    ensures verdict { IfOk result (λ decided. IfSome decided
        (IsObjectVerdict (problem_of O.after O.State.eq O.Reply.eq problem.now)
        (without_time bounds.now))) }
    ensures refuted { IfOk result (λ decided. IfNone decided (HasNoCompletion
        (problem_of O.after O.State.eq O.Reply.eq problem.now) task.now.config.lifted
        task.now.config.state)) }
{
    lawful::<O>();
    match outcome {
        Outcome::Found(order) => Ok(Some(ObjectVerdict::Yes(joined(alloc, &task.path, &order)?))),
        Outcome::Refuted(_) => Ok(None),
        Outcome::Undecided => Ok(Some(ObjectVerdict::Undecided)),
        Outcome::Stopped(_) => unreachable!(),
    }
}

// The calls of the path, and then those of the completion.
fn joined(alloc: Global, path: &Order, completion: &Order) -> Result<Order, AllocError>
    ensures { IfOk result (λ order. order ≡ path.now ++ completion.now) }
{
    let mut calls = Vec::new(alloc);
    calls.extend_from_slice(path.calls())?;
    calls.extend_from_slice(completion.calls())?;
    Ok(Order::new(calls))
}
