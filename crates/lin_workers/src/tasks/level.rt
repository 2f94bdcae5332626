//! Levels: the configurations that runs of so many calls lead to.
ghost use Rattle.std.specs.Prelude.{◌≡◌, ℕ, ◌+◌, ◌<◌, ◌↔◌, ◌++◌, ◌∷◌, [], Bool, List, Some, true, length, slice_get, IfOk, IsTrue, IsFalse};
ghost use Rattle.lin_history.specs.Problems.Problem.{problem_of};
ghost use Rattle.lin_history.specs.Problems.Configurations.{IsReachable};
ghost use Rattle.lin_history.specs.Problems.Continuations.{no_calls};
ghost use Rattle.lin_history.specs.Problems.Linearizations.{IsRun};
ghost use Rattle.lin_search.specs.Count.{Among};
ghost use Rattle.lin_search.specs.NextCall.{HasEveryCompleted};
ghost use Rattle.lin_workers.specs.Cut.{Task as TaskOf, IsTask, AreLevel, HasNoComplete, IsAtLevel, configurations_of};
ghost use Rattle.lin_workers.specs.NextLevel.{IsFilled};

use crate::bounds::{Unfinished, Watcher};
use crate::tasks::task::Task;
use lin_history::{Order, Problem};
use lin_object::{SeqObject, lawful};
use lin_search::{Config, Entries};
use std::alloc::{AllocError, Global};

// The level that no call leads to: the root alone.
pub(crate) fn first_level<O: SeqObject>(
    alloc: Global,
    problem: &Problem<O>,
) -> Result<Vec<Task<O>>, AllocError>
    ensures { IfOk result (λ tasks. (s : O.State) × (O.State.eq problem.now.start s ≡ true)
        × (tasks.items ≡ record {
          path = [];
          config = record {
            lifted = no_calls (problem_of O.after O.State.eq O.Reply.eq problem.now);
            state = s;
          };
        } ∷ [])) }
{
    lawful::<O>();
    let mut tasks = Vec::new(alloc);
    let config = Config::root(alloc, problem)?;
    let path = Order::new(Vec::new(alloc));
    tasks.push(Task { path, config })?;
    Ok(tasks)
}

// The level that one call leads to from this one. `Unfinished` where memory was refused or the time was up.
pub(crate) fn next_level<O: SeqObject, W: Watcher>(
    alloc: Global,
    problem: &Problem<O>,
    level: &[Task<O>],
    watcher: &W,
) -> Result<Vec<Task<O>>, Unfinished>
    requires { (k : ℕ) × AreLevel (problem_of O.after O.State.eq O.Reply.eq problem.now) k
        level.now }
    ensures { IfOk result (λ next. (k : ℕ)
        → AreLevel (problem_of O.after O.State.eq O.Reply.eq problem.now) k level.now
        → AreLevel (problem_of O.after O.State.eq O.Reply.eq problem.now) (k + 1) next.items) }
{
    lawful::<O>();
    let mut entries = Entries::new(alloc, problem)?;
    let mut next = Vec::new(alloc);
    for parent in level {
        add_children(alloc, problem, parent, &mut entries, &mut next, watcher)?;
    }
    Ok(next)
}

// Adds what each call leads to from the parent. The entries are those of all calls, before, and after unless
// memory was refused or the time was up.
fn add_children<O: SeqObject, W: Watcher>(
    alloc: Global,
    problem: &Problem<O>,
    parent: &Task<O>,
    entries: &mut Entries<'_, O>,
    next: &mut Vec<Task<O>>,
    watcher: &W,
) -> Result<(), Unfinished>
    requires whole { entries.old ≡ record { problem = problem.now; lifted = [] } }
    requires task { (k : ℕ) × IsTask (problem_of O.after O.State.eq O.Reply.eq problem.now) k
        parent.now }
    ensures whole { IfOk result (λ done. entries.new ≡ entries.old) }
    ensures filled { IfOk result (λ done. (k i : ℕ) (parents : List (TaskOf O.State))
        → AreLevel (problem_of O.after O.State.eq O.Reply.eq problem.now) k parents
        → slice_get parents i ≡ Some parent.now
        → IsFilled (problem_of O.after O.State.eq O.Reply.eq problem.now) k parents i 0
        next.old.items
        → IsFilled (problem_of O.after O.State.eq O.Reply.eq problem.now) k parents (i + 1) 0
        next.new.items) }
{
    let run = parent.path.calls();
    lift_run(entries, run);
    let mut candidate = entries.first_minimal();
    while let Some(call) = candidate {
        if watcher.is_up() {
            return Err(Unfinished::Time);
        }
        add_child(alloc, problem, parent, call, next)?;
        candidate = entries.next_minimal(call);
    }
    unlift_run(entries, run);
    Ok(())
}

// Lifts the calls of a run, one after another, where no call is lifted.
fn lift_run<O: SeqObject>(entries: &mut Entries<'_, O>, run: &[usize])
    requires none { entries.old.lifted ≡ [] }
    requires run { IsRun (problem_of O.after O.State.eq O.Reply.eq entries.old.problem) run.now }
    ensures { entries.new ≡ record { problem = entries.old.problem; lifted = run.now } }
{
    for call in run {
        entries.lift(*call);
    }
}

// Adds what the call leads to from the parent to the next level, where it can follow and its configuration is not there.
fn add_child<O: SeqObject>(
    alloc: Global,
    problem: &Problem<O>,
    parent: &Task<O>,
    call: usize,
    next: &mut Vec<Task<O>>,
) -> Result<(), AllocError>
    requires reachable { IsReachable (problem_of O.after O.State.eq O.Reply.eq problem.now)
        parent.now.config.lifted parent.now.config.state }
    requires call { call < length problem.now.calls }
    ensures filled { IfOk result (λ done. (k i : ℕ) (parents : List (TaskOf O.State))
        → AreLevel (problem_of O.after O.State.eq O.Reply.eq problem.now) k parents
        → slice_get parents i ≡ Some parent.now
        → IsFilled (problem_of O.after O.State.eq O.Reply.eq problem.now) k parents i call
        next.old.items
        → IsFilled (problem_of O.after O.State.eq O.Reply.eq problem.now) k parents i (call + 1)
        next.new.items) }
{
    lawful::<O>();
    let Some(config) = parent.config.child(alloc, problem, call)? else {
        return Ok(());
    };
    if is_among(next.as_slice(), &config) {
        return Ok(());
    }
    let path = run_through(alloc, parent.path.calls(), call)?;
    next.push(Task { path, config })?;
    Ok(())
}

// Whether the configuration is that of one of the tasks.
fn is_among<O: SeqObject>(tasks: &[Task<O>], config: &Config<O>) -> bool
    ensures { IsTrue result ↔ Among O.State.eq (configurations_of tasks.now) config.now.lifted
        config.now.state }
{
    for task in tasks {
        if *config == task.config {
            return true;
        }
    }
    false
}

// The run, and then the call.
fn run_through(alloc: Global, run: &[usize], call: usize) -> Result<Order, AllocError>
    ensures { IfOk result (λ order. order ≡ run.now ++ call ∷ []) }
{
    let mut calls = Vec::new(alloc);
    for before in run {
        calls.push(*before)?;
    }
    calls.push(call)?;
    Ok(Order::new(calls))
}

// Puts the calls of a run in again, the last first. They are all that are lifted.
fn unlift_run<O: SeqObject>(entries: &mut Entries<'_, O>, run: &[usize])
    requires { entries.old.lifted ≡ run.now }
    ensures { entries.new ≡ record { problem = entries.old.problem; lifted = [] } }
{
    let mut left = run.len();
    while left > 0 {
        left -= 1;
        entries.unlift(run[left]);
    }
}

// Whether a configuration of the level has every completed call.
pub(crate) fn has_complete<O: SeqObject>(problem: &Problem<O>, level: &[Task<O>]) -> bool
    requires { (k : ℕ) × AreLevel (problem_of O.after O.State.eq O.Reply.eq problem.now) k
        level.now }
    ensures complete { IsTrue result → (k : ℕ)
        → AreLevel (problem_of O.after O.State.eq O.Reply.eq problem.now) k level.now
        → (set : List Bool) × (s : O.State)
        × IsAtLevel (problem_of O.after O.State.eq O.Reply.eq problem.now) k set s
        × HasEveryCompleted (problem_of O.after O.State.eq O.Reply.eq problem.now) set }
    ensures incomplete { IsFalse result → (k : ℕ)
        → AreLevel (problem_of O.after O.State.eq O.Reply.eq problem.now) k level.now
        → HasNoComplete (problem_of O.after O.State.eq O.Reply.eq problem.now) k }
{
    for task in level {
        if task.config.is_complete(problem) {
            return true;
        }
    }
    false
}
