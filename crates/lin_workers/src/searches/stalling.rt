//! The search of the calling thread by itself, which ends where it makes no progress.
ghost use Rattle.std.specs.Prelude.{◌≡◌, ℕ, IfOk};
ghost use Rattle.std.specs.ControlFlow.{ForContinue};
ghost use Rattle.lin_history.specs.Problems.Configurations.{IsReachable};
ghost use Rattle.lin_history.specs.Problems.Problem.{problem_of};
ghost use Rattle.lin_search.specs.Answer.{IsAnswer};
ghost use Rattle.lin_workers.specs.Cut.{IsCut};
ghost use Rattle.lin_workers.specs.Outcomes.{AreOutcomes};

use crate::bounds::{Bounds, Unfinished, Unwatched, Watcher};
use crate::searches::starving::search_unless_starved;
use crate::searches::watching::{UntilOver, Watch, WatchedMemo};
use crate::tasks::task::Task;
use crate::workers::gathering::{no_outcomes, place_value, was_stopped};
use lin_history::Problem;
use lin_object::SeqObject;
use lin_search::{CallSet, Memo, NoStop, Outcome};
use std::alloc::Global;
use std::ops::ControlFlow;
use std::sync::atomic::AtomicBool;

/// After so many lifts in vain workers share a search. A shorter search costs less than threads, and one that has come so far without
/// progress most likely has far more to refute.
pub(crate) const LIFTS_BEFORE_WORKERS: u64 = 500_000;

/// How long the calling thread goes on by itself.
#[derive(Clone, Copy, Debug)]
pub enum Patience {
    /// Until its search stalls: so many lifts in a row, and the last third of all, have made no progress.
    UntilStalled(u64),
    /// For so many lifts, with progress or without.
    ForLifts(u64),
    /// To the end of its search.
    ToTheEnd,
}

// The outcomes of the tasks of a cut before they are taken in their order: of a thread that goes on to the end none; else that
// of the first, of its search over the memo. Where that search stalls, how many lifts it made.
pub(crate) fn outcomes_unless_stalled<O: SeqObject, M: Memo<O>, W: Watcher>(
    alloc: Global,
    problem: &Problem<O>,
    tasks: &[Task<O>],
    memo: &mut M,
    patience: Patience,
    bounds: &Bounds<'_, W>,
) -> Result<ControlFlow<u64, Vec<Option<Outcome>>>, Unfinished>
    requires { (k : ℕ) × IsCut (problem_of O.after O.State.eq O.Reply.eq problem.now) k tasks.now }
    ensures outcomes { IfOk result (λ brought. ForContinue brought (λ outcomes. AreOutcomes
        (problem_of O.after O.State.eq O.Reply.eq problem.now) tasks.now bounds.now.limit outcomes.items)) }
    ensures memo { M.changes memo.old memo.new }
{
    let mut outcomes = no_outcomes(alloc, tasks.len())?;
    if let Patience::ToTheEnd = patience {
        return Ok(ControlFlow::Continue(outcomes));
    }
    let mut progress = Progress::none(patience);
    let outcome = search_until_stalled(alloc, problem, &tasks[0], memo, &mut progress, bounds)?;
    if was_stopped(&outcome) {
        return Ok(ControlFlow::Break(progress.lifts));
    }
    place_value(outcomes.as_mut_slice(), 0, outcome);
    Ok(ControlFlow::Continue(outcomes))
}

// Searches the configuration of the task over the memo, and is stopped where it stalls.
fn search_until_stalled<O: SeqObject, M: Memo<O>, W: Watcher>(
    alloc: Global,
    problem: &Problem<O>,
    task: &Task<O>,
    memo: &mut M,
    progress: &mut Progress,
    bounds: &Bounds<'_, W>,
) -> Result<Outcome, Unfinished>
    requires reachable { IsReachable (problem_of O.after O.State.eq O.Reply.eq problem.now)
        task.now.config.lifted task.now.config.state }
    ensures answer { IfOk result (IsAnswer (problem_of O.after O.State.eq O.Reply.eq problem.now)
        task.now.config.lifted task.now.config.state bounds.now.limit (λ told. Unit {0})) }
    ensures memo { M.changes memo.old memo.new }
{
    let has_stalled = AtomicBool::new(false);
    let mut memo = WatchedMemo::new(memo, progress, &has_stalled);
    let mut none = NoStop;
    let mut stop = UntilOver::new(&mut none, &has_stalled, &Unwatched, problem.len());
    search_unless_starved(alloc, problem, &task.config, &mut memo, bounds, &mut stop)
}

// How far a search has come: the greatest sum of the numbers of lifted calls, how many lifts it has made, and how many of
// them since it came there; and how long it goes on. One that goes on to a linearization comes further all the time, but for short ways back; one that
// finds none has soon been as far as it can come, and refutes from there on. So one that has stalled most likely has much to
// refute, which workers share well.
#[derive(Drop)]
struct Progress {
    furthest: u64,
    lifts: u64,
    in_vain: u64,
    patience: Patience,
}

impl Progress {
    // Of a search that begins.
    fn none(patience: Patience) -> Progress {
        Progress {
            furthest: 0,
            lifts: 0,
            in_vain: 0,
            patience,
        }
    }

    // A lift that led to calls with this sum.
    fn add_lift(&mut self, sum: u64) {
        self.lifts = self.lifts.wrapping_add(1);
        self.in_vain = self.in_vain.wrapping_add(1);
        if sum > self.furthest {
            self.furthest = sum;
            self.in_vain = 0;
        }
    }

    // Whether the search is to end: it has made no progress for long, and for a third of all its lifts; or it has made its lifts.
    fn has_stalled(&self) -> bool {
        match self.patience {
            Patience::UntilStalled(lifts) => self.in_vain >= lifts
                && self.in_vain >= self.lifts / 3,
            Patience::ForLifts(lifts) => self.lifts >= lifts,
            Patience::ToTheEnd => false,
        }
    }
}

impl Watch for Progress {
    fn look(&mut self, lifted: &CallSet) -> bool {
        self.add_lift(lifted.sum());
        self.has_stalled()
    }
}
