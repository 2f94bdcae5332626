//! One candidate: the best run that lacks just the calls dropped.
ghost use Rattle.std.specs.Prelude.{◌≡◌, ◌⊎◌, ◌+◌, ◌<◌, ◌^◌, ℕ, List, IfOk, IfSome, IsTrue, length};
ghost use Rattle.lin_history.specs.Problems.Lists.{In};
ghost use Rattle.lin_history.specs.Problems.Problem.{problem_of};
ghost use Rattle.lin_history.specs.Problems.Linearizations.{IsRun};
ghost use Rattle.lin_history.specs.Problems.Configurations.{IsReachable};
ghost use Rattle.lin_search.specs.CallSet.{with_call, lifted_set};
ghost use Rattle.lin_search.specs.Entries.{IsMinimal};
ghost use Rattle.lin_search.specs.NextCall.{IsNext};
ghost use Rattle.lin_parts.specs.Parts.{IsFilled, named};
ghost use Rattle.lin_prefixes.specs.Prefixes.{IsBeaten, IsRunWithout};

use crate::call_lists::{beats, kept_calls};
use crate::part_search::PartSearch;
use lin_effort::Decision;
use lin_history::{Order, Problem};
use lin_object::{SeqObject, lawful};
use lin_parts::{fill, with_names};
use lin_search::{Config, Longest, Path};
use std::alloc::{AllocError, Global};

// Whether the call is left, and none that is left precedes it.
fn comes_next<O: SeqObject>(path: &Path<'_, O>, call: usize) -> bool
    requires { lifted_set (problem_of O.after O.State.eq O.Reply.eq path.now.entries.problem)
        path.now.entries.lifted ≡ path.now.config.lifted }
    ensures { IsTrue result → IsMinimal
        (problem_of O.after O.State.eq O.Reply.eq path.now.entries.problem) path.now.config.lifted
        call }
{
    let mut candidate = path.enter().candidate;
    for _ in 0..path.problem().len() {
        match candidate {
            Some(other) if other < call => {
                candidate = path.after(other, Longest::none()).candidate;
            }
            _ => return candidate == Some(call),
        }
    }
    false
}

// Lifts the call where it can follow: whether it can.
fn follow<O: SeqObject>(path: &mut Path<'_, O>, call: usize) -> Result<bool, AllocError>
    requires lifted { lifted_set (problem_of O.after O.State.eq O.Reply.eq
        path.old.entries.problem) path.old.entries.lifted ≡ path.old.config.lifted }
    requires reachable { IsReachable (problem_of O.after O.State.eq O.Reply.eq
        path.old.entries.problem) path.old.config.lifted path.old.config.state }
    ensures problem { path.new.entries.problem ≡ path.old.entries.problem }
    ensures lifted { IfOk result (λ followed. IsTrue followed → lifted_set
        (problem_of O.after O.State.eq O.Reply.eq path.old.entries.problem)
        path.new.entries.lifted ≡ path.new.config.lifted) }
    ensures set { IfOk result (λ followed. IsTrue followed
        → path.new.config.lifted ≡ with_call path.old.config.lifted call) }
    ensures next { IfOk result (λ followed. IsTrue followed → IsNext
        (problem_of O.after O.State.eq O.Reply.eq path.old.entries.problem) path.old.config.lifted
        path.old.config.state call path.new.config.state) }
    ensures reachable { IfOk result (λ followed. IsTrue followed → IsReachable
        (problem_of O.after O.State.eq O.Reply.eq path.old.entries.problem) path.new.config.lifted
        path.new.config.state) }
{
    if !comes_next(path, call) {
        return Ok(false);
    }
    Ok(path.lift(call, Longest::none())?.is_some())
}

// Whether the calls are a run: `true` only where each can follow those before it.
pub(crate) fn is_run<O: SeqObject>(
    alloc: Global,
    problem: &Problem<O>,
    calls: &[usize],
) -> Result<bool, AllocError>
    ensures { IfOk result (λ is. IsTrue is
        → IsRun (problem_of O.after O.State.eq O.Reply.eq problem.now) calls.now) }
{
    lawful::<O>();
    let root = Config::root(alloc, problem)?;
    let mut path = Path::new(alloc, problem, root)?;
    for c in calls {
        if !follow(&mut path, *c)? {
            return Ok(false);
        }
    }
    Ok(true)
}

// The names of the order's calls and, behind them, of the other calls of the part; `None` where a call has no name, or
// where there are not as many as names.
fn full_order(alloc: Global, kept: &[usize], order: Order) -> Result<Option<Vec<usize>>, AllocError>
    ensures { IfOk result (λ answer. IfSome answer (λ run. (all : List ℕ)
        × IsFilled (length kept.now) order all × (run.items ≡ named kept.now all)
        × (length all ≡ length kept.now))) }
{
    let mut calls = order.into_calls();
    fill(alloc, &mut calls, kept.len())?;
    if calls.len() != kept.len() {
        return Ok(None);
    }
    with_names(alloc, kept, calls.as_slice())
}

// Takes the run in place of the best one, where that does not beat it.
fn take_better(best: &mut Order, run: Vec<usize>)
    ensures one { (best.new ≡ best.old) ⊎ (best.new ≡ run.items) }
    ensures old { IsBeaten best.new best.old }
    ensures run { IsBeaten best.new run.items }
{
    if !beats(best.calls(), run.as_slice()) {
        *best = Order::new(run);
    }
}

// Tries the runs with calls up to this one that lack, of the completed ones, just those dropped: whether they are known.
// The best run is then no worse than each of them.
pub(crate) fn try_part<O: SeqObject, S: PartSearch<O>>(
    alloc: Global,
    problem: &Problem<O>,
    search: &mut S,
    call: usize,
    dropped: &[usize],
    best: &mut Order,
) -> Result<bool, AllocError>
    requires call { call < length problem.now.calls }
    requires run { IsRun (problem_of O.after O.State.eq O.Reply.eq problem.now) best.old }
    ensures run { IsRun (problem_of O.after O.State.eq O.Reply.eq problem.now) best.new }
    ensures better { IfOk result (λ known. IsBeaten best.new best.old) }
    ensures known { IfOk result (λ known. IsTrue known → (r : List ℕ)
        → IsRunWithout (problem_of O.after O.State.eq O.Reply.eq problem.now) call dropped.now r
        → IsBeaten best.new r) }
{
    let calls = problem.calls();
    if call >= calls.len() {
        return Ok(false);
    }
    let kept = kept_calls(alloc, call, dropped)?;
    let order = match search.least_of_part(alloc, problem, kept.as_slice())? {
        Decision::Found(order) => order,
        Decision::Refuted => return Ok(true),
        Decision::Spent | Decision::Stopped => return Ok(false),
    };
    let Some(run) = full_order(alloc, kept.as_slice(), order)? else {
        return Ok(false);
    };
    if !is_run(alloc, problem, run.as_slice())? {
        return Ok(false);
    }
    take_better(best, run);
    Ok(true)
}
