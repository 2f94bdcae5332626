//! The check of one object.
ghost use Rattle.std.specs.Prelude.{◌≡◌, ℕ, ◌+◌, ◌≤◌, All, IfNone, IfOk, IfSome, IsSome, IsSomeAnd, vec_capacity, vec_len};
ghost use Rattle.std.specs.ControlFlow.{ForContinue};
ghost use Rattle.lin_history.specs.Problems.Problem.{problem_of};
ghost use Rattle.lin_table.specs.Hand.{IsHandOf};
ghost use Rattle.lin_workers.specs.Bounds.{Bounds as BoundsOf, without_time};
ghost use Rattle.lin_workers.specs.Options.{bounds_of};
ghost use Rattle.lin_workers.specs.Verdict.{IsNumberStored, IsObjectVerdict, IsToldAlone};
ghost use Rattle.lin_workers.specs.declared.options.TheConstants.{MAX_WORKERS};

use crate::bounds::{Bounds, Unfinished, Watcher};
use crate::deadline::Deadline;
use crate::options::Options;
use crate::searches::deciding::verdict_of_tasks;
use crate::searches::stalling::{LIFTS_BEFORE_WORKERS, Patience, outcomes_unless_stalled};
use crate::tasks::cutting::{cut, cut_in_time};
use crate::verdict::{Alone, CheckFault, ObjectVerdict};
use crate::workers::gate::Gate;
use crate::workers::sharing::share;
use lin_history::Problem;
use lin_object::{SeqObject, SharedObject};
use lin_search::{Memo, OwnMemo};
use lin_table::{Hand, STORED_BOUND, SharedMemo, Table};
use std::alloc::{AllocError, AllocGlobal, Global};
use std::ops::ControlFlow;
use std::thread::Threads;
use std::time::Clock;

// How many tasks are wanted for each worker.
const TASKS_EACH: usize = 4;

/// Checks one object: whether its calls have a linearization, and the least one, or the longest run where there is none; and
/// how many configurations were stored.
///
/// The calling thread begins alone (`check_alone`), over a memo of its own. Where there is one worker it goes on to the end. Where
/// there are more and its search stalls, they share the search (`check_over_table`), over what the calling thread refuted; so it is
/// for any number of workers where its search met the limit. A gate that wants workers has them at once.
/// Without a limit and seconds the verdict is the same for every number of workers and shards and on every schedule. With a limit,
/// which bounds the search of each task, it may be `Undecided`, and that only where there are more runs than the limit. What other
/// workers stored shortens a search, so whether it meets the limit may depend on the schedule. It may be `Undecided` too where
/// seconds are given, which the runtime's clock counts from the start of the check. A clock that fails ends nothing.
///
/// The number stored is always told. It is below 2^54, and there are as many reachable configurations or more: a search that
/// takes more than 10,000 steps passes over calls that add nothing (`search_passing_over`).
/// `CheckFault::Memory` where the calling thread was refused memory: for its search itself, or for 100,000 configurations more
/// than it could store since, without which a search would take far too long. A worker that was refused memory so leaves its
/// task to the calling thread, and where no thread can be had the workers work one after another. It may wait: for its workers, which wait
/// where the gate does.
pub fn check_object<O: SharedObject, R: AllocGlobal + Threads + Clock + Sync, G: Gate>(
    rt: &R,
    problem: &Problem<O>,
    options: &Options,
    gate: &G,
) -> Result<(ObjectVerdict, Option<u64>), CheckFault>
    ensures verdict { IfOk result (λ r. IsObjectVerdict
        (problem_of O.after O.State.eq O.Reply.eq problem.now) (bounds_of options.now) r.0) }
    ensures stored { IfOk result (λ r. IsSomeAnd r.1 (IsNumberStored
        (problem_of O.after O.State.eq O.Reply.eq problem.now))) }
{
    let deadline = Deadline::new(rt, options.seconds());
    let bounds = Bounds::new(options.limit(), &deadline);
    let mut memo = OwnMemo::new(rt.alloc(), problem);
    if !gate.wants_workers() {
        let patience = patience_of(options);
        match check_alone(rt.alloc(), problem, &mut memo, patience, &bounds)? {
            Alone::Decided(verdict, stored) => return Ok((verdict, Some(stored))),
            Alone::TimeUp(stored) => return Ok((ObjectVerdict::Undecided, Some(stored))),
            Alone::Stalled(_) | Alone::LimitMet => {}
        }
    }
    let (verdict, stored) = verdict_shared(rt, &memo, options, &bounds, gate)?;
    Ok((verdict, Some(stored)))
}

// The verdict by workers, undecided where the time was up; and how many configurations were stored.
fn verdict_shared<O: SharedObject, R: AllocGlobal + Threads + Sync, G: Gate, W: Watcher>(
    rt: &R,
    memo: &OwnMemo<'_, O>,
    options: &Options,
    bounds: &Bounds<'_, W>,
    gate: &G,
) -> Result<(ObjectVerdict, u64), AllocError>
    ensures verdict { IfOk result (λ r. IsObjectVerdict
        (problem_of O.after O.State.eq O.Reply.eq memo.now.problem) bounds.now r.0) }
    ensures stored { IfOk result (λ r. IsNumberStored
        (problem_of O.after O.State.eq O.Reply.eq memo.now.problem) r.1) }
{
    let (verdict, stored) = check_over_table(rt, memo, options, bounds, gate)?;
    match verdict {
        Some(verdict) => Ok((verdict, stored)),
        None => Ok((ObjectVerdict::Undecided, stored)),
    }
}

/// How long the calling thread goes on before workers share its search: to the end where there is one.
pub fn patience_of(options: &Options) -> Patience {
    if options.workers() > 1 {
        Patience::UntilStalled(LIFTS_BEFORE_WORKERS)
    } else {
        Patience::ToTheEnd
    }
}

/// The verdict by a search of the calling thread from the root, over a memo that may know refuted configurations, where it ends
/// within the bounds and the patience; and how many configurations the memo has then. Where it does not, why. The memo keeps what
/// it has, and what this search refuted, also where there is no verdict.
///
/// Condition: the memo names the problem. `AllocError` where memory was refused, as in `check_object`.
pub fn check_alone<O: SeqObject, W: Watcher>(
    alloc: Global,
    problem: &Problem<O>,
    memo: &mut OwnMemo<'_, O>,
    patience: Patience,
    bounds: &Bounds<'_, W>,
) -> Result<Alone, AllocError>
    requires { memo.old.problem ≡ problem.now }
    ensures told { IfOk result (IsToldAlone
        (problem_of O.after O.State.eq O.Reply.eq problem.now) bounds.now) }
    ensures memo { memo.new.problem ≡ memo.old.problem }
{
    match verdict_alone(alloc, problem, memo, patience, bounds) {
        Ok(ControlFlow::Break(lifts)) => Ok(Alone::Stalled(lifts)),
        Ok(ControlFlow::Continue(verdict)) => Ok(told_alone(verdict, memo)),
        Err(why) if bounds.leaves_undecided(why) => Ok(time_up(memo)),
        Err(_) => Err(AllocError),
    }
}

// What a search of the calling thread tells that ended with this verdict. A memo that has too many configurations to be told
// is left to workers.
fn told_alone<O: SeqObject>(verdict: ObjectVerdict, memo: &OwnMemo<'_, O>) -> Alone
    requires { (bounds : BoundsOf) × IsObjectVerdict
        (problem_of O.after O.State.eq O.Reply.eq memo.now.problem) bounds verdict }
    ensures { (bounds : BoundsOf) → IsToldAlone
        (problem_of O.after O.State.eq O.Reply.eq memo.now.problem) bounds result }
{
    match (verdict, number_stored(memo)) {
        (ObjectVerdict::Yes(order), Some(stored)) => Alone::Decided(
            ObjectVerdict::Yes(order),
            stored,
        ),
        (ObjectVerdict::No(run), Some(stored)) => Alone::Decided(ObjectVerdict::No(run), stored),
        (ObjectVerdict::Undecided, _) => Alone::LimitMet,
        (_, None) => Alone::Stalled(0),
    }
}

// What a search of the calling thread tells that ended since the time was up.
fn time_up<O: SeqObject>(memo: &OwnMemo<'_, O>) -> Alone
    ensures { (bounds : BoundsOf) → IsSome bounds.seconds → IsToldAlone
        (problem_of O.after O.State.eq O.Reply.eq memo.now.problem) bounds result }
{
    match number_stored(memo) {
        Some(stored) => Alone::TimeUp(stored),
        None => Alone::Stalled(0),
    }
}

/// How many configurations the memo has, as a number of those that a check stores: it is told where it is below 2^54.
pub fn number_stored<O: SeqObject>(memo: &OwnMemo<'_, O>) -> Option<u64>
    ensures stored { IfSome result (IsNumberStored
        (problem_of O.after O.State.eq O.Reply.eq memo.now.problem)) }
{
    let stored = memo.count();
    if stored < STORED_BOUND {
        Some(stored)
    } else {
        None
    }
}

// The verdict by a search from the root over the memo, where it ends within the patience; else how many lifts it made.
fn verdict_alone<O: SeqObject, M: Memo<O>, W: Watcher>(
    alloc: Global,
    problem: &Problem<O>,
    memo: &mut M,
    patience: Patience,
    bounds: &Bounds<'_, W>,
) -> Result<ControlFlow<u64, ObjectVerdict>, Unfinished>
    ensures verdict { IfOk result (λ told. ForContinue told (IsObjectVerdict
        (problem_of O.after O.State.eq O.Reply.eq problem.now) (without_time bounds.now))) }
    ensures memo { M.changes memo.old memo.new }
{
    let whole = cut(alloc, problem, 1)?;
    let tasks = whole.as_slice();
    let mut outcomes = match outcomes_unless_stalled(
        alloc, problem, tasks, memo, patience, bounds,
    )? {
        ControlFlow::Continue(outcomes) => outcomes,
        ControlFlow::Break(lifts) => return Ok(ControlFlow::Break(lifts)),
    };
    let outcomes = outcomes.as_mut_slice();
    let verdict = verdict_of_tasks(alloc, problem, tasks, outcomes, memo, bounds)?;
    Ok(ControlFlow::Continue(verdict))
}

/// The verdict, and how many configurations were stored, by workers that share a table. What the memo has is lent to all of
/// them.
///
/// The search is cut into tasks, which as many workers share as the options say, but not more than there are tasks. They are
/// then taken in their order, and the calling thread searches each that has no outcome. `Undecided` where the search of a task met
/// the limit, and no verdict where the time was up. `AllocError` where the calling thread was refused memory, as in
/// `check_object`. It may wait, for its workers.
pub fn check_over_table<O: SharedObject, R: AllocGlobal + Threads + Sync, G: Gate, W: Watcher>(
    rt: &R,
    memo: &OwnMemo<'_, O>,
    options: &Options,
    bounds: &Bounds<'_, W>,
    gate: &G,
) -> Result<(Option<ObjectVerdict>, u64), AllocError>
    ensures verdict { IfOk result (λ r. IfSome r.0 (IsObjectVerdict
        (problem_of O.after O.State.eq O.Reply.eq memo.now.problem) (without_time bounds.now))) }
    ensures time { IfOk result (λ r. IfNone r.0 (IsSome bounds.now.seconds)) }
    ensures stored { IfOk result (λ r. IsNumberStored
        (problem_of O.after O.State.eq O.Reply.eq memo.now.problem) r.1) }
{
    let shards = options.shards() as usize;
    let workers = options.workers() as usize;
    let (table, hands) = Table::over(rt.alloc(), memo, shards, workers + 1)?;
    let (verdict, hands) = verdict_by_hands(rt, &table, hands, gate, bounds);
    let Ok(stored) = table.total(hands) else {
        unreachable!()
    };
    match verdict {
        Ok(verdict) => Ok((Some(verdict), stored)),
        Err(why) if bounds.leaves_undecided(why) => Ok((None, stored)),
        Err(_) => Err(AllocError),
    }
}

// The verdict over the table by the calling thread, with one of these hands, and by workers with the others; and the hands.
fn verdict_by_hands<O: SharedObject, R: AllocGlobal + Threads + Sync, G: Gate, W: Watcher>(
    rt: &R,
    table: &Table<'_, O>,
    mut hands: Vec<Hand<O>>,
    gate: &G,
    bounds: &Bounds<'_, W>,
) -> (Result<ObjectVerdict, Unfinished>, Vec<Hand<O>>)
    requires count { (2 ≤ vec_len hands) × (vec_len hands ≤ MAX_WORKERS + 1) }
    requires hands { All (IsHandOf table.now) hands.items }
    ensures verdict { IfOk result.0 (IsObjectVerdict
        (problem_of O.after O.State.eq O.Reply.eq table.now.problem) (without_time bounds.now)) }
    ensures hands { All (IsHandOf table.now) result.1.items }
    ensures count { vec_len result.1 ≡ vec_len hands }
{
    let Some(mut own) = hands.pop() else {
        unreachable!()
    };
    let verdict = verdict_with_workers(rt, table, &mut own, &mut hands, gate, bounds);
    hands.push_reserved(own);
    (verdict, hands)
}

// The verdict over the table by the tasks of a cut, which workers share that have these hands. The calling thread, which has its
// own, searches the tasks that have no outcome.
fn verdict_with_workers<O: SharedObject, R: AllocGlobal + Threads + Sync, G: Gate, W: Watcher>(
    rt: &R,
    table: &Table<'_, O>,
    own: &mut Hand<O>,
    hands: &mut Vec<Hand<O>>,
    gate: &G,
    bounds: &Bounds<'_, W>,
) -> Result<ObjectVerdict, Unfinished>
    requires workers { (1 ≤ vec_len hands.old) × (vec_len hands.old ≤ MAX_WORKERS) }
    requires own { IsHandOf table.now own.old }
    requires hands { All (IsHandOf table.now) hands.old.items }
    ensures verdict { IfOk result (IsObjectVerdict
        (problem_of O.after O.State.eq O.Reply.eq table.now.problem) (without_time bounds.now)) }
    ensures own { IsHandOf table.now own.new }
    ensures hands { All (IsHandOf table.now) hands.new.items }
    ensures count { vec_len hands.new ≡ vec_len hands.old }
    ensures capacity { vec_capacity hands.new ≡ vec_capacity hands.old }
{
    let problem = table.problem();
    let tasks = cut_in_time(
        rt.alloc(),
        problem,
        TASKS_EACH * hands.len(),
        bounds.watcher(),
    )?;
    let tasks = tasks.as_slice();
    let mut outcomes = share(rt, table, tasks, hands, gate, bounds)?;
    let mut memo = SharedMemo::new(table, own);
    let outcomes = outcomes.as_mut_slice();
    verdict_of_tasks(rt.alloc(), problem, tasks, outcomes, &mut memo, bounds)
}
