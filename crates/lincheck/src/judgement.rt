//! The check of a history: its objects are searched one after another.

ghost use Rattle.std.specs.Prelude.{◌≡◌, ◌+◌, ◌^◌, ◌<◌, ◌≤◌, ℕ, List, Some, length, option_map, slice_get, IfOk, IfSome, IsSome, IsSomeAnd};
ghost use Rattle.std.specs.ControlFlow.{ForBreak, ForContinue};
ghost use Rattle.lin_history.specs.Locality.JoinedOrder.{indices_from};
ghost use Rattle.lin_history.specs.Locality.RecordedWhole.{part_of};
ghost use Rattle.lin_history.specs.Problems.Linearizations.{IsLinearization};
ghost use Rattle.lin_history.specs.Problems.Lists.{IsLeast};
ghost use Rattle.lin_workers.specs.Bounds.{Bounds as BoundsOf};
ghost use Rattle.lin_workers.specs.Options.{bounds_of};
ghost use Rattle.lin_workers.specs.Verdict.{IsNumberStored};
ghost use Rattle.lincheck.specs.Explained.{IsWitness, IsWitnessIn};
ghost use Rattle.lincheck.specs.ObjectAnswer.{IsObjectAnswer};
ghost use Rattle.lincheck.specs.Stored.{IsStoredTold, judged_of};
ghost use Rattle.lincheck.specs.Verdict.{AreLeastOf, IsVerdict};

use crate::check_watcher::CheckWatcher;
use crate::known::Known;
use crate::listener::{Listener, NoListener};
use crate::notice::{Explained, Notice};
use crate::object_answer::{ObjectAnswer, Question};
use crate::setting::Setting;
use crate::turns::answer_object;
use crate::verdict::{Checked, Verdict};
use crate::witness::witness_known;
use lin_explain::Witness;
use lin_history::{History, Order, join, place};
use lin_workers::{Bounds, CheckFault, Gate, Options, Watcher};
use std::alloc::{AllocError, Global};
use std::ops::ControlFlow;
use std::thread;
use std::thread::Threads;
use std::time::Clock;

// The answer for the object of this index, whose calls have these indices; how many configurations were stored; and what is known
// then to let a reader see that it has no order. The part of the history on it is made here, so that no other object's takes memory
// while it is searched.
pub(crate) fn judge_object<R: AllocGlobal + Threads + Sync, G: Gate, W: Watcher>(
    setting: &Setting<'_, '_, R, G, W>,
    history: &History,
    object: usize,
    indices: &[usize],
    question: Question,
) -> Result<(ObjectAnswer, Option<u64>, Option<Witness>), AllocError>
    requires declared { object < length history.now.objects }
    requires indices { indices.now ≡ indices_from object 0 history.now.calls }
    ensures answer { IfOk result (λ judged. IsObjectAnswer (part_of history.now object) question
        setting.now.bounds judged.0) }
    ensures stored { IfOk result (λ judged. IsSomeAnd judged.1
        (IsNumberStored (part_of history.now object))) }
    ensures witness { IfOk result (λ judged. IfSome judged.2 (IsWitness history.now object)) }
{
    let problem = history.part(setting.rt.alloc(), object, indices)?;
    setting.bounds.watcher().begin(object, problem.len());
    let mut known = Known::nothing(setting.rt.alloc());
    let (answer, stored) = answer_object(setting, &problem, question, &mut known)?;
    let witness = witness_known(setting.rt.alloc(), history, object, &problem, known.fault)?;
    Ok((answer, Some(stored), witness))
}

// The verdict on the history where the object of this index has no linearization, and each before has one.
fn verdict_no(
    alloc: Global,
    history: &History,
    object: usize,
    run: Option<Order>,
) -> Result<Verdict, AllocError>
    requires declared { object < length history.now.objects }
    requires right { (bounds : BoundsOf) × IsObjectAnswer (part_of history.now object)
        Question.LongestRun bounds (ObjectAnswer.No run) }
    ensures right { IfOk result (λ verdict. (orders : List (List ℕ)) (bounds : BoundsOf)
        → AreLeastOf history.now object orders
        → IsObjectAnswer (part_of history.now object) Question.LongestRun bounds
        (ObjectAnswer.No run)
        → IsVerdict history.now bounds verdict) }
    ensures judged { IfOk result (λ verdict. judged_of history.now verdict ≡ object + 1) }
{
    match run {
        Some(order) => {
            let run = place(alloc, history, object, &order)?;
            Ok(Verdict::No { object, run })
        }
        None => Ok(Verdict::NoInTime { object }),
    }
}

// What the answer for the object of this index is to the check: the object's least order, with which the check goes on, or
// the verdict on the history, where each object before has an order.
fn order_or_end(
    alloc: Global,
    history: &History,
    object: usize,
    answer: ObjectAnswer,
) -> Result<ControlFlow<Verdict, Order>, AllocError>
    requires declared { object < length history.now.objects }
    requires right { (bounds : BoundsOf)
        × IsObjectAnswer (part_of history.now object) Question.LongestRun bounds answer }
    ensures order { IfOk result (λ next. ForContinue next (λ order.
        IsLeast (IsLinearization (part_of history.now object)) order)) }
    ensures end { IfOk result (λ next. (orders : List (List ℕ)) (bounds : BoundsOf)
        → AreLeastOf history.now object orders
        → IsObjectAnswer (part_of history.now object) Question.LongestRun bounds answer
        → ForBreak next (IsVerdict history.now bounds)) }
    ensures judged { IfOk result (λ next. ForBreak next (λ verdict.
        judged_of history.now verdict ≡ object + 1)) }
{
    match answer {
        ObjectAnswer::Yes(order) => Ok(ControlFlow::Continue(order)),
        ObjectAnswer::No(run) => {
            let verdict = verdict_no(alloc, history, object, run)?;
            Ok(ControlFlow::Break(verdict))
        }
        // That is told only where no order and no run is asked for.
        ObjectAnswer::HasOrder => unreachable!(),
        ObjectAnswer::Undecided => Ok(ControlFlow::Break(Verdict::Undecided { object })),
    }
}

// How many configurations were stored with these, where both numbers are told and the sum has 64 bits.
pub(crate) fn with_more(stored: Option<u64>, more: Option<u64>) -> Option<u64>
    ensures sum { IfSome result (λ all. IsSomeAnd stored (λ before. IsSomeAnd more (λ number.
        all ≡ before + number))) }
    ensures told { IfSome stored (λ before. IfSome more (λ number. before + number < 2 ^ 64
        → IsSome result)) }
{
    stored?.checked_add(more?)
}

// The verdict on a history, and how many configurations were stored up to there; and what is known then to let a reader see that the
// object which it names has no order.
fn judge<R: AllocGlobal + Threads + Sync, G: Gate, W: Watcher>(
    setting: &Setting<'_, '_, R, G, W>,
    history: &History,
) -> Result<(Checked, Option<Witness>), AllocError>
    ensures verdict { IfOk result (λ judged. IsVerdict history.now setting.now.bounds
        judged.0.verdict) }
    ensures stored { IfOk result (λ judged. IsStoredTold history.now
        (judged_of history.now judged.0.verdict) judged.0.stored) }
    ensures witness { IfOk result (λ judged. IsWitnessIn history.now judged.0.verdict judged.1) }
{
    let alloc = setting.rt.alloc();
    let lists = history.calls_by_object(alloc)?;
    let mut orders = Vec::new(alloc);
    let mut stored = Some(0);
    for object in 0..lists.len() {
        let indices = lists[object].as_slice();
        let (answer, more, witness) = judge_object(
            setting,
            history,
            object,
            indices,
            Question::LongestRun,
        )?;
        stored = with_more(stored, more);
        match order_or_end(alloc, history, object, answer)? {
            ControlFlow::Continue(order) => orders.push(order)?,
            ControlFlow::Break(verdict) => return Ok((Checked { verdict, stored }, witness)),
        }
    }
    let verdict = Verdict::Yes(join(alloc, history, orders.as_slice())?);
    Ok((Checked { verdict, stored }, None))
}

// The options of a check on this machine: no more workers than it has cores for the program, unless the gate wants workers.
pub(crate) fn options_here<R: Threads, G: Gate>(rt: &R, options: &Options, gate: &G) -> Options
    ensures { result.limit ≡ options.now.limit }
{
    if gate.wants_workers() {
        return *options;
    }
    match thread::available_parallelism(rt) {
        Ok(cores) => options.with_at_most(cores.get() as u64),
        Err(_) => *options,
    }
}

/// Checks a history. Its objects are searched in the order of declaration; the first that has no linearization, or that is not
/// decided within the limit or before the time is up, ends the check. The seconds of the options are counted by the runtime's clock
/// from the start of the check; a clock that fails ends nothing. Unless the gate wants workers, a map or a set is searched by key first
/// (`search_by_key`), and of an object of which something is known ahead a first search is made (`search_first`); where that
/// finds the order, nothing is stored for the object. Then the calling thread searches by itself, in turn with searches of prefixes
/// (`longest_run_by_prefixes`); where its first turn stalls, a core is looked for (`core_of`). Where none of these
/// answers, workers share the search, or the calling thread goes on where there is to be one worker. No more workers are started than
/// the machine has cores for the program, however many the options say, unless the gate wants workers.
///
/// The number stored is the sum over the objects up to where the check ended; of each object it is below 2^54, and the object
/// has as many reachable configurations or more. It is told of every history with no more objects than `MAX_OBJECTS`, and no
/// history has more.
///
/// The verdict is the same for every number of workers and shards and on every schedule, but that within a limit or a time it may
/// be `Undecided`, and within a time `NoInTime`. `CheckFault::Memory` where the calling thread was refused memory. It may wait, for its
/// workers.
pub fn check<R: AllocGlobal + Threads + Clock + Sync, G: Gate>(
    rt: &R,
    history: &History,
    options: &Options,
    gate: &G,
) -> Result<Checked, CheckFault>
    ensures verdict { IfOk result (λ checked. IsVerdict history.now (bounds_of options.now)
        checked.verdict) }
    ensures stored { IfOk result (λ checked. IsStoredTold history.now
        (judged_of history.now checked.verdict) checked.stored) }
{
    let notice = Notice::new();
    let watcher = CheckWatcher::new(rt, history, options, &notice, &NoListener);
    let (checked, _witness) = check_watched(rt, history, options, gate, None, &watcher)?;
    Ok(checked)
}

/// Checks a history as `check` does, while a watcher is told how far it has come, and knows when the time is up: it began when the
/// check did. What is known then to let a reader see that the object which the verdict names has no order is told, too; it is looked for where
/// the lines of the events are given.
pub(crate) fn check_watched<
    'a,
    R: AllocGlobal + Threads + Clock + Sync,
    G: Gate,
    L: Listener + Sync,
>(
    rt: &R,
    history: &'a History,
    options: &Options,
    gate: &G,
    lines: Option<&'a [u64]>,
    watcher: &'a CheckWatcher<'a, R, L>,
) -> Result<(Checked, Option<Witness>), CheckFault>
    requires { watcher.now.seconds ≡ options.now.seconds }
    ensures verdict { IfOk result (λ judged. IsVerdict history.now (bounds_of options.now)
        judged.0.verdict) }
    ensures stored { IfOk result (λ judged. IsStoredTold history.now
        (judged_of history.now judged.0.verdict) judged.0.stored) }
    ensures witness { IfOk result (λ judged. IsWitnessIn history.now judged.0.verdict judged.1) }
{
    let setting = Setting {
        rt,
        options: options_here(rt, options, gate),
        bounds: Bounds::new(options.limit(), watcher),
        gate,
        notice: watcher.notice(),
        explained: Explained::of(history, lines),
    };
    let (checked, witness) = judge(&setting, history)?;
    if let Verdict::Undecided { .. } = checked.verdict {
        watcher.end_here();
    }
    Ok((checked, witness))
}
