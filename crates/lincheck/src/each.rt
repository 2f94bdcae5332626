//! What each object of a history is by itself, and a line for each.

ghost use Rattle.std.specs.Prelude.{◌≡◌, ◌++◌, ◌<◌, ℕ, codes, length, string_bytes, IfOk, OnOk};
ghost use Rattle.std.specs.List.{list_any};
ghost use Rattle.lin_history.specs.Locality.RecordedWhole.{part_of};
ghost use Rattle.lin_history.specs.Recorder.RecordedHistory.{RecordedHistory};
ghost use Rattle.lin_workers.specs.Bounds.{Bounds as BoundsOf};
ghost use Rattle.lin_workers.specs.Options.{bounds_of};
ghost use Rattle.lincheck.specs.Each.{is_no, is_undecided, status_lines, status_of_all, status_text, AreStatusesOf, AreWitnessesOf, IsStatusOf};
ghost use Rattle.lincheck.specs.ObjectAnswer.{IsObjectAnswer};
ghost use Rattle.lincheck.specs.Report.{name_of};
ghost use Rattle.lincheck.specs.Stored.{IsStoredTold};

use crate::check_watcher::CheckWatcher;
use crate::judgement::{judge_object, options_here, with_more};
use crate::listener::{Listener, NoListener};
use crate::notice::Notice;
use crate::object_answer::{ObjectAnswer, Question};
use crate::setting::Setting;
use crate::status::Status;
use crate::verdict::CheckedEach;
use lin_explain::Witness;
use lin_history::History;
use lin_workers::{Bounds, CheckFault, Gate, Options, Watcher};
use std::alloc::{AllocError, AllocGlobal, Global};
use std::thread::Threads;
use std::time::Clock;

// The status that an answer for an object gives.
fn status_by(answer: &ObjectAnswer) -> Status
    ensures { (h : RecordedHistory) (question : Question) (bounds : BoundsOf) (object : ℕ)
        → IsObjectAnswer (part_of h object) question bounds answer.now
        → IsStatusOf h bounds object result }
{
    match answer {
        ObjectAnswer::Yes(_) => Status::Yes,
        ObjectAnswer::HasOrder => Status::Yes,
        ObjectAnswer::No(_) => Status::No,
        ObjectAnswer::Undecided => Status::Undecided,
    }
}

// The status of each object, and how many configurations were stored; and what is known then to let a reader see of an object that it
// has no order.
fn judge_each<R: AllocGlobal + Threads + Sync, G: Gate, W: Watcher>(
    setting: &Setting<'_, '_, R, G, W>,
    history: &History,
) -> Result<(CheckedEach, Vec<Option<Witness>>), AllocError>
    ensures statuses { IfOk result (λ judged. AreStatusesOf history.now setting.now.bounds
        (length history.now.objects) judged.0.statuses.items) }
    ensures stored { IfOk result (λ judged. IsStoredTold history.now
        (length history.now.objects) judged.0.stored) }
    ensures witnesses { IfOk result (λ judged. AreWitnessesOf history.now judged.1.items) }
{
    let lists = history.calls_by_object(setting.rt.alloc())?;
    let mut statuses = Vec::new(setting.rt.alloc());
    let mut witnesses = Vec::new(setting.rt.alloc());
    let mut stored = Some(0);
    for object in 0..lists.len() {
        let indices = lists[object].as_slice();
        let (answer, more, witness) = judge_object(
            setting,
            history,
            object,
            indices,
            Question::Verdict,
        )?;
        stored = with_more(stored, more);
        statuses.push(status_by(&answer))?;
        witnesses.push(witness)?;
    }
    Ok((CheckedEach { statuses, stored }, witnesses))
}

/// Checks each object of a history by itself, also those after one that has no linearization or is not decided. The seconds of the
/// options are counted from the start of the check: when they are over, the objects that are left have what is told before a search.
/// How an object is searched, and what is said of the number stored, is as of `check`.
///
/// The statuses are the same for every number of workers and shards and on every schedule, but that within a limit or a time they
/// may be `Undecided`. `CheckFault::Memory` where the calling thread was refused memory. It may wait, for its workers.
pub fn check_each<R: AllocGlobal + Threads + Clock + Sync, G: Gate>(
    rt: &R,
    history: &History,
    options: &Options,
    gate: &G,
) -> Result<CheckedEach, CheckFault>
    ensures statuses { IfOk result (λ checked. AreStatusesOf history.now (bounds_of options.now)
        (length history.now.objects) checked.statuses.items) }
    ensures stored { IfOk result (λ checked. IsStoredTold history.now
        (length history.now.objects) checked.stored) }
{
    let notice = Notice::new();
    let watcher = CheckWatcher::new(rt, history, options, &notice, &NoListener);
    let (checked, _witnesses) = check_each_watched(rt, history, options, gate, &watcher)?;
    Ok(checked)
}

/// Checks each object as `check_each` does, while a watcher is told how far that has come, and knows when the time is up: it began when
/// the check did. What is known then to let a reader see of an object that it has no order is told, too.
pub(crate) fn check_each_watched<
    'a,
    R: AllocGlobal + Threads + Clock + Sync,
    G: Gate,
    L: Listener + Sync,
>(
    rt: &R,
    history: &History,
    options: &Options,
    gate: &G,
    watcher: &'a CheckWatcher<'a, R, L>,
) -> Result<(CheckedEach, Vec<Option<Witness>>), CheckFault>
    requires { watcher.now.seconds ≡ options.now.seconds }
    ensures statuses { IfOk result (λ judged. AreStatusesOf history.now (bounds_of options.now)
        (length history.now.objects) judged.0.statuses.items) }
    ensures stored { IfOk result (λ judged. IsStoredTold history.now
        (length history.now.objects) judged.0.stored) }
    ensures witnesses { IfOk result (λ judged. AreWitnessesOf history.now judged.1.items) }
{
    let setting = Setting {
        rt,
        options: options_here(rt, options, gate),
        bounds: Bounds::new(options.limit(), watcher),
        gate,
        notice: watcher.notice(),
        explained: None,
    };
    let (checked, witnesses) = judge_each(&setting, history)?;
    if checked.statuses.as_slice().contains(&Status::Undecided) {
        watcher.end_of_all();
    }
    Ok((checked, witnesses))
}

// What is printed of an object by itself.
fn status_text(status: Status) -> &'static str
    ensures { result.now ≡ status_text status }
{
    match status {
        Status::Yes => "linearizable",
        Status::No => "not linearizable",
        Status::Undecided => "undecided",
        Status::Refused => "refused",
    }
}

/// Appends the line of the object of this index.
pub(crate) fn write_status(
    out: &mut String,
    history: &History,
    object: usize,
    status: Status,
) -> Result<(), AllocError>
    requires { object < length history.now.objects }
    ensures { OnOk result (string_bytes out.new ≡ string_bytes out.old
        ++ name_of history.now object ++ codes ": " ++ status_text status ++ codes "\n") }
{
    let name = history.object(object).name;
    let text = status_text(status);
    write!(out, "{name}: {text}\n")
}

// Appends the lines of the objects.
fn write_statuses(
    out: &mut String,
    history: &History,
    statuses: &[Status],
) -> Result<(), AllocError>
    requires { length statuses.now ≡ length history.now.objects }
    ensures { OnOk result (string_bytes out.new
        ≡ string_bytes out.old ++ status_lines history.now 0 statuses.now) }
{
    for (object, status) in statuses.iter().enumerate() {
        write_status(out, history, object, *status)?;
    }
    Ok(())
}

/// The lines of the objects of a history with these statuses, in the order of declaration: `x: not linearizable`. `AllocError`
/// where memory was refused.
///
/// Condition: there is a status for each object.
pub fn report_each(
    alloc: Global,
    history: &History,
    statuses: &[Status],
) -> Result<Vec<u8>, AllocError>
    requires { length statuses.now ≡ length history.now.objects }
    ensures { IfOk result (λ text. text.items ≡ status_lines history.now 0 statuses.now) }
{
    let mut out = String::new(alloc);
    write_statuses(&mut out, history, statuses)?;
    Ok(out.into_bytes())
}

// Whether an object is not linearizable.
fn has_no(statuses: &[Status]) -> bool
    ensures { result ≡ list_any is_no statuses.now }
{
    statuses.iter().any(|status| *status == Status::No)
}

// Whether an object is not decided.
fn has_undecided(statuses: &[Status]) -> bool
    ensures { result ≡ list_any is_undecided statuses.now }
{
    statuses.iter().any(|status| *status == Status::Undecided)
}

/// The status of objects together: `No` where one is not linearizable, else `Undecided` where one is not decided, else `Yes`.
pub(crate) fn status_of_all(statuses: &[Status]) -> Status
    ensures { result ≡ status_of_all statuses.now }
{
    if has_no(statuses) {
        Status::No
    } else if has_undecided(statuses) {
        Status::Undecided
    } else {
        Status::Yes
    }
}
