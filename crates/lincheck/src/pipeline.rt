//! The way from the bytes of a text to the bytes of its answer.

ghost use Rattle.std.specs.Prelude.{◌≡◌, ◌≢◌, ◌≤◌, ◌||◌, ℕ, List, false, length, option_map, take, is_err, OnOk, OnErr, IfOk, IfErr, IfSome};
ghost use Rattle.std.specs.Result.{result_map_both};
ghost use Rattle.std.specs.Io.KnownBytes.{Appends};
ghost use Rattle.lin_text.specs.Text.{MeansHistory};
ghost use Rattle.lin_text.specs.Words.{fault_line};
ghost use Rattle.lincheck.specs.Prints.{Prints, PrintsEach, PrintsWith, status_of};
ghost use Rattle.lincheck.specs.Ran.{is_read, is_write, is_fault, RanFrom};
ghost use Rattle.lincheck.specs.Reading.{IsReadOf, TakesAtMost};
ghost use Rattle.lincheck.specs.Sound.{IsSoundRun};

use crate::answer_form::AnswerForm;
use crate::check_watcher::CheckWatcher;
use crate::device::{DeviceFault, Sink, Source};
use crate::each::{check_each_watched, status_of_all};
use crate::each_explained::report_each_explained;
use crate::explanation_lines::report_explained;
use crate::fault::RunFault;
use crate::judgement::check_watched;
use crate::lines::with_stats;
use crate::listener::{Listener, NoListener};
use crate::notice::Notice;
use crate::status::Status;
use crate::verdict::Verdict;
use lin_history::{History, locality_law};
use lin_text::{
    Cause, MAX_INPUT_BYTES, TextFault, read_history, read_history_and_lines, write_cause,
};
use lin_workers::{Bounds, FreeGate, Options, UntilUp};
use std::alloc::{AllocError, Global};
use std::thread::Threads;
use std::time::Clock;

// The most bytes of a text, and one more: where there are so many, the text is too long and is read no further.
const ENOUGH: usize = MAX_INPUT_BYTES + 1;

// How many bytes one read asks for.
const PIECE: usize = 65536;

// Reads the source to its end, or until `ENOUGH` bytes are there, in at most so many reads.
fn read_text<S: Source>(alloc: Global, source: &mut S) -> Result<Vec<u8>, RunFault>
    requires { S.failed source.old ≡ false }
    ensures text { IfOk result (λ read. IfSome (S.remaining source.old)
        (λ text. IsReadOf text read.items)) }
    ensures size { IfOk result (λ read. length read.items ≤ ENOUGH) }
    ensures taken { TakesAtMost ENOUGH (S.remaining source.old) (S.remaining source.new) }
    ensures fault { IfErr result (λ fault. fault ≢ RunFault.Write) }
    ensures failed { S.failed source.new ≡ is_fault is_read result }
{
    let mut piece = [0u8; PIECE];
    let mut text = Vec::new(alloc);
    'pieces: while text.len() < ENOUGH {
        let room = PIECE.min(ENOUGH - text.len());
        let Ok(count) = source.read(&mut piece[..room]) else {
            return Err(RunFault::Read);
        };
        if count == 0 {
            return Ok(text);
        }
        if text.extend_from_slice(&piece[..count]).is_err() {
            return Err(RunFault::Memory);
        }
    }
    Ok(text)
}

// The answer to a text that is no history. The listener is told once it is made.
fn refused<L: Listener>(
    alloc: Global,
    text: &[u8],
    fault: &TextFault,
    listener: &L,
) -> Result<(Status, Vec<u8>), AllocError>
    ensures { IfOk result (λ answer. (fault.now.cause ≢ Cause.OutOfMemory)
        × (answer.0 ≡ Status.Refused) × (answer.1.items ≡ fault_line fault.now)) }
{
    if fault.cause == Cause::OutOfMemory {
        return Err(AllocError);
    }
    let mut printed = Vec::new(alloc);
    write_cause(alloc, fault, &mut printed)?;
    listener.refuse(text, fault);
    Ok((Status::Refused, printed))
}

// The status that shows the verdict.
fn status_of(verdict: &Verdict) -> Status
    ensures { result ≡ status_of verdict.now }
{
    match verdict {
        Verdict::Yes(_) => Status::Yes,
        Verdict::No { .. } => Status::No,
        Verdict::NoInTime { .. } => Status::No,
        Verdict::Undecided { .. } => Status::Undecided,
    }
}

// Tells the listener of a history without calls.
fn tell_if_empty<L: Listener>(history: &History, listener: &L) {
    if history.call_count() == 0 {
        listener.find_no_calls();
    }
}

// What a history is answered: the status, and what is printed, with what explains it where the lines of the events are given.
fn verdict_printed<R: AllocGlobal + Threads + Clock + Sync, L: Listener + Sync>(
    rt: &R,
    history: &History,
    options: &Options,
    lines: Option<&[u64]>,
    listener: &L,
) -> Result<(Status, Vec<u8>), AllocError>
    ensures { IfOk result (λ answer. (text : List ℕ) → MeansHistory text history.now
        → PrintsWith options.now (option_map (λ l. l.now) lines.entry) history.now answer.0
        answer.1.items) }
{
    let notice = Notice::new();
    let watcher = CheckWatcher::new(rt, history, options, &notice, listener);
    let Ok((checked, known)) = check_watched(rt, history, options, &FreeGate, lines, &watcher)
    else {
        return Err(AllocError);
    };
    watcher.begin_to_explain();
    let mut stop = UntilUp::new(&Bounds::new(None, &watcher));
    let verdict = &checked.verdict;
    let explained = report_explained(rt.alloc(), history, verdict, known, lines, &mut stop)?;
    let printed = with_stats(rt.alloc(), explained, options.stats(), checked.stored)?;
    tell_if_empty(history, listener);
    Ok((status_of(&checked.verdict), printed))
}

// What a text is answered by a report: the status, and what is printed.
fn answer_by_report<R: AllocGlobal + Threads + Clock + Sync, L: Listener + Sync>(
    rt: &R,
    text: Vec<u8>,
    options: &Options,
    listener: &L,
) -> Result<(Status, Vec<u8>), AllocError>
    ensures { IfOk result (λ answer. Prints options.now AnswerForm.Report text.items answer.0
        answer.1.items) }
{
    match read_history(rt.alloc(), text.as_slice()) {
        Ok(history) => {
            drop(text);
            verdict_printed(rt, &history, options, None, listener)
        }
        Err(fault) => refused(rt.alloc(), text.as_slice(), &fault, listener),
    }
}

// The same with why the longest run ends.
fn answer_explained<R: AllocGlobal + Threads + Clock + Sync, L: Listener + Sync>(
    rt: &R,
    text: Vec<u8>,
    options: &Options,
    listener: &L,
) -> Result<(Status, Vec<u8>), AllocError>
    ensures { IfOk result (λ answer. Prints options.now AnswerForm.Explained text.items answer.0
        answer.1.items) }
{
    match read_history_and_lines(rt.alloc(), text.as_slice()) {
        Ok((history, lines)) => {
            drop(text);
            verdict_printed(rt, &history, options, Some(lines.as_slice()), listener)
        }
        Err(fault) => refused(rt.alloc(), text.as_slice(), &fault, listener),
    }
}

// What a history is answered with a line for each object: the status, and what is printed, with cores where the lines of the events
// are given.
fn each_printed<R: AllocGlobal + Threads + Clock + Sync, L: Listener + Sync>(
    rt: &R,
    history: &History,
    options: &Options,
    lines: Option<&[u64]>,
    listener: &L,
) -> Result<(Status, Vec<u8>), AllocError>
    ensures { IfOk result (λ answer. (text : List ℕ) → MeansHistory text history.now
        → PrintsEach options.now (option_map (λ l. l.now) lines.entry) history.now answer.0
        answer.1.items) }
{
    let notice = Notice::new();
    let watcher = CheckWatcher::new(rt, history, options, &notice, listener);
    let Ok((checked, witnesses)) = check_each_watched(rt, history, options, &FreeGate, &watcher)
    else {
        return Err(AllocError);
    };
    let statuses = checked.statuses.as_slice();
    watcher.begin_to_explain();
    let mut stop = UntilUp::new(&Bounds::new(None, &watcher));
    let told = report_each_explained(rt.alloc(), history, statuses, witnesses, lines, &mut stop)?;
    let printed = with_stats(rt.alloc(), told, options.stats(), checked.stored)?;
    tell_if_empty(history, listener);
    Ok((status_of_all(statuses), printed))
}

// What a text is answered with a line for each object.
fn answer_each<R: AllocGlobal + Threads + Clock + Sync, L: Listener + Sync>(
    rt: &R,
    text: Vec<u8>,
    options: &Options,
    listener: &L,
) -> Result<(Status, Vec<u8>), AllocError>
    ensures { IfOk result (λ answer. Prints options.now AnswerForm.Each text.items answer.0
        answer.1.items) }
{
    match read_history(rt.alloc(), text.as_slice()) {
        Ok(history) => {
            drop(text);
            each_printed(rt, &history, options, None, listener)
        }
        Err(fault) => refused(rt.alloc(), text.as_slice(), &fault, listener),
    }
}

// The same with cores.
fn answer_each_explained<R: AllocGlobal + Threads + Clock + Sync, L: Listener + Sync>(
    rt: &R,
    text: Vec<u8>,
    options: &Options,
    listener: &L,
) -> Result<(Status, Vec<u8>), AllocError>
    ensures { IfOk result (λ answer. Prints options.now AnswerForm.EachExplained text.items answer.0
        answer.1.items) }
{
    match read_history_and_lines(rt.alloc(), text.as_slice()) {
        Ok((history, lines)) => {
            drop(text);
            each_printed(rt, &history, options, Some(lines.as_slice()), listener)
        }
        Err(fault) => refused(rt.alloc(), text.as_slice(), &fault, listener),
    }
}

// What a text is answered in this form: the status, and what is printed.
fn answer<R: AllocGlobal + Threads + Clock + Sync, L: Listener + Sync>(
    rt: &R,
    text: Vec<u8>,
    options: &Options,
    form: AnswerForm,
    listener: &L,
) -> Result<(Status, Vec<u8>), AllocError>
    ensures { IfOk result (λ answer. Prints options.now form text.items answer.0 answer.1.items) }
{
    match form {
        AnswerForm::Report => answer_by_report(rt, text, options, listener),
        AnswerForm::Explained => answer_explained(rt, text, options, listener),
        AnswerForm::Each => answer_each(rt, text, options, listener),
        AnswerForm::EachExplained => answer_each_explained(rt, text, options, listener),
    }
}

// Writes the whole answer, and then flushes once. After an `Err` a prefix of it is written.
fn write_answer<W: Sink>(sink: &mut W, answer: &[u8]) -> Result<(), DeviceFault>
    ensures ok { OnOk result (Appends (W.contents sink.old) (W.contents sink.new) answer.now) }
    ensures failed { W.failed sink.new ≡ (W.failed sink.old || is_err result) }
    ensures prefix { OnErr result ((n : ℕ)
        × Appends (W.contents sink.old) (W.contents sink.new) (take n answer.now)) }
{
    let mut rest = answer;
    'pieces: while !rest.is_empty() {
        let count = sink.write(rest)?;
        rest = &rest[count..];
    }
    sink.flush()
}

// How a run ends whose answer was written so.
fn ended(status: Status, written: Result<(), DeviceFault>) -> Result<Status, RunFault>
    ensures { result ≡ result_map_both (λ done. status) (λ fault. RunFault.Write) written }
{
    match written {
        Ok(()) => Ok(status),
        Err(_) => Err(RunFault::Write),
    }
}

/// Does what `run`, `run_explained` or `run_each` does, as this form says, or what `run_each` does and tells behind each object that is
/// not linearizable a few calls that alone have no order, where such are found; while a listener is told how far the check has come, what
/// was left undecided, and which text is refused. What is written is the same.
/// Conditions, faults and what is left after them are those of `run`.
pub fn run_with<R: AllocGlobal + Threads + Clock + Sync, S: Source, W: Sink, L: Listener + Sync>(
    rt: &R,
    source: &mut S,
    sink: &mut W,
    options: &Options,
    form: AnswerForm,
    listener: &L,
) -> Result<Status, RunFault>
    requires source { S.failed source.old ≡ false }
    requires sink { W.failed sink.old ≡ false }
    ensures ran { RanFrom options.now form (S.remaining source.old) (W.contents sink.old)
        (W.contents sink.new) result }
    ensures sound { IsSoundRun form options.now.stats (S.remaining source.old)
        (W.contents sink.old) (W.contents sink.new) result }
    ensures taken { TakesAtMost ENOUGH (S.remaining source.old) (S.remaining source.new) }
    ensures source { S.failed source.new ≡ is_fault is_read result }
    ensures sink { W.failed sink.new ≡ is_fault is_write result }
{
    locality_law();
    let text = match read_text(rt.alloc(), source) {
        Ok(text) => text,
        Err(fault) => return Err(fault),
    };
    let Ok((status, answer)) = answer(rt, text, options, form, listener) else {
        return Err(RunFault::Memory);
    };
    let written = write_answer(sink, answer.as_slice());
    ended(status, written)
}

/// Reads a text from the source, checks it and writes the report to the sink.
///
/// The text is read whole, or until it is too long: at most 67,108,865 bytes are taken. Then the whole answer is made, and then it is written and flushed
/// once. Faults: `Read` where the source failed, `Memory` where memory was refused; nothing was written then. `Write`
/// where the sink failed; a prefix of the answer was written.
///
/// In short (`sound`): at `Yes` the text means a history and what is written is the report of a linearization of it; at `No` it
/// means one that has none. Within a limit or a time the answer may be `Undecided`. It may wait, for its workers.
///
/// Condition: neither device has failed. Afterwards the source has failed exactly at `Read`, and the sink exactly at
/// `Write`.
pub fn run<R: AllocGlobal + Threads + Clock + Sync, S: Source, W: Sink>(
    rt: &R,
    source: &mut S,
    sink: &mut W,
    options: &Options,
) -> Result<Status, RunFault>
    requires source { S.failed source.old ≡ false }
    requires sink { W.failed sink.old ≡ false }
    ensures ran { RanFrom options.now AnswerForm.Report (S.remaining source.old)
        (W.contents sink.old) (W.contents sink.new) result }
    ensures sound { IsSoundRun AnswerForm.Report options.now.stats (S.remaining source.old)
        (W.contents sink.old) (W.contents sink.new) result }
    ensures taken { TakesAtMost ENOUGH (S.remaining source.old) (S.remaining source.new) }
    ensures source { S.failed source.new ≡ is_fault is_read result }
    ensures sink { W.failed sink.new ≡ is_fault is_write result }
{
    run_with(rt, source, sink, options, AnswerForm::Report, &NoListener)
}

/// Does what `run` does, and shows of a history that is not linearizable a few calls that alone have no order, where such are found,
/// and why the longest run ends: its last calls, the state after it, and each call that could come next with what it would answer
/// there. Each call is shown with the lines of the text on which it is.
/// Conditions, faults and what is left after them are those of `run`.
pub fn run_explained<R: AllocGlobal + Threads + Clock + Sync, S: Source, W: Sink>(
    rt: &R,
    source: &mut S,
    sink: &mut W,
    options: &Options,
) -> Result<Status, RunFault>
    requires source { S.failed source.old ≡ false }
    requires sink { W.failed sink.old ≡ false }
    ensures ran { RanFrom options.now AnswerForm.Explained (S.remaining source.old)
        (W.contents sink.old) (W.contents sink.new) result }
    ensures sound { IsSoundRun AnswerForm.Explained options.now.stats (S.remaining source.old)
        (W.contents sink.old) (W.contents sink.new) result }
    ensures taken { TakesAtMost ENOUGH (S.remaining source.old) (S.remaining source.new) }
    ensures source { S.failed source.new ≡ is_fault is_read result }
    ensures sink { W.failed sink.new ≡ is_fault is_write result }
{
    run_with(
        rt,
        source,
        sink,
        options,
        AnswerForm::Explained,
        &NoListener,
    )
}

/// Does what `run` does, but prints a line for each object in the order of declaration, in place of the report: `x: linearizable`,
/// `x: not linearizable` or `x: undecided`. Each object is searched, also after one that is not linearizable or not decided. The
/// status is `No` where an object is not linearizable, else `Undecided` where one is not decided, else `Yes`; at `Yes` the whole
/// history has a linearization. Conditions, faults and what is left after them are those of `run`.
pub fn run_each<R: AllocGlobal + Threads + Clock + Sync, S: Source, W: Sink>(
    rt: &R,
    source: &mut S,
    sink: &mut W,
    options: &Options,
) -> Result<Status, RunFault>
    requires source { S.failed source.old ≡ false }
    requires sink { W.failed sink.old ≡ false }
    ensures ran { RanFrom options.now AnswerForm.Each (S.remaining source.old)
        (W.contents sink.old) (W.contents sink.new) result }
    ensures sound { IsSoundRun AnswerForm.Each options.now.stats (S.remaining source.old)
        (W.contents sink.old) (W.contents sink.new) result }
    ensures taken { TakesAtMost ENOUGH (S.remaining source.old) (S.remaining source.new) }
    ensures source { S.failed source.new ≡ is_fault is_read result }
    ensures sink { W.failed sink.new ≡ is_fault is_write result }
{
    run_with(rt, source, sink, options, AnswerForm::Each, &NoListener)
}
