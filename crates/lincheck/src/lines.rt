//! The lines of an answer.

ghost use Rattle.std.specs.Prelude.{◌≡◌, ℕ, ◌+◌, ◌<◌, ◌++◌, codes, drop, length, slice_get, slice_index_or, vec_len, string_bytes, false, IfOk, OnOk, Some};
ghost use Rattle.lin_object.specs.declared.op.Op.{Op};
ghost use Rattle.lin_object.specs.declared.reply.Reply.{Reply};
ghost use Rattle.lin_history.specs.Recorder.Events.{Call};
ghost use Rattle.lin_history.specs.Recorder.RecordedHistory.{calls_on};
ghost use Rattle.lincheck.specs.Report.{mark_of, call_line, call_lines, call_word, before_line, last_lines, dropped_line, dropped_lines, is_placed, name_line, length_line, yes_report, not_found_line, no_report, no_report_in_time, undecided_report, stored_line, with_stats};
ghost use Rattle.lin_history.specs.Locality.RecordedWhole.{whole_of};
ghost use Rattle.lin_history.specs.Verifier.Flags.{AreKnown};
ghost use Rattle.lincheck.specs.Verdict.{IsOf, report_of};

use crate::verdict::Verdict;
use lin_explain::{push_call, push_number};
use lin_history::{History, Placed};
use lin_object::{Reply, push_reply};
use std::alloc::{AllocError, Global};

/// The most calls of a longest run that are listed where it is told why it ends: that is in its last calls, and an answer should fit
/// on a screen.
pub(crate) const MAX_LISTED: usize = 16;

// Appends a text.
fn write_text(out: &mut String, text: &str) -> Result<(), AllocError>
    ensures { OnOk result (string_bytes out.new ≡ string_bytes out.old ++ text.now) }
{
    out.push_str(text)
}

// Appends a space.
fn write_space(out: &mut String) -> Result<(), AllocError>
    ensures { OnOk result (string_bytes out.new ≡ string_bytes out.old ++ codes " ") }
{
    out.push(' ')
}

// How the line of a call in an order ends: with what says that the call is pending in the history.
fn end_of(returned: &Option<(u32, Reply)>) -> &'static str
    ensures { result.now ≡ mark_of returned.now ++ codes "\n" }
{
    if returned.is_some() {
        "\n"
    } else {
        " completed\n"
    }
}

// Appends the line of a call that is in an order at this place.
fn write_call(
    out: &mut String,
    history: &History,
    place: usize,
    placed: &Placed,
) -> Result<(), AllocError>
    requires { placed.now.call < length history.now.calls }
    ensures { OnOk result (string_bytes out.new
        ≡ string_bytes out.old ++ call_line history.now place placed.now.reply
        (slice_get history.now.calls placed.now.call)) }
{
    let call = history.call(placed.call);
    let object = history.object(call.object as usize);
    push_number(out, place as u64)?;
    write_space(out)?;
    push_call(out, call.process, object.name, &call.op)?;
    write_text(out, " = ")?;
    push_reply(out, &placed.reply)?;
    write_text(out, end_of(&call.returned))
}

// Appends the line of a call that is not in the order.
fn write_dropped(out: &mut String, history: &History, index: usize) -> Result<(), AllocError>
    requires { index < length history.now.calls }
    ensures { OnOk result ((c : Call Op Reply) → slice_get history.now.calls index ≡ Some c
        → string_bytes out.new ≡ string_bytes out.old ++ dropped_line history.now c) }
{
    let call = history.call(index);
    let object = history.object(call.object as usize);
    write_text(out, "dropped ")?;
    push_call(out, call.process, object.name, &call.op)?;
    write_text(out, "\n")
}

// Appends the lines of the calls of an order, but for so many at its begin.
fn write_calls(
    out: &mut String,
    history: &History,
    order: &[Placed],
    before: usize,
) -> Result<(), AllocError>
    requires { AreKnown (whole_of history.now) order.now }
    ensures { OnOk result (string_bytes out.new
        ≡ string_bytes out.old ++ call_lines history.now (before + 1) (drop before order.now)) }
{
    for index in before..order.len() {
        write_call(out, history, index + 1, &order[index])?;
    }
    Ok(())
}

// The word for one call, or for more.
fn call_word(count: usize) -> &'static str
    ensures { result.now ≡ call_word count }
{
    if count == 1 { "call" } else { "calls" }
}

// Appends how many of so many calls come before the last ones, where there are any.
fn write_before(out: &mut String, count: usize) -> Result<(), AllocError>
    ensures { OnOk result (string_bytes out.new ≡ string_bytes out.old ++ before_line count) }
{
    if count <= MAX_LISTED {
        return Ok(());
    }
    let before = count - MAX_LISTED;
    let word = call_word(before);
    write!(out, ".. {before} {word} before\n")
}

/// Appends the lines of the last calls of a run, and above them how many come before them.
pub(crate) fn write_last_calls(
    out: &mut String,
    history: &History,
    run: &[Placed],
) -> Result<(), AllocError>
    requires { AreKnown (whole_of history.now) run.now }
    ensures { OnOk result (string_bytes out.new
        ≡ string_bytes out.old ++ last_lines history.now run.now) }
{
    write_before(out, run.len())?;
    write_calls(out, history, run, run.len().saturating_sub(MAX_LISTED))
}

// For each call whether it is in the order.
fn placed_flags(alloc: Global, history: &History, order: &[Placed]) -> Result<Vec<bool>, AllocError>
    requires { AreKnown (whole_of history.now) order.now }
    ensures count { IfOk result (λ flags. vec_len flags ≡ length history.now.calls) }
    ensures flags { IfOk result (λ flags. (a : ℕ) → a < length history.now.calls
        → slice_index_or flags.items a false ≡ is_placed order.now a) }
{
    let mut flags = vec![in alloc; false; history.call_count()]?;
    for placed in order {
        flags[placed.call] = true;
    }
    Ok(flags)
}

// Appends the lines of the calls that are not in the order.
fn write_drops(
    alloc: Global,
    out: &mut String,
    history: &History,
    order: &[Placed],
) -> Result<(), AllocError>
    requires { AreKnown (whole_of history.now) order.now }
    ensures { OnOk result (string_bytes out.new
        ≡ string_bytes out.old ++ dropped_lines history.now order.now 0 history.now.calls) }
{
    let flags = placed_flags(alloc, history, order)?;
    for index in 0..history.call_count() {
        if !flags[index] {
            write_dropped(out, history, index)?;
        }
    }
    Ok(())
}

// Appends the report of a linearization.
fn write_yes(
    alloc: Global,
    out: &mut String,
    history: &History,
    order: &[Placed],
) -> Result<(), AllocError>
    requires { AreKnown (whole_of history.now) order.now }
    ensures { OnOk result (string_bytes out.new
        ≡ string_bytes out.old ++ yes_report history.now order.now) }
{
    out.push_str("linearizable\n")?;
    write_calls(out, history, order, 0)?;
    write_drops(alloc, out, history, order)
}

// How many calls of the history are on the object.
fn calls_on(history: &History, object: usize) -> usize
    ensures { result ≡ length (calls_on history.now object) }
{
    let mut count = 0;
    for index in 0..history.call_count() {
        if history.call(index).object as usize == object {
            count += 1;
        }
    }
    count
}

/// Appends the line that names an object without a linearization.
pub(crate) fn write_name(
    out: &mut String,
    history: &History,
    object: usize,
) -> Result<(), AllocError>
    requires { object < length history.now.objects }
    ensures { OnOk result (string_bytes out.new
        ≡ string_bytes out.old ++ name_line history.now object) }
{
    let name = history.object(object).name;
    write!(out, "not linearizable: {name}\n")
}

/// Appends the line that says the length of a run of the object.
pub(crate) fn write_length(
    out: &mut String,
    history: &History,
    object: usize,
    run: &[Placed],
) -> Result<(), AllocError>
    ensures { OnOk result (string_bytes out.new
        ≡ string_bytes out.old ++ length_line history.now object run.now) }
{
    let length = run.len();
    let calls = calls_on(history, object);
    write!(out, "longest run: {length} of {calls} calls\n")
}

// Appends the report of an object that has no linearization, and this longest run.
fn write_no(
    out: &mut String,
    history: &History,
    object: usize,
    run: &[Placed],
) -> Result<(), AllocError>
    requires object { object < length history.now.objects }
    requires run { AreKnown (whole_of history.now) run.now }
    ensures { OnOk result (string_bytes out.new
        ≡ string_bytes out.old ++ no_report history.now object run.now) }
{
    write_name(out, history, object)?;
    write_length(out, history, object, run)?;
    write_calls(out, history, run, 0)
}

/// Appends the line that says that the longest run was not found in time.
pub(crate) fn write_not_found(out: &mut String) -> Result<(), AllocError>
    ensures { OnOk result (string_bytes out.new ≡ string_bytes out.old ++ not_found_line) }
{
    out.push_str("longest run: not found in time\n")
}

// Appends the report of an object that has no linearization, whose longest run was not found in time.
fn write_no_in_time(out: &mut String, history: &History, object: usize) -> Result<(), AllocError>
    requires { object < length history.now.objects }
    ensures { OnOk result (string_bytes out.new
        ≡ string_bytes out.old ++ no_report_in_time history.now object) }
{
    write_name(out, history, object)?;
    write_not_found(out)
}

// Appends the report of an object that is not decided.
fn write_undecided(out: &mut String, history: &History, object: usize) -> Result<(), AllocError>
    requires { object < length history.now.objects }
    ensures { OnOk result (string_bytes out.new
        ≡ string_bytes out.old ++ undecided_report history.now object) }
{
    let name = history.object(object).name;
    write!(out, "undecided: {name}\n")
}

// The line that shows how many configurations were stored.
fn write_stored(out: &mut String, stored: Option<u64>) -> Result<(), AllocError>
    ensures { OnOk result (string_bytes out.new ≡ string_bytes out.old ++ stored_line stored) }
{
    match stored {
        Some(stored) => write!(out, "stored {stored}\n"),
        None => write!(out, "stored unknown\n"),
    }
}

// The report, with the line of statistics after it where that is asked for.
pub(crate) fn with_stats(
    alloc: Global,
    mut report: Vec<u8>,
    stats: bool,
    stored: Option<u64>,
) -> Result<Vec<u8>, AllocError>
    ensures { IfOk result (λ printed. printed.items ≡ with_stats stats stored report.items) }
{
    if stats {
        let mut line = String::new(alloc);
        write_stored(&mut line, stored)?;
        report.extend_from_slice(line.as_bytes())?;
    }
    Ok(report)
}

/// The report of a verdict on a history. `AllocError` where memory was refused.
///
/// Condition: the calls and the object that the verdict names are those of the history.
pub fn report(alloc: Global, history: &History, verdict: &Verdict) -> Result<Vec<u8>, AllocError>
    requires { IsOf history.now verdict.now }
    ensures { IfOk result (λ text. text.items ≡ report_of history.now verdict.now) }
{
    let mut out = String::new(alloc);
    match verdict {
        Verdict::Yes(order) => write_yes(alloc, &mut out, history, order.placed())?,
        Verdict::No { object, run } => write_no(&mut out, history, *object, run.as_slice())?,
        Verdict::NoInTime { object } => write_no_in_time(&mut out, history, *object)?,
        Verdict::Undecided { object } => write_undecided(&mut out, history, *object)?,
    }
    Ok(out.into_bytes())
}
