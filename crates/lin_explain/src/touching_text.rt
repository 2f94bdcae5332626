//! How the calls are shown that put or took what a call asks for, and the call since which a mutex is held.
ghost use Rattle.std.specs.Prelude.{◌≡◌, ◌++◌, slice_get, string_bytes, OnOk};
ghost use Rattle.std.specs.List.{list_any};
ghost use Rattle.lin_explain.specs.TouchingText.{line_of, recorded_text, place_text, about_line, about_line_of, did_text, is_in_run, is_put, touch_lines, no_pair_line, no_put_line, no_put_lines, more_line, touches_text, asked_text, held_text, holder_text, known_text, known_text_of};

use crate::call_text::push_number;
use crate::state_text::front;
use crate::touching::{Asked, Touch, Touching, asked_in, held_since, touches};
use lin_history::ProblemCall;
use lin_object::{ObjState, Op, Reply, push_op, push_reply};
use std::alloc::{AllocError, Global};

/// The most calls that are shown below one that could come next.
pub const MAX_TOUCHING: usize = 8;

/// A run that is shown: the calls on its object, the reply of each, the run, the state after it, and the line of the input on which
/// each event is: that of the event of number n has the index n - 1.
#[derive(Clone, Copy)]
pub struct ShownRun<'p> {
    /// The calls on the object.
    pub calls: &'p [ProblemCall<Op, Reply>],
    /// The reply that each call has in the run, or else the one that is recorded.
    pub replies: &'p [Option<Reply>],
    /// The numbers of the calls of the run.
    pub run: &'p [usize],
    /// The state after the run.
    pub state: &'p ObjState,
    /// The lines of the events.
    pub lines: &'p [u64],
}

// The line on which the event of this number is, where the numbers count from 1; 0 where none is known.
pub(crate) fn line_of(lines: &[u64], event: u32) -> u64
    ensures { result ≡ line_of lines.now event }
{
    lines
        .get(event.saturating_sub(1) as usize)
        .copied()
        .unwrap_or(0)
}

/// Appends what is recorded of a call: its reply, and the lines of its call and its return; of a pending call the line of its
/// call.
pub(crate) fn write_recorded(
    out: &mut String,
    lines: &[u64],
    called: u32,
    returned: &Option<(u32, Reply)>,
) -> Result<(), AllocError>
    ensures { OnOk result (string_bytes out.new
        ≡ string_bytes out.old ++ recorded_text lines.now called returned.now) }
{
    let called = line_of(lines, called);
    match returned {
        Some((number, reply)) => {
            out.push_str(" = ")?;
            push_reply(out, reply)?;
            out.push_str(" (lines ")?;
            push_number(out, called)?;
            out.push_str(" and ")?;
            push_number(out, line_of(lines, *number))?;
            out.push_str(")")
        }
        None => {
            out.push_str(" (line ")?;
            push_number(out, called)?;
            out.push_str(")")
        }
    }
}

// Whether a call is in the run, as words.
fn place_text(in_run: bool) -> &'static str
    ensures { result.now ≡ place_text in_run }
{
    if in_run {
        ", in the run\n"
    } else {
        ", not in the run\n"
    }
}

// Appends the line of a call that did this, and whether it is in the run.
fn write_about(
    out: &mut String,
    lines: &[u64],
    did: &str,
    call: &ProblemCall<Op, Reply>,
    in_run: bool,
) -> Result<(), AllocError>
    ensures { OnOk result (string_bytes out.new
        ≡ string_bytes out.old ++ about_line lines.now did.now in_run call.now) }
{
    out.push_str("  ")?;
    out.push_str(did)?;
    out.push_str(" by ")?;
    push_number(out, call.process as u64)?;
    out.push_str(": ")?;
    push_op(out, &call.op)?;
    write_recorded(out, lines, call.called, &call.returned)?;
    out.push_str(place_text(in_run))
}

// Whether the call is in the run.
fn is_in_run(run: &[usize], call: usize) -> bool
    ensures { result ≡ is_in_run run.now call }
{
    run.contains(&call)
}

// Appends the line of the call of this number, which did this.
fn write_about_call(
    out: &mut String,
    did: &str,
    shown: &ShownRun<'_>,
    number: usize,
) -> Result<(), AllocError>
    ensures { OnOk result (string_bytes out.new ≡ string_bytes out.old
        ++ about_line_of shown.now.lines.now did.now (is_in_run shown.now.run.now number)
        (slice_get shown.now.calls.now number)) }
{
    match shown.calls.get(number) {
        Some(call) => write_about(out, shown.lines, did, call, is_in_run(shown.run, number)),
        None => Ok(()),
    }
}

// What a call did, as a word.
fn did_text(touch: Touch) -> &'static str
    ensures { result.now ≡ did_text touch }
{
    match touch {
        Touch::Put => "put",
        Touch::Took => "taken",
    }
}

// Appends the lines of the calls that put or took something.
fn write_touch_lines(
    out: &mut String,
    shown: &ShownRun<'_>,
    found: &[Touching],
) -> Result<(), AllocError>
    ensures { OnOk result (string_bytes out.new
        ≡ string_bytes out.old ++ touch_lines shown.now.calls.now shown.now.run.now shown.now.lines.now found.now) }
{
    for one in found {
        write_about_call(out, did_text(one.touch), shown, one.call)?;
    }
    Ok(())
}

// Whether one of them put it.
fn has_put(found: &[Touching]) -> bool
    ensures { result ≡ list_any is_put found.now }
{
    found.iter().any(|one| one.touch == Touch::Put)
}

// Appends the line that says that no call put this value under this key.
fn write_no_pair(out: &mut String, key: i64, value: i64) -> Result<(), AllocError>
    ensures { OnOk result (string_bytes out.new ≡ string_bytes out.old ++ no_pair_line key value) }
{
    write!(out, "  no call put {key}: {value}\n")
}

// Appends the line that says that no call put what is asked for.
fn write_no_put(out: &mut String, asked: &Asked) -> Result<(), AllocError>
    ensures { OnOk result (string_bytes out.new ≡ string_bytes out.old ++ no_put_line asked.now) }
{
    match asked {
        Asked::Item(value) => write!(out, "  no call put {value}\n"),
        Asked::Value(value) => write!(out, "  no call put {value}\n"),
        Asked::Member(value) => write!(out, "  no call put {value}\n"),
        Asked::Entry(key, value) => write_no_pair(out, *key, *value),
    }
}

// Appends that line, where none of these put it.
fn write_unless_put(out: &mut String, asked: Asked, found: &[Touching]) -> Result<(), AllocError>
    ensures { OnOk result (string_bytes out.new
        ≡ string_bytes out.old ++ no_put_lines asked found.now) }
{
    if has_put(found) {
        return Ok(());
    }
    write_no_put(out, &asked)
}

// Appends how many of so many calls are not shown, where there are any.
fn write_more_line(out: &mut String, count: usize) -> Result<(), AllocError>
    ensures { OnOk result (string_bytes out.new ≡ string_bytes out.old ++ more_line count) }
{
    if count <= MAX_TOUCHING {
        return Ok(());
    }
    let more = count - MAX_TOUCHING;
    write!(out, "  .. and {more} more\n")
}

// Appends what is known of the value that is asked for: whether no call put it, the first calls that put or took it, and how
// many more did.
fn write_touches(
    out: &mut String,
    shown: &ShownRun<'_>,
    asked: Asked,
    found: &[Touching],
) -> Result<(), AllocError>
    ensures { OnOk result (string_bytes out.new
        ≡ string_bytes out.old ++ touches_text shown.now.calls.now shown.now.run.now shown.now.lines.now asked found.now) }
{
    write_unless_put(out, asked, found)?;
    write_touch_lines(out, shown, front(found, MAX_TOUCHING))?;
    write_more_line(out, found.len())
}

// Appends what is known of the value that call `asker` asks for; nothing where it asks for none.
fn write_asked(
    alloc: Global,
    out: &mut String,
    shown: &ShownRun<'_>,
    asker: usize,
    asked: Option<Asked>,
) -> Result<(), AllocError>
    ensures { OnOk result (string_bytes out.new
        ≡ string_bytes out.old ++ asked_text shown.now.calls.now shown.now.replies.now shown.now.run.now shown.now.lines.now asker asked) }
{
    let Some(asked) = asked else {
        return Ok(());
    };
    let found = touches(alloc, shown.calls, shown.replies, asked, asker)?;
    write_touches(out, shown, asked, found.as_slice())
}

// Appends the line of the call since which a mutex is held after the run; nothing where it is free.
fn write_held(out: &mut String, shown: &ShownRun<'_>) -> Result<(), AllocError>
    ensures { OnOk result (string_bytes out.new
        ≡ string_bytes out.old ++ held_text shown.now.calls.now shown.now.run.now shown.now.lines.now) }
{
    match held_since(shown.calls, shown.run) {
        Some(number) => write_about_call(out, "held", shown, number),
        None => Ok(()),
    }
}

// The same below an operation of a mutex; nothing below others.
fn write_holder(out: &mut String, shown: &ShownRun<'_>, op: &Op) -> Result<(), AllocError>
    ensures { OnOk result (string_bytes out.new
        ≡ string_bytes out.old ++ holder_text shown.now.calls.now shown.now.run.now shown.now.lines.now op.now) }
{
    match op {
        Op::Lock | Op::Unlock | Op::TryLock => write_held(out, shown),
        _ => Ok(()),
    }
}

// Appends what is known of a call that has this number and could come next after the run: which calls put or took the value
// that it asks for or should have found, or since which call the mutex is held.
fn write_known(
    alloc: Global,
    out: &mut String,
    shown: &ShownRun<'_>,
    number: usize,
    call: &ProblemCall<Op, Reply>,
) -> Result<(), AllocError>
    ensures { OnOk result (string_bytes out.new
        ≡ string_bytes out.old ++ known_text shown.now.calls.now shown.now.replies.now shown.now.run.now
        shown.now.lines.now shown.now.state.now number call.now) }
{
    let asked = asked_in(shown.state, &call.op, &call.returned);
    write_asked(alloc, out, shown, number, asked)?;
    write_holder(out, shown, &call.op)
}

/// Appends what is known of the call of this number, where it is a call.
pub(crate) fn write_known_of(
    alloc: Global,
    out: &mut String,
    shown: &ShownRun<'_>,
    number: usize,
) -> Result<(), AllocError>
    ensures { OnOk result (string_bytes out.new ≡ string_bytes out.old
        ++ known_text_of shown.now.calls.now shown.now.replies.now shown.now.run.now shown.now.lines.now shown.now.state.now
        number (slice_get shown.now.calls.now number)) }
{
    match shown.calls.get(number) {
        Some(call) => write_known(alloc, out, shown, number, call),
        None => Ok(()),
    }
}
