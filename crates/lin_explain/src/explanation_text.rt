//! How an explanation is shown: a line of the state, and a line of each call that could come next.
ghost use Rattle.std.specs.Prelude.{◌≡◌, ◌++◌, [], slice_get, string_bytes, IfOk, OnOk};
ghost use Rattle.lin_explain.specs.ExplanationText.{key_of, with_key, with_asked, keys_with, answer_text, state_line, next_line, next_line_of, lines_of, next_lines, explanation_text};

use crate::call_text::push_call;
use crate::explanation::NextCall;
use crate::state_text::{items_in, write_state};
use crate::touching_text::{ShownRun, write_known_of, write_recorded};
use lin_history::ProblemCall;
use lin_object::{Items, ObjState, Op, Reply};
use std::alloc::{AllocError, Global};

/// The key that an operation on a map asks for; none of another kind's operations.
pub(crate) fn key_of(op: &Op) -> Option<i64>
    ensures { result ≡ key_of op.now }
{
    match op {
        Op::Put(key, _) | Op::Lookup(key) | Op::Delete(key) => Some(*key),
        _ => None,
    }
}

// The keys in increasing order, with this one where it is not among them.
fn with_key(alloc: Global, keys: Items, key: Option<i64>) -> Result<Items, AllocError>
    ensures { IfOk result (λ more. more ≡ with_key keys key) }
{
    match key {
        Some(key) if !keys.has(key) => keys.with_in_order(alloc, key),
        _ => Ok(keys),
    }
}

// The keys, with that of the call of this number, where there is one.
fn with_asked(
    alloc: Global,
    calls: &[ProblemCall<Op, Reply>],
    keys: Items,
    call: usize,
) -> Result<Items, AllocError>
    ensures { IfOk result (λ more. more ≡ with_asked keys (slice_get calls.now call)) }
{
    match calls.get(call) {
        Some(call) => with_key(alloc, keys, key_of(&call.op)),
        None => Ok(keys),
    }
}

// The keys that the next calls ask for, in increasing order.
fn asked_keys(
    alloc: Global,
    calls: &[ProblemCall<Op, Reply>],
    next: &[NextCall],
) -> Result<Vec<i64>, AllocError>
    ensures { IfOk result (λ keys. keys.items ≡ keys_with calls.now [] next.now) }
{
    let mut keys = Items::none(alloc);
    for one in next {
        keys = with_asked(alloc, calls, keys, one.call)?;
    }
    items_in(alloc, &keys)
}

// Appends the line of the state.
fn write_state_line(
    alloc: Global,
    out: &mut String,
    name: &str,
    keys: &[i64],
    state: &ObjState,
) -> Result<(), AllocError>
    ensures { OnOk result (string_bytes out.new
        ≡ string_bytes out.old ++ state_line name.now keys.now state.now) }
{
    write!(out, "after the run: {name} = ")?;
    write_state(alloc, out, keys, state)?;
    out.push_str("\n")
}

// Appends what a call would answer.
fn write_answer(out: &mut String, answer: Option<Reply>) -> Result<(), AllocError>
    ensures { OnOk result (string_bytes out.new ≡ string_bytes out.old ++ answer_text answer) }
{
    match answer {
        Some(reply) => write!(out, ": here it would be {reply}\n"),
        None => out.push_str(": it cannot be done here\n"),
    }
}

// Appends the line of a call that could come next.
fn write_next(
    out: &mut String,
    name: &str,
    lines: &[u64],
    call: &ProblemCall<Op, Reply>,
    answer: Option<Reply>,
) -> Result<(), AllocError>
    ensures { OnOk result (string_bytes out.new
        ≡ string_bytes out.old ++ next_line name.now lines.now call.now answer) }
{
    out.push_str("next ")?;
    push_call(out, call.process, name, &call.op)?;
    write_recorded(out, lines, call.called, &call.returned)?;
    write_answer(out, answer)
}

// Appends the line of this call, where it is a call.
fn write_next_of(
    out: &mut String,
    name: &str,
    shown: &ShownRun<'_>,
    next: &NextCall,
) -> Result<(), AllocError>
    ensures { OnOk result (string_bytes out.new ≡ string_bytes out.old
        ++ next_line_of name.now shown.now.lines.now next.now.answer
        (slice_get shown.now.calls.now next.now.call)) }
{
    match shown.calls.get(next.call) {
        Some(call) => write_next(out, name, shown.lines, call, next.answer),
        None => Ok(()),
    }
}

// Appends the lines of a call that could come next: what it would answer, and below it what is known of it.
fn write_lines_of(
    alloc: Global,
    out: &mut String,
    name: &str,
    shown: &ShownRun<'_>,
    next: &NextCall,
) -> Result<(), AllocError>
    ensures { OnOk result (string_bytes out.new
        ≡ string_bytes out.old ++ lines_of name.now shown.now.calls.now shown.now.replies.now shown.now.run.now
        shown.now.lines.now shown.now.state.now next.now) }
{
    write_next_of(out, name, shown, next)?;
    write_known_of(alloc, out, shown, next.call)
}

// Appends the lines of the calls that could come next.
fn write_next_lines(
    alloc: Global,
    out: &mut String,
    name: &str,
    shown: &ShownRun<'_>,
    next: &[NextCall],
) -> Result<(), AllocError>
    ensures { OnOk result (string_bytes out.new
        ≡ string_bytes out.old ++ next_lines name.now shown.now.calls.now shown.now.replies.now shown.now.run.now
        shown.now.lines.now shown.now.state.now next.now) }
{
    for one in next {
        write_lines_of(alloc, out, name, shown, one)?;
    }
    Ok(())
}

/// Appends the lines that say why a run ends of calls on the object of this name: the state after it, of a map with the keys
/// that the next calls ask for alone; and each call that could come next, with what is recorded of it and with what it would
/// answer; below it the calls that put or took the value that it asks for or should have found, or the call since which a mutex is
/// held. Each call has the lines of the input on which its events are.
/// `AllocError` where memory was refused.
pub fn write_explanation(
    alloc: Global,
    out: &mut String,
    name: &str,
    shown: &ShownRun<'_>,
    next: &[NextCall],
) -> Result<(), AllocError>
    ensures { OnOk result (string_bytes out.new
        ≡ string_bytes out.old ++ explanation_text name.now shown.now.calls.now shown.now.replies.now shown.now.run.now
        shown.now.lines.now shown.now.state.now next.now) }
{
    let keys = asked_keys(alloc, shown.calls, next)?;
    write_state_line(alloc, out, name, keys.as_slice(), shown.state)?;
    write_next_lines(alloc, out, name, shown, next)
}
