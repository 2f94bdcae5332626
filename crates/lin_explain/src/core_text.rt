//! How calls are shown that alone have no order.
ghost use Rattle.std.specs.Prelude.{◌≡◌, ◌++◌, codes, string_bytes, slice_get, OnOk};
ghost use Rattle.std.specs.List.{list_all};
ghost use Rattle.std.specs.Option.{option_and_then};
ghost use Rattle.lin_explain.specs.CoreText.{key_on, key_at, is_key, is_on_key, core_key, on_key_text, core_head, holder_text, whatever_text, unless_pending, core_line, core_line_of, core_lines, event_of, last_event_of, later, last_event};
ghost use Rattle.lin_explain.specs.WitnessText.{core_text};

use crate::call_text::push_call;
use crate::explanation_text::key_of;
use crate::last_line::write_others_since;
use crate::touching_text::{line_of, write_recorded};
use lin_history::ProblemCall;
use lin_object::{Op, Reply};
use std::alloc::AllocError;

/// A call of a core, as it is shown.
#[derive(Clone, Copy, PartialEq, Eq, Debug)]
pub struct CoreCall {
    /// Its number among the calls of the problem.
    pub call: usize,
    /// Whether the core takes it as pending: it may have returned since.
    pub is_pending: bool,
}

// The key of a map, or the member of a set, that an operation is on; none of another kind's operations.
fn key_on(op: &Op) -> Option<i64>
    ensures { result ≡ key_on op.now }
{
    match op {
        Op::Insert(member) => Some(*member),
        Op::Remove(member) => Some(*member),
        Op::Contains(member) => Some(*member),
        _ => key_of(op),
    }
}

// The same of the call of this number.
fn key_at(calls: &[ProblemCall<Op, Reply>], number: usize) -> Option<i64>
    ensures { result ≡ key_at calls.now number }
{
    match calls.get(number) {
        Some(call) => key_on(&call.op),
        None => None,
    }
}

// Whether this is the key.
pub(crate) fn is_key(key: i64, other: Option<i64>) -> bool
    ensures { result ≡ is_key key other }
{
    match other {
        Some(other) => other == key,
        None => false,
    }
}

// Whether each of these calls is on this key.
fn are_on_key(calls: &[ProblemCall<Op, Reply>], key: i64, core: &[CoreCall]) -> bool
    ensures { result ≡ list_all (is_on_key calls.now key) core.now }
{
    core.iter().all(|one| is_key(key, key_at(calls, one.call)))
}

// The key of the first of these calls.
fn first_key(calls: &[ProblemCall<Op, Reply>], core: &[CoreCall]) -> Option<i64>
    ensures { result ≡ option_and_then (λ first. key_at calls.now first.call) (slice_get core.now 0) }
{
    match core.first() {
        Some(first) => key_at(calls, first.call),
        None => None,
    }
}

// The key that all these calls are on, where there is one.
fn core_key(calls: &[ProblemCall<Op, Reply>], core: &[CoreCall]) -> Option<i64>
    ensures { result ≡ core_key calls.now core.now }
{
    match first_key(calls, core) {
        Some(key) if are_on_key(calls, key, core) => Some(key),
        _ => None,
    }
}

// Appends which key the calls are on, where there is one.
fn write_on_key(out: &mut String, key: Option<i64>) -> Result<(), AllocError>
    ensures { OnOk result (string_bytes out.new ≡ string_bytes out.old ++ on_key_text key) }
{
    match key {
        Some(key) => write!(out, " on key {key}"),
        None => Ok(()),
    }
}

// Appends what is above so many calls on this key.
fn write_head(out: &mut String, count: usize, key: Option<i64>) -> Result<(), AllocError>
    ensures { OnOk result (string_bytes out.new ≡ string_bytes out.old ++ core_head count key) }
{
    if count == 1 {
        out.push_str("this call")?;
        write_on_key(out, key)?;
        return out.push_str(" alone has no order");
    }
    write!(out, "these {count} calls")?;
    write_on_key(out, key)?;
    out.push_str(" alone have no order")
}

// What a core of this key is on: it, or else the object of this name.
fn holder<'n>(name: &'n str, key: Option<i64>) -> &'n str
    ensures { result.now ≡ holder_text name.now key }
{
    match key {
        Some(_) => "it",
        None => name,
    }
}

// Appends from which line on they have no order, whatever was held then; and ends the line.
fn write_whatever(
    out: &mut String,
    name: &str,
    lines: &[u64],
    key: Option<i64>,
    from: Option<u32>,
) -> Result<(), AllocError>
    ensures { OnOk result (string_bytes out.new ≡ string_bytes out.old ++ whatever_text name.now lines.now key from) }
{
    match from {
        Some(event) => {
            let holder = holder(name, key);
            let line = line_of(lines, event);
            write!(out, ", whatever {holder} held before line {line}:\n")
        }
        None => out.push_str(":\n"),
    }
}

// What is recorded of a call, or nothing where it is taken as pending.
pub(crate) fn unless_pending(
    is_pending: bool,
    returned: &Option<(u32, Reply)>,
) -> Option<(u32, Reply)>
    ensures { result ≡ unless_pending is_pending returned.now }
{
    if is_pending { None } else { *returned }
}

// Appends the line of a call.
fn write_call(
    out: &mut String,
    name: &str,
    lines: &[u64],
    call: &ProblemCall<Op, Reply>,
    is_pending: bool,
) -> Result<(), AllocError>
    ensures { OnOk result (string_bytes out.new
        ≡ string_bytes out.old ++ core_line name.now lines.now is_pending call.now) }
{
    out.push_str("  ")?;
    push_call(out, call.process, name, &call.op)?;
    let returned = unless_pending(is_pending, &call.returned);
    write_recorded(out, lines, call.called, &returned)?;
    out.push_str("\n")
}

// Appends the line of this call, where it is a call.
pub(crate) fn write_call_of(
    out: &mut String,
    name: &str,
    calls: &[ProblemCall<Op, Reply>],
    lines: &[u64],
    shown: &CoreCall,
) -> Result<(), AllocError>
    ensures { OnOk result (string_bytes out.new ≡ string_bytes out.old
        ++ core_line_of name.now lines.now shown.now.is_pending (slice_get calls.now shown.now.call)) }
{
    match calls.get(shown.call) {
        Some(call) => write_call(out, name, lines, call, shown.is_pending),
        None => Ok(()),
    }
}

// Appends the lines of these calls.
fn write_calls(
    out: &mut String,
    name: &str,
    calls: &[ProblemCall<Op, Reply>],
    lines: &[u64],
    core: &[CoreCall],
) -> Result<(), AllocError>
    ensures { OnOk result (string_bytes out.new
        ≡ string_bytes out.old ++ core_lines name.now calls.now lines.now core.now) }
{
    for one in core {
        write_call_of(out, name, calls, lines, one)?;
    }
    Ok(())
}

// The last event of a call with what is shown of its return.
pub(crate) fn event_of(called: u32, returned: &Option<(u32, Reply)>) -> u32
    ensures { result ≡ event_of called returned.now }
{
    match returned {
        Some((number, _)) => *number,
        None => called,
    }
}

// The last event of a call of a core, as it is shown; 0 where there is no such call.
fn last_event_of(calls: &[ProblemCall<Op, Reply>], one: &CoreCall) -> u32
    ensures { result ≡ last_event_of one.now.is_pending (slice_get calls.now one.now.call) }
{
    match calls.get(one.call) {
        Some(call) => event_of(call.called, &unless_pending(one.is_pending, &call.returned)),
        None => 0,
    }
}

// The later of two events.
fn later(a: u32, b: u32) -> u32
    ensures { result ≡ later a b }
{
    if a < b { b } else { a }
}

// The last event of these calls.
pub(crate) fn last_event(calls: &[ProblemCall<Op, Reply>], core: &[CoreCall]) -> u32
    ensures { result ≡ last_event calls.now 0 core.now }
{
    let mut last = 0;
    for one in core {
        last = later(last, last_event_of(calls, one));
    }
    last
}

/// Appends the lines of a core of these calls on the object of this name: how many calls it has, of a map or a set which key they
/// are on, and, where it begins at an event, that line; below that each call, with the lines of the input on which its events are; and then
/// between which lines no other call helps. `lines` has the line of each event of the
/// input, that of the event of number n at n - 1. Appends nothing where the core has no calls. `AllocError` where memory was refused.
pub(crate) fn write_core(
    out: &mut String,
    name: &str,
    calls: &[ProblemCall<Op, Reply>],
    lines: &[u64],
    from: Option<u32>,
    core: &[CoreCall],
) -> Result<(), AllocError>
    ensures { OnOk result (string_bytes out.new
        ≡ string_bytes out.old ++ core_text name.now calls.now lines.now from core.now) }
{
    if core.is_empty() {
        return Ok(());
    }
    let key = core_key(calls, core);
    write_head(out, core.len(), key)?;
    write_whatever(out, name, lines, key, from)?;
    write_calls(out, name, calls, lines, core)?;
    write_others_since(out, calls, lines, from, core)
}
