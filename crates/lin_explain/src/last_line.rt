//! The line below calls that alone have no order: what no other call does, and between which lines of the input. The calls are gone
//! through for it: where another one does such a thing, the line says no more than that none helps.
ghost use Rattle.std.specs.Prelude.{◌≡◌, ◌++◌, codes, string_bytes, slice_get, OnOk, IfNone, IfSome, None, Some, true};
ghost use Rattle.std.specs.List.{list_all, list_any};
ghost use Rattle.std.specs.Option.{option_and_then};
ghost use Rattle.lin_explain.specs.CoreText.{is_key};
ghost use Rattle.lin_explain.specs.LastLine.{is_yes, is_cas, op_at, not_done, not_done_of, gives_anew, is_back_before, begins_anew, call_at, given, item_of, shown_item, is_of_core, came_before, has_earlier, starts_late, first_event, first_event_of, is_between, was_called_at, is_one_of, told_by, told_at, is_such, gives_such, may_be_yes, may_take, does_such, is_other_such, some_other_does, has_cas, not_done_by_others, from_text, from_text_of, until_text, put_by, taken_by, puts_before, takes_before, is_out_at, are_out_at, were_in_and_out, before_text, before_text_of, is_okay, is_flag, is_number, is_number_or_none, may_reply, gave_another, gave_another_of, has_odd_reply, others_line_if, others_line, since_text, others_line_since};

use crate::core_text::{CoreCall, is_key, last_event, unless_pending};
use crate::touching_text::line_of;
use lin_history::ProblemCall;
use lin_object::{Op, Reply};
use std::alloc::AllocError;

// The operation of a call of a core.
fn op_at(calls: &[ProblemCall<Op, Reply>], one: &CoreCall) -> Option<Op>
    ensures { result ≡ op_at calls.now one.now }
{
    match calls.get(one.call) {
        Some(call) => Some(call.op),
        None => None,
    }
}

// Whether the operation compares a register with a value.
fn is_cas(op: Option<Op>) -> bool
    ensures { result ≡ is_cas op }
{
    match op {
        Some(Op::Cas(..)) => true,
        _ => false,
    }
}

// What no other call does, by an operation of the core.
fn not_done(op: &Op) -> &'static str
    ensures { result.now ≡ not_done op.now }
{
    match op {
        Op::Write(_) | Op::Read => "writes such a value",
        Op::Add(_) | Op::Get => "changes the counter",
        Op::Enqueue(_) | Op::Dequeue | Op::Push(_) | Op::Pop => "puts or takes such an item",
        Op::Insert(_) | Op::Remove(_) | Op::Contains(_) => "adds or removes such an item",
        _ => "helps",
    }
}

// The same of an operation, where there is one.
fn not_done_of(op: Option<Op>) -> &'static str
    ensures { result.now ≡ not_done_of op }
{
    match op {
        Some(op) => not_done(&op),
        None => "helps",
    }
}

// The operation of the first call of a core.
fn first_op(calls: &[ProblemCall<Op, Reply>], core: &[CoreCall]) -> Option<Op>
    ensures { result ≡ option_and_then (op_at calls.now) (slice_get core.now 0) }
{
    match core.first() {
        Some(first) => op_at(calls, first),
        None => None,
    }
}

// Whether a call of a core compares a register with a value.
fn has_cas(calls: &[ProblemCall<Op, Reply>], core: &[CoreCall]) -> bool
    ensures { result ≡ has_cas calls.now core.now }
{
    core.iter().any(|one| is_cas(op_at(calls, one)))
}

// Whether the answer is 'yes'.
fn is_yes(reply: &Reply) -> bool
    ensures { result ≡ is_yes reply.now }
{
    matches!(reply, Reply::Flag(true))
}

// Whether the call gives its object, or a key or a member of it, what it has then, whatever that had before.
fn gives_anew(op: &Op, returned: &Option<(u32, Reply)>) -> bool
    ensures { result ≡ gives_anew op.now returned.now }
{
    match (op, returned) {
        (Op::Write(_) | Op::Put(..), _) => true,
        (Op::Insert(_), Some((_, reply))) => is_yes(reply),
        _ => false,
    }
}

// Whether it returned before this event.
fn is_back_before(event: u32, returned: &Option<(u32, Reply)>) -> bool
    ensures { result ≡ is_back_before event returned.now }
{
    match returned {
        Some((number, _)) => *number < event,
        None => false,
    }
}

// The call of this place in a core.
fn call_at<'c>(
    calls: &'c [ProblemCall<Op, Reply>],
    core: &[CoreCall],
    place: usize,
) -> Option<&'c ProblemCall<Op, Reply>>
    ensures none { IfNone result (call_at calls.now core.now place ≡ None) }
    ensures some { IfSome result (λ call. call_at calls.now core.now place ≡ Some call.now) }
{
    calls.get(core.get(place)?.call)
}

// Whether the first of two calls gives anew, and returned before the second was called.
fn begins_anew(first: &ProblemCall<Op, Reply>, second: &ProblemCall<Op, Reply>) -> bool
    ensures { result ≡ begins_anew (Some first.now) (Some second.now) }
{
    gives_anew(&first.op, &first.returned) && is_back_before(second.called, &first.returned)
}

// Whether the first call of a core gives anew, and is the only one or returned before the second was called.
fn gives_first(calls: &[ProblemCall<Op, Reply>], core: &[CoreCall]) -> bool
    ensures { result ≡ begins_anew (call_at calls.now core.now 0) (call_at calls.now core.now 1) }
{
    match (call_at(calls, core, 0), call_at(calls, core, 1)) {
        (Some(first), Some(second)) => begins_anew(first, second),
        (Some(first), None) => gives_anew(&first.op, &first.returned),
        _ => false,
    }
}

// The item that a reply gives.
fn given(reply: &Reply) -> Option<i64>
    ensures { result ≡ given reply.now }
{
    match reply {
        Reply::Int(item) => Some(*item),
        _ => None,
    }
}

// The item that a return gave, where there is one.
fn given_by(returned: &Option<(u32, Reply)>) -> Option<i64>
    ensures { result ≡ option_and_then (λ r. given r.1) returned.now }
{
    match returned {
        Some((_, reply)) => given(reply),
        None => None,
    }
}

// The item that a call put into a queue or a stack or took out of it, where that is recorded.
fn item_of(op: &Op, returned: &Option<(u32, Reply)>) -> Option<i64>
    ensures { result ≡ item_of op.now returned.now }
{
    match op {
        Op::Enqueue(item) | Op::Push(item) => Some(*item),
        Op::Dequeue | Op::Pop => given_by(returned),
        _ => None,
    }
}

// The same of a call of a core, as it is shown.
fn shown_item(calls: &[ProblemCall<Op, Reply>], one: &CoreCall) -> Option<i64>
    ensures { result ≡ shown_item calls.now one.now }
{
    match calls.get(one.call) {
        Some(call) => item_of(&call.op, &unless_pending(one.is_pending, &call.returned)),
        None => None,
    }
}

// Whether this item is that of a call of the core.
fn has_item(calls: &[ProblemCall<Op, Reply>], core: &[CoreCall], item: i64) -> bool
    ensures { result ≡ list_any (λ shown. is_key item (shown_item calls.now shown)) core.now }
{
    core.iter().any(|one| is_key(item, shown_item(calls, one)))
}

// The same of an item, where there is one.
fn is_of_core(calls: &[ProblemCall<Op, Reply>], core: &[CoreCall], item: Option<i64>) -> bool
    ensures { result ≡ is_of_core calls.now core.now item }
{
    match item {
        Some(item) => has_item(calls, core, item),
        None => false,
    }
}

// Whether the call put such an item in or took it out, and returned before this event.
fn came_before(
    calls: &[ProblemCall<Op, Reply>],
    core: &[CoreCall],
    event: u32,
    call: &ProblemCall<Op, Reply>,
) -> bool
    ensures { result ≡ came_before calls.now core.now event call.now }
{
    is_back_before(event, &call.returned)
        && is_of_core(calls, core, item_of(&call.op, &call.returned))
}

// Whether some call did so before this event.
fn has_earlier(calls: &[ProblemCall<Op, Reply>], core: &[CoreCall], event: u32) -> bool
    ensures { result ≡ list_any (came_before calls.now core.now event) calls.now }
{
    calls
        .iter()
        .any(|call| came_before(calls, core, event, call))
}

// Whether items of the core were in and out again before its first call.
fn were_in(calls: &[ProblemCall<Op, Reply>], core: &[CoreCall]) -> bool
    ensures { result ≡ has_earlier calls.now core.now (call_at calls.now core.now 0) }
{
    match call_at(calls, core, 0) {
        Some(first) => has_earlier(calls, core, first.called),
        None => false,
    }
}

// Whether what came before the first call of a core does not matter.
fn starts_late(calls: &[ProblemCall<Op, Reply>], core: &[CoreCall]) -> bool
    ensures { result ≡ starts_late calls.now core.now }
{
    gives_first(calls, core) || were_in(calls, core)
}

// The first event that the line below a core speaks of: that with which the core begins, or the call of its first call where what came
// before that does not matter; else 0.
fn first_event(calls: &[ProblemCall<Op, Reply>], from: Option<u32>, core: &[CoreCall]) -> u32
    ensures { result ≡ first_event_of calls.now from core.now }
{
    if let Some(event) = from {
        return event;
    }
    if !starts_late(calls, core) {
        return 0;
    }
    match call_at(calls, core, 0) {
        Some(first) => first.called,
        None => 0,
    }
}

// Whether the call was called by the last of two events, and had not returned before the first.
fn is_between(first: u32, last: u32, call: &ProblemCall<Op, Reply>) -> bool
    ensures { result ≡ is_between first last call.now }
{
    call.called <= last && !is_back_before(first, &call.returned)
}

// Whether a call of the core was called at this event.
fn was_called_at(calls: &[ProblemCall<Op, Reply>], event: u32, one: &CoreCall) -> bool
    ensures { result ≡ was_called_at event (slice_get calls.now one.now.call) }
{
    match calls.get(one.call) {
        Some(call) => call.called == event,
        None => false,
    }
}

// Whether the call is one of the core's.
fn is_one_of(
    calls: &[ProblemCall<Op, Reply>],
    core: &[CoreCall],
    call: &ProblemCall<Op, Reply>,
) -> bool
    ensures { result ≡ is_one_of calls.now core.now call.now }
{
    core.iter()
        .any(|one| was_called_at(calls, call.called, one))
}

// The value that a call writes or read, the item that it put or took, or the item of a set that it is on.
fn told_by(op: &Op, returned: &Option<(u32, Reply)>) -> Option<i64>
    ensures { result ≡ told_by op.now returned.now }
{
    match op {
        Op::Write(value) => Some(*value),
        Op::Read => given_by(returned),
        Op::Insert(item) | Op::Remove(item) | Op::Contains(item) => Some(*item),
        _ => item_of(op, returned),
    }
}

// The same of a call of a core, as it is shown.
fn told_at(calls: &[ProblemCall<Op, Reply>], one: &CoreCall) -> Option<i64>
    ensures { result ≡ told_at calls.now one.now }
{
    match calls.get(one.call) {
        Some(call) => told_by(&call.op, &unless_pending(one.is_pending, &call.returned)),
        None => None,
    }
}

// Whether this value or item is that of a call of the core.
fn is_such(calls: &[ProblemCall<Op, Reply>], core: &[CoreCall], value: i64) -> bool
    ensures { result ≡ is_such calls.now core.now value }
{
    core.iter().any(|one| is_key(value, told_at(calls, one)))
}

// Whether a reply gives such an item.
fn gives_such(calls: &[ProblemCall<Op, Reply>], core: &[CoreCall], given: Option<i64>) -> bool
    ensures { result ≡ gives_such calls.now core.now given }
{
    match given {
        Some(item) => is_such(calls, core, item),
        None => false,
    }
}

// Whether the answer is 'yes', or may be.
fn may_be_yes(returned: &Option<(u32, Reply)>) -> bool
    ensures { result ≡ may_be_yes returned.now }
{
    match returned {
        Some((_, reply)) => is_yes(reply),
        None => true,
    }
}

// Whether a call that takes an item takes such a one, or may.
fn may_take(
    calls: &[ProblemCall<Op, Reply>],
    core: &[CoreCall],
    returned: &Option<(u32, Reply)>,
) -> bool
    ensures { result ≡ may_take calls.now core.now returned.now }
{
    match returned {
        Some((_, reply)) => gives_such(calls, core, given(reply)),
        None => true,
    }
}

// Whether the call writes such a value in place of another, puts or takes such an item, adds or removes such an item of a set, or
// changes the counter.
fn does_such(
    calls: &[ProblemCall<Op, Reply>],
    core: &[CoreCall],
    op: &Op,
    returned: &Option<(u32, Reply)>,
) -> bool
    ensures { result ≡ does_such calls.now core.now op.now returned.now }
{
    match op {
        Op::Write(value) => is_such(calls, core, *value),
        Op::Cas(from, to) => {
            may_be_yes(returned) && (!(*from == *to) && is_such(calls, core, *to))
        }
        Op::Add(number) => !(*number == 0),
        Op::Enqueue(item) | Op::Push(item) => is_such(calls, core, *item),
        Op::Dequeue | Op::Pop => may_take(calls, core, returned),
        Op::Insert(item) | Op::Remove(item) => {
            may_be_yes(returned) && is_such(calls, core, *item)
        }
        _ => false,
    }
}

// Whether the call is another one between the two events, and does.
fn is_other_such(
    calls: &[ProblemCall<Op, Reply>],
    core: &[CoreCall],
    first: u32,
    last: u32,
    call: &ProblemCall<Op, Reply>,
) -> bool
    ensures { result ≡ is_other_such calls.now core.now first last call.now }
{
    is_between(first, last, call)
        && (does_such(calls, core, &call.op, &call.returned) && !is_one_of(calls, core, call))
}

// Whether some other call does. It takes O(n · k) for n calls and k of the core.
fn some_other_does(calls: &[ProblemCall<Op, Reply>], from: Option<u32>, core: &[CoreCall]) -> bool
    ensures { result ≡ some_other_does calls.now from core.now }
{
    let first = first_event(calls, from, core);
    let last = last_event(calls, core);
    calls
        .iter()
        .any(|call| is_other_such(calls, core, first, last, call))
}

// What no other call does, by the calls of a core.
fn not_done_by_others(
    calls: &[ProblemCall<Op, Reply>],
    from: Option<u32>,
    core: &[CoreCall],
) -> &'static str
    ensures { result.now ≡ not_done_by_others calls.now from core.now }
{
    if has_cas(calls, core) || some_other_does(calls, from, core) {
        return "helps";
    }
    not_done_of(first_op(calls, core))
}

// Appends from which line on calls matter, where not all do.
fn write_from(
    out: &mut String,
    calls: &[ProblemCall<Op, Reply>],
    lines: &[u64],
    core: &[CoreCall],
) -> Result<(), AllocError>
    ensures { OnOk result (string_bytes out.new
        ≡ string_bytes out.old ++ from_text_of calls.now lines.now core.now) }
{
    if starts_late(calls, core) {
        if let Some(first) = call_at(calls, core, 0) {
            let line = line_of(lines, first.called);
            return write!(out, "from line {line} to line ");
        }
    }
    out.push_str("up to line ")
}

// Appends up to which line no other call helps, and what none does.
fn write_until(
    out: &mut String,
    calls: &[ProblemCall<Op, Reply>],
    lines: &[u64],
    from: Option<u32>,
    core: &[CoreCall],
) -> Result<(), AllocError>
    ensures { OnOk result (string_bytes out.new
        ≡ string_bytes out.old ++ until_text calls.now lines.now from core.now) }
{
    let line = line_of(lines, last_event(calls, core));
    let words = not_done_by_others(calls, from, core);
    write!(out, "{line} {words}")
}

// The item that an operation puts into a queue or a stack.
fn put_by(op: &Op) -> Option<i64>
    ensures { result ≡ put_by op.now }
{
    match op {
        Op::Enqueue(item) | Op::Push(item) => Some(*item),
        _ => None,
    }
}

// The item that a call took out.
fn taken_by(op: &Op, returned: &Option<(u32, Reply)>) -> Option<i64>
    ensures { result ≡ taken_by op.now returned.now }
{
    match op {
        Op::Dequeue | Op::Pop => given_by(returned),
        _ => None,
    }
}

// How many calls that returned before the event put the item in.
fn puts_before(calls: &[ProblemCall<Op, Reply>], event: u32, item: i64) -> usize
    ensures { result ≡ puts_before calls.now event item }
{
    calls
        .iter()
        .filter(|call| is_back_before(event, &call.returned) && is_key(item, put_by(&call.op)))
        .count()
}

// How many of them took it out.
fn takes_before(calls: &[ProblemCall<Op, Reply>], event: u32, item: i64) -> usize
    ensures { result ≡ takes_before calls.now event item }
{
    calls
        .iter()
        .filter(|call| {
            is_back_before(event, &call.returned)
                && is_key(item, taken_by(&call.op, &call.returned))
        })
        .count()
}

// Whether as many of them put an item in, where there is one, as took it out.
fn is_out_at(calls: &[ProblemCall<Op, Reply>], event: u32, item: Option<i64>) -> bool
    ensures { result ≡ is_out_at calls.now event item }
{
    match item {
        Some(item) => puts_before(calls, event, item) == takes_before(calls, event, item),
        None => true,
    }
}

// Whether it is so with each item of the core.
fn are_out_at(calls: &[ProblemCall<Op, Reply>], core: &[CoreCall], event: u32) -> bool
    ensures { result ≡ are_out_at calls.now core.now event }
{
    core.iter()
        .all(|one| is_out_at(calls, event, shown_item(calls, one)))
}

// Whether items of the core were in before its first call, and all out again by then.
fn were_in_and_out(calls: &[ProblemCall<Op, Reply>], core: &[CoreCall]) -> bool
    ensures { result ≡ were_in_and_out calls.now core.now (call_at calls.now core.now 0) }
{
    match call_at(calls, core, 0) {
        Some(first) => {
            has_earlier(calls, core, first.called) && are_out_at(calls, core, first.called)
        }
        None => false,
    }
}

// Appends that the items were out at the first call of the core, where some were in before; and ends the line.
fn write_before(
    out: &mut String,
    calls: &[ProblemCall<Op, Reply>],
    lines: &[u64],
    core: &[CoreCall],
) -> Result<(), AllocError>
    ensures { OnOk result (string_bytes out.new
        ≡ string_bytes out.old ++ before_text_of calls.now lines.now core.now) }
{
    if were_in_and_out(calls, core) {
        if let Some(first) = call_at(calls, core, 0) {
            let line = line_of(lines, first.called);
            return write!(
                out,
                ", and before line {line} each was taken as often as it was put\n"
            );
        }
    }
    out.push_str("\n")
}

// Whether the operation gives such a reply in some state.
fn may_reply(op: &Op, reply: &Reply) -> bool
    ensures { result ≡ may_reply op.now reply.now }
{
    match op {
        Op::Write(_) | Op::Add(_) | Op::Enqueue(_) | Op::Push(_) => matches!(reply, Reply::Okay),
        Op::Lock | Op::Unlock | Op::Put(..) => matches!(reply, Reply::Okay),
        Op::Read | Op::Get => matches!(reply, Reply::Int(_)),
        Op::Dequeue | Op::Pop | Op::Lookup(_) => matches!(reply, Reply::Int(_) | Reply::Empty),
        Op::Cas(..) | Op::TryLock | Op::Delete(_) => matches!(reply, Reply::Flag(_)),
        Op::Insert(_) | Op::Remove(_) | Op::Contains(_) => matches!(reply, Reply::Flag(_)),
    }
}

// Whether it is recorded that it gave another.
fn gave_another(op: &Op, returned: &Option<(u32, Reply)>) -> bool
    ensures { result ≡ gave_another op.now returned.now }
{
    match returned {
        Some((_, reply)) => !may_reply(op, reply),
        None => false,
    }
}

// The same of a call of a core.
fn gave_another_at(calls: &[ProblemCall<Op, Reply>], one: &CoreCall) -> bool
    ensures { result ≡ gave_another_of (slice_get calls.now one.now.call) }
{
    match calls.get(one.call) {
        Some(call) => gave_another(&call.op, &call.returned),
        None => false,
    }
}

// Whether a call of the core did.
fn has_odd_reply(calls: &[ProblemCall<Op, Reply>], core: &[CoreCall]) -> bool
    ensures { result ≡ has_odd_reply calls.now core.now }
{
    core.iter().any(|one| gave_another_at(calls, one))
}

// Appends the line below the calls of a core that has such a reply.
fn write_no_other(
    out: &mut String,
    calls: &[ProblemCall<Op, Reply>],
    lines: &[u64],
    core: &[CoreCall],
) -> Result<(), AllocError>
    ensures { OnOk result (string_bytes out.new
        ≡ string_bytes out.old ++ others_line_if true calls.now lines.now core.now) }
{
    let line = line_of(lines, last_event(calls, core));
    write!(out, "no other call up to line {line} helps\n")
}

// Appends the line below the calls: between which lines of the input no other call helps.
fn write_others(
    out: &mut String,
    calls: &[ProblemCall<Op, Reply>],
    lines: &[u64],
    core: &[CoreCall],
) -> Result<(), AllocError>
    ensures { OnOk result (string_bytes out.new
        ≡ string_bytes out.old ++ others_line calls.now lines.now core.now) }
{
    if has_odd_reply(calls, core) {
        return write_no_other(out, calls, lines, core);
    }
    out.push_str("no other call ")?;
    write_from(out, calls, lines, core)?;
    write_until(out, calls, lines, None, core)?;
    write_before(out, calls, lines, core)
}

// Appends from which event on no other call helps.
fn write_since(out: &mut String, lines: &[u64], from: u32) -> Result<(), AllocError>
    ensures { OnOk result (string_bytes out.new ≡ string_bytes out.old ++ since_text lines.now from) }
{
    let line = line_of(lines, from);
    write!(out, "no other call from line {line} to line ")
}

// Ends the line.
fn end_line(out: &mut String) -> Result<(), AllocError>
    ensures { OnOk result (string_bytes out.new ≡ string_bytes out.old ++ codes "\n") }
{
    out.push_str("\n")
}

// Appends that no other call from this event on helps.
fn write_others_from(
    out: &mut String,
    calls: &[ProblemCall<Op, Reply>],
    lines: &[u64],
    from: u32,
    core: &[CoreCall],
) -> Result<(), AllocError>
    ensures { OnOk result (string_bytes out.new
        ≡ string_bytes out.old ++ others_line_since calls.now lines.now (Some from) core.now) }
{
    write_since(out, lines, from)?;
    write_until(out, calls, lines, Some(from), core)?;
    end_line(out)
}

/// Appends the line below the calls of a core, which may begin at an event: between which lines of the input no other call does what the
/// words say.
pub(crate) fn write_others_since(
    out: &mut String,
    calls: &[ProblemCall<Op, Reply>],
    lines: &[u64],
    from: Option<u32>,
    core: &[CoreCall],
) -> Result<(), AllocError>
    ensures { OnOk result (string_bytes out.new
        ≡ string_bytes out.old ++ others_line_since calls.now lines.now from core.now) }
{
    match from {
        Some(event) => write_others_from(out, calls, lines, event, core),
        None => write_others(out, calls, lines, core),
    }
}
