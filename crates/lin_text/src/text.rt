//! A text, line by line: the history that it means, or its first fault.

ghost use Rattle.std.specs.Prelude.{position, IfSome, ◌≡◌, ◌≢◌, ℕ, ◌<◌, ◌≤◌, ◌&&◌, ◌∷◌, [], List, length, Some, None, Ok, Err, IfOk, IfErr, IsTrue, OnOk, OnErr};
ghost use Rattle.serde_json.specs.View.{view};
ghost use Rattle.lin_text.specs.FlatObject.{object_of};
ghost use Rattle.lin_text.specs.Line.{json, seen, IsFoundIn};
ghost use Rattle.lin_history.specs.Recorder.Recording.{no_event};
ghost use Rattle.lin_text.specs.Events.{TextEvents, IsTold, format_after, told_with};
ghost use Rattle.lin_text.specs.EventLines.{has_number, count_with, lines_with, AreEventLines};
ghost use Rattle.lin_text.specs.Text.{is_newline, lines, is_blank, refusals, IsRead, HasCause, IsToldBy, MeansHistory, MeansRecording, MeansFault, RanOutAt};
ghost use Rattle.lin_history.specs.Refusals.{first_that_holds};

use crate::cause::{Cause, TextFault, cause_of};
use crate::flat_object::FlatObject;
use crate::line::{Format, Line};
use crate::line_value::LineValue;
use crate::reading::read_value;
use json::Scratch;
use lin_history::{BuildFault, Builder, History};
use memchr::memchr;
use serde_json::{Category, Value};
use std::alloc::{AllocError, Global};

/// The most bytes of a line, without its line feed.
pub const MAX_LINE_BYTES: usize = 65_536;

/// The most bytes of a text.
pub const MAX_INPUT_BYTES: usize = 67_108_864;

// Whether a line has nothing but spaces, tabs and carriage returns.
fn is_blank(line: &[u8]) -> bool
    ensures { result ≡ is_blank line.now }
{
    line.iter()
        .all(|byte| matches!(*byte, b' ' | b'\t' | b'\r'))
}

/// The value of a line.
#[tactic(auto, unfolding(crate::specs::Line::json))]
fn json_of(alloc: Global, line: &[u8]) -> Result<Value, Cause>
    ensures ok { IfOk result (λ value. json line.now ≡ Some (view value)) }
    ensures err { IfErr result (λ cause. cause ≢ Cause.OutOfMemory → json line.now ≡ None) }
    ensures cause { IfErr result (λ cause. cause ≢ Cause.OutOfMemory → cause ≡ Cause.NotJson) }
{
    match Value::from_slice(alloc, line) {
        Ok(value) => Ok(value),
        Err(error) => match error.classify() {
            Category::Memory => Err(Cause::OutOfMemory),
            _ => Err(Cause::NotJson),
        },
    }
}

// Gives an event to the builder, in which its object was found. An `Err` changes nothing.
fn take_event(alloc: Global, builder: &mut Builder, event: Line<'_>) -> Result<(), BuildFault>
    requires { IsFoundIn builder.old event }
    ensures sound { OnOk result (first_that_holds (refusals builder.old (seen event.entry))
        ≡ None) }
    ensures history { OnOk result ((told : TextEvents) → (format : _)
        → IsTold told format builder.old → IsTold (told_with told (seen event.entry))
        (format_after format (seen event.entry)) builder.new) }
    ensures count { OnOk result (builder.new.events
        ≡ count_with builder.old.events (has_number (seen event.entry))) }
    ensures err { IfErr result (λ fault. fault ≢ BuildFault.OutOfMemory
        → first_that_holds (refusals builder.old (seen event.entry)) ≡ Some fault) }
    ensures same { OnErr result (builder.new ≡ builder.old) }
{
    match event {
        Line::Header => Ok(()),
        Line::Declare(name, kind, start) => builder.declare(alloc, name, kind, start),
        Line::Call(process, found, op) => builder.call_on(process, found, op),
        Line::Return(process, found, reply) => builder.ret_on(process, found, reply),
        Line::Fail(process, found) => builder.fail_on(process, found),
        Line::Info(process, found) => builder.info_on(process, found),
    }
}

// The format of a text after this line.
fn format_after(format: Format, event: &Line<'_>) -> Format
    ensures { result ≡ format_after format (seen event.now) }
{
    match event {
        Line::Header => Format::Two,
        Line::Declare(_, _, _)
        | Line::Call(_, _, _)
        | Line::Return(_, _, _)
        | Line::Fail(_, _)
        | Line::Info(_, _) => match format {
            Format::Two => Format::Two,
            Format::Unstated | Format::One => Format::One,
        },
    }
}

// What a line told: the format of the text after it, and whether its event has a number, as calls and returns have.
#[derive(Clone, Copy)]
struct Taken {
    format: Format,
    is_numbered: bool,
}

// Whether the event has a number: it is a call or a return.
fn has_number(event: &Line<'_>) -> bool
    ensures { result ≡ has_number (seen event.now) }
{
    matches!(event, Line::Call(_, _, _) | Line::Return(_, _, _))
}

// Takes the event of a line with this JSON value. An `Err` changes nothing.
fn take_value<V: LineValue>(
    alloc: Global,
    format: Format,
    builder: &mut Builder,
    value: &V,
) -> Result<Taken, Cause>
    ensures ok { IfOk result (λ taken. (line : List ℕ) → IsRead line (V.json value.now)
        → (told : TextEvents) → IsTold told format builder.old
        → (more : TextEvents) × IsToldBy told line more × IsTold more taken.format builder.new) }
    ensures count { IfOk result (λ taken. builder.new.events
        ≡ count_with builder.old.events taken.is_numbered) }
    ensures err { IfErr result (λ cause. cause ≢ Cause.OutOfMemory → (line : List ℕ)
        → IsRead line (V.json value.now) → HasCause format builder.old line cause) }
    ensures same { OnErr result (builder.new ≡ builder.old) }
{
    let event = match read_value(alloc, format, builder, value) {
        Ok(event) => event,
        Err(cause) => return Err(cause),
    };
    let format = format_after(format, &event);
    let is_numbered = has_number(&event);
    match take_event(alloc, builder, event) {
        Ok(()) => Ok(Taken {
            format,
            is_numbered,
        }),
        Err(fault) => Err(cause_of(fault)),
    }
}

// The JSON object of a line, where its members are flat; most lines are such. Of other lines nothing is told.
fn flat_object_of<'l>(
    alloc: Global,
    scratch: &'l mut Scratch,
    line: &'l [u8],
) -> Result<Option<FlatObject<'l>>, AllocError>
    ensures { IfOk result (λ answer. IfSome answer (λ object. json line.now
        ≡ Some (object_of object.members.items))) }
{
    match str::from_utf8(line) {
        Ok(text) => FlatObject::read(alloc, text, scratch),
        Err(_) => Ok(None),
    }
}

// Takes the event of a line. An `Err` changes nothing. A line that is no flat object is read into an owned value.
fn take_line(
    alloc: Global,
    format: Format,
    builder: &mut Builder,
    scratch: &mut Scratch,
    line: &[u8],
) -> Result<Taken, Cause>
    ensures ok { IfOk result (λ taken. (told : TextEvents) → IsTold told format builder.old
        → (more : TextEvents) × IsToldBy told line.now more
        × IsTold more taken.format builder.new) }
    ensures count { IfOk result (λ taken. builder.new.events
        ≡ count_with builder.old.events taken.is_numbered) }
    ensures short { OnOk result (length line.now ≤ MAX_LINE_BYTES) }
    ensures err { IfErr result (λ cause. cause ≢ Cause.OutOfMemory
        → HasCause format builder.old line.now cause) }
    ensures memory { IfErr result (λ cause. cause ≡ Cause.OutOfMemory
        → length line.now ≤ MAX_LINE_BYTES) }
    ensures same { OnErr result (builder.new ≡ builder.old) }
{
    if line.len() > MAX_LINE_BYTES {
        return Err(Cause::LineTooLong);
    }
    if is_blank(line) {
        return Ok(Taken {
            format,
            is_numbered: false,
        });
    }
    match flat_object_of(alloc, scratch, line) {
        Ok(Some(object)) => take_value(alloc, format, builder, &object),
        Ok(None) => match json_of(alloc, line) {
            Ok(value) => take_value(alloc, format, builder, &value),
            Err(cause) => Err(cause),
        },
        Err(_) => Err(Cause::OutOfMemory),
    }
}

// Where the first line feed is.
fn newline_in(text: &[u8]) -> Option<usize>
    ensures value { result ≡ position is_newline text.now }
    ensures within { IfSome result (λ end. end < length text.now) }
{
    memchr(b'\n', text)
}

/// The first line of a text that is not empty, and what is after it.
fn first_line(text: &[u8]) -> (&[u8], &[u8])
    requires { 0 < length text.now }
    ensures lines { lines text.now ≡ result.0.now ∷ lines result.1.now }
    ensures shorter { length result.1.now < length text.now }
{
    match newline_in(text) {
        Some(end) => (&text[..end], &text[end + 1..]),
        None => (text, &[]),
    }
}

// Puts the number of a line behind the others, where lines are wanted and its event has a number.
fn note_line(
    lines: &mut Vec<u64>,
    wanted: bool,
    is_numbered: bool,
    number: u64,
) -> Result<(), AllocError>
    ensures { OnOk result (lines.new.items
        ≡ lines_with lines.old.items (wanted && is_numbered) number) }
{
    if wanted && is_numbered {
        lines.push(number)?;
    }
    Ok(())
}

// Takes the events of a text, line by line. Where the lines of its events are wanted, they are noted.
fn read_lines(
    alloc: Global,
    builder: &mut Builder,
    wanted: bool,
    lines: &mut Vec<u64>,
    text: &[u8],
) -> Result<(), TextFault>
    requires start { builder.old ≡ no_event }
    requires none { lines.old.items ≡ [] }
    requires short { length text.now ≤ MAX_INPUT_BYTES }
    ensures history { OnOk result (MeansRecording text.now builder.new) }
    ensures lines { OnOk result (IsTrue wanted
        → AreEventLines text.now builder.new.events lines.new.items) }
    ensures fault { IfErr result (λ fault. fault.cause ≢ Cause.OutOfMemory
        → MeansFault text.now fault.line fault.cause) }
    ensures memory { IfErr result (λ fault. fault.cause ≡ Cause.OutOfMemory
        → RanOutAt text.now fault.line) }
{
    let mut rest = text;
    let mut number = 0u64;
    let mut scratch = Scratch::new(alloc);
    let mut format = Format::Unstated;
    'lines: while !rest.is_empty() {
        let (line, more) = first_line(rest);
        number += 1;
        let taken = match take_line(alloc, format, builder, &mut scratch, line) {
            Ok(taken) => taken,
            Err(cause) => {
                return Err(TextFault {
                    line: number,
                    cause,
                });
            }
        };
        let Ok(()) = note_line(lines, wanted, taken.is_numbered, number) else {
            return Err(TextFault {
                line: number,
                cause: Cause::OutOfMemory,
            });
        };
        format = taken.format;
        rest = more;
    }
    Ok(())
}

// The history that a text means, and the line of each of its events, where those are wanted; or the first fault.
fn read_text(alloc: Global, text: &[u8], wanted: bool) -> Result<(History, Vec<u64>), TextFault>
    ensures history { IfOk result (λ read. MeansHistory text.now read.0) }
    ensures lines { IfOk result (λ read. IsTrue wanted
        → AreEventLines text.now read.0.events read.1.items) }
    ensures fault { IfErr result (λ fault. fault.cause ≢ Cause.OutOfMemory
        → MeansFault text.now fault.line fault.cause) }
    ensures memory { IfErr result (λ fault. fault.cause ≡ Cause.OutOfMemory
        → RanOutAt text.now fault.line) }
{
    if text.len() > MAX_INPUT_BYTES {
        return Err(TextFault {
            line: 0,
            cause: Cause::InputTooLong,
        });
    }
    let mut builder = Builder::new(alloc);
    let mut lines = Vec::new(alloc);
    read_lines(alloc, &mut builder, wanted, &mut lines, text)?;
    Ok((builder.finish(), lines))
}

/// The history that a text means, or the first line that is refused, with its first cause.
///
/// `OutOfMemory` is returned only where memory was refused while its line was read; it may be in place of that line's own
/// causes, the length of the line apart.
pub fn read_history(alloc: Global, text: &[u8]) -> Result<History, TextFault>
    ensures history { IfOk result (MeansHistory text.now) }
    ensures fault { IfErr result (λ fault. fault.cause ≢ Cause.OutOfMemory
        → MeansFault text.now fault.line fault.cause) }
    ensures memory { IfErr result (λ fault. fault.cause ≡ Cause.OutOfMemory
        → RanOutAt text.now fault.line) }
{
    let (history, _) = read_text(alloc, text, false)?;
    Ok(history)
}

/// The history that a text means, as `read_history` gives it, and the line of each of its events: that of the event of
/// number n has the index n - 1. Lines count from 1, blank ones too. Refusals as those of `read_history`.
pub fn read_history_and_lines(alloc: Global, text: &[u8]) -> Result<(History, Vec<u64>), TextFault>
    ensures history { IfOk result (λ read. MeansHistory text.now read.0) }
    ensures lines { IfOk result (λ read. AreEventLines text.now read.0.events read.1.items) }
    ensures fault { IfErr result (λ fault. fault.cause ≢ Cause.OutOfMemory
        → MeansFault text.now fault.line fault.cause) }
    ensures memory { IfErr result (λ fault. fault.cause ≡ Cause.OutOfMemory
        → RanOutAt text.now fault.line) }
{
    read_text(alloc, text, true)
}
