//! The fields of a line's JSON value.

ghost use Rattle.std.specs.Prelude.{◌≡◌, ◌≢◌, codes, option_map, IfOk, IfErr, Ok, Err};
ghost use Rattle.lin_text.specs.Fields.{text_at, is_header, kind_by_word, has_kind, event_kind_in, states_two, process_in, name_in, kind_in, start_at, reply_in, arguments_in, op_at};

use crate::cause::Cause;
use crate::line::{EventKind, Format};
use crate::line_value::LineValue;
use crate::wholes::Numbers;
use lin_history::is_name;
use lin_object::{Kind, Op, OpFault, Reply, is_op, kind_of_name, read_op};
use std::alloc::{AllocError, Global};

// Whether the line is a header: the first of its text, with a format and with no event.
#[tactic(auto, unfolding(crate::specs::Fields::is_header))]
fn is_header<V: LineValue>(format: Format, value: &V) -> bool
    ensures { result ≡ is_header format (V.json value.now) }
{
    match format {
        Format::Unstated => value.has("format") && !value.has("event"),
        Format::One | Format::Two => false,
    }
}

// The kind of event by its word.
#[tactic(auto, unfolding(crate::specs::Fields::kind_by_word))]
fn kind_by_word<V: LineValue>(value: &V) -> Option<EventKind>
    ensures { result ≡ kind_by_word (V.json value.now) }
{
    let word = value.text_at("event")?;
    match word {
        "object" => Some(EventKind::Declaration),
        "call" => Some(EventKind::Call),
        "return" => Some(EventKind::Return),
        "fail" => Some(EventKind::Fail),
        "info" => Some(EventKind::Info),
        _ => None,
    }
}

// Whether a text of this format may have events of this kind.
fn has_kind(format: Format, kind: EventKind) -> bool
    ensures { result ≡ has_kind format kind }
{
    match kind {
        EventKind::Fail | EventKind::Info => matches!(format, Format::Two),
        EventKind::Header | EventKind::Declaration | EventKind::Call | EventKind::Return => true,
    }
}

/// Which kind of event the line is, in a text of this format, or that it is the header.
#[tactic(auto, unfolding(crate::specs::Fields::event_kind_in))]
pub(crate) fn event_kind_of<V: LineValue>(format: Format, value: &V) -> Option<EventKind>
    ensures { result ≡ event_kind_in format (V.json value.now) }
{
    if is_header(format, value) {
        return Some(EventKind::Header);
    }
    match kind_by_word(value) {
        Some(kind) => {
            if has_kind(format, kind) {
                Some(kind)
            } else {
                None
            }
        }
        None => None,
    }
}

/// Whether the format of a header is 2.
#[tactic(auto, unfolding(crate::specs::Fields::states_two))]
pub(crate) fn states_two<V: LineValue>(value: &V) -> bool
    ensures { result ≡ states_two (V.json value.now) }
{
    match value.whole_at("format") {
        Some(number) => number == 2,
        None => false,
    }
}

/// The process's number.
#[tactic(auto, unfolding(crate::specs::Fields::process_in))]
pub(crate) fn process_of<V: LineValue>(value: &V) -> Option<u32>
    ensures { result ≡ process_in (V.json value.now) }
{
    let number = value.whole_at("process")?;
    u32::try_from(number).ok()
}

/// The text where the name of the object is.
pub(crate) fn named_text_of<V: LineValue>(value: &V) -> Option<&str>
    ensures { option_map (λ text. text.now) result ≡ text_at (codes "object") (V.json value.now) }
{
    value.text_at("object")
}

/// The name of the object.
#[tactic(auto, unfolding(crate::specs::Fields::name_in))]
pub(crate) fn name_of<V: LineValue>(value: &V) -> Option<&str>
    ensures { option_map (λ name. name.now) result ≡ name_in (V.json value.now) }
{
    let name = named_text_of(value)?;
    if is_name(name) { Some(name) } else { None }
}

/// The kind of a declared object.
#[tactic(auto, unfolding(crate::specs::Fields::kind_in))]
pub(crate) fn kind_of<V: LineValue>(value: &V) -> Option<Kind>
    ensures { result ≡ kind_in (V.json value.now) }
{
    let word = value.text_at("kind")?;
    kind_of_name(word)
}

/// The number that a declared object starts with; 0 where none is given.
#[tactic(auto, unfolding(crate::specs::Fields::start_at))]
pub(crate) fn start_of<V: LineValue>(kind: Kind, value: &V) -> Option<i64>
    ensures { result ≡ start_at kind (V.json value.now) }
{
    if !value.has("start") {
        return Some(0);
    }
    if kind.starts_with_number() {
        value.whole_at("start")
    } else {
        None
    }
}

/// The reply of a return.
#[tactic(auto, unfolding(crate::specs::Fields::reply_in))]
pub(crate) fn reply_of<V: LineValue>(value: &V) -> Option<Reply>
    ensures { result ≡ reply_in (V.json value.now) }
{
    value.reply_at("result")
}

// The arguments of a call; `None` where they are no whole numbers.
#[tactic(auto, unfolding(crate::specs::Fields::arguments_in))]
fn arguments_of<V: LineValue>(alloc: Global, value: &V) -> Result<Option<Numbers>, AllocError>
    ensures { IfOk result (λ found. option_map (λ v. v.items) found
        ≡ arguments_in (V.json value.now)) }
{
    value.wholes_at(alloc, "args")
}

/// The operation of a call on an object of the kind, or what is wrong with it.
#[tactic(auto, unfolding(crate::specs::Fields::maker_at))]
pub(crate) fn op_of<V: LineValue>(alloc: Global, kind: Kind, value: &V) -> Result<Op, Cause>
    ensures ok { IfOk result (λ op. op_at kind (V.json value.now) ≡ Ok op) }
    ensures err { IfErr result (λ cause. cause ≢ Cause.OutOfMemory
        → op_at kind (V.json value.now) ≡ Err cause) }
{
    let Some(word) = value.text_at("op") else {
        return Err(Cause::BadOp);
    };
    if !is_op(kind, word) {
        return Err(Cause::BadOp);
    }
    let Ok(arguments) = arguments_of(alloc, value) else {
        return Err(Cause::OutOfMemory);
    };
    let Some(arguments) = arguments else {
        return Err(Cause::BadArgs);
    };
    match read_op(kind, word, arguments.as_slice()) {
        Ok(op) => Ok(op),
        Err(OpFault::BadOp) => Err(Cause::BadOp),
        Err(OpFault::BadArgs) => Err(Cause::BadArgs),
    }
}
