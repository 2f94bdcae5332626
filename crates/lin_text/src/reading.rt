//! From a line's JSON value to its event, or its first cause.

ghost use Rattle.std.specs.Prelude.{◌≡◌, is_some, true, Some, Ok, Err, IfOk, IfErr};
ghost use Rattle.serde_json.specs.Find.{as_object};
ghost use Rattle.lin_history.specs.Recorder.Recording.{kind_named};
ghost use Rattle.lin_history.specs.Recorder.Found.{IsFound};
ghost use Rattle.lin_history.specs.Refusals.{first_that_holds};
ghost use Rattle.lin_text.specs.Fields.{event_kind_in, process_in, name_in, declared_kind};
ghost use Rattle.lin_text.specs.Line.{object_conditions, naming_conditions, Tells, IsFoundIn};

use crate::cause::Cause;
use crate::fields::{
    event_kind_of, kind_of, name_of, named_text_of, op_of, process_of, reply_of, start_of,
    states_two,
};
use crate::line::{EventKind, Format, Line};
use crate::line_value::LineValue;
use lin_history::{Builder, FoundObject, is_name};
use std::alloc::Global;

// The declaration that a value is, or its first cause.
fn declaration_of<'v, V: LineValue>(
    format: Format,
    builder: &Builder,
    value: &'v V,
) -> Result<Line<'v>, Cause>
    requires object { is_some (as_object (V.json value.now)) ≡ true }
    requires kind { event_kind_in format (V.json value.now) ≡ Some EventKind.Declaration }
    ensures { Tells format (kind_named builder.now) (V.json value.now) result }
{
    let Some(name) = name_of(value) else {
        return Err(Cause::BadObject);
    };
    let Some(kind) = kind_of(value) else {
        return Err(Cause::BadKind);
    };
    let Some(start) = start_of(kind, value) else {
        return Err(Cause::BadStart);
    };
    Ok(Line::Declare(name, kind, start))
}

// What an event of a process names: the process, and the object.
#[derive(Clone, Copy)]
struct Named<'v> {
    process: u32,
    object: FoundObject<'v>,
}

// The object that a value names, or the first cause that it names none.
fn object_in<'v, V: LineValue>(builder: &Builder, value: &'v V) -> Result<FoundObject<'v>, Cause>
    ensures found { IfOk result (IsFound builder.now) }
    ensures object { IfOk result (λ object. name_in (V.json value.now) ≡ Some object.name.now) }
    ensures kind { IfOk result (λ object. declared_kind (kind_named builder.now)
        (V.json value.now) ≡ Some object.kind) }
    ensures err { IfErr result (λ cause. first_that_holds (object_conditions
        (kind_named builder.now) (V.json value.now)) ≡ Some cause) }
{
    let Some(name) = named_text_of(value) else {
        return Err(Cause::BadObject);
    };
    match builder.find(name) {
        Some(object) => Ok(object),
        None if is_name(name) => Err(Cause::UnknownObject),
        None => Err(Cause::BadObject),
    }
}

// What a value names that is an event of a process, or the first cause that it does not.
fn named_in<'v, V: LineValue>(builder: &Builder, value: &'v V) -> Result<Named<'v>, Cause>
    ensures process { IfOk result (λ named. process_in (V.json value.now) ≡ Some named.process) }
    ensures found { IfOk result (λ named. IsFound builder.now named.object) }
    ensures object { IfOk result (λ named. name_in (V.json value.now)
        ≡ Some named.object.name.now) }
    ensures kind { IfOk result (λ named. declared_kind (kind_named builder.now)
        (V.json value.now) ≡ Some named.object.kind) }
    ensures err { IfErr result (λ cause. first_that_holds (naming_conditions
        (kind_named builder.now) (V.json value.now)) ≡ Some cause) }
{
    let Some(process) = process_of(value) else {
        return Err(Cause::BadProcess);
    };
    let object = object_in(builder, value)?;
    Ok(Named { process, object })
}

// The call that a value is, or its first cause.
fn call_of<'v, V: LineValue>(
    alloc: Global,
    format: Format,
    builder: &Builder,
    value: &'v V,
) -> Result<Line<'v>, Cause>
    requires object { is_some (as_object (V.json value.now)) ≡ true }
    requires kind { event_kind_in format (V.json value.now) ≡ Some EventKind.Call }
    ensures tells { Tells format (kind_named builder.now) (V.json value.now) result }
    ensures found { IfOk result (IsFoundIn builder.now) }
{
    let named = named_in(builder, value)?;
    let op = op_of(alloc, named.object.kind, value)?;
    Ok(Line::Call(named.process, named.object, op))
}

// The return that a value is, or its first cause.
fn return_of<'v, V: LineValue>(
    format: Format,
    builder: &Builder,
    value: &'v V,
) -> Result<Line<'v>, Cause>
    requires object { is_some (as_object (V.json value.now)) ≡ true }
    requires kind { event_kind_in format (V.json value.now) ≡ Some EventKind.Return }
    ensures tells { Tells format (kind_named builder.now) (V.json value.now) result }
    ensures found { IfOk result (IsFoundIn builder.now) }
{
    let named = named_in(builder, value)?;
    match reply_of(value) {
        Some(reply) => Ok(Line::Return(named.process, named.object, reply)),
        None => Err(Cause::BadResult),
    }
}

// The failure of a call that a value is, or its first cause.
fn fail_of<'v, V: LineValue>(
    format: Format,
    builder: &Builder,
    value: &'v V,
) -> Result<Line<'v>, Cause>
    requires object { is_some (as_object (V.json value.now)) ≡ true }
    requires kind { event_kind_in format (V.json value.now) ≡ Some EventKind.Fail }
    ensures tells { Tells format (kind_named builder.now) (V.json value.now) result }
    ensures found { IfOk result (IsFoundIn builder.now) }
{
    let named = named_in(builder, value)?;
    Ok(Line::Fail(named.process, named.object))
}

// The end of a process that a value is, or its first cause.
fn info_of<'v, V: LineValue>(
    format: Format,
    builder: &Builder,
    value: &'v V,
) -> Result<Line<'v>, Cause>
    requires object { is_some (as_object (V.json value.now)) ≡ true }
    requires kind { event_kind_in format (V.json value.now) ≡ Some EventKind.Info }
    ensures tells { Tells format (kind_named builder.now) (V.json value.now) result }
    ensures found { IfOk result (IsFoundIn builder.now) }
{
    let named = named_in(builder, value)?;
    Ok(Line::Info(named.process, named.object))
}

// The header that a value is, or its first cause.
fn header_of<'v, V: LineValue>(
    format: Format,
    builder: &Builder,
    value: &'v V,
) -> Result<Line<'v>, Cause>
    requires object { is_some (as_object (V.json value.now)) ≡ true }
    requires kind { event_kind_in format (V.json value.now) ≡ Some EventKind.Header }
    ensures { Tells format (kind_named builder.now) (V.json value.now) result }
{
    if states_two(value) {
        Ok(Line::Header)
    } else {
        Err(Cause::BadFormat)
    }
}

/// The event that a value is in a text of this format, or the header, or the first cause that it has.
pub(crate) fn read_value<'v, V: LineValue>(
    alloc: Global,
    format: Format,
    builder: &Builder,
    value: &'v V,
) -> Result<Line<'v>, Cause>
    ensures tells { Tells format (kind_named builder.now) (V.json value.now) result }
    ensures found { IfOk result (IsFoundIn builder.now) }
{
    if !value.is_object() {
        return Err(Cause::NotObject);
    }
    let Some(kind) = event_kind_of(format, value) else {
        return Err(Cause::BadEvent);
    };
    match kind {
        EventKind::Header => header_of(format, builder, value),
        EventKind::Declaration => declaration_of(format, builder, value),
        EventKind::Call => call_of(alloc, format, builder, value),
        EventKind::Return => return_of(format, builder, value),
        EventKind::Fail => fail_of(format, builder, value),
        EventKind::Info => info_of(format, builder, value),
    }
}
