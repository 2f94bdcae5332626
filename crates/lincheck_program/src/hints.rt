//! What helps with a text that is refused, where its answer alone does not say what to do: what was there, and what is allowed.

mod before;
mod looks;
mod refused_line;
mod seen;
mod words;

use before::{Before, declared, hint_of_pending, hint_of_too_many, kind_named};
use lin_history::{MAX_NAME_BYTES, MAX_OBJECTS};
use lin_object::{Kind, kind_of_name};
use lin_text::{Cause, TextFault};
use looks::look_of;
use refused_line::RefusedLine;
use seen::{is_text_in, is_text_there, seen, word_at};
use serde_json::Value;
use std::alloc::{AllocError, Global};
use words::{EVENTS, KINDS, NUMBERS, RESULTS, arguments_of, kind_word, operations_of};

// What helps, as it stands here.
fn said(alloc: Global, words: &str) -> Result<String, AllocError> {
    format!(in alloc; "{words}")
}

// What stands in the line under a key, and what is allowed there.
fn seen_and(alloc: Global, value: &Value, key: &str, allowed: &str) -> Result<String, AllocError> {
    let seen = seen(alloc, value, key)?;
    format!(in alloc; "{seen}; {allowed}")
}

// Whether something stands in the line under a key.
fn has(value: &Value, key: &str) -> bool {
    value.get(key).is_some()
}

// What helps with an event that is none.
fn hint_of_event(alloc: Global, value: &Value) -> Result<String, AllocError> {
    match word_at(value, "event") {
        Some("fail") => said(alloc, "\"fail\" needs {\"format\":2} as the first line"),
        Some("info") => said(alloc, "\"info\" needs {\"format\":2} as the first line"),
        None if has(value, "type") && has(value, "f") => {
            said(
                alloc,
                "this looks like an event of Jepsen; bin/from-jepsen makes a history of such events",
            )
        }
        None if has(value, "ClientId") => {
            said(
                alloc,
                "this looks like an operation of Porcupine; bin/from-porcupine makes a history of such operations",
            )
        }
        _ => seen_and(alloc, value, "event", EVENTS),
    }
}

// The kind that the line declares.
fn kind_at(value: &Value) -> Option<Kind> {
    kind_of_name(word_at(value, "kind")?)
}

// Whether the line declares a kind that has no start.
fn has_no_start(value: &Value) -> bool {
    match kind_at(value) {
        Some(kind) => !kind.starts_with_number(),
        None => false,
    }
}

// What helps with a start that is none.
fn hint_of_start(alloc: Global, value: &Value) -> Result<String, AllocError> {
    if has_no_start(value) {
        return said(alloc, "only a register and a counter have a \"start\"");
    }
    let allowed = "a start is a whole number from -2^63 to 2^63-1";
    seen_and(alloc, value, "start", allowed)
}

// What helps with an operation that the object's kind has not.
fn hint_of_operation(alloc: Global, value: &Value, before: &Before) -> Result<String, AllocError> {
    let seen = seen(alloc, value, "op")?;
    match kind_named(before, word_at(value, "object")) {
        Some(kind) => {
            let operations = operations_of(kind);
            let kind = kind_word(kind);
            format!(in alloc; "{seen}; {kind} has {operations}")
        }
        None => Ok(seen),
    }
}

// What helps with arguments that the operation does not take.
fn hint_of_arguments(alloc: Global, value: &Value, before: &Before) -> Result<String, AllocError> {
    if is_text_in(value, "args") {
        return seen_and(alloc, value, "args", NUMBERS);
    }
    let seen = seen(alloc, value, "args")?;
    match (
        kind_named(before, word_at(value, "object")),
        word_at(value, "op"),
    ) {
        (Some(kind), Some(op)) => {
            let takes = arguments_of(kind, op);
            let kind = kind_word(kind);
            format!(in alloc; "{seen}; \"{op}\" of {kind} takes {takes}")
        }
        _ => Ok(seen),
    }
}

// What helps with a result that is none.
fn hint_of_result(alloc: Global, value: &Value) -> Result<String, AllocError> {
    let seen = seen_and(alloc, value, "result", RESULTS)?;
    if is_text_there(value, "result") {
        format!(in alloc; "{seen}; {NUMBERS}")
    } else {
        Ok(seen)
    }
}

// What helps with a line that is a JSON object, and was refused for this.
fn hint_of_value(
    alloc: Global,
    value: &Value,
    before: &Before,
    cause: Cause,
) -> Result<String, AllocError> {
    match cause {
        Cause::BadEvent => hint_of_event(alloc, value),
        Cause::BadProcess => {
            seen_and(
                alloc,
                value,
                "process",
                "a process is a whole number from 0 to 4294967295",
            )
        }
        Cause::BadObject => {
            let seen = seen(alloc, value, "object")?;
            format!(in alloc;
                "{seen}; a name has 1 to {MAX_NAME_BYTES} bytes, of A-Z a-z 0-9 _ . / : -"
            )
        }
        Cause::UnknownObject => {
            let declared = declared(alloc, before)?;
            seen_and(alloc, value, "object", declared.as_str())
        }
        Cause::BadKind => seen_and(alloc, value, "kind", KINDS),
        Cause::BadStart => hint_of_start(alloc, value),
        Cause::BadOp => hint_of_operation(alloc, value, before),
        Cause::BadArgs => hint_of_arguments(alloc, value, before),
        Cause::BadResult => hint_of_result(alloc, value),
        Cause::Busy(process) | Cause::OtherObject(process) => {
            hint_of_pending(alloc, before, process)
        }
        Cause::TooManyObjects => {
            format!(in alloc; "there are {MAX_OBJECTS} at most; some may have a text of their own")
        }
        Cause::TooManyCalls => hint_of_too_many(alloc, before, word_at(value, "object")),
        _ => said(alloc, words_for(cause)),
    }
}

// What helps whatever the line says.
fn words_for(cause: Cause) -> &'static str {
    match cause {
        Cause::InputTooLong => {
            "objects are judged one by one, so each may have a text of its own"
        }
        Cause::BadFormat => "the header is {\"format\":2}; a text without one is of format 1",
        Cause::Declared => "an object is declared once, before its first call",
        Cause::ProcessEnded(_) => {
            "an \"info\" ended it; a client that comes back takes a new process number"
        }
        Cause::NoCall(_) => {
            "a \"return\", a \"fail\" or an \"info\" ends the call of the process that it names"
        }
        _ => "docs/FORMAT.md says what a line may hold",
    }
}

// What helps with a line that was refused for this, after these lines.
fn hint_of_line(
    alloc: Global,
    refused: &RefusedLine<'_>,
    cause: Cause,
) -> Result<String, AllocError> {
    let Ok(value) = Value::from_slice(alloc, refused.line) else {
        return said(alloc, words_for(cause));
    };
    let before = Before::read(alloc, refused.before)?;
    hint_of_value(alloc, &value, &before, cause)
}

/// What helps with a text that is refused for this fault. `AllocError` where memory was refused.
pub fn hint_of(alloc: Global, text: &[u8], fault: &TextFault) -> Result<String, AllocError> {
    let refused = RefusedLine::of(text, fault.line);
    match fault.cause {
        Cause::NotJson | Cause::NotObject | Cause::LineTooLong => {
            said(alloc, look_of(text, refused.line).words())
        }
        cause => hint_of_line(alloc, &refused, cause),
    }
}
