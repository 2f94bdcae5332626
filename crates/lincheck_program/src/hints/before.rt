//! What the lines before a refused one say: they are a history.

use lin_history::{CallInfo, History, MAX_CALLS, MAX_CALLS_ON_OBJECT};
use lin_object::Kind;
use lin_text::read_history_and_lines;
use std::alloc::{AllocError, Global};

// So many names of objects are shown at most.
const MOST_NAMES: usize = 8;

/// The history that the lines before say, and on which line each of its events is.
#[derive(Drop)]
pub struct Before {
    history: History,
    lines: Vec<u64>,
}

impl Before {
    /// What these lines say, of which none is refused. `AllocError` where memory was refused.
    pub fn read(alloc: Global, text: &[u8]) -> Result<Before, AllocError> {
        match read_history_and_lines(alloc, text) {
            Ok((history, lines)) => Ok(Before { history, lines }),
            Err(_) => Err(AllocError),
        }
    }

    // The pending call of a process.
    fn pending(&self, process: u32) -> Option<&CallInfo> {
        for index in 0..self.history.call_count() {
            let call = self.history.call(index);
            if call.process == process && call.returned.is_none() {
                return Some(call);
            }
        }
        None
    }

    // How many calls there are on the object of this name.
    fn calls_on(&self, name: Option<&str>) -> usize {
        let mut count = 0usize;
        for index in 0..self.history.call_count() {
            let object = self.history.call(index).object as usize;
            if Some(self.history.object(object).name) == name {
                count = count.saturating_add(1);
            }
        }
        count
    }

    // The line on which the event of this number is.
    fn line_of(&self, event: u32) -> u64 {
        self.lines
            .get((event as usize).saturating_sub(1))
            .copied()
            .unwrap_or(0)
    }
}

/// The kind of the object of this name, where it is declared.
pub fn kind_named(before: &Before, name: Option<&str>) -> Option<Kind> {
    for index in 0..before.history.object_count() {
        let object = before.history.object(index);
        if Some(object.name) == name {
            return Some(object.kind);
        }
    }
    None
}

/// Which objects are declared, as it is told where one is not.
pub fn declared(alloc: Global, before: &Before) -> Result<String, AllocError> {
    let count = before.history.object_count();
    if count == 0 {
        return format!(in alloc; "no object is declared before");
    }
    let mut names = String::new(alloc);
    for object in 0..count.min(MOST_NAMES) {
        let name = before.history.object(object).name;
        let comma = if object == 0 { "" } else { ", " };
        write!(&mut names, "{comma}{name}")?;
    }
    let more = if count > MOST_NAMES { ", .." } else { "" };
    format!(in alloc; "declared before are {names}{more}")
}

/// What helps where a process has a pending call: which it is.
pub fn hint_of_pending(alloc: Global, before: &Before, process: u32) -> Result<String, AllocError> {
    let Some(call) = before.pending(process) else {
        return format!(in alloc; "a process makes one call at a time");
    };
    let op = call.op;
    let line = before.line_of(call.called);
    format!(in alloc; "it made the call {op} on line {line}; a process makes one call at a time")
}

/// What helps where there is no room for another call on the object of this name: which limit was met.
pub fn hint_of_too_many(
    alloc: Global,
    before: &Before,
    name: Option<&str>,
) -> Result<String, AllocError> {
    let calls = before.calls_on(name);
    if calls >= MAX_CALLS_ON_OBJECT {
        return format!(in alloc; "the object has {calls} calls, and no object may have more");
    }
    let calls = before.history.call_count();
    if calls >= MAX_CALLS {
        return format!(in alloc; "the history has {calls} calls, and none may have more");
    }
    format!(in alloc;
        "an object has at most {MAX_CALLS_ON_OBJECT} calls, a history {MAX_CALLS}, with those that failed"
    )
}
