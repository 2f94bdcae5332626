//! Values on which the calls of a register, or of a key of a map, may have no linearization, by the faults that registers have in practice. All of it is
//! hints. (The zones of values written once: Gibbons and Korach 1997.)

use crate::call_index::CallIndex;
use crate::item_faults::{MOST, list_of};
use crate::item_times::{NEVER, return_of};
use crate::spans::{Span, Spans};
use lin_history::{Problem, ProblemCall};
use lin_object::{AnyObject, Op, Reply};
use std::alloc::{AllocError, Global};

// When a value was written and found.
#[derive(Clone, Copy)]
struct ValueTimes {
    value: i64,
    // How many calls wrote it; that it is there at the start counts as one.
    writes: usize,
    // When the first of them was called.
    write_called: u32,
    // When the first call returned that found it, and when the first one that wrote or found it did.
    found_returned: u32,
    first_returned: u32,
    // When the last call was called that wrote or found it.
    last_called: u32,
}

impl ValueTimes {
    // Of a value with no call.
    fn none(value: i64) -> Self {
        ValueTimes {
            value,
            writes: 0,
            write_called: NEVER,
            found_returned: NEVER,
            first_returned: NEVER,
            last_called: 0,
        }
    }

    // Written from the one event to the other.
    fn written(self, called: u32, returned: u32) -> Self {
        ValueTimes {
            writes: self.writes.saturating_add(1),
            write_called: u32::min(self.write_called, called),
            first_returned: u32::min(self.first_returned, returned),
            last_called: u32::max(self.last_called, called),
            ..self
        }
    }

    // Found from the one event to the other.
    fn found(self, called: u32, returned: u32) -> Self {
        ValueTimes {
            found_returned: u32::min(self.found_returned, returned),
            first_returned: u32::min(self.first_returned, returned),
            last_called: u32::max(self.last_called, called),
            ..self
        }
    }

    // With one call on it more.
    fn with(self, call: &ProblemCall<Op, Reply>) -> Self {
        match &call.op {
            Op::Read | Op::Lookup(_) => self.found(call.called, return_of(call)),
            Op::Cas(from, to) if *from == *to => self.found_if_returned(call),
            _ => self.written(call.called, return_of(call)),
        }
    }

    // With one call more that found it, if it returned.
    fn found_if_returned(self, call: &ProblemCall<Op, Reply>) -> Self {
        match &call.returned {
            Some((number, _)) => self.found(call.called, *number),
            None => self,
        }
    }

    // Whether it was there at some moments for sure: from its first return to its last call.
    fn is_forward(&self) -> bool {
        self.first_returned < self.last_called
    }

    // Whether it was written once, and found or surely written.
    fn is_single(&self) -> bool {
        self.writes == 1 && self.first_returned < NEVER
    }

    // Whether it was found, and not written in time.
    fn is_in_vain(&self) -> bool {
        self.found_returned < self.write_called
    }
}

// When each value was written and found.
fn times_of_values(
    alloc: Global,
    problem: &Problem<AnyObject>,
    index: &CallIndex,
    start: Option<i64>,
) -> Result<Vec<ValueTimes>, AllocError> {
    let mut all = Vec::with_capacity(alloc, index.values.len())?;
    for on_value in &index.values {
        let mut times = ValueTimes::none(on_value.value);
        if start == Some(on_value.value) {
            times = times.written(0, 0);
        }
        for call in &on_value.calls {
            if let Some(call) = problem.calls().get(*call) {
                times = times.with(call);
            }
        }
        for call in &on_value.takers {
            if let Some(call) = problem.calls().get(*call) {
                times = times.found_if_returned(call);
            }
        }
        all.push(times)?;
    }
    Ok(all)
}

// When each of the values that were written once was surely there.
fn spans_of(alloc: Global, all: &[ValueTimes]) -> Result<Spans, AllocError> {
    let spans = all
        .iter()
        .filter(|times| times.is_single() && times.is_forward())
        .map(|times| Span {
            from: times.first_returned,
            until: times.last_called,
            name: times.value,
        });
    Spans::new(alloc, spans.collect(alloc)?)
}

// Values that were found and not written in time.
fn found_in_vain(
    alloc: Global,
    all: &[ValueTimes],
    found: &mut Vec<Vec<i64>>,
) -> Result<(), AllocError> {
    for times in all.iter().filter(|times| times.is_in_vain()).take(MOST) {
        found.push(list_of(alloc, &[times.value])?)?;
    }
    Ok(())
}

// Two values that would each have to be written before the other: one of them was surely there while the other was, or had to be.
fn crossed(
    alloc: Global,
    spans: &Spans,
    all: &[ValueTimes],
    found: &mut Vec<Vec<i64>>,
) -> Result<(), AllocError> {
    let most = found.len().saturating_add(MOST);
    for times in all.iter().filter(|times| times.is_single()) {
        if found.len() >= most {
            break;
        }
        let (from, until) = if times.is_forward() {
            (times.first_returned, times.first_returned)
        } else {
            (times.last_called, times.first_returned)
        };
        match spans.last_before(from) {
            Some(other) if until < other.until => {
                found.push(list_of(alloc, &[other.name, times.value])?)?;
            }
            _ => {}
        }
    }
    Ok(())
}

/// Lists of values: of each list the calls may have no linearization. It takes O(n log n) for n calls.
pub(crate) fn value_faults(
    alloc: Global,
    problem: &Problem<AnyObject>,
    index: &CallIndex,
    start: Option<i64>,
) -> Result<Vec<Vec<i64>>, AllocError> {
    let mut found = Vec::new(alloc);
    let all = times_of_values(alloc, problem, index, start)?;
    let spans = spans_of(alloc, all.as_slice())?;
    found_in_vain(alloc, all.as_slice(), &mut found)?;
    crossed(alloc, &spans, all.as_slice(), &mut found)?;
    Ok(found)
}
