//! The calls that do not leave a value, in the order of their returns. It is a hint.

use crate::kept::kept;
use crate::values::call_values::{CallValues, returned_at};
use std::alloc::{AllocError, Global};

// No call has this number.
const NO_CALL: u16 = u16::MAX;

// Of the calls up to a place the one that was called last; and of those that do not leave the same value alone.
#[derive(Clone, Copy)]
struct Last {
    most: u16,
    other: u16,
}

/// The calls in the order of their returns, and for each the last up to it.
#[derive(Drop)]
pub(crate) struct LastBreaks {
    rows: Vec<u16>,
    last: Vec<Last>,
}

// The calls that leave no value, or one alone, in the order of their returns.
fn breaks_in_order(alloc: Global, calls: &[CallValues]) -> Result<Vec<u16>, AllocError> {
    let mut rows = Vec::new(alloc);
    for call in 0..calls.len() {
        if calls[call].breaks() {
            rows.push(kept(call))?;
        }
    }
    rows.sort_by_key(|call| returned_at(calls, *call as usize))?;
    Ok(rows)
}

// Whether the first was called later.
fn is_later(calls: &[CallValues], one: u16, other: u16) -> bool {
    match (calls.get(one as usize), calls.get(other as usize)) {
        (Some(values), Some(last)) => values.called > last.called,
        _ => true,
    }
}

// The value that the call leaves alone.
fn only_left(calls: &[CallValues], call: u16) -> Option<i64> {
    calls.get(call as usize)?.only()
}

// Whether they leave the same value alone.
fn leaves_same(calls: &[CallValues], one: u16, other: u16) -> bool {
    match (only_left(calls, one), only_left(calls, other)) {
        (Some(value), Some(same)) => value == same,
        _ => false,
    }
}

impl Last {
    // With a call more.
    fn with(&self, calls: &[CallValues], one: u16) -> Self {
        if is_later(calls, one, self.most) {
            let other = if leaves_same(calls, one, self.most) {
                self.other
            } else {
                self.most
            };
            return Last { most: one, other };
        }
        if !leaves_same(calls, one, self.most) && is_later(calls, one, self.other) {
            return Last {
                most: self.most,
                other: one,
            };
        }
        *self
    }

    // The last that does not leave the value; it may be no call.
    fn breaking(&self, calls: &[CallValues], value: i64) -> u16 {
        match only_left(calls, self.most) {
            Some(only) if only == value => self.other,
            _ => self.most,
        }
    }
}

impl LastBreaks {
    /// Those of these calls.
    pub(crate) fn new(alloc: Global, calls: &[CallValues]) -> Result<Self, AllocError> {
        let rows = breaks_in_order(alloc, calls)?;
        let mut last = Vec::with_capacity(alloc, rows.len())?;
        let mut so_far = Last {
            most: NO_CALL,
            other: NO_CALL,
        };
        for call in &rows {
            so_far = so_far.with(calls, *call);
            last.push(so_far)?;
        }
        Ok(LastBreaks { rows, last })
    }

    /// Of these calls, by which the rows were made, those that returned before the event and do not leave the value: the one that was
    /// called last.
    pub(crate) fn last_before(
        &self,
        calls: &[CallValues],
        event: u32,
        value: i64,
    ) -> Option<usize> {
        let count = self
            .rows
            .as_slice()
            .partition_point(|call| returned_at(calls, *call as usize) < event);
        let last = *self.last.get(count.checked_sub(1)?)?;
        Some(last.breaking(calls, value) as usize)
    }
}
