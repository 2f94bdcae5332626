//! What each call on a register shows of its values: by it a search finds which calls to ask about. It is a hint.

use crate::values::shown_values::value_written;
use lin_history::ProblemCall;
use lin_object::{Op, Reply};
use std::alloc::{AllocError, Global};

// Beyond all events.
pub(crate) const BEHIND_ALL: u32 = u32::MAX;

// At which values a call leaves the register as it is.
#[derive(Clone, Copy)]
enum LeftAt {
    // At each value, as far as its reply shows.
    Each,
    // At no value: it writes another one than it finds.
    No,
    // At its value alone.
    Only,
    // At each other value than its own.
    Other,
}

/// What one call shows.
#[derive(Clone, Copy)]
pub(crate) struct CallValues {
    // The value that it may write; where there is none, the one that its reply shows, or 0.
    value: i64,
    /// When it was called.
    pub called: u32,
    /// When it returned; beyond all events where it did not.
    pub returned: u32,
    // The values at which it leaves the register as it is.
    left_at: LeftAt,
    // Whether it may write its value.
    writes: bool,
}

// The values at which the call leaves the register as it is, and the value that this speaks of, or 0.
fn left_at(call: &ProblemCall<Op, Reply>) -> (LeftAt, i64) {
    match (&call.op, &call.returned) {
        (_, None) => (LeftAt::Each, 0),
        (Op::Write(value), _) => (LeftAt::Only, *value),
        (Op::Read, Some((_, Reply::Int(value)))) => (LeftAt::Only, *value),
        (Op::Cas(wanted, _), Some((_, Reply::Flag(false)))) => (LeftAt::Other, *wanted),
        (Op::Cas(wanted, value), _) if *wanted == *value => (LeftAt::Only, *wanted),
        (Op::Cas(_, _), _) => (LeftAt::No, 0),
        _ => (LeftAt::Each, 0),
    }
}

// What the call shows.
fn values_of(call: &ProblemCall<Op, Reply>) -> CallValues {
    let returned = match &call.returned {
        Some((number, _)) => *number,
        None => BEHIND_ALL,
    };
    let (left_at, left) = left_at(call);
    let written = value_written(call);
    CallValues {
        value: written.unwrap_or(left),
        called: call.called,
        returned,
        left_at,
        writes: written.is_some(),
    }
}

/// What each call shows. `AllocError` where memory was refused.
pub(crate) fn values_of_each(
    alloc: Global,
    calls: &[ProblemCall<Op, Reply>],
) -> Result<Vec<CallValues>, AllocError> {
    let mut row = Vec::with_capacity(alloc, calls.len())?;
    for call in calls {
        row.push(values_of(call))?;
    }
    Ok(row)
}

/// When the call returned; beyond all events where it did not, or is no call.
pub(crate) fn returned_at(calls: &[CallValues], call: usize) -> u32 {
    match calls.get(call) {
        Some(values) => values.returned,
        None => BEHIND_ALL,
    }
}

impl CallValues {
    /// Whether the call returned.
    pub(crate) fn is_completed(&self) -> bool {
        self.returned < BEHIND_ALL
    }

    /// Whether the call may write a value.
    pub(crate) fn writes(&self) -> bool {
        self.writes
    }

    /// The value that the call may write.
    pub(crate) fn written(&self) -> Option<i64> {
        if self.writes { Some(self.value) } else { None }
    }

    /// Whether the call leaves this value, as far as its reply shows.
    pub(crate) fn leaves(&self, value: i64) -> bool {
        match self.left_at {
            LeftAt::Each => true,
            LeftAt::No => false,
            LeftAt::Only => self.value == value,
            LeftAt::Other => self.value != value,
        }
    }

    /// Whether the call leaves one value at most, and returned.
    pub(crate) fn breaks(&self) -> bool {
        match self.left_at {
            LeftAt::No | LeftAt::Only => self.is_completed(),
            LeftAt::Each | LeftAt::Other => false,
        }
    }

    /// The value at which alone the call leaves the register as it is.
    pub(crate) fn only(&self) -> Option<i64> {
        match self.left_at {
            LeftAt::Only => Some(self.value),
            LeftAt::Each | LeftAt::No | LeftAt::Other => None,
        }
    }

    /// Whether the call changes each value.
    pub(crate) fn changes(&self) -> bool {
        match self.left_at {
            LeftAt::No => true,
            _ => false,
        }
    }
}
