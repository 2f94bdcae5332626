//! The calls of a problem by value, so that those on a few values are found without passing over all.

use crate::call_places::{Place, is_idle, place_of, source_of};
use crate::selection::{MapKey, Selection};
use indexmap::IndexMap;
use lin_history::{Problem, ProblemCall};
use lin_object::{AnyObject, Op, Reply};
use std::alloc::{AllocError, Global};

// How many values the calls of `cas` may bring in that expect them.
const MOST_SOURCES: usize = 64;

// A value with a call on it, or with a `cas` that expects it.
#[derive(Clone, Copy)]
struct Row {
    value: i64,
    call: usize,
    expects: bool,
}

/// The calls on one value.
#[derive(Drop)]
pub(crate) struct ValueCalls {
    /// The value.
    pub(crate) value: i64,
    /// The calls on it, in increasing order.
    pub(crate) calls: Vec<usize>,
    /// The calls of `cas` that expect it, put another there and may have answered 'yes'.
    pub(crate) takers: Vec<usize>,
}

impl ValueCalls {
    // A value with no call yet.
    fn new(alloc: Global, value: i64) -> Self {
        ValueCalls {
            value,
            calls: Vec::new(alloc),
            takers: Vec::new(alloc),
        }
    }

    // Puts the call behind those that are there.
    fn add(&mut self, row: &Row) -> Result<(), AllocError> {
        if row.expects {
            self.takers.push(row.call)?;
        } else {
            self.calls.push(row.call)?;
        }
        Ok(())
    }
}

/// The calls of a problem by the values that they are on.
#[derive(Drop)]
pub(crate) struct CallIndex {
    /// The key whose values these are, where those of one key are looked at.
    pub(crate) key: Option<MapKey>,
    /// The values, in increasing order, each with its calls.
    pub(crate) values: Vec<ValueCalls>,
    /// The calls that are on each value, in increasing order.
    pub(crate) anywhere: Vec<usize>,
}

// The rows of the call, and the call itself where it is on each value and has something to tell.
fn add_call(
    rows: &mut Vec<Row>,
    anywhere: &mut Vec<usize>,
    index: usize,
    place: Place,
    call: &ProblemCall<Op, Reply>,
) -> Result<(), AllocError> {
    if let Some(value) = source_of(call) {
        rows.push(Row {
            value,
            call: index,
            expects: true,
        })?;
    }
    match place {
        Place::At(value) => rows.push(Row {
            value,
            call: index,
            expects: false,
        })?,
        Place::Anywhere if call.returned.is_some() || !is_idle(call) => anywhere.push(index)?,
        Place::Anywhere | Place::Nowhere => {}
    }
    Ok(())
}

// Puts the row with those of its value, which are the last ones.
fn add_row(alloc: Global, values: &mut Vec<ValueCalls>, row: &Row) -> Result<(), AllocError> {
    let is_new = match values.last() {
        Some(last) => last.value != row.value,
        None => true,
    };
    if is_new {
        values.push(ValueCalls::new(alloc, row.value))?;
    }
    match values.last_mut() {
        Some(last) => last.add(row),
        None => Ok(()),
    }
}

impl CallIndex {
    /// These calls of the problem, where some of all values are looked at, or of those of a key. It takes O(n log n) for n calls.
    /// `AllocError` where memory was refused.
    pub(crate) fn new(
        alloc: Global,
        problem: &Problem<AnyObject>,
        calls: &[usize],
        key: Option<MapKey>,
    ) -> Result<Self, AllocError> {
        let mut rows = Vec::with_capacity(alloc, calls.len())?;
        let mut anywhere = Vec::new(alloc);
        for index in calls {
            if let Some(call) = problem.calls().get(*index) {
                let place = place_of(&key, call);
                add_call(&mut rows, &mut anywhere, *index, place, call)?;
            }
        }
        rows.sort_by_key(|row| row.value)?;
        let mut values = Vec::new(alloc);
        for row in &rows {
            add_row(alloc, &mut values, row)?;
        }
        Ok(CallIndex {
            key,
            values,
            anywhere,
        })
    }

    /// The calls on the value, if there are any.
    pub(crate) fn at(&self, value: i64) -> Option<&ValueCalls> {
        match self.values.binary_search_by_key(&value, |one| one.value) {
            Ok(index) => self.values.get(index),
            Err(_) => None,
        }
    }
}

// Appends those of the calls that were called by the event.
fn add_calls_by(
    calls: &mut Vec<usize>,
    problem: &Problem<AnyObject>,
    more: &[usize],
    event: u32,
) -> Result<(), AllocError> {
    for index in more {
        match problem.calls().get(*index) {
            Some(call) if call.called <= event => calls.push(*index)?,
            _ => {}
        }
    }
    Ok(())
}

// Adds what the calls of `cas` on the value expect, where it is not there yet.
fn add_sources(
    values: &mut IndexMap<i64, ()>,
    problem: &Problem<AnyObject>,
    on_value: &[usize],
) -> Result<(), AllocError> {
    for index in on_value {
        if let Some(source) = problem.calls().get(*index).and_then(source_of) {
            values.insert(source, ())?;
        }
    }
    Ok(())
}

/// The values, with all that the calls of `cas` on them expect, in increasing order. Where those are too many some are missing.
pub(crate) fn with_sources(
    alloc: Global,
    problem: &Problem<AnyObject>,
    index: &CallIndex,
    values: &[i64],
) -> Result<Vec<i64>, AllocError> {
    let mut all = IndexMap::new(alloc);
    for value in values {
        all.insert(*value, ())?;
    }
    for i in 0..values.len().saturating_add(MOST_SOURCES) {
        let Some((value, _)) = all.get_index(i) else {
            break;
        };
        if let Some(on_value) = index.at(*value) {
            add_sources(&mut all, problem, on_value.calls.as_slice())?;
        }
    }
    let mut closed: Vec<i64> = all.keys().copied().collect(alloc)?;
    closed.sort_unstable();
    Ok(closed)
}

/// The selection of all calls on the values, which are in increasing order, after the event.
pub(crate) fn selection_of(
    alloc: Global,
    problem: &Problem<AnyObject>,
    index: &CallIndex,
    values: Vec<i64>,
    event: u32,
) -> Result<Selection, AllocError> {
    let mut calls = Vec::new(alloc);
    add_calls_by(&mut calls, problem, index.anywhere.as_slice(), event)?;
    for value in &values {
        if let Some(on_value) = index.at(*value) {
            add_calls_by(&mut calls, problem, on_value.calls.as_slice(), event)?;
        }
    }
    calls.sort_unstable();
    Ok(Selection::new(alloc, event, index.key, values, calls))
}
