//! The calls that may write each value, in the order of their calls.

ghost use Rattle.std.specs.Prelude.{◌≡◌, ◌+◌, ◌*◌, ◌^◌, ◌<◌, ◌≤◌, ℕ, ℤ, Some, length, slice_get, IfOk, IfSome, IsTrue};
ghost use Rattle.std.specs.Ordering.{int_eq};
ghost use Rattle.indexmap.specs.IndexMap.{index_of};
ghost use Rattle.lin_ahead.specs.Values.Register.{value_written};
ghost use Rattle.lin_ahead.specs.Values.PossibleOwners.{Writes, AreTooMany};
ghost use Rattle.lin_ahead.specs.Values.Writers.{IsRun, AreRuns};
ghost use Rattle.lin_ahead.specs.Values.Writers.{low_at, low_by, returned_or_beyond, HaveAllRows, AreInOrder, NoneLater, AreUnder};

use crate::items::item_calls::BEYOND;
use crate::kept::kept;
use crate::sight::CALLS_IN_SIGHT;
use crate::values::breaking_calls::others_before;
use crate::values::shown_values::value_written;
use indexmap::IndexMap;
use lin_history::ProblemCall;
use lin_object::{Op, Reply};
use std::alloc::{AllocError, Global};

/// With more owners than this nothing is told of a call.
pub(crate) const MOST_OWNERS: usize = 64;

// The keys of a value that has rows begin below this.
const MOST_LOW: u64 = 1 << 63;

// With so many rows behind the one that is sought in front of the last row of a value, it is sought by halves.
const ROWS_AT_HAND: usize = 8;

/// A call that may write a value.
#[derive(Clone, Copy)]
pub(crate) struct Writer {
    /// The number of the value times 2^32, and when the call was called.
    pub key: u64,
    /// The call.
    pub call: usize,
    /// When it returned; beyond all events while it is pending.
    pub returned: u64,
}

/// The calls that may write values.
#[derive(Drop)]
pub(crate) struct Writers {
    /// Their rows, in the order of their keys.
    pub rows: Vec<Writer>,
    /// For each row a place from which on no row up to it returned later.
    pub under: Vec<usize>,
    /// For each value of the map from which key on its rows stand.
    pub lows: Vec<u64>,
    /// For each call one more than the last call before it that may break a value which this one does not break. A hint.
    pub others: Vec<u16>,
    // For each number of a value the place behind the last of its rows. A hint.
    ends: Vec<u16>,
    /// For each row how many calls up to its own may write its value, as far as they are counted.
    pub runs: Vec<usize>,
}

// From which key on the rows of the value with this index stand, if that is told.
fn low_at(lows: &[u64], index: usize) -> Option<u64>
    ensures is { result ≡ low_at (slice_get lows.now index) }
    ensures below { IfSome result (λ low. low < 2 ^ 63) }
{
    match lows.get(index) {
        Some(low) if *low < MOST_LOW => Some(*low),
        _ => None,
    }
}

/// From which key on the rows of the calls stand that may write the value, by that of each value of the map. `None` for a
/// value that is not in the map.
pub(crate) fn low_of(values: &IndexMap<i64, ()>, lows: &[u64], value: i64) -> Option<u64>
    ensures is { result ≡ low_by lows.now (index_of int_eq values.now value) }
    ensures below { IfSome result (λ low. low < 2 ^ 63) }
{
    low_at(lows, values.get_index_of(&value)?)
}

// For each value of the map from which key on its rows stand: its number times 2^32. Values are numbered from 1 on in the order in
// which calls write them, so that rows of values that are written once are in order from the beginning. A hint.
fn lows_of_values(
    alloc: Global,
    values: &IndexMap<i64, ()>,
    calls: &[ProblemCall<Op, Reply>],
) -> Result<Vec<u64>, AllocError> {
    let mut lows = vec![in alloc; 0u64; values.len()]?;
    let mut last: u64 = 0;
    for call in calls {
        if let Some(value) = value_written(call)
            && let Some(index) = values.get_index_of(&value)
            && let Some(low) = lows.get_mut(index)
            && *low == 0
        {
            last = last.saturating_add(BEYOND);
            *low = last;
        }
    }
    Ok(lows)
}

// When the call returned; beyond all events while it is pending.
fn returned_or_beyond(call: &ProblemCall<Op, Reply>) -> u64
    ensures { result ≡ returned_or_beyond call.now.returned }
{
    match &call.returned {
        Some((number, _)) => u64::from(*number),
        None => BEYOND,
    }
}

// The row of the call, if it may write a value that has a number.
fn writer_of(
    values: &IndexMap<i64, ()>,
    lows: &[u64],
    one: &ProblemCall<Op, Reply>,
    call: usize,
) -> Option<Writer>
    ensures { (v : ℤ) (n : ℕ) → value_written one.now.op one.now.returned ≡ Some v
        → low_by lows.now (index_of int_eq values.now v) ≡ Some n → result ≡ Some record {
          key = n + one.now.called;
          call = call;
          returned = returned_or_beyond one.now.returned;
        } }
{
    let low = low_of(values, lows, value_written(one)?)?;
    Some(Writer {
        key: low + u64::from(one.called),
        call,
        returned: returned_or_beyond(one),
    })
}

// The rows of all calls that may write values, in the order of the calls.
fn writers_by_calls(
    alloc: Global,
    values: &IndexMap<i64, ()>,
    lows: &[u64],
    calls: &[ProblemCall<Op, Reply>],
) -> Result<Vec<Writer>, AllocError>
    ensures { IfOk result (λ rows. HaveAllRows calls.now (λ v. low_by lows.now (index_of int_eq values.now v)) rows.items) }
{
    let mut rows = Vec::new(alloc);
    for call in 0..calls.len() {
        if let Some(row) = writer_of(values, lows, &calls[call], call) {
            rows.push(row)?;
        }
    }
    Ok(rows)
}

// The same in the order of their keys.
fn writers_in_order(
    alloc: Global,
    values: &IndexMap<i64, ()>,
    lows: &[u64],
    calls: &[ProblemCall<Op, Reply>],
) -> Result<Vec<Writer>, AllocError>
    ensures all { IfOk result (λ rows. HaveAllRows calls.now (λ v. low_by lows.now (index_of int_eq values.now v)) rows.items) }
    ensures order { IfOk result (λ rows. AreInOrder rows.items) }
{
    let mut rows = writers_by_calls(alloc, values, lows, calls)?;
    rows.sort_by_key(|one| one.key)?;
    Ok(rows)
}

// A place from which on no row up to this one returned later than it, by the same of each row before.
fn first_under(rows: &[Writer], under: &[usize], place: usize) -> usize
    requires place { place < length rows.now }
    requires each { length under.now ≡ place }
    requires none { (i first : ℕ) → slice_get under.now i ≡ Some first → (first ≤ i) × NoneLater rows.now first i }
    ensures { (result ≤ place) × NoneLater rows.now result place }
{
    let mut first = place;
    for _ in 0..CALLS_IN_SIGHT {
        if first == 0 || rows[first - 1].returned > rows[place].returned {
            return first;
        }
        first = under[first - 1];
    }
    first
}

// For each row a place from which on no row up to it returned later.
fn under_each(alloc: Global, rows: &[Writer]) -> Result<Vec<usize>, AllocError>
    ensures { IfOk result (λ under. AreUnder rows.now under.items) }
{
    let mut under = Vec::with_capacity(alloc, rows.len())?;
    for place in 0..rows.len() {
        let first = first_under(rows, under.as_slice(), place);
        under.push(first)?;
    }
    Ok(under)
}

/// Whether the call may write the value.
pub(crate) fn writes(calls: &[ProblemCall<Op, Reply>], value: i64, call: usize) -> bool
    ensures is { IsTrue result → Writes calls.now value call }
    ensures all { Writes calls.now value call → IsTrue result }
{
    match calls.get(call) {
        Some(one) => value_written(one) == Some(value),
        None => false,
    }
}

// Whether the call comes before the other one, and may write the value that this one may write.
fn goes_with(calls: &[ProblemCall<Op, Reply>], call: usize, other: usize) -> bool
    ensures { IsTrue result → (call < other) × ((v : ℤ) → Writes calls.now v other → Writes calls.now v call) }
{
    if call >= other {
        return false;
    }
    let Some(one) = calls.get(other) else {
        return false;
    };
    match value_written(one) {
        Some(value) => writes(calls, value, call),
        None => false,
    }
}

// How many calls up to that of the row may write its value, by how many they are up to that of the row before. They are counted
// as far as to one more than are told of.
fn run_at(calls: &[ProblemCall<Op, Reply>], rows: &[Writer], runs: &[usize], place: usize) -> usize
    requires place { place < length rows.now }
    requires each { length runs.now ≡ place }
    requires runs { AreRuns calls.now rows.now runs.now }
    ensures { (r : Writer) → slice_get rows.now place ≡ Some r → IsRun calls.now r.call result }
{
    if place == 0 {
        return 1;
    }
    if !goes_with(calls, rows[place - 1].call, rows[place].call) {
        return 1;
    }
    let before = runs[place - 1];
    if before > MOST_OWNERS {
        before
    } else {
        before + 1
    }
}

// For each row how many calls up to its own may write its value.
fn runs_each(
    alloc: Global,
    calls: &[ProblemCall<Op, Reply>],
    rows: &[Writer],
) -> Result<Vec<usize>, AllocError>
    ensures { IfOk result (λ runs. AreRuns calls.now rows.now runs.items) }
{
    let mut runs = Vec::with_capacity(alloc, rows.len())?;
    for place in 0..rows.len() {
        let run = run_at(calls, rows, runs.as_slice(), place);
        runs.push(run)?;
    }
    Ok(runs)
}

// Whether more calls than are told of may write the value, by the row at this place.
fn is_long(
    calls: &[ProblemCall<Op, Reply>],
    rows: &[Writer],
    runs: &[usize],
    value: i64,
    place: usize,
) -> bool
    requires { AreRuns calls.now rows.now runs.now }
    ensures { IsTrue result → AreTooMany calls.now value }
{
    let Some(run) = runs.get(place) else {
        return false;
    };
    let Some(row) = rows.get(place) else {
        return false;
    };
    MOST_OWNERS < *run && writes(calls, value, row.call)
}

// The number of the value, by a key of its rows.
fn number_of(key: u64) -> usize {
    (key / BEYOND) as usize
}

// For each of so many numbers the place behind the last of its rows. It is 0 for the number 0, which values without rows have.
fn ends_of_values(alloc: Global, rows: &[Writer], count: usize) -> Result<Vec<u16>, AllocError> {
    let mut ends = vec![in alloc; 0u16; count]?;
    for place in 0..rows.len() {
        if let Some(slot) = ends.get_mut(number_of(rows[place].key)) {
            *slot = kept(place + 1);
        }
    }
    Ok(ends)
}

impl Writers {
    /// The calls that may write values. `AllocError` where memory was refused.
    pub(crate) fn new(
        alloc: Global,
        values: &IndexMap<i64, ()>,
        calls: &[ProblemCall<Op, Reply>],
    ) -> Result<Self, AllocError>
        ensures all { IfOk result (λ writers. HaveAllRows calls.now
            (λ v. low_by writers.lows.items (index_of int_eq values.now v)) writers.rows.items) }
        ensures order { IfOk result (λ writers. AreInOrder writers.rows.items) }
        ensures under { IfOk result (λ writers. AreUnder writers.rows.items writers.under.items) }
        ensures runs { IfOk result (λ writers. AreRuns calls.now writers.rows.items writers.runs.items) }
    {
        let lows = lows_of_values(alloc, values, calls)?;
        let rows = writers_in_order(alloc, values, lows.as_slice(), calls)?;
        Ok(Writers {
            under: under_each(alloc, rows.as_slice())?,
            ends: ends_of_values(alloc, rows.as_slice(), values.len().saturating_add(1))?,
            others: others_before(alloc, calls)?,
            runs: runs_each(alloc, calls, rows.as_slice())?,
            lows,
            rows,
        })
    }

    // The place behind the last row of the value whose rows stand from this key on. A hint.
    fn end_of(&self, low: u64) -> usize {
        self.ends.get(number_of(low)).copied().unwrap_or(0) as usize
    }

    /// Whether more calls than are told of may write the value whose rows stand from this key on.
    pub(crate) fn are_too_many(
        &self,
        calls: &[ProblemCall<Op, Reply>],
        value: i64,
        low: u64,
    ) -> bool
        requires { AreRuns calls.now self.now.rows.items self.now.runs.items }
        ensures { IsTrue result → AreTooMany calls.now value }
    {
        let end = self.end_of(low);
        let place = end.saturating_sub(1);
        is_long(
            calls,
            self.rows.as_slice(),
            self.runs.as_slice(),
            value,
            place,
        )
    }

    // Where the rows with greater keys begin, of those of the value whose rows stand from this key on. A hint.
    fn likely_end(&self, low: u64, high: u64) -> usize {
        let end = self.end_of(low);
        match self.rows.get(end.saturating_sub(ROWS_AT_HAND)) {
            Some(row) if row.key > high => self
                .rows
                .as_slice()
                .partition_point(|one| one.key <= high),
            _ => end,
        }
    }

    /// A place from which on all rows have greater keys than this.
    pub(crate) fn end(&self, low: u64, high: u64) -> usize
        requires { AreInOrder self.now.rows.items }
        ensures within { result ≤ length self.now.rows.items }
        ensures behind { (i : ℕ) (r : Writer) → result ≤ i → slice_get self.now.rows.items i ≡ Some r → high < r.key }
    {
        let end = self.likely_end(low, high);
        match self.rows.get(end) {
            Some(row) if row.key > high => end,
            _ => self.rows.len(),
        }
    }
}
