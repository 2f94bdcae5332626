//! Which calls may have written what a call found.

ghost use Rattle.std.specs.Prelude.{◌≡◌, ◌≢◌, ◌⊎◌, ◌-◌, ◌≤◌, ◌<◌, ℕ, ℤ, false, Some, length, slice_get, IfNone, IfOk, IfSome, IsTrue};
ghost use Rattle.std.specs.Ordering.{int_eq};
ghost use Rattle.indexmap.specs.IndexMap.{index_of};
ghost use Rattle.lin_ahead.specs.Values.PossibleOwners.{IsNotFromStart, AreOwnersOf, AreOwnerRows, AreTooMany, AreToldWhereFew};
ghost use Rattle.lin_ahead.specs.Values.Writers.{low_by, AreInOrder, AreUnder, AreRuns};
ghost use Rattle.lin_ahead.specs.Values.Narrowing.{ShowsFound};
ghost use Rattle.lin_ahead.specs.Values.Writers.{HasAllRows, HaveAllRows, IsFinder, IsSince, NoOwners, AreListedFrom};

use crate::sight::MORE_IN_SIGHT;
use crate::values::breaking_calls::{Finder, Sought, finder_of, look_on};
use crate::values::shown_values::value_found;
use crate::values::writers::{MOST_OWNERS, Writer, Writers, low_of, writes};
use indexmap::IndexMap;
use lin_history::ProblemCall;
use lin_object::{Op, Reply};
use smallvec::SmallVec;
use std::alloc::{AllocError, Global};

/// The calls of which one wrote the value that a call found, in each linearization.
#[derive(Drop)]
pub struct Owners {
    /// The calls. None where the value can only have been there from the start on, or nothing is told.
    pub(crate) calls: SmallVec<usize, 1>,
    /// Whether the value may have been there from the start on.
    pub(crate) at_start: bool,
    /// Whether anything is told: not where the call found no value, or too many calls may have written it.
    pub(crate) are_told: bool,
}

// Nothing is told.
fn untold(alloc: Global) -> Owners
    ensures { result.are_told ≡ false }
{
    Owners {
        calls: SmallVec::new(alloc),
        at_start: false,
        are_told: false,
    }
}

// No call in front of the finder was looked at.
fn nothing_sought(finder: &Finder) -> Sought
    ensures { result.since ≡ 0 }
{
    Sought {
        next: finder.call,
        since: 0,
    }
}

// The row before this place, if it is one of the value that the finder found.
fn row_before(rows: &[Writer], finder: &Finder, place: usize) -> Option<Writer>
    requires within { place ≤ length rows.now }
    requires order { AreInOrder rows.now }
    ensures some { IfSome result (λ row. (0 < place) × (slice_get rows.now (place - 1) ≡ Some row)) }
    ensures none { IfNone result ((i : ℕ) (r : Writer) → i < place → slice_get rows.now i ≡ Some r
        → r.key < finder.now.low) }
{
    if place == 0 {
        return None;
    }
    let row = rows[place - 1];
    if row.key < finder.low {
        None
    } else {
        Some(row)
    }
}

// A place from which on up to this one no row is that of an owner; none where the row in front of this place may be. A call that
// breaks the value was called at `since`, and returned before the finder was called; or this is 0.
fn passed(
    calls: &[ProblemCall<Op, Reply>],
    writers: &Writers,
    finder: &Finder,
    place: usize,
    row: Writer,
    since: u64,
) -> Option<usize>
    requires first { 0 < place }
    requires row { slice_get writers.now.rows.items (place - 1) ≡ Some row }
    requires under { AreUnder writers.now.rows.items writers.now.under.items }
    requires finder { IsFinder calls.now finder.now }
    requires since { IsSince calls.now finder.now since }
    ensures { IfSome result (λ next. (next ≤ place)
        × NoOwners calls.now finder.now writers.now.rows.items next place) }
{
    if row.returned < since {
        return Some(writers.under[place - 1]);
    }
    if row.call == finder.call || finder.high < row.key {
        return Some(place - 1);
    }
    None
}

// Whether more calls than are told of may have written what the finder found, of those with rows in front of this place: they were
// called after the last call that breaks the value. A hint.
fn are_many(
    calls: &[ProblemCall<Op, Reply>],
    writers: &Writers,
    finder: &Finder,
    place: usize,
) -> bool {
    if place <= MOST_OWNERS {
        return false;
    }
    match writers.rows.get(place - MOST_OWNERS - 1) {
        Some(row) if finder.low <= row.key => look_on(
            calls,
            writers.others.as_slice(),
            finder,
            nothing_sought(finder),
            0,
        )
        .since
            < row.key - finder.low,
        _ => false,
    }
}

// Lists the calls that may have written what the finder found, and tells how far calls were looked at for one that breaks its
// value. `None` if they are too many.
fn list_owners(
    calls: &[ProblemCall<Op, Reply>],
    writers: &Writers,
    finder: &Finder,
    owners: &mut SmallVec<usize, 1>,
) -> Result<Option<Sought>, AllocError>
    requires order { AreInOrder writers.now.rows.items }
    requires under { AreUnder writers.now.rows.items writers.now.under.items }
    requires finder { IsFinder calls.now finder.now }
    ensures since { IfOk result (λ told. IfSome told (λ sought. IsSince calls.now finder.now sought.since)) }
    ensures listed { IfOk result (λ told. IfSome told (λ sought. AreListedFrom calls.now finder.now
        writers.now.rows.items 0 owners.new.items)) }
{
    let mut place = writers.end(finder.low, finder.high);
    if are_many(calls, writers, finder, place) {
        return Ok(None);
    }
    let mut sought = nothing_sought(finder);
    for _ in 0..MORE_IN_SIGHT {
        let Some(row) = row_before(writers.rows.as_slice(), finder, place) else {
            return Ok(Some(sought));
        };
        sought = look_on(
            calls,
            writers.others.as_slice(),
            finder,
            sought,
            row.returned,
        );
        match passed(calls, writers, finder, place, row, sought.since) {
            Some(next) => place = next,
            None => {
                if owners.len() >= MOST_OWNERS {
                    return Ok(None);
                }
                owners.push(row.call)?;
                place -= 1;
            }
        }
    }
    Ok(None)
}

// Whether the value that the finder found may have been there from the start on.
fn may_be_from_start(
    calls: &[ProblemCall<Op, Reply>],
    writers: &Writers,
    start: i64,
    finder: &Finder,
    sought: Sought,
) -> bool
    requires finder { IsFinder calls.now finder.now }
    requires since { IsSince calls.now finder.now sought.since }
    ensures { result ≡ false → IsNotFromStart calls.now start finder.now.value finder.now.call }
{
    finder.value == start && look_on(calls, writers.others.as_slice(), finder, sought, 0).since == 0
}

// The owners of a call that found a value.
fn owners_of_finder(
    alloc: Global,
    start: i64,
    calls: &[ProblemCall<Op, Reply>],
    writers: &Writers,
    finder: &Finder,
) -> Result<Owners, AllocError>
    requires all { HasAllRows calls.now finder.now.value finder.now.low writers.now.rows.items }
    requires order { AreInOrder writers.now.rows.items }
    requires under { AreUnder writers.now.rows.items writers.now.under.items }
    requires finder { IsFinder calls.now finder.now }
    ensures { IfOk result (λ row. IsTrue row.are_told → AreOwnersOf calls.now start finder.now.call row) }
{
    let mut owners = SmallVec::new(alloc);
    match list_owners(calls, writers, finder, &mut owners)? {
        Some(sought) => Ok(Owners {
            at_start: may_be_from_start(calls, writers, start, finder, sought),
            calls: owners,
            are_told: true,
        }),
        None => Ok(untold(alloc)),
    }
}

// Whether the two are the same.
fn are_same(value: i64, other: i64) -> bool
    ensures { result ≡ false → value ≢ other }
{
    value == other
}

// The owners of a call that found a value, by a look at each call.
fn owners_by_calls(
    alloc: Global,
    start: i64,
    calls: &[ProblemCall<Op, Reply>],
    value: i64,
    call: usize,
) -> Result<Owners, AllocError>
    requires { ShowsFound calls.now value call }
    ensures told { IfOk result (λ row. IsTrue row.are_told → AreOwnersOf calls.now start call row) }
    ensures few { IfOk result (λ row. IsTrue row.are_told ⊎ AreTooMany calls.now value) }
{
    let mut owners = SmallVec::new(alloc);
    for writer in 0..calls.len() {
        if writes(calls, value, writer) {
            if owners.len() >= MOST_OWNERS {
                return Ok(untold(alloc));
            }
            owners.push(writer)?;
        }
    }
    Ok(Owners {
        calls: owners,
        at_start: are_same(value, start),
        are_told: true,
    })
}

// The owners of a call, by the rows of the calls that may write what it found. Nothing is told if it found no value that has a number,
// or the rows are too many.
fn owners_by_rows(
    alloc: Global,
    start: i64,
    values: &IndexMap<i64, ()>,
    calls: &[ProblemCall<Op, Reply>],
    writers: &Writers,
    call: usize,
) -> Result<Owners, AllocError>
    requires within { call < length calls.now }
    requires all { HaveAllRows calls.now
        (λ v. low_by writers.now.lows.items (index_of int_eq values.now v)) writers.now.rows.items }
    requires order { AreInOrder writers.now.rows.items }
    requires under { AreUnder writers.now.rows.items writers.now.under.items }
    ensures { IfOk result (λ row. IsTrue row.are_told → AreOwnersOf calls.now start call row) }
{
    match finder_of(values, writers.lows.as_slice(), &calls[call], call) {
        Some(finder) => owners_of_finder(alloc, start, calls, writers, &finder),
        None => Ok(untold(alloc)),
    }
}

// Whether more calls than are told of may write the value.
fn are_too_many(
    values: &IndexMap<i64, ()>,
    calls: &[ProblemCall<Op, Reply>],
    writers: &Writers,
    value: i64,
) -> bool
    requires { AreRuns calls.now writers.now.rows.items writers.now.runs.items }
    ensures { IsTrue result → AreTooMany calls.now value }
{
    match low_of(values, writers.lows.as_slice(), value) {
        Some(low) => writers.are_too_many(calls, value, low),
        None => false,
    }
}

// The owners of a call. By the rows they are told, unless they are too many; if not, each call is looked at.
fn owners_of_call(
    alloc: Global,
    start: i64,
    values: &IndexMap<i64, ()>,
    calls: &[ProblemCall<Op, Reply>],
    writers: &Writers,
    call: usize,
) -> Result<Owners, AllocError>
    requires within { call < length calls.now }
    requires all { HaveAllRows calls.now
        (λ v. low_by writers.now.lows.items (index_of int_eq values.now v)) writers.now.rows.items }
    requires order { AreInOrder writers.now.rows.items }
    requires under { AreUnder writers.now.rows.items writers.now.under.items }
    requires runs { AreRuns calls.now writers.now.rows.items writers.now.runs.items }
    ensures told { IfOk result (λ row. IsTrue row.are_told → AreOwnersOf calls.now start call row) }
    ensures few { IfOk result (λ row. (v : ℤ) → ShowsFound calls.now v call
        → IsTrue row.are_told ⊎ AreTooMany calls.now v) }
{
    let row = owners_by_rows(alloc, start, values, calls, writers, call)?;
    if row.are_told {
        return Ok(row);
    }
    let Some(value) = value_found(&calls[call]) else {
        return Ok(row);
    };
    if are_too_many(values, calls, writers, value) {
        return Ok(row);
    }
    owners_by_calls(alloc, start, calls, value, call)
}

/// The owners of each call, on a register that starts with this value. The values are those that the calls show. `AllocError` where
/// memory was refused.
pub(crate) fn owners_of_each(
    alloc: Global,
    start: i64,
    values: &IndexMap<i64, ()>,
    calls: &[ProblemCall<Op, Reply>],
) -> Result<Vec<Owners>, AllocError>
    ensures told { IfOk result (λ rows. AreOwnerRows calls.now start rows.items) }
    ensures few { IfOk result (λ rows. AreToldWhereFew calls.now rows.items) }
{
    let writers = Writers::new(alloc, values, calls)?;
    let mut rows = Vec::with_capacity(alloc, calls.len())?;
    for call in 0..calls.len() {
        rows.push(owners_of_call(alloc, start, values, calls, &writers, call)?)?;
    }
    Ok(rows)
}
