//! What is told of each call on a register by what the calls show of its values: its numbers, and the calls that may have written
//! what it found.

ghost use Rattle.std.specs.Prelude.{◌≡◌, ◌⊎◌, length, IfOk, IsTrue, map};
ghost use Rattle.lin_ahead.specs.declared.values.needed_pairs.CallNumbers.{CallNumbers};
ghost use Rattle.lin_ahead.specs.Values.Balance.{AreTooManyTakers};
ghost use Rattle.lin_ahead.specs.Values.Clusters.{AreNumbersTo, FoundNowhere, NeedEachOther};
ghost use Rattle.lin_ahead.specs.Values.Ranks.{AreRanksBroken};
ghost use Rattle.lin_ahead.specs.Values.ToldOfRegister.{IsToldOfRegister};

use crate::values::balance::some_takers_are_too_many;
use crate::values::broken_ranks::some_rank_is_broken;
use crate::values::call_values::{CallValues, values_of_each};
use crate::values::clusters::{cluster_numbers, some_found_nowhere};
use crate::values::narrowing::narrow;
use crate::values::needed_pairs::{CallNumbers, some_pair};
use crate::values::owners::{Owners, owners_of_each};
use crate::values::shown_values::values_of_calls;
use indexmap::IndexMap;
use lin_history::{NeedRows, ProblemCall};
use lin_object::{Op, Reply};
use std::alloc::{AllocError, Global};

/// What is known before any search of a register's problem, or of one of a map whose calls are on one key, or of a set whose calls are
/// on one item.
#[derive(Drop)]
pub struct ValuesAhead {
    /// The numbers `by` and `from` of each call: a call needs every other one whose number `by` is less than its own number `from`.
    pub needs: NeedRows,
    /// For each call, those of which one wrote the value that it found.
    pub owners: Vec<Owners>,
    /// Whether what is known shows that there is no linearization.
    pub in_vain: bool,
    /// What each call shows of values, by which a search finds calls to ask about.
    pub(crate) values: Vec<CallValues>,
}

// For each call when the first call of its cluster returned.
fn by_of_each(alloc: Global, numbers: &[CallNumbers]) -> Result<Vec<u64>, AllocError>
    ensures { IfOk result (λ row. row.items ≡ map (λ (c : CallNumbers). c.by) numbers.now) }
{
    numbers.iter().map(|one| one.by).collect(alloc)
}

// For each call when the last call of its cluster was called.
fn from_of_each(alloc: Global, numbers: &[CallNumbers]) -> Result<Vec<u64>, AllocError>
    ensures { IfOk result (λ row. row.items ≡ map (λ (c : CallNumbers). c.from) numbers.now) }
{
    numbers.iter().map(|one| one.from).collect(alloc)
}

// Whether some call found what is nowhere, two calls need each other, more took values away than made them, or two cannot be so by
// ranks of the values.
fn are_in_vain(
    alloc: Global,
    values: &IndexMap<i64, ()>,
    calls: &[ProblemCall<Op, Reply>],
    owners: &[Owners],
    numbers: &[CallNumbers],
) -> Result<bool, AllocError>
    requires { AreNumbersTo calls.now owners.now (length owners.now) numbers.now }
    ensures is { IfOk result (λ found. IsTrue found → FoundNowhere owners.now
        ⊎ (NeedEachOther calls.now owners.now ⊎ (AreTooManyTakers calls.now owners.now ⊎ AreRanksBroken calls.now))) }
    ensures told { IfOk result (λ found. FoundNowhere owners.now
        ⊎ NeedEachOther calls.now owners.now → IsTrue found) }
{
    if some_found_nowhere(owners) {
        return Ok(true);
    }
    if some_pair(alloc, numbers)? {
        return Ok(true);
    }
    if some_takers_are_too_many(alloc, calls, owners)? {
        return Ok(true);
    }
    some_rank_is_broken(alloc, values, calls)
}

/// What these calls show, on a register that starts with this value. `AllocError` where memory was refused.
pub(crate) fn told_of_register(
    alloc: Global,
    start: &i64,
    calls: &[ProblemCall<Op, Reply>],
) -> Result<ValuesAhead, AllocError>
    ensures { IfOk result (IsToldOfRegister start.now calls.now) }
{
    let shown = values_of_calls(alloc, calls)?;
    let mut owners = owners_of_each(alloc, *start, &shown, calls)?;
    let values = values_of_each(alloc, calls)?;
    narrow(alloc, calls, values.as_slice(), &mut owners)?;
    let rows = owners.as_slice();
    let row = cluster_numbers(alloc, calls, rows)?;
    let numbers = row.as_slice();
    let in_vain = are_in_vain(alloc, &shown, calls, rows, numbers)?;
    let by = by_of_each(alloc, numbers)?;
    let from = from_of_each(alloc, numbers)?;
    Ok(ValuesAhead {
        needs: NeedRows::new(by, from),
        owners,
        in_vain,
        values,
    })
}
