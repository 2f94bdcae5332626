//! Calls that one call owns, by their events: when the first of them returned, and when the last was called.

ghost use Rattle.std.specs.Prelude.{◌≡◌, ◌+◌, ◌<◌, ℕ, length, Some, IfOk, IfSome, IsTrue, ◌↔◌};
ghost use Rattle.std.specs.List.{list_any};
ghost use Rattle.lin_ahead.specs.Values.TakenTwice.{IsSoleOwner};
ghost use Rattle.lin_ahead.specs.Values.Clusters.{AreWidened, AreNumbersTo, is_nowhere};

use crate::items::item_calls::BEYOND;
use crate::values::needed_pairs::CallNumbers;
use crate::values::owners::Owners;
use crate::values::taken_values::sole_owner;
use lin_history::ProblemCall;
use lin_object::{Op, Reply};
use std::alloc::{AllocError, Global};

// The numbers, with the events of a call more.
fn with_call(numbers: CallNumbers, calls: &[ProblemCall<Op, Reply>], call: usize) -> CallNumbers
    ensures { AreWidened calls.now call call numbers result }
{
    let Some(one) = calls.get(call) else {
        return numbers;
    };
    let by = match &one.returned {
        Some((number, _)) => u64::min(numbers.by, u64::from(*number)),
        None => numbers.by,
    };
    CallNumbers {
        by,
        from: u64::max(numbers.from, u64::min(BEYOND, u64::from(one.called))),
    }
}

// The numbers of a call that wrote what another one found, with the events of both.
fn with_both(
    numbers: CallNumbers,
    calls: &[ProblemCall<Op, Reply>],
    owner: usize,
    call: usize,
) -> CallNumbers
    ensures { AreWidened calls.now owner call numbers result }
{
    with_call(with_call(numbers, calls, owner), calls, call)
}

// The one call that can have written what was found, if there is just one, and the value was not there from the start on.
fn forced_by(owners: &Owners) -> Option<usize>
    ensures is { IfSome result (λ w. IsSoleOwner owners.now (Some w)) }
    ensures every { (w : ℕ) → IsSoleOwner owners.now (Some w) → result ≡ Some w }
{
    match sole_owner(owners) {
        Some(owner) => owner,
        None => None,
    }
}

// Adds the call to the cluster of its owner, if it has just one.
fn add_to_cluster(
    numbers: &mut Vec<CallNumbers>,
    calls: &[ProblemCall<Op, Reply>],
    owners: &[Owners],
    call: usize,
)
    requires { call < length owners.now }
    ensures { AreNumbersTo calls.now owners.now call numbers.old.items
        → AreNumbersTo calls.now owners.now (call + 1) numbers.new.items }
{
    let Some(owner) = forced_by(&owners[call]) else {
        return;
    };
    if let Some(slot) = numbers.get_mut(owner) {
        *slot = with_both(*slot, calls, owner, call);
    }
}

/// The numbers of each call by its cluster: from the first return on it is needed, and up to the last call it needs others.
/// `AllocError` where memory was refused.
pub(crate) fn cluster_numbers(
    alloc: Global,
    calls: &[ProblemCall<Op, Reply>],
    owners: &[Owners],
) -> Result<Vec<CallNumbers>, AllocError>
    ensures { IfOk result (λ numbers. AreNumbersTo calls.now owners.now (length owners.now)
        numbers.items) }
{
    let nothing = CallNumbers {
        by: BEYOND,
        from: 0,
    };
    let mut numbers = vec![in alloc; nothing; calls.len()]?;
    for call in 0..owners.len() {
        add_to_cluster(&mut numbers, calls, owners, call);
    }
    Ok(numbers)
}

// Whether the call found what no call can have written, and what was not there from the start on.
fn is_nowhere(owners: &Owners) -> bool
    ensures { result ≡ is_nowhere owners.now }
{
    owners.are_told && owners.calls.as_slice().is_empty() && !owners.at_start
}

/// Whether some call found what no call can have written, and what was not there from the start on.
pub(crate) fn some_found_nowhere(owners: &[Owners]) -> bool
    ensures { result ≡ list_any is_nowhere owners.now }
{
    owners.iter().any(|row| is_nowhere(row))
}
