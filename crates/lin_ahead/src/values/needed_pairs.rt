//! Two calls on a register of which each needs the other, found by the numbers of the calls.

ghost use Rattle.std.specs.Prelude.{◌≡◌, IfOk, OnOk};
ghost use Rattle.std.specs.List.Sorted.{IsPermutation, IsNonDecreasingBy};
ghost use Rattle.lin_ahead.specs.Values.NeededPairs.{need_each_other, some_pair, with_needs, number_by, last_of};

use std::alloc::{AllocError, Global};

/// The numbers of a call: from `by` on it is needed, and up to `from` it needs others.
#[derive(Clone, Copy)]
pub(crate) struct CallNumbers {
    /// The event from which on the call is needed; beyond all events where it is not.
    pub by: u64,
    /// The event up to which the call needs others; 0 where it needs none.
    pub from: u64,
}

// Whether each of the two needs the other.
fn need_each_other(one: &CallNumbers, other: &CallNumbers) -> bool
    ensures { result ≡ need_each_other one.now other.now }
{
    one.by < other.from && other.by < one.from
}

// The numbers of the calls that need others.
fn with_needs(alloc: Global, numbers: &[CallNumbers]) -> Result<Vec<CallNumbers>, AllocError>
    ensures { IfOk result (λ left. left.items ≡ with_needs numbers.now) }
{
    let mut left = Vec::new(alloc);
    for one in numbers {
        if one.from > 0 {
            left.push(*one)?;
        }
    }
    Ok(left)
}

// Orders the calls by how early they are needed.
fn sort_by_need(numbers: &mut Vec<CallNumbers>) -> Result<(), AllocError>
    ensures sorted { OnOk result (IsNonDecreasingBy number_by numbers.new.items) }
    ensures permutation { IsPermutation numbers.old.items numbers.new.items }
{
    numbers.sort_by_key(|one| one.by)?;
    Ok(())
}

// Of two calls in order the later one, if others than itself may be between its numbers; else the earlier one.
fn last_of(last: CallNumbers, next: CallNumbers) -> CallNumbers
    ensures { result ≡ last_of last next }
{
    if next.by < next.from { next } else { last }
}

// Whether some two of these calls in order need each other. Where none before do, only the last of them whose number `by` is
// less than its own `from` can need a later one that needs it.
fn some_pair_in_order(numbers: &[CallNumbers]) -> bool
    requires { IsNonDecreasingBy number_by numbers.now }
    ensures { result ≡ some_pair numbers.now }
{
    let mut last = CallNumbers { by: 0, from: 0 };
    for next in numbers {
        if need_each_other(&last, next) {
            return true;
        }
        last = last_of(last, *next);
    }
    false
}

/// Whether some two of the calls with these numbers need each other. It sorts them. `AllocError` where memory was refused.
pub(crate) fn some_pair(alloc: Global, numbers: &[CallNumbers]) -> Result<bool, AllocError>
    ensures { IfOk result (λ found. found ≡ some_pair numbers.now) }
{
    let mut left = with_needs(alloc, numbers)?;
    sort_by_need(&mut left)?;
    Ok(some_pair_in_order(left.as_slice()))
}
