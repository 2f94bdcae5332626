//! The calls of each key.

ghost use Rattle.std.specs.Prelude.{◌≡◌, ◌<◌, ◌≤◌, ◌++◌, ◌∷◌, [], ℕ, IfOk, OnOk, length, slice_index, slice_set};
ghost use Rattle.lin_decide.specs.Keys.Products.{AreCallsOf};
ghost use Rattle.lin_decide.specs.Keys.Merging.{order_at};

use crate::keys::calls_of_key::CallsOfKey;
use std::alloc::{AllocError, Global};

// So many lists with no call.
fn empty_lists(alloc: Global, count: usize) -> Result<Vec<CallsOfKey>, AllocError>
    ensures length { IfOk result (λ lists. length lists.items ≡ count) }
    ensures empty { IfOk result (λ lists. (k : ℕ) → order_at lists.items k ≡ []) }
{
    let mut lists = Vec::with_capacity(alloc, count)?;
    for _ in 0..count {
        lists.push(CallsOfKey::new(alloc))?;
    }
    Ok(lists)
}

// Puts the call behind those of its key.
fn add_call(lists: &mut Vec<CallsOfKey>, key: usize, call: usize) -> Result<(), AllocError>
    requires { key < length lists.old.items }
    ensures { OnOk result (lists.new.items
        ≡ slice_set lists.old.items key (order_at lists.old.items key ++ call ∷ [])) }
{
    lists[key].push(call)
}

/// The calls of the key.
pub(crate) fn calls_at(lists: &[CallsOfKey], key: usize) -> &[usize]
    requires { key < length lists.now }
    ensures { result.now ≡ order_at lists.now key }
{
    lists[key].calls()
}

/// The calls of each of so many keys, in increasing order; `numbers` has for each call the number of its key.
pub(crate) fn calls_of_keys(
    alloc: Global,
    numbers: &[usize],
    count: usize,
) -> Result<Vec<CallsOfKey>, AllocError>
    requires within { (c : ℕ) → c < length numbers.now → slice_index numbers.now c < count }
    ensures length { IfOk result (λ lists. length lists.items ≡ count) }
    ensures calls { IfOk result (λ lists. (k : ℕ) → k < count
        → AreCallsOf (slice_index numbers.now) (length numbers.now) k (order_at lists.items k)) }
{
    let mut lists = empty_lists(alloc, count)?;
    for call in 0..numbers.len() {
        add_call(&mut lists, numbers[call], call)?;
    }
    Ok(lists)
}
