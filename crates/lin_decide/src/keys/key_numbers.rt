//! Which key each call has. Keys are numbered from 0 in the order in which they come.

ghost use Rattle.std.specs.Prelude.{◌≡◌, ◌↔◌, ℤ, [], Some, IfNone, IfOk, IfSome, IsFalse, IsTrue, OnOk, slice_get, pos};
ghost use Rattle.std.specs.Ordering.{int_eq};
ghost use Rattle.indexmap.specs.IndexSet.{insert_key};
ghost use Rattle.lin_object.specs.Kinds.{state_at_start};
ghost use Rattle.lin_decide.specs.Keys.KeyedCalls.{AreKeyNumbers, GoesByKey, IsOnKey, StartsEmpty};

use indexmap::IndexSet;
use lin_history::Problem;
use lin_object::{AnyObject, Kind, ObjState, Op, start_state};
use std::alloc::{AllocError, Global};

/// The keys of a problem's calls, and for each call the number of its key.
#[derive(Drop)]
pub(crate) struct KeyNumbers {
    pub(crate) keys: IndexSet<i64>,
    pub(crate) numbers: Vec<usize>,
}

// Whether the state is the one in which an object of the kind starts.
fn starts_as(alloc: Global, state: &ObjState, kind: Kind) -> bool
    ensures { IsTrue result ↔ state.now ≡ state_at_start kind (pos 0) }
{
    *state == start_state(alloc, kind, 0)
}

// Whether the state is an empty map or an empty set.
fn is_empty(alloc: Global, state: &ObjState) -> bool
    ensures { IsTrue result ↔ StartsEmpty state.now }
{
    starts_as(alloc, state, Kind::Map) || starts_as(alloc, state, Kind::Set)
}

// The key or the item that the operation touches, where it is one of the state's kind, a map or a set.
fn key_of(state: &ObjState, op: &Op) -> Option<i64>
    ensures on_key { IfSome result (IsOnKey state.now op.now) }
    ensures none { IfNone result ((v : ℤ) → IsOnKey state.now op.now v → ⊥) }
{
    match (state, op) {
        (ObjState::Map(_), Op::Put(key, _)) => Some(*key),
        (ObjState::Map(_), Op::Lookup(key)) => Some(*key),
        (ObjState::Map(_), Op::Delete(key)) => Some(*key),
        (ObjState::Set(_), Op::Insert(item)) => Some(*item),
        (ObjState::Set(_), Op::Remove(item)) => Some(*item),
        (ObjState::Set(_), Op::Contains(item)) => Some(*item),
        _ => None,
    }
}

// The number of the key, which is a new one where the key is.
fn number_of(keys: &mut IndexSet<i64>, key: i64) -> Result<usize, AllocError>
    ensures keys { OnOk result (keys.new.keys ≡ insert_key int_eq keys.old.keys key) }
    ensures at { IfOk result (λ number. slice_get keys.new.keys number ≡ Some key) }
{
    let (number, _is_new) = keys.insert_full(key)?;
    Ok(number)
}

// Adds the number of each call's key. `false` where a call has none.
fn add_numbers(
    problem: &Problem<AnyObject>,
    keys: &mut IndexSet<i64>,
    numbers: &mut Vec<usize>,
) -> Result<bool, AllocError>
    requires empty { StartsEmpty problem.now.start }
    requires keys { keys.old.keys ≡ [] }
    requires numbers { numbers.old.items ≡ [] }
    ensures keys { IfOk result (λ all. IsTrue all
        → AreKeyNumbers problem.now keys.new.keys numbers.new.items) }
    ensures none { IfOk result (λ all. IsFalse all → GoesByKey problem.now → ⊥) }
{
    for c in 0..problem.len() {
        let Some(key) = key_of(problem.start(), &problem.call(c).op) else {
            return Ok(false);
        };
        let number = number_of(keys, key)?;
        numbers.push(number)?;
    }
    Ok(true)
}

/// The keys of the calls, where the problem starts with an empty map or an empty set and each call is an operation of that
/// kind. `AllocError` where memory was refused.
pub(crate) fn key_numbers(
    alloc: Global,
    problem: &Problem<AnyObject>,
) -> Result<Option<KeyNumbers>, AllocError>
    ensures keys { IfOk result (λ answer. IfSome answer (λ known.
        AreKeyNumbers problem.now known.keys.keys known.numbers.items)) }
    ensures none { IfOk result (λ answer. IfNone answer (GoesByKey problem.now → ⊥)) }
{
    if !is_empty(alloc, problem.start()) {
        return Ok(None);
    }
    let mut keys = IndexSet::new(alloc);
    let mut numbers = Vec::new(alloc);
    if !add_numbers(problem, &mut keys, &mut numbers)? {
        return Ok(None);
    }
    Ok(Some(KeyNumbers { keys, numbers }))
}
