//! What the calls of a problem show before any search, by the kind of its object.

ghost use Rattle.std.specs.Prelude.{◌≡◌, ◌↔◌, ◌⊎◌, ℕ, ℤ, [], Option, Some, IfOk, IfSome, IsSome, IsTrue, map};
ghost use Rattle.lin_object.specs.declared.state.ObjState.TheVariants.{Queue, Register, Stack, Set, Map, Counter, Mutex};
ghost use Rattle.lin_laws.specs.InTurn.{AreInTurn};
ghost use Rattle.lin_history.specs.Problems.ProblemParts.{ProblemParts};
ghost use Rattle.lin_ahead.specs.Behind.{AreOtherNeeds, IsRightAhead};
ghost use Rattle.lin_ahead.specs.ToldAhead.{IsToldAhead};
ghost use Rattle.lin_ahead.specs.declared.values.item_value.TheConstants.{ITEM_OUT};
ghost use Rattle.lin_ahead.specs.declared.values.key_value.TheConstants.{NOTHING};
ghost use Rattle.lin_ahead.specs.Values.ItemValue.{call_on_item, of_one_item};
ghost use Rattle.lin_ahead.specs.Values.KeyValue.{call_on_value, of_one_key};
ghost use Rattle.lin_ahead.specs.Values.ToldOfRegister.{IsToldOfRegister};
ghost use Rattle.lin_history.specs.Problems.AnyProblem.{any_problem};

use crate::counters::rows::{SumRows, told_of_counter};
use crate::mutexes::rows::{MutexAhead, told_of_mutex};
use crate::queues::rows::{QueueAhead, told_of_queue};
use crate::stacks::rows::{StackAhead, told_of_stack};
use crate::values::item_value::{ITEM_OUT, calls_on_item, of_one_item};
use crate::values::key_value::{NOTHING, calls_on_value, of_one_key};
use crate::values::rows::{ValuesAhead, told_of_register};
use lin_history::{NeedRows, Problem, ProblemCall};
use lin_object::{AnyObject, Items, Kind, ObjState, Op, Reply, map_law, set_law, start_state};
use std::alloc::{AllocError, Global};
use std::fmt;

/// What is known of a problem before any search, by the kind of its object.
#[derive(Drop)]
pub enum KnownAhead {
    /// Of a queue that starts empty.
    Queue(QueueAhead),
    /// Of a stack that starts empty.
    Stack(StackAhead),
    /// Of a register, of a map that starts empty and whose calls are on one key, or of a set that starts empty and whose calls are on one
    /// item.
    Values(ValuesAhead),
    /// Of a counter.
    Counter(SumRows),
    /// Of a mutex on which the calls of each process come one after another.
    Mutex(MutexAhead),
}

// What is told of each call is left out: it is long to show.
impl fmt::Debug for KnownAhead {
    fn fmt<W: fmt::Write>(&self, f: &mut fmt::Formatter<W>) -> fmt::Result {
        f.write_str(match self {
            KnownAhead::Queue(_) => "Queue(..)",
            KnownAhead::Stack(_) => "Stack(..)",
            KnownAhead::Values(_) => "Values(..)",
            KnownAhead::Counter(_) => "Counter(..)",
            KnownAhead::Mutex(_) => "Mutex(..)",
        })
    }
}

impl KnownAhead {
    /// The numbers of each call by which it needs others, of a queue and of values.
    pub fn needs(&self) -> Option<&NeedRows>
        ensures { (p : ProblemParts AnyObject ObjState Op Reply)
            → IsRightAhead (any_problem p) self.now
            → IfSome result (λ rows. AreOtherNeeds (any_problem p) rows.now) }
    {
        match self {
            KnownAhead::Queue(queue) => Some(&queue.needs),
            KnownAhead::Values(values) => Some(&values.needs),
            KnownAhead::Stack(_) | KnownAhead::Counter(_) | KnownAhead::Mutex(_) => None,
        }
    }
}

/// Whether there is no item.
pub(crate) fn is_empty(items: &Items) -> bool
    ensures { IsTrue result ↔ (items.now ≡ []) }
{
    items.first().is_none()
}

// Whether the state is that of an empty map.
fn is_empty_map(alloc: Global, state: &ObjState) -> bool
    ensures { IsTrue result ↔ (state.now ≡ Map []) }
{
    *state == start_state(alloc, Kind::Map, 0)
}

// What these calls show, on an empty map, where all are on one key.
fn told_of_key(
    alloc: Global,
    calls: &[ProblemCall<Op, Reply>],
) -> Result<Option<ValuesAhead>, AllocError>
    ensures rows { IfOk result (λ known. IfSome known
        (IsToldOfRegister NOTHING (map call_on_value calls.now))) }
    ensures when { IfOk result (λ known. IsSome known ↔ IsTrue (of_one_key calls.now)) }
{
    if !of_one_key(calls) {
        return Ok(None);
    }
    let start = NOTHING;
    let on_value = calls_on_value(alloc, calls)?;
    Ok(Some(told_of_register(alloc, &start, on_value.as_slice())?))
}

// What these calls show, on an empty set, where all are on one item.
fn told_of_item(
    alloc: Global,
    calls: &[ProblemCall<Op, Reply>],
) -> Result<Option<ValuesAhead>, AllocError>
    ensures rows { IfOk result (λ known. IfSome known
        (IsToldOfRegister ITEM_OUT (map call_on_item calls.now))) }
    ensures when { IfOk result (λ known. IsSome known ↔ IsTrue (of_one_item calls.now)) }
{
    if !of_one_item(calls) {
        return Ok(None);
    }
    let start = ITEM_OUT;
    let on_item = calls_on_item(alloc, calls)?;
    Ok(Some(told_of_register(alloc, &start, on_item.as_slice())?))
}

/// What is known of a problem before any search: of one that starts with an empty queue, an empty stack, or with a register
/// or a counter, what its calls show by real time, and all of that (as `IsToldAhead` says); of one that starts with an empty map and
/// has calls on one key alone, what they tell as calls of a register that holds the key's value; of one that starts with an empty set and
/// has calls on one item alone, what they tell as calls of a register that tells whether the item is in; of a mutex on which the calls
/// of each process come one after another, its sections. `None` of every other problem.
/// `AllocError` where memory was refused. (This project's own.)
pub fn known_ahead(
    alloc: Global,
    problem: &Problem<AnyObject>,
) -> Result<Option<KnownAhead>, AllocError>
    ensures right { IfOk result (λ known. IfSome known
        (IsRightAhead (any_problem problem.now))) }
    ensures told { IfOk result (λ known. IfSome known (IsToldAhead problem.now)) }
    ensures when { IfOk result (λ known. IsSome known
        ↔ ((problem.now.start ≡ Queue []) ⊎ ((problem.now.start ≡ Stack [])
        ⊎ (((v : ℤ) × (problem.now.start ≡ Register v))
        ⊎ (((problem.now.start ≡ Map []) × IsTrue (of_one_key problem.now.calls))
        ⊎ (((problem.now.start ≡ Set []) × IsTrue (of_one_item problem.now.calls))
        ⊎ (((v : ℤ) × (problem.now.start ≡ Counter v))
        ⊎ (((holder : Option ℕ) × (problem.now.start ≡ Mutex holder))
        × AreInTurn (any_problem problem.now))))))))) }
{
    map_law();
    set_law();
    let calls = problem.calls();
    match problem.start() {
        ObjState::Queue(items) if is_empty(items) => {
            Ok(Some(KnownAhead::Queue(told_of_queue(alloc, calls)?)))
        }
        ObjState::Stack(items) if is_empty(items) => {
            Ok(Some(KnownAhead::Stack(told_of_stack(alloc, calls)?)))
        }
        ObjState::Register(start) => {
            Ok(Some(KnownAhead::Values(told_of_register(alloc, start, calls)?)))
        }
        ObjState::Counter(start) => {
            Ok(Some(KnownAhead::Counter(told_of_counter(alloc, problem, *start)?)))
        }
        ObjState::Map(_) if is_empty_map(alloc, problem.start()) => {
            match told_of_key(alloc, calls)? {
                Some(ahead) => Ok(Some(KnownAhead::Values(ahead))),
                None => Ok(None),
            }
        }
        ObjState::Set(items) if is_empty(items) => match told_of_item(alloc, calls)? {
            Some(ahead) => Ok(Some(KnownAhead::Values(ahead))),
            None => Ok(None),
        },
        ObjState::Mutex(_) => match told_of_mutex(alloc, problem)? {
            Some(ahead) => Ok(Some(KnownAhead::Mutex(ahead))),
            None => Ok(None),
        },
        _ => Ok(None),
    }
}
