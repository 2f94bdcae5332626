//! Counters: a number that is added to.
ghost use Rattle.std.specs.Prelude.{◌≡◌, Some, None, is_some, IfOk, IfSome, IfNone};
ghost use Rattle.lin_object.specs.Names.{beside, made_of};
ghost use Rattle.lin_object.specs.Changes.{undone};
ghost use Rattle.lin_object.specs.StepAnswers.{step_state};
ghost use Rattle.lin_object.specs.declared.state.ObjState.TheVariants.{Counter};
ghost use Rattle.lin_object.specs.Kinds.Counter.{counter_operations, counter_step, CounterLaw};
ghost use Rattle.lin_object.specs.Kinds.{after};

use crate::kinds::Answer;
use crate::op::Op;
use crate::reply::Reply;
use crate::state::ObjState;
use crate::step_back::Change;
use std::alloc::AllocError;
use std::mem;

/// Whether counters have an operation of that name.
pub(crate) fn has_op(name: &str) -> bool
    ensures { result ≡ is_some (beside counter_operations name.now) }
{
    matches!(name, "add" | "get")
}

/// The operation of a counter with this name and these arguments, where there is one.
pub(crate) fn op_with(name: &str, args: &[i64]) -> Option<Op>
    ensures { result ≡ made_of (beside counter_operations name.now) args.now }
{
    match (name, args) {
        ("add", [difference]) => Some(Op::Add(*difference)),
        ("get", []) => Some(Op::Get),
        _ => None,
    }
}

/// The step of a counter that holds the number.
pub(crate) fn step(number: i64, op: &Op) -> Answer
    ensures { result ≡ counter_step number op.now }
{
    match op {
        Op::Add(difference) => match number.checked_add(*difference) {
            Some(sum) => Some((ObjState::Counter(sum), Reply::Okay)),
            None => None,
        },
        Op::Get => Some((ObjState::Counter(number), Reply::Int(number))),
        _ => None,
    }
}

/// Makes the step in the number of the counter itself: what it changed. `None` where it has none; the number stays as it is
/// then.
#[inline(always)]
pub(crate) fn step_in_place(number: &mut i64, op: &Op) -> Option<Change>
    ensures step { IfSome result (λ change.
        step_state (counter_step number.old op.now) ≡ Some (Counter number.new)) }
    ensures back { IfSome result (λ change.
        undone change (Counter number.new) ≡ Counter number.old) }
    ensures none { IfNone result (
        (step_state (counter_step number.old op.now) ≡ None) × (number.new ≡ number.old)) }
{
    let next = match op {
        Op::Add(difference) => number.checked_add(*difference)?,
        Op::Get => *number,
        _ => return None,
    };
    Some(Change::Value(mem::replace(number, next)))
}

/// Takes the change of a counter back. `AllocError` where the change is none of its kind's.
#[inline(always)]
pub(crate) fn take_back(number: &mut i64, change: Change) -> Result<(), AllocError>
    ensures { IfOk result (λ done. Counter number.new ≡ undone change (Counter number.old)) }
{
    match change {
        Change::Value(before) => {
            *number = before;
            Ok(())
        }
        _ => Err(AllocError),
    }
}

/// The law of counters, as one fact that a proof may cite. It does nothing.
pub fn counter_law()
    ensures { CounterLaw after }
{}
