//! Registers: one value, to be written, read, or compared and set.
ghost use Rattle.std.specs.Prelude.{◌≡◌, Some, None, is_some, IfOk, IfSome, IfNone};
ghost use Rattle.lin_object.specs.Names.{beside, made_of};
ghost use Rattle.lin_object.specs.Changes.{undone};
ghost use Rattle.lin_object.specs.StepAnswers.{step_state};
ghost use Rattle.lin_object.specs.declared.state.ObjState.TheVariants.{Register};
ghost use Rattle.lin_object.specs.Kinds.Register.{register_operations, register_step, RegisterLaw};
ghost use Rattle.lin_object.specs.Kinds.{after};

use crate::kinds::Answer;
use crate::op::Op;
use crate::reply::Reply;
use crate::state::ObjState;
use crate::step_back::Change;
use std::alloc::AllocError;
use std::mem;

/// Whether registers have an operation of that name.
pub(crate) fn has_op(name: &str) -> bool
    ensures { result ≡ is_some (beside register_operations name.now) }
{
    matches!(name, "write" | "read" | "cas")
}

/// The operation of a register with this name and these arguments, where there is one.
pub(crate) fn op_with(name: &str, args: &[i64]) -> Option<Op>
    ensures { result ≡ made_of (beside register_operations name.now) args.now }
{
    match (name, args) {
        ("write", [value]) => Some(Op::Write(*value)),
        ("read", []) => Some(Op::Read),
        ("cas", [from, to]) => Some(Op::Cas(*from, *to)),
        _ => None,
    }
}

/// The step of a register that holds the value.
pub(crate) fn step(value: i64, op: &Op) -> Answer
    ensures { result ≡ register_step value op.now }
{
    match op {
        Op::Write(written) => Some((ObjState::Register(*written), Reply::Okay)),
        Op::Read => Some((ObjState::Register(value), Reply::Int(value))),
        Op::Cas(from, to) => {
            if value == *from {
                Some((ObjState::Register(*to), Reply::Flag(true)))
            } else {
                Some((ObjState::Register(value), Reply::Flag(false)))
            }
        }
        _ => None,
    }
}

/// Makes the step in the value of the register itself: what it changed. `None` where it has none; the value stays as it is
/// then.
#[inline(always)]
pub(crate) fn step_in_place(value: &mut i64, op: &Op) -> Option<Change>
    ensures step { IfSome result (λ change.
        step_state (register_step value.old op.now) ≡ Some (Register value.new)) }
    ensures back { IfSome result (λ change.
        undone change (Register value.new) ≡ Register value.old) }
    ensures none { IfNone result (
        (step_state (register_step value.old op.now) ≡ None) × (value.new ≡ value.old)) }
{
    let next = match op {
        Op::Write(written) => *written,
        Op::Read => *value,
        Op::Cas(from, to) => { if *value == *from { *to } else { *value } }
        _ => return None,
    };
    Some(Change::Value(mem::replace(value, next)))
}

/// Takes the change of a register back. `AllocError` where the change is none of its kind's.
#[inline(always)]
pub(crate) fn take_back(value: &mut i64, change: Change) -> Result<(), AllocError>
    ensures { IfOk result (λ done. Register value.new ≡ undone change (Register value.old)) }
{
    match change {
        Change::Value(before) => {
            *value = before;
            Ok(())
        }
        _ => Err(AllocError),
    }
}

/// The law of registers, as one fact that a proof may cite. It does nothing.
pub fn register_law()
    ensures { RegisterLaw after }
{}
