//! Mutexes: a lock that one process at a time holds.
ghost use Rattle.std.specs.Prelude.{◌≡◌, Some, None, is_some, IfOk, IfSome, IfNone};
ghost use Rattle.lin_object.specs.Names.{beside, made_of};
ghost use Rattle.lin_object.specs.Changes.{undone};
ghost use Rattle.lin_object.specs.StepAnswers.{step_state};
ghost use Rattle.lin_object.specs.declared.state.ObjState.TheVariants.{Mutex};
ghost use Rattle.lin_object.specs.Kinds.Mutex.{mutex_operations, mutex_step, MutexLaw};
ghost use Rattle.lin_object.specs.Kinds.{after};

use crate::kinds::Answer;
use crate::op::Op;
use crate::reply::Reply;
use crate::state::ObjState;
use crate::step_back::Change;
use std::alloc::AllocError;
use std::mem;

/// Whether mutexes have an operation of that name.
pub(crate) fn has_op(name: &str) -> bool
    ensures { result ≡ is_some (beside mutex_operations name.now) }
{
    matches!(name, "lock" | "unlock" | "try_lock")
}

/// The operation of a mutex with this name and these arguments, where there is one.
pub(crate) fn op_with(name: &str, args: &[i64]) -> Option<Op>
    ensures { result ≡ made_of (beside mutex_operations name.now) args.now }
{
    match (name, args) {
        ("lock", []) => Some(Op::Lock),
        ("unlock", []) => Some(Op::Unlock),
        ("try_lock", []) => Some(Op::TryLock),
        _ => None,
    }
}

/// The step of a mutex, by a process.
pub(crate) fn step(holder: Option<u32>, process: u32, op: &Op) -> Answer
    ensures { result ≡ mutex_step holder process op.now }
{
    match (op, holder) {
        (Op::Lock, None) => Some((ObjState::Mutex(Some(process)), Reply::Okay)),
        (Op::Unlock, Some(held)) => {
            if held == process {
                Some((ObjState::Mutex(None), Reply::Okay))
            } else {
                None
            }
        }
        (Op::TryLock, None) => Some((ObjState::Mutex(Some(process)), Reply::Flag(true))),
        (Op::TryLock, Some(held)) => Some((ObjState::Mutex(Some(held)), Reply::Flag(false))),
        _ => None,
    }
}

/// Makes the step, by a process, in the mutex of this holder itself: what it changed. `None` where it has none; the holder
/// stays as it is then.
#[inline(always)]
pub(crate) fn step_in_place(holder: &mut Option<u32>, process: u32, op: &Op) -> Option<Change>
    ensures step { IfSome result (λ change.
        step_state (mutex_step holder.old process op.now) ≡ Some (Mutex holder.new)) }
    ensures back { IfSome result (λ change.
        undone change (Mutex holder.new) ≡ Mutex holder.old) }
    ensures none { IfNone result (
        (step_state (mutex_step holder.old process op.now) ≡ None) × (holder.new ≡ holder.old)) }
{
    let next = match (op, *holder) {
        (Op::Lock | Op::TryLock, None) => Some(process),
        (Op::TryLock, Some(held)) => Some(held),
        (Op::Unlock, Some(held)) if held == process => None,
        _ => return None,
    };
    Some(Change::Holder(mem::replace(holder, next)))
}

/// Takes the change of a mutex back. `AllocError` where the change is none of its kind's.
#[inline(always)]
pub(crate) fn take_back(holder: &mut Option<u32>, change: Change) -> Result<(), AllocError>
    ensures { IfOk result (λ done. Mutex holder.new ≡ undone change (Mutex holder.old)) }
{
    match change {
        Change::Holder(before) => {
            *holder = before;
            Ok(())
        }
        _ => Err(AllocError),
    }
}

/// The law of mutexes, as one fact that a proof may cite. It does nothing.
pub fn mutex_law()
    ensures { MutexLaw after }
{}
