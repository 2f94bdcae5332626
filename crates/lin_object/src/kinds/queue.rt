//! Queues: items that come out in the order in which they went in.
ghost use Rattle.std.specs.Prelude.{◌≡◌, is_some, Some, None, IfOk, IfErr, IfSome, IfNone};
ghost use Rattle.lin_object.specs.Names.{beside, made_of};
ghost use Rattle.lin_object.specs.StepAnswers.{step_reply, step_state};
ghost use Rattle.lin_object.specs.Kinds.Queue.{queue_operations, queue_step, QueueLaw};
ghost use Rattle.lin_object.specs.Kinds.{after};
ghost use Rattle.lin_object.specs.Changes.{undone};
ghost use Rattle.lin_object.specs.declared.state.ObjState.TheVariants.{Queue};

use crate::items::Items;
use crate::kinds::Answer;
use crate::op::Op;
use crate::reply::Reply;
use crate::state::ObjState;
use crate::step_back::Change;
use std::alloc::{AllocError, Global};

/// Whether queues have an operation of that name.
pub(crate) fn has_op(name: &str) -> bool
    ensures { result ≡ is_some (beside queue_operations name.now) }
{
    matches!(name, "enq" | "deq")
}

/// The operation of a queue with this name and these arguments, where there is one.
pub(crate) fn op_with(name: &str, args: &[i64]) -> Option<Op>
    ensures { result ≡ made_of (beside queue_operations name.now) args.now }
{
    match (name, args) {
        ("enq", [item]) => Some(Op::Enqueue(*item)),
        ("deq", []) => Some(Op::Dequeue),
        _ => None,
    }
}

/// The step of a queue of the items.
pub(crate) fn step(alloc: Global, items: &Items, op: &Op) -> Result<Answer, AllocError>
    ensures { IfOk result (λ answer. answer ≡ queue_step items.now op.now) }
{
    match op {
        Op::Enqueue(item) => {
            let longer = items.with_last(alloc, *item)?;
            Ok(Some((ObjState::Queue(longer), Reply::Okay)))
        }
        Op::Dequeue => {
            let rest = items.without_first(alloc)?;
            Ok(Some((ObjState::Queue(rest), items.reply_to_first())))
        }
        _ => Ok(None),
    }
}

/// What the step replies. It takes no memory, since it makes no state.
pub(crate) fn reply(items: &Items, op: &Op) -> Option<Reply>
    ensures { result ≡ step_reply (queue_step items.now op.now) }
{
    match op {
        Op::Enqueue(_) => Some(Reply::Okay),
        Op::Dequeue => Some(items.reply_to_first()),
        _ => None,
    }
}

/// Makes the step in the queue of the items itself: what it changed. `None` where it has none; the items stay as they are
/// then, and where memory was refused.
pub(crate) fn step_in_place(items: &mut Items, op: &Op) -> Result<Option<Change>, AllocError>
    ensures step { IfOk result (λ answer. IfSome answer (λ change.
        step_state (queue_step items.old op.now) ≡ Some (Queue items.new))) }
    ensures back { IfOk result (λ answer. IfSome answer (λ change.
        undone change (Queue items.new) ≡ Queue items.old)) }
    ensures none { IfOk result (λ answer. IfNone answer (
        (step_state (queue_step items.old op.now) ≡ None) × (items.new ≡ items.old))) }
    ensures kept { IfErr result (λ _. items.new ≡ items.old) }
{
    match op {
        Op::Enqueue(item) => {
            items.put_last(*item)?;
            Ok(Some(Change::PutLast))
        }
        Op::Dequeue => match items.first() {
            Some(item) => {
                items.take_first();
                Ok(Some(Change::TookFirst(item)))
            }
            None => Ok(Some(Change::Nothing)),
        },
        _ => Ok(None),
    }
}

/// Takes the change of a queue back. No memory is asked for: `AllocError` where there is no room for an item, or the
/// change is none of its kind's.
pub(crate) fn take_back(items: &mut Items, change: Change) -> Result<(), AllocError>
    ensures { IfOk result (λ done. Queue items.new ≡ undone change (Queue items.old)) }
{
    match change {
        Change::PutLast => {
            items.take_last();
            Ok(())
        }
        Change::TookFirst(item) => items.put_first_again(item),
        Change::Nothing => Ok(()),
        _ => Err(AllocError),
    }
}

/// The law of queues, as one fact that a proof may cite. It does nothing.
pub fn queue_law()
    ensures { QueueLaw after }
{}
