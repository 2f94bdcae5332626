//! Stacks: items of which the newest comes out first.
ghost use Rattle.std.specs.Prelude.{◌≡◌, is_some, Some, None, IfOk, IfErr, IfSome, IfNone};
ghost use Rattle.lin_object.specs.Names.{beside, made_of};
ghost use Rattle.lin_object.specs.StepAnswers.{step_reply, step_state};
ghost use Rattle.lin_object.specs.Kinds.Stack.{stack_operations, stack_step, StackLaw};
ghost use Rattle.lin_object.specs.Kinds.{after};
ghost use Rattle.lin_object.specs.Changes.{undone};
ghost use Rattle.lin_object.specs.declared.state.ObjState.TheVariants.{Stack};

use crate::items::Items;
use crate::kinds::Answer;
use crate::op::Op;
use crate::reply::Reply;
use crate::state::ObjState;
use crate::step_back::Change;
use std::alloc::{AllocError, Global};

/// Whether stacks have an operation of that name.
pub(crate) fn has_op(name: &str) -> bool
    ensures { result ≡ is_some (beside stack_operations name.now) }
{
    matches!(name, "push" | "pop")
}

/// The operation of a stack with this name and these arguments, where there is one.
pub(crate) fn op_with(name: &str, args: &[i64]) -> Option<Op>
    ensures { result ≡ made_of (beside stack_operations name.now) args.now }
{
    match (name, args) {
        ("push", [item]) => Some(Op::Push(*item)),
        ("pop", []) => Some(Op::Pop),
        _ => None,
    }
}

/// The step of a stack of the items.
pub(crate) fn step(alloc: Global, items: &Items, op: &Op) -> Result<Answer, AllocError>
    ensures { IfOk result (λ answer. answer ≡ stack_step items.now op.now) }
{
    match op {
        Op::Push(item) => {
            let higher = items.with_first(alloc, *item)?;
            Ok(Some((ObjState::Stack(higher), Reply::Okay)))
        }
        Op::Pop => {
            let rest = items.without_first(alloc)?;
            Ok(Some((ObjState::Stack(rest), items.reply_to_first())))
        }
        _ => Ok(None),
    }
}

/// What the step replies. It takes no memory, since it makes no state.
pub(crate) fn reply(items: &Items, op: &Op) -> Option<Reply>
    ensures { result ≡ step_reply (stack_step items.now op.now) }
{
    match op {
        Op::Push(_) => Some(Reply::Okay),
        Op::Pop => Some(items.reply_to_first()),
        _ => None,
    }
}

/// Makes the step in the stack of the items itself: what it changed. `None` where it has none; the items stay as they are
/// then, and where memory was refused.
pub(crate) fn step_in_place(
    alloc: Global,
    items: &mut Items,
    op: &Op,
) -> Result<Option<Change>, AllocError>
    ensures step { IfOk result (λ answer. IfSome answer (λ change.
        step_state (stack_step items.old op.now) ≡ Some (Stack items.new))) }
    ensures back { IfOk result (λ answer. IfSome answer (λ change.
        undone change (Stack items.new) ≡ Stack items.old)) }
    ensures none { IfOk result (λ answer. IfNone answer (
        (step_state (stack_step items.old op.now) ≡ None) × (items.new ≡ items.old))) }
    ensures kept { IfErr result (λ _. items.new ≡ items.old) }
{
    match op {
        Op::Push(item) => {
            items.put_first(alloc, *item)?;
            Ok(Some(Change::PutFirst))
        }
        Op::Pop => match items.first() {
            Some(item) => {
                items.take_first();
                Ok(Some(Change::TookFirst(item)))
            }
            None => Ok(Some(Change::Nothing)),
        },
        _ => Ok(None),
    }
}

/// Takes the change of a stack back. No memory is asked for: `AllocError` where there is no room for an item, or the
/// change is none of its kind's.
pub(crate) fn take_back(items: &mut Items, change: Change) -> Result<(), AllocError>
    ensures { IfOk result (λ done. Stack items.new ≡ undone change (Stack items.old)) }
{
    match change {
        Change::PutFirst => {
            items.take_first();
            Ok(())
        }
        Change::TookFirst(item) => items.put_first_again(item),
        Change::Nothing => Ok(()),
        _ => Err(AllocError),
    }
}

/// The law of stacks, as one fact that a proof may cite. It does nothing.
pub fn stack_law()
    ensures { StackLaw after }
{}
