//! What is told of one part: by what decides it, or by a few of its calls that alone have no linearization.

ghost use Rattle.std.specs.Prelude.{IfOk, IsTrue};
ghost use Rattle.lin_history.specs.Problems.AnyProblem.{any_problem};
ghost use Rattle.lin_core.specs.Cores.{HasNone};
ghost use Rattle.lin_effort.specs.Decision.{IsDecisionOf};

use lin_core::{core_of, sum_fault_of};
use lin_effort::efforts::{bound, order};
use lin_effort::{Decide, Decision, Effort, UntilSpent};
use lin_history::Problem;
use lin_object::{AnyObject, ObjState};
use std::alloc::{AllocError, Global};

// Whether the part is one of a counter whose adds leave no room for the reply of some get.
fn has_sum_fault<D: Decide>(
    alloc: Global,
    part: &Problem<AnyObject>,
    decider: &mut D,
) -> Result<bool, AllocError>
    ensures { IfOk result (λ shown. IsTrue shown → HasNone (any_problem part.now)) }
{
    let fault = sum_fault_of(alloc, part, &mut UntilSpent::new(decider))?;
    Ok(fault.is_some())
}

// Whether a core of the part is looked for. Of another object than a queue or a stack what is known ahead, or a search by key, mostly
// shows as much, and a core of a register has all its writes where a `cas` is kept. That is a hint.
fn may_have_core(part: &Problem<AnyObject>) -> bool {
    matches!(part.start(), ObjState::Queue(_) | ObjState::Stack(_))
}

// Whether a few calls of the part are found that alone have no linearization.
fn has_core<D: Decide>(
    alloc: Global,
    part: &Problem<AnyObject>,
    decider: &mut D,
) -> Result<bool, AllocError>
    ensures { IfOk result (λ shown. IsTrue shown → HasNone (any_problem part.now)) }
{
    if !may_have_core(part) {
        return Ok(false);
    }
    let core = core_of(alloc, part, decider)?;
    Ok(core.is_some())
}

/// The least linearization of the part; or that it has none; or nothing, where the effort or the work ends it and no such calls are
/// found. `AllocError` where memory was refused.
pub(crate) fn told_of_part<D: Decide>(
    alloc: Global,
    part: &Problem<AnyObject>,
    effort: &Effort,
    decider: &mut D,
) -> Result<Decision, AllocError>
    ensures { IfOk result (IsDecisionOf (any_problem part.now)) }
{
    if has_sum_fault(alloc, part, decider)? {
        return Ok(Decision::Refuted);
    }
    match decider.decide(alloc, part, effort)? {
        Decision::Spent => {}
        decision => return Ok(decision),
    }
    if has_core(alloc, part, decider)? {
        return Ok(Decision::Refuted);
    }
    Ok(Decision::Spent)
}

/// The same with as much effort as the least linearization is worth. Such calls are looked for before most of it: of a part that has
/// none a search may make all lifts that there are.
pub(crate) fn order_of_part<D: Decide>(
    alloc: Global,
    part: &Problem<AnyObject>,
    decider: &mut D,
) -> Result<Decision, AllocError>
    ensures { IfOk result (IsDecisionOf (any_problem part.now)) }
{
    match told_of_part(alloc, part, &bound(part.len()), decider)? {
        Decision::Spent => decider.decide(alloc, part, &order(part.len())),
        decision => Ok(decision),
    }
}
