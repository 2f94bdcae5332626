//! Whether a part has a linearization.

ghost use Rattle.std.specs.Prelude.{IfOk};
ghost use Rattle.lin_effort.specs.Decision.{IsDecisionOf};
ghost use Rattle.lin_history.specs.Problems.AnyProblem.{any_problem};

use lin_effort::efforts::selection;
use lin_effort::{Decide, Decision};
use lin_history::Problem;
use lin_object::AnyObject;
use std::alloc::{AllocError, Global};

/// What is decided of the part, with as many lifts as so many calls are worth. `AllocError` where memory was refused.
pub(crate) fn decided<D: Decide>(
    alloc: Global,
    part: &Problem<AnyObject>,
    decider: &mut D,
) -> Result<Decision, AllocError>
    ensures { IfOk result (IsDecisionOf (any_problem part.now)) }
{
    decider.decide(alloc, part, &selection(part.len()))
}
