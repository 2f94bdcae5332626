//! What shows without a search that there is no linearization.

ghost use Rattle.std.specs.Prelude.{ℕ, List, IfOk, IfSome, IsTrue};
ghost use Rattle.lin_history.specs.Problems.AnyProblem.{any_problem};
ghost use Rattle.lin_history.specs.Problems.Linearizations.{IsLinearization};
ghost use Rattle.lin_ahead.specs.Behind.{IsRightAhead};

use crate::crossed_calls::some_cross;
use lin_ahead::{KnownAhead, are_in_vain, some_came_too_early, some_was_taken_twice};
use lin_history::Problem;
use lin_object::AnyObject;
use std::alloc::{AllocError, Global};

// Whether what is known ahead shows it: some calls were in vain, or they cross by what they need.
fn are_crossed_or_in_vain(
    alloc: Global,
    problem: &Problem<AnyObject>,
    ahead: &KnownAhead,
) -> Result<bool, AllocError>
    requires { IsRightAhead (any_problem problem.now) ahead.now }
    ensures { IfOk result (λ shown. IsTrue shown
        → (l : List ℕ) → IsLinearization (any_problem problem.now) l → ⊥) }
{
    if are_in_vain(alloc, problem, ahead)? {
        return Ok(true);
    }
    match ahead.needs() {
        Some(needs) => some_cross(alloc, problem, needs),
        None => Ok(false),
    }
}

/// Whether it shows that the problem has no linearization: by an item that came too early or was taken twice, or by what is known
/// ahead. `AllocError` where memory was refused.
pub(crate) fn shows_none(
    alloc: Global,
    problem: &Problem<AnyObject>,
    known: &Option<KnownAhead>,
) -> Result<bool, AllocError>
    requires { IfSome known.now (IsRightAhead (any_problem problem.now)) }
    ensures { IfOk result (λ shown. IsTrue shown
        → (l : List ℕ) → IsLinearization (any_problem problem.now) l → ⊥) }
{
    if some_came_too_early(alloc, problem)? {
        return Ok(true);
    }
    if some_was_taken_twice(alloc, problem)? {
        return Ok(true);
    }
    match known {
        Some(ahead) => are_crossed_or_in_vain(alloc, problem, ahead),
        None => Ok(false),
    }
}
