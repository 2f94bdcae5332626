//! What is known ahead of a problem by which no search is needed: there is no linearization.
ghost use Rattle.std.specs.Prelude.{ℕ, List, IfOk, IsTrue};
ghost use Rattle.lin_history.specs.Problems.AnyProblem.{any_problem};
ghost use Rattle.lin_history.specs.Problems.Linearizations.{IsLinearization};
ghost use Rattle.lin_ahead.specs.Behind.{IsRightAhead};

use crate::look_ahead::KnownAhead;
use crate::stacks::crossed_pushes::some_push_crosses;
use lin_history::Problem;
use lin_object::AnyObject;
use std::alloc::{AllocError, Global};

/// Whether what is known ahead of the problem shows by itself that there is no linearization: of values, where a call found one
/// that nobody put there in time, two writes would each have to stand before the other, or two calls changed the value that one
/// write alone can have made; of a stack, where some push crosses a call: the push returned before that call was called, which
/// popped what was pushed before the push was called, or found the stack empty, and the item of the push was popped by a call
/// that was called after that one returned; of a mutex, where two acquires exclude each other. `true` only where there is none.
/// `AllocError` where memory was refused. The time is O(n log n) for n calls. (This project's own.)
pub fn are_in_vain(
    alloc: Global,
    problem: &Problem<AnyObject>,
    ahead: &KnownAhead,
) -> Result<bool, AllocError>
    requires { IsRightAhead (any_problem problem.now) ahead.now }
    ensures { IfOk result (λ found. IsTrue found
        → (l : List ℕ) → IsLinearization (any_problem problem.now) l → ⊥) }
{
    match ahead {
        KnownAhead::Values(values) => Ok(values.in_vain),
        KnownAhead::Stack(stack) => some_push_crosses(alloc, problem, stack),
        KnownAhead::Mutex(mutex) => Ok(mutex.in_vain),
        KnownAhead::Queue(_) | KnownAhead::Counter(_) => Ok(false),
    }
}
