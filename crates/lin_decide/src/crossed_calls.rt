//! Two calls that cross: the one returned before the other was called, and yet needs it by what is known ahead. Then there is
//! no linearization.

ghost use Rattle.std.specs.Prelude.{◌≡◌, ◌<◌, ◌≤◌, ◌↔◌, ◌⊎◌, ℕ, List, Some, slice_get, IfOk, IsSomeAnd, IsTrue};
ghost use Rattle.lin_history.specs.Problems.Linearizations.{IsLinearization};
ghost use Rattle.lin_history.specs.Problems.AnyProblem.{any_problem};
ghost use Rattle.lin_ahead.specs.Behind.{AreOtherNeeds};
ghost use Rattle.lin_decide.specs.Crossing.{SomeCross};

use lin_history::{NeedRows, Problem, ProblemEvent};
use lin_object::AnyObject;
use std::alloc::{AllocError, Global};

// Whether the number from which on the call is needed is less than this one.
fn is_needed_before(rows: &NeedRows, call: usize, most: u64) -> bool
    ensures { IsTrue result ↔ IsSomeAnd (slice_get rows.now.by call) (λ m. m < most) }
{
    match rows.by().get(call) {
        Some(by) => *by < most,
        None => false,
    }
}

// The number up to which the call needs others, where it is greater than this one; else this one.
fn most_with(rows: &NeedRows, call: usize, most: u64) -> u64
    ensures least { most ≤ result }
    ensures own { (n : ℕ) → slice_get rows.now.from call ≡ Some n → n ≤ result }
    ensures told { (result ≡ most) ⊎ (slice_get rows.now.from call ≡ Some result) }
{
    match rows.from().get(call) {
        Some(from) if *from > most => *from,
        _ => most,
    }
}

/// Whether some two calls cross, by these rows of the problem; then there is no linearization. `AllocError` where memory was
/// refused. The time is that of sorting the events: what the calls that have returned need most is kept from event to event.
pub(crate) fn some_cross(
    alloc: Global,
    problem: &Problem<AnyObject>,
    rows: &NeedRows,
) -> Result<bool, AllocError>
    requires { AreOtherNeeds (any_problem problem.now) rows.now }
    ensures exact { IfOk result (λ crossed. IsTrue crossed
        ↔ SomeCross (any_problem problem.now) rows.now) }
    ensures none { IfOk result (λ crossed. IsTrue crossed
        → (l : List ℕ) → IsLinearization (any_problem problem.now) l → ⊥) }
{
    let events = problem.timeline(alloc)?;
    let mut most = 0;
    for index in 0..events.len() {
        match events[index] {
            ProblemEvent::Call(call) => {
                if is_needed_before(rows, call as usize, most) {
                    return Ok(true);
                }
            }
            ProblemEvent::Return(call) => most = most_with(rows, call as usize, most),
        }
    }
    Ok(false)
}
