//! What is known ahead of a mutex's problem.

ghost use Rattle.std.specs.Prelude.{◌↔◌, IfOk, IfSome, IsSome};
ghost use Rattle.lin_history.specs.Problems.AnyProblem.{any_problem};
ghost use Rattle.lin_laws.specs.InTurn.{AreInTurn};
ghost use Rattle.lin_ahead.specs.Mutexes.MutexAhead.{IsRightOfMutex, IsToldOfMutex};

use crate::mutexes::releases::{apart_law, some_hold_together};
use crate::mutexes::sections::{Section, sections_in_order};
use crate::mutexes::strays::{some_is_stray, stray_law};
use lin_history::Problem;
use lin_laws::are_in_turn;
use lin_object::AnyObject;
use std::alloc::{AllocError, Global};

/// What is known of a mutex's problem before any search.
#[derive(Drop)]
pub struct MutexAhead {
    /// The sections, in the order of their acquires' returns.
    pub sections: Vec<Section>,
    /// Whether what is known shows that there is no linearization.
    pub in_vain: bool,
}

/// What the calls on a mutex show. `None` where the calls of some process do not come one after another.
pub(crate) fn told_of_mutex(
    alloc: Global,
    problem: &Problem<AnyObject>,
) -> Result<Option<MutexAhead>, AllocError>
    ensures right { IfOk result (λ known. IfSome known (IsRightOfMutex (any_problem problem.now))) }
    ensures told { IfOk result (λ known. IfSome known
        (IsToldOfMutex (any_problem problem.now))) }
    ensures when { IfOk result (λ known. IsSome known ↔ AreInTurn (any_problem problem.now)) }
{
    if !are_in_turn(alloc, problem)? {
        return Ok(None);
    }
    apart_law(problem);
    stray_law(problem);
    let sections = sections_in_order(alloc, problem)?;
    let in_vain = some_hold_together(problem, sections.as_slice())
        || some_is_stray(alloc, problem)?;
    Ok(Some(MutexAhead { sections, in_vain }))
}
