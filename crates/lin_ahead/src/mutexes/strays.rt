//! Unlocks of processes that do not hold the mutex.

ghost use Rattle.std.specs.Prelude.{◌≡◌, ◌≢◌, ◌↔◌, ℕ, Some, List, false, IfOk, IsSome, IsTrue, OnOk, nat_eq};
ghost use Rattle.indexmap.specs.IndexMap.{get};
ghost use Rattle.lin_object.specs.declared.op.Op.TheVariants.{Unlock};
ghost use Rattle.lin_history.specs.Problems.Linearizations.{IsLinearization};
ghost use Rattle.lin_history.specs.Problems.AnyProblem.{any_problem};
ghost use Rattle.lin_laws.specs.InTurn.{AreInTurn};
ghost use Rattle.lin_ahead.specs.Mutexes.Strays.{SomeIsStray, holds_then, is_held};

use crate::mutexes::rules::is_free;
use crate::mutexes::sections::acquired_at;
use indexmap::IndexMap;
use lin_history::{Problem, ProblemCall};
use lin_object::{AnyObject, Op, Reply};
use std::alloc::{AllocError, Global};

// Whether it is noted that the process holds the mutex.
fn holds(held: &IndexMap<u32, bool>, process: u32) -> bool
    ensures { result ≡ is_held (get nat_eq held.now process) }
{
    held.get(&process).copied().unwrap_or(false)
}

// Notes whether the process holds the mutex.
fn note(held: &mut IndexMap<u32, bool>, process: u32, holds: bool) -> Result<(), AllocError>
    ensures own { OnOk result (get nat_eq held.new process ≡ Some holds) }
    ensures others { (p : ℕ) → p ≢ process → get nat_eq held.new p ≡ get nat_eq held.old p }
{
    held.insert(process, holds)?;
    Ok(())
}

// Whether the call's process holds the mutex after it, where it did so before or not.
fn holds_then(call: &ProblemCall<Op, Reply>, before: bool) -> bool
    ensures { result ≡ holds_then call.now.op call.now.returned before }
{
    match call.op {
        Op::Unlock => false,
        _ => acquired_at(call).is_some() || before,
    }
}

// Whether the call is an unlock that returned, of a process that did not hold the mutex before.
fn is_stray(call: &ProblemCall<Op, Reply>, before: bool) -> bool
    ensures { IsTrue result ↔ ((call.now.op ≡ Unlock) × IsSome call.now.returned
        × (before ≡ false)) }
{
    matches!(call.op, Op::Unlock) && call.returned.is_some() && !before
}

/// Whether the mutex is free at the start, and some unlock that returned is one of a process that did not hold it by the calls before.
pub(crate) fn some_is_stray(alloc: Global, problem: &Problem<AnyObject>) -> Result<bool, AllocError>
    ensures { IfOk result (λ found. IsTrue found ↔ SomeIsStray (any_problem problem.now)) }
{
    if !is_free(problem.start()) {
        return Ok(false);
    }
    let mut held = IndexMap::new(alloc);
    for call in 0..problem.len() {
        let one = problem.call(call);
        let before = holds(&held, one.process);
        if is_stray(one, before) {
            return Ok(true);
        }
        note(&mut held, one.process, holds_then(one, before))?;
    }
    Ok(false)
}

/// Where some unlock is one of a process that does not hold the mutex there is no linearization, as one fact that a proof may cite. It
/// does nothing.
pub(crate) fn stray_law(problem: &Problem<AnyObject>)
    requires { AreInTurn (any_problem problem.now) }
    ensures { SomeIsStray (any_problem problem.now) → (l : List ℕ)
        → IsLinearization (any_problem problem.now) l → ⊥ }
{}
