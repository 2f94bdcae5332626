//! Whether the calls of each process come one after another.

ghost use Rattle.std.specs.Prelude.{◌≡◌, ◌≢◌, ◌↔◌, ℕ, Some, IfOk, IfSome, IsTrue, OnOk, nat_eq};
ghost use Rattle.indexmap.specs.IndexMap.{get};
ghost use Rattle.lin_history.specs.Problems.Precedence.{Before};
ghost use Rattle.lin_history.specs.Problems.AnyProblem.{any_problem};
ghost use Rattle.lin_laws.specs.InTurn.{AreInTurn};

use indexmap::IndexMap;
use lin_history::Problem;
use lin_object::AnyObject;
use std::alloc::{AllocError, Global};

/// Whether the call returned before the other one was called; not where there is no such call.
pub fn precedes(problem: &Problem<AnyObject>, call: usize, other: usize) -> bool
    ensures { IsTrue result ↔ Before (any_problem problem.now) call other }
{
    let (Some(one), Some(next)) = (problem.calls().get(call), problem.calls().get(other)) else {
        return false;
    };
    match &one.returned {
        Some((returned, _)) => *returned < next.called,
        None => false,
    }
}

// The last call of the process so far.
fn last_of(last: &IndexMap<u32, usize>, process: u32) -> Option<usize>
    ensures { result ≡ get nat_eq last.now process }
{
    last.get(&process).copied()
}

// Notes that this call is the last of its process so far.
fn note(last: &mut IndexMap<u32, usize>, process: u32, call: usize) -> Result<(), AllocError>
    ensures own { OnOk result (get nat_eq last.new process ≡ Some call) }
    ensures others { (p : ℕ) → p ≢ process → get nat_eq last.new p ≡ get nat_eq last.old p }
{
    last.insert(process, call)?;
    Ok(())
}

// Whether the earlier call, if there is one, returned before the other one was called.
fn comes_after(problem: &Problem<AnyObject>, earlier: Option<usize>, call: usize) -> bool
    ensures { IsTrue result ↔ IfSome earlier (λ e. Before (any_problem problem.now) e call) }
{
    match earlier {
        Some(earlier) => precedes(problem, earlier, call),
        None => true,
    }
}

/// Whether the calls of each process come one after another. It takes O(n) for n calls. `AllocError` where memory was refused.
pub fn are_in_turn(alloc: Global, problem: &Problem<AnyObject>) -> Result<bool, AllocError>
    ensures { IfOk result (λ yes. IsTrue yes ↔ AreInTurn (any_problem problem.now)) }
{
    let _timed = problem.calls();
    let mut last = IndexMap::new(alloc);
    for call in 0..problem.len() {
        let process = problem.call(call).process;
        if !comes_after(problem, last_of(&last, process), call) {
            return Ok(false);
        }
        note(&mut last, process, call)?;
    }
    Ok(true)
}
