//! Until which call an acquire's process holds a mutex that it took there, and which acquires may stand in for it.

ghost use Rattle.std.specs.Prelude.{◌≡◌, ◌≢◌, ◌↔◌, ℕ, List, Some, true, IfOk, IfSome, IsSome, IsTrue, OnOk, nat_eq, unwrap_or};
ghost use Rattle.indexmap.specs.IndexMap.{get};
ghost use Rattle.lin_object.specs.declared.op.Op.TheVariants.{Unlock};
ghost use Rattle.lin_history.specs.Problems.AnyProblem.{any_problem};
ghost use Rattle.lin_laws.specs.InTurn.{AreInTurn};
ghost use Rattle.lin_ahead.specs.Mutexes.HeldUntil.{AreHeldUntil, number_if, took};
ghost use Rattle.lin_laws.specs.StandIns.{AreStandIns};
ghost use Rattle.lin_ahead.specs.Mutexes.Strays.{is_unlock};

use indexmap::IndexMap;
use lin_history::{Problem, ProblemCall};
use lin_laws::are_in_turn;
use lin_object::{AnyObject, Op, Reply};
use std::alloc::{AllocError, Global};

// Whether the call is an unlock.
fn is_unlock(call: &ProblemCall<Op, Reply>) -> bool
    ensures { result ≡ is_unlock call.now.op }
{
    match call.op {
        Op::Unlock => true,
        _ => false,
    }
}

// The process's first unlock among the later calls, or else the number of calls.
fn next_of(next: &IndexMap<u32, usize>, process: u32, end: usize) -> usize
    ensures { result ≡ unwrap_or (get nat_eq next.now process) end }
{
    next.get(&process).copied().unwrap_or(end)
}

// Notes that this call is the process's first unlock among the calls from it on.
fn note(next: &mut IndexMap<u32, usize>, process: u32, call: usize) -> Result<(), AllocError>
    ensures own { OnOk result (get nat_eq next.new process ≡ Some call) }
    ensures others { (p : ℕ) → p ≢ process → get nat_eq next.new p ≡ get nat_eq next.old p }
{
    next.insert(process, call)?;
    Ok(())
}

// Notes the call, if it is an unlock.
fn note_unlock(
    next: &mut IndexMap<u32, usize>,
    one: &ProblemCall<Op, Reply>,
    call: usize,
) -> Result<(), AllocError>
    ensures own { OnOk result (is_unlock one.now.op ≡ true → get nat_eq next.new one.now.process ≡ Some call) }
    ensures others { (p : ℕ) → (is_unlock one.now.op ≡ true → p ≢ one.now.process) → get nat_eq next.new p ≡ get nat_eq next.old p }
{
    if !is_unlock(one) {
        return Ok(());
    }
    note(next, one.process, call)
}

// Whether the call is a `lock` that answered 'ok', or a `try_lock` that answered 'yes'.
fn took(call: &ProblemCall<Op, Reply>) -> bool
    ensures { result ≡ took call.now.op call.now.returned }
{
    match (&call.op, &call.returned) {
        (Op::Lock, Some((_, Reply::Okay))) => true,
        (Op::TryLock, Some((_, Reply::Flag(true)))) => true,
        _ => false,
    }
}

// The number if the answer is yes, else 0.
fn number_if(yes: bool, number: usize) -> usize
    ensures { result ≡ number_if yes number }
{
    if yes { number } else { 0 }
}

// For each call that took the mutex the next unlock of its process, or else the number of calls; for each other call 0.
fn until_each(alloc: Global, problem: &Problem<AnyObject>) -> Result<Vec<usize>, AllocError>
    ensures { IfOk result (λ row. AreHeldUntil (any_problem problem.now) row.items) }
{
    let end = problem.len();
    let mut next = IndexMap::new(alloc);
    let mut row = Vec::new(alloc);
    row.resize(end, 0)?;
    let mut left = end;
    while left > 0 {
        left -= 1;
        let one = problem.call(left);
        row[left] = number_if(took(one), next_of(&next, one.process, end));
        note_unlock(&mut next, one, left)?;
    }
    Ok(row)
}

// Such a row tells which calls may stand in for others, as one fact that a proof may cite. It does nothing.
fn holder_law(problem: &Problem<AnyObject>)
    requires { AreInTurn (any_problem problem.now) }
    ensures { (row : List ℕ) → AreHeldUntil (any_problem problem.now) row
        → AreStandIns (any_problem problem.now) row }
{
    let _timed = problem.calls();
}

/// For each call that took a mutex the next unlock of its process, or else the number of calls; for each other call 0. A run with calls
/// up to `k` alone has at most one call whose number is greater than `k`; and where that one does not precede `k`, it may have any
/// earlier one in its place. `None` where the calls of some process do not come one after another. It takes O(n) for n calls.
pub fn held_until(
    alloc: Global,
    problem: &Problem<AnyObject>,
) -> Result<Option<Vec<usize>>, AllocError>
    ensures each { IfOk result (λ known. IfSome known (λ row. AreHeldUntil
        (any_problem problem.now) row.items)) }
    ensures stand_ins { IfOk result (λ known. IfSome known (λ row. AreStandIns
        (any_problem problem.now) row.items)) }
    ensures when { IfOk result (λ known. IsSome known ↔ AreInTurn (any_problem problem.now)) }
{
    if !are_in_turn(alloc, problem)? {
        return Ok(None);
    }
    holder_law(problem);
    let row = until_each(alloc, problem)?;
    Ok(Some(row))
}
