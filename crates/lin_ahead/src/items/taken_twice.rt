//! Items that two calls on a queue or a stack returned with, though no two calls put them there: no order of the calls explains
//! that.

ghost use Rattle.std.specs.Prelude.{◌≡◌, ◌≢◌, ◌<◌, ◌↔◌, ℕ, ℤ, Some, List, IfOk, OnOk, IsTrue, length};
ghost use Rattle.std.specs.Ordering.{int_eq};
ghost use Rattle.indexmap.specs.IndexMap.{get};
ghost use Rattle.lin_history.specs.Problems.Linearizations.{IsLinearization};
ghost use Rattle.lin_history.specs.Problems.AnyProblem.{any_problem};
ghost use Rattle.lin_ahead.specs.Items.Impossible.{IsTakenTwice, TookAgain, adders_of, are_several, callers_in, callers_next, takers_of};

use crate::items::impossible_items::{added_by, item_out};
use crate::items::item_calls::{Callers, one_more};
use indexmap::IndexMap;
use lin_history::{Problem, ProblemCall};
use lin_object::{AnyObject, Op, Reply};
use std::alloc::{AllocError, Global};

// Whether more calls than one do it.
fn are_several(callers: Callers) -> bool
    ensures { result ≡ are_several callers }
{
    match callers {
        Callers::Several => true,
        Callers::Nobody | Callers::One => false,
    }
}

// How many calls are noted of the item.
fn callers_of(callers: &IndexMap<i64, Callers>, item: i64) -> Callers
    ensures { result ≡ callers_in (get int_eq callers.now) item }
{
    match callers.get(&item) {
        Some(count) => *count,
        None => Callers::Nobody,
    }
}

// Notes how many calls there are of the item.
fn note(callers: &mut IndexMap<i64, Callers>, item: i64, count: Callers) -> Result<(), AllocError>
    ensures own { OnOk result (get int_eq callers.new item ≡ Some count) }
    ensures others { (v : ℤ) → v ≢ item → get int_eq callers.new v ≡ get int_eq callers.old v }
{
    callers.insert(item, count)?;
    Ok(())
}

// Notes one call more of the item, where there is one.
fn add_caller(callers: &mut IndexMap<i64, Callers>, item: Option<i64>) -> Result<(), AllocError>
    ensures { OnOk result ((v : ℤ) → callers_in (get int_eq callers.new) v
        ≡ callers_next (callers_in (get int_eq callers.old) v) item v) }
{
    let Some(item) = item else {
        return Ok(());
    };
    let count = one_more(callers_of(callers, item));
    note(callers, item, count)
}

// For each item how many calls put it there.
fn adders_of(
    alloc: Global,
    calls: &[ProblemCall<Op, Reply>],
) -> Result<IndexMap<i64, Callers>, AllocError>
    ensures { IfOk result (λ adders. (v : ℤ)
        → callers_in (get int_eq adders) v ≡ adders_of calls.now v) }
{
    let mut adders = IndexMap::new(alloc);
    for made in calls {
        add_caller(&mut adders, added_by(&made.op))?;
    }
    Ok(adders)
}

// For each item how many calls returned with it.
fn takers_of(
    alloc: Global,
    problem: &Problem<AnyObject>,
) -> Result<IndexMap<i64, Callers>, AllocError>
    ensures { IfOk result (λ takers. (v : ℤ)
        → callers_in (get int_eq takers) v ≡ takers_of problem.now.start problem.now.calls v) }
{
    let start = problem.start();
    let calls = problem.calls();
    let mut takers = IndexMap::new(alloc);
    for made in calls {
        add_caller(&mut takers, item_out(start, made))?;
    }
    Ok(takers)
}

// Whether the call returned with an item of which there are several takers, but not several adders.
fn took_again(
    problem: &Problem<AnyObject>,
    takers: &IndexMap<i64, Callers>,
    adders: &IndexMap<i64, Callers>,
    call: usize,
) -> bool
    requires { call < length problem.now.calls }
    ensures { IsTrue result ↔ TookAgain (any_problem problem.now)
        (callers_in (get int_eq takers.now)) (callers_in (get int_eq adders.now)) call }
{
    match item_out(problem.start(), problem.call(call)) {
        Some(item) => {
            are_several(callers_of(takers, item)) && !are_several(callers_of(adders, item))
        }
        None => false,
    }
}

// Whether some call returned with an item of which there are several takers, but not several adders.
fn some_took_again(
    problem: &Problem<AnyObject>,
    takers: &IndexMap<i64, Callers>,
    adders: &IndexMap<i64, Callers>,
) -> bool
    ensures { IsTrue result ↔ ((c : ℕ) × TookAgain (any_problem problem.now)
        (callers_in (get int_eq takers.now)) (callers_in (get int_eq adders.now)) c) }
{
    for call in 0..problem.len() {
        if took_again(problem, takers, adders, call) {
            return true;
        }
    }
    false
}

/// Whether two calls returned with one item that no two calls put there, of a queue or a stack that starts empty. Then there is
/// no linearization. `AllocError` where memory was refused. The time is O(n) for n calls. (This project's own.)
pub fn some_was_taken_twice(alloc: Global, problem: &Problem<AnyObject>) -> Result<bool, AllocError>
    ensures exact { IfOk result (λ found. IsTrue found
        ↔ IsTakenTwice (any_problem problem.now)) }
    ensures none { IfOk result (λ found. IsTrue found
        → (l : List ℕ) → IsLinearization (any_problem problem.now) l → ⊥) }
{
    let takers = takers_of(alloc, problem)?;
    // Mostly there are not several takers of any item, and then the adders need not be counted.
    if !some_took_again(problem, &takers, &IndexMap::new(alloc)) {
        return Ok(false);
    }
    let adders = adders_of(alloc, problem.calls())?;
    Ok(some_took_again(problem, &takers, &adders))
}
