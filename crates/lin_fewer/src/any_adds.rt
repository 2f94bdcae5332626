//! Whether a counter has no linearization whatever its pending calls add.
//!
//! Pending adds may then make up any difference in front of a `get`. So with the same completed calls the counter may as well have grown
//! by less, and one number is enough for each set of completed calls. The sets are taken in layers: those of one call, of two, and so
//! on. Where a layer is empty there is no linearization. That is quick where few calls overlap, however many are pending.

ghost use Rattle.std.specs.Prelude.{◌≡◌, ◌<◌, ◌≤◌, ℕ, List, [], length, IfOk, IfSome, IsSomeAnd, IsTrue, OnOk};
ghost use Rattle.lin_history.specs.declared.limits.TheConstants.{MAX_CALLS_ON_OBJECT};
ghost use Rattle.lin_history.specs.Problems.AnyProblem.{any_problem};
ghost use Rattle.lin_history.specs.Problems.Linearizations.{IsLinearization};
ghost use Rattle.lin_fewer.specs.Fronts.{IsFirstLeft};
ghost use Rattle.lin_fewer.specs.AnyAdds.{GrowsTo, HasGrown, NoneTakesOff, IsBeginning, AreBeginnings, HasAsMuch, HasNoMore, IsRootAlone, IsTaken, LeadsTo};

use crate::front::{first_left, is_completed, is_later, least_return};
use crate::sums::{none_takes_off, number_of, part_in};
use lin_history::Problem;
use lin_object::{AnyObject, Op, Reply};
use lin_search::{CallSet, Stop};
use std::alloc::{AllocError, Global};

// How many sets of completed calls a layer has at most. Of 8 clients it has some hundred; a wider one takes too long.
const MOST_AT_ONCE: usize = 512;

// No more than so much need be counted: it is more than any two numbers of 64 bits are apart.
const ENOUGH: u128 = u64::MAX as u128;

// Completed calls with which an order may begin, by how much the counter has grown then at least, and a call below which all completed
// ones are among them.
#[derive(Drop)]
struct Beginning {
    lifted: CallSet,
    grown: u128,
    first: usize,
}

// A counter's problem, and the number with which it starts.
#[derive(Clone, Copy)]
struct Counted<'p> {
    problem: &'p Problem<AnyObject>,
    start: i64,
}

// By how much the counter, which starts with the number, has grown where a `get` finds the value. `None` where it had grown by more.
fn grown_to(start: i64, value: i64, grown: u128) -> Option<u128>
    ensures { HasGrown start value grown → IsSomeAnd result (HasGrown start value) }
{
    let found = part_in(true, value) as u128 + part_in(false, start) as u128;
    let there = part_in(true, start) as u128 + part_in(false, value) as u128;
    if found < there || found - there < grown {
        return None;
    }
    Some(found - there)
}

// By how much it has grown behind the call at least. `None` where the call can't follow.
fn grown_after(counted: &Counted<'_>, call: usize, grown: u128) -> Option<u128>
    requires call { call < length counted.now.problem.now.calls }
    requires none { NoneTakesOff (any_problem counted.now.problem.now) }
    ensures { GrowsTo (any_problem counted.now.problem.now) counted.now.start call grown result }
{
    if grown > ENOUGH {
        return Some(grown);
    }
    let made = counted.problem.call(call);
    match (&made.op, &made.returned) {
        (Op::Add(number), _) => Some(grown + part_in(true, *number) as u128),
        (Op::Get, Some((_, Reply::Int(value)))) => grown_to(counted.start, *value, grown),
        _ => Some(grown),
    }
}

// Whether both have the same calls, and with the first the counter has grown by no more.
fn is_no_more(a: &Beginning, b: &Beginning) -> bool
    ensures same { IsTrue result → a.now.lifted ≡ b.now.lifted }
    ensures less { IsTrue result → a.now.grown ≤ b.now.grown }
{
    if a.grown > b.grown {
        return false;
    }
    a.lifted == b.lifted
}

// Whether one of the layer is so.
fn has_no_more(layer: &[Beginning], beginning: &Beginning) -> bool
    ensures { IsTrue result → HasNoMore layer.now beginning.now.lifted beginning.now.grown }
{
    for i in 0..layer.len() {
        if is_no_more(&layer[i], beginning) {
            return true;
        }
    }
    false
}

// Puts the beginning into the layer, unless one there is so.
fn put(
    problem: &Problem<AnyObject>,
    layer: &mut Vec<Beginning>,
    beginning: Beginning,
) -> Result<(), AllocError>
    requires is { IsBeginning (any_problem problem.now) beginning }
    requires layer { AreBeginnings (any_problem problem.now) layer.old.items }
    ensures layer { OnOk result (AreBeginnings (any_problem problem.now) layer.new.items) }
    ensures more { OnOk result (HasAsMuch layer.old.items layer.new.items) }
    ensures there { OnOk result (HasNoMore layer.new.items beginning.lifted beginning.grown) }
{
    if has_no_more(layer.as_slice(), &beginning) {
        return Ok(());
    }
    layer.push(beginning)?;
    Ok(())
}

// Puts what the call leads to from the beginning into the layer, if it is completed and can follow.
fn add_call(
    alloc: Global,
    counted: &Counted<'_>,
    from: &Beginning,
    call: usize,
    layer: &mut Vec<Beginning>,
) -> Result<(), AllocError>
    requires call { call < length counted.now.problem.now.calls }
    requires none { NoneTakesOff (any_problem counted.now.problem.now) }
    requires from { IsBeginning (any_problem counted.now.problem.now) from.now }
    requires layer { AreBeginnings (any_problem counted.now.problem.now) layer.old.items }
    ensures layer { OnOk result (AreBeginnings (any_problem counted.now.problem.now) layer.new.items) }
    ensures more { OnOk result (HasAsMuch layer.old.items layer.new.items) }
    ensures taken { OnOk result (IsTaken (any_problem counted.now.problem.now) counted.now.start from.now
        layer.new.items call) }
{
    if !is_completed(counted.problem, call) {
        return Ok(());
    }
    if from.lifted.has(call) {
        return Ok(());
    }
    let Some(grown) = grown_after(counted, call, from.grown) else {
        return Ok(());
    };
    let lifted = from.lifted.copy_with(alloc, call)?;
    let first = from.first;
    let beginning = Beginning {
        lifted,
        grown,
        first,
    };
    put(counted.problem, layer, beginning)?;
    Ok(())
}

// The same for each call that may follow. The call is the first completed one that the beginning lacks.
fn add_calls(
    alloc: Global,
    counted: &Counted<'_>,
    from: &Beginning,
    first: usize,
    layer: &mut Vec<Beginning>,
) -> Result<(), AllocError>
    requires none { NoneTakesOff (any_problem counted.now.problem.now) }
    requires from { IsBeginning (any_problem counted.now.problem.now) from.now }
    requires first { IsFirstLeft (any_problem counted.now.problem.now) from.now.lifted first }
    requires layer { AreBeginnings (any_problem counted.now.problem.now) layer.old.items }
    ensures layer { OnOk result (AreBeginnings (any_problem counted.now.problem.now) layer.new.items) }
    ensures more { OnOk result (HasAsMuch layer.old.items layer.new.items) }
    ensures taken { OnOk result ((c : ℕ) → IsTaken (any_problem counted.now.problem.now) counted.now.start
        from.now layer.new.items c) }
{
    let problem = counted.problem;
    let bound = least_return(problem, &from.lifted, first);
    for call in first..problem.len() {
        if is_later(problem, call, bound) {
            return Ok(());
        }
        add_call(alloc, counted, from, call, layer)?;
    }
    Ok(())
}

// The layer that follows. `None` where a beginning has every completed call, or where there would be too many.
fn next_layer(
    alloc: Global,
    counted: &Counted<'_>,
    layer: &[Beginning],
) -> Result<Option<Vec<Beginning>>, AllocError>
    requires none { NoneTakesOff (any_problem counted.now.problem.now) }
    requires layer { AreBeginnings (any_problem counted.now.problem.now) layer.now }
    ensures layer { IfOk result (λ told. IfSome told (λ later. AreBeginnings
        (any_problem counted.now.problem.now) later.items)) }
    ensures leads { IfOk result (λ told. IfSome told (λ later. LeadsTo
        (any_problem counted.now.problem.now) counted.now.start layer.now later.items)) }
{
    let mut later = Vec::new(alloc);
    for i in 0..layer.len() {
        let from = &layer[i];
        let Some(first) = first_left(counted.problem, &from.lifted, from.first) else {
            return Ok(None);
        };
        add_calls(alloc, counted, from, first, &mut later)?;
        if later.len() > MOST_AT_ONCE {
            return Ok(None);
        }
    }
    Ok(Some(later))
}

// Whether the layer has no beginning.
fn is_empty(layer: &[Beginning]) -> bool
    ensures { IsTrue result → layer.now ≡ [] }
{
    layer.is_empty()
}

// The layer of no call.
fn first_layer(alloc: Global, calls: usize) -> Result<Vec<Beginning>, AllocError>
    requires { calls ≤ MAX_CALLS_ON_OBJECT }
    ensures { IfOk result (λ layer. IsRootAlone calls layer.items) }
{
    let lifted = CallSet::none(alloc, calls)?;
    let mut layer = Vec::new(alloc);
    layer.push(Beginning {
        lifted,
        grown: 0,
        first: 0,
    })?;
    Ok(layer)
}

/// Whether it is found that the problem, of a counter from which no call takes anything off, has no linearization, whatever its pending
/// calls add. The stop is asked for each layer. `AllocError` where memory was refused.
pub fn is_refuted_with_any_adds<S: Stop>(
    alloc: Global,
    problem: &Problem<AnyObject>,
    stop: &mut S,
) -> Result<bool, AllocError>
    ensures { IfOk result (λ refuted. IsTrue refuted → (l : List ℕ)
        → IsLinearization (any_problem problem.now) l → ⊥) }
{
    let Some(start) = number_of(problem.start()) else {
        return Ok(false);
    };
    if !none_takes_off(problem) {
        return Ok(false);
    }
    let _calls = problem.calls();
    let counted = Counted { problem, start };
    let mut layer = first_layer(alloc, problem.len())?;
    for _ in 0..=problem.len() {
        if is_empty(layer.as_slice()) {
            return Ok(true);
        }
        if stop.ask().is_some() {
            return Ok(false);
        }
        let Some(later) = next_layer(alloc, &counted, layer.as_slice())? else {
            return Ok(false);
        };
        layer = later;
    }
    Ok(false)
}
