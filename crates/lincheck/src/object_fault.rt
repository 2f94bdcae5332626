//! Looking for what lets a reader see that an object has no order.

ghost use Rattle.std.specs.Prelude.{IfOk, IfSome};
ghost use Rattle.lin_history.specs.Problems.AnyProblem.{any_problem};
ghost use Rattle.lin_core.specs.Cores.{HasNone, IsCoreOf};
ghost use Rattle.lincheck.specs.ObjectFaults.{IsFaultOf};

use lin_core::{Core, SumFault, core_of, sum_fault_of};
use lin_effort::{Decide, UntilSpent};
use lin_history::Problem;
use lin_object::{AnyObject, Op};
use lin_prefixes::Hint;
use std::alloc::{AllocError, Global};

/// What lets a reader see that an object has no order.
#[derive(Drop)]
pub(crate) enum ObjectFault {
    /// Some of its calls that alone have no order.
    Core(Core),
    /// A get of a counter for whose reply the adds leave no room.
    Sums(SumFault),
}

// How many adds up to a get a reader takes in at once. A core of a counter has all adds up to its last event: where these are no
// more, it is shown, and else the sums.
const FEW_ADDS: usize = 6;

// A core of the object, if one is found.
fn core_of_object<D: Decide>(
    alloc: Global,
    problem: &Problem<AnyObject>,
    decider: &mut D,
) -> Result<Option<Core>, AllocError>
    ensures core { IfOk result (λ answer. IfSome answer (λ core.
        IsCoreOf (any_problem problem.now) core.from core.event core.key core.values.items core.calls.items
        core.firsts.items)) }
    ensures none { IfOk result (λ answer. IfSome answer (λ core. HasNone (any_problem problem.now))) }
{
    core_of(alloc, problem, decider)
}

// Whether so few adds were called by the return of the get that a core is plainer than sums.
fn has_few_adds(problem: &Problem<AnyObject>, fault: &SumFault) -> bool {
    let end = match problem.calls().get(fault.get) {
        Some(get) => match &get.returned {
            Some((number, _)) => *number,
            None => get.called,
        },
        None => 0,
    };
    let adds = problem
        .calls()
        .iter()
        .filter(|call| matches!(call.op, Op::Add(_)) && call.called < end);
    adds.count() <= FEW_ADDS
}

// A core of a counter that has this fault, where one is found that is plainer.
fn plainer_core<D: Decide>(
    alloc: Global,
    problem: &Problem<AnyObject>,
    fault: &SumFault,
    decider: &mut D,
) -> Result<Option<Core>, AllocError>
    ensures core { IfOk result (λ answer. IfSome answer (λ core.
        IsCoreOf (any_problem problem.now) core.from core.event core.key core.values.items core.calls.items
        core.firsts.items)) }
    ensures none { IfOk result (λ answer. IfSome answer (λ core. HasNone (any_problem problem.now))) }
{
    if !has_few_adds(problem, fault) {
        return Ok(None);
    }
    core_of_object(alloc, problem, decider)
}

/// A get of a counter for whose reply the adds leave no room, or a core that is plainer. `None` of another object, and where no such get
/// is found: one pass over the calls looks for it. `AllocError` where memory was refused.
pub(crate) fn sums_of_object<D: Decide>(
    alloc: Global,
    problem: &Problem<AnyObject>,
    decider: &mut D,
) -> Result<Option<ObjectFault>, AllocError>
    ensures fault { IfOk result (λ answer. IfSome answer (λ fault.
        IsFaultOf (any_problem problem.now) fault)) }
    ensures none { IfOk result (λ answer. IfSome answer (λ fault. HasNone (any_problem problem.now))) }
{
    let Some(sums) = sum_fault_of(alloc, problem, &mut UntilSpent::new(decider))? else {
        return Ok(None);
    };
    match plainer_core(alloc, problem, &sums, decider)? {
        Some(core) => Ok(Some(ObjectFault::Core(core))),
        None => Ok(Some(ObjectFault::Sums(sums))),
    }
}

/// Some calls of the object that alone have no order. `None` where none are found with as much work as so many calls are worth, or
/// before what decides does not go on. `AllocError` where memory was refused.
pub(crate) fn calls_of_object<D: Decide>(
    alloc: Global,
    problem: &Problem<AnyObject>,
    decider: &mut D,
) -> Result<Option<ObjectFault>, AllocError>
    ensures fault { IfOk result (λ answer. IfSome answer (λ fault.
        IsFaultOf (any_problem problem.now) fault)) }
    ensures none { IfOk result (λ answer. IfSome answer (λ fault. HasNone (any_problem problem.now))) }
{
    match core_of_object(alloc, problem, decider)? {
        Some(core) => Ok(Some(ObjectFault::Core(core))),
        None => Ok(None),
    }
}

/// What lets a reader see that the object has no order: a get of a counter for whose reply the adds leave no room, or some of its calls
/// that alone have none. `None` where neither is found. `AllocError` where memory was refused.
pub(crate) fn fault_of_object<D: Decide>(
    alloc: Global,
    problem: &Problem<AnyObject>,
    decider: &mut D,
) -> Result<Option<ObjectFault>, AllocError>
    ensures fault { IfOk result (λ answer. IfSome answer (λ fault.
        IsFaultOf (any_problem problem.now) fault)) }
    ensures none { IfOk result (λ answer. IfSome answer (λ fault. HasNone (any_problem problem.now))) }
{
    match sums_of_object(alloc, problem, decider)? {
        Some(fault) => Ok(Some(fault)),
        None => calls_of_object(alloc, problem, decider),
    }
}

// The calls of a core that had returned by its event, and the event.
fn hint_of_core(
    alloc: Global,
    problem: &Problem<AnyObject>,
    core: &Core,
) -> Result<Hint, AllocError> {
    let mut hint = Hint::none(alloc);
    for c in &core.calls {
        match problem.calls().get(*c) {
            Some(call) if !core.takes_as_pending(call) => hint.calls.push(*c)?,
            _ => {}
        }
    }
    hint.event = Some(core.event);
    Ok(hint)
}

// The get, and its return.
fn hint_of_sums(
    alloc: Global,
    problem: &Problem<AnyObject>,
    fault: &SumFault,
) -> Result<Hint, AllocError> {
    let mut hint = Hint::none(alloc);
    if let Some(get) = problem.calls().get(fault.get) {
        hint.calls.push(fault.get)?;
        hint.event = get.returned.as_ref().map(|returned| returned.0);
    }
    Ok(hint)
}

/// What the fault says of the longest run: no run has all of its calls that return. `AllocError` where memory was refused.
pub(crate) fn hint_of(
    alloc: Global,
    problem: &Problem<AnyObject>,
    fault: Option<&ObjectFault>,
) -> Result<Hint, AllocError> {
    match fault {
        Some(ObjectFault::Core(core)) => hint_of_core(alloc, problem, core),
        Some(ObjectFault::Sums(fault)) => hint_of_sums(alloc, problem, fault),
        None => Ok(Hint::none(alloc)),
    }
}
