//! What lets a reader see that an object has no order, as it is shown.

ghost use Rattle.std.specs.Prelude.{◌≡◌, ℕ, Some, map, option_map, slice_get, IfOk, IfSome};
ghost use Rattle.lin_history.specs.Recorder.Parts.{start_of, part_calls};
ghost use Rattle.lin_history.specs.Recorder.RecordedHistory.{RecordedHistory};
ghost use Rattle.lin_history.specs.Problems.AnyProblem.{any_problem};
ghost use Rattle.lincheck.specs.Explained.{told_in, shown_of, IsWitness};
ghost use Rattle.lincheck.specs.Known.{IsSoughtOf};
ghost use Rattle.lincheck.specs.ObjectFaults.{IsFaultOf};

use crate::known::Sought;
use crate::object_fault::{ObjectFault, fault_of_object};
use lin_core::{Core, SumFault};
use lin_decide::Ladder;
use lin_effort::Work;
use lin_explain::{CoreCall, ShownSums, Witness};
use lin_history::{History, Problem};
use lin_object::AnyObject;
use lin_search::Stop;
use std::alloc::{AllocError, Global};

// The call of this number, as the core takes it.
fn told(problem: &Problem<AnyObject>, core: &Core, number: usize) -> CoreCall
    ensures { result ≡ told_in (any_problem problem.now) core.now.from core.now.event number }
{
    let is_pending = match problem.calls().get(number) {
        Some(call) => core.takes_as_pending(call),
        None => false,
    };
    CoreCall {
        call: number,
        is_pending,
    }
}

// The calls of these numbers, as the core takes them.
fn told_of(
    alloc: Global,
    problem: &Problem<AnyObject>,
    core: &Core,
    numbers: &[usize],
) -> Result<Vec<CoreCall>, AllocError>
    ensures { IfOk result (λ calls. calls.items
        ≡ map (told_in (any_problem problem.now) core.now.from core.now.event) numbers.now) }
{
    let mut calls = Vec::new(alloc);
    for number in numbers {
        calls.push(told(problem, core, *number))?;
    }
    Ok(calls)
}

// The get that this is about, as it is shown.
fn shown(fault: &SumFault) -> ShownSums
    ensures { result ≡ shown_of fault.now }
{
    ShownSums {
        from: fault.from,
        get: fault.get,
        up: fault.up,
        base: fault.base,
        must: fault.must,
        may: fault.may,
        bound: fault.bound,
    }
}

/// What this fault of an object is shown as: where the problem is the part of a history on it, as what lets a reader see that the object
/// has no order. `AllocError` where memory was refused.
pub(crate) fn shown_fault(
    alloc: Global,
    problem: &Problem<AnyObject>,
    fault: &ObjectFault,
) -> Result<Witness, AllocError>
    ensures { IfOk result (λ witness. (history : RecordedHistory) (object : ℕ)
        → option_map start_of (slice_get history.objects object) ≡ Some problem.now.start
        → problem.now.calls ≡ part_calls history object
        → IsFaultOf (any_problem problem.now) fault.now → IsWitness history object witness) }
{
    match fault {
        ObjectFault::Core(core) => {
            let calls = told_of(alloc, problem, core, core.calls.as_slice())?;
            Ok(Witness::Core(core.from, calls))
        }
        ObjectFault::Sums(fault) => Ok(Witness::Sums(shown(fault))),
    }
}

/// What is known to let a reader see that the object of this index has no order, of which the problem is the part of the history on
/// it; `None` where that was not looked for. `AllocError` where memory was refused.
pub(crate) fn witness_known(
    alloc: Global,
    history: &History,
    object: usize,
    problem: &Problem<AnyObject>,
    fault: Sought,
) -> Result<Option<Witness>, AllocError>
    requires start { option_map start_of (slice_get history.now.objects object)
        ≡ Some problem.now.start }
    requires calls { problem.now.calls ≡ part_calls history.now object }
    requires fault { IsSoughtOf (any_problem problem.now) fault }
    ensures { IfOk result (λ known. IfSome known (IsWitness history.now object)) }
{
    match fault {
        Sought::NotYet => Ok(None),
        Sought::InVain => Ok(Some(Witness::Nothing)),
        Sought::Found(fault) => {
            let witness = shown_fault(alloc, problem, &fault)?;
            Ok(Some(witness))
        }
    }
}

/// What lets a reader see that the object of this index has no order, of which the problem is the part of the history on it: the
/// calls of a core, or a get for whose reply the adds leave no room; nothing where neither is found before the stop answers. `AllocError`
/// where memory was refused.
pub(crate) fn witness_of<S: Stop>(
    alloc: Global,
    history: &History,
    object: usize,
    problem: &Problem<AnyObject>,
    stop: &mut S,
) -> Result<Witness, AllocError>
    requires start { option_map start_of (slice_get history.now.objects object)
        ≡ Some problem.now.start }
    requires calls { problem.now.calls ≡ part_calls history.now object }
    ensures { IfOk result (λ witness. IsWitness history.now object witness) }
{
    let mut ladder = Ladder::new(problem, Work::ANY, stop);
    match fault_of_object(alloc, problem, &mut ladder)? {
        Some(fault) => shown_fault(alloc, problem, &fault),
        None => Ok(Witness::Nothing),
    }
}
