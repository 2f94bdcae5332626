//! Acquires that exclude each other: between their returns the process of the first one calls no unlock.

ghost use Rattle.std.specs.Prelude.{◌≡◌, ◌↔◌, ℕ, ◌<◌, ◌≤◌, leb, Some, List, IsTrue, length, slice_get};
ghost use Rattle.lin_object.specs.declared.op.Op.{Op};
ghost use Rattle.lin_object.specs.declared.op.Op.TheVariants.{Unlock};
ghost use Rattle.lin_object.specs.declared.reply.Reply.{Reply};
ghost use Rattle.lin_history.specs.declared.problems.problem.ProblemCall.{ProblemCall};
ghost use Rattle.lin_history.specs.Problems.Linearizations.{IsLinearization};
ghost use Rattle.lin_history.specs.Problems.AnyProblem.{any_problem};
ghost use Rattle.lin_ahead.specs.Mutexes.Acquires.{UnlocksBetween, UnlocksAmong};
ghost use Rattle.lin_laws.specs.InTurn.{AreInTurn};
ghost use Rattle.lin_ahead.specs.Mutexes.Sections.{AreInOrder, AreSections, ExcludeEachOther, SomeHoldTogether};

use crate::mutexes::sections::Section;
use lin_history::{Problem, ProblemCall};
use lin_object::{AnyObject, Op, Reply};

// How many calls were called by the event: those before this one.
fn called_by(problem: &Problem<AnyObject>, event: u32) -> usize
    ensures few { result ≤ length problem.now.calls }
    ensures each { (c : ℕ) (x : ProblemCall Op Reply) → slice_get problem.now.calls c ≡ Some x
        → c < result → x.called ≤ event }
    ensures no_other { (c : ℕ) (x : ProblemCall Op Reply) → slice_get problem.now.calls c ≡ Some x
        → result ≤ c → event < x.called }
{
    problem.calls().partition_point(
        |call: &ProblemCall<Op, Reply>| -> bool
            ensures { result ≡ leb call.now.called event }
        { call.called <= event },
    )
}

// Whether the call is an unlock of the process.
fn is_unlock_of(call: &ProblemCall<Op, Reply>, process: u32) -> bool
    ensures { IsTrue result ↔ ((call.now.op ≡ Unlock) × (call.now.process ≡ process)) }
{
    matches!(call.op, Op::Unlock) && call.process == process
}

// Whether the process calls an unlock among the calls from the one to the other.
fn unlocks_among(problem: &Problem<AnyObject>, process: u32, first: usize, end: usize) -> bool
    requires { end ≤ length problem.now.calls }
    ensures { IsTrue result ↔ UnlocksAmong (any_problem problem.now) process first end }
{
    for call in first..end {
        if is_unlock_of(problem.call(call), process) {
            return true;
        }
    }
    false
}

// Whether the process called an unlock after the one event, and not after the other.
fn unlocks_between(problem: &Problem<AnyObject>, process: u32, from: u32, to: u32) -> bool
    ensures { IsTrue result ↔ UnlocksBetween (any_problem problem.now) process from to }
{
    unlocks_among(
        problem,
        process,
        called_by(problem, from),
        called_by(problem, to),
    )
}

// Whether the two acquires exclude each other.
fn exclude_each_other(problem: &Problem<AnyObject>, first: &Section, second: &Section) -> bool
    ensures { IsTrue result ↔ ExcludeEachOther (any_problem problem.now) first.now second.now }
{
    if first.acquire == second.acquire || second.from < first.from {
        return false;
    }
    !unlocks_between(problem, first.process, first.from, second.from)
}

/// Whether two acquires exclude each other: both would hold the mutex at one moment. The list has the sections in the order of
/// their acquires' returns, so those that stand next to each other are enough.
pub(crate) fn some_hold_together(problem: &Problem<AnyObject>, sections: &[Section]) -> bool
    requires sections { AreSections (any_problem problem.now) sections.now }
    requires order { AreInOrder sections.now }
    ensures { IsTrue result ↔ SomeHoldTogether (any_problem problem.now) }
{
    for place in 1..sections.len() {
        if exclude_each_other(problem, &sections[place - 1], &sections[place]) {
            return true;
        }
    }
    false
}

/// Where two acquires exclude each other there is no linearization, as one fact that a proof may cite. It does nothing.
pub(crate) fn apart_law(problem: &Problem<AnyObject>)
    requires { AreInTurn (any_problem problem.now) }
    ensures { SomeHoldTogether (any_problem problem.now) → (l : List ℕ)
        → IsLinearization (any_problem problem.now) l → ⊥ }
{}
