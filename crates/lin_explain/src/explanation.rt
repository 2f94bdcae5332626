//! The state after a run, and what each call that could come next would answer there.
ghost use Rattle.std.specs.Prelude.{◌≡◌, ℕ, ◌<◌, IfOk, length, map};
ghost use Rattle.lin_object.specs.declared.state.ObjState.{ObjState as State};
ghost use Rattle.lin_history.specs.Problems.LegalLists.{Legal};
ghost use Rattle.lin_history.specs.Problems.Lists.{In};
ghost use Rattle.lin_history.specs.Problems.AnyProblem.{any_problem};
ghost use Rattle.lin_explain.specs.Explanation.{next_in, IsExplanation};

use crate::next_calls::next_calls;
use lin_history::{Order, Problem};
use lin_object::{AnyObject, ObjState, Reply, SeqObject};
use std::alloc::{AllocError, Global};

/// A call that could come next after a run, and what it would answer there.
#[derive(Clone, Copy, PartialEq, Eq, Debug)]
pub struct NextCall {
    /// Its number among the calls of the problem.
    pub call: usize,
    /// What it would answer; `None` where it has no step there.
    pub answer: Option<Reply>,
}

/// Why a run ends: where it leads, and what each call that could come next would answer there.
#[derive(Debug, Drop)]
pub struct Explanation {
    /// The state after the run.
    pub state: ObjState,
    /// The calls that could come next, in order of their numbers.
    pub next: Vec<NextCall>,
}

// The state after the calls of a run.
fn state_after(
    alloc: Global,
    problem: &Problem<AnyObject>,
    run: &[usize],
) -> Result<ObjState, AllocError>
    requires { (t : State) × Legal (any_problem problem.now) problem.now.start run.now t }
    ensures { IfOk result (λ state. Legal (any_problem problem.now) problem.now.start run.now
        state) }
{
    let mut state = AnyObject.copy_state(alloc, problem.start())?;
    for number in run {
        let call = problem.call(*number);
        let Some((next, _)) = AnyObject.step(alloc, &state, call.process, &call.op)? else {
            unreachable!()
        };
        state = next;
    }
    Ok(state)
}

// The call, and what it would answer in this state.
fn next_call(
    alloc: Global,
    problem: &Problem<AnyObject>,
    state: &ObjState,
    call: usize,
) -> Result<NextCall, AllocError>
    requires { call < length problem.now.calls }
    ensures { IfOk result (λ next. next ≡ next_in (any_problem problem.now) state.now call) }
{
    let asked = problem.call(call);
    let answer = match AnyObject.step(alloc, state, asked.process, &asked.op)? {
        Some((_, reply)) => Some(reply),
        None => None,
    };
    Ok(NextCall { call, answer })
}

// The calls, each with what it would answer in this state.
fn with_answers(
    alloc: Global,
    problem: &Problem<AnyObject>,
    state: &ObjState,
    calls: &[usize],
) -> Result<Vec<NextCall>, AllocError>
    requires { (c : ℕ) → In c calls.now → c < length problem.now.calls }
    ensures { IfOk result (λ next. next.items
        ≡ map (next_in (any_problem problem.now) state.now) calls.now) }
{
    let mut next = Vec::new(alloc);
    for call in calls {
        next.push(next_call(alloc, problem, state, *call)?)?;
    }
    Ok(next)
}

/// Why a run of the problem's calls ends: the state after it, and of each call that could come next what it would answer
/// there. It takes a step for each call of the run, and one for each that could come next. `AllocError` where memory was
/// refused.
///
/// Condition: the run is legal from the start of the problem, as each run is.
pub fn explain(
    alloc: Global,
    problem: &Problem<AnyObject>,
    run: &Order,
) -> Result<Explanation, AllocError>
    requires { (t : State) × Legal (any_problem problem.now) problem.now.start run.now t }
    ensures { IfOk result (λ explanation. IsExplanation (any_problem problem.now) run.now
        explanation) }
{
    let state = state_after(alloc, problem, run.calls())?;
    let calls = next_calls(alloc, problem, run.calls())?;
    let next = with_answers(alloc, problem, &state, calls.as_slice())?;
    Ok(Explanation { state, next })
}
