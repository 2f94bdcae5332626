//! The rule of a mutex: no call takes it before an acquire that is left and returned no later.

ghost use Rattle.std.specs.Prelude.{◌≡◌, ◌↔◌, None, Some, true, false, IsTrue};
ghost use Rattle.lin_object.specs.declared.reply.Reply.{Reply};
ghost use Rattle.lin_object.specs.declared.op.Op.{Op};
ghost use Rattle.lin_object.specs.declared.state.ObjState.TheVariants.{Mutex};
ghost use Rattle.lin_history.specs.declared.problems.problem.ProblemCall.{ProblemCall};
ghost use Rattle.lin_history.specs.Problems.Continuations.{has};
ghost use Rattle.lin_history.specs.Problems.AnyProblem.{any_problem};
ghost use Rattle.lin_ahead.specs.First.FirstProgress.{BeginsNone};
ghost use Rattle.lin_ahead.specs.Mutexes.Acquires.{ReturnsFrom, IsLeftFrom, takes_if_free};
ghost use Rattle.lin_laws.specs.InTurn.{AreInTurn};

use crate::first::calls_in_turn::CallsInTurn;
use crate::first::rules::Rules;
use crate::kept::kept;
use crate::mutexes::rows::MutexAhead;
use crate::mutexes::sections::section_of;
use lin_history::{Problem, ProblemCall};
use lin_object::{AnyObject, ObjState, Op, Reply, lawful};
use lin_search::Config;
use std::alloc::{AllocError, Global};

// The acquires in the order of their returns. It is a hint which of them is the next.
#[derive(Drop)]
pub(crate) struct MutexRules {
    acquires: CallsInTurn,
}

/// Whether the mutex is free.
pub(crate) fn is_free(state: &ObjState) -> bool
    ensures { IsTrue result ↔ (state.now ≡ Mutex None) }
{
    match state {
        ObjState::Mutex(holder) => holder.is_none(),
        _ => false,
    }
}

// Whether the call takes the mutex where it is free.
fn takes_if_free(op: &Op) -> bool
    ensures { result ≡ takes_if_free op.now }
{
    matches!(op, Op::Lock | Op::TryLock)
}

// Whether the call has not returned before the event.
fn returns_from(event: u32, call: &ProblemCall<Op, Reply>) -> bool
    ensures { IsTrue result → ReturnsFrom event call.now.returned }
{
    match &call.returned {
        Some((returned, _)) => event <= *returned,
        None => true,
    }
}

// Whether the call is left.
fn is_left(config: &Config<AnyObject>, call: usize) -> bool
    ensures { IsTrue result → has config.now.lifted call ≡ false }
{
    !config.has(call)
}

// Whether the acquire is left, and the call has not returned before it.
fn is_left_from(
    problem: &Problem<AnyObject>,
    config: &Config<AnyObject>,
    acquire: usize,
    call: &ProblemCall<Op, Reply>,
) -> bool
    ensures { IsTrue result → IsLeftFrom (any_problem problem.now) config.now.lifted acquire call.now.returned }
{
    if !is_left(config, acquire) {
        return false;
    }
    let Some(section) = section_of(problem, acquire) else {
        return false;
    };
    returns_from(section.from, call)
}

// Whether the call would take the mutex, which is free, while this acquire is left and returned no later than the call.
fn is_too_early(
    problem: &Problem<AnyObject>,
    config: &Config<AnyObject>,
    acquire: usize,
    call: usize,
) -> bool
    requires { AreInTurn (any_problem problem.now) }
    ensures { IsTrue result → BeginsNone (any_problem problem.now) config.now.lifted
        config.now.state call }
{
    if call >= problem.len() || acquire == call || !is_free(config.state()) {
        return false;
    }
    let one = problem.call(call);
    takes_if_free(&one.op) && is_left_from(problem, config, acquire, one)
}

impl MutexRules {
    // Those of the problem, none of whose calls is lifted.
    pub(crate) fn new(
        alloc: Global,
        problem: &Problem<AnyObject>,
        ahead: &MutexAhead,
    ) -> Result<Self, AllocError> {
        let mut acquires = Vec::with_capacity(alloc, ahead.sections.len())?;
        for section in &ahead.sections {
            acquires.push(kept(section.acquire))?;
        }
        Ok(MutexRules {
            acquires: CallsInTurn::new(alloc, acquires, problem.len())?,
        })
    }
}

impl Rules<AnyObject> for MutexRules {
    ghost are_right = { λ rules p. AreInTurn (any_problem p) };

    fn lifted(&mut self, config: &Config<AnyObject>, call: usize) -> Result<(), AllocError> {
        self.acquires.lifted(config);
        Ok(())
    }

    fn unlifted(&mut self, call: usize) {
        self.acquires.unlifted(call);
    }

    fn begins_none(
        &self,
        problem: &Problem<AnyObject>,
        config: &Config<AnyObject>,
        call: usize,
    ) -> Result<bool, AllocError> {
        match self.acquires.ahead(0) {
            Some(acquire) => Ok(is_too_early(problem, config, acquire, call)),
            None => Ok(false),
        }
    }

    fn looks_at_next(&self, config: &Config<AnyObject>, call: usize) -> bool {
        false
    }

    fn leads_to_none(
        &self,
        problem: &Problem<AnyObject>,
        config: &Config<AnyObject>,
        call: usize,
        state: &ObjState,
    ) -> Result<bool, AllocError> {
        Ok(false)
    }
}
