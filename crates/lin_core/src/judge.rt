//! Whether selections have a linearization, within a budget of work. What it says is a hint: what is told is judged anew, against
//! the whole.

use crate::part_anew::made_anew;
use crate::part_search::decided;
use crate::selection::Selection;
use lin_effort::efforts::core_work;
use lin_effort::{Decide, Decision, Work};
use lin_history::Problem;
use lin_object::AnyObject;
use std::alloc::{AllocError, Global};

/// Searches selections of a problem, as long as there is work left and what decides goes on. What that takes is taken off.
#[derive(Drop)]
pub(crate) struct Judge<'a, 's, D> {
    problem: &'a Problem<AnyObject>,
    work: Work,
    decider: &'s mut D,
}

impl<'a, 's, D: Decide> Judge<'a, 's, D> {
    /// A judge with as much work as so many calls are worth.
    pub(crate) fn new(problem: &'a Problem<AnyObject>, decider: &'s mut D) -> Self {
        Judge {
            problem,
            work: core_work(problem.len()),
            decider,
        }
    }

    /// Whether there is work left, and what decides goes on. Once it does not, nothing is searched any more. Whoever tries one thing
    /// after another asks it before each: what a judge says that does not go on is no reason to try the next.
    pub(crate) fn goes_on(&mut self) -> bool {
        !self.work.is_none() && self.decider.goes_on(Work::NONE)
    }

    /// What a search shows of the calls, as they stood after the event. `AllocError` where memory was refused.
    pub(crate) fn answer(
        &mut self,
        alloc: Global,
        calls: &[usize],
        event: u32,
    ) -> Result<Decision, AllocError> {
        if !self.goes_on() {
            return Ok(Decision::Stopped);
        }
        let Some(part) = made_anew(alloc, self.problem, calls, event)? else {
            return Ok(Decision::Spent);
        };
        let before = self.decider.left();
        let decision = decided(alloc, &part, self.decider)?;
        self.work = self.work.without(before.without(self.decider.left()));
        Ok(decision)
    }

    /// Whether it shows that they have no linearization.
    pub(crate) fn refutes(
        &mut self,
        alloc: Global,
        calls: &[usize],
        event: u32,
    ) -> Result<bool, AllocError> {
        Ok(self.answer(alloc, calls, event)?.is_refuted())
    }

    /// The same of a selection.
    pub(crate) fn refutes_selection(
        &mut self,
        alloc: Global,
        selection: &Selection,
    ) -> Result<bool, AllocError> {
        self.refutes(alloc, selection.calls.as_slice(), selection.event)
    }
}
