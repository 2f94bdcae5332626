//! Searches of parts made anew, by whatever decides problems.
ghost use Rattle.std.specs.Prelude.{◌<◌, IfOk, length};
ghost use Rattle.lin_history.specs.Problems.AnyProblem.{any_problem};
ghost use Rattle.lin_parts.specs.Parts.{AreSomeCalls};
ghost use Rattle.lin_prefixes.specs.RunsTold.{IsToldOfRuns};
ghost use Rattle.lin_prefixes.specs.PartAnswer.{IsPartAnswer};

use crate::asked_groups::AskedGroups;
use crate::marks::Marks;
use crate::open_takers::open_takers;
use crate::part_search::{PartSearch, RunsTold};
use crate::question::{Question, part_for};
use crate::told_of_part::{order_of_part, told_of_part};
use crate::twins::is_repeated;
use lin_effort::efforts::{bound, group};
use lin_effort::{Decide, Decision, Effort, Work};
use lin_history::Problem;
use lin_object::AnyObject;
use lin_parts::part_of;
use std::alloc::{AllocError, Global};

// What goes on between two questions counts as so many looks at a call at least: as many as a lift.
const LEAST_LOOKS: u64 = 256;

// How far it is searched whether the problem has no linearization: as a bound, or to show that no run has these calls.
fn effort_for(part: &Problem<AnyObject>, calls: &[usize]) -> Effort {
    if calls.is_empty() {
        bound(part.len())
    } else {
        group(part.len())
    }
}

// About how many looks at a call it takes to find a group that has these calls.
fn looks_at(asked: &AskedGroups, calls: &[usize]) -> u64 {
    (asked.len() as u64).saturating_mul(calls.len() as u64)
}

/// Searches of parts of a problem of the seven kinds, each made anew and then decided as any problem is. A group of calls is not
/// asked of twice. Once there is no work left or the stop answers, they say nothing.
#[derive(Drop)]
pub(crate) struct AnewSearch<'a, D> {
    asked: AskedGroups,
    decider: &'a mut D,
}

impl<'a, D: Decide> AnewSearch<'a, D> {
    // Searches of parts of problems.
    pub(crate) fn new(alloc: Global, decider: &'a mut D) -> Self {
        AnewSearch {
            asked: AskedGroups::new(alloc),
            decider,
        }
    }

    // What is told of the problem of these calls.
    fn answer_to_part(
        &mut self,
        alloc: Global,
        problem: &Problem<AnyObject>,
        kept: &[usize],
    ) -> Result<Decision, AllocError>
        requires { AreSomeCalls (any_problem problem.now) kept.now }
        ensures { IfOk result (IsPartAnswer (any_problem problem.now) kept.now) }
    {
        if !self.decider.goes_on(Work::NONE) {
            return Ok(Decision::Stopped);
        }
        let part = part_of(alloc, problem, kept)?;
        let answer = order_of_part(alloc, &part, self.decider)?;
        Ok(answer)
    }

    // What the question of the runs of the call that have these calls tells.
    fn told_of_runs(
        &mut self,
        alloc: Global,
        problem: &Problem<AnyObject>,
        call: usize,
        calls: &[usize],
    ) -> Result<RunsTold, AllocError>
        requires { call < length problem.now.calls }
        ensures { IfOk result (IsToldOfRuns (any_problem problem.now) call calls.now) }
    {
        let takers = open_takers(alloc, problem, call, calls)?;
        let marks = Marks::new(alloc, problem, calls, takers.as_slice())?;
        let question = Question {
            call,
            kept: calls,
            takers: takers.as_slice(),
            marks: &marks,
        };
        let part = part_for(alloc, problem, question)?;
        let effort = effort_for(&part, calls);
        match told_of_part(alloc, &part, &effort, self.decider)? {
            Decision::Refuted => Ok(RunsTold::NoRun),
            Decision::Found(_) => Ok(RunsTold::SomeRun),
            Decision::Spent => Ok(RunsTold::Nothing),
            Decision::Stopped => Ok(RunsTold::Ended),
        }
    }
}

impl<'a, D: Decide> PartSearch<AnyObject> for AnewSearch<'a, D> {
    fn least_of_part(
        &mut self,
        alloc: Global,
        problem: &Problem<AnyObject>,
        kept: &[usize],
    ) -> Result<Decision, AllocError> {
        self.answer_to_part(alloc, problem, kept)
    }

    fn runs_with(
        &mut self,
        alloc: Global,
        problem: &Problem<AnyObject>,
        call: usize,
        calls: &[usize],
    ) -> Result<RunsTold, AllocError> {
        let looks = looks_at(&self.asked, calls);
        if !self.decider.goes_on(Work::of_looks(looks)) {
            return Ok(RunsTold::Ended);
        }
        match self.asked.told_of(alloc, call, calls)? {
            Some(true) => return Ok(RunsTold::SomeRun),
            Some(false) => return Ok(RunsTold::Nothing),
            None => {}
        }
        let told = self.told_of_runs(alloc, problem, call, calls)?;
        self.asked.add(alloc, call, calls, told)?;
        Ok(told)
    }

    fn is_repeated(&self, problem: &Problem<AnyObject>, earlier: usize, later: usize) -> bool {
        is_repeated(problem, earlier, later)
    }

    fn stand_ins(
        &self,
        alloc: Global,
        problem: &Problem<AnyObject>,
    ) -> Result<Vec<usize>, AllocError> {
        self.decider.stand_ins(alloc, problem)
    }

    fn may_go_on(&mut self, looks: u64) -> bool {
        let looks = looks.saturating_add(LEAST_LOOKS);
        self.decider.goes_on(Work::of_looks(looks))
    }
}
