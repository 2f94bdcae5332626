//! The rules of a first search of a counter: adds that are too much for a `get`.
ghost use Rattle.std.specs.Prelude.{◌≡◌, IfOk};
ghost use Rattle.lin_history.specs.Problems.AnyProblem.{any_problem};
ghost use Rattle.lin_ahead.specs.Behind.{IsRightOfCounter};

use crate::counters::hints::SumHints;
use crate::counters::rows::SumRows;
use crate::counters::sums::is_over;
use crate::first::rules::Rules;
use lin_history::Problem;
use lin_object::{AnyObject, ObjState, lawful};
use lin_search::Config;
use std::alloc::{AllocError, Global};

/// What is known ahead, and by which `get`s to ask it. The latter are hints.
#[derive(Drop)]
pub(crate) struct CounterRules<'a> {
    ahead: &'a SumRows,
    sums: SumHints,
}

impl<'a> CounterRules<'a> {
    // Those of the problem, none of whose calls is lifted.
    pub(crate) fn new(
        alloc: Global,
        problem: &Problem<AnyObject>,
        ahead: &'a SumRows,
    ) -> Result<Self, AllocError>
        ensures { IfOk result (λ rules. rules.ahead.now ≡ ahead.now) }
    {
        Ok(CounterRules {
            ahead,
            sums: SumHints::new(alloc, problem, ahead)?,
        })
    }
}

impl<'a> Rules<AnyObject> for CounterRules<'a> {
    ghost are_right = { λ rules p. IsRightOfCounter (any_problem p) rules.ahead.now };

    fn lifted(&mut self, config: &Config<AnyObject>, call: usize) -> Result<(), AllocError> {
        self.sums.lifted(call)
    }

    fn unlifted(&mut self, call: usize) {
        self.sums.unlifted(call);
    }

    // It adds more than a `get` has room for.
    fn begins_none(
        &self,
        problem: &Problem<AnyObject>,
        config: &Config<AnyObject>,
        call: usize,
    ) -> Result<bool, AllocError> {
        lawful::<AnyObject>();
        Ok(is_over(problem, self.ahead, &self.sums, config, call))
    }

    fn looks_at_next(&self, config: &Config<AnyObject>, call: usize) -> bool {
        false
    }

    fn leads_to_none(
        &self,
        problem: &Problem<AnyObject>,
        config: &Config<AnyObject>,
        call: usize,
        state: &ObjState,
    ) -> Result<bool, AllocError> {
        Ok(false)
    }
}
