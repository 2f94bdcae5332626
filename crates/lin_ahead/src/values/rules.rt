//! The rules of a first search of a register, of a map whose calls are on one key, or of a set whose calls are on one item: needs, and
//! calls that are due.
ghost use Rattle.std.specs.Prelude.{◌≡◌, IfOk, IsTrue};
ghost use Rattle.lin_history.specs.Problems.AnyProblem.{any_problem};
ghost use Rattle.lin_ahead.specs.Behind.{IsRightOfValues};
ghost use Rattle.lin_ahead.specs.Values.Stranded.{AreStranded};

use crate::first::calls_in_turn::CallsInTurn;
use crate::first::needed_calls::{left_out, needed_in_turn};
use crate::first::rules::Rules;
use crate::values::call_values::CallValues;
use crate::values::crossings::Crossings;
use crate::values::due::Due;
use crate::values::due_rules::{Next, another_is_due};
use crate::values::key_value::value_held;
use crate::values::rows::ValuesAhead;
use lin_history::Problem;
use lin_object::{AnyObject, ObjState, lawful};
use lin_search::Config;
use std::alloc::{AllocError, Global};

/// What is known ahead, and by which calls to ask it: the calls by how early they are needed, and those that are due. All but what is
/// known ahead are hints.
#[derive(Drop)]
pub(crate) struct ValueRules<'a> {
    alloc: Global,
    ahead: &'a ValuesAhead,
    needed: CallsInTurn,
    due: Due,
    crossings: Crossings,
}

impl<'a> ValueRules<'a> {
    // Those of the problem, none of whose calls is lifted.
    pub(crate) fn new(alloc: Global, ahead: &'a ValuesAhead) -> Result<Self, AllocError>
        ensures { IfOk result (λ rules. rules.ahead.now ≡ ahead.now) }
    {
        Ok(ValueRules {
            alloc,
            ahead,
            needed: needed_in_turn(alloc, &ahead.needs)?,
            due: Due::new(alloc, ahead.values.as_slice(), ahead.owners.as_slice())?,
            crossings: Crossings::new(alloc, ahead.values.as_slice(), ahead.owners.as_slice())?,
        })
    }
}

impl<'a> ValueRules<'a> {
    // Whether calls are known to be stranded, once the next call has changed the state.
    fn strands(&self, next: &Next) -> Result<bool, AllocError>
        requires { IsRightOfValues (any_problem next.now.problem.now) self.now.ahead.now }
        ensures { IfOk result (λ stranded. IsTrue stranded
            → AreStranded (any_problem next.now.problem.now) next.now.config.now.lifted
            next.now.config.now.state next.now.call) }
    {
        let Some(value) = value_held(next.problem.calls(), next.config.state()) else {
            return Ok(false);
        };
        let values = self.ahead.values.as_slice();
        match self.crossings.stranded(values, &self.due, next.call, value) {
            Some(calls) => next.are_stranded(self.alloc, self.ahead.owners.as_slice(), &calls),
            None => Ok(false),
        }
    }
}

impl<'a> Rules<AnyObject> for ValueRules<'a> {
    ghost are_right = { λ rules p. IsRightOfValues (any_problem p) rules.ahead.now };

    fn lifted(&mut self, config: &Config<AnyObject>, call: usize) -> Result<(), AllocError> {
        self.needed.lifted(config);
        self.due.lifted(call)
    }

    fn unlifted(&mut self, call: usize) {
        self.needed.unlifted(call);
        self.due.unlifted(call);
    }

    // It needs a call that is not lifted.
    fn begins_none(
        &self,
        problem: &Problem<AnyObject>,
        config: &Config<AnyObject>,
        call: usize,
    ) -> Result<bool, AllocError> {
        lawful::<AnyObject>();
        Ok(left_out(problem, &self.ahead.needs, &self.needed, config, call).is_some())
    }

    // It may change the state while another call is due, or something is known of what it makes due.
    fn looks_at_next(&self, _config: &Config<AnyObject>, call: usize) -> bool {
        let values = self.ahead.values.as_slice();
        match values.get(call) {
            Some(one) if one.writes() => self.crossings.are_told()
                || self.due.has_another(call)
                || self.due.may_forbid(values, call),
            _ => false,
        }
    }

    // It changes the state while another call is due, or others change it behind it while one is, or it strands others.
    fn leads_to_none(
        &self,
        problem: &Problem<AnyObject>,
        config: &Config<AnyObject>,
        call: usize,
        state: &ObjState,
    ) -> Result<bool, AllocError> {
        lawful::<AnyObject>();
        let owners = self.ahead.owners.as_slice();
        let next = Next {
            problem,
            config,
            call,
            state,
        };
        if *state == *config.state() {
            return Ok(false);
        }
        if another_is_due(problem, owners, &self.due, config, call) {
            return Ok(true);
        }
        let values = self.ahead.values.as_slice();
        if next.two_change(self.alloc, owners, &self.due, values)? {
            return Ok(true);
        }
        if next.comes_between(self.alloc, owners, &self.due, values)? {
            return Ok(true);
        }
        self.strands(&next)
    }
}
