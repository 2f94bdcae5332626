//! The rules of a first search of a stack: pushes that are too late, replies that are owed, and pops that take what is lost.
ghost use Rattle.std.specs.Prelude.{◌≡◌, IfOk};
ghost use Rattle.lin_history.specs.Problems.AnyProblem.{any_problem};
ghost use Rattle.lin_ahead.specs.Behind.{IsRightOfStack};

use crate::first::rules::Rules;
use crate::items::late_pushes::comes_too_late;
use crate::items::owed_replies::OwedReplies;
use crate::items::taker_hints::TakerHints;
use crate::items::takers::After;
use crate::stacks::hints::StackHints;
use crate::stacks::rows::StackAhead;
use crate::stacks::takers::lacks_pops;
use lin_history::Problem;
use lin_object::{AnyObject, ObjState};
use lin_search::Config;
use std::alloc::{AllocError, Global};

/// What is known ahead, and by which calls to ask it: those that are owed a reply, what lies on the stack, and which takers are left.
/// All but what is known ahead are hints.
#[derive(Drop)]
pub(crate) struct StackRules<'a> {
    ahead: &'a StackAhead,
    owed: OwedReplies,
    stack: StackHints,
    takers: TakerHints,
}

impl<'a> StackRules<'a> {
    // Those of the problem, none of whose calls is lifted.
    pub(crate) fn new(
        alloc: Global,
        problem: &Problem<AnyObject>,
        ahead: &'a StackAhead,
    ) -> Result<Self, AllocError>
        ensures { IfOk result (λ rules. rules.ahead.now ≡ ahead.now) }
    {
        Ok(StackRules {
            ahead,
            owed: OwedReplies::new(alloc, ahead.items.owed.as_slice())?,
            stack: StackHints::new(alloc, problem, &ahead.late)?,
            takers: TakerHints::of_stack(alloc, ahead.on_queue.as_slice(), &ahead.items)?,
        })
    }
}

impl<'a> Rules<AnyObject> for StackRules<'a> {
    ghost are_right = { λ rules p. IsRightOfStack (any_problem p) rules.ahead.now };

    fn lifted(&mut self, config: &Config<AnyObject>, call: usize) -> Result<(), AllocError> {
        self.stack.lifted(config, call, self.takers.puts_lost(call));
        self.takers.lifted(config, call)?;
        self.owed.lifted(config);
        Ok(())
    }

    fn unlifted(&mut self, call: usize) {
        self.owed.unlifted(call);
        self.stack.unlifted(call);
        self.takers.unlifted(call);
    }

    // It is a push that is too late, or would take a reply that is owed to another.
    fn begins_none(
        &self,
        problem: &Problem<AnyObject>,
        config: &Config<AnyObject>,
        call: usize,
    ) -> Result<bool, AllocError> {
        let lowest = self.stack.first_popped();
        let hints = self.stack.late();
        if comes_too_late(problem, &self.ahead.late, hints, lowest, config, call) {
            return Ok(true);
        }
        let owed = self.ahead.items.owed.as_slice();
        let popper = self.stack.popper_of_top(&self.ahead.late);
        self.owed
            .takes_what_is_owed(problem, owed, config, call, popper)
    }

    fn looks_at_next(&self, config: &Config<AnyObject>, call: usize) -> bool {
        self.takers.concerns(call) || (self.takers.in_sight() > 0 && self.stack.is_push(call))
    }

    // It leaves too few pops that are pending for what must be taken off the stack.
    fn leads_to_none(
        &self,
        problem: &Problem<AnyObject>,
        config: &Config<AnyObject>,
        call: usize,
        state: &ObjState,
    ) -> Result<bool, AllocError> {
        let ObjState::Stack(items) = state else {
            return Ok(false);
        };
        let after = After {
            config,
            call,
            items,
        };
        lacks_pops(problem, self.ahead, &self.takers, &self.stack, &after)
    }
}
