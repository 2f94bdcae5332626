//! What is left of a queue or a stack by a guess of what was lost; and whether an order of that shows one of the whole.

ghost use Rattle.std.specs.Prelude.{ℕ, List, IfOk, IsTrue};
ghost use Rattle.lin_history.specs.Problems.AnyProblem.{any_problem};
ghost use Rattle.lin_history.specs.Problems.Linearizations.{IsLinearization};

use crate::guess::{Guess, Guessing, guess_of, rest_of};
use crate::insertion::with_lost;
use crate::walk::is_linearization;
use lin_history::Problem;
use lin_object::{AnyObject, ObjState};
use lin_parts::with_names;
use std::alloc::{AllocError, Global};

/// What is left of a queue or a stack without lost items and without pending calls, but for those that put in what came out.
#[derive(Drop)]
pub struct Remainder {
    guess: Guess,
    kept: Vec<usize>,
    rest: Problem<AnyObject>,
}

impl Remainder {
    /// What is left of the problem by a guess of this way. `None` where it is no queue or stack, or the first way guesses the same. Nothing is
    /// promised of it. `AllocError` where memory was refused. The time is O(n log n) for n calls.
    pub fn of(
        alloc: Global,
        problem: &Problem<AnyObject>,
        way: Guessing,
    ) -> Result<Option<Self>, AllocError> {
        if !matches!(problem.start(), ObjState::Queue(_) | ObjState::Stack(_)) {
            return Ok(None);
        }
        let Some(guess) = guess_of(alloc, problem, way)? else {
            return Ok(None);
        };
        let kept = guess.kept(alloc)?;
        let Some(rest) = rest_of(alloc, problem, &guess, kept.as_slice())? else {
            return Ok(None);
        };
        Ok(Some(Remainder { guess, kept, rest }))
    }

    /// The problem of what is left.
    pub fn rest(&self) -> &Problem<AnyObject> {
        &self.rest
    }

    /// Whether an order of what is left, with the lost items put in again, and taken in time by pending calls, is a linearization of
    /// the problem. `AllocError` where memory was refused. The time is O(n log n) for n calls, if no lost item was put in beside many others.
    pub fn shows_order(
        &self,
        alloc: Global,
        problem: &Problem<AnyObject>,
        order: &[usize],
    ) -> Result<bool, AllocError>
        ensures { IfOk result (λ yes. IsTrue yes → (l : List ℕ)
            × IsLinearization (any_problem problem.now) l) }
    {
        let Some(order) = with_names(alloc, self.kept.as_slice(), order)? else {
            return Ok(false);
        };
        match with_lost(alloc, problem, &self.guess, order.as_slice())? {
            Some(calls) => is_linearization(alloc, problem, calls.as_slice()),
            None => Ok(false),
        }
    }
}
