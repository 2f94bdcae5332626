//! The last call that has a run: near a hint at first, and then by halving.
ghost use Rattle.std.specs.Prelude.{◌≤◌, ◌<◌, ℕ, length, IfOk, IfSome};
ghost use Rattle.lin_history.specs.Problems.Problem.{problem_of};
ghost use Rattle.lin_prefixes.specs.Prefixes.{HasNoRunOf};

use crate::hint::Hint;
use crate::part_search::{PartSearch, RunsTold};
use lin_history::Problem;
use lin_object::SeqObject;
use std::alloc::{AllocError, Global};

// Where a halving is thought to end, and how far from there it asks at most. That is a hint.
#[derive(Clone, Copy)]
struct Near {
    place: usize,
    steps: usize,
}

impl Near {
    // What the hint says; where it says nothing, a halving asks anywhere.
    fn new<O: SeqObject>(hint: &Hint, problem: &Problem<O>) -> Self {
        match hint.calls_with_runs(problem) {
            Some(place) => Near { place, steps: 0 },
            None => Near {
                place: 0,
                steps: usize::MAX,
            },
        }
    }

    // About twice as far.
    fn further(self) -> Self {
        Near {
            place: self.place,
            steps: self.steps.saturating_mul(2).max(1),
        }
    }

    // The number from one on and below another that is asked next: the one in the middle, or the nearest to it that is not too far.
    fn next_between(self, low: usize, high: usize) -> usize
        requires { low < high }
        ensures low { low ≤ result }
        ensures high { result < high }
    {
        let middle = low + (high - low) / 2;
        let first = self.place.saturating_sub(self.steps);
        let last = self.place.saturating_add(self.steps);
        middle.max(first).min(last).max(low).min(high - 1)
    }
}

/// How many of the first `count` calls may have a run: none of the others among these has one. `None` where the search has come to its
/// end. It asks near the hint at first, and then by halving.
pub(crate) fn calls_with_runs<O: SeqObject, S: PartSearch<O>>(
    alloc: Global,
    problem: &Problem<O>,
    search: &mut S,
    hint: &Hint,
    count: usize,
) -> Result<Option<usize>, AllocError>
    requires { count ≤ length problem.now.calls }
    ensures within { IfOk result (λ answer. IfSome answer (λ n. n ≤ count)) }
    ensures none { IfOk result (λ answer. IfSome answer (λ n. (k : ℕ) → n ≤ k → k < count
        → HasNoRunOf (problem_of O.after O.State.eq O.Reply.eq problem.now) k)) }
{
    let _calls = problem.calls();
    let mut near = Near::new(hint, problem);
    let mut low: usize = 0;
    let mut high = count;
    while low < high {
        let asked = near.next_between(low, high);
        near = near.further();
        match search.runs_with(alloc, problem, asked, &[])? {
            RunsTold::NoRun => high = asked,
            RunsTold::SomeRun | RunsTold::Nothing => low = asked + 1,
            RunsTold::Ended => return Ok(None),
        }
    }
    Ok(Some(high))
}

/// How many of the first calls may have a run: none behind them has one. `None` where the search has come to its end. Where the hint is
/// right, one question is enough: whether the first call behind them has none.
pub(crate) fn calls_by_hint<O: SeqObject, S: PartSearch<O>>(
    alloc: Global,
    problem: &Problem<O>,
    search: &mut S,
    hint: &Hint,
) -> Result<Option<usize>, AllocError>
    ensures within { IfOk result (λ answer. IfSome answer (λ n. n ≤ length problem.now.calls)) }
    ensures none { IfOk result (λ answer. IfSome answer (λ n. (k : ℕ) → n ≤ k → k < length problem.now.calls
        → HasNoRunOf (problem_of O.after O.State.eq O.Reply.eq problem.now) k)) }
{
    let _calls = problem.calls();
    let place = hint.calls_with_runs(problem).unwrap_or(problem.len());
    if place < problem.len() {
        match search.runs_with(alloc, problem, place, &[])? {
            RunsTold::NoRun => return Ok(Some(place)),
            RunsTold::SomeRun | RunsTold::Nothing => {}
            RunsTold::Ended => return Ok(None),
        }
    }
    calls_with_runs(alloc, problem, search, hint, problem.len())
}
