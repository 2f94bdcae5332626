//! What workers brought is put together.
ghost use Rattle.std.specs.Prelude.{◌≡◌, ℕ, ◌+◌, ◌≤◌, ◌∷◌, [], All, IfOk, List, None, Option, IsFalse, IsTrue, replicate, vec_capacity, vec_len};
ghost use Rattle.lin_history.specs.Problems.Problem.{Problem as ProblemOf};
ghost use Rattle.lin_table.specs.Hand.{IsHandOf, TableFacts};
ghost use Rattle.lin_workers.specs.Cut.{Task as TaskOf};
ghost use Rattle.lin_workers.specs.Outcomes.{AreOutcomes, ArePlaced, WasNotStopped};
ghost use Rattle.lin_workers.specs.Values.{AreValues};

use crate::workers::job::Done;
use lin_object::SeqObject;
use lin_search::Outcome;
use lin_table::Hand;
use std::alloc::{AllocError, Global};

// So many places with no outcome.
pub(crate) fn no_outcomes(alloc: Global, count: usize) -> Result<Vec<Option<Outcome>>, AllocError>
    ensures { IfOk result (λ outcomes. outcomes.items ≡ replicate count None) }
{
    let mut outcomes = Vec::new(alloc);
    for _ in 0..count {
        outcomes.push(None)?;
    }
    Ok(outcomes)
}

// Whether the outcome is that of a search that was stopped.
pub(crate) fn was_stopped(outcome: &Outcome) -> bool
    ensures stopped { IsTrue result → WasNotStopped outcome.now → ⊥ }
    ensures other { IsFalse result → WasNotStopped outcome.now }
{
    matches!(outcome, Outcome::Stopped(_))
}

// Puts the outcome at the place of this number, where there is one; but not that of a search that was stopped.
pub(crate) fn place_value(outcomes: &mut [Option<Outcome>], number: u64, outcome: Outcome)
    ensures { ArePlaced outcomes.old ((number, outcome) ∷ []) outcomes.new }
{
    let place = number as usize;
    let is_stopped = was_stopped(&outcome);
    if place < outcomes.len() && !is_stopped {
        outcomes[place] = Some(outcome);
    }
}

// Puts what the workers brought at the places of its tasks, and their hands to these.
pub(crate) fn gather<O: SeqObject>(
    outcomes: &mut [Option<Outcome>],
    mut workers: Vec<Done<O>>,
    hands: &mut Vec<Hand<O>>,
)
    requires { vec_len hands.old + vec_len workers ≤ vec_capacity hands.old }
    ensures outcomes { (p : ProblemOf O.State O.Op O.Reply) (tasks : List (TaskOf O.State))
        (limit : Option ℕ)
        → All (λ worker. AreValues p tasks limit worker.seat worker.values.items) workers.items
        → AreOutcomes p tasks limit outcomes.old → AreOutcomes p tasks limit outcomes.new }
    ensures hands { (table : TableFacts O O.State O.Op O.Reply)
        → All (λ worker. IsHandOf table worker.hand) workers.items
        → All (IsHandOf table) hands.old.items → All (IsHandOf table) hands.new.items }
    ensures count { vec_len hands.new ≡ vec_len hands.old + vec_len workers }
    ensures capacity { vec_capacity hands.new ≡ vec_capacity hands.old }
{
    while let Some(worker) = workers.pop() {
        let Done {
            values,
            hand,
            seat: _,
        } = worker;
        place_values(outcomes, values);
        hands.push_reserved(hand);
    }
}

// Puts each value at the place of its task, but those of searches that were stopped.
fn place_values(outcomes: &mut [Option<Outcome>], mut values: Vec<(u64, Outcome)>)
    ensures { ArePlaced outcomes.old values.items outcomes.new }
{
    while let Some((number, outcome)) = values.pop() {
        place_value(outcomes, number, outcome);
    }
}
