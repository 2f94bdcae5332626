//! Calls of a list that repeat one another: a run that has few of them has the first few, or one call more may be put to it.
ghost use Rattle.std.specs.Prelude.{ℕ, IfOk};
ghost use Rattle.lin_history.specs.Problems.Lists.{In};
ghost use Rattle.lin_history.specs.Problems.Problem.{problem_of};
ghost use Rattle.lin_prefixes.specs.Prefixes.{AreTwinsOf, StandsBefore};

use crate::call_lists::{flagged, unflagged};
use crate::part_search::PartSearch;
use lin_history::Problem;
use lin_object::SeqObject;
use lin_parts::flags_of;
use std::alloc::{AllocError, Global};

/// Those of some calls that repeat an earlier call, and the others.
#[derive(Drop)]
pub(crate) struct Twins {
    pub(crate) again: Vec<usize>,
    pub(crate) others: Vec<usize>,
}

// Those of the calls that repeat this one.
fn repeated<O: SeqObject, S: PartSearch<O>>(
    alloc: Global,
    problem: &Problem<O>,
    search: &S,
    call: usize,
    calls: &[usize],
) -> Result<Vec<usize>, AllocError>
    ensures { IfOk result (λ again. (c : ℕ) → In c again.items → (k : ℕ) → StandsBefore
        (problem_of O.after O.State.eq O.Reply.eq problem.now) k call c) }
{
    let mut again = Vec::new(alloc);
    for c in calls {
        if search.is_repeated(problem, call, *c) {
            again.push(*c)?;
        }
    }
    Ok(again)
}

/// Those of the calls that repeat this one, and the others.
pub(crate) fn twins_of<O: SeqObject, S: PartSearch<O>>(
    alloc: Global,
    problem: &Problem<O>,
    search: &S,
    call: usize,
    calls: &[usize],
) -> Result<Twins, AllocError>
    ensures { IfOk result (AreTwinsOf (problem_of O.after O.State.eq O.Reply.eq problem.now) call calls.now) }
{
    let repeated = repeated(alloc, problem, search, call, calls)?;
    let flags = flags_of(alloc, repeated.as_slice(), problem.len())?;
    Ok(Twins {
        again: flagged(alloc, calls, flags.as_slice())?,
        others: unflagged(alloc, calls, flags.as_slice())?,
    })
}

/// Those of the calls that repeat no earlier one of them.
pub(crate) fn first_ones<O: SeqObject, S: PartSearch<O>>(
    alloc: Global,
    problem: &Problem<O>,
    search: &S,
    calls: &[usize],
) -> Result<Vec<usize>, AllocError> {
    let mut firsts: Vec<usize> = Vec::new(alloc);
    for c in calls {
        let is_repeated = firsts
            .iter()
            .any(|first| search.is_repeated(problem, *first, *c));
        if !is_repeated {
            firsts.push(*c)?;
        }
    }
    Ok(firsts)
}
