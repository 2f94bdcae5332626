//! The search of a whole problem by its prefixes.

ghost use Rattle.std.specs.Prelude.{IfOk, IfSome};
ghost use Rattle.lin_history.specs.Problems.AnyProblem.{any_problem};
ghost use Rattle.lin_history.specs.Problems.Linearizations.{IsRun};
ghost use Rattle.lin_search.specs.LongestRun.{IsFirstLongest};
ghost use Rattle.lin_prefixes.specs.WholeAnswer.{IsWholeAnswer};

use crate::anew_search::AnewSearch;
use crate::by_prefixes::longest_by_prefixes;
use crate::hint::Hint;
use crate::only_replies::with_only_replies;
use crate::whole_answer::WholeAnswer;
use lin_effort::efforts::order;
use lin_effort::{Decide, Decision};
use lin_history::{Order, Problem};
use lin_object::AnyObject;
use std::alloc::{AllocError, Global};

// The first of the longest runs of the problem, by its prefixes.
fn longest_of<D: Decide>(
    alloc: Global,
    problem: &Problem<AnyObject>,
    hint: &Hint,
    decider: &mut D,
) -> Result<Option<Order>, AllocError>
    ensures { IfOk result (λ answer. IfSome answer
        (IsFirstLongest (IsRun (any_problem problem.now)))) }
{
    let mut search = AnewSearch::new(alloc, decider);
    let run = longest_by_prefixes(alloc, problem, &mut search, hint)?;
    Ok(run)
}

/// The first of the longest runs of the problem, from smaller problems that are decided. `None` as for `search_by_prefixes`. It is
/// meant for a problem that is known to have no linearization; of another it takes longer than to decide that. A pending `lock` or
/// `unlock` is taken for one that returned with `ok` behind all events: the runs stay the same. The hint says where the run may end: with
/// the right one it is sooner found. `AllocError` where memory was refused.
pub fn longest_run_by_prefixes<D: Decide>(
    alloc: Global,
    problem: &Problem<AnyObject>,
    hint: &Hint,
    decider: &mut D,
) -> Result<Option<Order>, AllocError>
    ensures { IfOk result (λ answer. IfSome answer
        (IsFirstLongest (IsRun (any_problem problem.now)))) }
{
    match with_only_replies(alloc, problem)? {
        Some(other) => longest_of(alloc, &other, hint, decider),
        None => longest_of(alloc, problem, hint, decider),
    }
}

/// The least linearization of the problem; or, where it has none, the first of its longest runs, from smaller problems that are
/// decided. `None` where what decides them ends first, or where that is not known: where a pending call of the longest run has no step,
/// as an `add` beyond 64 bits, or where that run lacks more than 256 of the calls that are open at its end, beside those that are in no
/// run, that an earlier one may stand in for, or that repeat one that it lacks. Work between two problems counts too. No configuration
/// is kept from one to the next. `AllocError` where memory was refused.
///
/// It is quick where such a problem is soon decided: one is made for each halving of the number of calls, and then a few for each call
/// that the longest run lacks.
pub fn search_by_prefixes<D: Decide>(
    alloc: Global,
    problem: &Problem<AnyObject>,
    decider: &mut D,
) -> Result<Option<WholeAnswer>, AllocError>
    ensures { IfOk result (λ answer. IfSome answer (IsWholeAnswer (any_problem problem.now))) }
{
    match decider.decide(alloc, problem, &order(problem.len()))? {
        Decision::Found(order) => Ok(Some(WholeAnswer::Found(order))),
        Decision::Spent | Decision::Stopped => Ok(None),
        Decision::Refuted => {
            let hint = Hint::none(alloc);
            let run = longest_run_by_prefixes(alloc, problem, &hint, decider)?;
            Ok(run.map(WholeAnswer::Refuted))
        }
    }
}
