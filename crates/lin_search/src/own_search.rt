//! The search from the root over a memo that keeps all.
ghost use Rattle.std.specs.Prelude.{◌≡◌, ℕ, ◌≤◌, IfOk, length};
ghost use Rattle.lin_history.specs.Problems.Problem.{problem_of};
ghost use Rattle.lin_history.specs.Problems.Continuations.{no_calls};
ghost use Rattle.lin_search.specs.Answer.{IsDecision, IsRefutation};
ghost use Rattle.lin_search.specs.Count.{HasEachReachable, HasReachable, IsNumberReachable};
ghost use Rattle.lin_search.specs.Memo.{IsClosed};
ghost use Rattle.lin_search.specs.Store.{configurations, Holds, IsGrown};
ghost use Rattle.lin_search.specs.Told.{IsRightOf, IsSpent, IsToldUnless};

use crate::config::Config;
use crate::depth_first::{Terms, search, search_from};
use crate::needless_calls::IdenticalCalls;
use crate::outcome::Outcome;
use crate::own_memo::OwnMemo;
use crate::stop::{NoStop, Stop};
use crate::told::{Told, told_by};
use lin_history::Problem;
use lin_object::{SeqObject, lawful};
use std::alloc::{AllocError, Global};

// Searches from the root over a memo of the problem. Where the root is refuted and the memo held with each
// configuration each that one call leads to, it then holds every reachable configuration.
fn search_root<'p, O: SeqObject>(
    alloc: Global,
    problem: &'p Problem<O>,
    memo: &mut OwnMemo<'p, O>,
) -> Result<Outcome, AllocError>
    requires { memo.old.problem ≡ problem.now }
    ensures answer { IfOk result (IsDecision (problem_of O.after O.State.eq O.Reply.eq problem.now)
        (no_calls (problem_of O.after O.State.eq O.Reply.eq problem.now)) problem.now.start) }
    ensures memo { IsGrown memo.old memo.new }
    ensures all { IfOk result (λ outcome. IsRefutation outcome
        → IsClosed (problem_of O.after O.State.eq O.Reply.eq problem.now)
        (Holds O.State.eq memo.old.pairs)
        → HasEachReachable (problem_of O.after O.State.eq O.Reply.eq problem.now)
        (configurations memo.new.pairs)) }
{
    lawful::<O>();
    let root = Config::root(alloc, problem)?;
    let terms = Terms {
        alloc,
        is_for_problem: true,
        limit: None,
        needs_all: true,
        passes_over: false,
    };
    let none = IdenticalCalls::none(alloc);
    let ended = search_from(problem, root, memo, terms, &none, &mut NoStop)?;
    if !ended.whole {
        return Err(AllocError);
    }
    Ok(ended.outcome)
}

/// The search from the root of the memo's problem, over the memo, with no limit and no stop: `Found` with the
/// least linearization, or `Refuted` where there is none; and how many configurations are stored then. That is
/// at most the number of reachable configurations. At `Refuted` it is that number where the memo was new, or
/// held with each configuration each that one call leads to (Lowe 2017): then the memo holds every reachable
/// configuration, each once, and `longest_run` only asks it. `AllocError` where memory was refused, also for a
/// pair of the memo; what was stored before stays in the memo.
pub fn search_over<'p, O: SeqObject>(
    alloc: Global,
    memo: &mut OwnMemo<'p, O>,
) -> Result<(Outcome, u64), AllocError>
    ensures answer { IfOk result (λ r. IsDecision
        (problem_of O.after O.State.eq O.Reply.eq memo.old.problem)
        (no_calls (problem_of O.after O.State.eq O.Reply.eq memo.old.problem))
        memo.old.problem.start r.0) }
    ensures memo { IsGrown memo.old memo.new }
    ensures count { IfOk result (λ r. r.1 ≡ length memo.new.pairs) }
    ensures stored { IfOk result (λ r. HasReachable
        (problem_of O.after O.State.eq O.Reply.eq memo.old.problem) r.1) }
    ensures at_most { IfOk result (λ r. (n : ℕ) → IsNumberReachable
        (problem_of O.after O.State.eq O.Reply.eq memo.old.problem) n → r.1 ≤ n) }
    ensures each { IfOk result (λ r. IsRefutation r.0
        → IsClosed (problem_of O.after O.State.eq O.Reply.eq memo.old.problem)
        (Holds O.State.eq memo.old.pairs)
        → HasEachReachable (problem_of O.after O.State.eq O.Reply.eq memo.old.problem)
        (configurations memo.new.pairs)) }
    ensures all { IfOk result (λ r. IsRefutation r.0
        → IsClosed (problem_of O.after O.State.eq O.Reply.eq memo.old.problem)
        (Holds O.State.eq memo.old.pairs)
        → IsNumberReachable (problem_of O.after O.State.eq O.Reply.eq memo.old.problem) r.1) }
{
    lawful::<O>();
    let outcome = search_root(alloc, memo.problem(), memo)?;
    let stored = memo.count();
    Ok((outcome, stored))
}

/// The search from the root over a memo of its own, with no limit and no stop: `Found` with the least
/// linearization, or `Refuted` where there is none; and how many configurations were stored. That is at most
/// the number of reachable configurations; at `Refuted` the memo holds all of them, each once (Lowe 2017),
/// and it is that number. `AllocError` where memory was refused, also for a pair of the memo.
pub fn search_alone<O: SeqObject>(
    alloc: Global,
    problem: &Problem<O>,
) -> Result<(Outcome, u64), AllocError>
    ensures answer { IfOk result (λ r. IsDecision
        (problem_of O.after O.State.eq O.Reply.eq problem.now)
        (no_calls (problem_of O.after O.State.eq O.Reply.eq problem.now)) problem.now.start r.0) }
    ensures stored { IfOk result (λ r. HasReachable
        (problem_of O.after O.State.eq O.Reply.eq problem.now) r.1) }
    ensures at_most { IfOk result (λ r. (n : ℕ) → IsNumberReachable
        (problem_of O.after O.State.eq O.Reply.eq problem.now) n → r.1 ≤ n) }
    ensures all { IfOk result (λ r. IsRefutation r.0
        → IsNumberReachable (problem_of O.after O.State.eq O.Reply.eq problem.now) r.1) }
{
    search_over(alloc, &mut OwnMemo::new(alloc, problem))
}

/// The search from the root over a memo of its own, for a linearization alone, with at most so many lifts: the least linearization,
/// or that there is none (Wing and Gong 1993; Lowe 2017). Before each lift the stop is asked. Nothing is told only where as many lifts
/// were made and another was to be made, or where the stop answered. `AllocError` where memory was refused.
pub fn search_for_order<O: SeqObject, S: Stop>(
    alloc: Global,
    problem: &Problem<O>,
    lifts: u64,
    stop: &mut S,
) -> Result<Told, AllocError>
    ensures told { IfOk result (IsRightOf
        (problem_of O.after O.State.eq O.Reply.eq problem.now)) }
    ensures nothing { IfOk result (IsToldUnless (IsSpent
        (problem_of O.after O.State.eq O.Reply.eq problem.now) lifts (S.tells stop.new))) }
    ensures stop { S.follows stop.old stop.new }
{
    lawful::<O>();
    let root = Config::root(alloc, problem)?;
    let mut memo = OwnMemo::new(alloc, problem);
    let outcome = search(alloc, problem, &root, &mut memo, Some(lifts), stop)?;
    Ok(told_by(outcome))
}
