//! The longest run of a problem that has no linearization.
ghost use Rattle.std.specs.Prelude.{◌≡◌, ℕ, List, IfOk, IsTrue};
ghost use Rattle.lin_history.specs.Problems.Lists.{IsLongest};
ghost use Rattle.lin_history.specs.Problems.Problem.{problem_of};
ghost use Rattle.lin_history.specs.Problems.Continuations.{IsContinuation};
ghost use Rattle.lin_history.specs.Problems.Configurations.{IsReachable};
ghost use Rattle.lin_history.specs.Problems.Linearizations.{IsLinearization, IsRun};
ghost use Rattle.lin_search.specs.Answer.{HasNoCompletion};
ghost use Rattle.lin_search.specs.CallSet.{with_call};
ghost use Rattle.lin_search.specs.NextCall.{IsNext};
ghost use Rattle.lin_search.specs.LongestRun.{IsFirstLongest};

use crate::config::Config;
use crate::depth_first::{Terms, look_at, search_from};
use crate::longest::Longest;
use crate::memo::Memo;
use crate::needless_calls::IdenticalCalls;
use crate::outcome::Outcome;
use crate::stop::NoStop;
use lin_history::{Order, Problem};
use lin_object::{SeqObject, lawful};
use std::alloc::{AllocError, Global};

// What the longest continuations of a configuration with no completion show: by a look, or by a search where
// the memo does not know it. `is_for_problem` says that the memo names the problem.
fn longest_of<O: SeqObject, M: Memo<O>>(
    alloc: Global,
    problem: &Problem<O>,
    config: &Config<O>,
    memo: &mut M,
    is_for_problem: bool,
) -> Result<Longest, AllocError>
    requires reachable { IsReachable (problem_of O.after O.State.eq O.Reply.eq problem.now)
        config.now.lifted config.now.state }
    requires none { HasNoCompletion (problem_of O.after O.State.eq O.Reply.eq problem.now)
        config.now.lifted config.now.state }
    requires of { IsTrue is_for_problem → M.is_of memo.old problem.now }
    ensures longest { IfOk result (λ longest. IsLongest
        (IsContinuation (problem_of O.after O.State.eq O.Reply.eq problem.now) config.now.lifted
        config.now.state) longest.more longest.first) }
    ensures memo { M.changes memo.old memo.new }
{
    lawful::<O>();
    if let Some(longest) = look_at(problem, config, memo, is_for_problem) {
        return Ok(longest);
    }
    let copy = config.copy(alloc, problem)?;
    let terms = Terms {
        alloc,
        is_for_problem,
        limit: None,
        needs_all: false,
        passes_over: false,
    };
    let none = IdenticalCalls::none(alloc);
    let ended = search_from(problem, copy, memo, terms, &none, &mut NoStop)?;
    match ended.outcome {
        Outcome::Refuted(longest) => Ok(longest),
        Outcome::Found(_) => unreachable!(),
        Outcome::Undecided => unreachable!(),
        Outcome::Stopped(_) => unreachable!(),
    }
}

// Lifts the call, which can follow: makes the configuration the one that the call leads to.
fn follow<O: SeqObject>(
    alloc: Global,
    problem: &Problem<O>,
    config: &mut Config<O>,
    call: usize,
) -> Result<(), AllocError>
    requires reachable { IsReachable (problem_of O.after O.State.eq O.Reply.eq problem.now)
        config.old.lifted config.old.state }
    requires next { (t : O.State) × IsNext (problem_of O.after O.State.eq O.Reply.eq problem.now)
        config.old.lifted config.old.state call t }
    ensures lifted { IfOk result (λ done. config.new.lifted ≡ with_call config.old.lifted call) }
    ensures next { IfOk result (λ done. IsNext
        (problem_of O.after O.State.eq O.Reply.eq problem.now) config.old.lifted config.old.state
        call config.new.state) }
    ensures reachable { IfOk result (λ done. IsReachable
        (problem_of O.after O.State.eq O.Reply.eq problem.now) config.new.lifted
        config.new.state) }
{
    match config.lift(alloc, problem, call)? {
        Some(_) => Ok(()),
        None => unreachable!(),
    }
}

// The first of the longest continuations of a configuration with no completion, which is left at the end of it.
fn longest_from<O: SeqObject, M: Memo<O>>(
    alloc: Global,
    problem: &Problem<O>,
    config: &mut Config<O>,
    memo: &mut M,
    is_for_problem: bool,
) -> Result<Order, AllocError>
    requires reachable { IsReachable (problem_of O.after O.State.eq O.Reply.eq problem.now)
        config.old.lifted config.old.state }
    requires none { HasNoCompletion (problem_of O.after O.State.eq O.Reply.eq problem.now)
        config.old.lifted config.old.state }
    requires of { IsTrue is_for_problem → M.is_of memo.old problem.now }
    ensures run { IfOk result (λ order. IsFirstLongest
        (IsContinuation (problem_of O.after O.State.eq O.Reply.eq problem.now) config.old.lifted
        config.old.state) order) }
    ensures memo { M.changes memo.old memo.new }
{
    let mut longest = longest_of(alloc, problem, config, memo, is_for_problem)?;
    let mut calls = Vec::new(alloc);
    while let Some(call) = longest.first() {
        calls.push(call)?;
        follow(alloc, problem, config, call)?;
        longest = longest_of(alloc, problem, config, memo, is_for_problem)?;
    }
    Ok(Order::new(calls))
}

/// The first, in lexicographic order, of the longest runs of a problem that has no linearization. The root
/// and each configuration of the run is searched where the memo does not know it, with no limit and no stop;
/// a hit never cuts the run short. `AllocError` where memory was refused; what was noted before stays in the
/// memo.
///
/// Condition: the root is refuted, that is, the problem has no linearization.
pub fn longest_run<O: SeqObject, M: Memo<O>>(
    alloc: Global,
    problem: &Problem<O>,
    memo: &mut M,
) -> Result<Order, AllocError>
    requires { (l : List ℕ) → IsLinearization (problem_of O.after O.State.eq O.Reply.eq problem.now)
        l → ⊥ }
    ensures run { IfOk result (λ order. IsFirstLongest
        (IsRun (problem_of O.after O.State.eq O.Reply.eq problem.now)) order) }
    ensures memo { M.changes memo.old memo.new }
{
    lawful::<O>();
    let is_for_problem = memo.is_for(problem);
    let mut config = Config::root(alloc, problem)?;
    longest_from(alloc, problem, &mut config, memo, is_for_problem)
}
