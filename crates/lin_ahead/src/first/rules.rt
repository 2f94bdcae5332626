//! The rules of a first search: by what is known ahead of a problem, calls with which no completion begins.
ghost use Rattle.std.specs.Prelude.{IfOk, IsTrue};
ghost use Rattle.lin_history.specs.Problems.Problem.{problem_of};
ghost use Rattle.lin_history.specs.Problems.ProblemParts.{ProblemParts};
ghost use Rattle.lin_history.specs.Problems.Configurations.{IsReachable};
ghost use Rattle.lin_search.specs.NextCall.{IsNext};
ghost use Rattle.lin_ahead.specs.First.FirstProgress.{BeginsNone};

use lin_history::Problem;
use lin_object::SeqObject;
use lin_search::Config;
use std::alloc::AllocError;

/// What a first search asks before it lifts a call: whether a completion may begin with it, as far as is known ahead of the
/// problem. The rules hear of each lift, and of each call that is put back. What they make of that is theirs: where they have it
/// wrong, a call that could be passed over is not.
pub(crate) trait Rules<O: SeqObject>: Drop {
    // The rules are right for the problem.
    ghost are_right: { Self → ProblemParts O O.State O.Op O.Reply → Type 0 };

    /// Hears that the call was lifted, which led to the configuration. `AllocError` where memory was refused.
    fn lifted(&mut self, config: &Config<O>, call: usize) -> Result<(), AllocError>
        ensures { (p : ProblemParts O O.State O.Op O.Reply) → are_right self.old p
            → are_right self.new p };

    /// Hears that the call, which was lifted last, was put back.
    fn unlifted(&mut self, call: usize)
        ensures { (p : ProblemParts O O.State O.Op O.Reply) → are_right self.old p
            → are_right self.new p };

    /// Whether no completion of the configuration begins with the call. It is told only where it is so. `AllocError` where memory
    /// was refused.
    fn begins_none(
        &self,
        problem: &Problem<O>,
        config: &Config<O>,
        call: usize,
    ) -> Result<bool, AllocError>
        requires right { are_right self.now problem.now }
        requires reachable { IsReachable (problem_of O.after O.State.eq O.Reply.eq problem.now)
            config.now.lifted config.now.state }
        ensures { IfOk result (λ none. IsTrue none → BeginsNone
            (problem_of O.after O.State.eq O.Reply.eq problem.now) config.now.lifted
            config.now.state call) };

    /// Whether the rules look at the state that the call would lead to.
    fn looks_at_next(&self, config: &Config<O>, call: usize) -> bool;

    /// Whether no completion of the configuration begins with the call, by the state that it leads to. It is told only where it is
    /// so. `AllocError` where memory was refused.
    fn leads_to_none(
        &self,
        problem: &Problem<O>,
        config: &Config<O>,
        call: usize,
        state: &O::State,
    ) -> Result<bool, AllocError>
        requires right { are_right self.now problem.now }
        requires reachable { IsReachable (problem_of O.after O.State.eq O.Reply.eq problem.now)
            config.now.lifted config.now.state }
        requires next { IsNext (problem_of O.after O.State.eq O.Reply.eq problem.now)
            config.now.lifted config.now.state call state.now }
        ensures { IfOk result (λ none. IsTrue none → BeginsNone
            (problem_of O.after O.State.eq O.Reply.eq problem.now) config.now.lifted
            config.now.state call) };
}
