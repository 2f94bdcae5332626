//! What a search may pass over by what is known of its object.

ghost use Rattle.std.specs.Prelude.{◌≡◌, ◌<◌, length, IsTrue};
ghost use Rattle.lin_history.specs.Problems.ProblemParts.{ProblemParts};
ghost use Rattle.lin_history.specs.Problems.Problem.{problem_of};
ghost use Rattle.lin_history.specs.Problems.Precedence.{IsCompleted};
ghost use Rattle.lin_history.specs.Problems.Configurations.{IsReachable};
ghost use Rattle.lin_search.specs.Answer.{HasNoCompletion};
ghost use Rattle.lin_fewer.specs.Fronts.{HasCompletedBelow, IsFirstLeft, IsLeastReturn};
ghost use Rattle.lin_fewer.specs.Turns.{ComesFirst, BeginsCompleted, IsNeedless};

use crate::waiting::Waiting;
use lin_history::Problem;
use lin_object::{AnyObject, SeqObject};
use lin_search::Config;

/// What a search may pass over by what is known of its object. Each method answers `false` where an impl has no body of
/// its own: nothing is passed over then.
pub trait Rules<O: SeqObject> {
    // What makes them rules for a problem.
    ghost suits: { Self → ProblemParts O O.State O.Op O.Reply → Type 0 };

    /// Whether it is found that the configuration has no completion. Condition: its completed calls below this one are lifted.
    fn refutes(&self, waiting: &Waiting<'_, O>, config: &Config<O>, first: usize) -> bool
        requires suits { suits self.now waiting.now }
        requires reachable { IsReachable (problem_of O.after O.State.eq O.Reply.eq waiting.now)
            config.now.lifted config.now.state }
        requires below { HasCompletedBelow (problem_of O.after O.State.eq O.Reply.eq waiting.now)
            config.now.lifted first }
        ensures { IsTrue result → HasNoCompletion
            (problem_of O.after O.State.eq O.Reply.eq waiting.now) config.now.lifted
            config.now.state }
    {
        false
    }

    /// Whether the completed call need not be tried directly behind the pending one, which follows the configuration: a completion
    /// that begins with the two has its like that begins with the completed one.
    fn comes_first(
        &self,
        problem: &Problem<O>,
        config: &Config<O>,
        pending: usize,
        completed: usize,
    ) -> bool
        requires suits { suits self.now problem.now }
        requires reachable { IsReachable (problem_of O.after O.State.eq O.Reply.eq problem.now)
            config.now.lifted config.now.state }
        requires pending { pending < length problem.now.calls }
        requires completed { completed < length problem.now.calls }
        ensures { IsTrue result → ComesFirst
            (problem_of O.after O.State.eq O.Reply.eq problem.now) config.now pending completed }
    {
        false
    }

    /// Whether no pending call need be tried at the configuration: where it has a completion, it has one that begins with a completed
    /// call. Conditions: this is its first completed call that is left, and this the least number of a return event that is left.
    fn begins_completed(
        &self,
        waiting: &Waiting<'_, O>,
        config: &Config<O>,
        first: usize,
        bound: u32,
    ) -> bool
        requires suits { suits self.now waiting.now }
        requires reachable { IsReachable (problem_of O.after O.State.eq O.Reply.eq waiting.now)
            config.now.lifted config.now.state }
        requires first { IsFirstLeft (problem_of O.after O.State.eq O.Reply.eq waiting.now)
            config.now.lifted first }
        requires bound { IsLeastReturn (problem_of O.after O.State.eq O.Reply.eq waiting.now)
            config.now.lifted bound }
        ensures { IsTrue result → BeginsCompleted
            (problem_of O.after O.State.eq O.Reply.eq waiting.now) config.now }
    {
        false
    }

    /// Whether the pending call need not be made at the configuration: a completion that begins with it has one that is shorter.
    /// Condition: the completed calls below this one are lifted.
    fn is_needless(
        &self,
        waiting: &Waiting<'_, O>,
        config: &Config<O>,
        first: usize,
        pending: usize,
    ) -> bool
        requires suits { suits self.now waiting.now }
        requires reachable { IsReachable (problem_of O.after O.State.eq O.Reply.eq waiting.now)
            config.now.lifted config.now.state }
        requires below { HasCompletedBelow (problem_of O.after O.State.eq O.Reply.eq waiting.now)
            config.now.lifted first }
        requires call { pending < length waiting.now.calls }
        requires pending { IsCompleted (problem_of O.after O.State.eq O.Reply.eq waiting.now)
            pending → ⊥ }
        ensures { IsTrue result → IsNeedless
            (problem_of O.after O.State.eq O.Reply.eq waiting.now) config.now pending }
    {
        false
    }
}

/// No rules: every call is tried.
#[derive(Clone, Copy, Drop)]
pub struct NoRules;

impl Rules<AnyObject> for NoRules {
    ghost suits = { λ r p. Unit {0} };
}
