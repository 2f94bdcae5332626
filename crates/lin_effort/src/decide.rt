//! What decides a problem.

ghost use Rattle.std.specs.Prelude.{◌≡◌, IfOk, IsFalse};
ghost use Rattle.lin_history.specs.Problems.AnyProblem.{any_problem};
ghost use Rattle.lin_laws.specs.StandIns.{AreStandIns};
ghost use Rattle.lin_effort.specs.Decision.{IsDecisionOf};

use crate::decision::Decision;
use crate::effort::Effort;
use crate::work::Work;
use lin_history::Problem;
use lin_object::AnyObject;
use std::alloc::{AllocError, Global};

/// What decides problems, with as much work as it was given, until it is stopped. A crate that asks many questions is written over
/// it, and knows no way to an answer.
pub trait Decide {
    // What shows that nothing is decided any more: the work is done, or the stop has answered.
    ghost has_ended: { Self → Type 0 };

    /// The least linearization of the problem; or that it has none; or nothing: `Stopped` where the work or the stop end it, and
    /// `Spent` where only the effort does. `AllocError` where memory was refused.
    fn decide(
        &mut self,
        alloc: Global,
        problem: &Problem<AnyObject>,
        effort: &Effort,
    ) -> Result<Decision, AllocError>
        ensures decided { IfOk result (IsDecisionOf (any_problem problem.now)) }
        ensures stopped { IfOk result (λ decision. decision ≡ Decision.Stopped → has_ended self.new) }
        ensures spent { IfOk result (λ decision. decision ≡ Decision.Spent → has_ended self.new → ⊥) };

    /// Takes so much work, which was done between two questions: whether there is work left then, and the stop has not answered. Where
    /// it does not go on, nothing is decided any more.
    fn goes_on(&mut self, work: Work) -> bool
        ensures { IsFalse result → has_ended self.new };

    /// How much work there is left.
    fn left(&self) -> Work;

    /// A number for each of the first calls, and 0 for the others: a run with calls up to `k` alone that has an open call whose
    /// number is greater than `k` may have each earlier call whose number is greater in its place, and has none beside it.
    /// `AllocError` where memory was refused.
    fn stand_ins(
        &self,
        alloc: Global,
        problem: &Problem<AnyObject>,
    ) -> Result<Vec<usize>, AllocError>
        ensures { IfOk result (λ until. AreStandIns (any_problem problem.now) until.items) };
}
