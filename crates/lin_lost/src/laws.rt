//! What a linearization leaves to the calls without lost items, as one fact that a proof may cite. It does nothing.

ghost use Rattle.lin_history.specs.Problems.AnyProblem.{any_problem};
ghost use Rattle.lin_lost.specs.Lost.{LostLaw};

use lin_history::Problem;
use lin_object::AnyObject;

/// Where a problem has a linearization, it has one without lost items and without pending calls that take one.
pub fn lost_law(problem: &Problem<AnyObject>)
    ensures { LostLaw (any_problem problem.now) }
{}
