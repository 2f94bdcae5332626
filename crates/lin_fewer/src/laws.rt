//! The law of configurations that used fewer pending calls, as one fact that a proof may cite. It does nothing.

ghost use Rattle.lin_history.specs.Problems.Problem.{problem_of};
ghost use Rattle.lin_fewer.specs.Fewer.{FewerLaw};

use lin_history::Problem;
use lin_object::{SeqObject, lawful};

/// What can follow a configuration can follow each one that has the same completed calls, fewer pending ones and an equal state.
pub fn fewer_law<O: SeqObject>(problem: &Problem<O>)
    ensures { FewerLaw (problem_of O.after O.State.eq O.Reply.eq problem.now) }
{
    lawful::<O>();
}
