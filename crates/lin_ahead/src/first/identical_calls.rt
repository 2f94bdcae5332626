//! Calls that need not be tried at a configuration: those that repeat a call which is not lifted, and those behind one that
//! changes nothing.

ghost use Rattle.std.specs.Prelude.{◌≡◌, List, Bool, false, IsTrue};
ghost use Rattle.lin_history.specs.Problems.Problem.{problem_of};
ghost use Rattle.lin_history.specs.Problems.Continuations.{has};
ghost use Rattle.lin_search.specs.NeedlessCalls.{LeavesStates, StandsFor};
ghost use Rattle.lin_search.specs.NextCall.{IsNext};

use lin_history::Problem;
use lin_object::SeqObject;
use lin_search::{adds_nothing, ends_the_list, repeats};

/// Whether the call repeats the earlier one, which stands for it as long as that is left (`repeats`): what begins with the call
/// then begins with the earlier one as well.
pub(crate) fn stands_for<O: SeqObject>(problem: &Problem<O>, earlier: usize, call: usize) -> bool
    ensures { IsTrue result → (set : List Bool) (s : O.State) → has set earlier ≡ false
        → StandsFor (problem_of O.after O.State.eq O.Reply.eq problem.now) set s earlier call }
{
    let _calls = problem.calls();
    if earlier >= call || call >= problem.len() {
        return false;
    }
    repeats(problem, earlier, call)
}

/// Whether the earlier call, where it can follow, stands for the call (`adds_nothing`): what begins with the call then begins with
/// the earlier one as well.
pub(crate) fn stands_where_it_follows<O: SeqObject>(
    problem: &Problem<O>,
    earlier: usize,
    call: usize,
) -> bool
    ensures { IsTrue result → (set : List Bool) (s t : O.State)
        → IsNext (problem_of O.after O.State.eq O.Reply.eq problem.now) set s earlier t
        → StandsFor (problem_of O.after O.State.eq O.Reply.eq problem.now) set s earlier call }
{
    let _calls = problem.calls();
    if earlier >= call || call >= problem.len() {
        return false;
    }
    adds_nothing(problem, earlier, call)
}

/// Whether the call leaves each state as it is in which it can follow.
pub(crate) fn changes_nothing<O: SeqObject>(problem: &Problem<O>, call: usize) -> bool
    ensures { IsTrue result
        → LeavesStates (problem_of O.after O.State.eq O.Reply.eq problem.now) call }
{
    let _calls = problem.calls();
    if call >= problem.len() {
        return false;
    }
    ends_the_list(problem, call)
}
