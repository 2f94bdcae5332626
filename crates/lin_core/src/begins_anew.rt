//! Calls from which on a part begins anew: what came before them does not show.

ghost use Rattle.std.specs.Prelude.{◌≡◌, ◌∷◌, ℕ, [], Some, true, false, IsTrue};
ghost use Rattle.lin_object.specs.declared.reply.Reply.TheVariants.{Flag};
ghost use Rattle.lin_object.specs.Items.{is_in};
ghost use Rattle.lin_history.specs.Problems.AnyProblem.{any_problem};
ghost use Rattle.lin_core.specs.OnValues.{BeginsAnew, LeavesOneState};

use crate::value_tables::has;
use lin_history::{Problem, ProblemCall};
use lin_object::{AnyObject, Items, ObjState, Op, Reply, map_law, set_law};

// Whether this is the only one of the values.
fn is_only(values: &[i64], value: i64) -> bool
    ensures { IsTrue result → values.now ≡ value ∷ [] }
{
    values.len() == 1 && has(values, value)
}

// Whether the answer was 'yes'.
fn was_yes(call: &ProblemCall<Op, Reply>) -> bool
    ensures { IsTrue result → (n : ℕ) × (call.now.returned ≡ Some (n, Flag true)) }
{
    match &call.returned {
        Some((_, Reply::Flag(true))) => true,
        _ => false,
    }
}

// Whether the call is an insert of the only item that answered 'yes', and that item is none of these.
fn inserts_first(items: &Items, values: &[i64], item: i64, call: &ProblemCall<Op, Reply>) -> bool
    ensures only { IsTrue result → values.now ≡ item ∷ [] }
    ensures answer { IsTrue result → (n : ℕ) × (call.now.returned ≡ Some (n, Flag true)) }
    ensures out { IsTrue result → is_in item items.now ≡ false }
{
    if !is_only(values, item) || !was_yes(call) {
        return false;
    }
    !items.has(item)
}

/// Whether, wherever the call can be done, it can be done at the start, and what is known of the values is the same after both: a
/// write of a register, a put of the only key, an insert of the only item that found none, as at the start.
pub(crate) fn begins_anew(
    problem: &Problem<AnyObject>,
    values: &[i64],
    call: &ProblemCall<Op, Reply>,
) -> bool
    ensures { IsTrue result → BeginsAnew (any_problem problem.now) values.now call.now }
{
    map_law();
    set_law();
    match (problem.start(), &call.op) {
        (ObjState::Register(_), Op::Write(_)) => true,
        (ObjState::Map(_), Op::Put(key, _)) => is_only(values, *key),
        (ObjState::Set(items), Op::Insert(item)) => inserts_first(items, values, *item, call),
        _ => false,
    }
}

/// Whether the call leaves one state wherever it can be done, and can be done at the start: a write of a register.
pub(crate) fn leaves_one_state(problem: &Problem<AnyObject>, call: &ProblemCall<Op, Reply>) -> bool
    ensures { IsTrue result → LeavesOneState (any_problem problem.now) call.now }
{
    match (problem.start(), &call.op) {
        (ObjState::Register(_), Op::Write(_)) => true,
        _ => false,
    }
}
