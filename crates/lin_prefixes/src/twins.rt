//! Calls that do what an earlier one did: where a run has the later of two such calls, one has the earlier.
ghost use Rattle.std.specs.Prelude.{◌≡◌, ℕ, IsTrue, Some};
ghost use Rattle.lin_object.specs.declared.reply.Reply.{Reply};
ghost use Rattle.lin_history.specs.Problems.AnyProblem.{any_problem};
ghost use Rattle.lin_prefixes.specs.Prefixes.{StandsBefore};

use lin_history::Problem;
use lin_object::{AnyObject, Op, Reply, SeqObject};

// Whether both are one operation.
fn are_one_op(a: &Op, b: &Op) -> bool
    ensures { IsTrue result → a.now ≡ b.now }
{
    *a == *b
}

// Whether both returned with one reply.
fn have_one_reply(a: &Option<(u32, Reply)>, b: &Option<(u32, Reply)>) -> bool
    ensures { IsTrue result → (x : ℕ × Reply) × (y : ℕ × Reply) × (a.now ≡ Some x) × (b.now ≡ Some y) × (x.1 ≡ y.1) }
{
    match (a, b) {
        (Some((_, one)), Some((_, other))) => *one == *other,
        _ => false,
    }
}

/// Whether the later call repeats the earlier one: it has its operation and its reply, and a step that so replies changes nothing and
/// is that of any process.
pub(crate) fn is_repeated(problem: &Problem<AnyObject>, earlier: usize, later: usize) -> bool
    ensures { IsTrue result → (k : ℕ) → StandsBefore (any_problem problem.now) k earlier later }
{
    let calls = problem.calls();
    if earlier >= later || later >= calls.len() {
        return false;
    }
    let first = problem.call(earlier);
    let second = problem.call(later);
    if !are_one_op(&first.op, &second.op) {
        return false;
    }
    if !have_one_reply(&first.returned, &second.returned) {
        return false;
    }
    AnyObject.changes_nothing(&second.op, &second.returned)
        && AnyObject.ignores_process(&second.op, &second.returned)
}
