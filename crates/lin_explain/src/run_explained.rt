//! Why the longest run of an object of a history ends, as lines.
ghost use Rattle.std.specs.Prelude.{◌≡◌, ◌++◌, ◌<◌, ℕ, List, Some, map, set, length, string_bytes, IfOk, OnOk};
ghost use Rattle.lin_object.specs.declared.state.ObjState.{ObjState as State};
ghost use Rattle.lin_history.specs.Problems.LegalLists.{Legal};
ghost use Rattle.lin_history.specs.Locality.JoinedOrder.{Places};
ghost use Rattle.lin_history.specs.Locality.RecordedWhole.{whole_of, start_at, part_of};
ghost use Rattle.lin_history.specs.Verifier.Flags.{AreKnown};
ghost use Rattle.lin_explain.specs.RunReplies.{recorded_reply, replies_of};
ghost use Rattle.lin_explain.specs.RunExplained.{numbers_of, IsExplainedBy};

use crate::explanation::explain;
use crate::explanation_text::write_explanation;
use crate::touching_text::ShownRun;
use lin_history::{History, Order, Placed, ProblemCall};
use lin_object::{Op, Reply};
use std::alloc::{AllocError, Global};

// The numbers of the run's calls among those on their object.
fn order_of(alloc: Global, history: &History, run: &[Placed]) -> Result<Order, AllocError>
    requires { AreKnown (whole_of history.now) run.now }
    ensures { IfOk result (λ order. order ≡ numbers_of history.now run.now) }
{
    let mut numbers = Vec::new(alloc);
    for placed in run {
        numbers.push(history.call(placed.call).number as usize)?;
    }
    Ok(Order::new(numbers))
}

// The reply that is recorded of a call; `None` of a pending one.
fn recorded_reply(call: &ProblemCall<Op, Reply>) -> Option<Reply>
    ensures { result ≡ recorded_reply call.now }
{
    match &call.returned {
        Some((_, reply)) => Some(*reply),
        None => None,
    }
}

// The replies that are recorded of these calls.
fn recorded_replies(
    alloc: Global,
    calls: &[ProblemCall<Op, Reply>],
) -> Result<Vec<Option<Reply>>, AllocError>
    ensures { IfOk result (λ replies. replies.items ≡ map recorded_reply calls.now) }
{
    let mut replies = Vec::new(alloc);
    for call in calls {
        replies.push(recorded_reply(call))?;
    }
    Ok(replies)
}

// Sets the reply of the call of this number, where there is one.
fn set_reply(replies: &mut Vec<Option<Reply>>, number: usize, reply: Reply)
    ensures { replies.new.items ≡ set replies.old.items number (Some reply) }
{
    if number < replies.len() {
        replies[number] = Some(reply);
    }
}

// The replies of these calls: those that they have in the run, or else those that are recorded.
fn replies_of(
    alloc: Global,
    history: &History,
    calls: &[ProblemCall<Op, Reply>],
    run: &[Placed],
) -> Result<Vec<Option<Reply>>, AllocError>
    requires { AreKnown (whole_of history.now) run.now }
    ensures { IfOk result (λ replies. replies.items ≡ replies_of history.now calls.now run.now) }
{
    let mut replies = recorded_replies(alloc, calls)?;
    for placed in run {
        set_reply(
            &mut replies,
            history.call(placed.call).number as usize,
            placed.reply,
        );
    }
    Ok(replies)
}

/// Appends the lines that say why a run of the object of this index ends: the state after it, and each call that could come
/// next with what it would answer. `lines` has the line of each event of the input, that of the event of number n at n - 1; it
/// is with each call that is named. `AllocError` where memory was refused.
///
/// Conditions: the object is declared, and the run is that of an order of its calls that is legal.
pub fn write_run_explained(
    alloc: Global,
    out: &mut String,
    history: &History,
    object: usize,
    run: &[Placed],
    lines: &[u64],
) -> Result<(), AllocError>
    requires object { object < length history.now.objects }
    requires run { (order : List ℕ) × ((t : State) × Legal (part_of history.now object)
        (start_at history.now object) order t)
        × Places (whole_of history.now) object (start_at history.now object) order run.now }
    ensures { OnOk result ((bytes : List ℕ)
        × IsExplainedBy history.now object run.now lines.now bytes
        × (string_bytes out.new ≡ string_bytes out.old ++ bytes)) }
{
    let problem = history.problem(alloc, object)?;
    let order = order_of(alloc, history, run)?;
    let explanation = explain(alloc, &problem, &order)?;
    let replies = replies_of(alloc, history, problem.calls(), run)?;
    let shown = ShownRun {
        calls: problem.calls(),
        replies: replies.as_slice(),
        run: order.calls(),
        state: &explanation.state,
        lines,
    };
    let name = history.object(object).name;
    write_explanation(alloc, out, name, &shown, explanation.next.as_slice())
}
