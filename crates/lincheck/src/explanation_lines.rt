//! What is printed of a history that is not linearizable, where it is asked for why.
ghost use Rattle.std.specs.Prelude.{◌≡◌, ◌++◌, ◌<◌, ℕ, List, Some, option_map, length, string_bytes, IfOk, IfSome, OnOk};
ghost use Rattle.lin_object.specs.declared.state.ObjState.{ObjState as State};
ghost use Rattle.lin_history.specs.Problems.LegalLists.{Legal};
ghost use Rattle.lin_history.specs.Locality.JoinedOrder.{Places};
ghost use Rattle.lin_history.specs.Recorder.Parts.{part_calls};
ghost use Rattle.lin_history.specs.Locality.RecordedWhole.{whole_of, start_at, part_of};
ghost use Rattle.lin_history.specs.Verifier.Flags.{AreKnown};
ghost use Rattle.lin_explain.specs.RunExplained.{IsExplainedBy};
ghost use Rattle.lin_workers.specs.Bounds.{Bounds};
ghost use Rattle.lincheck.specs.Explained.{head_text, end_text, IsExplained, IsWitness, IsWitnessIn, WithExplanation, WithoutRun};
ghost use Rattle.lincheck.specs.Verdict.{IsVerdict};

use crate::lines::{report, write_last_calls, write_length, write_name, write_not_found};
use crate::verdict::Verdict;
use crate::witness::witness_of;
use lin_explain::{Witness, write_run_explained, write_witness};
use lin_history::{History, Placed, ProblemCall};
use lin_object::{Op, Reply};
use lin_search::Stop;
use std::alloc::{AllocError, Global};

// Appends the line that names an object without a linearization, and below it what lets a reader see that.
fn write_head(
    out: &mut String,
    history: &History,
    object: usize,
    calls: &[ProblemCall<Op, Reply>],
    lines: &[u64],
    witness: &Witness,
) -> Result<(), AllocError>
    requires declared { object < length history.now.objects }
    requires calls { calls.now ≡ part_calls history.now object }
    ensures { OnOk result (string_bytes out.new
        ≡ string_bytes out.old ++ head_text history.now object lines.now witness.now) }
{
    write_name(out, history, object)?;
    let name = history.object(object).name;
    write_witness(out, name, calls, lines, witness)
}

// Appends the length of this run of the object, its last calls, and why it ends.
fn write_end(
    alloc: Global,
    out: &mut String,
    history: &History,
    object: usize,
    run: &[Placed],
    lines: &[u64],
) -> Result<(), AllocError>
    requires object { object < length history.now.objects }
    requires known { AreKnown (whole_of history.now) run.now }
    requires run { (order : List ℕ) × ((t : State) × Legal (part_of history.now object)
        (start_at history.now object) order t)
        × Places (whole_of history.now) object (start_at history.now object) order run.now }
    ensures { OnOk result ((why : List ℕ) × IsExplainedBy history.now object run.now lines.now why
        × (string_bytes out.new
        ≡ string_bytes out.old ++ end_text history.now object run.now why)) }
{
    write_length(out, history, object, run)?;
    write_last_calls(out, history, run)?;
    write_run_explained(alloc, out, history, object, run, lines)
}

// What lets a reader see that the object has no order: what is known, or else what is found before the stop answers.
fn witness_for<S: Stop>(
    alloc: Global,
    history: &History,
    object: usize,
    known: Option<Witness>,
    stop: &mut S,
) -> Result<Witness, AllocError>
    requires object { object < length history.now.objects }
    requires known { IfSome known (IsWitness history.now object) }
    ensures { IfOk result (λ witness. IsWitness history.now object witness) }
{
    if let Some(witness) = known {
        return Ok(witness);
    }
    let problem = history.problem(alloc, object)?;
    witness_of(alloc, history, object, &problem, stop)
}

// What is printed of an object without a linearization, with what lets a reader see that, and this longest run.
fn no_explained(
    alloc: Global,
    history: &History,
    object: usize,
    witness: &Witness,
    run: &[Placed],
    lines: &[u64],
) -> Result<Vec<u8>, AllocError>
    requires object { object < length history.now.objects }
    requires witness { IsWitness history.now object witness.now }
    requires known { AreKnown (whole_of history.now) run.now }
    requires run { (order : List ℕ) × ((t : State) × Legal (part_of history.now object)
        (start_at history.now object) order t)
        × Places (whole_of history.now) object (start_at history.now object) order run.now }
    ensures { IfOk result (λ printed. WithExplanation (Some lines.now) history.now object run.now
        printed.items) }
{
    let problem = history.problem(alloc, object)?;
    let mut out = String::new(alloc);
    write_head(&mut out, history, object, problem.calls(), lines, witness)?;
    write_end(alloc, &mut out, history, object, run, lines)?;
    Ok(out.into_bytes())
}

// What is printed of an object without a linearization whose longest run was not found in time.
fn no_in_time_explained(
    alloc: Global,
    history: &History,
    object: usize,
    witness: &Witness,
    lines: &[u64],
) -> Result<Vec<u8>, AllocError>
    requires object { object < length history.now.objects }
    requires witness { IsWitness history.now object witness.now }
    ensures { IfOk result (λ printed. WithoutRun (Some lines.now) history.now object printed.items) }
{
    let problem = history.problem(alloc, object)?;
    let mut out = String::new(alloc);
    write_head(&mut out, history, object, problem.calls(), lines, witness)?;
    write_not_found(&mut out)?;
    Ok(out.into_bytes())
}

// What is printed of the verdict, with what explains it where it is no. Condition: the verdict is right.
fn report_with_lines<S: Stop>(
    alloc: Global,
    history: &History,
    verdict: &Verdict,
    known: Option<Witness>,
    lines: &[u64],
    stop: &mut S,
) -> Result<Vec<u8>, AllocError>
    requires verdict { (bounds : Bounds) × IsVerdict history.now bounds verdict.now }
    requires known { IsWitnessIn history.now verdict.now known }
    ensures { IfOk result (λ printed. IsExplained (Some lines.now) history.now verdict.now
        printed.items) }
{
    match verdict {
        Verdict::No { object, run } => {
            let witness = witness_for(alloc, history, *object, known, stop)?;
            no_explained(alloc, history, *object, &witness, run.as_slice(), lines)
        }
        Verdict::NoInTime { object } => {
            let witness = witness_for(alloc, history, *object, known, stop)?;
            no_in_time_explained(alloc, history, *object, &witness, lines)
        }
        Verdict::Yes(_) => report(alloc, history, verdict),
        Verdict::Undecided { .. } => report(alloc, history, verdict),
    }
}

/// What is printed of the verdict: its report; where the lines of the events are given, of a verdict that is no with what lets a
/// reader see that, where it is known or found before the stop answers, the last calls of the longest run, and why it ends. `AllocError` where
/// memory was refused.
///
/// Conditions: the verdict is right, and so is what is known.
pub(crate) fn report_explained<S: Stop>(
    alloc: Global,
    history: &History,
    verdict: &Verdict,
    known: Option<Witness>,
    lines: Option<&[u64]>,
    stop: &mut S,
) -> Result<Vec<u8>, AllocError>
    requires verdict { (bounds : Bounds) × IsVerdict history.now bounds verdict.now }
    requires known { IsWitnessIn history.now verdict.now known }
    ensures { IfOk result (λ printed. IsExplained (option_map (λ l. l.now) lines.entry)
        history.now verdict.now printed.items) }
{
    match lines {
        Some(lines) => report_with_lines(alloc, history, verdict, known, lines, stop),
        None => report(alloc, history, verdict),
    }
}
