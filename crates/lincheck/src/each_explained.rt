//! A line for each object of a history, behind that of one that is not linearizable with what lets a reader see that.

ghost use Rattle.std.specs.Prelude.{◌≡◌, ◌++◌, ◌<◌, ℕ, List, Some, length, option_map, slice_get, string_bytes, IfOk, IfSome, OnOk};
ghost use Rattle.lin_history.specs.Locality.JoinedOrder.{indices_from};
ghost use Rattle.lin_history.specs.Recorder.Parts.{start_of, part_calls};
ghost use Rattle.lin_history.specs.Recorder.RecordedHistory.{RecordedHistory};
ghost use Rattle.lin_explain.specs.declared.witness_text.Witness.{Witness as Told};
ghost use Rattle.lincheck.specs.Each.{told_text, AreStatusLines, AreToldFrom, AreWitnessesOf, IsToldBehind};
ghost use Rattle.lincheck.specs.Explained.{IsWitness};

use crate::each::{report_each, write_status};
use crate::status::Status;
use crate::witness::witness_of;
use lin_explain::{Witness, write_witness};
use lin_history::{History, Problem};
use lin_object::AnyObject;
use lin_search::Stop;
use std::alloc::{AllocError, Global};

// An object by its index, with its status, and what is known to let a reader see that it has no order.
#[derive(Drop)]
struct Judged {
    object: usize,
    status: Status,
    witness: Option<Witness>,
}

// What is told behind the line of the object, of which the problem is the part of the history on it: what is known, or else what is
// found before the stop answers.
fn told_behind<S: Stop>(
    alloc: Global,
    history: &History,
    problem: &Problem<AnyObject>,
    judged: Judged,
    stop: &mut S,
) -> Result<Witness, AllocError>
    requires start { option_map start_of (slice_get history.now.objects judged.object)
        ≡ Some problem.now.start }
    requires calls { problem.now.calls ≡ part_calls history.now judged.object }
    requires witness { IfSome judged.witness (IsWitness history.now judged.object) }
    ensures { IfOk result (λ told. IsToldBehind history.now judged.object judged.status told) }
{
    let Judged {
        object,
        status,
        witness,
    } = judged;
    match (status, witness) {
        (Status::No, Some(witness)) => Ok(witness),
        (Status::No, None) => witness_of(alloc, history, object, problem, stop),
        (Status::Yes, _) => Ok(Witness::Nothing),
        (Status::Undecided, _) => Ok(Witness::Nothing),
        (Status::Refused, _) => Ok(Witness::Nothing),
    }
}

// The line of the object, whose calls have these indices, with what is told behind it.
fn told_of<S: Stop>(
    alloc: Global,
    history: &History,
    judged: Judged,
    indices: &[usize],
    lines: &[u64],
    stop: &mut S,
) -> Result<String, AllocError>
    requires declared { judged.object < length history.now.objects }
    requires indices { indices.now ≡ indices_from judged.object 0 history.now.calls }
    requires witness { IfSome judged.witness (IsWitness history.now judged.object) }
    ensures { IfOk result (λ text. (told : Told) × IsToldBehind history.now judged.object judged.status told
        × (string_bytes text ≡ told_text history.now lines.now judged.object judged.status told)) }
{
    let object = judged.object;
    let status = judged.status;
    let problem = history.part(alloc, object, indices)?;
    let told = told_behind(alloc, history, &problem, judged, stop)?;
    let mut out = String::new(alloc);
    write_status(&mut out, history, object, status)?;
    let name = history.object(object).name;
    write_witness(&mut out, name, problem.calls(), lines, &told)?;
    Ok(out)
}

// What is known of the object of this index, which is taken out.
fn taken(witnesses: &mut Vec<Option<Witness>>, object: usize) -> Option<Witness>
    ensures witness { (h : RecordedHistory) → AreWitnessesOf h witnesses.old.items
        → IfSome result (IsWitness h object) }
    ensures left { (h : RecordedHistory) → AreWitnessesOf h witnesses.old.items
        → AreWitnessesOf h witnesses.new.items }
{
    witnesses.get_mut(object)?.take()
}

// The lines of the objects, each with what is told behind it.
fn report_told<S: Stop>(
    alloc: Global,
    history: &History,
    statuses: &[Status],
    witnesses: &mut Vec<Option<Witness>>,
    lines: &[u64],
    stop: &mut S,
) -> Result<Vec<u8>, AllocError>
    requires count { length statuses.now ≡ length history.now.objects }
    requires witnesses { AreWitnessesOf history.now witnesses.old.items }
    ensures { IfOk result (λ text. AreToldFrom history.now lines.now 0 statuses.now text.items) }
{
    let lists = history.calls_by_object(alloc)?;
    let mut out = String::new(alloc);
    for (object, status) in statuses.iter().enumerate() {
        let judged = Judged {
            object,
            status: *status,
            witness: taken(witnesses, object),
        };
        let told = told_of(
            alloc,
            history,
            judged,
            lists[object].as_slice(),
            lines,
            stop,
        )?;
        out.push_str(told.as_str())?;
    }
    Ok(out.into_bytes())
}

/// The lines of the objects of a history with these statuses, as `report_each` gives them; where the lines of the events are given,
/// behind that of each object that is not linearizable with what lets a reader see that, where it is known or found before the stop
/// answers. `AllocError` where memory was refused.
///
/// Conditions: there is a status for each object, and what is known is right.
pub(crate) fn report_each_explained<S: Stop>(
    alloc: Global,
    history: &History,
    statuses: &[Status],
    mut witnesses: Vec<Option<Witness>>,
    lines: Option<&[u64]>,
    stop: &mut S,
) -> Result<Vec<u8>, AllocError>
    requires count { length statuses.now ≡ length history.now.objects }
    requires witnesses { AreWitnessesOf history.now witnesses.items }
    ensures { IfOk result (λ text. AreStatusLines (option_map (λ l. l.now) lines.entry) history.now
        statuses.now text.items) }
{
    match lines {
        Some(lines) => report_told(alloc, history, statuses, &mut witnesses, lines, stop),
        None => report_each(alloc, history, statuses),
    }
}
