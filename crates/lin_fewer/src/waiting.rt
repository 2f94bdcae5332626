//! The pending calls of a problem.

ghost use Rattle.std.specs.Prelude.{◌≡◌, ◌+◌, ◌<◌, ◌≤◌, length, slice_get, IfOk, IfSome, IfNone, OnOk, Some};
ghost use Rattle.lin_history.specs.Problems.Problem.{problem_of};
ghost use Rattle.lin_fewer.specs.Fronts.{AreCompletedTo, AreLeftOrDone, AreNextPending};

use crate::front::is_completed;
use lin_history::Problem;
use lin_object::SeqObject;
use std::alloc::{AllocError, Global};
use std::marker::Model;

/// The pending calls of a problem: for each call the first one from it on that is pending. Contracts see the problem.
#[derive(Drop)]
pub struct Waiting<'p, O: SeqObject> {
    problem: &'p Problem<O>,
    next: Vec<usize>,
}

impl<'p, O: SeqObject> Model for Waiting<'p, O> {
    ghost use Rattle.std.specs.Prelude.{length};
    ghost use Rattle.lin_history.specs.Problems.ProblemParts.{ProblemParts};
    ghost use Rattle.lin_history.specs.Problems.Problem.{problem_of};
    ghost use Rattle.lin_fewer.specs.Fronts.{AreNextPending};

    ghost Value = { ProblemParts O O.State O.Op O.Reply };

    ghost view = { λ waiting. waiting.problem.now };

    ghost invariant = { λ waiting. AreNextPending
        (problem_of O.after O.State.eq O.Reply.eq waiting.problem.now) waiting.next.items
        (length waiting.problem.now.calls) };
}

// The entry at the index, if there is one.
fn entry(entries: &[usize], index: usize) -> Option<usize>
    ensures some { IfSome result (λ entry. slice_get entries.now index ≡ Some entry) }
    ensures none { IfNone result (length entries.now ≤ index) }
{
    if index < entries.len() {
        return Some(entries[index]);
    }
    None
}

// Puts the call, if it is pending, in as the next one for those that have none.
fn add_next<O: SeqObject>(
    problem: &Problem<O>,
    next: &mut Vec<usize>,
    call: usize,
) -> Result<(), AllocError>
    requires call { call < length problem.now.calls }
    requires next { AreNextPending (problem_of O.after O.State.eq O.Reply.eq problem.now)
        next.old.items call }
    ensures { OnOk result (AreNextPending (problem_of O.after O.State.eq O.Reply.eq problem.now)
        next.new.items (call + 1)) }
{
    let _calls = problem.calls();
    if is_completed(problem, call) {
        return Ok(());
    }
    while next.len() <= call {
        next.push(call)?;
    }
    Ok(())
}

impl<'p, O: SeqObject> Waiting<'p, O> {
    /// The pending calls of the problem.
    pub(crate) fn of(alloc: Global, problem: &'p Problem<O>) -> Result<Self, AllocError>
        ensures { IfOk result (λ waiting. waiting ≡ problem.now) }
    {
        let mut next = Vec::new(alloc);
        for call in 0..problem.len() {
            add_next(problem, &mut next, call)?;
        }
        Ok(Waiting { problem, next })
    }

    /// The problem.
    pub fn problem(&self) -> &'p Problem<O>
        ensures { result.now ≡ self.now }
    {
        self.problem
    }

    /// The first pending call from this one on. Where there is none, no call from this one on is less.
    pub fn from(&self, call: usize) -> usize
        ensures up { call ≤ result }
        ensures between { AreCompletedTo (problem_of O.after O.State.eq O.Reply.eq self.now) call
            result }
    {
        match entry(self.next.as_slice(), call) {
            Some(next) => next,
            None => usize::max(call, self.problem.len()),
        }
    }

    /// The first call from this one on that is pending, or not below the first one that is left.
    pub fn next_left(&self, first: usize, call: usize) -> usize
        ensures up { call ≤ result }
        ensures between { AreLeftOrDone (problem_of O.after O.State.eq O.Reply.eq self.now) first
            call result }
    {
        if call >= first {
            return call;
        }
        let next = self.from(call);
        if next < first { next } else { first }
    }
}
